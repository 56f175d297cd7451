// The kinds of lines that follow the first.
ghost use Rattle.std.specs.Prelude.{◌≡◌};
ghost use Rattle.entry.specs.Entries.{kind_of, width};

#[derive(Clone, Copy, Debug, PartialEq, Eq)]
pub enum Kind {
    Operator,
    Nonterminal,
    Base,
    Chain,
}

// The kind of line that a word begins.
pub fn kind_of(word: &[u8]) -> Option<Kind>
    ensures { result ≡ kind_of word.now }
{
    match word {
        b"op" => Some(Kind::Operator),
        b"nt" => Some(Kind::Nonterminal),
        b"base" => Some(Kind::Base),
        b"chain" => Some(Kind::Chain),
        _ => None,
    }
}

impl Kind {
    // How many fields a line of this kind has.
    pub fn width(self) -> usize
        ensures { result ≡ width self }
    {
        match self {
            Kind::Operator => 3,
            Kind::Nonterminal => 2,
            Kind::Base => 8,
            Kind::Chain => 6,
        }
    }
}
