// Making, reading and comparing names.
ghost use Rattle.std.specs.Prelude.{◌≡◌, ◌==◌, true};
ghost use Rattle.std.specs.Ordering.{eq_of_both, on};
ghost use Rattle.std.specs.Cmp.Rules.{comparing};
ghost use Rattle.std.proofs.Common.{rules};
ghost use Rattle.std.specs.Str.{bytes_eq};
ghost use Rattle.name.specs.Names.{text, ok_text};
ghost use Rattle.name.specs.Texts.{is_name, name_of};

use crate::bytes::{is_name, same_bytes};
use crate::{BadName, Name};

impl Name {
    // The name with these bytes; a refusal exactly where they are no name.
    pub fn new(bytes: &[u8]) -> Result<Name, BadName>
        ensures { ok_text result ≡ name_of bytes.now }
    {
        if is_name(bytes) {
            Ok(Name::holding(bytes))
        } else {
            Err(BadName)
        }
    }

    fn holding(bytes: &[u8]) -> Name
        requires { is_name bytes.now ≡ true }
        ensures { text result ≡ bytes.now }
    {
        let len = bytes.len();
        let mut kept = [0; 16];
        kept[0..len].copy_from_slice(bytes);
        Name { bytes: kept, len }
    }

    pub fn as_bytes(&self) -> &[u8]
        ensures { result.now ≡ text self.now }
    {
        &self.bytes[0..self.len]
    }

    // Whether this name has these bytes.
    pub fn is(&self, bytes: &[u8]) -> bool
        ensures { result ≡ bytes_eq (text self.now) bytes.now }
    {
        same_bytes(self.as_bytes(), bytes)
    }

    // Whether two names have the same text.
    #[tactic(auto, using(crate::proofs::Facts::same_names))]
    pub fn same(&self, other: &Name) -> bool
        ensures { result ≡ bytes_eq (text self.now) (text other.now) }
    {
        self == other
    }
}

// It answers what a derive would, but compares the texts: they are mostly shorter than the bytes kept.
impl PartialEq for Name {
    ghost eq = { eq_of_both (on (λ n. n.bytes) bytes_eq) (on (λ n. n.len) ◌==◌) };

    ghost laws = { Prim.search (comparing, rules) };

    #[tactic(auto, using(crate::proofs::Facts::equal_names))]
    fn eq(&self, other: &Name) -> bool {
        self.as_bytes() == other.as_bytes()
    }
}
