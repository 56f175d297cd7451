// Why a draft refuses a call.
ghost use Rattle.std.specs.Prelude.{◌≡◌};
ghost use Rattle.grammar.specs.Numbers.{draft_number};

// The part of a declaration or rule that a refusal is about.
#[derive(Clone, Copy, Debug, PartialEq, Eq)]
pub enum Part {
    Kids,
    Left,
    Operator,
    FirstKid,
    SecondKid,
    Source,
}

#[derive(Clone, Copy, Debug, PartialEq, Eq)]
pub enum DraftRefusal {
    // The name is declared already in its kind.
    Repeated,
    // The name is not declared.
    Undeclared(Part),
    // Over two kids, or kids that do not fit the operator.
    Unfit(Part),
    // There are as many as the limit allows already.
    Full,
    // A chain rule from its own left side.
    OwnSource,
    // A cost before zero, or weighing over 1,000.
    Unpriced,
}

impl DraftRefusal {
    // A match and no discriminants: variants that carry a part have none.
    pub fn number(&self) -> u8
        ensures { result ≡ draft_number self.now }
    {
        match self {
            DraftRefusal::Repeated => 10,
            DraftRefusal::Undeclared(_) => 11,
            DraftRefusal::Unfit(_) => 12,
            DraftRefusal::Full => 13,
            DraftRefusal::OwnSource => 14,
            DraftRefusal::Unpriced => 15,
        }
    }
}
