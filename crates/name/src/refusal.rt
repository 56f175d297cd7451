// Why a text is no name.
ghost use Rattle.std.specs.Prelude.{◌≡◌};

// The text is empty, over 16 bytes, or not of letters, digits, `_` and `.`.
#[derive(Clone, Copy, Debug, PartialEq, Eq)]
pub struct BadName;

impl BadName {
    // The number of this refusal.
    pub fn number(self) -> u8
        ensures { result ≡ 4 }
    {
        4
    }
}
