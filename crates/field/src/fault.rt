// What is wrong with a field, and where.
ghost use Rattle.std.specs.Prelude.{◌≡◌};
ghost use Rattle.field.specs.Refusals.{field_refusal_number};

// Why a field is refused, with the number of each refusal.
#[derive(Clone, Copy, Debug, PartialEq, Eq)]
pub enum FieldRefusal {
    // The line has too few fields.
    Missing = 3,
    // The field is no name.
    BadName = 4,
    // The field is no number of its form, or out of range.
    BadNumber = 5,
}

impl FieldRefusal {
    pub fn number(self) -> u8
        ensures { result ≡ field_refusal_number self }
    {
        self as u8
    }

    // This refusal, of the field at a place.
    pub(crate) fn at(self, place: usize) -> FieldFault
        ensures place { result.place ≡ place }
        ensures refusal { result.refusal ≡ self }
    {
        FieldFault {
            place,
            refusal: self,
        }
    }
}

// `place` counts fields from 1.
#[derive(Clone, Copy, Debug, PartialEq, Eq)]
pub struct FieldFault {
    pub place: usize,
    pub refusal: FieldRefusal,
}
