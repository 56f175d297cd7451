// What a field says, as a value of its own.
ghost use Rattle.std.specs.Prelude.{◌≡◌};
ghost use Rattle.std.specs.Option.{option_map};
ghost use Rattle.name.specs.Names.{text};
ghost use Rattle.field.specs.Forms.{name_in, number_in, kid_in};
ghost use Rattle.field.specs.Views.{field_v};
ghost use Rattle.name.specs.Outcomes.{map_ok};

use crate::fault::{FieldFault, FieldRefusal};
use crate::forms::name_at;
use crate::parts::{Field, Placed};
use name::Name;

impl<'a> Placed<'a> {
    pub(crate) fn name(self) -> Result<Name, FieldFault>
        ensures { map_ok text result ≡ name_in self.entry.place (field_v self.entry.field) }
    {
        match self.field {
            Field::Name(bytes) => name_at(self.place, bytes),
            _ => Err(FieldRefusal::BadName.at(self.place)),
        }
    }

    pub(crate) fn number(self) -> Result<u32, FieldFault>
        ensures { result ≡ number_in self.entry.place (field_v self.entry.field) }
    {
        match self.field {
            Field::Number(n) => Ok(n),
            _ => Err(FieldRefusal::BadNumber.at(self.place)),
        }
    }

    // The name of a kid; none where it is not used.
    pub(crate) fn kid(self) -> Result<Option<Name>, FieldFault>
        ensures { map_ok (option_map text) result ≡ kid_in self.entry.place (field_v self.entry.field) }
    {
        match self.field {
            Field::Dash => Ok(None),
            Field::Name(bytes) => name_at(self.place, bytes).map(Some),
            _ => Err(FieldRefusal::BadName.at(self.place)),
        }
    }
}
