// A part of a line, read in a form.
ghost use Rattle.std.specs.Prelude.{◌≡◌};
ghost use Rattle.name.specs.Names.{text};
ghost use Rattle.field.specs.declared.fault.FieldRefusal.TheVariants.{BadNumber};
ghost use Rattle.field.specs.Forms.{name_form, operator_form, payload_form, item_form, kid_v, kid_form, field_form, placed_form, or_fault};
ghost use Rattle.field.specs.Views.{NameV, NumberV, field_v, placed_v};
ghost use Rattle.name.specs.Outcomes.{map_ok};

use crate::cut::place_of;
use crate::fault::{FieldFault, FieldRefusal};
use crate::parts::{Field, Form, Part, Placed};
use form::{cost_of, cycles_of, kids_of, payload_of};
use name::Name;

// The name with these bytes, or a refusal at the place.
pub(crate) fn name_at(place: usize, bytes: &[u8]) -> Result<Name, FieldFault>
    ensures { map_ok text result ≡ name_form place bytes.now }
{
    Name::new(bytes).map_err(|_| FieldRefusal::BadName.at(place))
}

// The number, or a refusal at the place.
fn number_at<'a>(place: usize, number: Option<u32>) -> Result<Field<'a>, FieldFault>
    ensures { map_ok field_v result ≡ map_ok NumberV (or_fault BadNumber place number) }
{
    let number = number.ok_or(FieldRefusal::BadNumber.at(place))?;
    Ok(Field::Number(number))
}

impl<'a> Part<'a> {
    // This part as a name.
    fn name_field(self) -> Result<Field<'a>, FieldFault>
        ensures { map_ok field_v result ≡ map_ok NameV (name_form self.entry.place self.entry.text.now) }
    {
        name_at(self.place, self.text)?;
        Ok(Field::Name(self.text))
    }

    // This part as a dash or a name.
    fn kid_field(self) -> Result<Field<'a>, FieldFault>
        ensures { map_ok field_v result ≡ map_ok kid_v (kid_form self.entry.place self.entry.text.now) }
    {
        match self.text {
            b"-" => Ok(Field::Dash),
            _ => self.name_field(),
        }
    }

    // The name before the first `=`.
    pub fn operator(self) -> Result<Name, FieldFault>
        ensures { map_ok text result ≡ operator_form self.entry.place self.entry.text.now }
    {
        let text = self.text;
        name_at(self.place, &text[0..place_of(text, b'=')])
    }

    // The payload after the first `=`; 0 where there is none.
    pub fn payload(self) -> Result<i32, FieldFault>
        ensures { result ≡ payload_form self.entry.place self.entry.text.now }
    {
        let text = self.text;
        let Some(payload) = text.get(place_of(text, b'=') + 1..) else {
            return Ok(0);
        };
        payload_of(payload).ok_or(FieldRefusal::BadNumber.at(self.place))
    }

    // This part as an operator and a payload.
    fn item_field(self) -> Result<Field<'a>, FieldFault>
        ensures { map_ok field_v result ≡ item_form self.entry.place self.entry.text.now }
    {
        self.operator()?;
        let text = self.text;
        let operator = &text[0..place_of(text, b'=')];
        let payload = self.payload()?;
        Ok(Field::Item { operator, payload })
    }

    // What this part says in a form, without its place.
    fn plain(self, form: Form) -> Result<Field<'a>, FieldFault>
        ensures { map_ok field_v result ≡ field_form form self.entry.place self.entry.text.now }
    {
        match form {
            Form::Name => self.name_field(),
            Form::Kids => number_at(self.place, kids_of(self.text)),
            Form::Cost => number_at(self.place, cost_of(self.text)),
            Form::Cycles => number_at(self.place, cycles_of(self.text)),
            Form::Kid => self.kid_field(),
            Form::Item => self.item_field(),
        }
    }

    // What this part says in a form.
    pub(crate) fn read(self, form: Form) -> Result<Placed<'a>, FieldFault>
        ensures { map_ok placed_v result ≡ placed_form form self.entry.place self.entry.text.now }
    {
        let field = self.plain(form)?;
        let place = self.place;
        Ok(Placed { place, field })
    }
}
