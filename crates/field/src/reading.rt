// The fields of a line, each read as what it has to be.
ghost use Rattle.std.specs.Prelude.{◌≡◌};
ghost use Rattle.std.specs.Option.{option_map};
ghost use Rattle.name.specs.Names.{text};
ghost use Rattle.field.specs.declared.parts.Form.TheVariants.{Item};
ghost use Rattle.field.specs.Forms.{placed_form, name_form, kids_form, cost_form, cycles_form, kid_form};
ghost use Rattle.field.specs.Lines.{take_by};
ghost use Rattle.field.specs.Readers.{to_come, next_place, Moved};
ghost use Rattle.field.specs.Views.{placed_v};
ghost use Rattle.name.specs.Outcomes.{map_ok};

use crate::fault::FieldFault;
use crate::line_reader::LineReader;
use crate::parts::{Form, Placed};
use name::Name;

#[tactic(auto, unfolding(crate::specs::Lines::take_by))]
impl<'a> LineReader<'a> {
    // What the next field says in a form.
    pub fn field(&mut self, form: Form) -> Result<Placed<'a>, FieldFault>
        ensures value { map_ok placed_v result ≡ take_by (placed_form form) (next_place self.old) (to_come self.old) }
        ensures moved { Moved result self.old self.new }
    {
        self.part()?.read(form)
    }

    pub fn name(&mut self) -> Result<Name, FieldFault>
        ensures value { map_ok text result ≡ take_by name_form (next_place self.old) (to_come self.old) }
        ensures moved { Moved result self.old self.new }
    {
        self.field(Form::Name)?.name()
    }

    // `kids`, `cost` and `cycles` are one line each over `field`, so a caller need not name a form.
    pub fn kids(&mut self) -> Result<u32, FieldFault>
        ensures value { result ≡ take_by kids_form (next_place self.old) (to_come self.old) }
        ensures moved { Moved result self.old self.new }
    {
        self.field(Form::Kids)?.number()
    }

    pub fn cost(&mut self) -> Result<u32, FieldFault>
        ensures value { result ≡ take_by cost_form (next_place self.old) (to_come self.old) }
        ensures moved { Moved result self.old self.new }
    {
        self.field(Form::Cost)?.number()
    }

    pub fn cycles(&mut self) -> Result<u32, FieldFault>
        ensures value { result ≡ take_by cycles_form (next_place self.old) (to_come self.old) }
        ensures moved { Moved result self.old self.new }
    {
        self.field(Form::Cycles)?.number()
    }

    // The name of a kid; none for a dash.
    pub fn kid(&mut self) -> Result<Option<Name>, FieldFault>
        ensures value { map_ok (option_map text) result ≡ take_by kid_form (next_place self.old) (to_come self.old) }
        ensures moved { Moved result self.old self.new }
    {
        self.field(Form::Kid)?.kid()
    }

    pub fn item(&mut self) -> Result<Placed<'a>, FieldFault>
        ensures value { map_ok placed_v result ≡ take_by (placed_form Item) (next_place self.old) (to_come self.old) }
        ensures moved { Moved result self.old self.new }
    {
        self.field(Form::Item)
    }
}
