// The fields of a line, one by one.
ghost use Rattle.std.specs.Prelude.{◌≡◌, length, MatchOption};
ghost use Rattle.field.specs.Lines.{first_of};
ghost use Rattle.field.specs.Readers.{to_come, next_place, Starts, Hands, Ended, Moved};
ghost use Rattle.field.specs.Views.{part_v};
ghost use Rattle.name.specs.Outcomes.{map_ok};

use crate::cut::{parts, place_of};
use crate::fault::{FieldFault, FieldRefusal};
use crate::line_reader::LineReader;
use crate::parts::Part;

#[tactic(auto, unfolding(crate::specs::Readers::to_come, crate::specs::Readers::rest, crate::specs::Readers::taken, crate::specs::Lines::first_of))]
impl<'a> LineReader<'a> {
    // A reader before the first field.
    pub fn new(line: &'a [u8], mark: u8) -> LineReader<'a>
        ensures { Starts mark line.now result }
    {
        LineReader {
            line,
            mark,
            cursor: 0,
            fields: 0,
        }
    }

    // How many fields are still to come.
    pub fn count(&self) -> usize
        ensures { result ≡ length (to_come self.now) }
    {
        let Some(rest) = self.line.get(self.cursor..) else {
            return 0;
        };
        parts(rest, self.mark)
    }

    // The next field with its place; none where there are no more.
    pub fn next_field(&mut self) -> Option<Part<'a>>
        ensures { MatchOption result (Ended self.old self.new) (λ p. Hands self.old p self.new) }
    {
        let rest = self.line.get(self.cursor..)?;
        let n = place_of(rest, self.mark);
        let text = &rest[..n];
        self.cursor += n + 1;
        self.fields += 1;
        Some(Part {
            place: self.fields,
            text,
        })
    }

    // The next field; a refusal at its place where the line has no more.
    pub fn part(&mut self) -> Result<Part<'a>, FieldFault>
        ensures value { map_ok part_v result ≡ first_of (next_place self.old) (to_come self.old) }
        ensures moved { Moved result self.old self.new }
    {
        let place = self.fields + 1;
        self.next_field().ok_or(FieldRefusal::Missing.at(place))
    }
}
