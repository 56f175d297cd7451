// What is wrong with a machine file, and where.

#![tactic(auto)]

ghost use Rattle.std.specs.Prelude.{◌≡◌};
ghost use Rattle.fault.specs.Faults.{refusal_number, draft_field, field_field, part_field, draft_fault, field_fault};

use field::{FieldFault, FieldRefusal};
use grammar::refusal::{DraftRefusal, Part};

// Why a line is refused as a whole, or the first line of a file at a field, with the number of each refusal.
#[derive(Clone, Copy, Debug, PartialEq, Eq)]
pub enum LineRefusal {
    // Over 8,192 bytes.
    TooLong = 1,
    // A line of no known kind, or a first line that is no `cost` line.
    Unknown = 2,
    // The wrong number of fields.
    Miscounted = 3,
}

// Why a machine file is refused, by the layer that refuses it.
#[derive(Clone, Copy, Debug, PartialEq, Eq)]
pub enum Refusal {
    // The file cannot be read, or has over 32,768 bytes.
    File,
    Line(LineRefusal),
    Field(FieldRefusal),
    Draft(DraftRefusal),
}

impl Refusal {
    pub fn number(&self) -> u8
        ensures { result ≡ refusal_number self.now }
    {
        match self {
            Refusal::File => 6,
            Refusal::Line(refusal) => *refusal as u8,
            Refusal::Field(refusal) => refusal.number(),
            Refusal::Draft(refusal) => refusal.number(),
        }
    }
}

// A fault within a line. `field` counts from 1, and is 0 where the refusal is about no single field.
// No `Option`: a fault is printed with this 0, so each reader would turn `None` back into 0.
#[derive(Clone, Copy, Debug, PartialEq, Eq)]
pub struct LineFault {
    pub field: usize,
    pub refusal: Refusal,
}

// A fault of a machine file. `line` counts from 1, and is 0 where the refusal is about no single line.
// No `Option`, as in `LineFault`: both numbers are printed as they stand here.
#[derive(Clone, Copy, Debug, PartialEq, Eq)]
pub struct MachineFault {
    pub line: usize,
    pub field: usize,
    pub refusal: Refusal,
}

// The field of a line that a field's refusal is about.
fn field_of_field(fault: FieldFault) -> usize
    ensures { result ≡ field_field fault }
{
    match fault.refusal {
        FieldRefusal::Missing => 0,
        FieldRefusal::BadName | FieldRefusal::BadNumber => fault.place,
    }
}

// The field of a line that a draft's refusal is about.
fn field_of_draft(refusal: DraftRefusal) -> usize
    ensures { result ≡ draft_field refusal }
{
    match refusal {
        DraftRefusal::Repeated => 2,
        DraftRefusal::Undeclared(part) | DraftRefusal::Unfit(part) => field_of_part(part),
        DraftRefusal::Full | DraftRefusal::OwnSource | DraftRefusal::Unpriced => 0,
    }
}

// The field of a line where a part of a declaration or rule stands.
fn field_of_part(part: Part) -> usize
    ensures { result ≡ part_field part }
{
    match part {
        Part::Left => 2,
        Part::Kids | Part::Operator | Part::Source => 3,
        Part::FirstKid => 4,
        Part::SecondKid => 5,
    }
}

impl From<FieldFault> for LineFault {
    ghost from_gives = { λ e r. r ≡ field_fault e };

    fn from(fault: FieldFault) -> LineFault {
        LineFault {
            field: field_of_field(fault),
            refusal: Refusal::Field(fault.refusal),
        }
    }
}

impl From<DraftRefusal> for LineFault {
    ghost from_gives = { λ e r. r ≡ draft_fault e };

    fn from(refusal: DraftRefusal) -> LineFault {
        LineFault {
            field: field_of_draft(refusal),
            refusal: Refusal::Draft(refusal),
        }
    }
}
