// The first line of a machine file: which make of cost, and which labeller.
ghost use Rattle.std.specs.Prelude.{◌≡◌};
ghost use Rattle.name.specs.Outcomes.{map_ok};
ghost use Rattle.field.specs.Readers.{to_come, rest};
ghost use Rattle.entry.specs.Entries.{word, make_of, labelling_of, header_of};
ghost use Rattle.entry.specs.EntryViews.{header_view};

use fault::{LineFault, LineRefusal, Refusal};
use field::LineReader;
use name::same_bytes;

// The longest line, in bytes.
pub const LONGEST_LINE: usize = 8192;

// The make of cost that totals are counted in.
#[derive(Clone, Copy, Debug, PartialEq, Eq)]
pub enum Make {
    // Bytes alone.
    Bytes,
    // Cycles before bytes.
    Cycles,
}

// The labeller that the machine is meant for.
#[derive(Clone, Copy, Debug, PartialEq, Eq)]
pub enum Labelling {
    // The automaton, with tables.
    Table,
    // The plain labeller.
    Plain,
}

#[derive(Clone, Copy, Debug, PartialEq, Eq)]
pub struct Header {
    pub make: Make,
    pub labelling: Labelling,
}

// The next field; empty where there is none.
fn next_word<'a>(fields: &mut LineReader<'a>) -> &'a [u8]
    ensures value { result.now ≡ word (to_come fields.old) }
    ensures after { to_come fields.new ≡ rest (to_come fields.old) }
{
    fields.next_field().map_or(&[], |part| part.text)
}

fn make_of(word: &[u8]) -> Option<Make>
    ensures { result ≡ make_of word.now }
{
    match word {
        b"bytes" => Some(Make::Bytes),
        b"cycles" => Some(Make::Cycles),
        _ => None,
    }
}

fn labelling_of(word: &[u8]) -> Option<Labelling>
    ensures { result ≡ labelling_of word.now }
{
    match word {
        b"table" => Some(Labelling::Table),
        b"plain" => Some(Labelling::Plain),
        _ => None,
    }
}

// A refusal of a line at a field.
pub(crate) fn refused(field: usize, refusal: LineRefusal) -> LineFault
    ensures field { result.field ≡ field }
    ensures refusal { result.refusal ≡ Refusal.Line refusal }
{
    LineFault {
        field,
        refusal: Refusal::Line(refusal),
    }
}

pub fn header_of(line: &[u8]) -> Result<Header, LineFault>
    ensures { map_ok header_view result ≡ header_of line.now }
{
    if line.len() > LONGEST_LINE {
        return Err(refused(0, LineRefusal::TooLong));
    }
    let mut fields = LineReader::new(line, b',');
    if !same_bytes(next_word(&mut fields), b"cost") {
        return Err(refused(1, LineRefusal::Unknown));
    }
    let make = make_of(next_word(&mut fields)).ok_or(refused(2, LineRefusal::Unknown))?;
    let labelling = labelling_of(next_word(&mut fields)).ok_or(refused(3, LineRefusal::Unknown))?;
    match fields.next_field() {
        Some(_) => Err(refused(0, LineRefusal::Miscounted)),
        None => Ok(Header { make, labelling }),
    }
}
