// The lines of a file: a line feed ends one, the last may lack it, and empty ones are counted and skipped.
ghost use Rattle.std.specs.Prelude.{◌≡◌};
ghost use Rattle.std.specs.Iterator.{YieldsFirstBy, item_count};
ghost use Rattle.field.specs.Readers.{to_come, next_place};
ghost use Rattle.field.specs.Views.{part_v};
ghost use Rattle.machine.specs.Files.{lines_of, numbered};

use field::{LineReader, Part};
use std::marker::Model;

// A clause sees the lines with content that are still to come, each with its number.
#[derive(Drop)]
pub struct Lines<'a> {
    reader: LineReader<'a>,
}

impl<'a> Model for Lines<'a> {
    ghost use Rattle.std.specs.Prelude.{ℕ, List};
    ghost use Rattle.field.specs.Readers.{to_come, next_place};
    ghost use Rattle.machine.specs.Files.{numbered};

    ghost Value = { List (ℕ × List ℕ) };

    ghost view = { λ l. numbered (next_place l.reader) (to_come l.reader) };
}

impl<'a> Lines<'a> {
    pub fn new(text: &'a [u8]) -> Lines<'a>
        ensures { result ≡ lines_of text.now }
    {
        Lines {
            reader: LineReader::new(text, b'\n'),
        }
    }

    // The reader of what is left.
    pub fn into_reader(self) -> LineReader<'a>
        ensures { numbered (next_place result) (to_come result) ≡ self.entry }
    {
        let reader = self.reader;
        reader
    }
}

// The parts that a reader has yet to hand out, as lines.
impl<'a> From<LineReader<'a>> for Lines<'a> {
    ghost from_gives = { λ r lines. lines ≡ numbered (next_place r) (to_come r) };

    fn from(reader: LineReader<'a>) -> Lines<'a> {
        Lines { reader }
    }
}

impl<'a> Iterator for Lines<'a> {
    type Item = Part<'a>;

    ghost next_gives = { YieldsFirstBy part_v (λ lines. lines) };

    ghost remaining = { item_count (λ lines. lines) };

    #[tactic(auto, unfolding(crate::specs::Files::numbered))]
    fn next(&mut self) -> Option<Part<'a>> {
        while let Some(part) = self.reader.next_field() {
            if !part.text.is_empty() {
                return Some(part);
            }
        }
        None
    }
}
