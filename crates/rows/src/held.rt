// The rows held, each as the end of a walk through shared entries.
ghost use Rattle.std.specs.Prelude.{◌≡◌, false, cond, [], length, is_ok, List};
ghost use Rattle.covers.specs.Held.{put as put_among, same_row};
ghost use Rattle.covers.specs.Ranks.{at};
ghost use Rattle.row.specs.Views.{row_in};
ghost use Rattle.std.specs.List.{slice_get};
ghost use Rattle.table.specs.Keys.{put_at, adds_at};
ghost use Rattle.table.specs.Memory.{SameSlice};
ghost use Rattle.table.specs.Tables.{keys_of};
ghost use Rattle.entries.specs.Keys.{stands};
ghost use Rattle.entries.specs.Walks.{Keeps, Keeps-prop, row_place, rows_from};

use crate::kid::HeldRow;
use crate::walks::{choice_back, end_of, lay_row};
use cost::Cost;
use entries::{Choice, Entry, RowEnd};
use row::Work;
use table::{Key, Refusal, Slot, Table};

/// Rows of one width, no two the same, in lent memory, in the order of putting. The place of a row is its label.
#[derive(Drop)]
pub struct Rows<'a, C: Cost>
where
    Entry<C>: Key,
{
    entries: Table<'a, Entry<C>>,
    ends: Table<'a, RowEnd>,
    width: usize,
    pub ghost keeps: { Keeps C.Cost.model width (keys_of entries) (keys_of ends) (rows_from width (keys_of entries) (keys_of ends)) } by { Keeps-prop C.Cost.model width (keys_of entries) (keys_of ends) (rows_from width (keys_of entries) (keys_of ends)) },
}

impl<'a, C: Cost> Rows<'a, C> {
    ghost use Rattle.rows.specs.Kids.{row_of};
    ghost use Rattle.rows.specs.Meaning.{SameMemory, room_for_row, row_at, rows_of, rows_room};

    /// No rows, in the lent memory. Each row that is put has `width` entries.
    pub fn new(
        entries: &'a mut [Slot<Entry<C>>],
        ends: &'a mut [Slot<RowEnd>],
        width: usize,
    ) -> Rows<'a, C>
        ensures rows { rows_of result ≡ [] }
        ensures entries { SameSlice entries.entry result.entries.slots }
        ensures ends { SameSlice ends.entry result.ends.slots }
        ensures width { result.width ≡ width }
    {
        Rows {
            entries: Table::new(entries),
            ends: Table::new(ends),
            width,
        }
    }

    /// Forgets all rows.
    pub fn clear(&mut self)
        ensures rows { rows_of self.new ≡ [] }
        ensures memory { SameMemory self.old self.new }
    {
        self.entries.clear();
        self.ends.clear();
    }

    /// How many rows are held.
    pub fn count(&self) -> usize
        ensures { result ≡ length (rows_of self.now) }
    {
        self.ends.count()
    }

    /// How many rows there is room for, free or not.
    pub fn room(&self) -> usize
        ensures { result ≡ rows_room self.now }
    {
        let rows = self.ends.room();
        let entries = self.entries.room();
        // A test for 0: `checked_div` with `map_or` would say the same in more words.
        if self.width == 0 {
            rows
        } else {
            rows.min(entries / self.width)
        }
    }

    /// The label of the row in the work places, or none where it is not held.
    pub fn find(&self, row: &[Option<Work<C>>]) -> Option<usize>
        ensures { result ≡ row_place C.Cost.model (rows_of self.now) (row_in row.now) }
    {
        if row.len() != self.width {
            return None;
        }
        let end = end_of(&self.entries, row)?;
        self.ends.find(&RowEnd(end))
    }

    /// The label of the row in the work places, which is added at the end where it is not held. A row that finds no room, or that
    /// has another width, is refused, and nothing changes.
    pub fn put(&mut self, row: &[Option<Work<C>>]) -> Result<usize, Refusal>
        ensures answer { result ≡ put_at (row_place C.Cost.model (rows_of self.old) (row_in row.now)) (length (rows_of self.old)) (room_for_row self.old (row_in row.now)) }
        ensures rows { rows_of self.new ≡ cond (is_ok result) (put_among (same_row C.Cost.model) (rows_of self.old) (row_in row.now)) (rows_of self.old) }
        ensures unchanged { adds_at (row_place C.Cost.model (rows_of self.old) (row_in row.now)) (length (rows_of self.old)) (room_for_row self.old (row_in row.now)) ≡ false → self.new ≡ self.old }
        ensures memory { SameMemory self.old self.new }
    {
        if let Some(label) = self.find(row) {
            return Ok(label);
        }
        if row.len() != self.width || self.count() >= self.room() {
            return Err(Refusal::Full);
        }
        let end = lay_row(&mut self.entries, row)?;
        self.ends.put(RowEnd(end))
    }

    /// What stands for nonterminal n in the row of the label: none where no row has the label, or the row none there.
    pub fn entry(&self, label: usize, n: usize) -> Option<Choice<C>>
        ensures { stands result ≡ at (row_at (rows_of self.now) label) n }
    {
        let end = self.end(label)?;
        choice_back(self.entries.stored_slots(), end.0, n, self.width)
    }

    // The end of the row of the label.
    fn end(&self, label: usize) -> Option<RowEnd>
        ensures { result ≡ slice_get (keys_of self.now.ends) label }
    {
        self.ends.key_at(label).copied()
    }

    /// The row of the label, as the row of a kid. It has no entries where no row has the label.
    pub fn row(&self, label: usize) -> HeldRow<C>
        ensures { row_of result ≡ row_at (rows_of self.now) label }
    {
        HeldRow {
            entries: self.entries.stored_slots(),
            end: self.end(label),
            width: self.width,
        }
    }
}
