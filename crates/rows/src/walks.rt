// Walks through the table of entries.
ghost use Rattle.std.specs.Prelude.{◌≡◌, ◌+◌, ◌^◌, ◌<◌, ◌≤◌, [], length, Some, None};
ghost use Rattle.covers.specs.Ranks.{at};
ghost use Rattle.covers.specs.Rows.{cost_entry};
ghost use Rattle.row.specs.Views.{kept_of, row_in};
ghost use Rattle.table.specs.Memory.{SameSlice};
ghost use Rattle.table.specs.Tables.{keys_of, room_of};
ghost use Rattle.entries.specs.Keys.{entry_after, stands};
ghost use Rattle.entries.specs.Walks.{entry_at, walk, back};
ghost use Rattle.rows.specs.Stored.{keys_in};
ghost use Rattle.rows.specs.Laying.{LaysRow};

use cost::Cost;
use entries::{Choice, Entry};
use row::Work;
use table::{Refusal, Slot, Table};

// A place as an entry names it.
fn link(place: usize) -> Option<u32>
    ensures { place < 2 ^ 32 → result ≡ Some place }
{
    u32::try_from(place).ok()
}

// The entry of a row after another one.
fn entry_after<C: Copy>(before: Option<u32>, work: &Option<Work<C>>) -> Entry<C>
    ensures { result ≡ entry_after before (cost_entry (kept_of work.now)) }
{
    Entry {
        before,
        choice: work.map(|work| Choice {
            rule: work.rule,
            cost: work.cost,
        }),
    }
}

// Where the walk of a row ends: none where it does not go through.
pub(crate) fn end_of<C: Cost>(
    entries: &Table<Entry<C>>,
    row: &[Option<Work<C>>],
) -> Option<Option<u32>>
    ensures { result ≡ walk C.Cost.model (keys_of entries.now) None (row_in row.now) }
{
    let mut end = None;
    for work in row {
        let found = entries.find(&entry_after(end, work))?;
        end = link(found);
    }
    Some(end)
}

// Puts the entries of a row, and answers where its walk ends then.
pub(crate) fn lay_row<C: Cost>(
    entries: &mut Table<Entry<C>>,
    row: &[Option<Work<C>>],
) -> Result<Option<u32>, Refusal>
    ensures lays { length (keys_of entries.old) + length row.now ≤ room_of entries.old → LaysRow C.Cost.model (keys_of entries.old) (keys_of entries.new) (row_in row.now) result }
    ensures memory { SameSlice entries.old.slots entries.new.slots }
{
    let mut end = None;
    for work in row {
        let place = entries.put(entry_after(end, work))?;
        end = link(place);
    }
    Ok(end)
}

// The entry at a place.
fn entry_at<C: Cost>(entries: &[Slot<Entry<C>>], place: Option<u32>) -> Option<Entry<C>>
    ensures { result ≡ entry_at (keys_in entries.now) place }
{
    entries.get(place? as usize).map(|slot| *slot.key())
}

// What stands at n in the row of this width that ends here: from its last entry back.
pub(crate) fn choice_back<C: Cost>(
    entries: &[Slot<Entry<C>>],
    end: Option<u32>,
    n: usize,
    width: usize,
) -> Option<Choice<C>>
    ensures { stands result ≡ at (back (keys_in entries.now) width end []) n }
{
    let mut place = end;
    let mut choice = None;
    for _i in n..width {
        let entry = entry_at(entries, place);
        choice = entry.and_then(|entry| entry.choice);
        place = entry.and_then(|entry| entry.before);
    }
    choice
}
