// The row of a key, worked out and kept.
ghost use Rattle.std.specs.Prelude.{◌≡◌, ◌≤◌, map, length};
ghost use Rattle.name.specs.Outcomes.{map_ok};
ghost use Rattle.grammar.specs.Lists.{Lists, Declared};
ghost use Rattle.grammar.specs.Views.{rule_of};
ghost use Rattle.covers.specs.Trees.{count};
ghost use Rattle.covers.specs.Rows.{row_from};
ghost use Rattle.row.specs.Views.{row_in};
ghost use Rattle.rows.specs.Meaning.{SameMemory, rows_of, rows_room};
ghost use Rattle.states.specs.Keys.{key_of};
ghost use Rattle.states.specs.Leading.{key_rows};
ghost use Rattle.states.specs.Placing.{KeepsRow, label_answer};

use applied::Applied;
use cost::Cost;
use grammar::parts::Rule;
use label::NoRoom;
use nodes::Label;
use row::{Step, Work};
use rows::Rows;

// The row of the nodes that have a key, from the rows of its labels, into as many places as there are nonterminals.
pub(crate) fn work_out<C: Cost>(
    rules: &[Rule<C>],
    rows: &Rows<C>,
    key: Applied<Label>,
    work: &mut [Option<Work<C>>],
)
    ensures { (G : Lists C) → Declared G → G.rules ≡ map rule_of rules.now → count G ≡ length work.old → row_in work.new ≡ row_from C.Cost.model G (key_rows (rows_of rows.now) (key_of key)) }
{
    // Where the key has no such label, the row is not looked at.
    let first = rows.row(key.first().unwrap_or(Label(0)).0);
    let second = rows.row(key.second().unwrap_or(Label(0)).0);
    let kids = key.over(&first, &second);
    Step { rules, kids }.row_into(work);
}

// The label of the row in the work places. It is kept where it is not held, unless as many rows are held as may be.
pub(crate) fn keep_row<C: Cost>(
    rows: &mut Rows<C>,
    work: &[Option<Work<C>>],
    most: usize,
) -> Result<Label, NoRoom>
    ensures keeps { length work.now ≡ rows.old.width → most ≤ rows_room rows.old → KeepsRow C.Cost.model rows.old (rows_of rows.old) (row_in work.now) most (label_answer result) rows.new }
    ensures memory { SameMemory rows.old rows.new }
{
    if let Some(label) = rows.find(work) {
        return Ok(Label(label));
    }
    if rows.count() >= most {
        return Err(NoRoom::Rows);
    }
    rows.put(work).map(Label).map_err(|_| NoRoom::Rows)
}
