// The rows of nodes in row places, as many places for each node as there are nonterminals.
ghost use Rattle.std.specs.Prelude.{◌≡◌, ◌+◌, ◌*◌, ◌<◌, ◌≤◌, map, length, Some, None};
ghost use Rattle.std.specs.Option.{MatchOption};
ghost use Rattle.grammar.specs.Views.{rule_of};
ghost use Rattle.nodes.specs.declared.NodeNumber.{NodeNumber as NumberOf};
ghost use Rattle.nodes.specs.Meaning.{Kept, Pushed};
ghost use Rattle.nodes.specs.Views.{node_of};
ghost use Rattle.label.specs.Views.{rule_number};
ghost use Rattle.row.specs.Views.{row_in, costs_of};
ghost use Rattle.plain.specs.Rows.{row_at, rows_under, KidsKept, RowOver, RowMoved, RowAdded, rule_in};

use cost::Cost;
use grammar::parts::{Rule, RuleNumber};
use label::kids_over;
use nodes::{Node, NodeNumber, Nodes};
use row::{KidRow, Step, Work};

// The row of a node.
#[derive(Drop)]
pub(crate) struct KeptRow<'a, C> {
    places: &'a [Option<Work<C>>],
}

impl<'a, C: Cost> KidRow for KeptRow<'a, C> {
    type Cost = C;

    ghost costs = { λ k. costs_of (row_in k.places.now) };

    fn cost_at(&self, n: usize) -> Option<C> {
        let place = self.places.get(n).copied().flatten();
        place.map(|best| best.cost)
    }
}

// Where the row places of a node begin, or none where they are not all there.
fn start_of(places: usize, width: usize, node: usize) -> Option<usize>
    ensures { MatchOption result (places < node * width + width) (λ start. (start ≡ node * width) × (start + width ≤ places)) }
{
    let start = node.checked_mul(width)?;
    // Bounds test: the contract of a slice's `get_mut` does not say what the slice holds after the write.
    let end = start.checked_add(width)?;
    (end <= places).then_some(start)
}

// The row of a node, without entries where there is no such node, or its row is not there.
fn kept_row<C: Cost>(rows: &[Option<Work<C>>], width: usize, node: Option<NodeNumber>) -> KeptRow<C>
    ensures { (k : NumberOf) → node ≡ Some k → k.0 * width + width ≤ length rows.now → row_in result.places.now ≡ row_at rows.now width k.0 }
{
    let start = node.and_then(|k| start_of(rows.len(), width, k.0));
    let places = start.map(|start| &rows[start..start + width]);
    KeptRow {
        places: places.unwrap_or(&[]),
    }
}

// The row of a node from the rows of its kids, into as many places as there are nonterminals.
fn row_over<C: Cost>(
    rules: &[Rule<C>],
    rows: &[Option<Work<C>>],
    node: &Node,
    row: &mut [Option<Work<C>>],
)
    ensures { KidsKept rows.now (length row.old) (node_of node.now).top → RowOver C.Cost.model (map rule_of rules.now) (rows_under rows.now (length row.old) (node_of node.now).top) row.new }
{
    let first = kept_row(rows, row.len(), node.top.first());
    let second = kept_row(rows, row.len(), node.top.second());
    let kids = kids_over(node, &first, &second);
    Step { rules, kids }.best_into(row);
}

// Moves the row of the newest node, which is the one before `number`, to its place among the others.
fn move_row<C: Copy>(newest: &[Option<Work<C>>], rows: &mut [Option<Work<C>>], number: usize)
    ensures { RowMoved newest.now number rows.old rows.new }
{
    let width = newest.len();
    let last = number.checked_sub(1);
    if let Some(start) = last.and_then(|node| start_of(rows.len(), width, node)) {
        rows[start..start + width].copy_from_slice(newest);
    }
}

// The rule that a row has for a nonterminal.
pub(crate) fn rule_at<C: Copy>(places: &[Option<Work<C>>], n: usize) -> Option<RuleNumber>
    ensures { rule_number result ≡ rule_in (row_in places.now) n }
{
    let place = places.get(n).copied().flatten();
    place.map(|best| best.rule)
}

// The rule that the row of an earlier node has for a nonterminal.
pub(crate) fn kept_rule<C: Cost>(
    rows: &[Option<Work<C>>],
    width: usize,
    node: NodeNumber,
    n: usize,
) -> Option<RuleNumber>
    ensures { node.0 * width + width ≤ length rows.now → rule_number result ≡ rule_in (row_at rows.now width node.0) n }
{
    rule_at(kept_row(rows, width, Some(node)).places, n)
}

// Appends a node to the list. The newest row goes to its place among the earlier ones, and the row of the new node takes its places.
// One call for all three parts, since of every labeller the newest row is that of the last node.
pub(crate) fn add_node<C: Cost>(
    rules: &[Rule<C>],
    node: Node,
    nodes: &mut Nodes,
    newest: &mut [Option<Work<C>>],
    earlier: &mut [Option<Work<C>>],
) -> Option<NodeNumber>
    ensures pushed { Pushed nodes.old (node_of node) None result nodes.new }
    ensures kept { Kept nodes.old nodes.new }
    ensures rows { (k : NumberOf) → result ≡ Some k → RowAdded C.Cost.model (map rule_of rules.now) k.0 node newest.old earlier.old newest.new earlier.new }
{
    let number = nodes.push(node, None)?;
    move_row(newest, earlier, number.0);
    row_over(rules, earlier, &node, newest);
    Some(number)
}
