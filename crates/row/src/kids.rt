// What a base rule costs over the rows of the kids.
ghost use Rattle.std.specs.Prelude.{◌≡◌, List, Option};
ghost use Rattle.grammar.specs.Views.{form_of};
ghost use Rattle.covers.specs.Ranks.{at, with1, with2, base_offer};
ghost use Rattle.row.specs.Views.{no_chains, applied};

use applied::Applied;
use cost::Cost;
use grammar::parts::{Form, Rule};

// The row of a kid, by its costs: least costs, or costs above the least.
pub trait KidRow {
    type Cost: Cost;

    // For each nonterminal none or a cost.
    ghost costs: { Self → List (Option Self.Cost) };

    fn cost_at(&self, n: usize) -> Option<Self::Cost>
        ensures { result ≡ at (costs self.now) n };
}

// What a node's row is worked out from: the rules, and the node's operator with the rows of its kids.
#[derive(Drop)]
pub struct Step<'r, 'k, K: KidRow> {
    pub rules: &'r [Rule<K::Cost>],
    pub kids: Applied<&'k K>,
}

// A base rule of this cost over one kid.
fn over_one<K: KidRow>(cost: K::Cost, row: &K, kid: usize) -> Option<K::Cost>
    ensures { no_chains result ≡ with1 K.Cost.Cost.model cost (no_chains (at (K.KidRow.costs row.now) kid)) }
{
    row.cost_at(kid).map(|x| cost.sum(x))
}

// A base rule of this cost over two kids.
fn over_two<K: KidRow>(
    cost: K::Cost,
    first: &K,
    left: usize,
    second: &K,
    right: usize,
) -> Option<K::Cost>
    ensures { no_chains result ≡ with2 K.Cost.Cost.model cost (no_chains (at (K.KidRow.costs first.now) left)) (no_chains (at (K.KidRow.costs second.now) right)) }
{
    let x = first.cost_at(left)?;
    let y = second.cost_at(right)?;
    Some(cost.sum(x).sum(y))
}

impl<'r, 'k, K: KidRow> Step<'r, 'k, K> {
    // What a rule costs over the kids' costs: none where it is no base rule of the operator, or a kid has no cost.
    pub(crate) fn base_cost(&self, rule: &Rule<K::Cost>) -> Option<K::Cost>
        ensures { no_chains result ≡ base_offer K.Cost.Cost.model (applied K.KidRow.costs self.now.kids) rule.now.cost (form_of rule.now.form) }
    {
        match (&rule.form, &self.kids) {
            (Form::Leaf { operator }, Applied::Leaf(o)) if operator == o => Some(rule.cost),
            (Form::Unary { operator, kid }, Applied::Unary(o, row)) if operator == o => over_one(
                rule.cost, *row, kid.0,
            ),
            (
                Form::Binary {
                    operator,
                    left,
                    right,
                },
                Applied::Binary(o, first, second),
            ) if operator == o => over_two(rule.cost, *first, left.0, *second, right.0),
            _ => None,
        }
    }
}
