//! A labeller that keeps each node's own row.

#![tactic(auto)]

ghost use Rattle.std.specs.Prelude.{length};
ghost use Rattle.grammar.specs.Meaning.{grammar_lists};
ghost use Rattle.plain.specs.Keeping.{Keeps, keeps_once};

use cost::Cost;
use grammar::grammar::Grammar;
use label::BirthRefusal;
use nodes::{NodePlace, Nodes};
use row::Work;

mod kept;
mod labeller;

/// A labeller that keeps each node's own row, with the least costs themselves, in lent row places. It gives no labels. The row of the
/// newest node stands in places of its own, so that it can be worked out from the rows of the nodes before it.
// Lent slices of places, one row after another: the labeller allocates nothing.
#[derive(Drop)]
pub struct Plain<'a, C: Cost> {
    grammar: &'a Grammar<C>,
    nodes: Nodes<'a>,
    newest: &'a mut [Option<Work<C>>],
    earlier: &'a mut [Option<Work<C>>],
    pub ghost keeps: { Keeps C.Cost.model (grammar_lists grammar.now) nodes newest.now earlier.now } by { keeps_once C.code C.Cost.model (grammar_lists grammar.now) nodes newest.now earlier.now },
}

impl<'a, C: Cost> Plain<'a, C> {
    ghost use Rattle.plain.specs.Meaning.{Born};

    /// A labeller for trees of up to `most` nodes, over as many node places, and as many row places for each node as there are
    /// nonterminals.
    pub fn new(
        grammar: &'a Grammar<C>,
        most: usize,
        nodes: &'a mut [NodePlace],
        rows: &'a mut [Option<Work<C>>],
    ) -> Result<Plain<'a, C>, BirthRefusal>
        ensures { Born (grammar_lists grammar.now) most (length nodes.old) (length rows.old) result }
    {
        let width = grammar.declarations().nonterminals().len();
        if !(1..=2048).contains(&most) {
            return Err(BirthRefusal::Capacity);
        }
        if nodes.len() < most || rows.len() < most * width {
            return Err(BirthRefusal::Memory);
        }
        let (newest, earlier) = rows.split_at_mut(width);
        Ok(Plain {
            grammar,
            nodes: Nodes::new(nodes, most),
            newest,
            earlier,
        })
    }
}
