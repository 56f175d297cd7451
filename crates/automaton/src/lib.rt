//! A labeller that works out a row once for each key: an automaton whose states are made when a tree first needs them.

#![tactic(auto)]

ghost use Rattle.std.specs.Prelude.{◌≡◌, ◌≤◌};
ghost use Rattle.grammar.specs.Meaning.{grammar_lists};
ghost use Rattle.nodes.specs.Meaning.{labels_of};
ghost use Rattle.nodes.specs.Views.{node_of, label_of, number_of};
ghost use Rattle.states.specs.Keys.{key_of};
ghost use Rattle.automaton.specs.Birth.{lengths, in_range, ranged, enough};
ghost use Rattle.automaton.specs.Histories.{at_kid, key_by};
ghost use Rattle.automaton.specs.Meaning.{Born};

use applied::Applied;
use cost::Cost;
use entries::{Entry, RowEnd};
use grammar::grammar::Grammar;
use label::BirthRefusal;
use nodes::{Label, Node, NodeNumber, NodePlace, Nodes};
use row::Work;
use states::{Sizes, States, Transition};
use table::{Key, Slot};

mod labeller;

/// How many nodes a tree may have, and how many keys and rows may be held.
#[derive(Clone, Copy)]
pub struct Capacities {
    pub nodes: usize,
    pub keys: usize,
    pub rows: usize,
}

/// The memory lent to an automaton: node places, key places, label places, row places (as many for each label as there are
/// nonterminals) and work places (as many as there are nonterminals).
#[derive(Drop)]
pub struct Memory<'a, C> {
    pub nodes: &'a mut [NodePlace],
    pub keys: &'a mut [Slot<Transition>],
    pub labels: &'a mut [Slot<RowEnd>],
    pub rows: &'a mut [Slot<Entry<C>>],
    pub work: &'a mut [Option<Work<C>>],
}

/// A labeller that works out a row once for each key.
// What it means is a relation to its history: the nodes of earlier trees, whose rows and keys are held, are in its memory no longer.
#[derive(Drop)]
pub struct Automaton<'a, C: Cost>
where
    Entry<C>: Key,
{
    grammar: &'a Grammar<C>,
    nodes: Nodes<'a>,
    states: States<'a, C>,
}

// Whether a capacity is from 1 to a largest one.
fn in_range(capacity: usize, most: usize) -> bool
    ensures { result ≡ in_range capacity most }
{
    (1..=most).contains(&capacity)
}

impl Capacities {
    // Whether each capacity is in its range.
    fn are_ranged(&self) -> bool
        ensures { result ≡ ranged self.now }
    {
        in_range(self.nodes, 2048) && in_range(self.keys, 65_536) && in_range(self.rows, 4096)
    }
}

impl<'a, C> Memory<'a, C> {
    // Whether each piece of memory is long enough.
    fn is_enough(&self, capacities: &Capacities, nonterminals: usize) -> bool
        requires { (capacities.now.rows ≤ 4096) × (nonterminals ≤ 32) }
        ensures { result ≡ enough capacities.now nonterminals (lengths self.now) }
    {
        self.nodes.len() >= capacities.nodes
            && self.keys.len() >= capacities.keys
            && self.labels.len() >= capacities.rows
            && self.rows.len() >= capacities.rows * nonterminals
            && self.work.len() >= nonterminals
    }
}

impl<'a, C: Cost> Automaton<'a, C> {
    /// An automaton without node, row or key. It is refused where a capacity is out of range, or else a piece of memory too short.
    pub fn new(
        grammar: &'a Grammar<C>,
        capacities: Capacities,
        memory: Memory<'a, C>,
    ) -> Result<Automaton<'a, C>, BirthRefusal>
        ensures { Born C.Cost.model (grammar_lists grammar.now) capacities (lengths memory.entry) result }
    {
        let nonterminals = grammar.declarations().nonterminals().len();
        if !capacities.are_ranged() {
            return Err(BirthRefusal::Capacity);
        }
        if !memory.is_enough(&capacities, nonterminals) {
            return Err(BirthRefusal::Memory);
        }
        let Memory {
            nodes,
            keys,
            labels,
            rows,
            work,
        } = memory;
        let sizes = Sizes {
            nonterminals,
            keys: capacities.keys,
            rows: capacities.rows,
        };
        Ok(Automaton {
            grammar,
            nodes: Nodes::new(nodes, capacities.nodes),
            states: States::new(keys, rows, labels, work, sizes),
        })
    }

    // The label of a kid, or none where there is no kid.
    fn kid_label(&self, kid: Option<NodeNumber>) -> Option<Label>
        ensures { label_of result ≡ at_kid (labels_of self.now.nodes) (number_of kid) }
    {
        self.nodes.label(kid?)
    }

    // The key of a node, from the labels of its kids; 0 where a kid has none.
    fn key(&self, node: &Node) -> Applied<Label>
        ensures { key_of result ≡ key_by (labels_of self.now.nodes) (node_of node.now).top }
    {
        let left = self.kid_label(node.top.first()).unwrap_or(Label(0));
        let right = self.kid_label(node.top.second()).unwrap_or(Label(0));
        node.top.over(left, right)
    }
}
