//! What a labeller is: it takes the nodes of a tree and knows the rule chosen for each nonterminal at each node.

#![tactic(auto)]

ghost use Rattle.std.specs.Prelude.{◌≡◌, length};
ghost use Rattle.std.specs.List.{slice_get};
ghost use Rattle.std.specs.Option.{option_map};
ghost use Rattle.grammar.specs.Lists.{rule as rule_numbered};
ghost use Rattle.grammar.specs.Views.{operator_of, rule_of};
ghost use Rattle.covers.specs.Trees.{count as nonterminal_count};
ghost use Rattle.covers.specs.Ranks.{at};
ghost use Rattle.nodes.specs.Views.{node_of, label_of};
ghost use Rattle.label.specs.Meaning.{Meaning, Sound, Started, Cleared, Adds, choice_at};
ghost use Rattle.label.specs.Views.{add_answer, rule_number};

use cost::Cost;
use grammar::parts::{NonterminalNumber, Operator, OperatorNumber, Rule, RuleNumber};
use nodes::{Label, Node, NodeNumber};

mod kids;
mod questions;
mod refusals;

pub use kids::kids_over;
pub use questions::{nonterminal_count, operator_numbered, rule_numbered};
pub use refusals::{AddRefusal, BirthRefusal, NoRoom};

/// What is answered of an accepted node.
#[derive(Clone, Copy)]
pub struct Added {
    pub number: NodeNumber,
    pub label: Option<Label>,
}

/// How many different rows and keys are held.
#[derive(Clone, Copy, PartialEq, Eq, Debug)]
pub struct Counts {
    pub rows: usize,
    pub keys: usize,
}

/// A labeller, whatever the make of cost that it works in. No call has a precondition: each speaks of every meaning at entry.
pub trait Labeller: Sized {
    type Cost: Cost;

    // The labeller means this.
    ghost means: { Self → Meaning Self.Cost → Type 0 };

    /// The list of nodes becomes empty.
    fn start(&mut self)
        ensures { (μ : Meaning Self.Cost) → means self.old μ → ((ν : Meaning Self.Cost) × Started μ ν × means self.new ν) };

    /// The list of nodes becomes empty, and rows and keys are forgotten.
    fn clear(&mut self)
        ensures { (μ : Meaning Self.Cost) → means self.old μ → ((ν : Meaning Self.Cost) × Cleared μ ν × means self.new ν) };

    /// Appends a node and answers its number and label, or refuses it.
    fn add(&mut self, node: Node) -> Result<Added, AddRefusal>
        ensures { (μ : Meaning Self.Cost) → means self.old μ → Adds (means self.new) μ (node_of node) (add_answer result) };

    /// How many nodes a tree may have.
    fn most(&self) -> usize
        ensures { (μ : Meaning Self.Cost) → means self.now μ → result ≡ μ.most };

    /// How many nonterminals the grammar has.
    fn nonterminals(&self) -> usize
        ensures { (μ : Meaning Self.Cost) → means self.now μ → result ≡ nonterminal_count μ.grammar };

    /// An operator with its count of kids.
    fn operator(&self, operator: OperatorNumber) -> Option<Operator>
        ensures { (μ : Meaning Self.Cost) → means self.now μ → option_map operator_of result ≡ slice_get μ.grammar.operators operator.0 };

    fn rule(&self, rule: RuleNumber) -> Option<Rule<Self::Cost>>
        ensures { (μ : Meaning Self.Cost) → means self.now μ → option_map rule_of result ≡ rule_numbered μ.grammar rule.0 };

    /// How many nodes the open tree has. What is meant is always in order: a caller learns this by a clause here, and need know no law
    /// of the trait.
    fn count(&self) -> usize
        ensures count { (μ : Meaning Self.Cost) → means self.now μ → result ≡ length μ.nodes }
        ensures sound { (μ : Meaning Self.Cost) → means self.now μ → Sound Self.Cost.Cost.model μ };

    fn node(&self, node: NodeNumber) -> Option<Node>
        ensures { (μ : Meaning Self.Cost) → means self.now μ → option_map node_of result ≡ slice_get μ.nodes node.0 };

    /// The label of a node, or none where it has none or is not there.
    fn label(&self, node: NodeNumber) -> Option<Label>
        ensures { (μ : Meaning Self.Cost) → means self.now μ → label_of result ≡ at μ.labels node.0 };

    fn counts(&self) -> Counts
        ensures rows { (μ : Meaning Self.Cost) → means self.now μ → result.rows ≡ μ.rows }
        ensures keys { (μ : Meaning Self.Cost) → means self.now μ → result.keys ≡ μ.keys };

    /// The rule chosen at a node for a nonterminal, or none where the node is not there or has no cover from there.
    fn choice(&self, node: NodeNumber, nonterminal: NonterminalNumber) -> Option<RuleNumber>
        ensures { (μ : Meaning Self.Cost) → means self.now μ → rule_number result ≡ choice_at Self.Cost.Cost.model μ node.0 nonterminal.0 };
}
