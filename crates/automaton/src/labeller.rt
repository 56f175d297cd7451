// An automaton as a labeller. Each call says what the trait says, and what it means for the history.
ghost use Rattle.std.specs.Prelude.{◌≡◌, ◌∷◌, length};
ghost use Rattle.std.specs.List.{slice_get};
ghost use Rattle.std.specs.Option.{option_map};
ghost use Rattle.grammar.specs.Lists.{rule as rule_numbered};
ghost use Rattle.grammar.specs.Views.{operator_of, rule_of};
ghost use Rattle.covers.specs.Trees.{count as nonterminal_count};
ghost use Rattle.covers.specs.Ranks.{at};
ghost use Rattle.covers.specs.Nodes.{subtree};
ghost use Rattle.covers.specs.Held.{rows_held, keys_held};
ghost use Rattle.nodes.specs.Views.{node_of, label_of};
ghost use Rattle.label.specs.Meaning.{Meaning, Sound, Started, Cleared, Adds, choice_of, choice_at};
ghost use Rattle.label.specs.Views.{add_answer, rule_number};
ghost use Rattle.automaton.specs.Histories.{History, started, cleared, open_nodes, open_labels, accepted};
ghost use Rattle.automaton.specs.Meaning.{Lived, Fixed, AddsTo, AutomatonMeans, grammar_of, most_nodes};

use crate::Automaton;
use cost::Cost;
use grammar::parts::{NonterminalNumber, Operator, OperatorNumber, Rule, RuleNumber};
use label::{
    AddRefusal, Added, Counts, Labeller, nonterminal_count, operator_numbered, rule_numbered,
};
use nodes::{Label, Node, NodeNumber, NodeRefusal};

impl<'a, C: Cost> Labeller for Automaton<'a, C> {
    type Cost = C;

    ghost means = { λ a μ. AutomatonMeans C.Cost.model a μ };

    /// The list of nodes becomes empty. Rows and keys stay.
    fn start(&mut self)
        ensures means { (μ : Meaning C) → AutomatonMeans C.Cost.model self.old μ → ((ν : Meaning C) × Started μ ν × AutomatonMeans C.Cost.model self.new ν) }
        ensures lived { (h : History) → Lived C.Cost.model self.old h → Lived C.Cost.model self.new (started ∷ h) }
        ensures fixed { Fixed self.old self.new }
    {
        self.nodes.start();
    }

    /// The list of nodes becomes empty, and rows and keys are forgotten.
    fn clear(&mut self)
        ensures means { (μ : Meaning C) → AutomatonMeans C.Cost.model self.old μ → ((ν : Meaning C) × Cleared μ ν × AutomatonMeans C.Cost.model self.new ν) }
        ensures lived { (h : History) → Lived C.Cost.model self.old h → Lived C.Cost.model self.new (cleared ∷ h) }
        ensures fixed { Fixed self.old self.new }
    {
        self.start();
        self.states.clear();
    }

    /// Appends a node and answers its number and label, or refuses it. A refusal changes nothing but work places.
    fn add(&mut self, node: Node) -> Result<Added, AddRefusal>
        ensures means { (μ : Meaning C) → AutomatonMeans C.Cost.model self.old μ → Adds (AutomatonMeans C.Cost.model self.new) μ (node_of node) (add_answer result) }
        ensures adds { (h : History) → Lived C.Cost.model self.old h → AddsTo C.Cost.model self.old h (node_of node) (add_answer result) self.new }
        ensures fixed { Fixed self.old self.new }
    {
        let grammar = self.grammar;
        let declarations = grammar.declarations();
        self.nodes.check(declarations.operators(), &node)?;
        let key = self.key(&node);
        let label = self.states.label_for(declarations.rules(), key)?;
        let number = self.nodes.push(node, Some(label)).ok_or(NodeRefusal::Full)?;
        Ok(Added {
            number,
            label: Some(label),
        })
    }

    /// How many nodes a tree may have.
    fn most(&self) -> usize
        ensures means { (μ : Meaning C) → AutomatonMeans C.Cost.model self.now μ → result ≡ μ.most }
        ensures given { result ≡ most_nodes self.now }
    {
        self.nodes.most()
    }

    /// How many nonterminals the grammar has.
    fn nonterminals(&self) -> usize
        ensures means { (μ : Meaning C) → AutomatonMeans C.Cost.model self.now μ → result ≡ nonterminal_count μ.grammar }
        ensures given { result ≡ nonterminal_count (grammar_of self.now) }
    {
        nonterminal_count(self.grammar)
    }

    /// The operator of a number, or none where the number is not declared.
    fn operator(&self, operator: OperatorNumber) -> Option<Operator>
        ensures means { (μ : Meaning C) → AutomatonMeans C.Cost.model self.now μ → option_map operator_of result ≡ slice_get μ.grammar.operators operator.0 }
        ensures given { option_map operator_of result ≡ slice_get (grammar_of self.now).operators operator.0 }
    {
        operator_numbered(self.grammar, operator)
    }

    /// The rule of a number, or none where there is no such rule.
    fn rule(&self, rule: RuleNumber) -> Option<Rule<C>>
        ensures means { (μ : Meaning C) → AutomatonMeans C.Cost.model self.now μ → option_map rule_of result ≡ rule_numbered μ.grammar rule.0 }
        ensures given { option_map rule_of result ≡ rule_numbered (grammar_of self.now) rule.0 }
    {
        rule_numbered(self.grammar, rule)
    }

    /// How many nodes the open tree has.
    fn count(&self) -> usize
        ensures count { (μ : Meaning C) → AutomatonMeans C.Cost.model self.now μ → result ≡ length μ.nodes }
        ensures sound { (μ : Meaning C) → AutomatonMeans C.Cost.model self.now μ → Sound C.Cost.model μ }
        ensures lived { (h : History) → Lived C.Cost.model self.now h → result ≡ length (open_nodes h) }
    {
        self.nodes.count()
    }

    /// The node of a number, or none where it is not there.
    fn node(&self, node: NodeNumber) -> Option<Node>
        ensures means { (μ : Meaning C) → AutomatonMeans C.Cost.model self.now μ → option_map node_of result ≡ slice_get μ.nodes node.0 }
        ensures lived { (h : History) → Lived C.Cost.model self.now h → option_map node_of result ≡ slice_get (open_nodes h) node.0 }
    {
        self.nodes.node(node)
    }

    /// The label of a node, or none where it is not there.
    fn label(&self, node: NodeNumber) -> Option<Label>
        ensures means { (μ : Meaning C) → AutomatonMeans C.Cost.model self.now μ → label_of result ≡ at μ.labels node.0 }
        ensures lived { (h : History) → Lived C.Cost.model self.now h → label_of result ≡ at (open_labels C.Cost.model (grammar_of self.now) h) node.0 }
    {
        self.nodes.label(node)
    }

    /// How many different rows and keys are held.
    fn counts(&self) -> Counts
        ensures rows { (μ : Meaning C) → AutomatonMeans C.Cost.model self.now μ → result.rows ≡ μ.rows }
        ensures keys { (μ : Meaning C) → AutomatonMeans C.Cost.model self.now μ → result.keys ≡ μ.keys }
        ensures rows_lived { (h : History) → Lived C.Cost.model self.now h → result.rows ≡ length (rows_held C.Cost.model (grammar_of self.now) (accepted h)) }
        ensures keys_lived { (h : History) → Lived C.Cost.model self.now h → result.keys ≡ length (keys_held C.Cost.model (grammar_of self.now) (accepted h)) }
    {
        Counts {
            rows: self.states.row_count(),
            keys: self.states.key_count(),
        }
    }

    /// The rule chosen at a node for a nonterminal, or none where the node is not there or has no cover from there.
    fn choice(&self, node: NodeNumber, nonterminal: NonterminalNumber) -> Option<RuleNumber>
        ensures means { (μ : Meaning C) → AutomatonMeans C.Cost.model self.now μ → rule_number result ≡ choice_at C.Cost.model μ node.0 nonterminal.0 }
        ensures lived { (h : History) → Lived C.Cost.model self.now h → rule_number result ≡ choice_of C.Cost.model (grammar_of self.now) (subtree (open_nodes h) node.0) nonterminal.0 }
    {
        let label = self.nodes.label(node)?;
        self.states.choice(label, nonterminal)
    }
}
