// A plain labeller as a labeller. Each call says what the trait says, and what it means for the labeller's own nodes.
ghost use Rattle.std.specs.Prelude.{◌≡◌, length, Err};
ghost use Rattle.std.specs.List.{slice_get};
ghost use Rattle.std.specs.Option.{option_map};
ghost use Rattle.grammar.specs.Lists.{rule as rule_numbered};
ghost use Rattle.grammar.specs.Views.{operator_of, rule_of};
ghost use Rattle.covers.specs.Trees.{count as nonterminal_count};
ghost use Rattle.covers.specs.Ranks.{at};
ghost use Rattle.covers.specs.Nodes.{subtree};
ghost use Rattle.nodes.specs.Checks.{check_node};
ghost use Rattle.nodes.specs.Views.{node_of, label_of};
ghost use Rattle.label.specs.Meaning.{Meaning, Sound, Started, Cleared, Adds, choice_of, choice_at};
ghost use Rattle.label.specs.Views.{add_answer, rule_number};
ghost use Rattle.label.specs.declared.refusals.AddRefusal.{AddRefusal as AddRefusalOf};
ghost use Rattle.plain.specs.Meaning.{PlainMeans, Fixed, Emptied, AddsPlain, grammar_of, most_nodes, open_nodes};

use crate::Plain;
use crate::kept::{add_node, kept_rule, rule_at};
use cost::Cost;
use grammar::parts::{NonterminalNumber, Operator, OperatorNumber, Rule, RuleNumber};
use label::{
    AddRefusal, Added, Counts, Labeller, nonterminal_count, operator_numbered, rule_numbered,
};
use nodes::{Label, Node, NodeNumber, NodeRefusal};

impl<'a, C: Cost> Labeller for Plain<'a, C> {
    type Cost = C;

    ghost means = { λ p μ. PlainMeans p μ };

    /// The list of nodes becomes empty.
    fn start(&mut self)
        ensures means { (μ : Meaning C) → PlainMeans self.old μ → ((ν : Meaning C) × Started μ ν × PlainMeans self.new ν) }
        ensures emptied { Emptied self.old self.new }
    {
        self.nodes.start();
    }

    /// The list of nodes becomes empty. There are no rows or keys to forget beside those of the nodes.
    fn clear(&mut self)
        ensures means { (μ : Meaning C) → PlainMeans self.old μ → ((ν : Meaning C) × Cleared μ ν × PlainMeans self.new ν) }
        ensures emptied { Emptied self.old self.new }
    {
        self.start();
    }

    /// Appends a node and answers its number, or refuses it. A refusal changes nothing.
    fn add(&mut self, node: Node) -> Result<Added, AddRefusal>
        ensures means { (μ : Meaning C) → PlainMeans self.old μ → Adds (PlainMeans self.new) μ (node_of node) (add_answer result) }
        ensures adds { AddsPlain (check_node (grammar_of self.old).operators (most_nodes self.old) (open_nodes self.old) (node_of node)) (open_nodes self.old) (node_of node) (add_answer result) (open_nodes self.new) }
        ensures refused { (e : AddRefusalOf) → result ≡ Err e → self.new ≡ self.old }
        ensures fixed { Fixed self.old self.new }
    {
        let declarations = self.grammar.declarations();
        self.nodes.check(declarations.operators(), &node)?;
        let rules = declarations.rules();
        let added = add_node(rules, node, &mut self.nodes, self.newest, self.earlier);
        let number = added.ok_or(NodeRefusal::Full)?;
        Ok(Added {
            number,
            label: None,
        })
    }

    /// How many nodes a tree may have.
    fn most(&self) -> usize
        ensures means { (μ : Meaning C) → PlainMeans self.now μ → result ≡ μ.most }
        ensures given { result ≡ most_nodes self.now }
    {
        self.nodes.most()
    }

    /// How many nonterminals the grammar has.
    fn nonterminals(&self) -> usize
        ensures means { (μ : Meaning C) → PlainMeans self.now μ → result ≡ nonterminal_count μ.grammar }
        ensures given { result ≡ nonterminal_count (grammar_of self.now) }
    {
        nonterminal_count(self.grammar)
    }

    /// The operator of a number, or none where the number is not declared.
    fn operator(&self, operator: OperatorNumber) -> Option<Operator>
        ensures means { (μ : Meaning C) → PlainMeans self.now μ → option_map operator_of result ≡ slice_get μ.grammar.operators operator.0 }
        ensures given { option_map operator_of result ≡ slice_get (grammar_of self.now).operators operator.0 }
    {
        operator_numbered(self.grammar, operator)
    }

    /// The rule of a number, or none where there is no such rule.
    fn rule(&self, rule: RuleNumber) -> Option<Rule<C>>
        ensures means { (μ : Meaning C) → PlainMeans self.now μ → option_map rule_of result ≡ rule_numbered μ.grammar rule.0 }
        ensures given { option_map rule_of result ≡ rule_numbered (grammar_of self.now) rule.0 }
    {
        rule_numbered(self.grammar, rule)
    }

    /// How many nodes the open tree has.
    fn count(&self) -> usize
        ensures count { (μ : Meaning C) → PlainMeans self.now μ → result ≡ length μ.nodes }
        ensures sound { (μ : Meaning C) → PlainMeans self.now μ → Sound C.Cost.model μ }
        ensures nodes { result ≡ length (open_nodes self.now) }
    {
        self.nodes.count()
    }

    /// The node of a number, or none where it is not there.
    fn node(&self, node: NodeNumber) -> Option<Node>
        ensures means { (μ : Meaning C) → PlainMeans self.now μ → option_map node_of result ≡ slice_get μ.nodes node.0 }
        ensures nodes { option_map node_of result ≡ slice_get (open_nodes self.now) node.0 }
    {
        self.nodes.node(node)
    }

    /// No node has a label.
    fn label(&self, node: NodeNumber) -> Option<Label> {
        None
    }

    /// No row and no key is held beside those of the nodes.
    fn counts(&self) -> Counts {
        Counts { rows: 0, keys: 0 }
    }

    /// The rule chosen at a node for a nonterminal, or none where the node is not there or has no cover from there.
    fn choice(&self, node: NodeNumber, nonterminal: NonterminalNumber) -> Option<RuleNumber>
        ensures means { (μ : Meaning C) → PlainMeans self.now μ → rule_number result ≡ choice_at C.Cost.model μ node.0 nonterminal.0 }
        ensures nodes { rule_number result ≡ choice_of C.Cost.model (grammar_of self.now) (subtree (open_nodes self.now) node.0) nonterminal.0 }
    {
        // How many nodes there are from this one on: one where it is the newest.
        let from_here = self.count().checked_sub(node.0)?;
        match from_here {
            0 => None,
            1 => rule_at(self.newest, nonterminal.0),
            _ => kept_rule(self.earlier, self.newest.len(), node, nonterminal.0),
        }
    }
}
