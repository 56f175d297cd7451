// What a labeller is asked of its grammar.
ghost use Rattle.std.specs.Prelude.{◌≡◌};
ghost use Rattle.std.specs.List.{slice_get};
ghost use Rattle.std.specs.Option.{option_map};
ghost use Rattle.grammar.specs.Lists.{rule as rule_of_number};
ghost use Rattle.grammar.specs.Meaning.{grammar_lists};
ghost use Rattle.grammar.specs.Views.{operator_of, rule_of};
ghost use Rattle.covers.specs.Trees.{count as nonterminals_of};

use cost::Cost;
use grammar::grammar::Grammar;
use grammar::parts::{Operator, OperatorNumber, Rule, RuleNumber};

/// How many nonterminals the grammar has.
pub fn nonterminal_count<C: Cost>(grammar: &Grammar<C>) -> usize
    ensures { result ≡ nonterminals_of (grammar_lists grammar.now) }
{
    grammar.declarations().nonterminals().len()
}

/// The operator of a number, or none where the number is not declared.
pub fn operator_numbered<C: Cost>(grammar: &Grammar<C>, number: OperatorNumber) -> Option<Operator>
    ensures { option_map operator_of result ≡ slice_get (grammar_lists grammar.now).operators number.0 }
{
    let operators = grammar.declarations().operators();
    operators.get(number.0).copied()
}

/// The rule of a number, or none where there is no such rule.
pub fn rule_numbered<C: Cost>(grammar: &Grammar<C>, number: RuleNumber) -> Option<Rule<C>>
    ensures { option_map rule_of result ≡ rule_of_number (grammar_lists grammar.now) number.0 }
{
    let rules = grammar.declarations().rules();
    let place = number.0.checked_sub(1)?;
    rules.get(place).copied()
}
