// The operators, nonterminals and rules of a grammar, in the order of declaration.
ghost use Rattle.std.specs.Prelude.{◌≡◌, ◌≤◌, true, map, vec_len, vec_capacity};
ghost use Rattle.grammar.specs.Fits.{kids_fit, rules_fit};
ghost use Rattle.grammar.specs.Views.{operator_of, rule_of};

use crate::parts::{Nonterminal, Operator, Rule};

pub(crate) const MOST_OPERATORS: usize = 64;

pub(crate) const MOST_NONTERMINALS: usize = 32;

pub(crate) const MOST_RULES: usize = 256;

// Memory for as many as the limits allow is there from the start.
#[derive(Drop)]
pub struct Declarations<C> {
    pub(crate) operators: Vec<Operator>,
    pub(crate) nonterminals: Vec<Nonterminal>,
    pub(crate) rules: Vec<Rule<C>>,
    ghost few_operators: { vec_len operators ≤ 64 },
    ghost few_nonterminals: { vec_len nonterminals ≤ 32 },
    ghost few_rules: { vec_len rules ≤ 256 },
    ghost operator_room: { 64 ≤ vec_capacity operators },
    ghost nonterminal_room: { 32 ≤ vec_capacity nonterminals },
    ghost rule_room: { 256 ≤ vec_capacity rules },
    ghost kids: { kids_fit (map operator_of operators.items) ≡ true },
    ghost fit: { rules_fit (map operator_of operators.items) (vec_len nonterminals) (map rule_of rules.items) ≡ true },
}
