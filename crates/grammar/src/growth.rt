// How declarations grow.
ghost use Rattle.std.specs.Prelude.{◌≡◌, ◌<◌, ◌≤◌, true, map, IfOk, vec_len};
ghost use Rattle.grammar.specs.Contents.{declared_lists};
ghost use Rattle.grammar.specs.Drafting.{empty, with_operator, with_nonterminal, with_rule};
ghost use Rattle.grammar.specs.Fits.{rule_fits};
ghost use Rattle.grammar.specs.Views.{operator_of, nonterminal_of, rule_of};

use crate::declarations::{Declarations, MOST_NONTERMINALS, MOST_OPERATORS, MOST_RULES};
use crate::parts::{Nonterminal, Operator, Rule};
use std::alloc::{AllocError, Global};

impl<C: Copy> Declarations<C> {
    pub(crate) fn new(heap: Global) -> Result<Declarations<C>, AllocError>
        ensures { IfOk result (λ d. declared_lists d ≡ empty) }
    {
        let operators = Vec::with_capacity(heap, MOST_OPERATORS)?;
        let nonterminals = Vec::with_capacity(heap, MOST_NONTERMINALS)?;
        let rules = Vec::with_capacity(heap, MOST_RULES)?;
        Ok(Declarations {
            operators,
            nonterminals,
            rules,
        })
    }

    // One call for each list: each requires what the invariant says of its own elements.
    pub(crate) fn push_operator(&mut self, operator: Operator)
        requires { (vec_len self.old.operators < 64) × (operator.kids ≤ 2) }
        ensures { declared_lists self.new ≡ with_operator (declared_lists self.old) (operator_of operator) }
    {
        self.operators.push_reserved(operator);
    }

    pub(crate) fn push_nonterminal(&mut self, nonterminal: Nonterminal)
        requires { vec_len self.old.nonterminals < 32 }
        ensures { declared_lists self.new ≡ with_nonterminal (declared_lists self.old) (nonterminal_of nonterminal) }
    {
        self.nonterminals.push_reserved(nonterminal);
    }

    pub(crate) fn push_rule(&mut self, rule: Rule<C>)
        requires { (vec_len self.old.rules < 256) × (rule_fits (map operator_of self.old.operators.items) (vec_len self.old.nonterminals) (rule_of rule) ≡ true) }
        ensures { declared_lists self.new ≡ with_rule (declared_lists self.old) (rule_of rule) }
    {
        self.rules.push_reserved(rule);
    }
}
