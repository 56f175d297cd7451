// The lines of a grammar's operators, nonterminals and rules.
ghost use Rattle.std.specs.Prelude.{◌≡◌, ℕ, List, IfOk};
ghost use Rattle.grammar.specs.Lists.{Lists};
ghost use Rattle.grammar.specs.Meaning.{declared_lists};
ghost use Rattle.grammar.specs.Views.{operator_of, nonterminal_of, rule_of};
ghost use Rattle.listing.specs.Lines.{nt_line};
ghost use Rattle.inspection.specs.Inspections.{operator_line, rule_line};

use crate::rules::rule_line;
use grammar::declarations::Declarations;
use grammar::parts::{Nonterminal, Operator, Rule};
use listing::{nt_line, op_line};
use std::alloc::{AllocError, Global};
use tariff::Figures;

// What has a line of its own, among the declarations of a grammar with costs of make C.
pub trait Listed<C> {
    ghost written: { Lists C → ℕ → Self → List ℕ };

    // Its line, under this number.
    fn line(
        &self,
        heap: Global,
        declarations: &Declarations<C>,
        number: usize,
    ) -> Result<Vec<u8>, AllocError>
        ensures { IfOk result (λ v. v.items ≡ written (declared_lists declarations.now) number self.now) };
}

impl<C> Listed<C> for Operator {
    ghost written = { λ G n x. operator_line n (operator_of x) };

    fn line(
        &self,
        heap: Global,
        _declarations: &Declarations<C>,
        number: usize,
    ) -> Result<Vec<u8>, AllocError> {
        op_line(heap, number, self.name.as_bytes(), self.kids)
    }
}

impl<C> Listed<C> for Nonterminal {
    ghost written = { λ G n x. nt_line n (nonterminal_of x) };

    fn line(
        &self,
        heap: Global,
        _declarations: &Declarations<C>,
        number: usize,
    ) -> Result<Vec<u8>, AllocError> {
        nt_line(heap, number, self.name.as_bytes())
    }
}

impl<C: Copy + Figures> Listed<C> for Rule<C> {
    ghost written = { λ G n x. rule_line C.Figures.figures G n (rule_of x) };

    fn line(
        &self,
        heap: Global,
        declarations: &Declarations<C>,
        number: usize,
    ) -> Result<Vec<u8>, AllocError> {
        rule_line(heap, declarations, number, self)
    }
}
