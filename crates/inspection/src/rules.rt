// The line of a rule.
ghost use Rattle.std.specs.Prelude.{◌≡◌, IfOk};
ghost use Rattle.grammar.specs.Meaning.{declared_lists};
ghost use Rattle.grammar.specs.Views.{rule_of};
ghost use Rattle.inspection.specs.Inspections.{rule_line};

use crate::names::{nonterminal_name, operator_name};
use grammar::declarations::Declarations;
use grammar::parts::{Form, Rule};
use listing::{BaseFields, ChainFields, base_line, chain_line};
use std::alloc::{AllocError, Global};
use tariff::Figures;

// The rule with names in place of numbers.
pub(crate) fn rule_line<C: Copy + Figures>(
    heap: Global,
    declarations: &Declarations<C>,
    number: usize,
    rule: &Rule<C>,
) -> Result<Vec<u8>, AllocError>
    ensures { IfOk result (λ v. v.items ≡ rule_line C.Figures.figures (declared_lists declarations.now) number (rule_of rule.now)) }
{
    let mut cost = Vec::new(heap);
    rule.cost.push_figures(&mut cost)?;
    let left = nonterminal_name(declarations, rule.left);
    let mnemonic = rule.mnemonic.as_bytes();
    let (operator, first, second) = match rule.form {
        Form::Chain { source } => {
            let source = nonterminal_name(declarations, source);
            let fields = ChainFields {
                number,
                left,
                source,
                mnemonic,
            };
            return chain_line(heap, fields, &cost);
        }
        Form::Leaf { operator } => (operator, None, None),
        Form::Unary { operator, kid } => (operator, Some(kid), None),
        Form::Binary {
            operator,
            left,
            right,
        } => (operator, Some(left), Some(right)),
    };
    let fields = BaseFields {
        number,
        left,
        op: operator_name(declarations, operator),
        first: first.map(|kid| nonterminal_name(declarations, kid)),
        second: second.map(|kid| nonterminal_name(declarations, kid)),
        mnemonic,
    };
    base_line(heap, fields, &cost)
}
