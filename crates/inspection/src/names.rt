// Names by the numbers of what has them.
ghost use Rattle.std.specs.Prelude.{◌≡◌, map};
ghost use Rattle.grammar.specs.Meaning.{declared_lists};
ghost use Rattle.inspection.specs.Inspections.{name_at, operator_name, nonterminal_name};

use grammar::declarations::Declarations;
use grammar::finding::Named;
use grammar::parts::{NonterminalNumber, OperatorNumber};

// The name of the item of this number; empty where there is none.
fn name_at<T: Named>(items: &[T], number: usize) -> &[u8]
    ensures { result.now ≡ name_at (map T.Named.called items.now) number }
{
    items.get(number).map_or(b"", |x| x.name().as_bytes())
}

// The operator's name; empty where the number is not declared.
#[tactic(auto, using(crate::proofs::Naming::names_are))]
pub(crate) fn operator_name<C: Copy>(
    declarations: &Declarations<C>,
    operator: OperatorNumber,
) -> &[u8]
    ensures { result.now ≡ operator_name (declared_lists declarations.now) operator.0 }
{
    name_at(declarations.operators(), operator.0)
}

// The nonterminal's name; empty where the number is not declared.
pub(crate) fn nonterminal_name<C: Copy>(
    declarations: &Declarations<C>,
    nonterminal: NonterminalNumber,
) -> &[u8]
    ensures { result.now ≡ nonterminal_name (declared_lists declarations.now) nonterminal.0 }
{
    name_at(declarations.nonterminals(), nonterminal.0)
}
