//! A labeller driven through its trait, and tests of the plain labeller.

#![tactic(auto)]

ghost use Rattle.std.specs.Prelude.{◌≡◌, ℕ, ◌+◌, length, Some};
ghost use Rattle.label.specs.Meaning.{Meaning};
ghost use Rattle.plain.specs.Meaning.{open_nodes};

use cost::Cost;
use label::Labeller;
use nodes::Node;
use plain::Plain;

/// A labeller that has just been started has no nodes, whatever it is.
pub fn nodes_after_start<L: Labeller>(labeller: &mut L) -> usize
    ensures { (μ : Meaning L.Cost) → L.Labeller.means labeller.old μ → result ≡ 0 }
{
    labeller.start();
    labeller.count()
}

/// A plain labeller that has just been cleared has no nodes: for a caller who knows the type this needs no meaning at entry.
pub fn nodes_after_clear<C: Cost>(labeller: &mut Plain<C>) -> usize
    ensures { result ≡ 0 }
{
    Plain::clear(labeller);
    labeller.count()
}

/// The number of an added node is the count of the nodes before it, and then there is one more.
pub fn add_counted<C: Cost>(labeller: &mut Plain<C>, node: Node) -> Option<usize>
    ensures number { (n : ℕ) → result ≡ Some n → n ≡ length (open_nodes labeller.old) }
    ensures more { (n : ℕ) → result ≡ Some n → length (open_nodes labeller.new) ≡ n + 1 }
{
    let added = labeller.add(node).ok()?;
    Some(added.number.0)
}

#[cfg(test)]
mod tests {
    use super::*;
    use applied::Applied;
    use cost::Count;
    use grammar::draft::Draft;
    use grammar::grammar::Grammar;
    use grammar::parts::{KidNames, NonterminalNumber, OperatorNumber};
    use name::Name;
    use nodes::{NodeNumber, NodePlace};
    use row::Work;
    use std::alloc::Global;
    use std::test::Fail;

    const REG: NonterminalNumber = NonterminalNumber(0);

    const IMM: NonterminalNumber = NonterminalNumber(1);

    fn kids(first: Option<Name>, second: Option<Name>) -> KidNames {
        KidNames { first, second }
    }

    // Constants and sums: imm: CNST 0; reg: imm 1; reg: ADD(reg, reg) 1; reg: ADD(reg, imm) 1.
    fn machine(heap: Global) -> Result<Grammar<Count>, Fail> {
        let mut draft = Draft::new(heap)?;
        let (cnst, add) = (Name::new(b"CNST")?, Name::new(b"ADD")?);
        let (reg, imm) = (Name::new(b"reg")?, Name::new(b"imm")?);
        let (none, one) = (Count { value: 0 }, Count { value: 1 });
        draft.declare_operator(cnst, 0)?;
        draft.declare_operator(add, 2)?;
        draft.declare_nonterminal(reg)?;
        draft.declare_nonterminal(imm)?;
        draft.add_base(imm, cnst, kids(None, None), none, cnst)?;
        draft.add_chain(reg, imm, one, cnst)?;
        draft.add_base(reg, add, kids(Some(reg), Some(reg)), one, add)?;
        draft.add_base(reg, add, kids(Some(reg), Some(imm)), one, add)?;
        Ok(draft.seal())
    }

    fn constant() -> Node {
        Node {
            top: Applied::Leaf(OperatorNumber(0)),
            payload: 7,
        }
    }

    fn sum(left: usize, right: usize) -> Node {
        Node {
            top: Applied::Binary(OperatorNumber(1), NodeNumber(left), NodeNumber(right)),
            payload: 0,
        }
    }

    // The number of the node added; the number of a refusal, past 100, where it is refused.
    fn added(labeller: &mut Plain<Count>, node: Node) -> usize {
        match labeller.add(node) {
            Ok(x) => x.number.0,
            Err(e) => 100 + e.number() as usize,
        }
    }

    // The rule chosen, and 0 where there is none.
    fn chosen(labeller: &Plain<Count>, node: usize, nonterminal: NonterminalNumber) -> usize {
        labeller
            .choice(NodeNumber(node), nonterminal)
            .map_or(0, |rule| rule.0)
    }

    #[test]
    fn the_cheaper_rule_is_chosen(rt: HostRuntime) -> Result<(), Fail> {
        let grammar = machine(rt.alloc())?;
        let mut nodes = [NodePlace::unused(); 3];
        let mut rows: [Option<Work<Count>>; 6] = [None; 6];
        let mut labeller = match Plain::new(&grammar, 3, &mut nodes, &mut rows) {
            Ok(labeller) => labeller,
            Err(_) => {
                assert!(rt; false);
                return Ok(())
            },
        };
        assert!(rt; added(&mut labeller, sum(0, 0)) == 126);
        assert!(rt; added(&mut labeller, constant()) == 0);
        assert!(rt; added(&mut labeller, constant()) == 1);
        assert!(rt; added(&mut labeller, sum(0, 1)) == 2);
        assert!(rt; added(&mut labeller, constant()) == 127);
        assert!(rt; chosen(&labeller, 0, IMM) == 1 && chosen(&labeller, 0, REG) == 2);
        assert!(rt; chosen(&labeller, 1, IMM) == 1 && chosen(&labeller, 1, REG) == 2);
        assert!(rt; chosen(&labeller, 2, IMM) == 0 && chosen(&labeller, 2, REG) == 4);
        assert!(rt; chosen(&labeller, 3, REG) == 0);
        assert!(rt; nodes_after_start(&mut labeller) == 0);
        assert!(rt; chosen(&labeller, 0, REG) == 0);
        Ok(())
    }

    // The number of the refusal of a birth, or 0.
    fn refused<'a>(
        grammar: &'a Grammar<Count>,
        most: usize,
        nodes: &'a mut [NodePlace],
        rows: &'a mut [Option<Work<Count>>],
    ) -> u8 {
        match Plain::new(grammar, most, nodes, rows) {
            Ok(_) => 0,
            Err(e) => e.number(),
        }
    }

    #[test]
    fn births_are_refused_in_order(rt: HostRuntime) -> Result<(), Fail> {
        let grammar = machine(rt.alloc())?;
        let (mut two, mut three) = ([NodePlace::unused(); 2], [NodePlace::unused(); 3]);
        let mut five: [Option<Work<Count>>; 5] = [None; 5];
        let mut six: [Option<Work<Count>>; 6] = [None; 6];
        assert!(rt; refused(&grammar, 0, &mut two, &mut five) == 20);
        assert!(rt; refused(&grammar, 2049, &mut three, &mut six) == 20);
        assert!(rt; refused(&grammar, 3, &mut two, &mut six) == 21);
        assert!(rt; refused(&grammar, 3, &mut three, &mut five) == 21);
        assert!(rt; refused(&grammar, 3, &mut three, &mut six) == 0);
        Ok(())
    }
}
