// Keys of nodes, with the labels that they lead to.
ghost use Rattle.std.specs.Prelude.{◌≡◌, ◌%◌, ◌^◌};
ghost use Rattle.states.specs.KeyLaws.{transition_laws};
ghost use Rattle.states.specs.Keys.{transition_key, filler};

use applied::Applied;
use grammar::parts::OperatorNumber;
use nodes::Label;
use table::Key;

/// The key of a node, which is its operator with the labels of its kids, and the label of the nodes that have it. Two are the same
/// where their keys are.
#[derive(Clone, Copy)]
pub struct Transition {
    pub(crate) key: Applied<Label>,
    pub(crate) label: Label,
}

impl Transition {
    /// A transition to fill lent memory with. It is in no list.
    pub fn unused() -> Transition
        ensures { result ≡ filler }
    {
        Transition {
            key: Applied::Leaf(OperatorNumber(0)),
            label: Label(0),
        }
    }
}

// The lower 32 bits of a number.
fn low(x: usize) -> u32
    ensures { result ≡ x % 2 ^ 32 }
{
    (x % 4_294_967_296) as u32
}

impl Key for Transition {
    ghost model = { transition_key };

    ghost laws = { transition_laws };

    fn same(&self, other: &Transition) -> bool {
        self.key == other.key
    }

    fn scatter(&self) -> u32 {
        match self.key {
            Applied::Leaf(o) => low(o.0),
            Applied::Unary(o, a) => low(o.0).wrapping_add(low(a.0).wrapping_mul(64)),
            Applied::Binary(o, a, b) => low(o.0)
                .wrapping_add(low(a.0).wrapping_mul(64))
                .wrapping_add(low(b.0).wrapping_mul(262_144)),
        }
    }
}
