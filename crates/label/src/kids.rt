// A node's operator with something for each of its kids.
ghost use Rattle.std.specs.Prelude.{◌≡◌};
ghost use Rattle.applied.specs.Kids.{over};

use applied::Applied;
use nodes::Node;

/// The operator of a node with the first and the second in place of its kids, as many as it has.
pub fn kids_over<'a, K>(node: &Node, first: &'a K, second: &'a K) -> Applied<&'a K>
    ensures { result ≡ over node.now.top first.entry second.entry }
{
    node.top.over(first, second)
}
