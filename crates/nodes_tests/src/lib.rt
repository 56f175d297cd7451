//! A holder of a list of nodes by value, and tests of the checks.

#![tactic(auto)]

ghost use Rattle.std.specs.Prelude.{◌≡◌, [], map};
ghost use Rattle.grammar.specs.Views.{operator_of};
ghost use Rattle.covers.specs.Nodes.{Listed};
ghost use Rattle.nodes.specs.Meaning.{nodes_of, labels_of};
ghost use Rattle.nodes.specs.Views.{node_of, label_of};
ghost use Rattle.nodes_tests.specs.Entering.{Enters};

use applied::Applied;
use grammar::parts::{Operator, OperatorNumber};
use nodes::{Label, Node, NodeNumber, NodePlace, NodeRefusal, Nodes};

/// A list of nodes by value, with a count of the nodes refused.
#[derive(Drop)]
pub struct Holder<'a> {
    nodes: Nodes<'a>,
    refused: u32,
}

impl<'a> Holder<'a> {
    pub fn new(places: &'a mut [NodePlace], most: usize) -> Holder<'a>
        ensures nodes { nodes_of result.nodes ≡ [] }
        ensures labels { labels_of result.nodes ≡ [] }
    {
        Holder {
            nodes: Nodes::new(places, most),
            refused: 0,
        }
    }

    /// Enters a node, or says why not.
    pub fn enter(
        &mut self,
        operators: &[Operator],
        node: Node,
        label: Option<Label>,
    ) -> Result<NodeNumber, NodeRefusal>
        ensures { Listed (map operator_of operators.now) (nodes_of self.old.nodes) → Enters (map operator_of operators.now) self.old.nodes (node_of node) (label_of label) result self.new.nodes }
    {
        if let Err(refusal) = self.nodes.check(operators, &node) {
            self.refused = self.refused.saturating_add(1);
            return Err(refusal);
        }
        self.nodes.push(node, label).ok_or(NodeRefusal::Full)
    }
}

/// The first node of a list has number 0: a caller that made its list by public calls owes nothing.
pub fn first_number(places: &mut [NodePlace], operator: OperatorNumber) -> usize
    ensures { result ≡ 0 }
{
    if places.is_empty() {
        return 0;
    }
    let mut nodes = Nodes::new(places, 1);
    let node = Node {
        top: Applied::Leaf(operator),
        payload: 0,
    };
    match nodes.push(node, None) {
        Some(number) => number.0,
        None => unreachable(),
    }
}

#[cfg(test)]
mod tests {
    use super::*;
    use name::Name;
    use std::test::Fail;

    fn leaf(operator: usize) -> Node {
        Node {
            top: Applied::Leaf(OperatorNumber(operator)),
            payload: 7,
        }
    }

    fn sum(left: usize, right: usize) -> Node {
        Node {
            top: Applied::Binary(OperatorNumber(1), NodeNumber(left), NodeNumber(right)),
            payload: 0,
        }
    }

    fn operator(kids: u8) -> Result<Operator, Fail> {
        Ok(Operator {
            name: Name::new(b"op")?,
            kids,
        })
    }

    #[test]
    fn refused_in_order(rt: HostRuntime) -> Result<(), Fail> {
        let operators = [operator(0)?, operator(2)?];
        let mut places = [NodePlace::unused(); 4];
        let mut holder = Holder::new(&mut places, 4);
        assert!(rt; holder.enter(&operators, leaf(0), Some(Label(5))) == Ok(NodeNumber(0)));
        assert!(rt; holder.enter(&operators, leaf(2), None) == Err(NodeRefusal::Operator));
        assert!(rt; holder.enter(&operators, leaf(1), None) == Err(NodeRefusal::Kids));
        assert!(rt; holder.enter(&operators, sum(0, 0), None) == Err(NodeRefusal::Kid));
        assert!(rt; holder.enter(&operators, sum(0, 1), None) == Err(NodeRefusal::Kid));
        assert!(rt; holder.enter(&operators, leaf(0), None) == Ok(NodeNumber(1)));
        assert!(rt; holder.enter(&operators, sum(0, 1), None) == Ok(NodeNumber(2)));
        assert!(rt; holder.enter(&operators, sum(2, 1), None) == Err(NodeRefusal::Kid));
        assert!(rt; holder.enter(&operators, leaf(0), None) == Ok(NodeNumber(3)));
        assert!(rt; holder.enter(&operators, leaf(0), None) == Err(NodeRefusal::Full));
        assert!(rt; holder.enter(&operators, sum(2, 1), None) == Err(NodeRefusal::Kid));
        assert!(rt; holder.refused == 7);
        Ok(())
    }

    #[test]
    fn as_many_as_the_limit(rt: HostRuntime) {
        let mut places = [NodePlace::unused(); 2];
        let mut nodes = Nodes::new(&mut places, 1);
        assert!(rt; nodes.most() == 1 && nodes.count() == 0);
        assert!(rt; nodes.push(sum(0, 0), None).is_none());
        assert!(rt; nodes.push(leaf(3), Some(Label(5))) == Some(NodeNumber(0)));
        assert!(rt; nodes.push(leaf(3), None).is_none());
        assert!(rt; nodes.count() == 1);
        assert!(rt; nodes.node(NodeNumber(0)).is_some() && nodes.node(NodeNumber(1)).is_none());
        assert!(rt; nodes.label(NodeNumber(0)).is_some() && nodes.label(NodeNumber(1)).is_none());
        nodes.start();
        assert!(rt; nodes.count() == 0 && nodes.node(NodeNumber(0)).is_none());
    }
}
