//! The nodes of an open tree, in lent places, and the checks that an entered node must pass.

#![tactic(auto)]

ghost use Rattle.std.specs.Prelude.{◌≡◌, ◌<◌, ◌≤◌, true, [], ◌∷◌, map, length, take};
ghost use Rattle.std.specs.List.{slice_get};
ghost use Rattle.std.specs.Option.{option_map};
ghost use Rattle.grammar.specs.Views.{operator_of};
ghost use Rattle.covers.specs.Nodes.{all_kids};
ghost use Rattle.covers.specs.Ranks.{at};
ghost use Rattle.nodes.specs.Checks.{refusal_number, free, all_free, all_below, check_node, check_answer};
ghost use Rattle.nodes.specs.Places.{nodes_in, MarksKids, Marked, Stored};
ghost use Rattle.nodes.specs.Theorems.{ChecksAreRight};
ghost use Rattle.nodes.specs.Views.{kid_list, node_of, label_of, unused_place};

use applied::Applied;
use grammar::parts::{Operator, OperatorNumber};

/// The number of a node, from 0 in each tree.
#[derive(Clone, Copy, PartialEq, Eq, Debug)]
pub struct NodeNumber(pub usize);

/// The label of a node: the place of its row among the rows held.
#[derive(Clone, Copy, PartialEq, Eq, Debug)]
pub struct Label(pub usize);

/// A node: its operator with the numbers of its kids, and its payload.
#[derive(Clone, Copy)]
pub struct Node {
    pub top: Applied<NodeNumber>,
    pub payload: i32,
}

/// One lent place: a node, its label, and whether it is a kid of another node.
#[derive(Clone, Copy)]
pub struct NodePlace {
    node: Node,
    label: Option<Label>,
    is_kid: bool,
}

impl NodePlace {
    /// A place to lend. What it holds is only a filler, and never in a list.
    pub fn unused() -> NodePlace
        ensures { result ≡ unused_place }
    {
        let node = Node {
            top: Applied::Leaf(OperatorNumber(0)),
            payload: 0,
        };
        NodePlace {
            node,
            label: None,
            is_kid: false,
        }
    }
}

/// Why a node is refused.
#[derive(Clone, Copy, PartialEq, Eq, Debug)]
pub enum NodeRefusal {
    /// The operator is not declared.
    Operator = 24,
    /// The operator takes another count of kids.
    Kids = 25,
    /// A kid is not in this tree, is a kid already, or is given twice.
    Kid = 26,
    /// As many nodes stand as the list may have.
    Full = 27,
}

impl NodeRefusal {
    /// The number that the refusal has in messages.
    pub fn number(self) -> u8
        ensures { result ≡ refusal_number self }
    {
        self as u8
    }
}

// How many kids there are.
fn count_of(top: &Applied<NodeNumber>) -> u8
    ensures { result ≡ length (kid_list top.now) }
{
    match *top {
        Applied::Leaf(_) => 0,
        Applied::Unary(_, _) => 1,
        Applied::Binary(_, _, _) => 2,
    }
}

// Whether each kid's number is below the given one.
fn all_below(top: &Applied<NodeNumber>, number: usize) -> bool
    ensures { result ≡ all_below number (kid_list top.now) }
{
    match *top {
        Applied::Leaf(_) => true,
        Applied::Unary(_, kid) => kid.0 < number,
        Applied::Binary(_, left, right) => left.0 < number && right.0 < number,
    }
}

// Marks a place as that of a kid.
fn mark(places: &mut [NodePlace], kid: NodeNumber)
    ensures { Marked places.old (kid.0 ∷ []) places.new }
{
    // Bounds test: the contract of a slice's `get_mut` does not say what the slice holds after the write.
    if kid.0 < places.len() {
        places[kid.0].is_kid = true;
    }
}

// Marks the places of the kids.
fn mark_kids(places: &mut [NodePlace], top: &Applied<NodeNumber>)
    ensures { Marked places.old (kid_list top.now) places.new }
{
    match *top {
        Applied::Leaf(_) => {}
        Applied::Unary(_, kid) => mark(places, kid),
        Applied::Binary(_, left, right) => {
            mark(places, left);
            mark(places, right);
        }
    }
}

// Puts a node into a place, and marks its kids.
fn store(places: &mut [NodePlace], place: usize, node: Node, label: Option<Label>)
    requires { place < length places.old }
    ensures { Stored places.old place node label places.new }
{
    places[place] = NodePlace {
        node,
        label,
        is_kid: false,
    };
    mark_kids(places, &node.top);
}

/// The nodes of the open tree, each with its label or none, in lent places: the first `len` of them, in the order of entering.
// Lent places with the count of those in use beside them: the list uses no heap.
#[derive(Drop)]
pub struct Nodes<'a> {
    places: &'a mut [NodePlace],
    most: usize,
    len: usize,
    pub ghost fits: { most ≤ length places.now },
    pub ghost few: { len ≤ most },
    pub ghost marks: { MarksKids len places.now },
    pub ghost below: { all_below len (all_kids (nodes_in len places.now)) ≡ true },
}

impl<'a> Nodes<'a> {
    ghost use Rattle.std.specs.Prelude.{min};
    ghost use Rattle.nodes.specs.Meaning.{places_of, most_of, nodes_of, labels_of, Kept, Pushed};

    /// An empty list of up to `most` nodes, and no more than there are places.
    pub fn new(places: &'a mut [NodePlace], most: usize) -> Nodes<'a>
        ensures nodes { nodes_of result ≡ [] }
        ensures labels { labels_of result ≡ [] }
        ensures most { most_of result ≡ min most (length places.old) }
        ensures length { length (places_of result) ≡ length places.old }
        ensures named { result.places.ghost_name ≡ places.entry.ghost_name }
    {
        let most = most.min(places.len());
        Nodes {
            places,
            most,
            len: 0,
        }
    }

    /// Empties the list.
    pub fn start(&mut self)
        ensures nodes { nodes_of self.new ≡ [] }
        ensures labels { labels_of self.new ≡ [] }
        ensures kept { Kept self.old self.new }
    {
        self.len = 0;
    }

    /// How many nodes the list may have.
    pub fn most(&self) -> usize
        ensures { result ≡ most_of self.now }
    {
        self.most
    }

    // The places in use.
    fn listed(&self) -> &[NodePlace]
        ensures { result.now ≡ take self.now.len (places_of self.now) }
    {
        &self.places[..self.len]
    }

    /// How many nodes the list has.
    pub fn count(&self) -> usize
        ensures means { result ≡ length (nodes_of self.now) }
        ensures within { result ≤ length (places_of self.now) }
    {
        self.listed().len()
    }

    /// The node of a number, or none where it is not in the list.
    pub fn node(&self, number: NodeNumber) -> Option<Node>
        ensures { option_map node_of result ≡ slice_get (nodes_of self.now) number.0 }
    {
        self.listed().get(number.0).map(|place| place.node)
    }

    /// The label of a node, or none where it has none or is not in the list.
    pub fn label(&self, number: NodeNumber) -> Option<Label>
        ensures { label_of result ≡ at (labels_of self.now) number.0 }
    {
        self.listed().get(number.0).and_then(|place| place.label)
    }

    // Whether a node may become a kid: it is in the list, and no kid yet.
    fn is_free(&self, number: NodeNumber) -> bool
        ensures { result ≡ free (nodes_of self.now) number.0 }
    {
        self.listed()
            .get(number.0)
            .is_some_and(|place| !place.is_kid)
    }

    // Whether each kid is free, and none is given twice.
    fn are_free(&self, top: &Applied<NodeNumber>) -> bool
        ensures { result ≡ all_free (nodes_of self.now) (kid_list top.now) }
    {
        match *top {
            Applied::Leaf(_) => true,
            Applied::Unary(_, kid) => self.is_free(kid),
            Applied::Binary(_, left, right) => self.is_free(left)
                && left.0 != right.0
                && self.is_free(right),
        }
    }

    /// Whether a node may be entered, or the first reason why not.
    #[tactic(auto, using(crate::proofs::Right::checks_are_right))]
    pub fn check(&self, operators: &[Operator], node: &Node) -> Result<(), NodeRefusal>
        ensures answer { result ≡ check_answer (check_node (map operator_of operators.now) (most_of self.now) (nodes_of self.now) (node_of node.now)) }
        ensures right { ChecksAreRight }
    {
        let number = node.top.operator().0;
        let operator = operators.get(number).ok_or(NodeRefusal::Operator)?;
        if operator.kids != count_of(&node.top) {
            return Err(NodeRefusal::Kids);
        }
        if !self.are_free(&node.top) {
            return Err(NodeRefusal::Kid);
        }
        if self.count() >= self.most() {
            return Err(NodeRefusal::Full);
        }
        Ok(())
    }

    /// Appends a node with its label, and answers its number. None, and nothing is changed, where the list is full or a kid's
    /// number is not below the new node's.
    pub fn push(&mut self, node: Node, label: Option<Label>) -> Option<NodeNumber>
        ensures pushed { Pushed self.old (node_of node) (label_of label) result self.new }
        ensures kept { Kept self.old self.new }
    {
        let place = self.len;
        if place >= self.most || !all_below(&node.top, place) {
            return None;
        }
        store(self.places, place, node, label);
        self.len = place + 1;
        Some(NodeNumber(place))
    }
}
