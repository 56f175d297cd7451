//! An operator with its kids, whatever the kids are given by: their numbers, their labels or their rows.

#![tactic(auto)]

ghost use Rattle.std.specs.Prelude.{◌≡◌};
ghost use Rattle.applied.specs.Kids.{operator_in, first_in, second_in, over};

use grammar::parts::OperatorNumber;

/// An operator with no, one or two kids, the left one first.
#[derive(Clone, Copy, PartialEq, Eq, Debug)]
pub enum Applied<T> {
    Leaf(OperatorNumber),
    Unary(OperatorNumber, T),
    Binary(OperatorNumber, T, T),
}

impl<T: Copy> Applied<T> {
    pub fn operator(&self) -> OperatorNumber
        ensures { result ≡ operator_in self.now }
    {
        match *self {
            Applied::Leaf(operator) => operator,
            Applied::Unary(operator, _) => operator,
            Applied::Binary(operator, _, _) => operator,
        }
    }

    /// The only or the left kid, or none.
    pub fn first(&self) -> Option<T>
        ensures { result ≡ first_in self.now }
    {
        match *self {
            Applied::Leaf(_) => None,
            Applied::Unary(_, kid) => Some(kid),
            Applied::Binary(_, left, _) => Some(left),
        }
    }

    /// The right kid, or none.
    pub fn second(&self) -> Option<T>
        ensures { result ≡ second_in self.now }
    {
        match *self {
            Applied::Binary(_, _, right) => Some(right),
            _ => None,
        }
    }

    /// The operator with as many of the two others as it has kids, the left one first.
    pub fn over<U: Copy>(&self, first: U, second: U) -> Applied<U>
        ensures { result ≡ over self.now first second }
    {
        match *self {
            Applied::Leaf(operator) => Applied::Leaf(operator),
            Applied::Unary(operator, _) => Applied::Unary(operator, first),
            Applied::Binary(operator, _, _) => Applied::Binary(operator, first, second),
        }
    }
}
