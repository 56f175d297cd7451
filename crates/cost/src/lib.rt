// What a cost is, and two makes of it: a count, and a pair of any two makes.

#![tactic(auto)]

ghost use Rattle.std.specs.Prelude.{◌≡◌, ℕ, ◌+◌, ◌^◌, ◌≤◌};
ghost use Rattle.cost.specs.Model.{Model, Laws, Exact};
ghost use Rattle.cost.specs.Counts.{count_model};
ghost use Rattle.cost.specs.Pairs.{pair_model};
ghost use Rattle.cost.specs.CountLaws.{count_laws};
ghost use Rattle.cost.specs.PairLaws.{pair_laws};
ghost use Rattle.cost.specs.Exacts.{exact_pair};
ghost use Rattle.std.proofs.Common.{rules};

use std::cmp::Ordering;

// A make of cost: values that are added, subtracted, compared and weighed.
pub trait Cost: Copy + Eq {
    // What each method computes, as one record of functions.
    ghost model: { Model Self };

    // The cost that changes no sum.
    fn zero() -> Self
        ensures { result ≡ model.zero };

    // The two costs together.
    fn sum(self, other: Self) -> Self
        ensures { result ≡ model.sum self other };

    // What gives `self` when it is added to `other`.
    fn diff(self, other: Self) -> Self
        ensures { result ≡ model.diff self other };

    // `Less` where `self` is before `other`, `Equal` where they are the same, else `Greater`.
    fn compare(&self, other: &Self) -> Ordering
        ensures { result ≡ model.cmp self.now other.now };

    // The size of the cost. That it is at most 2^31 is a clause and not a law, since a law speaks
    // of all integers, and not only of those that fit their type.
    fn weight(&self) -> u32
        ensures value { result ≡ model.weight self.now }
        ensures bound { result ≤ 2 ^ 31 };

    // What each make proves of its model.
    ghost laws: { Laws model };

    // `==` answers true exactly where the two costs are equal.
    ghost exact: { Exact (λ x y r. r ≡ Self.eq x y) };
}

// A cost of one number, as bytes. It weighs its absolute value.
#[derive(Clone, Copy, Debug, PartialEq, Eq, PartialOrd, Ord)]
pub struct Count {
    pub value: i32,
}

impl Cost for Count {
    ghost model = { count_model };

    ghost laws = { count_laws };

    ghost exact = { Prim.search rules };

    fn zero() -> Count {
        Count { value: 0 }
    }

    // 0 where the sum does not fit.
    fn sum(self, other: Count) -> Count {
        Count {
            value: self.value.checked_add(other.value).unwrap_or(0),
        }
    }

    // 0 where the difference does not fit.
    fn diff(self, other: Count) -> Count {
        Count {
            value: self.value.checked_sub(other.value).unwrap_or(0),
        }
    }

    fn compare(&self, other: &Count) -> Ordering {
        self.cmp(other)
    }

    fn weight(&self) -> u32 {
        self.value.unsigned_abs()
    }
}

// A cost of two parts, as cycles and then bytes. It weighs what its heavier part weighs.
#[derive(Clone, Copy, Debug, PartialEq, Eq, PartialOrd, Ord)]
pub struct Pair<A, B> {
    pub first: A,
    pub second: B,
}

impl<A: Cost, B: Cost> Cost for Pair<A, B> {
    ghost model = { pair_model A.Cost.model B.Cost.model };

    ghost laws = { pair_laws A.Cost.laws B.Cost.laws };

    ghost exact = { exact_pair A.Cost.exact B.Cost.exact };

    fn zero() -> Pair<A, B> {
        Pair {
            first: A::zero(),
            second: B::zero(),
        }
    }

    fn sum(self, other: Pair<A, B>) -> Pair<A, B> {
        Pair {
            first: self.first.sum(other.first),
            second: self.second.sum(other.second),
        }
    }

    fn diff(self, other: Pair<A, B>) -> Pair<A, B> {
        Pair {
            first: self.first.diff(other.first),
            second: self.second.diff(other.second),
        }
    }

    // The second parts decide only where the first are the same.
    fn compare(&self, other: &Pair<A, B>) -> Ordering {
        match self.first.compare(&other.first) {
            Ordering::Less => Ordering::Less,
            Ordering::Equal => self.second.compare(&other.second),
            Ordering::Greater => Ordering::Greater,
        }
    }

    fn weight(&self) -> u32 {
        self.first.weight().max(self.second.weight())
    }
}
