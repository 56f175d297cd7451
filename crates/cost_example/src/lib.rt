// A third make of cost, as docs/costs.md explains it, and that page's example of a pair.

#![tactic(auto)]

ghost use Rattle.std.specs.Prelude.{◌≡◌, pos, negsuc};
ghost use Rattle.std.specs.declared.cmp.Ordering.TheVariants.{Greater};
ghost use Rattle.cost.specs.Counts.{count};
ghost use Rattle.cost.specs.Pairs.{pair};
ghost use Rattle.cost_example.specs.Energies.{energy_model};
ghost use Rattle.cost_example.specs.EnergyLaws.{energy_laws};
ghost use Rattle.std.proofs.Common.{rules};

use cost::{Cost, Count, Pair};
use std::cmp::Ordering;

// Energy in whole units. A sum or a difference that is too large stays at the end of the range.
#[derive(Clone, Copy, Debug, PartialEq, Eq, PartialOrd, Ord)]
pub struct Energy {
    pub units: i32,
}

impl Cost for Energy {
    ghost model = { energy_model };

    ghost laws = { energy_laws };

    ghost exact = { Prim.search rules };

    fn zero() -> Energy {
        Energy { units: 0 }
    }

    fn sum(self, other: Energy) -> Energy {
        Energy {
            units: self.units.saturating_add(other.units),
        }
    }

    fn diff(self, other: Energy) -> Energy {
        Energy {
            units: self.units.saturating_sub(other.units),
        }
    }

    fn compare(&self, other: &Energy) -> Ordering {
        self.cmp(other)
    }

    fn weight(&self) -> u32 {
        self.units.unsigned_abs()
    }
}

fn counts(first: i32, second: i32) -> Pair<Count, Count>
    ensures { result ≡ pair (count first) (count second) }
{
    Pair {
        first: Count { value: first },
        second: Count { value: second },
    }
}

// (2, 1) - (1, 5) is (1, -4), which is after zero: the second part is not held at 0.
pub fn one_more_four_less() -> (Pair<Count, Count>, Ordering)
    ensures { result ≡ (pair (count (pos 1)) (count (negsuc 3)), Greater) }
{
    let rest = counts(2, 1).diff(counts(1, 5));
    (rest, rest.compare(&Pair::<Count, Count>::zero()))
}
