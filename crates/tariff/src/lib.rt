// How costs are made of the cycles and bytes of a machine file, and which numbers are printed of them.

#![tactic(auto)]

ghost use Rattle.std.specs.Prelude.{◌≡◌, ℕ, List, [], ◌∷◌, ◌++◌, ℤ, OnOk};
ghost use Rattle.tariff.specs.Tariffs.{counted, cycles_first};

use cost::{Cost, Count, Pair};
use std::alloc::AllocError;

// A make of cost that machine files can be read in.
pub trait Tariff: Cost {
    // The cost of a number of cycles and a number of bytes.
    ghost priced: { ℕ → ℕ → Self };

    fn price(cycles: u32, bytes: u32) -> Self
        ensures { result ≡ priced cycles bytes };
}

// A cost by the numbers that are printed of it, the most important first.
pub trait Figures {
    ghost figures: { Self → List ℤ };

    // Puts the numbers of this cost behind those that are there.
    fn push_figures(&self, to: &mut Vec<i32>) -> Result<(), AllocError>
        ensures { OnOk result (to.new.items ≡ to.old.items ++ figures self.now) };
}

// The count of a number; 0 where it does not fit.
fn count(number: u32) -> Count
    ensures { result ≡ counted number }
{
    Count {
        value: i32::try_from(number).unwrap_or(0),
    }
}

// Bytes alone.
impl Tariff for Count {
    ghost priced = { λ cycles bytes. counted bytes };

    fn price(_cycles: u32, bytes: u32) -> Count {
        count(bytes)
    }
}

// Cycles before bytes.
impl Tariff for Pair<Count, Count> {
    ghost priced = { cycles_first };

    fn price(cycles: u32, bytes: u32) -> Pair<Count, Count> {
        Pair {
            first: count(cycles),
            second: count(bytes),
        }
    }
}

impl Figures for Count {
    ghost figures = { λ c. c.value ∷ [] };

    fn push_figures(&self, to: &mut Vec<i32>) -> Result<(), AllocError> {
        to.push(self.value)?;
        Ok(())
    }
}

impl<A: Figures, B: Figures> Figures for Pair<A, B> {
    ghost figures = { λ c. A.Figures.figures c.first ++ B.Figures.figures c.second };

    fn push_figures(&self, to: &mut Vec<i32>) -> Result<(), AllocError> {
        self.first.push_figures(to)?;
        self.second.push_figures(to)
    }
}
