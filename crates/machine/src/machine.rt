// A machine as its file gives it, and why there is none.
ghost use Rattle.std.specs.Prelude.{◌≡◌};
ghost use Rattle.machine.specs.declared.machine.ReadError.TheVariants.{Fault, Memory};

use cost::{Count, Pair};
use entry::Labelling;
use fault::MachineFault;
use grammar::grammar::Grammar;
use std::alloc::AllocError;

// A grammar in the make of cost that its file asks for, and the labeller that it is meant for.
#[derive(Drop)]
pub enum Machine {
    Bytes {
        labelling: Labelling,
        grammar: Grammar<Count>,
    },
    Cycles {
        labelling: Labelling,
        grammar: Grammar<Pair<Count, Count>>,
    },
}

#[derive(Clone, Copy, Debug, PartialEq, Eq)]
pub enum ReadError {
    // There was no memory for the grammar.
    Memory,
    Fault(MachineFault),
}

impl From<MachineFault> for ReadError {
    ghost from_gives = { λ e r. r ≡ Fault e };

    fn from(fault: MachineFault) -> ReadError {
        ReadError::Fault(fault)
    }
}

impl From<AllocError> for ReadError {
    ghost from_gives = { λ _ r. r ≡ Memory };

    fn from(_error: AllocError) -> ReadError {
        ReadError::Memory
    }
}
