// The draft that the header of a machine file asks for, and the machine that the lines after it make of it.
ghost use Rattle.std.specs.Prelude.{◌≡◌, IfOk};
ghost use Rattle.name.specs.Outcomes.{map_ok};
ghost use Rattle.entry.specs.EntryViews.{header_view};
ghost use Rattle.machine.specs.Files.{machine_in};
ghost use Rattle.machine.specs.Machines.{SealedIn, machine_view};
ghost use Rattle.machine.specs.Asked.{asked};

use crate::drafts::{Drafts, EmptyDraft};
use crate::lines::Lines;
use crate::machine::Machine;
use cost::{Count, Pair};
use entry::{Header, Labelling, Make};
use fault::MachineFault;
use std::alloc::{AllocError, Global};

// An empty draft in the make of cost that a header asks for, and the labeller that it names.
#[derive(Drop)]
pub(crate) enum AskedDraft {
    Bytes {
        labelling: Labelling,
        draft: EmptyDraft<Count>,
    },
    Cycles {
        labelling: Labelling,
        draft: EmptyDraft<Pair<Count, Count>>,
    },
}

impl AskedDraft {
    // With memory of its own.
    pub(crate) fn new(heap: Global, header: Header) -> Result<AskedDraft, AllocError>
        ensures { IfOk result (λ d. asked d ≡ header_view header) }
    {
        let labelling = header.labelling;
        match header.make {
            Make::Bytes => {
                let draft = EmptyDraft::new(heap)?;
                Ok(AskedDraft::Bytes { labelling, draft })
            }
            Make::Cycles => {
                let draft = EmptyDraft::new(heap)?;
                Ok(AskedDraft::Cycles { labelling, draft })
            }
        }
    }

    // With the memory of one of the drafts.
    pub(crate) fn of(drafts: Drafts, header: Header) -> AskedDraft
        ensures { asked result ≡ header_view header }
    {
        let Drafts { bytes, cycles } = drafts;
        let labelling = header.labelling;
        match header.make {
            Make::Bytes => AskedDraft::Bytes {
                labelling,
                draft: bytes,
            },
            Make::Cycles => AskedDraft::Cycles {
                labelling,
                draft: cycles,
            },
        }
    }

    // The machine that the lines that are left give.
    pub(crate) fn filled(self, lines: &mut Lines) -> Result<Machine, MachineFault>
        ensures value { map_ok machine_view result ≡ machine_in (asked self) lines.old }
        ensures sealed { IfOk result SealedIn }
    {
        match self {
            AskedDraft::Bytes { labelling, draft } => {
                let grammar = draft.filled(lines)?;
                Ok(Machine::Bytes { labelling, grammar })
            }
            AskedDraft::Cycles { labelling, draft } => {
                let grammar = draft.filled(lines)?;
                Ok(Machine::Cycles { labelling, grammar })
            }
        }
    }
}
