// The memory that a machine file is read into.
ghost use Rattle.std.specs.Prelude.{◌≡◌, IfOk};
ghost use Rattle.name.specs.Outcomes.{map_ok};
ghost use Rattle.grammar.specs.Drafting.{empty};
ghost use Rattle.grammar.specs.Lists.{Sealed};
ghost use Rattle.grammar.specs.Meaning.{draft_lists, grammar_lists};
ghost use Rattle.machine.specs.Files.{all_taken};

use crate::file::fill;
use crate::lines::Lines;
use cost::{Cost, Count, Pair};
use fault::MachineFault;
use grammar::draft::Draft;
use grammar::grammar::Grammar;
use std::alloc::{AllocError, Global};
use tariff::Tariff;

// A draft in which nothing is declared yet.
#[derive(Drop)]
pub(crate) struct EmptyDraft<C: Cost> {
    pub(crate) draft: Draft<C>,
    ghost none: { draft_lists draft ≡ empty },
}

impl<C: Tariff> EmptyDraft<C> {
    pub(crate) fn new(heap: Global) -> Result<EmptyDraft<C>, AllocError> {
        let draft = Draft::new(heap)?;
        Ok(EmptyDraft { draft })
    }

    // The grammar that the lines that are left declare.
    pub(crate) fn filled(self, lines: &mut Lines) -> Result<Grammar<C>, MachineFault>
        ensures value { map_ok grammar_lists result ≡ all_taken C.Cost.model C.Tariff.priced empty lines.old }
        ensures sealed { IfOk result (λ g. Sealed C.Cost.model (grammar_lists g)) }
    {
        let EmptyDraft { draft } = self;
        fill(draft, lines)
    }
}

// An empty draft for each make of cost, with its memory: the first line of a file says which one is filled.
#[derive(Drop)]
pub struct Drafts {
    pub(crate) bytes: EmptyDraft<Count>,
    pub(crate) cycles: EmptyDraft<Pair<Count, Count>>,
}

impl Drafts {
    pub fn new(heap: Global) -> Result<Drafts, AllocError>
        ensures { IfOk result (λ d. (draft_lists d.bytes.draft ≡ empty) × (draft_lists d.cycles.draft ≡ empty)) }
    {
        let bytes = EmptyDraft::new(heap)?;
        let cycles = EmptyDraft::new(heap)?;
        Ok(Drafts { bytes, cycles })
    }
}
