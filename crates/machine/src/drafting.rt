// Taking the lines of a machine file into a draft.
ghost use Rattle.std.specs.Prelude.{◌≡◌, Ok, Err, MatchResult, OnErr};
ghost use Rattle.grammar.specs.Drafting.{lists_after};
ghost use Rattle.grammar.specs.Meaning.{draft_lists};
ghost use Rattle.entry.specs.EntryViews.{entry_view};
ghost use Rattle.machine.specs.Files.{drafted, taken, all_taken};

use crate::lines::Lines;
use crate::places::in_line;
use entry::{Entry, entry_of};
use fault::{LineFault, MachineFault};
use grammar::draft::Draft;
use grammar::refusal::DraftRefusal;
use tariff::Tariff;

// Declares what an entry says.
pub fn declare<C: Tariff>(draft: &mut Draft<C>, entry: Entry) -> Result<(), DraftRefusal>
    ensures outcome { MatchResult result (λ _. drafted C.Cost.model C.Tariff.priced (draft_lists draft.old) (entry_view entry) ≡ Ok (draft_lists draft.new)) (λ e. drafted C.Cost.model C.Tariff.priced (draft_lists draft.old) (entry_view entry) ≡ Err e) }
    ensures kept { OnErr result (draft_lists draft.new ≡ draft_lists draft.old) }
{
    match entry {
        Entry::Operator { name, kids } => {
            draft.declare_operator(name, kids)?;
        }
        Entry::Nonterminal { name } => {
            draft.declare_nonterminal(name)?;
        }
        Entry::Base {
            left,
            operator,
            kids,
            cycles,
            bytes,
            mnemonic,
        } => {
            draft.add_base(left, operator, kids, C::price(cycles, bytes), mnemonic)?;
        }
        Entry::Chain {
            left,
            source,
            cycles,
            bytes,
            mnemonic,
        } => {
            draft.add_chain(left, source, C::price(cycles, bytes), mnemonic)?;
        }
    }
    Ok(())
}

// Takes a line into a draft.
pub fn take_line<C: Tariff>(draft: &mut Draft<C>, line: &[u8]) -> Result<(), LineFault>
    ensures outcome { MatchResult result (λ _. taken C.Cost.model C.Tariff.priced (draft_lists draft.old) line.now ≡ Ok (draft_lists draft.new)) (λ e. taken C.Cost.model C.Tariff.priced (draft_lists draft.old) line.now ≡ Err e) }
    ensures kept { OnErr result (draft_lists draft.new ≡ draft_lists draft.old) }
{
    let entry = entry_of(line)?;
    declare(draft, entry)?;
    Ok(())
}

// Takes the lines that are left into a draft, up to the first fault.
#[tactic(auto, unfolding(crate::specs::Files::all_taken))]
pub fn take_lines<C: Tariff>(draft: &mut Draft<C>, lines: &mut Lines) -> Result<(), MachineFault>
    ensures outcome { MatchResult result (λ _. all_taken C.Cost.model C.Tariff.priced (draft_lists draft.old) lines.old ≡ Ok (draft_lists draft.new)) (λ e. all_taken C.Cost.model C.Tariff.priced (draft_lists draft.old) lines.old ≡ Err e) }
{
    for part in lines {
        take_line(draft, part.text).map_err(|fault| in_line(part.place, fault))?;
    }
    Ok(())
}
