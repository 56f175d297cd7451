// Reading a whole machine file.
ghost use Rattle.std.specs.Prelude.{◌≡◌, IfOk, Err, MatchResult};
ghost use Rattle.name.specs.Outcomes.{map_ok};
ghost use Rattle.grammar.specs.Lists.{Sealed};
ghost use Rattle.grammar.specs.Meaning.{draft_lists, grammar_lists};
ghost use Rattle.entry.specs.EntryViews.{header_view};
ghost use Rattle.machine.specs.Files.{all_taken, first_of, machine_in, machine_of};
ghost use Rattle.machine.specs.Readings.{Reading};
ghost use Rattle.machine.specs.declared.machine.ReadError.TheVariants.{Memory};
ghost use Rattle.machine.specs.Machines.{SealedIn, Reads, Headed, machine_view};

use crate::asked::AskedDraft;
use crate::drafting::take_lines;
use crate::drafts::Drafts;
use crate::lines::Lines;
use crate::machine::{Machine, ReadError};
use crate::places::{in_file, in_line};
use entry::{Header, header_of};
use fault::{LineRefusal, MachineFault, Refusal};
use grammar::draft::Draft;
use grammar::grammar::Grammar;
use std::alloc::Global;
use tariff::Tariff;

// The longest file, in bytes.
pub const LONGEST_FILE: usize = 32768;

// The header, from the first line with content.
fn first_line(lines: &mut Lines) -> Result<Header, MachineFault>
    ensures { map_ok (λ h. (header_view h, lines.new)) result ≡ first_of lines.old }
{
    let none = in_file(Refusal::Line(LineRefusal::Unknown));
    let part = lines.next().ok_or(none)?;
    header_of(part.text).map_err(|fault| in_line(part.place, fault))
}

// The header of a file, and the lines after it.
fn opened(text: &[u8]) -> Result<(Header, Lines<'_>), MachineFault>
    ensures value { MatchResult result (λ f. machine_in (header_view f.0) f.1 ≡ machine_of text.now) (λ e. Err e ≡ machine_of text.now) }
    ensures headed { IfOk result (λ _. Headed text.now) }
{
    if text.len() > LONGEST_FILE {
        return Err(in_file(Refusal::File));
    }
    let mut lines = Lines::new(text);
    let header = first_line(&mut lines)?;
    Ok((header, lines))
}

// The grammar that the lines that are left declare, in a draft, whose memory is there: so only a fault can be in the way.
pub fn fill<C: Tariff>(mut draft: Draft<C>, lines: &mut Lines) -> Result<Grammar<C>, MachineFault>
    ensures value { map_ok grammar_lists result ≡ all_taken C.Cost.model C.Tariff.priced (draft_lists draft) lines.old }
    ensures sealed { IfOk result (λ g. Sealed C.Cost.model (grammar_lists g)) }
{
    take_lines(&mut draft, lines)?;
    Ok(draft.seal())
}

// What a machine file says, or its first fault.
#[tactic(auto, using(crate::proofs::Readings::reading))]
pub fn read(heap: Global, text: &[u8]) -> Result<Machine, ReadError>
    ensures value { Reads result (machine_of text.now) }
    ensures memory { result ≡ Err Memory → Headed text.now }
    ensures sealed { IfOk result SealedIn }
    ensures meaning { Reading text.now }
{
    let (header, mut lines) = opened(text)?;
    let draft = AskedDraft::new(heap, header)?;
    Ok(draft.filled(&mut lines)?)
}

// What a machine file says, or its first fault. The drafts have the memory that it takes, so that only a fault can be in the way.
pub fn read_into(drafts: Drafts, text: &[u8]) -> Result<Machine, MachineFault>
    ensures value { map_ok machine_view result ≡ machine_of text.now }
    ensures sealed { IfOk result SealedIn }
{
    let (header, mut rest) = opened(text)?;
    AskedDraft::of(drafts, header).filled(&mut rest)
}
