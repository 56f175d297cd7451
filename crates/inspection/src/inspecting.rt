// The whole text that is printed of a machine file.
ghost use Rattle.std.specs.Prelude.{◌≡◌, ◌≤◌, ◌++◌, IfOk, OnOk};
ghost use Rattle.grammar.specs.Meaning.{declared_lists, grammar_lists};
ghost use Rattle.machine.specs.Machines.{machine_view};
ghost use Rattle.inspection.specs.Inspections.{lines_text, grammar_text, machine_text, fault_text, inspected, unreadable};

use crate::lines::Listed;
use cost::Cost;
use fault::{MachineFault, Refusal};
use grammar::declarations::Declarations;
use grammar::grammar::Grammar;
use listing::{Source, counts_line, ended, fault_line};
use machine::{Machine, ReadError, in_file, read};
use std::alloc::{AllocError, Global};
use tariff::Figures;

// Adds the lines of the items, of which the first has the number `first`.
#[tactic(auto, unfolding(crate::specs::Inspections::lines_text))]
fn push_lines<C, T: Listed<C>>(
    text: &mut Vec<u8>,
    declarations: &Declarations<C>,
    first: usize,
    items: &[T],
) -> Result<(), AllocError>
    requires { first ≤ 1 }
    ensures { OnOk result (text.new.items ≡ text.old.items ++ lines_text (T.Listed.written (declared_lists declarations.now)) first items.now) }
{
    let heap = *text.allocator();
    // Enumerated: the range `first..` ends before the greatest number, and items without size may be as many.
    for (i, item) in items.iter().enumerate() {
        let line = ended(item.line(heap, declarations, first + i)?)?;
        text.extend_from_slice(&line)?;
    }
    Ok(())
}

// A grammar's operators, nonterminals and rules, and how many there are of each.
pub fn grammar_text<C: Cost + Figures>(
    heap: Global,
    grammar: &Grammar<C>,
) -> Result<Vec<u8>, AllocError>
    ensures { IfOk result (λ v. v.items ≡ grammar_text C.Figures.figures (grammar_lists grammar.now)) }
{
    let declarations = grammar.declarations();
    let operators = declarations.operators();
    let nonterminals = declarations.nonterminals();
    let rules = declarations.rules();
    let mut text = Vec::new(heap);
    push_lines(&mut text, declarations, 0, operators)?;
    push_lines(&mut text, declarations, 0, nonterminals)?;
    push_lines(&mut text, declarations, 1, rules)?;
    let counts = counts_line(heap, operators.len(), nonterminals.len(), rules.len())?;
    text.extend_from_slice(&ended(counts)?)?;
    Ok(text)
}

// The grammar of a machine, with costs in its make.
fn machine_text(heap: Global, machine: &Machine) -> Result<Vec<u8>, AllocError>
    ensures { IfOk result (λ v. v.items ≡ machine_text (machine_view machine.now)) }
{
    match machine {
        Machine::Bytes { grammar, .. } => grammar_text(heap, grammar),
        Machine::Cycles { grammar, .. } => grammar_text(heap, grammar),
    }
}

// The fault of a machine file.
pub fn fault_text(heap: Global, fault: &MachineFault) -> Result<Vec<u8>, AllocError>
    ensures { IfOk result (λ v. v.items ≡ fault_text fault.now) }
{
    let number = fault.refusal.number();
    ended(fault_line(heap, Source::Machine, fault.line, fault.field, number)?)
}

// The grammar that a machine file declares, or its fault.
pub fn inspect_text(heap: Global, file: &[u8]) -> Result<Vec<u8>, AllocError>
    ensures { IfOk result (λ v. v.items ≡ inspected file.now) }
{
    match read(heap, file) {
        Ok(machine) => machine_text(heap, &machine),
        Err(ReadError::Fault(fault)) => fault_text(heap, &fault),
        Err(ReadError::Memory) => Err(AllocError),
    }
}

// The fault of a machine file that cannot be read.
pub fn unreadable_text(heap: Global) -> Result<Vec<u8>, AllocError>
    ensures { IfOk result (λ v. v.items ≡ unreadable) }
{
    fault_text(heap, &in_file(Refusal::File))
}
