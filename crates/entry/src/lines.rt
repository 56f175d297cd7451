// The lines that follow the first, and what each says.
ghost use Rattle.std.specs.Prelude.{◌≡◌};
ghost use Rattle.name.specs.Outcomes.{map_ok};
ghost use Rattle.field.specs.Readers.{to_come, next_place};
ghost use Rattle.entry.specs.Entries.{operator_fields, nonterminal_fields, base_fields, chain_fields, kind_fields, entry_of};
ghost use Rattle.entry.specs.EntryViews.{entry_view};

use crate::header::{LONGEST_LINE, refused};
use crate::kind::{Kind, kind_of};
use fault::{LineFault, LineRefusal};
use field::{FieldFault, LineReader};
use grammar::parts::KidNames;
use name::Name;

#[derive(Clone, Copy)]
pub enum Entry {
    Operator {
        name: Name,
        kids: u8,
    },
    Nonterminal {
        name: Name,
    },
    Base {
        left: Name,
        operator: Name,
        kids: KidNames,
        cycles: u32,
        bytes: u32,
        mnemonic: Name,
    },
    Chain {
        left: Name,
        source: Name,
        cycles: u32,
        bytes: u32,
        mnemonic: Name,
    },
}

// No type keeps the `requires` of these five: the first field that one of them reads would break it.
fn operator_entry(fields: &mut LineReader) -> Result<Entry, FieldFault>
    requires { next_place fields.old ≡ 2 }
    ensures { map_ok entry_view result ≡ operator_fields (to_come fields.old) }
{
    let name = fields.name()?;
    let kids = fields.kids()? as u8;
    Ok(Entry::Operator { name, kids })
}

fn nonterminal_entry(fields: &mut LineReader) -> Result<Entry, FieldFault>
    requires { next_place fields.old ≡ 2 }
    ensures { map_ok entry_view result ≡ nonterminal_fields (to_come fields.old) }
{
    let name = fields.name()?;
    Ok(Entry::Nonterminal { name })
}

fn base_entry(fields: &mut LineReader) -> Result<Entry, FieldFault>
    requires { next_place fields.old ≡ 2 }
    ensures { map_ok entry_view result ≡ base_fields (to_come fields.old) }
{
    let left = fields.name()?;
    let operator = fields.name()?;
    let first = fields.kid()?;
    let second = fields.kid()?;
    let cycles = fields.cycles()?;
    let bytes = fields.cost()?;
    let mnemonic = fields.name()?;
    Ok(Entry::Base {
        left,
        operator,
        kids: KidNames { first, second },
        cycles,
        bytes,
        mnemonic,
    })
}

fn chain_entry(fields: &mut LineReader) -> Result<Entry, FieldFault>
    requires { next_place fields.old ≡ 2 }
    ensures { map_ok entry_view result ≡ chain_fields (to_come fields.old) }
{
    let left = fields.name()?;
    let source = fields.name()?;
    let cycles = fields.cycles()?;
    let bytes = fields.cost()?;
    let mnemonic = fields.name()?;
    Ok(Entry::Chain {
        left,
        source,
        cycles,
        bytes,
        mnemonic,
    })
}

fn kind_entry(kind: Kind, fields: &mut LineReader) -> Result<Entry, FieldFault>
    requires { next_place fields.old ≡ 2 }
    ensures { map_ok entry_view result ≡ kind_fields kind (to_come fields.old) }
{
    match kind {
        Kind::Operator => operator_entry(fields),
        Kind::Nonterminal => nonterminal_entry(fields),
        Kind::Base => base_entry(fields),
        Kind::Chain => chain_entry(fields),
    }
}

// What a line says, or the first check that refuses it: its length, its kind, its number of fields, then its fields.
pub fn entry_of(line: &[u8]) -> Result<Entry, LineFault>
    ensures { map_ok entry_view result ≡ entry_of line.now }
{
    if line.len() > LONGEST_LINE {
        return Err(refused(0, LineRefusal::TooLong));
    }
    let mut fields = LineReader::new(line, b',');
    let count = fields.count();
    let kind = fields.next_field().and_then(|head| kind_of(head.text));
    let kind = kind.ok_or(refused(1, LineRefusal::Unknown))?;
    if count != kind.width() {
        return Err(refused(0, LineRefusal::Miscounted));
    }
    Ok(kind_entry(kind, &mut fields)?)
}
