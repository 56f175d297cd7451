// The lines that the programs print: fields parted by commas, as bytes with no line feed.

#![tactic(auto)]

ghost use Rattle.std.specs.Prelude.{◌≡◌, [], ◌∷◌, ◌++◌, map, IfSome, IfOk, decimal};
ghost use Rattle.std.specs.Option.{option_map};
ghost use Rattle.std.specs.Fmt.{signed_decimal};
ghost use Rattle.listing.specs.Fields.{with_field, with_fields, parted, line_bytes};
ghost use Rattle.listing.specs.Lines.{op_line, nt_line, kid_field, with_cost, base_line, chain_line, counts_line, letter, fault_line};

use std::alloc::{AllocError, Global};
use std::fmt::Display;

// A line in the making.
#[derive(Drop)]
pub struct Line {
    bytes: Vec<u8>,
}

impl Line {
    // The line of one field.
    pub fn new(heap: Global, first: &[u8]) -> Result<Line, AllocError>
        ensures { IfOk result (λ l. line_bytes l ≡ first.now) }
    {
        let mut bytes = Vec::new(heap);
        bytes.extend_from_slice(first)?;
        Ok(Line { bytes })
    }

    // Adds a field of these bytes.
    pub fn word(mut self, field: &[u8]) -> Result<Line, AllocError>
        ensures { IfOk result (λ l. line_bytes l ≡ with_field (line_bytes self) field.now) }
    {
        self.bytes.push(b',')?;
        self.bytes.extend_from_slice(field)?;
        Ok(self)
    }

    // Adds a field of what `{}` writes of the value.
    pub fn number<N: Display + Drop>(self, value: N) -> Result<Line, AllocError>
        ensures { IfOk result (λ l. IfSome (N.Display.output value) (λ text. line_bytes l ≡ with_field (line_bytes self) text)) }
    {
        let heap = *self.bytes.allocator();
        let text = value.to_string(heap)?;
        self.word(text.as_bytes())
    }

    // Adds a field for each number, in their order.
    pub fn numbers(self, numbers: &[i32]) -> Result<Line, AllocError>
        ensures { IfOk result (λ l. line_bytes l ≡ with_fields (line_bytes self) (map signed_decimal numbers.now)) }
    {
        let mut line = self;
        for n in numbers {
            line = line.number(*n)?;
        }
        Ok(line)
    }

    // The line of what has a number and a name.
    fn numbered(heap: Global, kind: &[u8], number: usize, name: &[u8]) -> Result<Line, AllocError>
        ensures { IfOk result (λ l. line_bytes l ≡ parted (kind.now ∷ decimal number ∷ name.now ∷ [])) }
    {
        Line::new(heap, kind)?.number(number)?.word(name)
    }

    // Adds a field for each number of the cost, and the mnemonic.
    fn priced(self, cost: &[i32], mnemonic: &[u8]) -> Result<Line, AllocError>
        ensures { IfOk result (λ l. line_bytes l ≡ with_cost (line_bytes self) cost.now mnemonic.now) }
    {
        self.numbers(cost)?.word(mnemonic)
    }

    // Its bytes.
    pub fn into_bytes(self) -> Vec<u8>
        ensures { result.items ≡ line_bytes self }
    {
        let Line { bytes } = self;
        bytes
    }
}

// The line with a line feed at its end.
pub fn ended(mut bytes: Vec<u8>) -> Result<Vec<u8>, AllocError>
    ensures { IfOk result (λ v. v.items ≡ bytes.items ++ (10 ∷ [])) }
{
    bytes.push(b'\n')?;
    Ok(bytes)
}

// An operator, with its count of kids.
pub fn op_line(heap: Global, number: usize, name: &[u8], kids: u8) -> Result<Vec<u8>, AllocError>
    ensures { IfOk result (λ v. v.items ≡ op_line number name.now kids) }
{
    let line = Line::numbered(heap, b"op", number, name)?;
    Ok(line.number(kids)?.into_bytes())
}

// A nonterminal.
pub fn nt_line(heap: Global, number: usize, name: &[u8]) -> Result<Vec<u8>, AllocError>
    ensures { IfOk result (λ v. v.items ≡ nt_line number name.now) }
{
    Ok(Line::numbered(heap, b"nt", number, name)?.into_bytes())
}

// The kid's nonterminal, or `-` where there is none.
fn kid_field(kid: Option<&[u8]>) -> &[u8]
    ensures { result.now ≡ kid_field (option_map (λ x. x.now) kid.entry) }
{
    kid.unwrap_or(b"-")
}

// The fields of a base rule but for its cost, with names in place of numbers.
#[derive(Clone, Copy)]
pub struct BaseFields<'a> {
    pub number: usize,
    pub left: &'a [u8],
    pub op: &'a [u8],
    // The kids' nonterminals, as far as the operator has kids.
    pub first: Option<&'a [u8]>,
    pub second: Option<&'a [u8]>,
    pub mnemonic: &'a [u8],
}

// A base rule, with the numbers of its cost, most important first.
pub fn base_line(heap: Global, rule: BaseFields<'_>, cost: &[i32]) -> Result<Vec<u8>, AllocError>
    ensures { IfOk result (λ v. v.items ≡ base_line rule.entry.number rule.entry.left.now rule.entry.op.now (option_map (λ x. x.now) rule.entry.first) (option_map (λ x. x.now) rule.entry.second) cost.now rule.entry.mnemonic.now) }
{
    let line = Line::numbered(heap, b"base", rule.number, rule.left)?.word(rule.op)?;
    let line = line.word(kid_field(rule.first))?;
    let line = line.word(kid_field(rule.second))?;
    Ok(line.priced(cost, rule.mnemonic)?.into_bytes())
}

// The fields of a chain rule but for its cost, with names in place of numbers.
// A struct beside `BaseFields`: one for both would hold an operator and kids that no chain rule has.
#[derive(Clone, Copy)]
pub struct ChainFields<'a> {
    pub number: usize,
    pub left: &'a [u8],
    pub source: &'a [u8],
    pub mnemonic: &'a [u8],
}

// A chain rule, with the numbers of its cost, most important first.
pub fn chain_line(heap: Global, rule: ChainFields<'_>, cost: &[i32]) -> Result<Vec<u8>, AllocError>
    ensures { IfOk result (λ v. v.items ≡ chain_line rule.entry.number rule.entry.left.now rule.entry.source.now cost.now rule.entry.mnemonic.now) }
{
    let line = Line::numbered(heap, b"chain", rule.number, rule.left)?;
    let line = line.word(rule.source)?;
    Ok(line.priced(cost, rule.mnemonic)?.into_bytes())
}

// How many operators, nonterminals and rules a grammar has.
pub fn counts_line(
    heap: Global,
    operators: usize,
    nonterminals: usize,
    rules: usize,
) -> Result<Vec<u8>, AllocError>
    ensures { IfOk result (λ v. v.items ≡ counts_line operators nonterminals rules) }
{
    let line = Line::new(heap, b"counts")?.number(operators)?;
    Ok(line.number(nonterminals)?.number(rules)?.into_bytes())
}

// The file that a fault stands in.
#[derive(Clone, Copy, Debug, PartialEq, Eq)]
pub enum Source {
    Machine,
    Trees,
}

impl Source {
    // Its letter in a fault: bytes, as `word` takes them, so no `Display`.
    pub fn letter(self) -> &'static [u8]
        ensures { result.now ≡ letter self }
    {
        match self {
            Source::Machine => b"g",
            Source::Trees => b"t",
        }
    }
}

// A fault: where it stands, and its number.
pub fn fault_line(
    heap: Global,
    source: Source,
    line: usize,
    field: usize,
    number: u8,
) -> Result<Vec<u8>, AllocError>
    ensures { IfOk result (λ v. v.items ≡ fault_line source line field number) }
{
    let start = Line::new(heap, b"fault")?.word(source.letter())?;
    let place = start.number(line)?.number(field)?;
    Ok(place.number(number)?.into_bytes())
}
