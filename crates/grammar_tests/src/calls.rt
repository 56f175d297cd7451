// Calls of a draft as values, each with the answer that it should get.
ghost use Rattle.std.specs.Prelude.{◌≡◌};
ghost use Rattle.name.specs.Names.{ok_text};
ghost use Rattle.name.specs.Texts.{name_of};

use cost::Count;
use grammar::draft::Draft;
use grammar::parts::KidNames;
use grammar::refusal::DraftRefusal;
use name::Name;
use name::refusal::BadName;
use std::process::Abort;
use std::test::Fail;

#[derive(Clone, Copy)]
pub enum Call {
    // A name, and how many kids.
    Operator(&'static str, u8),
    Nonterminal(&'static str),
    // A left side, an operator, two kids (`-` for none), a cost and a mnemonic.
    Base(&'static str, &'static str, &'static str, &'static str, i32, &'static str),
    // A left side, a source, a cost and a mnemonic.
    Chain(&'static str, &'static str, i32, &'static str),
}

// A call, and the number or refusal that it should answer.
#[derive(Clone, Copy)]
pub struct Case(pub Call, pub Result<usize, DraftRefusal>);

// How much a draft holds.
#[derive(Clone, Copy, Debug, PartialEq, Eq)]
struct Counts {
    operators: usize,
    nonterminals: usize,
    rules: usize,
}

fn counts_of(draft: &Draft<Count>) -> Counts {
    let declarations = draft.declarations();
    Counts {
        operators: declarations.operators().len(),
        nonterminals: declarations.nonterminals().len(),
        rules: declarations.rules().len(),
    }
}

impl Counts {
    // The counts with one more of what the call adds.
    fn with(self, call: Call) -> Counts {
        let mut counts = self;
        match call {
            Call::Operator(..) => counts.operators = self.operators.saturating_add(1),
            Call::Nonterminal(..) => counts.nonterminals = self.nonterminals.saturating_add(1),
            Call::Base(..) | Call::Chain(..) => counts.rules = self.rules.saturating_add(1),
        }
        counts
    }
}

pub(crate) fn named(text: &str) -> Result<Name, BadName>
    ensures { ok_text result ≡ name_of text.now }
{
    Name::new(text.as_bytes())
}

// The name of a kid; none for a dash.
fn kid_named(text: &str) -> Result<Option<Name>, BadName> {
    if text == "-" {
        Ok(None)
    } else {
        named(text).map(Some)
    }
}

// Makes the call, and gives the number answered.
fn answer_of(draft: &mut Draft<Count>, call: Call) -> Result<Result<usize, DraftRefusal>, BadName> {
    let answer = match call {
        Call::Operator(name, kids) => draft
            .declare_operator(named(name)?, kids)
            .map(|number| number.0),
        Call::Nonterminal(name) => draft
            .declare_nonterminal(named(name)?)
            .map(|number| number.0),
        Call::Base(left, operator, first, second, value, mnemonic) => {
            let left = named(left)?;
            let operator = named(operator)?;
            let first = kid_named(first)?;
            let second = kid_named(second)?;
            let mnemonic = named(mnemonic)?;
            let kids = KidNames { first, second };
            draft
                .add_base(left, operator, kids, Count { value }, mnemonic)
                .map(|number| number.0)
        }
        Call::Chain(left, source, value, mnemonic) => {
            let left = named(left)?;
            let source = named(source)?;
            let mnemonic = named(mnemonic)?;
            draft
                .add_chain(left, source, Count { value }, mnemonic)
                .map(|number| number.0)
        }
    };
    Ok(answer)
}

// Makes the calls in turn. Each must get its answer; one that is refused must leave the counts as they were, and any
// other must add one.
pub(crate) fn run(rt: &impl Abort, draft: &mut Draft<Count>, cases: &[Case]) -> Result<(), Fail> {
    for (i, Case(call, expected)) in cases.iter().enumerate() {
        let before = counts_of(draft);
        let answer = answer_of(draft, *call)?;
        assert_eq!(rt; answer, *expected, "case {i}");
        let after = if answer.is_ok() {
            before.with(*call)
        } else {
            before
        };
        assert_eq!(rt; counts_of(draft), after, "counts after case {i}");
    }
    Ok(())
}
