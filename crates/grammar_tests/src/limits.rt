// As many operators, nonterminals and rules as the limits allow, and one more.
use crate::calls::{Call, Case, run};
use cost::Count;
use grammar::draft::Draft;
use grammar::refusal::DraftRefusal::{Full, Repeated, Undeclared, Unfit};
use grammar::refusal::Part;
use name::Name;
use name::refusal::BadName;
use std::process::Abort;
use std::test::Fail;

// The name of the n-th of many, as `n063`.
fn numbered(n: usize) -> Result<Name, BadName> {
    let hundreds = (n / 100 % 10) as u8;
    let tens = (n / 10 % 10) as u8;
    let ones = (n % 10) as u8;
    Name::new(&[b'n', b'0' + hundreds, b'0' + tens, b'0' + ones])
}

fn declare_operators(rt: &impl Abort, draft: &mut Draft<Count>, count: usize) -> Result<(), Fail> {
    for n in 0..count {
        assert_eq!(rt; draft.declare_operator(numbered(n)?, 0)?.0, n);
    }
    Ok(())
}

fn declare_nonterminals(
    rt: &impl Abort,
    draft: &mut Draft<Count>,
    count: usize,
) -> Result<(), Fail> {
    for n in 0..count {
        assert_eq!(rt; draft.declare_nonterminal(numbered(n)?)?.0, n);
    }
    Ok(())
}

// Adds the same chain rule again and again.
fn add_chains(rt: &impl Abort, draft: &mut Draft<Count>, count: usize) -> Result<(), Fail> {
    let left = numbered(0)?;
    let source = numbered(1)?;
    for n in 0..count {
        assert_eq!(rt;
            draft.add_chain(left, source, Count { value: 1 }, left)?.0,
            n.saturating_add(1)
        );
    }
    Ok(())
}

static AFTER_64_OPERATORS: [Case; 5] = [
    Case(Call::Operator("n064", 0), Err(Full)),
    Case(Call::Operator("n064", 3), Err(Unfit(Part::Kids))),
    Case(Call::Operator("n063", 0), Err(Repeated)),
    Case(Call::Operator("n000", 3), Err(Repeated)),
    Case(Call::Nonterminal("n064"), Ok(0)),
];

#[test]
fn operators_are_at_most_64(rt: HostRuntime) -> Result<(), Fail> {
    let mut draft = Draft::new(rt.alloc())?;
    declare_operators(&rt, &mut draft, 64)?;
    run(&rt, &mut draft, &AFTER_64_OPERATORS)
}

static AFTER_32_NONTERMINALS: [Case; 3] = [
    Case(Call::Nonterminal("n032"), Err(Full)),
    Case(Call::Nonterminal("n031"), Err(Repeated)),
    Case(Call::Operator("n032", 0), Ok(0)),
];

#[test]
fn nonterminals_are_at_most_32(rt: HostRuntime) -> Result<(), Fail> {
    let mut draft = Draft::new(rt.alloc())?;
    declare_nonterminals(&rt, &mut draft, 32)?;
    run(&rt, &mut draft, &AFTER_32_NONTERMINALS)
}

static AFTER_256_RULES: [Case; 7] = [
    Case(Call::Chain("n000", "n001", 1, "m"), Err(Full)),
    Case(Call::Base("n000", "n000", "-", "-", 1, "m"), Err(Full)),
    Case(Call::Chain("n000", "n000", 1, "m"), Err(Full)),
    Case(Call::Chain("n000", "n001", -1, "m"), Err(Full)),
    Case(
        Call::Base("n000", "n000", "n001", "-", 1, "m"),
        Err(Unfit(Part::FirstKid)),
    ),
    Case(
        Call::Chain("n000", "n002", 1, "m"),
        Err(Undeclared(Part::Source)),
    ),
    Case(Call::Nonterminal("n002"), Ok(2)),
];

#[test]
fn rules_are_at_most_256(rt: HostRuntime) -> Result<(), Fail> {
    let mut draft = Draft::new(rt.alloc())?;
    declare_nonterminals(&rt, &mut draft, 2)?;
    declare_operators(&rt, &mut draft, 1)?;
    add_chains(&rt, &mut draft, 256)?;
    run(&rt, &mut draft, &AFTER_256_RULES)
}
