// What a draft refuses, in which order, and what it accepts at the edge.
use crate::calls::{Call, Case, run};
use grammar::draft::Draft;
use grammar::refusal::DraftRefusal::{Full, OwnSource, Repeated, Undeclared, Unfit, Unpriced};
use grammar::refusal::{DraftRefusal, Part};
use std::test::Fail;

static DECLARING: [Case; 15] = [
    Case(Call::Operator("LEAF", 0), Ok(0)),
    Case(Call::Operator("leaf", 1), Ok(1)),
    Case(Call::Operator("LEAF", 0), Err(Repeated)),
    Case(Call::Operator("LEAF", 2), Err(Repeated)),
    Case(Call::Operator("leaf", 3), Err(Repeated)),
    Case(Call::Operator("TWO", 3), Err(Unfit(Part::Kids))),
    Case(Call::Operator("TWO", 255), Err(Unfit(Part::Kids))),
    Case(Call::Operator("TWO", 2), Ok(2)),
    Case(Call::Nonterminal("LEAF"), Ok(0)),
    Case(Call::Nonterminal("LEAF"), Err(Repeated)),
    Case(Call::Nonterminal("reg"), Ok(1)),
    Case(Call::Operator("reg", 0), Ok(3)),
    Case(Call::Nonterminal("reg"), Err(Repeated)),
    Case(Call::Nonterminal("re"), Ok(2)),
    Case(Call::Nonterminal("regs"), Ok(3)),
];

#[test]
fn declarations_answer_in_order(rt: HostRuntime) -> Result<(), Fail> {
    let mut draft = Draft::new(rt.alloc())?;
    run(&rt, &mut draft, &DECLARING)
}

// Three operators and two nonterminals.
static DECLARED: [Case; 5] = [
    Case(Call::Operator("LEAF", 0), Ok(0)),
    Case(Call::Operator("ONE", 1), Ok(1)),
    Case(Call::Operator("TWO", 2), Ok(2)),
    Case(Call::Nonterminal("a"), Ok(0)),
    Case(Call::Nonterminal("b"), Ok(1)),
];

// Every part that is not declared, and the first of several; before kids that do not fit.
static UNDECLARED: [Case; 17] = [
    Case(
        Call::Base("x", "LEAF", "-", "-", 0, "m"),
        Err(Undeclared(Part::Left)),
    ),
    Case(
        Call::Base("a", "X", "-", "-", 0, "m"),
        Err(Undeclared(Part::Operator)),
    ),
    Case(
        Call::Base("a", "TWO", "x", "b", 0, "m"),
        Err(Undeclared(Part::FirstKid)),
    ),
    Case(
        Call::Base("a", "TWO", "b", "x", 0, "m"),
        Err(Undeclared(Part::SecondKid)),
    ),
    Case(Call::Chain("x", "a", 0, "m"), Err(Undeclared(Part::Left))),
    Case(Call::Chain("a", "x", 0, "m"), Err(Undeclared(Part::Source))),
    Case(
        Call::Base("x", "X", "x", "x", 0, "m"),
        Err(Undeclared(Part::Left)),
    ),
    Case(
        Call::Base("a", "X", "x", "x", 0, "m"),
        Err(Undeclared(Part::Operator)),
    ),
    Case(
        Call::Base("a", "TWO", "x", "x", 0, "m"),
        Err(Undeclared(Part::FirstKid)),
    ),
    Case(Call::Chain("x", "x", 0, "m"), Err(Undeclared(Part::Left))),
    Case(
        Call::Base("LEAF", "LEAF", "-", "-", 0, "m"),
        Err(Undeclared(Part::Left)),
    ),
    Case(
        Call::Base("a", "a", "-", "-", 0, "m"),
        Err(Undeclared(Part::Operator)),
    ),
    Case(
        Call::Chain("a", "LEAF", 0, "m"),
        Err(Undeclared(Part::Source)),
    ),
    Case(
        Call::Base("a", "LEAF", "x", "-", 0, "m"),
        Err(Undeclared(Part::FirstKid)),
    ),
    Case(
        Call::Base("a", "LEAF", "-", "x", 0, "m"),
        Err(Undeclared(Part::SecondKid)),
    ),
    Case(
        Call::Base("a", "ONE", "-", "x", 0, "m"),
        Err(Undeclared(Part::SecondKid)),
    ),
    Case(
        Call::Base("a", "TWO", "-", "x", 0, "m"),
        Err(Undeclared(Part::SecondKid)),
    ),
];

// Every kid that is missing or too many, the first of both, and before a cost that is refused.
static UNFIT: [Case; 11] = [
    Case(
        Call::Base("a", "LEAF", "a", "-", 0, "m"),
        Err(Unfit(Part::FirstKid)),
    ),
    Case(
        Call::Base("a", "LEAF", "-", "a", 0, "m"),
        Err(Unfit(Part::SecondKid)),
    ),
    Case(
        Call::Base("a", "LEAF", "a", "b", 0, "m"),
        Err(Unfit(Part::FirstKid)),
    ),
    Case(
        Call::Base("a", "ONE", "-", "-", 0, "m"),
        Err(Unfit(Part::FirstKid)),
    ),
    Case(
        Call::Base("a", "ONE", "a", "b", 0, "m"),
        Err(Unfit(Part::SecondKid)),
    ),
    Case(
        Call::Base("a", "ONE", "-", "b", 0, "m"),
        Err(Unfit(Part::FirstKid)),
    ),
    Case(
        Call::Base("a", "TWO", "-", "-", 0, "m"),
        Err(Unfit(Part::FirstKid)),
    ),
    Case(
        Call::Base("a", "TWO", "a", "-", 0, "m"),
        Err(Unfit(Part::SecondKid)),
    ),
    Case(
        Call::Base("a", "TWO", "-", "b", 0, "m"),
        Err(Unfit(Part::FirstKid)),
    ),
    Case(
        Call::Base("a", "LEAF", "a", "-", -1, "m"),
        Err(Unfit(Part::FirstKid)),
    ),
    Case(
        Call::Base("a", "TWO", "a", "-", 1001, "m"),
        Err(Unfit(Part::SecondKid)),
    ),
];

// Chain rules from their own left side, costs at both edges, and the numbers of the rules that are taken.
static PRICED: [Case; 16] = [
    Case(Call::Base("a", "LEAF", "-", "-", 0, "m"), Ok(1)),
    Case(Call::Chain("a", "a", 0, "m"), Err(OwnSource)),
    Case(Call::Chain("b", "b", -1, "m"), Err(OwnSource)),
    Case(Call::Chain("a", "a", 1001, "m"), Err(OwnSource)),
    Case(Call::Base("a", "ONE", "b", "-", 1000, "m"), Ok(2)),
    Case(Call::Base("a", "ONE", "b", "-", 1001, "m"), Err(Unpriced)),
    Case(Call::Base("a", "ONE", "b", "-", -1, "m"), Err(Unpriced)),
    Case(Call::Base("a", "TWO", "a", "a", -1000, "m"), Err(Unpriced)),
    Case(Call::Chain("a", "b", 1001, "m"), Err(Unpriced)),
    Case(Call::Chain("a", "b", -1, "m"), Err(Unpriced)),
    Case(Call::Chain("a", "b", 2147483647, "m"), Err(Unpriced)),
    Case(Call::Chain("a", "b", -2147483648, "m"), Err(Unpriced)),
    Case(Call::Chain("a", "b", 1000, "m"), Ok(3)),
    Case(Call::Base("b", "TWO", "b", "a", 1, "m"), Ok(4)),
    Case(Call::Chain("b", "a", 0, "m"), Ok(5)),
    Case(Call::Chain("b", "a", 0, "m"), Ok(6)),
];

#[test]
fn rules_are_checked_in_order(rt: HostRuntime) -> Result<(), Fail> {
    let mut draft = Draft::new(rt.alloc())?;
    run(&rt, &mut draft, &DECLARED)?;
    run(&rt, &mut draft, &UNDECLARED)?;
    run(&rt, &mut draft, &UNFIT)?;
    run(&rt, &mut draft, &PRICED)
}

static NUMBERS: [(DraftRefusal, u8); 8] = [
    (Repeated, 10),
    (Undeclared(Part::Left), 11),
    (Undeclared(Part::Source), 11),
    (Unfit(Part::Kids), 12),
    (Unfit(Part::SecondKid), 12),
    (Full, 13),
    (OwnSource, 14),
    (Unpriced, 15),
];

#[test]
fn refusals_have_numbers(rt: HostRuntime) {
    for (refusal, number) in &NUMBERS {
        assert_eq!(rt; refusal.number(), *number, "{refusal:?}");
    }
}
