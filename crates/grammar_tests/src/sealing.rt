// What a draft holds, and that sealing keeps it.
use crate::calls::{Call, Case, named, run};
use cost::Count;
use grammar::declarations::Declarations;
use grammar::draft::Draft;
use grammar::parts::{Form, NonterminalNumber, OperatorNumber};
use grammar::refusal::DraftRefusal::{OwnSource, Repeated, Undeclared, Unfit, Unpriced};
use grammar::refusal::Part;
use name::Name;
use std::process::Abort;
use std::test::Fail;

// A rule as it should be: its left side, form, cost and mnemonic.
#[derive(Clone, Copy)]
struct Listed(NonterminalNumber, Form, i32, &'static str);

// A name, and the numbers that it has as an operator and as a nonterminal.
#[derive(Clone, Copy)]
struct Sought(&'static str, Option<usize>, Option<usize>);

// A small machine, with calls between that are refused.
static CALLS: [Case; 16] = [
    Case(Call::Operator("CNST", 0), Ok(0)),
    Case(Call::Operator("ADD", 2), Ok(1)),
    Case(Call::Operator("ADD", 1), Err(Repeated)),
    Case(Call::Operator("LOAD", 1), Ok(2)),
    Case(Call::Operator("BIG", 3), Err(Unfit(Part::Kids))),
    Case(Call::Nonterminal("reg"), Ok(0)),
    Case(Call::Nonterminal("ADD"), Ok(1)),
    Case(Call::Nonterminal("reg"), Err(Repeated)),
    Case(Call::Base("ADD", "CNST", "-", "-", 0, "const"), Ok(1)),
    Case(Call::Chain("reg", "ADD", 2, "li"), Ok(2)),
    Case(
        Call::Chain("reg", "imm", 2, "li"),
        Err(Undeclared(Part::Source)),
    ),
    Case(Call::Base("reg", "ADD", "reg", "ADD", 3, "addi"), Ok(3)),
    Case(
        Call::Base("reg", "ADD", "reg", "-", 3, "add"),
        Err(Unfit(Part::SecondKid)),
    ),
    Case(Call::Base("reg", "LOAD", "ADD", "-", 1000, "ld"), Ok(4)),
    Case(Call::Chain("reg", "reg", 1, "mv"), Err(OwnSource)),
    Case(Call::Chain("reg", "ADD", 1001, "mv"), Err(Unpriced)),
];

static OPERATORS: [(&str, u8); 3] = [("CNST", 0), ("ADD", 2), ("LOAD", 1)];

static NONTERMINALS: [&str; 2] = ["reg", "ADD"];

static RULES: [Listed; 4] = [
    Listed(
        NonterminalNumber(1),
        Form::Leaf {
            operator: OperatorNumber(0),
        },
        0,
        "const",
    ),
    Listed(
        NonterminalNumber(0),
        Form::Chain {
            source: NonterminalNumber(1),
        },
        2,
        "li",
    ),
    Listed(
        NonterminalNumber(0),
        Form::Binary {
            operator: OperatorNumber(1),
            left: NonterminalNumber(0),
            right: NonterminalNumber(1),
        },
        3,
        "addi",
    ),
    Listed(
        NonterminalNumber(0),
        Form::Unary {
            operator: OperatorNumber(2),
            kid: NonterminalNumber(1),
        },
        1000,
        "ld",
    ),
];

static LOOK_UPS: [Sought; 6] = [
    Sought("CNST", Some(0), None),
    Sought("ADD", Some(1), Some(1)),
    Sought("LOAD", Some(2), None),
    Sought("reg", None, Some(0)),
    Sought("BIG", None, None),
    Sought("LOA", None, None),
];

fn check_name(rt: &impl Abort, name: &Name, text: &str) {
    assert!(rt; name.is(text.as_bytes()), "{}", text);
}

fn check_operators(rt: &impl Abort, declarations: &Declarations<Count>) {
    assert_eq!(rt; declarations.operators().len(), OPERATORS.len());
    for (operator, (name, kids)) in declarations.operators().iter().zip(OPERATORS.iter()) {
        check_name(rt, &operator.name, name);
        assert_eq!(rt; operator.kids, *kids);
    }
}

fn check_nonterminals(rt: &impl Abort, declarations: &Declarations<Count>) {
    assert_eq!(rt; declarations.nonterminals().len(), NONTERMINALS.len());
    for (nonterminal, name) in declarations.nonterminals().iter().zip(NONTERMINALS.iter()) {
        check_name(rt, &nonterminal.name, name);
    }
}

fn check_rules(rt: &impl Abort, declarations: &Declarations<Count>) {
    assert_eq!(rt; declarations.rules().len(), RULES.len());
    for (rule, listed) in declarations.rules().iter().zip(RULES.iter()) {
        let Listed(left, form, value, mnemonic) = *listed;
        check_name(rt, &rule.mnemonic, mnemonic);
        assert_eq!(rt; rule.left, left);
        assert_eq!(rt; rule.form, form);
        assert_eq!(rt; rule.cost.value, value);
    }
}

fn check_look_ups(rt: &impl Abort, declarations: &Declarations<Count>) -> Result<(), Fail> {
    for sought in &LOOK_UPS {
        let Sought(text, as_operator, as_nonterminal) = *sought;
        let name = named(text)?;
        let operator = declarations.operator_number(&name);
        assert_eq!(rt; operator, as_operator.map(OperatorNumber), "{}", text);
        let nonterminal = declarations.nonterminal_number(&name);
        assert_eq!(rt;
            nonterminal,
            as_nonterminal.map(NonterminalNumber),
            "{}",
            text
        );
    }
    Ok(())
}

fn check_all(rt: &impl Abort, declarations: &Declarations<Count>) -> Result<(), Fail> {
    check_operators(rt, declarations);
    check_nonterminals(rt, declarations);
    check_rules(rt, declarations);
    check_look_ups(rt, declarations)
}

#[test]
fn sealing_keeps_what_the_draft_holds(rt: HostRuntime) -> Result<(), Fail> {
    let mut draft = Draft::new(rt.alloc())?;
    run(&rt, &mut draft, &CALLS)?;
    check_all(&rt, draft.declarations())?;
    let grammar = draft.seal();
    check_all(&rt, grammar.declarations())
}
