// Machine files that are read whole.
use entry::Labelling;
use grammar::declarations::Declarations;
use grammar::parts::{Form, NonterminalNumber, OperatorNumber, Rule};
use machine::{Machine, read};
use std::alloc::{AllocError, Global};
use std::process::Abort;
use std::test::Fail;
use tariff::Figures;

static LINES: &str = "op,CNST,0
op,REG,0
op,ADD,2
op,LOAD,1
nt,reg
nt,imm
nt,addr
base,imm,CNST,-,-,0,0,const
base,reg,REG,-,-,0,0,reg
chain,reg,imm,1,2,li
base,reg,ADD,reg,reg,1,2,add
base,reg,ADD,reg,imm,1,3,addi
base,addr,ADD,reg,imm,0,0,off
chain,addr,reg,0,0,ptr
base,reg,LOAD,addr,-,2,2,ld
";

// What the rules cost in bytes.
static BYTES: [i32; 8] = [0, 0, 2, 2, 3, 0, 0, 2];

// What the rules cost in cycles and bytes.
static CYCLES: [i32; 16] = [0, 0, 0, 0, 1, 2, 1, 2, 1, 3, 0, 0, 0, 0, 2, 2];

fn check_counts<C: Copy>(rt: &impl Abort, declarations: &Declarations<C>) {
    assert_eq!(rt; declarations.operators().len(), 4);
    assert_eq!(rt; declarations.nonterminals().len(), 3);
    assert_eq!(rt; declarations.rules().len(), 8);
}

// That the fifth rule is `base,reg,ADD,reg,imm`, and the seventh `chain,addr,reg`.
fn check_forms<C: Copy>(rt: &impl Abort, rules: &[Rule<C>]) -> Result<(), Fail> {
    let fifth = rules.get(4).ok_or("no fifth rule")?;
    assert_eq!(rt; fifth.left.0, 0);
    assert!(rt;
        matches!(
            fifth.form,
            Form::Binary {
                operator: OperatorNumber(2),
                left: NonterminalNumber(0),
                right: NonterminalNumber(1),
            }
        )
    );
    assert!(rt; fifth.mnemonic.is(b"addi"));
    let seventh = rules.get(6).ok_or("no seventh rule")?;
    assert_eq!(rt; seventh.left.0, 2);
    assert!(rt;
        matches!(
            seventh.form,
            Form::Chain {
                source: NonterminalNumber(0)
            }
        )
    );
    Ok(())
}

// The numbers of the rules' costs, one after another.
fn figures_of<C: Figures>(heap: Global, rules: &[Rule<C>]) -> Result<Vec<i32>, AllocError> {
    let mut figures = Vec::new(heap);
    for rule in rules {
        rule.cost.push_figures(&mut figures)?;
    }
    Ok(figures)
}

fn check_machine<C: Figures + Copy>(
    rt: &impl Abort,
    heap: Global,
    declarations: &Declarations<C>,
    costs: &[i32],
) -> Result<(), Fail> {
    check_counts(rt, declarations);
    check_forms(rt, declarations.rules())?;
    let figures = figures_of(heap, declarations.rules())?;
    assert_eq!(rt; figures.as_slice(), costs);
    Ok(())
}

#[test]
fn a_machine_in_bytes(rt: HostRuntime) -> Result<(), Fail> {
    let text = format!(in rt.alloc(); "cost,bytes,table\n{LINES}")?;
    let Machine::Bytes { labelling, grammar } = read(rt.alloc(), text.as_bytes())? else {
        return Err(Fail::new("cycles"));
    };
    assert_eq!(rt; labelling, Labelling::Table);
    check_machine(&rt, rt.alloc(), grammar.declarations(), &BYTES)
}

#[test]
fn a_machine_in_cycles(rt: HostRuntime) -> Result<(), Fail> {
    let text = format!(in rt.alloc(); "cost,cycles,plain\n{LINES}")?;
    let Machine::Cycles { labelling, grammar } = read(rt.alloc(), text.as_bytes())? else {
        return Err(Fail::new("bytes"));
    };
    assert_eq!(rt; labelling, Labelling::Plain);
    check_machine(&rt, rt.alloc(), grammar.declarations(), &CYCLES)
}
