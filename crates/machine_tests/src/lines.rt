// One line after the first: what is refused at which field, and what is taken.
use crate::reading::{Spot, check_case, fault_in};
use std::alloc::Global;
use std::process::Abort;
use std::test::Fail;

// The lines before the one that is tried, which is the seventh.
static BEFORE: &str = "cost,bytes,table\nop,LEAF,0\nop,ONE,1\nop,TWO,2\nnt,a\nnt,b\n";

// A line, and the field and the number of its fault.
struct Refused(&'static [u8], usize, u8);

static LINES: [Refused; 22] = [
    Refused(b"opx,A,0", 1, 2),
    Refused(b"OP,A,0", 1, 2),
    Refused(b" op,A,0", 1, 2),
    Refused(b",", 1, 2),
    Refused(b"x", 1, 2),
    Refused(b"leaf,a,LEAF,0,0,0,0,m", 1, 2),
    Refused(b"cost,cycles,plain", 1, 2),
    Refused(b"cost", 1, 2),
    Refused(b"x,?,9,9", 1, 2),
    Refused(b"op", 0, 3),
    Refused(b"op,A", 0, 3),
    Refused(b"op,A,0,", 0, 3),
    Refused(b"nt", 0, 3),
    Refused(b"nt,c,d", 0, 3),
    Refused(b"base,a,LEAF,-,-,0,0", 0, 3),
    Refused(b"base,a,LEAF,-,-,0,0,m,", 0, 3),
    Refused(b"chain,a,b,0,0", 0, 3),
    Refused(b"chain,a,b,0,0,m,m", 0, 3),
    Refused(b"op,?,0,0", 0, 3),
    Refused(b"op,?", 0, 3),
    Refused(b"nt,a,a", 0, 3),
    Refused(b"chain,x,x,1001,9999,?,?", 0, 3),
];

static NAMES: [Refused; 24] = [
    Refused(b"op,,0", 2, 4),
    Refused(b"op,A-B,0", 2, 4),
    Refused(b"op,A B,0", 2, 4),
    Refused(b"op,ABCDEFGHIJKLMNOPQ,0", 2, 4),
    Refused(b"nt,", 2, 4),
    Refused(b"nt,c=d", 2, 4),
    Refused(b"nt,c\0", 2, 4),
    Refused(b"nt,\xff", 2, 4),
    Refused(b"nt,c\r", 2, 4),
    Refused(b"nt,abcdefghijklmnopq", 2, 4),
    Refused(b"base,-,LEAF,-,-,0,0,m", 2, 4),
    Refused(b"base,a,-,-,-,0,0,m", 3, 4),
    Refused(b"base,a,LEAF,,-,0,0,m", 4, 4),
    Refused(b"base,a,LEAF,--,-,0,0,m", 4, 4),
    Refused(b"base,a,LEAF,-,,0,0,m", 5, 4),
    Refused(b"base,a,LEAF,-,-,0,0,", 8, 4),
    Refused(b"base,a,LEAF,-,-,0,0,-", 8, 4),
    Refused(b"chain,,b,0,0,m", 2, 4),
    Refused(b"chain,a,-,0,0,m", 3, 4),
    Refused(b"chain,a,b,0,0,m\r", 6, 4),
    Refused(b"op,?,3", 2, 4),
    Refused(b"chain,a,?,x,0,m", 3, 4),
    Refused(b"base,?,?,?,?,x,x,?", 2, 4),
    Refused(b"base,x,LEAF,-,-,0,0,?", 8, 4),
];

static NUMBERS: [Refused; 24] = [
    Refused(b"op,A,", 3, 5),
    Refused(b"op,A,3", 3, 5),
    Refused(b"op,A,12", 3, 5),
    Refused(b"op,A,00", 3, 5),
    Refused(b"op,A,-1", 3, 5),
    Refused(b"op,A,0\r", 3, 5),
    Refused(b"op,LEAF,3", 3, 5),
    Refused(b"base,a,LEAF,-,-,1001,0,m", 6, 5),
    Refused(b"base,a,LEAF,-,-,1000.5,0,m", 6, 5),
    Refused(b"base,a,LEAF,-,-,1.,0,m", 6, 5),
    Refused(b"base,a,LEAF,-,-,.5,0,m", 6, 5),
    Refused(b"base,a,LEAF,-,-,1.55,0,m", 6, 5),
    Refused(b"base,a,LEAF,-,-,12345,0,m", 6, 5),
    Refused(b"base,a,LEAF,-,-,,0,m", 6, 5),
    Refused(b"base,a,LEAF,-,-,0,1001,m", 7, 5),
    Refused(b"base,a,LEAF,-,-,0,1.0,m", 7, 5),
    Refused(b"base,a,LEAF,-,-,0,-1,m", 7, 5),
    Refused(b"chain,a,b,1001,0,m", 4, 5),
    Refused(b"chain,a,b,0,1001,m", 5, 5),
    Refused(b"chain,a,b,0,00000,m", 5, 5),
    Refused(b"base,a,LEAF,-,-,x,y,?", 6, 5),
    Refused(b"chain,a,b,x,y,?", 4, 5),
    Refused(b"base,x,X,x,x,1001,0,m", 6, 5),
    Refused(b"chain,a,a,0,x,m", 5, 5),
];

static RULES: [Refused; 25] = [
    Refused(b"op,LEAF,0", 2, 10),
    Refused(b"op,TWO,1", 2, 10),
    Refused(b"nt,b", 2, 10),
    Refused(b"base,x,LEAF,-,-,0,0,m", 2, 11),
    Refused(b"base,LEAF,LEAF,-,-,0,0,m", 2, 11),
    Refused(b"base,a,X,-,-,0,0,m", 3, 11),
    Refused(b"base,a,TWO,x,b,0,0,m", 4, 11),
    Refused(b"base,a,TWO,b,x,0,0,m", 5, 11),
    Refused(b"base,x,X,x,x,0,0,m", 2, 11),
    Refused(b"base,a,X,x,x,0,0,m", 3, 11),
    Refused(b"base,a,TWO,x,x,0,0,m", 4, 11),
    Refused(b"base,a,LEAF,x,-,0,0,m", 4, 11),
    Refused(b"base,a,ONE,-,x,0,0,m", 5, 11),
    Refused(b"chain,x,b,0,0,m", 2, 11),
    Refused(b"chain,a,x,0,0,m", 3, 11),
    Refused(b"chain,x,x,0,0,m", 2, 11),
    Refused(b"base,a,LEAF,a,-,0,0,m", 4, 12),
    Refused(b"base,a,LEAF,-,a,0,0,m", 5, 12),
    Refused(b"base,a,ONE,-,-,0,0,m", 4, 12),
    Refused(b"base,a,ONE,a,b,0,0,m", 5, 12),
    Refused(b"base,a,ONE,-,b,0,0,m", 4, 12),
    Refused(b"base,a,TWO,-,-,0,0,m", 4, 12),
    Refused(b"base,a,TWO,a,-,0,0,m", 5, 12),
    Refused(b"base,a,TWO,-,b,0,0,m", 4, 12),
    Refused(b"chain,a,a,0,0,m", 0, 14),
];

static TAKEN: [&[u8]; 18] = [
    b"op,A,0",
    b"op,A,1",
    b"op,A,2",
    b"op,ABCDEFGHIJKLMNOP,2",
    b"op,a,0",
    b"op,._0,0",
    b"nt,LEAF",
    b"nt,cost",
    b"nt,abcdefghijklmnop",
    b"base,a,LEAF,-,-,1000,1000,m",
    b"base,a,LEAF,-,-,1000.4,0,m",
    b"base,a,ONE,a,-,999.5,0,m",
    b"base,a,TWO,b,a,0.5,0001,m",
    b"base,b,TWO,b,b,0000.0,0,abcdefghijklmnop",
    b"chain,a,b,1000,1000,m",
    b"chain,b,a,1000.4,0,m",
    b"chain,b,a,9.9,0000,LEAF",
    b"chain,a,b,0,0,a",
];

// The file that ends in this line.
fn file_with(heap: Global, line: &[u8]) -> Result<Vec<u8>, Fail> {
    let mut text = Vec::from_slice(heap, BEFORE.as_bytes())?;
    text.extend_from_slice(line)?;
    Ok(text)
}

fn check_refused(rt: &impl Abort, heap: Global, cases: &[Refused]) -> Result<(), Fail> {
    for (i, Refused(line, field, number)) in cases.iter().enumerate() {
        let text = file_with(heap, line)?;
        let spot = Spot(7, *field, *number);
        check_case(rt, i, fault_in(heap, text.as_slice())?, Some(spot));
    }
    Ok(())
}

#[test]
fn lines_of_no_kind_or_width(rt: HostRuntime) -> Result<(), Fail> {
    check_refused(&rt, rt.alloc(), &LINES)
}

#[test]
fn bad_names(rt: HostRuntime) -> Result<(), Fail> {
    check_refused(&rt, rt.alloc(), &NAMES)
}

#[test]
fn bad_numbers(rt: HostRuntime) -> Result<(), Fail> {
    check_refused(&rt, rt.alloc(), &NUMBERS)
}

#[test]
fn refusals_of_the_draft(rt: HostRuntime) -> Result<(), Fail> {
    check_refused(&rt, rt.alloc(), &RULES)
}

#[test]
fn lines_that_are_taken(rt: HostRuntime) -> Result<(), Fail> {
    for (i, line) in TAKEN.iter().enumerate() {
        let text = file_with(rt.alloc(), line)?;
        check_case(&rt, i, fault_in(rt.alloc(), text.as_slice())?, None);
    }
    Ok(())
}
