// Whole files: the first line, empty lines, and which fault is the first.
use crate::reading::{Spot, check_case, fault_in};
use std::alloc::Global;
use std::process::Abort;
use std::test::Fail;

// A file, and the fault that it should give.
struct Case(&'static [u8], Option<Spot>);

static FIRST_LINES: [Case; 29] = [
    Case(b"cost,bytes,table", None),
    Case(b"cost,bytes,plain\n", None),
    Case(b"cost,cycles,table\n\n", None),
    Case(b"\n\ncost,cycles,plain", None),
    Case(b"", Some(Spot(0, 0, 2))),
    Case(b"\n", Some(Spot(0, 0, 2))),
    Case(b"\n\n\n", Some(Spot(0, 0, 2))),
    Case(b"Cost,bytes,table", Some(Spot(1, 1, 2))),
    Case(b"costs,bytes,table", Some(Spot(1, 1, 2))),
    Case(b" cost,bytes,table", Some(Spot(1, 1, 2))),
    Case(b",bytes,table", Some(Spot(1, 1, 2))),
    Case(b"op,A,0", Some(Spot(1, 1, 2))),
    Case(b"x,y,z,w", Some(Spot(1, 1, 2))),
    Case(b"\n\nnt,a", Some(Spot(3, 1, 2))),
    Case(b"cost", Some(Spot(1, 2, 2))),
    Case(b"cost,", Some(Spot(1, 2, 2))),
    Case(b"cost,byte,table", Some(Spot(1, 2, 2))),
    Case(b"cost,table,bytes", Some(Spot(1, 2, 2))),
    Case(b"cost,,", Some(Spot(1, 2, 2))),
    Case(b"cost,bytes", Some(Spot(1, 3, 2))),
    Case(b"cost,cycles,", Some(Spot(1, 3, 2))),
    Case(b"cost,bytes,tables", Some(Spot(1, 3, 2))),
    Case(b"cost,bytes,table\r\n", Some(Spot(1, 3, 2))),
    Case(b"cost,bytes,x,y", Some(Spot(1, 3, 2))),
    Case(b"cost,bytes,table,", Some(Spot(1, 0, 3))),
    Case(b"cost,bytes,table,x", Some(Spot(1, 0, 3))),
    Case(b"\0", Some(Spot(1, 1, 2))),
    Case(b"\xff", Some(Spot(1, 1, 2))),
    Case(b"\r\n", Some(Spot(1, 1, 2))),
];

static LATER_LINES: [Case; 10] = [
    Case(b"cost,bytes,table\n\n\nop,A,0\n\nnt,a\n\n", None),
    Case(b"cost,bytes,table\ncost,bytes,table", Some(Spot(2, 1, 2))),
    Case(b"cost,bytes,table\n\n\ncost", Some(Spot(4, 1, 2))),
    Case(b"cost,bytes,table\nnt,a\nnt,a", Some(Spot(3, 2, 10))),
    Case(b"cost,bytes,table\nnt,a\nnt,a\n", Some(Spot(3, 2, 10))),
    Case(
        b"\ncost,bytes,table\n\nop,A,0\n\nop,A,0",
        Some(Spot(6, 2, 10)),
    ),
    Case(b"cost,bytes,table\nop,A,9\nnt,?", Some(Spot(2, 3, 5))),
    Case(
        b"cost,bytes,table\nchain,a,b,0,0,m\nnt,a\nnt,b",
        Some(Spot(2, 2, 11)),
    ),
    Case(b"cost,bytes,table\n \nnt,a", Some(Spot(2, 1, 2))),
    Case(b"cost,bytes,table\n\r\nnt,a", Some(Spot(2, 1, 2))),
];

fn check_files(rt: &impl Abort, heap: Global, cases: &[Case]) -> Result<(), Fail> {
    for (i, Case(text, fault)) in cases.iter().enumerate() {
        check_case(rt, i, fault_in(heap, text)?, *fault);
    }
    Ok(())
}

#[test]
fn first_lines(rt: HostRuntime) -> Result<(), Fail> {
    check_files(&rt, rt.alloc(), &FIRST_LINES)
}

#[test]
fn later_lines(rt: HostRuntime) -> Result<(), Fail> {
    check_files(&rt, rt.alloc(), &LATER_LINES)
}
