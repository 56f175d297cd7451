// The longest line and file, and the most operators, nonterminals and rules.
use crate::reading::{Spot, check_case, fault_in};
use std::alloc::{AllocError, Global};
use std::test::Fail;

// A text, a byte that is repeated after it up to a length, and the fault that this file should give.
struct Long(&'static [u8], u8, usize, Option<Spot>);

static LONG: [Long; 12] = [
    Long(b"cost,bytes,table", b'e', 8192, Some(Spot(1, 3, 2))),
    Long(b"cost,bytes,table", b'e', 8193, Some(Spot(1, 0, 1))),
    Long(b"x", b',', 8193, Some(Spot(1, 0, 1))),
    Long(b"cost,bytes,table\nnt,", b'e', 8209, Some(Spot(2, 2, 4))),
    Long(b"cost,bytes,table\nnt,", b'e', 8210, Some(Spot(2, 0, 1))),
    Long(b"cost,bytes,table\nx", b',', 8209, Some(Spot(2, 1, 2))),
    Long(b"cost,bytes,table\nx", b',', 8210, Some(Spot(2, 0, 1))),
    Long(b"cost,bytes,table\nnt", b',', 8209, Some(Spot(2, 0, 3))),
    Long(b"cost,bytes,table", b'\n', 32768, None),
    Long(b"cost,bytes,table", b'\n', 32769, Some(Spot(0, 0, 6))),
    Long(b"", b'\n', 32768, Some(Spot(0, 0, 2))),
    Long(b"x", b'e', 32769, Some(Spot(0, 0, 6))),
];

fn filled(heap: Global, start: &[u8], byte: u8, len: usize) -> Result<Vec<u8>, AllocError> {
    let mut text = Vec::from_slice(heap, start)?;
    text.resize(len, byte)?;
    Ok(text)
}

#[test]
fn long_lines_and_files(rt: HostRuntime) -> Result<(), Fail> {
    for (i, Long(start, byte, len, fault)) in LONG.iter().enumerate() {
        let text = filled(rt.alloc(), start, *byte, *len)?;
        check_case(&rt, i, fault_in(rt.alloc(), text.as_slice())?, *fault);
    }
    Ok(())
}

// What the file begins with after its first line, the two ends of a line between which a number goes, how many such
// lines follow, and the fault that this file should give.
struct Many(
    &'static str,
    &'static str,
    &'static str,
    usize,
    Option<Spot>,
);

static MANY: [Many; 6] = [
    Many("", "op,n", ",0", 64, None),
    Many("", "op,n", ",0", 65, Some(Spot(66, 0, 13))),
    Many("", "nt,n", "", 32, None),
    Many("", "nt,n", "", 33, Some(Spot(34, 0, 13))),
    Many("nt,a\nnt,b\n", "chain,a,b,1,1,m", "", 256, None),
    Many(
        "nt,a\nnt,b\n",
        "chain,a,b,1,1,m",
        "",
        257,
        Some(Spot(260, 0, 13)),
    ),
];

fn repeated(heap: Global, many: &Many) -> Result<String, Fail> {
    let Many(begin, start, end, count, _) = *many;
    let mut text = String::from_str(heap, "cost,cycles,plain\n")?;
    text.push_str(begin)?;
    for i in 0..count {
        write!(text, "{start}{i}{end}\n")?;
    }
    Ok(text)
}

#[test]
fn many_declarations(rt: HostRuntime) -> Result<(), Fail> {
    for (i, many) in MANY.iter().enumerate() {
        let text = repeated(rt.alloc(), many)?;
        check_case(&rt, i, fault_in(rt.alloc(), text.as_bytes())?, many.4);
    }
    Ok(())
}
