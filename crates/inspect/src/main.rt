// Prints what a machine file declares, or its fault. The file is `machine.txt`, or the path that is given.

#![tactic(auto)]

use inspection::{inspect_text, unreadable_text};
use machine::file::LONGEST_FILE;
use std::fs::File;
use std::io::{Read, Write};
use std::{env, io};

// Enough bytes to tell that a file is over the longest.
const ENOUGH: u64 = LONGEST_FILE as u64 + 1;

// The path that is given after the program's name, or `machine.txt`.
fn path(rt: &HostRuntime) -> io::Result<String> {
    // A match: making the default may fail.
    match env::args(rt)?.nth(1) {
        Some(path) => Ok(path),
        None => Ok(String::from_str(rt.alloc(), "machine.txt")?),
    }
}

// The file's bytes, as far as they are needed.
fn contents(rt: &HostRuntime) -> io::Result<Vec<u8>> {
    let path = path(rt)?;
    let file = File::open(rt, path.as_str())?;
    let mut bytes = Vec::new(rt.alloc());
    file.take(ENOUGH).read_to_end(&mut bytes)?;
    Ok(bytes)
}

fn main(rt: HostRuntime) -> io::Result<()> {
    let text = match contents(&rt) {
        Ok(file) => inspect_text(rt.alloc(), &file)?,
        Err(_) => unreadable_text(rt.alloc())?,
    };
    rt.stdout().write_all(&text)
}
