//! Puts n keys into a table of n places, puts each again, finds each, and looks for n others. Prints how many were added, held
//! and found. With the argument `large` n goes up to 65,536; with `time` the nanoseconds for one call follow, which must not
//! grow with n beyond what a larger memory costs.

#![tactic(auto)]

use std::alloc::{AllocError, Global};
use std::env;
use std::time::Instant;
use table::{Slot, Table};

fn slots(heap: Global, n: u32) -> Result<Vec<Slot<u32>>, AllocError> {
    Vec::from_elem(heap, Slot::new(0u32), n as usize)
}

// Puts n keys and answers how many the list has then.
fn put_all(table: &mut Table<u32>, n: u32, stride: u32) -> usize {
    for i in 0..n {
        let _ = table.put(i.wrapping_mul(stride));
    }
    table.count()
}

// How many of the keys are found.
fn find_all(table: &Table<u32>, from: u32, to: u32, stride: u32) -> usize {
    (from..to)
        .filter(|i| table.find(&i.wrapping_mul(stride)).is_some())
        .count()
}

// Nanoseconds for one of n calls since the start.
fn each(rt: &HostRuntime, start: Instant, n: u32) -> anyhow::Result<u128> {
    Ok(start.elapsed(rt)?.as_nanos() / u128::from(n.max(1)))
}

fn report(rt: &HostRuntime, n: u32, stride: u32, timed: bool) -> anyhow::Result<()> {
    let mut memory = slots(rt.alloc(), n)?;
    let mut table = Table::new(memory.as_mut_slice());
    let start = Instant::now(rt)?;
    let added = put_all(&mut table, n, stride);
    let put = each(rt, start, n)?;
    let held = put_all(&mut table, n, stride);
    let start = Instant::now(rt)?;
    let found = find_all(&table, 0, n, stride);
    let find = each(rt, start, n)?;
    let start = Instant::now(rt)?;
    let others = find_all(&table, n, n.saturating_mul(2), stride);
    let other = each(rt, start, n)?;
    println!(rt;
        "{n} keys, stride {stride}: {added} added, {held} after another round, {found} found, {others} others found"
    )?;
    if timed {
        println!(rt; "  ns a call: put {put}, find {find}, find of others {other}")?;
    }
    Ok(())
}

const SMALL: [u32; 2] = [1_000, 4_096];

const LARGE: [u32; 5] = [1_000, 4_096, 16_384, 32_768, 65_536];

fn main(rt: HostRuntime) -> anyhow::Result<()> {
    let mut large = false;
    let mut timed = false;
    for word in env::args(&rt)? {
        large = large || word.as_str() == "large";
        timed = timed || word.as_str() == "time";
    }
    let sizes = if large { &LARGE[0..5] } else { &SMALL[0..2] };
    for n in sizes {
        for stride in [1, 64, 65_537] {
            report(&rt, *n, stride, timed)?;
        }
    }
    Ok(())
}
