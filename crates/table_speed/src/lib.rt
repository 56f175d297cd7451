//! One exported function, by which a program in another language can time a table of numbers.

#![tactic(auto)]

ghost use Rattle.std.specs.Prelude.{◌≡◌, ℕ, ◌*◌, ◌%◌, ◌^◌, ◌⊎◌, IfOk};
ghost use Rattle.table.specs.Tables.{keys_of, room_of};
ghost use Rattle.table_speed.specs.Speeds.{held_after, with_place, places_sum, speed_sum};

use std::alloc::{AllocError, Global};
use table::{Slot, Table};

// Puts the keys in order.
fn put_all(table: &mut Table<u32>, keys: &[u32])
    ensures { keys_of table.new ≡ held_after (room_of table.old) (keys_of table.old) keys.now }
{
    for key in keys {
        let _ = table.put(*key);
    }
}

// The sum in 64 bits, with a place that was found.
fn with_place(sum: u64, place: Option<usize>) -> u64
    ensures { result ≡ with_place sum place }
{
    place.map_or(sum, |place| sum.wrapping_add(place as u64))
}

// The sum of the places of the keys that are found.
fn places(table: &Table<u32>, keys: &[u32]) -> u64
    ensures { result ≡ places_sum (keys_of table.now) keys.now }
{
    keys.iter()
        .fold(0, |sum: u64, key| with_place(sum, table.find(key)))
}

// The same sum, over so many rounds.
fn rounds_of(table: &Table<u32>, keys: &[u32], rounds: u32) -> u64
    ensures { result ≡ rounds * places_sum (keys_of table.now) keys.now % 2 ^ 64 }
{
    let mut sum: u64 = 0;
    for round in 0..rounds {
        sum = sum.wrapping_add(places(table, keys));
    }
    sum
}

// Puts the keys into a table with a place for each, and finds the others; or memory was wanting.
fn run(heap: Global, keys: &[u32], sought: &[u32], rounds: u32) -> Result<u64, AllocError>
    ensures { IfOk result (λ sum. sum ≡ speed_sum keys.now sought.now rounds) }
{
    let mut memory = Vec::from_elem(heap, Slot::new(0u32), keys.len())?;
    let mut table = Table::new(memory.as_mut_slice());
    put_all(&mut table, keys);
    Ok(rounds_of(&table, sought, rounds))
}

/// Puts the keys into a table, finds the others so many times, and answers the sum of the places found; 0 where memory is
/// wanting.
#[unsafe(no_mangle)]
pub extern "C" fn table_speed(heap: Global, keys: &[u32], sought: &[u32], rounds: u32) -> u64
    ensures { (result ≡ 0) ⊎ (result ≡ speed_sum keys.now sought.now rounds) }
{
    match run(heap, keys, sought, rounds) {
        Ok(sum) => sum,
        Err(_) => 0,
    }
}
