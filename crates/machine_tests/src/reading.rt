// Reading a machine file for its first fault.
ghost use Rattle.std.specs.Prelude.{◌≡◌, IfOk};
ghost use Rattle.std.specs.Option.{option_map};
ghost use Rattle.machine.specs.Files.{machine_of};
ghost use Rattle.machine_tests.specs.Spots.{spot_in};
ghost use Rattle.machine_tests.specs.declared.reading.Spot.{Spot as SpotOf};

use machine::{ReadError, read};
use std::alloc::Global;
use std::fmt::Debug;
use std::process::Abort;
use std::test::Fail;

// The line and the field of a fault, and its number.
#[derive(Clone, Copy, Debug, PartialEq, Eq)]
pub struct Spot(pub usize, pub usize, pub u8);

// The fault that a file gives; none where it is read whole.
pub fn fault_in(heap: Global, text: &[u8]) -> Result<Option<Spot>, Fail>
    ensures { IfOk result (λ o. option_map (λ (s : SpotOf). (s.0, s.1, s.2)) o ≡ spot_in (machine_of text.now)) }
{
    match read(heap, text) {
        Ok(_) => Ok(None),
        Err(ReadError::Fault(fault)) => {
            let number = fault.refusal.number();
            Ok(Some(Spot(fault.line, fault.field, number)))
        }
        Err(ReadError::Memory) => Err(Fail::new("no memory")),
    }
}

// That both are equal, in the case of this place in its table.
pub fn check_case<T: PartialEq + Debug + Drop>(rt: &impl Abort, place: usize, left: T, right: T) {
    assert_eq!(rt; left, right, "case {place}");
}
