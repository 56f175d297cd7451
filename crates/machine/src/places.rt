// Faults at their places in a machine file.
ghost use Rattle.std.specs.Prelude.{◌≡◌};
ghost use Rattle.machine.specs.Files.{in_file, in_line};

use fault::{LineFault, MachineFault, Refusal};

// A fault of the whole file.
pub fn in_file(refusal: Refusal) -> MachineFault
    ensures { result ≡ in_file refusal }
{
    MachineFault {
        line: 0,
        field: 0,
        refusal,
    }
}

// A fault within the line of a number.
pub(crate) fn in_line(line: usize, fault: LineFault) -> MachineFault
    ensures { result ≡ in_line line fault }
{
    MachineFault {
        line,
        field: fault.field,
        refusal: fault.refusal,
    }
}
