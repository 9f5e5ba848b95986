ghost use Rattle.std.specs.Prelude.{◌≡◌, OnOk, IsTrue};
ghost use Rattle.ports_core.specs.Slot.{is_writable, streams};

use ends_core::{Head, Unit};
use ports_core::{Fault, Outs};
use std::alloc::Global;

/// Writes the first lines of a text to standard output, which can be written to after that.
pub(crate) fn write_first_lines<O: Outs>(
    alloc: Global,
    count: u64,
    text: &[u8],
    outs: &mut O,
) -> Result<(), Fault>
    requires { O.slots outs.old ≡ streams }
    ensures { OnOk result (IsTrue (is_writable (O.slots outs.new) 0)) }
{
    let mut head = Head::open(alloc, Unit::Lines, false, count, b'\n')?;
    head.feed(text, outs)?;
    head.close(outs)
}
