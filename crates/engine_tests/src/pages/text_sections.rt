ghost use Rattle.std.specs.Prelude.{◌≡◌};
ghost use Rattle.ports_core.specs.Slot.{streams};

use csplit_core::{Csplitter, Operands, Style};
use ports_core::{Fault, Outs};
use std::alloc::Global;

/// Cuts a text at these operands. After a fault of an output the files are still there: `abandon` removes them.
pub(crate) fn write_sections<O: Outs>(
    alloc: Global,
    operands: &Operands,
    style: Style,
    text: &[u8],
    outs: &mut O,
) -> Result<(), Fault>
    requires { O.slots outs.old ≡ streams }
{
    let mut csplitter = Csplitter::open(alloc, operands, style, outs)?;
    csplitter.feed(text, outs)?;
    csplitter.close(outs)
}
