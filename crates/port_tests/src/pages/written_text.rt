ghost use Rattle.std.specs.Prelude.{◌≡◌, IfOk};
ghost use Rattle.ports_core.specs.Slot.{streams, with_written};

use mem_core::MemOut;
use ports_core::{Fault, write_whole};
use std::alloc::Global;

/// Outputs in memory, of which standard output, which has the number 0, was given a text.
pub(crate) fn outputs_with(alloc: Global, text: &[u8]) -> Result<MemOut, Fault>
    ensures { IfOk result (λ outs. outs ≡ with_written 0 text.now streams) }
{
    let mut outs = MemOut::new(alloc)?;
    write_whole(&mut outs, 0, text)?;
    Ok(outs)
}
