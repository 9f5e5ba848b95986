ghost use Rattle.std.specs.Prelude.{◌≡◌};
ghost use Rattle.ports_core.specs.Slot.{streams};

use ports_core::{Fault, Mode, Outs};
use std::alloc::Global;
use tee_core::Tee;

/// Copies two pieces to standard output and to the file `copy`, and returns how many outputs broke.
pub(crate) fn copy_twice<O: Outs>(
    alloc: Global,
    first: &[u8],
    second: &[u8],
    outs: &mut O,
) -> Result<u64, Fault>
    requires { O.slots outs.old ≡ streams }
{
    let mut tee = Tee::open(alloc, &["copy"], Mode::Fresh, outs)?;
    let broke = tee.feed(first, outs);
    let broke_later = tee.feed(second, outs);
    let broke_last = tee.close(outs);
    Ok(broke.saturating_add(broke_later).saturating_add(broke_last))
}
