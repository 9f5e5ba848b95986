ghost use Rattle.std.specs.Prelude.{◌<◌, ◌≤◌, length};

use engine_core::Tells;
use ports_core::{Alphabet, Fault, Naming, Numbering, Outs};
use split_core::{Cut, Limit, Splitter, Way};
use std::alloc::Global;

/// Writes a text to the files xaa, xab and so on, `most` lines to each.
pub(crate) fn write_parts<O: Outs>(
    alloc: Global,
    most: u64,
    text: &[u8],
    outs: &mut O,
) -> Result<(), Fault>
    requires some { 0 < most }
    requires streams { 2 ≤ length (O.slots outs.old) }
{
    let way = Way::Cut(Cut::Parts(Limit::Lines(most, b'\n')));
    let naming = Naming::new(alloc, "x", Numbering::Widening(Alphabet::Letters, 2), "")?;
    let mut splitter = Splitter::open(alloc, way, None, naming, false, Tells::Nothing, outs)?;
    splitter.feed(text, outs)?;
    splitter.close(outs)
}
