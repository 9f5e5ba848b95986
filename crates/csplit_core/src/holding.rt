//! Lines that wait, and what leaves them.
ghost use Rattle.std.specs.Prelude.{◌≡◌, ◌+◌, ◌<◌, ◌≤◌, ◌^◌, ◌++◌, [], length, take, IfOk, IfErr, OnOk};
ghost use Rattle.seg_core.specs.{Line.but_last_lines, inner.Lines.last_lines, Window.without_first};
ghost use Rattle.engine_core.specs.{
  Draft.with_bytes,
  FileWriter.{IsReady, seen_writer, size_of, Goes},
  InTurn.fault_in,
};
ghost use Rattle.ports_core.specs.Slot.{effect_of};

use engine_core::FileWriter;
use ports_core::{Fault, Outs};
use seg_core::line_window::LineWindow;
use std::alloc::Global;

/// Takes in a text after the lines that wait. The last lines of both wait then. What stands before them goes to the
/// open section, first from what waited and then straight from the text.
///
/// # Errors
///
/// The errors of `FileWriter::put`, and `Memory` if there is no room for what waits.
pub(crate) fn hold_last<O: Outs>(
    window: &mut LineWindow,
    text: &[u8],
    writer: &mut FileWriter,
    outs: &mut O,
) -> Result<(), Fault>
    requires fits { size_of writer.old.current + length window.old.held + length text.now < 2 ^ 64 }
    requires ready { IsReady (seen_writer writer.old) (O.slots outs.old) }
    ensures goes { Goes (seen_writer writer.old) (seen_writer writer.new)
        (with_bytes (but_last_lines window.old.delim window.old.most (window.old.held ++ text.now)))
        (effect_of O.visible O.slots outs.old outs.new) (fault_in result) }
    ensures window { OnOk result (window.new ≡ record window.old
        { held = last_lines window.old.delim window.old.most (window.old.held ++ text.now) }) }
    ensures size { OnOk result (size_of writer.new.current + length window.new.held
        ≤ size_of writer.old.current + length (window.old.held ++ text.now)) }
{
    let over = window.over(text);
    let front = over.min(window.len());
    write_front(window, front, writer, outs)?;
    let (settled, rest) = text.split_at((over - front) as usize);
    writer.put(settled, outs)?;
    keep(window, rest)
}

/// Writes the first `n` bytes that wait, and drops them.
pub(crate) fn write_front<O: Outs>(
    window: &mut LineWindow,
    n: u64,
    writer: &mut FileWriter,
    outs: &mut O,
) -> Result<(), Fault>
    requires held { n ≤ length window.old.held }
    requires fits { size_of writer.old.current + length window.old.held < 2 ^ 64 }
    requires ready { IsReady (seen_writer writer.old) (O.slots outs.old) }
    ensures goes { Goes (seen_writer writer.old) (seen_writer writer.new) (with_bytes (take n window.old.held))
        (effect_of O.visible O.slots outs.old outs.new) (fault_in result) }
    ensures window { OnOk result (window.new ≡ without_first window.old n) }
    ensures size { OnOk result (size_of writer.new.current + length window.new.held
        ≤ size_of writer.old.current + length window.old.held) }
{
    let mut left = n;
    while 0 < left {
        let front = window.front();
        let bytes = left.min(front.len() as u64);
        writer.put(&front[..bytes as usize], outs)?;
        window.drop_front(bytes);
        left -= bytes;
    }
    Ok(())
}

/// Puts lines after the lines that wait.
fn keep(window: &mut LineWindow, text: &[u8]) -> Result<(), Fault>
    requires { but_last_lines window.old.delim window.old.most (window.old.held ++ text.now) ≡ [] }
    ensures ok { OnOk result (window.new ≡ record window.old { held = window.old.held ++ text.now }) }
    ensures err { IfErr result (λ fault. fault ≡ Fault.Memory) }
{
    match window.put(text) {
        Ok(()) => Ok(()),
        Err(_) => Err(Fault::Memory),
    }
}

/// The lines that wait, and a text after them. No line waits any more.
///
/// # Errors
///
/// `Memory` if there is no room for the lines and the text.
pub(crate) fn drain(alloc: Global, window: &mut LineWindow, text: &[u8]) -> Result<Vec<u8>, Fault>
    ensures ok { IfOk result (λ all. all.items ≡ window.old.held ++ text.now) }
    ensures window { OnOk result (window.new ≡ record window.old { held = [] }) }
    ensures err { IfErr result (λ fault. fault ≡ Fault.Memory) }
{
    let mut waiting = vec![in alloc; 0u8; window.len() as usize]?;
    window.take_front(&mut waiting);
    waiting.extend_from_slice(text)?;
    Ok(waiting)
}
