ghost use Rattle.std.specs.Prelude.{◌≡◌, ◌≤◌, ◌++◌, ◌∷◌, [], length, OnOk};
ghost use Rattle.ports_core.specs.{Slot.{changed_at, closes, opened, visible_of, with_written}, declared.slot.Mode.Mode};

use ports_core::{Fault, Mode, Outs, write_whole};

/// Writes a text to a new file, the next output, and closes it.
pub(crate) fn write_file<O: Outs>(name: &str, text: &[u8], outs: &mut O) -> Result<(), Fault>
    requires { 2 ≤ length (O.slots outs.old) }
    ensures { OnOk result (let file = length (O.slots outs.old) in
        let with_file = O.slots outs.old ++ opened name.now Mode.Fresh ∷ [] in
        O.slots outs.new ≡ changed_at file closes (with_written file (visible_of O.visible text.now) with_file)) }
{
    let slot = outs.open(name, Mode::Fresh)?;
    write_whole(outs, slot, text)?;
    outs.close(slot)
}
