ghost use Rattle.std.specs.Prelude.{◌≡◌, [], false, List, OnOk};
ghost use Rattle.engine_core.specs.{Engine.StandsAt, Written.OutputsAt};
ghost use Rattle.ports_core.specs.Slot.{Slot};

use engine_core::{Engine, Stage};
use ports_core::{Fault, Outs};

/// Gives an engine a text, which is its whole input, and closes it.
pub(crate) fn take_text<S: Stage, O: Outs>(
    engine: &mut Engine<S>,
    text: &[u8],
    outs: &mut O,
) -> Result<(), Fault>
    requires { engine.old.is_over ≡ false → S.terms.Ready engine.old.stage (O.slots outs.old) }
    ensures { OnOk result ((before : List Slot) → StandsAt S.terms engine.old.stage O.visible before [] (O.slots outs.old)
        → OutputsAt O.visible before ((S.terms.work engine.old.stage).whole text.now) (O.slots outs.new)) }
{
    engine.feed(text, outs)?;
    engine.close(outs)
}
