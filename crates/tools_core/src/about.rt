//! A text about a tool or the program, in place of its work.
ghost use Rattle.std.specs.Prelude.{◌≡◌};
ghost use Rattle.ports_core.specs.Slot.{streams};
ghost use Rattle.tools_core.specs.{About.TellsText, Tasks.by};
ghost use Rattle.words_core.specs.Help.{text_about};

use crate::run::by;
use ports_core::{Calling, Fault, Outs, Speaker, Tool, tell, write_whole};
use std::alloc::Global;
use words_core::{Topic, text_about};

/// The number of standard output among the outputs.
const STANDARD_OUTPUT: usize = 0;

/// Writes a text about this tool, or the program, to standard output, or reports why it can't be written, and returns
/// the status.
pub(crate) fn tell_about<O: Outs>(
    alloc: Global,
    calling: Calling,
    tool: Tool,
    topic: Topic,
    outs: &mut O,
) -> u8
    requires { O.slots outs.old ≡ streams }
    ensures { TellsText O.visible (by calling tool) (text_about tool topic) (O.slots outs.new) result }
{
    match text_about(alloc, tool, topic) {
        Ok(text) => tell_text(alloc, by(calling, tool), &text, outs),
        Err(fault) => tell(alloc, by(calling, tool), &fault, outs),
    }
}

fn tell_text<O: Outs>(alloc: Global, speaker: Speaker, text: &[u8], outs: &mut O) -> u8
    requires { O.slots outs.old ≡ streams }
    ensures { TellsText O.visible speaker text.now (O.slots outs.new) result }
{
    match write_whole(outs, STANDARD_OUTPUT, text) {
        Ok(()) => 0,
        Err(cut) => tell(alloc, speaker, &Fault::from(cut), outs),
    }
}
