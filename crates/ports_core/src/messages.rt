//! What a tool says on standard error.
ghost use Rattle.std.specs.Prelude.{◌≡◌, true, IfOk};
ghost use Rattle.ports_core.specs.{
  Slot.{is_open, slot_at},
  Text.{Message, line_of, message_of, status_after},
  Message.{PrintsOn, SaysOn, TellsOn, output_named, output_reason},
};

use crate::{Fault, Outs, Reason, Speaker, is_quiet, memory_exhausted, message_for, write_whole};
use std::alloc::Global;

/// The output for messages.
const STANDARD_ERROR: usize = 1;

/// Says what went wrong, and why. The name is that of the file or the word that the fault speaks of. If there is no
/// memory for the message, the line that says so stands in its place. If standard error can't be written, the message
/// is passed over. It takes memory for the message, and gives it back.
pub fn say<O: Outs>(
    alloc: Global,
    speaker: Speaker,
    why: Reason,
    fault: &Fault,
    name: &str,
    outs: &mut O,
)
    requires { is_open (slot_at (O.slots outs.old) 1).state ≡ true }
    ensures { SaysOn O.visible speaker why (message_of fault.now name.now) (O.slots outs.old) (O.slots outs.new) }
{
    let line = message_for(alloc, speaker, why, fault, name);
    say_line(speaker, line, outs)
}

/// Says what went wrong as `say` does, with the same memory, and returns the status of a run that ends with this fault:
/// 1. If the fault names an output, the name and the reason are that output's; otherwise there are none. If the
/// output's reader is gone and the tool was called by its own name, it says nothing, and the status is 141, as a shell
/// gives for a tool that the signal stopped.
pub fn tell<O: Outs>(alloc: Global, speaker: Speaker, fault: &Fault, outs: &mut O) -> u8
    requires { is_open (slot_at (O.slots outs.old) 1).state ≡ true }
    ensures told { TellsOn O.visible speaker fault.now (O.slots outs.old) (O.slots outs.new) }
    ensures status { result
        ≡ status_after fault.now speaker.calling (output_reason (O.slots outs.old) fault.now) }
{
    let why = output_reason(fault, outs);
    if is_quiet(fault, speaker.calling, why) {
        return 141;
    }
    let line = message_for(alloc, speaker, why, fault, output_name(fault, outs));
    say_line(speaker, line, outs);
    1
}

/// The name of the output that a fault names.
fn output_name<'a, O: Outs>(fault: &Fault, outs: &'a O) -> &'a str
    ensures { result.now ≡ output_named (O.slots outs.now) fault.now }
{
    match fault {
        Fault::Write(slot) => outs.name(*slot),
        Fault::Open(slot) => outs.name(*slot),
        _ => "",
    }
}

/// Why the output broke that a fault names.
fn output_reason<O: Outs>(fault: &Fault, outs: &O) -> Reason
    ensures { result ≡ output_reason (O.slots outs.now) fault.now }
{
    match fault {
        Fault::Write(slot) => outs.reason(*slot),
        Fault::Open(slot) => outs.reason(*slot),
        _ => Reason::Other,
    }
}

/// Writes this line to standard error, or, if there was no memory for the line, the line that says so. If standard
/// error can't be written, the line is passed over. It takes no memory.
pub fn say_line<O: Outs>(speaker: Speaker, line: Result<Vec<u8>, Fault>, outs: &mut O)
    requires { is_open (slot_at (O.slots outs.old) 1).state ≡ true }
    ensures { (why : Reason) (message : Message) → IfOk line (λ text. text.items ≡ line_of speaker why message)
        → SaysOn O.visible speaker why message (O.slots outs.old) (O.slots outs.new) }
{
    match line {
        Ok(text) => print(&text, outs),
        Err(_) => print(memory_exhausted(speaker.tool), outs),
    }
}

/// Writes a text to standard error, as far as it takes the text. If standard error can't be written, the text is passed
/// over. It takes no memory.
pub fn print<O: Outs>(text: &[u8], outs: &mut O)
    requires { is_open (slot_at (O.slots outs.old) 1).state ≡ true }
    ensures { PrintsOn O.visible text.now (O.slots outs.old) (O.slots outs.new) }
{
    if outs.broken(STANDARD_ERROR) {
        return;
    }
    let _ = write_whole(outs, STANDARD_ERROR, text);
}
