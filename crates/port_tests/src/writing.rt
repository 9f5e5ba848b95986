//! Outputs that tests open.
ghost use Rattle.std.specs.Prelude.{◌≡◌, IfOk};
ghost use Rattle.ports_core.specs.Slot.{is_closable, streams};

use ports_core::{DirOut, Fault, InputFiles, Mode, Outs};
use std::process::Abort;

/// The outputs of a run, which spares these inputs' files.
pub(crate) fn outs_of<'a>(rt: HostRuntime, inputs: &'a InputFiles) -> DirOut<'a, HostRuntime>
    ensures { result ≡ streams }
{
    DirOut::new(rt, rt.alloc(), rt.stdout(), rt.stderr(), inputs)
}

/// Opens an output, which gets this number.
pub(crate) fn open_output<O: Outs>(
    rt: &impl Abort,
    outs: &mut O,
    name: &str,
    mode: Mode,
    number: usize,
) -> Result<usize, Fault>
    ensures { IfOk result (is_closable (O.slots outs.new)) }
{
    let slot = outs.open(name, mode)?;
    assert!(rt; slot == number && slot >= 2, "{name} is output {slot}");
    Ok(slot)
}
