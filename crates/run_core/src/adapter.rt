ghost use Rattle.std.specs.Prelude.{◌≡◌, ◌≤◌, ◌<◌, ℕ, List, Option, length, IfSome, IsTrue};
ghost use Rattle.ports_core.specs.{Source.is_readable, Slot.is_writable};
ghost use Rattle.run_core.specs.{Task.Task, RunSteps.{IsShown, OnlyLooked, OpenedFor}};

use engine_core::{Engine, Stage};
use ports_core::{Fault, Inputs, Outs, Speaker, Verdict};
use std::alloc::Global;

/// What a run knows of a tool that feeds each of its inputs to an engine of its own.
pub trait Adapter {
    /// The tool's stage, of which an engine is made for each input.
    type Driven: Stage + Drop;

    /// What it does with its inputs.
    ghost task: { Self → Task };

    /// Who speaks in its messages: the tool, as it was called.
    fn speaker(&self) -> Speaker
        ensures { result ≡ (task self.now).speaker };

    /// Whether a header goes before each input.
    fn with_header(&self) -> bool
        ensures { result ≡ (task self.now).with_header };

    /// The name in the message for a verdict with which the work on an input of this name ends.
    fn subject<'a>(&'a self, verdict: &Verdict, name: &'a str) -> &'a str
        ensures { result.now ≡ (task self.now).subject verdict.now name.now };

    /// Opens an engine for the input of a source, by what that shows, which it may look at; it takes no byte of it. Without
    /// a source it is an empty input.
    ///
    /// # Errors
    ///
    /// `Memory` if there is no room for it, `Open` if one of its first files can't be opened, `Write` if an output broke; each only if the
    /// task says that opening may need it. No file is left then, if the work clears them.
    fn open<I: Inputs, O: Outs>(
        &self,
        alloc: Global,
        source: Option<usize>,
        buffer: &mut [u8],
        inputs: &mut I,
        outs: &mut O,
    ) -> Result<Engine<Self::Driven>, Fault>
        requires room { 0 < length buffer.old }
        requires input { IfSome source (λ slot. IsTrue (is_readable (I.sources inputs.old) slot)) }
        requires streams { 2 ≤ length (O.slots outs.old) }
        requires output { IsTrue (is_writable (O.slots outs.old) 0) }
        ensures opens { (shown : Option (List ℕ)) × IsShown I.visible source (I.sources inputs.old) shown
            × OpenedFor Self.Driven.terms (task self.now) shown O.visible (O.slots outs.old) (O.slots outs.new) result }
        ensures looked { OnlyLooked (length buffer.old) source (I.sources inputs.old) (I.sources inputs.new) }
        ensures laid { I.laid inputs.new ≡ I.laid inputs.old };
}
