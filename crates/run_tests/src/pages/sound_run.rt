ghost use Rattle.std.specs.Prelude.{◌≡◌, [], map};
ghost use Rattle.ports_core.specs.{Slot.streams, Source.IsFresh};
ghost use Rattle.tools_core.specs.Outcome.{names_read};

use ports_core::{Calling, Inputs, Outs};
use std::alloc::Global;
use tools_core::run::run;

/// Runs what the words ask for, and returns whether all went well. Where the words read nothing, no input is opened.
pub(crate) fn runs_well<I: Inputs, O: Outs>(
    alloc: Global,
    words: &[&str],
    inputs: &mut I,
    outs: &mut O,
) -> bool
    requires inputs { IsFresh (I.sources inputs.old) }
    requires outputs { O.slots outs.old ≡ streams }
    ensures unopened { names_read Calling.Cutters (map (λ word. word.now) words.now) ≡ []
        → I.sources inputs.new ≡ I.sources inputs.old }
{
    run(alloc, words, inputs, outs) == 0
}
