//! `csplit`: an input cut into files where its lines match (POSIX.1-2017, XCU csplit).
ghost use Rattle.tools_core.specs.Tasks.{csplit_task};

use crate::run::by;
use csplit_core::{Csplitter, Operands};
use engine_core::Engine;
use ports_core::{Calling, Fault, Inputs, Outs, Speaker, Tool, Verdict};
use run_core::Adapter;
use std::alloc::Global;
use words_core::CsplitSettings;

/// What a run knows of `csplit`.
#[derive(Clone, Copy)]
pub struct CsplitAdapter<'a, 'b> {
    /// How the tool was called.
    pub calling: Calling,
    /// What the words ask of it.
    pub settings: &'a CsplitSettings<'b>,
    /// The operands that the words spell.
    pub operands: &'a Operands,
}

impl<'a, 'b> Adapter for CsplitAdapter<'a, 'b> {
    type Driven = Csplitter<'a>;

    ghost task = { λ adapter. csplit_task adapter.calling adapter.settings.now adapter.operands.now };

    fn speaker(&self) -> Speaker {
        by(self.calling, Tool::Csplit)
    }

    fn with_header(&self) -> bool {
        false
    }

    /// The word of the operand that a verdict is about.
    fn subject<'c>(&'c self, verdict: &Verdict, name: &'c str) -> &'c str {
        let _ = name;
        match verdict {
            Verdict::NoMatch(operand, _) | Verdict::Range(operand, _) => {
                self.settings.word(*operand)
            }
            _ => "",
        }
    }

    fn open<I: Inputs, O: Outs>(
        &self,
        alloc: Global,
        source: Option<usize>,
        buffer: &mut [u8],
        inputs: &mut I,
        outs: &mut O,
    ) -> Result<Engine<Csplitter<'a>>, Fault> {
        let _ = source;
        let _ = buffer;
        let _ = inputs;
        let settings = self.settings;
        let style = settings.style.try_clone(alloc)?;
        Csplitter::open(alloc, self.operands, style, outs)
    }
}
