//! `split`: an input cut into files (POSIX.1-2017, XCU split).
ghost use Rattle.std.specs.Prelude.{◌≡◌, ◌<◌, ℕ, Bool, true, List, Option, length, option_map, IfErr, IfOk, IfSome, IsTrue};
ghost use Rattle.ports_core.specs.Source.{count_shown, is_readable, source_at};
ghost use Rattle.run_core.specs.RunSteps.{IsShown};
ghost use Rattle.split_core.specs.{ChunkWork.way_work, Split.{Filing, tells_by}};
ghost use Rattle.tools_core.specs.{laws.Props.CanSplit-prop, Tasks.{naming_of, split_task}};
ghost use Rattle.words_core.specs.SplitWords.{CanSplit, IsWidth};

use crate::ends::changed_of;
use crate::run::by;
use engine_core::{Engine, Tells};
use ports_core::{Calling, Fault, Inputs, Naming, Numbering, Outs, Speaker, Tool, Verdict};
use run_core::Adapter;
use split_core::{Splitter, Way};
use std::alloc::Global;
use words_core::SplitSettings;

/// What a run knows of `split`.
#[derive(Clone, Copy)]
pub struct SplitAdapter<'a, 'b> {
    /// How the tool was called.
    pub calling: Calling,
    /// What the words ask of it.
    pub settings: &'a SplitSettings<'b>,
    ghost can: { CanSplit settings.now } by { CanSplit-prop settings.now },
}

impl<'a, 'b> Adapter for SplitAdapter<'a, 'b> {
    type Driven = Splitter;

    ghost task = { λ adapter. split_task adapter.calling adapter.settings.now };

    fn speaker(&self) -> Speaker {
        by(self.calling, Tool::Split)
    }

    fn with_header(&self) -> bool {
        false
    }

    fn subject<'c>(&'c self, verdict: &Verdict, name: &'c str) -> &'c str {
        changed_of(verdict, name)
    }

    fn open<I: Inputs, O: Outs>(
        &self,
        alloc: Global,
        source: Option<usize>,
        buffer: &mut [u8],
        inputs: &mut I,
        outs: &mut O,
    ) -> Result<Engine<Splitter>, Fault> {
        let _ = buffer;
        let settings = self.settings;
        let said = said_by(&settings.way, source, inputs);
        let naming = naming_for(alloc, settings)?;
        let tells = tells_for(settings.verbose);
        Splitter::open(
            alloc,
            settings.way,
            said,
            naming,
            settings.elide,
            tells,
            outs,
        )
    }
}

/// How many bytes a source shows, if that matters and it shows them.
fn said_by<I: Inputs>(way: &Way, source: Option<usize>, inputs: &mut I) -> Option<u64>
    requires input { IfSome source (λ slot. IsTrue (is_readable (I.sources inputs.old) slot)) }
    ensures said { (shown : Option (List ℕ)) × IsShown I.visible source (I.sources inputs.old) shown
        × ((elide : Bool) (filing : Filing)
        → way_work way.now elide filing result ≡ way_work way.now elide filing (option_map length shown)) }
    ensures some { IfSome result (λ size. 0 < size) }
    ensures same { I.sources inputs.new ≡ I.sources inputs.old }
    ensures laid { I.laid inputs.new ≡ I.laid inputs.old }
{
    let (Way::Chunks(_) | Way::Chunk(_, _)) = way else {
        return None;
    };
    match source {
        Some(slot) => shown_or_limited(slot, inputs),
        None => None,
    }
}

/// How many bytes an input shows. If it shows none, a device without an end isn't waited for.
fn shown_or_limited<I: Inputs>(slot: usize, inputs: &mut I) -> Option<u64>
    requires { IsTrue (is_readable (I.sources inputs.old) slot) }
    ensures some { IfSome result (λ size. 0 < size) }
    ensures counted { I.visible ≡ true → result ≡ count_shown (source_at (I.sources inputs.old) slot).left }
    ensures same { I.sources inputs.new ≡ I.sources inputs.old }
    ensures laid { I.laid inputs.new ≡ I.laid inputs.old }
{
    let size = inputs.shown(slot);
    if size.is_none() {
        inputs.limit(slot);
    }
    size
}

/// Which lines standard output gets about the files.
fn tells_for(verbose: bool) -> Tells
    ensures { result ≡ tells_by verbose }
{
    if verbose {
        return Tells::Openings;
    }
    Tells::Nothing
}

/// The names of the files.
fn naming_for(alloc: Global, settings: &SplitSettings<'_>) -> Result<Naming, Fault>
    requires { IsWidth settings.now.width }
    ensures ok { IfOk result (λ naming. naming ≡ naming_of settings.now) }
    ensures err { IfErr result (λ fault. fault ≡ Fault.Memory) }
{
    let numbering = if settings.auto {
        Numbering::Widening(settings.alphabet, settings.width)
    } else {
        let from = settings.from.unwrap_or(0);
        Numbering::Fixed(settings.alphabet, settings.width, from)
    };
    Naming::new(alloc, settings.prefix, numbering, settings.ending)
}
