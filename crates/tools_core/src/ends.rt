//! `head` and `tail`: the same part of each input, one after another (POSIX.1-2017, XCU head and tail; several files
//! for `tail`, and when headers go before them, are GNU's).
ghost use Rattle.std.specs.Prelude.{◌≡◌, ◌<◌, ℕ, Some, None, length, IfSome, IfNone, IsTrue};
ghost use Rattle.ports_core.specs.Source.{is_readable, source_at};
ghost use Rattle.ends_core.specs.Shown.{SeenLast};
ghost use Rattle.run_core.specs.RunSteps.{IsShown, OnlyLooked};
ghost use Rattle.tools_core.specs.Tasks.{changed_of, head_task, tail_task};
ghost use Rattle.words_core.specs.EndsWords.{has_headers, is_minus, is_plus};

use crate::run::by;
use ends_core::{Found, Head, Portion, Tail, find_last};
use engine_core::Engine;
use ports_core::{Calling, Fault, Inputs, Outs, Speaker, Tool, Verdict};
use run_core::Adapter;
use seg_core::count::Count;
use std::alloc::Global;
use words_core::{EndsSettings, has_headers, is_minus, is_plus};

/// What a run knows of `head`.
#[derive(Clone, Copy)]
pub struct HeadAdapter<'a, 'b> {
    /// How the tool was called.
    pub calling: Calling,
    /// What the words ask of it.
    pub settings: &'a EndsSettings<'b>,
}

/// What a run knows of `tail`.
#[derive(Clone, Copy)]
pub struct TailAdapter<'a, 'b> {
    /// How the tool was called.
    pub calling: Calling,
    /// What the words ask of it.
    pub settings: &'a EndsSettings<'b>,
}

impl<'a, 'b> Adapter for HeadAdapter<'a, 'b> {
    type Driven = Portion;

    ghost task = { λ adapter. head_task adapter.calling adapter.settings.now };

    fn speaker(&self) -> Speaker {
        by(self.calling, Tool::Head)
    }

    fn with_header(&self) -> bool {
        has_headers(self.settings)
    }

    fn subject<'c>(&'c self, verdict: &Verdict, name: &'c str) -> &'c str {
        changed_of(verdict, name)
    }

    fn open<I: Inputs, O: Outs>(
        &self,
        alloc: Global,
        source: Option<usize>,
        buffer: &mut [u8],
        inputs: &mut I,
        outs: &mut O,
    ) -> Result<Engine<Portion>, Fault> {
        let _ = outs;
        let settings = self.settings;
        let Count { sign, amount } = settings.count;
        if !is_minus(sign) {
            return Head::open(alloc, settings.unit, false, amount, settings.delim);
        }
        match last_in(settings, source, buffer, inputs) {
            Some(found) => Ok(Head::up_to(found.place)),
            None => Head::open(alloc, settings.unit, true, amount, settings.delim),
        }
    }
}

impl<'a, 'b> Adapter for TailAdapter<'a, 'b> {
    type Driven = Portion;

    ghost task = { λ adapter. tail_task adapter.calling adapter.settings.now };

    fn speaker(&self) -> Speaker {
        by(self.calling, Tool::Tail)
    }

    fn with_header(&self) -> bool {
        has_headers(self.settings)
    }

    fn subject<'c>(&'c self, verdict: &Verdict, name: &'c str) -> &'c str {
        changed_of(verdict, name)
    }

    fn open<I: Inputs, O: Outs>(
        &self,
        alloc: Global,
        source: Option<usize>,
        buffer: &mut [u8],
        inputs: &mut I,
        outs: &mut O,
    ) -> Result<Engine<Portion>, Fault> {
        let _ = outs;
        let settings = self.settings;
        let Count { sign, amount } = settings.count;
        if is_plus(sign) {
            return Tail::open(alloc, settings.unit, true, amount, settings.delim);
        }
        match last_in(settings, source, buffer, inputs) {
            Some(found) => Ok(Tail::after(found.place, found.len)),
            None => Tail::open(alloc, settings.unit, false, amount, settings.delim),
        }
    }
}

/// Where the last lines or bytes of what a source shows begin, as many as are asked for.
fn last_in<I: Inputs>(
    settings: &EndsSettings<'_>,
    source: Option<usize>,
    buffer: &mut [u8],
    inputs: &mut I,
) -> Option<Found>
    requires room { 0 < length buffer.old }
    requires input { IfSome source (λ slot. IsTrue (is_readable (I.sources inputs.old) slot)) }
    ensures found { IfSome result (λ found. (slot : ℕ) × (source ≡ Some slot)
        × SeenLast I.visible (source_at (I.sources inputs.old) slot).left settings.now.delim settings.now.unit
        settings.now.count.amount found) }
    ensures none { IfNone result (IsShown I.visible source (I.sources inputs.old) None) }
    ensures looked { OnlyLooked (length buffer.old) source (I.sources inputs.old) (I.sources inputs.new) }
    ensures laid { I.laid inputs.new ≡ I.laid inputs.old }
{
    find_last(
        settings.unit,
        settings.count.amount,
        settings.delim,
        source?,
        buffer,
        inputs,
    )
}

/// The name in the message for a verdict: the name of the input, if the input changed.
pub(crate) fn changed_of<'a>(verdict: &Verdict, name: &'a str) -> &'a str
    ensures { result.now ≡ changed_of verdict.now name.now }
{
    match verdict {
        Verdict::Changed => name,
        _ => "",
    }
}
