//! Tests as tables: what is done with an engine step by step, and what must be so between.
ghost use Rattle.std.specs.Prelude.{◌≡◌, ◌≤◌, [], false, length, IfOk};
ghost use Rattle.ends_core.specs.Stage.{Holds};
ghost use Rattle.engine_core.specs.EngineState.{HoldsIn};
ghost use Rattle.seg_core.specs.Cut.{IsPositive};
ghost use Rattle.split_core.specs.{Split.HasNames, Ways.Ready};

use crate::ends_plain::{Asked, Side};
use ends_core::{Head, Portion, Tail};
use engine_core::{Engine, Stage, Tells};
use mem_core::MemOut;
use ports_core::{Fault, Naming, Outs};
use split_core::{Cut, Splitter, Way};
use std::alloc::Global;
use std::process::Abort;

/// Something that is done, or that must be so.
#[derive(Clone, Copy)]
pub(crate) enum Step<'a> {
    /// The engine is fed a piece.
    Feed(&'a [u8]),
    /// The engine is fed a piece, and returns this fault.
    FeedFails(&'a [u8], Fault),
    /// The engine is closed.
    Close,
    /// The engine is closed, and returns this fault.
    CloseFails(Fault),
    /// Of the calls for outputs that follow, the one with this number fails.
    FailAt(u64),
    /// An output takes this many bytes, and no more.
    Limit(usize, usize),
    /// This many bytes wait in the engine.
    Waits(u64),
    /// The engine is done, or isn't.
    Done(bool),
    /// Standard output has these bytes.
    Wrote(&'a [u8]),
    /// Just these files were opened, and they have these bytes.
    Files(&'a [&'a [u8]]),
    /// An output has this name; the name is empty where there is no such output.
    Name(usize, &'a str),
    /// An output is broken.
    Broken(usize),
}

/// Takes all steps of a row with an engine, one after another.
pub(crate) fn play<S: Stage>(
    rt: &impl Abort,
    engine: &mut Engine<S>,
    outs: &mut MemOut,
    row: usize,
    steps: &[Step<'_>],
)
    requires { engine.old.is_over ≡ false → S.terms.Ready engine.old.stage outs.old }
{
    let mut number = 0usize;
    for step in steps {
        assert!(rt; take(engine, outs, step), "in row {row}, at step {number}");
        number = number.saturating_add(1);
    }
}

/// Takes a step with an engine, and returns whether that came of it which must.
fn take<S: Stage>(engine: &mut Engine<S>, outs: &mut MemOut, step: &Step<'_>) -> bool
    requires { engine.old.is_over ≡ false → S.terms.Ready engine.old.stage outs.old }
    ensures { engine.new.is_over ≡ false → S.terms.Ready engine.new.stage outs.new }
{
    match step {
        Step::Feed(piece) => feed(engine, outs, piece).is_ok(),
        Step::FeedFails(piece, fault) => feed(engine, outs, piece) == Err(*fault),
        Step::Close => close(engine, outs).is_ok(),
        Step::CloseFails(fault) => close(engine, outs) == Err(*fault),
        Step::FailAt(call) => {
            outs.fail_at(*call);
            true
        }
        Step::Limit(slot, bytes) => outs.limit(*slot, *bytes).is_ok(),
        _ => is_so(engine, outs, step),
    }
}

/// Opens an engine of `head` or `tail`.
pub(crate) fn open_ends(alloc: Global, asked: Asked) -> Result<Engine<Portion>, Fault>
    ensures { IfOk result (λ ends. HoldsIn Holds ends []) }
{
    match asked.side {
        Side::First => Head::open(alloc, asked.unit, false, asked.count, asked.delim),
        Side::ButLast => Head::open(alloc, asked.unit, true, asked.count, asked.delim),
        Side::Last => Tail::open(alloc, asked.unit, false, asked.count, asked.delim),
        Side::FromNth => Tail::open(alloc, asked.unit, true, asked.count, asked.delim),
    }
}

/// Opens an engine of `split` that cuts into files.
pub(crate) fn open_splitter(
    alloc: Global,
    cut: Cut,
    naming: Naming,
    elide: bool,
    outs: &mut MemOut,
) -> Result<Engine<Splitter>, Fault>
    requires some { IsPositive cut }
    requires enough { HasNames cut naming }
    requires streams { 2 ≤ length outs.old }
    ensures { IfOk result (λ splitter. Ready splitter.stage outs.new) }
{
    Splitter::open(
        alloc,
        Way::Cut(cut),
        None,
        naming,
        elide,
        Tells::Nothing,
        outs,
    )
}

/// Feeds an engine a piece, also one that is over.
pub(crate) fn feed<S: Stage>(
    engine: &mut Engine<S>,
    outs: &mut MemOut,
    piece: &[u8],
) -> Result<(), Fault>
    requires { engine.old.is_over ≡ false → S.terms.Ready engine.old.stage outs.old }
    ensures { engine.new.is_over ≡ false → S.terms.Ready engine.new.stage outs.new }
{
    engine.feed(piece, outs)
}

/// Feeds an engine these pieces, also one that is over.
pub(crate) fn feed_all<S: Stage>(
    engine: &mut Engine<S>,
    outs: &mut MemOut,
    pieces: &[&[u8]],
) -> Result<(), Fault>
    requires { engine.old.is_over ≡ false → S.terms.Ready engine.old.stage outs.old }
    ensures { engine.new.is_over ≡ false → S.terms.Ready engine.new.stage outs.new }
{
    for piece in pieces {
        feed(engine, outs, piece)?;
    }
    Ok(())
}

/// Feeds an engine these pieces, and closes it.
pub(crate) fn feed_and_close<S: Stage>(
    engine: &mut Engine<S>,
    outs: &mut MemOut,
    pieces: &[&[u8]],
) -> Result<(), Fault>
    requires { engine.old.is_over ≡ false → S.terms.Ready engine.old.stage outs.old }
{
    feed_all(engine, outs, pieces)?;
    close(engine, outs)
}

/// Closes an engine, also one that is over.
pub(crate) fn close<S: Stage>(engine: &mut Engine<S>, outs: &mut MemOut) -> Result<(), Fault>
    requires { engine.old.is_over ≡ false → S.terms.Ready engine.old.stage outs.old }
    ensures { engine.new.is_over ≡ false → S.terms.Ready engine.new.stage outs.new }
{
    engine.close(outs)
}

/// Whether what a step says is so. Nothing is said by one that does something.
fn is_so<S: Stage>(engine: &Engine<S>, outs: &MemOut, step: &Step<'_>) -> bool {
    match step {
        Step::Waits(count) => engine.held() == *count,
        Step::Done(done) => engine.done() == *done,
        Step::Wrote(bytes) => outs.bytes(0) == *bytes,
        Step::Files(files) => has_files(outs, files),
        Step::Name(slot, name) => outs.name(*slot) == *name,
        Step::Broken(slot) => outs.broken(*slot),
        _ => true,
    }
}

/// Whether just these files were opened, and have these bytes.
pub(crate) fn has_files(outs: &MemOut, files: &[&[u8]]) -> bool {
    let mut slot = 2usize;
    for file in files {
        if outs.name(slot).is_empty() || outs.bytes(slot) != *file {
            return false;
        }
        slot = slot.saturating_add(1);
    }
    outs.name(slot).is_empty()
}
