//! Engines of which `tests/refusals` refuses each growth of memory in turn. Without a refusal both tests of a pair pass; where one
//! growth is refused, the test `NAME` fails, and `NAME_or_are_refused` passes: the call says so, what was written is a beginning, the
//! engine is over from then on, and the outputs stay. What `before_NAME` and `after_NAME` do takes as many growths, so that the calls
//! of the second take none.
ghost use Rattle.std.specs.Prelude.{◌≡◌, ◌≤◌, false, length, IfOk, IsTrue, OnOk};
ghost use Rattle.follow_core.specs.FollowState.{CanLook};
ghost use Rattle.ports_core.specs.Slot.{is_writable};
ghost use Rattle.split_core.specs.Ways.{Ready};

use crate::chunk_tests::open as open_chunks;
use crate::csplit_tests::{Options, open as open_csplitter, style_of};
use crate::ends_plain::{Asked, Side};
use crate::play::{close, feed, feed_all, open_ends, open_splitter};
use crate::tee_tests::pass as pass_on;
use crate::told_tests::open as open_telling;
use csplit_core::{OperandFaultKind, read_operands};
use ends_core::{Head, Portion, Tail, Unit};
use engine_core::{Engine, Stage, Tells};
use follow_core::{Follow, Notice, Start, notice_line};
use mem_core::{Edit, MemOut, MemWatch};
use ports_core::{Alphabet, Calling, Fault, Mode, Naming, Numbering, Outs};
use split_core::{Chunks, Cut, Limit, Splitter, Way};
use std::alloc::Global;
use std::process::Abort;
use std::test::Fail;
use tee_core::Tee;

/// An engine, as it is opened.
#[derive(Clone, Copy)]
enum Job<'a> {
    Ends(Side, Unit, u64),
    /// A head that ends at this place.
    UpTo(u64),
    /// A tail that begins at this place, of an input that showed this number of bytes.
    After(u64, u64),
    Split(Cut),
    /// Of files that standard output is told of.
    Told(Cut),
    /// Chunks, or one turn of lines, of an input that says this of its length.
    Chunks(Way, u64),
    Csplit(&'a [&'a str]),
}

/// An engine, the pieces that it is fed before it is closed, and what is on standard output then and in the files.
type Row<'a> = (Job<'a>, &'a [&'a [u8]], &'a [u8], &'a [&'a [u8]]);

const ROWS: &[Row<'static>] = &[
    (
        Job::Ends(Side::First, Unit::Lines, 2),
        &[b"a\n", b"b\nc"],
        b"a\nb\n",
        &[],
    ),
    (
        Job::Ends(Side::ButLast, Unit::Lines, 2),
        &[b"a\nb", b"\nc", b"\nd"],
        b"a\nb\n",
        &[],
    ),
    (
        Job::Ends(Side::ButLast, Unit::Bytes, 3),
        &[b"ab", b"cde"],
        b"ab",
        &[],
    ),
    (
        Job::Ends(Side::Last, Unit::Lines, 2),
        &[b"a\nb", b"\nc"],
        b"b\nc",
        &[],
    ),
    (
        Job::Ends(Side::Last, Unit::Bytes, 2),
        &[b"ab", b"cde"],
        b"de",
        &[],
    ),
    (
        Job::Ends(Side::FromNth, Unit::Lines, 2),
        &[b"a\nb", b"\nc"],
        b"b\nc",
        &[],
    ),
    (Job::UpTo(3), &[b"ab", b"cd"], b"abc", &[]),
    (Job::After(3, 4), &[b"ab", b"cde"], b"d", &[]),
    (
        Job::Split(Cut::Parts(Limit::Lines(1, b'\n'))),
        &[b"a\nb", b"\n"],
        b"",
        &[b"a\n", b"b\n"],
    ),
    (
        Job::Split(Cut::Parts(Limit::Bytes(2))),
        &[b"a", b"bc"],
        b"",
        &[b"ab", b"c"],
    ),
    (
        Job::Split(Cut::Parts(Limit::LineBytes(4, b'\n'))),
        &[b"a\nb", b"c"],
        b"",
        &[b"a\n", b"bc"],
    ),
    (
        Job::Split(Cut::Round(2, b'\n')),
        &[b"a\nb", b"\nc"],
        b"",
        &[b"a\nc", b"b\n"],
    ),
    (
        Job::Told(Cut::Parts(Limit::Lines(1, b'\n'))),
        &[b"a\nb", b"\n"],
        b"creating file 'xaa'\ncreating file 'xab'\n",
        &[b"a\n", b"b\n"],
    ),
    (
        Job::Told(Cut::Round(2, b'\n')),
        &[b"a\nb", b"\nc"],
        b"creating file 'xaa'\ncreating file 'xab'\n",
        &[b"a\nc", b"b\n"],
    ),
    (
        Job::Chunks(Way::Chunks(BYTES), 3),
        &[b"a", b"bc"],
        b"",
        &[b"ab", b"c"],
    ),
    (
        Job::Chunks(Way::Chunks(BYTES), 0),
        &[b"a", b"bc"],
        b"",
        &[b"ab", b"c"],
    ),
    (
        Job::Chunks(Way::Chunk(1, BYTES), 0),
        &[b"a", b"bc"],
        b"c",
        &[],
    ),
    (
        Job::Chunks(Way::Turn(0, 2, b'\n'), 0),
        &[b"a\nb", b"\nc"],
        b"a\nc",
        &[],
    ),
    (
        Job::Csplit(&["/c/-1", "/d/"]),
        &[b"a\nb", b"\nc\n", b"d"],
        b"2\n4\n1\n",
        &[b"a\n", b"b\nc\n", b"d"],
    ),
];

const BYTES: Chunks = Chunks {
    count: 2,
    unit: Unit::Bytes,
    delim: b'\n',
};

/// No growth is the test's own.
#[test]
fn nothing() {}

#[test]
fn engines_write_their_rows(rt: HostRuntime) -> Result<(), Fail> {
    for (number, row) in ROWS.iter().enumerate() {
        plays(&rt, rt.alloc(), number, row)?;
    }
    Ok(())
}

#[test]
fn engines_write_their_rows_or_are_refused(rt: HostRuntime) {
    for (number, row) in ROWS.iter().enumerate() {
        if let Err(fault) = plays(&rt, rt.alloc(), number, row) {
            let is_refusal = matches!(fault, Fault::Memory | Fault::Write(_) | Fault::Open(_));
            assert!(rt; is_refusal, "of row {number}: {fault:?}");
        }
    }
}

/// Opens an engine, feeds it and closes it, and checks what was written.
fn plays(rt: &impl Abort, alloc: Global, number: usize, row: &Row<'_>) -> Result<(), Fault> {
    let mut outs = MemOut::new(alloc)?;
    let ended = ends(rt, alloc, row, &mut outs);
    assert!(rt;
        has_written(&outs, row.2, row.3, ended.is_ok()),
        "of row {number}"
    );
    ended
}

fn ends(rt: &impl Abort, alloc: Global, row: &Row<'_>, outs: &mut MemOut) -> Result<(), Fault>
    requires streams { 2 ≤ length outs.old }
    requires output { IsTrue (is_writable outs.old 0) }
{
    let (job, pieces, _, _) = *row;
    match job {
        Job::Ends(side, unit, count) => {
            let mut engine = open_ends(alloc, asked(side, unit, count))?;
            goes(rt, &mut engine, outs, pieces)
        }
        Job::UpTo(place) => goes(rt, &mut Head::up_to(place), outs, pieces),
        Job::After(place, len) => goes(rt, &mut Tail::after(place, len), outs, pieces),
        Job::Split(cut) => {
            let mut engine = open_cut(alloc, cut, outs)?;
            goes(rt, &mut engine, outs, pieces)
        }
        Job::Told(cut) => {
            let mut engine = open_telling(alloc, cut, false, outs)?;
            goes(rt, &mut engine, outs, pieces)
        }
        Job::Chunks(way, said) => {
            let mut engine = open_chunks(alloc, way, said, false, Tells::Nothing, outs)?;
            goes(rt, &mut engine, outs, pieces)
        }
        Job::Csplit(words) => cuts(rt, alloc, words, outs, pieces),
    }
}

/// Of lines that end with newlines.
fn asked(side: Side, unit: Unit, count: u64) -> Asked {
    Asked {
        side,
        unit,
        count,
        delim: b'\n',
    }
}

fn open_cut(alloc: Global, cut: Cut, outs: &mut MemOut) -> Result<Engine<Splitter>, Fault>
    requires { 2 ≤ length outs.old }
    ensures { IfOk result (λ splitter. Ready splitter.stage outs.new) }
{
    let naming = Naming::new(alloc, "x", Numbering::Widening(Alphabet::Letters, 2), "")?;
    match cut {
        Cut::Parts(limit) if limit.most() > 0 => open_splitter(alloc, cut, naming, false, outs),
        Cut::Round(count, _) if count > 0 => open_splitter(alloc, cut, naming, false, outs),
        _ => Err(Fault::Failed),
    }
}

fn cuts(
    rt: &impl Abort,
    alloc: Global,
    words: &[&str],
    outs: &mut MemOut,
    pieces: &[&[u8]],
) -> Result<(), Fault>
    requires streams { 2 ≤ length outs.old }
    requires output { IsTrue (is_writable outs.old 0) }
{
    let style = style_of(alloc, Options::Keep)?;
    match read_operands(alloc, Calling::Cutters, words) {
        Ok(operands) => {
            let mut engine = open_csplitter(alloc, style, &operands, outs)?;
            goes(rt, &mut engine, outs, pieces)
        }
        Err(refused) => {
            assert!(rt; refused.kind == OperandFaultKind::Memory);
            Err(Fault::Memory)
        }
    }
}

/// Feeds an engine and closes it. After a fault it is over, and the outputs stay.
fn goes<S: Stage>(
    rt: &impl Abort,
    engine: &mut Engine<S>,
    outs: &mut MemOut,
    pieces: &[&[u8]],
) -> Result<(), Fault>
    requires { engine.old.is_over ≡ false → S.terms.Ready engine.old.stage outs.old }
{
    if let Err(fault) = feed_all(engine, outs, pieces) {
        stays_over(rt, engine, outs);
        return Err(fault);
    }
    if let Err(fault) = close(engine, outs) {
        stays_over(rt, engine, outs);
        return Err(fault);
    }
    Ok(())
}

fn stays_over<S: Stage>(rt: &impl Abort, engine: &mut Engine<S>, outs: &mut MemOut)
    requires { engine.old.is_over ≡ false → S.terms.Ready engine.old.stage outs.old }
{
    let before = sizes(outs);
    let is_over = feed(engine, outs, b"x\ny\n") == Err(Fault::Failed);
    assert!(rt; is_over && close(engine, outs) == Err(Fault::Failed));
    assert!(rt; sizes(outs) == before);
}

/// How much each of the first outputs holds.
fn sizes(outs: &MemOut) -> [usize; 4] {
    [
        outs.bytes(0).len(),
        outs.bytes(2).len(),
        outs.bytes(3).len(),
        outs.bytes(4).len(),
    ]
}

/// Whether standard output and the files have these bytes, or beginnings of them.
fn has_written(outs: &MemOut, output: &[u8], files: &[&[u8]], is_whole: bool) -> bool {
    let mut is_so = agrees(outs.bytes(0), output, is_whole);
    let mut slot = 2usize;
    for file in files {
        is_so = is_so && agrees(outs.bytes(slot), file, is_whole);
        slot = slot.saturating_add(1);
    }
    is_so && outs.name(slot).is_empty()
}

fn agrees(found: &[u8], wanted: &[u8], is_whole: bool) -> bool {
    if is_whole {
        found == wanted
    } else {
        wanted.starts_with(found)
    }
}

/// A call that takes memory by itself.
#[derive(Clone, Copy, Debug)]
enum Call {
    Operands,
    Notice,
    Tee,
    Follow,
    Look,
}

const CALLS: &[Call] = &[
    Call::Operands,
    Call::Notice,
    Call::Tee,
    Call::Follow,
    Call::Look,
];

#[test]
fn calls_succeed(rt: HostRuntime) -> Result<(), Fail> {
    for call in CALLS {
        makes(&rt, rt.alloc(), *call)?;
    }
    Ok(())
}

#[test]
fn calls_succeed_or_are_refused(rt: HostRuntime) -> Result<(), Fail> {
    for call in CALLS {
        if let Err(fault) = makes(&rt, rt.alloc(), *call) {
            let is_refusal = matches!(fault, Fault::Memory | Fault::Write(0) | Fault::Open(_));
            assert!(rt; is_refusal, "at {call:?}: {fault:?}");
            makes(&rt, rt.alloc(), *call)?;
        }
    }
    Ok(())
}

fn makes(rt: &impl Abort, alloc: Global, call: Call) -> Result<(), Fault> {
    match call {
        Call::Operands => read(rt, alloc),
        Call::Notice => notice_line(alloc, Notice::Replaced, "f").map(|_| ()),
        Call::Tee => tee(alloc),
        Call::Follow => Follow::open_as(
            alloc,
            Calling::Cutters,
            &["f", "g"],
            START,
            true,
            true,
        ).map(|_| ()),
        Call::Look => looks(rt, alloc),
    }
}

fn read(rt: &impl Abort, alloc: Global) -> Result<(), Fault> {
    match read_operands(alloc, Calling::OwnName, &["/a*b/+1", "{2}", "%c%", "7"]) {
        Ok(_) => Ok(()),
        Err(refused) => {
            assert!(rt; refused.kind == OperandFaultKind::Memory);
            Err(Fault::Memory)
        }
    }
}

/// A file that finds no memory is broken.
fn tee(alloc: Global) -> Result<(), Fault> {
    let mut outs = MemOut::new(alloc)?;
    let _ = Tee::open(alloc, &["s", "t"], Mode::Fresh, &mut outs)?;
    for slot in [2, 3] {
        if outs.broken(slot) {
            return Err(Fault::Open(slot));
        }
    }
    Ok(())
}

const START: Start = Start {
    unit: Unit::Lines,
    from_nth: false,
    count: 1,
    delim: b'\n',
};

/// Two looks, of which the second tells that a file was replaced.
fn looks(rt: &impl Abort, alloc: Global) -> Result<(), Fault> {
    let mut watch = MemWatch::new(alloc)?;
    watch.then(&[Edit::Replace("f", b"a\n")])?;
    watch.then(&[Edit::Replace("f", b"b\n")])?;
    let mut outs = MemOut::new(alloc)?;
    let mut follow = Follow::open_as(alloc, Calling::Cutters, &["f"], START, true, true)?;
    look(rt, &mut follow, &mut watch, &mut outs, b"==> f <==\na\n")?;
    look(rt, &mut follow, &mut watch, &mut outs, b"==> f <==\na\nb\n")?;
    is_told(&outs)
}

/// Makes a look, after which standard output has these bytes, or a beginning of them.
fn look(
    rt: &impl Abort,
    follow: &mut Follow,
    watch: &mut MemWatch,
    outs: &mut MemOut,
    wanted: &[u8],
) -> Result<(), Fault>
    requires { CanLook follow.old watch.old.watched outs.old }
    ensures { OnOk result (CanLook follow.new watch.new.watched outs.new) }
{
    let looked = follow.look(watch, outs);
    let is_so = agrees(outs.bytes(0), wanted, looked.is_ok());
    assert!(rt; is_so && follow.failed() == looked.is_err());
    looked
}

/// A line that standard error found no memory for is passed over.
fn is_told(outs: &MemOut) -> Result<(), Fault> {
    if outs.broken(1) {
        return Err(Fault::Memory);
    }
    Ok(())
}

/// A tail or a head whose window of bytes is full takes a further piece without memory, or isn't fed one.
fn fill(
    rt: &impl Abort,
    alloc: Global,
    asked: Asked,
    first: &[u8],
    more: &[u8],
    held: u64,
) -> Result<(), Fault> {
    let mut outs = MemOut::new(alloc)?;
    let mut engine = open_ends(alloc, asked)?;
    feed_more(rt, &mut engine, &mut outs, first, more)?;
    assert!(rt; engine.held() == held);
    Ok(())
}

fn feed_more(
    rt: &impl Abort,
    engine: &mut Engine<Portion>,
    outs: &mut MemOut,
    first: &[u8],
    more: &[u8],
) -> Result<(), Fault>
    requires { IsTrue (is_writable outs.old 0) }
{
    feed(engine, outs, first)?;
    assert!(rt; more.is_empty() || feed(engine, outs, more).is_ok());
    Ok(())
}

fn fill_tail(rt: &impl Abort, alloc: Global, more: &[u8]) -> Result<(), Fault> {
    fill(rt, alloc, asked(Side::Last, Unit::Bytes, 2), b"ab", more, 2)
}

#[test]
fn before_a_full_tail_is_fed(rt: HostRuntime) -> Result<(), Fail> {
    Ok(fill_tail(&rt, rt.alloc(), b"")?)
}

#[test]
fn after_a_full_tail_is_fed(rt: HostRuntime) -> Result<(), Fail> {
    Ok(fill_tail(&rt, rt.alloc(), b"cde")?)
}

/// What a file or standard output takes in memory was asked for with the first piece.
fn copy(rt: &impl Abort, alloc: Global, more: &[u8]) -> Result<(), Fault> {
    let mut outs = MemOut::new(alloc)?;
    let mut tee = Tee::open(alloc, &["s"], Mode::Fresh, &mut outs)?;
    assert!(rt; pass_on(&mut tee, &mut outs, Some(b"abcde")) == 0);
    assert!(rt; pass_on(&mut tee, &mut outs, Some(more)) == 0);
    assert!(rt; outs.bytes(0).ends_with(more) && outs.bytes(2).ends_with(more));
    Ok(())
}

#[test]
fn before_a_tee_is_fed(rt: HostRuntime) -> Result<(), Fail> {
    Ok(copy(&rt, rt.alloc(), b"")?)
}

#[test]
fn after_a_tee_is_fed(rt: HostRuntime) -> Result<(), Fail> {
    Ok(copy(&rt, rt.alloc(), b"f")?)
}

/// The same of a head from the front and of a tail from the nth on, which hold nothing.
fn pass(rt: &impl Abort, alloc: Global, more: &[u8]) -> Result<(), Fault> {
    fill(
        rt,
        alloc,
        asked(Side::First, Unit::Bytes, 9),
        b"abcde",
        more,
        0,
    )?;
    fill(
        rt,
        alloc,
        asked(Side::FromNth, Unit::Lines, 2),
        b"a\nbcde",
        more,
        0,
    )
}

#[test]
fn before_what_holds_nothing_is_fed(rt: HostRuntime) -> Result<(), Fail> {
    Ok(pass(&rt, rt.alloc(), b"")?)
}

#[test]
fn after_what_holds_nothing_is_fed(rt: HostRuntime) -> Result<(), Fail> {
    Ok(pass(&rt, rt.alloc(), b"f")?)
}
