//! Chunks of an input, and one turn of its lines, row by row.
ghost use Rattle.std.specs.Prelude.{◌≤◌, ◌<◌, [], length, IfOk, IfSome, IsTrue};
ghost use Rattle.engine_core.specs.EngineState.{HoldsIn};
ghost use Rattle.ports_core.specs.Slot.{is_writable};
ghost use Rattle.split_core.specs.{Split.TellsNoSizes, Alike.as_if, Ways.{Ready, terms}};

use crate::play::{Step, close, feed, has_files, play};
use engine_core::{Engine, Tells};
use mem_core::MemOut;
use ports_core::{Alphabet, Fault, Naming, Numbering, Outs, Verdict};
use seg_core::unit::Unit;
use split_core::{Chunks, Splitter, Way};
use std::alloc::Global;
use std::process::Abort;
use std::test::Fail;

/// What becomes of an input, how long it says that it is (0: it doesn't say), whether empty files are left out, and the
/// steps with an engine. Its files are xaa, xab and so on.
type Row<'a> = (Way, u64, bool, &'a [Step<'a>]);

pub(crate) const TWO: Chunks = Chunks {
    count: 2,
    unit: Unit::Bytes,
    delim: b'\n',
};

pub(crate) const THREE: Chunks = Chunks { count: 3, ..TWO };

pub(crate) const LINES: Chunks = Chunks {
    unit: Unit::Lines,
    ..THREE
};

pub(crate) const CHANGED: Fault = Fault::Verdict(Verdict::Changed);

#[test]
fn writes_what_each_row_says(rt: HostRuntime) -> Result<(), Fail> {
    for (number, row) in ROWS.iter().enumerate() {
        play_row(&rt, rt.alloc(), Tells::Nothing, number, row)?;
    }
    Ok(())
}

const ROWS: &[Row<'static>] = &[
    // All chunks are written to files.
    (
        Way::Chunks(THREE),
        2,
        false,
        &[
            Step::Files(&[]),
            Step::Feed(b"a"),
            Step::Files(&[b"a"]),
            Step::Feed(b"b"),
            Step::Files(&[b"a", b"b", b""]),
            Step::Waits(0),
            Step::Done(false),
            Step::Close,
            Step::Files(&[b"a", b"b", b""]),
            Step::Name(2, "xaa"),
            Step::Name(4, "xac"),
            Step::Wrote(b""),
            Step::CloseFails(Fault::Failed),
            Step::FeedFails(b"c", Fault::Failed),
        ],
    ),
    (
        Way::Chunks(THREE),
        0,
        false,
        &[
            Step::Feed(b"ab"),
            Step::Files(&[b"a"]),
            Step::Waits(1),
            Step::Close,
            Step::Files(&[b"a", b"b", b""]),
        ],
    ),
    (
        Way::Chunks(THREE),
        2,
        true,
        &[Step::Feed(b"ab"), Step::Close, Step::Files(&[b"a", b"b"])],
    ),
    (
        Way::Chunks(THREE),
        0,
        true,
        &[Step::Feed(b"ab"), Step::Close, Step::Files(&[b"a", b"b"])],
    ),
    (
        Way::Chunks(THREE),
        0,
        false,
        &[
            Step::Feed(b""),
            Step::Files(&[]),
            Step::Close,
            Step::Files(&[b"", b"", b""]),
            Step::Name(4, "xac"),
        ],
    ),
    (
        Way::Chunks(THREE),
        0,
        true,
        &[Step::Close, Step::Files(&[])],
    ),
    // A line that is longer than all chunks
    (
        Way::Chunks(LINES),
        9,
        false,
        &[
            Step::Feed(b"abcdefg"),
            Step::Files(&[b"abcdefg"]),
            Step::Feed(b"h\n"),
            Step::Files(&[b"abcdefgh\n", b"", b""]),
            Step::Close,
        ],
    ),
    (
        Way::Chunks(LINES),
        9,
        true,
        &[
            Step::Feed(b"abcdefg\nh"),
            Step::Close,
            Step::Files(&[b"abcdefg\n", b"h"]),
            Step::Name(3, "xab"),
        ],
    ),
    (
        Way::Chunks(LINES),
        0,
        false,
        &[
            Step::Feed(b"abcdefg"),
            Step::Waits(0),
            Step::Feed(b"\nh"),
            Step::Waits(1),
            Step::Files(&[b"abcdefg\n"]),
            Step::Close,
            Step::Files(&[b"abcdefg\n", b"", b"h"]),
        ],
    ),
    // An open last line
    (
        Way::Chunks(LINES),
        6,
        false,
        &[
            Step::Feed(b"a\nb\nc"),
            Step::Files(&[b"a\n", b"b\n", b"c"]),
            Step::Feed(b"d"),
            Step::Close,
            Step::Files(&[b"a\n", b"b\n", b"cd"]),
        ],
    ),
    (
        Way::Chunks(Chunks { delim: 0, ..LINES }),
        5,
        false,
        &[
            Step::Feed(b"a\0\nb\0"),
            Step::Close,
            Step::Files(&[b"a\0", b"\nb\0", b""]),
        ],
    ),
    // One chunk is written to standard output.
    (
        Way::Chunk(1, THREE),
        6,
        false,
        &[
            Step::Feed(b"abc"),
            Step::Wrote(b"c"),
            Step::Done(false),
            Step::Feed(b"d"),
            Step::Done(true),
            Step::Feed(b"ef"),
            Step::Close,
            Step::Wrote(b"cd"),
            Step::Files(&[]),
        ],
    ),
    (
        Way::Chunk(1, THREE),
        0,
        false,
        &[
            Step::Feed(b"abcdef"),
            Step::Wrote(b""),
            Step::Waits(4),
            Step::Done(false),
            Step::Close,
            Step::Wrote(b"cd"),
        ],
    ),
    (
        Way::Chunk(0, THREE),
        0,
        false,
        &[
            Step::Feed(b"abcd"),
            Step::Wrote(b"ab"),
            Step::Waits(2),
            Step::Close,
            Step::Wrote(b"ab"),
        ],
    ),
    (
        Way::Chunk(2, LINES),
        0,
        false,
        &[
            Step::Feed(b"abcdefg\nh"),
            Step::Waits(1),
            Step::Close,
            Step::Wrote(b"h"),
            Step::Files(&[]),
        ],
    ),
    (
        Way::Turn(1, 2, b'\n'),
        0,
        false,
        &[
            Step::Feed(b"a\nb"),
            Step::Wrote(b"b"),
            Step::Waits(0),
            Step::Feed(b"c\nd\ne"),
            Step::Wrote(b"bc\ne"),
            Step::Done(false),
            Step::Close,
            Step::Files(&[]),
        ],
    ),
    (
        Way::Turn(1, 2, b'\n'),
        9,
        false,
        &[Step::Feed(b"a\nb"), Step::Close, Step::Wrote(b"b")],
    ),
    // It tells of an input that has another length than it said.
    (
        Way::Chunks(THREE),
        2,
        false,
        &[
            Step::Feed(b"a"),
            Step::FeedFails(b"bc", CHANGED),
            Step::Files(&[b"a", b"b", b""]),
            Step::FeedFails(b"d", Fault::Failed),
            Step::CloseFails(Fault::Failed),
            Step::Files(&[b"a", b"b", b""]),
        ],
    ),
    (
        Way::Chunks(THREE),
        2,
        false,
        &[Step::Feed(b"ab"), Step::FeedFails(b"c", CHANGED)],
    ),
    (
        Way::Chunks(LINES),
        4,
        false,
        &[
            Step::FeedFails(b"a\nbcd\n", CHANGED),
            Step::Files(&[b"a\n", b"bc", b""]),
        ],
    ),
    (
        Way::Chunks(THREE),
        3,
        false,
        &[
            Step::Feed(b"a"),
            Step::CloseFails(CHANGED),
            Step::Files(&[b"a"]),
            Step::CloseFails(Fault::Failed),
        ],
    ),
    (
        Way::Chunks(THREE),
        3,
        false,
        &[Step::CloseFails(CHANGED), Step::Files(&[])],
    ),
    (
        Way::Chunk(1, TWO),
        2,
        false,
        &[Step::Feed(b"abc"), Step::Close, Step::Wrote(b"b")],
    ),
    (
        Way::Chunk(0, THREE),
        3,
        false,
        &[
            Step::Feed(b"a"),
            Step::Done(true),
            Step::Close,
            Step::Wrote(b"a"),
        ],
    ),
    (
        Way::Chunk(1, THREE),
        3,
        false,
        &[
            Step::Feed(b"a"),
            Step::CloseFails(CHANGED),
            Step::Wrote(b""),
        ],
    ),
    // It stops at a broken output. Chunks to files take an open, a write and a close for each that isn't empty, and an open
    // and a close for others.
    (
        Way::Chunks(THREE),
        4,
        false,
        &[
            Step::Limit(2, 1),
            Step::FeedFails(b"abcd", Fault::Write(2)),
            Step::Broken(2),
            Step::Files(&[b"a"]),
            Step::FeedFails(b"e", Fault::Failed),
        ],
    ),
    (
        Way::Chunks(THREE),
        0,
        false,
        &[
            Step::Feed(b"ab"),
            Step::FailAt(2),
            Step::CloseFails(Fault::Open(3)),
            Step::Files(&[b"a", b""]),
        ],
    ),
    // The last file is closed with its last byte where that is known, and else at the end.
    (
        Way::Chunks(TWO),
        2,
        false,
        &[
            Step::Feed(b"a"),
            Step::FailAt(3),
            Step::FeedFails(b"b", Fault::Write(3)),
            Step::Files(&[b"a", b"b"]),
        ],
    ),
    (
        Way::Chunks(TWO),
        4,
        false,
        &[
            Step::Feed(b"a"),
            Step::FailAt(1),
            Step::CloseFails(Fault::Write(2)),
            Step::Files(&[b"a"]),
        ],
    ),
    (
        Way::Chunk(0, TWO),
        4,
        false,
        &[
            Step::Limit(0, 1),
            Step::FeedFails(b"abcd", Fault::Write(0)),
            Step::Wrote(b"a"),
            Step::FeedFails(b"e", Fault::Failed),
        ],
    ),
    (
        Way::Chunk(1, TWO),
        0,
        false,
        &[
            Step::Limit(0, 1),
            Step::Feed(b"abcd"),
            Step::CloseFails(Fault::Write(0)),
            Step::Wrote(b"c"),
        ],
    ),
    (
        Way::Turn(0, 2, b'\n'),
        0,
        false,
        &[
            Step::Limit(0, 3),
            Step::FeedFails(b"a\nb\ncd", Fault::Write(0)),
            Step::Wrote(b"a\nc"),
            Step::CloseFails(Fault::Failed),
        ],
    ),
];

/// The call that fails, the fault, and the files then.
type Failing<'a> = (u64, Fault, &'a [&'a [u8]]);

#[test]
fn stops_at_each_call_that_fails(rt: HostRuntime) -> Result<(), Fail> {
    for said in [2, 0] {
        for row in FAILING {
            assert!(&rt;
                fails(rt.alloc(), said, row)?,
                "of {said} bytes at {}",
                row.0
            );
        }
    }
    Ok(())
}

/// Of two bytes in three chunks
const FAILING: &[Failing<'static>] = &[
    (1, Fault::Open(2), &[b""]),
    (2, Fault::Write(2), &[b""]),
    (3, Fault::Write(2), &[b"a"]),
    (4, Fault::Open(3), &[b"a", b""]),
    (5, Fault::Write(3), &[b"a", b""]),
    (6, Fault::Write(3), &[b"a", b"b"]),
    (7, Fault::Open(4), &[b"a", b"b", b""]),
    (8, Fault::Write(4), &[b"a", b"b", b""]),
];

fn fails(alloc: Global, said: u64, row: &Failing<'_>) -> Result<bool, Fault> {
    let (call, fault, files) = *row;
    let mut outs = MemOut::new(alloc)?;
    outs.fail_at(call);
    let mut engine = open(
        alloc,
        Way::Chunks(THREE),
        said,
        false,
        Tells::Nothing,
        &mut outs,
    )?;
    let fed = feed(&mut engine, &mut outs, b"ab");
    let ended = match fed {
        Ok(()) => close(&mut engine, &mut outs),
        Err(_) => fed,
    };
    Ok(ended == Err(fault) && has_files(&outs, files))
}

#[test]
fn tells_of_files_of_chunks(rt: HostRuntime) -> Result<(), Fail> {
    for (number, row) in TOLD.iter().enumerate() {
        play_row(&rt, rt.alloc(), Tells::Openings, number, row)?;
    }
    Ok(())
}

const TOLD: &[Row<'static>] = &[
    (
        Way::Chunks(THREE),
        2,
        false,
        &[
            Step::Wrote(b""),
            Step::Feed(b"a"),
            Step::Wrote(b"creating file 'xaa'\n"),
            Step::Feed(b"b"),
            Step::Wrote(ALL_TOLD),
            Step::Close,
            Step::Wrote(ALL_TOLD),
        ],
    ),
    (
        Way::Chunks(THREE),
        0,
        false,
        &[
            Step::Feed(b"ab"),
            Step::Wrote(b"creating file 'xaa'\n"),
            Step::Close,
            Step::Wrote(ALL_TOLD),
            Step::Files(&[b"a", b"b", b""]),
        ],
    ),
    (
        Way::Chunks(THREE),
        0,
        true,
        &[
            Step::Feed(b"ab"),
            Step::Close,
            Step::Wrote(b"creating file 'xaa'\ncreating file 'xab'\n"),
        ],
    ),
    (
        Way::Chunks(THREE),
        2,
        false,
        &[
            Step::Limit(0, 45),
            Step::FeedFails(b"ab", Fault::Write(0)),
            Step::Wrote(b"creating file 'xaa'\ncreating file 'xab'\ncreat"),
            Step::Files(&[b"a", b"b"]),
        ],
    ),
    (
        Way::Chunks(THREE),
        2,
        false,
        &[
            Step::FailAt(2),
            Step::FeedFails(b"ab", Fault::Open(2)),
            Step::Wrote(b"creating file 'xaa'\n"),
            Step::Broken(2),
        ],
    ),
    // One chunk has no file to tell of.
    (
        Way::Chunk(1, TWO),
        2,
        false,
        &[Step::Feed(b"ab"), Step::Close, Step::Wrote(b"b")],
    ),
];

const ALL_TOLD: &[u8] = b"creating file 'xaa'\ncreating file 'xab'\ncreating file 'xac'\n";

/// Takes the steps of a row with an engine of its own.
fn play_row(
    rt: &impl Abort,
    alloc: Global,
    tells: Tells,
    number: usize,
    row: &Row<'_>,
) -> Result<(), Fault>
    requires { TellsNoSizes tells }
{
    let (way, said, elide, steps) = *row;
    let mut outs = MemOut::new(alloc)?;
    let mut engine = open(alloc, way, said, elide, tells, &mut outs)?;
    play(rt, &mut engine, &mut outs, number, steps);
    Ok(())
}

/// A splitter that writes chunks, or one turn of lines. Its files are xaa, xab and so on.
pub(crate) fn open(
    alloc: Global,
    way: Way,
    said: u64,
    elide: bool,
    tells: Tells,
    outs: &mut MemOut,
) -> Result<Engine<Splitter>, Fault>
    requires tells { TellsNoSizes tells }
    requires streams { 2 ≤ length outs.old }
    requires output { IsTrue (is_writable outs.old 0) }
    ensures ready { IfOk result (λ splitter. Ready splitter.stage outs.new) }
    ensures fresh { IfOk result (λ splitter. HoldsIn (as_if terms).Holds splitter []) }
{
    let naming = Naming::new(alloc, "x", Numbering::Widening(Alphabet::Letters, 2), "")?;
    let said = said_by(said);
    match way {
        Way::Chunks(chunks) if chunks.count > 0 => {
            Splitter::open(alloc, way, said, naming, elide, tells, outs)
        }
        Way::Chunk(place, chunks) if place < chunks.count => {
            Splitter::open(alloc, way, said, naming, elide, tells, outs)
        }
        Way::Turn(place, count, _) if place < count => {
            Splitter::open(alloc, way, said, naming, elide, tells, outs)
        }
        _ => Err(Fault::Failed),
    }
}

/// What an input says of its length, if it isn't 0.
fn said_by(said: u64) -> Option<u64>
    ensures { IfSome result (λ size. 0 < size) }
{
    if said == 0 {
        return None;
    }
    Some(said)
}
