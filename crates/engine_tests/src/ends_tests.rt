//! What is written after each piece. Contracts say it of any piece, and the rows here show it.
use crate::ends_plain::{Asked, Side};
use crate::play::{Step, open_ends, play};
use ends_core::Unit;
use mem_core::MemOut;
use ports_core::Fault;
use std::alloc::Global;
use std::process::Abort;
use std::test::Fail;

/// Which part is written, of lines or bytes, the count, the byte with which lines end, and the steps with an engine.
type Row<'a> = (Side, Unit, u64, u8, &'a [Step<'a>]);

#[test]
fn writes_what_each_row_says(rt: HostRuntime) -> Result<(), Fail> {
    for (number, row) in ROWS.iter().enumerate() {
        play_row(&rt, rt.alloc(), number, row)?;
    }
    Ok(())
}

const ROWS: &[Row<'static>] = &[
    // The first are written piece by piece, at once.
    (
        Side::First,
        Unit::Lines,
        2,
        b'\n',
        &[
            Step::Feed(b"a"),
            Step::Wrote(b"a"),
            Step::Feed(b"\n"),
            Step::Wrote(b"a\n"),
            Step::Done(false),
            Step::Feed(b"b"),
            Step::Wrote(b"a\nb"),
            Step::Feed(b"\nc\nd"),
            Step::Done(true),
            Step::Feed(b"e\n"),
            Step::Waits(0),
            Step::Close,
            Step::Wrote(b"a\nb\n"),
            Step::CloseFails(Fault::Failed),
            Step::FeedFails(b"f", Fault::Failed),
        ],
    ),
    (
        Side::First,
        Unit::Bytes,
        3,
        b'\n',
        &[
            Step::Feed(b"ab"),
            Step::Feed(b""),
            Step::Feed(b"cd"),
            Step::Wrote(b"abc"),
            Step::Done(true),
        ],
    ),
    (
        Side::First,
        Unit::Bytes,
        9,
        b'\n',
        &[
            Step::Limit(0, 1),
            Step::FeedFails(b"ab", Fault::Write(0)),
            Step::Wrote(b"a"),
            Step::Broken(0),
            Step::FeedFails(b"cd", Fault::Failed),
            Step::Wrote(b"a"),
        ],
    ),
    (
        Side::First,
        Unit::Lines,
        1,
        0,
        &[
            Step::Feed(b"a\nb"),
            Step::Done(false),
            Step::Feed(b"\0c\n"),
            Step::Done(true),
            Step::Wrote(b"a\nb\0"),
        ],
    ),
    // The last are held back.
    (
        Side::ButLast,
        Unit::Lines,
        2,
        b'\n',
        &[
            Step::Feed(b"a"),
            Step::Feed(b"\n"),
            Step::Feed(b"b"),
            Step::Feed(b"\n"),
            Step::Wrote(b""),
            Step::Waits(4),
            Step::Feed(b"c"),
            Step::Wrote(b"a\n"),
            Step::Done(false),
            Step::Close,
            Step::Wrote(b"a\n"),
        ],
    ),
    (
        Side::ButLast,
        Unit::Bytes,
        3,
        b'\n',
        &[
            Step::Feed(b"abcd"),
            Step::Wrote(b"a"),
            Step::Waits(3),
            Step::Feed(b"e"),
            Step::Waits(3),
            Step::Close,
            Step::Wrote(b"ab"),
        ],
    ),
    (
        Side::ButLast,
        Unit::Lines,
        1,
        b'\n',
        &[
            OPEN_LINE,
            Step::Wrote(b"a\n"),
            Step::Close,
            Step::Wrote(b"a\n"),
        ],
    ),
    (
        Side::ButLast,
        Unit::Lines,
        1,
        b'\n',
        &[
            OPEN_LINE,
            Step::Feed(b"c"),
            Step::Close,
            Step::Wrote(b"a\n"),
        ],
    ),
    (
        Side::ButLast,
        Unit::Lines,
        1,
        b'\n',
        &[
            OPEN_LINE,
            Step::Feed(b"\n"),
            Step::Close,
            Step::Wrote(b"a\n"),
        ],
    ),
    (
        Side::ButLast,
        Unit::Lines,
        1,
        b'\n',
        &[
            OPEN_LINE,
            Step::Feed(b"\nc"),
            Step::Close,
            Step::Wrote(b"a\nb\n"),
        ],
    ),
    // The last are written at the end.
    (
        Side::Last,
        Unit::Lines,
        1,
        b'\n',
        &[
            Step::Feed(b"a\nb\nc"),
            Step::Waits(1),
            Step::Done(false),
            Step::Wrote(b""),
            Step::Close,
            Step::Wrote(b"c"),
            Step::CloseFails(Fault::Failed),
        ],
    ),
    (
        Side::Last,
        Unit::Lines,
        2,
        b'\n',
        &[
            THREE_LINES,
            Step::Waits(3),
            Step::Close,
            Step::Wrote(b"b\nc"),
        ],
    ),
    (
        Side::Last,
        Unit::Lines,
        0,
        b'\n',
        &[THREE_LINES, Step::Close, Step::Wrote(b"")],
    ),
    (
        Side::Last,
        Unit::Bytes,
        2,
        b'\n',
        &[
            Step::Feed(b"ab"),
            Step::Waits(2),
            Step::Feed(b"cde"),
            Step::Waits(2),
            Step::Close,
            Step::Wrote(b"de"),
        ],
    ),
    (
        Side::Last,
        Unit::Bytes,
        1,
        b'\n',
        &[Step::Feed(b"ab\n"), Step::Close, Step::Wrote(b"\n")],
    ),
    (
        Side::Last,
        Unit::Bytes,
        3,
        b'\n',
        &[Step::Feed(b"ab"), Step::Close, Step::Wrote(b"ab")],
    ),
    (
        Side::Last,
        Unit::Lines,
        2,
        b',',
        &[COMMAS, Step::Close, Step::Wrote(b"y\n,z")],
    ),
    (
        Side::Last,
        Unit::Lines,
        1,
        b',',
        &[COMMAS, Step::Close, Step::Wrote(b"z")],
    ),
    // All from the nth on are written.
    (
        Side::FromNth,
        Unit::Lines,
        2,
        b'\n',
        &[
            THREE_LINES,
            Step::Wrote(b"b\nc"),
            Step::Close,
            Step::Wrote(b"b\nc"),
        ],
    ),
    (
        Side::FromNth,
        Unit::Lines,
        0,
        b'\n',
        &[THREE_LINES, Step::Close, Step::Wrote(b"a\nb\nc")],
    ),
    (
        Side::FromNth,
        Unit::Bytes,
        3,
        b'\n',
        &[Step::Feed(b"abcde"), Step::Close, Step::Wrote(b"cde")],
    ),
    (
        Side::FromNth,
        Unit::Lines,
        2,
        b',',
        &[COMMAS, Step::Close, Step::Wrote(b"y\n,z")],
    ),
];

/// What follows decides whether the second line is written.
const OPEN_LINE: Step<'static> = Step::Feed(b"a\nb");

const THREE_LINES: Step<'static> = Step::Feed(b"a\nb\nc");

const COMMAS: Step<'static> = Step::Feed(b"x,y\n,z");

/// Takes the steps of a row with an engine of its own.
fn play_row(rt: &impl Abort, alloc: Global, number: usize, row: &Row<'_>) -> Result<(), Fault> {
    let (side, unit, count, delim, steps) = *row;
    let asked = Asked {
        side,
        unit,
        count,
        delim,
    };
    let mut outs = MemOut::new(alloc)?;
    let mut engine = open_ends(alloc, asked)?;
    play(rt, &mut engine, &mut outs, number, steps);
    Ok(())
}
