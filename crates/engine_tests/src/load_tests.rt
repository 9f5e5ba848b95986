//! What stands before a tail that counts from the front, or before one chunk, is passed over, in texts that are longer than a
//! read.
ghost use Rattle.std.specs.Prelude.{[], List};
ghost use Rattle.engine_core.specs.EngineState.{HoldsIn};
ghost use Rattle.ports_core.specs.Slot.{Slot};

use crate::chunk_tests::{CHANGED, LINES as LINES_OF_THREE, THREE, open as open_chunks};
use crate::play::{Step, play};
use ends_core::{Tail, Unit};
use engine_core::{Engine, Stage, Tells};
use mem_core::{MemIn, MemOut};
use ports_core::Inputs;
use split_core::{Chunks, Way};
use std::alloc::Global;
use std::process::Abort;
use std::test::Fail;

/// As many bytes as one read may give.
const MOST: usize = 4;

/// More bytes than any of the texts has.
const ROOM: usize = 64;

/// From which unit on all is wanted, from which number, the input's text, how many bytes of it are passed over, and what is done
/// with the tail after that.
type Row<'a> = (Unit, u64, &'a [u8], u64, &'a [Step<'a>]);

/// Ten lines.
pub(crate) const TEXT: &[u8] = b"ab\ncd\nef\ngh\nij\nkl\nmn\nop\nqr\nst\n";

#[test]
fn front_bytes_are_passed_over(rt: HostRuntime) -> Result<(), Fail> {
    for (number, row) in FRONTS.iter().enumerate() {
        load_row(&rt, rt.alloc(), number, row)?;
    }
    Ok(())
}

const FRONTS: &[Row<'static>] = &[
    (
        Unit::Bytes,
        25,
        TEXT,
        24,
        &[
            Step::Feed(b"qr\nst\n"),
            Step::Wrote(b"qr\nst\n"),
            Step::Close,
        ],
    ),
    (
        Unit::Bytes,
        31,
        TEXT,
        30,
        &[Step::Feed(b"u"), Step::Wrote(b"u"), Step::Close],
    ),
    (
        Unit::Bytes,
        33,
        TEXT,
        30,
        &[Step::Feed(b"uvw"), Step::Wrote(b"w"), Step::Close],
    ),
    (
        Unit::Bytes,
        u64::MAX,
        TEXT,
        30,
        &[Step::Feed(b"u"), Step::Wrote(b""), Step::Close],
    ),
    // What one read gives is fed.
    (
        Unit::Bytes,
        5,
        TEXT,
        0,
        &[Step::Feed(b"abcde"), Step::Wrote(b"e"), Step::Close],
    ),
    // Lines are counted as they come.
    (
        Unit::Lines,
        9,
        TEXT,
        0,
        &[Step::Feed(TEXT), Step::Wrote(b"qr\nst\n"), Step::Close],
    ),
];

fn load_row(rt: &impl Abort, alloc: Global, number: usize, row: &Row<'_>) -> Result<(), Fail> {
    let (unit, count, text, taken, steps) = *row;
    let mut outs = MemOut::new(alloc)?;
    let mut tail = Tail::open(alloc, unit, true, count, b'\n').expect(rt, "it takes no memory");
    assert!(rt;
        takes_in(rt, alloc, &mut tail, text, text, taken),
        "in row {number}"
    );
    play(rt, &mut tail, &mut outs, number, steps);
    Ok(())
}

/// Whether an engine takes in this many bytes of a file with these bytes that shows this text, and reads give the others.
pub(crate) fn takes_in<S: Stage>(
    rt: &impl Abort,
    alloc: Global,
    engine: &mut Engine<S>,
    bytes: &[u8],
    shown: &[u8],
    taken: u64,
) -> bool
    requires { HoldsIn S.terms.Holds engine.old [] }
    ensures { (slots : List Slot) → S.terms.Ready engine.old.stage slots → S.terms.Ready engine.new.stage slots }
{
    let mut inputs = MemIn::new(alloc).expect(rt, "there is memory");
    inputs
        .file_showing("f", bytes, shown)
        .expect(rt, "there is memory");
    let slot = inputs.open("f").expect(rt, "there is memory");
    let is_taken = engine.load(slot, MOST, &mut inputs) == taken;
    let left = inputs.read(slot, &mut [0u8; ROOM]).unwrap_or(ROOM);
    is_taken && taken.saturating_add(left as u64) == bytes.len() as u64
}

const LINES_OF_TEN: Chunks = Chunks {
    count: 10,
    ..LINES_OF_THREE
};

const LINES_OF_FORTY: Chunks = Chunks {
    count: 40,
    ..LINES_OF_THREE
};

/// 30 bytes, of which the first line has 26.
const LONG_LINE: &[u8] = b"abcdefghijklmnopqrstuvwxy\n1234";

/// What becomes of an input, how long it says that it is (0: it doesn't say), its text, how many bytes of it are passed over,
/// and what is done with the splitter after that.
type ChunkRow<'a> = (Way, u64, &'a [u8], u64, &'a [Step<'a>]);

#[test]
fn what_stands_before_a_chunk_is_passed_over(rt: HostRuntime) -> Result<(), Fail> {
    for (number, row) in CHUNKS.iter().enumerate() {
        pass_row(&rt, rt.alloc(), number, row)?;
    }
    Ok(())
}

/// Chunks of 30 bytes have 10 each.
const CHUNKS: &[ChunkRow<'static>] = &[
    (
        Way::Chunk(1, THREE),
        30,
        TEXT,
        10,
        &[
            Step::Done(false),
            Step::Feed(b"h\nij\nkl\nm"),
            Step::Done(false),
            Step::Feed(b"n\nop"),
            Step::Done(true),
            Step::Close,
            Step::Wrote(b"h\nij\nkl\nmn"),
        ],
    ),
    (
        Way::Chunk(2, THREE),
        30,
        TEXT,
        20,
        &[
            Step::Feed(b"\nop\nqr\nst\n"),
            Step::Wrote(b"\nop\nqr\nst\n"),
            Step::Done(true),
            Step::Close,
        ],
    ),
    // The input ends before it has all bytes that it said.
    (
        Way::Chunk(2, THREE),
        30,
        TEXT,
        20,
        &[
            Step::Feed(b"\nop"),
            Step::CloseFails(CHANGED),
            Step::Wrote(b"\nop"),
        ],
    ),
    // It has more than it said, and they are cut as it said.
    (
        Way::Chunk(2, THREE),
        15,
        TEXT,
        10,
        &[
            Step::Feed(b"h\nij\nkl"),
            Step::Wrote(b"h\nij\n"),
            Step::Done(true),
            Step::Close,
        ],
    ),
    // It has fewer than stand before the chunk.
    (
        Way::Chunk(2, THREE),
        60,
        TEXT,
        0,
        &[
            Step::Feed(TEXT),
            Step::CloseFails(CHANGED),
            Step::Wrote(b""),
        ],
    ),
    // Nothing stands before the first chunk, and what one read gives is fed.
    (
        Way::Chunk(0, THREE),
        30,
        TEXT,
        0,
        &[Step::Feed(TEXT), Step::Wrote(b"ab\ncd\nef\ng"), Step::Close],
    ),
    (
        Way::Chunk(2, THREE),
        6,
        b"abcdef",
        0,
        &[Step::Feed(b"abcdef"), Step::Wrote(b"ef"), Step::Close],
    ),
    // The last chunk is empty.
    (
        Way::Chunk(2, THREE),
        2,
        b"ab",
        0,
        &[Step::Feed(b"ab"), Step::Wrote(b""), Step::Close],
    ),
    // Where the length isn't said, more may stand before the chunk.
    (
        Way::Chunk(2, THREE),
        0,
        TEXT,
        0,
        &[
            Step::Feed(TEXT),
            Step::Close,
            Step::Wrote(b"\nop\nqr\nst\n"),
        ],
    ),
    // Of lines all is passed over but the byte before the chunk, which may end a line or not.
    (
        Way::Chunk(2, LINES_OF_THREE),
        30,
        TEXT,
        19,
        &[
            Step::Feed(b"n"),
            Step::Done(false),
            Step::Feed(b"\nop\nqr\nst\n"),
            Step::Wrote(b"op\nqr\nst\n"),
            Step::Done(true),
            Step::Close,
        ],
    ),
    (
        Way::Chunk(4, LINES_OF_TEN),
        30,
        TEXT,
        11,
        &[
            Step::Feed(b"\ni"),
            Step::Wrote(b"i"),
            Step::Feed(b"j\n"),
            Step::Wrote(b"ij\n"),
            Step::Done(true),
            Step::Close,
        ],
    ),
    (
        Way::Chunk(
            2,
            Chunks {
                delim: b'n',
                ..LINES_OF_THREE
            },
        ),
        30,
        TEXT,
        19,
        &[
            Step::Feed(b"n\nop\nqr\nst\n"),
            Step::Wrote(b"\nop\nqr\nst\n"),
            Step::Close,
        ],
    ),
    (
        Way::Chunk(2, LINES_OF_THREE),
        12,
        b"\n\n\n\n\n\n\n\n\n\n\n\n",
        7,
        &[
            Step::Feed(b"\n\n\n\n\n"),
            Step::Wrote(b"\n\n\n\n"),
            Step::Done(true),
        ],
    ),
    // A line goes on over the second chunk, which has none, into the third. The last one has no newline.
    (
        Way::Chunk(1, LINES_OF_THREE),
        30,
        LONG_LINE,
        9,
        &[
            Step::Feed(b"jklmnopqrst"),
            Step::Done(false),
            Step::Feed(b"uvwxy"),
            Step::Done(false),
            Step::Feed(b"\n"),
            Step::Done(true),
            Step::Close,
            Step::Wrote(b""),
        ],
    ),
    (
        Way::Chunk(2, LINES_OF_THREE),
        30,
        LONG_LINE,
        19,
        &[
            Step::Feed(b"tuvwxy\n1234"),
            Step::Wrote(b"1234"),
            Step::Done(true),
            Step::Close,
        ],
    ),
    // More chunks than bytes: one that has a byte and a line, one that has a byte alone, and one that has none.
    (
        Way::Chunk(27, LINES_OF_FORTY),
        30,
        TEXT,
        26,
        &[
            Step::Feed(b"\n"),
            Step::Done(false),
            Step::Feed(b"st\n"),
            Step::Wrote(b"st\n"),
            Step::Done(true),
        ],
    ),
    (
        Way::Chunk(29, LINES_OF_FORTY),
        30,
        TEXT,
        28,
        &[Step::Feed(b"t\n"), Step::Done(true), Step::Wrote(b"")],
    ),
    (
        Way::Chunk(35, LINES_OF_FORTY),
        30,
        TEXT,
        29,
        &[
            Step::Done(false),
            Step::Feed(b"\n"),
            Step::Done(true),
            Step::Close,
            Step::Wrote(b""),
        ],
    ),
    // Fewer bytes than were said, and more.
    (
        Way::Chunk(2, LINES_OF_THREE),
        30,
        TEXT,
        19,
        &[
            Step::Feed(b"n\nop"),
            Step::CloseFails(CHANGED),
            Step::Wrote(b"op"),
        ],
    ),
    (
        Way::Chunk(2, LINES_OF_THREE),
        15,
        TEXT,
        9,
        &[
            Step::Feed(b"gh\nij\nkl"),
            Step::Wrote(b"ij\n"),
            Step::Done(true),
            Step::Close,
        ],
    ),
    // Nothing stands before the first chunk, and what one read gives is fed.
    (
        Way::Chunk(0, LINES_OF_THREE),
        30,
        TEXT,
        0,
        &[
            Step::Feed(TEXT),
            Step::Wrote(b"ab\ncd\nef\ngh\n"),
            Step::Close,
        ],
    ),
    (
        Way::Chunk(1, LINES_OF_THREE),
        15,
        TEXT,
        0,
        &[Step::Feed(TEXT), Step::Wrote(b"ef\ngh\n"), Step::Close],
    ),
    // Where all are written, and where lines are dealt, nothing is passed over.
    (
        Way::Chunks(THREE),
        30,
        TEXT,
        0,
        &[
            Step::Feed(TEXT),
            Step::Files(&[b"ab\ncd\nef\ng", b"h\nij\nkl\nmn", b"\nop\nqr\nst\n"]),
            Step::Close,
        ],
    ),
    (
        Way::Turn(1, 3, b'\n'),
        30,
        TEXT,
        0,
        &[Step::Feed(b"ab\ncd\n"), Step::Wrote(b"cd\n"), Step::Close],
    ),
];

fn pass_row(rt: &impl Abort, alloc: Global, number: usize, row: &ChunkRow<'_>) -> Result<(), Fail> {
    let (way, said, text, taken, steps) = *row;
    let mut outs = MemOut::new(alloc)?;
    let mut splitter = open_chunks(alloc, way, said, false, Tells::Nothing, &mut outs).expect(
        rt,
        "there is memory",
    );
    assert!(rt;
        takes_in(rt, alloc, &mut splitter, text, text, taken),
        "in row {number}"
    );
    play(rt, &mut splitter, &mut outs, number, steps);
    Ok(())
}
