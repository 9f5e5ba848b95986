//! Heads and tails of inputs that show their bytes: where they begin or end, and what becomes of inputs that give others.

use crate::chunk_tests::CHANGED;
use crate::load_tests::{TEXT, takes_in};
use crate::play::{Step, play};
use ends_core::{Found, Head, Tail, Unit, find_last};
use mem_core::{MemIn, MemOut};
use ports_core::Fault;
use std::alloc::Global;
use std::process::Abort;
use std::test::Fail;

/// Blocks of as many bytes are looked at.
const BLOCK: usize = 4;

/// The last of which unit are looked for, how many, the byte with which lines end, the text that is shown, and how many of its
/// bytes stand before them. An input that shows no text gives none.
type Row<'a> = (Unit, u64, u8, &'a [u8], Option<u64>);

/// Blocks end before the last byte.
const PLACES: &[Row<'static>] = &[
    (Unit::Lines, 0, b'\n', TEXT, Some(30)),
    (Unit::Lines, 1, b'\n', TEXT, Some(27)),
    (Unit::Lines, 3, b'\n', TEXT, Some(21)),
    (Unit::Lines, 9, b'\n', TEXT, Some(3)),
    (Unit::Lines, 10, b'\n', TEXT, Some(0)),
    (Unit::Lines, 11, b'\n', TEXT, Some(0)),
    (Unit::Lines, u64::MAX, b'\n', TEXT, Some(0)),
    // An open last line is one more line.
    (Unit::Lines, 1, b'\n', b"ab\ncd\nef\ngh", Some(9)),
    (Unit::Lines, 2, b'\n', b"ab\ncd\nef\ngh", Some(6)),
    // A newline is the first byte of a block, or the last one.
    (Unit::Lines, 1, b'\n', b"abc\n\nefg", Some(5)),
    (Unit::Lines, 2, b'\n', b"abc\n\nefg", Some(4)),
    (Unit::Lines, 1, b'\n', b"abcd\nefgh\n", Some(5)),
    // All bytes are newlines, or none is.
    (Unit::Lines, 1, b'\n', b"\n\n\n\n\n\n", Some(5)),
    (Unit::Lines, 5, b'\n', b"\n\n\n\n\n\n", Some(1)),
    (Unit::Lines, 6, b'\n', b"\n\n\n\n\n\n", Some(0)),
    (Unit::Lines, 7, b'\n', b"\n\n\n\n\n\n", Some(0)),
    (Unit::Lines, 0, b'\n', b"abcdefghi", Some(9)),
    (Unit::Lines, 1, b'\n', b"abcdefghi", Some(0)),
    (Unit::Lines, 1, b'\n', b"a", Some(0)),
    (Unit::Lines, 1, b'\n', b"\n", Some(0)),
    // Lines end with any byte.
    (Unit::Lines, 1, 0, b"a\0\nb\0\nc\0\nd\0", Some(8)),
    (Unit::Lines, 2, 0, b"a\0\nb\0\nc\0\nd\0", Some(5)),
    (Unit::Lines, 1, b'\n', b"a\0\nb\0\nc\0\nd\0", Some(9)),
    (Unit::Bytes, 0, b'\n', TEXT, Some(30)),
    (Unit::Bytes, 7, b'\n', TEXT, Some(23)),
    (Unit::Bytes, 30, b'\n', TEXT, Some(0)),
    (Unit::Bytes, u64::MAX, b'\n', TEXT, Some(0)),
    (Unit::Lines, 0, b'\n', b"", None),
    (Unit::Lines, 1, b'\n', b"", None),
    (Unit::Bytes, 1, b'\n', b"", None),
];

#[test]
fn the_last_are_found(rt: HostRuntime) -> Result<(), Fail> {
    for (number, row) in PLACES.iter().enumerate() {
        assert!(rt; is_found(rt.alloc(), row)?, "in row {number}");
    }
    Ok(())
}

/// Whether a row's place is found, in what standard input shows.
fn is_found(alloc: Global, row: &Row<'_>) -> Result<bool, Fault> {
    let (unit, count, delim, text, place) = *row;
    let mut inputs = MemIn::new(alloc)?;
    inputs.input_showing(b"", text)?;
    let found = find_last(unit, count, delim, 0, &mut [0u8; BLOCK], &mut inputs);
    Ok(is_at(found, place, text.len()))
}

/// Whether a place was found in a text of this length, or no text was.
fn is_at(found: Option<Found>, place: Option<u64>, len: usize) -> bool {
    match (found, place) {
        (Some(found), Some(place)) => found.place == place && found.len == len as u64,
        (None, None) => true,
        _ => false,
    }
}

/// How many bytes stand before the last ones of what an input showed, and what is done with the head that ends there.
type HeadRow<'a> = (u64, &'a [Step<'a>]);

/// A head is done with the byte before that place, not before it and not later.
const HEADS: &[HeadRow<'static>] = &[
    (
        5,
        &[
            Step::Done(false),
            Step::Feed(b"abcd"),
            Step::Wrote(b"abcd"),
            Step::Waits(0),
            Step::Done(false),
            Step::Feed(b"e"),
            Step::Done(true),
            Step::Close,
            Step::Wrote(b"abcde"),
        ],
    ),
    (
        5,
        &[
            Step::Feed(b"abcdefg"),
            Step::Wrote(b"abcde"),
            Step::Done(true),
            Step::Feed(b"hi"),
            Step::Close,
            Step::Wrote(b"abcde"),
        ],
    ),
    (0, &[Step::Done(true), Step::Close, Step::Wrote(b"")]),
    // The input ends before that place.
    (
        5,
        &[
            Step::Feed(b"abcd"),
            Step::CloseFails(CHANGED),
            Step::Wrote(b"abcd"),
            Step::CloseFails(Fault::Failed),
        ],
    ),
    (1, &[Step::CloseFails(CHANGED), Step::Wrote(b"")]),
];

#[test]
fn heads_end_at_their_place(rt: HostRuntime) -> Result<(), Fail> {
    for (number, row) in HEADS.iter().enumerate() {
        head_row(&rt, rt.alloc(), number, row)?;
    }
    Ok(())
}

fn head_row(rt: &impl Abort, alloc: Global, number: usize, row: &HeadRow<'_>) -> Result<(), Fail> {
    let (place, steps) = *row;
    let mut outs = MemOut::new(alloc)?;
    play(rt, &mut Head::up_to(place), &mut outs, number, steps);
    Ok(())
}

/// How many bytes stand before the tail of what an input shows, the text that it shows and the bytes that it gives, how many of
/// them are passed over, and what is done with the tail after that.
type TailRow<'a> = (u64, &'a [u8], &'a [u8], u64, &'a [Step<'a>]);

const TAILS: &[TailRow<'static>] = &[
    (
        24,
        TEXT,
        TEXT,
        24,
        &[
            Step::Done(false),
            Step::Feed(b"qr\n"),
            Step::Wrote(b"qr\n"),
            Step::Waits(0),
            Step::Feed(b"st\n"),
            Step::Wrote(b"qr\nst\n"),
            Step::Done(true),
            Step::Close,
        ],
    ),
    // No line or byte is wanted: the last byte is read all the same.
    (
        30,
        TEXT,
        TEXT,
        29,
        &[
            Step::Done(false),
            Step::Feed(b"\n"),
            Step::Done(true),
            Step::Close,
            Step::Wrote(b""),
        ],
    ),
    // More comes than was shown: it isn't written.
    (
        24,
        TEXT,
        b"ab\ncd\nef\ngh\nij\nkl\nmn\nop\nqr\nst\nuv\n",
        24,
        &[
            Step::Feed(b"qr\nst\nuv\n"),
            Step::Done(true),
            Step::Close,
            Step::Wrote(b"qr\nst\n"),
        ],
    ),
    // Fewer come.
    (
        24,
        TEXT,
        b"ab\ncd\nef\ngh\nij\nkl\nmn\nop\nqr\n",
        24,
        &[
            Step::Feed(b"qr\n"),
            Step::CloseFails(CHANGED),
            Step::Wrote(b"qr\n"),
            Step::CloseFails(Fault::Failed),
        ],
    ),
    // So few that they can't be passed over.
    (
        24,
        TEXT,
        b"ab\ncd\n",
        0,
        &[
            Step::Feed(b"ab\ncd\n"),
            Step::CloseFails(CHANGED),
            Step::Wrote(b""),
        ],
    ),
    // What one read gives is fed.
    (
        4,
        b"abcdefg",
        b"abcdefg",
        0,
        &[
            Step::Feed(b"ab"),
            Step::Wrote(b""),
            Step::Feed(b"cde"),
            Step::Wrote(b"e"),
            Step::Feed(b"fg"),
            Step::Close,
            Step::Wrote(b"efg"),
        ],
    ),
    (
        0,
        b"ab",
        b"ab",
        0,
        &[Step::Feed(b"ab"), Step::Wrote(b"ab"), Step::Close],
    ),
];

#[test]
fn tails_begin_at_their_place(rt: HostRuntime) -> Result<(), Fail> {
    for (number, row) in TAILS.iter().enumerate() {
        tail_row(&rt, rt.alloc(), number, row)?;
    }
    Ok(())
}

fn tail_row(rt: &impl Abort, alloc: Global, number: usize, row: &TailRow<'_>) -> Result<(), Fail> {
    let (place, shown, bytes, taken, steps) = *row;
    let mut outs = MemOut::new(alloc)?;
    let mut tail = Tail::after(place, shown.len() as u64);
    assert!(rt;
        takes_in(rt, alloc, &mut tail, bytes, shown, taken),
        "in row {number}"
    );
    play(rt, &mut tail, &mut outs, number, steps);
    Ok(())
}
