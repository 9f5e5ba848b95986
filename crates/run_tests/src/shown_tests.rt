//! Whole runs over inputs that show one text before they are read, and then give another. Where a head ends, where a tail begins
//! and how an input is cut into chunks goes by what was shown; what is written is what came.
ghost use Rattle.std.specs.Prelude.{IfOk};
ghost use Rattle.ports_core.specs.Source.{IsFresh};

use crate::left::{
    File, Left, NOTHING, Plan, Run, check_over, differs, planned_inputs, planned_outs,
};
use mem_core::MemIn;
use ports_core::Fault;
use std::alloc::Global;
use std::process::Abort;
use std::test::Fail;
use tools_core::run::run;

/// What `f` shows in the rows: four lines, eight bytes.
const SHOWN: &[u8] = b"a\nb\nc\nd\n";

/// A file after it, which gives what it shows: of its lines and bytes the rows want `1` or `2`.
const NEXT: &[File<'static>] = &[("g", b"1\n2\n")];

/// A run: its words, what `f` gives, where that breaks off, if it does; and what is written to standard output, to files and to
/// standard error. Where something is told, the status is 1.
type Row<'a> = (
    &'a [&'a str],
    &'a [u8],
    &'a [Plan],
    &'a [u8],
    &'a [File<'a>],
    &'a [u8],
);

const HEAD_CHANGED: &[u8] = b"head: 'f': file changed while it was read\n";

const TAIL_CHANGED: &[u8] = b"tail: 'f': file changed while it was read\n";

const SPLIT_CHANGED: &[u8] = b"split: 'f': file changed while it was read\n";

const HEAD_BROKEN: &[u8] = b"head: cannot read 'f'\n";

const TAIL_BROKEN: &[u8] = b"tail: cannot read 'f'\n";

const SPLIT_BROKEN: &[u8] = b"split: cannot read 'f'\n";

#[test]
fn heads_end_where_the_text_did(rt: HostRuntime) -> Result<(), Fail> {
    check_all_changing(&rt, rt.alloc(), SHOWN, HEADS)
}

#[test]
fn tails_begin_where_the_text_did(rt: HostRuntime) -> Result<(), Fail> {
    check_all_changing(&rt, rt.alloc(), SHOWN, TAILS)
}

#[test]
fn chunks_are_those_of_the_length(rt: HostRuntime) -> Result<(), Fail> {
    check_all_changing(&rt, rt.alloc(), SHOWN, CHUNKS)
}

#[test]
fn what_stands_before_one_chunk_is_passed_over(rt: HostRuntime) -> Result<(), Fail> {
    check_all_changing(&rt, rt.alloc(), &[b'x'; 200_000], LONG)
}

#[test]
fn an_empty_text_shows_nothing(rt: HostRuntime) -> Result<(), Fail> {
    check_all_changing(&rt, rt.alloc(), b"", UNSHOWN)
}

/// Heads end where the text did that was shown.
const HEADS: &[Row<'static>] = &[
    // All but the last of four lines are the first six bytes, and of `g` the first line.
    (ALL_BUT_ONE, SHOWN, &[], b"a\nb\nc\n1\n", &[], b""),
    // Three bytes are fewer than six. What came stays, and `g` is still done.
    (ALL_BUT_ONE, b"x\ny", &[], b"x\ny1\n", &[], HEAD_CHANGED),
    (ALL_BUT_ONE, b"", &[], b"1\n", &[], HEAD_CHANGED),
    // Six are all that is read, so it isn't seen that the last two are gone, nor that there are more.
    (ALL_BUT_ONE, b"a\nb\nc\n", &[], b"a\nb\nc\n1\n", &[], b""),
    (
        ALL_BUT_ONE,
        b"a\nb\nc\nd\ne\n",
        &[],
        b"a\nb\nc\n1\n",
        &[],
        b"",
    ),
    // Six bytes, whichever these are.
    (ALL_BUT_ONE, b"vwxyz\n\nA", &[], b"vwxyz\n1\n", &[], b""),
    // It breaks off before byte six, or after it, which isn't seen.
    (
        ALL_BUT_ONE,
        SHOWN,
        &[Plan::Break(1, 4)],
        b"a\nb\n1\n",
        &[],
        HEAD_BROKEN,
    ),
    (
        ALL_BUT_ONE,
        SHOWN,
        &[Plan::Break(1, 6)],
        b"a\nb\nc\n1\n",
        &[],
        b"",
    ),
    // All but the last three of eight bytes are five, and of the four of `g` one.
    (ALL_BUT_THREE, SHOWN, &[], b"a\nb\nc1", &[], b""),
    (ALL_BUT_THREE, b"xyz", &[], b"xyz1", &[], HEAD_CHANGED),
    (ALL_BUT_THREE, b"vwxyz", &[], b"vwxyz1", &[], b""),
    (ALL_BUT_THREE, b"0123456789", &[], b"012341", &[], b""),
    (ALL_BUT_THREE, b"vwxyzABC", &[], b"vwxyz1", &[], b""),
    (
        ALL_BUT_THREE,
        SHOWN,
        &[Plan::Break(1, 2)],
        b"a\n1",
        &[],
        HEAD_BROKEN,
    ),
    // No byte stands before the last nine lines, so none is read.
    (
        &["head", "-q", "-n", "-9", "f", "g"],
        b"",
        &[],
        b"",
        &[],
        b"",
    ),
    (
        &["head", "-q", "-n", "-9", "f", "g"],
        b"x\n",
        &[],
        b"",
        &[],
        b"",
    ),
    // All eight are wanted, and a ninth isn't read.
    (
        &["head", "-c", "-0", "f"],
        b"vwxyzABCD",
        &[],
        b"vwxyzABC",
        &[],
        b"",
    ),
    (
        &["head", "-c", "-0", "f"],
        b"vwxyzAB",
        &[],
        b"vwxyzAB",
        &[],
        HEAD_CHANGED,
    ),
    // The first lines go by what comes.
    (
        &["head", "-n", "1", "f"],
        b"xyz\nA",
        &[],
        b"xyz\n",
        &[],
        b"",
    ),
];

const ALL_BUT_ONE: &[&str] = &["head", "-q", "-n", "-1", "f", "g"];

const ALL_BUT_THREE: &[&str] = &["head", "-q", "-c", "-3", "f", "g"];

/// Tails begin where the text did that was shown.
const TAILS: &[Row<'static>] = &[
    // Before the last of four lines stand six bytes.
    (LAST, SHOWN, &[], b"d\n2\n", &[], b""),
    // With fewer than eight it has changed; what came after the sixth stays, and `g` is still done.
    (LAST, b"a\nb\nc\nd", &[], b"d2\n", &[], TAIL_CHANGED),
    (LAST, b"a\nb", &[], b"2\n", &[], TAIL_CHANGED),
    (LAST, b"", &[], b"2\n", &[], TAIL_CHANGED),
    // Of what is more nothing is written: the eighth byte is the last that was shown.
    (LAST, b"a\nb\nc\nd\ne\n", &[], b"d\n2\n", &[], b""),
    // The seventh byte and the eighth, whichever these are.
    (LAST, b"vwxyz\n\nA", &[], b"\nA2\n", &[], b""),
    // It breaks off after the sixth byte, or before it.
    (LAST, SHOWN, &[Plan::Break(1, 7)], b"d2\n", &[], TAIL_BROKEN),
    (LAST, SHOWN, &[Plan::Break(1, 3)], b"2\n", &[], TAIL_BROKEN),
    // A break after all that was shown isn't met, since nothing is read after it.
    (LAST, SHOWN, &[Plan::Break(1, 8)], b"d\n2\n", &[], b""),
    // Before the last three of eight bytes stand five.
    (LAST_THREE, SHOWN, &[], b"\nd\n\n2\n", &[], b""),
    (LAST_THREE, b"uvwxyz", &[], b"z\n2\n", &[], TAIL_CHANGED),
    (LAST_THREE, b"0123456789", &[], b"567\n2\n", &[], b""),
    (LAST_THREE, b"vwxyzABC", &[], b"ABC\n2\n", &[], b""),
    (
        LAST_THREE,
        SHOWN,
        &[Plan::Break(1, 6)],
        b"\n\n2\n",
        &[],
        TAIL_BROKEN,
    ),
    // No byte stands before the last nine lines, and eight are to come.
    (
        &["tail", "-n", "9", "f"],
        b"vwxyz",
        &[],
        b"vwxyz",
        &[],
        TAIL_CHANGED,
    ),
    (&["tail", "f"], b"vwxyzABC", &[], b"vwxyzABC", &[], b""),
    // All eight stand before the last none.
    (&["tail", "-n", "0", "f"], SHOWN, &[], b"", &[], b""),
    (&["tail", "-n", "0", "f"], b"0123456789", &[], b"", &[], b""),
    (
        &["tail", "-c", "0", "f"],
        b"0123456",
        &[],
        b"",
        &[],
        TAIL_CHANGED,
    ),
    // All from a line on goes by what comes.
    (&["tail", "-n", "+2", "f"], b"xyz\nA", &[], b"A", &[], b""),
];

const LAST: &[&str] = &["tail", "-q", "-n", "1", "f", "g"];

const LAST_THREE: &[&str] = &["tail", "-q", "-c", "3", "f", "g"];

/// Chunks are those of the length that was shown.
const CHUNKS: &[Row<'static>] = &[
    // Three chunks of eight bytes have three, three and two.
    (
        &["split", "-n", "3", "f"],
        SHOWN,
        &[],
        b"",
        &[("xaa", b"a\nb"), ("xab", b"\nc\n"), ("xac", b"d\n")],
        b"",
    ),
    // Five bytes are the first chunk and a part of the second; the third has none, and so no file.
    (
        &["split", "-n", "3", "f"],
        b"vwxyz",
        &[],
        b"",
        &[("xaa", b"vwx"), ("xab", b"yz")],
        SPLIT_CHANGED,
    ),
    (
        &["split", "-n", "3", "f"],
        b"",
        &[],
        b"",
        &[],
        SPLIT_CHANGED,
    ),
    // Two bytes more belong to no chunk.
    (
        &["split", "-n", "3", "f"],
        b"0123456789",
        &[],
        b"",
        &[("xaa", b"012"), ("xab", b"345"), ("xac", b"67")],
        SPLIT_CHANGED,
    ),
    (
        &["split", "-n", "3", "f"],
        b"vwxyzABC",
        &[],
        b"",
        &[("xaa", b"vwx"), ("xab", b"yzA"), ("xac", b"BC")],
        b"",
    ),
    // Four bytes came before it broke off.
    (
        &["split", "-n", "3", "f"],
        SHOWN,
        &[Plan::Break(1, 4)],
        b"",
        &[("xaa", b"a\nb"), ("xab", b"\n")],
        SPLIT_BROKEN,
    ),
    // Of two chunks of eight bytes the second begins after four, and so do its lines.
    (
        &["split", "-n", "l/2", "f"],
        SHOWN,
        &[],
        b"",
        &[("xaa", b"a\nb\n"), ("xab", b"c\nd\n")],
        b"",
    ),
    (
        &["split", "-n", "l/2", "f"],
        b"uvw\nz\n",
        &[],
        b"",
        &[("xaa", b"uvw\n"), ("xab", b"z\n")],
        SPLIT_CHANGED,
    ),
    // The only line begins in the first chunk, and doesn't end.
    (
        &["split", "-n", "l/2", "f"],
        b"uvwxyz",
        &[],
        b"",
        &[("xaa", b"uvwxyz")],
        SPLIT_CHANGED,
    ),
    (
        &["split", "-n", "l/2", "f"],
        b"a\nb\nc\nd\ne\n",
        &[],
        b"",
        &[("xaa", b"a\nb\n"), ("xab", b"c\nd\n")],
        SPLIT_CHANGED,
    ),
    // Its second line begins in the second chunk.
    (
        &["split", "-n", "l/2", "f"],
        b"uvwxyz\nA",
        &[],
        b"",
        &[("xaa", b"uvwxyz\n"), ("xab", b"A")],
        b"",
    ),
    (
        &["split", "-n", "l/2", "f"],
        SHOWN,
        &[Plan::Break(1, 6)],
        b"",
        &[("xaa", b"a\nb\n"), ("xab", b"c\n")],
        SPLIT_BROKEN,
    ),
    // The second of three chunks is the fourth byte to the sixth.
    (&["split", "-n", "2/3", "f"], SHOWN, &[], b"\nc\n", &[], b""),
    (
        &["split", "-n", "2/3", "f"],
        b"vwxyz",
        &[],
        b"yz",
        &[],
        SPLIT_CHANGED,
    ),
    // With the sixth byte it is done, and what comes then isn't seen.
    (
        &["split", "-n", "2/3", "f"],
        b"vwxyzA",
        &[],
        b"yzA",
        &[],
        b"",
    ),
    (
        &["split", "-n", "2/3", "f"],
        b"0123456789",
        &[],
        b"345",
        &[],
        b"",
    ),
    (
        &["split", "-n", "3/3", "f"],
        b"0123456789",
        &[],
        b"67",
        &[],
        b"",
    ),
    (
        &["split", "-n", "2/3", "f"],
        b"vwxyzABC",
        &[],
        b"yzA",
        &[],
        b"",
    ),
    (
        &["split", "-n", "2/3", "f"],
        SHOWN,
        &[Plan::Break(1, 5)],
        b"\nc",
        &[],
        SPLIT_BROKEN,
    ),
    (
        &["split", "-n", "2/3", "f"],
        SHOWN,
        &[Plan::Break(1, 6)],
        b"\nc\n",
        &[],
        b"",
    ),
    // A line that doesn't end could go on, so the first chunk isn't done with it.
    (
        &["split", "-n", "l/1/2", "f"],
        b"uvwxyz",
        &[],
        b"uvwxyz",
        &[],
        SPLIT_CHANGED,
    ),
    // Other ways to split go by what comes.
    (
        &["split", "-b", "4", "f"],
        b"vwxyz",
        &[],
        b"",
        &[("xaa", b"vwxy"), ("xab", b"z")],
        b"",
    ),
];

/// What stands before one chunk is passed over, of texts that are longer than a read.
const LONG: &[Row<'static>] = &[
    (
        &["split", "-n", "2/2", "f"],
        &[b'x'; 200_000],
        &[],
        &[b'x'; 100_000],
        &[],
        b"",
    ),
    // Each byte is a line, or there is one alone, which begins in the first chunk.
    (
        &["split", "-n", "l/2/2", "-t", "x", "f"],
        &[b'x'; 200_000],
        &[],
        &[b'x'; 100_000],
        &[],
        b"",
    ),
    (
        &["split", "-n", "l/2/2", "f"],
        &[b'x'; 200_000],
        &[],
        b"",
        &[],
        b"",
    ),
    (
        &["split", "-n", "l/2/2", "-t", "x", "f"],
        &[b'x'; 150_000],
        &[],
        &[b'x'; 50_000],
        &[],
        SPLIT_CHANGED,
    ),
    // It gives fewer bytes than are passed over.
    (
        &["split", "-n", "l/2/2", "-t", "x", "f"],
        b"xx",
        &[],
        b"",
        &[],
        SPLIT_CHANGED,
    ),
];

/// An empty text shows nothing, as from a pipe.
const UNSHOWN: &[Row<'static>] = &[
    (ALL_BUT_ONE, b"x\ny\n", &[], b"x\n1\n", &[], b""),
    (LAST, b"x\ny\n", &[], b"y\n2\n", &[], b""),
    (
        &["split", "-n", "2", "f"],
        b"xy",
        &[],
        b"",
        &[("xaa", b"x"), ("xab", b"y")],
        b"",
    ),
];

fn check_all_changing(
    rt: &impl Abort,
    alloc: Global,
    shown: &[u8],
    rows: &[Row<'_>],
) -> Result<(), Fail> {
    for row in rows {
        check_changing(rt, alloc, shown, row)?;
    }
    Ok(())
}

/// Runs the words over `f`, which shows this text, and `g`: once where reads give all there is, and once byte by byte.
fn check_changing(
    rt: &impl Abort,
    alloc: Global,
    shown: &[u8],
    row: &Row<'_>,
) -> Result<(), Fault> {
    let run = Run {
        words: row.0,
        files: NEXT,
        input: b"",
        plans: row.2,
        left: Left {
            output: row.3,
            files: row.4,
            removed: &[],
            messages: row.5,
            status: u8::from(!row.5.is_empty()),
        },
    };
    let inputs = changing(alloc, &run, shown, row.1)?;
    check_over(rt, alloc, &run, inputs)?;
    let mut inputs = changing(alloc, &run, shown, row.1)?;
    inputs.pieces(1);
    check_over(rt, alloc, &run, inputs)
}

/// Inputs as they are planned, among them `f`, which shows one text and gives another.
fn changing(alloc: Global, run: &Run<'_>, shown: &[u8], bytes: &[u8]) -> Result<MemIn, Fault>
    ensures { IfOk result (λ inputs. IsFresh inputs.sources) }
{
    let mut inputs = planned_inputs(alloc, run)?;
    inputs.file_showing("f", bytes, shown)?;
    Ok(inputs)
}

/// Words, what standard input gives, what of it is written, what is left to read, and what is told.
type Taking<'a> = (&'a [&'a str], &'a [u8], &'a [u8], &'a [u8], &'a [u8]);

#[test]
fn standard_input_is_read_to_the_place(rt: HostRuntime) -> Result<(), Fail> {
    for row in TAKEN {
        check_taken(&rt, rt.alloc(), row, 1)?;
        check_taken(&rt, rt.alloc(), row, 64)?;
    }
    Ok(())
}

const TAKEN: &[Taking<'static>] = &[
    // All but the last three of the eight bytes that it shows are five. No more is taken, whatever stands there.
    (&["head", "-c", "-3"], SHOWN, b"a\nb\nc", b"\nd\n", b""),
    (
        &["head", "-c", "-3"],
        b"0123456789",
        b"01234",
        b"56789",
        b"",
    ),
    (&["head", "-c", "-3"], b"vwxyz", b"vwxyz", b"", b""),
    // Two are fewer.
    (
        &["head", "-c", "-3"],
        b"xy",
        b"xy",
        b"",
        b"head: 'standard input': file changed while it was read\n",
    ),
    (&["head", "-n", "-1"], SHOWN, b"a\nb\nc\n", b"d\n", b""),
    (&["head", "-n", "-9"], SHOWN, b"", SHOWN, b""),
    // The other ways read on: a tail to the end of what was shown, and a head of one line to where that ends.
    (&["tail", "-c", "3"], SHOWN, b"\nd\n", b"", b""),
    // What comes after that is left.
    (&["tail", "-c", "3"], b"0123456789", b"567", b"89", b""),
    (&["head", "-n", "1"], SHOWN, b"a\n", b"b\nc\nd\n", b""),
    // One chunk ends with its last byte.
    (&["split", "-n", "2/3"], SHOWN, b"\nc\n", b"d\n", b""),
];

/// Runs the words over standard input, which shows a text and comes by this many bytes at once.
fn check_taken(
    rt: &impl Abort,
    alloc: Global,
    row: &Taking<'_>,
    pieces: usize,
) -> Result<(), Fault> {
    let mut inputs = MemIn::new(alloc)?;
    inputs.input_showing(row.1, SHOWN)?;
    inputs.pieces(pieces.max(1));
    let mut outs = planned_outs(alloc, &[])?;
    let status = run(alloc, row.0, &mut inputs, &mut outs);
    let left = Left {
        output: row.2,
        messages: row.4,
        status: u8::from(!row.4.is_empty()),
        ..NOTHING
    };
    let other = differs(&outs, status, &left);
    assert!(rt;
        other.is_empty() && inputs.unread(0) == row.3,
        "{other} of {:?}",
        row.0
    );
    Ok(())
}
