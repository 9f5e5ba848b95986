//! Cutting into parts that follow one another: what each file gets, row by row, and each short text, cut into
//! pieces in each way, beside the plain program.
ghost use Rattle.std.specs.Prelude.{◌≡◌, ◌≤◌, false, length, IfOk};
ghost use Rattle.split_core.specs.Ways.{Ready};

use crate::part_plain::plain_parts;
use crate::play::{Step, close, feed, has_files, open_splitter, play};
use crate::test_texts::{DELIMITERS, Short, pieces_of, short_texts};
use engine_core::Engine;
use mem_core::MemOut;
use ports_core::{Alphabet, Fault, Naming, Numbering, Outs, Verdict};
use split_core::{Cut, Limit, Splitter};
use std::alloc::Global;
use std::process::Abort;
use std::test::Fail;

/// Where a text is cut, and the steps with an engine that does so. Its files are xaa, xab and so on.
type Row<'a> = (Limit, &'a [Step<'a>]);

/// A text with a line that no file of four bytes takes whole.
const LONG_LINE: &[u8] = b"b\naaaaaaaaaa\nc\n";

#[test]
fn writes_what_each_row_says(rt: HostRuntime) -> Result<(), Fail> {
    for (number, row) in ROWS.iter().enumerate() {
        play_row(&rt, rt.alloc(), number, row)?;
    }
    Ok(())
}

const ROWS: &[Row<'static>] = &[
    // An input is cut into files.
    (
        Limit::Lines(2, b'\n'),
        &[
            Step::Feed(b"a\nb\nc"),
            Step::Close,
            Step::Files(&[b"a\nb\n", b"c"]),
        ],
    ),
    (
        Limit::Lines(2, b'\n'),
        &[Step::Feed(b""), Step::Close, Step::Files(&[])],
    ),
    (
        Limit::Bytes(2),
        &[Step::Feed(b""), Step::Close, Step::Files(&[])],
    ),
    (
        Limit::LineBytes(2, b'\n'),
        &[Step::Feed(b""), Step::Close, Step::Files(&[])],
    ),
    (
        Limit::Lines(3, b'\n'),
        &[
            Step::Feed(b"a\nb\nc\nd"),
            Step::Close,
            Step::Files(&[b"a\nb\nc\n", b"d"]),
        ],
    ),
    (
        Limit::Bytes(4),
        &[
            Step::Feed(b"abcdefghij"),
            Step::Close,
            Step::Files(&[b"abcd", b"efgh", b"ij"]),
        ],
    ),
    (
        Limit::LineBytes(4, b'\n'),
        &[
            Step::Feed(b"a\nbc"),
            Step::Close,
            Step::Files(&[b"a\n", b"bc"]),
        ],
    ),
    (
        Limit::LineBytes(5, b'\n'),
        &[Step::Feed(b"a\nbc"), Step::Close, Step::Files(&[b"a\nbc"])],
    ),
    (
        Limit::LineBytes(4, b'\n'),
        &[
            Step::Feed(LONG_LINE),
            Step::Close,
            Step::Files(&[b"b\n", b"aaaa", b"aaaa", b"aa\n", b"c\n"]),
            Step::Name(2, "xaa"),
            Step::Name(6, "xae"),
            Step::Wrote(b""),
        ],
    ),
    (
        Limit::Lines(1, b','),
        &[
            Step::Feed(b"a,b,c"),
            Step::Close,
            Step::Files(&[b"a,", b"b,", b"c"]),
        ],
    ),
    (
        Limit::LineBytes(4, b':'),
        &[
            Step::Feed(b"b:aaaaa:c:"),
            Step::Close,
            Step::Files(&[b"b:", b"aaaa", b"a:c:"]),
        ],
    ),
    // What follows decides where an open line goes.
    (
        Limit::LineBytes(4, b'\n'),
        &[
            OPEN_LINE,
            Step::Waits(1),
            Step::Files(&[b"a\n"]),
            Step::Feed(b"c"),
            Step::Waits(0),
            Step::Files(&[b"a\n", b"bc"]),
            Step::Close,
            Step::Files(&[b"a\n", b"bc"]),
        ],
    ),
    (
        Limit::LineBytes(4, b'\n'),
        &[
            OPEN_LINE,
            Step::Feed(b"\n"),
            Step::Close,
            Step::Files(&[b"a\nb\n"]),
        ],
    ),
    (
        Limit::LineBytes(4, b'\n'),
        &[OPEN_LINE, Step::Close, Step::Files(&[b"a\nb"])],
    ),
    (
        Limit::LineBytes(4, b'\n'),
        &[Step::Feed(b"aa"), NONE_WAITS, Step::Files(&[b"aa"])],
    ),
    (
        Limit::Lines(2, b'\n'),
        &[OPEN_LINE, NONE_WAITS, Step::Files(&[b"a\nb"])],
    ),
    (
        Limit::Bytes(4),
        &[
            OPEN_LINE,
            NONE_WAITS,
            Step::Files(&[b"a\nb"]),
            Step::Done(false),
        ],
    ),
    (
        Limit::Lines(2, b'\n'),
        &[
            Step::Feed(b""),
            NONE_WAITS,
            Step::Files(&[]),
            Step::Done(false),
        ],
    ),
    // A file is opened with its first byte.
    (
        Limit::Bytes(2),
        &[
            Step::Feed(b""),
            Step::Files(&[]),
            Step::Feed(b"ab"),
            Step::Files(&[b"ab"]),
            Step::Feed(b"c"),
            Step::Files(&[b"ab", b"c"]),
        ],
    ),
    // It stops at a broken file.
    (
        Limit::Lines(1, b'\n'),
        &[
            Step::Limit(2, 1),
            Step::FeedFails(b"ab\ncd\n", Fault::Write(2)),
            Step::Broken(2),
            Step::Files(&[b"a"]),
            Step::FeedFails(b"ef\n", Fault::Failed),
            Step::CloseFails(Fault::Failed),
            Step::Files(&[b"a"]),
        ],
    ),
    (
        Limit::Lines(2, b'\n'),
        &[
            Step::Feed(b"a"),
            Step::FailAt(1),
            Step::CloseFails(Fault::Write(2)),
            Step::Files(&[b"a"]),
        ],
    ),
    (
        Limit::Lines(2, b'\n'),
        &[
            Step::Feed(b"a"),
            Step::Close,
            Step::FeedFails(b"b", Fault::Failed),
            Step::CloseFails(Fault::Failed),
            Step::Files(&[b"a"]),
        ],
    ),
    // A file is closed before the next one is opened. A line of the first file takes an open, a write and a close; the next
    // file is opened after these.
    (
        Limit::Lines(1, b'\n'),
        &[
            Step::FailAt(1),
            Step::FeedFails(TWO_LINES, Fault::Open(2)),
            Step::Files(&[b""]),
            AFTER,
            Step::Files(&[b""]),
        ],
    ),
    (
        Limit::Lines(1, b'\n'),
        &[
            Step::FailAt(2),
            Step::FeedFails(TWO_LINES, Fault::Write(2)),
            Step::Files(&[b""]),
            AFTER,
            Step::Files(&[b""]),
        ],
    ),
    (
        Limit::Lines(1, b'\n'),
        &[
            Step::FailAt(3),
            Step::FeedFails(TWO_LINES, Fault::Write(2)),
            Step::Files(&[b"a\n"]),
            AFTER,
            Step::CloseFails(Fault::Failed),
            Step::Files(&[b"a\n"]),
        ],
    ),
    (
        Limit::Lines(1, b'\n'),
        &[
            Step::FailAt(4),
            Step::FeedFails(TWO_LINES, Fault::Open(3)),
            Step::Files(&[b"a\n", b""]),
            AFTER,
            Step::CloseFails(Fault::Failed),
            Step::Files(&[b"a\n", b""]),
        ],
    ),
];

#[test]
fn cuts_pieces_as_it_cuts_the_whole(rt: HostRuntime) -> Result<(), Fail> {
    let files: [&[u8]; 5] = [b"b\n", b"aaaa", b"aaaa", b"aa\n", b"c\n"];
    let mut outs = MemOut::new(rt.alloc())?;
    outs.short(1);
    let limit = Limit::LineBytes(4, b'\n');
    let bytes = pieces_of(rt.alloc(), LONG_LINE, u32::MAX)?;
    assert!(rt; agrees_in_pieces(rt.alloc(), limit, &bytes, &files, &mut outs)?);
    Ok(())
}

const OPEN_LINE: Step<'static> = Step::Feed(b"a\nb");

const NONE_WAITS: Step<'static> = Step::Waits(0);

const TWO_LINES: &[u8] = b"a\nb\n";

const AFTER: Step<'static> = Step::FeedFails(b"c", Fault::Failed);

/// Takes the steps of a row with an engine of its own.
fn play_row(rt: &impl Abort, alloc: Global, number: usize, row: &Row<'_>) -> Result<(), Fault> {
    let (limit, steps) = *row;
    let mut outs = MemOut::new(alloc)?;
    let mut splitter = open(alloc, limit, &mut outs)?;
    play(rt, &mut splitter, &mut outs, number, steps);
    Ok(())
}

/// The cut, the alphabet, width and widening of the names, and the steps with an engine.
type NamesRow<'a> = (Cut, Alphabet, bool, &'a [Step<'a>]);

#[test]
fn ends_where_no_name_is_left(rt: HostRuntime) -> Result<(), Fail> {
    for (number, row) in NAMES.iter().enumerate() {
        play_names(&rt, rt.alloc(), number, row)?;
    }
    Ok(())
}

const NAMES: &[NamesRow<'static>] = &[
    (
        Cut::Parts(Limit::Bytes(1)),
        Alphabet::Digits,
        false,
        &[
            Step::Feed(b"0123456789"),
            TEN_FILES,
            Step::Name(2, "x0"),
            Step::Name(11, "x9"),
            Step::FeedFails(b"A", Fault::Verdict(Verdict::Suffixes)),
            TEN_FILES,
            Step::FeedFails(b"B", Fault::Failed),
            Step::CloseFails(Fault::Failed),
            TEN_FILES,
        ],
    ),
    (
        Cut::Parts(Limit::Bytes(1)),
        Alphabet::Digits,
        false,
        &[Step::Feed(b"0123456789"), Step::Close, TEN_FILES],
    ),
    (
        Cut::Parts(Limit::Lines(1, b'\n')),
        Alphabet::Letters,
        true,
        &[
            Step::Feed(&[b'\n'; 651]),
            Step::Close,
            Step::Name(651, "xyz"),
            Step::Name(652, "xzaaa"),
            Step::Name(653, ""),
        ],
    ),
    (
        Cut::Parts(Limit::Lines(1, b'\n')),
        Alphabet::Digits,
        true,
        &[
            Step::Feed(&[b'\n'; 91]),
            Step::Close,
            Step::Name(91, "x89"),
            Step::Name(92, "x9000"),
            Step::Name(93, ""),
        ],
    ),
];

const TEN_FILES: Step<'static> = Step::Files(&[
    b"0", b"1", b"2", b"3", b"4", b"5", b"6", b"7", b"8", b"9",
]);

/// Takes the steps with an engine whose names are one character long, or widen from two.
fn play_names(
    rt: &impl Abort,
    alloc: Global,
    number: usize,
    row: &NamesRow<'_>,
) -> Result<(), Fault> {
    let (cut, alphabet, auto, steps) = *row;
    let numbering = if auto {
        Numbering::Widening(alphabet, 2)
    } else {
        Numbering::Fixed(alphabet, 1, 0)
    };
    let mut outs = MemOut::new(alloc)?;
    let naming = Naming::new(alloc, "x", numbering, "")?;
    let mut splitter = open_with(alloc, cut, naming, &mut outs)?;
    play(rt, &mut splitter, &mut outs, number, steps);
    Ok(())
}

/// A splitter of parts that follow one another, with these names.
fn open_with(
    alloc: Global,
    cut: Cut,
    naming: Naming,
    outs: &mut MemOut,
) -> Result<Engine<Splitter>, Fault>
    requires streams { 2 ≤ length outs.old }
    ensures { IfOk result (λ splitter. Ready splitter.stage outs.new) }
{
    match cut {
        Cut::Parts(limit) if limit.most() > 0 => open_splitter(alloc, cut, naming, false, outs),
        _ => Err(Fault::Failed),
    }
}

/// A splitter whose files have the names xaa, xab and so on.
fn open(alloc: Global, limit: Limit, outs: &mut MemOut) -> Result<Engine<Splitter>, Fault>
    requires { 2 ≤ length outs.old }
    ensures { IfOk result (λ splitter. Ready splitter.stage outs.new) }
{
    if limit.most() == 0 {
        return Err(Fault::Failed);
    }
    let naming = Naming::new(alloc, "x", Numbering::Widening(Alphabet::Letters, 2), "")?;
    open_splitter(alloc, Cut::Parts(limit), naming, false, outs)
}

/// What the number of a limit counts.
#[derive(Clone, Copy)]
enum Kind {
    Lines,
    Bytes,
    LineBytes,
}

impl Kind {
    fn limit(self, most: u64, delim: u8) -> Limit {
        match self {
            Kind::Lines => Limit::Lines(most, delim),
            Kind::Bytes => Limit::Bytes(most),
            Kind::LineBytes => Limit::LineBytes(most, delim),
        }
    }
}

#[test]
fn cuts_lines_as_the_plain_program(rt: HostRuntime) -> Result<(), Fail> {
    agree(&rt, rt.alloc(), Kind::Lines)
}

#[test]
fn cuts_bytes_as_the_plain_program(rt: HostRuntime) -> Result<(), Fail> {
    agree(&rt, rt.alloc(), Kind::Bytes)
}

#[test]
fn cuts_whole_lines_as_the_plain_program(rt: HostRuntime) -> Result<(), Fail> {
    agree(&rt, rt.alloc(), Kind::LineBytes)
}

fn agree(rt: &impl Abort, alloc: Global, kind: Kind) -> Result<(), Fail> {
    for delim in DELIMITERS {
        for short in short_texts(alloc, delim)? {
            assert!(rt;
                agrees_on_short(alloc, kind, delim, &short)?,
                "on {:?}, ended with {delim}",
                short.text()
            );
        }
    }
    Ok(())
}

/// Whether the engine agrees with the plain program on a text, under each limit and in each way to cut it.
fn agrees_on_short(alloc: Global, kind: Kind, delim: u8, short: &Short) -> Result<bool, Fault> {
    let cuttings = short.cuttings(alloc)?;
    for most in 1..5 {
        let limit = kind.limit(most, delim);
        let files = plain_parts(alloc, limit, short.text())?;
        for pieces in &cuttings {
            if !agrees_in_pieces(alloc, limit, pieces, &files, &mut MemOut::new(alloc)?)? {
                return Ok(false);
            }
        }
    }
    Ok(true)
}

/// Whether after each piece what came in is in these files, but for what waits, and at the end all of it.
fn agrees_in_pieces(
    alloc: Global,
    limit: Limit,
    pieces: &[&[u8]],
    files: &[&[u8]],
    outs: &mut MemOut,
) -> Result<bool, Fault>
    requires { 2 ≤ length outs.old }
{
    let mut splitter = open(alloc, limit, outs)?;
    fills(&mut splitter, outs, pieces, files)
}

fn fills(
    splitter: &mut Engine<Splitter>,
    outs: &mut MemOut,
    pieces: &[&[u8]],
    files: &[&[u8]],
) -> Result<bool, Fault>
    requires { splitter.old.is_over ≡ false → Ready splitter.old.stage outs.old }
{
    let mut size = 0usize;
    for piece in pieces {
        feed(splitter, outs, piece)?;
        size = size.saturating_add(piece.len());
        if !has_begun(outs, files, size.saturating_sub(splitter.held() as usize)) {
            return Ok(false);
        }
    }
    close(splitter, outs)?;
    Ok(has_files(outs, files))
}

/// Whether the files have `out` bytes in all, and each has the beginning of what it is to get.
fn has_begun(outs: &MemOut, files: &[&[u8]], out: usize) -> bool {
    let mut slot = 2usize;
    let mut left = out;
    for file in files {
        if left == 0 {
            break;
        }
        let size = left.min(file.len());
        if file.get(..size) != Some(outs.bytes(slot)) {
            return false;
        }
        left = left.saturating_sub(size);
        slot = slot.saturating_add(1);
    }
    left == 0 && outs.name(slot).is_empty()
}
