//! Lines dealt in turn, row by row, and the engine beside the plain program on each short text, cut into pieces in
//! each way.
ghost use Rattle.std.specs.Prelude.{◌≡◌, ◌<◌, ◌≤◌, false, length, IfOk};
ghost use Rattle.split_core.specs.Ways.{Ready};

use crate::play::{Step, close, feed_all, open_splitter, play};
use crate::round_plain::plain;
use crate::test_texts::{DELIMITERS, Short, pieces_of, short_texts};
use engine_core::Engine;
use mem_core::MemOut;
use ports_core::{Alphabet, Fault, Naming, Numbering, Outs};
use split_core::{Cut, Splitter};
use std::alloc::Global;
use std::process::Abort;
use std::test::Fail;

/// The first names.
const NAMES: [&str; 5] = ["xaa", "xab", "xac", "xad", "xae"];

/// Lines that are dealt to this many files, without empty ones or with them, the byte that they end with, and the steps
/// with an engine. Its files are xaa, xab and so on.
type Row<'a> = (u64, bool, u8, &'a [Step<'a>]);

#[test]
fn deals_in_turn(rt: HostRuntime) -> Result<(), Fail> {
    for (number, row) in ROWS.iter().enumerate() {
        play_row(&rt, rt.alloc(), number, row)?;
    }
    Ok(())
}

const ROWS: &[Row<'static>] = &[
    (
        3,
        false,
        b'\n',
        &[
            Step::Feed(b"a\nb\nc\nd"),
            Step::Files(&[b"a\nd", b"b\n", b"c\n"]),
            Step::Done(false),
            Step::Feed(b"e\nf"),
            Step::Close,
            Step::Name(2, "xaa"),
            Step::Files(&[b"a\nde\n", b"b\nf", b"c\n"]),
            Step::Name(4, "xac"),
            Step::Wrote(b""),
            Step::CloseFails(Fault::Failed),
            Step::FeedFails(b"g", Fault::Failed),
        ],
    ),
    (
        3,
        false,
        b'\n',
        &[
            Step::Close,
            Step::Name(4, "xac"),
            Step::Files(&[b"", b"", b""]),
        ],
    ),
    (3, true, b'\n', &[Step::Close, Step::Files(&[])]),
    (
        3,
        true,
        b'\n',
        &[
            Step::Feed(b"a"),
            Step::Files(&[b"a"]),
            Step::Feed(b"\nb"),
            Step::Close,
            Step::Files(&[b"a\n", b"b"]),
            Step::Name(3, "xab"),
        ],
    ),
    (
        3,
        false,
        b'\n',
        &[
            Step::Limit(3, 1),
            Step::FeedFails(b"a\nb\nc\n", Fault::Write(3)),
            Step::Files(&[b"a\n", b"b", b""]),
            Step::FeedFails(b"d\n", Fault::Failed),
            Step::Files(&[b"a\n", b"b", b""]),
        ],
    ),
    (
        3,
        true,
        b'\n',
        &[
            Step::FailAt(3),
            Step::FeedFails(b"a\nb\nc\n", Fault::Open(3)),
            Step::Files(&[b"a\n", b""]),
        ],
    ),
    (
        2,
        false,
        0,
        &[
            Step::Feed(b"a\0b\n\0c"),
            Step::Close,
            Step::Files(&[b"a\0c", b"b\n\0"]),
        ],
    ),
];

/// Takes the steps with an engine of its own.
fn play_row(rt: &impl Abort, alloc: Global, number: usize, row: &Row<'_>) -> Result<(), Fault> {
    let (count, elide, delim, steps) = *row;
    if count == 0 {
        return Err(Fault::Failed);
    }
    let mut outs = MemOut::new(alloc)?;
    let mut engine = start(alloc, count, elide, delim, &mut outs)?;
    play(rt, &mut engine, &mut outs, number, steps);
    Ok(())
}

#[test]
fn stops_where_a_file_is_not_opened(rt: HostRuntime) -> Result<(), Fail> {
    let mut outs = MemOut::new(rt.alloc())?;
    outs.fail_at(2);
    assert!(rt; start(rt.alloc(), 3, false, b'\n', &mut outs).is_err());
    assert!(rt; outs.broken(3));
    assert_eq!(rt; outs.name(4), "");
    Ok(())
}

#[test]
fn deals_many_lines_of_a_piece(rt: HostRuntime) -> Result<(), Fail> {
    let mut text = [b'x'; 600];
    for place in 0..600 {
        if place % 3 == 2 || place % 7 == 0 || place > 560 {
            text[place] = b'\n';
        }
    }
    for count in [1, 2, 5, 64, 65] {
        for delim in [b'\n', b'x'] {
            assert!(rt;
                agree_on_pieces(rt.alloc(), count, &text, delim)?,
                "for {count}"
            );
        }
    }
    Ok(())
}

#[test]
fn does_as_the_plain_program(rt: HostRuntime) -> Result<(), Fail> {
    for delim in DELIMITERS {
        for short in short_texts(rt.alloc(), delim)? {
            assert!(rt;
                agree_on_short(rt.alloc(), &short, delim)?,
                "on {:?}, ended with {delim}",
                short.text()
            );
        }
    }
    Ok(())
}

/// Whether the engine agrees with the plain program on a text, in each way to cut it.
fn agree_on_short(alloc: Global, short: &Short, delim: u8) -> Result<bool, Fault> {
    for pieces in short.cuttings(alloc)? {
        for count in 1..5 {
            let job = Job {
                count,
                elide: false,
                delim,
            };
            let eliding = Job { elide: true, ..job };
            let agrees_on = agrees(alloc, job, short.text(), &pieces)?;
            if !agrees_on || !agrees(alloc, eliding, short.text(), &pieces)? {
                return Ok(false);
            }
        }
    }
    Ok(true)
}

/// Whether a long text gives what it should, in one piece and in two.
fn agree_on_pieces(alloc: Global, count: u64, text: &[u8], delim: u8) -> Result<bool, Fault> {
    let job = Job {
        count,
        elide: false,
        delim,
    };
    for cuts in [0, 1, 1 << 7, 1 << 30] {
        if count > 0 && !agrees(alloc, job, text, &pieces_of(alloc, text, cuts)?)? {
            return Ok(false);
        }
    }
    Ok(true)
}

/// How lines are dealt.
#[derive(Clone, Copy)]
struct Job {
    /// To how many files.
    count: u64,
    /// Whether empty files are left out.
    elide: bool,
    /// The byte that lines end with.
    delim: u8,
}

/// Whether all files have what they should, before the end and at the end.
fn agrees(alloc: Global, job: Job, text: &[u8], pieces: &[&[u8]]) -> Result<bool, Fault>
    requires { 0 < job.count }
{
    let mut outs = MemOut::new(alloc)?;
    let mut engine = start(alloc, job.count, job.elide, job.delim, &mut outs)?;
    deals(alloc, job, text, pieces, &mut engine, &mut outs)
}

fn deals(
    alloc: Global,
    job: Job,
    text: &[u8],
    pieces: &[&[u8]],
    engine: &mut Engine<Splitter>,
    outs: &mut MemOut,
) -> Result<bool, Fault>
    requires { engine.old.is_over ≡ false → Ready engine.old.stage outs.old }
{
    feed_all(engine, outs, pieces)?;
    if !has_all(alloc, job, text, outs)? {
        return Ok(false);
    }
    close(engine, outs)?;
    has_all(alloc, job, text, outs)
}

/// Whether the files are those that are wanted: with `elide` none that is empty.
fn has_all(alloc: Global, job: Job, text: &[u8], outs: &MemOut) -> Result<bool, Fault> {
    let mut slot = 2usize;
    for file in 0..job.count {
        let wanted = plain(alloc, job.count, file, text, job.delim)?;
        if job.elide && wanted.is_empty() {
            continue;
        }
        if outs.bytes(slot) != wanted.as_slice() || !has_name(outs, slot) {
            return Ok(false);
        }
        slot = slot.saturating_add(1);
    }
    Ok(outs.name(slot).is_empty())
}

/// Whether an output has the name of its place, if that is one of the first.
pub(crate) fn has_name(outs: &MemOut, slot: usize) -> bool {
    match NAMES.get(slot.saturating_sub(2)) {
        Some(name) => outs.name(slot) == *name,
        None => true,
    }
}

fn start(
    alloc: Global,
    count: u64,
    elide: bool,
    delim: u8,
    outs: &mut MemOut,
) -> Result<Engine<Splitter>, Fault>
    requires some { 0 < count }
    requires streams { 2 ≤ length outs.old }
    ensures ready { IfOk result (λ engine. Ready engine.stage outs.new) }
{
    let naming = Naming::new(alloc, "x", Numbering::Widening(Alphabet::Letters, 2), "")?;
    open_splitter(alloc, Cut::Round(count, delim), naming, elide, outs)
}
