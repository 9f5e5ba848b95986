//! Files of `split` of which standard output is told before each is opened: row by row, and after each piece of each short
//! text.
ghost use Rattle.std.specs.Prelude.{◌≡◌, ◌≤◌, false, length, IfOk, IsTrue};
ghost use Rattle.ports_core.specs.Slot.{is_writable};
ghost use Rattle.seg_core.specs.Cut.{IsPositive};
ghost use Rattle.split_core.specs.{Split.HasNames, Ways.Ready};

use crate::play::{Step, close, feed, has_files, play};
use crate::test_texts::{DELIMITERS, Short, short_texts};
use engine_core::{Engine, Tells};
use mem_core::MemOut;
use ports_core::{Alphabet, Fault, Naming, Numbering, Outs, Verdict};
use split_core::{Cut, Limit, Splitter, Way};
use std::alloc::{AllocError, Global};
use std::process::Abort;
use std::test::Fail;

/// How an input is cut, whether empty files are left out, and the steps with an engine. Its files are xaa, xab and so on.
type Row<'a> = (Cut, bool, &'a [Step<'a>]);

#[test]
fn tells_of_files(rt: HostRuntime) -> Result<(), Fail> {
    for (number, row) in ROWS.iter().enumerate() {
        play_row(&rt, rt.alloc(), number, row)?;
    }
    Ok(())
}

const BY_LINE: Cut = Cut::Parts(Limit::Lines(1, b'\n'));

const ROWS: &[Row<'static>] = &[
    (
        BY_LINE,
        false,
        &[
            Step::Wrote(b""),
            Step::Feed(b"a\n"),
            Step::Wrote(b"creating file 'xaa'\n"),
            Step::Feed(b"b"),
            Step::Wrote(b"creating file 'xaa'\ncreating file 'xab'\n"),
            Step::Feed(b"c"),
            Step::Close,
            Step::Wrote(b"creating file 'xaa'\ncreating file 'xab'\n"),
            Step::Files(&[b"a\n", b"bc"]),
        ],
    ),
    (BY_LINE, false, &[Step::Close, Step::Wrote(b"")]),
    // The line is refused at once, or after its beginning: the file isn't opened.
    (
        BY_LINE,
        false,
        &[
            Step::FailAt(1),
            Step::FeedFails(b"a\n", Fault::Write(0)),
            Step::Wrote(b""),
            Step::Broken(0),
            Step::Files(&[]),
            Step::FeedFails(b"b", Fault::Failed),
            Step::CloseFails(Fault::Failed),
        ],
    ),
    (
        BY_LINE,
        false,
        &[
            Step::Limit(0, 25),
            Step::FeedFails(b"a\nb", Fault::Write(0)),
            Step::Wrote(b"creating file 'xaa'\ncreat"),
            Step::Files(&[b"a\n"]),
        ],
    ),
    // The file can't be opened, or not be written or closed: the line stands.
    (
        BY_LINE,
        false,
        &[
            Step::FailAt(2),
            Step::FeedFails(b"a", Fault::Open(2)),
            Step::Wrote(b"creating file 'xaa'\n"),
            Step::Broken(2),
        ],
    ),
    (
        BY_LINE,
        false,
        &[
            Step::FailAt(3),
            Step::FeedFails(b"a", Fault::Write(2)),
            Step::Wrote(b"creating file 'xaa'\n"),
            Step::Files(&[b""]),
        ],
    ),
    (
        BY_LINE,
        false,
        &[
            Step::FailAt(4),
            Step::FeedFails(b"a\nb", Fault::Write(2)),
            Step::Wrote(b"creating file 'xaa'\n"),
            Step::Files(&[b"a\n"]),
        ],
    ),
    // A line that waits has no file yet.
    (
        Cut::Parts(Limit::LineBytes(4, b'\n')),
        false,
        &[
            Step::Feed(b"a\nb"),
            Step::Wrote(b"creating file 'xaa'\n"),
            Step::Feed(b"c"),
            Step::Wrote(b"creating file 'xaa'\ncreating file 'xab'\n"),
        ],
    ),
    (
        Cut::Round(2, b'\n'),
        false,
        &[
            Step::Wrote(b"creating file 'xaa'\ncreating file 'xab'\n"),
            Step::Files(&[b"", b""]),
            Step::Feed(b"a\nb\nc"),
            Step::Close,
            Step::Wrote(b"creating file 'xaa'\ncreating file 'xab'\n"),
        ],
    ),
    (
        Cut::Round(3, b'\n'),
        true,
        &[
            Step::Wrote(b""),
            Step::Feed(b"a\nb"),
            Step::Wrote(b"creating file 'xaa'\ncreating file 'xab'\n"),
            Step::FailAt(3),
            Step::FeedFails(b"\nc", Fault::Open(4)),
            Step::Wrote(b"creating file 'xaa'\ncreating file 'xab'\ncreating file 'xac'\n"),
            Step::Broken(4),
        ],
    ),
    (
        Cut::Round(3, b'\n'),
        true,
        &[
            Step::Limit(0, 39),
            Step::FeedFails(b"a\nb\nc\nd", Fault::Write(0)),
            Step::Wrote(b"creating file 'xaa'\ncreating file 'xab'"),
            Step::Files(&[b"a\nd"]),
        ],
    ),
];

fn play_row(rt: &impl Abort, alloc: Global, number: usize, row: &Row<'_>) -> Result<(), Fault> {
    let (cut, elide, steps) = *row;
    let mut outs = MemOut::new(alloc)?;
    let mut splitter = open(alloc, cut, elide, &mut outs)?;
    play(rt, &mut splitter, &mut outs, number, steps);
    Ok(())
}

/// A splitter that tells of its files.
pub(crate) fn open(
    alloc: Global,
    cut: Cut,
    elide: bool,
    outs: &mut MemOut,
) -> Result<Engine<Splitter>, Fault>
    requires streams { 2 ≤ length outs.old }
    requires output { IsTrue (is_writable outs.old 0) }
    ensures { IfOk result (λ splitter. Ready splitter.stage outs.new) }
{
    let naming = Naming::new(alloc, "x", Numbering::Widening(Alphabet::Letters, 2), "")?;
    match cut {
        Cut::Parts(limit) if limit.most() > 0 => { open_telling(alloc, cut, naming, elide, outs) }
        Cut::Round(count, _) if count > 0 => { open_telling(alloc, cut, naming, elide, outs) }
        _ => Err(Fault::Failed),
    }
}

/// A splitter that tells of its files, which have these names.
fn open_telling(
    alloc: Global,
    cut: Cut,
    naming: Naming,
    elide: bool,
    outs: &mut MemOut,
) -> Result<Engine<Splitter>, Fault>
    requires some { IsPositive cut }
    requires enough { HasNames cut naming }
    requires streams { 2 ≤ length outs.old }
    requires output { IsTrue (is_writable outs.old 0) }
    ensures { IfOk result (λ splitter. Ready splitter.stage outs.new) }
{
    Splitter::open(
        alloc,
        Way::Cut(cut),
        None,
        naming,
        elide,
        Tells::Openings,
        outs,
    )
}

#[test]
fn refused_lines_leave_files_unopened(rt: HostRuntime) -> Result<(), Fail> {
    for bytes in 20..40 {
        let mut outs = MemOut::new(rt.alloc())?;
        outs.limit(0, bytes)?;
        let refused = open(rt.alloc(), Cut::Round(3, b'\n'), false, &mut outs).err();
        assert!(&rt; refused == Some(Fault::Write(0)), "after {bytes} bytes");
        assert!(&rt; outs.bytes(0).len() == bytes, "after {bytes} bytes");
        assert!(&rt; has_files(&outs, &[b""]), "after {bytes} bytes");
    }
    Ok(())
}

#[test]
fn tells_of_named_files_alone(rt: HostRuntime) -> Result<(), Fail> {
    let mut outs = MemOut::new(rt.alloc())?;
    let numbering = Numbering::Fixed(Alphabet::Digits, 1, 0);
    let naming = Naming::new(rt.alloc(), "x", numbering, "")?;
    let cut = Cut::Parts(Limit::Bytes(1));
    let mut splitter = open_telling(rt.alloc(), cut, naming, false, &mut outs)?;
    let end = feed(&mut splitter, &mut outs, b"0123456789a").err();
    assert!(&rt; end == Some(Fault::Verdict(Verdict::Suffixes)));
    assert!(&rt;
        outs.bytes(0)
            .ends_with(b"creating file 'x8'\ncreating file 'x9'\n")
    );
    assert!(&rt; outs.bytes(0).len() == 190);
    Ok(())
}

#[test]
fn tells_of_each_file_of_short_texts(rt: HostRuntime) -> Result<(), Fail> {
    for delim in DELIMITERS {
        for short in short_texts(rt.alloc(), delim)? {
            assert!(&rt;
                tells_on_short(rt.alloc(), delim, &short)?,
                "on {:?}, ended with {delim}",
                short.text()
            );
        }
    }
    Ok(())
}

/// Whether an engine tells just of the files that it opened, however a text is cut, and in whatever pieces it comes.
fn tells_on_short(alloc: Global, delim: u8, short: &Short) -> Result<bool, Fault> {
    for pieces in &short.cuttings(alloc)? {
        for cut in [
            Cut::Parts(Limit::Lines(1, delim)),
            Cut::Parts(Limit::LineBytes(2, delim)),
            Cut::Round(2, delim),
        ] {
            let mut outs = MemOut::new(alloc)?;
            let mut splitter = open(alloc, cut, true, &mut outs)?;
            if !tells_in_pieces(alloc, &mut splitter, &mut outs, pieces)? {
                return Ok(false);
            }
        }
    }
    Ok(true)
}

fn tells_in_pieces(
    alloc: Global,
    splitter: &mut Engine<Splitter>,
    outs: &mut MemOut,
    pieces: &[&[u8]],
) -> Result<bool, Fault>
    requires { splitter.old.is_over ≡ false → Ready splitter.old.stage outs.old }
{
    for piece in pieces {
        feed(splitter, outs, piece)?;
        if !has_told(alloc, outs)? {
            return Ok(false);
        }
    }
    close(splitter, outs)?;
    Ok(has_told(alloc, outs)?)
}

/// Whether standard output has a line for each file that was opened, in order, and nothing else.
fn has_told(alloc: Global, outs: &MemOut) -> Result<bool, AllocError> {
    let mut lines = Vec::new(alloc);
    for slot in 2..100usize {
        let name = outs.name(slot);
        if name.is_empty() {
            break;
        }
        lines.extend_from_slice(b"creating file '")?;
        lines.extend_from_slice(name.as_bytes())?;
        lines.extend_from_slice(b"'\n")?;
    }
    Ok(outs.bytes(0) == lines.as_slice())
}
