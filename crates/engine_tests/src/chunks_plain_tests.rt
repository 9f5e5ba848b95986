//! Chunks of an input, and one turn of its lines: the engine beside the plain program on each short text, cut into
//! pieces in each way.
ghost use Rattle.std.specs.Prelude.{◌≡◌, false};
ghost use Rattle.split_core.specs.Ways.{Ready};

use crate::chunk_tests::{CHANGED, LINES, TWO, open};
use crate::chunks_plain::{Wanted, plain_so_far, plain_whole};
use crate::play::{close, feed};
use crate::round_tests::has_name;
use crate::test_texts::{DELIMITERS, Short, pieces_of, short_texts};
use engine_core::{Engine, Tells};
use mem_core::MemOut;
use ports_core::{Fault, Outs};
use split_core::{Chunks, Splitter, Way};
use std::alloc::{AllocError, Global};
use std::process::Abort;
use std::test::Fail;

/// Lines that end with another byte.
const BY_NUL: Chunks = Chunks { delim: 0, ..LINES };

const BY_C: Chunks = Chunks {
    delim: b'c',
    ..LINES
};

#[test]
fn files_of_bytes_said(rt: HostRuntime) -> Result<(), Fail> {
    files_agree(&rt, rt.alloc(), TWO, true, false)
}

#[test]
fn some_files_of_bytes_said(rt: HostRuntime) -> Result<(), Fail> {
    files_agree(&rt, rt.alloc(), TWO, true, true)
}

#[test]
fn files_of_bytes_not_said(rt: HostRuntime) -> Result<(), Fail> {
    files_agree(&rt, rt.alloc(), TWO, false, false)
}

#[test]
fn some_files_of_bytes_not_said(rt: HostRuntime) -> Result<(), Fail> {
    files_agree(&rt, rt.alloc(), TWO, false, true)
}

#[test]
fn files_of_lines_said(rt: HostRuntime) -> Result<(), Fail> {
    files_agree(&rt, rt.alloc(), BY_NUL, true, false)
}

#[test]
fn some_files_of_lines_said(rt: HostRuntime) -> Result<(), Fail> {
    files_agree(&rt, rt.alloc(), BY_C, true, true)
}

#[test]
fn files_of_lines_not_said(rt: HostRuntime) -> Result<(), Fail> {
    files_agree(&rt, rt.alloc(), LINES, false, false)
}

#[test]
fn some_files_of_lines_not_said(rt: HostRuntime) -> Result<(), Fail> {
    files_agree(&rt, rt.alloc(), BY_NUL, false, true)
}

#[test]
fn one_chunk_of_bytes_said(rt: HostRuntime) -> Result<(), Fail> {
    one_agrees(&rt, rt.alloc(), TWO, true)
}

#[test]
fn one_chunk_of_bytes_not_said(rt: HostRuntime) -> Result<(), Fail> {
    one_agrees(&rt, rt.alloc(), TWO, false)
}

#[test]
fn one_chunk_of_lines_said(rt: HostRuntime) -> Result<(), Fail> {
    one_agrees(&rt, rt.alloc(), BY_C, true)
}

#[test]
fn one_chunk_of_lines_not_said(rt: HostRuntime) -> Result<(), Fail> {
    one_agrees(&rt, rt.alloc(), LINES, false)
}

/// How the engine and the plain program are compared.
#[derive(Clone, Copy)]
struct Job {
    way: Way,
    elide: bool,
    /// How many bytes the input says that it has; 0 where it doesn't say.
    said: u64,
}

/// Compares both on each short text, with up to four files, without empty ones or with them.
fn files_agree(
    rt: &impl Abort,
    alloc: Global,
    chunks: Chunks,
    is_said: bool,
    elide: bool,
) -> Result<(), Fail> {
    for short in short_texts(alloc, chunks.delim)? {
        let said = said_of(short.text(), is_said);
        let cuttings = short.cuttings(alloc)?;
        for count in 1..5 {
            let way = Way::Chunks(Chunks { count, ..chunks });
            let job = Job { way, elide, said };
            assert!(rt;
                agree_on_all(alloc, job, short.text(), &cuttings)?,
                "on {:?} in {count}",
                short.text()
            );
        }
    }
    Ok(())
}

/// The same with each of up to four chunks to standard output.
fn one_agrees(rt: &impl Abort, alloc: Global, chunks: Chunks, is_said: bool) -> Result<(), Fail> {
    for short in short_texts(alloc, chunks.delim)? {
        let said = said_of(short.text(), is_said);
        let cuttings = short.cuttings(alloc)?;
        for (place, count) in PLACES {
            let way = Way::Chunk(
                *place,
                Chunks {
                    count: *count,
                    ..chunks
                },
            );
            let job = Job {
                way,
                elide: false,
                said,
            };
            assert!(rt;
                agree_on_all(alloc, job, short.text(), &cuttings)?,
                "on {:?} at {place} of {count}",
                short.text()
            );
        }
    }
    Ok(())
}

/// Each place, and of how many.
const PLACES: &[(u64, u64)] = &[
    (0, 1),
    (0, 2),
    (1, 2),
    (0, 3),
    (1, 3),
    (2, 3),
    (0, 4),
    (1, 4),
    (2, 4),
    (3, 4),
];

#[test]
fn one_turn_of_lines(rt: HostRuntime) -> Result<(), Fail> {
    for delim in DELIMITERS {
        for short in short_texts(rt.alloc(), delim)? {
            assert!(&rt;
                one_turn_agrees(rt.alloc(), &short, delim)?,
                "on {:?}, ended with {delim}",
                short.text()
            );
        }
    }
    Ok(())
}

fn one_turn_agrees(alloc: Global, short: &Short, delim: u8) -> Result<bool, Fault> {
    let cuttings = short.cuttings(alloc)?;
    for (place, count) in [(0, 1), (1, 2), (2, 3)] {
        let way = Way::Turn(place, count, delim);
        let job = Job {
            way,
            elide: false,
            said: 0,
        };
        if !agree_on_all(alloc, job, short.text(), &cuttings)? {
            return Ok(false);
        }
    }
    Ok(true)
}

#[test]
fn bytes_of_another_length(rt: HostRuntime) -> Result<(), Fail> {
    changes_agree(&rt, rt.alloc(), TWO)
}

#[test]
fn lines_of_another_length(rt: HostRuntime) -> Result<(), Fail> {
    changes_agree(&rt, rt.alloc(), LINES)
}

/// Compares both on each short text that says that it has from one byte to seven, and comes as a whole and byte by
/// byte.
fn changes_agree(rt: &impl Abort, alloc: Global, chunks: Chunks) -> Result<(), Fail> {
    for short in short_texts(alloc, chunks.delim)? {
        let cuttings = whole_and_bytes(alloc, short.text())?;
        for said in 1..8 {
            assert!(rt;
                change_agrees(alloc, chunks, said, short.text(), &cuttings)?,
                "on {:?} of {said}",
                short.text()
            );
        }
    }
    Ok(())
}

/// A text as a whole, and byte by byte.
fn whole_and_bytes(alloc: Global, text: &[u8]) -> Result<Vec<Vec<&[u8]>>, AllocError> {
    let mut cuttings = Vec::new(alloc);
    for cuts in [0, u32::MAX] {
        cuttings.push(pieces_of(alloc, text, cuts)?)?;
    }
    Ok(cuttings)
}

/// Whether both agree on two and three files, and on each of two chunks to standard output.
fn change_agrees(
    alloc: Global,
    chunks: Chunks,
    said: u64,
    text: &[u8],
    cuttings: &[Vec<&[u8]>],
) -> Result<bool, Fault> {
    let two = Chunks { count: 2, ..chunks };
    let three = Chunks { count: 3, ..chunks };
    for way in [
        Way::Chunks(two),
        Way::Chunks(three),
        Way::Chunk(0, two),
        Way::Chunk(1, two),
    ] {
        let job = Job {
            way,
            elide: false,
            said,
        };
        if !agree_on_all(alloc, job, text, cuttings)? {
            return Ok(false);
        }
    }
    Ok(true)
}

fn said_of(text: &[u8], is_said: bool) -> u64 {
    if is_said { text.len() as u64 } else { 0 }
}

/// Whether both agree on a text, in each of these ways to cut it into pieces.
fn agree_on_all(
    alloc: Global,
    job: Job,
    text: &[u8],
    cuttings: &[Vec<&[u8]>],
) -> Result<bool, Fault> {
    let wanted = all_wanted(alloc, job, text)?;
    for pieces in cuttings {
        if !agrees(alloc, job, pieces, &wanted)? {
            return Ok(false);
        }
    }
    Ok(true)
}

/// What there is after each number of bytes, and then in the end.
fn all_wanted(alloc: Global, job: Job, text: &[u8]) -> Result<Vec<Wanted>, Fault> {
    let mut all = Vec::new(alloc);
    for size in 0..=text.len() {
        let before = text.get(..size).unwrap_or(text);
        all.push(plain_so_far(alloc, job.way, job.elide, job.said, before)?)?;
    }
    all.push(plain_whole(alloc, job.way, job.elide, job.said, text)?)?;
    Ok(all)
}

/// Whether there is what is wanted after each piece, and in the end.
fn agrees(alloc: Global, job: Job, pieces: &[&[u8]], wanted: &[Wanted]) -> Result<bool, Fault> {
    let mut outs = MemOut::new(alloc)?;
    let mut engine = open(
        alloc,
        job.way,
        job.said,
        job.elide,
        Tells::Nothing,
        &mut outs,
    )?;
    gives(&mut engine, &mut outs, pieces, wanted)
}

fn gives(
    engine: &mut Engine<Splitter>,
    outs: &mut MemOut,
    pieces: &[&[u8]],
    wanted: &[Wanted],
) -> Result<bool, Fault>
    requires { engine.old.is_over ≡ false → Ready engine.old.stage outs.old }
{
    let mut size = 0usize;
    for piece in pieces {
        let fed = feed(engine, outs, piece);
        size = size.saturating_add(piece.len());
        let Some(so_far) = wanted.get(size) else {
            return Ok(false);
        };
        if !is_as_wanted(outs, so_far, fed) || engine.held() != so_far.waits as u64 {
            return Ok(false);
        }
        if fed.is_err() {
            return Ok(true);
        }
        if engine.done() != so_far.done {
            return Ok(false);
        }
    }
    let closed = close(engine, outs);
    match wanted.last() {
        Some(whole) => Ok(is_as_wanted(outs, whole, closed)),
        None => Ok(false),
    }
}

/// Whether a call ended as it must, and the outputs have what they should.
fn is_as_wanted(outs: &MemOut, wanted: &Wanted, ended: Result<(), Fault>) -> bool {
    let end = if wanted.changed { Err(CHANGED) } else { Ok(()) };
    ended == end && outs.bytes(0) == wanted.output.as_slice() && has_all(outs, &wanted.files)
}

/// Whether just these files were opened, with the names of their places.
fn has_all(outs: &MemOut, files: &[Vec<u8>]) -> bool {
    let mut slot = 2usize;
    for file in files {
        if outs.bytes(slot) != file.as_slice() || !has_name(outs, slot) {
            return false;
        }
        slot = slot.saturating_add(1);
    }
    outs.name(slot).is_empty()
}
