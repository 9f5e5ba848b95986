//! Chunks of an input, and one turn of its lines, as a slow program that sees a whole text at once, to compare the engine
//! with (GNU coreutils manual, split, `-n N`, `-n l/N`, `-n K/N`, `-n l/K/N` and `-n r/K/N`).
use crate::round_plain;
use seg_core::unit::Unit;
use split_core::{Chunks, Way};
use std::alloc::{AllocError, Global};

/// What there is once some bytes came in, or at the end.
#[derive(Drop)]
pub(crate) struct Wanted {
    /// What each file has.
    pub(crate) files: Vec<Vec<u8>>,
    /// What standard output has.
    pub(crate) output: Vec<u8>,
    /// How many bytes wait.
    pub(crate) waits: usize,
    /// Whether nothing more is written.
    pub(crate) done: bool,
    /// Whether the input has another length than it said.
    pub(crate) changed: bool,
}

/// What there is once a text came in, of an input that says that it has `said` bytes, or 0 where it doesn't say. With
/// `elide` there is no empty file.
///
/// # Errors
///
/// `AllocError` where there is no room for it.
pub(crate) fn plain_so_far(
    alloc: Global,
    way: Way,
    elide: bool,
    said: u64,
    text: &[u8],
) -> Result<Wanted, AllocError> {
    if said == 0 {
        return plain_unsaid(alloc, way, text);
    }
    plain_within(alloc, way, elide, said, text)
}

/// What there is in the end.
///
/// # Errors
///
/// `AllocError` where there is no room for it.
pub(crate) fn plain_whole(
    alloc: Global,
    way: Way,
    elide: bool,
    said: u64,
    text: &[u8],
) -> Result<Wanted, AllocError> {
    let size = if said == 0 { text.len() as u64 } else { said };
    let mut wanted = plain_within(alloc, way, elide, size, text)?;
    let is_shorter = (text.len() as u64) < size && matches!(way, Way::Chunks(_) | Way::Chunk(_, _));
    wanted.changed = wanted.changed || is_shorter && !wanted.done;
    wanted.done = wanted.done && said > 0;
    Ok(wanted)
}

/// Where the input has this size.
fn plain_within(
    alloc: Global,
    way: Way,
    elide: bool,
    size: u64,
    text: &[u8],
) -> Result<Wanted, AllocError> {
    let mut wanted = nothing(alloc);
    let own = text.get(..size as usize).unwrap_or(text);
    match way {
        Way::Chunks(chunks) => {
            wanted.files = plain_files(alloc, chunks, size, own, elide)?;
            wanted.changed = own.len() < text.len();
        }
        Way::Chunk(place, chunks) => {
            wanted.output = plain_chunk(alloc, chunks, size, own, place)?;
            wanted.done = has_ended(chunks, size, own, place);
        }
        Way::Turn(place, count, delim) => {
            wanted.output = round_plain::plain(alloc, count, place, text, delim)?;
        }
        Way::Cut(_) => {}
    }
    Ok(wanted)
}

/// Where the input may go on, and doesn't say how far: each chunk can only grow.
fn plain_unsaid(alloc: Global, way: Way, text: &[u8]) -> Result<Wanted, AllocError> {
    let mut wanted = nothing(alloc);
    let size = text.len() as u64;
    match way {
        Way::Chunks(chunks) => {
            let first = plain_chunk(alloc, chunks, size, text, 0)?;
            wanted.waits = text.len().saturating_sub(first.len());
            if !first.is_empty() {
                wanted.files.push(first)?;
            }
        }
        Way::Chunk(place, chunks) => {
            let before = bytes_before(alloc, chunks, text, place.max(1))?;
            wanted.waits = text.len().saturating_sub(before);
            if place == 0 {
                wanted.output = plain_chunk(alloc, chunks, size, text, 0)?;
            }
        }
        Way::Turn(place, count, delim) => {
            wanted.output = round_plain::plain(alloc, count, place, text, delim)?;
        }
        Way::Cut(_) => {}
    }
    Ok(wanted)
}

fn nothing(alloc: Global) -> Wanted {
    Wanted {
        files: Vec::new(alloc),
        output: Vec::new(alloc),
        waits: 0,
        done: false,
        changed: false,
    }
}

/// What the files have of a text, with which an input of this size begins: each chunk that has ended has one, and each
/// that has a byte.
fn plain_files(
    alloc: Global,
    chunks: Chunks,
    size: u64,
    text: &[u8],
    elide: bool,
) -> Result<Vec<Vec<u8>>, AllocError> {
    let mut files = Vec::new(alloc);
    for place in 0..chunks.count {
        let file = plain_chunk(alloc, chunks, size, text, place)?;
        if !file.is_empty() || !elide && has_ended(chunks, size, text, place) {
            files.push(file)?;
        }
    }
    Ok(files)
}

/// How many bytes go with the chunks before a place, if nothing follows.
fn bytes_before(
    alloc: Global,
    chunks: Chunks,
    text: &[u8],
    place: u64,
) -> Result<usize, AllocError> {
    let mut bytes = 0usize;
    for before in 0..place {
        let chunk = plain_chunk(alloc, chunks, text.len() as u64, text, before)?;
        bytes = bytes.saturating_add(chunk.len());
    }
    Ok(bytes)
}

/// What goes with the chunk at a place: the bytes that stand in it, or the lines whose first byte does.
fn plain_chunk(
    alloc: Global,
    chunks: Chunks,
    size: u64,
    text: &[u8],
    place: u64,
) -> Result<Vec<u8>, AllocError> {
    let begin = begin_of(chunks.count, size, place);
    let end = begin_of(chunks.count, size, place.saturating_add(1));
    let mut chunk = Vec::new(alloc);
    let mut first = 0u64;
    let mut at = 0u64;
    for byte in text {
        if begin <= first && first < end {
            chunk.push(*byte)?;
        }
        at = at.saturating_add(1);
        if ends_unit(chunks, *byte) {
            first = at;
        }
    }
    Ok(chunk)
}

/// Whether nothing that follows a text goes with the chunk at a place.
fn has_ended(chunks: Chunks, size: u64, text: &[u8], place: u64) -> bool {
    let mut first = 0u64;
    let mut at = 0u64;
    for byte in text {
        at = at.saturating_add(1);
        if ends_unit(chunks, *byte) || at >= size {
            first = at;
        }
    }
    begin_of(chunks.count, size, place.saturating_add(1)) <= first
}

/// Whether what goes with a chunk as a whole ends with this byte.
fn ends_unit(chunks: Chunks, byte: u8) -> bool {
    match chunks.unit {
        Unit::Bytes => true,
        Unit::Lines => byte == chunks.delim,
    }
}

/// Where the chunk at a place begins: those before it have equally many bytes, the first ones of them one more.
fn begin_of(count: u64, size: u64, place: u64) -> u64 {
    let each = size.checked_div(count).unwrap_or(0);
    let longer = size.checked_rem(count).unwrap_or(0);
    let mut begin = 0u64;
    for before in 0..place {
        begin = begin.saturating_add(each);
        if before < longer {
            begin = begin.saturating_add(1);
        }
    }
    begin
}
