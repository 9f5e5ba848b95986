//! What of a text goes with the chunk that was begun.
ghost use Rattle.std.specs.Prelude.{◌≡◌, ◌<◌, ◌≤◌, length, max, take};
ghost use Rattle.split_core.specs.Chunks.{begun_before, chunk_start as start_of, is_within};

use seg_core::cut::Chunks;
use seg_core::line::next_line;
use seg_core::unit::Unit;

/// Where the chunk at a place begins, of `count` chunks of a text of this size; at place `count`, where the last chunk ends.
pub(crate) fn chunk_start(count: u64, size: u64, place: u64) -> u64
    requires some { 0 < count }
    requires within { place ≤ count }
    ensures { result ≡ start_of count size place }
{
    place * (size / count) + place.min(size % count)
}

/// How many bytes of a text go with the chunk that was begun: those before the byte at `skip`, and under lines all up to the end of the
/// line in which they stop. At least one byte goes with it.
pub(crate) fn next_cut(chunks: Chunks, skip: u64, text: &[u8]) -> usize
    ensures within { result ≤ length text.now }
    ensures cut { take result text.now ≡ begun_before chunks.unit chunks.delim (max skip 1) text.now }
    ensures some { 0 < length text.now → 0 < result }
{
    match chunks.unit {
        Unit::Bytes => before(skip.max(1), text),
        Unit::Lines => {
            let whole = before(skip.max(1) - 1, text);
            whole + next_line(&text[whole..], chunks.delim).0.len()
        }
    }
}

/// How many bytes of a text stand before a place.
fn before(place: u64, text: &[u8]) -> usize
    ensures within { result ≤ length text.now }
    ensures cut { take result text.now ≡ take place text.now }
    ensures few { result ≤ place }
    ensures all { result < place → result ≡ length text.now }
{
    place.min(text.len() as u64) as usize
}

/// Whether chunks have whole lines and a text ends within a line.
pub(crate) fn ends_within(chunks: Chunks, text: &[u8]) -> bool
    requires { 0 < length text.now }
    ensures { result ≡ is_within chunks.unit chunks.delim text.now }
{
    match chunks.unit {
        Unit::Bytes => false,
        Unit::Lines => text[text.len() - 1] != chunks.delim,
    }
}
