//! The lines of a text: a line is a run of bytes that ends with a delimiter, a byte of the caller's
//! choice, and the last line of a text may lack it. With the newline they are POSIX's lines
//! (POSIX.1-2017, XBD 3.206).
ghost use Rattle.std.specs.{
  Prelude.{◌≡◌, ℕ, ◌+◌, ◌<◌, ◌≤◌, false, List, [], ◌∷◌, ◌++◌, if◌then◌else◌, length, take},
  Simd.Lanes.{Each1, sum_l},
};
ghost use Rattle.seg_core.specs.Line.{IsLines, Reaches, delimiters, ends_with, lines_of};

use crate::line_iter::Lines;
use crate::line_reach::Reach;
use memchr::memchr;
use std::simd::prelude::*;

/// The newline, with which POSIX's lines end.
pub const NEWLINE: u8 = b'\n';

// How many bytes are looked at in one step, each in a lane of its own.
pub(crate) const STEP: usize = 64;

// How many bytes are counted at a time: 64 steps, and a lane can count 255.
pub(crate) const RUN: usize = 4096;

/// The lines of `bytes`, each ended by `delim`, as slices. It takes no memory.
pub fn lines(bytes: &[u8], delim: u8) -> Lines<'_>
    ensures left { result ≡ record { delim = delim; text = bytes.now } }
    ensures are { IsLines delim bytes.now (lines_of delim bytes.now) }
    ensures only { (others : List (List ℕ)) → IsLines delim bytes.now others → others ≡ lines_of delim bytes.now }
{
    Lines::new(bytes, delim)
}

/// The first line of `bytes`, empty if `bytes` is, and the rest. Lines end with `delim`. It takes no memory.
pub fn next_line(bytes: &[u8], delim: u8) -> (&[u8], &[u8])
    ensures joined { bytes.now ≡ result.0.now ++ result.1.now }
    ensures first { 0 < length bytes.now → lines_of delim bytes.now ≡ result.0.now ∷ lines_of delim result.1.now }
    ensures some { 0 < length bytes.now → 0 < length result.0.now }
    ensures count { delimiters delim bytes.now
        ≡ (if ends_with delim result.0.now then delimiters delim result.1.now + 1 else delimiters delim result.1.now) }
    ensures last { ends_with delim result.0.now ≡ false → result.1.now ≡ [] }
{
    match memchr(delim, bytes) {
        Some(place) => bytes.split_at(place + 1),
        None => bytes.split_at(bytes.len()),
    }
}

/// How often `delim` stands in `bytes`, and so how many complete lines they have. It takes no memory.
pub fn count_delimiters(bytes: &[u8], delim: u8) -> usize
    ensures { result ≡ delimiters delim bytes.now }
{
    let mut count = 0;
    let mut left = bytes;
    while STEP <= left.len() {
        let (run, rest) = left.split_at(left.len().min(RUN));
        count += count_in_run(run, delim);
        left = rest;
    }
    count + count_one_by_one(left, delim)
}

// Each lane counts the delimiters that it meets, and at the end the lanes are summed.
fn count_in_run(run: &[u8], delim: u8) -> usize
    requires { length run.now ≤ RUN }
    ensures { result ≡ delimiters delim run.now }
{
    let mut lanes = u8x64::splat(0);
    let mut left = run;
    while STEP <= left.len() {
        lanes = lanes.strict_add(delimiters_in_step(left, delim));
        left = &left[STEP..];
    }
    sum_of(lanes) as usize + count_one_by_one(left, delim)
}

// A vector with 1 in its lane for each delimiter among the first bytes, and 0 for each other byte.
#[inline(always)]
fn delimiters_in_step(bytes: &[u8], delim: u8) -> u8x64
    requires { STEP ≤ length bytes.now }
    ensures long { length result ≡ STEP }
    ensures each { Each1 (λ lane. lane ≤ 1) result }
    ensures sum { sum_l result ≡ delimiters delim (take STEP bytes.now) }
{
    let is_delim = u8x64::from_slice(bytes).simd_eq(u8x64::splat(delim));
    is_delim.select(u8x64::splat(1), u8x64::splat(0))
}

#[inline(always)]
fn sum_of(lanes: u8x64) -> u32
    ensures { result ≡ sum_l lanes }
{
    lanes.dot4(u8x64::splat(1)).strict_reduce_sum()
}

fn count_one_by_one(bytes: &[u8], delim: u8) -> usize
    ensures { result ≡ delimiters delim bytes.now }
{
    let mut count = 0;
    for byte in bytes {
        if *byte == delim {
            count += 1;
        }
    }
    count
}

/// Where the first `lines` lines of `bytes` end, if it has that many complete lines, each ended by
/// `delim`. It takes no memory.
pub fn reach(bytes: &[u8], lines: u64, delim: u8) -> Reach
    ensures { Reaches delim lines bytes.now result }
{
    if lines == 0 {
        return Reach::Ends(0);
    }
    let (at, count) = skip(bytes, 0, 0, lines, RUN, delim);
    let (at, count) = skip(bytes, at, count, lines, STEP, delim);
    reach_from(bytes, at, count, lines, delim)
}

// Passes stretches of `width` bytes after the first `from` bytes, which have `before` delimiters, as
// long as the last of the lines ends after them. Returns how many bytes were passed in all, and how
// many delimiters they have.
fn skip(
    bytes: &[u8],
    from: usize,
    before: usize,
    lines: u64,
    width: usize,
    delim: u8,
) -> (usize, usize)
    requires some { 0 < width }
    requires within { from ≤ length bytes.now }
    requires counted { before ≡ delimiters delim (take from bytes.now) }
    requires fewer { before < lines }
    ensures within { result.0 ≤ length bytes.now }
    ensures counted { result.1 ≡ delimiters delim (take result.0 bytes.now) }
    ensures fewer { result.1 < lines }
{
    let mut count = before;
    let mut at = from;
    while width <= bytes.len() - at {
        let more = count + count_delimiters(&bytes[at..at + width], delim);
        if lines <= more as u64 {
            return (at, count);
        }
        count = more;
        at += width;
    }
    (at, count)
}

// Where the first `lines` lines end, which is after the first `at` bytes, which have `count`
// delimiters. It goes byte by byte.
fn reach_from(bytes: &[u8], at: usize, count: usize, lines: u64, delim: u8) -> Reach
    requires within { at ≤ length bytes.now }
    requires counted { count ≡ delimiters delim (take at bytes.now) }
    requires fewer { count < lines }
    ensures { Reaches delim lines bytes.now result }
{
    let mut seen = count;
    for i in at..bytes.len() {
        // Added and not branched on: if lines are short, a branch would often be guessed wrong.
        seen += usize::from(bytes[i] == delim);
        if seen as u64 == lines {
            return Reach::Ends(i + 1);
        }
    }
    Reach::Short(seen)
}
