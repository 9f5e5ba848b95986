ghost use Rattle.std.specs.Prelude.{◌≡◌, ◌+◌, ◌-◌, ◌≤◌, ◌<◌, ◌++◌, replicate, length, take, IfSome, IfNone};
ghost use Rattle.seg_core.specs.Line.{delimiters};
ghost use Rattle.split_core.specs.inner.Ahead.{IsFirstLine, Sees, delimiter_mask};

use std::marker::Model;
use std::simd::prelude::*;

/// How many bytes are looked at in one step.
const STEP: usize = 64;

/// The complete lines of a text, one after another, and what is left after the last. It takes no memory. Delimiters are
/// found for many bytes at once, so that a short line takes no search of its own.
#[derive(Drop)]
pub(crate) struct CompleteLines<'a> {
    left: &'a [u8],
    /// The byte that lines end with.
    delim: u8,
    ahead: Ahead,
}

/// What was seen of the text that is left.
#[derive(Clone, Copy)]
struct Ahead {
    /// This many bytes at the front have no delimiter.
    passed: usize,
    /// This many bytes after those are known.
    width: usize,
    /// Which of the known bytes are delimiters; the first byte is the lowest bit.
    mask: u64,
}

impl<'a> Model for CompleteLines<'a> {
    ghost use Rattle.seg_core.specs.Line.{LinesLeft};
    ghost use Rattle.split_core.specs.inner.Ahead.{Sees};

    ghost Value = { LinesLeft };

    ghost view = { λ lines. record { delim = lines.delim; text = lines.left.now } };

    ghost invariant = { λ lines. Sees lines.delim lines.left.now lines.ahead };
}

impl<'a> CompleteLines<'a> {
    pub(crate) fn new(text: &'a [u8], delim: u8) -> CompleteLines<'a>
        ensures { result ≡ record { delim = delim; text = text.now } }
    {
        CompleteLines {
            left: text,
            delim,
            ahead: Ahead {
                passed: 0,
                width: 0,
                mask: 0,
            },
        }
    }

    /// The next line; none if no complete line is left.
    #[inline(always)]
    pub(crate) fn next(&mut self) -> Option<&'a [u8]>
        ensures some { IfSome result (λ line. IsFirstLine self.old.delim self.old.text line.now self.new.text) }
        ensures none { IfNone result (delimiters self.old.delim self.old.text ≡ 0) }
        ensures stays { IfNone result (self.new ≡ self.old) }
        ensures same { self.new.delim ≡ self.old.delim }
    {
        let ahead = find(self.left, self.delim, self.ahead);
        if ahead.mask == 0 {
            return None;
        }
        let bit = ahead.mask.trailing_zeros() as usize;
        let (line, rest) = self.left.split_at(ahead.passed + bit + 1);
        self.left = rest;
        self.ahead = Ahead {
            passed: 0,
            width: ahead.width - (bit + 1),
            mask: ahead.mask >> bit >> 1,
        };
        Some(line)
    }

    /// What is left.
    pub(crate) fn rest(&self) -> &'a [u8]
        ensures { result.now ≡ self.now.text }
    {
        self.left
    }
}

/// Looks further until a delimiter is seen, or the end.
#[inline(always)]
fn find(text: &[u8], delim: u8, ahead: Ahead) -> Ahead
    requires { Sees delim text.now ahead }
    ensures sees { Sees delim text.now result }
    ensures found { result.mask ≡ 0 → result.passed + result.width ≡ length text.now }
{
    let mut ahead = ahead;
    'blocks: while ahead.mask == 0 {
        let passed = ahead.passed + ahead.width;
        if passed == text.len() {
            return ahead;
        }
        ahead = Ahead {
            passed,
            width: STEP.min(text.len() - passed),
            mask: mask_of(&text[passed..], delim),
        };
    }
    ahead
}

/// Which of the first `STEP` bytes are delimiters: the first byte is the lowest bit.
#[inline(always)]
fn mask_of(bytes: &[u8], delim: u8) -> u64
    ensures { result ≡ delimiter_mask delim (take STEP bytes.now) }
{
    if STEP <= bytes.len() {
        return mask_of_step(bytes, delim);
    }
    mask_of_step(&padded(bytes, !delim), delim)
}

/// The bytes, with another one after them as often as fits.
#[inline(never)]
fn padded(bytes: &[u8], other: u8) -> [u8; STEP]
    requires { length bytes.now < STEP }
    ensures { result ≡ bytes.now ++ replicate (STEP - length bytes.now) other }
{
    let mut lanes = [other; STEP];
    lanes[..bytes.len()].copy_from_slice(bytes);
    lanes
}

#[inline(always)]
fn mask_of_step(bytes: &[u8], delim: u8) -> u64
    requires { STEP ≤ length bytes.now }
    ensures { result ≡ delimiter_mask delim (take STEP bytes.now) }
{
    u8x64::from_slice(bytes)
        .simd_eq(u8x64::splat(delim))
        .to_bitmask()
}
