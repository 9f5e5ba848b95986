//! Sets of at most three bytes, which are looked for in a text all at once.

ghost use Rattle.std.specs.Prelude.{◌≡◌, ◌<◌, ◌≤◌, ℕ, Bool, IsTrue, length, true};
ghost use Rattle.bre_core.specs.ByteSet.{has};
ghost use Rattle.memchr.specs.Find.{IsFirstByte, Nowhere, Passes};
ghost use Rattle.scan_core.specs.inner.Needles.{is_among};

use bre_core::ByteSet;
use memchr::arch::all::packedpair::{DefaultFrequencyRank, HeuristicFrequencyRank};
use memchr::{memchr, memchr2, memchr3};

/// Above each byte's rank: what has it is too common to be looked for.
pub const COMMON: u16 = 256;

/// The bytes of a set, as far as they are at most three.
#[derive(Clone, Copy)]
pub enum FewBytes {
    Zero,
    One(u8),
    Two(u8, u8),
    Three(u8, u8, u8),
    /// Any byte.
    More,
}

/// How common a byte is in text: a lower number is a rarer byte. These are the ranks of the crate `memchr`, which were
/// counted in English and other texts, source code and programs.
fn rank_of(byte: u8) -> u16 {
    u16::from(DefaultFrequencyRank.rank(byte))
}

/// The place that was found, or else the text's end.
fn place_or_end(found: Option<usize>, text: &[u8]) -> usize
    ensures within { (test : ℕ → Bool) → IsFirstByte test text.now found → result ≤ length text.now }
    ensures none { (test : ℕ → Bool) → IsFirstByte test text.now found → Nowhere (Passes test text.now) 0 result }
{
    match found {
        Some(place) => place,
        None => text.len(),
    }
}

impl FewBytes {
    /// These bytes and one more.
    fn with(self, byte: u8) -> FewBytes
        ensures others { (other : ℕ) → is_among self other ≡ true → is_among result other ≡ true }
        ensures byte { is_among result byte ≡ true }
    {
        match self {
            FewBytes::Zero => FewBytes::One(byte),
            FewBytes::One(first) => FewBytes::Two(first, byte),
            FewBytes::Two(first, second) => FewBytes::Three(first, second, byte),
            FewBytes::Three(_, _, _) => FewBytes::More,
            FewBytes::More => FewBytes::More,
        }
    }

    /// The bytes of a set.
    pub fn of(set: &ByteSet) -> FewBytes
        ensures { (byte : ℕ) → byte < 256 → IsTrue (has set.now byte) → is_among result byte ≡ true }
    {
        let mut few = FewBytes::Zero;
        for byte in 0..256usize {
            if set.contains(byte as u8) {
                few = few.with(byte as u8);
            }
        }
        few
    }

    /// How common the most common of these bytes is; `COMMON` of more than three.
    pub fn rank(self) -> u16 {
        match self {
            FewBytes::Zero => 0,
            FewBytes::One(first) => rank_of(first),
            FewBytes::Two(first, second) => rank_of(first).max(rank_of(second)),
            FewBytes::Three(first, second, third) => {
                rank_of(first).max(rank_of(second)).max(rank_of(third))
            }
            FewBytes::More => COMMON,
        }
    }

    /// Where the first of these bytes stands in a text, or else the text's end.
    pub fn find(self, text: &[u8]) -> usize
        ensures within { result ≤ length text.now }
        ensures none { Nowhere (Passes (is_among self) text.now) 0 result }
    {
        match self {
            FewBytes::Zero => text.len(),
            FewBytes::One(first) => place_or_end(memchr(first, text), text),
            FewBytes::Two(first, second) => place_or_end(memchr2(first, second, text), text),
            FewBytes::Three(first, second, third) => {
                place_or_end(memchr3(first, second, third, text), text)
            }
            FewBytes::More => 0,
        }
    }
}
