//! Counts, as options take them: an optional sign, digits, and a suffix that stands for a factor.
//! One table serves all counts, with GNU coreutils' suffixes up to T (its manual, "Block size").
ghost use Rattle.std.specs.Prelude.{◌≡◌, map, ◌≤◌, IfSome};
ghost use Rattle.seg_core.specs.Count.{after_sign, beside, count_of, factor_of, sign_of};

use crate::digits::{GREATEST, leading_number};
use thiserror::Error;

/// The sign before a count's digits.
#[derive(Clone, Copy, Debug, PartialEq, Eq)]
pub enum Sign {
    /// No sign.
    Plain,
    /// `-`
    Minus,
    /// `+`
    Plus,
}

/// A count: its amount is the digits' value times the suffix's factor, at most 2^63 - 1.
#[derive(Clone, Copy, Debug, PartialEq, Eq)]
pub struct Count {
    /// The sign before the digits.
    pub sign: Sign,
    /// The digits' value times the factor.
    pub amount: u64,
}

/// Why a text isn't a count: the first of these that is true.
#[derive(Clone, Copy, Debug, PartialEq, Eq, Error)]
pub enum CountFault {
    /// No digit stands first, or first after the sign.
    #[error("no digits")]
    NoDigits,
    /// What follows the digits is no suffix.
    #[error("no such suffix")]
    Suffix,
    /// The amount is above 2^63 - 1.
    #[error("too large")]
    TooLarge,
}

// Each suffix and its factor.
const SUFFIXES: [(&[u8], u64); 17] = [
    (b"", 1),
    (b"b", 512),
    (b"kB", 1_000),
    (b"KB", 1_000),
    (b"k", 1_024),
    (b"K", 1_024),
    (b"KiB", 1_024),
    (b"MB", 1_000_000),
    (b"m", 1_048_576),
    (b"M", 1_048_576),
    (b"MiB", 1_048_576),
    (b"GB", 1_000_000_000),
    (b"G", 1_073_741_824),
    (b"GiB", 1_073_741_824),
    (b"TB", 1_000_000_000_000),
    (b"T", 1_099_511_627_776),
    (b"TiB", 1_099_511_627_776),
];

/// Reads a count: an optional `+` or `-`, one or more digits, and a suffix. It takes no memory,
/// and time linear in the text.
///
/// # Errors
///
/// The first of these that is true: `NoDigits` if no digit stands first, or first after the sign; `Suffix` if what follows the digits is no
/// suffix; `TooLarge` if the amount is above 2^63 - 1.
pub fn read_count(text: &[u8]) -> Result<Count, CountFault>
    ensures { result ≡ count_of text.now }
{
    let (sign, unsigned) = split_sign(text);
    let (value, end) = leading_number(unsigned);
    if end == 0 {
        return Err(CountFault::NoDigits);
    }
    let Some(factor) = factor(&unsigned[end..]) else {
        return Err(CountFault::Suffix);
    };
    let amount = value.saturating_mul(factor);
    if amount <= GREATEST {
        Ok(Count { sign, amount })
    } else {
        Err(CountFault::TooLarge)
    }
}

fn split_sign(text: &[u8]) -> (Sign, &[u8])
    ensures sign { result.0 ≡ sign_of text.now }
    ensures rest { result.1.now ≡ after_sign text.now }
{
    match text {
        [b'+', rest @ ..] => (Sign::Plus, rest),
        [b'-', rest @ ..] => (Sign::Minus, rest),
        _ => (Sign::Plain, text),
    }
}

// The factor that a suffix stands for.
fn factor(suffix: &[u8]) -> Option<u64>
    ensures value { result ≡ factor_of suffix.now }
    ensures some { IfSome result (λ factor. 1 ≤ factor) }
{
    look_up(&SUFFIXES, suffix)
}

fn look_up(mut table: &[(&[u8], u64)], suffix: &[u8]) -> Option<u64>
    ensures { result ≡ beside (map (λ row. (row.0.now, row.1)) table.entry.now) suffix.now }
{
    while let [row, rest @ ..] = table {
        if row.0 == suffix {
            return Some(row.1);
        }
        table = rest;
    }
    None
}
