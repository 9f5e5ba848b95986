//! A number with letters as the first word: after a hyphen, as `-5c` of `head` and `-20f` of `tail`, or after a `+`, as
//! `+5` of `tail` (GNU's, from before POSIX).
ghost use Rattle.std.specs.Prelude.{◌≡◌, ◌+◌, ◌-◌, ◌^◌, ◌==◌, if◌then◌else◌, length, map, min, true};
ghost use Rattle.seg_core.specs.Count.{after_digits, leading_digits, value_of};
ghost use Rattle.words_core.specs.{
  inner.Spelling.Adds,
  Lettered.{are_known, are_of_tail, is_lettered, is_start, is_taken, others, switched, times, unit_in, unit_of},
  Spelling.{cluster, with_letters},
  Table.{option_lettered, row_seen},
};

use crate::choice::Choice;
use crate::spelled::Spelled;
use crate::spelling::{State, is_number};
use crate::table::{Letters, OptionRow, Takes, find_letter, is_among};
use ports_core::{Calling, Fault, UsageKind};
use seg_core::count::{Count, Sign};
use seg_core::digits::{GREATEST, leading_number};
use seg_core::unit::Unit;

/// The number that stands for missing digits.
const TEN: u64 = 10;

/// Whether a text that follows a hyphen is a number with letters, if these letters may follow digits.
pub fn is_lettered(rows: &[OptionRow], letters: Letters, text: &[u8]) -> bool
    ensures { result ≡ is_lettered (map row_seen rows.now) letters text.now }
{
    are_known(rows, after_digits(text)) && is_taken(letters, text)
}

/// Whether a tool that takes these letters takes this text.
fn is_taken(letters: Letters, text: &[u8]) -> bool
    ensures { result ≡ is_taken letters text.now }
{
    let rest = after_digits(text);
    let has_digits = rest.len() < text.len();
    match letters {
        Letters::Never => false,
        Letters::OfHead => has_digits,
        Letters::OfTail => {
            are_of_tail(rest) && (has_digits || is_among(&["b", "bf", "l", "lf"], text))
        }
    }
}

/// Whether a text that follows a `+` says where `tail` begins, if the program is called in this way.
pub fn is_start(calling: Calling, rows: &[OptionRow], letters: Letters, text: &[u8]) -> bool
    ensures { result ≡ is_start calling (map row_seen rows.now) letters text.now }
{
    match (calling, letters) {
        (Calling::OwnName, Letters::OfTail) => {
            are_known(rows, after_digits(text))
                && (is_number(text) || is_taken(letters, text) || is_among(&["c", "cf"], text))
        }
        _ => false,
    }
}

/// What follows the digits that a text begins with.
fn after_digits(text: &[u8]) -> &[u8]
    ensures value { result.now ≡ after_digits text.now }
    ensures digits { length (leading_digits text.now) + length result.now ≡ length text.now }
{
    let (_, end) = leading_number(text);
    &text[end..]
}

/// Whether each of these letters says what is counted, or names an option that may stand without a value, and at most one
/// says what is counted.
fn are_known(rows: &[OptionRow], letters: &[u8]) -> bool
    ensures { result ≡ are_known (map row_seen rows.now) letters.now }
{
    let mut units = 0usize;
    for letter in letters {
        if unit_of(*letter).is_some() {
            units += 1;
        } else if find_switch(rows, *letter).is_none() {
            return false;
        }
    }
    units < 2
}

/// What the option of this letter asks for, if it may stand without a value.
fn find_switch(rows: &[OptionRow], letter: u8) -> Option<Choice<'static>>
    ensures { result ≡ switched (option_lettered (map row_seen rows.now) letter) }
{
    match find_letter(rows, letter) {
        Some(Takes::Nothing(choice) | Takes::Optional(choice, _)) => Some(choice),
        _ => None,
    }
}

fn are_of_tail(letters: &[u8]) -> bool
    ensures { result ≡ are_of_tail letters.now }
{
    is_among(&["f", "b", "bf", "c", "cf", "l", "lf"], letters)
}

/// The unit that a letter after the digits stands for, and the factor of the number.
fn unit_of(letter: u8) -> Option<(Unit, u64)>
    ensures { result ≡ unit_of letter }
{
    match letter {
        b'b' => Some((Unit::Bytes, 512)),
        b'c' => Some((Unit::Bytes, 1)),
        b'k' => Some((Unit::Bytes, 1_024)),
        b'l' => Some((Unit::Lines, 1)),
        b'm' => Some((Unit::Bytes, 1_048_576)),
        _ => None,
    }
}

/// The unit and the factor of the first letter that has them; lines, if no letter has them.
fn unit_in(letters: &[u8]) -> (Unit, u64)
    ensures { result ≡ unit_in letters.now }
{
    for letter in letters {
        if let Some(unit) = unit_of(*letter) {
            return unit;
        }
    }
    (Unit::Lines, 1)
}

/// The number that the digits at the front of a text write, or ten without digits, and at most the greatest `u64`.
fn leading_or_ten(text: &[u8]) -> u64
    ensures { result ≡ min (if length (leading_digits text.now) == 0 then 10 else value_of (leading_digits text.now))
        (2 ^ 64 - 1) }
{
    match leading_number(text) {
        (_, 0) => TEN,
        (number, _) => number,
    }
}

/// The count that the digits at the front of a text write, or ten without digits, times `each`.
fn times(sign: Sign, text: &[u8], each: u64) -> Result<Count, UsageKind>
    ensures { result ≡ times sign (leading_digits text.now) each }
{
    let amount = leading_or_ten(text).saturating_mul(each);
    if amount <= GREATEST {
        Ok(Count { sign, amount })
    } else {
        Err(UsageKind::NumberTooLarge)
    }
}

/// Reads a number with letters: the count, and the option of each letter that doesn't say what is counted.
pub fn read_lettered<'a>(
    rows: &[OptionRow],
    sign: Sign,
    place: usize,
    text: &[u8],
    spelled: &mut Spelled<'a>,
) -> Result<State, Fault>
    requires { are_known (map row_seen rows.now) (after_digits text.now) ≡ true }
    ensures { Adds (with_letters (map row_seen rows.now) sign place text.now) spelled.old spelled.new result }
{
    let letters = after_digits(text);
    let (unit, each) = unit_in(letters);
    match times(sign, text, each) {
        Ok(count) => {
            spelled.add_option(Choice::Amount(unit, count), place)?;
            add_switches(rows, place, letters, spelled)
        }
        Err(fault) => Err(Fault::Usage(fault, place)),
    }
}

/// Adds the option of each letter that doesn't say what is counted.
fn add_switches<'a>(
    rows: &[OptionRow],
    place: usize,
    letters: &[u8],
    spelled: &mut Spelled<'a>,
) -> Result<State, Fault>
    requires { are_known (map row_seen rows.now) letters.now ≡ true }
    ensures { Adds (cluster (map row_seen rows.now) place (others letters.now)) spelled.old spelled.new result }
{
    for letter in letters {
        if unit_of(*letter).is_some() {
            continue;
        }
        if let Some(choice) = find_switch(rows, *letter) {
            spelled.add_option(choice, place)?;
        }
    }
    Ok(State::Reading)
}
