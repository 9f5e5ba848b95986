//! What the value of an option says (POSIX.1-2017, XBD 12.1; XCU head, tail and split; the suffixes of counts are
//! GNU's).
ghost use Rattle.std.specs.{
  Prelude.{◌≡◌, ◌==◌, ◌≤◌, ◌+◌, ◌-◌, ◌*◌, ◌^◌, [], ◌∷◌, ℕ, Ok, Err, true, IfOk, IfErr, IfNone, IfSome, map, min, option_map},
  Char.is_ascii_digit,
  List.list_all,
};
ghost use Rattle.seg_core.specs.Count.{count_of, digits_of};
ghost use Rattle.words_core.specs.{
  Value.{byte_in, counted, ending_in, followed_in, fraction_in, fraction_of, hex_in, milliseconds, not_zero},
  Value.{number_fault, on_broken_in, only_value, pause_in, positive_in, size_in, up_to, value_by, value_in, values_from},
  inner.Value.value_seen,
};

use ports_core::{Calling, OnBroken, UsageKind};
use seg_core::count::{Count, CountFault, read_count};
use seg_core::digits::{GREATEST, leading_number, read_digits};

/// What `tail` follows.
#[derive(Clone, Copy, PartialEq, Eq)]
pub enum Followed {
    /// The files that were opened at first, wherever their names lead.
    Descriptor,
    /// The files to which the names lead. A name that leads nowhere is looked for again.
    Name,
    /// The files to which the names lead, while they lead to any. A name that leads nowhere is dropped. No value asks for it.
    PresentName,
    /// The first file to which each name leads at any time, wherever it leads later. No value asks for it.
    FirstFile,
}

/// The greatest width of a suffix.
pub(crate) const WIDEST: u64 = 255;

/// The greatest number of looks.
pub const MOST_LOOKS: u64 = GREATEST;

/// What may be followed, as the value of `--follow` says it.
const FOLLOW_VALUES: &[(&str, Followed)] = &[
    ("descriptor", Followed::Descriptor),
    ("name", Followed::Name),
];

/// What may be done once an output is broken, as the value of `--output-error` says it.
const ON_BROKEN_VALUES: &[(&str, OnBroken)] = &[
    ("warn", OnBroken::Warn),
    ("exit", OnBroken::Exit),
    ("warn-nopipe", OnBroken::WarnNoPipe),
    ("exit-nopipe", OnBroken::ExitNoPipe),
];

/// The largest number that a process can have.
const LAST_PROCESS: u64 = 0x7fff_ffff;

/// Reads a count with or without a sign.
pub(crate) fn read_amount(text: &[u8]) -> Result<Count, UsageKind>
    ensures { result ≡ counted (count_of text.now) }
{
    match read_count(text) {
        Ok(count) => Ok(count),
        Err(fault) => Err(number_fault(fault)),
    }
}

/// Reads a count, at least 1. A `-` is a bad number, whatever follows it.
pub(crate) fn read_size(text: &[u8]) -> Result<u64, UsageKind>
    ensures { result ≡ size_in text.now }
{
    match text {
        [b'-', ..] => Err(UsageKind::BadNumber),
        _ => not_zero(read_amount(text)?.amount),
    }
}

/// Reads digits alone, a number up to a limit.
pub(crate) fn read_number(text: &[u8], limit: u64) -> Result<u64, UsageKind>
    ensures value { result ≡ up_to limit (digits_of text.now) }
    ensures bound { IfOk result (λ number. number ≤ limit) }
{
    match read_digits(text) {
        Ok(number) if number <= limit => Ok(number),
        Ok(_) => Err(UsageKind::NumberTooLarge),
        Err(fault) => Err(number_fault(fault)),
    }
}

/// Reads digits in hexadecimal alone, a number up to 2^63-1.
pub(crate) fn read_hex(text: &[u8]) -> Result<u64, UsageKind>
    ensures { result ≡ hex_in text.now }
{
    let mut number: u64 = 0;
    for byte in text {
        let Some(digit) = char::from(*byte).to_digit(16) else {
            return Err(UsageKind::BadNumber);
        };
        number = number.saturating_mul(16).saturating_add(u64::from(digit));
    }
    if text.is_empty() {
        return Err(UsageKind::BadNumber);
    }
    if number > GREATEST {
        return Err(UsageKind::NumberTooLarge);
    }
    Ok(number)
}

/// Reads the number of a process.
pub(crate) fn read_process(text: &[u8]) -> Result<u32, UsageKind>
    ensures { result ≡ positive_in (2 ^ 31 - 1) text.now }
{
    Ok(not_zero(read_number(text, LAST_PROCESS)?)? as u32)
}

/// Reads one byte, or the two bytes `\0`, which stand for byte 0.
pub(crate) fn read_byte(text: &[u8]) -> Result<u8, UsageKind>
    ensures { result ≡ byte_in text.now }
{
    match text {
        [byte] => Ok(*byte),
        [b'\\', b'0'] => Ok(0),
        _ => Err(UsageKind::BadSeparator),
    }
}

/// Reads the ending of names: a text without `/`.
pub(crate) fn read_ending(text: &str) -> Result<&str, UsageKind>
    ensures ok { IfOk result (λ ending. ending_in text.now ≡ Ok ending.now) }
    ensures err { IfErr result (λ fault. ending_in text.now ≡ Err fault) }
{
    if text.as_bytes().contains(&b'/') {
        return Err(UsageKind::BadSuffix);
    }
    Ok(text)
}

/// Reads what is followed.
pub(crate) fn read_followed(calling: Calling, text: &str) -> Result<Followed, UsageKind>
    ensures { result ≡ followed_in calling text.now }
{
    find_value(calling, FOLLOW_VALUES, text).ok_or(UsageKind::BadFollow)
}

/// Reads what a run does once an output is broken.
pub(crate) fn read_on_broken(calling: Calling, text: &str) -> Result<OnBroken, UsageKind>
    ensures { result ≡ on_broken_in calling text.now }
{
    find_value(calling, ON_BROKEN_VALUES, text).ok_or(UsageKind::BadMode)
}

/// The value of this text, or else, by a tool's own name, the only one that begins so.
fn find_value<A: Copy>(calling: Calling, values: &[(&str, A)], text: &str) -> Option<A>
    ensures { result ≡ value_by calling (map value_seen values.now) text.now }
{
    match (value_in(values, text), calling) {
        (None, Calling::OwnName) => only_value_from(values, text),
        (found, _) => found,
    }
}

/// The value of this text.
fn value_in<A: Copy>(values: &[(&str, A)], text: &str) -> Option<A>
    ensures { result ≡ value_in (map value_seen values.now) text.now }
{
    for value in values {
        if value.0 == text {
            return Some(value.1);
        }
    }
    None
}

/// The only value that begins so.
fn only_value_from<A: Copy>(values: &[(&str, A)], start: &str) -> Option<A>
    ensures { result ≡ only_value (values_from (map value_seen values.now) start.now) }
{
    let (found, rest) = first_value_from(values, start)?;
    match first_value_from(rest, start) {
        None => Some(found.1),
        Some(_) => None,
    }
}

/// The first value that begins so, and those after it.
fn first_value_from<'a, 'b, A: Copy>(
    values: &'a [(&'b str, A)],
    start: &str,
) -> Option<(&'a (&'b str, A), &'a [(&'b str, A)])>
    ensures none { IfNone result (values_from (map value_seen values.now) start.now ≡ []) }
    ensures some { IfSome result
        (λ found. values_from (map value_seen values.now) start.now
        ≡ value_seen found.0.now ∷ values_from (map value_seen found.1.now) start.now) }
{
    let mut left = values;
    while let [value, rest @ ..] = left {
        if value.0.as_bytes().starts_with(start.as_bytes()) {
            return Some((value, rest));
        }
        left = rest;
    }
    None
}

/// Reads seconds: digits, which may have a `.` before, among or after them. Returns them as milliseconds, rounded up, 2^63-1 at
/// most.
pub(crate) fn read_pause(text: &[u8]) -> Result<u64, UsageKind>
    ensures { result ≡ pause_in text.now }
{
    let (whole, count) = leading_number(text);
    match fraction_in(&text[count..]) {
        Some(fraction) if count > 0 || !fraction.is_empty() => Ok(milliseconds(whole, fraction)),
        _ => Err(UsageKind::BadNumber),
    }
}

/// The digits after a `.`; none where nothing is left.
fn fraction_in(text: &[u8]) -> Option<&[u8]>
    ensures { option_map (λ digits. digits.now) result ≡ fraction_in text.now }
{
    match text {
        [] => Some(text),
        [b'.', digits @ ..] if are_digits(digits) => Some(digits),
        _ => None,
    }
}

/// Whether all of them are digits.
fn are_digits(text: &[u8]) -> bool
    ensures { result ≡ list_all is_ascii_digit text.now }
{
    for byte in text {
        if !byte.is_ascii_digit() {
            return false;
        }
    }
    true
}

/// Whether all of them are the digit 0.
fn are_zeros(digits: &[u8]) -> bool
    ensures { result ≡ list_all (λ digit. digit == 48) digits.now }
{
    for digit in digits {
        if *digit != b'0' {
            return false;
        }
    }
    true
}

/// Seconds and a fraction of one as milliseconds, rounded up, 2^63-1 at most.
fn milliseconds(whole: u64, fraction: &[u8]) -> u64
    requires { list_all is_ascii_digit fraction.now ≡ true }
    ensures { (seconds : ℕ) → whole ≡ min seconds (2 ^ 64 - 1) → result ≡ milliseconds seconds fraction.now }
{
    whole
        .saturating_mul(1000)
        .saturating_add(fraction_of(100, fraction))
        .min(GREATEST)
}

/// What digits write where the first counts `unit` and each next one a tenth of the one before it, rounded up.
fn fraction_of(unit: u64, digits: &[u8]) -> u64
    requires digits { list_all is_ascii_digit digits.now ≡ true }
    requires small { unit ≤ 100 }
    ensures value { result ≡ fraction_of unit digits.now }
    ensures bound { result ≤ 10 * unit + 1 }
{
    match digits {
        [] => 0,
        [digit, rest @ ..] => {
            if unit == 0 {
                u64::from(!are_zeros(digits))
            } else {
                u64::from(*digit - b'0') * unit + fraction_of(unit / 10, rest)
            }
        }
    }
}

/// A number that is at least 1.
pub(crate) fn not_zero(number: u64) -> Result<u64, UsageKind>
    ensures { result ≡ not_zero number }
{
    if number == 0 {
        return Err(UsageKind::Zero);
    }
    Ok(number)
}

fn number_fault(fault: CountFault) -> UsageKind
    ensures { result ≡ number_fault fault }
{
    match fault {
        CountFault::NoDigits | CountFault::Suffix => UsageKind::BadNumber,
        CountFault::TooLarge => UsageKind::NumberTooLarge,
    }
}
