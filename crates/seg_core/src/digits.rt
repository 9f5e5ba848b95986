//! Numbers that are written in digits alone.
ghost use Rattle.std.specs.{Prelude.{◌≡◌, ◌-◌, ◌^◌, min, take}, List.prefix_len, Char.is_ascii_digit};
ghost use Rattle.seg_core.specs.Count.{digits_of, value_of};

use crate::count::CountFault;

/// The greatest number and the greatest amount of a count, 2^63 - 1.
pub const GREATEST: u64 = 0x7fff_ffff_ffff_ffff;

/// Reads a number: one or more digits and nothing else, at most 2^63 - 1. It takes no memory, and
/// time linear in the text.
///
/// # Errors
///
/// `NoDigits` if the text is empty or has any other byte, `TooLarge` if the number is above 2^63 - 1. It takes no suffix, so `Suffix` never
/// comes.
pub fn read_digits(text: &[u8]) -> Result<u64, CountFault>
    ensures { result ≡ digits_of text.now }
{
    let (value, end) = leading_number(text);
    if end == 0 || end < text.len() {
        return Err(CountFault::NoDigits);
    }
    if value <= GREATEST {
        Ok(value)
    } else {
        Err(CountFault::TooLarge)
    }
}

/// The value of the digits that a text begins with, or the greatest `u64` if the value is above that, and the number of these digits. It
/// takes no memory, and time linear in these.
pub fn leading_number(text: &[u8]) -> (u64, usize)
    ensures value { result.0 ≡ min (value_of (take result.1 text.now)) (2 ^ 64 - 1) }
    ensures digits { result.1 ≡ prefix_len is_ascii_digit text.now }
{
    let mut value: u64 = 0;
    for (place, byte) in text.iter().enumerate() {
        if !byte.is_ascii_digit() {
            return (value, place);
        }
        value = value
            .saturating_mul(10)
            .saturating_add(u64::from(*byte - b'0'));
    }
    (value, text.len())
}
