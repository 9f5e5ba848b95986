ghost use Rattle.std.specs.{
  Prelude.{nat_lt, ◌≡◌, ◌++◌, ◌∷◌, [], ◌+◌, ◌*◌, ◌≤◌, ◌<◌, ◌^◌, replicate, decimal, string_bytes, IsTrue, IfOk},
  Prelude.SomeIff,
};
ghost use Rattle.ports_core.specs.{
  Name.{radix, written, suffix_at, has_suffix, widening_suffix, zero_filled, IsWide, block_size},
  inner.Name.IsInBlock,
};

use crate::{Alphabet, Form};
use itoa::Buffer;
use std::alloc::AllocError;

/// How a name writes the number of its place.
#[derive(Clone, Copy)]
pub enum Numbering {
    /// With this many characters of the alphabet (POSIX.1-2017, XCU split, `-a`). Place 0 has this number (GNU
    /// coreutils manual, split, `--numeric-suffixes`). There are as many places as the characters can number.
    Fixed(Alphabet, u32, u64),
    /// With this many characters of the alphabet, at least 1, and with more characters before the first of them becomes
    /// the last of the alphabet. So there is always a next number, and numbers stay in order (GNU coreutils manual,
    /// split).
    Widening(Alphabet, u32),
    /// In a form, with at least as many digits as the form says (POSIX.1-2017, XCU csplit, `-n`; its `-b` is GNU's).
    Formatted(Form),
}

impl Numbering {
    /// Whether a place has a number.
    pub(crate) fn has(self, place: u64) -> bool
        ensures { result ≡ has_suffix self place }
    {
        match self {
            Numbering::Fixed(alphabet, width, from) => {
                is_counted(alphabet, width, number_at(from, place))
            }
            Numbering::Widening(..) | Numbering::Formatted(_) => true,
        }
    }

    /// Appends the number of a place that has a number.
    pub(crate) fn push(self, name: &mut String, place: u64) -> Result<(), AllocError>
        requires wide { IsWide self }
        requires has { IsTrue (has_suffix self place) }
        ensures { IfOk result (λ _. string_bytes name.new ≡ string_bytes name.old ++ suffix_at self place) }
    {
        match self {
            Numbering::Fixed(alphabet, width, from) => {
                push_sum(name, alphabet, width as usize, number_at(from, place))
            }
            Numbering::Widening(alphabet, width) => push_widened(name, alphabet, width, place),
            Numbering::Formatted(form) => form.push(name, place),
        }
    }
}

/// The number of a place, if place 0 has the number `from`.
fn number_at(from: u64, place: u64) -> u128
    ensures { result ≡ from + place }
{
    u128::from(from) + u128::from(place)
}

/// Whether a number can be written with this many digits.
fn is_counted(alphabet: Alphabet, digits: u32, number: u128) -> bool
    ensures { result ≡ nat_lt number (radix alphabet ^ digits) }
{
    match u128::from(alphabet.radix()).checked_pow(digits) {
        Some(count) => number < count,
        None => true,
    }
}

/// Appends the number of a place, if numbers widen.
fn push_widened(
    name: &mut String,
    alphabet: Alphabet,
    width: u32,
    place: u64,
) -> Result<(), AllocError>
    requires { 0 < width }
    ensures { IfOk result (λ _. string_bytes name.new ≡ string_bytes name.old ++ widening_suffix alphabet width place) }
{
    let (block, number) = block_at(alphabet, width, place);
    push_copies(name, alphabet.last(), block)?;
    push_number(name, alphabet, width as usize + block, number)
}

/// How many times numbers have widened before the number at this place, and which number it is among those of its
/// width.
fn block_at(alphabet: Alphabet, width: u32, place: u64) -> (usize, u64)
    requires { 0 < width }
    ensures block { IsInBlock alphabet width place result.0 result.1 }
    ensures few { 2 * result.0 ≤ place }
{
    let mut block = 0;
    let mut number = place;
    let mut size = first_block(alphabet, width);
    'blocks: while let Some(names) = size
        && names <= number
    {
        number -= names;
        block += 1;
        size = names.checked_mul(alphabet.radix());
    }
    (block, number)
}

/// How many names there are before they widen. None if 64 bits don't count them.
fn first_block(alphabet: Alphabet, width: u32) -> Option<u64>
    requires { 0 < width }
    ensures { SomeIff result (block_size alphabet width 0 < 2 ^ 64) (block_size alphabet width 0) }
{
    let power = alphabet.radix().checked_pow(width - 1)?;
    (alphabet.radix() - 1).checked_mul(power)
}

/// Appends a number with this many digits. The machine divides numbers of 64 bits by itself; hardly any number is
/// greater.
fn push_sum(
    name: &mut String,
    alphabet: Alphabet,
    digits: usize,
    number: u128,
) -> Result<(), AllocError>
    requires { number < radix alphabet ^ digits }
    ensures { IfOk result (λ _. string_bytes name.new ≡ string_bytes name.old ++ written alphabet digits number) }
{
    if let Ok(number) = u64::try_from(number) {
        return push_number(name, alphabet, digits, number);
    }
    if digits == 0 {
        return Ok(());
    }
    let radix = u128::from(alphabet.radix());
    push_sum(name, alphabet, digits - 1, number / radix)?;
    push_ascii(name, alphabet.character((number % radix) as u8))
}

/// Appends a number with this many digits.
pub(crate) fn push_number(
    name: &mut String,
    alphabet: Alphabet,
    digits: usize,
    number: u64,
) -> Result<(), AllocError>
    requires { number < radix alphabet ^ digits }
    ensures { IfOk result (λ _. string_bytes name.new ≡ string_bytes name.old ++ written alphabet digits number) }
{
    if digits == 0 {
        return Ok(());
    }
    let radix = alphabet.radix();
    push_number(name, alphabet, digits - 1, number / radix)?;
    push_ascii(name, alphabet.character((number % radix) as u8))
}

/// Appends a number in decimal, with zeros before it if it has fewer digits.
pub(crate) fn push_decimal(name: &mut String, digits: usize, number: u64) -> Result<(), AllocError>
    ensures { IfOk result (λ _. string_bytes name.new ≡ string_bytes name.old ++ zero_filled digits (decimal number)) }
{
    let mut buffer = Buffer::new();
    let text = buffer.format(number);
    push_copies(name, b'0', digits.saturating_sub(text.len()))?;
    name.push_str(text)
}

pub(crate) fn push_copies(name: &mut String, character: u8, count: usize) -> Result<(), AllocError>
    requires { character < 128 }
    ensures { IfOk result (λ _. string_bytes name.new ≡ string_bytes name.old ++ replicate count character) }
{
    'copies: for _ in 0..count {
        push_ascii(name, character)?;
    }
    Ok(())
}

fn push_ascii(name: &mut String, character: u8) -> Result<(), AllocError>
    requires { character < 128 }
    ensures { IfOk result (λ _. string_bytes name.new ≡ string_bytes name.old ++ character ∷ []) }
{
    name.push(character as char)
}
