//! How a number is written, as a conversion of C's `printf` says it.
ghost use Rattle.std.specs.Prelude.{◌≡◌, ◌+◌, ◌<◌, ◌^◌, ◌++◌, length, string_bytes, IfOk};
ghost use Rattle.ports_core.specs.{
  Name.{alphabet_of, digit_count, digits_written, formatted, least_digits, mark_of, marked, radix, written},
};

use crate::Alphabet;
use crate::numbering::{push_copies, push_decimal, push_number};
use std::alloc::AllocError;

/// The base in which a number is written.
#[derive(Clone, Copy, Debug, PartialEq, Eq)]
pub enum Base {
    /// Base ten (`d`, `i`, `u`).
    Decimal,
    /// Base eight (`o`).
    Octal,
    /// Base sixteen, with `a` to `f` (`x`).
    Hex,
    /// Base sixteen, with `A` to `F` (`X`).
    Capitals,
}

/// What fills a number to its width.
#[derive(Clone, Copy, Debug, PartialEq, Eq)]
pub enum Filling {
    /// Zeros, between the mark and the digits (`0`).
    Zeros,
    /// Blanks before the number.
    BlanksBefore,
    /// Blanks after the number (`-`).
    BlanksAfter,
}

/// How a number is written: what flags, width, precision and letter of a conversion say (C standard, `fprintf`).
#[derive(Clone, Copy, Debug, PartialEq, Eq)]
pub struct Form {
    /// The base.
    pub base: Base,
    /// Whether octal digits begin with a 0, and hexadecimal digits stand after `0x` or `0X` (`#`).
    pub is_marked: bool,
    /// How many characters the number has at least.
    pub width: u8,
    /// What fills the number to this width.
    pub filling: Filling,
    /// How many digits the number has at least, if blanks fill it. If that is 0, the number 0 has no digit, except the
    /// one that `#` gives in octal.
    pub precision: u8,
}

impl Base {
    fn alphabet(self) -> Alphabet
        ensures { result ≡ alphabet_of self }
    {
        match self {
            Base::Decimal => Alphabet::Digits,
            Base::Octal => Alphabet::Octal,
            Base::Hex => Alphabet::Hex,
            Base::Capitals => Alphabet::Capitals,
        }
    }

    /// Appends a number with this many digits.
    fn push(self, name: &mut String, digits: usize, number: u64) -> Result<(), AllocError>
        requires { number < radix (alphabet_of self) ^ digits }
        ensures { IfOk result (λ _. string_bytes name.new
            ≡ string_bytes name.old ++ written (alphabet_of self) digits number) }
    {
        match self {
            Base::Decimal if digits > 0 => push_decimal(name, digits, number),
            _ => push_number(name, self.alphabet(), digits, number),
        }
    }
}

impl Form {
    /// Appends a number.
    pub(crate) fn push(self, name: &mut String, number: u64) -> Result<(), AllocError>
        ensures { IfOk result (λ _. string_bytes name.new ≡ string_bytes name.old ++ formatted self number) }
    {
        let mark = self.mark(number);
        let digits = self.digits(number);
        let blanks = usize::from(self.width).saturating_sub(mark.len() + digits);
        match self.filling {
            Filling::Zeros => self.push_marked(name, mark, digits, number),
            Filling::BlanksBefore => {
                push_copies(name, b' ', blanks)?;
                self.push_marked(name, mark, digits, number)
            }
            Filling::BlanksAfter => {
                self.push_marked(name, mark, digits, number)?;
                push_copies(name, b' ', blanks)
            }
        }
    }

    /// Appends a number without blanks, with its mark and with this many digits.
    fn push_marked(
        self,
        name: &mut String,
        mark: &str,
        digits: usize,
        number: u64,
    ) -> Result<(), AllocError>
        requires mark { mark.now ≡ mark_of self number }
        requires digits { digits ≡ digits_written self number }
        requires enough { number < radix (alphabet_of self.base) ^ digits }
        ensures { IfOk result (λ _. string_bytes name.new ≡ string_bytes name.old ++ marked self number) }
    {
        name.push_str(mark)?;
        self.base.push(name, digits, number)
    }

    /// What stands before the digits of a number.
    fn mark(self, number: u64) -> &'static str
        ensures is { result.now ≡ mark_of self number }
        ensures short { length result.now < 3 }
    {
        match self.base {
            Base::Hex if self.is_marked && number > 0 => "0x",
            Base::Capitals if self.is_marked && number > 0 => "0X",
            _ => "",
        }
    }

    /// How many digits of a number are written.
    fn digits(self, number: u64) -> usize
        ensures is { result ≡ digits_written self number }
        ensures enough { number < radix (alphabet_of self.base) ^ result }
        ensures few { result < 256 }
    {
        let zeros = usize::from(self.is_marked && self.base == Base::Octal);
        let needed = digit_count(self.base.alphabet(), number) + zeros;
        self.least_digits(number).max(needed)
    }

    /// How many digits of a number are written at least.
    fn least_digits(self, number: u64) -> usize
        ensures is { result ≡ least_digits self.filling self number }
        ensures few { result < 256 }
    {
        match self.filling {
            Filling::Zeros => usize::from(self.width)
                .saturating_sub(self.mark(number).len())
                .max(1),
            Filling::BlanksBefore | Filling::BlanksAfter => usize::from(self.precision),
        }
    }
}

/// How many digits a number has; the number 0 has none.
fn digit_count(alphabet: Alphabet, number: u64) -> usize
    ensures is { result ≡ digit_count alphabet number }
    ensures enough { number < radix alphabet ^ result }
    ensures few { result < 65 }
{
    match number.checked_ilog(alphabet.radix()) {
        Some(log) => log as usize + 1,
        None => 0,
    }
}
