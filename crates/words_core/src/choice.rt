//! What an option asks for, with its value.
ghost use Rattle.std.specs.Prelude.{◌≡◌};
ghost use Rattle.words_core.specs.{Choice.choice_in, inner.Choice.seen_in};

use crate::division::{Division, read_division};
use crate::format::{Format, read_format};
use crate::settings::{Headers, Topic};
use crate::value::{
    Followed, MOST_LOOKS, WIDEST, not_zero, read_amount, read_byte, read_ending, read_followed,
    read_hex, read_number, read_on_broken, read_pause, read_process, read_size,
};
use ports_core::{Alphabet, Calling, OnBroken, UsageKind};
use seg_core::count::Count;
use seg_core::digits::GREATEST;
use seg_core::unit::Unit;

/// What an option asks for, with its value. Options of several tools may ask alike.
#[derive(Clone, Copy, PartialEq, Eq)]
pub enum Choice<'a> {
    /// As many lines or bytes, at most 2^63-1.
    Amount(Unit, Count),
    /// When a header goes before an input.
    Headers(Headers),
    /// Lines that end with byte 0.
    ZeroTerminated,
    /// Following this.
    Follow(Followed),
    /// Following by name, also where a name leads nowhere for a while.
    FollowNames,
    /// A name that leads nowhere is looked for again.
    Retry,
    /// How often inputs are looked at, 1 to 2^63-1.
    Looks(u64),
    /// How many milliseconds inputs are waited for at most, where nothing is seen to change, at most 2^63-1.
    Pause(u64),
    /// After the end of which process following ends, 1 to 2^31-1.
    Process(u32),
    /// How many lines a file gets, 1 to 2^63-1.
    LinesEach(u64),
    /// How many bytes a file gets, 1 to 2^63-1.
    BytesEach(u64),
    /// How many bytes of whole lines a file gets, 1 to 2^63-1.
    LineBytesEach(u64),
    /// Among how many files an input is divided, and how.
    Divided(Division),
    /// How many characters the number in a name has, of `csplit` at least, 0 to 255.
    Width(u8),
    /// The characters of suffixes, and the number of the first file, at most 2^63-1, where one is given.
    Suffixes(Alphabet, Option<u64>),
    /// No empty files.
    ElideEmptyFiles,
    /// The byte that lines end with.
    Separator(u8),
    /// The ending of names.
    Ending(&'a str),
    /// A line before each file.
    Verbose,
    /// What names begin with.
    Prefix(&'a str),
    /// The format of names.
    Format(Format<'a>),
    /// Files stay after a fault.
    KeepFiles,
    /// No sizes.
    Quiet,
    /// The line at a cut is left out.
    SuppressMatched,
    /// What files hold stays, and what is written goes after it.
    Append,
    /// What a run does once an output is broken.
    OnBroken(OnBroken),
    /// Nothing: what it asks for is so in any case.
    NoEffect,
    /// A text, and nothing else.
    About(Topic),
}

/// What an option asks for by its value.
#[derive(Clone, Copy)]
pub enum Kind {
    /// As many lines or bytes: a count, with or without a sign.
    Amount(Unit),
    /// Following: `descriptor` or `name`; by the tool's own name also cut short.
    Follow(Calling),
    /// How often inputs are looked at: digits, 1 to 2^63-1.
    Looks,
    /// How long inputs are waited for: seconds, digits which may have a `.` before, among or after them.
    Pause,
    /// A process: digits, 1 to 2^31-1.
    Process,
    /// Lines of a file: a count, at least 1, without a `-`.
    LinesEach,
    /// Bytes of a file, in the same form.
    BytesEach,
    /// Bytes of whole lines of a file, in the same form.
    LineBytesEach,
    /// `N` or `K/N`, with `l/` or `r/` before it or nothing: digits, N from 1 to 65,535, K from 1 to N.
    Divided,
    /// How many characters the number in a name has, of `csplit` at least: digits, 0 to 255.
    Width,
    /// Suffixes of digits, and the number of the first file: digits, 0 to 2^63-1.
    NumericSuffixes,
    /// Suffixes in hexadecimal, and the number of the first file, which digits and `a` to `f`, also as capitals, write: 0 to
    /// 2^63-1.
    HexSuffixes,
    /// One byte, or the two bytes `\0`, which stand for byte 0.
    Separator,
    /// A text without `/`.
    Ending,
    /// Any text.
    Prefix,
    /// A text with one conversion of C's `printf`, which writes a number.
    Format,
    /// `warn`, `warn-nopipe`, `exit` or `exit-nopipe`; by the tool's own name also cut short.
    OnBroken(Calling),
    /// Nothing: digits, 0 to 2^63-1, which have no effect.
    NoEffect,
}

/// Reads what an option asks for by its value.
///
/// # Errors
///
/// What is wrong with the value: it isn't of its kind's form, or else its number is too large, or else it is 0. A byte,
/// an ending, a format, what is followed or what is done once an output is broken has a fault of its own where it isn't of
/// its form.
pub(crate) fn read_choice(kind: Kind, text: &str) -> Result<Choice<'_>, UsageKind>
    ensures { seen_in result ≡ choice_in kind text.now }
{
    let bytes = text.as_bytes();
    match kind {
        Kind::Amount(unit) => Ok(Choice::Amount(unit, read_amount(bytes)?)),
        Kind::Follow(calling) => Ok(Choice::Follow(read_followed(calling, text)?)),
        Kind::Looks => Ok(Choice::Looks(not_zero(read_number(bytes, MOST_LOOKS)?)?)),
        Kind::Pause => Ok(Choice::Pause(read_pause(bytes)?)),
        Kind::Process => Ok(Choice::Process(read_process(bytes)?)),
        Kind::LinesEach => Ok(Choice::LinesEach(read_size(bytes)?)),
        Kind::BytesEach => Ok(Choice::BytesEach(read_size(bytes)?)),
        Kind::LineBytesEach => Ok(Choice::LineBytesEach(read_size(bytes)?)),
        Kind::Divided => Ok(Choice::Divided(read_division(bytes)?)),
        Kind::Width => Ok(Choice::Width(read_number(bytes, WIDEST)? as u8)),
        Kind::NumericSuffixes => {
            let from = read_number(bytes, GREATEST)?;
            Ok(Choice::Suffixes(Alphabet::Digits, Some(from)))
        }
        Kind::HexSuffixes => Ok(Choice::Suffixes(Alphabet::Hex, Some(read_hex(bytes)?))),
        Kind::Separator => Ok(Choice::Separator(read_byte(bytes)?)),
        Kind::Ending => Ok(Choice::Ending(read_ending(text)?)),
        Kind::Prefix => Ok(Choice::Prefix(text)),
        Kind::Format => Ok(Choice::Format(read_format(text).ok_or(UsageKind::BadFormat)?)),
        Kind::OnBroken(calling) => Ok(Choice::OnBroken(read_on_broken(calling, text)?)),
        Kind::NoEffect => {
            read_number(bytes, GREATEST)?;
            Ok(Choice::NoEffect)
        }
    }
}
