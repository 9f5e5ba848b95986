//! What one word of the operands spells (POSIX.1-2017, XCU csplit, OPERANDS; `{*}` is GNU's).
ghost use Rattle.std.specs.Prelude.{◌≡◌, ◌<◌, false, length, IfSome};
ghost use Rattle.operand_core.specs.{
  Reading.times_by,
  inner.Seen.{seen, seen_in},
  Word.{before_brace, braced, closed_at, closing, numbered, number_of, offset_of, spelling, times_of},
};

use crate::{Offset, OperandFaultKind, Times};
use seg_core::digits::read_digits;

/// What a word spells. The text of a pattern stands as it is written, with its escapes.
#[derive(Clone, Copy)]
pub enum Word<'a> {
    /// A line number, at least 1.
    Number(u64),
    /// A pattern, between two delimiters.
    Search {
        /// `/` or `%`.
        delimiter: u8,
        /// What stands between the delimiters.
        text: &'a [u8],
        /// What follows the closing delimiter.
        offset: Offset,
    },
    /// A repetition.
    Again(Times),
}

impl Word<'_> {
    /// The repetition, if the word is one.
    pub fn again(self) -> Option<Times>
        ensures { result ≡ times_by (seen self.entry) }
    {
        match self {
            Word::Number(_) => None,
            Word::Search { .. } => None,
            Word::Again(times) => Some(times),
        }
    }
}

/// Reads a word. It takes no memory.
///
/// # Errors
///
/// `Unclosed`, `Offset`, `LineZero`, `RepeatText` and `Number`: what is wrong with the word by itself.
pub fn read_word(word: &[u8]) -> Result<Word<'_>, OperandFaultKind>
    ensures { seen_in result ≡ spelling word.now }
{
    let [first, text @ ..] = word else {
        return Err(OperandFaultKind::Number);
    };
    match *first {
        b'/' => read_search(b'/', text),
        b'%' => read_search(b'%', text),
        b'{' => match read_times(text) {
            Some(times) => Ok(Word::Again(times)),
            None => Err(OperandFaultKind::RepeatText),
        },
        _ => read_line_number(word),
    }
}

/// Reads a line number, at least 1.
fn read_line_number(text: &[u8]) -> Result<Word<'_>, OperandFaultKind>
    ensures { seen_in result ≡ numbered (number_of text.now) }
{
    let Some(number) = read_number(text) else {
        return Err(OperandFaultKind::Number);
    };
    if number == 0 {
        Err(OperandFaultKind::LineZero)
    } else {
        Ok(Word::Number(number))
    }
}

/// Reads what follows the first delimiter.
fn read_search(delimiter: u8, text: &[u8]) -> Result<Word<'_>, OperandFaultKind>
    ensures { seen_in result ≡ closed_at delimiter text.now (closing delimiter false text.now) }
{
    let Some(place) = find_closing(delimiter, text) else {
        return Err(OperandFaultKind::Unclosed);
    };
    match read_offset(&text[place + 1..]) {
        Some(offset) => Ok(Word::Search {
            delimiter,
            text: &text[..place],
            offset,
        }),
        None => Err(OperandFaultKind::Offset),
    }
}

/// The place of the closing delimiter: the last delimiter that isn't preceded by an odd number of backslashes.
fn find_closing(delimiter: u8, text: &[u8]) -> Option<usize>
    ensures is { result ≡ closing delimiter false text.now }
    ensures within { IfSome result (λ place. place < length text.now) }
{
    let mut last = None;
    let mut is_escaped = false;
    for (place, byte) in text.iter().enumerate() {
        if *byte == delimiter && !is_escaped {
            last = Some(place);
        }
        is_escaped = *byte == b'\\' && !is_escaped;
    }
    last
}

/// Reads an offset: nothing, or a number with a sign or without one.
fn read_offset(text: &[u8]) -> Option<Offset>
    ensures { result ≡ offset_of text.now }
{
    match text {
        [] => Some(Offset::Plus(0)),
        [b'+', digits @ ..] => Some(Offset::Plus(read_number(digits)?)),
        [b'-', digits @ ..] => Some(Offset::Minus(read_number(digits)?)),
        _ => Some(Offset::Plus(read_number(text)?)),
    }
}

/// Reads what follows the `{` of a repetition.
fn read_times(text: &[u8]) -> Option<Times>
    ensures { result ≡ braced (before_brace text.now) }
{
    let (last, times) = text.split_last()?;
    if *last == b'}' {
        read_braced(times)
    } else {
        None
    }
}

/// Reads what stands in the braces: `*`, or a number.
fn read_braced(text: &[u8]) -> Option<Times>
    ensures { result ≡ times_of text.now }
{
    match text {
        [b'*'] => Some(Times::Endless),
        _ => Some(Times::Count(read_number(text)?)),
    }
}

/// Reads one or more digits, a number up to 2^63-1.
fn read_number(text: &[u8]) -> Option<u64>
    ensures { result ≡ number_of text.now }
{
    match read_digits(text) {
        Ok(number) => Some(number),
        Err(_) => None,
    }
}
