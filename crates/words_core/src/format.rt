//! The format of names that `csplit -b` takes: a text with one conversion of C's `printf`, which says how a number is
//! written (GNU coreutils manual, csplit; C standard and POSIX, `fprintf`).
ghost use Rattle.std.specs.{
  Prelude.{◌≡◌, ◌++◌, ◌<◌, ◌-◌, ◌^◌, length, min, option_map, string_bytes, IfNone, IfOk, IfSome, Some},
  List.prefix_len,
};
ghost use Rattle.words_core.specs.{
  inner.Format.{AfterLetter, without_percent},
  Format.{after_precision, base_of, conversion_in, filling_by, form_of, format_in, format_seen, go_with, is_flag},
  Format.{plain_text, precision_in, with_letter, with_width, after_text},
};

use crate::spelling::first_letter;
use ports_core::{Base, Filling, Form};
use seg_core::digits::leading_number;
use std::alloc::AllocError;

/// The greatest width and the greatest precision.
const WIDEST: u64 = 255;

/// A text, a number, and a text after it. The texts have two `%` for each `%` in a name.
#[derive(Clone, Copy, PartialEq, Eq)]
pub struct Format<'a> {
    /// The text before the number.
    pub before: &'a str,
    /// How the number is written.
    pub form: Form,
    /// The text after the number.
    pub after: &'a str,
}

/// Reads a format. None if the text isn't a format: it has no conversion or two; or a conversion other than
/// `d i u o x X`, with flags that don't go with it, or with a width or a precision above 255.
pub fn read_format(text: &str) -> Option<Format<'_>>
    ensures { option_map format_seen result ≡ format_in text.now }
{
    let bytes = text.as_bytes();
    let conversion = after_text(bytes);
    let (form, rest) = read_conversion(conversion)?;
    if !after_text(rest).is_empty() {
        return None;
    }
    Some(Format {
        before: &text[..bytes.len() - conversion.len()],
        form,
        after: &text[bytes.len() - rest.len()..],
    })
}

/// The text from the conversion on: from the first `%` that is left, if pairs of `%` are passed over from the left.
fn after_text(text: &[u8]) -> &[u8]
    ensures { result.now ≡ after_text text.now }
{
    let mut rest = text;
    while let Some(more) = after_one(rest) {
        rest = more;
    }
    rest
}

/// What stands after the first byte of a text, or after two `%`. None if the text is empty or begins with a conversion.
fn after_one(text: &[u8]) -> Option<&[u8]>
    ensures same { IfSome result (λ rest. after_text rest.now ≡ after_text text.now) }
    ensures shorter { IfSome result (λ rest. length rest.now < length text.now) }
    ensures none { IfNone result (after_text text.now ≡ text.now) }
{
    match text {
        [b'%', b'%', rest @ ..] => Some(rest),
        [b'%', ..] | [] => None,
        [_, rest @ ..] => Some(rest),
    }
}

/// Reads the conversion that a text begins with, and returns what follows it.
fn read_conversion(text: &[u8]) -> Option<(Form, &[u8])>
    ensures value { option_map (λ read. (read.0, read.1.now)) result ≡ conversion_in text.now }
    ensures after { IfSome result (λ read. AfterLetter text.now read.1.now) }
{
    let [_, text @ ..] = text else {
        return None;
    };
    let (flags, text) = text.split_at(count_flags(text));
    read_width(flags, text)
}

/// Reads what follows flags.
fn read_width<'a>(flags: &[u8], text: &'a [u8]) -> Option<(Form, &'a [u8])>
    ensures value { option_map (λ read. (read.0, read.1.now)) result ≡ with_width flags.now text.now }
    ensures after { IfSome result (λ read. AfterLetter text.now read.1.now) }
{
    let (width, digits) = leading_number(text);
    let (precision, text) = read_precision(&text[digits..]);
    read_letter(flags, width, precision, text)
}

/// Reads the letter that follows flags, a width and a precision.
fn read_letter<'a>(
    flags: &[u8],
    width: u64,
    precision: Option<u64>,
    text: &'a [u8],
) -> Option<(Form, &'a [u8])>
    ensures value { option_map (λ read. (read.0, read.1.now)) result ≡ with_letter flags.now width precision text.now }
    ensures after { IfSome result (λ read. AfterLetter text.now read.1.now) }
{
    let [letter, rest @ ..] = text else {
        return None;
    };
    let form = form_of(flags, width, precision, base_of(*letter)?)?;
    Some((form, rest))
}

/// How many flags a text begins with.
fn count_flags(text: &[u8]) -> usize
    ensures { result ≡ prefix_len is_flag text.now }
{
    for (place, byte) in text.iter().enumerate() {
        if !is_flag(*byte) {
            return place;
        }
    }
    text.len()
}

fn is_flag(byte: u8) -> bool
    ensures { result ≡ is_flag byte }
{
    matches!(byte, b'-' | b'0' | b'#' | b'\'')
}

/// The precision that a text begins with, after a `.`, and what follows it.
fn read_precision(text: &[u8]) -> (Option<u64>, &[u8])
    ensures precision { result.0 ≡ option_map (λ digits. min digits (2 ^ 64 - 1)) (precision_in text.now) }
    ensures rest { result.1.now ≡ after_precision text.now }
{
    match text {
        [b'.', text @ ..] => {
            let (precision, digits) = leading_number(text);
            (Some(precision), &text[digits..])
        }
        _ => (None, text),
    }
}

/// The base of a conversion's letter.
fn base_of(letter: u8) -> Option<Base>
    ensures value { result ≡ base_of letter }
    ensures ascii { IfSome result (λ _. letter < 128) }
{
    match letter {
        b'd' | b'i' | b'u' => Some(Base::Decimal),
        b'o' => Some(Base::Octal),
        b'x' => Some(Base::Hex),
        b'X' => Some(Base::Capitals),
        _ => None,
    }
}

/// The form that flags, a width, a precision and a base give. None if they don't go together.
fn form_of(flags: &[u8], width: u64, precision: Option<u64>, base: Base) -> Option<Form>
    ensures { result ≡ form_of flags.now width precision base }
{
    let digits = precision.unwrap_or(1);
    if !go_with(base, flags) || width > WIDEST || digits > WIDEST {
        return None;
    }
    Some(Form {
        base,
        is_marked: flags.contains(&b'#'),
        width: width as u8,
        filling: filling_by(flags, precision),
        precision: digits as u8,
    })
}

/// Whether flags go with a base.
fn go_with(base: Base, flags: &[u8]) -> bool
    ensures { result ≡ go_with base flags.now }
{
    match base {
        Base::Decimal => !flags.contains(&b'#'),
        Base::Octal | Base::Hex | Base::Capitals => !flags.contains(&b'\''),
    }
}

/// What fills a number to its width.
fn filling_by(flags: &[u8], precision: Option<u64>) -> Filling
    ensures { result ≡ filling_by flags.now precision }
{
    if flags.contains(&b'-') {
        return Filling::BlanksAfter;
    }
    if precision.is_none() && flags.contains(&b'0') {
        return Filling::Zeros;
    }
    Filling::BlanksBefore
}

/// Appends a text in which two `%` are one.
pub fn push_plain(name: &mut String, text: &str) -> Result<(), AllocError>
    ensures { IfOk result (λ _. string_bytes name.new ≡ string_bytes name.old ++ plain_text text.now) }
{
    let mut rest = text;
    while let Some((front, back)) = rest.split_once('%') {
        name.push_str(front)?;
        name.push('%')?;
        rest = without_percent(back);
    }
    name.push_str(rest)
}

/// A text without the `%` at its front, if it has one.
fn without_percent(text: &str) -> &str
    ensures { result.now ≡ without_percent text.now }
{
    match first_letter(text) {
        Some((b'%', rest)) => rest,
        _ => text,
    }
}
