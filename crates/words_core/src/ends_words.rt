//! What `head` and `tail` are asked for: POSIX.1-2017, XCU head and tail; `-q`, `-v`, `-z` and several files for `tail`
//! are GNU's.
ghost use Rattle.std.specs.Prelude.{◌≡◌, map, IfOk, IfErr};
ghost use Rattle.words_core.specs.{
  Choice.seen,
  EndsWords.{is_minus, is_plus, has_headers, EndsAsked, ends_by, ends_asked, names_asked, ten_lines},
  Given.operand_seen,
};

use crate::choice::Choice;
use crate::settings::Headers;
use crate::spelled::{Operand, Spelled, texts_of};
use ports_core::{Fault, STANDARD_INPUT};
use seg_core::count::{Count, Sign};
use seg_core::line::NEWLINE;
use seg_core::unit::Unit;
use std::alloc::Global;
use std::marker::Model;

/// What `head` or `tail` is to write of its inputs.
#[derive(Drop)]
pub struct EndsSettings<'a> {
    /// What is counted: lines or bytes.
    pub unit: Unit,
    /// How many lines or bytes, and from which side.
    pub count: Count,
    /// When a header goes before an input.
    pub headers: Headers,
    /// The byte that lines end with.
    pub delim: u8,
    /// The names of the inputs, at least one; `-` is standard input.
    pub names: Vec<&'a str>,
}

impl<'a> Model for EndsSettings<'a> {
    ghost Value = { EndsAsked };

    ghost view = { λ s. record {
      unit = s.unit;
      count = s.count;
      headers = s.headers;
      delim = s.delim;
      names = map (λ name. name.now) s.names.items;
    } };
}

/// What is asked for without options: ten lines of these inputs.
pub(crate) fn ten_lines(names: Vec<&str>) -> EndsSettings<'_>
    ensures { result ≡ ten_lines (map (λ name. name.now) names.entry.items) }
{
    EndsSettings {
        unit: Unit::Lines,
        count: Count {
            sign: Sign::Plain,
            amount: 10,
        },
        headers: Headers::ForSeveral,
        delim: NEWLINE,
        names,
    }
}

impl EndsSettings<'_> {
    /// Takes in what one more option asks for.
    pub(crate) fn take(&mut self, choice: Choice<'_>)
        ensures { self.new ≡ ends_by self.old (seen choice.entry) }
    {
        match choice {
            Choice::Amount(unit, count) => {
                self.unit = unit;
                self.count = count;
            }
            Choice::Headers(headers) => self.headers = headers,
            Choice::ZeroTerminated => self.delim = 0,
            _ => {}
        }
    }
}

/// What words ask of `head` or `tail`: the last option for a count, the last option for headers, and whether lines end
/// with byte 0.
///
/// # Errors
///
/// `Memory` if there is no room for the names.
pub fn settle_ends<'a>(alloc: Global, spelled: &Spelled<'a>) -> Result<EndsSettings<'a>, Fault>
    ensures ok { IfOk result (λ settings. settings ≡ ends_asked spelled.now) }
    ensures err { IfErr result (λ fault. fault ≡ Fault.Memory) }
{
    let mut asked = ten_lines(names_of(alloc, &spelled.operands)?);
    for option in &spelled.options {
        asked.take(option.choice);
    }
    Ok(asked)
}

/// The names of the inputs: the operands, or standard input if there is no operand.
pub(crate) fn names_of<'a>(alloc: Global, operands: &[Operand<'a>]) -> Result<Vec<&'a str>, Fault>
    ensures ok { IfOk result (λ names. map (λ name. name.now) names.items
        ≡ names_asked (map operand_seen operands.now)) }
    ensures err { IfErr result (λ fault. fault ≡ Fault.Memory) }
{
    let mut names = texts_of(alloc, operands)?;
    if operands.is_empty() {
        names.push(STANDARD_INPUT)?;
    }
    Ok(names)
}

/// Whether a `-` stands before a count.
pub fn is_minus(sign: Sign) -> bool
    ensures { result ≡ is_minus sign }
{
    match sign {
        Sign::Minus => true,
        Sign::Plain | Sign::Plus => false,
    }
}

/// Whether a `+` stands before a count.
pub fn is_plus(sign: Sign) -> bool
    ensures { result ≡ is_plus sign }
{
    match sign {
        Sign::Plus => true,
        Sign::Plain | Sign::Minus => false,
    }
}

/// Whether a header goes before each input: as an option says, or without an option if there are several inputs.
pub fn has_headers(settings: &EndsSettings<'_>) -> bool
    ensures { result ≡ has_headers settings.now.headers settings.now.names }
{
    match settings.headers {
        Headers::ForSeveral => settings.names.len() > 1,
        Headers::Never => false,
        Headers::Always => true,
    }
}
