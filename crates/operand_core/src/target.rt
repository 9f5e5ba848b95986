//! Where an operand cuts, from the word that says it.
ghost use Rattle.std.specs.Prelude.{◌≡◌, ◌<◌, ◌++◌, IfOk, length};
ghost use Rattle.ports_core.specs.declared.calling.Calling.{Calling};
ghost use Rattle.operand_core.specs.{
  inner.Aiming.{IsAimed, IsReadAs},
  Reading.{aim_of, posix_text},
  Word.{search, spelling, unescaped, number as line_number},
};

use crate::word::{Word, read_word};
use crate::{Offset, OperandFaultKind, Target};
use bre_core::respell;
use ports_core::Calling;
use scan_core::{Bre, BreFault};
use std::alloc::{AllocError, Global};

/// Reads where an operand cuts. `least` is the nearest line number before it, or 0 if there is none. It takes memory
/// for the text of a pattern, and for the pattern.
///
/// # Errors
///
/// All kinds except `Missing`.
pub fn read_target(
    alloc: Global,
    calling: Calling,
    least: u64,
    word: &[u8],
) -> Result<Target, OperandFaultKind>
    ensures { IsAimed (aim_of calling least (spelling word.now)) result }
{
    match read_word(word)? {
        Word::Number(number) => in_order(least, number),
        Word::Search {
            delimiter,
            text,
            offset,
        } => read_pattern(alloc, calling, delimiter, text, offset),
        Word::Again(_) => Err(OperandFaultKind::RepeatFirst),
    }
}

/// A line number, unless it is below the line number before it.
fn in_order(least: u64, number: u64) -> Result<Target, OperandFaultKind>
    ensures { (calling : Calling) → IsAimed (aim_of calling least (line_number number)) result }
{
    if number < least {
        Err(OperandFaultKind::LineOrder)
    } else {
        Ok(Target::Number(number))
    }
}

/// Reads a pattern from what stands between its delimiters.
fn read_pattern(
    alloc: Global,
    calling: Calling,
    delimiter: u8,
    text: &[u8],
    offset: Offset,
) -> Result<Target, OperandFaultKind>
    ensures { IsAimed (aim_of calling 0 (search delimiter text.now offset)) result }
{
    let text = unescape(alloc, delimiter, text)?;
    let pattern = read_text(alloc, calling, &text)?;
    let is_kept = delimiter == b'/';
    Ok(Target::Search {
        pattern,
        is_kept,
        offset,
    })
}

/// Reads the text of a pattern. The place in a fault is a place in this text, even if the text is in GNU's spelling.
fn read_text(alloc: Global, calling: Calling, text: &[u8]) -> Result<Bre, BreFault>
    ensures { IsReadAs (posix_text calling text.now) result }
{
    match calling {
        Calling::Cutters => read_posix(alloc, text),
        Calling::OwnName => {
            let posix = respell(alloc, text)?;
            match read_posix(alloc, &posix) {
                Ok(pattern) => Ok(pattern),
                Err(fault) => Err(fault.as_typed(text)),
            }
        }
    }
}

/// Reads the text of a pattern in POSIX's spelling.
fn read_posix(alloc: Global, text: &[u8]) -> Result<Bre, BreFault>
    ensures { IsReadAs text.now result }
{
    Bre::read(alloc, text)
}

/// The text of a pattern, in which a backslash and the delimiter have become the delimiter.
fn unescape(alloc: Global, delimiter: u8, text: &[u8]) -> Result<Vec<u8>, AllocError>
    ensures { IfOk result (λ plain. plain.items ≡ unescaped delimiter text.now) }
{
    let mut plain = Vec::new(alloc);
    let mut left = text;
    while !left.is_empty() {
        let (kept, rest) = split_unescaped(delimiter, left);
        plain.extend_from_slice(kept)?;
        left = rest;
    }
    Ok(plain)
}

/// The next bytes of a text as they are kept, one or two, and what follows them.
fn split_unescaped(delimiter: u8, text: &[u8]) -> (&[u8], &[u8])
    requires { 0 < length text.now }
    ensures kept { unescaped delimiter text.now ≡ result.0.now ++ unescaped delimiter result.1.now }
    ensures shorter { length result.1.now < length text.now }
{
    let [byte, next, ..] = text else {
        return (text, &[]);
    };
    if *byte != b'\\' {
        return text.split_at(1);
    }
    if *next != delimiter {
        return text.split_at(2);
    }
    (&text[1..2], &text[2..])
}
