//! The value of `-n` of `split`: among how many files an input is divided, and how (GNU coreutils manual, split,
//! CHUNKS).
ghost use Rattle.std.specs.Prelude.{◌≡◌};
ghost use Rattle.words_core.specs.Division.{all_in, divided_in, division_in, one_in};

use crate::value::{not_zero, read_number};
use ports_core::UsageKind;
use seg_core::digits::leading_number;

/// The greatest number of files that an input is divided among.
const MOST_FILES: u64 = 65_535;

/// How an input is divided among files.
#[derive(Clone, Copy, PartialEq, Eq)]
pub enum Dealing {
    /// Each file gets the bytes of a chunk.
    Bytes,
    /// Each file gets the lines that begin in a chunk.
    Lines,
    /// Lines are dealt to the files in turn.
    Turns,
}

/// What an input is divided into.
#[derive(Clone, Copy, PartialEq, Eq)]
pub struct Division {
    /// How it is divided.
    pub dealing: Dealing,
    /// Among how many files, 1 to 65,535.
    pub files: u64,
    /// The place, counted from 0, of the only file that is written, to standard output. None if all files are written.
    pub only: Option<u64>,
}

/// Reads `N` or `K/N`, with `l/` or `r/` before it or nothing.
pub(crate) fn read_division(text: &[u8]) -> Result<Division, UsageKind>
    ensures { result ≡ division_in text.now }
{
    match text {
        [b'l', b'/', rest @ ..] => read_divided(Dealing::Lines, rest),
        [b'r', b'/', rest @ ..] => read_divided(Dealing::Turns, rest),
        _ => read_divided(Dealing::Bytes, text),
    }
}

/// Reads `N` or `K/N`.
fn read_divided(dealing: Dealing, text: &[u8]) -> Result<Division, UsageKind>
    ensures { result ≡ divided_in dealing text.now }
{
    let (_, count) = leading_number(text);
    let (front, rest) = text.split_at(count);
    match rest {
        [] => read_all(dealing, front),
        [b'/', digits @ ..] if !front.is_empty() => read_one(dealing, front, digits),
        _ => Err(UsageKind::BadNumber),
    }
}

/// Reads the number of all files.
fn read_all(dealing: Dealing, files: &[u8]) -> Result<Division, UsageKind>
    ensures { result ≡ all_in dealing files.now }
{
    let files = not_zero(read_number(files, MOST_FILES)?)?;
    Ok(Division {
        dealing,
        files,
        only: None,
    })
}

/// Reads the number of one file, and that of all.
fn read_one(dealing: Dealing, number: &[u8], files: &[u8]) -> Result<Division, UsageKind>
    ensures { result ≡ one_in dealing number.now files.now }
{
    let files = read_number(files, MOST_FILES)?;
    let number = not_zero(read_number(number, files)?)?;
    Ok(Division {
        dealing,
        files,
        only: Some(number - 1),
    })
}
