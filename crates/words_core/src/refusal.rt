//! What a tool, called by its own name, adds to a message that refuses words.
ghost use Rattle.std.specs.Prelude.{◌≡◌, ◌++◌, codes, map, option_map, take, IfOk, IfErr};
ghost use Rattle.ports_core.specs.Text.{in_quotes};
ghost use Rattle.words_core.specs.{
  Refusal.{detail_of, end_with_option, for_follow, for_option, letters_of, quoted_letter, row_of, unknown_among},
  Refusal.{unknown_letter, word_at},
  Table.{row_seen, tool_seen},
};

use crate::spelling::read_given;
use crate::table::{OptionRow, ToolRow, all_tools, find_letter, find_row};
use ports_core::{Calling, Fault, UsageKind, write_quoted};
use std::alloc::{AllocError, Global};

/// What a tool adds, by its own name, to the message about a fault in the word at this place: the letter that is no
/// option, the option to which the value belongs, or what a value may be. `cutters` adds nothing. It takes memory for
/// the text, and for reading the words again.
///
/// # Errors
///
/// `Memory` if there is no room for it.
pub fn detail_of(
    alloc: Global,
    calling: Calling,
    words: &[&str],
    kind: &UsageKind,
    place: usize,
) -> Result<Vec<u8>, Fault>
    ensures ok { IfOk result
        (λ text. text.items ≡ detail_of calling (map (λ word. word.now) words.now) kind.now place) }
    ensures err { IfErr result (λ fault. fault ≡ Fault.Memory) }
{
    match (calling, kind) {
        (Calling::Cutters, _) => Ok(Vec::new(alloc)),
        (Calling::OwnName, UsageKind::UnknownOption) => {
            Ok(unknown_letter(alloc, row_of(words), word_at(words, place))?)
        }
        (Calling::OwnName, UsageKind::BadFollow) => Ok(for_follow(alloc, words, place)?),
        (Calling::OwnName, _) => for_option(alloc, words, place),
    }
}

/// The word at this place, or the empty word if there is none.
fn word_at<'a>(words: &[&'a str], place: usize) -> &'a str
    ensures { result.now ≡ word_at (map (λ word. word.now) words.now) place }
{
    words.get(place).copied().unwrap_or("")
}

/// The tool that words name.
fn row_of(words: &[&str]) -> Option<&'static ToolRow>
    ensures { option_map (λ row. tool_seen row.now) result ≡ row_of (map (λ word. word.now) words.now) }
{
    match words {
        [name, ..] => find_row(all_tools(Calling::OwnName), name),
        [] => None,
    }
}

/// A text about the first of several letters in a word that is no option.
fn unknown_letter(
    alloc: Global,
    row: Option<&'static ToolRow>,
    word: &str,
) -> Result<Vec<u8>, AllocError>
    ensures { IfOk result
        (λ text. text.items ≡ unknown_letter (option_map (λ row. tool_seen row.now) row.entry) word.now) }
{
    match row {
        Some(row) => unknown_among(alloc, row.options, letters_of(word.as_bytes())),
        None => Ok(Vec::new(alloc)),
    }
}

/// The letters of a word that has several after its hyphen, is no long option, and doesn't begin with a number.
fn letters_of(word: &[u8]) -> &[u8]
    ensures { result.now ≡ letters_of word.now }
{
    match word {
        [_, letter, _, ..] if *letter != b'-' && !letter.is_ascii_digit() => &word[1..],
        _ => &[],
    }
}

fn unknown_among(alloc: Global, rows: &[OptionRow], letters: &[u8]) -> Result<Vec<u8>, AllocError>
    ensures { IfOk result (λ text. text.items ≡ unknown_among (map row_seen rows.now) letters.now) }
{
    for letter in letters {
        if find_letter(rows, *letter).is_none() {
            return quoted_letter(alloc, *letter);
        }
    }
    Ok(Vec::new(alloc))
}

fn quoted_letter(alloc: Global, letter: u8) -> Result<Vec<u8>, AllocError>
    ensures { IfOk result (λ text. text.items ≡ quoted_letter letter) }
{
    if letter.is_ascii() {
        return Vec::from_slice(alloc, &[b':', b' ', b'\'', letter, b'\'']);
    }
    Ok(Vec::new(alloc))
}

/// What `--follow` may be, after the word that it refuses; or that standard input can't be followed, if no word is named.
fn for_follow(alloc: Global, words: &[&str], place: usize) -> Result<Vec<u8>, AllocError>
    ensures { IfOk result (λ text. text.items ≡ for_follow (map (λ word. word.now) words.now) place) }
{
    if place == 0 {
        return Vec::from_slice(
            alloc,
            b": standard input is followed only by -f, and only if it is a regular file",
        );
    }
    let mut text = Vec::from_slice(alloc, b" ")?;
    write_quoted(&mut text, word_at(words, place))?;
    text.extend_from_slice(b": name or descriptor")?;
    Ok(text)
}

/// A text about the option to which the word at this place belongs as its value, if it is a value.
fn for_option(alloc: Global, words: &[&str], place: usize) -> Result<Vec<u8>, Fault>
    ensures ok { IfOk result (λ text. text.items ≡ for_option (map (λ word. word.now) words.now) place) }
    ensures err { IfErr result (λ fault. fault ≡ Fault.Memory) }
{
    if end_with_option(alloc, words_before(words, place))? {
        return Ok(after_for(alloc, word_at(words, place.saturating_sub(1)))?);
    }
    Ok(Vec::new(alloc))
}

/// The words before this place.
fn words_before<'a, 'b>(words: &'a [&'b str], place: usize) -> &'a [&'b str]
    ensures { map (λ word. word.now) result.now ≡ take place (map (λ word. word.now) words.now) }
{
    &words[..place.min(words.len())]
}

fn after_for(alloc: Global, option: &str) -> Result<Vec<u8>, AllocError>
    ensures { IfOk result (λ text. text.items ≡ codes " for " ++ in_quotes option.now) }
{
    let mut text = Vec::from_slice(alloc, b" for ")?;
    write_quoted(&mut text, option)?;
    Ok(text)
}

/// Whether words end with an option that lacks its value.
fn end_with_option(alloc: Global, words: &[&str]) -> Result<bool, Fault>
    ensures ok { IfOk result (λ lacks. lacks ≡ end_with_option (map (λ word. word.now) words.now)) }
    ensures err { IfErr result (λ fault. fault ≡ Fault.Memory) }
{
    let [name, words @ ..] = words else {
        return Ok(false);
    };
    let Some(row) = find_row(all_tools(Calling::OwnName), name) else {
        return Ok(false);
    };
    match read_given(alloc, Calling::OwnName, row, words) {
        Ok(_) => Ok(false),
        Err(Fault::Usage(UsageKind::MissingValue, _)) => Ok(true),
        Err(Fault::Memory) => Err(Fault::Memory),
        Err(_) => Ok(false),
    }
}
