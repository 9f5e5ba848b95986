//! How words are read to options and operands (POSIX.1-2017, XBD 12.2; long options are GNU's).
ghost use Rattle.std.specs.{Prelude.{◌≡◌, ◌∷◌, option_map, IfSome, map}, List.before_first};
ghost use Rattle.seg_core.specs.Count.{is_number};
ghost use Rattle.words_core.specs.{
  inner.Spelling.{Adds, first_letter},
  Spelling.{Reads, after_equals, attached, cluster, ending, foremost, given_by, is_equals, long, meaning_of, mixed},
  Spelling.{named, reading, spelled, valued},
  Given.one_operand,
  Table.{row_seen, tool_seen},
};

use crate::choice::{Choice, Kind, read_choice};
use crate::lettered::{is_lettered, is_start, read_lettered};
use crate::settings::Topic;
use crate::spelled::Spelled;
use crate::table::{Letters, OptionRow, Takes, ToolRow, find_called, find_option};
use ports_core::{Calling, Fault, UsageKind};
use seg_core::count::Sign;
use std::alloc::Global;

/// What may stand in the next word.
#[derive(Clone, Copy)]
pub enum State {
    /// Options and operands. Or a hyphen and digits, which are an option's value then; these letters may follow them.
    /// Or a `+` and such a text, if the tool takes it by the way the program is called.
    First(Calling, Kind, Letters),
    /// Options and operands.
    Reading,
    /// The value of an option. The option stands in the word at this place.
    Awaiting(Kind, usize),
    /// An operand, whatever it begins with.
    OnlyOperands,
    /// Anything: no word is read any more.
    Ended,
}

/// Reads the words after a tool's name, by how the program was called.
///
/// # Errors
///
/// `Usage`: the first fault from left to right. `Memory` if there is no room for what they spell.
pub fn read_given<'a>(
    alloc: Global,
    calling: Calling,
    tool: &ToolRow,
    words: &[&'a str],
) -> Result<Spelled<'a>, Fault>
    ensures { Reads (given_by calling (tool_seen tool.now) (map (λ word. word.now) words.now)) result }
{
    let start = match tool.number {
        Some((kind, letters)) => State::First(calling, kind, letters),
        None => State::Reading,
    };
    read_items(alloc, tool.options, start, words)
}

/// Reads words by the table of a tool's options. The first word stands at place 1.
fn read_items<'a>(
    alloc: Global,
    rows: &[OptionRow],
    start: State,
    words: &[&'a str],
) -> Result<Spelled<'a>, Fault>
    ensures { Reads (spelled (map row_seen rows.now) (map (λ word. word.now) words.now) 1 start) result }
{
    let mut spelled = Spelled::new(alloc);
    let mut state = start;
    let mut place = 1;
    let mut left = words;
    while let [word, rest @ ..] = left {
        state = read_word(rows, state, place, word, &mut spelled)?;
        place += 1;
        left = rest;
    }
    match state {
        State::Awaiting(_, option) => Err(Fault::Usage(UsageKind::MissingValue, option)),
        State::First(_, _, _) | State::Reading | State::OnlyOperands | State::Ended => Ok(spelled),
    }
}

fn read_word<'a>(
    rows: &[OptionRow],
    state: State,
    place: usize,
    word: &'a str,
    spelled: &mut Spelled<'a>,
) -> Result<State, Fault>
    ensures { Adds (meaning_of (map row_seen rows.now) state place word.now) spelled.old spelled.new result }
{
    match state {
        State::First(calling, kind, letters) => {
            read_first(calling, rows, kind, letters, place, word, spelled)
        }
        State::Reading => read_mixed(rows, place, word, spelled),
        State::Awaiting(kind, option) => read_option(kind, option, place, word, spelled),
        State::OnlyOperands => {
            spelled.add_operand(word, place)?;
            Ok(State::OnlyOperands)
        }
        State::Ended => Ok(State::Ended),
    }
}

/// Reads the word after the tool's name. It may be a hyphen and digits, which are an option's value, and letters may
/// follow them. Digits and letters may also follow a `+`.
#[tactic(auto, unfolding(crate::specs::Spelling::foremost))]
fn read_first<'a>(
    calling: Calling,
    rows: &[OptionRow],
    kind: Kind,
    letters: Letters,
    place: usize,
    word: &'a str,
    spelled: &mut Spelled<'a>,
) -> Result<State, Fault>
    ensures { Adds (foremost calling (map row_seen rows.now) kind letters place word.now)
        spelled.old spelled.new result }
{
    match first_letter(word) {
        Some((b'-', digits)) if is_number(digits.as_bytes()) => {
            read_option(kind, place, place, digits, spelled)
        }
        Some((b'-', text)) if is_lettered(rows, letters, text.as_bytes()) => {
            read_lettered(rows, Sign::Plain, place, text.as_bytes(), spelled)
        }
        Some((b'+', text)) if is_start(calling, rows, letters, text.as_bytes()) => {
            read_lettered(rows, Sign::Plus, place, text.as_bytes(), spelled)
        }
        _ => read_mixed(rows, place, word, spelled),
    }
}

/// Whether a text is digits alone.
pub(crate) fn is_number(text: &[u8]) -> bool
    ensures { result ≡ is_number text.now }
{
    !text.is_empty() && text.iter().all(|byte| byte.is_ascii_digit())
}

/// The first character of a text and what follows it, if the character is ASCII.
pub(crate) fn first_letter(text: &str) -> Option<(u8, &str)>
    ensures value { option_map (λ parts. (parts.0, parts.1.now)) result ≡ first_letter text.now }
    ensures whole { IfSome result (λ parts. text.now ≡ parts.0 ∷ parts.1.now) }
{
    match text.as_bytes() {
        [letter, ..] if letter.is_ascii() => Some((*letter, &text[1..])),
        _ => None,
    }
}

/// Reads a word that may be an option or an operand.
fn read_mixed<'a>(
    rows: &[OptionRow],
    place: usize,
    word: &'a str,
    spelled: &mut Spelled<'a>,
) -> Result<State, Fault>
    ensures { Adds (mixed (map row_seen rows.now) place word.now) spelled.old spelled.new result }
{
    let Some((b'-', rest)) = first_letter(word) else {
        return read_operand(place, word, spelled);
    };
    match rest.as_bytes() {
        [] => read_operand(place, word, spelled),
        [b'-'] => Ok(State::OnlyOperands),
        [b'-', ..] => read_long(rows, place, word, spelled),
        _ => read_cluster(rows, place, rest, spelled),
    }
}

fn read_operand<'a>(place: usize, word: &'a str, spelled: &mut Spelled<'a>) -> Result<State, Fault>
    ensures { Adds (reading (one_operand word.now place)) spelled.old spelled.new result }
{
    spelled.add_operand(word, place)?;
    Ok(State::Reading)
}

/// Reads a long option, whose name may be cut short, with its value if one follows a `=`.
fn read_long<'a>(
    rows: &[OptionRow],
    place: usize,
    word: &'a str,
    spelled: &mut Spelled<'a>,
) -> Result<State, Fault>
    ensures { Adds (long (map row_seen rows.now) place word.now) spelled.old spelled.new result }
{
    let (name, value) = split_value(word);
    match find_called(rows, name) {
        Err(kind) => Err(Fault::Usage(kind, place)),
        Ok(takes) => read_named(takes, value, place, spelled),
    }
}

/// The name of a long option, and its value if one follows a `=`.
fn split_value(word: &str) -> (&[u8], Option<&str>)
    ensures name { result.0.now ≡ before_first is_equals word.now }
    ensures value { option_map (λ text. text.now) result.1 ≡ after_equals word.now }
{
    match word.split_once('=') {
        Some((name, value)) => (name.as_bytes(), Some(value)),
        None => (word.as_bytes(), None),
    }
}

/// Reads an option that is given by its long name.
fn read_named<'a>(
    takes: Takes,
    value: Option<&'a str>,
    place: usize,
    spelled: &mut Spelled<'a>,
) -> Result<State, Fault>
    ensures { Adds (named place (Ok takes)
        (option_map (λ text. text.now) value.entry)) spelled.old spelled.new result }
{
    match (takes, value) {
        (Takes::Nothing(choice) | Takes::Optional(choice, _), None) => {
            spelled.add_option(choice, place)?;
            Ok(State::Reading)
        }
        (Takes::Last(topic), None) => read_last(topic, place, spelled),
        (Takes::Nothing(_) | Takes::Last(_), Some(_)) => {
            Err(Fault::Usage(UsageKind::UnexpectedValue, place))
        }
        (Takes::Value(kind), None) => Ok(State::Awaiting(kind, place)),
        (Takes::Value(kind) | Takes::Optional(_, kind), Some(text)) => {
            read_option(kind, place, place, text, spelled)
        }
    }
}

/// Reads an option after which no word is read.
fn read_last(topic: Topic, place: usize, spelled: &mut Spelled<'_>) -> Result<State, Fault>
    ensures { Adds (ending topic place) spelled.old spelled.new result }
{
    spelled.add_option(Choice::About(topic), place)?;
    Ok(State::Ended)
}

/// Reads the letters of a cluster.
fn read_cluster<'a>(
    rows: &[OptionRow],
    place: usize,
    letters: &'a str,
    spelled: &mut Spelled<'a>,
) -> Result<State, Fault>
    ensures { Adds (cluster (map row_seen rows.now) place letters.now) spelled.old spelled.new result }
{
    let mut left = letters;
    while !left.is_empty() {
        let Some((letter, rest)) = first_letter(left) else {
            return Err(Fault::Usage(UsageKind::UnknownOption, place));
        };
        match find_option(rows, &[b'-', letter]) {
            None => return Err(Fault::Usage(UsageKind::UnknownOption, place)),
            Some(Takes::Value(kind)) => return read_attached(kind, place, rest, spelled),
            Some(Takes::Last(topic)) => return read_last(topic, place, spelled),
            Some(Takes::Nothing(choice) | Takes::Optional(choice, _)) => {
                spelled.add_option(choice, place)?;
                left = rest;
            }
        }
    }
    Ok(State::Reading)
}

/// Reads what follows a letter that takes a value.
fn read_attached<'a>(
    kind: Kind,
    place: usize,
    rest: &'a str,
    spelled: &mut Spelled<'a>,
) -> Result<State, Fault>
    ensures { Adds (attached kind place rest.now) spelled.old spelled.new result }
{
    if rest.is_empty() {
        return Ok(State::Awaiting(kind, place));
    }
    read_option(kind, place, place, rest, spelled)
}

/// Reads the value of an option. The value stands in the word at `place`, the option in the word at the place `option`.
fn read_option<'a>(
    kind: Kind,
    option: usize,
    place: usize,
    text: &'a str,
    spelled: &mut Spelled<'a>,
) -> Result<State, Fault>
    ensures { Adds (valued kind option place text.now) spelled.old spelled.new result }
{
    match read_choice(kind, text) {
        Ok(choice) => {
            spelled.add_option(choice, option)?;
            Ok(State::Reading)
        }
        Err(fault) => Err(Fault::Usage(fault, place)),
    }
}
