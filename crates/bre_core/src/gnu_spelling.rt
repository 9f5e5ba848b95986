//! Patterns in GNU's spelling: `\+`, `\?`, `\w` and so on, as POSIX spells them.

ghost use Rattle.std.specs.Prelude.{◌≡◌, ◌&&◌, true, length, drop, option_map, IfOk};
ghost use Rattle.bre_core.specs.{
  Bracket.begins_with,
  Fault.{number_of, offset_of},
  Interval.begins_with_digit,
  GnuSpelling.{after_named, escape_of, is_itself, place_after, respelled, typed_at},
  GnuSpelling.written_for,
};

use crate::class::is_alnum;
use crate::fault::BreFault;
use crate::interval::begins_with_digit;
use std::alloc::{AllocError, Global};

/// Where a byte of a pattern stands.
#[derive(Clone, Copy)]
pub enum Place {
    /// Outside of bracket expressions.
    Outside,
    /// Outside, after a backslash.
    Escaped,
    /// After the `[` that begins a bracket expression.
    Opened,
    /// In the first place of a bracket expression, after `[^`, where `]` is a member.
    First,
    /// In a later place of a bracket expression.
    Inside,
    /// After a `[` in a bracket expression.
    Bracket,
    /// After `[.`, `[=` or `[:` in a bracket expression, which this mark and `]` end.
    Named(u8),
    /// After this mark, between `[.`, `[=` or `[:` and its end.
    Marked(u8),
}

impl Place {
    /// The place after a byte.
    fn after(self, byte: u8) -> Place
        ensures { result ≡ place_after self byte }
    {
        match (self, byte) {
            (Place::Outside, b'\\') => Place::Escaped,
            (Place::Outside, b'[') => Place::Opened,
            (Place::Outside | Place::Escaped, _) => Place::Outside,
            (Place::Opened, b'^') => Place::First,
            (Place::Inside | Place::Bracket, b']') => Place::Outside,
            (Place::Bracket, b'.' | b'=' | b':') => Place::Named(byte),
            (Place::Marked(_), b']') => Place::Inside,
            (Place::Named(mark) | Place::Marked(mark), _) => after_named(mark, byte),
            (_, b'[') => Place::Bracket,
            (_, _) => Place::Inside,
        }
    }
}

/// The place after a byte of what `[` and this mark began.
fn after_named(mark: u8, byte: u8) -> Place
    ensures { result ≡ after_named mark byte }
{
    if byte == mark {
        Place::Marked(mark)
    } else {
        Place::Named(mark)
    }
}

/// Whether a backslash before a byte says no more than the byte.
fn is_itself(byte: u8) -> bool
    ensures { result ≡ is_itself byte }
{
    !is_alnum(byte) && !b".[\\*^$<>`'|+?(){}".contains(&byte)
}

/// Whether the text goes on with a comma and a digit, as an interval without its least number does after its `\{`.
fn lacks_least(text: &[u8]) -> bool
    ensures { result ≡ (begins_with 44 text.now && begins_with_digit (drop 1 text.now)) }
{
    match text {
        [b',', rest @ ..] => begins_with_digit(rest),
        _ => false,
    }
}

/// What is written for the backslash at the front of a text and the byte after it.
fn escape_of(text: &[u8]) -> &[u8]
    requires { begins_with 92 text.now ≡ true }
    ensures { result.now ≡ escape_of (drop 1 text.now) }
{
    let [_, byte, after @ ..] = text else {
        return text;
    };
    match *byte {
        b'+' => b"\\{1,\\}",
        b'?' => b"\\{0,1\\}",
        b'w' => b"[[:alnum:]_]",
        b'W' => b"[^[:alnum:]_]",
        b's' => b"[[:space:]]",
        b'S' => b"[^[:space:]]",
        b'{' if lacks_least(after) => b"\\{0",
        other if is_itself(other) => &text[1..2],
        _ => &text[..2],
    }
}

/// What is written for the byte at the front of a text, which stands at this place.
fn written_for(place: Place, text: &[u8]) -> &[u8]
    ensures { result.now ≡ written_for place text.now }
{
    match (place, text) {
        (_, []) => text,
        (Place::Escaped, _) => &[],
        (Place::Outside, [b'\\', ..]) => escape_of(text),
        (_, _) => &text[..1],
    }
}

/// The text of a pattern as POSIX spells it, if GNU's spelling may stand too (GNU's manual of grep, Regular Expressions): `\+` and `\?` for
/// intervals, `\{,n\}` for `\{0,n\}`, `\w`, `\W`, `\s` and `\S` for bracket expressions, a backslash before a byte that needs none, and the
/// empty pattern. All else stays as it is. It takes memory for the text.
///
/// # Errors
///
/// `AllocError` if there is no memory.
pub fn respell(alloc: Global, text: &[u8]) -> Result<Vec<u8>, AllocError>
    ensures { IfOk result (λ posix. posix.items ≡ respelled text.now) }
{
    let mut posix = Vec::new(alloc);
    if text.is_empty() {
        posix.extend_from_slice(b"\\(\\)")?;
        return Ok(posix);
    }
    let mut place = Place::Outside;
    let mut left = text;
    while let [byte, rest @ ..] = left {
        posix.extend_from_slice(written_for(place, left))?;
        place = place.after(*byte);
        left = rest;
    }
    Ok(posix)
}

/// The offset in a text as it was typed, for an offset in the text that `respell` makes of it.
fn typed_at(text: &[u8], offset: usize) -> usize
    ensures { result ≡ typed_at text.now offset }
{
    let mut place = Place::Outside;
    let mut ahead = offset;
    let mut left = text;
    while let [byte, rest @ ..] = left {
        let written = written_for(place, left).len();
        if ahead < written {
            break;
        }
        ahead -= written;
        place = place.after(*byte);
        left = rest;
    }
    text.len() - left.len()
}

impl BreFault {
    /// The fault of a text that `respell` made of another text, with its place in that other text, as it was typed.
    pub fn as_typed(self, text: &[u8]) -> BreFault
        ensures kind { number_of result ≡ number_of self }
        ensures place { offset_of result ≡ option_map (typed_at text.now) (offset_of self) }
    {
        let Some(offset) = self.offset() else {
            return self;
        };
        let typed = typed_at(text, offset);
        match self {
            BreFault::Empty(_) => BreFault::Empty(typed),
            BreFault::BackReference(_) => BreFault::BackReference(typed),
            BreFault::Escape(_) => BreFault::Escape(typed),
            BreFault::OpenGroup(_) => BreFault::OpenGroup(typed),
            BreFault::CloseGroup(_) => BreFault::CloseGroup(typed),
            BreFault::Interval(_) => BreFault::Interval(typed),
            BreFault::Bracket(_) => BreFault::Bracket(typed),
            BreFault::Range(_) => BreFault::Range(typed),
            BreFault::Class(_) => BreFault::Class(typed),
            BreFault::TooLarge | BreFault::Memory => self,
        }
    }
}
