//! The words that the program was started with. The system gives them as bytes.
ghost use Rattle.std.specs.{
  Prelude.{◌≡◌, ℕ, List, [], ◌∷◌, ◌++◌, Option, false, map, option_map, string_bytes, IfErr, IfOk, ⊤},
  Str.{is_utf8, Lossy.utf8_lossy},
};
ghost use Rattle.words_core.specs.{
  Called.{AreGiven, IfNotUtf8, IsCalled, IsFirstInvalid, IsUnreadable, MayBegin, Tells, called_by, last_part},
  Called.{reads_any, tool_called, without_hyphen, word_of, words_called},
};

use crate::words::find_tool;
use ports_core::{Calling, Tool};
use std::alloc::{AllocError, Global};
use std::env::{Env, FillError};
use std::str;

/// What the program was started with.
#[derive(Drop)]
pub struct Args {
    /// How it was called.
    pub calling: Calling,
    /// Its words, from the tool's name on.
    pub words: Vec<String>,
}

/// Why there are no words.
#[derive(Clone, Copy, Debug, PartialEq, Eq)]
pub enum ArgsFault {
    /// Memory was asked for and refused.
    Memory,
    /// The word at this place isn't UTF-8, and can't be read; the tool's name has the place 0.
    NotUtf8(usize),
}

/// How long a word is first taken to be.
const SHORT: usize = 256;

/// What a program was started with: its own name, and what follows that.
pub trait Arguments {
    /// Whether there may be this argument at a place, counted from 0, or no argument.
    ghost gives: { Self → ℕ → Option (List ℕ) → Type 0 };

    /// Puts the argument at this place at the front of the buffer, and returns its length.
    ///
    /// # Errors
    ///
    /// `NotPresent`: there is none. `TooLong`: it doesn't fit.
    fn argument(&self, place: usize, buffer: &mut [u8]) -> Result<usize, FillError>
        ensures { Tells (gives self.now place) buffer.new result };
}

/// The system's arguments: no clause of the library says what they are, so any may be given.
impl<E: Env> Arguments for E {
    ghost gives = { λ _ _ _. ⊤ };

    fn argument(&self, place: usize, buffer: &mut [u8]) -> Result<usize, FillError> {
        self.arg(place, buffer)
    }
}

/// How the program was called, and its words, from the tool's name on. If it is called by a tool's name, as through a
/// link, that name is the first word, and an argument that isn't UTF-8 is read as its text and a byte 0. `csplit`
/// doesn't read such arguments.
///
/// # Errors
///
/// `NotUtf8`: the first word that isn't UTF-8, if such words aren't read. `Memory` if there is no room for the words.
pub fn read_args<A: Arguments>(arguments: &A, alloc: Global) -> Result<Args, ArgsFault>
    ensures called { IfOk result
        (λ args. IsCalled (A.gives arguments.now) args.calling (map string_bytes args.words.items)) }
    ensures unreadable { IfErr result (IfNotUtf8 (IsUnreadable (A.gives arguments.now))) }
{
    let tool = match read_argument(arguments, alloc, 0) {
        Ok(Some(name)) => called_tool(&name),
        Ok(None) => {
            return Ok(Args {
                calling: Calling::Cutters,
                words: Vec::new(alloc),
            });
        }
        Err(AllocError) => return Err(ArgsFault::Memory),
    };
    match first_words(alloc, tool) {
        Ok(args) => read_rest(arguments, alloc, tool, args),
        Err(AllocError) => Err(ArgsFault::Memory),
    }
}

/// The tool that a program's own name calls: the tool whose name is the last part of it, without a `-` at its front.
fn called_tool(name: &[u8]) -> Option<Tool>
    ensures { result ≡ tool_called name.now }
{
    match str::from_utf8(without_hyphen(last_part(name))) {
        Ok(part) => find_tool(part),
        Err(_) => None,
    }
}

/// A name without the `-` with which the name of a login shell begins.
fn without_hyphen(name: &[u8]) -> &[u8]
    ensures { result.now ≡ without_hyphen name.now }
{
    match name {
        [b'-', rest @ ..] => rest,
        _ => name,
    }
}

/// What follows the last `/` of a path, or all of it if there is none.
fn last_part(path: &[u8]) -> &[u8]
    ensures { result.now ≡ last_part path.now }
{
    let mut part = path;
    let mut left = path;
    while let [byte, rest @ ..] = left {
        if *byte == b'/' {
            part = rest;
        }
        left = rest;
    }
    part
}

/// The words before all others: the tool's name, if the program is called by it.
fn first_words(alloc: Global, tool: Option<Tool>) -> Result<Args, AllocError>
    ensures words { IfOk result (λ args. map string_bytes args.words.items ≡ words_called tool) }
    ensures calling { IfOk result (λ args. args.calling ≡ called_by tool) }
{
    let mut words = Vec::new(alloc);
    let Some(tool) = tool else {
        return Ok(Args {
            calling: Calling::Cutters,
            words,
        });
    };
    words.push(String::from_str(alloc, tool.name())?)?;
    Ok(Args {
        calling: Calling::OwnName,
        words,
    })
}

/// These words, and after them the arguments that follow the program's own name, which calls this tool.
fn read_rest<A: Arguments>(
    arguments: &A,
    alloc: Global,
    tool: Option<Tool>,
    first: Args,
) -> Result<Args, ArgsFault>
    ensures words { IfOk result (λ args. (rest : List (List ℕ)) × AreGiven (A.gives arguments.now) 1 rest
        × (map string_bytes args.words.items ≡ map string_bytes first.words.items ++ map (word_of tool) rest)) }
    ensures calling { IfOk result (λ args. args.calling ≡ first.calling) }
    ensures unreadable { IfErr result (IfNotUtf8 (λ place. (rest : List (List ℕ))
        × MayBegin (A.gives arguments.now) 1 rest
        × IsFirstInvalid (map string_bytes first.words.items ++ map (word_of tool) rest) place)) }
{
    let mut words = first.words;
    for place in 1..usize::MAX {
        match read_argument(arguments, alloc, place) {
            Ok(Some(bytes)) => push_word(alloc, tool, &mut words, bytes)?,
            Ok(None) => {
                return Ok(Args {
                    calling: first.calling,
                    words,
                });
            }
            Err(AllocError) => break,
        }
    }
    Err(ArgsFault::Memory)
}

/// Puts an argument after the words.
fn push_word(
    alloc: Global,
    tool: Option<Tool>,
    words: &mut Vec<String>,
    bytes: Vec<u8>,
) -> Result<(), ArgsFault>
    ensures pushed { IfOk result (λ _. map string_bytes words.new.items
        ≡ map string_bytes words.old.items ++ word_of tool bytes.items ∷ []) }
    ensures unreadable { IfErr result (IfNotUtf8
        (IsFirstInvalid (map string_bytes words.old.items ++ word_of tool bytes.items ∷ []))) }
{
    let word = read_word(alloc, tool, words.len(), bytes)?;
    match words.push(word) {
        Ok(()) => Ok(()),
        Err(_) => Err(ArgsFault::Memory),
    }
}

/// The word that an argument at this place is read as.
fn read_word(
    alloc: Global,
    tool: Option<Tool>,
    place: usize,
    bytes: Vec<u8>,
) -> Result<String, ArgsFault>
    ensures word { IfOk result (λ word. string_bytes word ≡ word_of tool bytes.items) }
    ensures unreadable { IfErr result (IfNotUtf8
        (λ found. (found ≡ place) × (is_utf8 (word_of tool bytes.items) ≡ false))) }
{
    match String::from_utf8(bytes) {
        Ok(word) => Ok(word),
        Err(error) if reads_any(tool) => match marked(alloc, error.as_bytes()) {
            Ok(word) => Ok(word),
            Err(AllocError) => Err(ArgsFault::Memory),
        },
        Err(_) => Err(ArgsFault::NotUtf8(place)),
    }
}

/// Whether this tool, called by its own name, reads any argument. An operand of `csplit` may be a pattern.
fn reads_any(tool: Option<Tool>) -> bool
    ensures { result ≡ reads_any tool }
{
    match tool {
        None => false,
        Some(Tool::Csplit) => false,
        Some(_) => true,
    }
}

/// The text of bytes that aren't UTF-8, and after it the byte 0, by which no file can have this name.
fn marked(alloc: Global, bytes: &[u8]) -> Result<String, AllocError>
    ensures { IfOk result (λ word. string_bytes word ≡ utf8_lossy bytes.now ++ 0 ∷ []) }
{
    let mut word = String::from_utf8_lossy(alloc, bytes)?;
    word.push('\0')?;
    Ok(word)
}

/// The argument at this place, in a buffer that doubles until it fits.
fn read_argument<A: Arguments>(
    arguments: &A,
    alloc: Global,
    place: usize,
) -> Result<Option<Vec<u8>>, AllocError>
    ensures { IfOk result (λ found. A.gives arguments.now place (option_map (λ bytes. bytes.items) found)) }
{
    let mut size = SHORT;
    for _ in 0..usize::BITS {
        let mut buffer = vec![in alloc; 0u8; size]?;
        match arguments.argument(place, &mut buffer) {
            Ok(len) => {
                buffer.truncate(len);
                return Ok(Some(buffer));
            }
            Err(FillError::NotPresent) => return Ok(None),
            Err(FillError::TooLong) => size = size.saturating_mul(2),
        }
    }
    Err(AllocError)
}
