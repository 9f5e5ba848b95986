//! Words that the system gives as bytes.
ghost use Rattle.std.specs.Prelude.{◌≡◌, map, slice_get};

use ports_core::Calling;
use std::alloc::Global;
use std::env::FillError;
use words_core::{ArgsFault, Arguments, read_args};

/// Arguments in memory.
#[derive(Clone, Copy)]
pub(crate) struct Given<'a> {
    pub words: &'a [&'a [u8]],
}

impl Arguments for Given<'_> {
    ghost gives = { λ given place found. found ≡ slice_get (map (λ word. word.now) given.words.now) place };

    fn argument(&self, place: usize, buffer: &mut [u8]) -> Result<usize, FillError> {
        let Some(word) = self.words.get(place) else {
            return Err(FillError::NotPresent);
        };
        if word.len() > buffer.len() {
            return Err(FillError::TooLong);
        }
        buffer[..word.len()].copy_from_slice(word);
        Ok(word.len())
    }
}

/// Longer than the first room for a word.
const LONG: &[u8] = &[b'a'; 1000];

/// Whether the words are refused, since the one at this place is no text.
fn refuses(alloc: Global, words: &[&[u8]], place: usize) -> bool {
    match read_args(&Given { words }, alloc) {
        Ok(_) => false,
        Err(fault) => fault == ArgsFault::NotUtf8(place),
    }
}

/// Whether the words are read as these of a program that is called so.
fn reads(alloc: Global, words: &[&[u8]], calling: Calling, wanted: &[&[u8]]) -> bool {
    match read_args(&Given { words }, alloc) {
        Ok(found) => found.calling == calling && are(&found.words, wanted),
        Err(_) => false,
    }
}

fn are(found: &[String], wanted: &[&[u8]]) -> bool {
    for (place, word) in wanted.iter().enumerate() {
        match found.get(place) {
            Some(read) if read.as_bytes() == *word => {}
            _ => return false,
        }
    }
    found.len() == wanted.len()
}

#[test]
fn reads_words(rt: HostRuntime) {
    for (words, calling, wanted) in READ {
        assert!(rt; reads(rt.alloc(), words, *calling, wanted), "of {words:?}");
    }
}

/// What the system gives, how the program is called then, and the words that it is read as.
const READ: &[(&[&[u8]], Calling, &[&[u8]])] = &[
    (
        &[b"cutters", b"head", b"", LONG],
        Calling::Cutters,
        &[b"head", b"", LONG],
    ),
    (&[], Calling::Cutters, &[]),
    // Names of a tool.
    (&[b"head", b"x"], Calling::OwnName, &[b"head", b"x"]),
    (
        &[b"/usr/bin/tail", b"x"],
        Calling::OwnName,
        &[b"tail", b"x"],
    ),
    (&[b"./split", b"x"], Calling::OwnName, &[b"split", b"x"]),
    (
        &[b"no \xff text/csplit", b"x"],
        Calling::OwnName,
        &[b"csplit", b"x"],
    ),
    (&[b"//tee", b"x"], Calling::OwnName, &[b"tee", b"x"]),
    (&[b"-tail", b"x"], Calling::OwnName, &[b"tail", b"x"]),
    (&[b"/bin/-head", b"x"], Calling::OwnName, &[b"head", b"x"]),
    // Names that are no tool's.
    (&[b"cutters", b"x"], Calling::Cutters, &[b"x"]),
    (&[b"tee/", b"x"], Calling::Cutters, &[b"x"]),
    (&[b"tee/cutters", b"x"], Calling::Cutters, &[b"x"]),
    (&[b"header", b"x"], Calling::Cutters, &[b"x"]),
    (&[b"a-head", b"x"], Calling::Cutters, &[b"x"]),
    (&[b"--head", b"x"], Calling::Cutters, &[b"x"]),
    (&[b"-/cutters", b"x"], Calling::Cutters, &[b"x"]),
    (&[b"-", b"x"], Calling::Cutters, &[b"x"]),
    (&[b"", b"x"], Calling::Cutters, &[b"x"]),
    (&[b"head\xff", b"x"], Calling::Cutters, &[b"x"]),
];

#[test]
fn words_that_are_no_text_have_one_by_a_tools_name(rt: HostRuntime) {
    for (word, text) in TEXTS {
        for tool in ANY_READ {
            assert!(rt;
                reads(
                    rt.alloc(),
                    &[*tool, *word, b"x"],
                    Calling::OwnName,
                    &[*tool, *text, b"x"]
                ),
                "at {word:?}"
            );
        }
    }
}

/// The tools that read any word.
const ANY_READ: &[&[u8]] = &[b"head", b"tail", b"split", b"tee"];

/// Words as the system gives them, and their texts.
const TEXTS: &[(&[u8], &[u8])] = &[
    (b"caf\xc3\xa9", b"caf\xc3\xa9"),
    (b"caf\xe9", b"caf\xef\xbf\xbd\0"),
    (b"-n\xff", b"-n\xef\xbf\xbd\0"),
    (b"\xff\xfe", b"\xef\xbf\xbd\xef\xbf\xbd\0"),
    // The beginning of a character that doesn't go on is one part.
    (b"a\xe2\x82", b"a\xef\xbf\xbd\0"),
    (b"\xe2\x82b", b"\xef\xbf\xbdb\0"),
    (b"\xf0\x9f\x98", b"\xef\xbf\xbd\0"),
    // Of what begins none each byte is one: overlong forms, halves of a pair, and what is past the last character.
    (b"\xc0\xaf", b"\xef\xbf\xbd\xef\xbf\xbd\0"),
    (b"\xe0\x80\xaf", b"\xef\xbf\xbd\xef\xbf\xbd\xef\xbf\xbd\0"),
    (b"\xed\xa0\x80", b"\xef\xbf\xbd\xef\xbf\xbd\xef\xbf\xbd\0"),
    (
        b"\xf4\x90\x80\x80",
        b"\xef\xbf\xbd\xef\xbf\xbd\xef\xbf\xbd\xef\xbf\xbd\0",
    ),
];

#[test]
fn tells_the_word_that_is_no_text(rt: HostRuntime) {
    for (words, place) in REFUSED {
        assert!(rt; refuses(rt.alloc(), words, *place), "at {place}");
    }
}

/// What the system gives, and the place of the word that is no text.
const REFUSED: &[(&[&[u8]], usize)] = &[
    (&[b"cutters", b"head\xff"], 0),
    (&[b"cutters", b"head", b"-n", b"1", b"\xc3"], 3),
    (&[b"\xff", b"head", b"\xfe", b"\xff"], 1),
    (&[b"/bin/csplit", b"-n", b"\xfe"], 2),
];
