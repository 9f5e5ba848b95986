//! The iterator over the lines of a text.
ghost use Rattle.std.specs.{Prelude.◌≡◌, Iterator.{YieldsFirstRef, item_count}};
ghost use Rattle.seg_core.specs.Line.{lines_left};

use crate::line::next_line;
use std::iter::FusedIterator;
use std::marker::Model;

/// The lines of a text that are left, each ended by the same byte and a slice of the text. It takes
/// no memory.
#[derive(Debug, Drop)]
pub struct Lines<'a> {
    left: &'a [u8],
    delim: u8,
}

impl<'a> Model for Lines<'a> {
    ghost use Rattle.seg_core.specs.Line.{LinesLeft};

    ghost Value = { LinesLeft };

    ghost view = { λ lines. record { delim = lines.delim; text = lines.left.now } };
}

impl<'a> Lines<'a> {
    /// All lines of `bytes`, each ended by `delim`.
    pub fn new(bytes: &'a [u8], delim: u8) -> Lines<'a>
        ensures { result ≡ record { delim = delim; text = bytes.now } }
    {
        Lines { left: bytes, delim }
    }
}

impl<'a> Iterator for Lines<'a> {
    type Item = &'a [u8];

    ghost next_gives = { YieldsFirstRef lines_left };

    ghost remaining = { item_count lines_left };

    fn next(&mut self) -> Option<&'a [u8]> {
        if self.left.is_empty() {
            return None;
        }
        let (line, left) = next_line(self.left, self.delim);
        self.left = left;
        Some(line)
    }
}

impl<'a> FusedIterator for Lines<'a> {}
