//! Short texts, the bytes that lines end with, and pieces, for tests of each engine beside a plain program.
use std::alloc::{AllocError, Global};

/// The bytes that lines end with.
pub(crate) const DELIMITERS: [u8; 3] = [b'\n', 0, b'c'];

/// For each size of a text: how many texts there are of three bytes, of which one is the delimiter, and how many ways
/// to cut one into pieces.
const SIZES: [(usize, u32, u32); 7] = [
    (0, 1, 1),
    (1, 3, 1),
    (2, 9, 2),
    (3, 27, 4),
    (4, 81, 8),
    (5, 243, 16),
    (6, 729, 32),
];

/// A text of up to six bytes.
#[derive(Drop)]
pub(crate) struct Short {
    bytes: [u8; 6],
    size: usize,
    /// In how many ways it can be cut into pieces.
    ways: u32,
}

impl Short {
    /// The text.
    pub(crate) fn text(&self) -> &[u8] {
        self.bytes.get(..self.size).unwrap_or(&[])
    }

    /// The text in pieces, in each way to cut it.
    pub(crate) fn cuttings(&self, alloc: Global) -> Result<Vec<Vec<&[u8]>>, AllocError> {
        let mut cuttings = Vec::new(alloc);
        for cuts in 0..self.ways {
            cuttings.push(pieces_of(alloc, self.text(), cuts)?)?;
        }
        Ok(cuttings)
    }
}

/// All texts of up to six bytes that are `a`, the delimiter, or the newline (`b` where that is the delimiter).
pub(crate) fn short_texts(alloc: Global, delim: u8) -> Result<Vec<Short>, AllocError> {
    let mut texts = Vec::new(alloc);
    for (size, count, ways) in SIZES {
        for number in 0..count {
            let bytes = text_of(number, delim);
            texts.push(Short { bytes, size, ways })?;
        }
    }
    Ok(texts)
}

/// The text with this number: its bytes stand for the number's digits. Where lines end with another byte, a newline is
/// a byte as any other.
fn text_of(number: u32, delim: u8) -> [u8; 6] {
    let other = if delim == b'\n' { b'b' } else { b'\n' };
    let mut text = [delim; 6];
    let mut left = number;
    for byte in text.iter_mut() {
        match left % 3 {
            0 => *byte = b'a',
            1 => *byte = other,
            _ => {}
        }
        left /= 3;
    }
    text
}

/// A text in pieces: a piece ends after each byte whose bit in `cuts` is set, and at the end.
pub(crate) fn pieces_of(alloc: Global, text: &[u8], cuts: u32) -> Result<Vec<&[u8]>, AllocError> {
    let mut pieces = Vec::new(alloc);
    let mut rest = text;
    let mut size = 0usize;
    let mut left = cuts;
    for _ in text {
        size = size.saturating_add(1);
        if left % 2 == 1
            && let Some((piece, after)) = rest.split_at_checked(size)
        {
            pieces.push(piece)?;
            rest = after;
            size = 0;
        }
        left /= 2;
    }
    if !rest.is_empty() {
        pieces.push(rest)?;
    }
    Ok(pieces)
}
