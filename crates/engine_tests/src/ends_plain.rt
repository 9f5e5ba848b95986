//! The tools as slow programs that see a whole text at once, to compare the engines with.
use ends_core::Unit;
use std::alloc::{AllocError, Global};

/// Which part of a text is written.
#[derive(Clone, Copy, Debug, PartialEq, Eq)]
pub(crate) enum Side {
    /// The first lines or bytes.
    First,
    /// All but the last.
    ButLast,
    /// The last.
    Last,
    /// All from the nth on.
    FromNth,
}

impl Side {
    /// Whether a line or byte is written, where `before` stand before it and there are `all` of
    /// them.
    fn has(self, count: u64, before: u64, all: u64) -> bool {
        match self {
            Side::First => before < count,
            Side::ButLast => before.saturating_add(count) < all,
            Side::Last => all <= before.saturating_add(count),
            Side::FromNth => count <= before.saturating_add(1),
        }
    }
}

/// What is asked for.
#[derive(Clone, Copy, Debug, PartialEq, Eq)]
pub(crate) struct Asked {
    /// Which part.
    pub side: Side,
    /// What is counted.
    pub unit: Unit,
    /// How many lines or bytes, or which one is the first.
    pub count: u64,
    /// The byte with which lines end.
    pub delim: u8,
}

impl Asked {
    /// How many lines or bytes a text has. An open last line counts.
    fn size(self, text: &[u8]) -> u64 {
        match self.unit {
            Unit::Lines => {
                let is_open = text.last().is_some_and(|byte| *byte != self.delim);
                delimiters(text, self.delim).saturating_add(u64::from(is_open))
            }
            Unit::Bytes => text.len() as u64,
        }
    }
}

fn delimiters(text: &[u8], delim: u8) -> u64 {
    let mut count = 0u64;
    for byte in text {
        if *byte == delim {
            count = count.saturating_add(1);
        }
    }
    count
}

/// What is written of a text.
///
/// # Errors
///
/// `AllocError` where there is no room for it.
pub(crate) fn plain(alloc: Global, asked: Asked, text: &[u8]) -> Result<Vec<u8>, AllocError> {
    let all = asked.size(text);
    let mut out = Vec::new(alloc);
    let mut before = 0u64;
    for byte in text {
        if asked.side.has(asked.count, before, all) {
            out.push(*byte)?;
        }
        if asked.unit == Unit::Bytes || *byte == asked.delim {
            before = before.saturating_add(1);
        }
    }
    Ok(out)
}
