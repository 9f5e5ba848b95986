//! Cutting into parts as a slow program that sees a whole text at once, to compare the engine with.
use split_core::Limit;
use std::alloc::{AllocError, Global};

/// The parts of a text, in order. The number of the limit is at least 1.
///
/// # Errors
///
/// `AllocError` where there is no room for them.
pub(crate) fn plain_parts<'a>(
    alloc: Global,
    limit: Limit,
    text: &'a [u8],
) -> Result<Vec<&'a [u8]>, AllocError> {
    let mut parts = Vec::new(alloc);
    let mut rest = text;
    for _ in text {
        let size = first_size(limit, rest);
        let (Some(part), Some(after)) = (rest.get(..size), rest.get(size..)) else {
            return Ok(parts);
        };
        if part.is_empty() {
            return Ok(parts);
        }
        parts.push(part)?;
        rest = after;
    }
    Ok(parts)
}

/// How many bytes the first part of a text has.
fn first_size(limit: Limit, text: &[u8]) -> usize {
    match limit {
        Limit::Lines(most, delim) => lines_size(most, text, delim),
        Limit::Bytes(most) => bytes_size(most, text),
        Limit::LineBytes(most, delim) => {
            let size = bytes_size(most, text);
            if (size as u64) < most {
                return size;
            }
            whole_lines_size(size, text, delim)
        }
    }
}

/// How many bytes the first `most` lines have.
fn lines_size(most: u64, text: &[u8], delim: u8) -> usize {
    let mut size = 0usize;
    let mut lines = 0u64;
    for byte in text {
        if lines >= most {
            return size;
        }
        size = size.saturating_add(1);
        if *byte == delim {
            lines = lines.saturating_add(1);
        }
    }
    size
}

fn bytes_size(most: u64, text: &[u8]) -> usize {
    let mut size = 0usize;
    for _ in text {
        if size as u64 >= most {
            return size;
        }
        size = size.saturating_add(1);
    }
    size
}

/// Where the last delimiter among the first `most` bytes ends, or `most` where there is none.
fn whole_lines_size(most: usize, text: &[u8], delim: u8) -> usize {
    let mut end = most;
    let mut size = 0usize;
    for byte in text {
        size = size.saturating_add(1);
        if size <= most && *byte == delim {
            end = size;
        }
    }
    end
}
