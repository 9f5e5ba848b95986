//! Lines dealt in turn as a slow program that sees a whole text at once, to compare the engine with.
use std::alloc::{AllocError, Global};

/// What one file of `count` gets: the lines whose number, counted from 0, leaves the file's place as
/// its remainder.
///
/// # Errors
///
/// `AllocError` where there is no room for it.
pub(crate) fn plain(
    alloc: Global,
    count: u64,
    file: u64,
    text: &[u8],
    delim: u8,
) -> Result<Vec<u8>, AllocError> {
    let mut out = Vec::new(alloc);
    let mut line = 0u64;
    for byte in text {
        if line.checked_rem(count) == Some(file) {
            out.push(*byte)?;
        }
        if *byte == delim {
            line = line.saturating_add(1);
        }
    }
    Ok(out)
}
