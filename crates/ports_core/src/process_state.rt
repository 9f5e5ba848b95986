//! What the system says to anybody about a process.

use crate::input_place::fill;
use std::fs;
use std::io::{self, Error, ErrorKind};
use std::rt::Files;
use std::str::from_utf8;

/// More bytes than those that are read of a state.
const ROOM: usize = 1_024;

/// What stands after the process's name, in which any byte may stand.
const AFTER_NAME: u8 = b')';

/// The flag of a part of the system itself, which has no files.
const OF_SYSTEM: u32 = 0x0020_0000;

/// What the system says about a process.
#[derive(Clone, Copy)]
pub(crate) struct ProcessState {
    /// Whether the process may have files open: it is no part of the system itself, and one of its threads still runs.
    pub(crate) may_have_files: bool,
    /// The number of the process's parent.
    pub(crate) parent: u32,
    pub(crate) session: u32,
    /// When the process began, in ticks of the system's clock.
    pub(crate) began: u64,
}

impl ProcessState {
    /// What the system says about a process by the file of this name. None if there is no such file: then the process
    /// is gone.
    ///
    /// # Errors
    ///
    /// Why that can't be known.
    pub(crate) fn of(files: &impl Files, path: &str) -> io::Result<Option<Self>> {
        let Some(mut file) = unless_gone(fs::open(files, path))? else {
            return Ok(None);
        };
        let mut buffer = [0u8; ROOM];
        let Some(count) = fill(&mut file, &mut buffer) else {
            return Err(Error::from(ErrorKind::InvalidData));
        };
        match state_in(&buffer[..count]) {
            Some(state) => Ok(Some(state)),
            None => Err(Error::from(ErrorKind::InvalidData)),
        }
    }
}

/// The state that the system's text says.
fn state_in(text: &[u8]) -> Option<ProcessState> {
    let end = text.iter().rposition(|&byte| byte == AFTER_NAME)?;
    let mut fields = from_utf8(text.get(end + 1..)?)
        .ok()?
        .split_ascii_whitespace();
    let has_ended = matches!(fields.next()?, "Z" | "X");
    let parent = fields.next()?.parse().ok()?;
    let session = fields.nth(1)?.parse().ok()?;
    let flags: u32 = fields.nth(2)?.parse().ok()?;
    let threads: u32 = fields.nth(10)?.parse().ok()?;
    let began = fields.nth(1)?.parse().ok()?;
    Some(ProcessState {
        may_have_files: flags & OF_SYSTEM == 0 && (!has_ended || threads > 1),
        parent,
        session,
        began,
    })
}

/// What was found. None if it isn't there, as if a process is gone.
///
/// # Errors
///
/// Any other error.
pub(crate) fn unless_gone<T>(found: io::Result<T>) -> io::Result<Option<T>> {
    match found {
        Ok(found) => Ok(Some(found)),
        Err(error) if error.kind() == ErrorKind::NotFound => Ok(None),
        Err(error) => Err(error),
    }
}
