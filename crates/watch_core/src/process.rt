//! Processes, as the system lists them.

use itoa::Buffer;
use std::alloc::{AllocError, Global};
use std::fs;
use std::rt::Files;

/// Where the system lists the processes that run, each by its number.
const PROCESSES: &str = "/proc/";

/// This process itself in that list: where it isn't there, the system has no list.
const ITSELF: &str = "/proc/self";

/// A process whose end is waited for.
#[derive(Drop)]
pub(crate) struct Process {
    number: u32,
    /// Where the system lists it while it runs.
    path: String,
}

impl Process {
    /// The process of this number.
    ///
    /// # Errors
    ///
    /// `AllocError` where there is no room for the name under which it is listed.
    pub(crate) fn new(alloc: Global, number: u32) -> Result<Self, AllocError> {
        let mut buffer = Buffer::new();
        let mut path = String::from_str(alloc, PROCESSES)?;
        path.push_str(buffer.format(number))?;
        Ok(Process { number, path })
    }

    /// Whether it is the process of this number.
    pub(crate) fn is(&self, number: u32) -> bool {
        self.number == number
    }

    /// Whether it is gone: the system lists processes, and not this one. One that ended and that nobody waited for yet is
    /// listed.
    pub(crate) fn is_gone(&self, files: &impl Files) -> bool {
        matches!(fs::exists(files, self.path.as_str()), Ok(false))
            && matches!(fs::exists(files, ITSELF), Ok(true))
    }
}
