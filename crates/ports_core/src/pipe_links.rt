//! Which process has a pipe open for reading, as the system lists it.

use crate::process_state::unless_gone;
use std::fs;
use std::io::{self, ErrorKind};
use std::os::unix::fs::MetadataExt;
use std::rt::Files;

/// The permission of a link to what is open for reading.
const FOR_READING: u32 = 0o400;

/// How far a search goes.
#[derive(Clone, Copy)]
pub(crate) enum Depth {
    /// To what each process has open.
    Processes,
    /// To what each thread has open: a thread may have other files open than the first thread of its process.
    Threads,
}

/// The link by which a process has this pipe open for reading. None if it doesn't have it open, or is gone.
///
/// # Errors
///
/// Why the process can't be looked into.
pub(crate) fn link_of<S: Files + AllocGlobal + Clone + Drop>(
    system: &S,
    pipe: &str,
    process: u32,
    depth: Depth,
) -> io::Result<Option<String>> {
    match depth {
        Depth::Processes => {
            let folder = format!(in system.alloc(); "/proc/{process}/fd")?;
            link_in(system, pipe, folder.as_str())
        }
        Depth::Threads => {
            let threads = format!(in system.alloc(); "/proc/{process}/task")?;
            link_of_thread(system, pipe, threads.as_str())
        }
    }
}

/// The link by which one of the threads that this folder lists has the pipe open for reading.
fn link_of_thread<S: Files + AllocGlobal + Clone + Drop>(
    system: &S,
    pipe: &str,
    threads: &str,
) -> io::Result<Option<String>> {
    let Some(threads) = unless_gone(fs::read_dir(system, threads))? else {
        return Ok(None);
    };
    for thread in threads {
        let thread = thread?;
        let folder = format!(in system.alloc(); "{}/fd", thread.path().as_str())?;
        if let Some(link) = link_in(system, pipe, folder.as_str())? {
            return Ok(Some(link));
        }
    }
    Ok(None)
}

/// The link to the pipe among the links in a folder.
fn link_in<S: Files + AllocGlobal + Clone + Drop>(
    system: &S,
    pipe: &str,
    folder: &str,
) -> io::Result<Option<String>> {
    let Some(links) = unless_gone(fs::read_dir(system, folder))? else {
        return Ok(None);
    };
    for link in links {
        let link = link?;
        let path = link.path().as_str();
        if is_read_by(system, pipe, path)? {
            return Ok(Some(String::from_str(system.alloc(), path)?));
        }
    }
    Ok(None)
}

/// Whether this link leads to the pipe, and is open for reading.
///
/// # Errors
///
/// Why that can't be known.
pub(crate) fn is_read_by<S: Files + AllocGlobal>(
    system: &S,
    pipe: &str,
    link: &str,
) -> io::Result<bool> {
    match fs::read_link(system, link) {
        Ok(target) if target.as_str() == pipe => {}
        Ok(_) => return Ok(false),
        // A name that isn't text is no name of a pipe.
        Err(error) if error.kind() == ErrorKind::InvalidFilename => return Ok(false),
        Err(error) if error.kind() == ErrorKind::NotFound => return Ok(false),
        Err(error) => return Err(error),
    }
    match unless_gone(fs::symlink_metadata(system, link))? {
        Some(about) => Ok(about.mode() & FOR_READING != 0),
        None => Ok(false),
    }
}
