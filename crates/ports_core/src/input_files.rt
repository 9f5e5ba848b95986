ghost use Rattle.std.specs.Prelude.{◌≡◌, ◌+◌, ◌*◌, ◌^◌, IfSome, IsTrue};
ghost use Rattle.ports_core.specs.inner.Refusal.{spares};

use crate::Reason;
use crate::ahead::Ahead;
use std::alloc::Global;
use std::cell::Cell;
use std::fs;
use std::fs::{Metadata, OpenFile};
use std::os::unix::fs::{FileTypeExt, MetadataExt};
use std::rt::Files;

/// The system's name for standard input, whatever other names lead to.
pub(crate) const STANDARD_INPUT: &str = "/proc/self/fd/0";

/// The system's name for standard output.
pub(crate) const STANDARD_OUTPUT: &str = "/proc/self/fd/1";

/// What an input is that was opened.
#[derive(Clone, Copy)]
pub(crate) enum Opened {
    /// A regular file, of this identity, and with this many bytes.
    Regular { id: u128, len: u64 },
    /// Anything else.
    Other,
}

/// Which files are read: those that were opened as inputs, and standard input. Inputs note their files. Outputs ask
/// before they empty a file, so that no output is an input. A file stays noted when its input has ended.
///
/// Only regular files count, by their identity: other names of a file and links to it are the same file. A device or a
/// pipe may well be read and written.
///
/// If the system doesn't say which file standard input is, standard input may be any regular file that has a byte, if
/// it is read and can be sought.
#[derive(Drop)]
pub struct InputFiles {
    alloc: Global,
    /// The identities, in the order in which the files were opened. None for a file of which the system didn't say it.
    noted: Cell<Vec<Option<u128>>>,
    /// Whether an input was opened by its name. The tools that make files read no other input then.
    have_name: Cell<bool>,
    /// Standard input, if the system doesn't say which file it is.
    pub(crate) ahead: Ahead,
}

impl InputFiles {
    /// No file but standard input. It takes no memory.
    pub fn new(alloc: Global) -> Self {
        InputFiles {
            alloc,
            noted: Cell::new(Vec::new(alloc)),
            have_name: Cell::new(false),
            ahead: Ahead::new(alloc),
        }
    }

    /// Notes a file that was opened as an input, and returns what it is. None if there is no memory for that.
    pub(crate) fn note(&self, file: &impl OpenFile) -> Option<Opened> {
        self.have_name.set(true);
        let Ok(about) = file.metadata() else {
            return self.keep(None, Opened::Other);
        };
        if !about.is_file() {
            return Some(Opened::Other);
        }
        let id = id_of(&about);
        let len = about.len();
        self.keep(Some(id), Opened::Regular { id, len })
    }

    fn keep(&self, id: Option<u128>, opened: Opened) -> Option<Opened> {
        if self.add(id) {
            return Some(opened);
        }
        None
    }

    fn add(&self, id: Option<u128>) -> bool {
        let mut noted = self.noted.replace(Vec::new(self.alloc));
        let is_kept = noted.push(id).is_ok();
        self.noted.set(noted);
        is_kept
    }

    /// Why this regular file can't be an output: it is an input, or may be an input by what the system says.
    pub(crate) fn refuse(&self, files: &impl Files, about: &Metadata) -> Option<Reason>
        ensures { IfSome result (λ why. IsTrue (spares why)) }
    {
        let id = id_of(about);
        if self.has(id) {
            return Some(Reason::Input);
        }
        match is_stream(files, STANDARD_INPUT, id) {
            Some(is_input) => is_input.then_some(Reason::Input),
            None => {
                let may_be_input = about.len() > 0
                    && !self.have_name.get()
                    && self.ahead.may_be_file();
                may_be_input.then_some(Reason::MayBeInput)
            }
        }
    }

    /// Whether a file of this identity was noted, or a file whose identity isn't known.
    fn has(&self, id: u128) -> bool {
        let noted = self.noted.replace(Vec::new(self.alloc));
        let found = noted.contains(&Some(id)) || noted.contains(&None);
        self.noted.set(noted);
        found
    }
}

/// Whether standard output writes to the file of this identity and length. If the system doesn't say so, it may, except
/// to a file that says a length of 0: files of the system itself say that, whatever they hold.
pub(crate) fn is_standard_output(files: &impl Files, id: u128, len: u64) -> bool {
    is_stream(files, STANDARD_OUTPUT, id).unwrap_or(len > 0)
}

/// Whether the stream of this name is the file of this identity. None if the system doesn't say so.
fn is_stream(files: &impl Files, stream: &str, id: u128) -> Option<bool> {
    let about = fs::metadata(files, stream).ok()?;
    Some(id_of(&about) == id)
}

/// Whether the file is a character device, as a terminal or `/dev/zero`.
pub(crate) fn is_device(about: &Metadata) -> bool {
    about.file_type().is_char_device()
}

/// The identity of a file: no two files of one system have the same device and the same number there.
pub fn id_of(about: &Metadata) -> u128 {
    identity(about.dev(), about.ino())
}

fn identity(device: u64, number: u64) -> u128
    ensures { result ≡ device * 2 ^ 64 + number }
{
    device as u128 * 0x1_0000_0000_0000_0000 + number as u128
}
