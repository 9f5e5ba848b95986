ghost use Rattle.std.specs.Prelude.{◌≤◌, ◌<◌};

use crate::InputFiles;
use crate::input_files::{STANDARD_INPUT, id_of, is_standard_output};
use crate::input_place::standard_input_place;
use std::fs;
use std::io::{self, BufRead, Lock, Read, StdinLock};
use std::mem::replace;
use std::os::unix::fs::FileExt;
use std::rt::{Files, Stdin};

/// The most bytes of one read that can be given back: as many as the library's lock on standard input reads ahead.
const AHEAD: usize = 4_096;

/// What standard input is.
#[derive(Clone, Copy)]
enum Kind {
    /// It wasn't asked yet what standard input is.
    Unasked,
    /// A regular file, or something that may be a regular file, so that it can be set back.
    File,
    /// Anything else.
    Other,
}

/// The real standard input.
///
/// If standard input is a file, the bytes of a read of at most 4,096 stay in the library's lock until the next read, or
/// until this is dropped. They are consumed then, so until then the last of them can be given back. When the lock is
/// dropped, it sets the file's place back before those that weren't consumed. Larger reads, and those of a pipe or a
/// terminal, go straight to the caller's buffer: nothing of them can be given back.
pub(crate) struct StandardInput {
    lock: StdinLock<'static>,
    kind: Kind,
    /// How many of the bytes that the last read gave are still in the lock, and were not given back.
    given: usize,
}

impl StandardInput {
    pub(crate) fn new(standard: Stdin) -> Self {
        StandardInput {
            lock: standard.lock(),
            kind: Kind::Unasked,
            given: 0,
        }
    }

    /// Asks what standard input is, before the first read. If it is a file to which standard output writes, this
    /// returns how many bytes it has left, or all that it has if its place isn't known. None if it is anything else, if
    /// the system doesn't say what it is, or if that was asked before.
    pub(crate) fn ask(&mut self, files: &impl Files, noted: &InputFiles) -> Option<u64> {
        let Kind::Unasked = self.kind else {
            return None;
        };
        self.kind = Kind::Other;
        let Ok(about) = fs::metadata(files, STANDARD_INPUT) else {
            self.read_ahead(noted);
            return None;
        };
        if !about.is_file() {
            return None;
        }
        self.kind = Kind::File;
        if !is_standard_output(files, id_of(&about), about.len()) {
            return None;
        }
        let place = standard_input_place(files).unwrap_or(0);
        Some(about.len().saturating_sub(place))
    }

    /// Goes on with the lock that showed whether this may be a file.
    fn read_ahead(&mut self, noted: &InputFiles) {
        if let Some(lock) = noted.ahead.take() {
            self.lock = lock;
        }
        if noted.ahead.may_be_file() {
            self.kind = Kind::File;
        }
    }

    /// Gives back the last `count` bytes of those that the last read gave, as far as they are in the lock, and returns
    /// how many bytes that were.
    pub(crate) fn give_back(&mut self, count: u64) -> u64
        ensures { result ≤ count }
    {
        let back = count.min(self.given as u64);
        self.given -= back as usize;
        back
    }
}

impl Read for StandardInput {
    fn read(&mut self, buf: &mut [u8]) -> io::Result<usize> {
        self.lock.consume(replace(&mut self.given, 0));
        let Kind::File = self.kind else {
            return self.lock.read(buf);
        };
        if AHEAD < buf.len() {
            return self.lock.read(buf);
        }
        match self.lock.fill_buf() {
            Ok(ready) => {
                let n = ready.len().min(buf.len());
                buf[..n].copy_from_slice(&ready[..n]);
                self.given = n;
                Ok(n)
            }
            Err(error) => Err(error),
        }
    }
}

impl Drop for StandardInput {
    fn drop(self) {
        let StandardInput {
            mut lock,
            kind: _,
            given,
        } = self;
        lock.consume(given);
    }
}

/// The file that standard input is. Each look opens it anew. So the place at which it is read isn't moved, and no file
/// is kept open.
#[derive(Drop)]
pub(crate) struct StandardFile {
    /// The place at which standard input stood.
    from: u64,
    /// How many bytes the file has from that place on.
    pub(crate) len: u64,
    ghost some: { 0 < len },
}

impl StandardFile {
    /// Asks about standard input, before anything is read. None if it is no file, if it has no byte left, or if the
    /// system doesn't let its place be known or its last byte be looked at.
    pub(crate) fn find<R: Files>(files: &R) -> Option<Self>
    where
        R::File: FileExt,
    {
        let about = fs::metadata(files, STANDARD_INPUT).ok()?;
        if !about.is_file() {
            return None;
        }
        let from = standard_input_place(files)?;
        let len = about.len().checked_sub(from)?;
        let last = len.checked_sub(1)?;
        let shown = StandardFile { from, len };
        shown.read_at(files, last, &mut [0u8]).then_some(shown)
    }

    /// Fills the buffer from a place on, counted from where standard input stood, and returns whether it could.
    pub(crate) fn read_at<R: Files>(&self, files: &R, place: u64, buffer: &mut [u8]) -> bool
    where
        R::File: FileExt,
    {
        let Some(at) = self.from.checked_add(place) else {
            return false;
        };
        match fs::open(files, STANDARD_INPUT) {
            Ok(file) => file.read_exact_at(buffer, at).is_ok(),
            Err(_) => false,
        }
    }
}
