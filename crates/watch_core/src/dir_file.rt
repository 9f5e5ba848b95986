ghost use Rattle.std.{specs.Prelude.{◌≡◌, ◌≤◌, ◌<◌, ◌+◌, ◌^◌, false, length, IfOk, IfSome, IsTrue}, proofs.Props.props};

use ports_core::{MOST_BYTES, PIECE};
use std::alloc::Global;
use std::fs::{File, Metadata};
use std::io::{self, Error, ErrorKind, Read, Seek, SeekFrom};
use std::os::unix::fs::FileExt;

/// How many bytes are read at once, at the most, to count those of a file that doesn't tell its length.
const COUNTED: usize = 4_096;

/// A real file that is open for reading.
#[derive(Drop)]
pub(crate) enum DirFile {
    /// A regular file, which is read at any place.
    Placed(Placed),
    /// Any other, such as a named pipe, a terminal or another device, which is read as it comes.
    Stream(Stream),
}

impl DirFile {
    /// A file that was just opened, and what the system tells of it. A regular one begins at a place. What a stream gives is waited for
    /// here, as long as somebody has it open to write.
    pub(crate) fn new(
        alloc: Global,
        file: File,
        about: &Metadata,
        from: u64,
    ) -> io::Result<DirFile> {
        if about.is_file() {
            return Ok(DirFile::Placed(Placed::new(file, about.len(), from)));
        }
        Ok(DirFile::Stream(Stream::new(alloc, file)?))
    }

    /// How many bytes it had when changes were last looked for; of a stream those that were taken.
    ///
    /// # Errors
    ///
    /// The error by which that couldn't be told; one without a number where it is more than a watch tells.
    pub(crate) fn len(&mut self) -> io::Result<u64>
        ensures { IfOk result (λ len. len < 2 ^ 63) }
    {
        match self {
            DirFile::Placed(file) => file.len(),
            DirFile::Stream(stream) => stream.len(),
        }
    }

    /// The error by which it can't be read; none where it can. Of a regular file that is tried with its first byte; of a stream nothing
    /// is read for it, since what comes first was taken as it was opened.
    pub(crate) fn failure(&self) -> Option<Error> {
        match self {
            DirFile::Placed(placed) => placed.read_at(0, &mut [0u8; 1]).err(),
            DirFile::Stream(stream) => stream.broken,
        }
    }

    /// Looks for a change: another length of a regular file, or something that comes next of a stream. That is taken in place of what
    /// was taken before, and waited for as long as somebody has the stream open to write. `told` is how many bytes a regular file has,
    /// where the system was asked by its name; `is_at_rest` that it didn't change for long.
    pub(crate) fn has_changed(&mut self, told: Option<u64>, is_at_rest: bool) -> bool {
        match self {
            DirFile::Placed(file) => file.has_changed(told, is_at_rest),
            DirFile::Stream(stream) => stream.take(),
        }
    }

    /// Reads from a place on, and returns how many bytes that gave.
    ///
    /// # Errors
    ///
    /// The error by which it failed.
    pub(crate) fn read_at(&self, from: u64, buffer: &mut [u8]) -> io::Result<usize>
        ensures { IfOk result (λ n. n ≤ length buffer.old) }
    {
        match self {
            DirFile::Placed(placed) => placed.read_at(from, buffer),
            DirFile::Stream(stream) => stream.read_at(from, buffer),
        }
    }
}

/// A regular file from a place on, and how long it was when changes were last looked for.
#[derive(Drop)]
pub(crate) struct Placed {
    file: File,
    /// The place at which it begins. Lengths and other places count from there.
    begin: u64,
    /// How many bytes it had, as the system said. None where that couldn't be told.
    told: Option<u64>,
    /// How many bytes reads gave, where the system said that it had none, for so it says of its own files, as those in /proc. None
    /// where they are to be counted.
    counted: Option<u64>,
    ghost bound: { IfSome counted (λ len. len < 2 ^ 63) } by { Prim.hlevel props },
}

impl Placed {
    /// A file that was just opened, which as a whole has this length as the system says.
    fn new(file: File, len: u64, begin: u64) -> Self {
        Placed {
            file,
            begin,
            told: Some(len.saturating_sub(begin)),
            counted: None,
        }
    }

    fn len(&mut self) -> io::Result<u64>
        ensures { IfOk result (λ len. len < 2 ^ 63) }
    {
        match self.told {
            Some(0) => {}
            Some(len) if len <= MOST_BYTES => return Ok(len),
            _ => return Err(Error::from(ErrorKind::Other)),
        }
        if let Some(len) = self.counted {
            return Ok(len);
        }
        let len = count(self)?;
        self.counted = Some(len);
        Ok(len)
    }

    /// Reads from a place on.
    fn read_at(&self, from: u64, buffer: &mut [u8]) -> io::Result<usize>
        ensures { IfOk result (λ n. n ≤ length buffer.old) }
    {
        read_some_at(&self.file, self.begin.saturating_add(from), buffer)
    }

    fn has_changed(&mut self, told: Option<u64>, is_at_rest: bool) -> bool {
        let told = match told {
            Some(len) => Some(len),
            None => self.len_now(),
        };
        let changed = told != self.told;
        // One that is empty isn't read for ever.
        if changed || !is_at_rest || self.counted != Some(0) {
            self.counted = None;
        }
        self.told = told;
        changed
    }

    /// How many bytes it has, as the system says. None where that can't be told. The place of its end costs the system half of what all
    /// that it tells of a file does, and no read goes by that place. A file of which it said that it has no bytes may have no end to go to.
    fn len_now(&mut self) -> Option<u64> {
        if matches!(self.told, Some(len) if len > 0)
            && let Ok(len) = self.file.seek(SeekFrom::End(0))
        {
            return Some(len.saturating_sub(self.begin));
        }
        let len = len_of(&self.file)?;
        Some(len.saturating_sub(self.begin))
    }
}

/// How many bytes a file has, as the system says. None where that can't be told.
fn len_of(file: &File) -> Option<u64> {
    match file.metadata() {
        Ok(about) => Some(about.len()),
        Err(_) => None,
    }
}

/// A file whose bytes come once. The last ones that were taken wait in a buffer of 64 KiB.
#[derive(Drop)]
pub(crate) struct Stream {
    file: File,
    buffer: Vec<u8>,
    /// How many bytes were taken before those that wait.
    before: u64,
    /// How many wait, at the front of the buffer.
    waiting: usize,
    /// The error by which a read failed, if one did.
    broken: Option<Error>,
    ghost room: { waiting ≤ length buffer.items },
    ghost bound: { before + waiting < 2 ^ 63 },
}

impl Stream {
    /// A stream of which the first bytes are taken.
    fn new(alloc: Global, file: File) -> io::Result<Stream> {
        let mut stream = Stream {
            file,
            buffer: vec![in alloc; 0u8; PIECE]?,
            before: 0,
            waiting: 0,
            broken: None,
        };
        stream.take();
        Ok(stream)
    }

    /// Takes what comes next, in place of what was taken before, and returns whether that is any.
    fn take(&mut self) -> bool
        ensures came { IsTrue result → self.old.before + self.old.waiting < self.new.before + self.new.waiting }
        ensures nothing { result ≡ false → self.new.before + self.new.waiting ≡ self.old.before + self.old.waiting }
    {
        self.before += self.waiting as u64;
        self.waiting = 0;
        match read_some(&mut self.file, &mut self.buffer) {
            Ok(n) if n as u64 <= MOST_BYTES - self.before => {
                self.waiting = n;
                n > 0
            }
            Ok(_) => {
                self.broken = Some(Error::from(ErrorKind::FileTooLarge));
                false
            }
            Err(error) => {
                self.broken = Some(error);
                false
            }
        }
    }

    fn len(&self) -> io::Result<u64>
        ensures { IfOk result (λ len. len ≡ self.now.before + self.now.waiting) }
    {
        match self.broken {
            None => Ok(self.before + self.waiting as u64),
            Some(error) => Err(error),
        }
    }

    /// Gives bytes that wait, from a place on; none of a place at which none waits.
    fn read_at(&self, from: u64, buffer: &mut [u8]) -> io::Result<usize>
        ensures { IfOk result (λ n. n ≤ length buffer.old) }
    {
        if let Some(error) = self.broken {
            return Err(error);
        }
        let Some(skipped) = place_in(from, self.before, self.waiting) else {
            return Ok(0);
        };
        let n = buffer.len().min(self.waiting - skipped);
        buffer[..n].copy_from_slice(&self.buffer[skipped..skipped + n]);
        Ok(n)
    }
}

/// Where in `waiting` bytes of a stream, before which others were taken, the byte of a place stands. None where it isn't
/// among them.
fn place_in(from: u64, before: u64, waiting: usize) -> Option<usize>
    ensures { IfSome result (λ place. place ≤ waiting) }
{
    let place = usize::try_from(from.checked_sub(before)?).ok()?;
    if place > waiting {
        return None;
    }
    Some(place)
}

/// How many bytes reads of a file give.
///
/// # Errors
///
/// The error by which one failed; one without a number where they are more than a watch tells.
fn count(file: &Placed) -> io::Result<u64>
    ensures { IfOk result (λ len. len < 2 ^ 63) }
{
    let mut piece = [0u8; COUNTED];
    let mut len = 0u64;
    for _ in 0..u64::MAX {
        let n = file.read_at(len, &mut piece)? as u64;
        if n == 0 {
            return Ok(len);
        }
        if n > MOST_BYTES - len {
            return Err(Error::from(ErrorKind::FileTooLarge));
        }
        len += n;
    }
    Err(Error::from(ErrorKind::FileTooLarge))
}

/// Reads once, and again where the read was interrupted, and returns how many bytes that gave.
///
/// # Errors
///
/// The error by which it failed.
fn read_some(file: &mut File, buffer: &mut [u8]) -> io::Result<usize>
    ensures { IfOk result (λ n. n ≤ length buffer.old) }
{
    for _ in 0..u64::MAX {
        match file.read(buffer) {
            Ok(n) => return Ok(n),
            Err(error) if error.kind() == ErrorKind::Interrupted => {}
            Err(error) => return Err(error),
        }
    }
    Err(Error::from(ErrorKind::Interrupted))
}

/// The same from a place on.
fn read_some_at(file: &File, from: u64, buffer: &mut [u8]) -> io::Result<usize>
    ensures { IfOk result (λ n. n ≤ length buffer.old) }
{
    for _ in 0..u64::MAX {
        match file.read_at(buffer, from) {
            Ok(n) => return Ok(n),
            Err(error) if error.kind() == ErrorKind::Interrupted => {}
            Err(error) => return Err(error),
        }
    }
    Err(Error::from(ErrorKind::Interrupted))
}
