//! Writing one file after another: each file is opened when it is due, and closed before the next.
ghost use Rattle.std.specs.{
  Prelude.{◌≡◌, ◌+◌, ◌<◌, ◌≤◌, ◌++◌, ◌∷◌, [], length, decimal, true, vec_capacity, vec_len, IfErr, IsTrue, OnOk},
};
ghost use Rattle.engine_core.specs.{
  Draft.{with_bytes, with_next},
  FileWriter.{CanCount, CanTell, Goes, IsReady, IsWrite, is_file, new_writer, paused, seen_writer, size_of},
  Swept.{AreThere, Removes},
  inner.{FileWriter.{Appends, Makes, TellsSize, files_with}, Write.Wrote},
  InTurn.fault_in,
  declared.file_writer.{Current.TheVariants.Skipped, Opening.TheVariants.Never},
};
ghost use Rattle.ports_core.specs.Slot.{effect_of, is_writable};

use crate::{Names, sweep_files};
use itoa::Buffer;
use ports_core::{Fault, Naming, Outs, write_whole};
use std::alloc::{AllocError, Global};

/// When the file that is begun is opened.
#[derive(Clone, Copy)]
pub enum Opening {
    /// Never: its bytes are skipped.
    Never,
    /// With its first byte. Without a byte there is no file.
    Late,
    /// As soon as it is begun.
    AtOnce,
}

/// What standard output gets about files.
#[derive(Clone, Copy)]
pub enum Tells {
    /// Nothing.
    Nothing,
    /// The size of each file in bytes, as a line, once the file is closed.
    Sizes,
    /// The name of each file, as a line, before the file is opened.
    Openings,
}

/// Which outputs are kept.
#[derive(Clone, Copy)]
pub enum Keeps {
    /// The output of the open file: files stay.
    Open,
    /// The outputs of all files, so that they can be removed.
    All,
}

/// Where bytes go.
#[derive(Clone, Copy)]
pub enum Current {
    /// To no file: they are skipped.
    Skipped,
    /// To the next file, which is opened with its first byte.
    Due,
    /// To a file that is open.
    File {
        /// The file's output.
        slot: usize,
        /// How many bytes the file has, if sizes are written.
        size: u64,
    },
    /// The file could not be made. Nothing follows except `clear`.
    Unopened,
}

/// Writes files one after another. It takes memory for names, and for the outputs of all files if they are kept.
#[derive(Drop)]
pub struct FileWriter {
    names: Names,
    tells: Tells,
    keeps: Keeps,
    /// If the outputs of all files are kept: those of the files that were made and not removed, in order.
    files: Vec<usize>,
    current: Current,
}

impl FileWriter {
    /// A writer that has made no file. `naming` names its files by their places, from 0 on. The first file is made with
    /// its first byte, unless something else is begun.
    pub fn new(alloc: Global, naming: Naming, tells: Tells, keeps: Keeps) -> FileWriter
        ensures { seen_writer result ≡ new_writer naming tells keeps }
    {
        FileWriter {
            names: Names { naming, drawn: 0 },
            tells,
            keeps,
            files: Vec::new(alloc),
            current: Current::Due,
        }
    }

    /// Whether a file is open.
    pub fn is_open(&self) -> bool
        ensures { result ≡ is_file (seen_writer self.now).current }
    {
        matches!(self.current, Current::File { .. })
    }

    /// Writes more bytes of the file that was begun.
    ///
    /// # Errors
    ///
    /// `Write` if the file broke. If the file is opened now: `Memory` if there is no room for its name, its line or its
    /// output's number, `Open` if it can't be opened, `Suffixes` if no name is left, and `Write` if standard output
    /// broke before.
    pub fn put<O: Outs>(&mut self, bytes: &[u8], outs: &mut O) -> Result<(), Fault>
        requires ready { IsReady (seen_writer self.old) (O.slots outs.old) }
        requires fits { CanCount (seen_writer self.old).tells (size_of (seen_writer self.old).current) bytes.now }
        ensures goes { Goes (seen_writer self.old) (seen_writer self.new) (with_bytes bytes.now)
            (effect_of O.visible O.slots outs.old outs.new) (fault_in result) }
        ensures size { OnOk result (size_of (seen_writer self.new).current
            ≤ size_of (seen_writer self.old).current + length bytes.now) }
        ensures stays { OnOk result (is_file (seen_writer self.old).current ≡ true
            → is_file (seen_writer self.new).current ≡ true) }
        ensures broke { IfErr result (λ fault. is_file (seen_writer self.old).current ≡ true → IsWrite fault) }
    {
        match self.current {
            Current::Skipped => Ok(()),
            Current::Due => {
                if bytes.is_empty() {
                    return Ok(());
                }
                let slot = self.make_file(outs)?;
                self.append(slot, 0, bytes, outs)
            }
            Current::File { slot, size } => self.append(slot, size, bytes, outs),
            Current::Unopened => Err(Fault::Failed),
        }
    }

    /// Begins a file, which is opened as `opening` says. A file that was open is left as it is, and gets no more.
    ///
    /// # Errors
    ///
    /// `Memory` if there is no room for a name, its line or an output's number, `Open` if the file can't be opened,
    /// `Suffixes` if no name is left, `Write` if standard output broke in the line about the file.
    pub fn begin<O: Outs>(&mut self, opening: Opening, outs: &mut O) -> Result<(), Fault>
        requires { IsReady (seen_writer self.old) (O.slots outs.old) }
        ensures goes { Goes (paused (seen_writer self.old)) (seen_writer self.new) (with_next opening)
            (effect_of O.visible O.slots outs.old outs.new) (fault_in result) }
        ensures size { OnOk result (size_of (seen_writer self.new).current ≡ 0) }
        ensures made { IfErr result (λ fault. (seen_writer self.new).files ≡ (seen_writer self.old).files) }
    {
        match opening {
            Opening::Never => self.current = Current::Skipped,
            Opening::Late => self.current = Current::Due,
            Opening::AtOnce => {
                self.make_file(outs)?;
            }
        }
        Ok(())
    }

    /// Ends the file that was begun, and begins the next, which is opened as `opening` says.
    ///
    /// # Errors
    ///
    /// `Write` if the file or standard output broke, and the errors of `begin`.
    pub fn next<O: Outs>(&mut self, opening: Opening, outs: &mut O) -> Result<(), Fault>
        requires { IsReady (seen_writer self.old) (O.slots outs.old) }
        ensures goes { Goes (seen_writer self.old) (seen_writer self.new) (with_next opening)
            (effect_of O.visible O.slots outs.old outs.new) (fault_in result) }
        ensures size { OnOk result (size_of (seen_writer self.new).current ≡ 0) }
    {
        self.end(outs)?;
        self.begin(opening, outs)
    }

    /// Ends the file that was begun: closes it, and writes its size if sizes are written.
    ///
    /// # Errors
    ///
    /// `Write` if the file or standard output broke.
    pub fn end<O: Outs>(&mut self, outs: &mut O) -> Result<(), Fault>
        requires { IsReady (seen_writer self.old) (O.slots outs.old) }
        ensures goes { Goes (seen_writer self.old) (seen_writer self.new) (with_next Never)
            (effect_of O.visible O.slots outs.old outs.new) (fault_in result) }
        ensures none { OnOk result ((seen_writer self.new).current ≡ Skipped) }
        ensures broke { IfErr result IsWrite }
    {
        match self.current {
            Current::Skipped => Ok(()),
            Current::Due => {
                self.current = Current::Skipped;
                Ok(())
            }
            Current::File { slot, size } => {
                self.current = Current::Skipped;
                outs.close(slot)?;
                tell_size(self.tells, size, outs)
            }
            Current::Unopened => Err(Fault::Failed),
        }
    }

    /// Removes all files whose outputs are kept and that are still there, in order. A file that can't be removed is
    /// broken and closed, and the next is tried.
    pub fn clear<O: Outs>(&mut self, outs: &mut O)
        requires { AreThere (seen_writer self.old).files (O.slots outs.old) }
        ensures same { seen_writer self.new ≡ record (seen_writer self.old) { files = (seen_writer self.new).files } }
        ensures removes { Removes (seen_writer self.old).files (O.slots outs.old) (seen_writer self.new).files
            (O.slots outs.new) }
    {
        let left = sweep_files(&mut self.files, outs);
        self.files.truncate(left);
    }

    /// Makes the next file, to which bytes go then, and returns its output.
    fn make_file<O: Outs>(&mut self, outs: &mut O) -> Result<usize, Fault>
        requires { IsReady (seen_writer self.old) (O.slots outs.old) }
        ensures { Makes O.visible (seen_writer self.old) (O.slots outs.old) (O.slots outs.new)
            (seen_writer self.new) result }
    {
        self.current = Current::Unopened;
        make_room(&mut self.files, self.keeps)?;
        let slot = self.names.open_next(self.tells, outs)?;
        keep(&mut self.files, self.keeps, slot);
        self.current = Current::File { slot, size: 0 };
        Ok(slot)
    }

    /// Writes these bytes to the open file, of which `size` bytes are counted.
    fn append<O: Outs>(
        &mut self,
        slot: usize,
        size: u64,
        bytes: &[u8],
        outs: &mut O,
    ) -> Result<(), Fault>
        requires writable { IsTrue (is_writable (O.slots outs.old) slot) }
        requires fits { CanCount self.old.tells size bytes.now }
        ensures { Appends (seen_writer self.old) (seen_writer self.new) slot size bytes.now
            (effect_of O.visible O.slots outs.old outs.new) (fault_in result) }
    {
        write_whole(outs, slot, bytes)?;
        self.current = Current::File {
            slot,
            size: size.saturating_add(bytes.len() as u64),
        };
        Ok(())
    }
}

/// Makes room for one more output, if the outputs of all files are kept.
fn make_room(files: &mut Vec<usize>, keeps: Keeps) -> Result<(), AllocError>
    ensures same { files.new.items ≡ files.old.items }
    ensures room { OnOk result (keeps ≡ Keeps.All → vec_len files.new < vec_capacity files.new) }
{
    match keeps {
        Keeps::Open => Ok(()),
        Keeps::All => files.reserve(1),
    }
}

/// Keeps the output of one more file, if the outputs of all files are kept.
fn keep(files: &mut Vec<usize>, keeps: Keeps, slot: usize)
    requires { keeps ≡ Keeps.All → vec_len files.old < vec_capacity files.old }
    ensures { files.new.items ≡ files_with keeps files.old.items slot }
{
    match keeps {
        Keeps::Open => {}
        Keeps::All => add(files, slot),
    }
}

/// Appends an output to the outputs of the files. There is room for it.
fn add(files: &mut Vec<usize>, slot: usize)
    requires { vec_len files.old < vec_capacity files.old }
    ensures { files.new.items ≡ files.old.items ++ slot ∷ [] }
{
    match files.push(slot) {
        Ok(()) => {}
        Err(_) => unreachable!(),
    }
}

/// Writes the size of a file that is closed, if sizes are written.
fn tell_size<O: Outs>(tells: Tells, size: u64, outs: &mut O) -> Result<(), Fault>
    requires { CanTell tells (O.slots outs.old) }
    ensures { TellsSize O.visible tells size (O.slots outs.old) (O.slots outs.new) (fault_in result) }
{
    match tells {
        Tells::Nothing => Ok(()),
        Tells::Sizes => write_size(size, outs),
        Tells::Openings => Ok(()),
    }
}

/// How many bytes the longest size line has.
const LONGEST_LINE: usize = 21;

/// Writes the size of a file to standard output, and a newline, as one line.
fn write_size<O: Outs>(size: u64, outs: &mut O) -> Result<(), Fault>
    requires { IsTrue (is_writable (O.slots outs.old) 0) }
    ensures { Wrote O.visible 0 (decimal size ++ 10 ∷ []) (O.slots outs.old) (O.slots outs.new) (fault_in result) }
{
    let mut buffer = Buffer::new();
    let digits = buffer.format(size).as_bytes();
    let mut line = [b'\n'; LONGEST_LINE];
    line[..digits.len()].copy_from_slice(digits);
    Ok(write_whole(outs, 0, &line[..digits.len() + 1])?)
}
