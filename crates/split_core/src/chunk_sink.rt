//! Where chunks go: each to a file of its own, or one of them to standard output.
ghost use Rattle.std.specs.Prelude.{◌≡◌, ◌+◌, ◌-◌, ◌<◌, ◌^◌, [], if◌then◌else◌, IsTrue, IfErr};
ghost use Rattle.engine_core.specs.{FileWriter.{IsReady, IsWrite, seen_writer}, InTurn.fault_in, inner.Write.Wrote};
ghost use Rattle.ports_core.specs.Slot.{is_writable, effect_of};
ghost use Rattle.split_core.specs.{
  ChunkerState.{IsAimed, course_of, first_on},
  inner.{
    Seen.{new_files, new_output, is_each_on, is_past_on, seen_sink},
    Brings.{Changes, EndsAll, Files, empties_by, ends_by, with_full, with_rest},
  },
};

use crate::files::write_bytes;
use engine_core::{FileWriter, Keeps, Opening, Tells};
use ports_core::{Fault, Naming, Outs};
use std::alloc::Global;

/// Where chunks go.
#[derive(Drop)]
pub(crate) enum Aim {
    /// Each to a file; with `elide` no file is made for an empty chunk.
    Files { writer: FileWriter, elide: bool },
    /// Only the chunk at this place, to standard output.
    Output { chunk: u64 },
}

/// Writes one chunk after another.
#[derive(Drop)]
pub(crate) struct ChunkSink {
    /// The place of the chunk that was begun: all chunks before it have ended.
    pub(crate) place: u64,
    pub(crate) aim: Aim,
}

impl ChunkSink {
    /// Chunks go to files with these names.
    pub(crate) fn files(alloc: Global, naming: Naming, elide: bool, tells: Tells) -> ChunkSink
        ensures { seen_sink result ≡ new_files naming elide tells }
    {
        let writer = FileWriter::new(alloc, naming, tells, Keeps::Open);
        ChunkSink {
            place: 0,
            aim: Aim::Files { writer, elide },
        }
    }

    /// The chunk at a place goes to standard output.
    pub(crate) fn output(chunk: u64) -> ChunkSink
        ensures { seen_sink result ≡ new_output chunk }
    {
        ChunkSink {
            place: 0,
            aim: Aim::Output { chunk },
        }
    }

    /// Whether the one chunk that is written has ended.
    pub(crate) fn is_past(&self) -> bool
        ensures { result ≡ is_past_on (seen_sink self.now) }
    {
        match self.aim {
            Aim::Files { .. } => false,
            Aim::Output { chunk } => chunk < self.place,
        }
    }

    /// Whether each chunk is written.
    pub(crate) fn is_each(&self) -> bool
        ensures { result ≡ is_each_on (course_of (seen_sink self.now).aim) }
    {
        matches!(self.aim, Aim::Files { .. })
    }

    /// What stands before the chunk at this place is settled while the input's size isn't known. The place is at least 1.
    pub(crate) fn first(&self) -> u64
        ensures { result ≡ first_on (course_of (seen_sink self.now).aim) }
    {
        match self.aim {
            Aim::Files { .. } => 1,
            Aim::Output { chunk } => chunk.max(1),
        }
    }

    /// Counts the chunk just before the place that `first` returns as begun: all bytes that were cut off so far are taken for its bytes
    /// and those of earlier chunks. If only a later chunk is written, they were dropped.
    pub(crate) fn begin_first(&mut self)
        ensures { seen_sink self.new
            ≡ record (seen_sink self.old) { place = first_on (course_of (seen_sink self.old).aim) - 1 } }
    {
        self.place = self.first().saturating_sub(1);
    }

    /// Writes more bytes of the chunk that was begun.
    ///
    /// # Errors
    ///
    /// Those of `FileWriter::put`; `Write(0)` if standard output broke.
    pub(crate) fn put<O: Outs>(&mut self, bytes: &[u8], outs: &mut O) -> Result<(), Fault>
        requires { IsAimed (seen_sink self.old).aim (O.slots outs.old) }
        ensures changes { Changes (seen_sink self.old) (seen_sink self.new) (with_rest bytes.now)
            (effect_of O.visible O.slots outs.old outs.new) (fault_in result) }
        ensures place { (seen_sink self.new).place ≡ (seen_sink self.old).place }
    {
        let place = self.place;
        match &mut self.aim {
            Aim::Files { writer, .. } => writer.put(bytes, outs),
            Aim::Output { chunk } => write_where(*chunk == place, bytes, outs),
        }
    }

    /// Ends the chunk that was begun, and begins the next.
    ///
    /// # Errors
    ///
    /// Those of `FileWriter::next`.
    pub(crate) fn next<O: Outs>(&mut self, outs: &mut O) -> Result<(), Fault>
        requires ready { IsAimed (seen_sink self.old).aim (O.slots outs.old) }
        requires fits { (seen_sink self.old).place + 1 < 2 ^ 64 }
        ensures changes { Changes (seen_sink self.old) (seen_sink self.new) with_full
            (effect_of O.visible O.slots outs.old outs.new) (fault_in result) }
        ensures place { (seen_sink self.new).place ≡ (seen_sink self.old).place + 1 }
    {
        self.place += 1;
        match &mut self.aim {
            Aim::Files { writer, elide } => end_file(writer, *elide, outs),
            Aim::Output { .. } => Ok(()),
        }
    }

    /// Ends the last chunk.
    ///
    /// # Errors
    ///
    /// `Write` if its file broke.
    pub(crate) fn end<O: Outs>(&mut self, outs: &mut O) -> Result<(), Fault>
        requires { IsAimed (seen_sink self.old).aim (O.slots outs.old) }
        ensures brings { EndsAll (seen_sink self.old) (seen_sink self.new)
            (effect_of O.visible O.slots outs.old outs.new) (fault_in result) }
        ensures broke { IfErr result IsWrite }
        ensures place { (seen_sink self.new).place ≡ (seen_sink self.old).place }
    {
        match &mut self.aim {
            Aim::Files { writer, .. } => writer.end(outs),
            Aim::Output { .. } => Ok(()),
        }
    }
}

/// Writes these bytes to standard output, if they are to go there.
fn write_where<O: Outs>(goes: bool, bytes: &[u8], outs: &mut O) -> Result<(), Fault>
    requires { IsTrue (is_writable (O.slots outs.old) 0) }
    ensures { Wrote O.visible 0 (if goes then bytes.now else []) (O.slots outs.old) (O.slots outs.new)
        (fault_in result) }
{
    if !goes {
        return Ok(());
    }
    write_bytes(0, bytes, outs)
}

/// Ends a file, and begins the next with its first byte. With `elide` an empty chunk has no file.
fn end_file<O: Outs>(writer: &mut FileWriter, elide: bool, outs: &mut O) -> Result<(), Fault>
    requires { IsReady (seen_writer writer.old) (O.slots outs.old) }
    ensures { Files (seen_writer writer.old) (seen_writer writer.new) (ends_by elide)
        (effect_of O.visible O.slots outs.old outs.new) (fault_in result) }
{
    make_empty(writer, elide, outs)?;
    writer.next(Opening::Late, outs)
}

/// Makes the file of an empty chunk, unless it is left out.
fn make_empty<O: Outs>(writer: &mut FileWriter, elide: bool, outs: &mut O) -> Result<(), Fault>
    requires { IsReady (seen_writer writer.old) (O.slots outs.old) }
    ensures { Files (seen_writer writer.old) (seen_writer writer.new) (empties_by elide)
        (effect_of O.visible O.slots outs.old outs.new) (fault_in result) }
{
    if elide || writer.is_open() {
        return Ok(());
    }
    writer.next(Opening::AtOnce, outs)
}
