//! Parts of an input that follow one another, each in a file of its own (POSIX.1-2017, XCU split; `-C` is GNU's). They take memory for
//! names, and under `-C` for twice the most bytes that waited, which are fewer than a part has.
ghost use Rattle.std.specs.Prelude.{◌≡◌, ◌+◌, ◌-◌, ◌++◌, ◌<◌, [], length, IfOk, IfErr, OnOk};
ghost use Rattle.engine_core.{
  specs.{FileWriter.new_writer, InTurn.fault_in, declared.file_writer.Keeps.TheVariants.Open},
};
ghost use Rattle.ports_core.specs.Slot.{effect_of};
ghost use Rattle.seg_core.specs.Cut.{most};
ghost use Rattle.split_core.specs.{
  PartsState.{IsReady, Stands, parts_work, work},
  Split.{TellsNoSizes, is_verbose},
  inner.Takes.{Extends, Finishes, TakesStretch, Takes, BeginsNext},
};

use crate::Limit;
use crate::files::put_waiting;
use crate::step::{Step, next_step};
use engine_core::{FileWriter, Keeps, Opening, Tells};
use ports_core::{Fault, Naming, Outs};
use std::alloc::Global;
use std::marker::Model;

/// The part that was begun, and who writes it: its file is opened with its first byte, and closed before the next.
#[derive(Drop)]
pub struct Parts {
    limit: Limit,
    /// How many lines or bytes the part still takes.
    left: u64,
    /// Under `-C`, whether the part has a complete line.
    has_line: bool,
    /// The bytes that wait: they go to this part or to the next.
    waiting: Vec<u8>,
    writer: FileWriter,
}

impl Model for Parts {
    ghost use Rattle.engine_core.specs.FileWriter.{seen_writer};
    ghost use Rattle.split_core.specs.{PartsState.PartsState, inner.Step.Fits};

    ghost Value = { PartsState };

    ghost view = { λ p. record {
      limit = p.limit;
      left = p.left;
      has_line = p.has_line;
      waiting = p.waiting.items;
      writer = seen_writer p.writer;
    } };

    ghost invariant = { λ p. Fits p.limit p.left p.has_line p.waiting.items };
}

impl Parts {
    /// Parts of an input of which no byte came in yet. The number of the limit is at least 1.
    pub(crate) fn open(alloc: Global, limit: Limit, naming: Naming, tells: Tells) -> Parts
        requires some { 0 < most limit }
        requires tells { TellsNoSizes tells }
        ensures holds { Stands result [] }
        ensures does { work result ≡ parts_work limit (record { names = naming; verbose = is_verbose tells }) }
        ensures writer { result.writer ≡ new_writer naming tells Open }
    {
        Parts {
            limit,
            left: limit.most(),
            has_line: false,
            waiting: Vec::new(alloc),
            writer: FileWriter::new(alloc, naming, tells, Keeps::Open),
        }
    }

    /// How many bytes wait.
    pub(crate) fn held(&self) -> u64
        ensures { result ≡ length self.now.waiting }
    {
        self.waiting.len() as u64
    }

    /// Writes what waits, and then these bytes, to the part that was begun.
    fn extend<O: Outs>(&mut self, bytes: &[u8], outs: &mut O) -> Result<(), Fault>
        requires { IsReady self.old (O.slots outs.old) }
        ensures { Extends self.old self.new bytes.now (effect_of O.visible O.slots outs.old outs.new)
            (fault_in result) }
    {
        put_waiting(&mut self.waiting, &mut self.writer, outs)?;
        self.writer.put(bytes, outs)
    }

    /// Ends the part that was begun. What waits and these bytes begin the next part, if there are any.
    fn turn<O: Outs>(&mut self, bytes: &[u8], outs: &mut O) -> Result<(), Fault>
        requires ready { IsReady self.old (O.slots outs.old) }
        requires room { length self.old.waiting + length bytes.now < most self.old.limit }
        ensures { BeginsNext self.old self.new bytes.now
            (effect_of O.visible O.slots outs.old outs.new) (fault_in result) }
    {
        let size = (self.waiting.len() + bytes.len()) as u64;
        self.writer.next(Opening::Late, outs)?;
        self.left = self.limit.most() - size;
        self.has_line = false;
        self.extend(bytes, outs)
    }

    /// Appends a piece to what waits, and returns how many bytes the piece has.
    fn wait(&mut self, piece: &[u8]) -> Result<usize, Fault>
        requires { length piece.now < self.old.left }
        ensures count { IfOk result (λ n. n ≡ length piece.now) }
        ensures waits { OnOk result (self.new
            ≡ record self.old { left = self.old.left - length piece.now; waiting = self.old.waiting ++ piece.now }) }
        ensures err { IfErr result (λ fault. (fault ≡ Fault.Memory) × (self.new ≡ self.old)) }
    {
        self.waiting.extend_from_slice(piece)?;
        self.left -= piece.len() as u64;
        Ok(piece.len())
    }

    /// Takes in a beginning of a piece that isn't empty, and returns how many bytes that is.
    fn step<O: Outs>(&mut self, piece: &[u8], outs: &mut O) -> Result<usize, Fault>
        requires some { 0 < length piece.now }
        requires ready { IsReady self.old (O.slots outs.old) }
        ensures { TakesStretch self.old self.new piece.now (effect_of O.visible O.slots outs.old outs.new) result }
    {
        match next_step(self.limit, self.left, self.has_line, piece) {
            Step::Goes {
                bytes,
                left,
                has_line,
            } => {
                self.extend(&piece[..bytes], outs)?;
                self.left = left;
                self.has_line = has_line;
                Ok(bytes)
            }
            Step::Ends { end, bytes } => {
                self.extend(&piece[..end], outs)?;
                self.turn(&piece[end..bytes], outs)?;
                Ok(bytes)
            }
            Step::Begins { bytes } => {
                self.turn(&piece[..bytes], outs)?;
                Ok(bytes)
            }
            Step::Waits => self.wait(piece),
        }
    }

    /// Takes in a piece: what is settled with it is written, and what isn't waits.
    ///
    /// # Errors
    ///
    /// `Write` if a file broke, or standard output in the line about a file, `Open` if the next file can't be opened, `Memory` if there is
    /// no room for what waits, for a name or its line, `Suffixes` if no name is left for the next file.
    pub(crate) fn pass<O: Outs>(&mut self, piece: &[u8], outs: &mut O) -> Result<(), Fault>
        requires { IsReady self.old (O.slots outs.old) }
        ensures { Takes self.old self.new piece.now (effect_of O.visible O.slots outs.old outs.new) (fault_in result) }
    {
        let mut left = piece;
        'stretches: while !left.is_empty() {
            let n = self.step(left, outs)?;
            left = &left[n..];
        }
        Ok(())
    }

    /// Ends the input: what waits goes to the part that was begun, and its file is closed.
    ///
    /// # Errors
    ///
    /// `Write` if its file broke.
    pub(crate) fn finish<O: Outs>(&mut self, outs: &mut O) -> Result<(), Fault>
        requires { IsReady self.old (O.slots outs.old) }
        ensures { Finishes self.old self.new (effect_of O.visible O.slots outs.old outs.new) (fault_in result) }
    {
        if !self.writer.is_open() {
            return Ok(());
        }
        put_waiting(&mut self.waiting, &mut self.writer, outs)?;
        self.writer.end(outs)
    }
}
