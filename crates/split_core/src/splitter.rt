//! The stage of `split`, for all ways to cut.
ghost use Rattle.std.specs.Prelude.{◌≡◌, ◌^◌, ◌<◌, ◌≤◌, [], List, ℕ, length, IfOk, IfErr, IfSome, OnOk};
ghost use Rattle.engine_core.specs.{EngineState.HoldsIn, Engine.MayGet, Work.IsSpare};
ghost use Rattle.split_core.specs.{
  Sharing.{HaveOpened, StoppedOpening},
  Split.{TellsNoSizes, is_verbose},
  ChunkWork.{CanGive, CannotBegin, HasAllNames, work_by},
  Alike.as_if,
  Ways.{Owns, Ready, terms, work},
  inner.Ways.held,
  laws.WorkLaws.lawful,
};
ghost use Rattle.seg_core.specs.Cut.{IsWay};

use crate::chunk_sink::ChunkSink;
use crate::chunker::Chunker;
use crate::parts::Parts;
use crate::round_splitter::RoundSplitter;
use crate::turn::Turn;
use crate::{Cut, Way};
use engine_core::{Engine, Stage, Tells};
use ports_core::{Fault, Inputs, Naming, Outs};
use std::alloc::Global;

/// Cuts its input into files, or writes what one of them would have (POSIX.1-2017, XCU split; `-C` and `-n` are GNU's). A file is opened
/// with its first byte, or an empty chunk's file once the chunk has ended, and is closed before the next is opened. If lines are dealt,
/// files are closed only at the end.
///
/// It takes memory for names; under `-C` for the open line after whole lines; if lines are dealt, for a list of the files and twice the
/// largest share of a piece that each had; and for chunks of an input that didn't show its length, for all that comes after the first
/// chunk, or after what stands before the chunk that is written.
#[derive(Drop)]
pub enum Splitter {
    /// Into parts that follow one another.
    Parts(Parts),
    /// By lines that are dealt in turn.
    Round(RoundSplitter),
    /// Into chunks, each to a file, or one to standard output.
    Chunks(Chunker),
    /// One turn of these lines, to standard output.
    Turn(Turn),
}

impl Splitter {
    /// An engine of this way to split, for an input of this length if it showed that, which is then not empty. Files are named so; if their
    /// number is known, there must be a name for each. If lines are dealt to files, all are opened now, or with `elide` each at its first
    /// byte. Standard output gets a line for each file before it is opened, or nothing; or it gets what one file would have, and no file is
    /// made.
    ///
    /// # Errors
    ///
    /// `Memory` if there is no room, `Open` if a file can't be opened, `Write` if standard output broke in the line about a file.
    pub fn open<O: Outs>(
        alloc: Global,
        way: Way,
        said: Option<u64>,
        naming: Naming,
        elide: bool,
        tells: Tells,
        outs: &mut O,
    ) -> Result<Engine<Splitter>, Fault>
        requires some { IsWay way }
        requires enough { HasAllNames way naming }
        requires long { IfSome said (λ size. 0 < size) }
        requires streams { 2 ≤ length (O.slots outs.old) }
        requires tells { TellsNoSizes tells }
        requires output { CanGive way tells (O.slots outs.old) }
        ensures holds { IfOk result (λ engine. HoldsIn (as_if terms).Holds engine []) }
        ensures bound { IfOk result (λ engine. engine.fed < 2 ^ 63) }
        ensures does { IfOk result (λ engine. work engine.stage ≡ work_by way elide naming tells said) }
        ensures ready { IfOk result (λ engine. Ready engine.stage (O.slots outs.new)) }
        ensures owns { IfOk result (λ engine. Owns engine.stage (length (O.slots outs.old)) (O.slots outs.new)) }
        ensures outputs { OnOk result
            (HaveOpened O.visible (work_by way elide naming tells said) (O.slots outs.old) (O.slots outs.new)) }
        ensures cut { IfErr result
            (StoppedOpening O.visible (work_by way elide naming tells said) (O.slots outs.old) (O.slots outs.new)) }
        ensures refused { IfErr result
            (CannotBegin way (is_verbose tells) (O.slots outs.old) (O.slots outs.new)) }
    {
        match way {
            Way::Cut(Cut::Parts(limit)) => {
                let parts = Parts::open(alloc, limit, naming, tells);
                Ok(Engine::new(Splitter::Parts(parts)))
            }
            Way::Cut(Cut::Round(count, delim)) => {
                let round = RoundSplitter::open(alloc, count, naming, elide, tells, delim, outs)?;
                Ok(Engine::new(Splitter::Round(round)))
            }
            Way::Chunks(chunks) => {
                let sink = ChunkSink::files(alloc, naming, elide, tells);
                let chunker = Chunker::open(alloc, chunks, said, sink);
                Ok(Engine::new(Splitter::Chunks(chunker)))
            }
            Way::Chunk(place, chunks) => {
                let chunker = Chunker::open(alloc, chunks, said, ChunkSink::output(place));
                Ok(Engine::new(Splitter::Chunks(chunker)))
            }
            Way::Turn(place, count, delim) => {
                let turn = Turn::open(alloc, place, count, delim)?;
                Ok(Engine::new(Splitter::Turn(turn)))
            }
        }
    }
}

impl Stage for Splitter {
    ghost terms = { as_if terms };

    fn pass<O: Outs>(&mut self, piece: &[u8], outs: &mut O) -> Result<(), Fault> {
        match self {
            Splitter::Parts(parts) => parts.pass(piece, outs),
            Splitter::Round(round) => round.pass(piece, outs),
            Splitter::Chunks(chunker) => chunker.pass(piece, outs),
            Splitter::Turn(turn) => turn.pass(piece, outs),
        }
    }

    /// Passes over what stands before the chunk, if one chunk is written.
    fn load<I: Inputs>(&mut self, slot: usize, most: usize, inputs: &mut I) -> u64 {
        let Splitter::Chunks(chunker) = self else {
            return 0;
        };
        chunker.load(slot, most, inputs)
    }

    fn finish<O: Outs>(&mut self, outs: &mut O) -> Result<(), Fault> {
        match self {
            Splitter::Parts(parts) => parts.finish(outs),
            Splitter::Round(round) => round.finish(outs),
            Splitter::Chunks(chunker) => chunker.finish(outs),
            Splitter::Turn(_) => Ok(()),
        }
    }

    /// Removes nothing: all files stay.
    fn clear<O: Outs>(&mut self, outs: &mut O) {
        let _ = outs;
    }

    /// If one chunk is written, whether it and those before it have all that goes with them; else never: that the input needs more files
    /// than there are names is a fault.
    fn is_done(&self) -> bool
        ensures { (x : List ℕ) → (as_if terms).Holds self.now x → result ≡ (work self.now).is_complete x }
    {
        let Splitter::Chunks(chunker) = self else {
            return false;
        };
        chunker.is_complete()
    }

    /// How many bytes wait; of dealt lines none do, since each piece is written at once.
    fn waits(&self) -> u64
        ensures { result ≡ held self.now }
    {
        match self {
            Splitter::Parts(parts) => parts.held(),
            Splitter::Chunks(chunker) => chunker.held(),
            Splitter::Round(_) | Splitter::Turn(_) => 0,
        }
    }

    /// If one chunk is written, as many as are missing to its end, of lines at least 4,096, and at least one; else any number.
    fn wanted(&self) -> u64
        ensures some { 0 < result }
        ensures few { MayGet (as_if terms) self.now result }
    {
        let Splitter::Chunks(chunker) = self else {
            return u64::MAX;
        };
        chunker.most_wanted()
    }

    fn unused(&self) -> u64
        ensures { (x : List ℕ) → (as_if terms).Holds self.now x → IsSpare (work self.now) x result }
    {
        let Splitter::Chunks(chunker) = self else {
            return 0;
        };
        chunker.past()
    }

    ghost lawful = { λ splitter x holds. lawful splitter holds.other holds.holds };

    ghost there = { λ splitter first slots owns. tt };
}
