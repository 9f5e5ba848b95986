//! Chunks of an input (GNU coreutils manual, split, `-n N`, `-n l/N`, `-n K/N` and `-n l/K/N`).
ghost use Rattle.std.specs.Prelude.{◌≡◌, ◌+◌, ◌<◌, ◌^◌, [], Some, None, length, true, List, ℕ, IfSome, IsTrue};
ghost use Rattle.split_core.specs.{
  ChunkerState.{Carries, HasAll, Holds, Ready, can_cut, course, course_of, total, work, work_on},
  Parts.uncut,
  Alike.as_if,
  inner.{Seen.seen_sink, Chunker.{EndsAs, PassesAs, TakesFront, piece_for}},
};
ghost use Rattle.engine_core.specs.Engine.{MayGet, TookIn};
ghost use Rattle.ports_core.specs.{Inputs.PassesOver, Slot.effect_of, Source.is_readable};
ghost use Rattle.split_core.specs.Ways as ways;
ghost use Rattle.split_core.specs.declared.splitter.Splitter.TheVariants as way;

use crate::chunk_cut::chunk_start;
use crate::chunk_cutter::ChunkCutter;
use crate::chunk_sink::{Aim, ChunkSink};
use crate::waiting::Waiting;
use ports_core::{Fault, Inputs, Outs, Verdict, pass_over};
use seg_core::cut::Chunks;
use seg_core::unit::Unit;
use std::alloc::Global;
use std::marker::Model;

/// The most bytes of a piece in which the last line of one chunk may end.
const AHEAD: u64 = 4_096;

/// Cuts its input into chunks. If the input showed its length, nothing waits. If not, the place where a chunk begins can only move on as
/// more comes. What stands before the second chunk is settled, or before the chunk that is written alone, and the rest waits.
#[derive(Drop)]
pub struct Chunker {
    /// How long the input is, if it showed that.
    said: Option<u64>,
    cutter: ChunkCutter,
    /// The bytes that wait.
    waiting: Waiting,
    /// How many bytes came after the output was complete.
    spare: u64,
}

impl Model for Chunker {
    ghost use Rattle.std.specs.Prelude.{◌≡◌, ◌<◌, ◌^◌, ◌+◌, length, true};
    ghost use Rattle.split_core.specs.{ChunkerState.{ChunkerState, can_cut, course}, inner.Cutter.seen_cutter};

    ghost Value = { ChunkerState };

    ghost view = { λ c. record {
      said = c.said;
      cutter = seen_cutter c.cutter;
      waiting = c.waiting;
      spare = c.spare;
    } };

    ghost invariant = { λ c. (can_cut (course (seen_cutter c.cutter)) c.cutter.chunks.count ≡ true)
        × (c.cutter.at + length c.waiting < 2 ^ 63) };
}

impl Chunker {
    /// Chunks of an input of which no byte came in yet, with its length if it showed that.
    pub(crate) fn open(alloc: Global, chunks: Chunks, said: Option<u64>, sink: ChunkSink) -> Chunker
        requires can { can_cut (course_of (seen_sink sink).aim) chunks.count ≡ true }
        requires all { HasAll (course_of (seen_sink sink).aim) chunks.count }
        requires long { IfSome said (λ size. 0 < size) }
        requires fresh { Carries (seen_sink sink) (uncut []) }
        ensures holds { Holds result [] }
        ensures does { work result ≡ work_on (course_of (seen_sink sink).aim) chunks said }
        ensures none { total result ≡ 0 }
        ensures aim { result.cutter.sink.aim ≡ (seen_sink sink).aim }
    {
        let cutter = ChunkCutter {
            chunks,
            at: 0,
            is_within: false,
            sink,
        };
        Chunker {
            said,
            cutter,
            waiting: Waiting::new(alloc),
            spare: 0,
        }
    }

    /// Takes in a piece: what is settled with it is written, and what isn't waits.
    ///
    /// # Errors
    ///
    /// `Write` if an output broke, `Open` if a file can't be opened, `Memory` if there is no room for what waits, for a name or its line;
    /// `Verdict` with `Changed` if the input has more bytes than it showed.
    pub(crate) fn pass<O: Outs>(&mut self, piece: &[u8], outs: &mut O) -> Result<(), Fault>
        requires ready { Ready self.old (O.slots outs.old) }
        requires fits { total self.old + length piece.now < 2 ^ 63 }
        ensures { PassesAs self.old self.new piece.now (effect_of O.visible O.slots outs.old outs.new) result }
    {
        match self.said {
            Some(size) => self.pass_said(size, piece, outs),
            None => self.pass_unsaid(piece, outs),
        }
    }

    /// Passes over what stands before the chunk that is written, if the input showed its length, and returns how many bytes these are. 0 if
    /// they can't be passed over, or the chunk is of bytes and empty.
    pub(crate) fn load<I: Inputs>(&mut self, slot: usize, most: usize, inputs: &mut I) -> u64
        requires fresh { Holds self.old [] }
        requires none { total self.old ≡ 0 }
        requires input { IsTrue (is_readable (I.sources inputs.old) slot) }
        ensures loads { PassesOver I.visible slot result
            (TookIn (as_if ways.terms) (way.Chunks self.old) (way.Chunks self.new)) (I.sources inputs.old)
            (I.sources inputs.new) }
        ensures laid { I.laid inputs.new ≡ I.laid inputs.old }
    {
        let Some((front, place, is_within)) = self.front() else {
            return 0;
        };
        if !pass_over(slot, front, most, inputs) {
            return 0;
        }
        self.cutter.at = front;
        self.cutter.is_within = is_within;
        self.cutter.sink.place = place;
        front
    }

    /// How many bytes are passed over before the one chunk that is written, the place of the chunk that was begun with them, and whether
    /// they end within a line. Of lines these are all bytes except the last before the chunk, which may end a line. What stands before that
    /// doesn't matter, and counts as the beginning of a line of the first chunk.
    fn front(&self) -> Option<(u64, u64, bool)>
        requires { Holds self.now [] }
        ensures { IfSome result (TakesFront self.now) }
    {
        let size = self.said?;
        let Aim::Output { chunk } = &self.cutter.sink.aim else {
            return None;
        };
        let count = self.cutter.chunks.count;
        let start = chunk_start(count, size, *chunk);
        let end = chunk_start(count, size, *chunk + 1);
        match self.cutter.chunks.unit {
            Unit::Bytes if start < end => Some((start, *chunk, false)),
            Unit::Lines if start > 1 => Some((start - 1, 0, true)),
            _ => None,
        }
    }

    /// Ends the input: what waits is cut into chunks.
    ///
    /// # Errors
    ///
    /// `Changed` if the input has fewer bytes than it showed, and `Write` if an output broke. If it didn't show its length, those of
    /// `pass`.
    pub(crate) fn finish<O: Outs>(&mut self, outs: &mut O) -> Result<(), Fault>
        requires ready { Ready self.old (O.slots outs.old) }
        ensures { EndsAs self.old self.new (effect_of O.visible O.slots outs.old outs.new) result }
    {
        match self.said {
            Some(size) => self.finish_said(size, outs),
            None => self.cutter.finish(&mut self.waiting, outs),
        }
    }

    /// How many bytes wait.
    pub(crate) fn held(&self) -> u64
        ensures { result ≡ length self.now.waiting }
    {
        self.waiting.len()
    }

    /// How many bytes came after the output was complete.
    pub(crate) fn past(&self) -> u64
        ensures { result ≡ self.now.spare }
    {
        self.spare
    }

    /// Whether the output is complete.
    pub(crate) fn is_complete(&self) -> bool
        ensures { (x : List ℕ) → Holds self.now x → result ≡ (work self.now).is_complete x }
    {
        self.said.is_some() && self.cutter.sink.is_past()
    }

    /// How many bytes the next piece may have: if one chunk is written, as many as are missing to its end; of lines at least 4,096, since
    /// the last line may go on past the end; at least one.
    pub(crate) fn most_wanted(&self) -> u64
        ensures some { 0 < result }
        ensures few { MayGet (as_if ways.terms) (way.Chunks self.now) result }
    {
        match (self.said, &self.cutter.sink.aim) {
            (Some(size), Aim::Output { chunk }) => {
                let end = chunk_start(self.cutter.chunks.count, size, *chunk + 1);
                let missing = end.saturating_sub(self.cutter.at);
                piece_size(self.cutter.chunks.unit, missing)
            }
            _ => u64::MAX,
        }
    }

    /// Takes in a piece of an input of this size.
    fn pass_said<O: Outs>(&mut self, size: u64, piece: &[u8], outs: &mut O) -> Result<(), Fault>
        requires said { self.old.said ≡ Some size }
        requires ready { Ready self.old (O.slots outs.old) }
        requires fits { total self.old + length piece.now < 2 ^ 63 }
        ensures { PassesAs self.old self.new piece.now (effect_of O.visible O.slots outs.old outs.new) result }
    {
        let past = self.cutter.cut(size, piece, outs)?;
        if past > 0 && self.cutter.sink.is_each() {
            return Err(Fault::Verdict(Verdict::Changed));
        }
        self.spare += past as u64;
        Ok(())
    }

    /// Takes in a piece of an input that didn't show its length.
    fn pass_unsaid<O: Outs>(&mut self, piece: &[u8], outs: &mut O) -> Result<(), Fault>
        requires said { self.old.said ≡ None }
        requires ready { Ready self.old (O.slots outs.old) }
        requires fits { total self.old + length piece.now < 2 ^ 63 }
        ensures { PassesAs self.old self.new piece.now (effect_of O.visible O.slots outs.old outs.new) result }
    {
        self.waiting.put(piece)?;
        let size = self.cutter.at + self.waiting.len();
        let first = self.cutter.sink.first();
        let end = chunk_start(self.cutter.chunks.count, size, first);
        self.cutter.settle(&mut self.waiting, end, outs)
    }

    /// Ends an input of this size.
    fn finish_said<O: Outs>(&mut self, size: u64, outs: &mut O) -> Result<(), Fault>
        requires said { self.old.said ≡ Some size }
        requires ready { Ready self.old (O.slots outs.old) }
        ensures { EndsAs self.old self.new (effect_of O.visible O.slots outs.old outs.new) result }
    {
        self.cutter.sink.end(outs)?;
        if self.cutter.at < size && !self.cutter.sink.is_past() {
            return Err(Fault::Verdict(Verdict::Changed));
        }
        Ok(())
    }
}

/// How many bytes a piece may have if this many are missing to the end of the chunk that is written.
fn piece_size(unit: Unit, missing: u64) -> u64
    ensures { result ≡ piece_for unit missing }
{
    match unit {
        Unit::Lines => missing.max(AHEAD),
        Unit::Bytes => missing.max(1),
    }
}
