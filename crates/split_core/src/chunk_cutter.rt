//! Cutting an input into chunks.
ghost use Rattle.std.specs.Prelude.{◌≡◌, ◌+◌, ◌<◌, ◌^◌, ◌≤◌, ◌||◌, length, min, nat_lt, true};
ghost use Rattle.engine_core.specs.InTurn.{fault_in};
ghost use Rattle.ports_core.specs.Slot.{effect_of};
ghost use Rattle.split_core.specs.{
  Chunks.chunk_start as start_of,
  ChunkerState.IsAimed,
  inner.Cutter.{CutsSo, EndsFull, EndsHeld, Settles, CutsStretch, WritesTo, seen_cutter},
};

use crate::chunk_cut::{chunk_start, ends_within, next_cut};
use crate::chunk_sink::ChunkSink;
use crate::waiting::Waiting;
use ports_core::{Fault, Outs};
use seg_core::cut::Chunks;

/// Where an input was cut off so far, and where the chunks go.
#[derive(Drop)]
pub(crate) struct ChunkCutter {
    pub(crate) chunks: Chunks,
    /// How many bytes were cut off, from the input's front.
    pub(crate) at: u64,
    /// Whether chunks have whole lines and these bytes end within a line.
    pub(crate) is_within: bool,
    pub(crate) sink: ChunkSink,
}

impl ChunkCutter {
    /// Writes what of a text that isn't empty goes with the chunk that was begun, if the chunk ends at this place of the input, and returns
    /// how many bytes that is.
    ///
    /// # Errors
    ///
    /// Those of `ChunkSink::put`.
    pub(crate) fn write_to<O: Outs>(
        &mut self,
        end: u64,
        text: &[u8],
        outs: &mut O,
    ) -> Result<usize, Fault>
        requires ready { IsAimed (seen_cutter self.old).sink.aim (O.slots outs.old) }
        requires some { 0 < length text.now }
        requires fits { self.old.at + length text.now < 2 ^ 64 }
        ensures { WritesTo (seen_cutter self.old) (seen_cutter self.new) end text.now
            (effect_of O.visible O.slots outs.old outs.new) result }
    {
        let n = next_cut(self.chunks, end.saturating_sub(self.at), text);
        self.sink.put(&text[..n], outs)?;
        self.is_within = ends_within(self.chunks, &text[..n]);
        self.at += n as u64;
        Ok(n)
    }

    /// Whether bytes that come next go with those that were cut off, up to a place of the input.
    pub(crate) fn is_short_of(&self, end: u64) -> bool
        ensures { result ≡ (nat_lt self.now.at end || self.now.is_within) }
    {
        self.at < end || self.is_within
    }

    /// Where the chunk that was begun ends, of an input of this size.
    fn end_of(&self, size: u64) -> u64
        requires { 0 < self.now.chunks.count }
        ensures { result ≡ start_of self.now.chunks.count size
            (min ((seen_cutter self.now).sink.place + 1) self.now.chunks.count) }
    {
        let next = self.sink.place.saturating_add(1);
        chunk_start(self.chunks.count, size, next.min(self.chunks.count))
    }

    /// Ends the chunks that have all that goes with them, of an input of this size.
    ///
    /// # Errors
    ///
    /// Those of `ChunkSink::next`.
    pub(crate) fn end_full<O: Outs>(&mut self, size: u64, outs: &mut O) -> Result<(), Fault>
        requires ready { IsAimed (seen_cutter self.old).sink.aim (O.slots outs.old) }
        requires some { 0 < self.old.chunks.count }
        ensures { EndsFull (seen_cutter self.old) (seen_cutter self.new) size
            (effect_of O.visible O.slots outs.old outs.new) (fault_in result) }
    {
        if self.is_within && self.at < size {
            return Ok(());
        }
        self.end_all(size, outs)
    }

    /// Ends the same chunks, if no line is open before the end.
    fn end_all<O: Outs>(&mut self, size: u64, outs: &mut O) -> Result<(), Fault>
        requires ready { IsAimed (seen_cutter self.old).sink.aim (O.slots outs.old) }
        requires some { 0 < self.old.chunks.count }
        requires whole { self.old.is_within ≡ true → size ≤ self.old.at }
        ensures { EndsFull (seen_cutter self.old) (seen_cutter self.new) size
            (effect_of O.visible O.slots outs.old outs.new) (fault_in result) }
    {
        'places: while self.sink.place < self.chunks.count
            && chunk_start(self.chunks.count, size, self.sink.place + 1) <= self.at
        {
            self.sink.next(outs)?;
        }
        Ok(())
    }

    /// Cuts off a beginning of a text that isn't empty, and returns its length.
    pub(crate) fn step<O: Outs>(
        &mut self,
        size: u64,
        text: &[u8],
        outs: &mut O,
    ) -> Result<usize, Fault>
        requires ready { IsAimed (seen_cutter self.old).sink.aim (O.slots outs.old) }
        requires some { 0 < self.old.chunks.count }
        requires text { 0 < length text.now }
        requires fits { self.old.at + length text.now < 2 ^ 64 }
        ensures { CutsStretch (seen_cutter self.old) (seen_cutter self.new) size text.now
            (effect_of O.visible O.slots outs.old outs.new) result }
    {
        let end = self.end_of(size);
        let n = self.write_to(end, text, outs)?;
        if self.at >= end {
            self.end_full(size, outs)?;
        }
        Ok(n)
    }

    /// Cuts what of a text stands within an input of this size, as long as the output isn't complete, and returns how many bytes are left.
    ///
    /// # Errors
    ///
    /// Those of `ChunkSink::put` and `ChunkSink::next`.
    pub(crate) fn cut<O: Outs>(
        &mut self,
        size: u64,
        text: &[u8],
        outs: &mut O,
    ) -> Result<usize, Fault>
        requires ready { IsAimed (seen_cutter self.old).sink.aim (O.slots outs.old) }
        requires some { 0 < self.old.chunks.count }
        requires fits { self.old.at + length text.now < 2 ^ 64 }
        ensures { CutsSo (seen_cutter self.old) (seen_cutter self.new) size text.now
            (effect_of O.visible O.slots outs.old outs.new) result }
    {
        let own = text.len().min(size.saturating_sub(self.at) as usize);
        let past = text.len() - own;
        let mut left = &text[..own];
        'stretches: while !left.is_empty() {
            if self.sink.is_past() {
                return Ok(left.len() + past);
            }
            let n = self.step(size, left, outs)?;
            left = &left[n..];
        }
        Ok(past)
    }

    /// Writes what of the bytes that wait goes with those that were cut off, up to a place of the input.
    ///
    /// # Errors
    ///
    /// Those of `ChunkSink::put`.
    pub(crate) fn settle<O: Outs>(
        &mut self,
        waiting: &mut Waiting,
        end: u64,
        outs: &mut O,
    ) -> Result<(), Fault>
        requires ready { IsAimed (seen_cutter self.old).sink.aim (O.slots outs.old) }
        requires fits { self.old.at + length waiting.old < 2 ^ 64 }
        ensures { Settles (seen_cutter self.old) (seen_cutter self.new) waiting.old waiting.new end
            (effect_of O.visible O.slots outs.old outs.new) (fault_in result) }
    {
        if waiting.is_empty() {
            return Ok(());
        }
        if !self.is_short_of(end) {
            return Ok(());
        }
        let n = self.write_to(end, waiting.bytes(), outs)?;
        waiting.drop_front(n);
        Ok(())
    }

    /// Cuts all that waits into the chunks of an input that has no more, and ends the chunks. Nothing waits then, unless a chunk could not
    /// be ended.
    ///
    /// # Errors
    ///
    /// Those of `ChunkSink::put` and `ChunkSink::next`.
    pub(crate) fn finish<O: Outs>(
        &mut self,
        waiting: &mut Waiting,
        outs: &mut O,
    ) -> Result<(), Fault>
        requires ready { IsAimed (seen_cutter self.old).sink.aim (O.slots outs.old) }
        requires some { 0 < self.old.chunks.count }
        requires fits { self.old.at + length waiting.old < 2 ^ 64 }
        ensures { EndsHeld (seen_cutter self.old) (seen_cutter self.new) waiting.old waiting.new
            (self.old.at + length waiting.old) (effect_of O.visible O.slots outs.old outs.new) (fault_in result) }
    {
        let size = self.at + waiting.len();
        self.sink.begin_first();
        self.end_full(size, outs)?;
        let cut = self.cut(size, waiting.bytes(), outs);
        waiting.clear();
        cut?;
        self.sink.end(outs)
    }
}
