//! Runs of bytes with a count of the delimiters among them: a line window is made of them.
ghost use Rattle.std.specs.Prelude.{◌≡◌, ◌+◌, ◌-◌, ◌≤◌, ◌++◌, length, take, drop, IfOk, OnOk, OnErr};
ghost use Rattle.seg_core.specs.{Line.delimiters, Blocks.BlockState};

use crate::line::count_delimiters;
use std::alloc::{AllocError, Global};
use std::marker::Model;

/// How many bytes a block has room for.
pub(crate) const BLOCK: usize = 65_536;

/// A run of bytes in one allocation.
#[derive(Drop)]
pub(crate) struct Block {
    bytes: Vec<u8>,
    /// How many of the bytes have left at the front.
    start: usize,
    /// How many of the others are delimiters.
    count: usize,
}

impl Model for Block {
    ghost Value = { BlockState };

    ghost view = { λ b. record { bytes = drop b.start b.bytes.items; count = b.count } };

    ghost invariant = { λ b. (b.start ≤ length b.bytes.items) × (b.count ≤ length (drop b.start b.bytes.items)) };
}

impl Block {
    /// A block that holds these bytes, of which `count` are delimiters. It has room for `BLOCK`
    /// bytes, or for these if they are more.
    pub(crate) fn holding(alloc: Global, bytes: &[u8], count: usize) -> Result<Block, AllocError>
        requires { count ≤ length bytes.now }
        ensures { IfOk result (λ block. block ≡ record { bytes = bytes.now; count = count }) }
    {
        let mut room: Vec<u8> = Vec::with_capacity(alloc, BLOCK)?;
        room.extend_from_slice(bytes)?;
        Ok(Block {
            bytes: room,
            start: 0,
            count,
        })
    }

    /// The bytes that it holds.
    pub(crate) fn bytes(&self) -> &[u8]
        ensures { result.now ≡ self.now.bytes }
    {
        &self.bytes[self.start..]
    }

    /// How many bytes it holds.
    pub(crate) fn len(&self) -> usize
        ensures { result ≡ length self.now.bytes }
    {
        self.bytes.len() - self.start
    }

    /// How many of its bytes are delimiters.
    pub(crate) fn delimiters(&self) -> usize
        ensures { result ≡ self.now.count }
    {
        self.count
    }

    /// How many bytes more it has room for.
    pub(crate) fn room(&self) -> usize {
        BLOCK.saturating_sub(self.bytes.len())
    }

    /// Appends bytes, of which `count` are delimiters. If there is no memory, the block stays as it was.
    pub(crate) fn append(&mut self, part: &[u8], count: usize) -> Result<(), AllocError>
        requires { count ≤ length part.now }
        ensures ok { OnOk result (self.new
            ≡ record { bytes = self.old.bytes ++ part.now; count = self.old.count + count }) }
        ensures err { OnErr result (self.new ≡ self.old) }
    {
        self.bytes.extend_from_slice(part)?;
        self.count += count;
        Ok(())
    }

    /// Drops `n` bytes at the front, and returns how many of them were delimiters.
    pub(crate) fn drop_front(&mut self, n: usize, delim: u8) -> usize
        requires within { n ≤ length self.old.bytes }
        requires counted { self.old.count ≡ delimiters delim self.old.bytes }
        ensures left { self.new ≡ record { bytes = drop n self.old.bytes; count = self.old.count - result } }
        ensures delimiters { result ≡ delimiters delim (take n self.old.bytes) }
    {
        let (first, others) = self.bytes().split_at(n);
        let gone = count_first(first, others, self.count, delim);
        self.count -= gone;
        self.start += n;
        gone
    }
}

/// How many delimiters the first part of a text has, if both parts together have `count`. Only the shorter part is looked at.
pub(crate) fn count_first(first: &[u8], others: &[u8], count: usize, delim: u8) -> usize
    requires { count ≡ delimiters delim first.now + delimiters delim others.now }
    ensures { result ≡ delimiters delim first.now }
{
    if first.len() <= others.len() {
        count_delimiters(first, delim)
    } else {
        count - count_delimiters(others, delim)
    }
}
