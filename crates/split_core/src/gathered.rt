ghost use Rattle.std.specs.Prelude.{◌≡◌, ℕ, ◌+◌, ◌≤◌, List, [], ◌++◌, length, take, drop, OnOk};

use std::alloc::{AllocError, Global};
use std::marker::Model;
use std::simd::prelude::*;

/// How many bytes are copied at once: a short line takes one step of a fixed size, whatever its length.
const CHUNK: usize = 16;

/// What was gathered for one file. Its room is kept when it is cleared.
#[derive(Drop)]
pub(crate) struct Gathered {
    room: Vec<u8>,
    /// How many bytes at the front of the room are taken.
    len: usize,
}

impl Model for Gathered {
    ghost use Rattle.std.specs.Prelude.{ℕ, List, take, length, ◌≤◌};

    ghost Value = { List ℕ };

    ghost view = { λ g. take g.len g.room.items };

    ghost invariant = { λ g. g.len ≤ length g.room.items };
}

impl Gathered {
    /// An empty list, which takes no memory yet.
    pub(crate) fn new(alloc: Global) -> Gathered
        ensures { result ≡ [] }
    {
        Gathered {
            room: Vec::new(alloc),
            len: 0,
        }
    }

    pub(crate) fn bytes(&self) -> &[u8]
        ensures { result.now ≡ self.now }
    {
        &self.room[..self.len]
    }

    /// Appends the first `count` bytes of a text.
    #[inline(always)]
    pub(crate) fn append(&mut self, text: &[u8], count: usize) -> Result<(), AllocError>
        requires { count ≤ length text.now }
        ensures { OnOk result (self.new ≡ self.old ++ take count text.now) }
    {
        if count <= CHUNK && CHUNK <= text.len() && CHUNK <= self.room.len() - self.len {
            copy_chunk(&mut self.room, self.len, text);
            self.len += count;
            return Ok(());
        }
        self.append_all(&text[..count])
    }

    // Compiled by itself, so that what is seldom done takes no registers from the loop over short lines.
    #[inline(never)]
    fn append_all(&mut self, bytes: &[u8]) -> Result<(), AllocError>
        ensures { OnOk result (self.new ≡ self.old ++ bytes.now) }
    {
        let Some(end) = self.len.checked_add(bytes.len()) else {
            return Err(AllocError);
        };
        make_room(&mut self.room, end)?;
        copy_all(&mut self.room, self.len, bytes);
        self.len = end;
        Ok(())
    }

    pub(crate) fn clear(&mut self)
        ensures { self.new ≡ [] }
    {
        self.len = 0;
    }
}

/// Finds room for `count` bytes, or for twice as many if it has to grow.
fn make_room(room: &mut Vec<u8>, count: usize) -> Result<(), AllocError>
    ensures more { OnOk result (count ≤ length room.new.items) }
    ensures kept { (n : ℕ) → n ≤ length room.old.items → take n room.new.items ≡ take n room.old.items }
    ensures longer { length room.old.items ≤ length room.new.items }
{
    if count <= room.len() {
        return Ok(());
    }
    room.resize(count.saturating_mul(2).max(CHUNK), 0)
}

/// Copies a chunk to a place. Which of its bytes count is up to the caller. As a vector it is read as a whole before it is
/// written, so the two places aren't compared.
#[inline(always)]
fn copy_chunk(room: &mut [u8], at: usize, text: &[u8])
    requires within { at + CHUNK ≤ length room.old }
    requires enough { CHUNK ≤ length text.now }
    ensures size { length room.new ≡ length room.old }
    ensures copied { room.new ≡ take at room.old ++ (take CHUNK text.now ++ drop (at + CHUNK) room.old) }
{
    u8x16::from_slice(text).copy_to_slice(&mut room[at..]);
}

fn copy_all(room: &mut [u8], at: usize, bytes: &[u8])
    requires { at + length bytes.now ≤ length room.old }
    ensures size { length room.new ≡ length room.old }
    ensures copied { take (at + length bytes.now) room.new ≡ take at room.old ++ bytes.now }
{
    room[at..at + bytes.len()].copy_from_slice(bytes);
}
