//! The last bytes of what came in.
ghost use Rattle.std.specs.{
  Prelude.{◌≡◌, ℕ, ◌+◌, ◌-◌, ◌<◌, ◌≤◌, ◌==◌, true, List, [], ◌++◌, length, take, drop, min, IsOk, IfOk, IfErr, OnOk},
};
ghost use Rattle.seg_core.specs.Window.{with_put, without_front};

use crate::fault::Fault;
use circular_buffer::HeapCircularBuffer;
use std::alloc::{AllocError, Global};
use std::marker::Model;

// How many bytes of room a window asks for at first, if it is to keep that many.
const FIRST_ROOM: usize = 65_536;

/// A window over bytes: it keeps the last `most` of what came in. It has room for 64 KiB at first, and then for at least twice as many
/// bytes as before, but at most `most`. Once it has held `most` bytes it asks for no memory again.
#[derive(Drop)]
pub struct ByteWindow {
    alloc: Global,
    most: u64,
    ring: HeapCircularBuffer<u8>,
    /// Whether it once held `most` bytes.
    grown: bool,
}

impl Model for ByteWindow {
    ghost use Rattle.seg_core.specs.{Window.ByteWindowState, Rooms.HasRoom};

    ghost Value = { ByteWindowState };

    ghost view = { λ w. record { most = w.most; held = w.ring.items; grown = w.grown } };

    ghost invariant = { λ w. HasRoom w.most w.ring w.grown };
}

impl ByteWindow {
    /// A window that is to keep the last `most` bytes, and holds none yet.
    ///
    /// # Errors
    ///
    /// `Memory` if there is no room for it.
    pub fn new(alloc: Global, most: u64) -> Result<Self, Fault>
        ensures ok { IfOk result (λ window. window ≡ record { most = most; held = []; grown = (0 == most) }) }
        ensures err { IfErr result (λ fault. fault ≡ Fault.Memory) }
    {
        match HeapCircularBuffer::with_capacity(alloc, 0) {
            Ok(ring) => Ok(ByteWindow {
                alloc,
                most,
                ring,
                grown: 0 == most,
            }),
            Err(AllocError) => Err(Fault::Memory),
        }
    }

    /// How many bytes it holds.
    pub fn len(&self) -> u64
        ensures len { result ≡ length self.now.held }
        ensures within { result ≤ self.now.most }
    {
        self.ring.len() as u64
    }

    /// Whether it holds none.
    pub fn is_empty(&self) -> bool
        ensures { result ≡ (length self.now.held == 0) }
    {
        self.ring.is_empty()
    }

    /// Whether it once held `most` bytes, at the end of some call: from then on a put that fits
    /// succeeds.
    pub fn grown(&self) -> bool
        ensures { result ≡ self.now.grown }
    {
        self.grown
    }

    /// How many bytes must leave at the front so that the last `most` stay once `len` more come
    /// after them. It may be more than the window holds.
    pub fn over(&self, len: u64) -> u64
        ensures { result ≡ (length self.now.held + len) - self.now.most }
    {
        len.saturating_sub(self.most - self.len())
    }

    /// The longest run of bytes at the front that lie in one slice. It is empty only if the window holds nothing.
    pub fn front(&self) -> &[u8]
        ensures front { (rest : List ℕ) × (self.now.held ≡ result.now ++ rest) }
        ensures some { 0 < length self.now.held → 0 < length result.now }
    {
        let (front, back) = self.ring.as_slices();
        if front.is_empty() { back } else { front }
    }

    /// Moves bytes from the front to the beginning of `out`, as many as there are and fit, and
    /// returns how many these are.
    pub fn take_front(&mut self, out: &mut [u8]) -> usize
        ensures count { result ≡ min (length out.old) (length self.old.held) }
        ensures out { out.new ≡ take result self.old.held ++ drop result out.old }
        ensures left { self.new ≡ without_front self.old result }
    {
        self.ring.read_into(out)
    }

    /// Drops this many bytes at the front.
    pub fn drop_front(&mut self, n: u64)
        requires { n ≤ length self.old.held }
        ensures { self.new ≡ without_front self.old n }
    {
        let left = self.ring.len() - n as usize;
        self.ring.truncate_front(left);
    }

    /// Appends a piece to what it holds. Both together must have no more than `most` bytes.
    ///
    /// # Errors
    ///
    /// `Memory` if there is no room for the piece. The window then stays as it was.
    pub fn put(&mut self, piece: &[u8]) -> Result<(), Fault>
        requires fits { length self.old.held + length piece.now ≤ self.old.most }
        ensures ok { OnOk result (self.new ≡ with_put self.old piece.now) }
        ensures err { IfErr result (λ fault. (fault ≡ Fault.Memory) × (self.new ≡ self.old)) }
        ensures empty { length piece.now ≡ 0 → IsOk result }
        ensures grown { self.old.grown ≡ true → IsOk result }
    {
        let needed = self.ring.len() + piece.len();
        if self.ring.capacity() < needed {
            match enlarged(
                self.alloc,
                &self.ring,
                room_for(self.ring.capacity(), needed, self.most),
            ) {
                Ok(ring) => self.ring = ring,
                Err(AllocError) => return Err(Fault::Memory),
            }
        }
        self.ring.fill_from_slice(piece);
        self.grown = self.grown || needed as u64 == self.most;
        Ok(())
    }
}

// How many bytes of room to ask for if `needed` are needed: twice the room so far, or more, but no more than `most`.
fn room_for(room: usize, needed: usize, most: u64) -> usize
    requires fits { needed ≤ most }
    ensures enough { needed ≤ result }
    ensures bound { result ≤ most }
{
    let wanted = room.saturating_mul(2).max(FIRST_ROOM).max(needed);
    if wanted as u64 <= most {
        wanted
    } else {
        most as usize
    }
}

// A ring with the same bytes and more room.
fn enlarged(
    alloc: Global,
    ring: &HeapCircularBuffer<u8>,
    room: usize,
) -> Result<HeapCircularBuffer<u8>, AllocError>
    requires fits { length ring.now.items ≤ room }
    ensures { IfOk result (λ new. (new.items ≡ ring.now.items) × (new.capacity ≡ room)) }
{
    let mut new = HeapCircularBuffer::with_capacity(alloc, room)?;
    let (front, back) = ring.as_slices();
    new.fill_from_slice(front);
    new.fill_from_slice(back);
    Ok(new)
}
