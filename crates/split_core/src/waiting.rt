ghost use Rattle.std.specs.Prelude.{◌≡◌, ◌==◌, ◌≤◌, ◌++◌, [], drop, length, OnOk, OnErr};

use std::alloc::{AllocError, Global};
use std::marker::Model;

/// Before the room grows it is closed up, if at least one byte went for each whole group of this many that wait.
const WORTH: usize = 4;

/// Bytes that wait, in one slice. If `Vec` doubles its room, that is at most two and a half times the most that waited.
#[derive(Drop)]
pub(crate) struct Waiting {
    room: Vec<u8>,
    /// How many bytes at the front of the room don't wait any more.
    gone: usize,
}

impl Model for Waiting {
    ghost use Rattle.std.specs.Prelude.{ℕ, List, drop, length, ◌≤◌};

    ghost Value = { List ℕ };

    ghost view = { λ w. drop w.gone w.room.items };

    ghost invariant = { λ w. w.gone ≤ length w.room.items };
}

impl Waiting {
    /// No byte waits, and no memory is taken.
    pub(crate) fn new(alloc: Global) -> Waiting
        ensures { result ≡ [] }
    {
        Waiting {
            room: Vec::new(alloc),
            gone: 0,
        }
    }

    pub(crate) fn bytes(&self) -> &[u8]
        ensures { result.now ≡ self.now }
    {
        &self.room[self.gone..]
    }

    /// How many wait.
    pub(crate) fn len(&self) -> u64
        ensures { result ≡ length self.now }
    {
        (self.room.len() - self.gone) as u64
    }

    /// Whether none waits.
    pub(crate) fn is_empty(&self) -> bool
        ensures { result ≡ (length self.now == 0) }
    {
        self.len() == 0
    }

    /// Appends a piece. If there is no room for it, all stays as it was.
    pub(crate) fn put(&mut self, piece: &[u8]) -> Result<(), AllocError>
        ensures ok { OnOk result (self.new ≡ self.old ++ piece.now) }
        ensures err { OnErr result (self.new ≡ self.old) }
    {
        let left = self.room.len() - self.gone;
        if self.room.capacity() - self.room.len() < piece.len() && self.gone >= left / WORTH {
            close_up(&mut self.room, self.gone);
            self.gone = 0;
        }
        self.room.extend_from_slice(piece)
    }

    /// So many bytes at the front don't wait any more.
    pub(crate) fn drop_front(&mut self, n: usize)
        requires { n ≤ length self.old }
        ensures { self.new ≡ drop n self.old }
    {
        self.gone += n;
    }

    /// No byte waits any more.
    pub(crate) fn clear(&mut self)
        ensures { self.new ≡ [] }
    {
        self.gone = self.room.len();
    }
}

/// Drops the first bytes, and moves the others to the front.
fn close_up(room: &mut Vec<u8>, gone: usize)
    requires { gone ≤ length room.old.items }
    ensures { room.new.items ≡ drop gone room.old.items }
{
    let left = room.len() - gone;
    room.copy_within(gone.., 0);
    room.truncate(left);
}
