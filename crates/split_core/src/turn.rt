ghost use Rattle.std.specs.Prelude.{◌≡◌, ◌<◌, [], IfOk, IfErr};
ghost use Rattle.ports_core.specs.Slot.{effect_of};
ghost use Rattle.split_core.specs.{ChunkWork.turn_work, Turn.{Holds, Ready, work}, inner.Ways.PassesAs};
ghost use Rattle.split_core.specs.declared.splitter.Splitter.TheVariants as way;

use crate::deal::Deal;
use crate::files::write_bytes;
use ports_core::{Fault, Outs};
use std::alloc::Global;
use std::marker::Model;

/// Writes to standard output what one file would have of lines that are dealt in turn (GNU coreutils manual, split, `-n r/K/N`). What each
/// file has of a piece is gathered first, and is written at once: room is kept for twice the largest share that each had.
#[derive(Drop)]
pub struct Turn {
    deal: Deal,
    /// The place of the file.
    place: usize,
}

impl Model for Turn {
    ghost use Rattle.std.specs.Prelude.{◌<◌, length};
    ghost use Rattle.split_core.specs.Turn.{TurnState};

    ghost Value = { TurnState };

    ghost view = { λ t. record {
      delim = t.deal.delim;
      count = length t.deal.gathered;
      place = t.place;
      next = t.deal.next;
    } };

    ghost invariant = { λ t. t.place < length t.deal.gathered };
}

impl Turn {
    /// Deals lines, which end with `delim`, among `count` files, and writes the lines of the file at this place.
    ///
    /// # Errors
    ///
    /// `Memory` if there is no room for the list of files.
    pub(crate) fn open(alloc: Global, place: u64, count: u64, delim: u8) -> Result<Turn, Fault>
        requires { place < count }
        ensures holds { IfOk result (λ turn. Holds turn []) }
        ensures does { IfOk result (λ turn. work turn ≡ turn_work place count delim) }
        ensures err { IfErr result (λ fault. fault ≡ Fault.Memory) }
    {
        Ok(Turn {
            deal: Deal::new(alloc, count, delim)?,
            place: place as usize,
        })
    }

    /// Deals a piece, and writes what the file has of it.
    ///
    /// # Errors
    ///
    /// `Memory` if there is no room for the piece, of which nothing is written then; `Write(0)` if standard output
    /// broke.
    pub(crate) fn pass<O: Outs>(&mut self, piece: &[u8], outs: &mut O) -> Result<(), Fault>
        requires { Ready (O.slots outs.old) }
        ensures passes { PassesAs (way.Turn self.old) (way.Turn self.new) piece.now
            (effect_of O.visible O.slots outs.old outs.new) result }
        ensures no_room { IfErr result (λ fault. fault ≡ Fault.Memory → O.slots outs.new ≡ O.slots outs.old) }
    {
        self.deal.gather(piece)?;
        write_bytes(0, self.deal.at(self.place), outs)
    }
}
