ghost use Rattle.std.specs.Prelude.{◌≡◌, ◌<◌, ◌≤◌, [], None, true, if◌then◌else◌, length, IfOk, IfErr, OnOk};
ghost use Rattle.engine_core.specs.FileWriter.{CanTell};
ghost use Rattle.ports_core.specs.Slot.{effect_of};
ghost use Rattle.split_core.specs.{
  ChunkWork.work_by,
  Round.{Holds, Owns, Ready, work},
  inner.{Ways.PassesAs, Sharing.ClosesAll},
  Sharing.{CannotOpen, HaveOpened, StoppedOpening},
  Split.{TellsNoSizes, are_named, is_verbose},
};
ghost use Rattle.seg_core.specs.declared.cut.{Cut.TheVariants.Round};
ghost use Rattle.seg_core.specs.declared.cut.Way.TheVariants as cut;
ghost use Rattle.split_core.specs.declared.splitter.Splitter.TheVariants as way;

use crate::deal::Deal;
use crate::round_files::RoundFiles;
use engine_core::Tells;
use ports_core::{Fault, Naming, Outs};
use std::alloc::Global;
use std::marker::Model;

/// Deals the lines of an input in turn to a number of files (GNU coreutils manual, split, `-n r/N`). What each file
/// gets of a piece is gathered first, in room that is kept, for twice the largest share that it had, and is written at
/// once. The number of each file's output is kept.
#[derive(Drop)]
pub struct RoundSplitter {
    deal: Deal,
    files: RoundFiles,
    /// Whether files are opened at their first byte, and not all at the start.
    elide: bool,
}

impl Model for RoundSplitter {
    ghost use Rattle.std.specs.Prelude.{◌≡◌, true, length};
    ghost use Rattle.split_core.specs.{Split.are_named, RoundState.RoundState};

    ghost Value = { RoundState };

    ghost view = { λ r. record {
      delim = r.deal.delim;
      count = length r.deal.gathered;
      elide = r.elide;
      files = r.files;
      next = r.deal.next;
    } };

    ghost invariant = { λ r. are_named r.files.names.naming (length r.deal.gathered) ≡ true };
}

impl RoundSplitter {
    /// Deals lines, which end with `delim`, to `count` files. All of them are opened now; with `elide` each is opened at its first byte, so
    /// that no empty file is made. Standard output gets a line for each opening, or nothing.
    ///
    /// # Errors
    ///
    /// `Memory` if there is no room, `Open` if a file can't be opened, `Write` if standard output broke in the line about a file.
    pub(crate) fn open<O: Outs>(
        alloc: Global,
        count: u64,
        naming: Naming,
        elide: bool,
        tells: Tells,
        delim: u8,
        outs: &mut O,
    ) -> Result<RoundSplitter, Fault>
        requires some { 0 < count }
        requires enough { are_named naming count ≡ true }
        requires streams { 2 ≤ length (O.slots outs.old) }
        requires tells { TellsNoSizes tells }
        requires output { CanTell tells (O.slots outs.old) }
        ensures holds { IfOk result (λ round. Holds round []) }
        ensures does { IfOk result (λ round. work round ≡ work_by (cut.Cut (Round count delim)) elide naming tells
            None) }
        ensures ready { IfOk result (λ round. Ready round (O.slots outs.new)) }
        ensures owns { IfOk result (λ round. Owns round (length (O.slots outs.old)) (O.slots outs.new)) }
        ensures outputs { OnOk result
            (HaveOpened O.visible (work_by (cut.Cut (Round count delim)) elide naming tells None)
            (O.slots outs.old) (O.slots outs.new)) }
        ensures cut { IfErr result (StoppedOpening O.visible (work_by (cut.Cut (Round count delim)) elide naming tells
            None)
            (O.slots outs.old) (O.slots outs.new)) }
        ensures refused { IfErr result (CannotOpen (is_verbose tells) (O.slots outs.old) (O.slots outs.new)) }
    {
        let deal = Deal::new(alloc, count, delim)?;
        let mut files = RoundFiles::new(alloc, naming, tells);
        files.open_first(opened_at_start(count, elide), outs)?;
        Ok(RoundSplitter { deal, files, elide })
    }

    /// Deals a piece, and writes to each file what it gets.
    ///
    /// # Errors
    ///
    /// `Memory` if there is no room for a name or its line, or for the piece, of which nothing is written then; `Write` if an
    /// output broke, `Open` if a file can't be opened.
    pub(crate) fn pass<O: Outs>(&mut self, piece: &[u8], outs: &mut O) -> Result<(), Fault>
        requires { Ready self.old (O.slots outs.old) }
        ensures { PassesAs (way.Round self.old) (way.Round self.new) piece.now
            (effect_of O.visible O.slots outs.old outs.new) result }
    {
        let reached = self.deal.gather(piece)?;
        self.files.write(self.deal.first(reached), outs)
    }

    /// Closes all files, in order.
    ///
    /// # Errors
    ///
    /// `Write` if one broke.
    pub(crate) fn finish<O: Outs>(&self, outs: &mut O) -> Result<(), Fault>
        requires { Ready self.now (O.slots outs.old) }
        ensures { ClosesAll self.now.files (effect_of O.visible O.slots outs.old outs.new) result }
    {
        self.files.close(outs)
    }
}

/// How many files are opened before any byte came in.
fn opened_at_start(count: u64, elide: bool) -> usize
    ensures { result ≡ (if elide then 0 else count) }
{
    if elide { 0 } else { count as usize }
}
