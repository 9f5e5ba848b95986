ghost use Rattle.std.specs.{
  Prelude.{◌≡◌, ◌+◌, ◌≤◌, ◌<◌, ◌++◌, ◌∷◌, [], true, length, slice_index_or, vec_len, vec_capacity},
};
ghost use Rattle.split_core.specs.{Round.AreReady, Split.are_named, inner.Sharing.{Adds, ClosesAll, Opens, only_at}};
ghost use Rattle.ports_core.specs.{Name.has_name, Slot.effect_of};

use crate::files::write_bytes;
use crate::gathered::Gathered;
use engine_core::{Names, Tells};
use ports_core::{Fault, Naming, Outs};
use std::alloc::Global;
use std::marker::Model;

/// The files that lines are dealt to, in the order of their names.
#[derive(Drop)]
pub(crate) struct RoundFiles {
    names: Names,
    tells: Tells,
    /// The outputs of the files that are open.
    outputs: Vec<usize>,
}

impl Model for RoundFiles {
    ghost use Rattle.split_core.specs.FilesState.{FilesState};

    ghost Value = { FilesState };

    ghost view = { λ f. record { names = f.names; tells = f.tells; outputs = f.outputs.items } };
}

impl RoundFiles {
    /// No file is open yet, and no memory is taken.
    pub(crate) fn new(alloc: Global, naming: Naming, tells: Tells) -> RoundFiles
        ensures { result ≡ record { names = record { naming = naming; drawn = 0 }; tells = tells; outputs = [] } }
    {
        RoundFiles {
            names: Names { naming, drawn: 0 },
            tells,
            outputs: Vec::new(alloc),
        }
    }

    /// Opens the first `count` files.
    ///
    /// # Errors
    ///
    /// `Open` if a file can't be opened, `Memory` if there is no room for a name, its line or one more output, `Write` if standard output
    /// broke in the line about a file.
    pub(crate) fn open_first<O: Outs>(&mut self, count: usize, outs: &mut O) -> Result<(), Fault>
        requires ready { AreReady self.old (O.slots outs.old) }
        requires none { self.old.outputs ≡ [] }
        requires named { are_named self.old.names.naming count ≡ true }
        ensures { Opens self.old self.new 0 count (effect_of O.visible O.slots outs.old outs.new) result }
    {
        for place in 0..count {
            self.reach(place, outs)?;
        }
        Ok(())
    }

    /// Writes to the first files what was gathered for each, in order. Files that aren't open are opened.
    ///
    /// # Errors
    ///
    /// `Write` if an output broke, `Open` if a file can't be opened, `Memory` if there is no room for a name,
    /// its line or one more output.
    pub(crate) fn write<O: Outs>(
        &mut self,
        gathered: &[Gathered],
        outs: &mut O,
    ) -> Result<(), Fault>
        requires ready { AreReady self.old (O.slots outs.old) }
        requires named { are_named self.old.names.naming (length gathered.now) ≡ true }
        ensures { Adds self.old self.new (λ place. slice_index_or gathered.now place []) 0 (length gathered.now)
            (effect_of O.visible O.slots outs.old outs.new) result }
    {
        for place in 0..gathered.len() {
            self.send(place, gathered[place].bytes(), outs)?;
        }
        Ok(())
    }

    /// Closes all files, in order.
    ///
    /// # Errors
    ///
    /// `Write` if a close failed: later files stay open.
    pub(crate) fn close<O: Outs>(&self, outs: &mut O) -> Result<(), Fault>
        requires ready { AreReady self.now (O.slots outs.old) }
        ensures { ClosesAll self.now (effect_of O.visible O.slots outs.old outs.new) result }
    {
        for place in 0..self.outputs.len() {
            outs.close(self.outputs[place])?;
        }
        Ok(())
    }

    /// Writes to one file, which is opened if it is the next one.
    fn send<O: Outs>(&mut self, place: usize, bytes: &[u8], outs: &mut O) -> Result<(), Fault>
        requires ready { AreReady self.old (O.slots outs.old) }
        requires near { place ≤ length self.old.outputs }
        requires named { has_name self.old.names.naming place ≡ true }
        ensures { Adds self.old self.new (only_at place bytes.now) place (place + 1)
            (effect_of O.visible O.slots outs.old outs.new) result }
    {
        self.reach(place, outs)?;
        write_bytes(self.outputs[place], bytes, outs)
    }

    /// Opens the file at a place, if it isn't open. It must be the next one then.
    fn reach<O: Outs>(&mut self, place: usize, outs: &mut O) -> Result<(), Fault>
        requires ready { AreReady self.old (O.slots outs.old) }
        requires near { place ≤ length self.old.outputs }
        requires named { has_name self.old.names.naming place ≡ true }
        ensures { Opens self.old self.new place (place + 1) (effect_of O.visible O.slots outs.old outs.new) result }
    {
        if place < self.outputs.len() {
            return Ok(());
        }
        self.outputs.reserve(1)?;
        let slot = self.names.open_next(self.tells, outs)?;
        put(&mut self.outputs, slot);
        Ok(())
    }
}

/// Appends an output to those that are open, if there is room for it.
fn put(outputs: &mut Vec<usize>, slot: usize)
    requires { vec_len outputs.old < vec_capacity outputs.old }
    ensures { outputs.new.items ≡ outputs.old.items ++ slot ∷ [] }
{
    match outputs.push(slot) {
        Ok(()) => {}
        Err(_) => unreachable!(),
    }
}
