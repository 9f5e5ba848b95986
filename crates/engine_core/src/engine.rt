//! Engines: what all of them share around a tool's stage. They count what comes in, take no more than 2^63-1 bytes, and
//! return `Failed` once a fault or the end came.
ghost use Rattle.std.specs.{
  Prelude.{◌≡◌, ◌+◌, ◌^◌, ◌<◌, ◌≤◌, ◌↔◌, ℕ, List, [], true, false, length, OnOk, OnErr, IsErrOf, IsTrue},
};
ghost use Rattle.ports_core.specs.{Inputs.PassesOver, Slot.effect_of, Source.is_readable};
ghost use Rattle.engine_core.specs.{
  Engine.{Finishes, MayGet, Passes, Sweeps, TakesIn, TookIn},
  Work.IsSpare,
  Swept.AreThere,
  EngineState.{EngineState, HoldsIn, IsRefusedWith, IsRefusedThere},
};

use crate::Stage;
use ports_core::{Fault, Inputs, Outs, fed_with};
use std::marker::Model;
use std::mem::replace;

/// An engine of a tool's stage: it takes the pieces of one input as they come. After each piece its outputs have
/// exactly what no further input can change.
#[derive(Drop)]
pub struct Engine<S: Stage> {
    stage: S,
    fed: u64,
    is_over: bool,
}

impl<S: Stage> Model for Engine<S> {
    ghost Value = { EngineState S };

    ghost view = { λ engine. record { stage = engine.stage; fed = engine.fed; is_over = engine.is_over } };

    ghost invariant = { λ engine. (engine.fed < 2 ^ 63) × (S.terms.size engine.stage ≤ engine.fed) };
}

impl<S: Stage> Engine<S> {
    /// An engine of this stage, which has been fed nothing.
    pub fn new(stage: S) -> Engine<S>
        requires { S.terms.size stage ≡ 0 }
        ensures { result ≡ record { stage = stage; fed = 0; is_over = false } }
    {
        Engine {
            stage,
            fed: 0,
            is_over: false,
        }
    }

    /// Takes the next piece of the input, and writes what is settled with it. Each tool's law `agreed_is_settled` says
    /// what that is: exactly what all continuations of the input agree on.
    ///
    /// # Errors
    ///
    /// `Write` if an output broke, `Open` if a file can't be opened, `Memory` if there is no room for bytes that wait
    /// or for a name, and `TooLong` if the input has more than 2^63-1 bytes: then nothing of this piece is written.
    /// After these the outputs have a beginning of what is settled. `Verdict` if the work ends with a verdict, whatever
    /// comes: then the outputs have all that is settled, and the files are removed if the work says so. `Failed` after
    /// a fault and after `close`: nothing is changed.
    pub fn feed<O: Outs>(&mut self, piece: &[u8], outs: &mut O) -> Result<(), Fault>
        requires { self.old.is_over ≡ false → S.terms.Ready self.old.stage (O.slots outs.old) }
        ensures passes { Passes S.terms piece.now self.old.stage self.new.stage
            (effect_of O.visible O.slots outs.old outs.new) (IsRefusedWith S.terms piece.now self.old) result }
        ensures holds { OnOk result (TakesIn (HoldsIn S.terms.Holds) piece.now self.old self.new) }
        ensures fed { OnOk result (self.new.fed ≡ self.old.fed + length piece.now) }
        ensures bound { OnOk result (self.new.fed < 2 ^ 63) }
        ensures long { self.old.is_over ≡ false → 2 ^ 63 ≤ self.old.fed + length piece.now
            → IsErrOf result Fault.TooLong × (O.slots outs.new ≡ O.slots outs.old) }
        ensures failed { self.old.is_over ≡ true → IsErrOf result Fault.Failed × (self.new ≡ self.old)
            × (O.slots outs.new ≡ O.slots outs.old) }
        ensures over { OnErr result (self.new.is_over ≡ true) }
    {
        if self.is_over {
            return Err(Fault::Failed);
        }
        let Some(fed) = fed_with(self.fed, piece.len()) else {
            self.is_over = true;
            return Err(Fault::TooLong);
        };
        self.fed = fed;
        match self.stage.pass(piece, outs) {
            Ok(()) => Ok(()),
            Err(fault) => {
                self.is_over = true;
                Err(fault)
            }
        }
    }

    /// Takes in bytes that an input has left, before any piece and without reading all of them. It does so if the input
    /// can be looked at and passed over, and the work writes none of these bytes now. They are all that the input has
    /// left if its last part is wanted, or what stands before the only part that is wanted. Returns how many bytes it
    /// took in. They are passed over, so that the next reads give what comes after them. If that is 0, the input is to
    /// be read from its front.
    pub fn load<I: Inputs>(&mut self, slot: usize, most: usize, inputs: &mut I) -> u64
        requires fresh { HoldsIn S.terms.Holds self.old [] }
        requires input { IsTrue (is_readable (I.sources inputs.old) slot) }
        ensures loads { PassesOver I.visible slot result (TookIn S.terms self.old.stage self.new.stage)
            (I.sources inputs.old) (I.sources inputs.new) }
        ensures fed { self.new.fed ≡ result }
        ensures live { self.new.is_over ≡ false }
        ensures laid { I.laid inputs.new ≡ I.laid inputs.old }
    {
        self.fed = self.stage.load(slot, most, inputs);
        self.fed
    }

    /// Ends the input, and writes what waited. If the work writes to standard output and nothing failed, standard
    /// output can still be written to afterwards.
    ///
    /// # Errors
    ///
    /// `Write` if an output broke. `Open` if a file can't be opened and `Memory` if there is none, but each only if the
    /// work's means say that `close` may need it. `Verdict` if the work ends with a verdict: then the outputs have the
    /// whole, and the files are removed if the work says so. `Failed` after a fault or after `close`: nothing is
    /// changed.
    pub fn close<O: Outs>(&mut self, outs: &mut O) -> Result<(), Fault>
        requires { self.old.is_over ≡ false → S.terms.Ready self.old.stage (O.slots outs.old) }
        ensures finishes { Finishes S.terms self.old.stage self.new.stage
            (effect_of O.visible O.slots outs.old outs.new)
            (IsRefusedThere S.terms self.old) result }
        ensures failed { self.old.is_over ≡ true → IsErrOf result Fault.Failed × (self.new ≡ self.old)
            × (O.slots outs.new ≡ O.slots outs.old) }
        ensures over { self.new.is_over ≡ true }
    {
        if replace(&mut self.is_over, true) {
            return Err(Fault::Failed);
        }
        self.stage.finish(outs)
    }

    /// Gives the input up, after any fault or if the input broke off: removes the files that the engine made and that
    /// are still there, in order, if its work says so. A file that can't be removed is broken and closed, and the next
    /// is tried. After a verdict, or when called again, it tries the files whose removal failed before.
    pub fn abandon<O: Outs>(&mut self, outs: &mut O)
        requires { AreThere (S.terms.files self.old.stage) (O.slots outs.old) }
        ensures sweeps { Sweeps S.terms self.old.stage self.new.stage (O.slots outs.old) (O.slots outs.new) }
        ensures over { self.new.is_over ≡ true }
    {
        self.is_over = true;
        self.stage.clear(outs);
    }

    /// Whether the output is complete: whatever comes, it stays.
    pub fn done(&self) -> bool
        ensures complete { (x : List ℕ) → HoldsIn S.terms.Holds self.now x
            → result ≡ (S.terms.work self.now.stage).is_complete x }
        ensures exact { (x : List ℕ) → HoldsIn S.terms.Holds self.now x
            → (IsTrue result ↔ S.terms.IsDone self.now.stage x) }
    {
        self.stage.is_done()
    }

    /// How many bytes the next piece may have, so that at most `ahead` of them, by the work, are not used. Of an input
    /// that others read after it, as standard input, no more should be read at once.
    pub fn wanted(&self) -> u64
        ensures some { (x : List ℕ) → HoldsIn S.terms.Holds self.now x
            → (S.terms.work self.now.stage).is_complete x ≡ false → 0 < result }
        ensures few { MayGet S.terms self.now.stage result }
    {
        self.stage.wanted()
    }

    /// How many of the bytes that came in are not used: the bytes after the one with which the output was complete.
    pub fn unused(&self) -> u64
        ensures { (x : List ℕ) → HoldsIn S.terms.Holds self.now x → IsSpare (S.terms.work self.now.stage) x result }
    {
        self.stage.unused()
    }

    /// How many bytes wait: they came in and aren't written, since it isn't decided yet where they go.
    pub fn held(&self) -> u64
        ensures { (x : List ℕ) → HoldsIn S.terms.Holds self.now x
            → result ≡ length ((S.terms.work self.now.stage).waiting x) }
    {
        self.stage.waits()
    }
}
