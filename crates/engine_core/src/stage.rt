ghost use Rattle.std.specs.Prelude.{◌≡◌, ◌+◌, ◌^◌, ◌<◌, ◌↔◌, ℕ, List, [], false, length, IsTrue};
ghost use Rattle.ports_core.specs.{Inputs.PassesOver, Slot.{Slot, effect_of}, Source.is_readable};
ghost use Rattle.engine_core.specs.{
  Work.{IsLawful, IsSpare},
  Engine.{Terms, Finishes, IsMetThere, IsMetWith, MayGet, Passes, Sweeps, TookIn},
  Swept.AreThere,
};

use ports_core::{Fault, Inputs, Outs};

/// A tool's work on one input, as long as no fault and no end came. `Engine` makes an engine of it, and says what each
/// call does.
pub trait Stage {
    /// What the stage says of its states. The contracts of the calls below are written with these terms.
    ghost terms: { Terms Self };

    /// Takes the next piece, and writes what is settled with it.
    ///
    /// # Errors
    ///
    /// Those of `Engine::feed`, except `TooLong` and `Failed`.
    fn pass<O: Outs>(&mut self, piece: &[u8], outs: &mut O) -> Result<(), Fault>
        requires fits { terms.size self.old + length piece.now < 2 ^ 63 }
        requires ready { terms.Ready self.old (O.slots outs.old) }
        ensures { Passes terms piece.now self.old self.new (effect_of O.visible O.slots outs.old outs.new)
            (IsMetWith terms piece.now self.old) result };

    /// Takes in bytes that an input has left, before any piece, as `Engine::load` does. Unless a stage has its own, it
    /// takes in none.
    fn load<I: Inputs>(&mut self, slot: usize, most: usize, inputs: &mut I) -> u64
        requires fresh { terms.Holds self.old [] }
        requires none { terms.size self.old ≡ 0 }
        requires input { IsTrue (is_readable (I.sources inputs.old) slot) }
        ensures loads { PassesOver I.visible slot result (TookIn terms self.old self.new) (I.sources inputs.old)
            (I.sources inputs.new) }
        ensures laid { I.laid inputs.new ≡ I.laid inputs.old }
    {
        let _ = (slot, most);
        let _ = inputs;
        0
    }

    /// Writes what waited.
    ///
    /// # Errors
    ///
    /// Those of `Engine::close`, except `Failed`.
    fn finish<O: Outs>(&mut self, outs: &mut O) -> Result<(), Fault>
        requires ready { terms.Ready self.old (O.slots outs.old) }
        ensures { Finishes terms self.old self.new (effect_of O.visible O.slots outs.old outs.new)
            (IsMetThere terms self.old) result };

    /// Removes the files that the stage made and that are still there, in order, if its work says so. A file that can't
    /// be removed is broken and closed, and the next is tried.
    fn clear<O: Outs>(&mut self, outs: &mut O)
        requires { AreThere (terms.files self.old) (O.slots outs.old) }
        ensures { Sweeps terms self.old self.new (O.slots outs.old) (O.slots outs.new) };

    /// Whether the output is complete: whatever comes, it stays.
    fn is_done(&self) -> bool
        ensures complete { (x : List ℕ) → terms.Holds self.now x → result ≡ (terms.work self.now).is_complete x }
        ensures exact { (x : List ℕ) → terms.Holds self.now x → (IsTrue result ↔ terms.IsDone self.now x) };

    /// How many bytes wait.
    fn waits(&self) -> u64
        ensures { (x : List ℕ) → length x < 2 ^ 63 → terms.Holds self.now x
            → result ≡ length ((terms.work self.now).waiting x) };

    /// How many bytes the next piece may have, so that at most `ahead` of them, by the stage's work, are not used.
    fn wanted(&self) -> u64
        ensures some { (x : List ℕ) → terms.Holds self.now x → (terms.work self.now).is_complete x ≡ false
            → 0 < result }
        ensures few { MayGet terms self.now result };

    /// How many of the bytes that came in are not used: the bytes after the one with which the output was complete.
    fn unused(&self) -> u64
        ensures { (x : List ℕ) → terms.Holds self.now x → IsSpare (terms.work self.now) x result };

    ghost lawful: { (stage : Self) (x : List ℕ) → terms.Holds stage x → IsLawful (terms.work stage) };

    ghost there: { (stage : Self) (first : ℕ) (slots : List Slot) → terms.Owns stage first slots
        → AreThere (terms.files stage) slots };
}
