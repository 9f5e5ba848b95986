//! Feeding an engine one input, piece by piece.
ghost use Rattle.std.specs.Prelude.{◌≡◌, ◌^◌, ◌<◌, ◌≤◌, ℕ, [], true, false, length, IsTrue, IfOk, IfErr};
ghost use Rattle.ports_core.specs.{
  Slot.changed_at,
  Source.{ReadFails, source_at, is_readable, gives, Gave, BrokeOff},
  Inputs.KeepsOthers,
};
ghost use Rattle.engine_core.specs.{EngineState.HoldsIn, Engine.{Clears, is_verdict}};
ghost use Rattle.run_core.specs.{
  Feeding.{BeginsAt, FedFrom, FedNothing, IsUntaken, ReadsFor, Uses, feed_of, is_stop},
  inner.RunSteps.EndsSo,
};

use engine_core::{Engine, Stage};
use ports_core::{Fault, Inputs, Outs};

/// What became of an input.
#[derive(Clone, Copy, Debug, PartialEq, Eq)]
pub enum Fed {
    /// The input ended, and the engine could have gone on.
    Whole,
    /// The engine was done with it: nothing more could follow in the output.
    Enough,
    /// The input broke off before that, and the engine isn't closed.
    Broken,
}

/// Feeds an engine all of an input until the engine is done with it: first what it takes in without a read, and then pieces of at most the
/// buffer's length; of standard input pieces of no more than it wants at once. What it doesn't use of the last piece is given back. Then,
/// or at the end of the input, the engine is closed. If the input breaks off before that, and after a fault, the engine gives its files up.
/// The engine was opened before, which may have needed what the caller says (`opening` in `FedFrom`).
///
/// # Errors
///
/// The engine's fault.
pub fn feed_input<S: Stage, I: Inputs, O: Outs>(
    engine: &mut Engine<S>,
    slot: usize,
    buffer: &mut [u8],
    inputs: &mut I,
    outs: &mut O,
) -> Result<Fed, Fault>
    requires room { 0 < length buffer.old }
    requires fresh { HoldsIn S.terms.Holds engine.old [] }
    requires bound { engine.old.fed < 2 ^ 63 }
    requires input { IsTrue (is_readable (I.sources inputs.old) slot) }
    requires output { S.terms.Ready engine.old.stage (O.slots outs.old) }
    requires owns { (first : ℕ) × S.terms.Owns engine.old.stage first (O.slots outs.old) }
    ensures ends { FedFrom I.visible O.visible (feed_of (S.terms.work engine.old.stage) (length buffer.old) slot)
        (I.sources inputs.old) (I.sources inputs.new)
        (BeginsAt S.terms O.visible engine.old.stage (O.slots outs.old)) (O.slots outs.new) result }
    ensures reads { I.visible ≡ true
        → ReadsFor (S.terms.work engine.old.stage).is_complete (length buffer.old)
        (source_at (I.sources inputs.old) slot).left (source_at (I.sources inputs.new) slot).left }
    ensures used { I.visible ≡ true → is_stop result ≡ false → IsUntaken (source_at (I.sources inputs.old) slot)
        → Uses (S.terms.work engine.old.stage) (length buffer.old) slot (source_at (I.sources inputs.old) slot).left
        (source_at (I.sources inputs.new) slot) }
    ensures asked { (source_at (I.sources inputs.old) slot).asked ≤ length buffer.old
        → (source_at (I.sources inputs.new) slot).asked ≤ length buffer.old }
    ensures broke { IfOk result (λ fed. fed ≡ Fed.Broken → (source_at (I.sources inputs.new) slot).is_broken ≡ true) }
    ensures laid { I.laid inputs.new ≡ I.laid inputs.old }
    ensures others { KeepsOthers slot (I.sources inputs.old) (I.sources inputs.new) }
{
    engine.load(slot, buffer.len(), inputs);
    'pieces: while !engine.done() {
        let size = piece_size(slot, engine.wanted(), buffer.len());
        let n = match read_part(slot, size, buffer, inputs) {
            Ok(n) => n,
            Err(_) => {
                engine.abandon(outs);
                return Ok(Fed::Broken);
            }
        };
        if n == 0 {
            return end(engine, Fed::Whole, outs);
        }
        match engine.feed(&buffer[..n], outs) {
            Ok(()) => {}
            Err(fault) => return Err(given_up(engine, fault, outs)),
        }
    }
    let unused = engine.unused();
    inputs.give_back(slot, unused);
    end(engine, Fed::Enough, outs)
}

/// How many bytes are read at once: as many as there is room for, but of standard input, which others may read after this
/// run, no more than are wanted.
fn piece_size(slot: usize, wanted: u64, most: usize) -> usize
    requires wanted { 0 < wanted }
    requires room { 0 < most }
    ensures some { 0 < result }
    ensures within { result ≤ most }
    ensures few { slot ≡ 0 → result ≤ wanted }
{
    if slot != 0 {
        return most;
    }
    if wanted < most as u64 {
        return wanted as usize;
    }
    most
}

/// Reads once into the first `size` bytes of a buffer, and returns how many bytes that gave.
///
/// # Errors
///
/// That of the read.
fn read_part<I: Inputs>(
    slot: usize,
    size: usize,
    buffer: &mut [u8],
    inputs: &mut I,
) -> Result<usize, Fault>
    requires input { IsTrue (is_readable (I.sources inputs.old) slot) }
    requires some { 0 < size }
    requires within { size ≤ length buffer.old }
    ensures bound { IfOk result (λ n. n ≤ size) }
    ensures bytes { IfOk result (λ n. I.visible ≡ true
        → Gave (source_at (I.sources inputs.old) slot).left buffer.old buffer.new n) }
    ensures rest { IfOk result (λ n. I.sources inputs.new ≡ changed_at slot (gives size n) (I.sources inputs.old)) }
    ensures err { IfErr result (λ fault. ReadFails slot size (I.sources inputs.old) (I.sources inputs.new)) }
    ensures break_off { IfErr result (λ _. I.visible ≡ true → BrokeOff (source_at (I.sources inputs.old) slot).left) }
    ensures kept { I.laid inputs.new ≡ I.laid inputs.old }
    ensures room { length buffer.new ≡ length buffer.old }
{
    match inputs.read(slot, &mut buffer[..size]) {
        Ok(n) => Ok(n),
        Err(fault) => Err(fault),
    }
}

/// Feeds an engine an input without bytes.
///
/// # Errors
///
/// The engine's fault.
pub fn feed_nothing<S: Stage, O: Outs>(engine: &mut Engine<S>, outs: &mut O) -> Result<Fed, Fault>
    requires fresh { HoldsIn S.terms.Holds engine.old [] }
    requires bound { engine.old.fed < 2 ^ 63 }
    requires output { S.terms.Ready engine.old.stage (O.slots outs.old) }
    requires owns { (first : ℕ) × S.terms.Owns engine.old.stage first (O.slots outs.old) }
    ensures ends { FedNothing O.visible (S.terms.work engine.old.stage)
        (BeginsAt S.terms O.visible engine.old.stage (O.slots outs.old)) (O.slots outs.new) result }
{
    if engine.done() {
        return end(engine, Fed::Enough, outs);
    }
    end(engine, Fed::Whole, outs)
}

/// Closes an engine that has got all of its input, of which this became.
///
/// # Errors
///
/// The engine's fault.
fn end<S: Stage, O: Outs>(engine: &mut Engine<S>, fed: Fed, outs: &mut O) -> Result<Fed, Fault>
    requires ready { engine.old.is_over ≡ false → S.terms.Ready engine.old.stage (O.slots outs.old) }
    requires owns { (first : ℕ) × S.terms.Owns engine.old.stage first (O.slots outs.old) }
    ensures { EndsSo S.terms O.visible engine.old fed (O.slots outs.old) (O.slots outs.new) result }
{
    match engine.close(outs) {
        Ok(()) => Ok(fed),
        Err(fault) => Err(given_up(engine, fault, outs)),
    }
}

/// Gives up an engine's files after its fault, unless that is a verdict on its input, and returns the fault.
fn given_up<S: Stage, O: Outs>(engine: &mut Engine<S>, fault: Fault, outs: &mut O) -> Fault
    requires { is_verdict fault ≡ false → ((first : ℕ) × S.terms.Owns engine.old.stage first (O.slots outs.old)) }
    ensures same { result ≡ fault }
    ensures judged { is_verdict fault ≡ true → O.slots outs.new ≡ O.slots outs.old }
    ensures swept { is_verdict fault ≡ false
        → Clears S.terms engine.old.stage (O.slots outs.old) (O.slots outs.new) }
{
    let Fault::Verdict(_) = fault else {
        engine.abandon(outs);
        return fault;
    };
    fault
}
