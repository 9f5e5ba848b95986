ghost use Rattle.std.specs.Prelude.{◌≡◌, ◌+◌, ◌-◌, ◌^◌, ◌<◌, ◌≤◌, ◌⊎◌, [], false, length, min, IsTrue, IfErr, OnOk};
ghost use Rattle.ports_core.specs.{Source.is_readable, Slot.is_writable, Inputs.PassesOver};
ghost use Rattle.ends_core.specs.{Shown.bytes_between, inner.Kept.Writes};

use ports_core::{Fault, Inputs, Outs, Verdict, pass_over, write_whole};

/// The bytes of an input from one place up to another, while its pieces come.
#[derive(Drop)]
pub struct Span {
    /// The first place.
    pub from: u64,
    /// The second place.
    pub end: u64,
    /// How many bytes of the input came in.
    pub came: u64,
}

impl Span {
    /// Takes in the next piece, and writes those of its bytes that stand between the two places.
    ///
    /// # Errors
    ///
    /// `Write(0)` if standard output broke.
    pub fn pass<O: Outs>(&mut self, piece: &[u8], outs: &mut O) -> Result<(), Fault>
        requires writable { IsTrue (is_writable (O.slots outs.old) 0) }
        requires fits { self.old.came + length piece.now < 2 ^ 64 }
        ensures came { self.new ≡ record self.old { came = self.old.came + length piece.now } }
        ensures wrote { Writes O.visible false
            (bytes_between (self.old.from - self.old.came) (self.old.end - self.old.came) piece.now)
            (O.slots outs.old) (O.slots outs.new) result }
    {
        let front = &piece[..place_in(self.missing(), piece)];
        let start = place_in(self.from.saturating_sub(self.came), front);
        self.came += piece.len() as u64;
        match write_whole(outs, 0, &front[start..]) {
            Ok(()) => Ok(()),
            Err(_) => Err(Fault::Write(0)),
        }
    }

    /// Passes over what stands before the first place in an input of which no byte came in, without reading it, and returns how many bytes
    /// that were. The last byte before the second place is read in any case: so it is seen if the input has become shorter. 0 if there are
    /// no more bytes than one read gives, or if the input shows nothing or can't be passed over. It takes no memory.
    pub fn pass_over<I: Inputs>(&mut self, slot: usize, most: usize, inputs: &mut I) -> u64
        requires input { IsTrue (is_readable (I.sources inputs.old) slot) }
        requires fresh { self.old.came ≡ 0 }
        ensures passes { PassesOver I.visible slot result
            (λ x. (length x ≤ self.old.from) × ((x ≡ []) ⊎ (length x < self.old.end))
            × (self.new ≡ record self.old { came = self.old.came + length x }))
            (I.sources inputs.old) (I.sources inputs.new) }
        ensures laid { I.laid inputs.new ≡ I.laid inputs.old }
    {
        let front = self.from.min(self.end.saturating_sub(1));
        if !pass_over(slot, front, most, inputs) {
            return 0;
        }
        self.came = front;
        front
    }

    /// How many bytes are still to come up to the second place.
    pub fn missing(&self) -> u64
        ensures { result ≡ self.now.end - self.now.came }
    {
        self.end.saturating_sub(self.came)
    }

    /// Ends the input.
    ///
    /// # Errors
    ///
    /// `Verdict(Changed)` if the input ended before the second place.
    pub fn finish(&self) -> Result<(), Fault>
        ensures ok { OnOk result (self.now.end - self.now.came ≡ 0) }
        ensures err { IfErr result
            (λ fault. (fault ≡ Fault.Verdict Verdict.Changed) × (0 < self.now.end - self.now.came)) }
    {
        if self.missing() == 0 {
            Ok(())
        } else {
            Err(Fault::Verdict(Verdict::Changed))
        }
    }
}

/// A place in the piece, or the piece's end if that stands before the place.
fn place_in(place: u64, piece: &[u8]) -> usize
    ensures { result ≡ min place (length piece.now) }
{
    place.min(piece.len() as u64) as usize
}
