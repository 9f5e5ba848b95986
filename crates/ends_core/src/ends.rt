//! The stage of `head` and `tail`: which part of an input is written.
ghost use Rattle.std.specs.{
  Prelude.{◌≡◌, ◌+◌, ◌-◌, ◌^◌, ◌<◌, ◌≤◌, ℕ, List, [], true, false, if◌then◌else◌, length, IsTrue, IfOk, IfErr, OnOk},
};
ghost use Rattle.ports_core.specs.{Slot.{is_writable, visible_of, with_written}, Source.is_readable, Inputs.PassesOver};
ghost use Rattle.engine_core.specs.EngineState.{HoldsIn};
ghost use Rattle.ends_core.specs.{
  Ends.measure,
  Head.head_work,
  Tail.tail_work,
  Shown.{head_shown, place_of, tail_shown},
  inner.{
    Stage.{EndsBadly, FullLacksNone, WritesNothing, SameAsked, passed, due, due_at_end, is_full, left_waiting, unused_of},
    Stage.wanted_by,
    Kept.Writes,
  },
  Stage.{Holds, IsAsked, all_but_last, delim_of, missing_of, terms, from_the_nth, left_of, may_lack, past_of},
  Stage.{size_of, the_first, the_last, unit_of, waiting_of, work},
  laws.WorkLaws.lawful,
};
ghost use Rattle.seg_core.specs.declared.unit.Unit.{Unit as Counted};

use crate::Unit;
use crate::front::{Front, pass_after, pass_front};
use crate::kept::Kept;
use crate::span::Span;
use engine_core::{Engine, Stage};
use ports_core::{Fault, Inputs, Outs};
use std::alloc::Global;

/// Writes a part of an input, each byte as soon as nothing that follows can change that it is written. For the first, from number n on, and
/// between two places it takes no memory. For all but the last, and for the last, it takes as much as the last lines or bytes of what came
/// in; of bytes no more once as many came in as are kept.
#[derive(Drop)]
pub enum Portion {
    /// The first lines or bytes: how many were asked for, and how many are still to come.
    First(u64, Front),
    /// All but the last lines or bytes, which are kept.
    ButLast(Kept),
    /// All from number n on: n, and how many are still to be passed over.
    FromNth(u64, Front),
    /// The last lines or bytes, which are kept and written at the end.
    Last(Kept),
    /// The bytes from one place up to another, of an input that showed where its last lines or bytes begin and end.
    Between(Span),
}

/// `head`: the first lines or bytes of an input, or all but the last (POSIX.1-2017, XCU head; bytes and all but the last
/// are GNU's).
pub struct Head;

/// `tail`: the last lines or bytes of an input, or all from number n on (POSIX.1-2017, XCU tail).
pub struct Tail;

impl Head {
    /// An engine that writes the first `count` lines or bytes, or, with `but_last`, all but the last `count`. Lines end
    /// with `delim`. With a count of 0 it writes nothing, or everything.
    ///
    /// # Errors
    ///
    /// `Memory` if there is no room for what waits: only if all but the last are asked for.
    pub fn open(
        alloc: Global,
        unit: Unit,
        but_last: bool,
        count: u64,
        delim: u8,
    ) -> Result<Engine<Portion>, Fault>
        ensures holds { IfOk result (λ head. HoldsIn Holds head []) }
        ensures asked { IfOk result (λ head.
            IsAsked (if but_last then all_but_last else the_first) unit count delim head.stage) }
        ensures does { IfOk result (λ head. work head.stage ≡ head_work delim unit but_last count) }
        ensures bound { IfOk result (λ head. head.fed < 2 ^ 63) }
        ensures err { IfErr result (λ fault. (fault ≡ Fault.Memory) × (but_last ≡ true)) }
    {
        if but_last {
            let kept = Kept::open(alloc, unit, count, delim)?;
            return Ok(Engine::new(Portion::ButLast(kept)));
        }
        let front = Front::new(unit, delim, count);
        Ok(Engine::new(Portion::First(count, front)))
    }

    /// An engine that writes the first `place` bytes of an input that showed as many before its last lines or bytes. It takes no memory,
    /// and its `close` gives `Changed` if fewer came.
    pub fn up_to(place: u64) -> Engine<Portion>
        ensures holds { HoldsIn Holds result [] }
        ensures does { (delim : ℕ) (unit : Counted) (n : ℕ) (text : List ℕ) → place_of delim unit n text ≡ place
            → work result.stage ≡ head_shown delim unit n text }
        ensures bound { result.fed < 2 ^ 63 }
    {
        Engine::new(Portion::Between(Span {
            from: 0,
            end: place,
            came: 0,
        }))
    }
}

impl Tail {
    /// An engine that writes the last `count` lines or bytes, or, with `from_nth`, all from number `count` on. The first
    /// is number 1, and 0 is read as 1. Lines end with `delim`.
    ///
    /// # Errors
    ///
    /// `Memory` if there is no room for what waits: only if the last are asked for.
    pub fn open(
        alloc: Global,
        unit: Unit,
        from_nth: bool,
        count: u64,
        delim: u8,
    ) -> Result<Engine<Portion>, Fault>
        ensures holds { IfOk result (λ tail. HoldsIn Holds tail []) }
        ensures asked { IfOk result (λ tail.
            IsAsked (if from_nth then from_the_nth else the_last) unit count delim tail.stage) }
        ensures does { IfOk result (λ tail. work tail.stage ≡ tail_work delim unit from_nth count) }
        ensures bound { IfOk result (λ tail. tail.fed < 2 ^ 63) }
        ensures err { IfErr result (λ fault. (fault ≡ Fault.Memory) × (from_nth ≡ false)) }
    {
        if from_nth {
            let front = Front::new(unit, delim, count.saturating_sub(1));
            return Ok(Engine::new(Portion::FromNth(count, front)));
        }
        let kept = Kept::open(alloc, unit, count, delim)?;
        Ok(Engine::new(Portion::Last(kept)))
    }

    /// An engine that writes the bytes of an input from `place` up to `len`: the last lines or bytes of what it showed, which were `len`
    /// bytes. Whatever comes after these is not written. It takes no memory, and its `close` gives `Changed` if fewer came.
    pub fn after(place: u64, len: u64) -> Engine<Portion>
        ensures holds { HoldsIn Holds result [] }
        ensures does { (delim : ℕ) (unit : Counted) (n : ℕ) (text : List ℕ) → place_of delim unit n text ≡ place
            → length text ≡ len → work result.stage ≡ tail_shown delim unit n text }
        ensures bound { result.fed < 2 ^ 63 }
    {
        Engine::new(Portion::Between(Span {
            from: place,
            end: len,
            came: 0,
        }))
    }
}

impl Stage for Portion {
    ghost terms = { terms };

    /// Takes in a piece, and writes to standard output what is decided now, of what waited and of the piece. What no
    /// longer has to wait, and isn't written, is dropped.
    ///
    /// # Errors
    ///
    /// `Write(0)` if standard output broke, `Memory` if there is no room for what waits.
    #[tactic(auto, using(ports_core::proofs::WriteLemmas::none_written, crate::proofs::KeptLemmas::or_no_room))]
    fn pass<O: Outs>(&mut self, piece: &[u8], outs: &mut O) -> Result<(), Fault>
        requires fits { size_of self.old + length piece.now < 2 ^ 64 }
        requires writable { IsTrue (is_writable (O.slots outs.old) 0) }
        ensures same { SameAsked self.old self.new }
        ensures bound { size_of self.new ≤ size_of self.old + length piece.now }
        ensures past { past_of self.new ≡ past_of self.old + length (unused_of self.old piece.now) }
        ensures left { OnOk result (left_of self.new
            ≡ left_of self.old - measure (delim_of self.old) (unit_of self.old) piece.now) }
        ensures missing { missing_of self.new ≡ missing_of self.old - length piece.now }
        ensures waits { OnOk result (waiting_of self.new ≡ left_waiting self.old piece.now) }
        ensures full { OnOk result (FullLacksNone self.new) }
        ensures wrote { Writes O.visible (may_lack self.old) (due self.old piece.now) (O.slots outs.old)
            (O.slots outs.new) result }
    {
        match self {
            Portion::First(_, front) => pass_front(front, piece, outs),
            Portion::ButLast(kept) => kept.pass(piece, outs),
            Portion::FromNth(_, front) => pass_after(front, piece, outs),
            Portion::Last(kept) => kept.take_in(piece),
            Portion::Between(span) => span.pass(piece, outs),
        }
    }

    /// Passes over bytes that an input shows, before any piece, and returns how many these are: those before the nth byte or before the
    /// place from which on bytes are asked for.
    fn load<I: Inputs>(&mut self, slot: usize, most: usize, inputs: &mut I) -> u64
        requires input { IsTrue (is_readable (I.sources inputs.old) slot) }
        requires none { size_of self.old ≡ 0 }
        ensures passes { PassesOver I.visible slot result
            (λ x. WritesNothing self.old x × (self.new ≡ passed self.old x))
            (I.sources inputs.old) (I.sources inputs.new) }
        ensures laid { I.laid inputs.new ≡ I.laid inputs.old }
    {
        match self {
            Portion::FromNth(_, front) => front.pass_over(slot, most, inputs),
            Portion::Between(span) => span.pass_over(slot, most, inputs),
            Portion::First(_, _) | Portion::ButLast(_) | Portion::Last(_) => 0,
        }
    }

    /// Writes what waits, if the last are asked for.
    ///
    /// # Errors
    ///
    /// `Write(0)` if standard output broke, `Verdict(Changed)` if fewer bytes came in than were shown.
    fn finish<O: Outs>(&mut self, outs: &mut O) -> Result<(), Fault>
        requires writable { IsTrue (is_writable (O.slots outs.old) 0) }
        ensures same { SameAsked self.old self.new }
        ensures bound { size_of self.new ≤ size_of self.old }
        ensures whole { OnOk result (missing_of self.old ≡ 0) }
        ensures out { OnOk result (O.slots outs.new
            ≡ with_written 0 (visible_of O.visible (due_at_end self.old)) (O.slots outs.old)) }
        ensures cut { IfErr result (EndsBadly O.visible self.old (O.slots outs.old) (O.slots outs.new)) }
    {
        match self {
            Portion::First(_, _) | Portion::ButLast(_) | Portion::FromNth(_, _) => Ok(()),
            Portion::Last(kept) => {
                let all = kept.len();
                kept.write_front(all, outs)
            }
            Portion::Between(span) => span.finish(),
        }
    }

    /// There are no files to remove.
    fn clear<O: Outs>(&mut self, outs: &mut O) {
        let _ = outs;
    }

    fn is_done(&self) -> bool
        ensures { result ≡ is_full self.now }
    {
        match self {
            Portion::First(_, front) => front.left == 0,
            Portion::Between(span) => span.end <= span.came,
            Portion::ButLast(_) | Portion::FromNth(_, _) | Portion::Last(_) => false,
        }
    }

    fn waits(&self) -> u64
        ensures { result ≡ length (waiting_of self.now) }
    {
        match self {
            Portion::First(_, _) | Portion::FromNth(_, _) | Portion::Between(_) => 0,
            Portion::ButLast(kept) | Portion::Last(kept) => kept.len(),
        }
    }

    /// As many bytes as are still needed, if that is known. For the first lines, as many as lines, of which each has at least one byte, and
    /// at least 4,096.
    fn wanted(&self) -> u64
        ensures { result ≡ wanted_by self.now }
    {
        match self {
            Portion::First(_, front) => front.wanted(),
            Portion::Between(span) => span.missing(),
            Portion::ButLast(_) | Portion::FromNth(_, _) | Portion::Last(_) => u64::MAX,
        }
    }

    fn unused(&self) -> u64
        ensures { result ≡ past_of self.now }
    {
        match self {
            Portion::First(_, front) => front.past,
            Portion::Between(span) => span.came.saturating_sub(span.end),
            Portion::ButLast(_) | Portion::FromNth(_, _) | Portion::Last(_) => 0,
        }
    }

    ghost lawful = { λ ends x holds. lawful ends };

    ghost there = { λ ends first slots owns. tt };
}
