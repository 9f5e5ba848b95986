//! Following: looks at names, one after another.
ghost use Rattle.std.specs.{
  Prelude.{◌≡◌, ◌<◌, ◌≤◌, ◌+◌, ◌^◌, ◌∷◌, ◌++◌, [], ℕ, Bool, List, true, false, length, map, Err, IfOk, IfErr, OnOk},
};
ghost use Rattle.ports_core.specs.{Slot.Slot, declared.calling.Calling.Calling};
ghost use Rattle.watch_core.specs.Watched.{Watched, watched_at};
ghost use Rattle.follow_core.specs.{
  Sharing.HasError,
  inner.Visits.{AddsSome, BeginsLook, CanBegin, MakesLook},
  FollowState.{Asked, CanLook, FollowState, Holds, IsCause, IsOther, LooksOn, SawOrNot, StopsOn, is_alive},
  FollowState.{opened_follow, point},
  Look.Look,
  Standing.{NoneGoesOn, texts},
};

use crate::name::{Name, add_all, any_goes_on, new_names, visit_all};
use crate::start::Start;
use crate::visitor::Visitor;
use ends_core::Unit;
use ports_core::{Calling, Fault, Outs};
use std::alloc::Global;
use std::marker::Model;
use watch_core::Watch;

/// Where following stands.
#[derive(Clone, Copy, Debug, PartialEq, Eq)]
pub enum Phase {
    /// No look was made yet.
    Fresh,
    /// The names are watched, and were looked at.
    Looking,
    /// A fault ended following.
    Over,
}

/// `tail` that follows files (POSIX.1-2017, XCU tail, `-f`; also GNU's `--follow=name`): one look after another writes
/// to standard output what came to each name since the look before, and reports on standard error what changed. The
/// first look writes the end of each file, or all from a place on.
///
/// It keeps the names and one buffer of 65,536 bytes. Of each file it keeps only how many bytes were seen.
#[derive(Drop)]
pub struct Follow {
    by_name: bool,
    start: Start,
    names: Vec<Name>,
    /// The number that the watch gave the first name, once it did.
    first: usize,
    visitor: Visitor,
    phase: Phase,
    has_failed: bool,
}

impl Model for Follow {
    ghost Value = { FollowState };

    ghost view = { λ f. record {
      by_name = f.by_name;
      start = f.start;
      names = f.names.items;
      first = f.first;
      printer = f.visitor;
      phase = f.phase;
      has_failed = f.has_failed;
    } };

    ghost invariant = { λ f. f.first + length f.names.items ≤ 2 ^ 64 };
}

impl Follow {
    /// Following of these names by `cutters`. There may be no name. With `by_name` the file to which a name leads is
    /// read, and otherwise the file that is open since the first look. With `headers` a header stands before each
    /// stretch of text. The first look writes the last `count` lines or bytes, or with `from_nth` all from number
    /// `count` on. Lines end with `delim`. Nothing is opened before the first look.
    ///
    /// # Errors
    ///
    /// `Memory` if there is no room for the names and the buffer.
    pub fn open(
        alloc: Global,
        names: &[&str],
        unit: Unit,
        from_nth: bool,
        count: u64,
        by_name: bool,
        headers: bool,
        delim: u8,
    ) -> Result<Self, Fault>
        ensures ok { IfOk result (λ follow. follow ≡ opened_follow Calling.Cutters by_name
            (record { unit = unit; from_nth = from_nth; count = count; delim = delim }) headers
            (map (λ name. name.now) names.now)) }
        ensures err { IfErr result (λ fault. fault ≡ Fault.Memory) }
    {
        let start = Start {
            unit,
            from_nth,
            count,
            delim,
        };
        Follow::open_as(alloc, Calling::Cutters, names, start, by_name, headers)
    }

    /// Following of these names, as `open` makes it, but by how `tail` was called. That decides about its messages and
    /// about names that can't be read.
    ///
    /// # Errors
    ///
    /// `Memory` if there is no room for the names and the buffer.
    pub fn open_as(
        alloc: Global,
        calling: Calling,
        names: &[&str],
        start: Start,
        by_name: bool,
        headers: bool,
    ) -> Result<Self, Fault>
        ensures ok { IfOk result (λ follow. follow
            ≡ opened_follow calling by_name start headers (map (λ name. name.now) names.now)) }
        ensures err { IfErr result (λ fault. fault ≡ Fault.Memory) }
    {
        Ok(Follow {
            by_name,
            start,
            names: new_names(alloc, names)?,
            first: 0,
            visitor: Visitor::new(alloc, calling, headers)?,
            phase: Phase::Fresh,
            has_failed: false,
        })
    }

    /// Makes a look. The first look adds the names to the watched names, after those that others added, which stay as
    /// they are. All looks take the same `watch`, on which nobody else calls from the first look on.
    ///
    /// If a name can't be looked at, opened or read, that is reported on standard error, with the system's reason if
    /// `tail` was called by its own name. The name is dropped, and the others go on. A message that can't be written is
    /// passed over.
    ///
    /// # Errors
    ///
    /// `Write(0)` if standard output broke. `Memory` if there was none for a name, a look, a header or a line about a
    /// change. Standard output then has all of the looks before, and a beginning of this look. Either fault ends
    /// following: a later look returns `Failed`, and does nothing.
    pub fn look<W: Watch, O: Outs>(&mut self, watch: &mut W, outs: &mut O) -> Result<(), Fault>
        requires { CanLook self.old (W.watched watch.old) (O.slots outs.old) }
        ensures looked { OnOk result (LooksOn W.visible O.visible (W.shows watch.old (length (W.seen watch.old)))
            (point self.old (W.watched watch.old) (O.slots outs.old))
            (point self.new (W.watched watch.new) (O.slots outs.new))) }
        ensures stopped { IfErr result (StopsOn W.visible O.visible (W.shows watch.old (length (W.seen watch.old)))
            (point self.old (W.watched watch.old) (O.slots outs.old)) (W.watched watch.new) (O.slots outs.new)) }
        ensures seen { OnOk result (W.seen watch.new
            ≡ W.seen watch.old ++ W.shows watch.old (length (W.seen watch.old)) ∷ []) }
        ensures saw { IfErr result
            (λ _. SawOrNot (W.seen watch.old) (W.shows watch.old (length (W.seen watch.old))) (W.seen watch.new)) }
        ensures phase { OnOk result (self.new.phase ≡ Phase.Looking) }
        ensures error { HasError (O.slots outs.old) → HasError (O.slots outs.new) }
        ensures can { OnOk result (CanLook self.new (W.watched watch.new) (O.slots outs.new)) }
        ensures cause { IfErr result (IsCause self.old (O.slots outs.old) (O.slots outs.new)) }
        ensures err { IfErr result (λ _. self.new.phase ≡ Phase.Over) }
        ensures over { self.old.phase ≡ Phase.Over
            → (result ≡ Err Fault.Failed) × (O.slots outs.new ≡ O.slots outs.old)
            × (W.watched watch.new ≡ W.watched watch.old) × (W.seen watch.new ≡ W.seen watch.old)
            × (self.new ≡ self.old) }
        ensures failed { (self.old.phase ≡ Phase.Over → ⊥) → IfErr result (λ _. self.new.has_failed ≡ true) }
        ensures shows { W.shows watch.new ≡ W.shows watch.old }
        ensures others { (number : ℕ) → IsOther self.old (W.watched watch.old) number
            → watched_at (W.watched watch.new) number ≡ watched_at (W.watched watch.old) number }
    {
        match self.phase {
            Phase::Over => Err(Fault::Failed),
            Phase::Fresh | Phase::Looking => match self.make_look(watch, outs) {
                Ok(failed) => {
                    self.has_failed |= failed;
                    Ok(())
                }
                Err(fault) => {
                    self.phase = Phase::Over;
                    self.has_failed = true;
                    Err(fault)
                }
            },
        }
    }

    /// Whether a further look can give something: some name wasn't dropped, and is followed by name or has its file
    /// open.
    pub fn alive(&self) -> bool
        ensures alive { (visible : Bool) (asked : Asked) (looks : List Look) (watched : List Watched)
            (slots : List Slot)
            → Holds true visible asked looks (point self.now watched slots)
            → result ≡ is_alive asked.ways asked.names looks }
        ensures none { (read visible : Bool) (asked : Asked) (looks : List Look) (watched : List Watched)
            (slots : List Slot) → Holds read visible asked looks (point self.now watched slots) → 0 < length looks
            → result ≡ false → NoneGoesOn asked.ways watched }
    {
        any_goes_on(&self.names, self.by_name)
    }

    /// Whether a name was missing at the first look, a call on a name failed, or a fault ended following: the status
    /// isn't 0 then.
    pub fn failed(&self) -> bool
        ensures { result ≡ self.now.has_failed }
    {
        self.has_failed
    }

    /// Makes a look, and returns whether a name was missing or a call on a name failed. The caller has to keep that,
    /// and to end following after a fault.
    ///
    /// # Errors
    ///
    /// As `look`.
    fn make_look<W: Watch, O: Outs>(&mut self, watch: &mut W, outs: &mut O) -> Result<bool, Fault>
        requires live { self.old.phase ≡ Phase.Over → ⊥ }
        requires can { CanLook self.old (W.watched watch.old) (O.slots outs.old) }
        ensures makes { MakesLook W.visible O.visible (W.shows watch.old (length (W.seen watch.old))) (W.seen watch.old)
            (point self.old (W.watched watch.old) (O.slots outs.old)) (W.seen watch.new)
            (point self.new (W.watched watch.new) (O.slots outs.new)) result }
        ensures shows { W.shows watch.new ≡ W.shows watch.old }
    {
        if let Err(fault) = self.begin(watch) {
            return Err(fault);
        }
        if let Err(fault) = watch.turn() {
            return Err(fault);
        }
        visit_all(
            self.by_name,
            self.start,
            &mut self.names,
            self.first,
            &mut self.visitor,
            watch,
            outs,
        )
    }

    /// Adds the names to the watched names before the first look; does nothing before a later look.
    ///
    /// # Errors
    ///
    /// `Memory` if there was none for a name.
    fn begin<W: Watch>(&mut self, watch: &mut W) -> Result<(), Fault>
        requires { CanBegin self.old (W.watched watch.old) }
        ensures begins { OnOk result
            (BeginsLook W.visible self.old (W.watched watch.old) self.new (W.watched watch.new)) }
        ensures err { IfErr result
            (λ fault. (fault ≡ Fault.Memory) × (self.old.phase ≡ Phase.Fresh)
            × AddsSome (texts self.old.names) (W.watched watch.old) (W.watched watch.new)) }
        ensures seen { W.seen watch.new ≡ W.seen watch.old }
        ensures shows { W.shows watch.new ≡ W.shows watch.old }
    {
        match self.phase {
            Phase::Fresh => {
                let first = add_all(&self.names, watch)?;
                self.first = first;
                self.phase = Phase::Looking;
                Ok(())
            }
            Phase::Looking | Phase::Over => Ok(()),
        }
    }
}
