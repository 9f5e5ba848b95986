//! Names that are followed.
ghost use Rattle.std.specs.Prelude.{◌≡◌, ◌<◌, ◌≤◌, ◌+◌, ◌^◌, ◌++◌, ℕ, length, map, string_bytes, IfOk, IfErr, OnOk};
ghost use Rattle.watch_core.specs.Watched.{added, watched_at};
ghost use Rattle.follow_core.specs.{
  Sharing.CanPrint,
  inner.{Giving.{CanGoOn, moment, over_in, sight}, Visits.{AddsSome, any_goes_on, goes_on_as, Visits, VisitsAll}},
  FollowState.{AllReady, new_state},
  Look.ways_of,
  Standing.{CanVisit, NameState, texts},
};

use crate::start::Start;
use crate::visitor::Visitor;
use ports_core::{Fault, Outs};
use std::alloc::{AllocError, Global};
use std::marker::Model;
use watch_core::Watch;

/// How a name stands between two looks.
#[derive(Clone, Copy)]
pub enum Standing {
    /// The name was not looked at yet.
    New,
    /// The name is looked at again. The number says how many bytes of its open file were seen; it is 0 if no file is
    /// open.
    Followed(u64),
    /// The name is looked at no more: a call on it failed, or it was missing at the first look and only open files are
    /// followed.
    Left,
}

/// A name that is followed.
#[derive(Drop)]
pub(crate) struct Name {
    text: String,
    standing: Standing,
}

impl Model for Name {
    ghost Value = { NameState };

    ghost view = { λ n. record { text = string_bytes n.text; standing = n.standing } };
}

impl Name {
    /// A name that was not looked at yet.
    ///
    /// # Errors
    ///
    /// `AllocError` if there is no room for it.
    pub(crate) fn new(alloc: Global, text: &str) -> Result<Self, AllocError>
        ensures { IfOk result (λ name. name ≡ record { text = text.now; standing = Standing.New }) }
    {
        Ok(Name {
            text: String::from_str(alloc, text)?,
            standing: Standing::New,
        })
    }

    /// The name itself.
    pub(crate) fn text(&self) -> &str
        ensures { result.now ≡ self.now.text }
    {
        self.text.as_str()
    }

    /// Whether a further look can give something of the name, if it is followed by name or by its open file.
    pub(crate) fn goes_on(&self, by_name: bool) -> bool
        ensures { result ≡ goes_on_as by_name self.now.standing }
    {
        match self.standing {
            Standing::New => by_name,
            Standing::Followed(_) => true,
            Standing::Left => false,
        }
    }

    /// Looks at the name: opens its file at the first look, and writes what came to it, with messages about what
    /// changed or failed. Returns whether the name was missing at the first look, or a call on it failed.
    ///
    /// # Errors
    ///
    /// `Write(0)` if standard output broke. `Memory` if there was none for a header or a line about a change.
    pub(crate) fn visit<W: Watch, O: Outs>(
        &mut self,
        by_name: bool,
        start: Start,
        visitor: &mut Visitor,
        watch: &mut W,
        place: usize,
        outs: &mut O,
    ) -> Result<bool, Fault>
        requires ready { CanVisit self.old (watched_at (W.watched watch.old) place) }
        requires can { CanPrint (O.slots outs.old) }
        ensures visits { Visits (sight W.visible O.visible (W.seen watch.old)) (ways_of by_name start) place self.old
            (moment (W.watched watch.old) visitor.old (O.slots outs.old)) self.new.standing
            (moment (W.watched watch.new) visitor.new (O.slots outs.new)) result }
        ensures same { self.new.text ≡ self.old.text }
        ensures can { CanGoOn (over_in result) (O.slots outs.new) }
        ensures seen { W.seen watch.new ≡ W.seen watch.old }
        ensures shows { W.shows watch.new ≡ W.shows watch.old }
    {
        match self.standing {
            Standing::New => {
                let (text, standing) = (self.text.as_str(), &mut self.standing);
                visitor.first(by_name, start, watch, place, text, standing, outs)
            }
            Standing::Followed(position) => {
                let (text, standing) = (self.text.as_str(), &mut self.standing);
                let len = match visitor.again(by_name, watch, place, text, position, outs) {
                    Ok(len) => len,
                    Err(stop) => return visitor.stop(
                        stop,
                        watch.reason(place),
                        text,
                        standing,
                        outs,
                    ),
                };
                *standing = Standing::Followed(len);
                Ok(false)
            }
            Standing::Left => Ok(false),
        }
    }
}

/// Names that were not looked at yet.
///
/// # Errors
///
/// `Memory` if there is no room for them.
pub(crate) fn new_names(alloc: Global, names: &[&str]) -> Result<Vec<Name>, Fault>
    ensures ok { IfOk result (λ made. made.items ≡ map new_state (map (λ name. name.now) names.now)) }
    ensures err { IfErr result (λ fault. fault ≡ Fault.Memory) }
{
    let mut made = Vec::new(alloc);
    let mut left = names;
    while let [name, rest @ ..] = left {
        made.push(Name::new(alloc, name)?)?;
        left = rest;
    }
    Ok(made)
}

/// Adds the names to the watched names, one after another, and returns the number of the first; 0 if there are none.
///
/// # Errors
///
/// `Memory` if there is none: then the first of the names may have been added.
pub(crate) fn add_all<W: Watch>(names: &[Name], watch: &mut W) -> Result<usize, Fault>
    ensures ok { OnOk result (W.watched watch.new ≡ W.watched watch.old ++ map added (texts names.now)) }
    ensures first { IfOk result (λ first. (0 < length names.now → first ≡ length (W.watched watch.old))
        × (first + length names.now ≤ 2 ^ 64)) }
    ensures err { IfErr result
        (λ fault. (fault ≡ Fault.Memory) × AddsSome (texts names.now) (W.watched watch.old) (W.watched watch.new)) }
    ensures seen { W.seen watch.new ≡ W.seen watch.old }
    ensures shows { W.shows watch.new ≡ W.shows watch.old }
{
    let [head, rest @ ..] = names else {
        return Ok(0);
    };
    let first = watch.add(head.text())?;
    let mut left = rest;
    while let [name, rest @ ..] = left {
        watch.add(name.text())?;
        left = rest;
    }
    Ok(first)
}

/// Looks at all names in order, each at its number in the watch, from the number of the first on. Returns whether a
/// name was missing at the first look, or a call on a name failed.
///
/// # Errors
///
/// `Write(0)` if standard output broke. `Memory` if there was none for a header or a line about a change.
pub(crate) fn visit_all<W: Watch, O: Outs>(
    by_name: bool,
    start: Start,
    names: &mut [Name],
    first: usize,
    visitor: &mut Visitor,
    watch: &mut W,
    outs: &mut O,
) -> Result<bool, Fault>
    requires ready { AllReady names.old first (W.watched watch.old) }
    requires fits { first + length names.old ≤ 2 ^ 64 }
    requires can { CanPrint (O.slots outs.old) }
    ensures visits { VisitsAll (sight W.visible O.visible (W.seen watch.old)) (ways_of by_name start) first
        names.old (moment (W.watched watch.old) visitor.old (O.slots outs.old)) names.new
        (moment (W.watched watch.new) visitor.new (O.slots outs.new)) result }
    ensures seen { W.seen watch.new ≡ W.seen watch.old }
    ensures shows { W.shows watch.new ≡ W.shows watch.old }
{
    let mut has_failed = false;
    let mut place = 0;
    while place < names.len() {
        match names[place].visit(by_name, start, visitor, watch, first + place, outs) {
            Ok(failed) => has_failed |= failed,
            Err(fault) => return Err(fault),
        }
        place += 1;
    }
    Ok(has_failed)
}

/// Whether a further look can give something of one of the names.
pub(crate) fn any_goes_on(names: &[Name], by_name: bool) -> bool
    ensures { result ≡ any_goes_on by_name names.now }
{
    let mut left = names;
    while let [name, rest @ ..] = left {
        if name.goes_on(by_name) {
            return true;
        }
        left = rest;
    }
    false
}
