ghost use Rattle.std.specs.{
  Prelude.{◌≡◌, [], ◌≤◌, ◌<◌, List, length, take, string_bytes, true, IfOk, IfErr, IfSome, IfNone},
};
ghost use Rattle.ports_core.specs.{
  declared.reason.Reason.TheVariants.Other,
  Slot.{Slot, adds, breaks, closes, removes, opened, unopened, with_lost, streams, slot_at, is_removed},
};

use crate::failing::{Cause, fails, planned};
use ports_core::{Fault, Mode, Outs, Reason, Slots, State, Unopened};
use std::alloc::{AllocError, Global};
use std::marker::Model;

/// One output in memory.
#[derive(Drop)]
struct MemSlot {
    name: String,
    mode: Mode,
    bytes: Vec<u8>,
    state: State,
    is_broken: bool,
    /// Why it broke, by its first failure.
    reason: Reason,
}

impl Model for MemSlot {
    ghost Value = { Slot };

    ghost view = { λ s. record {
      name = string_bytes s.name;
      mode = s.mode;
      written = s.bytes.items;
      state = s.state;
      is_broken = s.is_broken;
      reason = s.reason;
    } };
}

impl Unopened for MemSlot {
    ghost unopened = { unopened Other };

    fn unopened(alloc: Global, name: String) -> Self {
        MemSlot {
            name,
            mode: Mode::Fresh,
            bytes: Vec::new(alloc),
            state: State::Unopened,
            is_broken: true,
            reason: Reason::Other,
        }
    }
}

impl MemSlot {
    fn opened(alloc: Global, name: String, mode: Mode) -> Self
        ensures { result ≡ opened (string_bytes name) mode }
    {
        MemSlot {
            name,
            mode,
            bytes: Vec::new(alloc),
            state: State::Open,
            is_broken: false,
            reason: Reason::Other,
        }
    }

    /// A slot whose file couldn't be opened for this reason.
    fn refused(alloc: Global, name: String, why: Reason) -> Self
        ensures { result ≡ unopened why (string_bytes name) }
    {
        let mut slot = MemSlot::unopened(alloc, name);
        slot.reason = why;
        slot
    }

    /// Appends as much of the piece as there is room for, and returns how many bytes that is. None if it has bytes and none fits, or if
    /// there is no memory: the slot breaks for this reason.
    fn append(&mut self, piece: &[u8], room: usize, why: Reason) -> Option<usize>
        ensures within { IfSome result (λ n. n ≤ length piece.now) }
        ensures some { IfSome result (λ n. 0 < length piece.now → 0 < n) }
        ensures added { IfSome result (λ n. self.new ≡ adds (take n piece.now) self.old) }
        ensures broke { IfNone result (self.new ≡ breaks why self.old) }
    {
        let taken = piece.len().min(room);
        let fits = taken > 0 || piece.is_empty();
        if fits && self.bytes.extend_from_slice(&piece[..taken]).is_ok() {
            return Some(taken);
        }
        self.break_off(why);
        None
    }

    fn close(&mut self)
        ensures { self.new ≡ closes self.old }
    {
        self.state = State::Closed;
    }

    fn break_off(&mut self, why: Reason)
        ensures { self.new ≡ breaks why self.old }
    {
        if !self.is_broken {
            self.reason = why;
        }
        self.is_broken = true;
    }

    /// Closes the output by a close or a removal that fails.
    fn close_broken(&mut self, why: Reason)
        ensures { self.new ≡ breaks why (closes self.old) }
    {
        self.close();
        self.break_off(why);
    }

    fn remove(&mut self)
        ensures { self.new ≡ removes self.old }
    {
        self.state = State::Removed;
    }
}

/// How many bytes an output takes in all.
#[derive(Clone, Copy)]
struct Limit {
    slot: usize,
    bytes: usize,
}

/// Outputs in memory, with visible bytes. An output for which no memory is found breaks. For tests, an output can be given a limit at which
/// it breaks, writes can be made short, and a call can be made to fail.
#[derive(Drop)]
pub struct MemOut {
    alloc: Global,
    slots: Slots<MemSlot>,
    limits: Vec<Limit>,
    causes: Vec<Cause>,
    /// The most bytes that a write takes.
    most: usize,
    /// The number of calls from now to the call that fails, which is counted too. None if no call is to fail.
    failing_in: Option<u64>,
    /// The number of calls of `still_read` from now to the call that finds no reader.
    unread_in: Option<u64>,
}

impl Model for MemOut {
    ghost Value = { List Slot };

    ghost view = { λ m. with_lost (unopened Other []) m.slots.kept.items m.slots.lost };
}

impl MemOut {
    /// Standard output and standard error, both empty.
    ///
    /// # Errors
    ///
    /// `Memory` if there is no room for them.
    pub fn new(alloc: Global) -> Result<Self, Fault>
        ensures ok { IfOk result (λ outs. outs ≡ streams) }
        ensures err { IfErr result (λ fault. fault ≡ Fault.Memory) }
    {
        Ok(MemOut {
            alloc,
            slots: Slots {
                kept: standard_streams(alloc)?,
                lost: 0,
            },
            limits: Vec::new(alloc),
            causes: Vec::new(alloc),
            most: usize::MAX,
            failing_in: None,
            unread_in: None,
        })
    }

    /// Lets an output, opened already or later, take this many bytes in all. The first write beyond them breaks it. If there are several
    /// limits for one output, the first counts.
    ///
    /// # Errors
    ///
    /// `Memory` if there is no room to note the limit: nothing is changed.
    pub fn limit(&mut self, slot: usize, bytes: usize) -> Result<(), Fault>
        ensures same { self.new ≡ self.old }
        ensures err { IfErr result (λ fault. fault ≡ Fault.Memory) }
    {
        Ok(self.limits.push(Limit { slot, bytes })?)
    }

    /// Says why an output breaks, opened already or later, if it does. If there are several reasons for one output, the first counts. An
    /// output that broke already keeps its reason.
    ///
    /// # Errors
    ///
    /// `Memory` if there is no room to note the reason: nothing is changed.
    pub fn breaks_as(&mut self, slot: usize, why: Reason) -> Result<(), Fault>
        ensures same { self.new ≡ self.old }
        ensures err { IfErr result (λ fault. fault ≡ Fault.Memory) }
    {
        Ok(self.causes.push(Cause { slot, why })?)
    }

    /// Limits each write to `n` bytes.
    pub fn short(&mut self, n: usize)
        requires { 0 < n }
        ensures { self.new ≡ self.old }
    {
        self.most = n;
    }

    /// Makes one of the calls of `open`, `write`, `close` and `remove` fail, counted from here on; the next call has
    /// the number 1.
    pub fn fail_at(&mut self, call: u64)
        ensures { self.new ≡ self.old }
    {
        self.failing_in = Some(call);
    }

    /// Makes one of the calls of `still_read` find that nobody reads the output, counted from here on; the next call has the number 1. All
    /// others find a reader.
    pub fn unread_at(&mut self, call: u64)
        ensures { self.new ≡ self.old }
    {
        self.unread_in = Some(call);
    }

    /// Whether the file of an output was removed; false if there is no output of that number.
    pub fn removed(&self, slot: usize) -> bool
        ensures { result ≡ is_removed (slot_at self.now slot).state }
    {
        match self.slots.kept.get(slot) {
            Some(out) => match out.state {
                State::Removed => true,
                State::Open | State::Closed | State::Unopened => false,
            },
            None => false,
        }
    }

    /// The bytes written through an output; none if there is no output of that number.
    pub fn bytes(&self, slot: usize) -> &[u8]
        ensures { result.now ≡ (slot_at self.now slot).written }
    {
        match self.slots.kept.get(slot) {
            Some(out) => out.bytes.as_slice(),
            None => &[],
        }
    }
}

fn standard_streams(alloc: Global) -> Result<Vec<MemSlot>, AllocError>
    ensures { IfOk result (λ slots. slots.items ≡ streams) }
{
    let mut slots = Vec::new(alloc);
    let output = String::from_str(alloc, "standard output")?;
    let error = String::from_str(alloc, "standard error")?;
    slots.push(MemSlot::opened(alloc, output, Mode::Append))?;
    slots.push(MemSlot::opened(alloc, error, Mode::Append))?;
    Ok(slots)
}

/// How many bytes an output that holds some already still takes, by the first limit that was set for it.
fn room(limits: &[Limit], slot: usize, held: usize) -> usize {
    for limit in limits {
        if limit.slot == slot {
            return limit.bytes.saturating_sub(held);
        }
    }
    usize::MAX
}

impl Outs for MemOut {
    ghost slots = { λ outs. outs };

    ghost visible = { true };

    fn open(&mut self, name: &str, mode: Mode) -> Result<usize, Fault> {
        let Some(slot) = self.slots.next(0) else {
            return Err(Fault::Memory);
        };
        let Some(copy) = self.slots.room_for(self.alloc, name) else {
            return Err(Fault::Open(slot));
        };
        if fails(&mut self.failing_in) {
            let why = planned(&self.causes, slot);
            self.slots.keep(MemSlot::refused(self.alloc, copy, why));
            return Err(Fault::Open(slot));
        }
        if self.slots.keep(MemSlot::opened(self.alloc, copy, mode)) {
            return Ok(slot);
        }
        Err(Fault::Open(slot))
    }

    fn write(&mut self, slot: usize, piece: &[u8]) -> Result<usize, Fault> {
        let why = planned(&self.causes, slot);
        let out = &mut self.slots.kept[slot];
        if fails(&mut self.failing_in) {
            out.break_off(why);
            return Err(Fault::Write(slot));
        }
        let room = room(&self.limits, slot, out.bytes.len()).min(self.most);
        let Some(taken) = out.append(piece, room, why) else {
            return Err(Fault::Write(slot));
        };
        Ok(taken)
    }

    fn still_read(&mut self, slot: usize) -> Result<(), Fault> {
        if fails(&mut self.unread_in) {
            self.slots.kept[slot].break_off(Reason::Gone);
            return Err(Fault::Write(slot));
        }
        Ok(())
    }

    fn close(&mut self, slot: usize) -> Result<(), Fault> {
        let why = planned(&self.causes, slot);
        let out = &mut self.slots.kept[slot];
        if fails(&mut self.failing_in) {
            out.close_broken(why);
            return Err(Fault::Write(slot));
        }
        out.close();
        Ok(())
    }

    fn remove(&mut self, slot: usize) -> Result<(), Fault> {
        let why = planned(&self.causes, slot);
        let out = &mut self.slots.kept[slot];
        if fails(&mut self.failing_in) {
            out.close_broken(why);
            return Err(Fault::Write(slot));
        }
        out.remove();
        Ok(())
    }

    fn broken(&self, slot: usize) -> bool {
        match self.slots.kept.get(slot) {
            Some(out) => out.is_broken,
            None => slot - self.slots.kept.len() < self.slots.lost,
        }
    }

    /// The reason that was planned by `breaks_as`, once it broke; `Other` of a slot for which there was no memory.
    fn reason(&self, slot: usize) -> Reason {
        match self.slots.kept.get(slot) {
            Some(out) => out.reason,
            None => Reason::Other,
        }
    }

    fn name(&self, slot: usize) -> &str {
        match self.slots.kept.get(slot) {
            Some(out) => out.name.as_str(),
            None => "",
        }
    }
}
