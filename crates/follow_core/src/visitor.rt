//! A look at one name: what came to its file is written, and what changed or failed is told.
ghost use Rattle.std.specs.{
  Prelude.{◌≡◌, ◌≤◌, ◌<◌, ◌∷◌, [], ℕ, List, Bool, true, false, length, nat_lt, option_map, if◌then◌else◌, IsTrue, IfOk},
  Prelude.{IfErr, Some},
};
ghost use Rattle.ports_core.specs.Slot.{is_open, is_writable, slot_at};
ghost use Rattle.watch_core.specs.{Snapshot.latest, Watched.{Watched, is_readable, is_watchable, watched_at}};
ghost use Rattle.follow_core.specs.{
  Event.{change_between, due_from, notes, notes_past},
  Printing.{PrinterState, fresh_printer},
  inner.{
    Giving.{Adds, Are, CanGoOn, Copies, Yields, HoldsMany, Leads, LooksAgain, Starts, moment, over_in, sight, stop_in},
    Visits.{SaysFailed, TellsStop, Visits},
  },
  Sharing.CanPrint,
  FollowState.new_state,
  Look.{start_part, is_sought, sound, ways_of},
};

use crate::name::Standing;
use crate::notice::{Notice, notice_line};
use crate::printer::Printer;
use crate::start::Start;
use crate::title::title;
use ports_core::{Calling, Fault, Outs, PIECE, Reason, Speaker, Tool, print, say};
use std::alloc::Global;
use std::marker::Model;
use watch_core::{Seen, Watch};

/// What stops a name, or all of them.
pub(crate) enum Stop {
    /// A call on the name failed: it is dropped.
    Broke(Fault),
    /// Standard output broke, or memory was wanting: following ends.
    Over(Fault),
}

/// What all looks at names share: standard output with its headers, and the one buffer.
#[derive(Drop)]
pub(crate) struct Visitor {
    alloc: Global,
    printer: Printer,
    buffer: Vec<u8>,
}

impl Model for Visitor {
    ghost Value = { PrinterState };

    ghost view = { λ v. v.printer };

    ghost invariant = { λ v. 0 < length v.buffer.items };
}

impl Visitor {
    /// A visitor that has written nothing yet, with a buffer of 65,536 bytes.
    ///
    /// # Errors
    ///
    /// `Memory` where there is no room for the buffer.
    pub(crate) fn new(alloc: Global, calling: Calling, headers: bool) -> Result<Self, Fault>
        ensures ok { IfOk result (λ visitor. visitor ≡ fresh_printer calling headers) }
        ensures err { IfErr result (λ fault. fault ≡ Fault.Memory) }
    {
        Ok(Visitor {
            alloc,
            printer: Printer::new(alloc, calling, headers),
            buffer: vec![in alloc; 0u8; PIECE]?,
        })
    }

    /// Looks at a name for the first time: opens the file that it leads to, and writes its header, where headers are written, and the
    /// part of it that the first look writes. Tells where it leads nowhere, or where a call on it fails; a message that can't be written
    /// is passed over. Keeps how the name stands then, and returns whether it was missing, or a call on it failed.
    ///
    /// # Errors
    ///
    /// `Write(0)` where standard output broke, `Memory` where there was none for a header.
    pub(crate) fn first<W: Watch, O: Outs>(
        &mut self,
        by_name: bool,
        start: Start,
        watch: &mut W,
        place: usize,
        name: &str,
        standing: &mut Standing,
        outs: &mut O,
    ) -> Result<bool, Fault>
        requires watchable { IsTrue (is_watchable (W.watched watch.old) place) }
        requires name { (watched_at (W.watched watch.old) place).name ≡ name.now }
        requires can { CanPrint (O.slots outs.old) }
        ensures visits { Visits (sight W.visible O.visible (W.seen watch.old)) (ways_of by_name start) place
            (new_state name.now) (moment (W.watched watch.old) self.old (O.slots outs.old)) standing.new
            (moment (W.watched watch.new) self.new (O.slots outs.new)) result }
        ensures can { CanGoOn (over_in result) (O.slots outs.new) }
        ensures seen { W.seen watch.new ≡ W.seen watch.old }
        ensures shows { W.shows watch.new ≡ W.shows watch.old }
    {
        match watch.reopen(place) {
            Ok(true) => {}
            Ok(false) => {
                self.say_failure(&Fault::Open(place), watch.reason(place), name, outs);
                *standing = if by_name {
                    Standing::Followed(0)
                } else {
                    Standing::Left
                };
                return Ok(true);
            }
            Err(fault) => {
                let why = watch.reason(place);
                return self.stop(Stop::Broke(fault), why, name, standing, outs);
            }
        }
        if let Err(fault) = self.printer.put(true, name, b"", outs) {
            return Err(fault);
        }
        match self.write_start(start, watch, place, name, outs) {
            Ok(len) => {
                *standing = Standing::Followed(len);
                Ok(false)
            }
            Err(stop) => self.stop(stop, watch.reason(place), name, standing, outs),
        }
    }

    /// Writes the part of the open file that the first look writes. Returns how long the file is.
    ///
    /// # Errors
    ///
    /// `Broke` where asking for its length or reading it failed, `Over` where standard output broke or memory was wanting.
    fn write_start<W: Watch, O: Outs>(
        &mut self,
        start: Start,
        watch: &mut W,
        place: usize,
        name: &str,
        outs: &mut O,
    ) -> Result<u64, Stop>
        requires readable { IsTrue (is_readable (W.watched watch.old) place) }
        requires can { CanPrint (O.slots outs.old) }
        ensures starts { Starts (sight W.visible O.visible (W.seen watch.old)) (is_sought start.unit) (start_part start)
            place name.now (moment (W.watched watch.old) self.old (O.slots outs.old))
            (moment (W.watched watch.new) self.new (O.slots outs.new)) (stop_in result) }
        ensures long { IfOk result
            (HoldsMany W.visible (latest (W.seen watch.old)) (watched_at (W.watched watch.old) place)) }
        ensures can { CanGoOn (stop_in result) (O.slots outs.new) }
        ensures seen { W.seen watch.new ≡ W.seen watch.old }
        ensures shows { W.shows watch.new ≡ W.shows watch.old }
    {
        let len = match watch.open_len(place) {
            Ok(len) => len,
            Err(fault) => return Err(Stop::Broke(fault)),
        };
        let begin = match start.find(watch, place, len, &mut self.buffer) {
            Ok(begin) => begin,
            Err(fault) => return Err(Stop::Broke(fault)),
        };
        copy(
            watch,
            place,
            name,
            begin,
            len,
            &mut self.printer,
            &mut self.buffer,
            outs,
        )
    }

    /// Looks again at a name of whose open file `position` bytes were seen: writes what came to the file, and follows the name to where
    /// it leads, if names are followed. Returns how much of the file that is open then was seen.
    ///
    /// # Errors
    ///
    /// `Broke` where a call on the name failed, `Over` where standard output broke or memory was wanting.
    pub(crate) fn again<W: Watch, O: Outs>(
        &mut self,
        by_name: bool,
        watch: &mut W,
        place: usize,
        name: &str,
        position: u64,
        outs: &mut O,
    ) -> Result<u64, Stop>
        requires watchable { IsTrue (is_watchable (W.watched watch.old) place) }
        requires name { (watched_at (W.watched watch.old) place).name ≡ name.now }
        requires can { CanPrint (O.slots outs.old) }
        ensures looks { LooksAgain (sight W.visible O.visible (W.seen watch.old)) by_name place name.now position
            (moment (W.watched watch.old) self.old (O.slots outs.old))
            (moment (W.watched watch.new) self.new (O.slots outs.new)) result }
        ensures can { CanGoOn (stop_in result) (O.slots outs.new) }
        ensures seen { W.seen watch.new ≡ W.seen watch.old }
        ensures shows { W.shows watch.new ≡ W.shows watch.old }
    {
        let len = match self.catch_up(watch, place, name, position, outs) {
            Ok(len) => len,
            Err(stop) => return Err(stop),
        };
        if !by_name {
            return Ok(len);
        }
        self.follow_name(watch, place, name, len, outs)
    }

    /// Follows a name to where it leads: where that is another file than the open one, tells so, opens it and writes all of it.
    /// Returns how much of the open file was seen then, where this much was seen before.
    ///
    /// # Errors
    ///
    /// `Broke` where a call on the name failed, `Over` where standard output broke or memory was wanting.
    fn follow_name<W: Watch, O: Outs>(
        &mut self,
        watch: &mut W,
        place: usize,
        name: &str,
        position: u64,
        outs: &mut O,
    ) -> Result<u64, Stop>
        requires watchable { IsTrue (is_watchable (W.watched watch.old) place) }
        requires name { (watched_at (W.watched watch.old) place).name ≡ name.now }
        requires can { CanPrint (O.slots outs.old) }
        ensures leads { Leads (sight W.visible O.visible (W.seen watch.old)) true place name.now position
            (moment (W.watched watch.old) self.old (O.slots outs.old))
            (moment (W.watched watch.new) self.new (O.slots outs.new)) result }
        ensures can { CanGoOn (stop_in result) (O.slots outs.new) }
        ensures seen { W.seen watch.new ≡ W.seen watch.old }
        ensures shows { W.shows watch.new ≡ W.shows watch.old }
    {
        let found = match watch.look(place) {
            Ok(found) => found,
            Err(fault) => return Err(Stop::Broke(fault)),
        };
        let Some(change) = change_of(watch.open_id(place), found) else {
            return Ok(position);
        };
        if let Err(fault) = tell(self.alloc, change, name, outs) {
            return Err(Stop::Over(fault));
        }
        if let Err(fault) = watch.reopen(place) {
            return Err(Stop::Broke(fault));
        }
        self.catch_up(watch, place, name, 0, outs)
    }

    /// Writes what the open file of a name has past a position, where one is open; all of it, with a line that tells so, where it is
    /// shorter. Returns how long it is.
    ///
    /// # Errors
    ///
    /// `Broke` where asking for its length or reading it failed, `Over` where standard output broke or memory was wanting.
    fn catch_up<W: Watch, O: Outs>(
        &mut self,
        watch: &mut W,
        place: usize,
        name: &str,
        position: u64,
        outs: &mut O,
    ) -> Result<u64, Stop>
        requires watchable { IsTrue (is_watchable (W.watched watch.old) place) }
        requires can { CanPrint (O.slots outs.old) }
        ensures adds { Adds (sight W.visible O.visible (W.seen watch.old)) place name.now position
            (moment (W.watched watch.old) self.old (O.slots outs.old))
            (moment (W.watched watch.new) self.new (O.slots outs.new)) result }
        ensures can { CanGoOn (stop_in result) (O.slots outs.new) }
        ensures seen { W.seen watch.new ≡ W.seen watch.old }
        ensures shows { W.shows watch.new ≡ W.shows watch.old }
    {
        let Some(_) = watch.open_id(place) else {
            return Ok(position);
        };
        let len = match watch.open_len(place) {
            Ok(len) => len,
            Err(fault) => return Err(Stop::Broke(fault)),
        };
        let from = match begin_at(self.alloc, name, position, len, outs) {
            Ok(from) => from,
            Err(fault) => return Err(Stop::Over(fault)),
        };
        copy(
            watch,
            place,
            name,
            from,
            len,
            &mut self.printer,
            &mut self.buffer,
            outs,
        )
    }

    /// Tells that a call on a name failed, for this reason, which is dropped then. A message that can't be written is passed over.
    ///
    /// # Errors
    ///
    /// The fault that ends following, which is handed on.
    pub(crate) fn stop<O: Outs>(
        &self,
        stop: Stop,
        why: Reason,
        name: &str,
        standing: &mut Standing,
        outs: &mut O,
    ) -> Result<bool, Fault>
        requires can { CanGoOn (Some stop) (O.slots outs.old) }
        ensures tells { TellsStop (SaysFailed O.visible self.now.calling name.now why) (O.slots outs.old) standing.new
            (O.slots outs.new) stop result }
        ensures can { CanGoOn (over_in result) (O.slots outs.new) }
    {
        match stop {
            Stop::Broke(fault) => {
                self.say_failure(&fault, why, name, outs);
                *standing = Standing::Left;
                Ok(true)
            }
            Stop::Over(fault) => Err(fault),
        }
    }

    /// Tells that a call on a name failed, and why, if `tail` was called by its own name.
    fn say_failure<O: Outs>(&self, fault: &Fault, why: Reason, name: &str, outs: &mut O)
        requires { is_open (slot_at (O.slots outs.old) 1).state ≡ true }
        ensures { SaysFailed O.visible self.now.calling name.now why fault.now (O.slots outs.old) (O.slots outs.new) }
    {
        let speaker = Speaker {
            calling: self.printer.calling(),
            tool: Tool::Tail,
        };
        say(self.alloc, speaker, why, fault, title(name), outs);
    }
}

/// Writes the open file's bytes from a place to another, or to where a read gives none, by way of the buffer. Returns the other place.
///
/// # Errors
///
/// `Broke` where a read failed, `Over` where standard output broke or memory was wanting.
fn copy<W: Watch, O: Outs>(
    watch: &mut W,
    place: usize,
    name: &str,
    from: u64,
    len: u64,
    printer: &mut Printer,
    buffer: &mut [u8],
    outs: &mut O,
) -> Result<u64, Stop>
    requires readable { IsTrue (is_readable (W.watched watch.old) place) }
    requires writable { IsTrue (is_writable (O.slots outs.old) 0) }
    requires within { from ≤ len }
    requires room { 0 < length buffer.old }
    ensures copies { Copies (sight W.visible O.visible (W.seen watch.old)) from place name.now len
        (moment (W.watched watch.old) printer.old (O.slots outs.old))
        (moment (W.watched watch.new) printer.new (O.slots outs.new)) (stop_in result) }
    ensures len { IfOk result (λ n. n ≡ len) }
    ensures seen { W.seen watch.new ≡ W.seen watch.old }
    ensures shows { W.shows watch.new ≡ W.shows watch.old }
{
    let mut at = from;
    while at < len {
        let room = (len - at).min(buffer.len() as u64) as usize;
        match watch.read_at(place, at, &mut buffer[..room]) {
            Ok(0) => return Ok(len),
            Ok(n) => {
                match printer.put(false, name, &buffer[..n], outs) {
                    Ok(()) => at += n as u64,
                    Err(fault) => return Err(Stop::Over(fault)),
                }
            }
            Err(fault) => return Err(Stop::Broke(fault)),
        }
    }
    Ok(len)
}

/// The place from which a file of `len` bytes is to be written: the position, or 0 where the file is shorter than that. Then it is told
/// that it was truncated.
///
/// # Errors
///
/// `Memory` where there was none for the line that tells it.
fn begin_at<O: Outs>(
    alloc: Global,
    name: &str,
    position: u64,
    len: u64,
    outs: &mut O,
) -> Result<u64, Fault>
    requires can { CanPrint (O.slots outs.old) }
    ensures ends { (watched : List Watched) (printer : PrinterState)
        → Yields O.visible (Are (notes_past position len)) sound false name.now
        (moment watched printer (O.slots outs.old))
        (moment watched printer (O.slots outs.new)) (over_in result) }
    ensures from { IfOk result (λ from. from ≡ due_from position len) }
    ensures can { CanGoOn (over_in result) (O.slots outs.new) }
{
    if len >= position {
        return Ok(position);
    }
    match tell(alloc, Notice::Truncated, name, outs) {
        Ok(()) => Ok(0),
        Err(fault) => Err(fault),
    }
}

/// Tells on standard error what a look found of a name.
///
/// # Errors
///
/// `Memory` where there was none for the line.
fn tell<O: Outs>(alloc: Global, found: Notice, name: &str, outs: &mut O) -> Result<(), Fault>
    requires can { CanPrint (O.slots outs.old) }
    ensures ends { (watched : List Watched) (printer : PrinterState)
        → Yields O.visible (Are (notes found ∷ [])) sound false name.now (moment watched printer (O.slots outs.old))
        (moment watched printer (O.slots outs.new)) (over_in result) }
    ensures can { CanGoOn (over_in result) (O.slots outs.new) }
{
    match notice_line(alloc, found, name) {
        Ok(line) => {
            print(&line, outs);
            Ok(())
        }
        Err(memory) => Err(memory),
    }
}

/// What a look finds, where a file of this identity is open, and the name leads to that one.
fn change_of(opened: Option<u128>, found: Option<Seen>) -> Option<Notice>
    ensures { result ≡ change_between opened (option_map (λ file. file.id) found) }
{
    match (opened, found) {
        (None, None) => None,
        (Some(_), None) => Some(Notice::Inaccessible),
        (None, Some(_)) => Some(Notice::Appeared),
        (Some(id), Some(file)) => {
            if file.id == id {
                None
            } else {
                Some(Notice::Replaced)
            }
        }
    }
}
