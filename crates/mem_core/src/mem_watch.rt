ghost use Rattle.std.specs.{
  Prelude.{◌≡◌, ◌<◌, ◌≤◌, ◌^◌, ◌∷◌, ◌++◌, [], map, length, true, false, string_bytes, IfOk, IfErr, OnOk, IfSome},
  Prelude.{IsTrue, None, Some, is_some, option_map},
};
ghost use Rattle.watch_core.specs.{
  Edits.empty_world,
  Snapshot.{latest, or_else},
  Watched.{GaveFrom, Watched, added, breaks, file_seen, is_readable, is_watchable, open_contents, opens, watched_at},
};
ghost use Rattle.mem_core.specs.{
  inner.Leading.{CanFail, fails_by, forgiven, led_at},
  MemWatchState.{MemWatchState, edit_of, is_fed, no_looks, seen, shows, with_look, world_at},
};
ghost use Rattle.ports_core.specs.Slot.{changed_at};

use crate::Edit;
use crate::failing::fails;
use crate::mem_world::MemWorld;
use ports_core::{Fault, Reason, STANDARD_INPUT};
use std::alloc::{AllocError, Global};
use std::marker::Model;
use watch_core::{Broken, Seen, Watch};

/// Where names lead.
#[derive(Clone, Copy)]
enum Leading {
    /// Where the files say.
    Plain,
    /// Nowhere, if they can't be read.
    Forgiving,
    /// To the first file to which they led at any look, when they could be read. Calls on that file may fail.
    Clinging,
    /// The same, and no call fails.
    Keeping,
}

impl Leading {
    /// The same, except that a name that can't be read leads nowhere, and no call fails.
    fn forgiven(self) -> Leading
        ensures { result ≡ forgiven self }
    {
        match self {
            Leading::Plain | Leading::Forgiving => Leading::Forgiving,
            Leading::Clinging | Leading::Keeping => Leading::Keeping,
        }
    }

    /// Whether a look of a name and its opening fail, where that was asked for or the name can't be read.
    fn is_plain(self) -> bool
        ensures { IsTrue result → fails_by self ≡ true }
    {
        matches!(self, Leading::Plain)
    }

    /// Whether a call on an open file fails, where that was asked for.
    fn fails(self) -> bool
        ensures { IsTrue result → fails_by self ≡ true }
    {
        match self {
            Leading::Plain | Leading::Clinging => true,
            Leading::Forgiving | Leading::Keeping => false,
        }
    }
}

/// What becomes of names that can't be read or lead nowhere.
#[derive(Clone, Copy)]
struct Manner {
    /// Where they lead.
    leading: Leading,
    /// A call on a name that leads nowhere fails.
    insists: bool,
    /// Why calls fail that do, and why a name is missing that can't be read.
    why: Reason,
}

/// A name that is watched in memory.
#[derive(Drop)]
struct MemName {
    name: String,
    opened: Option<usize>,
    /// The call by which it broke.
    failed: Option<Broken>,
    /// Why that failed.
    reason: Reason,
}

impl Model for MemName {
    ghost Value = { Watched };

    ghost view = { λ n. record {
      name = string_bytes n.name;
      opened = n.opened;
      failed = n.failed;
      reason = n.reason;
    } };
}

impl MemName {
    fn new(alloc: Global, name: &str) -> Result<Self, AllocError>
        ensures { IfOk result (λ watched. watched ≡ added name.now) }
    {
        Ok(MemName {
            name: String::from_str(alloc, name)?,
            opened: None,
            failed: None,
            reason: Reason::Other,
        })
    }

    /// The identity of the open file.
    fn id(&self) -> Option<u128>
        ensures { result ≡ self.now.opened }
    {
        match self.opened {
            Some(file) => Some(file as u128),
            None => None,
        }
    }

    /// Makes a file the open one, or none, and returns whether there is one.
    fn open(&mut self, file: Option<usize>) -> bool
        ensures opened { self.new ≡ opens file self.old }
        ensures found { result ≡ is_some file }
    {
        self.opened = file;
        file.is_some()
    }

    fn break_off(&mut self, how: Broken, why: Reason)
        ensures { self.new ≡ breaks why (λ file. how) self.old }
    {
        self.opened = None;
        self.failed = Some(how);
        self.reason = why;
    }
}

/// Files in memory, with visible bytes, whose changes are planned look by look. For tests, a call can be made to fail, unless it forgives.
/// If it clings, that is a call on an open file. If it does neither, a look at a name that is barred fails, and so does opening it. It
/// keeps the files of each look, and takes memory for all of them. Standard input is a file if the name `-` leads to one at the first look.
#[derive(Drop)]
pub struct MemWatch {
    alloc: Global,
    /// The files before the first look, and then at each look that was planned.
    worlds: Vec<MemWorld>,
    /// How many looks began.
    turns: usize,
    names: Vec<MemName>,
    /// The number of calls from now to the call that fails, which is counted too. None if no call is to fail.
    failing_in: Option<u64>,
    /// What becomes of names that can't be read or lead nowhere.
    manner: Manner,
    /// Within how many milliseconds a look begins, as it was asked for.
    within: u64,
}

impl Model for MemWatch {
    ghost Value = { MemWatchState };

    ghost view = { λ w. record {
      worlds = w.worlds.items;
      turns = w.turns;
      watched = w.names.items;
      manner = w.manner;
      within = w.within;
    } };

    ghost invariant = { λ w. (w.turns < length w.worlds.items) × (world_at w.worlds.items 0 ≡ empty_world) };
}

impl MemWatch {
    /// No file, no name and no look.
    ///
    /// # Errors
    ///
    /// `Memory` if there is no room for it.
    pub fn new(alloc: Global) -> Result<Self, Fault>
        ensures ok { IfOk result (λ watch. watch ≡ no_looks) }
        ensures err { IfErr result (λ fault. fault ≡ Fault.Memory) }
    {
        let mut worlds = Vec::new(alloc);
        if worlds.push(MemWorld::empty(alloc)).is_err() {
            return Err(Fault::Memory);
        }
        Ok(MemWatch {
            alloc,
            worlds,
            turns: 0,
            names: Vec::new(alloc),
            failing_in: None,
            manner: Manner {
                leading: Leading::Plain,
                insists: false,
                why: Reason::Other,
            },
            within: 1000,
        })
    }

    /// Plans one more look. Before it these edits are made in order, after the edits for earlier looks. Looks after the last planned look
    /// see no change.
    ///
    /// # Errors
    ///
    /// `Memory` if there is no room for it: nothing is changed.
    pub fn then(&mut self, edits: &[Edit<'_>]) -> Result<(), Fault>
        ensures ok { OnOk result (self.new ≡ with_look (map edit_of edits.now) self.old) }
        ensures err { IfErr result (λ fault. (fault ≡ Fault.Memory) × (self.new ≡ self.old)) }
    {
        let mut world = copy_last(self.alloc, &self.worlds)?;
        world.edit_all(self.alloc, edits)?;
        if keep(&mut self.worlds, world) {
            return Ok(());
        }
        Err(Fault::Memory)
    }

    /// What the open file of a name holds.
    fn open_bytes(&self, place: usize) -> &[u8]
        requires { IsTrue (is_readable self.now.watched place) }
        ensures { result.now ≡ open_contents (latest (seen self.now)) (watched_at self.now.watched place) }
    {
        match self.names[place].opened {
            Some(file) => world_in(&self.worlds, self.turns).bytes(file),
            None => &[],
        }
    }

    /// The file to which the last look finds a name to lead.
    fn led(&self, place: usize) -> Option<usize>
        requires { IsTrue (is_watchable self.now.watched place) }
        ensures { result ≡ (latest (seen self.now)).leads (watched_at self.now.watched place).name }
    {
        let name = self.names[place].name.as_str();
        led_in(self.manner.leading, &self.worlds, self.turns, name)
    }

    /// A file as the last look tells it.
    fn seen_of(&self, file: Option<usize>) -> Option<Seen>
        ensures tells { result ≡ option_map (file_seen (latest (seen self.now))) file }
        ensures bound { IfSome result (λ file. file.len < 2 ^ 63) }
    {
        match file {
            Some(file) => Some(Seen {
                id: file as u128,
                len: world_in(&self.worlds, self.turns).bytes(file).len() as u64,
            }),
            None => None,
        }
    }

    /// Breaks a name off by this call, for the reason that is planned.
    fn break_off(&mut self, place: usize, how: Broken)
        requires { IsTrue (is_watchable self.old.watched place) }
        ensures { self.new ≡ record self.old {
          watched = changed_at place (breaks self.old.manner.why (λ file. how)) self.old.watched;
        } }
    {
        let why = self.manner.why;
        self.names[place].break_off(how, why);
    }

    /// The same for another reason.
    fn break_for(&mut self, place: usize, how: Broken, why: Reason)
        requires { IsTrue (is_watchable self.old.watched place) }
        ensures { self.new ≡ record self.old {
          watched = changed_at place (breaks why (λ file. how)) self.old.watched;
        } }
    {
        self.names[place].break_off(how, why);
    }

    /// Plans why calls on names fail that do, and why a name is missing that can't be read.
    pub fn fail_for(&mut self, why: Reason)
        ensures { self.new ≡ record self.old { manner = record self.old.manner { why = why } } }
    {
        self.manner.why = why;
    }

    /// Whether a call on an open file fails now, since that was asked for.
    fn fails(&mut self) -> bool
        ensures same { self.new ≡ self.old }
        ensures can { IsTrue result → fails_by self.old.manner.leading ≡ true }
    {
        if !self.manner.leading.fails() {
            return false;
        }
        fails(&mut self.failing_in)
    }

    /// Whether a call that looks where a name leads, or opens it, fails now: also if the name can't be read. Neither fails if it forgives
    /// or clings.
    fn refuses(&mut self, place: usize) -> bool
        requires { IsTrue (is_watchable self.old.watched place) }
        ensures same { self.new ≡ self.old }
        ensures can { IsTrue result → fails_by self.old.manner.leading ≡ true }
    {
        if !self.manner.leading.is_plain() {
            return false;
        }
        if self.fails() {
            return true;
        }
        world_in(&self.worlds, self.turns).is_barred(self.names[place].name.as_str())
    }

    /// Why such a call fails, if it does: also if the name leads nowhere, which `is_there` says, and that is to fail.
    fn refusal(&mut self, place: usize, is_there: bool) -> Option<Reason>
        requires { IsTrue (is_watchable self.old.watched place) }
        ensures same { self.new ≡ self.old }
        ensures fails { is_some result ≡ true → CanFail self.old.manner }
        ensures there { is_some result ≡ false → self.old.manner.insists ≡ true → is_there ≡ true }
    {
        if self.refuses(place) {
            return Some(self.manner.why);
        }
        if self.manner.insists && !is_there {
            return Some(Reason::Missing);
        }
        None
    }

    /// Makes one of the calls of `look`, `reopen`, `open_len` and `read_at` fail, counted from here on; the next call has the
    /// number 1. Where it clings, `open_len` and `read_at` alone count.
    pub fn fail_at(&mut self, call: u64)
        ensures { self.new ≡ self.old }
    {
        self.failing_in = Some(call);
    }
}

/// The file to which the last of so many looks finds a name to lead.
fn led_in(leading: Leading, worlds: &[MemWorld], looks: usize, name: &str) -> Option<usize>
    requires { looks < length worlds.now }
    ensures { result ≡ led_at leading worlds.now looks name.now }
{
    match leading {
        Leading::Plain => world_in(worlds, looks).leads(name, false),
        Leading::Forgiving => world_in(worlds, looks).leads(name, true),
        Leading::Clinging | Leading::Keeping => first_led(worlds, looks, name),
    }
}

/// The first file to which a name led at one of so many looks, when it could be read.
fn first_led(worlds: &[MemWorld], looks: usize, name: &str) -> Option<usize>
    requires { looks < length worlds.now }
    ensures { result ≡ led_at Leading.Clinging worlds.now looks name.now }
{
    let mut found = None;
    let mut look = 0;
    while look < looks {
        look += 1;
        found = first_of(found, world_in(worlds, look).leads(name, true));
    }
    found
}

/// The first of two files, or the one that is there.
fn first_of(first: Option<usize>, second: Option<usize>) -> Option<usize>
    ensures { result ≡ or_else first second }
{
    match first {
        Some(file) => Some(file),
        None => second,
    }
}

/// Fills a beginning of the buffer with the bytes from a place on, and returns how many there are.
fn read_from(bytes: &[u8], from: u64, buffer: &mut [u8]) -> usize
    ensures gave { GaveFrom bytes.now from buffer.old buffer.new result }
    ensures bound { result ≤ length buffer.old }
{
    if from >= bytes.len() as u64 {
        return 0;
    }
    let left = &bytes[from as usize..];
    let n = left.len().min(buffer.len());
    buffer[..n].copy_from_slice(&left[..n]);
    n
}

/// The files at the look of this number.
fn world_in(worlds: &[MemWorld], n: usize) -> &MemWorld
    requires { n < length worlds.now }
    ensures { result.now ≡ world_at worlds.now n }
{
    &worlds[n]
}

/// The files at the last look that was planned, once more.
fn copy_last(alloc: Global, worlds: &[MemWorld]) -> Result<MemWorld, AllocError>
    requires { 0 < length worlds.now }
    ensures { IfOk result (λ world. world ≡ world_at worlds.now (length worlds.now)) }
{
    world_in(worlds, worlds.len() - 1).copy(alloc)
}

/// Adds the files of one more look, and returns whether there was memory for that.
fn keep(worlds: &mut Vec<MemWorld>, world: MemWorld) -> bool
    ensures kept { IsTrue result → worlds.new.items ≡ worlds.old.items ++ world ∷ [] }
    ensures full { result ≡ false → worlds.new.items ≡ worlds.old.items }
{
    worlds.push(world).is_ok()
}

/// Adds a name, and returns whether there was memory for that.
fn keep_name(names: &mut Vec<MemName>, name: MemName) -> bool
    ensures kept { IsTrue result → names.new.items ≡ names.old.items ++ name ∷ [] }
    ensures full { result ≡ false → names.new.items ≡ names.old.items }
{
    names.push(name).is_ok()
}

impl Watch for MemWatch {
    ghost seen = { λ watch. seen watch };

    ghost shows = { λ watch. shows watch };

    ghost watched = { λ watch. watch.watched };

    ghost rested = { λ watch. 0 };

    ghost visible = { true };

    ghost fed = { λ watch. is_fed watch };

    fn has_input(&self) -> bool {
        let first = 1usize.min(self.worlds.len() - 1);
        let file = world_in(&self.worlds, first).file_of(STANDARD_INPUT);
        file.is_some()
    }

    fn turn(&mut self) -> Result<(), Fault> {
        let Some(turns) = self.turns.checked_add(1) else {
            return Err(Fault::Memory);
        };
        if turns < self.worlds.len() {
            self.turns = turns;
            return Ok(());
        }
        // No look was planned: the files stay, and what is planned from now on comes after this look.
        let world = copy_last(self.alloc, &self.worlds)?;
        if keep(&mut self.worlds, world) {
            self.turns = turns;
            return Ok(());
        }
        Err(Fault::Memory)
    }

    fn is_gone(&mut self, process: u32) -> bool {
        let next = (self.turns + 1).min(self.worlds.len() - 1);
        world_in(&self.worlds, next).has_ended(process)
    }

    /// Waits for nothing, and keeps what is asked for.
    fn wait_at_most(&mut self, milliseconds: u64) {
        self.within = milliseconds.max(1);
    }

    fn forgive(&mut self) {
        self.manner = Manner {
            leading: self.manner.leading.forgiven(),
            insists: false,
            why: self.manner.why,
        };
    }

    fn insist(&mut self) {
        self.manner = Manner {
            leading: self.manner.leading,
            insists: true,
            why: self.manner.why,
        };
    }

    fn cling(&mut self) {
        self.manner = Manner {
            leading: Leading::Clinging,
            insists: false,
            why: self.manner.why,
        };
    }

    fn add(&mut self, name: &str) -> Result<usize, Fault> {
        let place = self.names.len();
        let name = MemName::new(self.alloc, name)?;
        if keep_name(&mut self.names, name) {
            return Ok(place);
        }
        Err(Fault::Memory)
    }

    fn look(&mut self, place: usize) -> Result<Option<Seen>, Fault> {
        let found = self.seen_of(self.led(place));
        if let Some(why) = self.refusal(place, found.is_some()) {
            self.break_for(place, Broken::Look, why);
            return Err(Fault::Open(place));
        }
        Ok(found)
    }

    fn reopen(&mut self, place: usize) -> Result<bool, Fault> {
        let file = self.led(place);
        if let Some(why) = self.refusal(place, file.is_some()) {
            self.break_for(place, Broken::Open, why);
            return Err(Fault::Open(place));
        }
        Ok(self.names[place].open(file))
    }

    fn reason(&self, place: usize) -> Reason {
        let Some(name) = self.names.get(place) else {
            return Reason::Other;
        };
        if name.failed.is_some() {
            return name.reason;
        }
        if world_in(&self.worlds, self.turns).is_barred(name.name.as_str()) {
            return self.manner.why;
        }
        Reason::Missing
    }

    fn open_id(&self, place: usize) -> Option<u128> {
        match self.names.get(place) {
            Some(name) => name.id(),
            None => None,
        }
    }

    fn open_len(&mut self, place: usize) -> Result<u64, Fault> {
        let len = self.open_bytes(place).len() as u64;
        if self.fails() {
            self.break_off(place, Broken::Len(self.open_id(place)));
            return Err(Fault::Read(place));
        }
        Ok(len)
    }

    fn read_at(&mut self, place: usize, from: u64, buffer: &mut [u8]) -> Result<usize, Fault> {
        if self.fails() {
            self.break_off(place, Broken::Read(self.open_id(place), from));
            return Err(Fault::Read(place));
        }
        Ok(read_from(self.open_bytes(place), from, buffer))
    }
}
