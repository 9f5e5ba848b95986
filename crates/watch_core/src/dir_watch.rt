ghost use Rattle.std.specs.Prelude.{◌≡◌, ◌⊎◌, ◌≤◌, ◌∷◌, ◌++◌, [], false, IsTrue};
ghost use Rattle.watch_core.specs.{
  DirWatchState.{DirWatchState, files_by, no_turns, seen},
  Watched.{CanBreak, is_watchable},
};

use crate::dir_name::{DirName, Manner};
use crate::input::can_watch_input;
use crate::process::Process;
use crate::{Seen, Watch};
use ports_core::{Fault, Reason, time_of};
use std::alloc::Global;
use std::fs::File;
use std::marker::Model;
use std::rt::{Clock, Files};
use std::thread;
use std::time::Duration;

/// How many milliseconds pass at least before changes are looked for again.
const SHORTEST: u64 = 1;

/// How many pass at most.
const LONGEST: u64 = 50;

/// How many milliseconds a look is waited for at most, where nothing else was said: a second.
const SECOND: u64 = 1000;

/// Real files, named from the working folder. Their bytes aren't told. The identity of a file is made of its device and of its
/// number there.
///
/// Each look but the first begins with waiting, which ends soon after a change, at once where a stream has something, and
/// without either after a second, or what `wait_at_most` said. A change is another length of a file that is open or that a name
/// leads to, or a name that comes to lead elsewhere. Each name is asked at a pace of its own, at multiples of 5 ms: at the next one
/// after it changed, and then after twice as long each time, 50 ms at the most. What comes to a regular file t milliseconds after its
/// last change is to be seen within t + 5, and within 50. So is a name that comes to lead elsewhere, but within 500 where it led to
/// the open file, a regular one, and that didn't change for a second. Where a process was asked for, waiting ends at once where that is
/// gone, and within 50 ms where that comes to be so: where the system lists its processes, and lists none of this number. The next look
/// after that sees all that the process wrote. Waiting takes no memory, and no thread waits on another.
///
/// A look is told what was found when its name was asked last, so it asks the system nothing of a name that didn't change. Where
/// a name leads is one question to the system, which tells the length too where it leads to the open file. That is asked at the multiples
/// of 500 ms after a second without a change, and the open file its length, which takes a third of the time, at the other multiples of 50;
/// where looks ask open files alone, at all of them. So while nothing changes the system is asked once for each name every 50 ms, and
/// once or twice for the process.
///
/// Any file but a regular one is a stream, which is read as it comes, into a buffer of 64 KiB of its own: when it is opened, and as
/// each look begins. Its length is that of all that was taken of it. A read of it waits while nothing comes and somebody has it open
/// to write, and the opening of a named pipe waits for who writes: that holds up the looks at all names. A pipe that nobody has open
/// to write gives nothing, until somebody has again. A folder opens where the system lets it, and breaks at its first read. At the first
/// look alone such files are opened: at a later one a name that leads to one that isn't open leads nowhere.
///
/// A regular file of which the system says that it has no bytes has as many as reads give. Each look has them counted once more that
/// begins 50 ms after the last count; where reads gave none for a minute, the file is empty until the system says another length.
///
/// Under the name `-` it watches the file that standard input is, which the system opens anew, from the place on at which standard input
/// stood when the name was added. That name always leads to this file, also once it has another name or none. What the file gets before
/// that place isn't seen.
///
/// At most one file of a name is open; it is given back once another is opened or the name is broken, and all are when this is
/// dropped.
///
/// Where it forgives, a look of a name that leads to another file than the open one opens that, and reads a byte at most, to know that
/// it can be read; `reopen` takes that file. So two files of a name are open for a moment. Where it can't be opened or read, or the system
/// can't tell where the name leads, the look finds none, as of a folder, and tries again when the name is asked next, every 50 ms at the
/// least. A read of the open file that fails gives nothing, and the look that follows finds none; a file that is open and can be read is
/// read on, whatever becomes of its permissions. Where it clings, a look finds the file that is open, if one is, and the system isn't asked
/// where the name leads. If the length of that file can't be told then, or a read of it fails, the name is broken.
#[derive(Drop)]
pub struct DirWatch<R: Files<File = File> + Clock + Drop> {
    runtime: R,
    alloc: Global,
    /// How many looks began.
    turns: u64,
    /// How many milliseconds a look is waited for at most.
    most: u64,
    /// For how many the last one was, in pauses.
    rested: u64,
    names: Vec<DirName>,
    /// The process whose end is waited for.
    process: Option<Process>,
    /// What becomes of names that can't be read or lead nowhere.
    manner: Manner,
    /// Standard input is a file that can be watched, as the system said when it was asked.
    fed: bool,
}

impl<R: Files<File = File> + Clock + Drop> Model for DirWatch<R> {
    ghost Value = { DirWatchState };

    ghost view = { λ w. record {
      turns = w.turns;
      watched = w.names.items;
      manner = w.manner;
      within = w.most;
      rested = w.rested;
      fed = w.fed;
    } };
}

impl<R: Files<File = File> + Clock + Drop> DirWatch<R> {
    /// No name and no look. Standard input counts as no file until `find_input` asks the system. It takes no memory.
    pub fn new(runtime: R, alloc: Global) -> Self
        ensures { result ≡ no_turns false }
    {
        DirWatch {
            runtime,
            alloc,
            turns: 0,
            most: SECOND,
            rested: 0,
            names: Vec::new(alloc),
            process: None,
            manner: Manner::Plain,
            fed: false,
        }
    }

    /// Asks the system whether standard input is a file that can be watched: a regular one that opens anew, and of which the system
    /// says where it stands. It takes no memory.
    pub fn find_input(&mut self)
        ensures { self.new ≡ record self.old { fed = self.new.fed } }
    {
        self.fed = can_watch_input(&self.runtime);
    }

    /// Whether the name at this place counts as missing where it can't be opened. One that no file can have doesn't.
    fn forgives_at(&self, place: usize) -> bool
        requires { IsTrue (is_watchable self.now.watched place) }
        ensures no { result ≡ false → CanBreak (seen self.now) self.now.watched place }
        ensures yes { IsTrue result → (self.now.manner ≡ Manner.Forgiving) ⊎ (self.now.manner ≡ Manner.Clinging) }
    {
        self.manner.forgives() && !self.names[place].has_zero()
    }
}

/// Looks for changes of the names for which that is due at this time. Returns when the next one is due, at the most 50 ms from then;
/// none where one has changed.
fn next_due(
    alloc: Global,
    files: &impl Files<File = File>,
    names: &mut Vec<DirName>,
    now: u64,
) -> Option<u64>
    ensures { names.new.items ≡ names.old.items }
{
    let mut changed = false;
    let mut due = now.saturating_add(LONGEST);
    for place in 0..names.len() {
        // Each that is due is asked, so that a change ends no second waiting and a stream needn't wait for the others to be silent.
        if names[place].has_changed(alloc, files, now) {
            changed = true;
        }
        due = due.min(names[place].due());
    }
    if changed {
        return None;
    }
    Some(due)
}

/// Has changes of all names looked for at once.
fn hurry_all(names: &mut Vec<DirName>)
    ensures { names.new.items ≡ names.old.items }
{
    for place in 0..names.len() {
        names[place].hurry();
    }
}

/// Has this become of all names from now on if they can't be read or lead nowhere.
fn treat_all(names: &mut Vec<DirName>, manner: Manner)
    ensures { names.new.items ≡ names.old.items }
{
    for place in 0..names.len() {
        names[place].treat(manner);
    }
}

/// Waits until a name has changed, something came of a stream or this process is gone, `most` milliseconds at most where no stream is
/// waited for. Returns how many it paused. Where the clock tells nothing, each name is always due.
fn wait<R: Files<File = File> + Clock>(
    alloc: Global,
    runtime: &R,
    names: &mut Vec<DirName>,
    process: &Option<Process>,
    most: u64,
) -> u64
    ensures names { names.new.items ≡ names.old.items }
    ensures most { result ≤ most }
{
    let mut rested = 0;
    while rested < most {
        let now = time_of(runtime);
        let Some(due) = next_due(alloc, runtime, names, now) else {
            return rested;
        };
        if has_ended(runtime, process) {
            return rested;
        }
        let pause = due.saturating_sub(now).max(SHORTEST).min(most - rested);
        thread::sleep(runtime, Duration::from_millis(pause));
        rested += pause;
    }
    next_due(alloc, runtime, names, time_of(runtime));
    rested
}

/// Whether the end of this process is waited for.
fn waits_for(process: &Option<Process>, number: u32) -> bool {
    match process {
        Some(process) => process.is(number),
        None => false,
    }
}

/// Whether there is a process whose end is waited for, and it is gone.
fn has_ended(files: &impl Files, process: &Option<Process>) -> bool {
    match process {
        Some(process) => process.is_gone(files),
        None => false,
    }
}

/// Adds a name, and returns whether there was memory for that.
fn keep(names: &mut Vec<DirName>, name: DirName) -> bool
    ensures kept { IsTrue result → names.new.items ≡ names.old.items ++ name ∷ [] }
    ensures full { result ≡ false → names.new.items ≡ names.old.items }
{
    names.push(name).is_ok()
}

impl<R: Files<File = File> + Clock + Drop> Watch for DirWatch<R> {
    ghost seen = { λ watch. seen watch };

    ghost shows = { λ watch n. files_by watch.manner watch.within };

    ghost watched = { λ watch. watch.watched };

    ghost rested = { λ watch. watch.rested };

    ghost visible = { false };

    ghost fed = { λ watch. watch.fed };

    fn has_input(&self) -> bool {
        self.fed
    }

    fn turn(&mut self) -> Result<(), Fault> {
        let Some(turns) = self.turns.checked_add(1) else {
            return Err(Fault::Memory);
        };
        self.rested = match self.turns {
            0 => 0,
            _ => wait(
                self.alloc,
                &self.runtime,
                &mut self.names,
                &self.process,
                self.most,
            ),
        };
        self.turns = turns;
        Ok(())
    }

    fn is_gone(&mut self, process: u32) -> bool {
        if !waits_for(&self.process, process) {
            let Ok(process) = Process::new(self.alloc, process) else {
                return false;
            };
            self.process = Some(process);
        }
        let is_gone = has_ended(&self.runtime, &self.process);
        if is_gone {
            // The next look is to see all that the process wrote.
            hurry_all(&mut self.names);
        }
        is_gone
    }

    fn wait_at_most(&mut self, milliseconds: u64) {
        self.most = milliseconds.max(SHORTEST);
    }

    fn forgive(&mut self) {
        self.manner = Manner::Forgiving;
        treat_all(&mut self.names, Manner::Forgiving);
    }

    fn insist(&mut self) {
        self.manner = Manner::Insisting;
        treat_all(&mut self.names, Manner::Insisting);
    }

    fn cling(&mut self) {
        self.manner = Manner::Clinging;
        treat_all(&mut self.names, Manner::Clinging);
    }

    fn add(&mut self, name: &str) -> Result<usize, Fault> {
        let place = self.names.len();
        let name = DirName::new(self.alloc, &self.runtime, name, self.manner)?;
        if keep(&mut self.names, name) {
            return Ok(place);
        }
        Err(Fault::Memory)
    }

    fn look(&mut self, place: usize) -> Result<Option<Seen>, Fault> {
        if self.manner.forgives() {
            return Ok(self.names[place].look_forgiving(self.alloc, &self.runtime));
        }
        let insists = self.manner.insists();
        let Ok(found) = self.names[place].look(&self.runtime, insists) else {
            return Err(Fault::Open(place));
        };
        Ok(found)
    }

    fn reopen(&mut self, place: usize) -> Result<bool, Fault> {
        if self.forgives_at(place) {
            return Ok(self.names[place].open_forgiving(self.alloc, &self.runtime));
        }
        let insists = self.manner.insists();
        let Ok(is_there) = self.names[place].open(self.alloc, &self.runtime, insists) else {
            return Err(Fault::Open(place));
        };
        Ok(is_there)
    }

    fn reason(&self, place: usize) -> Reason {
        match self.names.get(place) {
            Some(name) => name.reason(),
            None => Reason::Other,
        }
    }

    fn open_id(&self, place: usize) -> Option<u128> {
        match self.names.get(place) {
            Some(name) => name.id(),
            None => None,
        }
    }

    fn open_len(&mut self, place: usize) -> Result<u64, Fault> {
        if self.manner.forgives_reads() {
            return Ok(self.names[place].len_forgiving());
        }
        let Ok(len) = self.names[place].len() else {
            return Err(Fault::Read(place));
        };
        Ok(len)
    }

    fn read_at(&mut self, place: usize, from: u64, buffer: &mut [u8]) -> Result<usize, Fault> {
        if self.manner.forgives_reads() {
            return Ok(self.names[place].read_forgiving(from, buffer));
        }
        let Ok(n) = self.names[place].read_at(from, buffer) else {
            return Err(Fault::Read(place));
        };
        Ok(n)
    }
}
