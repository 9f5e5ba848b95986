//! Whether anybody reads standard output, if it is a pipe without a name, by the system's list of processes.

ghost use Rattle.std.specs.Prelude.{◌≡◌, ◌<◌, length};

use crate::input_files::STANDARD_OUTPUT;
use crate::pipe_links::{Depth, is_read_by, link_of};
use crate::process_state::ProcessState;
use crate::time_of;
use std::alloc::Global;
use std::io::{self, Error, ErrorKind};
use std::path::PathBuf;
use std::rt::{Clock, Files};
use std::time::Duration;
use std::{fs, thread};

/// Where the system lists the processes that run, each by its number.
const PROCESSES: &str = "/proc";

/// What the system says about this process.
const OWN_STATE: &str = "/proc/self/stat";

/// Which file systems are mounted, and how.
const MOUNTS: &str = "/proc/self/mountinfo";

/// How a list is mounted that leaves out processes.
const HIDES: &str = "hidepid=";

/// How a link begins that leads to a pipe without a name.
const PIPE: &str = "pipe:[";

/// How many milliseconds pass at least before the system is asked again.
const PAUSE: u64 = 250;

/// How many ancestors of this process are known as such.
const MOST_ANCESTORS: u32 = 100;

/// How many milliseconds pass between the two searches that have to find no reader.
const BETWEEN: u64 = 10;

/// What is known of those who read standard output.
#[derive(Drop)]
pub(crate) enum Readers {
    /// That wasn't asked yet.
    Unasked,
    /// Nothing, so readers are never seen to be gone: standard output is no pipe without a name, or no reader was found
    /// at first.
    Unknown,
    /// A reader was found.
    Known(Pipe),
}

impl Readers {
    /// Whether the readers are gone. The first call finds who they are. They are gone if each reader that was found is
    /// gone, and two searches through all processes, the second also through their threads, find none. They are never
    /// seen to be gone in these cases: a process that was found to read can't be looked into; a process can't be looked
    /// into that began after this process, or that is in its session and began neither it nor its parents; the list
    /// leaves out processes; or something can't be known, as for want of memory. The system is asked at most every 250
    /// ms.
    pub(crate) fn are_gone<R: Files + Clock>(&mut self, runtime: &R, alloc: Global) -> bool {
        let system = (runtime, alloc);
        match self {
            Readers::Unasked => {
                *self = match Pipe::find(&system) {
                    Some(pipe) => Readers::Known(pipe),
                    None => Readers::Unknown,
                };
                false
            }
            Readers::Unknown => false,
            Readers::Known(pipe) => pipe.is_unread(&system),
        }
    }
}

/// What is seen of a process.
#[derive(Drop)]
enum Sight {
    /// The process has the pipe open for reading, by this link.
    Reads(String),
    /// The process may have the pipe open, and can't be looked into.
    Hidden,
    /// The process doesn't have the pipe open.
    Not,
}

impl Sight {
    fn may_read(&self) -> bool {
        !matches!(self, Sight::Not)
    }
}

/// A process that reads the pipe, may read it or did read it.
#[derive(Drop)]
struct Holder {
    process: u32,
    sight: Sight,
}

/// The pipe that standard output is.
#[derive(Drop)]
pub(crate) struct Pipe {
    name: PathBuf,
    /// This process.
    own: ProcessState,
    holders: Vec<Holder>,
    /// When the system was asked, in milliseconds of a clock.
    asked: u64,
}

impl Pipe {
    /// Standard output, if it is a pipe without a name and somebody is found to read it.
    fn find<S: Files + Clock + AllocGlobal + Clone + Drop>(system: &S) -> Option<Self> {
        let name = fs::read_link(system, STANDARD_OUTPUT).ok()?;
        if !name.as_str().starts_with(PIPE) {
            return None;
        }
        let own = ProcessState::of(system, OWN_STATE).ok()??;
        let mut pipe = Pipe {
            name,
            own,
            holders: Vec::new(system.alloc()),
            asked: time_of(system),
        };
        pipe.search(system, Depth::Processes).ok()?;
        let is_read = pipe
            .holders
            .iter()
            .any(|holder| matches!(holder.sight, Sight::Reads(_)));
        is_read.then_some(pipe)
    }

    /// Whether nobody reads the pipe any more.
    fn is_unread<S: Files + Clock + AllocGlobal + Clone + Drop>(&mut self, system: &S) -> bool {
        let now = time_of(system);
        if now.saturating_sub(self.asked) < PAUSE {
            return false;
        }
        self.asked = now;
        if self.is_held(system) || self.may_be_read(system, Depth::Processes) {
            return false;
        }
        // A process may hand the pipe on to a process that was looked at before.
        thread::sleep(system, Duration::from_millis(BETWEEN));
        !self.may_be_read(system, Depth::Threads) && !hides_processes(system)
    }

    /// Whether a process that is known may still read the pipe. The next time this process is asked first.
    fn is_held<S: Files + AllocGlobal + Clone + Drop>(&mut self, system: &S) -> bool {
        for place in 0..self.holders.len() {
            if self.still_reads(system, place) {
                self.holders.swap(0, place);
                return true;
            }
        }
        false
    }

    fn still_reads<S: Files + AllocGlobal + Clone + Drop>(
        &mut self,
        system: &S,
        place: usize,
    ) -> bool
        requires { place < length self.old.holders.items }
        ensures { length self.new.holders.items ≡ length self.old.holders.items }
    {
        if self.has_open(system, &self.holders[place]) {
            return true;
        }
        let sight = self.look(system, self.holders[place].process, Depth::Processes);
        let may_read = sight.may_read();
        self.holders[place].sight = sight;
        may_read
    }

    /// Whether the process still has the pipe open for reading, by the same link.
    fn has_open<S: Files + AllocGlobal>(&self, system: &S, holder: &Holder) -> bool {
        match &holder.sight {
            Sight::Reads(link) => matches!(
                is_read_by(system, self.name.as_str(), link.as_str()),
                Ok(true)
            ),
            Sight::Hidden | Sight::Not => false,
        }
    }

    /// Whether a search finds a process that may read the pipe, or can't be made.
    fn may_be_read<S: Files + AllocGlobal + Clone + Drop>(
        &mut self,
        system: &S,
        depth: Depth,
    ) -> bool {
        match self.search(system, depth) {
            Ok(()) => self.holders.iter().any(|holder| holder.sight.may_read()),
            Err(_) => true,
        }
    }

    /// Searches through all processes. Keeps those that may read the pipe, and those that did read it and still run.
    fn search<S: Files + AllocGlobal + Clone + Drop>(
        &mut self,
        system: &S,
        depth: Depth,
    ) -> io::Result<()> {
        let mut holders = Vec::new(system.alloc());
        for entry in fs::read_dir(system, PROCESSES)? {
            let entry = entry?;
            if let Ok(process) = entry.file_name().parse() {
                let sight = self.look(system, process, depth);
                if sight.may_read() || self.knows(process) {
                    holders.push(Holder { process, sight })?;
                }
            }
        }
        self.holders = holders;
        Ok(())
    }

    fn knows(&self, process: u32) -> bool {
        self.holders.iter().any(|holder| holder.process == process)
    }

    /// What is seen of a process.
    fn look<S: Files + AllocGlobal + Clone + Drop>(
        &self,
        system: &S,
        process: u32,
        depth: Depth,
    ) -> Sight {
        match link_of(system, self.name.as_str(), process, depth) {
            Ok(Some(link)) => Sight::Reads(link),
            Ok(None) => Sight::Not,
            Err(error) if self.may_read_unseen(system, process, &error) => Sight::Hidden,
            Err(_) => Sight::Not,
        }
    }

    /// Whether a process that couldn't be looked into for this error may read the pipe.
    fn may_read_unseen<S: Files + AllocGlobal>(
        &self,
        system: &S,
        process: u32,
        error: &Error,
    ) -> bool {
        if error.kind() != ErrorKind::PermissionDenied {
            return true;
        }
        match state_of(system, process) {
            Ok(Some(state)) => state.may_have_files
                && (self.knows(process) || self.may_have_got(system, process, state)),
            Ok(None) => false,
            Err(_) => true,
        }
    }

    /// Whether another process may have got the pipe from the process that made it: it began after this process, or is
    /// in its session and isn't one of those that began it.
    fn may_have_got<S: Files + AllocGlobal>(
        &self,
        system: &S,
        process: u32,
        other: ProcessState,
    ) -> bool {
        other.began >= self.own.began
            || (other.session == self.own.session && !self.descends_from(system, process))
    }

    /// Whether that process is this process's parent, or a parent of a parent, and so on.
    fn descends_from<S: Files + AllocGlobal>(&self, system: &S, process: u32) -> bool {
        let mut ancestor = self.own.parent;
        for _ in 0..MOST_ANCESTORS {
            if ancestor == process {
                return true;
            }
            match state_of(system, ancestor) {
                Ok(Some(state)) => ancestor = state.parent,
                Ok(None) | Err(_) => return false,
            }
        }
        false
    }
}

/// The state of the process of this number.
fn state_of<S: Files + AllocGlobal>(system: &S, process: u32) -> io::Result<Option<ProcessState>> {
    let path = format!(in system.alloc(); "{PROCESSES}/{process}/stat")?;
    ProcessState::of(system, path.as_str())
}

/// Whether the list may leave out processes, as all those of other users.
fn hides_processes<S: Files + AllocGlobal>(system: &S) -> bool {
    match fs::read_to_string(system, MOUNTS) {
        Ok(mounts) => mounts.as_str().contains(HIDES),
        Err(_) => true,
    }
}
