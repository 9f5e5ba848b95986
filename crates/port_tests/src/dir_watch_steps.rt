//! The watch over real files as tables of steps: what is done in a folder, and what must come of it.
ghost use Rattle.std.specs.Prelude.{◌≡◌, false, IsTrue, IfOk, OnOk};
ghost use Rattle.watch_core.specs.{DirWatchState.no_turns, Watched.{is_readable, is_watchable}};

use crate::compare::same;
use crate::folder::{append, make_folder, remove_folder};
use ports_core::{Fault, Reason};
use std::fs;
use std::os::unix::fs::symlink;
use std::process::Abort;
use std::test::Fail;
use std::time::Instant;
use watch_core::{DirWatch, Seen, Watch};

fn id_of(found: Option<Seen>) -> Option<u128> {
    match found {
        Some(file) => Some(file.id),
        None => None,
    }
}

fn len_of(found: Option<Seen>) -> Option<u64> {
    match found {
        Some(file) => Some(file.len),
        None => None,
    }
}

/// What a watch does with a name that leads to no regular file.
#[derive(Clone, Copy)]
pub(crate) enum How {
    /// What every watch does.
    Plain,
    /// It forgives.
    Forgiving,
    /// It clings.
    Clinging,
    /// It insists.
    Insisting,
}

/// A watch over one name.
pub(crate) fn watch_of(
    rt: HostRuntime,
    name: &str,
    how: How,
) -> Result<DirWatch<HostRuntime>, Fault>
    ensures { IfOk result (λ watch. IsTrue (is_watchable watch.watched 0)) }
{
    let mut watch = DirWatch::new(rt, rt.alloc());
    set_up(&mut watch, how);
    watch.add(name)?;
    Ok(watch)
}

fn set_up(watch: &mut DirWatch<HostRuntime>, how: How)
    requires { watch.old ≡ no_turns false }
    ensures { watch.new.watched ≡ watch.old.watched }
{
    match how {
        How::Plain => {}
        How::Forgiving => watch.forgive(),
        How::Clinging => watch.cling(),
        How::Insisting => watch.insist(),
    }
}

/// What the name leads to at the next look.
pub(crate) fn next_seen(watch: &mut DirWatch<HostRuntime>) -> Result<Option<Seen>, Fault>
    requires { IsTrue (is_watchable watch.old.watched 0) }
    ensures { OnOk result (IsTrue (is_watchable watch.new.watched 0)) }
{
    watch.turn()?;
    let found = watch.look(0)?;
    Ok(found)
}

/// Opens what the name leads to. None where it leads nowhere.
pub(crate) fn opened(watch: &mut DirWatch<HostRuntime>) -> Result<bool, Fault>
    requires { IsTrue (is_watchable watch.old.watched 0) }
    ensures name { OnOk result (IsTrue (is_watchable watch.new.watched 0)) }
    ensures file { IfOk result (λ is_there. IsTrue is_there → IsTrue (is_readable watch.new.watched 0)) }
{
    let is_there = watch.reopen(0)?;
    Ok(is_there)
}

/// Opens what the name leads to, and gives its length. 0 where it leads nowhere.
fn open_len(watch: &mut DirWatch<HostRuntime>) -> Result<u64, Fault>
    requires { IsTrue (is_watchable watch.old.watched 0) }
    ensures { OnOk result (IsTrue (is_watchable watch.new.watched 0)) }
{
    if opened(watch)? {
        let len = watch.open_len(0)?;
        return Ok(len);
    }
    Ok(0)
}

/// Opens what the name leads to, and reads it from a place on.
pub(crate) fn read_at(
    watch: &mut DirWatch<HostRuntime>,
    from: u64,
    buffer: &mut [u8],
) -> Result<usize, Fault>
    requires { IsTrue (is_watchable watch.old.watched 0) }
    ensures { OnOk result (IsTrue (is_watchable watch.new.watched 0)) }
{
    if opened(watch)? {
        let n = watch.read_at(0, from, buffer)?;
        return Ok(n);
    }
    Ok(0)
}

/// After how many milliseconds the next look begins.
pub(crate) fn waited(rt: &HostRuntime, watch: &mut DirWatch<HostRuntime>) -> Result<u128, Fail>
    ensures { OnOk result (watch.new.watched ≡ watch.old.watched) }
{
    let start = Instant::now(rt)?;
    watch.turn()?;
    Ok(start.elapsed(rt)?.as_millis())
}

/// What is done in the folder or with the watch over one name in it, and what must come of it.
#[derive(Clone, Copy)]
pub(crate) enum Step<'a> {
    /// A file of this name is made, with these bytes.
    Make(&'a str, &'a [u8]),
    /// These bytes are appended to a file.
    Append(&'a str, &'a [u8]),
    /// A file gets another name.
    Rename(&'a str, &'a str),
    /// A file is removed.
    Remove(&'a str),
    /// A folder is made, which is empty.
    MakeFolder(&'a str),
    /// A folder is removed, which is empty.
    RemoveFolder(&'a str),
    /// A name is made that leads to itself.
    Loop(&'a str),
    /// A look begins.
    Turn,
    /// A look begins, a second or more after it was asked for or at once.
    Waits(bool),
    /// At the next look the name leads to a file of this length, or nowhere.
    Sees(Option<u64>),
    /// What the name leads to is opened, if it leads anywhere.
    Opens(bool),
    /// What the name leads to is opened, and has this length.
    OpensOf(u64),
    /// What the name leads to is opened, a read from a place on gives this many bytes, and the buffer is then this.
    Reads(u64, usize, &'a [u8]),
    /// A file is open, or none.
    IsOpen(bool),
    /// The last two looks saw the same file, or another one.
    SawSame(bool),
    /// The file of the look before the last one is open.
    EarlierIsOpen,
    /// The file of the last look is open, or another one.
    LatestIsOpen(bool),
    /// This was why the last call failed that did, or found none.
    Says(Reason),
}

/// What the last two looks saw.
#[derive(Clone, Copy)]
struct Looks {
    earlier: Option<Seen>,
    latest: Option<Seen>,
}

/// How a watch is set up over a name in a folder, what is done there and must come of it, and why the next look at the name fails after
/// that, if it does.
pub(crate) type Row = (
    How,
    &'static str,
    &'static str,
    &'static [Step<'static>],
    Option<Reason>,
);

/// Makes a folder, takes all steps there with a watch over one name, and removes it.
pub(crate) fn play(abort: &impl Abort, rt: &HostRuntime, row: &Row) -> Result<(), Fail> {
    let (how, folder, name, steps, breaks) = *row;
    let mut watch = watch_of(*rt, name, how)?;
    make_folder(rt, folder)?;
    take_all(abort, rt, folder, &mut watch, steps, breaks)?;
    remove_folder(rt, folder)
}

fn take_all(
    abort: &impl Abort,
    rt: &HostRuntime,
    folder: &str,
    watch: &mut DirWatch<HostRuntime>,
    steps: &[Step<'_>],
    breaks: Option<Reason>,
) -> Result<(), Fail>
    requires { IsTrue (is_watchable watch.old.watched 0) }
{
    let mut looks = Looks {
        earlier: None,
        latest: None,
    };
    let mut buffer = [0u8; 3];
    let mut number = 0usize;
    for step in steps {
        let is_so = take(rt, watch, &mut looks, &mut buffer, step)?;
        assert!(abort; is_so, "in {folder}, at step {number}");
        number = number.saturating_add(1);
    }
    if breaks.is_some() {
        same(abort, &refusal(watch)?, &breaks);
    }
    Ok(())
}

/// Why the next look at the name fails. None if it doesn't, or if a file of the name is open after that.
fn refusal(watch: &mut DirWatch<HostRuntime>) -> Result<Option<Reason>, Fault>
    requires { IsTrue (is_watchable watch.old.watched 0) }
{
    watch.turn()?;
    if watch.look(0) == Err(Fault::Open(0)) && watch.open_id(0).is_none() {
        return Ok(Some(watch.reason(0)));
    }
    Ok(None)
}

/// Takes a step, and returns whether that came of it which must.
fn take(
    rt: &HostRuntime,
    watch: &mut DirWatch<HostRuntime>,
    looks: &mut Looks,
    buffer: &mut [u8],
    step: &Step<'_>,
) -> Result<bool, Fail>
    requires { IsTrue (is_watchable watch.old.watched 0) }
    ensures { OnOk result (IsTrue (is_watchable watch.new.watched 0)) }
{
    match step {
        Step::Turn | Step::Waits(_) => {
            let is_so = begin(rt, watch, step)?;
            Ok(is_so)
        }
        Step::Sees(len) => {
            let found = next_seen(watch)?;
            looks.earlier = looks.latest;
            looks.latest = found;
            Ok(len_of(found) == *len)
        }
        Step::Opens(is_there) => {
            let found = opened(watch)?;
            Ok(found == *is_there)
        }
        Step::OpensOf(len) => {
            let found = open_len(watch)?;
            Ok(found == *len)
        }
        Step::Reads(from, count, front) => {
            let given = read_at(watch, *from, buffer)?;
            Ok(given == *count && *buffer == **front)
        }
        _ => {
            edit(rt, step)?;
            Ok(is_open(watch, looks, step))
        }
    }
}

/// Begins a look, and returns whether that took as long as the step says, if it says so.
fn begin(rt: &HostRuntime, watch: &mut DirWatch<HostRuntime>, step: &Step<'_>) -> Result<bool, Fail>
    ensures { OnOk result (watch.new.watched ≡ watch.old.watched) }
{
    let passed = waited(rt, watch)?;
    match step {
        Step::Waits(is_long) => Ok((passed >= 1000) == *is_long),
        _ => Ok(true),
    }
}

/// Changes a file, if the step is such a change.
fn edit(rt: &HostRuntime, step: &Step<'_>) -> Result<(), Fail> {
    match step {
        Step::Make(name, bytes) => fs::write(rt, name, *bytes)?,
        Step::Append(name, bytes) => append(rt, name, bytes)?,
        Step::Rename(from, to) => fs::rename(rt, from, to)?,
        Step::Remove(name) => fs::remove_file(rt, name)?,
        Step::MakeFolder(name) => fs::create_dir(rt, name)?,
        Step::RemoveFolder(name) => fs::remove_dir(rt, name)?,
        Step::Loop(name) => symlink(rt, name.rsplit('/').next().unwrap_or(name), name)?,
        _ => {}
    }
    Ok(())
}

/// Whether the files that were seen and the open one are as a step says, if it speaks of them.
fn is_open(watch: &DirWatch<HostRuntime>, looks: &Looks, step: &Step<'_>) -> bool {
    let open = watch.open_id(0);
    match step {
        Step::IsOpen(is_there) => open.is_some() == *is_there,
        Step::SawSame(is_same) => (id_of(looks.earlier) == id_of(looks.latest)) == *is_same,
        Step::EarlierIsOpen => open == id_of(looks.earlier),
        Step::LatestIsOpen(is_it) => (open == id_of(looks.latest)) == *is_it,
        Step::Says(why) => watch.reason(0) == *why,
        _ => true,
    }
}
