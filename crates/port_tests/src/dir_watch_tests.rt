//! The watch over real files, in a folder of its own that each test makes and removes.
ghost use Rattle.std.specs.Prelude.{IsTrue, OnOk};
ghost use Rattle.watch_core.specs.Watched.{is_readable, is_watchable};

use crate::compare::same;
use crate::dir_watch_steps::{How, Row, Step, next_seen, opened, play, read_at, waited, watch_of};
use crate::folder::{append, make_file, make_folder, remove_folder};
use ports_core::{Fault, Reason};
use std::fs;
use std::io::{self, PipeWriter, Write};
use std::os::fd::AsRawFd;
use std::process::Abort;
use std::test::Fail;
use watch_core::{DirWatch, Watch};

/// A file is appended to.
const APPENDED: &[Step<'static>] = &[
    Step::Make("watch_core_append/f", b"abc"),
    Step::Sees(Some(3)),
    Step::Append("watch_core_append/f", b"de"),
    Step::Sees(Some(5)),
    Step::SawSame(true),
    Step::OpensOf(5),
];

/// A file is replaced by another one.
const REPLACED: &[Step<'static>] = &[
    Step::Make("watch_core_replaced/f", b"abc"),
    Step::Sees(Some(3)),
    Step::Opens(true),
    Step::Make("watch_core_replaced/g", b"xyz"),
    Step::Rename("watch_core_replaced/g", "watch_core_replaced/f"),
    Step::Sees(Some(3)),
    Step::EarlierIsOpen,
    Step::LatestIsOpen(false),
    Step::Opens(true),
    Step::LatestIsOpen(true),
];

/// A file is removed while it is open.
const REMOVED: &[Step<'static>] = &[
    Step::Make("watch_core_removed/f", b"abc"),
    Step::Turn,
    Step::Opens(true),
    Step::Remove("watch_core_removed/f"),
    Step::Sees(None),
    Step::IsOpen(true),
    Step::Opens(false),
    Step::IsOpen(false),
];

/// A file is made after the first look.
const APPEARING: &[Step<'static>] = &[
    Step::Sees(None),
    Step::Opens(false),
    Step::Says(Reason::Missing),
    Step::Make("watch_core_appears/f", b"abc"),
    Step::Sees(Some(3)),
    Step::Opens(true),
];

/// A file is read three bytes at a time, from several places on.
const PLACES: &[Step<'static>] = &[
    Step::Make("watch_core_places/f", b"abcdefgh"),
    Step::Turn,
    Step::Reads(5, 3, b"fgh"),
    Step::Reads(0, 3, b"abc"),
    Step::Reads(6, 2, b"ghc"),
    Step::Reads(8, 0, b"ghc"),
];

/// A look that sees a change begins at once.
const CHANGED: &[Step<'static>] = &[
    Step::Make("watch_core_waits/f", b"abc"),
    Step::Waits(false),
    Step::Waits(true),
    Step::Append("watch_core_waits/f", b"de"),
    Step::Waits(false),
    Step::Waits(true),
];

/// So does a look after a change of an open file to which no name that is watched leads any more.
const RENAMED: &[Step<'static>] = &[
    Step::Make("watch_core_waits_open/f", b"abc"),
    Step::Turn,
    Step::Opens(true),
    // No name that is watched leads to it any more.
    Step::Rename("watch_core_waits_open/f", "watch_core_waits_open/g"),
    Step::Waits(false),
    Step::Append("watch_core_waits_open/g", b"de"),
    Step::Waits(false),
    Step::Waits(true),
];

/// So does one after a change of a name that was at rest for seconds: its file grows, and then it leads to another file of that length.
const RESTED: &[Step<'static>] = &[
    Step::Make("watch_core_rested/f", b"abc"),
    Step::Sees(Some(3)),
    Step::Opens(true),
    Step::Waits(true),
    Step::Waits(true),
    Step::Append("watch_core_rested/f", b"de"),
    Step::Waits(false),
    Step::Sees(Some(5)),
    Step::LatestIsOpen(true),
    Step::Waits(true),
    Step::Make("watch_core_rested/g", b"vwxyz"),
    Step::Rename("watch_core_rested/g", "watch_core_rested/f"),
    Step::Waits(false),
    Step::Sees(Some(5)),
    Step::LatestIsOpen(false),
];

/// How many milliseconds a look is waited for at most.
const WAITS: &[u64] = &[20, 300];

/// Whether a second look begins after this number of milliseconds or later, and before a second, where that was asked for.
fn begins_within(rt: HostRuntime, most: u64) -> Result<bool, Fail> {
    let mut watch = DirWatch::new(rt, rt.alloc());
    watch.wait_at_most(most);
    watch.turn()?;
    let passed = waited(&rt, &mut watch)?;
    Ok(passed >= u128::from(most) && passed < 1000)
}

/// On a busy machine one look may come late.
#[test]
fn looks_begin_within_what_was_asked(rt: HostRuntime) -> Result<(), Fail> {
    for most in WAITS {
        let is_so = begins_within(rt, *most)? || begins_within(rt, *most)?;
        assert!(rt; is_so, "{most} milliseconds");
    }
    Ok(())
}

/// A file is replaced by a folder, and that by a file again: from the second look on a folder counts as missing.
const REPLACED_BY_FOLDER: &[Step<'static>] = &[
    Step::Make("watch_core_folder_later/f", b"abc"),
    Step::Sees(Some(3)),
    Step::Opens(true),
    Step::Remove("watch_core_folder_later/f"),
    Step::MakeFolder("watch_core_folder_later/f"),
    Step::Sees(None),
    Step::EarlierIsOpen,
    Step::Says(Reason::Folder),
    Step::Opens(false),
    Step::IsOpen(false),
    Step::Says(Reason::Folder),
    Step::Waits(true),
    Step::RemoveFolder("watch_core_folder_later/f"),
    Step::Make("watch_core_folder_later/f", b"wxyz"),
    Step::Sees(Some(4)),
    Step::Opens(true),
    Step::LatestIsOpen(true),
    Step::Append("watch_core_folder_later/f", b"v"),
    Step::Sees(Some(5)),
    Step::Reads(3, 2, b"zv\0"),
];

/// A folder at the first look, and then a file.
const FOLDER_FIRST: &[Step<'static>] = &[
    Step::MakeFolder("watch_core_first/f"),
    Step::Turn,
    Step::Opens(false),
    Step::Says(Reason::Folder),
    Step::RemoveFolder("watch_core_first/f"),
    Step::Make("watch_core_first/f", b"abc"),
    Step::Sees(Some(3)),
    Step::Opens(true),
];

/// A name that leads to itself at the first look, and then to a file.
const LOOPED: &[Step<'static>] = &[
    Step::Loop("watch_core_looped/f"),
    Step::Turn,
    Step::Opens(false),
    Step::Says(Reason::Circle),
    Step::Sees(None),
    Step::Says(Reason::Circle),
    Step::Waits(true),
    Step::Remove("watch_core_looped/f"),
    Step::Make("watch_core_looped/f", b"abc"),
    Step::Waits(false),
    Step::Sees(Some(3)),
    Step::Opens(true),
    Step::LatestIsOpen(true),
];

const ROWS: &[Row] = &[
    (
        How::Plain,
        "watch_core_append",
        "watch_core_append/f",
        APPENDED,
        None,
    ),
    (
        How::Plain,
        "watch_core_replaced",
        "watch_core_replaced/f",
        REPLACED,
        None,
    ),
    (
        How::Plain,
        "watch_core_removed",
        "watch_core_removed/f",
        REMOVED,
        None,
    ),
    (
        How::Plain,
        "watch_core_appears",
        "watch_core_appears/f",
        APPEARING,
        None,
    ),
    (
        How::Plain,
        "watch_core_places",
        "watch_core_places/f",
        PLACES,
        None,
    ),
    (
        How::Plain,
        "watch_core_waits",
        "watch_core_waits/f",
        CHANGED,
        None,
    ),
    (
        How::Plain,
        "watch_core_waits_open",
        "watch_core_waits_open/f",
        RENAMED,
        None,
    ),
    (
        How::Plain,
        "watch_core_rested",
        "watch_core_rested/f",
        RESTED,
        None,
    ),
    (
        How::Plain,
        "watch_core_folder_later",
        "watch_core_folder_later/f",
        REPLACED_BY_FOLDER,
        None,
    ),
    (
        How::Forgiving,
        "watch_core_first",
        "watch_core_first/f",
        FOLDER_FIRST,
        None,
    ),
    (
        How::Forgiving,
        "watch_core_looped",
        "watch_core_looped/f",
        LOOPED,
        None,
    ),
    (
        How::Forgiving,
        "watch_core_folder_later",
        "watch_core_folder_later/f",
        REPLACED_BY_FOLDER,
        None,
    ),
    (
        How::Clinging,
        "watch_core_clung",
        "watch_core_clung/f",
        CLUNG,
        None,
    ),
    (
        How::Insisting,
        "watch_core_insisted_folder",
        "watch_core_insisted_folder/f",
        MADE_FOLDER,
        Some(Reason::Folder),
    ),
    (
        How::Insisting,
        "watch_core_insisted_missing",
        "watch_core_insisted_missing/d/f",
        LOST,
        Some(Reason::Missing),
    ),
];

#[test]
fn each_step_has_its_result(rt: HostRuntime) -> Result<(), Fail> {
    for row in ROWS {
        play(&rt, &rt, row)?;
    }
    Ok(())
}

/// A folder in place of an open file.
const MADE_FOLDER: &[Step<'static>] = &[
    Step::Make("watch_core_insisted_folder/f", b"abc"),
    Step::Turn,
    Step::Opens(true),
    Step::Remove("watch_core_insisted_folder/f"),
    Step::MakeFolder("watch_core_insisted_folder/f"),
];

/// A file that is removed with its folder while it is open.
const LOST: &[Step<'static>] = &[
    Step::MakeFolder("watch_core_insisted_missing/d"),
    Step::Make("watch_core_insisted_missing/d/f", b"abc"),
    Step::Turn,
    Step::Opens(true),
    Step::Remove("watch_core_insisted_missing/d/f"),
    Step::RemoveFolder("watch_core_insisted_missing/d"),
];

/// Whether the next look sees a file, and whether one is opened.
fn is_found(watch: &mut DirWatch<HostRuntime>) -> Result<(bool, bool), Fault>
    requires { IsTrue (is_watchable watch.old.watched 0) }
    ensures { OnOk result (IsTrue (is_watchable watch.new.watched 0)) }
{
    let found = next_seen(watch)?;
    let is_there = opened(watch)?;
    Ok((found.is_some(), is_there))
}

/// A name that is missing at first, and then leads to a file, which gets another name.
const CLUNG: &[Step<'static>] = &[
    Step::Turn,
    Step::Opens(false),
    Step::Says(Reason::Missing),
    Step::Sees(None),
    Step::Make("watch_core_clung/f", b"abc"),
    Step::Sees(Some(3)),
    Step::Opens(true),
    Step::LatestIsOpen(true),
    Step::Rename("watch_core_clung/f", "watch_core_clung/g"),
    Step::Sees(Some(3)),
    Step::SawSame(true),
    Step::Make("watch_core_clung/f", b"x"),
    Step::Append("watch_core_clung/g", b"de"),
    Step::Sees(Some(5)),
    Step::SawSame(true),
    Step::Remove("watch_core_clung/g"),
    Step::Sees(Some(5)),
    Step::SawSame(true),
    Step::LatestIsOpen(true),
];

/// What a read gives of the file of a name from a place that no file has: it fails.
fn reads_nowhere(
    rt: HostRuntime,
    folder: &str,
    name: &str,
    watch: &mut DirWatch<HostRuntime>,
) -> Result<Result<usize, Fault>, Fail>
    requires { IsTrue (is_watchable watch.old.watched 0) }
{
    make_folder(&rt, folder)?;
    fs::write(&rt, name, b"abc")?;
    watch.turn()?;
    let given = read_at(watch, u64::MAX, &mut [0u8; 3]);
    fs::remove_dir_all(&rt, folder)?;
    Ok(given)
}

#[test]
fn a_failed_read_breaks_a_name_that_stays_with_its_file(rt: HostRuntime) -> Result<(), Fail> {
    let (folder, name) = ("watch_core_clung_read", "watch_core_clung_read/f");
    let mut watch = watch_of(rt, name, How::Clinging)?;
    let given = reads_nowhere(rt, folder, name, &mut watch)?;
    same(&rt, &given, &Err(Fault::Read(0)));
    same(&rt, &watch.open_id(0), &None);
    let mut watch = watch_of(rt, name, How::Forgiving)?;
    let given = reads_nowhere(rt, folder, name, &mut watch)?;
    same(&rt, &given, &Ok(0));
    Ok(())
}

#[test]
fn a_missing_name_breaks_if_the_watch_insists(rt: HostRuntime) -> Result<(), Fail> {
    let mut watch = watch_of(rt, "watch_core_insisted/f", How::Insisting)?;
    watch.turn()?;
    same(&rt, &watch.reopen(0), &Err(Fault::Open(0)));
    same(&rt, &watch.reason(0), &Reason::Missing);
    Ok(())
}

#[test]
fn a_name_in_no_folder(rt: HostRuntime) -> Result<(), Fail> {
    let mut watch = watch_of(rt, "watch_core_no_folder/f", How::Plain)?;
    same(&rt, &is_found(&mut watch), &Ok((false, false)));
    Ok(())
}

/// Whether a first look at this name, and a first opening, return that it can't be opened. Then no file is open.
fn fails_to_open(rt: HostRuntime, name: &str) -> Result<bool, Fault> {
    let looked = watch_of(rt, name, How::Plain)?.look(0) == Err(Fault::Open(0));
    let mut watch = watch_of(rt, name, How::Plain)?;
    let opened = watch.reopen(0) == Err(Fault::Open(0));
    Ok(looked && opened && watch.open_id(0).is_none())
}

#[test]
fn a_file_as_a_folder(rt: HostRuntime) -> Result<(), Fail> {
    let folder = "watch_core_as_folder";
    make_file(&rt, folder, "watch_core_as_folder/f", b"abc")?;
    let is_refused = fails_to_open(rt, "watch_core_as_folder/f/g");
    same(&rt, &is_refused, &Ok(true));
    remove_folder(&rt, folder)
}

/// A name that no file can have, since it has a byte 0.
const WITH_ZERO: &str = "watch_core_zero\0";

#[test]
fn a_name_with_a_byte_0_breaks_though_the_watch_forgives(rt: HostRuntime) -> Result<(), Fail> {
    same(&rt, &fails_to_open(rt, WITH_ZERO), &Ok(true));
    let mut watch = watch_of(rt, WITH_ZERO, How::Forgiving)?;
    same(&rt, &watch.reopen(0), &Err(Fault::Open(0)));
    same(&rt, &watch.reason(0), &Reason::NotUtf8);
    Ok(())
}

/// Whether the file that a name leads to is opened, and its first read fails and gives it back: no file of the name is open then.
fn breaks_at_its_first_read(watch: &mut DirWatch<HostRuntime>) -> Result<bool, Fault>
    requires { IsTrue (is_watchable watch.old.watched 0) }
{
    let found = is_found(watch)?;
    let is_refused = read_at(watch, 0, &mut [0u8; 3]) == Err(Fault::Read(0));
    Ok(found == (true, true) && is_refused && watch.open_id(0).is_none())
}

/// Reads a folder, once that is opened.
fn read_folder(rt: HostRuntime, abort: &impl Abort, folder: &str) -> Result<(), Fault> {
    let mut watch = watch_of(rt, folder, How::Plain)?;
    same(abort, &breaks_at_its_first_read(&mut watch), &Ok(true));
    same(abort, &watch.reason(0), &Reason::Folder);
    Ok(())
}

#[test]
fn a_folder_breaks_at_its_first_read(rt: HostRuntime) -> Result<(), Fail> {
    make_folder(&rt, "watch_core_folder")?;
    read_folder(rt, &rt, "watch_core_folder")?;
    remove_folder(&rt, "watch_core_folder")
}

/// Whether what is open has this length, and a read of three bytes from a place on gives these.
fn has(watch: &mut DirWatch<HostRuntime>, len: u64, from: u64, bytes: &[u8]) -> Result<bool, Fault>
    requires { IsTrue (is_readable watch.old.watched 0) }
    ensures { OnOk result (IsTrue (is_readable watch.new.watched 0)) }
{
    let mut buffer = [0u8; 3];
    let held = watch.open_len(0)?;
    let n = watch.read_at(0, from, &mut buffer)?;
    let given = &buffer[..n];
    Ok(held == len && given == bytes)
}

/// Opens a pipe that holds four bytes, and looks again after more were written, and after its writer is gone: it has what was written.
fn is_read_as_it_comes(
    watch: &mut DirWatch<HostRuntime>,
    mut writer: PipeWriter,
) -> Result<bool, Fail>
    requires { IsTrue (is_watchable watch.old.watched 0) }
{
    watch.turn()?;
    if !opened(watch)? {
        return Ok(false);
    }
    let front = has(watch, 4, 0, b"abc")?;
    let last = has(watch, 4, 3, b"d")?;
    writer.write_all(b"ef")?;
    watch.turn()?;
    let more = has(watch, 6, 4, b"ef")?;
    drop(writer);
    watch.turn()?;
    let end = has(watch, 6, 6, b"")?;
    Ok(front && last && more && end)
}

#[test]
fn a_pipe_is_read_as_it_comes(rt: HostRuntime) -> Result<(), Fail> {
    let (reader, mut writer) = io::pipe(&rt)?;
    let number = reader.as_raw_fd();
    let name = format!(in rt.alloc(); "/proc/self/fd/{number}")?;
    writer.write_all(b"abcd")?;
    let mut watch = watch_of(rt, name.as_str(), How::Plain)?;
    assert!(rt; is_read_as_it_comes(&mut watch, writer)?);
    Ok(())
}

/// The length of what the watched name leads to, once it is opened. None where it can't be.
fn next_len(watch: &mut DirWatch<HostRuntime>) -> Result<Option<u64>, Fault>
    requires { IsTrue (is_watchable watch.old.watched 0) }
{
    watch.turn()?;
    if !opened(watch)? {
        return Ok(None);
    }
    let len = watch.open_len(0)?;
    Ok(Some(len))
}

/// The length of what this name leads to, once it is opened. None where it can't be.
fn len_at(rt: HostRuntime, name: &str) -> Result<Option<u64>, Fault> {
    let mut watch = watch_of(rt, name, How::Plain)?;
    next_len(&mut watch)
}

#[test]
fn files_without_a_length(rt: HostRuntime) -> Result<(), Fail> {
    same(&rt, &len_at(rt, "/dev/null"), &Ok(Some(0)));
    let version = fs::read(&rt, "/proc/version")?;
    assert!(rt; !version.is_empty());
    let wanted = Ok(Some(version.len() as u64));
    same(&rt, &len_at(rt, "/proc/version"), &wanted);
    Ok(())
}
