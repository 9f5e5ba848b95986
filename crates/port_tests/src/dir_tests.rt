//! The real ports over a folder of their own, which each test makes and removes.
ghost use Rattle.std.specs.{Prelude.{◌≡◌, ◌+◌, ◌++◌, ◌∷◌, [], length, IfOk, IsTrue, OnOk}, List.AllPass};
ghost use Rattle.ports_core.specs.{Slot.{can_write, is_writable, opened, streams}, Source.is_readable};

use crate::compare::same;
use crate::dir_steps::{Step, is_left, play, play_in};
use crate::folder::{holds, is_there, make_file, make_folder, remove_folder};
use crate::reading::{Call, ask, inputs_of, open_and_ask, open_input};
use crate::seek_tests::{LOOKED_AT, UNKNOWN};
use crate::writing::outs_of;
use ports_core::{DirIn, DirOut, Fault, InputFiles, Inputs, Mode, Outs, Reason, write_whole};
use std::fs;
use std::process::Abort;
use std::test::Fail;

/// Asks whether the standard streams are still read, and returns whether both are sound after that.
fn are_still_read(outs: &mut DirOut<'_, HostRuntime>) -> Result<bool, Fault>
    requires { outs.old ≡ streams }
{
    outs.still_read(0)?;
    outs.still_read(1)?;
    let is_sound = is_left(outs, 0, "standard output", false);
    Ok(is_sound && is_left(outs, 1, "standard error", false) && is_left(outs, 2, "", false))
}

/// The standard streams are read for all that is seen at first, and both are sound.
#[test]
fn standard_streams_are_still_read(rt: HostRuntime) {
    let noted = InputFiles::new(rt.alloc());
    let mut outs = outs_of(rt, &noted);
    same(&rt, &are_still_read(&mut outs), &Ok(true));
}

/// A file that had bytes is made anew, and then appended to.
const WRITTEN: &[Step<'static>] = &[
    Step::Make("ports_core_written/f", b"longer than that"),
    Step::Write("ports_core_written/f", Mode::Fresh, 2, b"", b"abc"),
    Step::Holds("ports_core_written/f", b"abc"),
    Step::Write("ports_core_written/f", Mode::Append, 3, b"abc", b"de"),
    Step::Holds("ports_core_written/f", b"abcde"),
    Step::Left(0, "standard output", false),
    Step::Left(1, "standard error", false),
    Step::Left(2, "ports_core_written/f", false),
    Step::Left(3, "ports_core_written/f", false),
    Step::Left(4, "", false),
];

/// What is asked of a file with three bytes to its end.
const TO_THE_END: &[Call<'static>] = &[
    Call::Read(4, 3, b"abc"),
    Call::Read(4, 0, b""),
    Call::Read(4, 0, b""),
];

/// An input that was read to its end and one that wasn't read can't be written over, by none of their names.
const SPARED: &[Step<'static>] = &[
    Step::Make("ports_core_spared/f", b"abc"),
    Step::Link("ports_core_spared/f", "ports_core_spared/g"),
    Step::Lead("ports_core_spared/h", "f"),
    Step::Make("ports_core_spared/i", b"def"),
    Step::Ask("ports_core_spared/f", 1, TO_THE_END),
    Step::Ask("ports_core_spared/i", 2, &[]),
    Step::Refuse("ports_core_spared/f", Mode::Fresh, 2),
    Step::Refuse("ports_core_spared/f", Mode::Append, 3),
    Step::Refuse("ports_core_spared/g", Mode::Fresh, 4),
    Step::Refuse("ports_core_spared/g", Mode::Append, 5),
    Step::Refuse("ports_core_spared/i", Mode::Fresh, 6),
    Step::Refuse("ports_core_spared/i", Mode::Append, 7),
    Step::Refuse("ports_core_spared/h", Mode::Fresh, 8),
    Step::Refuse("ports_core_spared/h", Mode::Append, 9),
    Step::Holds("ports_core_spared/f", b"abc"),
    Step::Holds("ports_core_spared/i", b"def"),
];

const DEVICE: &[Step<'static>] = &[
    Step::Ask("/dev/null", 1, &[]),
    Step::WriteOnce("/dev/null", Mode::Fresh, 2, b"abc", Ok(3)),
];

const APPENDED: &[Step<'static>] = &[
    Step::WriteOnce("ports_core_append/f", Mode::Append, 2, b"", Ok(0)),
    Step::Holds("ports_core_append/f", b""),
];

const REMOVED: &[Step<'static>] = &[
    Step::Close("ports_core_removed/f", 2),
    Step::Remove("ports_core_removed/g", 3),
    Step::Lose("ports_core_removed/h", 4),
];

/// A name with a byte 0 opens nothing: neither does what stands before that byte.
const ZERO: &[Step<'static>] = &[
    Step::Refuse("ports_core_zero/f\0", Mode::Fresh, 2),
    Step::Refuse("ports_core_zero/f\0", Mode::Append, 3),
    Step::Says(2, Reason::NotUtf8),
    Step::Says(3, Reason::NotUtf8),
    Step::IsThere("ports_core_zero/f", false),
    Step::Make("ports_core_zero/f", b"abc"),
    Step::RefuseInput("ports_core_zero/f\0", 1),
    Step::InputSays(1, Reason::NotUtf8),
];

/// A folder, a file in no folder, and a file that the user may not open.
const CLOSED_OFF: &[Step<'static>] = &[
    Step::Refuse("ports_core_closed_off", Mode::Fresh, 2),
    Step::Refuse("ports_core_closed_off/no/f", Mode::Append, 3),
    Step::CloseOff("ports_core_closed_off/f"),
];

const FULL: &[Step<'static>] = &[
    Step::WriteOnce("/dev/full", Mode::Append, 2, b"abc", Err(Fault::Write(2))),
    Step::Left(2, "/dev/full", true),
    Step::Left(0, "standard output", false),
];

/// A file with four bytes is read in pieces of three, and then the first piece of it alone.
const READ: &[Step<'static>] = &[
    Step::Make("ports_core_read/f", b"abcd"),
    Step::RefuseInput("ports_core_read/g", 1),
    Step::Ask(
        "ports_core_read/f",
        2,
        &[
            Call::Read(3, 3, b"abc"),
            Call::Read(3, 1, b"dbc"),
            Call::Read(3, 0, b"dbc"),
        ],
    ),
    Step::Ask("ports_core_read/f", 3, &[Call::Read(3, 3, b"abc")]),
];

/// A read into no room, and one into enough.
const NO_ROOM: &[Step<'static>] = &[
    Step::Make("ports_core_no_room/f", b"abc"),
    Step::Ask(
        "ports_core_no_room/f",
        1,
        &[Call::Read(0, 0, b""), Call::Read(4, 3, b"abc")],
    ),
];

/// A folder opens, and its first read fails. It shows nothing.
const FOLDER: &[Step<'static>] = &[
    Step::Ask(".", 1, &[Call::Fails(8, Fault::Read(1))]),
    Step::Ask(".", 2, UNKNOWN),
];

/// A device has no end, and shows nothing.
const ENDLESS: &[Step<'static>] = &[Step::Ask(
    "/dev/zero",
    1,
    &[Call::Shown(None), Call::Read(1, 1, b"\0")],
)];

/// What is no plain file, and what is done with it.
const OTHER_FILES: &[(&str, &[Step<'static>])] = &[
    ("/dev/null", DEVICE),
    ("/dev/full", FULL),
    ("/dev/zero", ENDLESS),
    (".", FOLDER),
];

/// Some systems lack a device.
#[test]
fn devices_and_a_folder(rt: HostRuntime) -> Result<(), Fail> {
    for (name, steps) in OTHER_FILES {
        if is_there(&rt, name) {
            play(&rt, rt, name, steps)?;
        }
    }
    Ok(())
}

/// A folder, and what is done there and must come of it.
const FOLDERS: &[(&str, &[Step<'static>])] = &[
    ("ports_core_written", WRITTEN),
    ("ports_core_spared", SPARED),
    ("ports_core_append", APPENDED),
    ("ports_core_removed", REMOVED),
    ("ports_core_zero", ZERO),
    ("ports_core_closed_off", CLOSED_OFF),
    ("ports_core_read", READ),
    ("ports_core_no_room", NO_ROOM),
    ("ports_core_looks", LOOKED_AT),
];

#[test]
fn each_step_has_its_result(rt: HostRuntime) -> Result<(), Fail> {
    for (folder, steps) in FOLDERS {
        play_in(&rt, rt, folder, steps)?;
    }
    Ok(())
}

/// This many outputs are open at once. Where `tests/files` sets a limit, it is more than the system lets be open, and
/// files are put aside and opened again.
const MANY: usize = 300;

/// What is done with many outputs, and what must come of it.
#[derive(Clone, Copy)]
enum Deed<'a> {
    /// Lines are written to each in turn, three times.
    Write,
    /// The first is closed, and its file is there.
    Close(&'a str),
    /// The first is removed, and its file isn't there.
    Remove(&'a str),
    /// The file of the first is removed, and the output is written to: that fails and breaks it just as is wanted, since the
    /// file is missing, and it isn't there.
    WriteToNone(&'a str, bool),
}

/// Opens outputs to the files 0, 1, .. of a folder.
fn open_many(
    rt: &HostRuntime,
    outs: &mut DirOut<'_, HostRuntime>,
    folder: &str,
    mode: Mode,
) -> Result<(), Fail>
    requires { outs.old ≡ streams }
    ensures { OnOk result ((length outs.new ≡ MANY + 2) × AllPass can_write outs.new) }
{
    for number in 0..MANY {
        let name = format!(in rt.alloc(); "{folder}/{number}")?;
        outs.open(name.as_str(), mode)?;
    }
    Ok(())
}

/// Writes to each of the files in turn.
fn write_many(
    rt: &HostRuntime,
    outs: &mut DirOut<'_, HostRuntime>,
    round: usize,
) -> Result<(), Fail>
    requires many { length outs.old ≡ MANY + 2 }
    requires open { AllPass can_write outs.old }
    ensures { IfOk result (λ _. outs.new ≡ outs.old) }
{
    for number in 0..MANY {
        let line = format!(in rt.alloc(); "{number} {round}\n")?;
        write_whole(outs, number + 2, line.as_bytes())?;
    }
    Ok(())
}

/// Writes to each of the files in turn, three times.
fn write_rounds(rt: &HostRuntime, outs: &mut DirOut<'_, HostRuntime>) -> Result<bool, Fail>
    requires many { length outs.old ≡ MANY + 2 }
    requires open { AllPass can_write outs.old }
{
    for round in 0..3 {
        write_many(rt, outs, round)?;
    }
    Ok(true)
}

/// Does with many outputs what is to be done, and returns whether that came of it which must.
fn does(rt: &HostRuntime, outs: &mut DirOut<'_, HostRuntime>, deed: &Deed<'_>) -> Result<bool, Fail>
    requires many { length outs.old ≡ MANY + 2 }
    requires open { AllPass can_write outs.old }
{
    match deed {
        Deed::Write => write_rounds(rt, outs),
        Deed::Close(first) => {
            let is_done = outs.close(2).is_ok();
            Ok(is_done && is_there(rt, first) && !outs.broken(2))
        }
        Deed::Remove(first) => {
            let is_done = outs.remove(2).is_ok();
            Ok(is_done && !is_there(rt, first) && !outs.broken(2))
        }
        Deed::WriteToNone(first, is_wanted) => {
            fs::remove_file(rt, first)?;
            let fails = outs.write(2, b"abc").is_err();
            let is_missing = outs.reason(2) == Reason::Missing;
            let is_so = fails == *is_wanted && is_missing == *is_wanted;
            Ok(is_so && outs.broken(2) == *is_wanted && !is_there(rt, first))
        }
    }
}

/// Opens many outputs, the first that are opened, and does with them what is to be done.
fn open_and_do(
    abort: &impl Abort,
    rt: &HostRuntime,
    outs: &mut DirOut<'_, HostRuntime>,
    folder: &str,
    mode: Mode,
    deed: &Deed<'_>,
) -> Result<(), Fail>
    requires { outs.old ≡ streams }
{
    open_many(rt, outs, folder, mode)?;
    assert!(abort; does(rt, outs, deed)?);
    Ok(())
}

/// Does with many outputs what is to be done.
fn do_with_many(
    abort: &impl Abort,
    rt: HostRuntime,
    folder: &str,
    mode: Mode,
    deed: &Deed<'_>,
) -> Result<(), Fail> {
    let noted = InputFiles::new(rt.alloc());
    let mut outs = outs_of(rt, &noted);
    open_and_do(abort, &rt, &mut outs, folder, mode, deed)
}

/// Whether a file holds the lines of all rounds twice, which name this number.
fn holds_lines(rt: &HostRuntime, name: &str, number: usize) -> Result<bool, Fail> {
    let lines = format!(in rt.alloc();
        "{number} 0\n{number} 1\n{number} 2\n{number} 0\n{number} 1\n{number} 2\n"
    )?;
    holds(rt, name, lines.as_bytes())
}

/// Whether the file of this number in the folder does.
fn holds_rounds(rt: &HostRuntime, folder: &str, number: usize) -> Result<bool, Fail> {
    let name = format!(in rt.alloc(); "{folder}/{number}")?;
    holds_lines(rt, name.as_str(), number)
}

#[test]
fn more_outputs_than_may_be_open(rt: HostRuntime) -> Result<(), Fail> {
    let folder = "ports_core_many";
    make_file(&rt, folder, "ports_core_many/7", b"old")?;
    do_with_many(&rt, rt, folder, Mode::Fresh, &Deed::Write)?;
    do_with_many(&rt, rt, folder, Mode::Append, &Deed::Write)?;
    for number in 0..MANY {
        assert!(rt; holds_rounds(&rt, folder, number)?, "at {number}");
    }
    remove_folder(&rt, folder)
}

#[test]
fn what_is_put_aside_is_closed_and_removed(rt: HostRuntime) -> Result<(), Fail> {
    let folder = "ports_core_aside";
    let first = "ports_core_aside/0";
    make_folder(&rt, folder)?;
    do_with_many(&rt, rt, folder, Mode::Fresh, &Deed::Close(first))?;
    do_with_many(&rt, rt, folder, Mode::Append, &Deed::Remove(first))?;
    remove_folder(&rt, folder)
}

/// Opens files until no more can be opened, or until there are `MANY`.
fn take_all(rt: HostRuntime) -> Result<Vec<fs::File>, Fail> {
    let mut taken = Vec::new(rt.alloc());
    for _ in 0..MANY {
        match fs::open(&rt, ".") {
            Ok(file) => taken.push(file)?,
            Err(_) => return Ok(taken),
        }
    }
    Ok(taken)
}

/// Whether the system lets fewer than `MANY` files be open at once.
fn is_limited(rt: HostRuntime) -> Result<bool, Fail> {
    Ok(take_all(rt)?.len() < MANY)
}

#[test]
fn what_is_put_aside_is_not_made_anew(rt: HostRuntime) -> Result<(), Fail> {
    let folder = "ports_core_anew";
    make_folder(&rt, folder)?;
    let deed = Deed::WriteToNone("ports_core_anew/0", is_limited(rt)?);
    do_with_many(&rt, rt, folder, Mode::Fresh, &deed)?;
    remove_folder(&rt, folder)
}

/// Opens a second output and writes to both in turns, and closes the first.
fn write_in_turns(
    outs: &mut DirOut<'_, HostRuntime>,
    first: &str,
    second: &str,
) -> Result<(), Fault>
    requires { outs.old ≡ streams ++ opened first.now Mode.Fresh ∷ [] }
    ensures { OnOk result (IsTrue (is_writable outs.new 3)) }
{
    outs.open(second, Mode::Append)?;
    outs.write(2, b"a")?;
    outs.write(3, b"b")?;
    outs.write(2, b"c")?;
    outs.close(2)
}

/// Writes to the second of two outputs while no more files can be open, and nothing is left to put aside: whether the write
/// fails, and breaks its output.
fn write_last(rt: HostRuntime, outs: &mut DirOut<'_, HostRuntime>) -> Result<(bool, bool), Fail>
    requires { IsTrue (is_writable outs.old 3) }
{
    let _last = take_all(rt)?;
    Ok((outs.write(3, b"d").is_err(), outs.broken(3)))
}

/// Writes to two outputs, of which the first is open, and then once more to the second.
fn write_to_both(
    rt: HostRuntime,
    outs: &mut DirOut<'_, HostRuntime>,
    first: &str,
    second: &str,
) -> Result<(bool, bool), Fail>
    requires { outs.old ≡ streams ++ opened first.now Mode.Fresh ∷ [] }
{
    write_in_turns(outs, first, second)?;
    write_last(rt, outs)
}

/// Does that while no more files can be open than there are.
fn write_without_files(
    rt: HostRuntime,
    outs: &mut DirOut<'_, HostRuntime>,
    first: &str,
    second: &str,
) -> Result<(bool, bool), Fail>
    requires { outs.old ≡ streams ++ opened first.now Mode.Fresh ∷ [] }
{
    let _taken = take_all(rt)?;
    write_to_both(rt, outs, first, second)
}

/// Opens the first output, and then does that.
fn open_and_write(
    rt: HostRuntime,
    outs: &mut DirOut<'_, HostRuntime>,
    first: &str,
    second: &str,
) -> Result<(bool, bool), Fail>
    requires { outs.old ≡ streams }
{
    outs.open(first, Mode::Fresh)?;
    write_without_files(rt, outs, first, second)
}

/// Writes to two files while no more can be open: whether the last write fails, and breaks its output.
fn write_to_two(rt: HostRuntime, first: &str, second: &str) -> Result<(bool, bool), Fail> {
    let noted = InputFiles::new(rt.alloc());
    let mut outs = outs_of(rt, &noted);
    open_and_write(rt, &mut outs, first, second)
}

#[test]
fn one_file_is_open_at_a_time(rt: HostRuntime) -> Result<(), Fail> {
    let first = "ports_core_one/a";
    let second = "ports_core_one/b";
    make_folder(&rt, "ports_core_one")?;
    let is_limited = is_limited(rt)?;
    let fails = write_to_two(rt, first, second)?;
    assert!(rt; fails == (is_limited, is_limited));
    assert!(rt; holds(&rt, first, b"ac")?);
    let written = if is_limited {
        b"b".as_slice()
    } else {
        b"bd".as_slice()
    };
    assert!(rt; holds(&rt, second, written)?);
    remove_folder(&rt, "ports_core_one")
}

/// Opens a file many times and reads it to its end. None is left for want of files.
fn read_many(
    abort: &impl Abort,
    inputs: &mut DirIn<'_, HostRuntime>,
    name: &str,
) -> Result<(), Fault> {
    for number in 1..=MANY {
        open_and_ask(abort, inputs, name, number, TO_THE_END)?;
    }
    Ok(())
}

/// Opens a file many times, and reads none to its end.
fn open_all(inputs: &mut DirIn<'_, HostRuntime>, name: &str) -> Result<(), Fault> {
    for _ in 0..MANY {
        inputs.open(name)?;
    }
    Ok(())
}

/// Opens a file many times and reads it to its end, and then opens it as often again.
fn read_and_open_many(
    abort: &impl Abort,
    inputs: &mut DirIn<'_, HostRuntime>,
    name: &str,
) -> Result<(), Fault> {
    read_many(abort, inputs, name)?;
    open_all(inputs, name)
}

/// Does that with the inputs of a run of its own.
fn open_and_read_many(rt: HostRuntime, abort: &impl Abort, name: &str) -> Result<(), Fault> {
    let noted = InputFiles::new(rt.alloc());
    let mut inputs = inputs_of(rt, &noted);
    read_and_open_many(abort, &mut inputs, name)
}

/// Opens a third input and reads it, and then two inputs, one that was read to its end and one that wasn't: whether a read of the
/// last fails.
fn read_three(
    abort: &impl Abort,
    inputs: &mut DirIn<'_, HostRuntime>,
    name: &str,
) -> Result<bool, Fail>
    requires left { IsTrue (is_readable inputs.old 1) }
    requires ended { IsTrue (is_readable inputs.old 2) }
{
    open_input(abort, inputs, name, 3)?;
    ask(abort, inputs, 3, &[Call::Read(2, 2, b"ab")]);
    ask(abort, inputs, 2, &[Call::Read(2, 0, b"")]);
    Ok(inputs.read(1, &mut [0; 2]).is_err())
}

/// Does that while no more files can be open.
fn read_without_files(
    rt: HostRuntime,
    abort: &impl Abort,
    inputs: &mut DirIn<'_, HostRuntime>,
    name: &str,
) -> Result<bool, Fail>
    requires left { IsTrue (is_readable inputs.old 1) }
    requires ended { IsTrue (is_readable inputs.old 2) }
{
    let _taken = take_all(rt)?;
    read_three(abort, inputs, name)
}

/// Opens two inputs and reads the second to its end, opens many more elsewhere, and reads both while no more files can be open: a
/// read of the first fails if few may be open.
fn read_two(
    rt: HostRuntime,
    abort: &impl Abort,
    inputs: &mut DirIn<'_, HostRuntime>,
    name: &str,
) -> Result<(), Fail> {
    open_input(abort, inputs, name, 1)?;
    open_input(abort, inputs, name, 2)?;
    let calls = &[Call::Read(4, 3, b"abc"), Call::Read(4, 0, b"")];
    assert!(abort; ask(abort, inputs, 2, calls));
    let is_limited = is_limited(rt)?;
    open_and_read_many(rt, abort, name)?;
    assert!(abort; read_without_files(rt, abort, inputs, name)? == is_limited);
    Ok(())
}

/// Does that with the inputs of a run.
fn open_and_read_two(rt: HostRuntime, abort: &impl Abort, name: &str) -> Result<(), Fail> {
    let noted = InputFiles::new(rt.alloc());
    let mut inputs = inputs_of(rt, &noted);
    read_two(rt, abort, &mut inputs, name)
}

#[test]
fn more_inputs_than_may_be_open(rt: HostRuntime) -> Result<(), Fail> {
    let name = "ports_core_inputs/f";
    make_file(&rt, "ports_core_inputs", name, b"abc")?;
    open_and_read_two(rt, &rt, name)?;
    remove_folder(&rt, "ports_core_inputs")
}
