//! The real ports over files as tables of steps: what is done, and what must come of it.
use crate::folder::{holds, is_there, make_folder, remove_folder};
use crate::reading::{Call, inputs_of, open_and_ask};
use crate::writing::{open_output, outs_of};
use ports_core::{DirIn, DirOut, Fault, InputFiles, Inputs, Mode, Outs, Reason, write_whole};
use std::fs;
use std::os::unix::fs::{PermissionsExt, symlink};
use std::process::Abort;
use std::test::Fail;

/// What is done with files and the ports of a run, and what must come of it. Outputs and inputs have numbers in the order in which
/// they are opened.
#[derive(Clone, Copy)]
pub(crate) enum Step<'a> {
    /// A file of this name is made, with these bytes.
    Make(&'a str, &'a [u8]),
    /// The file of a name gets a second name.
    Link(&'a str, &'a str),
    /// A name is made that leads to another one.
    Lead(&'a str, &'a str),
    /// There is a file of this name, or none.
    IsThere(&'a str, bool),
    /// A file holds these bytes.
    Holds(&'a str, &'a [u8]),
    /// An output is opened, its file then holds these bytes, and the whole of a piece is written.
    Write(&'a str, Mode, usize, &'a [u8], &'a [u8]),
    /// An output is opened, and one write of a piece gives this.
    WriteOnce(&'a str, Mode, usize, &'a [u8], Result<usize, Fault>),
    /// An output is opened and closed. Its file is there, and it isn't broken.
    Close(&'a str, usize),
    /// An output is opened and removed. Its file isn't there any more, and it isn't broken.
    Remove(&'a str, usize),
    /// An output is opened, and its file is removed by hand. Then its removal fails and breaks it, since the file is missing.
    Lose(&'a str, usize),
    /// An output isn't opened. It is broken.
    Refuse(&'a str, Mode, usize),
    /// A file that no user but root may open is made. It is no output, the fourth, and no input, the first.
    CloseOff(&'a str),
    /// The output of this number has this name, and is broken or not.
    Left(usize, &'a str, bool),
    /// This is why an output is broken.
    Says(usize, Reason),
    /// An input is opened, and all these calls are made for it.
    Ask(&'a str, usize, &'a [Call<'a>]),
    /// An input isn't opened.
    RefuseInput(&'a str, usize),
    /// This is why an input is broken.
    InputSays(usize, Reason),
}

/// Makes a folder, takes all steps there with the ports of a run, and removes it.
pub(crate) fn play_in(
    abort: &impl Abort,
    rt: HostRuntime,
    folder: &str,
    steps: &[Step<'_>],
) -> Result<(), Fail> {
    make_folder(&rt, folder)?;
    play(abort, rt, folder, steps)?;
    remove_folder(&rt, folder)
}

/// Takes all steps in a folder with the ports of a run.
pub(crate) fn play(
    abort: &impl Abort,
    rt: HostRuntime,
    folder: &str,
    steps: &[Step<'_>],
) -> Result<(), Fail> {
    let noted = InputFiles::new(rt.alloc());
    let mut outs = outs_of(rt, &noted);
    let mut inputs = inputs_of(rt, &noted);
    take_all(abort, &rt, &mut outs, &mut inputs, folder, steps)
}

fn take_all(
    abort: &impl Abort,
    rt: &HostRuntime,
    outs: &mut DirOut<'_, HostRuntime>,
    inputs: &mut DirIn<'_, HostRuntime>,
    folder: &str,
    steps: &[Step<'_>],
) -> Result<(), Fail> {
    let mut number = 0usize;
    for step in steps {
        let is_so = take(abort, rt, outs, inputs, step)?;
        assert!(abort; is_so, "in {folder}, at step {number}");
        number = number.saturating_add(1);
    }
    Ok(())
}

/// Takes a step, and returns whether that came of it which must.
fn take(
    abort: &impl Abort,
    rt: &HostRuntime,
    outs: &mut DirOut<'_, HostRuntime>,
    inputs: &mut DirIn<'_, HostRuntime>,
    step: &Step<'_>,
) -> Result<bool, Fail> {
    match step {
        Step::Ask(name, number, calls) => {
            open_and_ask(abort, inputs, name, *number, calls)?;
            Ok(true)
        }
        Step::RefuseInput(name, number) => Ok(inputs.open(name) == Err(Fault::Open(*number))),
        Step::InputSays(number, why) => Ok(inputs.reason(*number) == *why),
        Step::CloseOff(name) => close_off(rt, outs, inputs, name),
        _ => put(abort, rt, outs, step),
    }
}

/// Takes a step with outputs.
fn put(
    abort: &impl Abort,
    rt: &HostRuntime,
    outs: &mut DirOut<'_, HostRuntime>,
    step: &Step<'_>,
) -> Result<bool, Fail> {
    match step {
        Step::Write(name, mode, number, before, piece) => {
            let slot = open_output(abort, outs, name, *mode, *number)?;
            let is_so = holds(rt, name, before)?;
            write_whole(outs, slot, piece)?;
            Ok(is_so)
        }
        Step::WriteOnce(name, mode, number, piece, given) => {
            let slot = open_output(abort, outs, name, *mode, *number)?;
            Ok(outs.write(slot, piece) == *given)
        }
        Step::Close(name, number) => open_and_close(abort, rt, outs, name, *number),
        Step::Remove(name, number) => open_and_remove(abort, rt, outs, name, *number),
        Step::Lose(name, number) => open_and_lose(abort, rt, outs, name, *number),
        Step::Refuse(name, mode, number) => Ok(is_refused(outs, name, *mode, *number)),
        Step::Left(number, name, is_broken) => Ok(is_left(outs, *number, name, *is_broken)),
        Step::Says(number, why) => Ok(outs.reason(*number) == *why),
        _ => edit(rt, step),
    }
}

/// Changes files, or looks at them.
fn edit(rt: &HostRuntime, step: &Step<'_>) -> Result<bool, Fail> {
    match step {
        Step::Make(name, bytes) => fs::write(rt, name, *bytes)?,
        Step::Link(name, other) => fs::hard_link(rt, name, other)?,
        Step::Lead(name, to) => symlink(rt, to, name)?,
        Step::IsThere(name, is_wanted) => return Ok(is_there(rt, name) == *is_wanted),
        Step::Holds(name, bytes) => return holds(rt, name, bytes),
        _ => {}
    }
    Ok(true)
}

/// Opens an output and closes it. Returns whether its file is there, and it isn't broken.
fn open_and_close(
    abort: &impl Abort,
    rt: &HostRuntime,
    outs: &mut DirOut<'_, HostRuntime>,
    name: &str,
    number: usize,
) -> Result<bool, Fail> {
    let slot = open_output(abort, outs, name, Mode::Fresh, number)?;
    outs.close(slot)?;
    Ok(is_there(rt, name) && !outs.broken(slot))
}

/// Opens an output and removes it. Returns whether its file isn't there any more, and it isn't broken.
fn open_and_remove(
    abort: &impl Abort,
    rt: &HostRuntime,
    outs: &mut DirOut<'_, HostRuntime>,
    name: &str,
    number: usize,
) -> Result<bool, Fail> {
    let slot = open_output(abort, outs, name, Mode::Fresh, number)?;
    outs.remove(slot)?;
    Ok(!is_there(rt, name) && !outs.broken(slot))
}

/// Opens an output and removes its file by hand. Returns whether its removal fails and breaks it, since the file is missing.
fn open_and_lose(
    abort: &impl Abort,
    rt: &HostRuntime,
    outs: &mut DirOut<'_, HostRuntime>,
    name: &str,
    number: usize,
) -> Result<bool, Fail> {
    let slot = open_output(abort, outs, name, Mode::Fresh, number)?;
    fs::remove_file(rt, name)?;
    let is_refused = outs.remove(slot) == Err(Fault::Write(number));
    Ok(is_refused && outs.broken(slot) && outs.reason(slot) == Reason::Missing)
}

/// Whether an output isn't opened, which uses up this number and is broken.
fn is_refused(outs: &mut DirOut<'_, HostRuntime>, name: &str, mode: Mode, number: usize) -> bool {
    outs.open(name, mode) == Err(Fault::Open(number)) && is_left(outs, number, name, true)
}

/// Whether an output has this name, and is broken or not.
pub(crate) fn is_left(
    outs: &DirOut<'_, HostRuntime>,
    number: usize,
    name: &str,
    is_broken: bool,
) -> bool {
    outs.name(number) == name && outs.broken(number) == is_broken
}

/// Makes a file that no user but root may open. Returns whether it is no output, the fourth, and no input, the first.
fn close_off(
    rt: &HostRuntime,
    outs: &mut DirOut<'_, HostRuntime>,
    inputs: &mut DirIn<'_, HostRuntime>,
    name: &str,
) -> Result<bool, Fail> {
    fs::write(rt, name, b"abc".as_slice())?;
    fs::set_permissions(rt, name, fs::Permissions::from_mode(0))?;
    // Root may open every file, and then there is no fault to see.
    let is_root = fs::open(rt, name).is_ok();
    Ok(is_root || is_closed_off(outs, inputs, name))
}

fn is_closed_off(
    outs: &mut DirOut<'_, HostRuntime>,
    inputs: &mut DirIn<'_, HostRuntime>,
    name: &str,
) -> bool {
    is_refused(outs, name, Mode::Fresh, 4) && inputs.open(name) == Err(Fault::Open(1))
}
