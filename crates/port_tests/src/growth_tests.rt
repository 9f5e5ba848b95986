//! Calls of which `tests/refusals` refuses each growth of memory in turn. Without a refusal both tests of a pair pass; where one
//! growth is refused, the test `NAME` fails, and `NAME_or_are_refused` passes: the call says so, what was there stays, and the same
//! call made again has its result.
ghost use Rattle.std.specs.Prelude.{◌≡◌};
ghost use Rattle.ports_core.specs.Slot.{streams};

use crate::compare::{same, same_bytes};
use engine_core::Names;
use mem_core::{Edit, MemIn, MemOut, MemWatch};
use ports_core::{
    Alphabet, Base, Fault, Filling, Form, Inputs, Mode, Naming, Numbering, Outs, Tool, header,
    message, numbered, write_whole,
};
use std::alloc::Global;
use std::process::Abort;
use watch_core::Watch;

/// A call that may find no memory.
#[derive(Clone, Copy, Debug)]
enum Call {
    Inputs,
    Input,
    InputShowing,
    File,
    FileShowing,
    Break,
    OpenInput,
    Outputs,
    Limit,
    OpenOutput,
    Write,
    Watch,
    Then,
    Add,
    Turn,
    Names,
    Next,
    Numbered,
    Formatted,
    Header,
    Message,
}

const CALLS: &[Call] = &[
    Call::Inputs,
    Call::Input,
    Call::InputShowing,
    Call::File,
    Call::FileShowing,
    Call::Break,
    Call::OpenInput,
    Call::Outputs,
    Call::Limit,
    Call::OpenOutput,
    Call::Write,
    Call::Watch,
    Call::Then,
    Call::Add,
    Call::Turn,
    Call::Names,
    Call::Next,
    Call::Numbered,
    Call::Formatted,
    Call::Header,
    Call::Message,
];

/// No growth is the test's own.
#[test]
fn nothing() {}

#[test]
fn calls_succeed(rt: HostRuntime) {
    for call in CALLS {
        assert!(rt; makes(&rt, rt.alloc(), *call) == Ok(()), "at {call:?}");
    }
}

#[test]
fn calls_succeed_or_are_refused(rt: HostRuntime) {
    for call in CALLS {
        if let Err(fault) = makes(&rt, rt.alloc(), *call) {
            assert!(rt; is_refusal(*call, fault), "at {call:?}: {fault:?}");
            assert!(rt;
                makes(&rt, rt.alloc(), *call) == Ok(()),
                "at {call:?}, made again"
            );
        }
    }
}

/// Whether this tells want of memory. An output in memory that finds none isn't opened, or breaks.
fn is_refusal(call: Call, fault: Fault) -> bool {
    match fault {
        Fault::Memory => true,
        Fault::Open(2) => matches!(call, Call::OpenOutput),
        Fault::Write(0) => matches!(call, Call::Write),
        _ => false,
    }
}

/// Makes a call, after others, and checks what it gives; and makes it again where it was refused. Returns the first refusal.
fn makes(rt: &impl Abort, alloc: Global, call: Call) -> Result<(), Fault> {
    match call {
        Call::Inputs
        | Call::Input
        | Call::InputShowing
        | Call::File
        | Call::FileShowing
        | Call::Break
        | Call::OpenInput => with_inputs(rt, alloc, call),
        Call::Outputs | Call::Limit | Call::OpenOutput | Call::Write => {
            with_outputs(rt, alloc, call)
        }
        Call::Watch | Call::Then | Call::Add | Call::Turn => with_watch(rt, alloc, call),
        _ => makes_text(rt, alloc, call),
    }
}

/// Makes a call that makes a name or another text.
fn makes_text(rt: &impl Abort, alloc: Global, call: Call) -> Result<(), Fault> {
    match call {
        Call::Names => end_of(Names::new(alloc, "x", Alphabet::Letters, 2, true, ".txt")),
        Call::Next => next(rt, alloc),
        Call::Numbered => end_of(numbered(alloc, "xx", 2, 7)),
        Call::Formatted => formatted(alloc),
        Call::Header => end_of(header(alloc, "f", false)),
        _ => end_of(message(alloc, Tool::Head, &Fault::Open(1), "g")),
    }
}

/// How a call ended, whatever it made.
fn end_of<T: Drop>(made: Result<T, Fault>) -> Result<(), Fault> {
    match made {
        Ok(_) => Ok(()),
        Err(fault) => Err(fault),
    }
}

/// A name whose number outgrows its room.
fn formatted(alloc: Global) -> Result<(), Fault> {
    let form = Form {
        base: Base::Hex,
        is_marked: true,
        width: 40,
        filling: Filling::BlanksAfter,
        precision: 30,
    };
    let naming = Naming::new(alloc, "xx", Numbering::Formatted(form), ".txt")?;
    end_of(naming.name_at(7))
}

/// Gives inputs something to read, or lets one break off.
fn give(inputs: &mut MemIn, call: Call) -> Result<(), Fault> {
    match call {
        Call::Input => inputs.input(b"abc"),
        Call::InputShowing => inputs.input_showing(b"abc", b"xyz"),
        Call::File => inputs.file("f", b"abc"),
        Call::FileShowing => inputs.file_showing("f", b"abc", b"xyz"),
        _ => inputs.break_at(1, 2),
    }
}

/// Gives inputs something, and again if it was refused.
fn give_again(rt: &impl Abort, inputs: &mut MemIn, call: Call) -> Result<(), Fault> {
    let first = give(inputs, call);
    if first.is_err() {
        same(rt, &give(inputs, call), &Ok(()));
    }
    first
}

/// An input that found no room has no number, and gets the same one at the second try.
fn open_file(rt: &impl Abort, inputs: &mut MemIn) -> Result<(), Fault> {
    inputs.file("f", b"abc")?;
    match inputs.open("f") {
        Ok(slot) => {
            same(rt, &slot, &1);
            Ok(())
        }
        Err(fault) => {
            same(rt, &inputs.open("f"), &Ok(1));
            Err(fault)
        }
    }
}

/// Makes a call with new inputs.
fn with_inputs(rt: &impl Abort, alloc: Global, call: Call) -> Result<(), Fault> {
    let mut inputs = MemIn::new(alloc)?;
    match call {
        Call::Inputs => Ok(()),
        Call::OpenInput => open_file(rt, &mut inputs),
        _ => give_again(rt, &mut inputs, call),
    }
}

fn limit(rt: &impl Abort, outs: &mut MemOut) -> Result<(), Fault> {
    let first = outs.limit(2, 3);
    if first.is_err() {
        same(rt, &outs.limit(2, 3), &Ok(()));
    }
    first
}

/// An output that found no room has used up its number.
fn open_output(rt: &impl Abort, outs: &mut MemOut) -> Result<(), Fault> {
    match outs.open("f", Mode::Fresh) {
        Ok(slot) => {
            same(rt, &slot, &2);
            Ok(())
        }
        Err(fault) => {
            assert!(rt; outs.broken(2) && outs.bytes(2).is_empty());
            same(rt, &outs.open("f", Mode::Fresh), &Ok(3));
            Err(fault)
        }
    }
}

/// An output that finds no room breaks, and keeps what it has.
fn write(rt: &impl Abort, outs: &mut MemOut) -> Result<(), Fault>
    requires { outs.old ≡ streams }
{
    match write_whole(outs, 0, b"abc") {
        Ok(()) => {
            same_bytes(rt, outs.bytes(0), b"abc");
            Ok(())
        }
        Err(cut) => {
            assert!(rt; cut.slot == 0 && cut.written == 0 && outs.broken(0));
            assert!(rt; outs.bytes(0).is_empty());
            Err(Fault::Write(0))
        }
    }
}

/// Makes a call with new outputs.
fn with_outputs(rt: &impl Abort, alloc: Global, call: Call) -> Result<(), Fault> {
    let mut outs = MemOut::new(alloc)?;
    match call {
        Call::Outputs => Ok(()),
        Call::Limit => limit(rt, &mut outs),
        Call::OpenOutput => open_output(rt, &mut outs),
        _ => write(rt, &mut outs),
    }
}

/// Plans a look, and then another one.
fn plan_two(rt: &impl Abort, watch: &mut MemWatch) -> Result<(), Fault> {
    watch.then(&[Edit::Replace("f", b"abc")])?;
    let edits = &[
        Edit::Append("f", b"d"),
        Edit::Replace("g", b"e"),
        Edit::Remove("f"),
    ];
    let first = watch.then(edits);
    if first.is_err() {
        same(rt, &watch.then(edits), &Ok(()));
    }
    first
}

/// A name that found no room has no number.
fn add(rt: &impl Abort, watch: &mut MemWatch) -> Result<(), Fault> {
    match watch.add("f") {
        Ok(place) => {
            same(rt, &place, &0);
            Ok(())
        }
        Err(fault) => {
            same(rt, &watch.add("f"), &Ok(0));
            Err(fault)
        }
    }
}

/// A look that wasn't planned needs room for what it sees.
fn look_on(rt: &impl Abort, watch: &mut MemWatch) -> Result<(), Fault> {
    watch.then(&[Edit::Replace("f", b"abc")])?;
    watch.turn()?;
    let first = watch.turn();
    if first.is_err() {
        same(rt, &watch.turn(), &Ok(()));
    }
    first
}

/// Makes a call with a new watch.
fn with_watch(rt: &impl Abort, alloc: Global, call: Call) -> Result<(), Fault> {
    let mut watch = MemWatch::new(alloc)?;
    match call {
        Call::Watch => Ok(()),
        Call::Then => plan_two(rt, &mut watch),
        Call::Add => add(rt, &mut watch),
        _ => look_on(rt, &mut watch),
    }
}

/// Whether this name was drawn.
fn is_name(drawn: Option<String>, wanted: &str) -> bool {
    match drawn {
        Some(name) => name.as_str() == wanted,
        None => false,
    }
}

/// Draws a name, which is this one.
fn draw(rt: &impl Abort, names: &mut Names, wanted: &str) -> Result<(), Fault> {
    let drawn = names.next()?;
    assert!(rt; is_name(drawn, wanted));
    Ok(())
}

/// A name that wasn't drawn is the next one.
fn draw_two(rt: &impl Abort, names: &mut Names) -> Result<(), Fault> {
    let first = draw(rt, names, "xaa");
    if first.is_err() {
        draw(rt, names, "xaa")?;
    }
    draw(rt, names, "xab")?;
    first
}

fn next(rt: &impl Abort, alloc: Global) -> Result<(), Fault> {
    let mut names = Names::new(alloc, "x", Alphabet::Letters, 2, true, "")?;
    draw_two(rt, &mut names)
}
