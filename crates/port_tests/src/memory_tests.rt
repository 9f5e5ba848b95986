//! Calls that may return `Memory`, made with ample memory, and texts compared with the manual's.
ghost use Rattle.std.specs.Prelude.{IfOk, IsTrue, OnOk};
ghost use Rattle.ports_core.specs.{Slot.is_removable, Source.is_readable};

use crate::compare::{same, same_bytes};
use crate::reading::{Call, ask, broken_input, open_and_ask};
use crate::writing::open_output;
use mem_core::{MemIn, MemOut};
use ports_core::{
    Fault, Inputs, Mode, Outs, Tool, UsageKind, Verdict, WriteCut, fed_with, memory_exhausted,
    message, write_whole,
};
use std::alloc::Global;
use std::process::Abort;
use std::test::Fail;

/// How an output in memory has to be.
#[derive(Clone, Copy)]
struct Left<'a> {
    slot: usize,
    name: &'a str,
    bytes: &'a [u8],
    is_broken: bool,
    is_removed: bool,
}

/// Whether an output is as it has to be.
fn is_left(outs: &MemOut, left: &Left<'_>) -> bool {
    outs.name(left.slot) == left.name
        && outs.bytes(left.slot) == left.bytes
        && outs.broken(left.slot) == left.is_broken
        && outs.removed(left.slot) == left.is_removed
}

/// Compares outputs with how they have to be.
fn are_left(rt: &impl Abort, outs: &MemOut, all: &[Left<'_>]) {
    for left in all {
        assert!(rt; is_left(outs, left));
    }
}

/// What a limited output leaves.
const LIMITED: &[Left<'static>] = &[
    Left {
        slot: 0,
        name: "standard output",
        bytes: b"abc",
        is_broken: false,
        is_removed: false,
    },
    Left {
        slot: 1,
        name: "standard error",
        bytes: b"",
        is_broken: false,
        is_removed: false,
    },
    Left {
        slot: 2,
        name: "f",
        bytes: b"xy",
        is_broken: true,
        is_removed: false,
    },
    Left {
        slot: 9,
        name: "",
        bytes: b"",
        is_broken: false,
        is_removed: false,
    },
];

#[test]
fn outputs_in_memory(rt: HostRuntime) -> Result<(), Fail> {
    let mut outs = MemOut::new(rt.alloc())?;
    same(&rt, &write_whole(&mut outs, 0, b"abc"), &Ok(()));
    let slot = open_output(&rt, &mut outs, "f", Mode::Append, 2)?;
    outs.limit(slot, 2)?;
    let cut = WriteCut { slot, written: 2 };
    same(&rt, &write_whole(&mut outs, slot, b"xyz"), &Err(cut));
    are_left(&rt, &outs, LIMITED);
    Ok(())
}

#[test]
fn files_end(rt: HostRuntime) -> Result<(), Fail> {
    let mut outs = MemOut::new(rt.alloc())?;
    let slot = outs.open("f", Mode::Fresh)?;
    same(&rt, &outs.close(slot), &Ok(()));
    same(&rt, &outs.remove(slot), &Ok(()));
    assert!(rt; !outs.broken(slot));
    Ok(())
}

/// What is asked of an input with four bytes that gives three at once and breaks off after all.
const BROKEN: &[Call<'static>] = &[
    Call::Read(8, 3, b"abc"),
    Call::Read(8, 1, b"d"),
    Call::Fails(8, Fault::Read(0)),
];

#[test]
fn an_input_in_memory(rt: HostRuntime) -> Result<(), Fail> {
    let mut inputs = broken_input(rt.alloc(), b"abcd", 4)?;
    inputs.pieces(3);
    ask(&rt, &mut inputs, 0, BROKEN);
    for slot in 1..3 {
        same(&rt, &inputs.open("f"), &Err(Fault::Open(slot)));
    }
    Ok(())
}

#[test]
fn what_is_given_back_is_read_again(rt: HostRuntime) -> Result<(), Fail> {
    let mut inputs = MemIn::new(rt.alloc())?;
    inputs.input(b"abcd")?;
    inputs.pieces(3);
    let last = read_and_give_back(&mut inputs, 2)?;
    same(&rt, &last, &3);
    ask(&rt, &mut inputs, 0, &[Call::Read(9, 3, b"bcd")]);
    Ok(())
}

/// Reads once, and gives back this many of the bytes, if there were as many. Returns how many there were.
fn read_and_give_back(inputs: &mut MemIn, count: usize) -> Result<usize, Fault>
    requires { IsTrue (is_readable inputs.old.sources 0) }
    ensures { OnOk result (IsTrue (is_readable inputs.new.sources 0)) }
{
    let mut buffer = [0u8; 9];
    let given = match inputs.read(0, &mut buffer) {
        Ok(given) => given,
        Err(fault) => return Err(fault),
    };
    if count <= given {
        inputs.give_back(0, count as u64);
    }
    Ok(given)
}

#[test]
fn short_writes(rt: HostRuntime) -> Result<(), Fail> {
    let mut outs = MemOut::new(rt.alloc())?;
    outs.short(1);
    same(&rt, &outs.limit(0, 2), &Ok(()));
    let cut = WriteCut {
        slot: 0,
        written: 2,
    };
    same(&rt, &write_whole(&mut outs, 0, b"abc"), &Err(cut));
    same_bytes(&rt, outs.bytes(0), b"ab");
    Ok(())
}

/// Opens the file `f`, and fails to open `g`.
fn open_one_of_two(rt: &impl Abort, alloc: Global) -> Result<MemOut, Fault>
    ensures { IfOk result (λ outs. is_removable outs 2) }
{
    let mut outs = MemOut::new(alloc)?;
    outs.fail_at(2);
    outs.open("f", Mode::Fresh)?;
    same(rt, &outs.open("g", Mode::Fresh), &Err(Fault::Open(3)));
    Ok(outs)
}

/// Fails to remove the file of an output.
fn fail_to_remove(rt: &impl Abort, outs: &mut MemOut, slot: usize)
    requires { is_removable outs.old slot }
{
    outs.fail_at(1);
    same(rt, &outs.remove(slot), &Err(Fault::Write(slot)));
}

/// What two calls that failed leave, and a file that was removed.
const FAILED: &[Left<'static>] = &[
    Left {
        slot: 2,
        name: "f",
        bytes: b"",
        is_broken: true,
        is_removed: false,
    },
    Left {
        slot: 3,
        name: "g",
        bytes: b"",
        is_broken: true,
        is_removed: false,
    },
    Left {
        slot: 4,
        name: "h",
        bytes: b"",
        is_broken: false,
        is_removed: true,
    },
    Left {
        slot: 99,
        name: "",
        bytes: b"",
        is_broken: false,
        is_removed: false,
    },
];

#[test]
fn calls_that_fail(rt: HostRuntime) -> Result<(), Fail> {
    let mut outs = open_one_of_two(&rt, rt.alloc())?;
    assert!(rt; outs.broken(3) && !outs.broken(2) && !outs.removed(2));
    fail_to_remove(&rt, &mut outs, 2);
    assert!(rt; outs.broken(2) && !outs.removed(2));
    let other = open_output(&rt, &mut outs, "h", Mode::Fresh, 4)?;
    outs.remove(other)?;
    are_left(&rt, &outs, FAILED);
    Ok(())
}

/// What is asked of a file with three bytes.
const WHOLE: &[Call<'static>] = &[Call::Read(8, 3, b"abc"), Call::Read(8, 0, b"")];

/// What is asked of it where it breaks off after two.
const CUT: &[Call<'static>] = &[Call::Read(8, 2, b"ab"), Call::Fails(8, Fault::Read(2))];

#[test]
fn files_in_memory(rt: HostRuntime) -> Result<(), Fail> {
    let mut inputs = MemIn::new(rt.alloc())?;
    inputs.file("f", b"abc")?;
    inputs.break_at(2, 2)?;
    open_and_ask(&rt, &mut inputs, "f", 1, WHOLE)?;
    open_and_ask(&rt, &mut inputs, "f", 2, CUT)?;
    same(&rt, &inputs.open("g"), &Err(Fault::Open(3)));
    Ok(())
}

/// Bytes that came in, a piece, and how many that makes.
const COUNTED: &[(u64, usize, Option<u64>)] = &[
    (0x7fff_ffff_ffff_fffe, 1, Some(0x7fff_ffff_ffff_ffff)),
    (0x7fff_ffff_ffff_fffe, 2, None),
    (u64::MAX, usize::MAX, None),
];

#[test]
fn counts_what_came_in(rt: HostRuntime) {
    for (fed, piece, sum) in COUNTED {
        assert!(rt; fed_with(*fed, *piece) == *sum, "at {fed}");
    }
}

/// A tool, its fault, the name that the message speaks of, and the message.
const MESSAGES: &[(Tool, Fault, &str, &[u8])] = &[
    (Tool::Tail, Fault::Memory, "", b"tail: memory exhausted\n"),
    (
        Tool::Split,
        Fault::Write(2),
        "xaa",
        b"split: cannot write 'xaa'\n",
    ),
    (
        Tool::Tee,
        Fault::Read(0),
        "standard input",
        b"tee: cannot read 'standard input'\n",
    ),
    (Tool::Head, Fault::Open(1), "g", b"head: cannot open 'g'\n"),
    (
        Tool::Split,
        Fault::Verdict(Verdict::Suffixes),
        "",
        b"split: output file suffixes exhausted\n",
    ),
    (
        Tool::Csplit,
        Fault::Verdict(Verdict::NoMatch(0, 0)),
        "/x/",
        b"csplit: '/x/': match not found\n",
    ),
    (
        Tool::Csplit,
        Fault::Verdict(Verdict::NoMatch(0, 3)),
        "/x/",
        b"csplit: '/x/': match not found on repetition 3\n",
    ),
    (
        Tool::Csplit,
        Fault::Verdict(Verdict::Range(0, 2)),
        "2",
        b"csplit: '2': line number out of range on repetition 2\n",
    ),
    (
        Tool::Split,
        Fault::Verdict(Verdict::Changed),
        "f",
        b"split: 'f': file changed while it was read\n",
    ),
    (
        Tool::Cutters,
        Fault::Usage(UsageKind::MissingTool, 0),
        "",
        b"cutters: missing tool\n",
    ),
    (
        Tool::Head,
        Fault::Usage(UsageKind::UnexpectedValue, 1),
        "--quiet=1",
        b"head: unexpected value '--quiet=1'\n",
    ),
    (
        Tool::Split,
        Fault::Usage(UsageKind::Zero, 2),
        "0",
        b"split: number is zero '0'\n",
    ),
    (
        Tool::Csplit,
        Fault::Usage(UsageKind::BadOperand(8), 3),
        "2",
        b"csplit: invalid operand '2' (8)\n",
    ),
    (
        Tool::Csplit,
        Fault::Usage(UsageKind::BadPattern(7, 0), 2),
        "/[/",
        b"csplit: invalid pattern '/[/' (7 at 0)\n",
    ),
    (
        Tool::Csplit,
        Fault::Usage(UsageKind::PatternTooLarge, 2),
        "/a/",
        b"csplit: invalid pattern '/a/' (10)\n",
    ),
    (
        Tool::Split,
        Fault::Usage(UsageKind::BadSeparator, 2),
        "",
        b"split: invalid separator ''\n",
    ),
    (
        Tool::Split,
        Fault::Usage(UsageKind::BadSuffix, 1),
        "--additional-suffix=a/b",
        b"split: invalid suffix '--additional-suffix=a/b'\n",
    ),
    (
        Tool::Tee,
        Fault::Usage(UsageKind::BadMode, 1),
        "--output-error=later",
        b"tee: invalid mode '--output-error=later'\n",
    ),
    (Tool::Tail, Fault::Failed, "", b"tail: failed\n"),
    (Tool::Tail, Fault::TooLong, "", b"tail: input too long\n"),
];

#[test]
fn messages(rt: HostRuntime) -> Result<(), Fail> {
    for (tool, fault, name, line) in MESSAGES {
        let text = message(rt.alloc(), *tool, fault, name)?;
        same_bytes(&rt, text.as_slice(), line);
    }
    same_bytes(
        &rt,
        memory_exhausted(Tool::Head),
        b"head: memory exhausted\n",
    );
    Ok(())
}
