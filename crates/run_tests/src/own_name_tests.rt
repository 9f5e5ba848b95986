//! Whole runs over memory of tools that are called by their own names: they tell why an output or input broke, and of a reader
//! that is gone nothing. A program that is called `cutters` tells what broke, and never why.
ghost use Rattle.std.specs.Prelude.{◌≡◌, OnOk};
ghost use Rattle.ports_core.specs.Source.{IsFresh};

use crate::follow_tests::play;
use crate::left::{LAID, Left, NOTHING, differs, inputs_of};
use mem_core::{Edit, MemIn, MemOut, MemWatch};
use ports_core::{Calling, Fault, Reason};
use std::alloc::Global;
use std::process::Abort;
use std::test::Fail;
use tools_core::run_words;

/// What breaks in a run.
#[derive(Clone, Copy)]
enum Broken {
    /// The output with this number, after this many bytes, for this reason.
    Output(usize, usize, Reason),
    /// The input with this number, after this many bytes, for this reason.
    Input(usize, usize, Reason),
}

/// A run over three lines, in which something breaks, and what it is to leave by either way of calling it.
#[derive(Clone, Copy)]
struct Row<'a> {
    /// The words, from the tool's name on.
    words: &'a [&'a str],
    /// What breaks.
    broken: Broken,
    /// What a tool leaves that is called by its own name.
    own: Left<'a>,
    /// What the program leaves that is called `cutters`.
    other: Left<'a>,
}

#[test]
fn tells_why_by_its_own_name_alone(rt: HostRuntime) -> Result<(), Fail> {
    for row in ROWS {
        runs(&rt, rt.alloc(), row, Calling::OwnName, &row.own)?;
        runs(&rt, rt.alloc(), row, Calling::Cutters, &row.other)?;
    }
    Ok(())
}

fn runs(
    rt: &impl Abort,
    alloc: Global,
    row: &Row<'_>,
    calling: Calling,
    left: &Left<'_>,
) -> Result<(), Fault> {
    let mut inputs = inputs_of(alloc, LAID, b"abcdef")?;
    let mut outs = MemOut::new(alloc)?;
    let mut watch = MemWatch::new(alloc)?;
    break_as_planned(&row.broken, &mut inputs, &mut outs)?;
    let status = run_words(
        alloc,
        calling,
        row.words,
        &mut inputs,
        &mut watch,
        &mut outs,
    );
    let other = differs(&outs, status, left);
    let words = row.words;
    assert!(rt; other.is_empty(), "{other} of {words:?}");
    Ok(())
}

fn break_as_planned(broken: &Broken, inputs: &mut MemIn, outs: &mut MemOut) -> Result<(), Fault>
    requires fresh { IsFresh inputs.old.sources }
    ensures fresh { OnOk result (IsFresh inputs.new.sources) }
    ensures outputs { outs.new ≡ outs.old }
{
    match broken {
        Broken::Output(slot, at, why) => {
            outs.limit(*slot, *at)?;
            outs.breaks_as(*slot, *why)
        }
        Broken::Input(slot, at, why) => {
            inputs.break_at(*slot, *at)?;
            inputs.breaks_as(*slot, *why)
        }
    }
}

/// What a full disk leaves of standard output.
const TWO_BYTES: Left<'static> = Left {
    output: b"ab",
    status: 1,
    ..NOTHING
};

const ROWS: &[Row<'static>] = &[
    Row {
        words: &["head"],
        broken: Broken::Output(0, 2, Reason::Full),
        own: Left {
            messages: b"head: cannot write 'standard output': No space left on device\n",
            ..TWO_BYTES
        },
        other: Left {
            messages: b"head: cannot write 'standard output'\n",
            ..TWO_BYTES
        },
    },
    Row {
        words: &["head"],
        broken: Broken::Output(0, 2, Reason::Gone),
        own: Left {
            status: 141,
            ..TWO_BYTES
        },
        other: Left {
            messages: b"head: cannot write 'standard output'\n",
            ..TWO_BYTES
        },
    },
    Row {
        words: &["tail", "-c", "+1"],
        broken: Broken::Input(0, 2, Reason::Device),
        own: Left {
            messages: b"tail: cannot read 'standard input': Input/output error\n",
            ..TWO_BYTES
        },
        other: Left {
            messages: b"tail: cannot read 'standard input'\n",
            ..TWO_BYTES
        },
    },
    Row {
        words: &["split", "-b", "3"],
        broken: Broken::Output(2, 1, Reason::Quota),
        own: Left {
            files: &[("xaa", b"a")],
            messages: b"split: cannot write 'xaa': Disk quota exceeded\n",
            status: 1,
            ..NOTHING
        },
        other: Left {
            files: &[("xaa", b"a")],
            messages: b"split: cannot write 'xaa'\n",
            status: 1,
            ..NOTHING
        },
    },
    Row {
        words: &["tee", "s"],
        broken: Broken::Output(2, 3, Reason::Full),
        own: Left {
            output: b"abcdef",
            files: &[("s", b"abc")],
            messages: b"tee: cannot write 's': No space left on device\n",
            status: 1,
            ..NOTHING
        },
        other: Left {
            output: b"abcdef",
            files: &[("s", b"abc")],
            messages: b"tee: cannot write 's'\n",
            status: 1,
            ..NOTHING
        },
    },
    Row {
        words: &["tee"],
        broken: Broken::Output(0, 2, Reason::Gone),
        own: Left {
            status: 141,
            ..TWO_BYTES
        },
        other: Left {
            messages: b"tee: cannot write 'standard output'\n",
            ..TWO_BYTES
        },
    },
    Row {
        words: &["csplit", "f", "2"],
        broken: Broken::Output(2, 1, Reason::Full),
        own: Left {
            files: &[("xx00", b"1")],
            removed: &["xx00"],
            messages: b"csplit: cannot write 'xx00': No space left on device\n",
            status: 1,
            ..NOTHING
        },
        other: Left {
            files: &[("xx00", b"1")],
            removed: &["xx00"],
            messages: b"csplit: cannot write 'xx00'\n",
            status: 1,
            ..NOTHING
        },
    },
    Row {
        words: &["csplit", "f", "2"],
        broken: Broken::Output(0, 1, Reason::Gone),
        own: Left {
            output: b"2",
            files: &[("xx00", b"1\n")],
            removed: &["xx00"],
            status: 141,
            ..NOTHING
        },
        other: Left {
            output: b"2",
            files: &[("xx00", b"1\n")],
            removed: &["xx00"],
            messages: b"csplit: cannot write 'standard output'\n",
            status: 1,
        },
    },
    Row {
        words: &["head", "--help"],
        broken: Broken::Output(0, 0, Reason::Gone),
        own: Left {
            status: 141,
            ..NOTHING
        },
        other: Left {
            messages: b"head: cannot write 'standard output'\n",
            status: 1,
            ..NOTHING
        },
    },
    Row {
        words: &["tail", "--version"],
        broken: Broken::Output(0, 4, Reason::Gone),
        own: Left {
            output: b"tail",
            status: 141,
            ..NOTHING
        },
        other: Left {
            output: b"tail",
            messages: b"tail: cannot write 'standard output'\n",
            status: 1,
            ..NOTHING
        },
    },
];

/// A file that grows with each look.
const GROWING: &[&[Edit<'static>]] = &[
    &[Edit::Replace("f", b"a\nb\n")],
    &[Edit::Append("f", b"c\n")],
    &[Edit::Append("f", b"d\n")],
];

/// What following it in three looks leaves of standard output, and the status, where the question of this number finds no reader.
const UNREAD: &[(u64, &[u8], u8)] = &[
    (1, b"", 141),
    (2, b"b\n", 141),
    (3, b"b\nc\n", 141),
    (4, b"b\nc\nd\n", 0),
];

/// By its own name a `tail` that follows asks before each look whether it is read, and ends without a word where it isn't.
#[test]
fn ends_with_its_reader_by_its_own_name_alone(rt: HostRuntime) -> Result<(), Fail> {
    for (question, output, status) in UNREAD {
        let own = follow_unread(rt.alloc(), Calling::OwnName, *question)?;
        assert!(rt; leaves(&own, output, *status), "at question {question}");
        let other = follow_unread(rt.alloc(), Calling::Cutters, *question)?;
        assert!(rt; leaves(&other, b"b\nc\nd\n", 0), "by cutters");
    }
    Ok(())
}

fn follow_unread(alloc: Global, calling: Calling, question: u64) -> Result<(MemOut, u8), Fault> {
    let mut outs = MemOut::new(alloc)?;
    outs.unread_at(question);
    let words = ["tail", "-f", "-n", "1", "--looks=3", "f"];
    let status = play(alloc, calling, &words, GROWING, &mut outs)?;
    Ok((outs, status))
}

/// Whether a run left this on standard output and nothing on standard error.
fn leaves(run: &(MemOut, u8), output: &[u8], status: u8) -> bool {
    let (outs, is) = run;
    outs.bytes(0) == output && outs.bytes(1).is_empty() && *is == status
}
