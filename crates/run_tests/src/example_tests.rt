//! The manual's examples as whole runs over memory: what each leaves in files, on standard output and on standard error.
use crate::left::{Left, NOTHING, Plan, Run, check_run, planned_inputs, planned_outs};
use crate::tests::Refused;
use mem_core::MemOut;
use ports_core::{Fault, Outs};
use std::alloc::Global;
use std::process::Abort;
use std::test::Fail;
use tools_core::run::run;

/// A run over standard input that meets no fault.
const RUN: Run<'static> = Run {
    words: &[],
    files: &[],
    input: b"",
    plans: &[],
    left: NOTHING,
};

/// What a run leaves that ends at a fault.
const FAILED: Left<'static> = Left {
    status: 1,
    ..NOTHING
};

pub(crate) const SPLIT: &[Run<'static>] = &[
    Run {
        words: &["split", "-l", "2"],
        ..RUN
    },
    Run {
        words: &["split", "-n", "r/3"],
        left: Left {
            files: &[("xaa", b""), ("xab", b""), ("xac", b"")],
            ..NOTHING
        },
        ..RUN
    },
    Run {
        words: &["split", "-n", "r/3", "-e"],
        ..RUN
    },
    Run {
        words: &["split", "-C", "4"],
        input: b"a\nbc",
        left: Left {
            files: &[("xaa", b"a\n"), ("xab", b"bc")],
            ..NOTHING
        },
        ..RUN
    },
    Run {
        words: &["split", "-C", "5"],
        input: b"a\nbc",
        left: Left {
            files: &[("xaa", b"a\nbc")],
            ..NOTHING
        },
        ..RUN
    },
    Run {
        words: &["split", "-C", "4"],
        input: b"b\naaaaaaaaaa\nc\n",
        left: Left {
            files: &[
                ("xaa", b"b\n"),
                ("xab", b"aaaa"),
                ("xac", b"aaaa"),
                ("xad", b"aa\n"),
                ("xae", b"c\n"),
            ],
            ..NOTHING
        },
        ..RUN
    },
    Run {
        words: &["split", "-3"],
        input: b"a\nb\nc\nd",
        left: Left {
            files: &[("xaa", b"a\nb\nc\n"), ("xab", b"d")],
            ..NOTHING
        },
        ..RUN
    },
    Run {
        words: &["split", "-l", "1", "f", "p-"],
        files: &[("f", b"a\nb\n")],
        left: Left {
            files: &[("p-aa", b"a\n"), ("p-ab", b"b\n")],
            ..NOTHING
        },
        ..RUN
    },
    Run {
        words: &["split", "--verbose", "-l", "1", "-", "p-"],
        input: b"a\nb\n",
        left: Left {
            output: b"creating file 'p-aa'\ncreating file 'p-ab'\n",
            files: &[("p-aa", b"a\n"), ("p-ab", b"b\n")],
            ..NOTHING
        },
        ..RUN
    },
];

pub(crate) const REFUSED: &[Refused<'static>] = &[
    (
        &["split", "-l", "2", "-b", "3"],
        b"split: more than one way to split\n",
    ),
    (&["split", "-l", "-5"], b"split: invalid number '-5'\n"),
    (&["split", "-l", "0"], b"split: number is zero '0'\n"),
    (&["split", "a", "b", "c"], b"split: extra operand 'c'\n"),
    (
        &["split", "-n", "r/27", "-a", "1"],
        b"split: suffix too short\n",
    ),
    (&["split", "-t", ""], b"split: invalid separator ''\n"),
    (
        &["split", "--separator=ab"],
        b"split: invalid separator '--separator=ab'\n",
    ),
    (
        &["split", "--additional-suffix=a/b"],
        b"split: invalid suffix '--additional-suffix=a/b'\n",
    ),
];

/// Words, how many empty lines come in, how many files are made, and the names of the first and the last.
const MANY: &[(&[&str], usize, usize, &str, &str)] = &[
    (&["split", "-l", "1"], 650, 650, "xaa", "xyz"),
    (&["split", "-l", "1"], 651, 651, "xaa", "xzaaa"),
    (&["split", "-l", "1", "-d"], 90, 90, "x00", "x89"),
    (&["split", "-l", "1", "-d"], 91, 91, "x00", "x9000"),
    (&["split", "-n", "r/677"], 0, 677, "xaaa", "xbaa"),
];

#[test]
fn names_many_files(rt: HostRuntime) -> Result<(), Fail> {
    let lines = [b'\n'; 651];
    for (words, count, made, first, last) in MANY {
        let run = Run {
            words,
            input: lines.get(..*count).unwrap_or(&lines),
            ..RUN
        };
        let outs = after(&rt, rt.alloc(), &run)?;
        let is_so = outs.name(2) == *first && outs.name(1 + *made) == *last;
        assert!(rt; is_so && outs.name(2 + *made).is_empty(), "of {words:?}");
    }
    Ok(())
}

/// The outputs after a run that meets no fault.
fn after(rt: &impl Abort, alloc: Global, row: &Run<'_>) -> Result<MemOut, Fault> {
    let mut inputs = planned_inputs(alloc, row)?;
    let mut outs = planned_outs(alloc, row.plans)?;
    let status = run(alloc, row.words, &mut inputs, &mut outs);
    assert_eq!(rt; status, 0, "of {:?}", row.words);
    Ok(outs)
}

/// After `a` and `b`, a line that matches and one that doesn't put the second line into different sections.
pub(crate) const DECIDED: &[Run<'static>] = &[
    Run {
        words: &["csplit", "-", "/c/-1"],
        input: b"a\nb\nc\n",
        left: Left {
            output: b"2\n4\n",
            files: &[("xx00", b"a\n"), ("xx01", b"b\nc\n")],
            ..NOTHING
        },
        ..RUN
    },
    Run {
        words: &["csplit", "-", "/c/-1"],
        input: b"a\nb\nd\nc\n",
        left: Left {
            output: b"4\n4\n",
            files: &[("xx00", b"a\nb\n"), ("xx01", b"d\nc\n")],
            ..NOTHING
        },
        ..RUN
    },
];

/// Runs end where an input or an output breaks.
pub(crate) const BROKEN: &[Run<'static>] = &[
    Run {
        words: &["split", "-b", "4"],
        input: b"abcdefghij",
        plans: &[Plan::Break(0, 6)],
        left: Left {
            files: &[("xaa", b"abcd"), ("xab", b"ef")],
            messages: b"split: cannot read 'standard input'\n",
            ..FAILED
        },
        ..RUN
    },
    Run {
        words: &["split", "-l", "1"],
        input: b"ab\ncd\n",
        plans: &[Plan::Limit(2, 1)],
        left: Left {
            files: &[("xaa", b"a")],
            messages: b"split: cannot write 'xaa'\n",
            ..FAILED
        },
        ..RUN
    },
    Run {
        words: &["split", "--verbose", "-l", "1"],
        input: b"ab\ncd\n",
        plans: &[Plan::Limit(0, 23)],
        left: Left {
            output: b"creating file 'xaa'\ncre",
            files: &[("xaa", b"ab\n")],
            messages: b"split: cannot write 'standard output'\n",
            ..FAILED
        },
        ..RUN
    },
    Run {
        words: &["split", "--verbose", "-n", "r/2"],
        input: b"ab\ncd\n",
        plans: &[Plan::Limit(0, 23)],
        left: Left {
            output: b"creating file 'xaa'\ncre",
            files: &[("xaa", b"")],
            messages: b"split: cannot write 'standard output'\n",
            ..FAILED
        },
        ..RUN
    },
    Run {
        words: &["split", "-n", "r/2"],
        input: b"a\nb\nc\n",
        plans: &[Plan::Pieces(2), Plan::Limit(3, 1)],
        left: Left {
            files: &[("xaa", b"a\n"), ("xab", b"b")],
            messages: b"split: cannot write 'xab'\n",
            ..FAILED
        },
        ..RUN
    },
    Run {
        words: &["head", "-n", "1", "f", "g"],
        files: &[("f", b"a\nb\n"), ("g", b"c\n")],
        plans: &[Plan::Break(1, 1)],
        left: Left {
            output: b"==> f <==\na\n==> g <==\nc\n",
            messages: b"head: cannot read 'f'\n",
            ..FAILED
        },
        ..RUN
    },
    Run {
        words: &["head", "-n", "1"],
        input: b"a\nb",
        plans: &[Plan::Break(0, 2)],
        left: Left {
            output: b"a\n",
            ..NOTHING
        },
        ..RUN
    },
    Run {
        words: &["tail", "-n", "1"],
        input: b"a\nb",
        plans: &[Plan::Break(0, 3)],
        left: Left {
            messages: b"tail: cannot read 'standard input'\n",
            ..FAILED
        },
        ..RUN
    },
];

/// What `tee s t` leaves where `s` takes three bytes of six, and nothing else fails.
const HALF: Left<'static> = Left {
    output: b"abcdef",
    files: &[("s", b"abc"), ("t", b"abcdef")],
    messages: b"tee: cannot write 's'\n",
    ..FAILED
};

/// Two opens, a write to each output and one more to the one that takes no more, the message, and a close: what is left where the first of
/// these calls fails, where the second does, and so on; and where none does.
const HALVES: &[Left<'static>] = &[
    Left {
        files: &[("s", b""), ("t", b"abcdef")],
        messages: b"tee: cannot open 's'\n",
        ..HALF
    },
    Left {
        files: &[("s", b"abc"), ("t", b"")],
        messages: b"tee: cannot open 't'\ntee: cannot write 's'\n",
        ..HALF
    },
    Left {
        output: b"",
        messages: b"tee: cannot write 'standard output'\ntee: cannot write 's'\n",
        ..HALF
    },
    Left {
        files: &[("s", b""), ("t", b"abcdef")],
        ..HALF
    },
    HALF,
    Left {
        files: &[("s", b"abc"), ("t", b"")],
        messages: b"tee: cannot write 's'\ntee: cannot write 't'\n",
        ..HALF
    },
    Left {
        messages: b"",
        ..HALF
    },
    Left {
        messages: b"tee: cannot write 's'\ntee: cannot write 't'\n",
        ..HALF
    },
    HALF,
];

#[test]
fn a_call_fails_beside_a_full_output(rt: HostRuntime) -> Result<(), Fail> {
    let mut call = 1u64;
    for left in HALVES {
        let run = Run {
            words: &["tee", "s", "t"],
            input: b"abcdef",
            plans: &[Plan::Limit(2, 3), Plan::FailAt(call)],
            left: *left,
            ..RUN
        };
        check_run(&rt, rt.alloc(), &run)?;
        call = call.saturating_add(1);
    }
    Ok(())
}
