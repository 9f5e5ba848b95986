//! Runs of `head` and `tail` over several inputs in memory.
use crate::left::{File, Left, NOTHING, Plan, Run, check_run, check_twice};
use ports_core::Fault;
use std::alloc::Global;
use std::process::Abort;
use std::test::Fail;

const TWO: &[File<'static>] = &[("f", b"a\nb\n"), ("g", b"c")];

/// Words and standard output.
type Row<'a> = (&'a [&'a str], &'a [u8]);

/// Runs the words of each row over these files and this standard input. No run meets a fault.
fn put_out<'a>(
    rt: &impl Abort,
    alloc: Global,
    files: &'a [File<'a>],
    input: &'a [u8],
    rows: &[Row<'a>],
) -> Result<(), Fail> {
    for row in rows {
        puts_out(rt, alloc, files, input, row)?;
    }
    Ok(())
}

fn puts_out<'a>(
    rt: &impl Abort,
    alloc: Global,
    files: &'a [File<'a>],
    input: &'a [u8],
    row: &Row<'a>,
) -> Result<(), Fault> {
    let run = Run {
        words: row.0,
        files,
        input,
        plans: &[],
        left: Left {
            output: row.1,
            ..NOTHING
        },
    };
    check_twice(rt, alloc, &run)
}

#[test]
fn puts_headers_and_names(rt: HostRuntime) -> Result<(), Fail> {
    for (files, input, rows) in PUT_OUT {
        put_out(&rt, rt.alloc(), files, input, rows)?;
    }
    Ok(())
}

/// Files, standard input, and rows over these.
const PUT_OUT: &[(&[File<'static>], &[u8], &[Row<'static>])] = &[
    (TWO, b"x\ny\n", SEVERAL),
    (TWO, b"x\n", ASKED),
    (ODD, b"6\n", NAMES),
];

/// Several files have headers.
const SEVERAL: &[Row<'static>] = &[
    (
        &["head", "-n", "1", "f", "g"],
        b"==> f <==\na\n\n==> g <==\nc",
    ),
    (
        &["tail", "-n", "1", "f", "g"],
        b"==> f <==\nb\n\n==> g <==\nc",
    ),
    (&["tail", "f", "g"], b"==> f <==\na\nb\n\n==> g <==\nc"),
    (
        &["tail", "-c", "+4", "g", "f"],
        b"==> g <==\n\n==> f <==\n\n",
    ),
    (
        &["head", "-n", "1", "f", "-", "f"],
        b"==> f <==\na\n\n==> standard input <==\nx\n\n==> f <==\na\n",
    ),
    (
        &["head", "-n", "2", "-", "-"],
        b"==> standard input <==\nx\ny\n\n==> standard input <==\n",
    ),
    (
        &["head", "-n", "1", "-", "-"],
        b"==> standard input <==\nx\n\n==> standard input <==\n",
    ),
    (
        &["tail", "-n", "1", "-", "f", "-"],
        b"==> standard input <==\ny\n\n==> f <==\nb\n\n==> standard input <==\n",
    ),
    (&["head", "-n", "0", "f", "g"], b"==> f <==\n\n==> g <==\n"),
    (
        &["head", "-n", "-1", "f", "g"],
        b"==> f <==\na\n\n==> g <==\n",
    ),
    (&["head", "f"], b"a\nb\n"),
    (&["tail", "-n", "1", "f"], b"b\n"),
    (&["tail", "-n", "1", "-"], b"y\n"),
    (
        &["head", "f", "-n", "1", "--", "g"],
        b"==> f <==\na\n\n==> g <==\nc",
    ),
];

const ONE: &[u8] = b"==> f <==\na\n";

const BOTH: &[u8] = b"==> f <==\na\n\n==> g <==\nc";

/// Headers are written if that is asked.
const ASKED: &[Row<'static>] = &[
    (&["head", "-q", "-n", "1", "f", "g"], b"a\nc"),
    (&["head", "--quiet", "-n", "1", "f", "g"], b"a\nc"),
    (&["head", "--silent", "-n", "1", "f", "g"], b"a\nc"),
    (&["tail", "--silent", "-n", "1", "f", "g"], b"b\nc"),
    (&["tail", "-q", "-n", "1", "f", "-", "g"], b"b\nx\nc"),
    (&["head", "-qn1", "f", "g"], b"a\nc"),
    (&["head", "-q", "f"], b"a\nb\n"),
    (&["head", "-v", "-n", "1"], b"==> standard input <==\nx\n"),
    (&["head", "-vn1", "-"], b"==> standard input <==\nx\n"),
    (&["head", "--verbose", "-n", "1", "f"], ONE),
    (&["tail", "-v", "-n", "+2", "f"], b"==> f <==\nb\n"),
    (&["head", "-v", "-n", "1", "f", "g"], BOTH),
    (&["head", "-q", "-v", "-n", "1", "f"], ONE),
    (&["head", "-v", "-q", "-n", "1", "f"], b"a\n"),
    (&["head", "-qvn1", "f"], ONE),
    (&["head", "-vqn1", "f", "g"], b"a\nc"),
    (&["head", "-q", "--verbose", "-n1", "f", "g"], BOTH),
    (&["head", "-1", "-v", "f"], ONE),
    (&["tail", "f", "-n1", "-v"], b"==> f <==\nb\n"),
];

const ODD: &[File<'static>] = &[
    ("-x", b"1\n"),
    ("--", b"2\n"),
    ("", b"3\n"),
    ("a b\n", b"4\n"),
    ("+2", b"5\n"),
];

/// Names are taken as they stand.
const NAMES: &[Row<'static>] = &[
    (&["tail", "--", "-x"], b"1\n"),
    (&["head", "--", "-x"], b"1\n"),
    (&["head", "--", "--"], b"2\n"),
    (&["head", ""], b"3\n"),
    (&["head", "-v", "a b\n"], b"==> a b\n <==\n4\n"),
    (&["tail", "+2"], b"5\n"),
    (&["tail", "-q", "--", "+2", "-", "-x"], b"5\n6\n1\n"),
];

/// Words, standard output and messages.
type Told<'a> = (&'a [&'a str], &'a [u8], &'a [u8]);

/// A row with the inputs of a run that meets a fault.
const fn told<'a>(row: &Told<'a>, files: &'a [File<'a>], plans: &'a [Plan]) -> Run<'a> {
    Run {
        words: row.0,
        files,
        input: b"x\n",
        plans,
        left: Left {
            output: row.1,
            messages: row.2,
            status: 1,
            ..NOTHING
        },
    }
}

#[test]
fn goes_on_after_missing_files(rt: HostRuntime) -> Result<(), Fail> {
    for row in MISSING {
        check_twice(&rt, rt.alloc(), &told(row, TWO, &[]))?;
    }
    Ok(())
}

const MISSING: &[Told<'static>] = &[
    (&["head", "m"], b"", b"head: cannot open 'm'\n"),
    (&["tail", "m"], b"", b"tail: cannot open 'm'\n"),
    (&["head", "-v", "m"], b"", b"head: cannot open 'm'\n"),
    (&["head", "--", "-z"], b"", b"head: cannot open '-z'\n"),
    (&["head", ""], b"", b"head: cannot open ''\n"),
    // The byte 0 after a name that isn't UTF-8 isn't told.
    (
        &["head", "m\u{FFFD}\0", "\0"],
        b"",
        b"head: cannot open 'm\xef\xbf\xbd'\nhead: cannot open ''\n",
    ),
    (
        &["head", "-n", "1", "f", "m"],
        b"==> f <==\na\n",
        b"head: cannot open 'm'\n",
    ),
    (
        &["head", "-n", "1", "m", "f"],
        b"==> f <==\na\n",
        b"head: cannot open 'm'\n",
    ),
    (
        &["tail", "-n", "1", "m", "f", "n", "-", "g"],
        b"==> f <==\nb\n\n==> standard input <==\nx\n\n==> g <==\nc",
        b"tail: cannot open 'm'\ntail: cannot open 'n'\n",
    ),
    (
        &["head", "m", "n", "m"],
        b"",
        b"head: cannot open 'm'\nhead: cannot open 'n'\nhead: cannot open 'm'\n",
    ),
    (
        &["head", "-q", "m", "g", "n"],
        b"c",
        b"head: cannot open 'm'\nhead: cannot open 'n'\n",
    ),
    (
        &["head", "-n", "0", "m", "g"],
        b"==> g <==\n",
        b"head: cannot open 'm'\n",
    ),
];

#[test]
fn goes_on_after_broken_inputs(rt: HostRuntime) -> Result<(), Fail> {
    for row in BROKEN {
        check_run(&rt, rt.alloc(), &told(row, LONGER, &[Plan::Break(1, 4)]))?;
    }
    Ok(())
}

const LONGER: &[File<'static>] = &[("f", b"a\nb\nd\n"), ("g", b"c")];

const BROKEN: &[Told<'static>] = &[
    (
        &["head", "f", "g"],
        b"==> f <==\na\nb\n\n==> g <==\nc",
        b"head: cannot read 'f'\n",
    ),
    (
        &["head", "-n", "3", "-", "f", "g"],
        b"==> standard input <==\nx\n\n==> f <==\na\nb\n\n==> g <==\nc",
        b"head: cannot read 'f'\n",
    ),
    (
        &["head", "-n", "-0", "f", "g"],
        b"==> f <==\na\nb\n\n==> g <==\nc",
        b"head: cannot read 'f'\n",
    ),
    (
        &["tail", "-n", "1", "f", "g"],
        b"==> f <==\n\n==> g <==\nc",
        b"tail: cannot read 'f'\n",
    ),
    (
        &["tail", "-n", "+2", "f", "g"],
        b"==> f <==\nb\n\n==> g <==\n",
        b"tail: cannot read 'f'\n",
    ),
    (&["tail", "f"], b"a\nb\n", b"tail: cannot read 'f'\n"),
    (
        &["head", "-q", "f", "m", "g"],
        b"a\nb\nc",
        b"head: cannot read 'f'\nhead: cannot open 'm'\n",
    ),
    (
        &["head", "f", "f"],
        b"==> f <==\na\nb\n\n==> f <==\na\nb\nd\n",
        b"head: cannot read 'f'\n",
    ),
];

/// Calls that fail are told.
pub(crate) const FAILING: &[Run<'static>] = &[
    // Missing files have numbers of their own.
    Run {
        words: &["head", "m", "f", "g"],
        files: TWO,
        input: b"",
        plans: &[Plan::Break(2, 2)],
        left: Left {
            output: b"==> f <==\na\n\n==> g <==\nc",
            messages: b"head: cannot open 'm'\nhead: cannot read 'f'\n",
            status: 1,
            ..NOTHING
        },
    },
    // Of standard input a break is told once.
    Run {
        words: &["head", "-", "-", "g"],
        files: TWO,
        input: b"x\ny\n",
        plans: &[Plan::Break(0, 2)],
        left: Left {
            output: b"==> standard input <==\nx\n\n==> standard input <==\n\n==> g <==\nc",
            messages: b"head: cannot read 'standard input'\n",
            status: 1,
            ..NOTHING
        },
    },
    // Short writes are taken up.
    Run {
        words: &["tail", "f", "m", "g"],
        files: TWO,
        input: b"",
        plans: &[Plan::Short(1)],
        left: Left {
            output: b"==> f <==\na\nb\n\n==> g <==\nc",
            messages: b"tail: cannot open 'm'\n",
            status: 1,
            ..NOTHING
        },
    },
    // Standard error that breaks leaves the output as it is.
    Run {
        words: &["head", "-q", "m", "f", "m"],
        files: TWO,
        input: b"",
        plans: &[Plan::Limit(1, 6)],
        left: Left {
            output: b"a\nb\n",
            messages: b"head: ",
            status: 1,
            ..NOTHING
        },
    },
];

#[test]
fn breaks_after_what_is_needed_stay_unseen(rt: HostRuntime) -> Result<(), Fail> {
    for row in UNSEEN {
        breaks_unseen(&rt, rt.alloc(), row, &[Plan::Break(1, 2)])?;
        breaks_unseen(&rt, rt.alloc(), row, &[Plan::Pieces(1), Plan::Break(1, 3)])?;
    }
    Ok(())
}

const UNSEEN: &[Row<'static>] = &[
    (
        &["head", "-n", "1", "f", "g"],
        b"==> f <==\na\n\n==> g <==\nc",
    ),
    (
        &["head", "-n", "-1", "f", "g"],
        b"==> f <==\na\n\n==> g <==\n",
    ),
    (&["head", "-c", "2", "f"], b"a\n"),
    (&["head", "-c", "0", "f"], b""),
    (&["head", "-n", "0", "f"], b""),
];

fn breaks_unseen<'a>(
    rt: &impl Abort,
    alloc: Global,
    row: &Row<'a>,
    plans: &'a [Plan],
) -> Result<(), Fault> {
    let run = Run {
        words: row.0,
        files: TWO,
        input: b"",
        plans,
        left: Left {
            output: row.1,
            ..NOTHING
        },
    };
    check_run(rt, alloc, &run)
}

#[test]
fn broken_standard_output_ends_the_run(rt: HostRuntime) -> Result<(), Fail> {
    for row in ENDED {
        for limit in 0..WHOLE.len() {
            ends_at(&rt, rt.alloc(), row, limit)?;
        }
    }
    Ok(())
}

/// What is written where nothing fails.
const WHOLE: &[u8] = b"==> f <==\na\nb\n\n==> g <==\nc";

/// Words and messages.
const ENDED: &[Row<'static>] = &[
    (
        &["head", "f", "g", "m"],
        b"head: cannot write 'standard output'\n",
    ),
    (
        &["head", "m", "f", "g", "m"],
        b"head: cannot open 'm'\nhead: cannot write 'standard output'\n",
    ),
    (
        &["tail", "f", "g", "m"],
        b"tail: cannot write 'standard output'\n",
    ),
    (
        &["tail", "-n", "+1", "f", "g", "m"],
        b"tail: cannot write 'standard output'\n",
    ),
];

fn ends_at(rt: &impl Abort, alloc: Global, row: &Row<'_>, limit: usize) -> Result<(), Fault> {
    let run = Run {
        words: row.0,
        files: TWO,
        input: b"",
        plans: &[Plan::Limit(0, limit)],
        left: Left {
            output: WHOLE.get(..limit).unwrap_or(WHOLE),
            messages: row.1,
            status: 1,
            ..NOTHING
        },
    };
    check_run(rt, alloc, &run)
}
