//! Whole runs of `split` over memory, which no clause can show to succeed: files with their names, messages and
//! status. What is wanted of runs without a fault is what GNU's split makes of the same words and bytes.
use crate::left::{File, LAID, Left, NOTHING, Plan, Run, check_twice};
use ports_core::Fault;
use std::alloc::Global;
use std::process::Abort;
use std::test::Fail;

/// Words, an input, and the files that are made of it.
type Row<'a> = (&'a [&'a str], &'a [u8], &'a [File<'a>]);

/// Five lines, the last of them open.
const LINES: &[u8] = b"a\nb\nc\nd\ne";

#[test]
fn cuts_into_files(rt: HostRuntime) -> Result<(), Fail> {
    for rows in [FILES, CHUNKS] {
        cut(&rt, rt.alloc(), rows)?;
    }
    Ok(())
}

fn cut(rt: &impl Abort, alloc: Global, rows: &[Row<'_>]) -> Result<(), Fail> {
    for row in rows {
        cuts(rt, alloc, row)?;
    }
    Ok(())
}

fn cuts(rt: &impl Abort, alloc: Global, row: &Row<'_>) -> Result<(), Fault> {
    let run = Run {
        words: row.0,
        files: LAID,
        input: row.1,
        plans: &[],
        left: Left {
            files: row.2,
            ..NOTHING
        },
    };
    check_twice(rt, alloc, &run)
}

const FILES: &[Row<'static>] = &[
    (
        &["split", "-t", ",", "-l", "1"],
        b"a,b,c",
        &[("xaa", b"a,"), ("xab", b"b,"), ("xac", b"c")],
    ),
    (
        &["split", "-t", "\\0", "-n", "r/2"],
        b"a\0b\0c",
        &[("xaa", b"a\0c"), ("xab", b"b\0")],
    ),
    (
        &["split", "-t", ":", "-C", "4"],
        b"b:aaaaa:c:",
        &[("xaa", b"b:"), ("xab", b"aaaa"), ("xac", b"a:c:")],
    ),
    (
        &["split", "--additional-suffix=.txt", "-l", "2"],
        b"a\nb\nc",
        &[("xaa.txt", b"a\nb\n"), ("xab.txt", b"c")],
    ),
    (
        &["split", "-l", "2"],
        LINES,
        &[("xaa", b"a\nb\n"), ("xab", b"c\nd\n"), ("xac", b"e")],
    ),
    (
        &["split", "-4"],
        LINES,
        &[("xaa", b"a\nb\nc\nd\n"), ("xab", b"e")],
    ),
    (&["split"], LINES, &[("xaa", LINES)]),
    (
        &["split", "-b", "3", "-", "p"],
        b"abcdefg",
        &[("paa", b"abc"), ("pab", b"def"), ("pac", b"g")],
    ),
    (
        &["split", "-C", "4"],
        b"ab\ncdefgh\ni\n",
        &[
            ("xaa", b"ab\n"),
            ("xab", b"cdef"),
            ("xac", b"gh\n"),
            ("xad", b"i\n"),
        ],
    ),
    (
        &["split", "-C", "5"],
        b"aa\nb\ncc\n",
        &[("xaa", b"aa\nb\n"), ("xab", b"cc\n")],
    ),
    (
        &["split", "-n", "r/2"],
        b"a\nb\nc",
        &[("xaa", b"a\nc"), ("xab", b"b\n")],
    ),
    (&["split", "-n", "r/2"], b"", &[("xaa", b""), ("xab", b"")]),
    (
        &["split", "-e", "-n", "r/3", "-", "p"],
        b"a\n",
        &[("paa", b"a\n")],
    ),
    (&["split", "-e", "-n", "r/3"], b"", &[]),
    (&["split"], b"", &[]),
    (
        &["split", "-l", "2", "f", "a/b"],
        b"x",
        &[("a/baa", b"1\n2\n"), ("a/bab", b"3")],
    ),
    (
        &["split", "-d", "-a", "1", "-b", "2"],
        b"abc",
        &[("x0", b"ab"), ("x1", b"c")],
    ),
    (
        &["split", "-x", "-a", "3", "-b", "2"],
        b"abc",
        &[("x000", b"ab"), ("x001", b"c")],
    ),
];

/// Chunks: a file by its name says its length before it is read, and standard input doesn't.
const CHUNKS: &[Row<'static>] = &[
    (
        &["split", "-n", "3", "f"],
        b"",
        &[("xaa", b"1\n"), ("xab", b"2\n"), ("xac", b"3")],
    ),
    (
        &["split", "-n", "4"],
        LINES,
        &[
            ("xaa", b"a\nb"),
            ("xab", b"\nc"),
            ("xac", b"\nd"),
            ("xad", b"\ne"),
        ],
    ),
    (
        &["split", "-n", "l/2", "f", "p"],
        b"",
        &[("paa", b"1\n2\n"), ("pab", b"3")],
    ),
    (
        &["split", "-n", "l/2"],
        LINES,
        &[("xaa", b"a\nb\nc\n"), ("xab", b"d\ne")],
    ),
    (
        &["split", "-n", "l/4", "-t", "2", "f"],
        b"",
        &[
            ("xaa", b"1\n2"),
            ("xab", b""),
            ("xac", b"\n3"),
            ("xad", b""),
        ],
    ),
    (
        &["split", "-n", "6", "f"],
        b"",
        &[
            ("xaa", b"1"),
            ("xab", b"\n"),
            ("xac", b"2"),
            ("xad", b"\n"),
            ("xae", b"3"),
            ("xaf", b""),
        ],
    ),
    (
        &["split", "-n", "3", "-e", "f"],
        b"",
        &[("xaa", b"1\n"), ("xab", b"2\n"), ("xac", b"3")],
    ),
    (
        &["split", "-n", "l/4", "-e", "-t", "2", "f"],
        b"",
        &[("xaa", b"1\n2"), ("xab", b"\n3")],
    ),
    (
        &["split", "-n", "3"],
        b"",
        &[("xaa", b""), ("xab", b""), ("xac", b"")],
    ),
    (&["split", "-n", "3", "-e"], b"", &[]),
];

/// Words, an input, and what is on standard output then.
type OneRow<'a> = (&'a [&'a str], &'a [u8], &'a [u8]);

#[test]
fn writes_one_file_to_standard_output(rt: HostRuntime) -> Result<(), Fail> {
    for row in ONE {
        writes_one(&rt, rt.alloc(), row)?;
    }
    Ok(())
}

fn writes_one(rt: &impl Abort, alloc: Global, row: &OneRow<'_>) -> Result<(), Fault> {
    let run = Run {
        words: row.0,
        files: LAID,
        input: row.1,
        plans: &[],
        left: Left {
            output: row.2,
            ..NOTHING
        },
    };
    check_twice(rt, alloc, &run)
}

const ONE: &[OneRow<'static>] = &[
    (&["split", "-n", "2/3", "f"], b"", b"2\n"),
    (&["split", "-n", "3/3", "f", "p"], b"", b"3"),
    (&["split", "-n", "6/6", "f"], b"", b""),
    (&["split", "-n", "2/4"], LINES, b"\nc"),
    (&["split", "-n", "l/1/2", "-"], LINES, b"a\nb\nc\n"),
    (&["split", "-n", "l/2/2", "f"], b"", b"3"),
    (&["split", "-n", "l/2/4", "-t", "2", "f"], b"", b""),
    (&["split", "-n", "r/2/2", "f"], b"", b"2\n"),
    (&["split", "-n", "r/1/2"], LINES, b"a\nc\ne"),
    (&["split", "-n", "1/2"], b"", b""),
];

/// Chunks end at a fault.
pub(crate) const CHUNK_FAULTS: &[Run<'static>] = &[
    Run {
        words: &["split", "-n", "2"],
        files: LAID,
        input: b"abcd",
        plans: &[Plan::Break(0, 3)],
        left: Left {
            files: &[("xaa", b"ab")],
            messages: b"split: cannot read 'standard input'\n",
            status: 1,
            ..NOTHING
        },
    },
    Run {
        words: &["split", "-n", "2/3", "f"],
        files: LAID,
        input: b"",
        plans: &[Plan::Limit(0, 1)],
        left: Left {
            output: b"2",
            messages: b"split: cannot write 'standard output'\n",
            status: 1,
            ..NOTHING
        },
    },
    Run {
        words: &["split", "-n", "3", "f"],
        files: LAID,
        input: b"",
        plans: &[Plan::Limit(3, 1)],
        left: Left {
            files: &[("xaa", b"1\n"), ("xab", b"2")],
            messages: b"split: cannot write 'xab'\n",
            status: 1,
            ..NOTHING
        },
    },
    Run {
        words: &["split", "-n", "3"],
        files: LAID,
        input: b"",
        plans: &[Plan::FailAt(3)],
        left: Left {
            files: &[("xaa", b""), ("xab", b"")],
            messages: b"split: cannot open 'xab'\n",
            status: 1,
            ..NOTHING
        },
    },
    Run {
        words: &["split", "-n", "2", "g"],
        files: LAID,
        input: b"",
        plans: &[],
        left: Left {
            messages: b"split: cannot open 'g'\n",
            status: 1,
            ..NOTHING
        },
    },
];

/// All files that one digit names, of a byte each.
const TEN: &[File<'static>] = &[
    ("x0", b"a"),
    ("x1", b"b"),
    ("x2", b"c"),
    ("x3", b"d"),
    ("x4", b"e"),
    ("x5", b"f"),
    ("x6", b"g"),
    ("x7", b"h"),
    ("x8", b"i"),
    ("x9", b"j"),
];

const SHORT: Left<'static> = Left {
    files: TEN,
    messages: b"split: output file suffixes exhausted\n",
    status: 1,
    ..NOTHING
};

/// The names run out, or just don't.
pub(crate) const NAMES: &[Run<'static>] = &[
    Run {
        words: &["split", "-d", "-a", "1", "-b", "1"],
        files: LAID,
        input: b"abcdefghij",
        plans: &[],
        left: Left {
            files: TEN,
            ..NOTHING
        },
    },
    Run {
        words: &["split", "-d", "-a", "1", "-b", "1"],
        files: LAID,
        input: b"abcdefghijk",
        plans: &[],
        left: SHORT,
    },
    Run {
        words: &["split", "-d", "-a", "1", "-b", "1"],
        files: LAID,
        input: b"abcdefghijklmnop",
        plans: &[],
        left: SHORT,
    },
];

/// An input breaks off or is missing.
pub(crate) const INPUTS: &[Run<'static>] = &[
    Run {
        words: &["split", "-n", "r/2", "g"],
        files: LAID,
        input: b"a\n",
        plans: &[],
        left: Left {
            messages: b"split: cannot open 'g'\n",
            status: 1,
            ..NOTHING
        },
    },
    Run {
        words: &["split", "-n", "r/2", "g"],
        files: LAID,
        input: b"a\n",
        plans: &[Plan::Pieces(1)],
        left: Left {
            messages: b"split: cannot open 'g'\n",
            status: 1,
            ..NOTHING
        },
    },
    Run {
        words: &["split", "-l", "1"],
        files: LAID,
        input: b"a\nb\nc\n",
        plans: &[Plan::Break(0, 3)],
        left: Left {
            files: &[("xaa", b"a\n"), ("xab", b"b")],
            messages: b"split: cannot read 'standard input'\n",
            status: 1,
            ..NOTHING
        },
    },
    Run {
        words: &["split", "-l", "1", "f"],
        files: LAID,
        input: b"",
        plans: &[Plan::Break(1, 2)],
        left: Left {
            files: &[("xaa", b"1\n")],
            messages: b"split: cannot read 'f'\n",
            status: 1,
            ..NOTHING
        },
    },
    // A break is told where the names sufficed, and else that they ran out.
    Run {
        words: &["split", "-d", "-a", "1", "-b", "1"],
        files: LAID,
        input: b"abcdefghijklm",
        plans: &[Plan::Break(0, 10)],
        left: Left {
            files: TEN,
            messages: b"split: cannot read 'standard input'\n",
            status: 1,
            ..NOTHING
        },
    },
    Run {
        words: &["split", "-d", "-a", "1", "-b", "1"],
        files: LAID,
        input: b"abcdefghijklm",
        plans: &[Plan::Break(0, 11)],
        left: SHORT,
    },
];

/// An output that fails ends the run.
pub(crate) const OUTPUTS: &[Run<'static>] = &[
    Run {
        words: &["split", "-l", "1"],
        files: &[],
        input: b"a\nb\nc\n",
        plans: &[Plan::Limit(3, 1)],
        left: Left {
            files: &[("xaa", b"a\n"), ("xab", b"b")],
            messages: b"split: cannot write 'xab'\n",
            status: 1,
            ..NOTHING
        },
    },
    // The calls are an open, a write, a close, and the next open.
    Run {
        words: &["split", "-l", "1"],
        files: &[],
        input: b"a\nb\nc\n",
        plans: &[Plan::FailAt(4)],
        left: Left {
            files: &[("xaa", b"a\n"), ("xab", b"")],
            messages: b"split: cannot open 'xab'\n",
            status: 1,
            ..NOTHING
        },
    },
    Run {
        words: &["split", "-n", "r/3"],
        files: &[],
        input: b"a\n",
        plans: &[Plan::FailAt(2)],
        left: Left {
            files: &[("xaa", b""), ("xab", b"")],
            messages: b"split: cannot open 'xab'\n",
            status: 1,
            ..NOTHING
        },
    },
    // Standard error that breaks leaves the files as they are.
    Run {
        words: &["split"],
        files: LAID,
        input: b"ab",
        plans: &[Plan::Break(0, 1), Plan::Limit(1, 7)],
        left: Left {
            files: &[("xaa", b"a")],
            messages: b"split: ",
            status: 1,
            ..NOTHING
        },
    },
];
