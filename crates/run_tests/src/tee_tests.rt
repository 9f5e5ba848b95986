//! Whole runs of `tee` over memory, which no clause can show to succeed: outputs with their names, messages and status.
use crate::left::{File, Left, NOTHING, Plan, Run, check_twice};
use ports_core::Fault;
use std::alloc::Global;
use std::process::Abort;
use std::test::Fail;

/// The file that lies there.
const LAID: &[File<'static>] = &[("f", b"1\n")];

/// Words, and the files that they name with what these get.
type Row<'a> = (&'a [&'a str], &'a [File<'a>]);

#[test]
fn copies_to_each_file(rt: HostRuntime) -> Result<(), Fail> {
    for row in COPIES {
        copies(&rt, rt.alloc(), row)?;
    }
    Ok(())
}

fn copies(rt: &impl Abort, alloc: Global, row: &Row<'_>) -> Result<(), Fault> {
    let run = Run {
        words: row.0,
        files: LAID,
        input: b"abcdef",
        plans: &[Plan::Limit(2, 6)],
        left: Left {
            output: b"abcdef",
            files: row.1,
            ..NOTHING
        },
    };
    check_twice(rt, alloc, &run)
}

const COPIES: &[Row<'static>] = &[
    (&["tee"], &[]),
    (&["tee", "s", "t"], &[("s", b"abcdef"), ("t", b"abcdef")]),
    (&["tee", "-"], &[("-", b"abcdef")]),
    (&["tee", "-a", "f"], &[("f", b"abcdef")]),
    (&["tee", "--append", "--", "-a"], &[("-a", b"abcdef")]),
];

/// It goes on where an output breaks.
pub(crate) const BREAKS: &[Run<'static>] = &[
    Run {
        words: &["tee", "s", "t"],
        files: LAID,
        input: b"abcdef",
        plans: &[Plan::Limit(2, 3)],
        left: Left {
            output: b"abcdef",
            files: &[("s", b"abc"), ("t", b"abcdef")],
            messages: b"tee: cannot write 's'\n",
            status: 1,
            ..NOTHING
        },
    },
    Run {
        words: &["tee", "s"],
        files: LAID,
        input: b"abcdef",
        plans: &[Plan::Limit(0, 2)],
        left: Left {
            output: b"ab",
            files: &[("s", b"abcdef")],
            messages: b"tee: cannot write 'standard output'\n",
            status: 1,
            ..NOTHING
        },
    },
];
