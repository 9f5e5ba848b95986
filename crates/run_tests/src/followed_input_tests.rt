//! Whole runs of `tail` over memory that are to follow standard input: it is followed by the tool's own name alone, and only if it is a
//! file.
use crate::follow_tests::{Row, check_left, play};
use mem_core::{Edit, MemOut};
use ports_core::{Calling, Fault};
use std::alloc::Global;
use std::process::Abort;
use std::test::Fail;

/// A run over standard input that is a file, which is to write nothing.
const SILENT: Row<'static> = Row {
    words: &[],
    looks: FED,
    output: b"",
    messages: b"",
    status: 0,
};

/// The same that is refused.
const REFUSED: Row<'static> = Row {
    messages: b"tail: invalid following: standard input is followed only by -f, and only if it is a regular file\nTry 'tail --help'.\n",
    status: 1,
    ..SILENT
};

/// The last line of standard input, and what comes.
const LAST: &[&str] = &["tail", "-f", "-n", "1", "--looks=3"];

/// The same of a file and of standard input.
const BOTH: &[&str] = &["tail", "-f", "-n", "1", "--looks=3", "f", "-"];

/// Standard input that is a file, and another file.
const FED: &[&[Edit<'static>]] = &[
    &[Edit::Replace("-", b"a\nb\n"), Edit::Replace("f", b"1\n2\n")],
    &[Edit::Append("-", b"c\n")],
    &[Edit::Append("-", b"d\n"), Edit::Append("f", b"3\n")],
];

/// That file alone.
const UNFED: &[&[Edit<'static>]] = &[&[Edit::Replace("f", b"1\n2\n")]];

/// Runs by the tool's own name.
const OWN: &[Row<'static>] = &[
    Row {
        words: LAST,
        output: b"b\nc\nd\n",
        ..SILENT
    },
    Row {
        words: &["tail", "-f", "-n", "1", "--retry", "--looks=2", "-"],
        output: b"b\nc\n",
        ..SILENT
    },
    Row {
        words: &["tail", "-fv", "-c", "2", "--looks=1"],
        output: b"==> standard input <==\nb\n",
        ..SILENT
    },
    Row {
        words: BOTH,
        output: b"==> f <==\n2\n\n==> standard input <==\nb\nc\n\n==> f <==\n3\n\n==> standard input <==\nd\n",
        ..SILENT
    },
    Row {
        words: LAST,
        looks: &[
            &[Edit::Replace("-", b"a\n")],
            &[Edit::Truncate("-", 0)],
            &[Edit::Append("-", b"z\n")],
        ],
        output: b"a\nz\n",
        messages: b"tail: 'standard input': file truncated\n",
        ..SILENT
    },
    // What isn't to be followed is read, and so is what is no file.
    Row {
        words: &["tail", "-n", "1"],
        output: b"y\n",
        ..SILENT
    },
    Row {
        words: LAST,
        looks: UNFED,
        output: b"y\n",
        ..SILENT
    },
    Row {
        words: &["tail", "-f", "-n", "1", "--retry", "-"],
        looks: UNFED,
        output: b"y\n",
        ..SILENT
    },
    Row {
        words: BOTH,
        looks: UNFED,
        ..REFUSED
    },
    Row {
        words: &["tail", "-F", "-"],
        ..REFUSED
    },
];

/// Runs after `cutters`, where it is never followed.
const OTHER: &[Row<'static>] = &[
    Row {
        words: LAST,
        output: b"y\n",
        ..SILENT
    },
    Row {
        words: BOTH,
        messages: b"tail: invalid following\n",
        ..REFUSED
    },
];

#[test]
fn follows_standard_input_that_is_a_file(rt: HostRuntime) -> Result<(), Fail> {
    for row in OWN {
        check(&rt, rt.alloc(), Calling::OwnName, row)?;
    }
    for row in OTHER {
        check(&rt, rt.alloc(), Calling::Cutters, row)?;
    }
    Ok(())
}

fn check(rt: &impl Abort, alloc: Global, calling: Calling, row: &Row<'_>) -> Result<(), Fault> {
    let mut outs = MemOut::new(alloc)?;
    let status = play(alloc, calling, row.words, row.looks, &mut outs)?;
    check_left(rt, &outs, status, row);
    Ok(())
}
