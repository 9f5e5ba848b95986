//! Whole runs of which `tests/refusals` refuses each growth of memory in turn. Without a refusal both tests of a pair pass; where
//! one growth is refused, the test `NAME` fails, since the run doesn't leave what its row says, and `NAME_or_begin` passes: the
//! status is 1, the message is one of the row's, and each output has a beginning. What `before_NAME` and `after_NAME` do takes as
//! many growths.
ghost use Rattle.std.specs.Prelude.{◌≡◌, []};
ghost use Rattle.ports_core.specs.Slot.{streams};
ghost use Rattle.mem_core.specs.MemWatchState.{seen};

use crate::about_tests::HEAD_HELP;
use crate::args_tests::Given;
use crate::follow_tests::{Row as Followed, TRUNCATED, TWO_FILES, watch_of};
use crate::left::{
    File, Left, NOTHING, Plan, Run as Planned, differs, planned_inputs, planned_outs,
};
use crate::refused_tests::{
    BEFORE_A_LINE, BEFORE_EACH_LINE, Ended, KEPT_SECTIONS, ONE_IS_MISSING, ROUND, Run, SECTIONS,
    TWO_LINES, Then, output_has_begun,
};
use mem_core::{MemOut, MemWatch};
use ports_core::{Fault, Outs};
use std::alloc::Global;
use std::process::Abort;
use std::test::Fail;
use tools_core::run::run;
use tools_core::run_follow;
use words_core::{Args, ArgsFault, read_args};

/// A run, what is planned for it, and all that it may say where a growth is refused.
#[derive(Clone, Copy)]
struct Row<'a> {
    run: Run<'a>,
    plans: &'a [Plan],
    said: &'a [&'a [u8]],
}

/// No growth is the test's own.
#[test]
fn nothing() {}

#[test]
fn runs_leave_their_rows(rt: HostRuntime) -> Result<(), Fail> {
    for row in ROWS {
        let ended = end_of(rt.alloc(), row)?;
        assert!(rt; ended == Ended::Whole, "of {:?}", row.run.words);
    }
    Ok(())
}

#[test]
fn runs_leave_their_rows_or_begin(rt: HostRuntime) {
    for row in ROWS {
        // Without memory for its inputs and outputs nothing is run.
        if let Ok(ended) = end_of(rt.alloc(), row) {
            assert!(rt; ended != Ended::Wrong, "of {:?}", row.run.words);
        }
    }
}

/// How the run of a row ends.
fn end_of(alloc: Global, row: &Row<'_>) -> Result<Ended, Fault> {
    let planned = Planned {
        words: row.run.words,
        files: row.run.files,
        input: row.run.input,
        plans: row.plans,
        left: row.run.left,
    };
    let mut inputs = planned_inputs(alloc, &planned)?;
    let mut outs = planned_outs(alloc, row.plans)?;
    let status = run(alloc, row.run.words, &mut inputs, &mut outs);
    Ok(judged(&outs, status, row))
}

fn judged(outs: &MemOut, status: u8, row: &Row<'_>) -> Ended {
    if differs(outs, status, &row.run.left).is_empty() {
        return Ended::Whole;
    }
    if has_begun(outs, status, row) {
        return Ended::Begun;
    }
    Ended::Wrong
}

/// Whether a run of which something was refused left each output as it is to.
fn has_begun(outs: &MemOut, status: u8, row: &Row<'_>) -> bool {
    if status != 1 || !is_told(outs, row.said) || !output_has_begun(outs, &row.run) {
        return false;
    }
    let mut slot: usize = 2;
    for file in row.run.left.files {
        if !file_has_begun(outs, slot, file, row.run.then) {
            return false;
        }
        slot = slot.saturating_add(1);
    }
    outs.name(slot).is_empty()
}

/// Whether one of these texts was said. Where standard error found no memory for it, it is passed over.
fn is_told(outs: &MemOut, said: &[&[u8]]) -> bool {
    for text in said {
        if outs.bytes(1) == *text {
            return true;
        }
    }
    outs.broken(1) && outs.bytes(1).is_empty()
}

fn file_has_begun(outs: &MemOut, slot: usize, file: &File<'_>, then: Then) -> bool {
    let (name, bytes) = *file;
    if outs.name(slot).is_empty() {
        return outs.bytes(slot).is_empty();
    }
    if outs.name(slot) != name || !bytes.starts_with(outs.bytes(slot)) {
        return false;
    }
    match then {
        Then::Stops => !outs.removed(slot),
        Then::Removes => outs.removed(slot) || outs.broken(slot) && outs.bytes(slot).is_empty(),
        Then::GoesOn => outs.broken(slot) || outs.bytes(slot) == bytes,
    }
}

const SAID_BY_SPLIT: &[&[u8]] = &[
    b"split: memory exhausted\n",
    b"split: cannot open ''\n",
    b"split: cannot open 'xaa'\n",
    b"split: cannot open 'xab'\n",
    b"split: cannot open 'xac'\n",
    b"split: cannot write 'xaa'\n",
    b"split: cannot write 'xab'\n",
    b"split: cannot write 'xac'\n",
];

const SAID_BY_CSPLIT: &[&[u8]] = &[
    b"csplit: memory exhausted\n",
    b"csplit: cannot open ''\n",
    b"csplit: cannot open 'xx00'\n",
    b"csplit: cannot open 'xx01'\n",
    b"csplit: cannot open 'xx02'\n",
    b"csplit: cannot write 'standard output'\n",
    b"csplit: cannot write 'xx00'\n",
    b"csplit: cannot write 'xx01'\n",
    b"csplit: cannot write 'xx02'\n",
];

/// Names by a format outgrow the room that they begin with.
const SAID_OF_FORMATS: &[&[u8]] = &[
    b"csplit: memory exhausted\n",
    b"csplit: cannot open ''\n",
    b"csplit: cannot open 'xx%000000000000000000.txt'\n",
    b"csplit: cannot open 'xx%000000000000000001.txt'\n",
    b"csplit: cannot open 'xx%000000000000000002.txt'\n",
    b"csplit: cannot write 'standard output'\n",
    b"csplit: cannot write 'xx%000000000000000000.txt'\n",
    b"csplit: cannot write 'xx%000000000000000001.txt'\n",
    b"csplit: cannot write 'xx%000000000000000002.txt'\n",
];

const SAID_BY_HEAD: &[&[u8]] = &[
    b"head: memory exhausted\n",
    b"head: cannot write 'standard output'\n",
];

/// One of two files is missing, which is told also where something was refused before.
const SAID_OF_G: &[&[u8]] = &[
    b"head: memory exhausted\n",
    b"head: cannot write 'standard output'\n",
    b"head: cannot open 'f'\nhead: cannot open 'g'\n",
    b"head: cannot open 'g'\nhead: memory exhausted\n",
];

/// `s` takes three bytes of six, which is told also where something was refused before.
const SAID_BY_TEE: &[&[u8]] = &[
    b"tee: memory exhausted\n",
    b"tee: cannot open ''\n",
    b"tee: cannot open 's'\n",
    b"tee: cannot write 's'\n",
    b"tee: cannot open ''\ntee: cannot write 's'\n",
    b"tee: cannot open 't'\ntee: cannot write 's'\n",
    b"tee: cannot write 'standard output'\ntee: cannot write 's'\n",
    b"tee: cannot write 's'\ntee: cannot write 't'\n",
];

/// A run of `split`, which keeps what it wrote.
const SPLIT: Row<'static> = Row {
    run: TWO_LINES,
    plans: &[],
    said: SAID_BY_SPLIT,
};

/// A run of `csplit`, which removes its files at a fault.
const CSPLIT: Row<'static> = Row {
    run: SECTIONS,
    said: SAID_BY_CSPLIT,
    ..SPLIT
};

/// A run of `head` over standard input in pieces of one byte, that leaves one line.
const HEAD: Row<'static> = Row {
    run: ALL_BUT_TWO,
    plans: &[Plan::Pieces(1)],
    said: SAID_BY_HEAD,
};

const ALL_BUT_TWO: Run<'static> = Run {
    words: &["head", "-n", "-2"],
    left: Left {
        output: b"a\n",
        ..NOTHING
    },
    ..TWO_LINES
};

const ROWS: &[Row<'static>] = &[
    SPLIT,
    Row {
        run: Run {
            words: &["split", "-C", "4"],
            input: b"a\nbc",
            left: Left {
                files: &[("xaa", b"a\n"), ("xab", b"bc")],
                ..NOTHING
            },
            ..TWO_LINES
        },
        ..SPLIT
    },
    Row {
        run: Run {
            words: &["split", "-C", "5"],
            input: b"a\nbc",
            left: Left {
                files: &[("xaa", b"a\nbc")],
                ..NOTHING
            },
            ..TWO_LINES
        },
        ..SPLIT
    },
    Row {
        run: ROUND,
        ..SPLIT
    },
    CSPLIT,
    Row {
        run: Run {
            words: &["csplit", "-z", "-", "/^b/", "{*}"],
            left: Left {
                output: b"5\n5\n",
                files: &[("xx00", b"b1\nx\n"), ("xx01", b"b2\ny\n")],
                ..NOTHING
            },
            ..SECTIONS
        },
        ..CSPLIT
    },
    Row {
        run: Run {
            words: &["csplit", "-b", "%%%018d.txt", "-", "/^b/", "{*}"],
            left: Left {
                output: b"0\n5\n5\n",
                files: &[
                    ("xx%000000000000000000.txt", b""),
                    ("xx%000000000000000001.txt", b"b1\nx\n"),
                    ("xx%000000000000000002.txt", b"b2\ny\n"),
                ],
                ..NOTHING
            },
            ..SECTIONS
        },
        said: SAID_OF_FORMATS,
        ..CSPLIT
    },
    Row {
        run: KEPT_SECTIONS,
        ..CSPLIT
    },
    Row {
        run: BEFORE_A_LINE,
        ..CSPLIT
    },
    Row {
        run: BEFORE_EACH_LINE,
        ..CSPLIT
    },
    HEAD,
    Row {
        run: Run {
            words: &["head", "-c", "9", "-n", "-2"],
            ..ALL_BUT_TWO
        },
        ..HEAD
    },
    Row {
        run: Run {
            words: &["head", "-c", "-3"],
            input: b"abcde",
            left: Left {
                output: b"ab",
                ..NOTHING
            },
            ..ALL_BUT_TWO
        },
        ..HEAD
    },
    Row {
        run: Run {
            words: &["head", "--help"],
            left: Left {
                output: HEAD_HELP,
                ..NOTHING
            },
            ..ALL_BUT_TWO
        },
        ..HEAD
    },
    Row {
        run: ONE_IS_MISSING,
        plans: &[],
        said: SAID_OF_G,
    },
    Row {
        run: Run {
            words: &["tee", "s", "t"],
            input: b"abcdef",
            left: Left {
                output: b"abcdef",
                files: &[("s", b"abc"), ("t", b"abcdef")],
                messages: b"tee: cannot write 's'\n",
                status: 1,
                ..NOTHING
            },
            then: Then::GoesOn,
            ..TWO_LINES
        },
        plans: &[Plan::Limit(2, 3)],
        said: SAID_BY_TEE,
    },
];

#[test]
fn following_leaves_its_rows(rt: HostRuntime) -> Result<(), Fail> {
    for (row, said) in FOLLOWED {
        let ended = end_of_following(rt.alloc(), row, said)?;
        assert!(rt; ended == Ended::Whole, "of {:?}", row.words);
    }
    Ok(())
}

#[test]
fn following_leaves_its_rows_or_begin(rt: HostRuntime) {
    for (row, said) in FOLLOWED {
        if let Ok(ended) = end_of_following(rt.alloc(), row, said) {
            assert!(rt; ended != Ended::Wrong, "of {:?}", row.words);
        }
    }
}

fn end_of_following(alloc: Global, row: &Followed<'_>, said: &[&[u8]]) -> Result<Ended, Fault> {
    let watch = watch_of(alloc, row.looks)?;
    let mut outs = MemOut::new(alloc)?;
    let status = follows(alloc, row, watch, &mut outs);
    if outs.bytes(0) == row.output && outs.bytes(1) == row.messages && status == row.status {
        return Ok(Ended::Whole);
    }
    if following_has_begun(&outs, status, row, said) {
        return Ok(Ended::Begun);
    }
    Ok(Ended::Wrong)
}

fn follows(alloc: Global, row: &Followed<'_>, mut watch: MemWatch, outs: &mut MemOut) -> u8
    requires unseen { seen watch ≡ [] }
    requires unwatched { watch.watched ≡ [] }
    requires outputs { outs.old ≡ streams }
{
    run_follow(alloc, row.words, &mut watch, outs, row.looks.len() as u64)
}

/// Whether following left beginnings, with status 1. A line that standard error finds no memory for is passed over: then nothing
/// else is lost, and the status is the row's.
fn following_has_begun(outs: &MemOut, status: u8, row: &Followed<'_>, said: &[&[u8]]) -> bool {
    if outs.broken(1) && row.messages.starts_with(outs.bytes(1)) {
        return outs.bytes(0) == row.output && status == row.status;
    }
    status == 1 && row.output.starts_with(outs.bytes(0)) && is_told(outs, said)
}

/// Runs that follow, and all that each may say where a growth is refused.
const FOLLOWED: &[(Followed<'static>, &[&[u8]])] = &[
    (
        TRUNCATED,
        &[
            b"tail: memory exhausted\n",
            b"tail: cannot write 'standard output'\n",
            b"tail: 'f': file truncated\ntail: memory exhausted\n",
            b"tail: 'f': file truncated\ntail: cannot write 'standard output'\n",
            b"tail: 'f': file truncated\ntail: 'f': file replaced\ntail: cannot write 'standard output'\n",
        ],
    ),
    (
        TWO_FILES,
        &[
            b"tail: memory exhausted\n",
            b"tail: cannot write 'standard output'\n",
        ],
    ),
];

/// A tool's name by which the program is called, a word that needs more room than words are first given, and one that isn't UTF-8.
const GIVEN: Given<'static> = Given {
    words: &[b"bin/head", &[b'a'; 300], b"\xff"],
};

#[test]
fn args_are_read(rt: HostRuntime) {
    assert!(rt; has_args(&read_args(&GIVEN, rt.alloc())));
}

#[test]
fn args_are_read_or_are_refused(rt: HostRuntime) {
    if let Err(fault) = read_args(&GIVEN, rt.alloc()) {
        assert!(rt; fault == ArgsFault::Memory);
        assert!(rt; has_args(&read_args(&GIVEN, rt.alloc())));
    }
}

/// Whether these are the tool's name and the two words after it.
fn has_args(read: &Result<Args, ArgsFault>) -> bool {
    match read {
        Ok(args) => args.words.len() == 3,
        Err(_) => false,
    }
}

/// `tail -n +2` of these bytes, none of which ends a line, writes nothing.
fn passes_over(rt: &impl Abort, alloc: Global, input: &[u8]) -> Result<(), Fault> {
    let row = Row {
        run: Run {
            words: &["tail", "-n", "+2"],
            input,
            left: NOTHING,
            ..TWO_LINES
        },
        ..SPLIT
    };
    let ended = end_of(alloc, &row)?;
    assert!(rt; ended == Ended::Whole);
    Ok(())
}

#[test]
fn before_many_bytes_are_passed_over(rt: HostRuntime) -> Result<(), Fail> {
    Ok(passes_over(&rt, rt.alloc(), b"a")?)
}

#[test]
fn after_many_bytes_are_passed_over(rt: HostRuntime) -> Result<(), Fail> {
    Ok(passes_over(&rt, rt.alloc(), &[b'a'; 200_000])?)
}
