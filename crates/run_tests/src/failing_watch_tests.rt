//! Runs that follow files in memory of which each call on the watch fails in turn: what each leaves, and what it says word for word.
//! A failed look or opening is told as a file that can't be opened, a failed length or read as one that can't be read.
use crate::follow_tests::watch_of;
use mem_core::{Edit, MemOut};
use ports_core::{Fault, Outs};
use std::alloc::Global;
use std::process::Abort;
use std::test::Fail;
use tools_core::run_follow;

/// What is on standard output and on standard error.
type End<'a> = (&'a [u8], &'a [u8]);

/// A run: its words, the edits before each look, and its end where the first call fails, where the second does, and so on; the last is
/// that of a run in which none does.
struct Row<'a> {
    words: &'a [&'a str],
    looks: &'a [&'a [Edit<'a>]],
    ends: &'a [End<'a>],
    /// The status of that last run.
    status: u8,
}

#[test]
fn a_call_that_fails_is_told_word_for_word(rt: HostRuntime) -> Result<(), Fail> {
    for row in ROWS {
        fails_in_turn(&rt, rt.alloc(), row)?;
    }
    Ok(())
}

fn fails_in_turn(rt: &impl Abort, alloc: Global, row: &Row<'_>) -> Result<(), Fault> {
    let mut call = 1u64;
    for end in row.ends {
        let is_last = call == row.ends.len() as u64;
        let status = if is_last { row.status } else { 1 };
        fails(rt, alloc, row, call, end, status)?;
        call = call.saturating_add(1);
    }
    Ok(())
}

/// Runs the words where the call with this number fails.
fn fails(
    rt: &impl Abort,
    alloc: Global,
    row: &Row<'_>,
    call: u64,
    end: &End<'_>,
    wanted: u8,
) -> Result<(), Fault> {
    let mut watch = watch_of(alloc, row.looks)?;
    watch.fail_at(call);
    let mut outs = MemOut::new(alloc)?;
    let status = run_follow(
        alloc,
        row.words,
        &mut watch,
        &mut outs,
        row.looks.len() as u64,
    );
    let is_so = outs.bytes(0) == end.0 && outs.bytes(1) == end.1 && status == wanted;
    assert!(rt; is_so, "where call {call} of {:?} fails", row.words);
    Ok(())
}

const NO_F: &[u8] = b"tail: cannot open 'f'\n";

const BAD_F: &[u8] = b"tail: cannot read 'f'\n";

const NO_G: &[u8] = b"tail: cannot open 'g'\n";

const BAD_G: &[u8] = b"tail: cannot read 'g'\n";

const CUT_NO_F: &[u8] = b"tail: 'f': file truncated\ntail: cannot open 'f'\n";

const CUT_BAD_F: &[u8] = b"tail: 'f': file truncated\ntail: cannot read 'f'\n";

const OTHER_NO_F: &[u8] =
    b"tail: 'f': file truncated\ntail: 'f': file replaced\ntail: cannot open 'f'\n";

const OTHER_BAD_F: &[u8] =
    b"tail: 'f': file truncated\ntail: 'f': file replaced\ntail: cannot read 'f'\n";

const ROWS: &[Row<'static>] = &[
    // At the first look each file is opened, its length told, and read twice: for where its last line begins, and from there. At a later
    // one the length is told, and what came is read.
    Row {
        words: &["tail", "-f", "-n", "1", "f", "g"],
        looks: &[
            &[Edit::Replace("f", b"a\n"), Edit::Replace("g", b"b\n")],
            &[Edit::Append("f", b"c\n")],
            &[Edit::Append("f", b"d\n")],
            &[Edit::Append("g", b"e\n")],
        ],
        ends: &[
            (b"==> g <==\nb\ne\n", NO_F),
            (b"==> f <==\n\n==> g <==\nb\ne\n", BAD_F),
            (b"==> f <==\n\n==> g <==\nb\ne\n", BAD_F),
            (b"==> f <==\n\n==> g <==\nb\ne\n", BAD_F),
            (b"==> f <==\na\nc\nd\n", NO_G),
            (b"==> f <==\na\n\n==> g <==\n\n==> f <==\nc\nd\n", BAD_G),
            (b"==> f <==\na\n\n==> g <==\n\n==> f <==\nc\nd\n", BAD_G),
            (b"==> f <==\na\n\n==> g <==\n\n==> f <==\nc\nd\n", BAD_G),
            (b"==> f <==\na\n\n==> g <==\nb\ne\n", BAD_F),
            (b"==> f <==\na\n\n==> g <==\nb\ne\n", BAD_F),
            (b"==> f <==\na\n\n==> g <==\nb\n\n==> f <==\nc\nd\n", BAD_G),
            (
                b"==> f <==\na\n\n==> g <==\nb\n\n==> f <==\nc\n\n==> g <==\ne\n",
                BAD_F,
            ),
            (
                b"==> f <==\na\n\n==> g <==\nb\n\n==> f <==\nc\n\n==> g <==\ne\n",
                BAD_F,
            ),
            (b"==> f <==\na\n\n==> g <==\nb\n\n==> f <==\nc\nd\n", BAD_G),
            (
                b"==> f <==\na\n\n==> g <==\nb\n\n==> f <==\nc\nd\n\n==> g <==\ne\n",
                BAD_F,
            ),
            (b"==> f <==\na\n\n==> g <==\nb\n\n==> f <==\nc\nd\n", BAD_G),
            (b"==> f <==\na\n\n==> g <==\nb\n\n==> f <==\nc\nd\n", BAD_G),
            (
                b"==> f <==\na\n\n==> g <==\nb\n\n==> f <==\nc\nd\n\n==> g <==\ne\n",
                b"",
            ),
        ],
        status: 0,
    },
    // By name, each later look also asks where the name leads.
    Row {
        words: &["tail", "-F", "-n", "1", "f"],
        looks: &[
            &[Edit::Replace("f", b"a\nb\n")],
            &[Edit::Append("f", b"c")],
            &[Edit::Truncate("f", 0)],
            &[Edit::Append("f", b"z\n")],
            &[Edit::Append("f", b"w"), Edit::Replace("f", b"q\n")],
        ],
        ends: &[
            (b"", NO_F),
            (b"", BAD_F),
            (b"", BAD_F),
            (b"", BAD_F),
            (b"b\n", BAD_F),
            (b"b\n", BAD_F),
            (b"b\nc", NO_F),
            (b"b\nc", BAD_F),
            (b"b\nc", CUT_NO_F),
            (b"b\nc", CUT_BAD_F),
            (b"b\nc", CUT_BAD_F),
            (b"b\ncz\n", CUT_NO_F),
            (b"b\ncz\n", CUT_BAD_F),
            (b"b\ncz\n", CUT_BAD_F),
            (b"b\ncz\nw", CUT_NO_F),
            (b"b\ncz\nw", OTHER_NO_F),
            (b"b\ncz\nw", OTHER_BAD_F),
            (b"b\ncz\nw", OTHER_BAD_F),
            (
                b"b\ncz\nwq\n",
                b"tail: 'f': file truncated\ntail: 'f': file replaced\n",
            ),
        ],
        status: 0,
    },
    // A name that was missing is looked for, and then opened.
    Row {
        words: &["tail", "-F", "f"],
        looks: &[&[], &[Edit::Replace("f", b"x\n")]],
        ends: &[
            (b"", NO_F),
            (b"", b"tail: cannot open 'f'\ntail: cannot open 'f'\n"),
            (
                b"",
                b"tail: cannot open 'f'\ntail: 'f': file appeared\ntail: cannot open 'f'\n",
            ),
            (
                b"",
                b"tail: cannot open 'f'\ntail: 'f': file appeared\ntail: cannot read 'f'\n",
            ),
            (
                b"",
                b"tail: cannot open 'f'\ntail: 'f': file appeared\ntail: cannot read 'f'\n",
            ),
            (b"x\n", b"tail: cannot open 'f'\ntail: 'f': file appeared\n"),
        ],
        status: 1,
    },
    // That a name leads nowhere any more is told before it is opened again, which can fail too.
    Row {
        words: &["tail", "-F", "-c", "+1", "f"],
        looks: &[&[Edit::Replace("f", b"a\n")], &[Edit::Remove("f")]],
        ends: &[
            (b"", NO_F),
            (b"", BAD_F),
            (b"", BAD_F),
            (b"a\n", BAD_F),
            (b"a\n", NO_F),
            (
                b"a\n",
                b"tail: 'f': file inaccessible\ntail: cannot open 'f'\n",
            ),
            (b"a\n", b"tail: 'f': file inaccessible\n"),
        ],
        status: 0,
    },
    // By descriptor no later look asks where the name leads: of these calls only the first, which opens the file, can fail as an opening.
    Row {
        words: &["tail", "-f", "-c", "+1", "f"],
        looks: &[
            &[Edit::Replace("f", b"a\n")],
            &[Edit::Remove("f")],
            &[Edit::Replace("f", b"b\n")],
        ],
        ends: &[
            (b"", NO_F),
            (b"", BAD_F),
            (b"", BAD_F),
            (b"a\n", BAD_F),
            (b"a\n", BAD_F),
            (b"a\n", b""),
        ],
        status: 0,
    },
];

/// Looks that see two appends together write what two looks at them write.
#[test]
fn fewer_looks_write_the_same(rt: HostRuntime) -> Result<(), Fail> {
    for looks in PLACED {
        assert!(rt; writes_three_lines(rt.alloc(), looks)?);
    }
    Ok(())
}

fn writes_three_lines(alloc: Global, looks: &[&[Edit<'_>]]) -> Result<bool, Fault> {
    let mut watch = watch_of(alloc, looks)?;
    let mut outs = MemOut::new(alloc)?;
    let words = ["tail", "-f", "-n", "1", "f"];
    let status = run_follow(alloc, &words, &mut watch, &mut outs, looks.len() as u64);
    Ok(status == 0 && outs.bytes(0) == b"a\nb\nc\n".as_slice())
}

const PLACED: &[&[&[Edit<'static>]]] = &[
    &[
        &[Edit::Replace("f", b"a\n")],
        &[Edit::Append("f", b"b\n"), Edit::Append("f", b"c\n")],
    ],
    &[
        &[Edit::Replace("f", b"a\n")],
        &[Edit::Append("f", b"b\n")],
        &[Edit::Append("f", b"c\n")],
    ],
];
