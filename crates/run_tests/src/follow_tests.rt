//! Whole runs of `tail` that follow files in memory, which no clause can show to succeed: words and edits look by look in, standard
//! output, messages and status out; and runs in which each call is refused in turn.
ghost use Rattle.std.specs.Prelude.{◌≡◌, [], IfOk};
ghost use Rattle.mem_core.specs.MemWatchState.{seen};
ghost use Rattle.ports_core.specs.Slot.{streams};

use crate::left::{LAID, inputs_of};
use mem_core::{Edit, MemOut, MemWatch};
use ports_core::{Calling, Fault, Outs};
use std::alloc::Global;
use std::process::Abort;
use std::test::Fail;
use tools_core::{run_follow, run_words};

/// A run that follows: its words, the edits before each look, and what it is to leave.
#[derive(Clone, Copy)]
pub(crate) struct Row<'a> {
    pub(crate) words: &'a [&'a str],
    pub(crate) looks: &'a [&'a [Edit<'a>]],
    pub(crate) output: &'a [u8],
    pub(crate) messages: &'a [u8],
    pub(crate) status: u8,
}

/// A file that is appended to, truncated and replaced.
pub(crate) const TRUNCATED: Row<'static> = Row {
    words: &["tail", "-F", "-n", "1", "f"],
    looks: &[
        &[Edit::Replace("f", b"a\nb\n")],
        &[Edit::Append("f", b"c")],
        &[Edit::Truncate("f", 0)],
        &[Edit::Append("f", b"z\n")],
        &[Edit::Append("f", b"w"), Edit::Replace("f", b"q\n")],
    ],
    output: b"b\ncz\nwq\n",
    messages: b"tail: 'f': file truncated\ntail: 'f': file replaced\n",
    status: 0,
};

/// Two files that are appended to.
pub(crate) const TWO_FILES: Row<'static> = Row {
    words: &["tail", "-f", "-n", "1", "f", "g"],
    looks: &[
        &[Edit::Replace("f", b"a\n"), Edit::Replace("g", b"b\n")],
        &[Edit::Append("f", b"c\n")],
        &[Edit::Append("f", b"d\n")],
        &[Edit::Append("g", b"e\n")],
    ],
    output: b"==> f <==\na\n\n==> g <==\nb\n\n==> f <==\nc\nd\n\n==> g <==\ne\n",
    messages: b"",
    status: 0,
};

const ROWS: [Row<'static>; 17] = [
    TRUNCATED,
    Row {
        words: &["tail", "-F", "f"],
        looks: &[&[], &[Edit::Replace("f", b"x\n")]],
        output: b"x\n",
        messages: b"tail: cannot open 'f'\ntail: 'f': file appeared\n",
        status: 1,
    },
    TWO_FILES,
    Row {
        words: &["tail", "-f", "--pid=7", "f"],
        looks: &[
            &[Edit::Replace("f", b"a\n")],
            &[Edit::Append("f", b"b\n"), Edit::End(6)],
            &[Edit::Append("f", b"c\n"), Edit::End(7)],
            &[Edit::Append("f", b"d\n")],
        ],
        output: b"a\nb\nc\n",
        messages: b"",
        status: 0,
    },
    Row {
        words: &["tail", "-f", "-c", "2", "f"],
        looks: &[
            &[Edit::Replace("f", b"abc")],
            &[Edit::Truncate("f", 1)],
            &[Edit::Append("f", b"d")],
        ],
        output: b"bcad",
        messages: b"tail: 'f': file truncated\n",
        status: 0,
    },
    Row {
        words: &["tail", "-F", "f"],
        looks: &[
            &[Edit::Replace("f", b"a\n")],
            &[Edit::Remove("f")],
            &[Edit::Replace("f", b"b\n")],
        ],
        output: b"a\nb\n",
        messages: b"tail: 'f': file inaccessible\ntail: 'f': file appeared\n",
        status: 0,
    },
    Row {
        words: &["tail", "-f", "f"],
        looks: &[
            &[Edit::Replace("f", b"a\n")],
            &[Edit::Remove("f")],
            &[Edit::Replace("f", b"b\n")],
        ],
        output: b"a\n",
        messages: b"",
        status: 0,
    },
    // By descriptor a missing file isn't asked for again, and nothing more can come.
    Row {
        words: &["tail", "-f", "g"],
        looks: &[&[], &[Edit::Replace("g", b"late\n")]],
        output: b"",
        messages: b"tail: cannot open 'g'\n",
        status: 1,
    },
    Row {
        words: &["tail", "-f", "g", "f"],
        looks: &[
            &[Edit::Replace("f", b"1\n2\n")],
            &[Edit::Replace("g", b"late\n"), Edit::Append("f", b"3\n")],
        ],
        output: b"==> f <==\n1\n2\n3\n",
        messages: b"tail: cannot open 'g'\n",
        status: 1,
    },
    Row {
        words: &["tail", "-qf", "-n", "+2", "f", "g"],
        looks: &[
            &[Edit::Replace("f", b"1\n2\n"), Edit::Replace("g", b"")],
            &[Edit::Append("g", b"3\n"), Edit::Append("f", b"4\n")],
        ],
        output: b"2\n4\n3\n",
        messages: b"",
        status: 0,
    },
    Row {
        words: &["tail", "-vzf", "-n", "1", "f"],
        looks: &[&[Edit::Replace("f", b"a\0b\0")], &[Edit::Append("f", b"c")]],
        output: b"==> f <==\nb\0c",
        messages: b"",
        status: 0,
    },
    Row {
        words: &["tail", "--follow=name", "f"],
        looks: &[&[Edit::Replace("f", b"a\n")]],
        output: b"",
        messages: b"tail: invalid following\n",
        status: 1,
    },
    Row {
        words: &["tail", "f"],
        looks: &[&[Edit::Replace("f", b"a\n")]],
        output: b"",
        messages: b"tail: invalid following\n",
        status: 1,
    },
    Row {
        words: &["tail", "-f"],
        looks: &[],
        output: b"",
        messages: b"tail: invalid following\n",
        status: 1,
    },
    Row {
        words: &["head", "f"],
        looks: &[],
        output: b"",
        messages: b"head: invalid following\n",
        status: 1,
    },
    Row {
        words: &["csplit", "f", "x"],
        looks: &[],
        output: b"",
        messages: b"csplit: invalid operand 'x' (10)\n",
        status: 1,
    },
    Row {
        words: &["tail", "-x"],
        looks: &[],
        output: b"",
        messages: b"tail: unknown option '-x'\n",
        status: 1,
    },
];

/// Files in memory with a look after each of these lists of edits.
pub(crate) fn watch_of(alloc: Global, looks: &[&[Edit<'_>]]) -> Result<MemWatch, Fault>
    ensures unseen { IfOk result (λ watch. seen watch ≡ []) }
    ensures unwatched { IfOk result (λ watch. watch.watched ≡ []) }
{
    let mut watch = MemWatch::new(alloc)?;
    let mut left = looks;
    while let [edits, rest @ ..] = left {
        watch.then(edits)?;
        left = rest;
    }
    Ok(watch)
}

/// Runs the words, as the program is called so, over files with a look after each of these lists of edits, and returns the status. Beside
/// them there are two lines of standard input and a file that isn't watched.
pub(crate) fn play(
    alloc: Global,
    calling: Calling,
    words: &[&str],
    looks: &[&[Edit<'_>]],
    outs: &mut MemOut,
) -> Result<u8, Fault>
    requires { outs.old ≡ streams }
{
    let mut inputs = inputs_of(alloc, LAID, b"x\ny\n")?;
    let mut watch = watch_of(alloc, looks)?;
    Ok(run_words(alloc, calling, words, &mut inputs, &mut watch, outs))
}

/// Looks that come after the last edit change nothing, and no look writes nothing.
#[test]
fn follows_in_looks(rt: HostRuntime) -> Result<(), Fail> {
    for row in &ROWS {
        follows_row(&rt, rt.alloc(), row)?;
    }
    Ok(())
}

fn follows_row(rt: &impl Abort, alloc: Global, row: &Row<'_>) -> Result<(), Fault> {
    let watch = watch_of(alloc, row.looks)?;
    follows(rt, alloc, row, watch)?;
    if !row.looks.is_empty() {
        let watch = watch_of(alloc, row.looks)?;
        looks_on(rt, alloc, row, watch)?;
    }
    let watch = watch_of(alloc, row.looks)?;
    looks_at_nothing(rt, alloc, row, watch)
}

fn follows(rt: &impl Abort, alloc: Global, row: &Row<'_>, mut watch: MemWatch) -> Result<(), Fault>
    requires unseen { seen watch ≡ [] }
    requires unwatched { watch.watched ≡ [] }
{
    let mut outs = MemOut::new(alloc)?;
    let looks = row.looks.len() as u64;
    let status = run_follow(alloc, row.words, &mut watch, &mut outs, looks);
    check_left(rt, &outs, status, row);
    Ok(())
}

pub(crate) fn check_left(rt: &impl Abort, outs: &MemOut, status: u8, row: &Row<'_>) {
    let is_so = is_written(outs, status, row) && outs.bytes(1) == row.messages;
    assert!(rt; is_so, "of {:?}", row.words);
}

/// Whether standard output and the status are those of the row.
fn is_written(outs: &MemOut, status: u8, row: &Row<'_>) -> bool {
    outs.bytes(0) == row.output && status == row.status
}

fn looks_on(rt: &impl Abort, alloc: Global, row: &Row<'_>, mut watch: MemWatch) -> Result<(), Fault>
    requires unseen { seen watch ≡ [] }
    requires unwatched { watch.watched ≡ [] }
{
    let mut outs = MemOut::new(alloc)?;
    let status = run_follow(alloc, row.words, &mut watch, &mut outs, 20);
    assert!(rt; is_written(&outs, status, row), "of {:?}", row.words);
    Ok(())
}

fn looks_at_nothing(
    rt: &impl Abort,
    alloc: Global,
    row: &Row<'_>,
    mut watch: MemWatch,
) -> Result<(), Fault>
    requires unseen { seen watch ≡ [] }
    requires unwatched { watch.watched ≡ [] }
{
    let mut outs = MemOut::new(alloc)?;
    run_follow(alloc, row.words, &mut watch, &mut outs, 0);
    assert!(rt; is_unwritten(&outs), "of {:?}", row.words);
    Ok(())
}

/// Whether nothing was written to standard output.
fn is_unwritten(outs: &MemOut) -> bool {
    outs.bytes(0).is_empty()
}

/// A name of which a call fails is told and dropped: what it wrote before is a beginning, and the status is 1.
#[test]
fn each_call_on_files_fails(rt: HostRuntime) -> Result<(), Fail> {
    for row in &ROWS {
        let mut was_whole = false;
        for call in 1..=40 {
            let (is_whole, is_sound) = end_where_a_call_fails(rt.alloc(), row, call)?;
            assert!(rt; is_sound, "where call {call} of {:?} fails", row.words);
            was_whole = is_whole;
        }
        assert!(rt; was_whole, "{:?} makes more calls", row.words);
    }
    Ok(())
}

/// Where standard output breaks, what it has is a beginning; a message that can't be written is passed over.
#[test]
fn each_write_fails(rt: HostRuntime) -> Result<(), Fail> {
    for row in &ROWS {
        let mut was_whole = false;
        for call in 1..=40 {
            let (is_whole, has_begun) = end_where_a_write_fails(rt.alloc(), row, call)?;
            let is_sound = is_whole || !was_whole && has_begun;
            assert!(rt; is_sound, "where write {call} of {:?} fails", row.words);
            was_whole = is_whole;
        }
        assert!(rt; was_whole, "{:?} makes more writes", row.words);
    }
    Ok(())
}

/// Whether a run of which a call on files fails left just what the row says, and whether what it left is sound.
fn end_where_a_call_fails(alloc: Global, row: &Row<'_>, call: u64) -> Result<(bool, bool), Fault> {
    let mut watch = watch_of(alloc, row.looks)?;
    watch.fail_at(call);
    let mut outs = MemOut::new(alloc)?;
    let looks = row.looks.len() as u64;
    let status = run_follow(alloc, row.words, &mut watch, &mut outs, looks);
    let is_whole = is_left(&outs, status, row);
    Ok((is_whole, is_whole || has_dropped(&outs, status, row)))
}

/// Whether a run of which a write fails left just what the row says, and whether it left beginnings.
fn end_where_a_write_fails(alloc: Global, row: &Row<'_>, call: u64) -> Result<(bool, bool), Fault> {
    let mut watch = watch_of(alloc, row.looks)?;
    let mut outs = MemOut::new(alloc)?;
    outs.fail_at(call);
    let looks = row.looks.len() as u64;
    let status = run_follow(alloc, row.words, &mut watch, &mut outs, looks);
    Ok((is_left(&outs, status, row), has_begun(&outs, status, row)))
}

/// Whether a run left just what the row says, and no output broke.
fn is_left(outs: &MemOut, status: u8, row: &Row<'_>) -> bool {
    let is_sound = !outs.broken(0) && !outs.broken(1);
    is_sound && outs.bytes(0) == row.output && outs.bytes(1) == row.messages && status == row.status
}

/// Whether a run left beginnings, with status 1 where standard output broke.
fn has_begun(outs: &MemOut, status: u8, row: &Row<'_>) -> bool {
    if !row.output.starts_with(outs.bytes(0)) {
        return false;
    }
    if outs.broken(1) {
        return outs.bytes(0) == row.output && status == row.status;
    }
    status == 1
}

/// Whether a run dropped a name after a call that failed. What a run of one name wrote is a beginning then.
fn has_dropped(outs: &MemOut, status: u8, row: &Row<'_>) -> bool {
    let is_one = !row.words.contains(&"f") || !row.words.contains(&"g");
    let is_told = !outs.bytes(1).is_empty() && status == 1;
    is_told && (!is_one || row.output.starts_with(outs.bytes(0)))
}
