//! Whole runs over memory where a call is refused: each open, write, close and removal in turn. Outputs then have beginnings of
//! what they are to have. `growth_tests` has the same for memory.
ghost use Rattle.std.specs.Prelude.{◌≡◌, IfOk};
ghost use Rattle.ports_core.specs.{Slot.streams, Source.IsFresh};

use crate::left::{File, Left, NOTHING, inputs_of};
use mem_core::{MemIn, MemOut};
use ports_core::{Fault, Outs};
use std::alloc::Global;
use std::process::Abort;
use std::test::Fail;
use tools_core::run::run;

/// What a run does where an output breaks, or where a growth is refused.
#[derive(Clone, Copy, PartialEq, Eq)]
pub(crate) enum Then {
    /// It ends.
    Stops,
    /// It removes its files, and ends.
    Removes,
    /// It goes on with the other outputs.
    GoesOn,
}

/// A run: what it is given, what it does at a fault, and what it leaves where there is none.
#[derive(Clone, Copy)]
pub(crate) struct Run<'a> {
    pub(crate) words: &'a [&'a str],
    pub(crate) files: &'a [File<'a>],
    pub(crate) input: &'a [u8],
    pub(crate) then: Then,
    pub(crate) left: Left<'a>,
}

/// Two lines a file.
pub(crate) const TWO_LINES: Run<'static> = Run {
    words: &["split", "-l", "2"],
    files: &[],
    input: b"a\nb\nc",
    then: Then::Stops,
    left: Left {
        files: &[("xaa", b"a\nb\n"), ("xab", b"c")],
        ..NOTHING
    },
};

/// Lines dealt to three files.
pub(crate) const ROUND: Run<'static> = Run {
    words: &["split", "-n", "r/3"],
    files: &[],
    input: b"a\nb\nc\nd",
    then: Then::Stops,
    left: Left {
        files: &[("xaa", b"a\nd"), ("xab", b"b\n"), ("xac", b"c\n")],
        ..NOTHING
    },
};

/// Two files, of which one is missing.
pub(crate) const ONE_IS_MISSING: Run<'static> = Run {
    words: &["head", "-n", "1", "f", "g"],
    files: &[("f", b"a\nb\n")],
    input: b"",
    then: Then::Stops,
    left: Left {
        output: b"==> f <==\na\n",
        messages: b"head: cannot open 'g'\n",
        status: 1,
        ..NOTHING
    },
};

/// A section for each line that begins with `b`.
pub(crate) const SECTIONS: Run<'static> = Run {
    words: &["csplit", "-", "/^b/", "{*}"],
    files: &[],
    input: b"b1\nx\nb2\ny\n",
    then: Then::Removes,
    left: Left {
        output: b"0\n5\n5\n",
        files: &[("xx00", b""), ("xx01", b"b1\nx\n"), ("xx02", b"b2\ny\n")],
        ..NOTHING
    },
};

/// The same, and no file is removed.
pub(crate) const KEPT_SECTIONS: Run<'static> = Run {
    words: &["csplit", "-k", "-", "/^b/", "{*}"],
    files: &[],
    input: b"b1\nx\nb2\ny\n",
    then: Then::Stops,
    left: Left {
        output: b"0\n5\n5\n",
        files: &[("xx00", b""), ("xx01", b"b1\nx\n"), ("xx02", b"b2\ny\n")],
        ..NOTHING
    },
};

/// A cut one line before a line.
pub(crate) const BEFORE_A_LINE: Run<'static> = Run {
    words: &["csplit", "-", "/c/-1"],
    files: &[],
    input: b"a\nb\nc\nd\n",
    then: Then::Removes,
    left: Left {
        output: b"2\n6\n",
        files: &[("xx00", b"a\n"), ("xx01", b"b\nc\nd\n")],
        ..NOTHING
    },
};

/// A cut before each line of this kind.
pub(crate) const BEFORE_EACH_LINE: Run<'static> = Run {
    words: &["csplit", "-", "/b/-1", "{*}"],
    files: &[],
    input: b"a\nb\nb\nc\n",
    then: Then::Removes,
    left: Left {
        output: b"0\n2\n6\n",
        files: &[("xx00", b""), ("xx01", b"a\n"), ("xx02", b"b\nb\nc\n")],
        ..NOTHING
    },
};

const RUNS: [Run<'static>; 12] = [
    TWO_LINES,
    ROUND,
    ONE_IS_MISSING,
    Run {
        words: &["tee", "s", "t"],
        files: &[],
        input: b"abcdef",
        then: Then::GoesOn,
        left: Left {
            output: b"abcdef",
            files: &[("s", b"abcdef"), ("t", b"abcdef")],
            ..NOTHING
        },
    },
    SECTIONS,
    KEPT_SECTIONS,
    BEFORE_A_LINE,
    BEFORE_EACH_LINE,
    Run {
        words: &["csplit", "-", "/c/-3"],
        files: &[],
        input: b"a\nb\nc\nd\n",
        then: Then::Removes,
        left: Left {
            output: b"0\n",
            files: &[("xx00", b"")],
            removed: &["xx00"],
            messages: b"csplit: '/c/-3': line number out of range\n",
            status: 1,
        },
    },
    Run {
        words: &["csplit", "-", "2", "{*}"],
        files: &[],
        input: b"1\n2\n3\n4\n5\n",
        then: Then::Removes,
        left: Left {
            output: b"2\n4\n4\n",
            files: &[("xx00", b"1\n"), ("xx01", b"2\n3\n"), ("xx02", b"4\n5\n")],
            ..NOTHING
        },
    },
    Run {
        words: &["csplit", "-", "2", "{3}"],
        files: &[],
        input: b"1\n2\n3\n4\n5\n",
        then: Then::Removes,
        left: Left {
            output: b"2\n4\n4\n",
            files: &[("xx00", b"1\n"), ("xx01", b"2\n3\n"), ("xx02", b"4\n5\n")],
            removed: &["xx00", "xx01", "xx02"],
            messages: b"csplit: '2': line number out of range on repetition 2\n",
            status: 1,
        },
    },
    Run {
        words: &["csplit", "-", "/x/"],
        files: &[],
        input: b"a\nb\n",
        then: Then::Removes,
        left: Left {
            output: b"4\n",
            files: &[("xx00", b"a\nb\n")],
            removed: &["xx00"],
            messages: b"csplit: '/x/': match not found\n",
            status: 1,
        },
    },
];

#[test]
fn each_call_is_refused(rt: HostRuntime) -> Result<(), Fail> {
    for row in &RUNS {
        refuse_in_turn(&rt, rt.alloc(), row, usize::MAX, 25)?;
    }
    Ok(())
}

#[test]
fn each_call_is_refused_among_short_writes(rt: HostRuntime) -> Result<(), Fail> {
    for row in &RUNS {
        refuse_in_turn(&rt, rt.alloc(), row, 1, 100)?;
    }
    Ok(())
}

/// Refuses one call in each run, where each write moves at most `most` bytes. It makes fewer than `calls` of them, so that
/// the last run meets none that is refused.
fn refuse_in_turn(
    rt: &impl Abort,
    alloc: Global,
    row: &Run<'_>,
    most: usize,
    calls: u64,
) -> Result<(), Fault> {
    let mut was_whole = false;
    for call in 1..=calls {
        let ended = end_at(alloc, row, call, most)?;
        let is_sound = ended == Ended::Whole || !was_whole && ended == Ended::Begun;
        assert!(rt; is_sound, "where call {call} of {:?} fails", row.words);
        was_whole = ended == Ended::Whole;
    }
    assert!(rt; was_whole, "{:?} makes more calls than {calls}", row.words);
    Ok(())
}

/// How a run ends where one of its outputs' calls is refused and each write moves at most `most` bytes.
fn end_at(alloc: Global, row: &Run<'_>, call: u64, most: usize) -> Result<Ended, Fault> {
    let inputs = inputs_of(alloc, row.files, row.input)?;
    let outs = refusing(alloc, call, most)?;
    Ok(end_over(alloc, row, inputs, outs))
}

/// Outputs of which one call is refused, and each write moves at most `most` bytes.
fn refusing(alloc: Global, call: u64, most: usize) -> Result<MemOut, Fault>
    ensures { IfOk result (λ outs. outs ≡ streams) }
{
    let mut outs = MemOut::new(alloc)?;
    outs.short(most.max(1));
    outs.fail_at(call);
    Ok(outs)
}

/// How a run over these inputs and outputs ends.
fn end_over(alloc: Global, row: &Run<'_>, mut inputs: MemIn, mut outs: MemOut) -> Ended
    requires inputs { IsFresh inputs.sources }
    requires outputs { outs ≡ streams }
{
    let status = run(alloc, row.words, &mut inputs, &mut outs);
    judged(&outs, status, row)
}

/// How a run ended.
#[derive(Clone, Copy, PartialEq, Eq)]
pub(crate) enum Ended {
    /// It left just what it is to leave.
    Whole,
    /// It met a fault, or a growth was refused, and it left each output as it is to then.
    Begun,
    /// It left something else.
    Wrong,
}

fn judged(outs: &MemOut, status: u8, row: &Run<'_>) -> Ended {
    if is_left(outs, status, &row.left) {
        return Ended::Whole;
    }
    if has_begun(outs, status, row) {
        return Ended::Begun;
    }
    Ended::Wrong
}

/// Whether a run left just this, and no output broke.
fn is_left(outs: &MemOut, status: u8, left: &Left<'_>) -> bool {
    let mut slot: usize = 2;
    for file in left.files {
        if outs.broken(slot) || outs.name(slot) != file.0 || outs.bytes(slot) != file.1 {
            return false;
        }
        if outs.removed(slot) == left.removed.is_empty() {
            return false;
        }
        slot = slot.saturating_add(1);
    }
    let is_told = !outs.broken(1) && outs.bytes(1) == left.messages;
    let is_written = !outs.broken(0) && outs.bytes(0) == left.output;
    is_told && is_written && outs.name(slot).is_empty() && status == left.status
}

/// Whether a run that met a fault left each output as it is to.
fn has_begun(outs: &MemOut, status: u8, row: &Run<'_>) -> bool {
    if status != 1 || !output_has_begun(outs, row) {
        return false;
    }
    let mut slot: usize = 2;
    for file in row.left.files {
        if !file_has_begun(outs, slot, file, row) {
            return false;
        }
        slot = slot.saturating_add(1);
    }
    outs.name(slot).is_empty()
}

pub(crate) fn output_has_begun(outs: &MemOut, row: &Run<'_>) -> bool {
    if is_unopened(outs) || row.then != Then::GoesOn || outs.broken(0) {
        return row.left.output.starts_with(outs.bytes(0));
    }
    outs.bytes(0) == row.left.output
}

fn file_has_begun(outs: &MemOut, slot: usize, file: &File<'_>, row: &Run<'_>) -> bool {
    let (name, bytes) = *file;
    if outs.name(slot).is_empty() {
        return outs.bytes(slot).is_empty();
    }
    if outs.name(slot) != name || !bytes.starts_with(outs.bytes(slot)) {
        return false;
    }
    match row.then {
        Then::Stops => !outs.removed(slot),
        Then::Removes => outs.removed(slot) || outs.broken(slot),
        Then::GoesOn => outs.broken(slot) || outs.bytes(slot) == bytes,
    }
}

/// Whether no file was opened, since there was no memory for the run.
fn is_unopened(outs: &MemOut) -> bool {
    outs.name(2).is_empty() && !outs.broken(2)
}
