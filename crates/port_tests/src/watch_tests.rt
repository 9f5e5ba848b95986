//! What no clause says of files in memory: that calls succeed where there is memory, and that a failure comes where it is planned.
ghost use Rattle.std.specs.Prelude.{◌≡◌, ◌∷◌, [], IsTrue, IfOk, OnOk};
ghost use Rattle.watch_core.specs.Watched.{added, is_readable, is_watchable};

use crate::compare::same;
use mem_core::{Edit, MemWatch};
use ports_core::Fault;
use std::alloc::Global;
use std::process::Abort;
use std::test::Fail;
use watch_core::{Seen, Watch};

/// What is done to files before each look.
type Looks = &'static [&'static [Edit<'static>]];

/// A watch over the name `f`, with a look after each of these lists of edits.
fn watch_of(alloc: Global, looks: Looks) -> Result<MemWatch, Fault>
    ensures { IfOk result (λ watch. watch.watched ≡ added (102 ∷ []) ∷ []) }
{
    let mut watch = MemWatch::new(alloc)?;
    watch.add("f")?;
    for edits in looks {
        watch.then(edits)?;
    }
    Ok(watch)
}

/// The same watch, after this many looks.
fn watch_at(alloc: Global, looks: Looks, count: u64) -> Result<MemWatch, Fault>
    ensures { IfOk result (λ watch. IsTrue (is_watchable watch.watched 0)) }
{
    let mut watch = watch_of(alloc, looks)?;
    for _ in 0..count {
        watch.turn()?;
    }
    Ok(watch)
}

/// A file is written, and then appended to and cut.
const CUT: Looks = &[
    &[Edit::Replace("f", b"abc")],
    &[Edit::Append("f", b"de"), Edit::Truncate("f", 4)],
];

/// A file is written, and then replaced and removed.
const REMOVED: Looks = &[
    &[Edit::Replace("f", b"abc")],
    &[Edit::Replace("f", b"x"), Edit::Remove("f")],
];

#[test]
fn a_look_sees_what_was_planned(rt: HostRuntime) -> Result<(), Fail> {
    let mut watch = watch_at(rt.alloc(), CUT, 2)?;
    same(&rt, &watch.look(0), &Ok(Some(Seen { id: 0, len: 4 })));
    Ok(())
}

#[test]
fn a_file_stays_open(rt: HostRuntime) -> Result<(), Fail> {
    let mut watch = watch_at(rt.alloc(), REMOVED, 1)?;
    same(&rt, &watch.reopen(0), &Ok(true));
    watch.turn()?;
    same(&rt, &watch.open_id(0), &Some(0));
    Ok(())
}

/// A file is written.
const WRITTEN: Looks = &[&[Edit::Replace("f", b"abc")]];

/// A call on a watched name, each of which counts as one.
#[derive(Clone, Copy, Debug, PartialEq, Eq)]
enum Call {
    Look,
    Reopen,
    Length,
    Read,
}

const CALLS: &[Call] = &[Call::Look, Call::Reopen, Call::Length, Call::Read];

/// How the failure of each call is told.
fn failure_of(call: Call) -> Fault {
    match call {
        Call::Look | Call::Reopen => Fault::Open(0),
        Call::Length | Call::Read => Fault::Read(0),
    }
}

/// Makes a call on the name, whose file holds three bytes.
fn ask(rt: &impl Abort, watch: &mut MemWatch, call: Call) -> Result<(), Fault>
    requires { IsTrue (is_readable watch.old.watched 0) }
    ensures { OnOk result (IsTrue (is_readable watch.new.watched 0)) }
{
    match call {
        Call::Look => same(rt, &watch.look(0)?, &Some(Seen { id: 0, len: 3 })),
        Call::Reopen => reopen(rt, watch)?,
        Call::Length => same(rt, &watch.open_len(0)?, &3),
        Call::Read => same(rt, &watch.read_at(0, 1, &mut [0; 9])?, &2),
    }
    Ok(())
}

/// Opens the file that the name leads to.
fn reopen(rt: &impl Abort, watch: &mut MemWatch) -> Result<(), Fault>
    requires { IsTrue (is_watchable watch.old.watched 0) }
    ensures { OnOk result (IsTrue (is_readable watch.new.watched 0)) }
{
    let is_there = watch.reopen(0)?;
    assert!(rt; is_there);
    Ok(())
}

/// Makes all calls in their order, of which the one with this number is to fail, and returns the number of the one that did.
fn first_failure(rt: &impl Abort, alloc: Global, failing: u64) -> Result<usize, Fault> {
    let mut watch = watch_at(alloc, WRITTEN, 1)?;
    reopen(rt, &mut watch)?;
    watch.fail_at(failing);
    let mut done = 0usize;
    for call in CALLS {
        if let Err(fault) = ask(rt, &mut watch, *call) {
            same(rt, &fault, &failure_of(*call));
            return Ok(done);
        }
        done = done.saturating_add(1);
    }
    Ok(done)
}

#[test]
fn each_call_fails_in_its_turn(rt: HostRuntime) -> Result<(), Fail> {
    for failing in 1..=5 {
        let done = first_failure(&rt, rt.alloc(), failing)?;
        same(&rt, &(done as u64), &(failing - 1));
    }
    Ok(())
}
