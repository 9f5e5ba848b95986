//! Whole runs over memory, what they are to leave, and the check of it: files with their names, standard output, messages and
//! status.
ghost use Rattle.std.specs.Prelude.{◌≡◌, IfOk, OnOk};
ghost use Rattle.ports_core.specs.{Slot.streams, Source.IsFresh};

use mem_core::{MemIn, MemOut};
use ports_core::{Fault, Outs};
use std::alloc::Global;
use std::process::Abort;
use std::test::Fail;
use tools_core::run::run;

/// A name and what lies there, or is to lie there.
pub(crate) type File<'a> = (&'a str, &'a [u8]);

/// What is planned for the inputs and outputs of a run.
#[derive(Clone, Copy)]
pub(crate) enum Plan {
    /// Each read gives this many bytes, and no more.
    Pieces(usize),
    /// An input breaks off after this many bytes.
    Break(usize, usize),
    /// Each write takes this many bytes, and no more.
    Short(usize),
    /// An output takes this many bytes, and no more.
    Limit(usize, usize),
    /// Of the calls for outputs the one with this number fails.
    FailAt(u64),
}

/// A run: what it is given, and what it is to leave.
#[derive(Clone, Copy)]
pub(crate) struct Run<'a> {
    /// The words, from the tool's name on.
    pub words: &'a [&'a str],
    /// The files that lie there before.
    pub files: &'a [File<'a>],
    /// The bytes of standard input.
    pub input: &'a [u8],
    /// What is planned for its inputs and outputs.
    pub plans: &'a [Plan],
    /// What it is to leave.
    pub left: Left<'a>,
}

/// What a run is to leave.
#[derive(Clone, Copy)]
pub(crate) struct Left<'a> {
    /// What is to be on standard output.
    pub output: &'a [u8],
    /// The files that it is to open, in order, with what is written to each.
    pub files: &'a [File<'a>],
    /// The names of those that it is to remove again.
    pub removed: &'a [&'a str],
    /// What is to be on standard error.
    pub messages: &'a [u8],
    /// The status that it is to return.
    pub status: u8,
}

/// A file that lies there: three lines, the last of them open.
pub(crate) const LAID: &[File<'static>] = &[("f", b"1\n2\n3")];

/// The run that writes nothing and meets no fault.
pub(crate) const NOTHING: Left<'static> = Left {
    output: b"",
    files: &[],
    removed: &[],
    messages: b"",
    status: 0,
};

/// Standard input and files in memory.
pub(crate) fn inputs_of(alloc: Global, files: &[File<'_>], bytes: &[u8]) -> Result<MemIn, Fault>
    ensures { IfOk result (λ inputs. IsFresh inputs.sources) }
{
    let mut inputs = MemIn::new(alloc)?;
    inputs.input(bytes)?;
    for file in files {
        lay(&mut inputs, file)?;
    }
    Ok(inputs)
}

fn lay(inputs: &mut MemIn, file: &File<'_>) -> Result<(), Fault>
    ensures { OnOk result (inputs.new.sources ≡ inputs.old.sources) }
{
    inputs.file(file.0, file.1)
}

/// Inputs as they are planned.
pub(crate) fn planned_inputs(alloc: Global, run: &Run<'_>) -> Result<MemIn, Fault>
    ensures { IfOk result (λ inputs. IsFresh inputs.sources) }
{
    let mut inputs = inputs_of(alloc, run.files, run.input)?;
    for plan in run.plans {
        plan_input(&mut inputs, plan)?;
    }
    Ok(inputs)
}

fn plan_input(inputs: &mut MemIn, plan: &Plan) -> Result<(), Fault>
    requires { IsFresh inputs.old.sources }
    ensures { OnOk result (IsFresh inputs.new.sources) }
{
    match plan {
        Plan::Pieces(most) => {
            inputs.pieces((*most).max(1));
            Ok(())
        }
        Plan::Break(slot, at) => inputs.break_at(*slot, *at),
        _ => Ok(()),
    }
}

/// Outputs as they are planned.
pub(crate) fn planned_outs(alloc: Global, plans: &[Plan]) -> Result<MemOut, Fault>
    ensures { IfOk result (λ outs. outs ≡ streams) }
{
    let mut outs = MemOut::new(alloc)?;
    for plan in plans {
        plan_output(&mut outs, plan)?;
    }
    Ok(outs)
}

fn plan_output(outs: &mut MemOut, plan: &Plan) -> Result<(), Fault>
    ensures { outs.new ≡ outs.old }
{
    match plan {
        Plan::Short(most) => {
            outs.short((*most).max(1));
            Ok(())
        }
        Plan::Limit(slot, bytes) => outs.limit(*slot, *bytes),
        Plan::FailAt(call) => {
            outs.fail_at(*call);
            Ok(())
        }
        _ => Ok(()),
    }
}

/// Runs the words of each row.
pub(crate) fn check_runs(rt: &impl Abort, alloc: Global, runs: &[Run<'_>]) -> Result<(), Fail> {
    for run in runs {
        check_run(rt, alloc, run)?;
    }
    Ok(())
}

/// Runs the words.
pub(crate) fn check_run(rt: &impl Abort, alloc: Global, run: &Run<'_>) -> Result<(), Fault> {
    let inputs = planned_inputs(alloc, run)?;
    check_over(rt, alloc, run, inputs)
}

/// Runs the words over inputs that come whole, and once more over inputs that come byte by byte.
pub(crate) fn check_twice(rt: &impl Abort, alloc: Global, run: &Run<'_>) -> Result<(), Fault> {
    check_run(rt, alloc, run)?;
    let mut inputs = planned_inputs(alloc, run)?;
    inputs.pieces(1);
    check_over(rt, alloc, run, inputs)
}

/// Runs the words over these inputs.
pub(crate) fn check_over(
    rt: &impl Abort,
    alloc: Global,
    row: &Run<'_>,
    mut inputs: MemIn,
) -> Result<(), Fault>
    requires { IsFresh inputs.sources }
{
    let mut outs = planned_outs(alloc, row.plans)?;
    let status = run(alloc, row.words, &mut inputs, &mut outs);
    check_left(rt, row.words, &outs, status, &row.left);
    Ok(())
}

/// Checks what a run of the words left.
fn check_left(rt: &impl Abort, words: &[&str], outs: &MemOut, status: u8, left: &Left<'_>) {
    let other = differs(outs, status, left);
    assert!(rt; other.is_empty(), "{other} of {words:?}");
}

/// What isn't as a run is to leave it; the text is empty where all is.
pub(crate) fn differs(outs: &MemOut, status: u8, left: &Left<'_>) -> &'static str {
    let mut slot: usize = 2;
    for file in left.files {
        if !is_file(outs, slot, file, left) {
            return "a file";
        }
        slot = slot.saturating_add(1);
    }
    if !outs.name(slot).is_empty() {
        "the number of files"
    } else if outs.bytes(0) != left.output {
        "standard output"
    } else if outs.bytes(1) != left.messages {
        "standard error"
    } else if status != left.status {
        "the status"
    } else {
        ""
    }
}

fn is_file(outs: &MemOut, slot: usize, file: &File<'_>, left: &Left<'_>) -> bool {
    let is_removed = has_name(left.removed, file.0);
    outs.name(slot) == file.0 && outs.bytes(slot) == file.1 && outs.removed(slot) == is_removed
}

pub(crate) fn has_name(names: &[&str], name: &str) -> bool {
    for other in names {
        if *other == name {
            return true;
        }
    }
    false
}
