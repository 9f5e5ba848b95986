//! The inputs of a run, one after another.
ghost use Rattle.std.specs.{
  Prelude.{◌≡◌, ◌<◌, ◌≤◌, ℕ, List, Option, true, false, map, length, IfErr, IfSome, OnOk, OnErr, IsTrue},
};
ghost use Rattle.ports_core.specs.{
  Slot.{is_open, slot_at, is_writable, streams, visible_of, with_written},
  Source.{source_at, is_readable, IsFresh},
  Inputs.{AsksAtMost, largest_piece},
  Message.SaysOn,
  Text.message_of,
};
ghost use Rattle.run_core.specs.{
  Feeding.IsUntaken,
  Input.{has_dash, is_dash, next_slot},
  Reading.{count_after, reason_of},
  inner.RunSteps.{FedSource, HasStreams, HeaderFails, KeepsOther, TakesOne, TookAll, TookName, TookSource, moment_of},
  inner.RunSteps.{standard_source, start_at},
  RunEnds.{EndsAs, RunsOver},
  RunSteps.world_of,
  Task.header_text,
};

use crate::adapter::Adapter;
use crate::feeding::{Fed, feed_input, feed_nothing};
use ports_core::{
    Fault, Inputs, Outs, PIECE, Reason, STANDARD_INPUT, header, say, tell, write_whole,
};
use std::alloc::Global;

/// What all inputs of a run have in common.
#[derive(Clone, Copy)]
struct Job<'a, A: Adapter> {
    alloc: Global,
    adapter: &'a A,
}

/// How far a run over several inputs has come.
#[derive(Clone, Copy)]
pub struct RunProgress {
    /// Standard input was among them.
    was_read: bool,
    /// No header was written.
    is_first: bool,
    /// A fault was reported.
    failed: bool,
}

/// A whole run of a tool over the inputs of these names, in order (POSIX.1-2017, XBD 12.2: `-` is standard input; a later `-` is empty). It
/// writes headers and what the tool makes of each input, and reports each fault on standard error; a fault of memory, of an output or of
/// length ends the run. Its status is 1 if a fault was met, else 0. It takes memory for a buffer of 65,536 bytes and for what the tool's
/// engine, headers and messages need.
pub fn run_inputs<A: Adapter, I: Inputs, O: Outs>(
    alloc: Global,
    adapter: &A,
    names: &[&str],
    inputs: &mut I,
    outs: &mut O,
) -> u8
    requires fresh { IsFresh (I.sources inputs.old) }
    requires outputs { O.slots outs.old ≡ streams }
    requires alone { (shown : Option (List ℕ)) → ((A.task adapter.now).work shown).clears ≡ true
        → length (map (λ name. name.now) names.now) ≤ 1 }
    ensures untouched { has_dash (map (λ name. name.now) names.now) ≡ false
        → source_at (I.sources inputs.new) 0 ≡ source_at (I.sources inputs.old) 0 }
    ensures ends { RunsOver I.visible (world_of (I.laid inputs.old) (I.sources inputs.old))
        (map (λ name. name.now) names.now)
        (λ found. EndsAs I.visible O.visible (A.task adapter.now) found (I.sources inputs.new)
        (O.slots outs.new) result) }
    ensures opened { length (I.sources inputs.new) ≤ count_after 1 (map (λ name. name.now) names.now) }
    ensures asked { AsksAtMost largest_piece (I.sources inputs.new) }
{
    let job = Job { alloc, adapter };
    let Ok(mut buffer) = vec![in alloc; 0u8; PIECE] else {
        return tell(alloc, adapter.speaker(), &Fault::Memory, outs);
    };
    match take_names(&job, names, &mut buffer, inputs, outs) {
        Ok(failed) => u8::from(failed),
        Err(fault) => tell(alloc, adapter.speaker(), &fault, outs),
    }
}

/// Does the tool's work on the inputs of these names, in order, by pieces of the buffer's length, and returns whether a fault was reported.
///
/// # Errors
///
/// What stopped the run among them.
fn take_names<A: Adapter, I: Inputs, O: Outs>(
    job: &Job<'_, A>,
    names: &[&str],
    buffer: &mut [u8],
    inputs: &mut I,
    outs: &mut O,
) -> Result<bool, Fault>
    requires room { length buffer.old ≡ largest_piece }
    requires fresh { IsFresh (I.sources inputs.old) }
    requires outputs { O.slots outs.old ≡ streams }
    requires alone { (shown : Option (List ℕ)) → ((A.task job.now.adapter.now).work shown).clears ≡ true
        → length (map (λ name. name.now) names.now) ≤ 1 }
    ensures took { RunsOver I.visible (world_of (I.laid inputs.old) (I.sources inputs.old))
        (map (λ name. name.now) names.now)
        (λ found. TookAll I.visible O.visible (A.task job.now.adapter.now) found (I.sources inputs.new)
        (O.slots outs.new) result) }
    ensures opened { length (I.sources inputs.new) ≤ count_after 1 (map (λ name. name.now) names.now) }
    ensures asked { AsksAtMost largest_piece (I.sources inputs.new) }
    ensures untouched { has_dash (map (λ name. name.now) names.now) ≡ false
        → source_at (I.sources inputs.new) 0 ≡ source_at (I.sources inputs.old) 0 }
{
    let mut progress = RunProgress {
        was_read: false,
        is_first: true,
        failed: false,
    };
    let mut left = names;
    while let [name, rest @ ..] = left {
        progress = take_name(job, name, progress, buffer, inputs, outs)?;
        left = rest;
    }
    Ok(progress.failed)
}

/// Does the tool's work on the input of this name, or reports that it can't be opened or read.
///
/// # Errors
///
/// What stops the whole run.
fn take_name<A: Adapter, I: Inputs, O: Outs>(
    job: &Job<'_, A>,
    name: &str,
    progress: RunProgress,
    buffer: &mut [u8],
    inputs: &mut I,
    outs: &mut O,
) -> Result<RunProgress, Fault>
    requires room { 0 < length buffer.old }
    requires some { 0 < length (I.sources inputs.old) }
    requires standard { progress.was_read ≡ false → IsTrue (is_readable (I.sources inputs.old) 0) }
    requires unread { progress.was_read ≡ false → IsUntaken (source_at (I.sources inputs.old) 0) }
    requires outputs { HasStreams O.visible (O.slots outs.old) }
    ensures took { (is : HasStreams O.visible (O.slots outs.old))
        → TookName I.visible (I.laid inputs.old) (A.task job.now.adapter.now) name.now
        (start_at is progress (length buffer.old) (I.sources inputs.old)) (I.sources inputs.new) (O.slots outs.new)
        result }
    ensures takes { TakesOne (length buffer.old) progress.was_read name.now (I.sources inputs.old)
        (I.sources inputs.new) }
    ensures opens { OnOk result (length (I.sources inputs.new) ≡ next_slot (length (I.sources inputs.old)) name.now) }
    ensures laid { I.laid inputs.new ≡ I.laid inputs.old }
{
    if is_dash(name) {
        let source = standard_source(progress.was_read);
        let progress = RunProgress {
            was_read: true,
            ..progress
        };
        return take_input(
            job,
            "standard input",
            source,
            progress,
            buffer,
            inputs,
            outs,
        );
    }
    match inputs.open(name) {
        Ok(slot) => take_input(job, name, Some(slot), progress, buffer, inputs, outs),
        Err(fault) => {
            let Fault::Open(slot) = fault else {
                return Err(fault);
            };
            say_why(job, Some(slot), &fault, name, inputs, outs);
            Ok(RunProgress {
                failed: true,
                ..progress
            })
        }
    }
}

/// Whether the operand stands for standard input.
pub fn is_dash(name: &str) -> bool
    ensures { result ≡ is_dash name.now }
{
    name == STANDARD_INPUT
}

/// What a `-` reads: standard input the first time, and nothing again.
fn standard_source(was_read: bool) -> Option<usize>
    ensures { result ≡ standard_source was_read }
{
    if was_read { None } else { Some(0) }
}

/// Does the tool's work on an input that is open, with its header, and reports the fault with which it ended or that the input can't be
/// read further. Without a source it is an empty input.
///
/// # Errors
///
/// What stops the whole run.
fn take_input<A: Adapter, I: Inputs, O: Outs>(
    job: &Job<'_, A>,
    name: &str,
    source: Option<usize>,
    progress: RunProgress,
    buffer: &mut [u8],
    inputs: &mut I,
    outs: &mut O,
) -> Result<RunProgress, Fault>
    requires room { 0 < length buffer.old }
    requires input { IfSome source (λ slot. IsTrue (is_readable (I.sources inputs.old) slot)) }
    requires unread { IfSome source (λ slot. IsUntaken (source_at (I.sources inputs.old) slot)) }
    requires outputs { HasStreams O.visible (O.slots outs.old) }
    ensures took { (had : HasStreams O.visible (O.slots outs.old))
        → TookSource I.visible (A.task job.now.adapter.now) name.now source
        (start_at had progress (length buffer.old) (I.sources inputs.old)) (I.sources inputs.new) (O.slots outs.new)
        result }
    ensures asked { AsksAtMost (length buffer.old) (I.sources inputs.old)
        → AsksAtMost (length buffer.old) (I.sources inputs.new) }
    ensures others { KeepsOther source (I.sources inputs.old) (I.sources inputs.new) }
    ensures laid { I.laid inputs.new ≡ I.laid inputs.old }
{
    put_header(job, name, progress.is_first, outs)?;
    let after = RunProgress {
        is_first: false,
        ..progress
    };
    match feed_source(job, source, buffer, inputs, outs) {
        Ok(Fed::Whole) => Ok(after),
        Ok(Fed::Enough) => Ok(after),
        Ok(Fed::Broken) => {
            say_why(job, source, &Fault::Read(0), name, inputs, outs);
            Ok(RunProgress {
                failed: true,
                ..after
            })
        }
        Err(fault) => {
            let Fault::Verdict(verdict) = fault else {
                return Err(fault);
            };
            let subject = job.adapter.subject(&verdict, name);
            say_why(job, source, &fault, subject, inputs, outs);
            Ok(RunProgress {
                failed: true,
                ..after
            })
        }
    }
}

/// Reports a fault of an input, and why it can't be opened or read, if that is the fault.
fn say_why<A: Adapter, I: Inputs, O: Outs>(
    job: &Job<'_, A>,
    source: Option<usize>,
    fault: &Fault,
    name: &str,
    inputs: &I,
    outs: &mut O,
)
    requires { is_open (slot_at (O.slots outs.old) 1).state ≡ true }
    ensures { SaysOn O.visible (A.task job.now.adapter.now).speaker (reason_of source (I.sources inputs.now))
        (message_of fault.now name.now) (O.slots outs.old) (O.slots outs.new) }
{
    let why = reason_of(source, inputs);
    say(job.alloc, job.adapter.speaker(), why, fault, name, outs);
}

/// Why a source broke; `Other` without a source.
fn reason_of<I: Inputs>(source: Option<usize>, inputs: &I) -> Reason
    ensures { result ≡ reason_of source (I.sources inputs.now) }
{
    match source {
        Some(slot) => inputs.reason(slot),
        None => Reason::Other,
    }
}

/// Writes the header of an input, if headers are written.
///
/// # Errors
///
/// `Memory` if there is no room for it, `Write(0)` if standard output broke.
fn put_header<A: Adapter, O: Outs>(
    job: &Job<'_, A>,
    name: &str,
    is_first: bool,
    outs: &mut O,
) -> Result<(), Fault>
    requires { IsTrue (is_writable (O.slots outs.old) 0) }
    ensures ok { OnOk result (O.slots outs.new
        ≡ with_written 0 (visible_of O.visible (header_text (A.task job.now.adapter.now).with_header is_first name.now))
        (O.slots outs.old)) }
    ensures due { OnErr result ((A.task job.now.adapter.now).with_header ≡ true) }
    ensures err { IfErr result
        (HeaderFails O.visible (header_text (A.task job.now.adapter.now).with_header is_first name.now)
        (O.slots outs.old)
        (O.slots outs.new)) }
{
    if !job.adapter.with_header() {
        return Ok(());
    }
    let text = header(job.alloc, name, is_first)?;
    Ok(write_whole(outs, 0, &text)?)
}

/// Feeds all of a source to an engine of its own, which is opened by what that shows.
///
/// # Errors
///
/// The engine's fault.
fn feed_source<A: Adapter, I: Inputs, O: Outs>(
    job: &Job<'_, A>,
    source: Option<usize>,
    buffer: &mut [u8],
    inputs: &mut I,
    outs: &mut O,
) -> Result<Fed, Fault>
    requires room { 0 < length buffer.old }
    requires input { IfSome source (λ slot. IsTrue (is_readable (I.sources inputs.old) slot)) }
    requires unread { IfSome source (λ slot. IsUntaken (source_at (I.sources inputs.old) slot)) }
    requires streams { 2 ≤ length (O.slots outs.old) }
    requires output { IsTrue (is_writable (O.slots outs.old) 0) }
    ensures fed { FedSource I.visible O.visible (A.task job.now.adapter.now) (length buffer.old) source
        (moment_of (I.sources inputs.old) (O.slots outs.old)) (moment_of (I.sources inputs.new) (O.slots outs.new))
        result }
    ensures asked { AsksAtMost (length buffer.old) (I.sources inputs.old)
        → AsksAtMost (length buffer.old) (I.sources inputs.new) }
    ensures others { KeepsOther source (I.sources inputs.old) (I.sources inputs.new) }
    ensures laid { I.laid inputs.new ≡ I.laid inputs.old }
{
    let mut engine = job.adapter.open(job.alloc, source, buffer, inputs, outs)?;
    match source {
        Some(slot) => feed_input(&mut engine, slot, buffer, inputs, outs),
        None => feed_nothing(&mut engine, outs),
    }
}
