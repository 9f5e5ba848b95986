//! A whole run of `tee`.
ghost use Rattle.std.specs.{
  Prelude.{◌≡◌, ◌+◌, ◌<◌, ◌≤◌, ◌^◌, ◌-◌, replicate, ℕ, List, Option, [], true, false, map, length, get_or},
  Prelude.{IfOk, IfErr, IsTrue},
};
ghost use Rattle.ports_core.specs.{
  declared.fault.Fault.Fault,
  Slot.{is_open, slot_at, streams},
  Text.message_of,
  Message.SaysOn,
  Source.{source_at, is_readable, IsFresh},
  Inputs.{KeepsOthers, AsksAtMost, largest_piece},
};
ghost use Rattle.tee_core.specs.{
  Opening.Opens,
  Outputs.IsReady,
  Run.{AreSound, ClosesAll, CopiesPiece, Copied, EndsOver, SaysTo, all_copied, forgives, is_done, output_names, said_of_input},
  Run.{output_slot, said_since, standings_of, stands_as, tee_called, tee_run, tells},
  inner.Steps.{CopiesOver, HasStreams, IsTeeOf, run_for},
  declared.standing.Standing.TheVariants.Sound,
};

use crate::standing::{Standing, is_done, is_told, lost_for, status_for};
use crate::tee::Tee;
use ports_core::{
    Calling, Fault, Inputs, Mode, OnBroken, Outs, PIECE, Speaker, Tool, fed_with, say, tell,
};
use std::alloc::Global;

/// What is asked of a run.
#[derive(Clone, Copy)]
struct Job<'a> {
    alloc: Global,
    calling: Calling,
    names: &'a [&'a str],
    mode: Mode,
    on_broken: OnBroken,
}

/// A whole run of `tee`: copies standard input to standard output and to the files of these names, which begin empty or are appended to
/// (POSIX.1-2017, XCU tee). A file named `-` is a file. Its status is 1 if a fault was met, and else 0.
///
/// An output that can't be opened, written or closed is reported on standard error, after the call in which it broke, and the others have
/// all that is read. The input is read to its end. If the run goes on with the outputs that are left, it is read up to the piece with which
/// the last output broke. If the run exits (GNU coreutils manual, tee, `--output-error=exit`), it is read up to the piece in which the
/// first output broke, and not at all if a file couldn't be opened. What comes later, a fault of the input too, isn't met. If the input
/// breaks off, or has more than 2^63-1 bytes, that is reported. In each case the files that are sound are closed.
///
/// Of an output whose reader is gone `WarnNoPipe`, `ExitNoPipe` and `Signal` say nothing. The first two go on without it, with the status
/// as if it were none. The third ends with it as `Exit` does, with the status 141, and goes on without outputs that broke otherwise. After
/// a tool's own name each message has the system's reason.
///
/// It takes memory for one buffer of 65,536 bytes and a byte for each output, before anything is opened, and for its
/// messages.
pub fn run_tee<I: Inputs, O: Outs>(
    alloc: Global,
    calling: Calling,
    names: &[&str],
    mode: Mode,
    on_broken: OnBroken,
    inputs: &mut I,
    outs: &mut O,
) -> u8
    requires fresh { IsFresh (I.sources inputs.old) }
    requires outputs { O.slots outs.old ≡ streams }
    ensures ends { EndsOver (tee_run O.visible calling mode on_broken names.now) I.visible
        (source_at (I.sources inputs.old) 0) (source_at (I.sources inputs.new) 0) (O.slots outs.new) result }
    ensures whole { I.visible ≡ true → result ≡ 0 → (forgives on_broken ≡ true → AreSound (O.slots outs.new))
        → O.slots outs.new
        ≡ all_copied O.visible mode (map (λ name. name.now) names.now) (source_at (I.sources inputs.old) 0).left.bytes }
    ensures others { KeepsOthers 0 (I.sources inputs.old) (I.sources inputs.new) }
    ensures asked { AsksAtMost largest_piece (I.sources inputs.new) }
{
    let job = Job {
        alloc,
        calling,
        names,
        mode,
        on_broken,
    };
    match copy_input(&job, inputs, outs) {
        Ok(status) => status,
        Err(fault) => tell(alloc, tee_called(calling), &fault, outs),
    }
}

/// Who speaks in its messages.
fn tee_called(calling: Calling) -> Speaker
    ensures { result ≡ tee_called calling }
{
    Speaker {
        calling,
        tool: Tool::Tee,
    }
}

/// The run, once there is memory for it. Returns its status.
///
/// # Errors
///
/// `Memory` if there is none: nothing was opened or read.
fn copy_input<I: Inputs, O: Outs>(job: &Job<'_>, inputs: &mut I, outs: &mut O) -> Result<u8, Fault>
    requires fresh { IsFresh (I.sources inputs.old) }
    requires outputs { O.slots outs.old ≡ streams }
    ensures copied { IfOk result (EndsOver (run_for O.visible job.now) I.visible (source_at (I.sources inputs.old) 0)
        (source_at (I.sources inputs.new) 0) (O.slots outs.new)) }
    ensures err { IfErr result
        (λ fault. (fault ≡ Fault.Memory) × (O.slots outs.new ≡ O.slots outs.old)
        × (I.sources inputs.new ≡ I.sources inputs.old)) }
    ensures others { KeepsOthers 0 (I.sources inputs.old) (I.sources inputs.new) }
    ensures asked { AsksAtMost largest_piece (I.sources inputs.new) }
{
    let mut buffer = vec![in job.alloc; 0u8; PIECE]?;
    let Some(outputs) = job.names.len().checked_add(1) else {
        return Err(Fault::Memory);
    };
    let mut known = vec![in job.alloc; Standing::Sound; outputs]?;
    let tee = Tee::open(job.alloc, job.names, job.mode, outs)?;
    Ok(copy_all(job, tee, &mut buffer, &mut known, inputs, outs))
}

/// The run of a tee that was just opened. Of no output it is known yet that it is broken. Returns the status.
fn copy_all<I: Inputs, O: Outs>(
    job: &Job<'_>,
    mut tee: Tee,
    buffer: &mut [u8],
    known: &mut [Standing],
    inputs: &mut I,
    outs: &mut O,
) -> u8
    requires room { length buffer.old ≡ largest_piece }
    requires fresh { IsFresh (I.sources inputs.old) }
    requires tee { IsTeeOf (map (λ name. name.now) job.now.names.now) tee }
    requires opened { Opens job.now.mode (map (λ name. name.now) job.now.names.now) streams (O.slots outs.old) }
    requires unknown { known.old ≡ replicate (length job.now.names.now + 1) Sound }
    ensures copied { EndsOver (run_for O.visible job.now) I.visible (source_at (I.sources inputs.old) 0)
        (source_at (I.sources inputs.new) 0) (O.slots outs.new) result }
    ensures others { KeepsOthers 0 (I.sources inputs.old) (I.sources inputs.new) }
    ensures asked { AsksAtMost largest_piece (I.sources inputs.new) }
{
    tell_broken(job, &Fault::Open(0), known, outs);
    let fault = copy_pieces(job, &mut tee, buffer, known, inputs, outs);
    tell_input(job, &fault, inputs, outs);
    close_all(job, &mut tee, known, outs);
    status_for(job.on_broken, known, &fault)
}

/// Reads standard input to its end, or until the outputs that are broken end the run, and copies it piece by piece, with the messages for
/// outputs that break. Returns the fault that ended it sooner, if a fault did: `Read` if the input broke off, `TooLong` if it has more than
/// 2^63-1 bytes.
#[tactic(auto, using(ports_core::proofs::InputsLemmas::keeps_again, ports_core::proofs::InputsLemmas::keeps_others, ports_core::proofs::InputsLemmas::asked_again, ports_core::proofs::InputsLemmas::asked_at_end))]
fn copy_pieces<I: Inputs, O: Outs>(
    job: &Job<'_>,
    tee: &mut Tee,
    buffer: &mut [u8],
    known: &mut [Standing],
    inputs: &mut I,
    outs: &mut O,
) -> Option<Fault>
    requires room { 0 < length buffer.old }
    requires most { length buffer.old ≤ largest_piece }
    requires input { IsTrue (is_readable (I.sources inputs.old) 0) }
    requires unread { (source_at (I.sources inputs.old) 0).reads ≡ 0 }
    requires tee { IsTeeOf (map (λ name. name.now) job.now.names.now) tee.old }
    requires started { Copied (run_for O.visible job.now) [] (O.slots outs.old) }
    requires known { known.old ≡ standings_of (O.slots outs.old) }
    ensures same { tee.new ≡ tee.old }
    ensures copies { CopiesOver (run_for O.visible job.now) I.visible (source_at (I.sources inputs.old) 0)
        (source_at (I.sources inputs.new) 0) (O.slots outs.new) result }
    ensures known { known.new ≡ standings_of (O.slots outs.new) }
    ensures others { KeepsOthers 0 (I.sources inputs.old) (I.sources inputs.new) }
    ensures asked { (source_at (I.sources inputs.old) 0).asked ≤ length buffer.old
        → (source_at (I.sources inputs.new) 0).asked ≤ length buffer.old }
{
    let mut fed = 0;
    'pieces: while !is_done(job.on_broken, known) {
        let n = match inputs.read(0, buffer) {
            Ok(n) => n,
            Err(fault) => return Some(fault),
        };
        if n == 0 {
            return None;
        }
        let Some(sum) = fed_with(fed, n) else {
            return Some(Fault::TooLong);
        };
        copy_piece(job, tee, &buffer[..n], known, outs);
        fed = sum;
    }
    None
}

/// Copies a piece, and reports which outputs broke in it.
fn copy_piece<O: Outs>(
    job: &Job<'_>,
    tee: &mut Tee,
    piece: &[u8],
    known: &mut [Standing],
    outs: &mut O,
)
    requires tee { IsTeeOf (map (λ name. name.now) job.now.names.now) tee.old }
    requires ready { IsReady tee.old (O.slots outs.old) }
    requires streams { HasStreams (O.slots outs.old) (length (map (λ name. name.now) job.now.names.now)) }
    requires known { known.old ≡ standings_of (O.slots outs.old) }
    ensures same { tee.new ≡ tee.old }
    ensures copies { CopiesPiece (run_for O.visible job.now) piece.now (O.slots outs.old) (O.slots outs.new) }
    ensures known { known.new ≡ standings_of (O.slots outs.new) }
{
    tee.feed(piece, outs);
    tell_broken(job, &Fault::Write(0), known, outs);
}

/// Closes the files, and reports which of them broke in that.
fn close_all<O: Outs>(job: &Job<'_>, tee: &mut Tee, known: &mut [Standing], outs: &mut O)
    requires tee { IsTeeOf (map (λ name. name.now) job.now.names.now) tee.old }
    requires ready { IsReady tee.old (O.slots outs.old) }
    requires streams { HasStreams (O.slots outs.old) (length (map (λ name. name.now) job.now.names.now)) }
    requires known { known.old ≡ standings_of (O.slots outs.old) }
    ensures closes { ClosesAll (run_for O.visible job.now) (O.slots outs.old) (O.slots outs.new) }
    ensures known { known.new ≡ standings_of (O.slots outs.new) }
{
    tee.close(outs);
    tell_broken(job, &Fault::Write(0), known, outs);
}

/// Reports what ended the reading before the input's end, if anything did.
fn tell_input<I: Inputs, O: Outs>(job: &Job<'_>, fault: &Option<Fault>, inputs: &I, outs: &mut O)
    requires { (count : ℕ) × HasStreams (O.slots outs.old) count }
    ensures { SaysTo (run_for O.visible job.now) (said_of_input (source_at (I.sources inputs.now) 0) fault.now)
        (O.slots outs.old) (O.slots outs.new) }
{
    if let Some(fault) = fault {
        let why = inputs.reason(0);
        say(
            job.alloc,
            tee_called(job.calling),
            why,
            fault,
            "standard input",
            outs,
        );
    }
}

/// Reports, in the outputs' order, each output that is broken and wasn't known to be, if that is due. Then it is known.
fn tell_broken<O: Outs>(job: &Job<'_>, fault: &Fault, known: &mut [Standing], outs: &mut O)
    requires streams { HasStreams (O.slots outs.old) (length job.now.names.now) }
    requires known { length known.old ≡ length job.now.names.now + 1 }
    ensures said { SaysTo (run_for O.visible job.now)
        (said_since (run_for O.visible job.now) fault.now known.old (O.slots outs.old) (length known.old))
        (O.slots outs.old) (O.slots outs.new) }
    ensures seen { known.new ≡ standings_of (O.slots outs.old) }
{
    for n in 0..known.len() {
        let name = output_name(job.names, n);
        known[n] = tell_one(job, fault, name, output_slot(n), known[n], outs);
    }
}

/// Reports that an output broke so, unless it is sound, or that is known, or it is gone and that isn't reported. Returns how it stands.
fn tell_one<O: Outs>(
    job: &Job<'_>,
    fault: &Fault,
    name: &str,
    slot: usize,
    known: Standing,
    outs: &mut O,
) -> Standing
    requires { is_open (slot_at (O.slots outs.old) 1).state ≡ true }
    ensures stands { result ≡ stands_as (slot_at (O.slots outs.old) slot) }
    ensures told { tells job.now.on_broken known result ≡ true
        → SaysOn O.visible (tee_called job.now.calling) (slot_at (O.slots outs.old) slot).reason
        (message_of fault.now name.now) (O.slots outs.old) (O.slots outs.new) }
    ensures quiet { tells job.now.on_broken known result ≡ false → O.slots outs.new ≡ O.slots outs.old }
{
    if !outs.broken(slot) {
        return Standing::Sound;
    }
    let why = outs.reason(slot);
    let standing = lost_for(why);
    if tells(job.on_broken, known, standing) {
        say(job.alloc, tee_called(job.calling), why, fault, name, outs);
    }
    standing
}

/// Whether there is a message for an output that was known to stand so, and now stands otherwise.
fn tells(on_broken: OnBroken, known: Standing, standing: Standing) -> bool
    ensures { result ≡ tells on_broken known standing }
{
    match known {
        Standing::Sound => is_told(on_broken, standing),
        Standing::Broken | Standing::Gone => false,
    }
}

/// What messages call an output: standard output, and then the files.
fn output_name<'a>(names: &[&'a str], n: usize) -> &'a str
    requires { n ≤ length names.now }
    ensures { result.now ≡ get_or (output_names (map (λ name. name.now) names.now)) n [] }
{
    if n == 0 {
        return "standard output";
    }
    names[n - 1]
}

/// The number of an output: standard error stands between standard output and the files.
fn output_slot(n: usize) -> usize
    requires { n < 2 ^ 64 - 1 }
    ensures { result ≡ output_slot n }
{
    if n == 0 { 0 } else { n + 1 }
}
