//! Whole runs over memory, which no clause can show to succeed: the outputs, messages and status.
ghost use Rattle.std.specs.Prelude.{◌≡◌, ◌<◌, false, IfOk, OnOk};
ghost use Rattle.ports_core.specs.{Slot.streams, Source.IsFresh};
ghost use Rattle.tee_core.specs.Outputs.{IsReady};

use crate::play::has_files;
use mem_core::{MemIn, MemOut};
use ports_core::{Calling, Fault, Inputs, Mode, OnBroken, Outs, Reason};
use std::alloc::Global;
use std::process::Abort;
use std::test::Fail;
use tee_core::{Tee, run_tee};

/// The input of nearly all runs.
const INPUT: &[u8] = b"abcdef";

/// What a run leaves.
#[derive(Clone, Copy)]
pub(crate) struct Left<'a> {
    pub(crate) output: &'a [u8],
    pub(crate) files: &'a [&'a [u8]],
    pub(crate) messages: &'a [u8],
    pub(crate) status: u8,
}

/// A standard input with these bytes, read by pieces of at most `piece`.
fn inputs_of(alloc: Global, bytes: &[u8], piece: usize) -> Result<MemIn, Fault>
    requires { 0 < piece }
    ensures { IfOk result (λ inputs. IsFresh inputs.sources) }
{
    let mut inputs = MemIn::new(alloc)?;
    inputs.input(bytes)?;
    inputs.pieces(piece);
    Ok(inputs)
}

/// Outputs where each slot of these takes that number of bytes and no more.
fn outs_of(alloc: Global, limits: &[(usize, usize)]) -> Result<MemOut, Fault>
    ensures { IfOk result (λ outs. outs ≡ streams) }
{
    let mut outs = MemOut::new(alloc)?;
    for limit in limits {
        outs.limit(limit.0, limit.1)?;
    }
    Ok(outs)
}

/// A run of `tee`: what it is given, and what it is to leave.
#[derive(Clone, Copy)]
pub(crate) struct Case<'a> {
    /// How the program is called.
    pub(crate) calling: Calling,
    /// The names of the files.
    pub(crate) names: &'a [&'a str],
    /// The bytes of standard input.
    pub(crate) input: &'a [u8],
    /// How long the pieces are that it comes in, at the most.
    pub(crate) piece: usize,
    /// After how many bytes it breaks off; none where it ends.
    pub(crate) breaks_at: Option<usize>,
    /// Why it does.
    pub(crate) breaks_as: Reason,
    /// Outputs, and how many bytes each takes.
    pub(crate) limits: &'a [(usize, usize)],
    /// Which of the calls for outputs is refused; 0 where none is.
    pub(crate) refused: u64,
    /// Outputs, and why each breaks, if it does.
    pub(crate) causes: &'a [(usize, Reason)],
    /// What is done once an output is broken.
    pub(crate) on_broken: OnBroken,
    pub(crate) left: Left<'a>,
}

/// Runs `tee` as the case says.
pub(crate) fn check(rt: &impl Abort, alloc: Global, case: &Case<'_>) -> Result<(), Fault> {
    let mut inputs = inputs_of(alloc, case.input, case.piece.max(1))?;
    plan_break(&mut inputs, case.breaks_at)?;
    inputs.breaks_as(0, case.breaks_as)?;
    let mut outs = outs_of(alloc, case.limits)?;
    plan_causes(&mut outs, case.causes)?;
    plan_refusal(&mut outs, case.refused);
    let status = run_tee(
        alloc,
        case.calling,
        case.names,
        Mode::Fresh,
        case.on_broken,
        &mut inputs,
        &mut outs,
    );
    check_left(rt, &outs, case, status);
    Ok(())
}

/// Runs `tee`, which goes on once an output is broken.
fn run(alloc: Global, names: &[&str], mode: Mode, inputs: &mut MemIn, outs: &mut MemOut) -> u8
    requires inputs { IsFresh inputs.old.sources }
    requires outputs { outs.old ≡ streams }
{
    run_tee(
        alloc,
        Calling::Cutters,
        names,
        mode,
        OnBroken::Warn,
        inputs,
        outs,
    )
}

/// Has standard input break off there, if it is to.
fn plan_break(inputs: &mut MemIn, at: Option<usize>) -> Result<(), Fault>
    requires { IsFresh inputs.old.sources }
    ensures { OnOk result (IsFresh inputs.new.sources) }
{
    match at {
        Some(at) => inputs.break_at(0, at),
        None => Ok(()),
    }
}

/// Has outputs break for these reasons, where they break.
fn plan_causes(outs: &mut MemOut, causes: &[(usize, Reason)]) -> Result<(), Fault>
    requires { outs.old ≡ streams }
    ensures { OnOk result (outs.new ≡ streams) }
{
    for cause in causes {
        outs.breaks_as(cause.0, cause.1)?;
    }
    Ok(())
}

/// Has the call for outputs with this number fail; 0 where none is to.
fn plan_refusal(outs: &mut MemOut, call: u64)
    ensures { outs.new ≡ outs.old }
{
    if call > 0 {
        outs.fail_at(call);
    }
}

/// Checks what the case's run has left.
fn check_left(rt: &impl Abort, outs: &MemOut, case: &Case<'_>, status: u8) {
    assert!(rt; has_left(outs, &case.left, status), "tee {:?}", case.names);
}

/// Whether standard output, the files, the messages and the status are these.
fn has_left(outs: &MemOut, left: &Left<'_>, status: u8) -> bool {
    outs.bytes(0) == left.output
        && outs.bytes(1) == left.messages
        && has_files(outs, left.files)
        && status == left.status
}

/// What `tee s t` leaves where nothing breaks.
const ALL: Left<'static> = Left {
    output: b"abcdef",
    files: &[b"abcdef", b"abcdef"],
    messages: b"",
    status: 0,
};

/// `tee s t` where nothing breaks, in one piece.
pub(crate) const SOUND: Case<'static> = Case {
    calling: Calling::Cutters,
    names: &["s", "t"],
    input: INPUT,
    piece: 65_536,
    breaks_at: None,
    breaks_as: Reason::Other,
    limits: &[],
    refused: 0,
    causes: &[],
    on_broken: OnBroken::Warn,
    left: ALL,
};

/// Runs each case, in its own pieces and in pieces of one byte.
#[test]
fn leaves_what_each_case_says_in_any_pieces(rt: HostRuntime) -> Result<(), Fail> {
    for case in IN_ANY_PIECES {
        check(&rt, rt.alloc(), case)?;
        check(&rt, rt.alloc(), &Case { piece: 1, ..*case })?;
    }
    Ok(())
}

const IN_ANY_PIECES: &[Case<'static>] = &[
    // Every output gets every byte.
    SOUND,
    Case {
        names: &[],
        left: Left { files: &[], ..ALL },
        ..SOUND
    },
    Case {
        names: &["s"],
        input: b"",
        left: Left {
            output: b"",
            files: &[b""],
            ..ALL
        },
        ..SOUND
    },
    // A broken output alone suffers.
    Case {
        limits: &[(2, 3)],
        left: Left {
            files: &[b"abc", b"abcdef"],
            messages: b"tee: cannot write 's'\n",
            status: 1,
            ..ALL
        },
        ..SOUND
    },
    Case {
        limits: &[(0, 2)],
        left: Left {
            output: b"ab",
            messages: b"tee: cannot write 'standard output'\n",
            status: 1,
            ..ALL
        },
        ..SOUND
    },
    Case {
        limits: &[(0, 1), (2, 1), (3, 1)],
        left: Left {
            output: b"a",
            files: &[b"a", b"a"],
            messages: b"tee: cannot write 'standard output'\ntee: cannot write 's'\ntee: cannot write 't'\n",
            status: 1,
        },
        ..SOUND
    },
    Case {
        limits: &[(1, 11), (2, 0)],
        left: Left {
            files: &[b"", b"abcdef"],
            messages: b"tee: cannot",
            status: 1,
            ..ALL
        },
        ..SOUND
    },
    Case {
        breaks_at: Some(3),
        limits: &[(3, 2)],
        left: Left {
            output: b"abc",
            files: &[b"abc", b"ab"],
            messages: b"tee: cannot write 't'\ntee: cannot read 'standard input'\n",
            status: 1,
        },
        ..SOUND
    },
    // Once no output is left the run is over, and a fault of the input that would come later isn't met.
    Case {
        names: &[],
        breaks_at: Some(4),
        limits: &[(0, 2)],
        left: Left {
            output: b"ab",
            files: &[],
            messages: b"tee: cannot write 'standard output'\n",
            status: 1,
        },
        ..SOUND
    },
    Case {
        breaks_at: Some(5),
        limits: &[(0, 1), (2, 2), (3, 2)],
        left: Left {
            output: b"a",
            files: &[b"ab", b"ab"],
            messages: b"tee: cannot write 'standard output'\ntee: cannot write 's'\ntee: cannot write 't'\n",
            status: 1,
        },
        ..SOUND
    },
    Case {
        names: &[],
        breaks_at: Some(2),
        limits: &[(0, 2)],
        left: Left {
            output: b"ab",
            files: &[],
            messages: b"tee: cannot read 'standard input'\n",
            status: 1,
        },
        ..SOUND
    },
];

#[test]
fn short_writes_are_gone_on_with(rt: HostRuntime) -> Result<(), Fail> {
    let alloc = rt.alloc();
    let mut inputs = inputs_of(alloc, INPUT, 4)?;
    let mut outs = outs_of(alloc, &[]).expect(&rt, "there is memory");
    outs.short(1);
    let status = run(alloc, &["s", "t"], Mode::Fresh, &mut inputs, &mut outs);
    check_left(&rt, &outs, &SOUND, status);
    Ok(())
}

#[test]
fn hyphen_is_a_file(rt: HostRuntime) -> Result<(), Fail> {
    let alloc = rt.alloc();
    let mut inputs = inputs_of(alloc, b"ab", 1)?;
    let mut outs = outs_of(alloc, &[]).expect(&rt, "there is memory");
    let status = run(alloc, &["-"], Mode::Append, &mut inputs, &mut outs);
    assert!(rt; has_left(&outs, &HYPHEN, status) && outs.name(2) == "-");
    Ok(())
}

/// What `tee -` leaves of two bytes.
const HYPHEN: Left<'static> = Left {
    output: b"ab",
    files: &[b"ab"],
    messages: b"",
    status: 0,
};

/// Runs each case in its own pieces.
#[test]
fn leaves_what_each_case_says(rt: HostRuntime) -> Result<(), Fail> {
    for case in IN_PIECES {
        check(&rt, rt.alloc(), case)?;
    }
    Ok(())
}

const IN_PIECES: &[Case<'static>] = &[
    // Where it exits, the run ends after the piece in which the first output broke, and the others have what was read.
    STOPS,
    Case {
        limits: &[(2, 3)],
        left: Left {
            output: b"abcd",
            files: &[b"abc", b"abcd"],
            messages: b"tee: cannot write 's'\n",
            status: 1,
        },
        ..STOPS
    },
    Case {
        limits: &[(0, 3), (3, 2)],
        left: Left {
            output: b"abc",
            files: &[b"abcd", b"ab"],
            messages: b"tee: cannot write 'standard output'\ntee: cannot write 't'\n",
            status: 1,
        },
        ..STOPS
    },
    Case {
        limits: &[(0, 1), (3, 3)],
        left: Left {
            output: b"a",
            files: &[b"ab", b"ab"],
            messages: b"tee: cannot write 'standard output'\n",
            status: 1,
        },
        ..STOPS
    },
    Case {
        piece: 6,
        limits: &[(3, 0)],
        left: Left {
            files: &[b"abcdef", b""],
            messages: b"tee: cannot write 't'\n",
            status: 1,
            ..ALL
        },
        ..STOPS
    },
    Case {
        names: &[],
        piece: 1,
        breaks_at: Some(3),
        limits: &[(0, 2)],
        left: Left {
            output: b"ab",
            files: &[],
            messages: b"tee: cannot write 'standard output'\n",
            status: 1,
        },
        ..STOPS
    },
    Case {
        breaks_at: Some(4),
        limits: &[(2, 4)],
        left: Left {
            output: b"abcd",
            files: &[b"abcd", b"abcd"],
            messages: b"tee: cannot read 'standard input'\n",
            status: 1,
        },
        ..STOPS
    },
    Case {
        refused: 2,
        left: Left {
            output: b"",
            files: &[b"", b""],
            messages: b"tee: cannot open 't'\n",
            status: 1,
        },
        ..STOPS
    },
    Case {
        refused: 12,
        left: Left {
            messages: b"tee: cannot write 's'\n",
            status: 1,
            ..ALL
        },
        ..STOPS
    },
    // Messages follow the calls.
    Case {
        piece: 1,
        limits: &[(0, 3), (2, 4), (3, 2)],
        left: Left {
            output: b"abc",
            files: &[b"abcd", b"ab"],
            messages: b"tee: cannot write 't'\ntee: cannot write 'standard output'\ntee: cannot write 's'\n",
            status: 1,
        },
        ..SOUND
    },
    Case {
        piece: 6,
        limits: &[(0, 3), (2, 4), (3, 2)],
        left: Left {
            output: b"abc",
            files: &[b"abcd", b"ab"],
            messages: b"tee: cannot write 'standard output'\ntee: cannot write 's'\ntee: cannot write 't'\n",
            status: 1,
        },
        ..SOUND
    },
    // Calls are refused: two opens, three writes and two closes. An output that broke is not asked again.
    Case {
        refused: 1,
        left: Left {
            files: &[b"", b"abcdef"],
            messages: b"tee: cannot open 's'\n",
            ..FAILED
        },
        ..SOUND
    },
    Case {
        refused: 2,
        left: Left {
            files: &[b"abcdef", b""],
            messages: b"tee: cannot open 't'\n",
            ..FAILED
        },
        ..SOUND
    },
    Case {
        refused: 3,
        left: Left {
            output: b"",
            messages: b"tee: cannot write 'standard output'\n",
            ..FAILED
        },
        ..SOUND
    },
    Case {
        refused: 4,
        left: Left {
            files: &[b"", b"abcdef"],
            messages: b"tee: cannot write 's'\n",
            ..FAILED
        },
        ..SOUND
    },
    Case {
        refused: 5,
        left: Left {
            files: &[b"abcdef", b""],
            messages: b"tee: cannot write 't'\n",
            ..FAILED
        },
        ..SOUND
    },
    Case {
        refused: 6,
        left: Left {
            messages: b"tee: cannot write 's'\n",
            ..FAILED
        },
        ..SOUND
    },
    Case {
        refused: 7,
        left: Left {
            messages: b"tee: cannot write 't'\n",
            ..FAILED
        },
        ..SOUND
    },
    Case {
        refused: 8,
        ..SOUND
    },
];

/// The same as `SOUND`, in pieces of two bytes, and it exits.
const STOPS: Case<'static> = Case {
    piece: 2,
    on_broken: OnBroken::Exit,
    ..SOUND
};

/// What is left where something was refused.
const FAILED: Left<'static> = Left { status: 1, ..ALL };

/// In pieces of one byte there are two opens, eighteen writes and two closes.
#[test]
fn sound_outputs_have_every_byte(rt: HostRuntime) -> Result<(), Fail> {
    for call in 1..24 {
        let is_broken = run_refused(&rt, rt.alloc(), call)?;
        assert_eq!(&rt; is_broken, call < 23);
    }
    Ok(())
}

/// Runs `tee s t` where a call is refused, checks that each sound output has all, and returns whether one broke.
fn run_refused(rt: &impl Abort, alloc: Global, call: u64) -> Result<bool, Fault> {
    let mut inputs = inputs_of(alloc, INPUT, 1)?;
    let mut outs = outs_of(alloc, &[])?;
    outs.fail_at(call);
    let status = run(alloc, &["s", "t"], Mode::Fresh, &mut inputs, &mut outs);
    Ok(check_sound(rt, &outs, status))
}

/// Checks that each sound output has all, and a broken one a beginning, and returns whether one broke.
fn check_sound(rt: &impl Abort, outs: &MemOut, status: u8) -> bool {
    let mut is_broken = false;
    for slot in [0, 2, 3] {
        assert!(rt; INPUT.starts_with(outs.bytes(slot)));
        assert!(rt; outs.broken(slot) || outs.bytes(slot) == INPUT);
        is_broken |= outs.broken(slot);
    }
    assert_eq!(rt; status, u8::from(is_broken));
    assert_eq!(rt; outs.bytes(1).is_empty(), !is_broken);
    is_broken
}

/// How many outputs broke at each call, and what they have in the end.
#[test]
fn counts_what_broke(rt: HostRuntime) -> Result<(), Fail> {
    let mut outs = outs_of(rt.alloc(), &[(0, 1), (2, 3)])?;
    let mut tee = Tee::open(rt.alloc(), &["s", "t"], Mode::Fresh, &mut outs)?;
    for (piece, count) in BREAKS {
        assert!(rt; pass(&mut tee, &mut outs, *piece) == *count, "at {piece:?}");
    }
    assert!(rt; outs.bytes(0) == b"a".as_slice() && has_files(&outs, &[b"abc", b"abcdefg"]));
    Ok(())
}

/// A piece, or none where it is closed, and how many outputs break.
const BREAKS: &[(Option<&[u8]>, u64)] = &[
    (Some(b"a"), 0),
    (Some(b"bcdef"), 2),
    (Some(b"g"), 0),
    (None, 0),
    (None, 0),
    (Some(b"h"), 0),
];

/// Feeds a piece, or closes where there is none.
pub(crate) fn pass(tee: &mut Tee, outs: &mut MemOut, piece: Option<&[u8]>) -> u64
    requires { tee.old.is_over ≡ false → IsReady tee.old outs.old }
    ensures { tee.new.is_over ≡ false → IsReady tee.new outs.new }
{
    match piece {
        Some(piece) => tee.feed(piece, outs),
        None => tee.close(outs),
    }
}

/// Whether nothing was opened, since there was no memory for the run.
fn is_unopened(outs: &MemOut) -> bool {
    outs.name(2).is_empty() && !outs.broken(2)
}

/// It passes too where one allocation is refused, as `rt try --test --fail-alloc N` does.
#[test]
fn want_of_memory_harms_no_sound_output(rt: HostRuntime) -> Result<(), Fail> {
    let alloc = rt.alloc();
    let (Ok(mut inputs), Ok(mut outs)) = (inputs_of(alloc, INPUT, 1), outs_of(alloc, &[])) else {
        return Ok(());
    };
    let status = run(alloc, &["s", "t"], Mode::Fresh, &mut inputs, &mut outs);
    if is_unopened(&outs) {
        assert!(rt; outs.bytes(0).is_empty() && status == 1);
        return Ok(());
    }
    let _ = check_sound(&rt, &outs, status);
    Ok(())
}
