//! Looking at what inputs show, and passing over a front of them: in memory, and over real files.
ghost use Rattle.std.specs.Prelude.{◌≡◌, ◌∷◌, [], IsTrue};
ghost use Rattle.ports_core.specs.Source.{is_readable, source_of, unshown};

use crate::compare::same;
use crate::dir_steps::Step;
use crate::folder::{make_file, remove_folder};
use crate::reading::{Call, ask, broken_input, inputs_of, open_and_ask, open_input};
use mem_core::MemIn;
use ports_core::{DirIn, Fault, InputFiles, Inputs};
use std::alloc::Global;
use std::fs;
use std::process::Abort;
use std::test::Fail;

/// Places count from the first byte that is shown, whatever was read.
const SIX_LETTERS: &[Call<'static>] = &[
    Call::Shown(Some(6)),
    Call::Shows(3, b"def"),
    Call::Hides(4, 3),
    Call::Hides(u64::MAX, 3),
    Call::Shows(6, b""),
    Call::Read(3, 1, b"a"),
    Call::Shown(Some(6)),
    Call::Keeps(6),
    Call::Shows(0, b"abc"),
    Call::Skip(4),
    Call::Read(3, 1, b"fbc"),
    Call::Skip(0),
    Call::Read(3, 0, b""),
    Call::Shows(3, b"def"),
];

/// Asks a file that gives one byte at a time.
fn ask_in_pieces(abort: &impl Abort, inputs: &mut MemIn) -> Result<(), Fault> {
    inputs.file("f", b"abcdef")?;
    inputs.pieces(1);
    open_and_ask(abort, inputs, "f", 1, SIX_LETTERS)
}

#[test]
fn memory_is_looked_at_from_any_place(rt: HostRuntime) -> Result<(), Fail> {
    let mut inputs = MemIn::new(rt.alloc())?;
    same(&rt, &ask_in_pieces(&rt, &mut inputs), &Ok(()));
    Ok(())
}

/// What an input gives, what it shows before that, and what is asked of it.
type Row<'a> = (&'a [u8], &'a [u8], &'a [Call<'a>]);

/// Looks show the one text, and reads give the other; no more of that is passed over than there is.
const CHANGING: &[Row<'static>] = &[
    (
        b"abc",
        b"uvwxyz",
        &[
            Call::Shown(Some(6)),
            Call::Shows(0, b"uvw"),
            Call::Shows(3, b"xyz"),
            Call::Hides(4, 3),
            Call::Keeps(4),
            Call::Read(2, 2, b"ab"),
            Call::Keeps(2),
            Call::Skip(1),
            Call::Read(2, 0, b""),
            Call::Shows(1, b"vw"),
        ],
    ),
    (
        b"abcdef",
        b"uv",
        &[
            Call::Shown(Some(2)),
            Call::Shows(1, b"v"),
            Call::Hides(1, 2),
            Call::Skip(5),
            Call::Keeps(2),
            Call::Read(9, 1, b"f"),
            Call::Read(9, 0, b""),
        ],
    ),
    (
        b"",
        b"uv",
        &[
            Call::Shown(Some(2)),
            Call::Shows(0, b"uv"),
            Call::Keeps(1),
            Call::Read(9, 0, b""),
        ],
    ),
    // One that shows nothing is passed over too.
    (
        b"abc",
        b"",
        &[
            Call::Shown(None),
            Call::Hides(0, 1),
            Call::Hides(0, 0),
            Call::Skip(2),
            Call::Keeps(2),
            Call::Read(9, 1, b"c"),
        ],
    ),
];

#[test]
fn memory_shows_what_it_was_given_to_show(rt: HostRuntime) -> Result<(), Fail> {
    for row in CHANGING {
        ask_new(&rt, rt.alloc(), row)?;
    }
    Ok(())
}

/// Asks a file and standard input.
fn ask_both(abort: &impl Abort, inputs: &mut MemIn, row: &Row<'_>) -> Result<(), Fault>
    requires { inputs.old.sources ≡ source_of (unshown []) ∷ [] }
{
    let (bytes, shown, calls) = *row;
    inputs.input_showing(bytes, shown)?;
    inputs.file_showing("f", bytes, shown)?;
    ask(abort, inputs, 0, calls);
    open_and_ask(abort, inputs, "f", 1, calls)
}

/// Asks a file and standard input of inputs that are new.
fn ask_new(abort: &impl Abort, alloc: Global, row: &Row<'_>) -> Result<(), Fault> {
    let mut inputs = MemIn::new(alloc)?;
    ask_both(abort, &mut inputs, row)
}

/// What is asked of an input of which nothing is shown.
pub(crate) const UNKNOWN: &[Call<'static>] = &[Call::Shown(None), Call::Hides(0, 1)];

/// Asks standard input, and a file without a byte: both show nothing.
fn ask_unknown(abort: &impl Abort, inputs: &mut MemIn) -> Result<(), Fault>
    requires { inputs.old.sources ≡ source_of (unshown []) ∷ [] }
{
    inputs.input(b"abc")?;
    inputs.file("f", b"")?;
    ask(abort, inputs, 0, UNKNOWN);
    open_and_ask(abort, inputs, "f", 1, UNKNOWN)
}

#[test]
fn memory_shows_files_alone_that_have_a_byte(rt: HostRuntime) -> Result<(), Fail> {
    let mut inputs = MemIn::new(rt.alloc())?;
    same(&rt, &ask_unknown(&rt, &mut inputs), &Ok(()));
    Ok(())
}

/// What is asked of an input that breaks off after three of its six bytes.
const BROKEN: &[Call<'static>] = &[
    Call::Shown(Some(6)),
    Call::Shows(2, b"cdef"),
    Call::Keeps(4),
    Call::Skip(1),
    Call::Read(9, 2, b"bc"),
    Call::Fails(9, Fault::Read(0)),
];

#[test]
fn of_a_broken_input_all_is_shown(rt: HostRuntime) -> Result<(), Fail> {
    let mut inputs = broken_input(rt.alloc(), b"abcdef", 3)?;
    ask(&rt, &mut inputs, 0, BROKEN);
    Ok(())
}

/// Once a read gave nothing, nothing is shown any more.
const SIXTEEN_LETTERS: &[Call<'static>] = &[
    Call::Shown(Some(16)),
    Call::Shows(7, b"hijklmnop"),
    Call::Hides(8, 9),
    Call::Hides(u64::MAX, 9),
    Call::Read(2, 2, b"ab"),
    Call::Shown(Some(16)),
    Call::Shows(0, b"abcdefghi"),
    Call::Skip(13),
    Call::Read(9, 1, b"p"),
    Call::Shown(Some(16)),
    Call::Read(9, 0, b""),
    Call::Shown(None),
    Call::Hides(0, 1),
    Call::Keeps(0),
];

/// A file is asked that holds sixteen bytes: any place of it.
pub(crate) const LOOKED_AT: &[Step<'static>] = &[
    Step::Make("ports_core_looks/f", b"abcdefghijklmnop"),
    Step::Ask("ports_core_looks/f", 1, SIXTEEN_LETTERS),
];

/// What is asked of a file with the bytes `abcdef`, the bytes that it has after that, and what is asked of it then.
type Change<'a> = (&'a [Call<'a>], &'a [u8], &'a [Call<'a>]);

/// A file that changes breaks nowhere. It shows nothing once its last byte can't be looked at.
const CHANGES: &[Change<'static>] = &[
    (
        &[Call::Shown(Some(6)), Call::Skip(2)],
        b"abc",
        &[
            Call::Shown(None),
            Call::Hides(3, 3),
            Call::Read(6, 1, b"c"),
            Call::Read(0, 0, b""),
            Call::Read(6, 0, b""),
        ],
    ),
    (
        &[Call::Skip(4)],
        b"abc",
        &[Call::Read(6, 0, b""), Call::Read(6, 0, b"")],
    ),
    (
        &[Call::Shown(Some(6))],
        b"abc",
        &[Call::Read(6, 3, b"abc"), Call::Read(6, 0, b"")],
    ),
    (
        &[Call::Skip(4)],
        b"",
        &[Call::Shown(None), Call::Hides(0, 1), Call::Read(6, 0, b"")],
    ),
    (&[Call::Shown(Some(6))], b"", &[Call::Read(6, 0, b"")]),
    // No read goes on over where it ended when it was opened.
    (
        &[Call::Skip(4)],
        b"abcdefgh",
        &[
            Call::Shown(Some(6)),
            Call::Read(4, 2, b"ef"),
            Call::Read(4, 2, b"gh"),
            Call::Read(4, 0, b""),
        ],
    ),
    (
        &[Call::Shown(Some(6)), Call::Shows(0, b"abc")],
        b"uvwxyz",
        &[
            Call::Shown(Some(6)),
            Call::Shows(3, b"xyz"),
            Call::Read(6, 6, b"uvwxyz"),
        ],
    ),
];

/// The file that changes.
const CHANGING_FILE: &str = "ports_core_changes/f";

/// Asks an input before its file changes, and after that.
fn ask_around(
    abort: &impl Abort,
    rt: &HostRuntime,
    inputs: &mut DirIn<'_, HostRuntime>,
    change: &Change<'_>,
) -> Result<(), Fail> {
    let (before, bytes, after) = *change;
    open_input(abort, inputs, CHANGING_FILE, 1)?;
    assert!(abort; ask(abort, inputs, 1, before));
    fs::write(rt, CHANGING_FILE, bytes)?;
    ask(abort, inputs, 1, after);
    Ok(())
}

/// Asks an input that is the first of a run.
fn ask_first(abort: &impl Abort, rt: HostRuntime, change: &Change<'_>) -> Result<(), Fail> {
    let noted = InputFiles::new(rt.alloc());
    let mut inputs = inputs_of(rt, &noted);
    ask_around(abort, &rt, &mut inputs, change)
}

#[test]
fn files_may_change(rt: HostRuntime) -> Result<(), Fail> {
    for change in CHANGES {
        make_file(&rt, "ports_core_changes", CHANGING_FILE, b"abcdef")?;
        ask_first(&rt, rt, change)?;
    }
    remove_folder(&rt, "ports_core_changes")
}

#[test]
fn standard_input_shows_its_last_byte_or_nothing(rt: HostRuntime) {
    let noted = InputFiles::new(rt.alloc());
    let mut inputs = inputs_of(rt, &noted);
    assert!(rt; shows_all_or_nothing(&mut inputs));
    ask(&rt, &mut inputs, 0, &[Call::Keeps(1)]);
}

/// Whether the last byte that standard input shows can be looked at, whatever it is, and no byte where it shows nothing.
fn shows_all_or_nothing(inputs: &mut DirIn<'_, HostRuntime>) -> bool
    requires { IsTrue (is_readable inputs.old 0) }
    ensures { IsTrue (is_readable inputs.new 0) }
{
    let shown = inputs.shown(0);
    let last = shown.unwrap_or(1).saturating_sub(1);
    inputs.read_at(0, last, &mut [0u8]) == shown.is_some()
}
