//! What files are made of an input, row by row, whatever the pieces that it comes in.
ghost use Rattle.std.specs.Prelude.{◌≤◌, length, IfOk, IsTrue};
ghost use Rattle.ports_core.specs.Slot.{is_writable};
ghost use Rattle.csplit_core.specs.CsplitState.{IsReady};

use crate::play::{feed, feed_and_close, has_files};
use csplit_core::{Csplitter, Operands, Style, read_operands};
use engine_core::Engine;
use mem_core::MemOut;
use ports_core::{Base, Calling, Fault, Filling, Form, Outs, Verdict};
use std::alloc::{AllocError, Global};
use std::process::Abort;
use std::test::Fail;

/// Which options are given beside the operands.
#[derive(Clone, Copy)]
pub(crate) enum Options {
    Plain,
    Keep,
    Quiet,
    Elide,
    Suppress,
    SuppressElide,
    Past,
    PastSuppress,
    PastElide,
}

/// Options, operands, an input, the fault with which it ends, the sizes that are written, and the files that are left.
type Row<'a> = (
    Options,
    &'a [&'a str],
    &'a [u8],
    Option<Fault>,
    &'a [u8],
    &'a [&'a [u8]],
);

/// How long the pieces are that an input comes in.
const SIZES: [usize; 4] = [1, 2, 3, 100];

#[test]
fn writes_what_each_row_says(rt: HostRuntime) {
    for row in ROWS {
        check_row(&rt, rt.alloc(), row);
    }
}

const ROWS: &[Row<'static>] = &[
    // An input is cut into sections.
    (
        Options::Plain,
        &["/^b/", "{*}"],
        b"b1\nx\nb2\ny\n",
        None,
        b"0\n5\n5\n",
        &[b"", b"b1\nx\n", b"b2\ny\n"],
    ),
    (
        Options::Elide,
        &["/^b/", "{*}"],
        b"b1\nx\nb2\ny\n",
        None,
        b"5\n5\n",
        &[b"b1\nx\n", b"b2\ny\n"],
    ),
    (
        Options::Quiet,
        &["/^b/", "{*}"],
        b"b1\nx\nb2\ny\n",
        None,
        b"",
        &[b"", b"b1\nx\n", b"b2\ny\n"],
    ),
    (
        Options::Plain,
        &["/c/-1"],
        b"a\nb\nc\nd\n",
        None,
        b"2\n6\n",
        &[b"a\n", b"b\nc\nd\n"],
    ),
    (
        Options::Plain,
        &["2", "{*}"],
        b"1\n2\n3\n4\n5\n",
        None,
        b"2\n4\n4\n",
        &[b"1\n", b"2\n3\n", b"4\n5\n"],
    ),
    (
        Options::Plain,
        &["2", "/b/"],
        b"a\nb\nb\n",
        None,
        b"2\n2\n2\n",
        &[b"a\n", b"b\n", b"b\n"],
    ),
    (
        Options::Plain,
        &["/b/-1", "{*}"],
        b"a\nb\nb\nc\n",
        None,
        b"0\n2\n6\n",
        &[b"", b"a\n", b"b\nb\nc\n"],
    ),
    (
        Options::Plain,
        &["%b%", "/d/"],
        b"a\nb\nc\nd\ne\n",
        None,
        b"4\n4\n",
        &[b"b\nc\n", b"d\ne\n"],
    ),
    (
        Options::Plain,
        &["/b/+1", "/d/"],
        b"a\nb\nc\nd\ne\n",
        None,
        b"4\n2\n4\n",
        &[b"a\nb\n", b"c\n", b"d\ne\n"],
    ),
    (
        Options::Plain,
        &["/a\\/b/"],
        b"x\na/b\n",
        None,
        b"2\n4\n",
        &[b"x\n", b"a/b\n"],
    ),
    (
        Options::Plain,
        &["/b/", "{*}", "9"],
        b"a\nb\n",
        None,
        b"2\n2\n",
        &[b"a\n", b"b\n"],
    ),
    (
        Options::Plain,
        &["%b%", "{*}"],
        b"a\nb\nc\n",
        None,
        b"",
        &[],
    ),
    (
        Options::Plain,
        &["/b/"],
        b"a\nb",
        None,
        b"2\n1\n",
        &[b"a\n", b"b"],
    ),
    (
        Options::Plain,
        &["/b/-2", "/d/"],
        b"x\na\nz\nb\nc\nd",
        None,
        b"2\n8\n1\n",
        &[b"x\n", b"a\nz\nb\nc\n", b"d"],
    ),
    (
        Options::Plain,
        &["3", "/b/", "{1}"],
        b"1\n2\n3\nb\n4\nb\n5\n",
        None,
        b"4\n2\n4\n4\n",
        &[b"1\n2\n", b"3\n", b"b\n4\n", b"b\n5\n"],
    ),
    (Options::Plain, &["/b/", "{*}"], b"", None, b"0\n", &[b""]),
    // The line at a cut is left out.
    (
        Options::Suppress,
        &["/b/"],
        b"a\nb\nc\n",
        None,
        b"2\n2\n",
        &[b"a\n", b"c\n"],
    ),
    (
        Options::Suppress,
        &["2", "{*}"],
        b"1\n2\n3\n4\n5\n",
        None,
        b"2\n2\n2\n",
        &[b"1\n", b"3\n", b"5\n"],
    ),
    (
        Options::Suppress,
        &["/b/", "{*}"],
        b"a\nb\nb\nc\n",
        None,
        b"2\n0\n2\n",
        &[b"a\n", b"", b"c\n"],
    ),
    (
        Options::SuppressElide,
        &["/b/", "{*}"],
        b"a\nb\nb\nc\n",
        None,
        b"2\n2\n",
        &[b"a\n", b"c\n"],
    ),
    (
        Options::Suppress,
        &["/b/-1", "{*}"],
        b"a\nb\nb\nc\n",
        None,
        b"0\n0\n4\n",
        &[b"", b"", b"b\nc\n"],
    ),
    (
        Options::Suppress,
        &["2"],
        b"a\nb\n",
        None,
        b"2\n0\n",
        &[b"a\n", b""],
    ),
];

#[test]
fn ends_as_each_row_says(rt: HostRuntime) {
    for row in ENDS {
        check_row(&rt, rt.alloc(), row);
    }
}

const ENDS: &[Row<'static>] = &[
    // It ends where an operand finds no line.
    (
        Options::Keep,
        &["/c/-3"],
        b"a\nb\nc\nd\n",
        Some(Fault::Verdict(Verdict::Range(0, 0))),
        b"0\n",
        &[b""],
    ),
    (
        Options::Keep,
        &["2", "{3}"],
        b"1\n2\n3\n4\n5\n",
        Some(Fault::Verdict(Verdict::Range(0, 2))),
        b"2\n4\n4\n",
        &[b"1\n", b"2\n3\n", b"4\n5\n"],
    ),
    (
        Options::Keep,
        &["/x/"],
        b"a\nb\n",
        Some(Fault::Verdict(Verdict::NoMatch(0, 0))),
        b"4\n",
        &[b"a\nb\n"],
    ),
    (
        Options::Keep,
        &["/b/", "{2}"],
        b"a\nb\nc",
        Some(Fault::Verdict(Verdict::NoMatch(0, 1))),
        b"2\n3\n",
        &[b"a\n", b"b\nc"],
    ),
    (
        Options::Keep,
        &["/b/+5"],
        b"a\nb\n",
        Some(Fault::Verdict(Verdict::Range(0, 0))),
        b"4\n",
        &[b"a\nb\n"],
    ),
    (
        Options::Keep,
        &["1", "%x%"],
        b"a\n",
        Some(Fault::Verdict(Verdict::NoMatch(1, 0))),
        b"0\n",
        &[b""],
    ),
    (
        Options::Suppress,
        &["2", "2"],
        b"a\nb\nc\n",
        Some(Fault::Verdict(Verdict::Range(1, 0))),
        b"2\n0\n",
        &[],
    ),
    (
        Options::Plain,
        &["/x/"],
        b"a\nb\n",
        Some(Fault::Verdict(Verdict::NoMatch(0, 0))),
        b"4\n",
        &[],
    ),
    // It cuts one line past the last. The cut of a pattern one line past the last is made at once.
    (
        Options::Past,
        &["/b/+1"],
        b"a\nb\n",
        None,
        b"4\n0\n",
        &[b"a\nb\n", b""],
    ),
    (
        Options::Plain,
        &["/b/+1"],
        b"a\nb\n",
        Some(Fault::Verdict(Verdict::Range(0, 0))),
        b"4\n",
        &[],
    ),
    (
        Options::Past,
        &["/b/+1", "{*}"],
        b"a\nb\nc\nb",
        None,
        b"4\n3\n0\n",
        &[b"a\nb\n", b"c\nb", b""],
    ),
    (
        Options::PastElide,
        &["/b/+1", "{*}"],
        b"a\nb\nc\nb\n",
        None,
        b"4\n4\n",
        &[b"a\nb\n", b"c\nb\n"],
    ),
    (
        Options::PastSuppress,
        &["/b/+1", "{*}"],
        b"a\nb\nc\nd\nb\n",
        None,
        b"4\n4\n0\n",
        &[b"a\nb\n", b"d\nb\n", b""],
    ),
    (
        Options::PastSuppress,
        &["/b/+1"],
        b"b\nc\nd\n",
        None,
        b"2\n2\n",
        &[b"b\n", b"d\n"],
    ),
    (Options::Past, &["%b%+1"], b"a\nb\n", None, b"0\n", &[b""]),
    (
        Options::Past,
        &["/b/+2"],
        b"a\nb\n",
        Some(Fault::Verdict(Verdict::Range(0, 0))),
        b"4\n",
        &[],
    ),
    (
        Options::Past,
        &["/b/+2"],
        b"a\nb\nc\n",
        None,
        b"6\n0\n",
        &[b"a\nb\nc\n", b""],
    ),
    (
        Options::Past,
        &["3"],
        b"a\nb\n",
        Some(Fault::Verdict(Verdict::Range(0, 0))),
        b"4\n",
        &[],
    ),
    (
        Options::Past,
        &["/b/+1", "3"],
        b"a\nb\n",
        Some(Fault::Verdict(Verdict::Range(1, 0))),
        b"4\n0\n",
        &[],
    ),
    (
        Options::Past,
        &["/b/+1", "/b/"],
        b"a\nb\n",
        Some(Fault::Verdict(Verdict::NoMatch(1, 0))),
        b"4\n0\n",
        &[],
    ),
    (
        Options::PastSuppress,
        &["/b/+1", "3"],
        b"a\nb\nc\nd\n",
        Some(Fault::Verdict(Verdict::Range(1, 0))),
        b"4\n0\n",
        &[],
    ),
    (Options::Past, &["/b/+1", "{*}"], b"", None, b"0\n", &[b""]),
];

/// Cuts the input of a row, in pieces of each size.
fn check_row(rt: &impl Abort, alloc: Global, row: &Row<'_>) {
    for size in SIZES {
        check_pieces(rt, alloc, row, size);
    }
}

fn check_pieces(rt: &impl Abort, alloc: Global, row: &Row<'_>, size: usize) {
    let (options, words, input, fault, sizes, files) = row;
    let pieces = chunks_of(rt, alloc, input, size);
    let style = style_of(alloc, *options).expect(rt, "there is memory");
    let operands = read_operands(alloc, Calling::Cutters, words).expect(rt, "these are operands");
    let mut outs = MemOut::new(alloc).expect(rt, "there is memory");
    let end = run(alloc, &style, &operands, &pieces, &mut outs);
    let is_so = end.err() == *fault && has_left(&outs, files) && outs.bytes(0) == *sizes;
    assert!(rt; is_so, "at {words:?} in pieces of {size}");
}

/// Operands, what comes in, how many bytes wait then, and the first file's bytes. A line that lacks its newline waits.
type Wait<'a> = (&'a [&'a str], &'a [u8], u64, &'a [u8]);

#[test]
fn holds_what_an_offset_may_take_back(rt: HostRuntime) -> Result<(), Fail> {
    for row in WAITS {
        holds(&rt, rt.alloc(), row)?;
    }
    Ok(())
}

const WAITS: &[Wait<'static>] = &[
    (&["/c/-1"], b"a\nb\n", 2, b"a\n"),
    (&["/c/-1"], b"a\nb\nc", 3, b"a\n"),
    (&["/c/"], b"a\nb\n", 0, b"a\nb\n"),
    (&["/c/-9223372036854775807"], b"a\nb\nd", 5, b""),
    (&["3"], b"a\nb", 1, b"a\n"),
    (&["/a/+2"], b"a\nb", 1, b"a\n"),
];

fn holds(rt: &impl Abort, alloc: Global, row: &Wait<'_>) -> Result<(), Fault> {
    let (words, input, held, first) = row;
    let style = style_of(alloc, Options::Plain)?;
    let operands = read_operands(alloc, Calling::Cutters, words).expect(rt, "these are operands");
    let mut outs = MemOut::new(alloc).expect(rt, "there is memory");
    let mut engine = open(alloc, style, &operands, &mut outs).expect(rt, "there is memory");
    let is_fed = feed(&mut engine, &mut outs, input).is_ok();
    let is_so = is_fed && engine.held() == *held && outs.bytes(2) == *first;
    assert!(rt; is_so, "at {words:?}");
    Ok(())
}

#[test]
fn a_removal_that_failed_is_tried_again(rt: HostRuntime) -> Result<(), Fail> {
    let operands = read_operands(rt.alloc(), Calling::Cutters, &["/b/", "/x/"]).expect(
        &rt,
        "these are operands",
    );
    // The first call opens the file, and two of the last remove it and the second one.
    for call in 2..12 {
        let mut outs = MemOut::new(rt.alloc())?;
        outs.fail_at(call);
        let style = style_of(rt.alloc(), Options::Plain)?;
        give_up_twice(rt.alloc(), style, &operands, &mut outs)?;
        assert!(rt; outs.removed(2), "call {call}");
    }
    Ok(())
}

/// Cuts an input in which the last operand finds no line, and gives it up twice.
///
/// # Errors
///
/// Those of the opening.
fn give_up_twice(
    alloc: Global,
    style: Style,
    operands: &Operands,
    outs: &mut MemOut,
) -> Result<(), Fault>
    requires streams { 2 ≤ length outs.old }
    requires output { IsTrue (is_writable outs.old 0) }
{
    let mut engine = Csplitter::open(alloc, operands, style, outs)?;
    if engine.feed(b"a\nb\n", outs).is_ok() {
        let _ = engine.close(outs);
    }
    engine.abandon(outs);
    engine.abandon(outs);
    Ok(())
}

/// Numbers in decimal, with two digits at least.
pub(crate) const TWO_DIGITS: Form = Form {
    base: Base::Decimal,
    is_marked: false,
    width: 0,
    filling: Filling::BlanksBefore,
    precision: 2,
};

pub(crate) fn style_of(alloc: Global, options: Options) -> Result<Style, AllocError> {
    Ok(Style {
        prefix: String::from_str(alloc, "xx")?,
        form: TWO_DIGITS,
        ending: String::new(alloc),
        keep: matches!(options, Options::Keep),
        quiet: matches!(options, Options::Quiet),
        elide: matches!(
            options,
            Options::Elide | Options::SuppressElide | Options::PastElide
        ),
        suppress: matches!(
            options,
            Options::Suppress | Options::SuppressElide | Options::PastSuppress
        ),
        one_past: matches!(
            options,
            Options::Past | Options::PastSuppress | Options::PastElide
        ),
    })
}

/// An input in pieces of this size.
fn chunks_of<'a>(rt: &impl Abort, alloc: Global, input: &'a [u8], size: usize) -> Vec<&'a [u8]> {
    let mut pieces = Vec::new(alloc);
    for piece in input.chunks(size.max(1)) {
        pieces.push(piece).expect(rt, "there is memory");
    }
    pieces
}

/// Cuts an input that comes in these pieces.
pub(crate) fn run(
    alloc: Global,
    style: &Style,
    operands: &Operands,
    pieces: &[&[u8]],
    outs: &mut MemOut,
) -> Result<(), Fault>
    requires streams { 2 ≤ length outs.old }
    requires output { IsTrue (is_writable outs.old 0) }
{
    let mut engine = open(alloc, style.try_clone(alloc)?, operands, outs)?;
    feed_and_close(&mut engine, outs, pieces)
}

pub(crate) fn open<'o>(
    alloc: Global,
    style: Style,
    operands: &'o Operands,
    outs: &mut MemOut,
) -> Result<Engine<Csplitter<'o>>, Fault>
    requires streams { 2 ≤ length outs.old }
    requires output { IsTrue (is_writable outs.old 0) }
    ensures { IfOk result (λ engine. IsReady engine.stage outs.new) }
{
    Csplitter::open(alloc, operands, style, outs)
}

/// Whether just these files are there, with these bytes: no other was made, or the first was removed.
fn has_left(outs: &MemOut, files: &[&[u8]]) -> bool {
    if files.is_empty() && outs.removed(2) {
        return true;
    }
    has_files(outs, files)
}
