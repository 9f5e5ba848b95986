//! What words are read as, and which fault is given for those that can't be.

use csplit_core::{Offset, Operand, OperandFault, OperandFaultKind, Target, Times, read_operands};
use plain_core::matches_plain;
use ports_core::Calling;
use scan_core::{Bre, BreFault};
use std::alloc::Global;
use std::process::Abort;

/// Words, and the fault that they give.
const REFUSED: &[(&[&str], OperandFaultKind, usize)] = &[
    (&[], OperandFaultKind::Missing, 0),
    (&["/"], OperandFaultKind::Unclosed, 0),
    (&["1", "%a"], OperandFaultKind::Unclosed, 1),
    (&["/a\\/"], OperandFaultKind::Unclosed, 0),
    (&["/a%"], OperandFaultKind::Unclosed, 0),
    (&["/a/x"], OperandFaultKind::Offset, 0),
    (&["/a/+"], OperandFaultKind::Offset, 0),
    (&["/a/+-1"], OperandFaultKind::Offset, 0),
    (&["/a/9223372036854775808"], OperandFaultKind::Offset, 0),
    (&["/[/x"], OperandFaultKind::Offset, 0),
    (&["0"], OperandFaultKind::LineZero, 0),
    (&["5", "0"], OperandFaultKind::LineZero, 1),
    (&["{2}"], OperandFaultKind::RepeatFirst, 0),
    (&["{*}"], OperandFaultKind::RepeatFirst, 0),
    (&["1", "{2}", "{3}"], OperandFaultKind::RepeatFirst, 2),
    (&["{"], OperandFaultKind::RepeatText, 0),
    (&["{}"], OperandFaultKind::RepeatText, 0),
    (&["1", "{2"], OperandFaultKind::RepeatText, 1),
    (&["1", "{-2}"], OperandFaultKind::RepeatText, 1),
    (&["1", "{**}"], OperandFaultKind::RepeatText, 1),
    (&["1", "{2}}"], OperandFaultKind::RepeatText, 1),
    (
        &["1", "{9223372036854775808}"],
        OperandFaultKind::RepeatText,
        1,
    ),
    (&["//"], OperandFaultKind::Bre(BreFault::Empty(0)), 0),
    (&["/[/"], OperandFaultKind::Bre(BreFault::Bracket(0)), 0),
    (
        &["/ab[/", "x"],
        OperandFaultKind::Bre(BreFault::Bracket(2)),
        0,
    ),
    (
        &["/a/", "%a\\{3,2\\}%"],
        OperandFaultKind::Bre(BreFault::Interval(1)),
        1,
    ),
    (&["/\\/[/"], OperandFaultKind::Bre(BreFault::Bracket(1)), 0),
    (&["3", "2"], OperandFaultKind::LineOrder, 1),
    (&["3", "/a/", "{4}", "2"], OperandFaultKind::LineOrder, 3),
    (&["2", "3", "2"], OperandFaultKind::LineOrder, 2),
    (&[""], OperandFaultKind::Number, 0),
    (&["x"], OperandFaultKind::Number, 0),
    (&["+1"], OperandFaultKind::Number, 0),
    (&["-1"], OperandFaultKind::Number, 0),
    (&["1x"], OperandFaultKind::Number, 0),
    (&["9223372036854775808"], OperandFaultKind::Number, 0),
    (&["1", "}"], OperandFaultKind::Number, 1),
];

#[test]
fn refuses_what_is_no_operand(rt: HostRuntime) {
    for (words, kind, index) in REFUSED {
        assert!(rt;
            is_refused(rt.alloc(), Calling::Cutters, words, *kind, *index),
            "of {words:?}"
        );
    }
}

fn is_refused(
    alloc: Global,
    calling: Calling,
    words: &[&str],
    kind: OperandFaultKind,
    index: usize,
) -> bool {
    match read_operands(alloc, calling, words) {
        Ok(_) => false,
        Err(fault) => fault == OperandFault { kind, index },
    }
}

/// The numbers of the kinds, in their order.
#[test]
fn kinds_have_numbers(rt: HostRuntime) {
    for (place, kind) in KINDS.iter().enumerate() {
        assert_eq!(rt; kind.number() as usize, place + 1);
    }
}

const KINDS: &[OperandFaultKind] = &[
    OperandFaultKind::Missing,
    OperandFaultKind::Unclosed,
    OperandFaultKind::Offset,
    OperandFaultKind::LineZero,
    OperandFaultKind::RepeatFirst,
    OperandFaultKind::RepeatText,
    OperandFaultKind::Bre(BreFault::TooLarge),
    OperandFaultKind::LineOrder,
    OperandFaultKind::Memory,
    OperandFaultKind::Number,
];

#[test]
fn reads_numbers_and_repetitions(rt: HostRuntime) {
    let operands = read_operands(rt.alloc(), Calling::Cutters, WORDS).expect(
        &rt,
        "these are operands",
    );
    let read = operands.as_slice();
    assert!(rt; read.len() == NUMBERS.len());
    for (operand, wanted) in read.iter().zip(NUMBERS.iter()) {
        assert!(rt; is_number(operand, wanted));
    }
}

const WORDS: &[&str] = &[
    "2",
    "{3}",
    "2",
    "9223372036854775807",
    "{*}",
    "9223372036854775807",
    "{0}",
];

/// The place of an operand, its line, and how often it is performed again.
const NUMBERS: &[(usize, u64, Times)] = &[
    (0, 2, Times::Count(3)),
    (2, 2, Times::Count(0)),
    (3, 9_223_372_036_854_775_807, Times::Endless),
    (5, 9_223_372_036_854_775_807, Times::Count(0)),
];

fn is_number(operand: &Operand, wanted: &(usize, u64, Times)) -> bool {
    let (index, number, times) = *wanted;
    let is_there = matches!(&operand.target, Target::Number(found) if *found == number);
    is_there && operand.index == index && operand.times == times
}

/// A pattern as a word, whether its section is kept, its offset, a line that it matches, and one that it doesn't.
type Pattern<'a> = (&'a str, bool, Offset, &'a [u8], &'a [u8]);

const PATTERNS: &[Pattern<'static>] = &[
    ("/b/", true, Offset::Plus(0), b"abc", b"ac"),
    ("%b%", false, Offset::Plus(0), b"abc", b"ac"),
    ("/b/+2", true, Offset::Plus(2), b"b", b"a"),
    ("/b/2", true, Offset::Plus(2), b"b", b"a"),
    (
        "/b/-9223372036854775807",
        true,
        Offset::Minus(9_223_372_036_854_775_807),
        b"b",
        b"a",
    ),
    ("/a\\/b/", true, Offset::Plus(0), b"a/b", b"a\\/b"),
    ("/a/b/", true, Offset::Plus(0), b"a/b", b"ab"),
    ("%a\\%b%-0", false, Offset::Minus(0), b"a%b", b"ab"),
    ("/a\\\\/", true, Offset::Plus(0), b"a\\", b"a/"),
    ("/\\.\\\\\\//1", true, Offset::Plus(1), b".\\/", b"x\\/"),
];

#[test]
fn reads_patterns(rt: HostRuntime) {
    for row in PATTERNS {
        for calling in [Calling::Cutters, Calling::OwnName] {
            assert!(rt; reads_pattern(&rt, rt.alloc(), calling, row), "{}", row.0);
        }
    }
}

fn reads_pattern(rt: &impl Abort, alloc: Global, calling: Calling, row: &Pattern<'_>) -> bool {
    let operands = read_operands(alloc, calling, &[row.0]).expect(rt, "this is an operand");
    match operands.as_slice() {
        [operand] => is_pattern(rt, alloc, operand, row),
        _ => false,
    }
}

fn is_pattern(rt: &impl Abort, alloc: Global, operand: &Operand, row: &Pattern<'_>) -> bool {
    let (_, kept, moved, line, other) = *row;
    match &operand.target {
        Target::Number(_) => false,
        Target::Search {
            pattern,
            is_kept,
            offset,
        } => {
            let is_so = *is_kept == kept && *offset == moved;
            is_so && finds(rt, alloc, pattern, line) && !finds(rt, alloc, pattern, other)
        }
    }
}

fn finds(rt: &impl Abort, alloc: Global, pattern: &Bre, line: &[u8]) -> bool {
    matches_plain(alloc, pattern, line).expect(rt, "there is memory")
}

/// Patterns in GNU's spelling: by its own name alone they are read.
#[test]
fn reads_spellings_of_gnu(rt: HostRuntime) {
    for row in SPELLINGS {
        assert!(rt;
            reads_pattern(&rt, rt.alloc(), Calling::OwnName, row),
            "{}",
            row.0
        );
        assert!(rt;
            read_operands(rt.alloc(), Calling::Cutters, &[row.0]).is_err(),
            "{}",
            row.0
        );
    }
}

const SPELLINGS: &[Pattern<'static>] = &[
    ("/^a\\+$/", true, Offset::Plus(0), b"aa", b""),
    ("/^a\\?b$/+1", true, Offset::Plus(1), b"b", b"aab"),
    ("%^a\\{,2\\}$%", false, Offset::Plus(0), b"aa", b"aaa"),
    ("/\\w\\W/", true, Offset::Plus(0), b"_.", b"a_"),
    ("/\\s\\S/", true, Offset::Plus(0), b"\ta", b"a "),
    ("/^\\-\\]\\/$/-1", true, Offset::Minus(1), b"-]/", b"-]"),
];

/// Faults are told at their place in the pattern as it was typed, but for `\/`, which is one byte.
#[test]
fn refuses_spellings_at_their_place(rt: HostRuntime) {
    for (word, fault) in MISSPELLED {
        let kind = OperandFaultKind::Bre(*fault);
        assert!(rt;
            is_refused(rt.alloc(), Calling::OwnName, &[*word], kind, 0),
            "of {word}"
        );
    }
}

const MISSPELLED: &[(&str, BreFault)] = &[
    ("/\\w\\|b/", BreFault::Escape(2)),
    ("/a\\/\\+\\(/", BreFault::OpenGroup(4)),
];
