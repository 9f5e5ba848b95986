//! Rows that pin the grammar, the faults and their offsets, and the counts of positions.

use crate::parts::{Part, joined};
use bre_core::{BreFault, Expression};
use plain_core::matches_expression;
use std::alloc::Global;
use std::process::Abort;

fn read(rt: &impl Abort, alloc: Global, pattern: &[u8]) -> Expression {
    Expression::read(alloc, pattern).expect(rt, "the pattern reads")
}

fn contains(rt: &impl Abort, alloc: Global, pattern: &[u8], line: &[u8]) -> bool {
    let bre = read(rt, alloc, pattern);
    matches_expression(alloc, &bre, line).expect(rt, "there is memory")
}

const ROWS: [(&[u8], &[u8], bool); 24] = [
    (b"a*ab", b"aaab", true),
    (b"^*a", b"*a", true),
    (b"^*a", b"b*a", false),
    (b"[[:digit:]]\\{2\\}", b"a12", true),
    (b"[[:digit:]]\\{2\\}", b"a1b2", false),
    (b"\\(\\)", b"", true),
    (b"\\(\\)", b"any", true),
    (b"*a", b"x*a", true),
    (b"a\\{2,3\\}$", b"aaaa", true),
    (b"a\\{2,3\\}$", b"aab", false),
    (b"\\(^a\\)*b", b"cb", true),
    (b"a$b", b"a$b", true),
    (b"[]-]", b"]", true),
    // `.` doesn't match byte 0, a complemented set does.
    (b".", b"\x00", false),
    (b"[^a]", b"\x00", true),
    // A complement, a first `]`, a `-` first and last.
    (b"[^]-]", b"]-", false),
    (b"[^]-]", b"a", true),
    (b"[-a]", b"-", true),
    (b"[a-]", b"-", true),
    // `[.c.]`, `[=c=]`, a class, a range to `-`, a range from `[.-.]`.
    (b"[[.].]]", b"]", true),
    (b"[[=a=]-]", b"-", true),
    (b"[[:upper:]-]", b"-", true),
    (b"[+--]", b",", true),
    (b"[[.-.]-a]", b"A", true),
];

#[test]
fn rows_match(rt: HostRuntime) {
    for (pattern, line, want) in &ROWS {
        assert!(rt;
            contains(&rt, rt.alloc(), pattern, line) == *want,
            "{pattern:?} in {line:?}"
        );
    }
}

const CLASSES: [(&[u8], &[u8], &[u8]); 12] = [
    (b"[[:upper:]]", b"AZ", b"@[a"),
    (b"[[:lower:]]", b"az", b"`{A"),
    (b"[[:alpha:]]", b"AZaz", b"@[`{0"),
    (b"[[:digit:]]", b"09", b"/:"),
    (b"[[:alnum:]]", b"AZaz09", b"@[`{/:"),
    (b"[[:xdigit:]]", b"09AFaf", b"/:@G`g"),
    (b"[[:blank:]]", b"\x09 ", b"\x08\x0a!"),
    (b"[[:space:]]", b"\x09\x0a\x0b\x0c\x0d ", b"\x08\x0e!"),
    (b"[[:cntrl:]]", b"\x00\x1f\x7f", b" ~\x80"),
    (b"[[:graph:]]", b"!~", b" \x7f"),
    (b"[[:print:]]", b" ~", b"\x1f\x7f"),
    (b"[[:punct:]]", b"!/:@[`{~", b" 0AZaz\x7f"),
];

#[test]
fn classes_have_their_bytes(rt: HostRuntime) {
    for (pattern, members, others) in &CLASSES {
        assert!(rt;
            have_match(&rt, rt.alloc(), pattern, members, true),
            "{pattern:?}"
        );
        assert!(rt;
            have_match(&rt, rt.alloc(), pattern, others, false),
            "{pattern:?}"
        );
    }
}

/// Whether each of these bytes, as a line, contains a match, or none does.
fn have_match(
    rt: &impl Abort,
    alloc: Global,
    pattern: &[u8],
    bytes: &[u8],
    is_wanted: bool,
) -> bool {
    for byte in bytes {
        if contains(rt, alloc, pattern, &[*byte]) != is_wanted {
            return false;
        }
    }
    true
}

const POSITIONS: [(&[u8], u64); 9] = [
    (b"a\\{2,3\\}$", 6),
    (b"\\(a*\\)\\{2,\\}", 8),
    (b"a\\{255\\}\\{255\\}", 65_026),
    (b"a", 2),
    (b"\\(\\)", 1),
    (b"a*", 3),
    (b"^[a-c].$", 5),
    (b"a\\{0\\}", 1),
    (b"\\(a\\{255\\}\\{255\\}\\{255\\}\\)\\{0\\}", 1),
];

#[test]
fn positions_are_counted(rt: HostRuntime) {
    for (pattern, want) in &POSITIONS {
        assert!(rt;
            read(&rt, rt.alloc(), pattern).positions() == *want,
            "{pattern:?}"
        );
    }
}

const FAULTS: [(&[u8], BreFault); 58] = [
    (b"", BreFault::Empty(0)),
    (b"a\\(b\\)\\1", BreFault::BackReference(6)),
    (b"\\9", BreFault::BackReference(0)),
    (b"\\d", BreFault::Escape(0)),
    (b"a\\", BreFault::Escape(1)),
    (b"a\\}", BreFault::Escape(1)),
    (b"\\0", BreFault::Escape(0)),
    (b"\\+", BreFault::Escape(0)),
    (b"\\]", BreFault::Escape(0)),
    (b"\\(a", BreFault::OpenGroup(0)),
    (b"\\(a\\(b", BreFault::OpenGroup(3)),
    (b"\\(a\\(b\\)", BreFault::OpenGroup(0)),
    (b"a\\)", BreFault::CloseGroup(1)),
    (b"a$\\)", BreFault::CloseGroup(2)),
    (b"\\{1\\}", BreFault::Interval(0)),
    (b"^\\{1\\}", BreFault::Interval(1)),
    (b"\\(\\{1\\}\\)", BreFault::Interval(2)),
    (b"a\\{256\\}", BreFault::Interval(1)),
    (b"a\\{255\\}\\{256\\}", BreFault::Interval(8)),
    (b"a\\{3,2\\}", BreFault::Interval(1)),
    (b"a\\{,2\\}", BreFault::Interval(1)),
    (b"a\\{\\}", BreFault::Interval(1)),
    (b"a\\{2", BreFault::Interval(1)),
    (b"a\\{2,", BreFault::Interval(1)),
    (b"a\\{2,3", BreFault::Interval(1)),
    (b"a\\{2\\", BreFault::Interval(1)),
    (b"a\\{2}", BreFault::Interval(1)),
    (b"a\\{2 \\}", BreFault::Interval(1)),
    (b"a\\{18446744073709551616\\}", BreFault::Interval(1)),
    (b"[a", BreFault::Bracket(0)),
    (b"[", BreFault::Bracket(0)),
    (b"[]", BreFault::Bracket(0)),
    (b"[^]", BreFault::Bracket(0)),
    (b"x[a-", BreFault::Bracket(1)),
    (b"\\([a", BreFault::Bracket(2)),
    (b"[[.ab.]]", BreFault::Bracket(0)),
    (b"[[..]]", BreFault::Bracket(0)),
    (b"[[=ab=]]", BreFault::Bracket(0)),
    (b"[[.a", BreFault::Bracket(0)),
    (b"[[:alpha", BreFault::Bracket(0)),
    (b"[[:alpha:", BreFault::Bracket(0)),
    (b"[a-[.bc.]]", BreFault::Bracket(0)),
    (b"[z-a]", BreFault::Range(2)),
    (b"[a-c-e]", BreFault::Range(4)),
    (b"[a-c-", BreFault::Range(4)),
    (b"[[:digit:]-z]", BreFault::Range(10)),
    (b"[[=a=]-z]", BreFault::Range(6)),
    (b"[a-[=b=]]", BreFault::Range(2)),
    (b"[a-[=bc=]]", BreFault::Range(2)),
    (b"[a-[:digit:]]", BreFault::Range(2)),
    (b"[a-[:foo:]]", BreFault::Range(2)),
    (b"[a-[:x", BreFault::Range(2)),
    (b"[[:foo:]]", BreFault::Class(1)),
    (b"[a[::]]", BreFault::Class(2)),
    (b"[[:Alpha:]]", BreFault::Class(1)),
    (b"[[:a]b:]", BreFault::Class(1)),
    (b"a\\{255\\}\\{255\\}\\{2\\}", BreFault::TooLarge),
    (b"a\\{255\\}\\{255\\}\\{2\\}\\)", BreFault::CloseGroup(20)),
];

#[test]
fn faults_have_their_kind_and_offset(rt: HostRuntime) {
    for (pattern, want) in &FAULTS {
        assert!(rt;
            Expression::read(rt.alloc(), pattern).err() == Some(*want),
            "{pattern:?}"
        );
    }
}

#[test]
fn faults_have_their_number(rt: HostRuntime) {
    for (place, fault) in NUMBERED.iter().enumerate() {
        let offset = if place < 9 { Some(3) } else { None };
        assert!(rt; fault.number() as usize == place + 1 && fault.offset() == offset);
    }
}

const NUMBERED: &[BreFault] = &[
    BreFault::Empty(3),
    BreFault::BackReference(3),
    BreFault::Escape(3),
    BreFault::OpenGroup(3),
    BreFault::CloseGroup(3),
    BreFault::Interval(3),
    BreFault::Bracket(3),
    BreFault::Range(3),
    BreFault::Class(3),
    BreFault::TooLarge,
    BreFault::Memory,
];

/// The parts of a pattern, how many positions it has, if it isn't too large, and lines, with whether they contain a match.
type Large<'a> = (&'a [Part<'a>], Option<u64>, &'a [(&'a [u8], bool)]);

#[test]
fn limits_are_reached_and_not_passed(rt: HostRuntime) {
    for (number, row) in LIMITS.iter().enumerate() {
        let pattern = joined(&rt, rt.alloc(), row.0);
        assert!(rt;
            is_as_large(&rt, rt.alloc(), &pattern, row),
            "in row {number}"
        );
    }
}

const LIMITS: &[Large<'static>] = &[
    (
        &[(b"\\(", 255), (b"a", 1), (b"\\)", 255)],
        Some(2),
        &[(b"ba", true), (b"b", false)],
    ),
    (&[(b"\\(", 256), (b"a", 1), (b"\\)", 256)], None, &[]),
    (&[(b"\\(", 256)], None, &[]),
    (&[(b"\\(a\\)", 300)], Some(301), &[]),
    (&[(b"a", 65_534)], Some(65_535), &[(b"aa", false)]),
    (&[(b"a", 65_535)], None, &[]),
];

fn is_as_large(rt: &impl Abort, alloc: Global, pattern: &[u8], row: &Large<'_>) -> bool {
    match Expression::read(alloc, pattern) {
        Ok(read) => row.1 == Some(read.positions()) && has_all(rt, alloc, &read, row.2),
        Err(fault) => row.1.is_none() && fault == BreFault::TooLarge,
    }
}

fn has_all(rt: &impl Abort, alloc: Global, read: &Expression, lines: &[(&[u8], bool)]) -> bool {
    for (line, wanted) in lines {
        if matches_expression(alloc, read, line).expect(rt, "there is memory") != *wanted {
            return false;
        }
    }
    true
}

#[test]
fn nested_repeats_end(rt: HostRuntime) {
    let alloc = rt.alloc();
    let line = [b'a'; 30];
    assert!(rt; !contains(&rt, alloc, b"\\(\\(a*\\)\\{1,255\\}\\)\\{1,9\\}b", &line));
    assert!(rt; contains(&rt, alloc, b"^\\(a*\\)\\{255\\}$", &line));
}
