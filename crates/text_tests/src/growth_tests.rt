//! Calls of which `tests/refusals` refuses each growth of memory in turn. Without a refusal both tests of a pair pass; where one
//! growth is refused, the test `NAME` fails, and `NAME_or_are_refused` passes: the call says so, what was there stays, and the same
//! call made again has its result. What `before_NAME` and `after_NAME` do takes as many growths, so that the calls of the second take
//! none.

use crate::window_tests::{keep_bytes, keep_lines};
use bre_core::{Expression, respell};
use plain_core::{matches_expression, matches_plain};
use scan_core::{Bre, Scan};
use seg_core::byte_window::ByteWindow;
use seg_core::count::read_count;
use seg_core::line::{NEWLINE, lines, next_line};
use seg_core::line_window::LineWindow;
use std::alloc::Global;
use std::process::Abort;

/// A call that may find no memory.
#[derive(Clone, Copy, Debug)]
enum Call {
    ByteWindow,
    BytePut,
    LineWindow,
    LinePut,
    Respell,
    Expression,
    PlainExpression,
    Bre,
    Scan,
    PlainBre,
}

const CALLS: &[Call] = &[
    Call::ByteWindow,
    Call::BytePut,
    Call::LineWindow,
    Call::LinePut,
    Call::Respell,
    Call::Expression,
    Call::PlainExpression,
    Call::Bre,
    Call::Scan,
    Call::PlainBre,
];

/// No growth is the test's own.
#[test]
fn nothing() {}

#[test]
fn calls_succeed(rt: HostRuntime) {
    for call in CALLS {
        assert!(rt; succeeds(&rt, rt.alloc(), *call), "at {call:?}");
    }
}

#[test]
fn calls_succeed_or_are_refused(rt: HostRuntime) {
    for call in CALLS {
        let is_made = succeeds(&rt, rt.alloc(), *call) || succeeds(&rt, rt.alloc(), *call);
        assert!(rt; is_made, "at {call:?}, made again");
    }
}

/// Makes a call, and returns whether nothing was refused.
fn succeeds(rt: &impl Abort, alloc: Global, call: Call) -> bool {
    match call {
        Call::ByteWindow => ByteWindow::new(alloc, 4).is_ok(),
        Call::BytePut => byte_put(rt, alloc),
        Call::LineWindow => LineWindow::new(alloc, 2, NEWLINE).is_ok(),
        Call::LinePut => line_put(rt, alloc),
        _ => reads(alloc, call),
    }
}

/// The same for the calls that read a pattern or match with it.
fn reads(alloc: Global, call: Call) -> bool {
    match call {
        Call::Respell => respell(alloc, PATTERN).is_ok(),
        Call::Expression => Expression::read(alloc, PATTERN).is_ok(),
        Call::PlainExpression => plain_expression(alloc),
        Call::Bre => Bre::read(alloc, PATTERN).is_ok(),
        Call::Scan => scan(alloc),
        _ => plain_bre(alloc),
    }
}

const PATTERN: &[u8] = b"\\(ab*\\)\\{2,3\\}[c-e]$";

/// A window of bytes that takes a piece at once, or at the second try.
fn byte_put(rt: &impl Abort, alloc: Global) -> bool {
    let Ok(mut window) = ByteWindow::new(alloc, 4) else {
        return false;
    };
    if keep_bytes(&mut window, b"abcd").is_ok() {
        return true;
    }
    assert!(rt; window.is_empty() && !window.grown());
    assert!(rt; keep_bytes(&mut window, b"abcd").is_ok());
    assert!(rt; window.front() == b"abcd".as_slice());
    false
}

fn line_put(rt: &impl Abort, alloc: Global) -> bool {
    let Ok(mut window) = LineWindow::new(alloc, 2, NEWLINE) else {
        return false;
    };
    if keep_lines(&mut window, b"a\nb").is_ok() {
        return true;
    }
    assert!(rt; window.is_empty());
    assert!(rt; keep_lines(&mut window, b"a\nb").is_ok());
    assert!(rt; window.front() == b"a\nb".as_slice());
    false
}

fn plain_expression(alloc: Global) -> bool {
    match Expression::read(alloc, PATTERN) {
        Ok(expression) => matches_expression(alloc, &expression, b"ababd") == Ok(true),
        Err(_) => false,
    }
}

fn scan(alloc: Global) -> bool {
    match Bre::read(alloc, PATTERN) {
        Ok(bre) => Scan::new(alloc, &bre).is_ok(),
        Err(_) => false,
    }
}

fn plain_bre(alloc: Global) -> bool {
    match Bre::read(alloc, PATTERN) {
        Ok(bre) => matches_plain(alloc, &bre, b"ababd") == Ok(true),
        Err(_) => false,
    }
}

/// A window that has held as many bytes as it may, and is then filled again, or isn't.
fn fill_bytes(rt: &impl Abort, alloc: Global, again: bool) {
    let mut window = ByteWindow::new(alloc, 4).expect(rt, "room");
    keep_bytes(&mut window, b"abcd").expect(rt, "room");
    if !again || window.len() < 2 {
        return;
    }
    window.drop_front(2);
    assert!(rt; keep_bytes(&mut window, b"ef").is_ok());
    assert!(rt; window.grown() && window.over(3) == 3);
    let mut out = [0; 4];
    assert!(rt; window.take_front(&mut out) == 4 && out == *b"cdef");
}

#[test]
fn before_a_put_into_a_full_window(rt: HostRuntime) {
    fill_bytes(&rt, rt.alloc(), false);
}

#[test]
fn after_a_put_into_a_full_window(rt: HostRuntime) {
    fill_bytes(&rt, rt.alloc(), true);
}

/// A window of lines, of which some are taken out, or aren't.
fn fill_lines(rt: &impl Abort, alloc: Global, again: bool) {
    let mut window = LineWindow::new(alloc, 2, NEWLINE).expect(rt, "room");
    keep_lines(&mut window, b"a\nb\n").expect(rt, "room");
    if !again || window.len() < 2 {
        return;
    }
    assert!(rt; window.over(b"c\nd\n") == 4);
    window.drop_front(2);
    let mut out = [0; 4];
    assert!(rt; window.take_front(&mut out) == 2);
}

#[test]
fn before_lines_leave_a_window(rt: HostRuntime) {
    fill_lines(&rt, rt.alloc(), false);
}

#[test]
fn after_lines_leave_a_window(rt: HostRuntime) {
    fill_lines(&rt, rt.alloc(), true);
}

/// A window that keeps nothing is full from the first.
fn keep_nothing(rt: &impl Abort, alloc: Global, again: bool) {
    let mut window = ByteWindow::new(alloc, 0).expect(rt, "room");
    assert!(rt; window.grown());
    if again {
        assert!(rt; window.over(9) == 9 && keep_bytes(&mut window, b"abc").is_ok());
        assert!(rt; window.is_empty() && window.grown());
    }
}

#[test]
fn before_a_put_into_an_empty_window(rt: HostRuntime) {
    keep_nothing(&rt, rt.alloc(), false);
}

#[test]
fn after_a_put_into_an_empty_window(rt: HostRuntime) {
    keep_nothing(&rt, rt.alloc(), true);
}

#[test]
fn before_lines_and_counts() {}

/// Lines and counts are read where they stand.
#[test]
fn after_lines_and_counts(rt: HostRuntime) {
    let (first, rest) = next_line(b"ab\nc", NEWLINE);
    assert!(rt; first == b"ab\n".as_slice() && rest == b"c".as_slice());
    let mut last = first;
    for line in lines(b"ab\nc", NEWLINE) {
        last = line;
    }
    assert!(rt; last == b"c".as_slice());
    assert!(rt; read_count(b"2k").is_ok() && read_count(b"k").is_err());
}

/// Room for matching was made with the pattern.
fn match_lines(rt: &impl Abort, alloc: Global, again: bool) {
    let bre = Bre::read(alloc, PATTERN).expect(rt, "room");
    let mut scan = Scan::new(alloc, &bre).expect(rt, "room");
    if again {
        assert!(rt; scan.matches(&bre, b"ababd"));
        assert!(rt; !scan.matches(&bre, b"abab"));
        assert!(rt; scan.search(&bre, b"xaababe").found);
    }
}

#[test]
fn before_matching(rt: HostRuntime) {
    match_lines(&rt, rt.alloc(), false);
}

#[test]
fn after_matching(rt: HostRuntime) {
    match_lines(&rt, rt.alloc(), true);
}
