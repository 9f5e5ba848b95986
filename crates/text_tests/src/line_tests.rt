//! Lines of a text, and where they end.
use seg_core::line::{NEWLINE, count_delimiters, lines, next_line, reach};
use seg_core::line_reach::Reach;
use std::process::Abort;

/// A text, the byte that its lines end with, the lines, and how many end with it.
type Row<'a> = (&'a [u8], u8, &'a [&'a [u8]], usize);

#[test]
fn cuts_a_text(rt: HostRuntime) {
    for (text, delim, wanted, count) in TEXTS {
        assert!(rt; has_lines(text, *delim, wanted), "in {text:?}");
        check_count(&rt, text, *delim, *count);
    }
}

const TEXTS: &[Row<'static>] = &[
    (b"a\nbc\n\nd", NEWLINE, &[b"a\n", b"bc\n", b"\n", b"d"], 3),
    (b"", NEWLINE, &[], 0),
    (b"a\nb\0c\0\n", 0, &[b"a\nb\0", b"c\0", b"\n"], 2),
    (b"a\nb\0c\0\n", b'c', &[b"a\nb\0c", b"\0\n"], 1),
];

/// Whether the lines of a text are these, taken one by one and by the iterator.
fn has_lines(text: &[u8], delim: u8, wanted: &[&[u8]]) -> bool {
    let mut all = lines(text, delim);
    let mut left = text;
    for line in wanted {
        let (first, rest) = next_line(left, delim);
        if first != *line || all.next() != Some(*line) {
            return false;
        }
        left = rest;
    }
    next_line(left, delim).0.is_empty() && all.next().is_none()
}

fn check_count(rt: &impl Abort, text: &[u8], delim: u8, count: usize) {
    assert!(rt; count_delimiters(text, delim) == count);
}

/// Checks where this many lines of a text end.
fn check_reach(rt: &impl Abort, text: &[u8], lines: u64, delim: u8, wanted: Reach) {
    assert!(rt; reach(text, lines, delim) == wanted, "at {lines}");
}

#[test]
fn reaches_lines(rt: HostRuntime) {
    for (text, lines, delim, wanted) in REACHES {
        check_reach(&rt, text, *lines, *delim, *wanted);
    }
}

const REACHES: &[(&[u8], u64, u8, Reach)] = &[
    (b"a\nbc\n\nd", 0, NEWLINE, Reach::Ends(0)),
    (b"a\nbc\n\nd", 1, NEWLINE, Reach::Ends(2)),
    (b"a\nbc\n\nd", 2, NEWLINE, Reach::Ends(5)),
    (b"a\nbc\n\nd", 3, NEWLINE, Reach::Ends(6)),
    (b"a\nbc\n\nd", 4, NEWLINE, Reach::Short(3)),
    (b"a\nb\0c\0\n", 2, 0, Reach::Ends(6)),
    (b"a\nb\0c\0\n", 3, 0, Reach::Short(2)),
    (&[NEWLINE; 10_000], 9_000, NEWLINE, Reach::Ends(9_000)),
    (&[NEWLINE; 10_000], 10_000, NEWLINE, Reach::Ends(10_000)),
    (&[NEWLINE; 10_000], 10_001, NEWLINE, Reach::Short(10_000)),
    (&[NEWLINE; 10_000], 1, 255, Reach::Short(0)),
];

#[test]
fn reaches_lines_at_the_end_of_a_text(rt: HostRuntime) {
    let mut text = [NEWLINE; 200];
    for byte in text[..150].iter_mut() {
        *byte = b'x';
    }
    check_count(&rt, &text, NEWLINE, 50);
    check_reach(&rt, &text, 1, NEWLINE, Reach::Ends(151));
    check_reach(&rt, &text, 50, NEWLINE, Reach::Ends(200));
    check_reach(&rt, &text, 51, NEWLINE, Reach::Short(50));
}

#[test]
fn counts_in_a_long_text(rt: HostRuntime) {
    let mut text = [NEWLINE; 10_000];
    check_count(&rt, &text, NEWLINE, 10_000);
    text[9_000] = 255;
    check_count(&rt, &text, 255, 1);
    check_reach(&rt, &text, 1, 255, Reach::Ends(9_001));
    for byte in text[..9_999].iter_mut() {
        *byte = b'x';
    }
    check_count(&rt, &text, NEWLINE, 1);
    check_reach(&rt, &text, 1, NEWLINE, Reach::Ends(10_000));
}
