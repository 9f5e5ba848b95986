//! Lines of a text from its end.
use seg_core::line::NEWLINE;
use seg_core::line_back::{last_delimiter_end, reach_back};
use seg_core::line_reach::ReachBack;
use std::process::Abort;

#[test]
fn finds_the_last_delimiter(rt: HostRuntime) {
    for (text, delim, wanted) in LAST {
        assert!(rt; last_delimiter_end(text, *delim) == *wanted, "in {text:?}");
    }
}

/// A text, the byte that its lines end with, and where the last one of these ends.
const LAST: &[(&[u8], u8, Option<usize>)] = &[
    (b"a\nbc\nd", NEWLINE, Some(5)),
    (b"a\n\n", NEWLINE, Some(3)),
    (b"\nabc", NEWLINE, Some(1)),
    (b"abc", NEWLINE, None),
    (b"", NEWLINE, None),
    (b"a\0b\n", 0, Some(2)),
];

/// How many delimiters are gone back over, which byte they are, and where that ends.
type Row = (u64, u8, ReachBack);

fn check(rt: &impl Abort, text: &[u8], rows: &[Row]) {
    for (delimiters, delim, wanted) in rows {
        assert!(rt;
            reaches(text, *delimiters, *delim) == Some(*wanted),
            "over {delimiters}"
        );
    }
}

/// Where that ends; none where none is gone back over.
fn reaches(text: &[u8], delimiters: u64, delim: u8) -> Option<ReachBack> {
    if delimiters == 0 {
        return None;
    }
    Some(reach_back(text, delimiters, delim))
}

#[test]
fn reaches_back_in_a_long_text(rt: HostRuntime) {
    let mut text = [b'\n'; 10_000];
    check(&rt, &text, OVER_NEWLINES);
    for byte in text[1..].iter_mut() {
        *byte = b'x';
    }
    check(&rt, &text, OVER_LETTERS);
}

/// Rows of a text of newlines alone.
const OVER_NEWLINES: &[Row] = &[
    (9_000, NEWLINE, ReachBack::Begins(1_001)),
    (10_000, NEWLINE, ReachBack::Begins(1)),
    (10_001, NEWLINE, ReachBack::Short(10_000)),
];

/// Rows of a text that has one newline, at its front.
const OVER_LETTERS: &[Row] = &[
    (1, NEWLINE, ReachBack::Begins(1)),
    (2, NEWLINE, ReachBack::Short(1)),
    (9_000, b'x', ReachBack::Begins(1_001)),
];
