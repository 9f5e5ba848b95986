//! Patterns in GNU's spelling: the text that POSIX has for them, and where faults of that are in what was typed.

use bre_core::{BreFault, Expression, respell};
use std::alloc::Global;
use std::process::Abort;

/// A text as it is typed, and as POSIX spells it.
const RESPELLED: &[(&[u8], &[u8])] = &[
    (b"", b"\\(\\)"),
    (b"a\\+b\\?", b"a\\{1,\\}b\\{0,1\\}"),
    (b"a\\{,3\\}\\{2\\}", b"a\\{0,3\\}\\{2\\}"),
    (
        b"\\w\\W\\s\\S",
        b"[[:alnum:]_][^[:alnum:]_][[:space:]][^[:space:]]",
    ),
    (b"\\-\\]\\,\\/\\\"\\ \\\xff\\\n", b"-],/\" \xff\n"),
    // What has no other spelling stays.
    (b"\\.\\[\\\\\\*\\^\\$", b"\\.\\[\\\\\\*\\^\\$"),
    (
        b"\\<\\>\\`\\'\\|\\(\\)\\{\\}",
        b"\\<\\>\\`\\'\\|\\(\\)\\{\\}",
    ),
    (b"\\d\\1\\0\\b\\B\\n", b"\\d\\1\\0\\b\\B\\n"),
    (b"a\\{,\\}\\{,b\\", b"a\\{,\\}\\{,b\\"),
    // So does what stands in a bracket expression; after it a backslash has its meaning again.
    (b"[\\w]\\w", b"[\\w][[:alnum:]_]"),
    (b"[]\\w]\\+", b"[]\\w]\\{1,\\}"),
    (b"[^]\\w]\\+", b"[^]\\w]\\{1,\\}"),
    (b"[^^\\w]\\+", b"[^^\\w]\\{1,\\}"),
    (b"[[.].]\\w]\\+", b"[[.].]\\w]\\{1,\\}"),
    (b"[[...]\\w]\\+", b"[[...]\\w]\\{1,\\}"),
    (b"[[=]=]\\w]\\+", b"[[=]=]\\w]\\{1,\\}"),
    (b"[a[:digit:]\\w]\\+", b"[a[:digit:]\\w]\\{1,\\}"),
    (b"[!-[]\\+", b"[!-[]\\{1,\\}"),
    (b"[[]\\+", b"[[]\\{1,\\}"),
    (b"\\[\\+]", b"\\[\\{1,\\}]"),
    (b"[\\w", b"[\\w"),
];

#[test]
fn writes_as_posix_does(rt: HostRuntime) {
    for (typed, posix) in RESPELLED {
        let written = respell(rt.alloc(), typed).expect(&rt, "there is memory");
        assert!(rt; written.as_slice() == *posix, "{typed:?}");
    }
}

/// A text as it is typed, the fault of it as POSIX spells it, and the fault as it is told.
const FAULTS: &[(&[u8], BreFault, BreFault)] = &[
    (b"\\+", BreFault::Interval(0), BreFault::Interval(0)),
    (b"^\\?", BreFault::Interval(1), BreFault::Interval(1)),
    (b"\\(\\+a\\)", BreFault::Interval(2), BreFault::Interval(2)),
    (b"a\\|b", BreFault::Escape(1), BreFault::Escape(1)),
    (b"a\\+\\|b", BreFault::Escape(7), BreFault::Escape(3)),
    (
        b"\\w\\1",
        BreFault::BackReference(12),
        BreFault::BackReference(2),
    ),
    (b"\\-\\-\\", BreFault::Escape(2), BreFault::Escape(4)),
    (b"\\w\\(", BreFault::OpenGroup(12), BreFault::OpenGroup(2)),
    (b"\\w\\)", BreFault::CloseGroup(12), BreFault::CloseGroup(2)),
    (b"a\\{,256\\}", BreFault::Interval(1), BreFault::Interval(1)),
    (b"a\\{,\\}", BreFault::Interval(1), BreFault::Interval(1)),
    (
        b"a\\{,2\\}\\{x",
        BreFault::Interval(8),
        BreFault::Interval(7),
    ),
    (b"\\s[\\w", BreFault::Bracket(11), BreFault::Bracket(2)),
    (b"\\S[\\z-a]", BreFault::Range(15), BreFault::Range(5)),
    (b"\\W[\\[:foo:]]", BreFault::Class(15), BreFault::Class(4)),
    (
        b"a\\{255\\}\\{255\\}\\+",
        BreFault::TooLarge,
        BreFault::TooLarge,
    ),
];

#[test]
fn faults_are_told_where_they_were_typed(rt: HostRuntime) {
    for row in FAULTS {
        assert!(rt; is_told(&rt, rt.alloc(), row), "{:?}", row.0);
    }
}

fn is_told(rt: &impl Abort, alloc: Global, row: &(&[u8], BreFault, BreFault)) -> bool {
    let posix = respell(alloc, row.0).expect(rt, "there is memory");
    match Expression::read(alloc, &posix) {
        Ok(_) => false,
        Err(fault) => fault == row.1 && fault.as_typed(row.0) == row.2,
    }
}
