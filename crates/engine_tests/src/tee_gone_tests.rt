//! Runs of `tee` of which an output is gone: nobody reads it any more. Each mode, called both ways: the outputs, messages and
//! status.

use crate::tee_tests::{Case, Left, SOUND, check};
use ports_core::{Calling, Fault, OnBroken as On, Reason};
use std::alloc::Global;
use std::process::Abort;
use std::test::Fail;

#[test]
fn each_mode_ends_as_it_says(rt: HostRuntime) -> Result<(), Fail> {
    for breaking in BREAKING {
        for ended in breaking.2 {
            check_both_ways(&rt, rt.alloc(), breaking, ended)?;
        }
    }
    Ok(())
}

/// Runs `tee s t` over pieces of two bytes, called both ways.
fn check_both_ways(
    rt: &impl Abort,
    alloc: Global,
    breaking: &Breaking,
    ended: &Ended,
) -> Result<(), Fault> {
    let (told, own) = ended.3;
    let called = case_of(breaking, ended, Calling::Cutters, told);
    check(rt, alloc, &called)?;
    check(rt, alloc, &case_of(breaking, ended, Calling::OwnName, own))
}

/// The run that such a row speaks of.
fn case_of(
    breaking: &Breaking,
    ended: &Ended,
    calling: Calling,
    messages: &'static [u8],
) -> Case<'static> {
    Case {
        calling,
        piece: 2,
        limits: breaking.0,
        causes: breaking.1,
        on_broken: ended.0,
        left: Left {
            output: ended.1,
            files: ended.2,
            messages,
            status: ended.4,
        },
        ..SOUND
    }
}

/// What is said of outputs that broke: the messages of `cutters tee`, and those of `tee`.
type Said = (&'static [u8], &'static [u8]);

const S_GONE: Said = (b"tee: cannot write 's'\n", b"tee: cannot write 's'\n");

const SILENT: Said = (b"", b"");

const T_FULL: Said = (
    b"tee: cannot write 't'\n",
    b"tee: cannot write 't': No space left on device\n",
);

const T_FULL_S_GONE: Said = (
    b"tee: cannot write 't'\ntee: cannot write 's'\n",
    b"tee: cannot write 't': No space left on device\ntee: cannot write 's'\n",
);

const S_GONE_T_FULL: Said = (
    b"tee: cannot write 's'\ntee: cannot write 't'\n",
    b"tee: cannot write 's'\ntee: cannot write 't': No space left on device\n",
);

const ALL_GONE: Said = (
    b"tee: cannot write 'standard output'\ntee: cannot write 's'\ntee: cannot write 't'\n",
    b"tee: cannot write 'standard output'\ntee: cannot write 's'\ntee: cannot write 't'\n",
);

const GONE_BOTH_FULL: Said = (
    b"tee: cannot write 'standard output'\ntee: cannot write 's'\ntee: cannot write 't'\n",
    b"tee: cannot write 'standard output'\ntee: cannot write 's': No space left on device\ntee: cannot write 't': No space left on device\n",
);

const BOTH_FULL: Said = (
    b"tee: cannot write 's'\ntee: cannot write 't'\n",
    b"tee: cannot write 's': No space left on device\ntee: cannot write 't': No space left on device\n",
);

/// How a run ends in a mode: standard output, the files, what is said, and the status.
type Ended = (On, &'static [u8], &'static [&'static [u8]], Said, u8);

/// Outputs that break, as `Case` has them, and how a run ends with that.
type Breaking = (
    &'static [(usize, usize)],
    &'static [(usize, Reason)],
    &'static [Ended],
);

const BREAKING: &[Breaking] = &[
    // `s` is gone in the second piece.
    (
        &[(2, 3)],
        &[(2, Reason::Gone)],
        &[
            (On::Warn, b"abcdef", &[b"abc", b"abcdef"], S_GONE, 1),
            (On::Exit, b"abcd", &[b"abc", b"abcd"], S_GONE, 1),
            (On::WarnNoPipe, b"abcdef", &[b"abc", b"abcdef"], SILENT, 0),
            (On::ExitNoPipe, b"abcdef", &[b"abc", b"abcdef"], SILENT, 0),
            (On::Signal, b"abcd", &[b"abc", b"abcd"], SILENT, 141),
        ],
    ),
    // `t` is full in the second piece.
    (
        &[(3, 2)],
        &[(3, Reason::Full)],
        &[
            (On::Warn, b"abcdef", &[b"abcdef", b"ab"], T_FULL, 1),
            (On::Exit, b"abcd", &[b"abcd", b"ab"], T_FULL, 1),
            (On::WarnNoPipe, b"abcdef", &[b"abcdef", b"ab"], T_FULL, 1),
            (On::ExitNoPipe, b"abcd", &[b"abcd", b"ab"], T_FULL, 1),
            (On::Signal, b"abcdef", &[b"abcdef", b"ab"], T_FULL, 1),
        ],
    ),
    // `t` is full in the first piece, and `s` gone in the second.
    (
        &[(2, 3), (3, 1)],
        &[(2, Reason::Gone), (3, Reason::Full)],
        &[
            (On::Warn, b"abcdef", &[b"abc", b"a"], T_FULL_S_GONE, 1),
            (On::Exit, b"ab", &[b"ab", b"a"], T_FULL, 1),
            (On::WarnNoPipe, b"abcdef", &[b"abc", b"a"], T_FULL, 1),
            (On::ExitNoPipe, b"ab", &[b"ab", b"a"], T_FULL, 1),
            (On::Signal, b"abcd", &[b"abc", b"a"], T_FULL, 141),
        ],
    ),
    // `s` is gone in the first piece, and `t` full in the second.
    (
        &[(2, 1), (3, 3)],
        &[(2, Reason::Gone), (3, Reason::Full)],
        &[
            (On::Warn, b"abcdef", &[b"a", b"abc"], S_GONE_T_FULL, 1),
            (On::Exit, b"ab", &[b"a", b"ab"], S_GONE, 1),
            (On::WarnNoPipe, b"abcdef", &[b"a", b"abc"], T_FULL, 1),
            (On::ExitNoPipe, b"abcd", &[b"a", b"abc"], T_FULL, 1),
            (On::Signal, b"ab", &[b"a", b"ab"], SILENT, 141),
        ],
    ),
    // All are gone in the second piece.
    (
        &[(0, 2), (2, 3), (3, 2)],
        &[(0, Reason::Gone), (2, Reason::Gone), (3, Reason::Gone)],
        &[
            (On::Warn, b"ab", &[b"abc", b"ab"], ALL_GONE, 1),
            (On::Exit, b"ab", &[b"abc", b"ab"], ALL_GONE, 1),
            (On::WarnNoPipe, b"ab", &[b"abc", b"ab"], SILENT, 0),
            (On::ExitNoPipe, b"ab", &[b"abc", b"ab"], SILENT, 0),
            (On::Signal, b"ab", &[b"abc", b"ab"], SILENT, 141),
        ],
    ),
    // Standard output is gone in the third piece, with which the files are full.
    (
        &[(0, 4), (2, 4), (3, 5)],
        &[(0, Reason::Gone), (2, Reason::Full), (3, Reason::Full)],
        &[
            (On::Warn, b"abcd", &[b"abcd", b"abcde"], GONE_BOTH_FULL, 1),
            (On::Exit, b"abcd", &[b"abcd", b"abcde"], GONE_BOTH_FULL, 1),
            (On::WarnNoPipe, b"abcd", &[b"abcd", b"abcde"], BOTH_FULL, 1),
            (On::ExitNoPipe, b"abcd", &[b"abcd", b"abcde"], BOTH_FULL, 1),
            (On::Signal, b"abcd", &[b"abcd", b"abcde"], BOTH_FULL, 141),
        ],
    ),
];

/// What can't be opened, closed or read has its reason after a tool's own name.
#[test]
fn each_fault_has_its_reason(rt: HostRuntime) -> Result<(), Fail> {
    for case in REASONS {
        check(&rt, rt.alloc(), case)?;
    }
    Ok(())
}

/// `tee s t` by its own name, in one piece.
const OWN: Case<'static> = Case {
    calling: Calling::OwnName,
    on_broken: On::Signal,
    ..SOUND
};

const REASONS: &[Case<'static>] = &[
    Case {
        refused: 1,
        causes: &[(2, Reason::Denied)],
        left: Left {
            output: b"abcdef",
            files: &[b"", b"abcdef"],
            messages: b"tee: cannot open 's': Permission denied\n",
            status: 1,
        },
        ..OWN
    },
    Case {
        calling: Calling::Cutters,
        refused: 1,
        causes: &[(2, Reason::Denied)],
        left: Left {
            output: b"abcdef",
            files: &[b"", b"abcdef"],
            messages: b"tee: cannot open 's'\n",
            status: 1,
        },
        ..OWN
    },
    Case {
        refused: 7,
        causes: &[(3, Reason::Device)],
        left: Left {
            output: b"abcdef",
            files: &[b"abcdef", b"abcdef"],
            messages: b"tee: cannot write 't': Input/output error\n",
            status: 1,
        },
        ..OWN
    },
    // It is gone only as it is closed: the run is at its end, and has the status all the same.
    Case {
        refused: 7,
        causes: &[(3, Reason::Gone)],
        left: Left {
            output: b"abcdef",
            files: &[b"abcdef", b"abcdef"],
            messages: b"",
            status: 141,
        },
        ..OWN
    },
    Case {
        breaks_at: Some(4),
        breaks_as: Reason::Folder,
        left: Left {
            output: b"abcd",
            files: &[b"abcd", b"abcd"],
            messages: b"tee: cannot read 'standard input': Is a directory\n",
            status: 1,
        },
        ..OWN
    },
    // The first output that is gone ends the run, so that a fault of the input isn't met.
    Case {
        piece: 2,
        breaks_at: Some(4),
        limits: &[(0, 3)],
        causes: &[(0, Reason::Gone)],
        left: Left {
            output: b"abc",
            files: &[b"abcd", b"abcd"],
            messages: b"",
            status: 141,
        },
        ..OWN
    },
    // A fault of the input counts where an output that is gone doesn't.
    Case {
        piece: 2,
        breaks_at: Some(4),
        breaks_as: Reason::Device,
        on_broken: On::WarnNoPipe,
        limits: &[(0, 1)],
        causes: &[(0, Reason::Gone)],
        left: Left {
            output: b"a",
            files: &[b"abcd", b"abcd"],
            messages: b"tee: cannot read 'standard input': Input/output error\n",
            status: 1,
        },
        ..OWN
    },
];
