//! Whole runs of `csplit` over memory, which no clause can show to succeed: files with their names, the sizes on standard
//! output, messages and status.
use crate::left::{File, LAID, Left, NOTHING, Plan, Run, check_twice, inputs_of, planned_outs};
use ports_core::{Fault, Outs};
use std::alloc::Global;
use std::process::Abort;
use std::test::Fail;
use tools_core::run::run;

/// Words, an input, the sizes that are written, and the files that are made.
type Row<'a> = (&'a [&'a str], &'a [u8], &'a [u8], &'a [File<'a>]);

fn cut(rt: &impl Abort, alloc: Global, rows: &[Row<'_>]) -> Result<(), Fail> {
    for row in rows {
        ends(rt, alloc, &(row.0, row.1, row.2, row.3, &[], b""))?;
    }
    Ok(())
}

#[test]
fn cuts_into_sections(rt: HostRuntime) -> Result<(), Fail> {
    for rows in [SECTIONS, OPTIONS] {
        cut(&rt, rt.alloc(), rows)?;
    }
    Ok(())
}

const SECTIONS: &[Row<'static>] = &[
    (
        &["csplit", "-", "/^b/", "{*}"],
        b"b1\nx\nb2\ny\n",
        b"0\n5\n5\n",
        &[("xx00", b""), ("xx01", b"b1\nx\n"), ("xx02", b"b2\ny\n")],
    ),
    (
        &["csplit", "-", "/c/-1"],
        b"a\nb\nc\nd\n",
        b"2\n6\n",
        &[("xx00", b"a\n"), ("xx01", b"b\nc\nd\n")],
    ),
    (
        &["csplit", "-", "2", "{*}"],
        b"1\n2\n3\n4\n5\n",
        b"2\n4\n4\n",
        &[("xx00", b"1\n"), ("xx01", b"2\n3\n"), ("xx02", b"4\n5\n")],
    ),
    (
        &["csplit", "-", "2", "/b/"],
        b"a\nb\nb\n",
        b"2\n2\n2\n",
        &[("xx00", b"a\n"), ("xx01", b"b\n"), ("xx02", b"b\n")],
    ),
    (
        &["csplit", "-", "/b/-1", "{*}"],
        b"a\nb\nb\nc\n",
        b"0\n2\n6\n",
        &[("xx00", b""), ("xx01", b"a\n"), ("xx02", b"b\nb\nc\n")],
    ),
    (
        &["csplit", "-", "%b%", "/d/"],
        b"a\nb\nc\nd\ne\n",
        b"4\n4\n",
        &[("xx00", b"b\nc\n"), ("xx01", b"d\ne\n")],
    ),
    (
        &["csplit", "-", "/b/+1", "/d/"],
        b"a\nb\nc\nd\ne\n",
        b"4\n2\n4\n",
        &[("xx00", b"a\nb\n"), ("xx01", b"c\n"), ("xx02", b"d\ne\n")],
    ),
    (
        &["csplit", "-", "/a\\/b/"],
        b"x\na/b\n",
        b"2\n4\n",
        &[("xx00", b"x\n"), ("xx01", b"a/b\n")],
    ),
    (
        &["csplit", "-", "/b/", "{*}", "9"],
        b"a\nb\n",
        b"2\n2\n",
        &[("xx00", b"a\n"), ("xx01", b"b\n")],
    ),
    (&["csplit", "-", "%b%", "{*}"], b"a\nb\nc\n", b"", &[]),
    (
        &["csplit", "-", "3", "/b/", "{1}"],
        b"1\n2\n3\nb\n4\nb\n5",
        b"4\n2\n4\n3\n",
        &[
            ("xx00", b"1\n2\n"),
            ("xx01", b"3\n"),
            ("xx02", b"b\n4\n"),
            ("xx03", b"b\n5"),
        ],
    ),
    (&["csplit", "-", "2", "{*}"], b"", b"0\n", &[("xx00", b"")]),
    (
        &["csplit", "f", "2"],
        b"not read\n",
        b"2\n3\n",
        &[("xx00", b"1\n"), ("xx01", b"2\n3")],
    ),
    (
        &["csplit", "-", "1", "%b%"],
        b"a\nb\nc\n",
        b"0\n4\n",
        &[("xx00", b""), ("xx01", b"b\nc\n")],
    ),
    (
        &["csplit", "-", "/b/", "/b/"],
        b"b\n\xff\0\nb\n",
        b"0\n5\n2\n",
        &[("xx00", b""), ("xx01", b"b\n\xff\0\n"), ("xx02", b"b\n")],
    ),
    (
        &["csplit", "-", "/b/+1", "{*}"],
        b"b\nb\nb\nc",
        b"2\n4\n1\n",
        &[("xx00", b"b\n"), ("xx01", b"b\nb\n"), ("xx02", b"c")],
    ),
];

const OPTIONS: &[Row<'static>] = &[
    (
        &["csplit", "-z", "-", "/^b/", "{*}"],
        b"b1\nx\nb2\ny\n",
        b"5\n5\n",
        &[("xx00", b"b1\nx\n"), ("xx01", b"b2\ny\n")],
    ),
    (
        &["csplit", "-s", "-", "/^b/", "{*}"],
        b"b1\nx\nb2\ny\n",
        b"",
        &[("xx00", b""), ("xx01", b"b1\nx\n"), ("xx02", b"b2\ny\n")],
    ),
    (
        &["csplit", "-qkz", "-", "/^b/", "{*}"],
        b"b1\nx\nb2\ny\n",
        b"",
        &[("xx00", b"b1\nx\n"), ("xx01", b"b2\ny\n")],
    ),
    (
        &["csplit", "-n", "1", "-f", "p", "-", "2"],
        b"a\nb\n",
        b"2\n2\n",
        &[("p0", b"a\n"), ("p1", b"b\n")],
    ),
    (
        &["csplit", "--prefix=a/b", "-", "2", "--digits", "0"],
        b"a\nb\n",
        b"2\n2\n",
        &[("a/b0", b"a\n"), ("a/b1", b"b\n")],
    ),
    (
        &["csplit", "-f", "", "-n5", "--silent", "--", "-", "2"],
        b"a\nb\n",
        b"",
        &[("00000", b"a\n"), ("00001", b"b\n")],
    ),
    (
        &["csplit", "-b", "%03d.txt", "-f", "p", "-n", "9", "-", "2"],
        b"a\nb\n",
        b"2\n2\n",
        &[("p000.txt", b"a\n"), ("p001.txt", b"b\n")],
    ),
    (
        &["csplit", "-zf", "", "-b", "%#-4x|%%", "-", "/^b/", "{*}"],
        b"b1\nx\nb2\ny\n",
        b"5\n5\n",
        &[("0   |%", b"b1\nx\n"), ("0x1 |%", b"b2\ny\n")],
    ),
    (
        &["csplit", "-b", "/%.0o", "--suppress-matched", "-", "1", "3"],
        b"a\nb\nc\n",
        b"0\n2\n0\n",
        &[("xx/", b""), ("xx/1", b"b\n"), ("xx/2", b"")],
    ),
    (
        &["csplit", "--suppress-matched", "-", "/b/"],
        b"a\nb\nc\n",
        b"2\n2\n",
        &[("xx00", b"a\n"), ("xx01", b"c\n")],
    ),
    (
        &["csplit", "--suppress-matched", "-", "2", "{*}"],
        b"1\n2\n3\n4\n5\n",
        b"2\n2\n2\n",
        &[("xx00", b"1\n"), ("xx01", b"3\n"), ("xx02", b"5\n")],
    ),
    (
        &["csplit", "--suppress-matched", "-", "/b/", "{*}"],
        b"a\nb\nb\nc\n",
        b"2\n0\n2\n",
        &[("xx00", b"a\n"), ("xx01", b""), ("xx02", b"c\n")],
    ),
    (
        &["csplit", "--suppress-matched", "-z", "-", "/b/", "{*}"],
        b"a\nb\nb\nc\n",
        b"2\n2\n",
        &[("xx00", b"a\n"), ("xx01", b"c\n")],
    ),
    (
        &["csplit", "--suppress-matched", "-", "/b/-1", "{*}"],
        b"a\nb\nb\nc\n",
        b"0\n0\n4\n",
        &[("xx00", b""), ("xx01", b""), ("xx02", b"b\nc\n")],
    ),
    (
        &["csplit", "--suppress-matched", "-", "2"],
        b"a\nb\n",
        b"2\n0\n",
        &[("xx00", b"a\n"), ("xx01", b"")],
    ),
];

/// Words, an input, the sizes that are written, the files that are made, the names of those that are removed, and the message.
type FaultRow<'a> = (
    &'a [&'a str],
    &'a [u8],
    &'a [u8],
    &'a [File<'a>],
    &'a [&'a str],
    &'a [u8],
);

fn end(rt: &impl Abort, alloc: Global, rows: &[FaultRow<'_>]) -> Result<(), Fail> {
    for row in rows {
        ends(rt, alloc, row)?;
    }
    Ok(())
}

fn ends(rt: &impl Abort, alloc: Global, row: &FaultRow<'_>) -> Result<(), Fault> {
    let run = Run {
        words: row.0,
        files: LAID,
        input: row.1,
        plans: &[],
        left: Left {
            output: row.2,
            files: row.3,
            removed: row.4,
            messages: row.5,
            status: u8::from(!row.5.is_empty()),
        },
    };
    check_twice(rt, alloc, &run)
}

#[test]
fn ends_at_a_fault(rt: HostRuntime) -> Result<(), Fail> {
    for rows in [REMOVED, KEPT] {
        end(&rt, rt.alloc(), rows)?;
    }
    Ok(())
}

/// An operand finds no line, and the files are removed.
const REMOVED: &[FaultRow<'static>] = &[
    (
        &["csplit", "-", "/x/"],
        b"a\nb\n",
        b"4\n",
        &[("xx00", b"a\nb\n")],
        &["xx00"],
        b"csplit: '/x/': match not found\n",
    ),
    (
        &["csplit", "-", "/b/", "{2}"],
        b"a\nb\nc",
        b"2\n3\n",
        &[("xx00", b"a\n"), ("xx01", b"b\nc")],
        &["xx00", "xx01"],
        b"csplit: '/b/': match not found on repetition 1\n",
    ),
    (
        &["csplit", "-", "1", "{1}", "%x%"],
        b"a\nb\n",
        b"0\n2\n",
        &[("xx00", b""), ("xx01", b"a\n")],
        &["xx00", "xx01"],
        b"csplit: '%x%': match not found\n",
    ),
    (
        &["csplit", "-", "%x%"],
        b"a\nb\n",
        b"",
        &[],
        &[],
        b"csplit: '%x%': match not found\n",
    ),
    (
        &["csplit", "-", "/c/-3"],
        b"a\nb\nc\nd\n",
        b"0\n",
        &[("xx00", b"")],
        &["xx00"],
        b"csplit: '/c/-3': line number out of range\n",
    ),
    (
        &["csplit", "-", "/b/+5"],
        b"a\nb\n",
        b"4\n",
        &[("xx00", b"a\nb\n")],
        &["xx00"],
        b"csplit: '/b/+5': line number out of range\n",
    ),
    (
        &["csplit", "-", "2", "{3}"],
        b"1\n2\n3\n4\n5\n",
        b"2\n4\n4\n",
        &[("xx00", b"1\n"), ("xx01", b"2\n3\n"), ("xx02", b"4\n5\n")],
        &["xx00", "xx01", "xx02"],
        b"csplit: '2': line number out of range on repetition 2\n",
    ),
    (
        &["csplit", "-", "/b/", "{*}", "/c/"],
        b"a\nb\n",
        b"2\n2\n",
        &[("xx00", b"a\n"), ("xx01", b"b\n")],
        &[],
        b"",
    ),
    (
        &["csplit", "-", "/b/-2", "{*}"],
        b"a\nb\n",
        b"0\n",
        &[("xx00", b"")],
        &["xx00"],
        b"csplit: '/b/-2': line number out of range\n",
    ),
    (
        &["csplit", "--suppress-matched", "-", "2", "2"],
        b"a\nb\nc\n",
        b"2\n0\n",
        &[("xx00", b"a\n"), ("xx01", b"")],
        &["xx00", "xx01"],
        b"csplit: '2': line number out of range\n",
    ),
    (
        &["csplit", "-zs", "f", "2", "/x/"],
        b"",
        b"",
        &[("xx00", b"1\n"), ("xx01", b"2\n3")],
        &["xx00", "xx01"],
        b"csplit: '/x/': match not found\n",
    ),
];

/// The files are kept, since that is asked.
const KEPT: &[FaultRow<'static>] = &[
    (
        &["csplit", "-k", "-", "/x/"],
        b"a\nb\n",
        b"4\n",
        &[("xx00", b"a\nb\n")],
        &[],
        b"csplit: '/x/': match not found\n",
    ),
    (
        &["csplit", "-k", "-", "/c/-3"],
        b"a\nb\nc\nd\n",
        b"0\n",
        &[("xx00", b"")],
        &[],
        b"csplit: '/c/-3': line number out of range\n",
    ),
    (
        &["csplit", "-kz", "-", "/c/-3"],
        b"a\nb\nc\nd\n",
        b"",
        &[],
        &[],
        b"csplit: '/c/-3': line number out of range\n",
    ),
    (
        &["csplit", "--keep-files", "-", "2", "{3}"],
        b"1\n2\n3\n4\n5\n",
        b"2\n4\n4\n",
        &[("xx00", b"1\n"), ("xx01", b"2\n3\n"), ("xx02", b"4\n5\n")],
        &[],
        b"csplit: '2': line number out of range on repetition 2\n",
    ),
    (
        &["csplit", "-", "-ks", "9"],
        b"a\nb",
        b"",
        &[("xx00", b"a\nb")],
        &[],
        b"csplit: '9': line number out of range\n",
    ),
];

/// An input breaks off or is missing.
pub(crate) const INPUTS: &[Run<'static>] = &[
    Run {
        words: &["csplit", "g", "2"],
        files: LAID,
        input: b"a\n",
        plans: &[],
        left: Left {
            messages: b"csplit: cannot open 'g'\n",
            status: 1,
            ..NOTHING
        },
    },
    Run {
        words: &["csplit", "g", "2"],
        files: LAID,
        input: b"a\n",
        plans: &[Plan::Pieces(1)],
        left: Left {
            messages: b"csplit: cannot open 'g'\n",
            status: 1,
            ..NOTHING
        },
    },
    // What a line number has decided is written, but for the line that lacks its newline.
    Run {
        words: &["csplit", "-", "2", "{*}"],
        files: LAID,
        input: b"a\nb\nc\n",
        plans: &[Plan::Break(0, 5)],
        left: Left {
            output: b"2\n",
            files: &[("xx00", b"a\n"), ("xx01", b"b\n")],
            removed: &["xx00", "xx01"],
            messages: b"csplit: cannot read 'standard input'\n",
            status: 1,
        },
    },
    Run {
        words: &["csplit", "-k", "-", "2", "{*}"],
        files: LAID,
        input: b"a\nb\nc\n",
        plans: &[Plan::Break(0, 5), Plan::Pieces(1)],
        left: Left {
            output: b"2\n",
            files: &[("xx00", b"a\n"), ("xx01", b"b\n")],
            removed: &[],
            messages: b"csplit: cannot read 'standard input'\n",
            status: 1,
        },
    },
    // The last line may be the first of the next section.
    Run {
        words: &["csplit", "-k", "f", "/x/-1"],
        files: LAID,
        input: b"",
        plans: &[Plan::Break(1, 5)],
        left: Left {
            files: &[("xx00", b"1\n")],
            messages: b"csplit: cannot read 'f'\n",
            status: 1,
            ..NOTHING
        },
    },
];

/// An output that fails ends the run.
pub(crate) const OUTPUTS: &[Run<'static>] = &[
    Run {
        words: &["csplit", "-", "/^b/", "{*}"],
        files: &[],
        input: b"b1\nx\nb2\ny\n",
        plans: &[Plan::Pieces(3), Plan::Limit(3, 4)],
        left: Left {
            output: b"0\n",
            files: &[("xx00", b""), ("xx01", b"b1\nx")],
            removed: &["xx00", "xx01"],
            messages: b"csplit: cannot write 'xx01'\n",
            status: 1,
        },
    },
    Run {
        words: &["csplit", "-k", "-", "/^b/", "{*}"],
        files: &[],
        input: b"b1\nx\nb2\ny\n",
        plans: &[Plan::Pieces(3), Plan::Limit(3, 4)],
        left: Left {
            output: b"0\n",
            files: &[("xx00", b""), ("xx01", b"b1\nx")],
            removed: &[],
            messages: b"csplit: cannot write 'xx01'\n",
            status: 1,
        },
    },
    Run {
        words: &["csplit", "-", "/^b/", "{*}"],
        files: &[],
        input: b"b1\nx\nb2\ny\n",
        plans: &[Plan::Limit(0, 3)],
        left: Left {
            output: b"0\n5",
            files: &[("xx00", b""), ("xx01", b"b1\nx\n")],
            removed: &["xx00", "xx01"],
            messages: b"csplit: cannot write 'standard output'\n",
            status: 1,
        },
    },
    Run {
        words: &["csplit", "-b", "%d.txt", "-", "/^b/", "{*}"],
        files: &[],
        input: b"b1\nx\nb2\ny\n",
        plans: &[Plan::Pieces(3), Plan::Limit(3, 4)],
        left: Left {
            output: b"0\n",
            files: &[("xx0.txt", b""), ("xx1.txt", b"b1\nx")],
            removed: &["xx0.txt", "xx1.txt"],
            messages: b"csplit: cannot write 'xx1.txt'\n",
            status: 1,
        },
    },
    // Standard error that breaks leaves the status as it is.
    Run {
        words: &["csplit", "-", "/x/"],
        files: &[],
        input: b"a\nb\n",
        plans: &[Plan::Limit(1, 8)],
        left: Left {
            output: b"4\n",
            files: &[("xx00", b"a\nb\n")],
            removed: &["xx00"],
            messages: b"csplit: ",
            status: 1,
        },
    },
];

/// No message names a file that can't be removed.
#[test]
fn file_that_stays_is_not_named(rt: HostRuntime) -> Result<(), Fail> {
    let words: [&str; 3] = ["csplit", "-", "/c/"];
    let mut inputs = inputs_of(rt.alloc(), &[], b"a\nbb\nccccccccc\nd\ne")?;
    let mut outs = planned_outs(rt.alloc(), &[Plan::Limit(3, 4), Plan::FailAt(8)])?;
    let status = run(rt.alloc(), &words, &mut inputs, &mut outs);
    assert_eq!(rt; status, 1);
    assert_eq!(rt; outs.bytes(1), b"csplit: cannot write 'xx01'\n".as_slice());
    assert!(rt; outs.broken(2) && !outs.removed(2) && outs.removed(3));
    Ok(())
}
