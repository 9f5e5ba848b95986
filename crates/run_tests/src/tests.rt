//! Whole runs of `head` and `tail` over standard input in memory, and words that are refused: words and bytes in, standard
//! output, messages and status out.
use crate::example_tests;
use crate::left::{Left, NOTHING, Plan, Run, check_twice};
use ports_core::Fault;
use std::alloc::Global;
use std::process::Abort;
use std::test::Fail;

/// Words, standard input and standard output.
type Row<'a> = (&'a [&'a str], &'a [u8], &'a [u8]);

/// Runs the words of each row, which meet no fault.
fn put_out(rt: &impl Abort, alloc: Global, rows: &[Row<'_>]) -> Result<(), Fail> {
    for row in rows {
        puts_out(rt, alloc, row)?;
    }
    Ok(())
}

fn puts_out(rt: &impl Abort, alloc: Global, row: &Row<'_>) -> Result<(), Fault> {
    let run = Run {
        words: row.0,
        files: &[],
        input: row.1,
        plans: &[],
        left: Left {
            output: row.2,
            ..NOTHING
        },
    };
    check_twice(rt, alloc, &run)
}

/// Words that are refused, and the message.
pub(crate) type Refused<'a> = (&'a [&'a str], &'a [u8]);

/// Runs the words of each row, which are refused, with an input that is not read.
fn refuse(rt: &impl Abort, alloc: Global, rows: &[Refused<'_>]) -> Result<(), Fail> {
    for row in rows {
        refuses(rt, alloc, row)?;
    }
    Ok(())
}

fn refuses(rt: &impl Abort, alloc: Global, row: &Refused<'_>) -> Result<(), Fault> {
    let run = Run {
        words: row.0,
        files: &[("f", b"x\n")],
        input: b"a\n",
        plans: &[],
        left: Left {
            messages: row.1,
            status: 1,
            ..NOTHING
        },
    };
    check_twice(rt, alloc, &run)
}

const ELEVEN: &[u8] = b"1\n2\n3\n4\n5\n6\n7\n8\n9\n10\n11\n";

const FIRST_TEN: &[u8] = b"1\n2\n3\n4\n5\n6\n7\n8\n9\n10\n";

const LAST_TEN: &[u8] = b"2\n3\n4\n5\n6\n7\n8\n9\n10\n11\n";

const FOUR: &[u8] = b"a\nb\nc\nd\n";

#[test]
fn puts_out_lines(rt: HostRuntime) -> Result<(), Fail> {
    for rows in [FIRST, LAST, SPELLED, SUFFIXES] {
        put_out(&rt, rt.alloc(), rows)?;
    }
    Ok(())
}

const FIRST: &[Row<'static>] = &[
    (&["head", "-n", "2"], b"a\nb\nc\n", b"a\nb\n"),
    (&["head", "-zn", "1"], b"a\nb\0c\0", b"a\nb\0"),
    (&["head", "--zero-terminated", "-n-1"], b"a\n\0b", b"a\n\0"),
    (&["head", "-n", "2"], b"a\nb", b"a\nb"),
    (&["head", "-n", "2"], b"", b""),
    (&["head", "-n", "1"], b"\xff\0\n\xfe", b"\xff\0\n"),
    (&["head"], ELEVEN, FIRST_TEN),
    (&["head", "-"], ELEVEN, FIRST_TEN),
    (&["head", "-n", "0"], b"a\n", b""),
    (&["head", "-n", "+1"], b"a\nb\n", b"a\n"),
    (&["head", "-c", "+3"], b"abcde", b"abc"),
    (&["head", "-n", "+0"], b"a\n", b""),
    (&["head", "-n", "-2"], b"a\nb\nc", b"a\n"),
    (&["head", "-c", "9", "-n", "-2"], b"a\nb\nc", b"a\n"),
    (&["head", "-n", "-9"], b"a\nb\nc", b""),
    (&["head", "-n", "-0"], b"a\nb\nc", b"a\nb\nc"),
    (&["head", "-c", "-0"], b"a\nb\nc", b"a\nb\nc"),
    (&["head", "-c", "-3"], b"abcde", b"ab"),
    (&["head", "-c", "-5"], b"abcde", b""),
    (&["head", "-n", "9223372036854775807"], b"a\n", b"a\n"),
];

const LAST: &[Row<'static>] = &[
    (&["tail", "-n", "2"], b"a\nb\nc", b"b\nc"),
    (&["tail", "-z", "-n", "1"], b"a\0b\nc", b"b\nc"),
    (&["tail", "-zn+2"], b"a\n\0b\0c", b"b\0c"),
    (&["tail", "-n", "2"], b"a\nb\nc\n", b"b\nc\n"),
    (&["tail", "-n", "-2"], b"a\nb\nc", b"b\nc"),
    (&["tail", "-n", "9"], b"a\nb\nc", b"a\nb\nc"),
    (&["tail", "-n", "0"], b"a\nb\nc", b""),
    (&["tail", "-n", "-0"], b"a\nb\nc", b""),
    (&["tail", "-n", "1"], b"", b""),
    (&["tail", "-n", "+2"], b"a\nb\nc", b"b\nc"),
    (&["tail", "-n", "+0"], b"a\nb\nc", b"a\nb\nc"),
    (&["tail", "-n", "+1"], b"a\nb\nc", b"a\nb\nc"),
    (&["tail", "-n", "+4"], b"a\nb\nc", b""),
    (&["tail", "-c", "+3"], b"abcde", b"cde"),
    (&["tail", "-c", "+0"], b"abcde", b"abcde"),
    (&["tail", "-c", "+6"], b"abcde", b""),
    (&["tail", "-c", "3"], b"ab", b"ab"),
    (&["tail", "-c", "3"], b"abcde", b"cde"),
    (&["tail", "-c", "-3"], b"abcde", b"cde"),
    (&["tail", "-c", "1"], b"ab\n", b"\n"),
    (&["tail", "-c", "0"], b"ab\n", b""),
    (&["tail"], ELEVEN, LAST_TEN),
    (&["tail", "-"], ELEVEN, LAST_TEN),
    (&["tail", "-3"], b"a\nb\nc\nd\n", b"b\nc\nd\n"),
    (&["tail", "-0"], b"a\nb\nc\nd\n", b""),
    (&["tail", "-n", "1"], b"\xff\0\n\xfe", b"\xfe"),
    (&["tail", "-c", "9223372036854775807"], b"a\n", b"a\n"),
];

#[test]
fn refuses_words(rt: HostRuntime) -> Result<(), Fail> {
    for rows in [REFUSED, FIRST_FAULTS, example_tests::REFUSED] {
        refuse(&rt, rt.alloc(), rows)?;
    }
    Ok(())
}

const REFUSED: &[Refused<'static>] = &[
    (&[], b"cutters: missing tool\n"),
    (&["cat"], b"cutters: unknown tool 'cat'\n"),
    (&[""], b"cutters: unknown tool ''\n"),
    (&["heads"], b"cutters: unknown tool 'heads'\n"),
    (&["head", "-x"], b"head: unknown option '-x'\n"),
    (&["tail", "-x"], b"tail: unknown option '-x'\n"),
    (&["tail", "-n", "1", "-x"], b"tail: unknown option '-x'\n"),
    (&["head", "f", "-x"], b"head: unknown option '-x'\n"),
    (&["head", "-n"], b"head: missing value for '-n'\n"),
    (&["head", "-n", "x"], b"head: invalid number 'x'\n"),
    (&["tail", "-n", ""], b"tail: invalid number ''\n"),
    (&["csplit"], b"csplit: missing operand\n"),
    (&["csplit", "f"], b"csplit: missing operand\n"),
    (&["csplit", "-3", "f"], b"csplit: unknown option '-3'\n"),
    (
        &["csplit", "-", "3", "2"],
        b"csplit: invalid operand '2' (8)\n",
    ),
    (
        &["csplit", "-", "{2}"],
        b"csplit: invalid operand '{2}' (5)\n",
    ),
    (
        &["csplit", "-", "/[/"],
        b"csplit: invalid pattern '/[/' (7 at 0)\n",
    ),
    (&["tee", "-i"], b"tee: unknown option '-i'\n"),
];

/// An output that takes no more, an input that breaks off, and one that would where nothing is needed of it.
pub(crate) const FAILING: &[Run<'static>] = &[
    Run {
        words: &["head", "-n", "2"],
        files: &[],
        input: b"ab\ncd\n",
        plans: &[Plan::Limit(0, 3)],
        left: Left {
            output: b"ab\n",
            messages: b"head: cannot write 'standard output'\n",
            status: 1,
            ..NOTHING
        },
    },
    Run {
        words: &["head", "-n", "2"],
        files: &[],
        input: b"ab\ncd\n",
        plans: &[Plan::Break(0, 4)],
        left: Left {
            output: b"ab\nc",
            messages: b"head: cannot read 'standard input'\n",
            status: 1,
            ..NOTHING
        },
    },
    Run {
        words: &["head", "-n", "1"],
        files: &[],
        input: b"ab\ncd\n",
        plans: &[Plan::Pieces(1), Plan::Break(0, 3)],
        left: Left {
            output: b"ab\n",
            ..NOTHING
        },
    },
];

const SPELLED: &[Row<'static>] = &[
    (&["head", "-3"], FOUR, b"a\nb\nc\n"),
    (&["head", "-n3"], FOUR, b"a\nb\nc\n"),
    (&["head", "-n", "3"], FOUR, b"a\nb\nc\n"),
    (&["head", "--lines=3"], FOUR, b"a\nb\nc\n"),
    (&["head", "--lines", "3"], FOUR, b"a\nb\nc\n"),
    (&["head", "--lines=-3"], FOUR, b"a\n"),
    (&["head", "-n-3"], FOUR, b"a\n"),
    (&["head", "-c3"], FOUR, b"a\nb"),
    (&["head", "-c", "3"], FOUR, b"a\nb"),
    (&["head", "--bytes=3"], FOUR, b"a\nb"),
    (&["head", "--bytes", "3"], FOUR, b"a\nb"),
    (&["head", "-n1", "--bytes", "3"], b"a\nbc", b"a\nb"),
    (&["head", "-n", "1", "-c", "2"], FOUR, b"a\n"),
    (&["head", "-n", "1", "-c", "3"], FOUR, b"a\nb"),
    (&["head", "-c", "3", "-n", "1"], FOUR, b"a\n"),
    (&["head", "-n", "1", "-n", "2"], FOUR, b"a\nb\n"),
    (&["head", "-3", "-c", "1"], FOUR, b"a"),
    (&["head", "-0"], FOUR, b""),
    (&["head", "--"], b"a\n", b"a\n"),
    (&["head", "-n", "1", "--"], FOUR, b"a\n"),
    (&["head", "-n", "1", "--", "-"], FOUR, b"a\n"),
    (&["head", "-", "-n", "1"], FOUR, b"a\n"),
    (&["head", "-n", "9223372036854775807"], FOUR, FOUR),
    (&["head", "-n", "0000000000000000000000001"], FOUR, b"a\n"),
    (&["head", "-c0"], FOUR, b""),
    (&["tail", "-n3"], FOUR, b"b\nc\nd\n"),
    (&["tail", "-n+3"], FOUR, b"c\nd\n"),
    (&["tail", "--lines=+3"], FOUR, b"c\nd\n"),
    (&["tail", "--lines", "-1"], FOUR, b"d\n"),
    (&["tail", "-c3"], FOUR, b"\nd\n"),
    (&["tail", "--bytes=+5"], FOUR, b"c\nd\n"),
    (&["tail", "-n", "1", "-c", "4"], FOUR, b"c\nd\n"),
    (&["tail", "-c", "4", "-n", "1"], FOUR, b"d\n"),
];

const SUFFIXES: &[Row<'static>] = &[
    (&["head", "-c", "1K"], &[b'a'; 2000], &[b'a'; 1024]),
    (&["head", "-c", "2kB"], &[b'a'; 3000], &[b'a'; 2000]),
    (&["head", "-c1b"], &[b'a'; 3000], &[b'a'; 512]),
    (&["tail", "-c", "1K"], &[b'a'; 2000], &[b'a'; 1024]),
    (&["tail", "-c", "+1K"], &[b'a'; 2000], &[b'a'; 977]),
];

/// The first fault is told.
const FIRST_FAULTS: &[Refused<'static>] = &[
    (&["head", "--bytes="], b"head: invalid number '--bytes='\n"),
    (&["head", "-c2x"], b"head: invalid number '-c2x'\n"),
    (&["head", "-c", "2x"], b"head: invalid number '2x'\n"),
    (&["head", "--bytes", "2x"], b"head: invalid number '2x'\n"),
    (&["head", "--lines"], b"head: missing value for '--lines'\n"),
    (
        &["head", "-n", "1", "-c"],
        b"head: missing value for '-c'\n",
    ),
    (&["head", "-3x"], b"head: unknown option '-3x'\n"),
    (&["head", "-n", "1", "-3"], b"head: unknown option '-3'\n"),
    (&["head", "-1", "-3"], b"head: unknown option '-3'\n"),
    (&["head", "f", "-3"], b"head: unknown option '-3'\n"),
    (&["head", "-qn"], b"head: missing value for '-qn'\n"),
    (&["head", "-qx"], b"head: unknown option '-qx'\n"),
    (&["head", "-f"], b"head: unknown option '-f'\n"),
    (&["tail", "-p"], b"tail: unknown option '-p'\n"),
    (&["head", "--linx=3"], b"head: unknown option '--linx=3'\n"),
    (&["head", "--lin"], b"head: missing value for '--lin'\n"),
    (&["head", "--=3"], b"head: ambiguous option '--=3'\n"),
    (&["split", "--s=3"], b"split: ambiguous option '--s=3'\n"),
    (&["head", "--n"], b"head: unknown option '--n'\n"),
    (
        &["head", "---lines=3"],
        b"head: unknown option '---lines=3'\n",
    ),
    (
        &["head", "--quiet=1"],
        b"head: unexpected value '--quiet=1'\n",
    ),
    (
        &["tail", "--verbose="],
        b"tail: unexpected value '--verbose='\n",
    ),
    (&["head", "-n", "--"], b"head: invalid number '--'\n"),
    (&["head", "-n=3"], b"head: invalid number '-n=3'\n"),
    (&["head", "-n", "+"], b"head: invalid number '+'\n"),
    (&["tail", "-n", "-"], b"tail: invalid number '-'\n"),
    (&["tail", "-n", "+-1"], b"tail: invalid number '+-1'\n"),
    (
        &["head", "-c5", "-n", "x", "-j"],
        b"head: invalid number 'x'\n",
    ),
    (
        &["head", "-c5", "-j", "-n", "x"],
        b"head: unknown option '-j'\n",
    ),
    (&["head", "x", "-j"], b"head: unknown option '-j'\n"),
    (
        &["head", "-n", "-99999999999999999999"],
        b"head: number too large '-99999999999999999999'\n",
    ),
    (
        &["head", "-n", "99999999999999999999x"],
        b"head: invalid number '99999999999999999999x'\n",
    ),
    (
        &["head", "-n", "9223372036854775808"],
        b"head: number too large '9223372036854775808'\n",
    ),
    (
        &["tail", "-n", "9223372036854775808"],
        b"tail: number too large '9223372036854775808'\n",
    ),
    (
        &["tail", "-n", "+9223372036854775808"],
        b"tail: number too large '+9223372036854775808'\n",
    ),
    (
        &["head", "-c8388608T"],
        b"head: number too large '-c8388608T'\n",
    ),
    (
        &["head", "-9223372036854775808"],
        b"head: number too large '-9223372036854775808'\n",
    ),
];
