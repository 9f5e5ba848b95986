//! Words after `split` that are refused: values, and lines as a whole.
use crate::refused::{Refused, refuse};
use ports_core::UsageKind;

#[test]
fn refuses_values(rt: HostRuntime) {
    refuse(&rt, rt.alloc(), BAD_VALUES);
}

const BAD_VALUES: &[Refused<'static>] = &[
    (&["split", "-t", ""], UsageKind::BadSeparator, 2),
    (&["split", "-t", "ab"], UsageKind::BadSeparator, 2),
    (&["split", "--separator=ab"], UsageKind::BadSeparator, 1),
    (&["split", "-t\\1"], UsageKind::BadSeparator, 1),
    (&["split", "-t", "é"], UsageKind::BadSeparator, 2),
    (
        &["split", "--additional-suffix=a/b"],
        UsageKind::BadSuffix,
        1,
    ),
    (
        &["split", "--additional-suffix", "/"],
        UsageKind::BadSuffix,
        2,
    ),
    (&["split", "-l", "-5"], UsageKind::BadNumber, 2),
    (&["split", "-l", "-0"], UsageKind::BadNumber, 2),
    (
        &["split", "-l", "-99999999999999999999"],
        UsageKind::BadNumber,
        2,
    ),
    (&["split", "--lines=-5"], UsageKind::BadNumber, 1),
    (&["split", "-l", "0"], UsageKind::Zero, 2),
    (&["split", "-l", "+0"], UsageKind::Zero, 2),
    (&["split", "-0"], UsageKind::Zero, 1),
    (&["split", "-b0k"], UsageKind::Zero, 1),
    (&["split", "-C", "0"], UsageKind::Zero, 2),
    (&["split", "-l", "x"], UsageKind::BadNumber, 2),
    (&["split", "-l", ""], UsageKind::BadNumber, 2),
    (&["split", "-b", "0x"], UsageKind::BadNumber, 2),
    (
        &["split", "-b", "99999999999999999999x"],
        UsageKind::BadNumber,
        2,
    ),
    (
        &["split", "-b", "9223372036854775808"],
        UsageKind::NumberTooLarge,
        2,
    ),
    (
        &["split", "-9223372036854775808"],
        UsageKind::NumberTooLarge,
        1,
    ),
    (&["split", "-n", ""], UsageKind::BadNumber, 2),
    (&["split", "-n", "/4"], UsageKind::BadNumber, 2),
    (&["split", "-n", "4/"], UsageKind::BadNumber, 2),
    (&["split", "-n", "x/4"], UsageKind::BadNumber, 2),
    (&["split", "-n", "1/2/3"], UsageKind::BadNumber, 2),
    (&["split", "-n", "-3"], UsageKind::BadNumber, 2),
    (&["split", "-n", "l/"], UsageKind::BadNumber, 2),
    (&["split", "-n", "l/x/4"], UsageKind::BadNumber, 2),
    (
        &["split", "-n", "99999999999999999999/x"],
        UsageKind::BadNumber,
        2,
    ),
    (&["split", "-n", "/70000"], UsageKind::BadNumber, 2),
    (&["split", "-n", "65536"], UsageKind::NumberTooLarge, 2),
    (&["split", "-n", "5/4"], UsageKind::NumberTooLarge, 2),
    (
        &["split", "-n", "l/99999999999999999999/4"],
        UsageKind::NumberTooLarge,
        2,
    ),
    (&["split", "-n", "r/3/0"], UsageKind::NumberTooLarge, 2),
    (&["split", "-n", "0"], UsageKind::Zero, 2),
    (&["split", "-n", "l/0"], UsageKind::Zero, 2),
    (&["split", "-n", "0/4"], UsageKind::Zero, 2),
    (&["split", "-n", "r/0/0"], UsageKind::Zero, 2),
    (&["split", "-n", "r/"], UsageKind::BadNumber, 2),
    (&["split", "-n", "r"], UsageKind::BadNumber, 2),
    (&["split", "-n", "r/+3"], UsageKind::BadNumber, 2),
    (&["split", "-n", "r/3k"], UsageKind::BadNumber, 2),
    (&["split", "-n", "2/r/3"], UsageKind::BadNumber, 2),
    (&["split", "-n", "r/0"], UsageKind::Zero, 2),
    (&["split", "-nr/65536"], UsageKind::NumberTooLarge, 1),
    (
        &["split", "-n", "r/99999999999999999999"],
        UsageKind::NumberTooLarge,
        2,
    ),
    (&["split", "-a", "256"], UsageKind::NumberTooLarge, 2),
    (
        &["split", "-a", "99999999999999999999"],
        UsageKind::NumberTooLarge,
        2,
    ),
    (&["split", "-a", "+1"], UsageKind::BadNumber, 2),
    (&["split", "-a", "1k"], UsageKind::BadNumber, 2),
    (&["split", "-da"], UsageKind::MissingValue, 1),
    (&["split", "f", "--number"], UsageKind::MissingValue, 2),
    (&["split", "--numeric-suffixes="], UsageKind::BadNumber, 1),
    (&["split", "--numeric-suffixes=1k"], UsageKind::BadNumber, 1),
    (&["split", "--numeric-suffixes=+1"], UsageKind::BadNumber, 1),
    (&["split", "--numeric-suffixes=a"], UsageKind::BadNumber, 1),
    (
        &["split", "--numeric-suffixes=9223372036854775808"],
        UsageKind::NumberTooLarge,
        1,
    ),
    (
        &["split", "-d", "--numeric-suffixes=99999999999999999999"],
        UsageKind::NumberTooLarge,
        2,
    ),
    (&["split", "--hex-suffixes="], UsageKind::BadNumber, 1),
    (&["split", "--hex-suffixes=0x1"], UsageKind::BadNumber, 1),
    (&["split", "--hex-suffixes=g"], UsageKind::BadNumber, 1),
    (
        &["split", "--hex-suffixes=ffffffffffffffffffffg"],
        UsageKind::BadNumber,
        1,
    ),
    (
        &["split", "--hex-suffixes=8000000000000000"],
        UsageKind::NumberTooLarge,
        1,
    ),
    (&["split", "-d5"], UsageKind::UnknownOption, 1),
    (&["split", "-l", "1", "-3"], UsageKind::UnknownOption, 3),
    (&["split", "-3x"], UsageKind::UnknownOption, 1),
    (&["split", "-q"], UsageKind::UnknownOption, 1),
    (&["split", "-w"], UsageKind::UnknownOption, 1),
];

#[test]
fn refuses_lines_as_a_whole(rt: HostRuntime) {
    refuse(&rt, rt.alloc(), BAD_LINES);
}

const BAD_LINES: &[Refused<'static>] = &[
    (&["split", "-l", "2", "-b", "3"], UsageKind::TwoWays, 3),
    (&["split", "-l", "2", "-l", "2"], UsageKind::TwoWays, 3),
    (&["split", "-2", "-l2"], UsageKind::TwoWays, 2),
    (&["split", "-C4", "-n", "r/2"], UsageKind::TwoWays, 2),
    (
        &["split", "-l2", "--bytes=3", "-C", "4"],
        UsageKind::TwoWays,
        2,
    ),
    (&["split", "-dl2", "f", "-xb", "3"], UsageKind::TwoWays, 3),
    (
        &["split", "-n", "r/27", "-a", "1"],
        UsageKind::SuffixTooShort,
        0,
    ),
    (
        &["split", "-a1", "-n", "r/27"],
        UsageKind::SuffixTooShort,
        0,
    ),
    (
        &["split", "-dn", "r/101", "-a", "2"],
        UsageKind::SuffixTooShort,
        0,
    ),
    (
        &["split", "-a2", "-n", "r/257", "-a", "2", "-x"],
        UsageKind::SuffixTooShort,
        0,
    ),
    (
        &["split", "--numeric-suffixes=10", "-a", "1"],
        UsageKind::SuffixTooShort,
        0,
    ),
    (
        &["split", "--numeric-suffixes=100"],
        UsageKind::SuffixTooShort,
        0,
    ),
    (
        &["split", "-a1", "--hex-suffixes=10"],
        UsageKind::SuffixTooShort,
        0,
    ),
    (
        &["split", "--numeric-suffixes=90", "-nr/11", "-a2"],
        UsageKind::SuffixTooShort,
        0,
    ),
    (&["split", "a", "b", "c"], UsageKind::ExtraOperand, 3),
    (
        &["split", "a", "b", "-l", "1", "--", "c", "d"],
        UsageKind::ExtraOperand,
        6,
    ),
    (&["split", "-", "-", "-"], UsageKind::ExtraOperand, 3),
    // Several faults of the line as a whole are told in this order.
    (
        &["split", "-l2", "-b3", "-n", "r/27", "-a1"],
        UsageKind::TwoWays,
        2,
    ),
    (
        &["split", "a", "b", "c", "-l2", "-b3"],
        UsageKind::TwoWays,
        5,
    ),
    (
        &["split", "a", "b", "c", "-nr/27", "-a1"],
        UsageKind::SuffixTooShort,
        0,
    ),
    // They are told after the faults of single words.
    (
        &["split", "-l", "2", "-b", "3", "-z"],
        UsageKind::UnknownOption,
        5,
    ),
    (&["split", "-l", "2", "-b", "0"], UsageKind::Zero, 4),
    (
        &["split", "a", "b", "c", "-a", "256"],
        UsageKind::NumberTooLarge,
        5,
    ),
    (
        &["split", "-n", "r/27", "-a", "1", "-b"],
        UsageKind::MissingValue,
        5,
    ),
];
