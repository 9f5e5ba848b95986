//! Words with a byte 0, as those are read that aren't UTF-8: no value is read from one.
use crate::refused::{Refused, refuse};
use ports_core::UsageKind;

#[test]
fn reads_no_value_with_a_byte_0(rt: HostRuntime) {
    refuse(&rt, rt.alloc(), REFUSED);
}

const REFUSED: &[Refused<'static>] = &[
    (&["head\0"], UsageKind::UnknownTool, 0),
    (&["head", "-n", "1\u{FFFD}\0"], UsageKind::BadNumber, 2),
    (&["head", "-n", "1\0"], UsageKind::BadNumber, 2),
    (&["head", "-c1K\0"], UsageKind::BadNumber, 1),
    (&["head", "--lines=1\0"], UsageKind::BadNumber, 1),
    (&["head", "-1\0"], UsageKind::UnknownOption, 1),
    (&["head", "-q\0"], UsageKind::UnknownOption, 1),
    (&["head", "--quiet\0"], UsageKind::UnknownOption, 1),
    (&["tail", "-n", "+1\0"], UsageKind::BadNumber, 2),
    (&["tail", "-f", "-s", "1\0", "f"], UsageKind::BadNumber, 3),
    (&["tail", "-f", "--pid=1\0", "f"], UsageKind::BadNumber, 2),
    (&["tail", "--follow=name\0", "f"], UsageKind::BadFollow, 1),
    (&["split", "-l", "1\0"], UsageKind::BadNumber, 2),
    (&["split", "-b", "1\0"], UsageKind::BadNumber, 2),
    (&["split", "-n", "r/2\0"], UsageKind::BadNumber, 2),
    (&["split", "-a", "2\0"], UsageKind::BadNumber, 2),
    (&["split", "--hex-suffixes=1\0"], UsageKind::BadNumber, 1),
    (&["split", "-t", "\u{FFFD}\0"], UsageKind::BadSeparator, 2),
    (&["split", "-t", "\\0\0"], UsageKind::BadSeparator, 2),
    (&["tee", "--output-error=warn\0"], UsageKind::BadMode, 1),
];
