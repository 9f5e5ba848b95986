//! Counts with a sign and a suffix.
use seg_core::count::{Count, CountFault, Sign, read_count};
use std::process::Abort;

/// Checks that a text is a count of this sign and amount.
fn reads(rt: &impl Abort, text: &[u8], sign: Sign, amount: u64) {
    assert!(rt;
        read_count(text) == Ok(Count { sign, amount }),
        "at {text:?}"
    );
}

/// Checks that a text is refused as a count.
fn refuses(rt: &impl Abort, text: &[u8], fault: CountFault) {
    assert!(rt; read_count(text) == Err(fault), "at {text:?}");
}

#[test]
fn reads_each_suffix(rt: HostRuntime) {
    for (text, amount) in SUFFIXES {
        reads(&rt, text.as_bytes(), Sign::Plain, *amount);
    }
}

const SUFFIXES: &[(&str, u64)] = &[
    ("3", 3),
    ("3b", 1536),
    ("3kB", 3000),
    ("3KB", 3000),
    ("3k", 3072),
    ("3K", 3072),
    ("3KiB", 3072),
    ("3MB", 3_000_000),
    ("3m", 3_145_728),
    ("3M", 3_145_728),
    ("3MiB", 3_145_728),
    ("3GB", 3_000_000_000),
    ("3G", 3_221_225_472),
    ("3GiB", 3_221_225_472),
    ("3TB", 3_000_000_000_000),
    ("3T", 3_298_534_883_328),
    ("3TiB", 3_298_534_883_328),
];

#[test]
fn reads_counts(rt: HostRuntime) {
    for (text, sign, amount) in COUNTS {
        reads(&rt, text.as_bytes(), *sign, *amount);
    }
}

const COUNTS: &[(&str, Sign, u64)] = &[
    ("8388607T", Sign::Plain, 9_223_370_937_343_148_032),
    (
        "9223372036854775807",
        Sign::Plain,
        9_223_372_036_854_775_807,
    ),
    ("00000000000000000000000012b", Sign::Plain, 6144),
    ("-2kB", Sign::Minus, 2000),
    ("+0", Sign::Plus, 0),
];

#[test]
fn refuses_other_texts(rt: HostRuntime) {
    for (text, fault) in REFUSED {
        refuses(&rt, text, *fault);
    }
}

const REFUSED: &[(&[u8], CountFault)] = &[
    (b"8388608T", CountFault::TooLarge),
    (b"9223372036854775808", CountFault::TooLarge),
    (b"18446744073709551616", CountFault::TooLarge),
    (&[b'9'; 65536], CountFault::TooLarge),
    (b"", CountFault::NoDigits),
    (b"-", CountFault::NoDigits),
    (b"+-1", CountFault::NoDigits),
    (b"k", CountFault::NoDigits),
    (b"5x", CountFault::Suffix),
    (b"5kb", CountFault::Suffix),
    (b"5 ", CountFault::Suffix),
    (b"99999999999999999999x", CountFault::Suffix),
];
