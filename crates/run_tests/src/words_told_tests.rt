//! Whole runs over memory whose words are refused, by tools that are called by their own names: what they say of the words.
use crate::left::inputs_of;
use mem_core::{MemOut, MemWatch};
use ports_core::{Calling, Fault};
use std::alloc::Global;
use std::process::Abort;
use std::test::Fail;
use tools_core::run_words;

#[test]
fn tells_words_in_words_by_its_own_name(rt: HostRuntime) -> Result<(), Fail> {
    for (words, said) in ROWS {
        refuses(&rt, rt.alloc(), words, said)?;
    }
    Ok(())
}

/// Words are refused with this message, and a line that says where help is.
fn refuses(rt: &impl Abort, alloc: Global, words: &[&str], said: &str) -> Result<(), Fault> {
    let mut inputs = inputs_of(alloc, &[], b"")?;
    let mut watch = MemWatch::new(alloc)?;
    let mut outs = MemOut::new(alloc)?;
    let status = run_words(
        alloc,
        Calling::OwnName,
        words,
        &mut inputs,
        &mut watch,
        &mut outs,
    );
    let tool = words.first().copied().unwrap_or("");
    let wanted = format!(in alloc; "{tool}: {said}\nTry '{tool} --help'.\n")?;
    assert!(rt;
        status == 1 && outs.bytes(1) == wanted.as_bytes(),
        "at {words:?}"
    );
    Ok(())
}

/// Words, and what a tool says of them.
const ROWS: &[(&[&str], &str)] = &[
    // Of several letters the first that is no option's.
    (&["head", "-q3"], "unknown option '-q3': '3'"),
    (&["head", "-qzqj3"], "unknown option '-qzqj3': 'j'"),
    (&["split", "-d3"], "unknown option '-d3': '3'"),
    (&["split", "-3d"], "unknown option '-3d'"),
    (&["head", "-5cc"], "unknown option '-5cc'"),
    (&["csplit", "-ka"], "unknown option '-ka': 'a'"),
    (&["head", "-q\u{e4}"], "unknown option '-q\u{e4}'"),
    (&["tee", "-i"], "unknown option '-i'"),
    (&["head", "--foo=3"], "unknown option '--foo=3'"),
    (&["head", "-n", "1", "--q3"], "unknown option '--q3'"),
    (&["tail", "--l=5"], "ambiguous option '--l=5'"),
    // A value in a word of its own was for the option before it.
    (&["head", "-n", "0.5M"], "invalid number '0.5M' for '-n'"),
    (&["head", "-qn", "-n"], "invalid number '-n' for '-qn'"),
    (
        &["head", "-n", "--", "-n", "x"],
        "invalid number '--' for '-n'",
    ),
    (&["head", "-n", "-n"], "invalid number '-n' for '-n'"),
    (&["head", "--line", "x"], "invalid number 'x' for '--line'"),
    (
        &["split", "-t", "-t", "-n", "0"],
        "invalid separator '-t' for '-t': one byte, or \\0",
    ),
    (&["split", "-b", "0"], "number is zero '0' for '-b'"),
    (&["split", "-a", "256"], "number too large '256' for '-a'"),
    (&["tail", "--pid", "+9"], "invalid number '+9' for '--pid'"),
    (
        &["csplit", "-b", "%d%d", "f", "2"],
        "invalid format '%d%d' for '-b': one conversion, such as %03d",
    ),
    (
        &["split", "--additional-suffix", "a/b"],
        "invalid suffix 'a/b' for '--additional-suffix': it has a /",
    ),
    // One in the same word stands there.
    (&["head", "-nx"], "invalid number '-nx'"),
    (&["head", "-n", "1", "-nx"], "invalid number '-nx'"),
    (&["head", "--lines=x"], "invalid number '--lines=x'"),
    (
        &["split", "-tab"],
        "invalid separator '-tab': one byte, or \\0",
    ),
    (
        &["tail", "-99999999999999999999"],
        "number too large '-99999999999999999999'",
    ),
    (
        &["tail", "--follow=x"],
        "invalid following '--follow=x': name or descriptor",
    ),
    (
        &["tail", "-F", "-"],
        "invalid following: standard input is followed only by -f, and only if it is a regular file",
    ),
    (
        &["tee", "--output-error=later"],
        "invalid mode '--output-error=later': warn, warn-nopipe, exit or exit-nopipe",
    ),
    // None was missing.
    (&["head", "-qn"], "missing value for '-qn'"),
    (&["head", "--quiet=1"], "unexpected value '--quiet=1'"),
    (
        &["split", "-l", "2", "-b", "3"],
        "more than one way to split",
    ),
    (&["split", "a", "b", "c"], "extra operand 'c'"),
    (&["csplit", "-n", "2", "f"], "missing operand"),
    // The rules of operands.
    (
        &["csplit", "f", "/a"],
        "invalid operand '/a': no closing delimiter",
    ),
    (
        &["csplit", "f", "/a/x"],
        "invalid operand '/a/x': offset is no number up to 9223372036854775807",
    ),
    (
        &["csplit", "f", "0"],
        "invalid operand '0': line number is zero",
    ),
    (
        &["csplit", "f", "{2}"],
        "invalid operand '{2}': nothing to repeat",
    ),
    (
        &["csplit", "f", "2", "{x}"],
        "invalid operand '{x}': repetition is neither {NUMBER}, up to 9223372036854775807, nor {*}",
    ),
    (
        &["csplit", "f", "5", "3"],
        "invalid operand '3': line number is smaller than the one before it",
    ),
    (
        &["csplit", "-k", "f", "x"],
        "invalid operand 'x': neither a pattern nor a line number up to 9223372036854775807",
    ),
    // The rules of patterns.
    (
        &["csplit", "f", "/\\(a\\)\\1/"],
        "invalid pattern '/\\(a\\)\\1/': back-reference at byte 5",
    ),
    (
        &["csplit", "f", "/a\\|b/"],
        "invalid pattern '/a\\|b/': unknown escape at byte 1",
    ),
    (
        &["csplit", "f", "/ab\\(/"],
        "invalid pattern '/ab\\(/': \\( is not closed at byte 2",
    ),
    (
        &["csplit", "f", "%\\)%"],
        "invalid pattern '%\\)%': \\) closes nothing at byte 0",
    ),
    (
        &["csplit", "f", "/\\+a/"],
        "invalid pattern '/\\+a/': invalid repetition at byte 0",
    ),
    (
        &["csplit", "f", "/x[a/"],
        "invalid pattern '/x[a/': invalid bracket expression at byte 1",
    ),
    (
        &["csplit", "f", "/[b-a]/"],
        "invalid pattern '/[b-a]/': invalid range at byte 2",
    ),
    (
        &["csplit", "f", "/[[:no:]]/"],
        "invalid pattern '/[[:no:]]/': unknown class at byte 1",
    ),
];
