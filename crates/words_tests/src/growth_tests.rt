//! Words of which `tests/refusals` refuses each growth of memory in turn. Where one is refused, `words_are_read` fails, and
//! `words_are_read_or_are_refused` passes: that is told, and the same words read again have their settings.
use ports_core::{Calling, Fault};
use std::alloc::Global;
use std::test::Fail;
use words_core::read_words_as;

const WORDS: &[&[&str]] = &[
    &["head", "-qn", "1", "f", "g"],
    &["tail", "-F", "--looks=2", "f"],
    &["tail", "+3cf", "f"],
    &["split", "-t", ",", "-n", "r/3", "f", "p"],
    &["csplit", "-f", "p", "-", "/a*b/+1", "{2}", "7"],
    &["csplit", "-b", "%%a long text %#12x.txt", "-", "3"],
    &["tee", "-a", "s", "t"],
];

/// No growth is the test's own.
#[test]
fn nothing() {}

#[test]
fn words_are_read(rt: HostRuntime) -> Result<(), Fail> {
    for words in WORDS {
        reads(rt.alloc(), words)?;
    }
    Ok(())
}

#[test]
fn words_are_read_or_are_refused(rt: HostRuntime) -> Result<(), Fail> {
    for words in WORDS {
        if let Err(fault) = reads(rt.alloc(), words) {
            assert_eq!(rt; fault, Fault::Memory);
            reads(rt.alloc(), words)?;
        }
    }
    Ok(())
}

fn reads(alloc: Global, words: &[&str]) -> Result<(), Fault> {
    match read_words_as(alloc, Calling::OwnName, words) {
        Ok(_) => Ok(()),
        Err(fault) => Err(fault),
    }
}
