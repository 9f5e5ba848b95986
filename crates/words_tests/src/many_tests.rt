//! Lines of many words are read: no clause says for how many there is memory.
use ports_core::{Fault, UsageKind};
use std::alloc::Global;
use std::process::Abort;
use std::test::Fail;
use words_core::{Settings, read_words};

/// How often a word stands in a line.
const MANY: usize = 5_000;

/// A tool, a word that stands often after its name, and how many names or operands that gives, or the fault.
type Row<'a> = (&'a str, &'a str, Result<usize, Fault>);

const ROWS: &[Row<'static>] = &[
    ("head", "f", Ok(MANY)),
    ("tail", "f", Ok(MANY)),
    ("split", "f", Err(Fault::Usage(UsageKind::ExtraOperand, 3))),
    ("csplit", "1", Ok(MANY - 1)),
    ("tee", "f", Ok(MANY)),
    ("head", "-q", Ok(1)),
    ("tail", "-z", Ok(1)),
    ("split", "-e", Ok(2)),
    (
        "csplit",
        "-k",
        Err(Fault::Usage(UsageKind::MissingOperand, 0)),
    ),
    ("tee", "-a", Ok(0)),
];

#[test]
fn many_words_are_read(rt: HostRuntime) -> Result<(), Fail> {
    for row in ROWS {
        reads(&rt, rt.alloc(), row)?;
    }
    Ok(())
}

fn reads(rt: &impl Abort, alloc: Global, row: &Row<'_>) -> Result<(), Fail> {
    let (tool, word, wanted) = *row;
    let words = line(alloc, tool, word)?;
    let found = match read_words(alloc, &words) {
        Ok(settings) => Ok(count_of(&settings)),
        Err(fault) => Err(fault),
    };
    assert!(rt; found == wanted, "{tool} {word}");
    Ok(())
}

/// The tool's name, and then this word often.
fn line<'a>(alloc: Global, tool: &'a str, word: &'a str) -> Result<Vec<&'a str>, Fail> {
    let mut words = Vec::new(alloc);
    words.push(tool)?;
    for _ in 0..MANY {
        words.push(word)?;
    }
    Ok(words)
}

/// How many names these have, those of `csplit` how many operands.
fn count_of(settings: &Settings<'_>) -> usize {
    match settings {
        Settings::Head(asked) => asked.names.len(),
        Settings::Tail(asked) => asked.ends.names.len(),
        Settings::Split(_) => 2,
        Settings::Csplit(asked) => asked.operands().as_slice().len(),
        Settings::Tee(asked) => asked.names.len(),
        Settings::About(_, _) => 0,
    }
}
