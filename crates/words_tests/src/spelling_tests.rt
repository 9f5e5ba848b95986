//! Words that are read by a table of the test's own, with a value of each kind.
use crate::refused::Refused;
use ports_core::{Calling, Fault, Tool, UsageKind};
use seg_core::count::{Count, Sign};
use seg_core::unit::Unit;
use std::alloc::Global;
use std::process::Abort;
use std::test::Fail;
use words_core::{Choice, Chosen, Kind, Operand, OptionRow, Spelled, Takes, ToolRow, read_given};

const ROWS: &[OptionRow] = &[
    OptionRow {
        names: &["-q", "--quiet"],
        takes: Takes::Nothing(Choice::Quiet),
        value: "",
        does: "",
    },
    OptionRow {
        names: &["-v"],
        takes: Takes::Nothing(Choice::Verbose),
        value: "",
        does: "",
    },
    OptionRow {
        names: &["-n"],
        takes: Takes::Value(Kind::Amount(Unit::Lines)),
        value: "",
        does: "",
    },
    OptionRow {
        names: &["-f", "--prefix"],
        takes: Takes::Value(Kind::Prefix),
        value: "",
        does: "",
    },
    OptionRow {
        names: &["-F", "--follow"],
        takes: Takes::Optional(Choice::Retry, Kind::Prefix),
        value: "",
        does: "",
    },
];

/// A tool that gives a first word of a hyphen and digits no meaning.
const TOOL: ToolRow = ToolRow {
    name: "tool",
    tool: Tool::Csplit,
    options: ROWS,
    number: None,
    operands: "",
    does: "",
};

fn read<'a>(alloc: Global, words: &[&'a str]) -> Result<Spelled<'a>, Fault> {
    read_given(alloc, Calling::Cutters, &TOOL, words)
}

#[test]
fn reads_clusters(rt: HostRuntime) -> Result<(), Fail> {
    let spelled = read(rt.alloc(), CLUSTERS)?;
    assert!(rt; spelled.options.as_slice() == OPTIONS);
    assert!(rt; spelled.operands.as_slice() == OPERANDS);
    Ok(())
}

const CLUSTERS: &[&str] = &["-qvn5", "-", "--quiet", "-vn", "7", "--", "-q"];

const FIVE: Count = Count {
    sign: Sign::Plain,
    amount: 5,
};

const SEVEN: Count = Count {
    sign: Sign::Plain,
    amount: 7,
};

const OPTIONS: &[Chosen<'static>] = &[
    Chosen {
        choice: Choice::Quiet,
        word: 1,
    },
    Chosen {
        choice: Choice::Verbose,
        word: 1,
    },
    Chosen {
        choice: Choice::Amount(Unit::Lines, FIVE),
        word: 1,
    },
    Chosen {
        choice: Choice::Quiet,
        word: 3,
    },
    Chosen {
        choice: Choice::Verbose,
        word: 4,
    },
    Chosen {
        choice: Choice::Amount(Unit::Lines, SEVEN),
        word: 4,
    },
];

const OPERANDS: &[Operand<'static>] = &[
    Operand { text: "-", word: 2 },
    Operand {
        text: "-q",
        word: 7,
    },
];

/// Checks that this is asked for, by an option in the first word.
fn gives_text(rt: &impl Abort, alloc: Global, words: &[&str], choice: Choice<'_>) {
    match read(alloc, words) {
        Ok(spelled) => match spelled.options.as_slice() {
            [option] => assert!(rt; option.choice == choice, "at {words:?}"),
            _ => assert!(rt; false, "at {words:?}"),
        },
        Err(fault) => assert!(rt; false, "{fault:?} at {words:?}"),
    }
}

type TextRow<'a> = (&'a [&'a str], Choice<'a>);

#[test]
fn reads_texts(rt: HostRuntime) {
    for row in TEXTS {
        gives_text(&rt, rt.alloc(), row.0, row.1);
    }
}

const TEXTS: &[TextRow<'static>] = &[
    (&["-fab"], Choice::Prefix("ab")),
    (&["-f", "ab"], Choice::Prefix("ab")),
    (&["-f", "-q"], Choice::Prefix("-q")),
    (&["-f\u{e9}"], Choice::Prefix("\u{e9}")),
    (&["--prefix=a=b"], Choice::Prefix("a=b")),
    (&["--prefix="], Choice::Prefix("")),
    (&["--prefix", "ab"], Choice::Prefix("ab")),
    (&["--follow", "name"], Choice::Retry),
    (&["--follow=name"], Choice::Prefix("name")),
];

#[test]
fn refuses_words(rt: HostRuntime) {
    for row in REFUSED {
        refuses(&rt, rt.alloc(), row);
    }
}

fn refuses(rt: &impl Abort, alloc: Global, row: &Refused<'_>) {
    let (words, kind, word) = *row;
    match read(alloc, words) {
        Ok(_) => assert!(rt; false, "at {words:?}"),
        Err(found) => assert_eq!(rt; found, Fault::Usage(kind, word), "at {words:?}"),
    }
}

const REFUSED: &[Refused<'static>] = &[
    (&["-v", "-qx"], UsageKind::UnknownOption, 2),
    (&["-v", "-q-"], UsageKind::UnknownOption, 2),
    (&["-v", "-q\u{e9}"], UsageKind::UnknownOption, 2),
    (&["-v", "-3"], UsageKind::UnknownOption, 2),
    (&["-v", "--\u{e9}"], UsageKind::UnknownOption, 2),
    (&["-v", "-qn"], UsageKind::MissingValue, 2),
    (&["-v", "-qf"], UsageKind::MissingValue, 2),
    (&["-v", "--quiet="], UsageKind::UnexpectedValue, 2),
    (&["-v", "--quiet=1"], UsageKind::UnexpectedValue, 2),
    (&["-3"], UsageKind::UnknownOption, 1),
];
