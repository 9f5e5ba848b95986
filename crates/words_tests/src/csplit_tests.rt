//! What the words after `csplit` ask for: rows that no clause shows to be read, since there may be no memory for them.
use crate::asked::{Asked, check};
use crate::refused::{Refused, refuse, refuse_called};
use ports_core::{Base, Calling, Filling, Form, UsageKind};
use std::alloc::Global;
use std::process::Abort;
use words_core::{CsplitSettings, Settings};

/// What words are to ask of `csplit`.
#[derive(Clone, Copy)]
enum Wanted<'a> {
    /// What names have before their number, how it is written, and what they have after it.
    Names(&'a str, Form, &'a str),
    /// Whether files are kept, no sizes written, empty files left out, and lines at cuts left out.
    Made(bool, bool, bool, bool),
    /// The input's name, the words of the first operands, and how many operands were read.
    Operands(&'a str, &'a [&'a str], usize),
}

fn has(found: &CsplitSettings<'_>, wanted: Wanted<'_>) -> bool {
    match wanted {
        Wanted::Names(prefix, form, ending) => {
            has_ends(found, prefix, ending) && found.style.form == form
        }
        Wanted::Made(keep, quiet, elide, suppress) => {
            let is_told = found.style.keep == keep && found.style.quiet == quiet;
            is_told && found.style.elide == elide && found.style.suppress == suppress
        }
        Wanted::Operands(input, words, count) => {
            let is_spelled = found.input == input && has_words(found, words);
            is_spelled && found.operands().as_slice().len() == count
        }
    }
}

fn has_ends(found: &CsplitSettings<'_>, prefix: &str, ending: &str) -> bool {
    found.style.prefix.as_str() == prefix && found.style.ending.as_str() == ending
}

/// Whether the first operands have these words, empty ones where there are no more.
fn has_words(found: &CsplitSettings<'_>, words: &[&str]) -> bool {
    for (place, word) in words.iter().enumerate() {
        if found.word(place) != *word {
            return false;
        }
    }
    true
}

impl<'a> Asked for Wanted<'a> {
    fn is_met(&self, settings: &Settings<'_>) -> bool {
        match settings {
            Settings::Csplit(found) => has(found, *self),
            _ => false,
        }
    }
}

type NameRow<'a> = (&'a [&'a str], &'a str, u8);

#[test]
fn reads_what_names_are_made_of(rt: HostRuntime) {
    for row in NAMES {
        let wanted = Wanted::Names(row.1, decimal(row.2), "");
        check(&rt, rt.alloc(), row.0, &wanted);
    }
}

const NAMES: &[NameRow<'static>] = &[
    (&["csplit", "f", "3"], "xx", 2),
    (&["csplit", "-f", "p", "-n", "1", "f", "3"], "p", 1),
    (&["csplit", "-fp", "-n1", "f", "3"], "p", 1),
    (&["csplit", "--prefix=p", "--digits=1", "f", "3"], "p", 1),
    (
        &["csplit", "--prefix", "p", "--digits", "1", "f", "3"],
        "p",
        1,
    ),
    (&["csplit", "-f", "a", "f", "3", "-fb"], "b", 2),
    (&["csplit", "-n", "3", "f", "3", "-n", "0"], "xx", 1),
    (&["csplit", "-n255", "f", "3"], "xx", 255),
    (&["csplit", "-n007", "f", "3"], "xx", 7),
    (&["csplit", "--prefix=", "f", "3"], "", 2),
    (&["csplit", "-f", "-k", "f", "3"], "-k", 2),
    (&["csplit", "-ksfd/x", "f", "3"], "d/x", 2),
];

/// A number in decimal with at least this many digits.
fn decimal(digits: u8) -> Form {
    form((Base::Decimal, false, 0, Filling::BlanksBefore, digits))
}

/// A base, whether numbers are marked, a width, what fills it, and a precision.
type Described = (Base, bool, u8, Filling, u8);

fn form(written: Described) -> Form {
    let (base, is_marked, width, filling, precision) = written;
    Form {
        base,
        is_marked,
        width,
        filling,
        precision,
    }
}

type FormatRow<'a> = (&'a str, &'a str, Described, &'a str);

#[test]
fn reads_formats(rt: HostRuntime) {
    for row in FORMATS {
        let wanted = Wanted::Names(row.1, form(row.2), row.3);
        check(
            &rt,
            rt.alloc(),
            &["csplit", "-f", "p", "-b", row.0, "f", "3"],
            &wanted,
        );
    }
}

/// A format, and what names have before their number, how it is written, and what they have after it.
const FORMATS: &[FormatRow<'static>] = &[
    (
        "%d",
        "p",
        (Base::Decimal, false, 0, Filling::BlanksBefore, 1),
        "",
    ),
    (
        "%i",
        "p",
        (Base::Decimal, false, 0, Filling::BlanksBefore, 1),
        "",
    ),
    (
        "%u.txt",
        "p",
        (Base::Decimal, false, 0, Filling::BlanksBefore, 1),
        ".txt",
    ),
    (
        "100%%-%i%%%%",
        "p100%-",
        (Base::Decimal, false, 0, Filling::BlanksBefore, 1),
        "%%",
    ),
    (
        "%%%d",
        "p%",
        (Base::Decimal, false, 0, Filling::BlanksBefore, 1),
        "",
    ),
    (
        "\u{e9}%d\u{fc}",
        "p\u{e9}",
        (Base::Decimal, false, 0, Filling::BlanksBefore, 1),
        "\u{fc}",
    ),
    (
        "%\'d",
        "p",
        (Base::Decimal, false, 0, Filling::BlanksBefore, 1),
        "",
    ),
    (
        "%.d",
        "p",
        (Base::Decimal, false, 0, Filling::BlanksBefore, 0),
        "",
    ),
    (
        "%.3d",
        "p",
        (Base::Decimal, false, 0, Filling::BlanksBefore, 3),
        "",
    ),
    (
        "%.255d",
        "p",
        (Base::Decimal, false, 0, Filling::BlanksBefore, 255),
        "",
    ),
    (
        "%.0003d",
        "p",
        (Base::Decimal, false, 0, Filling::BlanksBefore, 3),
        "",
    ),
    (
        "%5d",
        "p",
        (Base::Decimal, false, 5, Filling::BlanksBefore, 1),
        "",
    ),
    (
        "%-5d|",
        "p",
        (Base::Decimal, false, 5, Filling::BlanksAfter, 1),
        "|",
    ),
    (
        "%-05d",
        "p",
        (Base::Decimal, false, 5, Filling::BlanksAfter, 1),
        "",
    ),
    (
        "%03d.txt",
        "p",
        (Base::Decimal, false, 3, Filling::Zeros, 1),
        ".txt",
    ),
    (
        "%0255d",
        "p",
        (Base::Decimal, false, 255, Filling::Zeros, 1),
        "",
    ),
    (
        "%05.3d",
        "p",
        (Base::Decimal, false, 5, Filling::BlanksBefore, 3),
        "",
    ),
    (
        "%o",
        "p",
        (Base::Octal, false, 0, Filling::BlanksBefore, 1),
        "",
    ),
    (
        "%#o",
        "p",
        (Base::Octal, true, 0, Filling::BlanksBefore, 1),
        "",
    ),
    ("%##00x", "p", (Base::Hex, true, 0, Filling::Zeros, 1), ""),
    (
        "%X",
        "p",
        (Base::Capitals, false, 0, Filling::BlanksBefore, 1),
        "",
    ),
    (
        "%#08Xd",
        "p",
        (Base::Capitals, true, 8, Filling::Zeros, 1),
        "d",
    ),
];

/// The last format decides, and the digits have no effect with one.
#[test]
fn a_format_has_its_own_digits(rt: HostRuntime) {
    for words in BESIDE {
        let zeros = form((Base::Decimal, false, 4, Filling::Zeros, 1));
        check(&rt, rt.alloc(), words, &Wanted::Names("xx", zeros, "~"));
    }
}

const BESIDE: &[&[&str]] = &[
    &["csplit", "-b", "%04d~", "-n", "7", "f", "3"],
    &["csplit", "-n", "7", "-b%04d~", "f", "3"],
    &["csplit", "-b", "%x", "f", "--suffix-format=%04d~", "3"],
    &["csplit", "--suffix", "%04d~", "f", "3", "-n9"],
];

fn made_so(rt: &impl Abort, alloc: Global, row: &MadeRow<'_>) {
    let (words, [keep, quiet, elide, suppress]) = *row;
    check(
        rt,
        alloc,
        words,
        &Wanted::Made(keep, quiet, elide, suppress),
    );
}

type MadeRow<'a> = (&'a [&'a str], [bool; 4]);

#[test]
fn reads_how_files_are_made(rt: HostRuntime) {
    for row in MADE {
        made_so(&rt, rt.alloc(), row);
    }
}

const MADE: &[MadeRow<'static>] = &[
    (&["csplit", "f", "3"], [false, false, false, false]),
    (&["csplit", "-k", "f", "3"], [true, false, false, false]),
    (&["csplit", "-s", "f", "3"], [false, true, false, false]),
    (&["csplit", "-q", "f", "3"], [false, true, false, false]),
    (&["csplit", "-z", "f", "3"], [false, false, true, false]),
    (
        &["csplit", "--keep-files", "f", "3"],
        [true, false, false, false],
    ),
    (
        &["csplit", "--quiet", "f", "3"],
        [false, true, false, false],
    ),
    (
        &["csplit", "--silent", "f", "3"],
        [false, true, false, false],
    ),
    (
        &["csplit", "--elide-empty-files", "f", "3"],
        [false, false, true, false],
    ),
    (
        &["csplit", "--suppress-matched", "f", "3"],
        [false, false, false, true],
    ),
    (&["csplit", "-kz", "f", "3"], [true, false, true, false]),
    (
        &["csplit", "-f", "p", "-k", "-k", "f", "3"],
        [true, false, false, false],
    ),
    (
        &["csplit", "f", "-s", "3", "--suppress-matched", "-kz"],
        [true, true, true, true],
    ),
    (&["csplit", "--", "-k", "3"], [false, false, false, false]),
];

type OperandRow<'a> = (&'a [&'a str], &'a str, &'a [&'a str], usize);

/// A repetition belongs to an operand.
#[test]
fn reads_operands(rt: HostRuntime) {
    for row in OPERANDS {
        check(
            &rt,
            rt.alloc(),
            row.0,
            &Wanted::Operands(row.1, row.2, row.3),
        );
    }
}

const OPERANDS: &[OperandRow<'static>] = &[
    (&["csplit", "f", "3"], "f", &["3", "", ""], 1),
    (&["csplit", "-", "/a/", "{*}"], "-", &["/a/", "{*}", ""], 1),
    (
        &["csplit", "-k", "-", "3", "-s", "3"],
        "-",
        &["3", "3", ""],
        2,
    ),
    (
        &["csplit", "f", "-n", "2", "%a%-1", "{2}", "-z", "9"],
        "f",
        &["%a%-1", "{2}", "9"],
        2,
    ),
    (
        &["csplit", "f", "1", "{3}", "/a\\/b/", "5"],
        "f",
        &["1", "{3}", "/a\\/b/"],
        3,
    ),
    (&["csplit", "--", "-k", "2"], "-k", &["2", "", ""], 1),
    (&["csplit", "-k", "--", "--", "2"], "--", &["2", "", ""], 1),
    (
        &["csplit", "f", "/-a/", "--", "2"],
        "f",
        &["/-a/", "2", ""],
        2,
    ),
];

#[test]
fn refuses_what_is_no_format(rt: HostRuntime) {
    for format in NO_FORMATS {
        let words: &[&str] = &["csplit", "-b", format, "f", "3"];
        refuse(&rt, rt.alloc(), &[(words, UsageKind::BadFormat, 2)]);
    }
}

const NO_FORMATS: &[&str] = &[
    "",
    "abc",
    "%",
    "a%",
    "%%",
    "%%%",
    "%s",
    "%c",
    "%e",
    "%n",
    "%D",
    "%d%d",
    "%d%",
    "%d%%%x",
    "%ld",
    "%hd",
    "%#d",
    "%#i",
    "%#u",
    "%'x",
    "%'o",
    "%'X",
    "%*d",
    "%.*d",
    "%256d",
    "%0256d",
    "%.256d",
    "%99999999999999999999d",
    "%.18446744073709551617d",
    "%+d",
    "% d",
    "%1$d",
    "%5-d",
    "%.-1d",
    "%..d",
    "%5",
    "%.",
    "%-",
    "%\u{e9}",
    "%\0d",
];

#[test]
fn refuses_options_of_csplit(rt: HostRuntime) {
    refuse(&rt, rt.alloc(), BAD_OPTIONS);
}

const BAD_OPTIONS: &[Refused<'static>] = &[
    (&["csplit", "-3", "f", "3"], UsageKind::UnknownOption, 1),
    (&["csplit", "f", "-3"], UsageKind::UnknownOption, 2),
    (&["csplit", "-b", "f", "3"], UsageKind::BadFormat, 2),
    (
        &["csplit", "-by%dn", "-b", "%s", "f"],
        UsageKind::BadFormat,
        3,
    ),
    (&["csplit", "f", "3", "-b"], UsageKind::MissingValue, 3),
    (&["csplit", "-kx", "f", "3"], UsageKind::UnknownOption, 1),
    (
        &["csplit", "--keeps", "f", "3"],
        UsageKind::UnknownOption,
        1,
    ),
    (
        &["csplit", "--suppress-matched=1", "f", "3"],
        UsageKind::UnexpectedValue,
        1,
    ),
    (&["csplit", "f", "3", "-f"], UsageKind::MissingValue, 3),
    (&["csplit", "f", "3", "-kn"], UsageKind::MissingValue, 3),
    (&["csplit", "-n", "x", "f", "3"], UsageKind::BadNumber, 2),
    (&["csplit", "-n", "-1", "f", "3"], UsageKind::BadNumber, 2),
    (&["csplit", "-n1k", "f", "3"], UsageKind::BadNumber, 1),
    (
        &["csplit", "-n", "256", "f", "3"],
        UsageKind::NumberTooLarge,
        2,
    ),
    // Faults of single words are told before those of the line as a whole.
    (&["csplit", "f", "-n", "x"], UsageKind::BadNumber, 3),
    (&["csplit", "-", "{2}", "-d"], UsageKind::UnknownOption, 3),
];

#[test]
fn refuses_operands(rt: HostRuntime) {
    refuse(&rt, rt.alloc(), BAD_OPERANDS);
    refuse_called(&rt, rt.alloc(), Calling::Cutters, OF_GNU_ALONE);
}

/// Patterns that GNU's spelling has, and POSIX's hasn't.
const OF_GNU_ALONE: &[Refused<'static>] = &[
    (&["csplit", "-", "//"], UsageKind::BadPattern(1, 0), 2),
    (&["csplit", "-", "/a\\+/"], UsageKind::BadPattern(3, 1), 2),
];

const LARGE: &str = "/\\(a\\{255\\}\\)\\{255\\}\\(a\\{255\\}\\)\\{255\\}/";

const BAD_OPERANDS: &[Refused<'static>] = &[
    (&["csplit"], UsageKind::MissingOperand, 0),
    (&["csplit", "f"], UsageKind::MissingOperand, 0),
    (&["csplit", "-k", "--", "f"], UsageKind::MissingOperand, 0),
    (&["csplit", "-", "/a"], UsageKind::BadOperand(2), 2),
    (&["csplit", "-", "/a/x"], UsageKind::BadOperand(3), 2),
    (&["csplit", "-", "0"], UsageKind::BadOperand(4), 2),
    (&["csplit", "-", "{2}"], UsageKind::BadOperand(5), 2),
    (&["csplit", "-", "1", "{2"], UsageKind::BadOperand(6), 3),
    (&["csplit", "-", "3", "2"], UsageKind::BadOperand(8), 3),
    (&["csplit", "-", "x"], UsageKind::BadOperand(10), 2),
    (&["csplit", "-", "--", "-1"], UsageKind::BadOperand(10), 3),
    (&["csplit", "-", ""], UsageKind::BadOperand(10), 2),
    (&["csplit", "-", "/[/"], UsageKind::BadPattern(7, 0), 2),
    (
        &["csplit", "-", "%a\\{3,2\\}%"],
        UsageKind::BadPattern(6, 1),
        2,
    ),
    (
        &["csplit", "-", "/a\\(b\\)\\1/"],
        UsageKind::BadPattern(2, 6),
        2,
    ),
    (&["csplit", "-", LARGE], UsageKind::PatternTooLarge, 2),
    // The place is that of the operand's own word, whatever stands between the operands.
    (
        &["csplit", "-k", "-", "3", "-n", "2", "2"],
        UsageKind::BadOperand(8),
        6,
    ),
    (
        &["csplit", "-f", "p", "-", "/a/", "-k", "{2}", "-s", "/[/"],
        UsageKind::BadPattern(7, 0),
        8,
    ),
    (
        &["csplit", "-", "1", "-k", "{2}", "{3}"],
        UsageKind::BadOperand(5),
        5,
    ),
    // Of several the first is told.
    (&["csplit", "-", "/[/", "x"], UsageKind::BadPattern(7, 0), 2),
    (&["csplit", "-", "x", "/[/"], UsageKind::BadOperand(10), 2),
    (&["csplit", "-", "5", "0", "4"], UsageKind::BadOperand(4), 3),
    (&["csplit", "{2}", "{3}"], UsageKind::BadOperand(5), 2),
];
