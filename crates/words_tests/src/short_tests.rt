//! Long names that are cut short, and first words of a hyphen or a `+`, digits and letters: they ask what other words ask.
use crate::refused::{CALLINGS, Refused, refuse, refuse_called};
use ports_core::{Calling, UsageKind};
use std::alloc::Global;
use std::process::Abort;
use words_core::{Chosen, Operand, Spelled, all_tools, find_row, read_given};

/// Words after a tool's name, and others of the same meaning.
type Same<'a> = (&'a str, &'a [&'a str], &'a [&'a str]);

#[test]
fn short_names_ask_the_same(rt: HostRuntime) {
    for calling in CALLINGS {
        same(&rt, rt.alloc(), *calling, SHORT);
    }
}

const SHORT: &[Same<'static>] = &[
    ("head", &["--line=3", "f"], &["--lines=3", "f"]),
    ("head", &["--l", "3", "f"], &["-n", "3", "f"]),
    ("head", &["--by=3"], &["-c3"]),
    ("head", &["--quie", "--sil", "--q", "--s"], &["-qqqq"]),
    ("head", &["--verb", "--z"], &["-vz"]),
    ("head", &["--ze", "f", "--verb"], &["-z", "f", "-v"]),
    ("tail", &["--foll", "f"], &["-f", "f"]),
    (
        "tail",
        &["--fo=name", "--ret", "f"],
        &["--follow=name", "--retry", "f"],
    ),
    (
        "tail",
        &["--loo=3", "-f", "f"],
        &["--looks", "3", "-f", "f"],
    ),
    ("split", &["--line-b=9"], &["-C9"]),
    ("split", &["--lines=9"], &["-l9"]),
    ("split", &["--numb", "r/3"], &["-n", "r/3"]),
    ("split", &["--numeric"], &["-d"]),
    ("split", &["--hex"], &["-x"]),
    ("split", &["--e", "--sep", "a"], &["-e", "-ta"]),
    (
        "split",
        &["--su=3", "--ad=.t"],
        &["-a3", "--additional-suffix=.t"],
    ),
    (
        "csplit",
        &["f", "1", "--pre=p", "--dig", "3"],
        &["f", "1", "-f", "p", "-n3"],
    ),
    (
        "csplit",
        &["f", "1", "--k", "--si", "--e", "--sup"],
        &["f", "1", "-ksz", "--suppress-matched"],
    ),
    ("csplit", &["--suf=%x", "f", "1"], &["-b", "%x", "f", "1"]),
    ("tee", &["--app", "f"], &["-a", "f"]),
    ("tee", &["--", "--app"], &["--", "--app"]),
];

#[test]
fn numbers_with_letters_ask_the_same(rt: HostRuntime) {
    for calling in CALLINGS {
        same(&rt, rt.alloc(), *calling, LETTERED);
    }
}

const LETTERED: &[Same<'static>] = &[
    ("head", &["-5c", "f"], &["-c", "5", "f"]),
    ("head", &["-5l"], &["-n5"]),
    ("head", &["-2k"], &["-c", "2048"]),
    ("head", &["-3b"], &["-c", "1536"]),
    ("head", &["-2m"], &["-c", "2097152"]),
    ("head", &["-5cq"], &["-c5", "-q"]),
    ("head", &["-5qc"], &["-c5", "-q"]),
    ("head", &["-5q"], &["-n5", "-q"]),
    ("head", &["-5vzqk", "f", "g"], &["-c5120", "-vzq", "f", "g"]),
    ("head", &["-0c"], &["-c0"]),
    ("head", &["-5c", "-n", "3"], &["-c5", "-n3"]),
    ("head", &["-8796093022207m"], &["-c", "9223372036853727232"]),
    ("tail", &["-5f", "f"], &["-n5", "-f", "f"]),
    ("tail", &["-5cf", "f"], &["-c5", "-f", "f"]),
    ("tail", &["-5bf", "f"], &["-c2560", "-f", "f"]),
    ("tail", &["-5lf", "f"], &["-n5", "-f", "f"]),
    ("tail", &["-5c"], &["-c5"]),
    ("tail", &["-5b"], &["-c2560"]),
    ("tail", &["-5l"], &["-n5"]),
    ("tail", &["-b"], &["-c5120"]),
    ("tail", &["-bf", "f"], &["-c5120", "-f", "f"]),
    ("tail", &["-l"], &["-n10"]),
    ("tail", &["-lf", "f"], &["-n10", "-f", "f"]),
    ("tail", &["-f", "f"], &["--follow", "f"]),
    ("tail", &["-c", "5"], &["--bytes=5"]),
];

#[test]
fn starts_ask_the_same_by_the_own_name(rt: HostRuntime) {
    same(&rt, rt.alloc(), Calling::OwnName, STARTS);
}

const STARTS: &[Same<'static>] = &[
    ("tail", &["+5"], &["-n", "+5"]),
    ("tail", &["+05", "f", "g"], &["-n", "+5", "f", "g"]),
    ("tail", &["+0"], &["-n", "+0"]),
    ("tail", &["+5c"], &["-c", "+5"]),
    ("tail", &["+5b"], &["-c", "+5b"]),
    ("tail", &["+5b", "f"], &["-c", "+2560", "f"]),
    ("tail", &["+5l"], &["-n", "+5"]),
    ("tail", &["+c"], &["-c", "+10"]),
    ("tail", &["+b"], &["-c", "+5120"]),
    ("tail", &["+l"], &["-n", "+10"]),
    ("tail", &["+3f", "f"], &["-n", "+3", "-f", "f"]),
    ("tail", &["+10cf", "f"], &["-c", "+10", "-f", "f"]),
    ("tail", &["+2bf", "f"], &["-c", "+1024", "-f", "f"]),
    ("tail", &["+2lf", "f"], &["-n", "+2", "-f", "f"]),
    ("tail", &["+cf", "f"], &["-c", "+10", "-f", "f"]),
    ("tail", &["+bf", "f"], &["-c", "+5120", "-f", "f"]),
    ("tail", &["+lf", "f"], &["-n", "+10", "-f", "f"]),
    ("tail", &["+5", "-n", "3"], &["-n", "+5", "-n", "3"]),
    ("tail", &["+5", "+6"], &["-n", "+5", "--", "+6"]),
    (
        "tail",
        &["+9223372036854775807"],
        &["-n", "+9223372036854775807"],
    ),
    (
        "tail",
        &["+18014398509481983b"],
        &["-c", "+9223372036854775296"],
    ),
];

#[test]
fn starts_are_names_of_cutters(rt: HostRuntime) {
    for row in STARTS {
        is_name(&rt, rt.alloc(), Calling::Cutters, row.0, row.1);
    }
}

#[test]
fn other_words_of_a_plus_are_names(rt: HostRuntime) {
    for calling in CALLINGS {
        are_names(&rt, rt.alloc(), *calling);
    }
}

fn are_names(rt: &impl Abort, alloc: Global, calling: Calling) {
    for row in NAMES {
        is_name(rt, alloc, calling, row.0, row.1);
    }
}

const NAMES: &[(&str, &[&str])] = &[
    ("tail", &["+"]),
    ("tail", &["+f"]),
    ("tail", &["+x"]),
    ("tail", &["+k"]),
    ("tail", &["+5x"]),
    ("tail", &["+5k"]),
    ("tail", &["+5q"]),
    ("tail", &["+5F"]),
    ("tail", &["+5fc"]),
    ("tail", &["+5ff"]),
    ("tail", &["+5bc"]),
    ("tail", &["+cb"]),
    ("tail", &["+-5"]),
    ("tail", &["++5"]),
    ("tail", &["+5 "]),
    ("tail", &["+ 5"]),
    ("tail", &["./+2"]),
    ("tail", &["2+"]),
    ("tail", &["f", "+5"]),
    ("tail", &["", "+5"]),
    ("tail", &["-", "+5"]),
    ("head", &["+5"]),
    ("head", &["+5c"]),
    ("head", &["+c"]),
    ("split", &["+5"]),
    ("split", &["+5b"]),
    ("csplit", &["+5", "+6"]),
    ("tee", &["+5"]),
];

/// Checks that the first of these words is the first operand, and no option.
fn is_name(rt: &impl Abort, alloc: Global, calling: Calling, name: &str, words: &[&str]) {
    match given(alloc, calling, name, words) {
        Some(given) => assert!(rt; begins_with(&given, words), "{calling:?} at {words:?}"),
        None => assert!(rt; false, "refused: {words:?}"),
    }
}

fn begins_with(given: &Spelled<'_>, words: &[&str]) -> bool {
    match (given.operands.as_slice(), words) {
        ([operand, ..], [word, ..]) => operand.text == *word && operand.word == 1,
        _ => false,
    }
}

#[test]
fn starts_in_another_place_are_names(rt: HostRuntime) {
    same(&rt, rt.alloc(), Calling::OwnName, LATER);
}

const LATER: &[Same<'static>] = &[
    ("tail", &["-q", "+5"], &["-q", "--", "+5"]),
    ("tail", &["-5", "+5"], &["-n5", "--", "+5"]),
    ("tail", &["-n", "+5"], &["--lines=+5"]),
    ("tail", &["-f", "+5"], &["--follow", "--", "+5"]),
];

#[test]
fn refuses_starts_that_are_too_large(rt: HostRuntime) {
    refuse_called(&rt, rt.alloc(), Calling::OwnName, LARGE);
}

const LARGE: &[Refused<'static>] = &[
    (
        &["tail", "+9223372036854775808"],
        UsageKind::NumberTooLarge,
        1,
    ),
    (
        &["tail", "+99999999999999999999cf", "f"],
        UsageKind::NumberTooLarge,
        1,
    ),
    (
        &["tail", "+18014398509481984b"],
        UsageKind::NumberTooLarge,
        1,
    ),
    (&["tail", "+f", "-x"], UsageKind::UnknownOption, 2),
];

/// Checks that both lists of words of each row give the same options and operands.
fn same(rt: &impl Abort, alloc: Global, calling: Calling, rows: &[Same<'_>]) {
    for row in rows {
        same_row(rt, alloc, calling, row);
    }
}

fn same_row(rt: &impl Abort, alloc: Global, calling: Calling, row: &Same<'_>) {
    let (name, words, others) = *row;
    let asked = given(alloc, calling, name, words);
    match (asked, given(alloc, calling, name, others)) {
        (Some(one), Some(other)) => {
            assert!(rt; are_alike(&one, &other), "{calling:?} at {words:?}")
        }
        _ => assert!(rt; false, "refused: {words:?}"),
    }
}

fn given<'a>(
    alloc: Global,
    calling: Calling,
    name: &str,
    words: &[&'a str],
) -> Option<Spelled<'a>> {
    match find_row(all_tools(calling), name) {
        Some(tool) => read_given(alloc, calling, tool, words).ok(),
        None => None,
    }
}

/// Whether both have the same options with the same values, in any words, and the same operands.
fn are_alike(one: &Spelled<'_>, other: &Spelled<'_>) -> bool {
    have_options(one.options.as_slice(), other.options.as_slice())
        && have_operands(one.operands.as_slice(), other.operands.as_slice())
}

fn have_options(ones: &[Chosen<'_>], others: &[Chosen<'_>]) -> bool {
    if ones.len() != others.len() {
        return false;
    }
    for at in 0..ones.len() {
        if ones[at].choice != others[at].choice {
            return false;
        }
    }
    true
}

fn have_operands(ones: &[Operand<'_>], others: &[Operand<'_>]) -> bool {
    if ones.len() != others.len() {
        return false;
    }
    for at in 0..ones.len() {
        if ones[at].text != others[at].text {
            return false;
        }
    }
    true
}

#[test]
fn refuses_what_is_cut_too_short(rt: HostRuntime) {
    refuse(&rt, rt.alloc(), REFUSED);
}

const REFUSED: &[Refused<'static>] = &[
    (&["split", "--s=3"], UsageKind::AmbiguousOption, 1),
    (&["split", "--nu", "r/3"], UsageKind::AmbiguousOption, 1),
    (&["split", "--li=3"], UsageKind::AmbiguousOption, 1),
    (&["csplit", "f", "1", "--s"], UsageKind::AmbiguousOption, 3),
    (&["csplit", "f", "1", "--su"], UsageKind::AmbiguousOption, 3),
    (&["head", "--=3"], UsageKind::AmbiguousOption, 1),
    (&["head", "--x"], UsageKind::UnknownOption, 1),
    (&["head", "--linesx=3"], UsageKind::UnknownOption, 1),
    (&["head", "--Lines=3"], UsageKind::UnknownOption, 1),
    (&["head", "--quie=3"], UsageKind::UnexpectedValue, 1),
    (&["head", "f", "--line"], UsageKind::MissingValue, 2),
    (&["head", "--lin=x"], UsageKind::BadNumber, 1),
    (&["head", "-5cb"], UsageKind::UnknownOption, 1),
    (&["head", "-5kl"], UsageKind::UnknownOption, 1),
    (&["head", "-5x"], UsageKind::UnknownOption, 1),
    (&["head", "-5cc"], UsageKind::UnknownOption, 1),
    (&["head", "-5n"], UsageKind::UnknownOption, 1),
    (&["head", "-5f"], UsageKind::UnknownOption, 1),
    (&["head", "-b"], UsageKind::UnknownOption, 1),
    (&["head", "f", "-5c"], UsageKind::UnknownOption, 2),
    (&["head", "-q", "-5c"], UsageKind::UnknownOption, 2),
    (
        &["head", "-99999999999999999999c"],
        UsageKind::NumberTooLarge,
        1,
    ),
    (
        &["head", "-18014398509481984b"],
        UsageKind::NumberTooLarge,
        1,
    ),
    (&["head", "-8796093022208m"], UsageKind::NumberTooLarge, 1),
    (&["tail", "-5fc", "f"], UsageKind::UnknownOption, 1),
    (&["tail", "-5ff", "f"], UsageKind::UnknownOption, 1),
    (&["tail", "-5bc"], UsageKind::UnknownOption, 1),
    (&["tail", "-5q"], UsageKind::UnknownOption, 1),
    (&["tail", "-5k"], UsageKind::UnknownOption, 1),
    (&["tail", "-5F", "f"], UsageKind::UnknownOption, 1),
    (&["tail", "-cf"], UsageKind::BadNumber, 1),
    (
        &["tail", "-99999999999999999999c"],
        UsageKind::NumberTooLarge,
        1,
    ),
    (&["split", "-5l"], UsageKind::UnknownOption, 1),
    (&["split", "-5k"], UsageKind::UnknownOption, 1),
];
