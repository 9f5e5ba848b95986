//! What the words after `tee` ask for.
use crate::asked::{Asked, check, check_called};
use crate::refused::{Refused, refuse, refuse_called};
use ports_core::{Calling, Mode, OnBroken, UsageKind};
use std::alloc::Global;
use std::process::Abort;
use words_core::{Settings, TeeSettings};

/// What words are to ask of `tee`.
#[derive(Clone, Copy)]
enum Wanted<'a> {
    /// How files are opened, and their names: two at the most.
    Files(Mode, &'a [&'a str]),
    /// What is done once an output is broken.
    OnBroken(OnBroken),
}

fn has(found: &TeeSettings<'_>, wanted: Wanted<'_>) -> bool {
    match wanted {
        Wanted::Files(mode, names) => found.mode == mode && has_names(found, names),
        Wanted::OnBroken(on_broken) => found.on_broken == on_broken,
    }
}

/// Whether the first files have these names, empty ones where there are no more.
fn has_names(found: &TeeSettings<'_>, names: &[&str]) -> bool {
    for (place, name) in names.iter().enumerate() {
        if name_at(found, place) != *name {
            return false;
        }
    }
    true
}

/// The name at this place, empty where there is none.
fn name_at<'a>(found: &TeeSettings<'a>, place: usize) -> &'a str {
    found.names.get(place).copied().unwrap_or("")
}

impl<'a> Asked for Wanted<'a> {
    fn is_met(&self, settings: &Settings<'_>) -> bool {
        match settings {
            Settings::Tee(found) => has(found, *self),
            _ => false,
        }
    }
}

type Row<'a> = (&'a [&'a str], Mode, &'a [&'a str]);

#[test]
fn reads_what_tee_writes_to(rt: HostRuntime) {
    for row in WRITES {
        writes_to(&rt, rt.alloc(), row);
    }
}

fn writes_to(rt: &impl Abort, alloc: Global, row: &Row<'_>) {
    let (words, mode, names) = *row;
    check(rt, alloc, words, &Wanted::Files(mode, names));
}

const WRITES: &[Row<'static>] = &[
    (&["tee"], Mode::Fresh, &["", "", ""]),
    (&["tee", "f"], Mode::Fresh, &["f", "", ""]),
    (&["tee", "-a", "f", "-"], Mode::Append, &["f", "-", ""]),
    (
        &["tee", "f", "g", "--append"],
        Mode::Append,
        &["f", "g", ""],
    ),
    (&["tee", "-aa", "-"], Mode::Append, &["-", "", ""]),
    (&["tee", "-a"], Mode::Append, &["", "", ""]),
    (&["tee", "--", "-a"], Mode::Fresh, &["-a", "", ""]),
    (&["tee", "f", "f"], Mode::Fresh, &["f", "f", ""]),
];

#[test]
fn reads_what_is_done_once_an_output_is_broken(rt: HostRuntime) {
    for row in BREAKS {
        check(&rt, rt.alloc(), row.0, &Wanted::OnBroken(row.1));
    }
}

const BREAKS: &[(&[&str], OnBroken)] = &[
    (&["tee", "-p", "f"], OnBroken::WarnNoPipe),
    (&["tee", "-pa", "f"], OnBroken::WarnNoPipe),
    (&["tee", "--output-error", "f"], OnBroken::WarnNoPipe),
    (&["tee", "--output-error", "exit"], OnBroken::WarnNoPipe),
    (&["tee", "--output-error=warn"], OnBroken::Warn),
    (&["tee", "--output-error=warn-nopipe"], OnBroken::WarnNoPipe),
    (&["tee", "--output-error=exit"], OnBroken::Exit),
    (
        &["tee", "f", "--output-error=exit-nopipe"],
        OnBroken::ExitNoPipe,
    ),
    (&["tee", "--out=exit"], OnBroken::Exit),
    (&["tee", "-p", "--output-error=exit", "f"], OnBroken::Exit),
    (&["tee", "-p", "--output-error=warn", "f"], OnBroken::Warn),
    (
        &["tee", "--output-error=exit", "-ap", "f"],
        OnBroken::WarnNoPipe,
    ),
    (
        &["tee", "--output-error=exit", "--output-error"],
        OnBroken::WarnNoPipe,
    ),
];

#[test]
fn takes_modes_cut_short_by_its_own_name(rt: HostRuntime) {
    for row in CUT_SHORT {
        takes_short(&rt, rt.alloc(), row);
    }
}

/// Checks that this is done by `tee`'s own name once an output is broken, and that `cutters` refuses the first word.
fn takes_short(rt: &impl Abort, alloc: Global, row: &(&[&str], OnBroken)) {
    let (words, on_broken) = *row;
    let wanted = Wanted::OnBroken(on_broken);
    check_called(rt, alloc, Calling::OwnName, words, &wanted);
    let refused = [(words, UsageKind::BadMode, 1)];
    refuse_called(rt, alloc, Calling::Cutters, &refused);
}

const CUT_SHORT: &[(&[&str], OnBroken)] = &[
    (&["tee", "--output-error=warn-", "f"], OnBroken::WarnNoPipe),
    (&["tee", "--output-error=exit-n"], OnBroken::ExitNoPipe),
    (
        &["tee", "--out=exit-nopip", "--output-error=warn"],
        OnBroken::Warn,
    ),
];

#[test]
fn cutters_goes_on_unless_an_option_says_otherwise(rt: HostRuntime) {
    leave_open(&rt, rt.alloc(), Calling::Cutters, OnBroken::Warn);
}

#[test]
fn own_name_ends_unless_an_option_says_otherwise(rt: HostRuntime) {
    leave_open(&rt, rt.alloc(), Calling::OwnName, OnBroken::Signal);
}

/// Checks that this is done once an output is broken where the words don't say it.
fn leave_open(rt: &impl Abort, alloc: Global, calling: Calling, on_broken: OnBroken) {
    for words in OPEN {
        check_called(rt, alloc, calling, words, &Wanted::OnBroken(on_broken));
    }
}

const OPEN: &[&[&str]] = &[
    &["tee"],
    &["tee", "f"],
    &["tee", "-a", "f"],
    &["tee", "--", "-p"],
    &["tee", "--", "--output-error=exit"],
];

#[test]
fn refuses_options_of_tee(rt: HostRuntime) {
    refuse(&rt, rt.alloc(), REFUSED);
}

const REFUSED: &[Refused<'static>] = &[
    (&["tee", "-i"], UsageKind::UnknownOption, 1),
    (&["tee", "f", "-3"], UsageKind::UnknownOption, 2),
    (&["tee", "-ai"], UsageKind::UnknownOption, 1),
    (&["tee", "-pexit"], UsageKind::UnknownOption, 1),
    (&["tee", "-p=exit"], UsageKind::UnknownOption, 1),
    (&["tee", "--output-error=later"], UsageKind::BadMode, 1),
    (&["tee", "f", "--output-error="], UsageKind::BadMode, 2),
    (&["tee", "--output-error=EXIT"], UsageKind::BadMode, 1),
    (&["tee", "--output-error=exi"], UsageKind::BadMode, 1),
    (&["tee", "--output-error=w"], UsageKind::BadMode, 1),
    (&["tee", "--output-error=nopipe"], UsageKind::BadMode, 1),
    (&["tee", "--output-error=exit "], UsageKind::BadMode, 1),
    (&["tee", "--append=f"], UsageKind::UnexpectedValue, 1),
];
