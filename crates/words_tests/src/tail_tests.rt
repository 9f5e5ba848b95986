//! What the words after `tail` ask for, where files are followed.
use crate::asked::{Asked, check, check_called};
use crate::refused::{Refused, refuse, refuse_called};
use ports_core::{Calling, UsageKind};
use std::alloc::Global;
use std::process::Abort;
use words_core::{Followed, MOST_LOOKS, Settings, TailSettings};

/// What words are to ask of `tail`.
#[derive(Clone, Copy)]
enum Wanted {
    /// What is followed, and in how many looks.
    Follows(Option<Followed>, u64),
    /// How many milliseconds it waits at most.
    Pause(u64),
    /// After the end of which process it ends.
    Process(Option<u32>),
}

fn has(found: &TailSettings<'_>, wanted: Wanted) -> bool {
    match wanted {
        Wanted::Follows(followed, looks) => found.followed == followed && found.looks == looks,
        Wanted::Pause(pause) => found.pause == pause,
        Wanted::Process(process) => found.process == process,
    }
}

impl Asked for Wanted {
    fn is_met(&self, settings: &Settings<'_>) -> bool {
        match settings {
            Settings::Tail(found) => has(found, *self),
            _ => false,
        }
    }
}

type Row<'a> = (&'a [&'a str], Option<Followed>, u64);

#[test]
fn reads_what_tail_follows(rt: HostRuntime) {
    for row in FOLLOWS {
        follows(&rt, rt.alloc(), row);
    }
}

fn follows(rt: &impl Abort, alloc: Global, row: &Row<'_>) {
    let (words, followed, looks) = *row;
    check(rt, alloc, words, &Wanted::Follows(followed, looks));
}

const FOLLOWS: &[Row<'static>] = &[
    (&["tail", "f"], None, MOST_LOOKS),
    (&["tail", "-f"], Some(Followed::Descriptor), MOST_LOOKS),
    (&["tail", "-f", "-"], Some(Followed::Descriptor), MOST_LOOKS),
    (&["tail", "-f", "f"], Some(Followed::Descriptor), MOST_LOOKS),
    (&["tail", "f", "-f"], Some(Followed::Descriptor), MOST_LOOKS),
    (
        &["tail", "-fn3", "f"],
        Some(Followed::Descriptor),
        MOST_LOOKS,
    ),
    (
        &["tail", "-zfc", "3", "f"],
        Some(Followed::Descriptor),
        MOST_LOOKS,
    ),
    (
        &["tail", "-3", "-f", "f"],
        Some(Followed::Descriptor),
        MOST_LOOKS,
    ),
    (
        &["tail", "--follow", "name"],
        Some(Followed::Descriptor),
        MOST_LOOKS,
    ),
    (
        &["tail", "--follow=descriptor", "f"],
        Some(Followed::Descriptor),
        MOST_LOOKS,
    ),
    (&["tail", "-F", "f"], Some(Followed::Name), MOST_LOOKS),
    (&["tail", "-F", "f", "f"], Some(Followed::Name), MOST_LOOKS),
    (
        &["tail", "--retry", "--follow=name", "f"],
        Some(Followed::Name),
        MOST_LOOKS,
    ),
    (
        &["tail", "--follow=name", "f", "--retry"],
        Some(Followed::Name),
        MOST_LOOKS,
    ),
    (&["tail", "-fF", "f"], Some(Followed::Name), MOST_LOOKS),
    (
        &["tail", "-f", "--follow=name", "--retry", "f"],
        Some(Followed::Name),
        MOST_LOOKS,
    ),
    (
        &["tail", "-f", "--looks=1", "f"],
        Some(Followed::Descriptor),
        1,
    ),
    (
        &["tail", "-f", "--looks", "200", "f"],
        Some(Followed::Descriptor),
        200,
    ),
    (
        &["tail", "--looks=9", "-f", "--looks=2", "f"],
        Some(Followed::Descriptor),
        2,
    ),
    (
        &["tail", "--looks=9223372036854775807", "-f", "f"],
        Some(Followed::Descriptor),
        MOST_LOOKS,
    ),
    (&["tail", "--looks=3", "f"], None, 3),
    (&["tail", "--", "-f"], None, MOST_LOOKS),
];

#[test]
fn reads_which_process_is_waited_for(rt: HostRuntime) {
    for row in PROCESSES {
        check(&rt, rt.alloc(), row.0, &Wanted::Process(row.1));
    }
}

const PROCESSES: &[(&[&str], Option<u32>)] = &[
    (&["tail", "-f", "f"], None),
    (&["tail", "-f", "--pid=1", "f"], Some(1)),
    (&["tail", "-f", "--pid", "0042", "f"], Some(42)),
    (
        &["tail", "--p=7", "--pid=2147483647", "-f", "f"],
        Some(2_147_483_647),
    ),
    (&["tail", "--pid=9", "f"], Some(9)),
];

#[test]
fn reads_how_long_tail_waits(rt: HostRuntime) {
    for row in WAITS {
        check(&rt, rt.alloc(), row.0, &Wanted::Pause(row.1));
    }
}

const WAITS: &[(&[&str], u64)] = &[
    (&["tail", "-f", "f"], 1000),
    (&["tail", "-f", "-s", "2", "f"], 2000),
    (&["tail", "-f", "-s", ".5", "f"], 500),
    (&["tail", "-fs1.", "f"], 1000),
    (&["tail", "-s", "0.1", "f"], 100),
    (&["tail", "-s0", "-f", "f"], 0),
    (&["tail", "-s", "0.000", "f"], 0),
    (&["tail", "-s", "0.0001", "f"], 1),
    (&["tail", "-s", "1.2345", "f"], 1235),
    (&["tail", "-s", "1.2340000000000000000000000", "f"], 1234),
    (&["tail", "-s", "00000000000000000000012", "f"], 12_000),
    (&["tail", "--sleep-interval=3", "f"], 3000),
    (&["tail", "--sleep-interval", ".25", "f"], 250),
    (&["tail", "--sl=7", "f"], 7000),
    (&["tail", "-s1", "-s", "9", "f"], 9000),
    (&["tail", "-s", "9223372036854775.807", "f"], MOST_LOOKS),
    (&["tail", "-s", "9223372036854775.8", "f"], MOST_LOOKS - 7),
    (&["tail", "-s", "99999999999999999999999", "f"], MOST_LOOKS),
    (&["tail", "--max-unchanged-stats=0", "f"], 1000),
    (&["tail", "--max=5", "-s2", "f"], 2000),
    (&["tail", "-f", "--max-unchanged-stats", "12", "f"], 1000),
];

/// Words, and what is followed if `tail` is called by its own name.
type OwnRow<'a> = (&'a [&'a str], Option<Followed>);

#[test]
fn follows_by_its_own_name_what_cutters_refuses(rt: HostRuntime) {
    for row in BY_OWN_NAME {
        follows_alone(&rt, rt.alloc(), row, 0);
    }
}

/// Checks that this is followed by `tail`'s own name, and that `cutters` refuses the words, of which it tells the one at this place.
fn follows_alone(rt: &impl Abort, alloc: Global, row: &OwnRow<'_>, place: usize) {
    let (words, followed) = *row;
    let wanted = Wanted::Follows(followed, MOST_LOOKS);
    check_called(rt, alloc, Calling::OwnName, words, &wanted);
    let refused = [(words, UsageKind::BadFollow, place)];
    refuse_called(rt, alloc, Calling::Cutters, &refused);
}

const BY_OWN_NAME: &[OwnRow<'static>] = &[
    (&["tail", "--follow=name", "f"], Some(Followed::PresentName)),
    (&["tail", "-f", "--retry", "f"], Some(Followed::FirstFile)),
    (&["tail", "-F", "-f", "f"], Some(Followed::FirstFile)),
    (&["tail", "--retry", "f"], None),
    (&["tail", "--retry"], None),
    (&["tail", "--retry", "-f"], Some(Followed::FirstFile)),
    (&["tail", "--retry", "-f", "-"], Some(Followed::FirstFile)),
    (
        &["tail", "-f", "--retry", "f", "-"],
        Some(Followed::FirstFile),
    ),
    (&["tail", "-f", "f", "-"], Some(Followed::Descriptor)),
    (&["tail", "-f", "-", "-"], Some(Followed::Descriptor)),
];

#[test]
fn takes_values_cut_short_by_its_own_name(rt: HostRuntime) {
    for row in CUT_SHORT {
        follows_alone(&rt, rt.alloc(), row, 1);
    }
}

const CUT_SHORT: &[OwnRow<'static>] = &[
    (&["tail", "--follow=n", "f"], Some(Followed::PresentName)),
    (
        &["tail", "--follow=nam", "--retry", "f"],
        Some(Followed::Name),
    ),
    (
        &["tail", "--fo=d", "--follow=descripto", "f"],
        Some(Followed::Descriptor),
    ),
];

#[test]
fn refuses_words_of_tail(rt: HostRuntime) {
    refuse(&rt, rt.alloc(), REFUSED);
}

const REFUSED: &[Refused<'static>] = &[
    (&["tail", "--follow=name"], UsageKind::BadFollow, 0),
    (&["tail", "-F"], UsageKind::BadFollow, 0),
    (&["tail", "-F", "-"], UsageKind::BadFollow, 0),
    (&["tail", "-F", "f", "-"], UsageKind::BadFollow, 0),
    (&["tail", "f", "--follow=names"], UsageKind::BadFollow, 2),
    (&["tail", "--follow=", "f"], UsageKind::BadFollow, 1),
    (&["tail", "--follow=ame", "f"], UsageKind::BadFollow, 1),
    (&["tail", "--retry=f"], UsageKind::UnexpectedValue, 1),
    (&["tail", "--looks=0", "-f", "f"], UsageKind::Zero, 1),
    (
        &["tail", "--looks", "x", "-f", "f"],
        UsageKind::BadNumber,
        2,
    ),
    (
        &["tail", "--looks=9223372036854775808", "f"],
        UsageKind::NumberTooLarge,
        1,
    ),
    (&["tail", "-f", "--looks"], UsageKind::MissingValue, 2),
    (&["tail", "-f=name", "f"], UsageKind::UnknownOption, 1),
    (&["head", "-f", "f"], UsageKind::UnknownOption, 1),
    (&["head", "--looks=1", "f"], UsageKind::UnknownOption, 1),
    (&["tail", "-f", "--pid=0", "f"], UsageKind::Zero, 2),
    (&["tail", "--pid=x", "f"], UsageKind::BadNumber, 1),
    (&["tail", "--pid=-1", "f"], UsageKind::BadNumber, 1),
    (
        &["tail", "--pid=2147483648", "f"],
        UsageKind::NumberTooLarge,
        1,
    ),
    (&["tail", "f", "--pid"], UsageKind::MissingValue, 2),
    (&["head", "--pid=1", "f"], UsageKind::UnknownOption, 1),
    (&["tail", "-s", ".", "f"], UsageKind::BadNumber, 2),
    (&["tail", "-s", "-1", "f"], UsageKind::BadNumber, 2),
    (&["tail", "-s", "+1", "f"], UsageKind::BadNumber, 2),
    (&["tail", "-s", "1e3", "f"], UsageKind::BadNumber, 2),
    (&["tail", "-s", "", "f"], UsageKind::BadNumber, 2),
    (&["tail", "-s", "1.2.3", "f"], UsageKind::BadNumber, 2),
    (&["tail", "-s", "1,5", "f"], UsageKind::BadNumber, 2),
    (&["tail", "-s", "1s", "f"], UsageKind::BadNumber, 2),
    (&["tail", "-s.x", "f"], UsageKind::BadNumber, 1),
    (&["tail", "-s"], UsageKind::MissingValue, 1),
    (&["tail", "--s=1", "f"], UsageKind::AmbiguousOption, 1),
    (&["tail", "--max=x", "f"], UsageKind::BadNumber, 1),
    (&["tail", "--max-unchanged-stats="], UsageKind::BadNumber, 1),
    (&["tail", "--max=-1"], UsageKind::BadNumber, 1),
    (
        &["tail", "--max-unchanged-stats=9223372036854775808"],
        UsageKind::NumberTooLarge,
        1,
    ),
    (
        &["tail", "--max-unchanged-stats"],
        UsageKind::MissingValue,
        1,
    ),
    (&["head", "-s", "1"], UsageKind::UnknownOption, 1),
];
