//! One whole run of `tail` that follows files (POSIX.1-2017, XCU tail, `-f`; names that are followed are GNU's).
ghost use Rattle.std.specs.Prelude.{◌≡◌, Bool, [], Ok, false};
ghost use Rattle.ports_core.specs.Slot.{streams};
ghost use Rattle.words_core.specs.Words.{HasOperands};
ghost use Rattle.tools_core.specs.{
  Following.{FollowingEnds, FollowingEndsAt, FollowsAs, method_of, pause_by, start_of},
  Run.{OfInputs, visible_by, whole_run},
};

use crate::run::refuse_words;
use follow_core::{Limits, Method, Start, follow_files};
use ports_core::{Calling, Fault, Outs, UsageKind};
use std::alloc::Global;
use watch_core::Watch;
use words_core::{
    EndsSettings, Followed, Settings, TailSettings, has_headers, is_plus, read_words,
};

/// What is wrong with words that follow nothing.
const NOT_FOLLOWED: Fault = Fault::Usage(UsageKind::BadFollow, 0);

/// How many milliseconds pass at most until a reader that is gone is seen to be.
const READER_PAUSE: u64 = 500;

/// Runs `tail` over the files that the words name, and follows them: `looks` looks, one directly after another, or fewer where
/// after one nothing more can come, or where the words name a process that is gone. It writes what each look finds, and says what
/// changed or went wrong on standard error. It returns the status: 0, or 1 where there was any fault. Words that follow nothing
/// are refused, and so are words that name standard input: where the program is called `cutters`, as here, it isn't followed. It
/// takes memory for what the words ask for, for the names and a buffer of 64 KiB, and for headers and messages.
pub fn run_follow<W: Watch, O: Outs>(
    alloc: Global,
    words: &[&str],
    watch: &mut W,
    outs: &mut O,
    looks: u64,
) -> u8
    requires unseen { W.seen watch.old ≡ [] }
    requires unwatched { W.watched watch.old ≡ [] }
    requires outputs { O.slots outs.old ≡ streams }
    ensures { (any : Bool) (inputs : OfInputs) → FollowingEnds (visible_by any W.visible O.visible)
        (whole_run Calling.Cutters words.now inputs (false, W.shows watch.old, W.seen watch.new, W.watched watch.new)
        (O.slots outs.new) result) looks }
{
    match read_words(alloc, words) {
        Ok(settings) => follow_asked(
            alloc,
            Calling::Cutters,
            false,
            words,
            &settings,
            watch,
            outs,
            looks,
        ),
        Err(fault) => refuse_words(alloc, Calling::Cutters, words, &fault, outs),
    }
}

/// Follows what the settings, which the words spell, ask `tail` to follow; words that follow nothing are refused. `fed` says whether
/// standard input is a file that can be watched.
pub(crate) fn follow_asked<W: Watch, O: Outs>(
    alloc: Global,
    calling: Calling,
    fed: bool,
    words: &[&str],
    settings: &Settings<'_>,
    watch: &mut W,
    outs: &mut O,
    looks: u64,
) -> u8
    requires unseen { W.seen watch.old ≡ [] }
    requires unwatched { W.watched watch.old ≡ [] }
    requires outputs { O.slots outs.old ≡ streams }
    requires operands { HasOperands settings.now }
    ensures { (any : Bool) (inputs : OfInputs) → FollowingEndsAt (visible_by any W.visible O.visible)
        (whole_run calling words.now inputs (fed, W.shows watch.old, W.seen watch.new, W.watched watch.new)
        (O.slots outs.new) result) looks (Ok settings.now) }
{
    match settings {
        Settings::Tail(tail) => match tail.followed_by(calling, fed) {
            Some(followed) => follow_tail(alloc, calling, tail, followed, looks, watch, outs),
            None => refuse_words(alloc, calling, words, &NOT_FOLLOWED, outs),
        },
        _ => refuse_words(alloc, calling, words, &NOT_FOLLOWED, outs),
    }
}

/// Follows the files that are asked for, as that is asked for.
fn follow_tail<W: Watch, O: Outs>(
    alloc: Global,
    calling: Calling,
    settings: &TailSettings<'_>,
    followed: Followed,
    looks: u64,
    watch: &mut W,
    outs: &mut O,
) -> u8
    requires unseen { W.seen watch.old ≡ [] }
    requires unwatched { W.watched watch.old ≡ [] }
    requires outputs { O.slots outs.old ≡ streams }
    ensures { (any : Bool) (inputs : OfInputs) → FollowsAs (visible_by any W.visible O.visible)
        (whole_run calling [] inputs (false, W.shows watch.old, W.seen watch.new, W.watched watch.new)
        (O.slots outs.new) result) looks settings.now followed }
{
    watch.wait_at_most(pause_by(calling, settings.pause));
    let limits = Limits {
        looks,
        process: settings.process,
    };
    follow_files(
        alloc,
        calling,
        &settings.ends.names,
        start_of(&settings.ends),
        method_of(followed),
        has_headers(&settings.ends),
        limits,
        watch,
        outs,
    )
}

/// How many milliseconds a look is waited for at most, where this many are asked for: before each one `tail` asks by its own name whether
/// its output is still read.
fn pause_by(calling: Calling, pause: u64) -> u64
    ensures { result ≡ pause_by calling pause }
{
    match calling {
        Calling::OwnName => pause.min(READER_PAUSE),
        Calling::Cutters => pause,
    }
}

/// The part of a file that the first look writes.
fn start_of(settings: &EndsSettings<'_>) -> Start
    ensures { result ≡ start_of settings.now }
{
    Start {
        unit: settings.unit,
        from_nth: is_plus(settings.count.sign),
        count: settings.count.amount,
        delim: settings.delim,
    }
}

/// How files are followed, as that is asked for.
fn method_of(followed: Followed) -> Method
    ensures { result ≡ method_of followed }
{
    match followed {
        Followed::Descriptor => Method::Descriptor,
        Followed::Name => Method::Name,
        Followed::PresentName => Method::PresentName,
        Followed::FirstFile => Method::FirstFile,
    }
}
