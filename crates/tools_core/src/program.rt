//! The whole program: which of both runs its words ask for.
ghost use Rattle.std.specs.Prelude.{◌≡◌, ◌≤◌, ◌&&◌, [], false, length, map};
ghost use Rattle.ports_core.specs.{Slot.streams, Source.{source_at, IsFresh}, Inputs.{AsksAtMost, largest_piece}};
ghost use Rattle.run_core.specs.{Input.has_dash, Reading.count_after};
ghost use Rattle.tools_core.specs.{Outcome.names_read, Program.ProgramEnds, Run.{of_inputs, visible_by, whole_run}};
ghost use Rattle.words_core.specs.Words.{asks_input};

use crate::follow::follow_asked;
use crate::run::{refuse_words, run_tool};
use ports_core::{Calling, Inputs, Outs};
use std::alloc::Global;
use watch_core::Watch;
use words_core::{Settings, read_words_as};

/// Runs what the words ask for, which are read once, as the program is called so: `tail` that follows files as `run_follow` does, in
/// as many looks as its words say, and all else as `run` does. By its own name `tail` follows standard input, too, where the watch has it.
/// Where files are followed no input is opened, and else no file is watched. It returns the status.
pub fn run_words<I: Inputs, W: Watch, O: Outs>(
    alloc: Global,
    calling: Calling,
    words: &[&str],
    inputs: &mut I,
    watch: &mut W,
    outs: &mut O,
) -> u8
    requires inputs { IsFresh (I.sources inputs.old) }
    requires unseen { W.seen watch.old ≡ [] }
    requires unwatched { W.watched watch.old ≡ [] }
    requires outputs { O.slots outs.old ≡ streams }
    ensures ends { ProgramEnds (visible_by I.visible W.visible O.visible) (whole_run calling words.now
        (of_inputs I.laid I.sources inputs.old inputs.new)
        (W.fed watch.old, W.shows watch.old, W.seen watch.new, W.watched watch.new) (O.slots outs.new) result) }
    ensures opened { length (I.sources inputs.new) ≤ count_after 1
        (names_read calling (map (λ word. word.now) words.now)) }
    ensures asked { AsksAtMost largest_piece (I.sources inputs.new) }
    ensures unopened { names_read calling (map (λ word. word.now) words.now) ≡ []
        → I.sources inputs.new ≡ I.sources inputs.old }
    ensures untouched { has_dash (names_read calling (map (λ word. word.now) words.now)) ≡ false
        → source_at (I.sources inputs.new) 0 ≡ source_at (I.sources inputs.old) 0 }
{
    match read_words_as(alloc, calling, words) {
        Ok(settings) => {
            let fed = is_fed(calling, &settings, watch);
            if settings.follows(calling, fed) {
                follow_asked(
                    alloc,
                    calling,
                    fed,
                    words,
                    &settings,
                    watch,
                    outs,
                    settings.looks(),
                )
            } else {
                run_tool(alloc, calling, &settings, inputs, outs)
            }
        }
        Err(fault) => refuse_words(alloc, calling, words, &fault, outs),
    }
}

/// Whether standard input is a file that can be watched, where that matters.
fn is_fed<W: Watch>(calling: Calling, settings: &Settings<'_>, watch: &W) -> bool
    ensures { result ≡ (asks_input calling settings.now && W.fed watch.now) }
{
    settings.asks_input(calling) && watch.has_input()
}
