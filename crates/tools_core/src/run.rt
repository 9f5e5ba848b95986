//! One whole run: from words and inputs to outputs and a status.
ghost use Rattle.std.specs.Prelude.{◌≡◌, ◌≤◌, ℕ, Bool, List, [], false, length, map, IfOk};
ghost use denote.Ref.{Bor};
ghost use Rattle.ports_core.specs.{
  Slot.streams,
  Source.{source_at, IsFresh},
  Inputs.{AsksAtMost, largest_piece},
  Text.{line_of, refusal_of},
};
ghost use Rattle.run_core.specs.{Input.has_dash, Reading.count_after};
ghost use Rattle.tools_core.specs.{
  Outcome.{RefusesFor, RunEnds, names_read, refuser, speaker},
  Run.{OfWatch, of_inputs, visible_by, whole_run},
  Tasks.{by, names_of},
  inner.Asked.RunsAsked,
};
ghost use Rattle.words_core.specs.{Refusal.{detail_of, word_at}, Words.CanRun};

use crate::about::tell_about;
use crate::csplit::CsplitAdapter;
use crate::ends::{HeadAdapter, TailAdapter};
use crate::split::SplitAdapter;
use ports_core::{
    Calling, Fault, Inputs, Outs, Reason, Speaker, Tool, UsageKind, refusal_for, say, say_line,
};
use run_core::run_inputs;
use std::alloc::Global;
use tee_core::run_tee;
use words_core::{Settings, detail_of, find_tool, read_words};

/// Runs the tool that the words name; the first word is the tool's name. It reads the inputs that the words name,
/// writes what the tool makes of them, and reports on standard error what went wrong. If the words ask for help or the
/// version, it writes that text and reads no input. It returns the status: 0, or 1 if there was any fault. It takes
/// memory for what the words ask for, for a buffer of 64 KiB, and for what the tool's engine, headers and messages
/// need.
///
/// The program runs words in this way if it is called `cutters` and they ask to follow nothing. `run_words` gets to
/// know how it was called.
pub fn run<I: Inputs, O: Outs>(alloc: Global, words: &[&str], inputs: &mut I, outs: &mut O) -> u8
    requires inputs { IsFresh (I.sources inputs.old) }
    requires outputs { O.slots outs.old ≡ streams }
    ensures ends { (visible_watched : Bool) (watch : OfWatch) → RunEnds (visible_by I.visible visible_watched O.visible)
        (whole_run Calling.Cutters words.now (of_inputs I.laid I.sources inputs.old inputs.new) watch
        (O.slots outs.new) result) }
    ensures opened { length (I.sources inputs.new) ≤ count_after 1
        (names_read Calling.Cutters (map (λ word. word.now) words.now)) }
    ensures asked { AsksAtMost largest_piece (I.sources inputs.new) }
    ensures unopened { names_read Calling.Cutters (map (λ word. word.now) words.now) ≡ []
        → I.sources inputs.new ≡ I.sources inputs.old }
    ensures untouched { has_dash (names_read Calling.Cutters (map (λ word. word.now) words.now)) ≡ false
        → source_at (I.sources inputs.new) 0 ≡ source_at (I.sources inputs.old) 0 }
{
    match read_words(alloc, words) {
        Ok(settings) => run_tool(alloc, Calling::Cutters, &settings, inputs, outs),
        Err(fault) => refuse_words(alloc, Calling::Cutters, words, &fault, outs),
    }
}

/// Reports what is wrong with the words, by how the program was called, and returns the status.
pub(crate) fn refuse_words<O: Outs>(
    alloc: Global,
    calling: Calling,
    words: &[&str],
    fault: &Fault,
    outs: &mut O,
) -> u8
    requires { O.slots outs.old ≡ streams }
    ensures { RefusesFor calling O.visible (map (λ word. word.now) words.now) fault.now (O.slots outs.new) result }
{
    let speaker = refuser(calling, words);
    match fault {
        Fault::Usage(kind, place) => {
            let line = refusal(alloc, speaker, words, kind, *place);
            say_line(speaker, line, outs);
        }
        _ => say(alloc, speaker, Reason::Other, fault, "", outs),
    }
    1
}

/// The line that refuses words for a fault of this kind, in the word at this place.
///
/// # Errors
///
/// `Memory` if there is no room for it.
fn refusal(
    alloc: Global,
    speaker: Speaker,
    words: &[&str],
    kind: &UsageKind,
    place: usize,
) -> Result<Vec<u8>, Fault>
    ensures { IfOk result (λ text. text.items ≡ line_of speaker Reason.Other
        (refusal_of speaker kind.now (word_at (map (λ word. word.now) words.now) place)
        (detail_of speaker.calling (map (λ word. word.now) words.now) kind.now place))) }
{
    let detail = detail_of(alloc, speaker.calling, words, kind, place)?;
    refusal_for(alloc, speaker, kind, word_at(words, place), &detail)
}

/// Does what the settings ask for, over the inputs that they name, or writes the text that they ask for. `tail` takes
/// what each input has, and follows nothing.
pub(crate) fn run_tool<I: Inputs, O: Outs>(
    alloc: Global,
    calling: Calling,
    settings: &Settings<'_>,
    inputs: &mut I,
    outs: &mut O,
) -> u8
    requires inputs { IsFresh (I.sources inputs.old) }
    requires outputs { O.slots outs.old ≡ streams }
    requires can { CanRun settings.now }
    ensures ends { (any : Bool) (words : List (Bor (List ℕ))) (watch : OfWatch)
        → RunsAsked (visible_by I.visible any O.visible) (whole_run calling words
        (of_inputs I.laid I.sources inputs.old inputs.new) watch (O.slots outs.new) result) settings.now }
    ensures opened { length (I.sources inputs.new) ≤ count_after 1 (names_of settings.now) }
    ensures asked { AsksAtMost largest_piece (I.sources inputs.new) }
    ensures untouched { has_dash (names_of settings.now) ≡ false
        → source_at (I.sources inputs.new) 0 ≡ source_at (I.sources inputs.old) 0 }
{
    match settings {
        Settings::Head(settings) => run_inputs(
            alloc,
            &HeadAdapter { calling, settings },
            &settings.names,
            inputs,
            outs,
        ),
        Settings::Tail(settings) => {
            let ends = &settings.ends;
            run_inputs(
                alloc,
                &TailAdapter {
                    calling,
                    settings: ends,
                },
                &ends.names,
                inputs,
                outs,
            )
        }
        Settings::Split(settings) => run_inputs(
            alloc,
            &SplitAdapter { calling, settings },
            &[settings.input],
            inputs,
            outs,
        ),
        Settings::Csplit(asked) => run_inputs(
            alloc,
            &CsplitAdapter {
                calling,
                settings: asked,
                operands: asked.operands(),
            },
            &[asked.input],
            inputs,
            outs,
        ),
        Settings::Tee(settings) => run_tee(
            alloc,
            calling,
            &settings.names,
            settings.mode,
            settings.on_broken,
            inputs,
            outs,
        ),
        Settings::About(tool, topic) => tell_about(alloc, calling, *tool, *topic, outs),
    }
}

/// A tool, and how it was called.
pub(crate) fn by(calling: Calling, tool: Tool) -> Speaker
    ensures { result ≡ by calling tool }
{
    Speaker { calling, tool }
}

/// The tool that refuses words, and how it was called.
fn refuser(calling: Calling, words: &[&str]) -> Speaker
    ensures { result ≡ refuser calling (map (λ word. word.now) words.now) }
{
    by(calling, speaker(words))
}

/// The tool that refuses words: the tool that they name, or the program if they name no tool.
fn speaker(words: &[&str]) -> Tool
    ensures { result ≡ speaker (map (λ word. word.now) words.now) }
{
    match words {
        [name, ..] => find_tool(name).unwrap_or(Tool::Cutters),
        [] => Tool::Cutters,
    }
}

/// The word at this place, empty if there is none.
fn word_at<'a>(words: &[&'a str], place: usize) -> &'a str
    ensures { result.now ≡ word_at (map (λ word. word.now) words.now) place }
{
    words.get(place).copied().unwrap_or("")
}
