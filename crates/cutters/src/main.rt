//! `cutters`: the tools that cut files, in one program.
#![tactic(auto)]

ghost use Rattle.std.specs.Prelude.{◌≡◌, [], false, IfOk, map, string_bytes};
ghost use Rattle.ports_core.specs.{declared.fault.Fault.Fault, Slot.streams, Source.IsFresh};
ghost use Rattle.tools_core.specs.{Outcome.RefusesFor, Program.RanAs};
ghost use Rattle.watch_core.specs.DirWatchState.{no_turns};

use ports_core::{
    Calling, DirIn, DirOut, Fault, InputFiles, Reason, Speaker, Tool, say, write_whole,
};
use std::alloc::{AllocError, Global};
use std::fs::{self, File};
use std::os::fd::{AsRawFd, RawFd};
use std::process::ExitCode;
use tools_core::run_words;
use watch_core::DirWatch;
use words_core::{Args, ArgsFault, read_args};

/// The output for messages.
const STANDARD_ERROR: usize = 1;

/// The number that the system has for standard input.
const STANDARD_INPUT: RawFd = 0;

/// The highest number that it has for a standard stream.
const LAST_STANDARD: RawFd = 2;

/// Runs the tool that the program's words name, over standard input, standard output and standard error.
fn main(rt: HostRuntime) -> ExitCode {
    let alloc = rt.alloc();
    let places = [stand_in(rt), stand_in(rt), stand_in(rt)];
    let files = InputFiles::new(alloc);
    let mut outs = DirOut::new(rt, alloc, rt.stdout(), rt.stderr(), &files);
    let status = match read_args(&rt, alloc) {
        Ok(args) => {
            let mut inputs = DirIn::new(rt, alloc, rt.stdin(), &files);
            if takes(&places[0], STANDARD_INPUT) {
                inputs.standard_is_closed();
            }
            run_args(rt, alloc, &args, &mut inputs, &mut outs)
        }
        Err(ArgsFault::NotUtf8(word)) => refuse_word(alloc, word, &mut outs),
        Err(ArgsFault::Memory) => refuse(alloc, &mut outs),
    };
    ExitCode::from(status)
}

/// A folder in the place of a standard stream that is closed; `None` where none is. Such a stream would be the first file that is
/// opened; a folder can be neither read nor written, so the stream fails as it should.
fn stand_in(rt: HostRuntime) -> Option<File> {
    match fs::open(&rt, "/") {
        Ok(folder) => {
            if folder.as_raw_fd() > LAST_STANDARD {
                return None;
            }
            Some(folder)
        }
        Err(_) => None,
    }
}

/// Whether a folder stands in the place of this number.
fn takes(place: &Option<File>, number: RawFd) -> bool {
    match place {
        Some(folder) => folder.as_raw_fd() == number,
        None => false,
    }
}

/// Runs what the words ask for, over the real files that they name, and returns the status.
fn run_args(
    rt: HostRuntime,
    alloc: Global,
    args: &Args,
    inputs: &mut DirIn<'_, HostRuntime>,
    outs: &mut DirOut<'_, HostRuntime>,
) -> u8
    requires inputs { IsFresh inputs.old }
    requires outputs { outs.old ≡ streams }
    ensures { RanAs args.now.calling (map string_bytes args.now.words.items) inputs.old inputs.new outs.new result }
{
    match words_of(alloc, &args.words) {
        Ok(words) => {
            let mut watch = watch_for(rt, alloc, args.calling, &words);
            run_words(alloc, args.calling, &words, inputs, &mut watch, outs)
        }
        Err(AllocError) => refuse(alloc, outs),
    }
}

/// The watch of names that these words may ask to follow. Only a `tail` that is called by its own name follows standard input. So the
/// system is asked for that alone what standard input is.
fn watch_for(
    rt: HostRuntime,
    alloc: Global,
    calling: Calling,
    words: &[&str],
) -> DirWatch<HostRuntime>
    ensures { result ≡ no_turns result.fed }
{
    let mut watch = DirWatch::new(rt, alloc);
    match (calling, words.first()) {
        (Calling::OwnName, Some(name)) if *name == Tool::Tail.name() => watch.find_input(),
        _ => {}
    }
    watch
}

/// The words as texts. Room for all is asked for once: collecting them would ask for less where that is refused.
fn words_of<'a>(alloc: Global, args: &'a [String]) -> Result<Vec<&'a str>, AllocError>
    ensures { IfOk result (λ texts. map (λ text. text.now) texts.items ≡ map string_bytes args.now) }
{
    let mut texts = Vec::with_capacity(alloc, args.len())?;
    for arg in args {
        texts.push(arg.as_str())?;
    }
    Ok(texts)
}

/// Says that there is no memory for the words, and returns the status.
fn refuse(alloc: Global, outs: &mut DirOut<'_, HostRuntime>) -> u8
    requires { outs.old ≡ streams }
    ensures { RefusesFor Calling.Cutters false [] Fault.Memory outs.new result }
{
    let speaker = Speaker {
        calling: Calling::Cutters,
        tool: Tool::Cutters,
    };
    say(alloc, speaker, Reason::Other, &Fault::Memory, "", outs);
    1
}

/// Says which word isn't UTF-8, and returns the status.
fn refuse_word(alloc: Global, word: usize, outs: &mut DirOut<'_, HostRuntime>) -> u8
    requires { outs.old ≡ streams }
{
    match format!(in alloc; "cutters: word {word} is not UTF-8\n") {
        Ok(text) => {
            let _ = write_whole(outs, STANDARD_ERROR, text.as_bytes());
            1
        }
        Err(AllocError) => refuse(alloc, outs),
    }
}
