//! The words of the command line, from the tool's name on (POSIX.1-2017, XBD 12.2).
ghost use Rattle.std.specs.Prelude.{◌≡◌, map, IfOk, IfErr};
ghost use Rattle.words_core.specs.{
  Given.option_seen,
  Spelling.IsRefused,
  Words.{CanRun, HasBadOperands, HasOperands, asks_input, follows, looks, program_asked, settings_for, settings_of},
  Words.{tool_named, topic_in, topic_named, work_for},
};

use crate::choice::Choice;
use crate::csplit_words::settle_csplit;
use crate::ends_words::settle_ends;
use crate::settings::{Settings, Topic};
use crate::spelled::{Chosen, Spelled};
use crate::spelling::read_given;
use crate::split_words::settle_split;
use crate::table::{Takes, all_tools, find_option, find_row, program_options};
use crate::tail_words::{has_dash, settle_tail};
use crate::tee_words::settle_tee;
use crate::value::MOST_LOOKS;
use ports_core::{Calling, Fault, Tool, UsageKind};
use std::alloc::Global;

/// Reads what the words ask for if the program is called `cutters`. The first word is the tool's name.
///
/// # Errors
///
/// `Usage`: what is wrong, and with which word. The faults of single words come first, from left to right, then those
/// of the words together, and then those of `csplit`'s operands, in their order. `Memory` if there is no room for what
/// they spell.
pub fn read_words<'a>(alloc: Global, words: &[&'a str]) -> Result<Settings<'a>, Fault>
    ensures ok { IfOk result (λ settings.
        settings_of Calling.Cutters (map (λ word. word.now) words.now) ≡ Ok settings) }
    ensures err { IfErr result (IsRefused HasBadOperands
        (settings_of Calling.Cutters (map (λ word. word.now) words.now))) }
    ensures can { IfOk result CanRun }
    ensures operands { IfOk result HasOperands }
{
    read_words_as(alloc, Calling::Cutters, words)
}

/// Reads what the words ask for as `read_words` does, if the program is called in this way.
///
/// # Errors
///
/// Those of `read_words`.
pub fn read_words_as<'a>(
    alloc: Global,
    calling: Calling,
    words: &[&'a str],
) -> Result<Settings<'a>, Fault>
    ensures ok { IfOk result (λ settings. settings_of calling (map (λ word. word.now) words.now) ≡ Ok settings) }
    ensures err { IfErr result (IsRefused HasBadOperands (settings_of calling (map (λ word. word.now) words.now))) }
    ensures can { IfOk result CanRun }
    ensures operands { IfOk result HasOperands }
{
    let [name, words @ ..] = words else {
        return Err(Fault::Usage(UsageKind::MissingTool, 0));
    };
    let Some(row) = find_row(all_tools(calling), name) else {
        return settle_program(name);
    };
    let spelled = read_given(alloc, calling, row, words)?;
    settle(alloc, calling, row.tool, &spelled)
}

impl Settings<'_> {
    /// Whether inputs are followed, where `fed` says whether standard input is a file that can be watched; or words are refused, which
    /// ask to follow several.
    pub fn follows(&self, calling: Calling, fed: bool) -> bool
        ensures { result ≡ follows calling fed self.now }
    {
        match self {
            Settings::Tail(settings) => {
                let is_several = settings.ends.names.len() > 1;
                let can_follow = is_several || settings.followed_by(calling, fed).is_some();
                settings.followed.is_some() && can_follow
            }
            _ => false,
        }
    }

    /// Whether it matters if standard input is a file that can be watched.
    pub fn asks_input(&self, calling: Calling) -> bool
        ensures { result ≡ asks_input calling self.now }
    {
        match (calling, self) {
            (Calling::OwnName, Settings::Tail(settings)) => {
                settings.followed.is_some() && has_dash(&settings.ends.names)
            }
            _ => false,
        }
    }

    /// How often inputs are looked at if they are followed, at most 2^63-1 times.
    pub fn looks(&self) -> u64
        ensures { result ≡ looks self.now }
    {
        match self {
            Settings::Tail(settings) => settings.looks,
            _ => MOST_LOOKS,
        }
    }
}

/// The tool of this name.
pub fn find_tool(name: &str) -> Option<Tool>
    ensures { result ≡ tool_named name.now }
{
    match find_row(all_tools(Calling::Cutters), name) {
        Some(row) => Some(row.tool),
        None => None,
    }
}

/// What a word asks for that stands in the place of a tool's name, and is no tool's name.
fn settle_program<'a>(name: &str) -> Result<Settings<'a>, Fault>
    ensures { result ≡ program_asked (topic_named name.now) }
{
    match topic_named(name) {
        Some(topic) => Ok(Settings::About(Tool::Cutters, topic)),
        None => Err(Fault::Usage(UsageKind::UnknownTool, 0)),
    }
}

fn topic_named(name: &str) -> Option<Topic>
    ensures { result ≡ topic_named name.now }
{
    match find_option(program_options(), name.as_bytes())? {
        Takes::Last(topic) => Some(topic),
        _ => None,
    }
}

/// The text that options ask for: that of the first option that asks for a text.
fn topic_in(options: &[Chosen<'_>]) -> Option<Topic>
    ensures { result ≡ topic_in (map option_seen options.now) }
{
    for option in options {
        if let Choice::About(topic) = option.choice {
            return Some(topic);
        }
    }
    None
}

/// What the words after a tool's name ask of it: a text about it, or its settings.
fn settle<'a>(
    alloc: Global,
    calling: Calling,
    tool: Tool,
    spelled: &Spelled<'a>,
) -> Result<Settings<'a>, Fault>
    ensures ok { IfOk result (λ settings. settings_for calling tool spelled.now ≡ Ok settings) }
    ensures err { IfErr result (IsRefused HasBadOperands (settings_for calling tool spelled.now)) }
    ensures operands { IfOk result HasOperands }
{
    match topic_in(&spelled.options) {
        Some(topic) => Ok(Settings::About(tool, topic)),
        None => settle_work(alloc, calling, tool, spelled),
    }
}

/// What options and operands ask of a tool.
fn settle_work<'a>(
    alloc: Global,
    calling: Calling,
    tool: Tool,
    spelled: &Spelled<'a>,
) -> Result<Settings<'a>, Fault>
    ensures ok { IfOk result (λ settings. work_for calling tool spelled.now ≡ Ok settings) }
    ensures err { IfErr result (IsRefused HasBadOperands (work_for calling tool spelled.now)) }
    ensures operands { IfOk result HasOperands }
{
    match tool {
        Tool::Head => Ok(Settings::Head(settle_ends(alloc, spelled)?)),
        Tool::Tail => Ok(Settings::Tail(settle_tail(alloc, calling, spelled)?)),
        Tool::Split => Ok(Settings::Split(settle_split(spelled)?)),
        Tool::Csplit => Ok(Settings::Csplit(settle_csplit(alloc, calling, spelled)?)),
        Tool::Tee => Ok(Settings::Tee(settle_tee(alloc, calling, spelled)?)),
        Tool::Cutters => Err(Fault::Usage(UsageKind::UnknownTool, 0)),
    }
}
