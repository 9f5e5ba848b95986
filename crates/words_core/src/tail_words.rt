//! What `tail` is asked for (POSIX.1-2017, XCU tail); `-F`, `--follow`, `--retry`, `-s` and `--pid` are
//! GNU's, `--looks` is of these tools.
ghost use Rattle.std.specs.Prelude.{◌≡◌, map};
ghost use Rattle.words_core.specs.{
  Spelling.Reads,
  TailWords.{by_file, by_name, followed_by, followed_in, has_dash, retry_by, tail_asked, tail_by, unfollowed},
  Choice.seen,
};

use crate::choice::Choice;
use crate::ends_words::{EndsSettings, names_of, ten_lines};
use crate::spelled::Spelled;
use crate::value::{Followed, MOST_LOOKS};
use ports_core::{Calling, Fault, STANDARD_INPUT, UsageKind};
use std::alloc::Global;

/// What `tail` is to write of its inputs.
#[derive(Drop)]
pub struct TailSettings<'a> {
    /// What is written of each input at first.
    pub ends: EndsSettings<'a>,
    /// How inputs are to be followed after that, if they are. `followed_by` says whether standard input is.
    pub followed: Option<Followed>,
    /// How often inputs that are followed are looked at, 1 to 2^63-1.
    pub looks: u64,
    /// How many milliseconds they are waited for at most where nothing is seen to change, at most 2^63-1. Nothing that is written
    /// depends on it.
    pub pause: u64,
    /// The process after whose end following ends, 1 to 2^31-1. None where it goes on.
    pub process: Option<u32>,
}

/// How many milliseconds inputs are waited for where no option says it: a second.
const SECOND: u64 = 1000;

/// What is asked for without options: this of each input, and nothing is followed.
fn unfollowed(ends: EndsSettings<'_>) -> TailSettings<'_>
    ensures { result ≡ unfollowed ends.entry }
{
    TailSettings {
        ends,
        followed: None,
        looks: MOST_LOOKS,
        pause: SECOND,
        process: None,
    }
}

/// What is wrong with what is to be followed.
const BAD_FOLLOW: Fault = Fault::Usage(UsageKind::BadFollow, 0);

impl TailSettings<'_> {
    /// How inputs are followed, where `fed` says whether standard input is a file that can be watched. If standard input is among
    /// them, they are followed only then, and only by the tool's own name.
    pub fn followed_by(&self, calling: Calling, fed: bool) -> Option<Followed>
        ensures { result ≡ followed_by calling fed self.now }
    {
        match (calling, fed) {
            (Calling::OwnName, true) => self.followed,
            _ if has_dash(&self.ends.names) => None,
            _ => self.followed,
        }
    }

    /// Takes in what one more option asks for.
    fn take(&mut self, choice: Choice<'_>)
        ensures { self.new ≡ tail_by self.old (seen choice.entry) }
    {
        match choice {
            Choice::Follow(followed) => self.followed = Some(followed),
            Choice::FollowNames => self.followed = Some(Followed::Name),
            Choice::Looks(looks) => self.looks = looks,
            Choice::Pause(pause) => self.pause = pause,
            Choice::Process(process) => self.process = Some(process),
            _ => self.ends.take(choice),
        }
    }
}

/// Whether names that lead nowhere are looked for again, with one more option.
fn with_retry(retry: bool, choice: Choice<'_>) -> bool
    ensures { result ≡ retry_by retry (seen choice.entry) }
{
    match choice {
        Choice::FollowNames | Choice::Retry => true,
        _ => retry,
    }
}

/// What words ask of `tail`: what they ask of `head`, the last that says what is followed, and the last number of looks, the
/// last pause and the last process.
///
/// # Errors
///
/// `Memory` where there is no room for the names. Else `Usage` with `BadFollow` where standard input would be followed by name; by
/// `cutters` also where it would be followed beside other inputs, and where names are followed and not looked for again, or the reverse.
pub fn settle_tail<'a>(
    alloc: Global,
    calling: Calling,
    spelled: &Spelled<'a>,
) -> Result<TailSettings<'a>, Fault>
    ensures { Reads (tail_asked calling spelled.now) result }
{
    let mut asked = unfollowed(ten_lines(names_of(alloc, &spelled.operands)?));
    let mut retry = false;
    for option in &spelled.options {
        asked.take(option.choice);
        retry = with_retry(retry, option.choice);
    }
    asked.followed = check_following(calling, asked.followed, retry, &asked.ends.names)?;
    Ok(asked)
}

/// How inputs of these names are to be followed.
fn check_following(
    calling: Calling,
    followed: Option<Followed>,
    retry: bool,
    names: &[&str],
) -> Result<Option<Followed>, Fault>
    ensures { result ≡ followed_in followed retry calling (map (λ name. name.now) names.now) }
{
    match (calling, followed, retry) {
        (_, None, false) | (Calling::OwnName, None, true) => Ok(None),
        (_, Some(Followed::Descriptor), false) => follow_files(names, calling),
        (_, Some(Followed::Name), true) => follow_names(Followed::Name, names),
        (Calling::OwnName, Some(Followed::Descriptor), true) => Ok(Some(Followed::FirstFile)),
        (Calling::OwnName, Some(Followed::Name), false) => {
            follow_names(Followed::PresentName, names)
        }
        _ => Err(BAD_FOLLOW),
    }
}

/// Follows files. By `cutters` standard input can't be one of several.
fn follow_files(names: &[&str], calling: Calling) -> Result<Option<Followed>, Fault>
    ensures { result ≡ by_file (map (λ name. name.now) names.now) calling }
{
    match (names, calling) {
        ([_, _, ..], Calling::Cutters) if has_dash(names) => Err(BAD_FOLLOW),
        _ => Ok(Some(Followed::Descriptor)),
    }
}

/// Follows names so. Standard input has none.
fn follow_names(how: Followed, names: &[&str]) -> Result<Option<Followed>, Fault>
    ensures { result ≡ by_name how (map (λ name. name.now) names.now) }
{
    if has_dash(names) {
        return Err(BAD_FOLLOW);
    }
    Ok(Some(how))
}

/// Whether standard input is among the inputs.
pub(crate) fn has_dash(names: &[&str]) -> bool
    ensures { result ≡ has_dash (map (λ name. name.now) names.now) }
{
    for name in names {
        if *name == STANDARD_INPUT {
            return true;
        }
    }
    false
}
