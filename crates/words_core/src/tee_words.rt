//! What `tee` is asked for (POSIX.1-2017, XCU tee; `-p` and `--output-error` are GNU's).
ghost use Rattle.std.specs.Prelude.{◌≡◌, map, IfOk, IfErr};
ghost use Rattle.words_core.specs.{Choice.seen, TeeWords.{TeeAsked, fresh, tee_asked, tee_by, unless_said}};

use crate::choice::Choice;
use crate::spelled::{Spelled, texts_of};
use ports_core::{Calling, Fault, Mode, OnBroken};
use std::alloc::Global;
use std::marker::Model;

/// What `tee` is to write its input to, besides standard output.
#[derive(Drop)]
pub struct TeeSettings<'a> {
    /// How the files are opened.
    pub mode: Mode,
    /// What is done once an output is broken.
    pub on_broken: OnBroken,
    /// The names of the files, in their order; there may be none, and `-` is a name like any other.
    pub names: Vec<&'a str>,
}

impl<'a> Model for TeeSettings<'a> {
    ghost Value = { TeeAsked };

    ghost view = { λ s. record {
      mode = s.mode;
      on_broken = s.on_broken;
      names = map (λ name. name.now) s.names.items;
    } };
}

/// What is done once an output is broken, if no option says it.
fn unless_said(calling: Calling) -> OnBroken
    ensures { result ≡ unless_said calling }
{
    match calling {
        Calling::Cutters => OnBroken::Warn,
        Calling::OwnName => OnBroken::Signal,
    }
}

/// What is asked for without options: these files, which begin empty.
fn fresh(calling: Calling, names: Vec<&str>) -> TeeSettings<'_>
    ensures { result ≡ fresh calling (map (λ name. name.now) names.entry.items) }
{
    TeeSettings {
        mode: Mode::Fresh,
        on_broken: unless_said(calling),
        names,
    }
}

impl TeeSettings<'_> {
    /// Takes in what one more option asks for.
    fn take(&mut self, choice: Choice<'_>)
        ensures { self.new ≡ tee_by self.old (seen choice.entry) }
    {
        match choice {
            Choice::Append => self.mode = Mode::Append,
            Choice::OnBroken(on_broken) => self.on_broken = on_broken,
            _ => {}
        }
    }
}

/// What words ask of `tee`: whether files keep what they hold, and what is done once an output is broken. The last
/// option for that decides; without one it depends on how the program was called.
///
/// # Errors
///
/// `Memory` if there is no room for the names.
pub fn settle_tee<'a>(
    alloc: Global,
    calling: Calling,
    spelled: &Spelled<'a>,
) -> Result<TeeSettings<'a>, Fault>
    ensures ok { IfOk result (λ settings. settings ≡ tee_asked calling spelled.now) }
    ensures err { IfErr result (λ fault. fault ≡ Fault.Memory) }
{
    let mut asked = fresh(calling, texts_of(alloc, &spelled.operands)?);
    for option in &spelled.options {
        asked.take(option.choice);
    }
    Ok(asked)
}
