//! A whole run of following.
ghost use Rattle.std.specs.Prelude.{◌≡◌, [], true, false, length, map, IfErr, IsTrue, Ok};
ghost use Rattle.ports_core.specs.{
  Slot.{streams, is_writable, with_broken},
  declared.reason.Reason.TheVariants.Gone,
};
ghost use Rattle.follow_core.specs.{
  Sharing.{CanPrint, HasError},
  Ending.{FollowEndsBy, asked_so, is_by_name, is_over, remains, shows_by},
  inner.Visits.LooksInTurn,
  FollowState.{CanLook, point},
};

use crate::follow::Follow;
use crate::start::Start;
use ports_core::{Calling, Fault, Outs, Speaker, Tool, tell};
use std::alloc::Global;
use watch_core::Watch;

/// When following ends, if it doesn't before.
#[derive(Clone, Copy, Debug, PartialEq, Eq)]
pub struct Limits {
    /// After this many looks.
    pub looks: u64,
    /// After the first look before which it was found that the process of this number is gone. None if no process is
    /// waited for.
    pub process: Option<u32>,
}

/// How files are followed.
#[derive(Clone, Copy, Debug, PartialEq, Eq)]
pub enum Method {
    /// By descriptor: the file that was opened at the first look, wherever its name leads.
    Descriptor,
    /// By name: the file to which the name leads. A name that leads nowhere is looked for again.
    Name,
    /// By name, as long as the name leads to a file. A name that leads nowhere is dropped.
    PresentName,
    /// The first file to which a name leads at any look, wherever it leads later. A name that can't be opened before
    /// that counts as missing. If the file can't be read later, the name is dropped.
    FirstFile,
}

impl Method {
    /// Whether names are followed to where looks say that they lead. A name that stays with its first file leads to
    /// that file.
    pub fn is_by_name(self) -> bool
        ensures { result ≡ is_by_name self }
    {
        match self {
            Method::Descriptor => false,
            Method::Name | Method::PresentName | Method::FirstFile => true,
        }
    }
}

/// The number of standard output among the outputs.
const STANDARD_OUTPUT: usize = 0;

/// The status that a shell gives for a tool that ended by the signal about a reader that is gone.
const UNREAD: u8 = 141;

/// How looks came to their end, if no fault stopped a look.
#[derive(Clone, Copy)]
enum End {
    /// As many looks were made as were asked for, or a further look can give nothing.
    Looked,
    /// Nobody reads standard output any more.
    Unread,
}

/// A whole run of `tail` that follows these names (POSIX.1-2017, XCU tail, `-f`; also GNU's `--follow=name`): looks,
/// one directly after another, up to the limits. It ends sooner if after a look a further look can give nothing, for
/// example once each name is dropped. Its status is 1 if a name was missing at the first look or failed, or if a fault
/// ended following, and 0 otherwise. If `tail` was called by its own name, it asks before each look whether standard
/// output is still read. If it isn't, the run ends without a message, with status 141.
///
/// Standard output has exactly what the looks saw: of each file the part that `start` says, and then what it has past
/// the length that the look before saw; all of a file that was truncated, that appeared again, or to which the name
/// leads in place of another. Standard error has a line for each such change and each failure. If standard output
/// breaks, or there is no memory, that is reported and ends the run, with all of the looks before written, and a
/// beginning of this look. If the reader of standard output is gone and `tail` was called by its own name, nothing is
/// reported and the status is 141. It takes memory for the names and a buffer of 65,536 bytes, before anything is
/// opened, and for its lines and headers.
pub fn follow_files<W: Watch, O: Outs>(
    alloc: Global,
    calling: Calling,
    names: &[&str],
    start: Start,
    method: Method,
    headers: bool,
    limits: Limits,
    watch: &mut W,
    outs: &mut O,
) -> u8
    requires unseen { W.seen watch.old ≡ [] }
    requires unwatched { W.watched watch.old ≡ [] }
    requires outputs { O.slots outs.old ≡ streams }
    ensures { FollowEndsBy limits W.visible O.visible
        (asked_so calling method start headers (map (λ name. name.now) names.now) streams)
        (shows_by calling method (W.shows watch.old))
        (remains (W.seen watch.new) (W.watched watch.new) (O.slots outs.new)) result }
{
    let speaker = Speaker {
        calling,
        tool: Tool::Tail,
    };
    let by_name = method.is_by_name();
    let mut follow = match Follow::open_as(alloc, calling, names, start, by_name, headers) {
        Ok(follow) => follow,
        Err(fault) => return tell(alloc, speaker, &fault, outs),
    };
    treat_by(calling, method, watch);
    match make_looks(calling, &mut follow, limits, watch, outs) {
        Ok(End::Looked) => u8::from(follow.failed()),
        Ok(End::Unread) => UNREAD,
        Err(fault) => tell(alloc, speaker, &fault, outs),
    }
}

/// Makes the watch forgive, insist or cling, by how names are followed and how `tail` was called.
fn treat_by<W: Watch>(calling: Calling, method: Method, watch: &mut W)
    requires unseen { W.seen watch.old ≡ [] }
    ensures shows { W.shows watch.new ≡ shows_by calling method (W.shows watch.old) }
    ensures watched { W.watched watch.new ≡ W.watched watch.old }
    ensures seen { W.seen watch.new ≡ W.seen watch.old }
{
    match (calling, method) {
        (_, Method::Descriptor) | (Calling::Cutters, Method::Name) => {}
        (Calling::OwnName, Method::Name) => watch.forgive(),
        (_, Method::PresentName) => watch.insist(),
        (_, Method::FirstFile) => watch.cling(),
    }
}

/// Makes looks up to the limits. Ends sooner if after a look a further look can give nothing, or if `tail` was called
/// by its own name and nobody reads standard output any more.
///
/// # Errors
///
/// As `Follow::look`.
fn make_looks<W: Watch, O: Outs>(
    calling: Calling,
    follow: &mut Follow,
    limits: Limits,
    watch: &mut W,
    outs: &mut O,
) -> Result<End, Fault>
    requires unseen { W.seen watch.old ≡ [] }
    requires can { CanLook follow.old (W.watched watch.old) (O.slots outs.old) }
    requires print { CanPrint (O.slots outs.old) }
    ensures ends { LooksInTurn W.visible O.visible limits (W.shows watch.old)
        (point follow.old (W.watched watch.old) (O.slots outs.old))
        (point follow.new (W.watched watch.new) (O.slots outs.new)) (W.seen watch.new) result }
    ensures unread { result ≡ Ok End.Unread → calling ≡ Calling.OwnName }
    ensures error { IfErr result (λ _. HasError (O.slots outs.new)) }
{
    let mut made = 0;
    while made < limits.looks {
        if is_unread(calling, outs) {
            return Ok(End::Unread);
        }
        let is_last = has_ended(limits.process, watch);
        if let Err(fault) = follow.look(watch, outs) {
            return Err(fault);
        }
        made += 1;
        if !follow.alive() {
            return Ok(End::Looked);
        }
        if is_last {
            return Ok(End::Looked);
        }
    }
    Ok(End::Looked)
}

/// Whether nobody reads standard output any more. That is asked only if `tail` was called by its own name. Standard
/// output breaks if nobody reads it.
fn is_unread<O: Outs>(calling: Calling, outs: &mut O) -> bool
    requires { IsTrue (is_writable (O.slots outs.old) 0) }
    ensures read { result ≡ false → O.slots outs.new ≡ O.slots outs.old }
    ensures unread { IsTrue result
        → (calling ≡ Calling.OwnName) × (O.slots outs.new ≡ with_broken Gone 0 (O.slots outs.old)) }
{
    match calling {
        Calling::OwnName => outs.still_read(STANDARD_OUTPUT).is_err(),
        Calling::Cutters => false,
    }
}

/// Whether the process that is waited for is gone, before the next look.
fn has_ended<W: Watch>(process: Option<u32>, watch: &mut W) -> bool
    ensures told { W.visible ≡ true → result ≡ is_over process (W.shows watch.old (length (W.seen watch.old))) }
    ensures found { IsTrue result → IsTrue (is_over process (W.shows watch.old (length (W.seen watch.old)))) }
    ensures watched { W.watched watch.new ≡ W.watched watch.old }
    ensures seen { W.seen watch.new ≡ W.seen watch.old }
    ensures shows { W.shows watch.new ≡ W.shows watch.old }
{
    match process {
        Some(process) => watch.is_gone(process),
        None => false,
    }
}
