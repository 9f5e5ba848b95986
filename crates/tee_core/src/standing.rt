//! How outputs stand, and what follows for a run.
ghost use Rattle.std.specs.{Prelude.◌≡◌, List.list_any};
ghost use Rattle.tee_core.specs.{
  Run.{any_is, ends_run, gone_status, has_failed, is_done, is_quiet, is_same, is_told, lost_for, status_for},
};

use ports_core::{Fault, OnBroken, Reason};

/// How an output stands, as far as is known.
#[derive(Clone, Copy, Debug)]
pub enum Standing {
    /// The output isn't broken.
    Sound,
    /// The output broke, and its reader isn't gone.
    Broken,
    /// The output broke because its reader is gone.
    Gone,
}

/// How an output stands that broke for this reason.
pub(crate) fn lost_for(why: Reason) -> Standing
    ensures { result ≡ lost_for why }
{
    match why {
        Reason::Gone => Standing::Gone,
        _ => Standing::Broken,
    }
}

/// Whether a run ends if its outputs stand so.
pub(crate) fn is_done(on_broken: OnBroken, known: &[Standing]) -> bool
    ensures { result ≡ is_done on_broken known.now }
{
    any_ends(on_broken, known) || !any_is(Standing::Sound, known)
}

/// Whether any of them ends a run.
fn any_ends(on_broken: OnBroken, mut standings: &[Standing]) -> bool
    ensures { result ≡ list_any (λ standing. ends_run standing on_broken) standings.entry.now }
{
    while let [standing, rest @ ..] = standings {
        if ends_run(*standing, on_broken) {
            return true;
        }
        standings = rest;
    }
    false
}

/// Whether an output that stands so ends a run, whatever is left.
fn ends_run(standing: Standing, on_broken: OnBroken) -> bool
    ensures { result ≡ ends_run standing on_broken }
{
    match (standing, on_broken) {
        (Standing::Broken, OnBroken::Exit | OnBroken::ExitNoPipe) => true,
        (Standing::Gone, OnBroken::Exit | OnBroken::Signal) => true,
        _ => false,
    }
}

/// Whether there is a message for an output that stands so.
pub(crate) fn is_told(on_broken: OnBroken, standing: Standing) -> bool
    ensures { result ≡ is_told on_broken standing }
{
    match standing {
        Standing::Sound => false,
        Standing::Broken => true,
        Standing::Gone => !is_quiet(on_broken),
    }
}

/// Whether nothing is said of an output whose reader is gone.
fn is_quiet(on_broken: OnBroken) -> bool
    ensures { result ≡ is_quiet on_broken }
{
    match on_broken {
        OnBroken::Warn | OnBroken::Exit => false,
        OnBroken::WarnNoPipe | OnBroken::ExitNoPipe | OnBroken::Signal => true,
    }
}

/// The status of a run whose outputs stand so at its end, with the fault that ended its reading, if a fault did.
pub(crate) fn status_for(on_broken: OnBroken, known: &[Standing], fault: &Option<Fault>) -> u8
    ensures { result ≡ status_for on_broken known.now fault.now }
{
    let failed = has_failed(known, fault);
    if any_is(Standing::Gone, known) {
        return gone_status(on_broken, failed);
    }
    u8::from(failed)
}

/// Whether a fault ended the reading, or an output broke whose reader isn't gone.
fn has_failed(known: &[Standing], fault: &Option<Fault>) -> bool
    ensures { result ≡ has_failed known.now fault.now }
{
    fault.is_some() || any_is(Standing::Broken, known)
}

/// The status if the reader of an output is gone, by whether anything else failed.
fn gone_status(on_broken: OnBroken, failed: bool) -> u8
    ensures { result ≡ gone_status on_broken failed }
{
    match on_broken {
        OnBroken::Warn | OnBroken::Exit => 1,
        OnBroken::WarnNoPipe | OnBroken::ExitNoPipe => u8::from(failed),
        OnBroken::Signal => 141,
    }
}

/// Whether any of them stands so.
fn any_is(one: Standing, mut standings: &[Standing]) -> bool
    ensures { result ≡ any_is one standings.entry.now }
{
    while let [standing, rest @ ..] = standings {
        if is_same(*standing, one) {
            return true;
        }
        standings = rest;
    }
    false
}

/// Whether both are the same.
fn is_same(one: Standing, other: Standing) -> bool
    ensures { result ≡ is_same one other }
{
    match (one, other) {
        (Standing::Sound, Standing::Sound)
        | (Standing::Broken, Standing::Broken)
        | (Standing::Gone, Standing::Gone) => true,
        _ => false,
    }
}
