//! Which call is to fail, and why, as a test plans it.

use ports_core::Reason;

/// Whether this is the call that is to fail; counts down the calls before it.
pub(crate) fn fails(failing_in: &mut Option<u64>) -> bool {
    match *failing_in {
        Some(1) => {
            *failing_in = None;
            true
        }
        Some(calls) => {
            *failing_in = Some(calls.saturating_sub(1));
            false
        }
        None => false,
    }
}

/// Why a stream of this number breaks, if it does.
#[derive(Clone, Copy)]
pub(crate) struct Cause {
    pub(crate) slot: usize,
    pub(crate) why: Reason,
}

/// Why it breaks, by the first plan for its number; `Other` if there is none.
pub(crate) fn planned(causes: &[Cause], slot: usize) -> Reason {
    for cause in causes {
        if cause.slot == slot {
            return cause.why;
        }
    }
    Reason::Other
}
