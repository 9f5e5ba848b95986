//! How often a name is asked for changes.
ghost use Rattle.std.specs.Prelude.{◌≡◌, ◌≤◌, ◌<◌, ◌+◌, ◌*◌, ℕ, false};

/// Names are asked at multiples of this number of milliseconds.
const TICK: u64 = 5;

/// How many milliseconds pass at most until a name is asked again: a multiple of `TICK`.
const LONGEST: u64 = 50;

/// After how many milliseconds without a change it is seldom asked where a name leads: a second.
const SECOND: u64 = 1_000;

/// That is asked then at multiples of this number of milliseconds, which is a multiple of `LONGEST`.
const SELDOM: u64 = 500;

/// After how many milliseconds without a change a name is at rest: a minute.
const MINUTE: u64 = 60_000;

/// When a name is asked, in milliseconds of a clock: within 5 ms after a change, then after as long again as it didn't change for and 5
/// more at most, and every 50 ms at the least. Names are asked at the same times, the multiples of 5, and those that didn't change for
/// so long at the multiples of 50, so that waiting for all of them wakes once. Where a name leads costs the system three times what the
/// length of an open file does: it is asked each time in the first second after a change, and then at the multiples of 500.
#[derive(Drop)]
pub(crate) struct Pace {
    /// When it changed the last time.
    changed: u64,
    /// When it is to be asked again; 0 for at once, as after a change.
    due: u64,
}

impl Pace {
    /// Of a name that is to be asked at once.
    pub(crate) fn new() -> Self {
        Pace { changed: 0, due: 0 }
    }

    /// When it is to be asked.
    pub(crate) fn due(&self) -> u64 {
        self.due
    }

    /// Whether it didn't change for a minute.
    pub(crate) fn is_at_rest(&self, now: u64) -> bool {
        now.saturating_sub(self.changed) >= MINUTE
    }

    /// Whether, at this time, at which the name is due, it is to be asked where it leads, and not its open file alone.
    pub(crate) fn asks_where(&self, now: u64) -> bool
        ensures { result ≡ false → (n : ℕ) → self.now.due ≤ 500 * n → now < 500 * n }
    {
        now.saturating_sub(self.changed) < SECOND
            || now / SELDOM != self.due.saturating_sub(1) / SELDOM
    }

    /// Has it asked at once, as after a change.
    pub(crate) fn hurry(&mut self) {
        self.due = 0;
    }

    /// Has it asked no more.
    pub(crate) fn end(&mut self) {
        self.due = u64::MAX;
    }

    /// Goes on once it was asked, and had changed or not.
    pub(crate) fn go_on(&mut self, now: u64, has_changed: bool)
        ensures { self.new.due ≤ now + 50 }
    {
        if has_changed || self.due == 0 {
            self.changed = now;
        }
        self.due = now.saturating_add(pause_of(now, now.saturating_sub(self.changed)));
    }
}

/// How long to wait before a name is asked that didn't change for some milliseconds: as long again and up to the next tick, or up to the
/// next of the times at which all those are asked that didn't change for longer.
fn pause_of(now: u64, passed: u64) -> u64
    ensures { result ≤ 50 }
{
    if passed < LONGEST - TICK {
        return passed + TICK - now.wrapping_add(passed) % TICK;
    }
    LONGEST - now % LONGEST
}
