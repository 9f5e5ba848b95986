use std::rt::Clock;

/// The time of the clock, in milliseconds from a start that is always the same. If the clock says nothing, the greatest
/// number.
pub fn time_of(clock: &impl Clock) -> u64 {
    match clock.monotonic() {
        Ok(time) => u64::try_from(time.as_millis()).unwrap_or(u64::MAX),
        Err(_) => u64::MAX,
    }
}
