use std::time::{Clock, SystemTime, UNIX_EPOCH};

/// The time of a clock is no moment of messages (ours).
#[derive(Clone, Copy, Debug, PartialEq, Eq, thiserror::Error)]
#[error("the clock could not be read, or is set before 1970: set the clock")]
pub struct ClockFault;

/// Returns the time of a clock, in milliseconds of Unix time. No contract knows the time of a clock.
///
/// Errors: it could not be read, or is before 1970, or after the year 584,000,000.
pub fn moment_now<C: Clock>(clock: &C) -> Result<u64, ClockFault> {
    let Ok(now) = SystemTime::now(clock) else {
        return Err(ClockFault);
    };
    let Ok(since) = now.duration_since(UNIX_EPOCH) else {
        return Err(ClockFault);
    };
    u64::try_from(since.as_millis()).map_err(|_| ClockFault)
}
