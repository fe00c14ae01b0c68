//! Times of day, in milliseconds, and how names write them.

ghost use Rattle.std.specs.Prelude.{◌≡◌, ◌<◌, ◌≤◌, ◌+◌, ◌*◌, ◌++◌, [], ℕ, List, OnOk, IfSome, IsSomeAnd, Some, string_bytes};
ghost use Rattle.cq_cycle.specs.Cycle.{length_of};
ghost use Rattle.cq_cycle.specs.Name.{hour_text, time_text, two_digits};

use crate::Roll;
use crate::digits::{push_two_digits, take_two_digits};
use crate::roll::{MILLIS_PER_DAY, MILLIS_PER_HOUR, MILLIS_PER_MINUTE};
use std::alloc::AllocError;

/// Writes a time of day at the end of a text: nothing, `-HH` or `-HHmm`.
pub(crate) fn push_time(text: &mut String, roll: Roll, time: u64) -> Result<(), AllocError>
    requires { time < MILLIS_PER_DAY }
    ensures { OnOk result (string_bytes text.new ≡ string_bytes text.old ++ time_text roll time) }
{
    let hour = (time / MILLIS_PER_HOUR) as u8;
    match roll {
        Roll::Daily => Ok(()),
        Roll::Hourly => push_hour(text, hour),
        Roll::Minutely => {
            push_hour(text, hour)?;
            push_two_digits(text, (time / MILLIS_PER_MINUTE % 60) as u8)
        }
    }
}

fn push_hour(text: &mut String, hour: u8) -> Result<(), AllocError>
    requires { hour < 24 }
    ensures { OnOk result (string_bytes text.new ≡ string_bytes text.old ++ hour_text hour) }
{
    text.push('-')?;
    push_two_digits(text, hour)
}

/// Returns the first of the times of day that are written as this text: those of the day, of an hour or of a minute.
pub(crate) fn first_time(roll: Roll, text: &[u8]) -> Option<u64>
    ensures fits { IfSome result (λ first. first + length_of roll ≤ MILLIS_PER_DAY) }
    ensures found { IfSome result (λ first. (time : ℕ) → first ≤ time → time < first + length_of roll
        → text.now ≡ time_text roll time) }
    ensures only { (time : ℕ) → time < MILLIS_PER_DAY → text.now ≡ time_text roll time
        → IsSomeAnd result (λ first. (first ≤ time) × (time < first + length_of roll)) }
{
    match roll {
        Roll::Daily => start_of_day(text),
        Roll::Hourly => start_of_hour(text),
        Roll::Minutely => start_of_minute(text),
    }
}

fn start_of_day(text: &[u8]) -> Option<u64>
    ensures found { IfSome result (λ first. (first ≡ 0) × (text.now ≡ [])) }
    ensures only { text.now ≡ [] → result ≡ Some 0 }
{
    text.is_empty().then_some(0)
}

fn start_of_hour(text: &[u8]) -> Option<u64>
    ensures found { IfSome result (λ first. (hour : ℕ) × (hour < 24) × (first ≡ hour * MILLIS_PER_HOUR)
        × (text.now ≡ hour_text hour)) }
    ensures only { (hour : ℕ) → hour < 24 → text.now ≡ hour_text hour
        → result ≡ Some (hour * MILLIS_PER_HOUR) }
{
    let (hour, rest) = take_hour(text)?;
    rest.is_empty().then_some(u64::from(hour) * MILLIS_PER_HOUR)
}

fn start_of_minute(text: &[u8]) -> Option<u64>
    ensures found { IfSome result (λ first. (hour : ℕ) × (minute : ℕ) × (hour < 24) × (minute < 60)
        × (first ≡ hour * MILLIS_PER_HOUR + minute * MILLIS_PER_MINUTE)
        × (text.now ≡ hour_text hour ++ two_digits minute)) }
    ensures only { (hour minute : ℕ) → hour < 24 → minute < 60
        → text.now ≡ hour_text hour ++ two_digits minute
        → result ≡ Some (hour * MILLIS_PER_HOUR + minute * MILLIS_PER_MINUTE) }
{
    let (hour, rest) = take_hour(text)?;
    let (minute, rest) = take_two_digits(rest)?;
    if minute < 60 && rest.is_empty() {
        Some(u64::from(hour) * MILLIS_PER_HOUR + u64::from(minute) * MILLIS_PER_MINUTE)
    } else {
        None
    }
}

/// Reads the hour after a dash. Returns it and the text after it.
fn take_hour(text: &[u8]) -> Option<(u8, &[u8])>
    ensures found { IfSome result (λ taken. (taken.0 < 24) × (text.now ≡ hour_text taken.0 ++ taken.1.now)) }
    ensures only { (hour : ℕ) (rest : List ℕ) → hour < 24 → text.now ≡ hour_text hour ++ rest
        → IsSomeAnd result (λ taken. (taken.0 ≡ hour) × (taken.1.now ≡ rest)) }
{
    let [b'-', digits @ ..] = text else {
        return None;
    };
    let (hour, rest) = take_two_digits(digits)?;
    if hour < 24 { Some((hour, rest)) } else { None }
}
