//! Figures of what was measured, and how they are printed.
use crate::fault::BenchFault;
use crate::rounds::Measured;
use crate::settings::Settings;
use std::time::Duration;

/// How many there were in each second of this time.
fn each_second(count: u64, time: Duration) -> u64 {
    let nanos = time.as_nanos().max(1);
    let each = u128::from(count) * 1_000_000_000 / nanos;
    each.min(u128::from(u64::MAX)) as u64
}

/// The wait that this share of all waits, in hundredths, is not above. They are sorted.
fn wait_at(waits: &[u64], hundredths: usize) -> u64 {
    let Some(last) = waits.len().checked_sub(1) else {
        return 0;
    };
    let place = (last / 100)
        .saturating_mul(hundredths)
        .saturating_add((last % 100).saturating_mul(hundredths) / 100);
    match waits.get(place) {
        Some(wait) => *wait,
        None => 0,
    }
}

/// The whole microseconds of this many nanoseconds, and the nanoseconds past them.
fn microseconds(nanos: u64) -> (u64, u64) {
    (nanos / 1_000, nanos % 1_000)
}

/// Prints what was measured.
pub fn print_measured<R: Print>(
    rt: &R,
    settings: &Settings,
    measured: Measured,
) -> Result<(), BenchFault> {
    let Measured {
        syncs,
        time,
        mut waits,
    } = measured;
    waits.sort()?;
    let name = settings.waiting.name();
    let threads = settings.threads;
    let batch = settings.batch;
    let messages = u64::from(batch).saturating_mul(waits.len() as u64);
    let whole = time.as_secs();
    let part = time.subsec_millis();
    let stored = each_second(messages, time);
    let synced = each_second(syncs, time);
    let (middle, middle_part) = microseconds(wait_at(waits.as_slice(), 50));
    let (long, long_part) = microseconds(wait_at(waits.as_slice(), 99));
    match println!(rt;
        "{{\"impl\":\"{name}\",\"threads\":{threads},\"batch\":{batch},\"seconds\":{whole}.{part:03},\"messages\":{messages},\"messages_per_second\":{stored},\"p50_us\":{middle}.{middle_part:03},\"p99_us\":{long}.{long_part:03},\"syncs_per_second\":{synced}}}"
    ) {
        Ok(()) => Ok(()),
        Err(_) => Err(BenchFault::NotPrinted),
    }
}
