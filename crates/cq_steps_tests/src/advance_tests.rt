//! Appenders that are lost between any two steps as a cycle begins.
use crate::queues::{Call, Lost, Outcome, push_missed_lost};
use cq_fixtures::{DAY, expect_text};
use std::alloc::Global;
use std::test::Fail;

/// An appender begins cycle 5 in a queue without messages.
static ADVANCE: Lost<'static> = Lost {
    measures: (64, 8, 1),
    count: 0,
    call: Call::Advance(5 * DAY),
};

/// For each number of steps how the advance comes out, and what is left.
static ADVANCES: [(Outcome, &str); 5] = [
    (Outcome::Lost, "0[] at [0], 0"),
    // The tail was loaded.
    (Outcome::Lost, "0[] at [0], 0"),
    // The cycle of the next slot was loaded.
    (Outcome::Lost, "0[] at [0], 0"),
    // The cycle is reserved.
    (Outcome::Lost, "0[] at [0], 0"),
    // The one before has ended.
    (Outcome::Advanced(0), "0[] 5[] at [0], 21474836480"),
];

/// Returns the results and remains that differ from what is wanted.
fn missed_advances(alloc: Global) -> Result<String, Fail> {
    let mut missed = String::new(alloc);
    for (steps, wanted) in ADVANCES.iter().enumerate() {
        push_missed_lost(alloc, &ADVANCE, steps as u32, *wanted, &mut missed)?;
    }
    Ok(missed)
}

#[test]
fn an_appender_that_begins_a_cycle_is_lost(rt: HostRuntime) -> Result<(), Fail> {
    expect_text(missed_advances(rt.alloc())?, "")
}
