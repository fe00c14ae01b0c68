//! Queues from their start on, each with a collector: calls in turn, and what they return, as text.
use crate::fixture::{Beginning, Call, Fixture};
use cq_fixtures::{expect_answer, expect_end};
use std::alloc::Global;
use std::test::Fail;

/// A queue from its start on: how it begins, calls in turn, each with what it returns, and what it holds once it was stopped.
pub type Life = (Beginning, &'static [(Call, &'static str)], &'static str);

/// Makes calls in turn. Fails if one of them does not return what is wanted.
fn expect_answers(
    alloc: Global,
    row: &str,
    fixture: &mut Fixture,
    calls: &[(Call, &str)],
) -> Result<(), Fail> {
    for (place, &(call, want)) in calls.iter().enumerate() {
        expect_answer(row, place, fixture.answer(alloc, call)?.as_str(), want)?;
    }
    Ok(())
}

/// A queue that begins so, after these calls.
fn after_calls(
    alloc: Global,
    row: &str,
    beginning: Beginning,
    calls: &[(Call, &str)],
) -> Result<Fixture, Fail> {
    let mut fixture = Fixture::begun(alloc, beginning)?;
    expect_answers(alloc, row, &mut fixture, calls)?;
    Ok(fixture)
}

/// Makes the calls of a life in turn, and stops it. Fails if one of them does not return what is wanted, or if it does not end so.
fn expect_life(alloc: Global, row: &str, life: &Life) -> Result<(), Fail> {
    let &(beginning, calls, end) = life;
    let fixture = after_calls(alloc, row, beginning, calls)?;
    expect_end(row, fixture.stop(alloc)?.as_str(), end)
}

/// Makes the calls of these lives.
pub fn expect_lives(alloc: Global, lives: &[Life]) -> Result<(), Fail> {
    for (number, life) in lives.iter().enumerate() {
        let row = format!(in alloc; "life {number}")?;
        expect_life(alloc, row.as_str(), life)?;
    }
    Ok(())
}
