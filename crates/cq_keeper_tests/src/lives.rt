//! Queues from their start on, each with a keeper: calls in turn, what they return, and what is read of the file after each.
use crate::fixture::{Call, Fixture, failing_at};
use crate::reading::read_text;
use cq_fixtures::expect_answer;
use cq_log_tests::TornFile;
use std::alloc::Global;
use std::test::Fail;

/// Calls in turn, each with what it returns, what is read of the file then, and the end below which all is stored.
pub type Life = &'static [(Call, &'static str, &'static str, u64)];

/// Makes a call. Returns what it returns, what is read of the file then, and the end below which all is stored.
fn said(alloc: Global, fixture: &mut Fixture<TornFile>, call: Call) -> Result<String, Fail> {
    let answer = fixture.answer(alloc, call)?;
    let keeper = fixture.keeper();
    let (text, _count) = read_text(alloc, keeper.log().device().bytes())?;
    Ok(format!(in alloc; "{answer}, {text}, {}", keeper.stored_end())?)
}

/// Makes the calls of a life in turn. Fails if one of them does not return or leave what is wanted.
fn expect_calls(
    alloc: Global,
    row: &str,
    fixture: &mut Fixture<TornFile>,
    life: Life,
) -> Result<(), Fail> {
    for (place, &(call, answer, kept, stored_end)) in life.iter().enumerate() {
        let want = format!(in alloc; "{answer}, {kept}, {stored_end}")?;
        let said = said(alloc, fixture, call)?;
        expect_answer(row, place, said.as_str(), want.as_str())?;
    }
    Ok(())
}

/// Does the same with a new queue.
fn expect_new_life(alloc: Global, row: &str, life: Life) -> Result<(), Fail> {
    let mut fixture = failing_at(alloc, 0)?;
    expect_calls(alloc, row, &mut fixture, life)
}

/// Does the same with the life of this number.
fn expect_life(alloc: Global, number: usize, life: Life) -> Result<(), Fail> {
    let row = format!(in alloc; "life {number}")?;
    expect_new_life(alloc, row.as_str(), life)
}

/// Makes the calls of these lives.
pub fn expect_lives(alloc: Global, lives: &[Life]) -> Result<(), Fail> {
    for (number, life) in lives.iter().enumerate() {
        expect_life(alloc, number, *life)?;
    }
    Ok(())
}
