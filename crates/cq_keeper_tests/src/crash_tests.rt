//! What is read after a crash at each moment, whatever it made of what was not synced.
use crate::fixture::{Call, Fixture, failing_at};
use crate::reading::read_text;
use cq_fixtures::{DAY, expect_answer};
use cq_keeper::Keeper;
use cq_log_tests::{Ruin, TornFile};
use std::alloc::{AllocError, Global};
use std::test::Fail;

/// Appends, a take, a drop and turns: three frames, of which the second is settled by a turn to which nothing came.
static CALLS: [Call; 10] = [
    Call::Append(0, "a"),
    Call::Turn,
    Call::Append(0, "b"),
    Call::Take("reader"),
    Call::Turn,
    Call::Turn,
    Call::Append(5 * DAY, "c"),
    Call::DropBefore(5),
    Call::Turn,
    Call::Settle,
];

/// What the first frames give, none of them at first, and the end of it.
static STATES: [(&str, u64); 4] = [
    ("at [0]", 0),
    ("0[a;] at [0]", 1),
    ("0[a;b;] at [1]", 2),
    ("0[a;b;] 5[c;] at [1] floor 5", 21474836481),
];

/// A moment of those calls: the number of the call of the file that fails, or 0 after all; what the turns and the settle return;
/// the end below which all is stored; the number of frames that are read without a crash; and the least and the greatest number
/// of frames that a crash leaves.
type Moment = (u64, &'static str, u64, usize, (usize, usize));

/// What calls return where the first, the second and so on is the one in which the file fails.
const FIRST: &str = "Stopped(Failed) Stopped(Failed) Stopped(Failed) Stopped(Failed) Failed ";

const SECOND: &str = "ok Stopped(Failed) Stopped(Failed) Stopped(Failed) Failed ";

const THIRD: &str = "ok ok Stopped(Failed) Stopped(Failed) Failed ";

const FOURTH: &str = "ok ok ok Stopped(Failed) Failed ";

const FIFTH: &str = "ok ok ok ok Failed ";

const NONE: &str = "ok ok ok ok ok ";

/// Each moment after the log was made.
static MOMENTS: [Moment; 19] = [
    // The first frame, which waits then: its length, its bytes, the next gate, the zeros, the sync.
    (3, FIRST, 0, 0, (0, 0)),
    (4, FIRST, 0, 0, (0, 0)),
    (5, FIRST, 0, 0, (0, 0)),
    (6, FIRST, 0, 0, (0, 0)),
    (7, FIRST, 0, 0, (0, 0)),
    // Its gate, the second frame in three writes, the sync.
    (8, SECOND, 0, 0, (0, 1)),
    (9, SECOND, 0, 1, (0, 1)),
    (10, SECOND, 0, 1, (0, 1)),
    (11, SECOND, 0, 1, (0, 1)),
    (12, SECOND, 0, 1, (0, 1)),
    // Nothing came: the gate of the second frame, the sync.
    (13, THIRD, 1, 1, (1, 2)),
    (14, THIRD, 1, 2, (1, 2)),
    // The third frame, before which none waits, and the sync.
    (15, FOURTH, 2, 2, (2, 2)),
    (16, FOURTH, 2, 2, (2, 2)),
    (17, FOURTH, 2, 2, (2, 2)),
    (18, FOURTH, 2, 2, (2, 2)),
    // Its gate, the sync.
    (19, FIFTH, 2, 2, (2, 3)),
    (20, FIFTH, 2, 3, (2, 3)),
    // After all.
    (0, NONE, 21474836481, 3, (3, 3)),
];

/// What a crash may make of writes, but for single bytes.
static RUINS: [Ruin; 12] = [
    Ruin::Kept,
    Ruin::Lost,
    Ruin::Front(1),
    Ruin::Front(2),
    Ruin::Front(5),
    Ruin::Front(12),
    Ruin::Filled(0),
    Ruin::Filled(1),
    Ruin::Filled(255),
    Ruin::Mixed(0x5555_5555_5555_5555),
    Ruin::Mixed(0xAAAA_AAAA_AAAA_AAAA),
    Ruin::Mixed(0x0F0F_3C3C_9696_A5A5),
];

/// The places of single bytes that a crash spoils: those of all blocks, and some of the zeros after them.
const PLACES: usize = 100;

/// Makes a call. If it is one of the keeper, adds what it returns to a text.
fn push_answer(
    alloc: Global,
    text: &mut String,
    fixture: &mut Fixture<TornFile>,
    call: Call,
) -> Result<(), Fail> {
    let answer = fixture.answer(alloc, call)?;
    if matches!(call, Call::Turn | Call::Settle) {
        text.push_str(answer.as_str())?;
        text.push(' ')?;
    }
    Ok(())
}

/// Makes calls, and returns what the turns and the settle return, as text.
fn answers(alloc: Global, fixture: &mut Fixture<TornFile>, calls: &[Call]) -> Result<String, Fail> {
    let mut text = String::new(alloc);
    for call in calls {
        push_answer(alloc, &mut text, fixture, *call)?;
    }
    Ok(text)
}

/// Returns the number of frames in these bytes. Fails if they do not give what as many of the first frames give.
fn count_in(alloc: Global, bytes: &[u8]) -> Result<usize, Fail> {
    let (text, count) = read_text(alloc, bytes)?;
    match STATES.get(count) {
        Some((state, _end)) if text.as_str() == *state => Ok(count),
        _ => Err(Fail::new(format_args!("{count} frames give {text}"))),
    }
}

/// Returns the number of frames that a crash leaves of a file.
fn count_left(alloc: Global, file: &TornFile, ruin: Ruin) -> Result<usize, Fail> {
    let left = file.after_crash(alloc, ruin)?;
    count_in(alloc, &left)
}

/// Returns the least and the greatest number of frames that a crash leaves of a file.
fn counts_left(alloc: Global, file: &TornFile) -> Result<(usize, usize), Fail> {
    let mut least = STATES.len();
    let mut greatest = 0;
    for &ruin in &RUINS {
        let count = count_left(alloc, file, ruin)?;
        least = least.min(count);
        greatest = greatest.max(count);
    }
    for place in 0..file.bytes().len().min(PLACES) {
        let count = count_left(alloc, file, Ruin::Spoilt { place, byte: 1 })?;
        least = least.min(count);
        greatest = greatest.max(count);
    }
    Ok((least, greatest))
}

/// Fails if a crash leaves frames that do not give all that is stored.
fn expect_stored(least: usize, stored_end: u64) -> Result<(), Fail> {
    match STATES.get(least) {
        Some((_state, end)) if stored_end <= *end => Ok(()),
        _ => Err(Fail::new(format_args!("{least} frames are left of {stored_end}"))),
    }
}

/// Returns the end below which all is stored, the number of frames that are read, and the least and the greatest number of frames
/// that a crash leaves.
fn left_text(alloc: Global, keeper: &Keeper<TornFile>) -> Result<String, Fail> {
    let stored_end = keeper.stored_end();
    let file = keeper.log().device();
    let read = count_in(alloc, file.bytes())?;
    let left = counts_left(alloc, file)?;
    expect_stored(left.0, stored_end)?;
    Ok(format!(in alloc; "{stored_end}, {read}, {left:?}")?)
}

/// Makes all calls. Returns what the turns and the settle return, and what is left then.
fn said(alloc: Global, fixture: &mut Fixture<TornFile>) -> Result<String, Fail> {
    let answers = answers(alloc, fixture, &CALLS)?;
    let left = left_text(alloc, fixture.keeper())?;
    Ok(format!(in alloc; "{answers}, {left}")?)
}

/// Makes all calls with a file of which a call fails. Returns what the turns and the settle return, and what is left then.
fn said_at(alloc: Global, failing: u64) -> Result<String, Fail> {
    let mut fixture = failing_at(alloc, failing)?;
    said(alloc, &mut fixture)
}

/// What a moment wants, as text.
fn want_text(alloc: Global, moment: &Moment) -> Result<String, AllocError> {
    let &(_failing, answers, stored_end, read, left) = moment;
    format!(in alloc; "{answers}, {stored_end}, {read}, {left:?}")
}

/// Fails unless the calls return and leave what a moment wants.
fn expect_moment(alloc: Global, moment: &Moment) -> Result<(), Fail> {
    let want = want_text(alloc, moment)?;
    let said = said_at(alloc, moment.0)?;
    expect_answer("moment", moment.0 as usize, said.as_str(), want.as_str())
}

#[test]
fn a_crash_leaves_what_is_stored(rt: HostRuntime) -> Result<(), Fail> {
    for moment in &MOMENTS {
        expect_moment(rt.alloc(), moment)?;
    }
    Ok(())
}
