//! What a log has after each call, and after a crash.
use crate::life::{Call, answer, of_images};
use crate::start::replayed_text;
use cq_fixtures::{DAY, expect_answer};
use cq_kept::Opened;
use cq_log_tests::{Ruin, TornFile};
use std::alloc::Global;
use std::test::Fail;

/// A call, its answer, the end below which messages are stored, and what a read of the log gives.
type Step = (Call, &'static str, u64, &'static str);

/// What the images hold.
const AT_FIRST: &str = "5[ab;c;] at [21474836481]";

/// The same after the first turn to which something came.
const ONE_MORE: &str = "5[ab;c;d;] at [21474836481]";

/// The same after the second one.
const NEW_CYCLE: &str = "5[ab;c;d;] 6[e;] at [21474836482]";

static STEPS: [Step; 12] = [
    (Call::Turn, "ok", 0x5_0000_0002, AT_FIRST),
    (Call::Append(0, "d"), "21474836482", 0x5_0000_0002, AT_FIRST),
    (Call::Turn, "ok", 0x5_0000_0002, AT_FIRST),
    (
        Call::Append(6 * DAY, "e"),
        "25769803776",
        0x5_0000_0002,
        AT_FIRST,
    ),
    (Call::Take, "21474836481 c", 0x5_0000_0002, AT_FIRST),
    (Call::Turn, "ok", 0x5_0000_0003, ONE_MORE),
    (Call::Append(0, "f"), "25769803777", 0x5_0000_0003, ONE_MORE),
    (Call::DropBefore(6), "floor 6", 0x5_0000_0003, ONE_MORE),
    (Call::Settle, "ok", 0x6_0000_0001, NEW_CYCLE),
    (Call::Turn, "ok", 0x6_0000_0001, NEW_CYCLE),
    (
        Call::Turn,
        "ok",
        0x6_0000_0002,
        "5[ab;c;d;] 6[e;f;] at [21474836482] floor 6",
    ),
    (
        Call::Settle,
        "ok",
        0x6_0000_0002,
        "5[ab;c;d;] 6[e;f;] at [21474836482] floor 6",
    ),
];

/// Makes a call. Returns its answer, the end below which messages are stored, and what a read of the log gives.
fn said(alloc: Global, life: &mut Opened<TornFile>, call: Call) -> Result<String, Fail> {
    let answer = answer(alloc, life, call)?;
    let read = replayed_text(alloc, life.kept.keeper().log().device().bytes())?;
    Ok(format!(in alloc; "{answer}, {}, {read}", life.kept.stored_end())?)
}

/// Makes the calls. Fails if one of them does not answer or leave what is wanted.
fn expect_steps(alloc: Global, life: &mut Opened<TornFile>) -> Result<(), Fail> {
    for (i, &(call, answer, stored_end, read)) in STEPS.iter().enumerate() {
        let want = format!(in alloc; "{answer}, {stored_end}, {read}")?;
        let said = said(alloc, life, call)?;
        expect_answer("life", i, said.as_str(), want.as_str())?;
    }
    Ok(())
}

/// After each call a log has what was stored, and gives it when it is played on the images.
#[test]
fn a_log_gives_what_was_stored(rt: HostRuntime) -> Result<(), Fail> {
    let mut life = of_images(rt.alloc())?;
    expect_steps(rt.alloc(), &mut life)
}

/// Makes a call, and returns what a crash leaves then.
fn left_by(
    alloc: Global,
    life: &mut Opened<TornFile>,
    call: Call,
    ruin: Ruin,
) -> Result<String, Fail> {
    answer(alloc, life, call)?;
    let left = life.kept.keeper().log().device().after_crash(alloc, ruin)?;
    replayed_text(alloc, &left)
}

/// Makes the calls. Fails if a crash after one of them does not leave what is wanted.
fn expect_left(alloc: Global, life: &mut Opened<TornFile>, ruin: Ruin) -> Result<(), Fail> {
    for (i, &(call, _, _, read)) in STEPS.iter().enumerate() {
        let left = left_by(alloc, life, call, ruin)?;
        expect_answer("crash", i, left.as_str(), read)?;
    }
    Ok(())
}

/// The same with a new life.
fn expect_stored(alloc: Global, ruin: Ruin) -> Result<(), Fail> {
    let mut life = of_images(alloc)?;
    expect_left(alloc, &mut life, ruin)
}

/// What a crash makes of writes.
static RUINS: [Ruin; 3] = [
    Ruin::Lost,
    Ruin::Filled(1),
    Ruin::Mixed(0x5555_aaaa_1234_9876),
];

/// A crash after each call leaves what was stored, whatever it makes of the writes that were not synced.
#[test]
fn a_crash_leaves_what_was_stored(rt: HostRuntime) -> Result<(), Fail> {
    for &ruin in &RUINS {
        expect_stored(rt.alloc(), ruin)?;
    }
    Ok(())
}
