//! Queues that are not opened, and devices that fail.
use crate::life::{Call, answer, opened};
use crate::start::{images, replayed_text};
use cq_fixtures::{contents_of, expect, expect_answer};
use cq_kept::{NotOpened, OpenFault, Opened};
use cq_log_tests::TornFile;
use std::alloc::Global;
use std::test::Fail;

/// What the images hold, and the same with the message of the turn.
const AT_FIRST: &str = "5[ab;c;] at [21474836481]";

const ONE_MORE: &str = "5[ab;c;d;] at [21474836481]";

/// The number of the write or sync that fails, or 0 if none does; the answers of an opening, of a turn to which a message came and of a
/// settle; and what a read of the log gives then.
static FAULTS: [(u64, &str, &str); 16] = [
    // The first gate and its sync, the head with the next gate, the zeros and its sync, its own gate and its sync.
    (1, "Failed(Failed)", AT_FIRST),
    (2, "Failed(Failed)", AT_FIRST),
    (3, "Failed(Failed)", AT_FIRST),
    (4, "Failed(Failed)", AT_FIRST),
    (5, "Failed(Failed)", AT_FIRST),
    (6, "Failed(Failed)", AT_FIRST),
    (7, "Failed(Failed)", AT_FIRST),
    (8, "Failed(Failed)", AT_FIRST),
    (9, "Failed(Failed)", AT_FIRST),
    // The frame of the turn, in three writes, and its sync.
    (10, "Stopped(Failed) Failed", AT_FIRST),
    (11, "Stopped(Failed) Failed", AT_FIRST),
    (12, "Stopped(Failed) Failed", AT_FIRST),
    (13, "Stopped(Failed) Failed", AT_FIRST),
    // Its gate, and its sync.
    (14, "ok Failed", AT_FIRST),
    (15, "ok Failed", ONE_MORE),
    (0, "ok ok", ONE_MORE),
];

/// Returns why a queue was not opened, and what a read of the log gives.
fn refused(alloc: Global, error: &NotOpened<TornFile>) -> Result<(String, String), Fail> {
    let read = replayed_text(alloc, error.device.bytes())?;
    Ok((format!(in alloc; "{:?}", error.fault)?, read))
}

/// Appends a message, makes a turn and settles it. Returns the last two answers, and what a read of the log gives then.
fn kept(alloc: Global, life: &mut Opened<TornFile>) -> Result<(String, String), Fail> {
    answer(alloc, life, Call::Append(0, "d"))?;
    let turn = answer(alloc, life, Call::Turn)?;
    let settle = answer(alloc, life, Call::Settle)?;
    let read = replayed_text(alloc, life.kept.keeper().log().device().bytes())?;
    Ok((format!(in alloc; "{turn} {settle}")?, read))
}

/// Opens a queue that holds what the images do.
fn opened_with_images(
    alloc: Global,
    failing: u64,
) -> Result<Result<Opened<TornFile>, NotOpened<TornFile>>, Fail> {
    let images = images(alloc)?;
    opened(alloc, &images, failing)
}

/// Opens a queue, and makes those calls if it is opened. Returns the answers, and what a read of the log gives then.
fn answers(alloc: Global, failing: u64) -> Result<(String, String), Fail> {
    match opened_with_images(alloc, failing)? {
        Err(error) => refused(alloc, &error),
        Ok(life) => {
            let mut life = life;
            kept(alloc, &mut life)
        }
    }
}

/// Fails unless this is answered and read where the write or sync with this number fails.
fn expect_fault(alloc: Global, number: usize, row: &(u64, &str, &str)) -> Result<(), Fail> {
    let (answers, read) = answers(alloc, row.0)?;
    expect_answer("answers", number, answers.as_str(), row.1)?;
    expect_answer("read", number, read.as_str(), row.2)
}

/// A device that fails ends the opening or the log, and what was stored is read.
#[test]
fn a_fault_of_the_device_loses_nothing_stored(rt: HostRuntime) -> Result<(), Fail> {
    for (i, row) in FAULTS.iter().enumerate() {
        expect_fault(rt.alloc(), i, row)?;
    }
    Ok(())
}

/// Whether no queue was opened for its contents, and no call was made of the device.
fn has_bad_contents(opened: &Result<Opened<TornFile>, NotOpened<TornFile>>) -> bool {
    match opened {
        Ok(_) => false,
        Err(NotOpened { fault, device }) => {
            matches!(fault, OpenFault::BadContents) && device.bytes().is_empty()
        }
    }
}

/// Contents that no queue holds are refused, and no call is made of the device.
#[test]
fn contents_that_no_queue_holds_are_refused(rt: HostRuntime) -> Result<(), Fail> {
    let alloc = rt.alloc();
    let contents = contents_of(alloc, &[(5, &["ab"])], &[u64::MAX])?;
    let opened = opened(alloc, &contents, 0)?;
    expect(has_bad_contents(&opened), "no queue holds them")
}
