//! A queue with a keeper and a file in memory: calls of them, and what they return, as text.
use crate::disk::Disk;
use cq_fixtures::{done_text, index_text};
use cq_kept_calls::{CallKeeper, Called};
use cq_kept_tests::{config, images};
use std::alloc::Global;
use std::test::Fail;

/// A call.
#[derive(Clone, Copy)]
pub(crate) enum Call {
    /// Appends this text to the cycle that is current.
    Append(&'static str),
    /// Makes a turn.
    Turn,
    /// Stores what was put.
    Settle,
    /// Makes the oldest call of the log that is left.
    Make,
    /// Makes all calls of the log that are left.
    MakeAll,
    /// Notes that the oldest call of the log failed.
    Fail,
}

/// A queue with its keeper, and the file of its log.
#[derive(Drop)]
pub(crate) struct Life {
    pub called: Called,
    pub disk: Disk,
}

/// Opens a queue that holds what the images do.
pub(crate) fn of_images(alloc: Global) -> Result<Life, Fail> {
    Ok(Life {
        called: CallKeeper::open(alloc, config(alloc)?, &images(alloc)?)?,
        disk: Disk::new(alloc),
    })
}

/// Makes the oldest call that is left. Returns whether there was one.
fn make(keeper: &mut CallKeeper, disk: &mut Disk) -> Result<bool, Fail> {
    let Some(call) = keeper.next_call()? else {
        return Ok(false);
    };
    disk.make(call)?;
    keeper.note_call(true)?;
    Ok(true)
}

/// Makes the calls that are left, at most a thousand. Returns how many syncs they were.
fn make_all(keeper: &mut CallKeeper, disk: &mut Disk) -> Result<u32, Fail> {
    let before = disk.syncs();
    for _ in 0..1000 {
        if !make(keeper, disk)? {
            break;
        }
    }
    Ok(disk.syncs().saturating_sub(before))
}

fn made_text(alloc: Global, keeper: &mut CallKeeper, disk: &mut Disk) -> Result<String, Fail> {
    if keeper.next_call().is_err() {
        return Ok(String::from_str(alloc, "stopped")?);
    }
    let syncs = make_all(keeper, disk)?;
    Ok(format!(in alloc; "{syncs} syncs")?)
}

/// Makes a call, and returns its answer as text.
pub(crate) fn answer(alloc: Global, life: &mut Life, call: Call) -> Result<String, Fail> {
    let keeper = &mut life.called.keeper;
    match call {
        Call::Append(text) => index_text(alloc, &life.called.endpoint.append(0, text.as_bytes())),
        Call::Turn => done_text(alloc, "ok", &keeper.turn(alloc)),
        Call::Settle => done_text(alloc, "ok", &keeper.settle()),
        Call::Make => {
            let is_made = make(keeper, &mut life.disk)?;
            Ok(format!(in alloc; "{is_made}")?)
        }
        Call::MakeAll => made_text(alloc, keeper, &mut life.disk),
        Call::Fail => done_text(alloc, "noted", &keeper.note_call(false)),
    }
}
