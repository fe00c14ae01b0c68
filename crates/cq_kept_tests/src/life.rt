//! A queue that keeps what comes to it, and its endpoint: calls of them, and what they return, as text.
//!
//! Each call is a function that borrows what it needs: a proof of one has no other's facts.
use crate::start::{config, images};
use cq_endpoint::{Endpoint, Taken};
use cq_fixtures::{done_text, index_text, message_or_none};
use cq_kept::{KeptQueue, NotOpened, Opened};
use cq_log::Device;
use cq_log_tests::TornFile;
use cq_model::Contents;
use std::alloc::Global;
use std::test::Fail;

/// A call.
#[derive(Clone, Copy)]
pub(crate) enum Call {
    /// Appends this text at a moment.
    Append(u64, &'static str),
    /// Takes a message by "reader".
    Take,
    /// Drops the cycles below this one.
    DropBefore(u32),
    /// Makes a turn.
    Turn,
    /// Stores what was put.
    Settle,
}

/// Opens a queue that holds these contents, with a log in a file in memory, of whose writes and syncs the one with this number fails.
pub(crate) fn opened(
    alloc: Global,
    contents: &Contents,
    failing: u64,
) -> Result<Result<Opened<TornFile>, NotOpened<TornFile>>, Fail> {
    let config = config(alloc)?;
    let device = TornFile::new(alloc, failing);
    Ok(KeptQueue::open(alloc, config, contents, device))
}

/// Opens a queue that holds what the images do. No write and no sync fails.
pub(crate) fn of_images(alloc: Global) -> Result<Opened<TornFile>, Fail> {
    match opened(alloc, &images(alloc)?, 0)? {
        Ok(life) => Ok(life),
        Err(error) => Err(Fail::from(error.fault)),
    }
}

/// Appends a text at a moment, and returns the answer.
pub(crate) fn append(
    alloc: Global,
    endpoint: &mut Endpoint,
    moment: u64,
    text: &str,
) -> Result<String, Fail> {
    index_text(alloc, &endpoint.append(moment, text.as_bytes()))
}

/// Takes a message by "reader", and returns the answer.
pub(crate) fn take(alloc: Global, endpoint: &mut Endpoint) -> Result<String, Fail> {
    let found = match endpoint.take(alloc, "reader")? {
        Taken::Taken(index, message) => Some((index, message)),
        Taken::NotYet | Taken::Finished | Taken::Moved(_) => None,
    };
    message_or_none(alloc, &found)
}

fn drop_before(alloc: Global, endpoint: &mut Endpoint, cycle: u32) -> Result<String, Fail> {
    endpoint.to_end();
    Ok(format!(in alloc; "floor {}", endpoint.drop_before(cycle)?)?)
}

fn turn<D: Device>(alloc: Global, kept: &mut KeptQueue<D>) -> Result<String, Fail> {
    done_text(alloc, "ok", &kept.turn(alloc))
}

fn settle<D: Device>(alloc: Global, kept: &mut KeptQueue<D>) -> Result<String, Fail> {
    done_text(alloc, "ok", &kept.settle())
}

/// Makes a call, and returns its answer as text.
pub(crate) fn answer<D: Device>(
    alloc: Global,
    life: &mut Opened<D>,
    call: Call,
) -> Result<String, Fail> {
    match call {
        Call::Append(moment, text) => append(alloc, &mut life.endpoint, moment, text),
        Call::Take => take(alloc, &mut life.endpoint),
        Call::DropBefore(cycle) => drop_before(alloc, &mut life.endpoint, cycle),
        Call::Turn => turn(alloc, &mut life.kept),
        Call::Settle => settle(alloc, &mut life.kept),
    }
}
