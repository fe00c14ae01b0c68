//! Endpoints of one queue.
use cq_cycle::Index;
use cq_endpoint::{Endpoint, Next};
use cq_model::{Config, Message};
use std::alloc::Global;
use std::test::Fail;

/// Appends a message to a new queue by one endpoint, and reads what comes first by another, which might be in another thread.
pub fn sent(
    alloc: Global,
    config: Config,
    moment: u64,
    bytes: &[u8],
) -> Result<Option<(Index, Message)>, Fail> {
    let mut one = Endpoint::create(alloc, config, moment)?;
    sent_on(alloc, &mut one, moment, bytes)
}

/// Appends a message by an endpoint, and reads what comes first by another that is split off from it.
fn sent_on(
    alloc: Global,
    one: &mut Endpoint,
    moment: u64,
    bytes: &[u8],
) -> Result<Option<(Index, Message)>, Fail> {
    let mut other = one.split()?;
    pass_on(alloc, one, &mut other, moment, bytes)
}

/// Appends a message by one endpoint, and reads the next one by another.
fn pass_on(
    alloc: Global,
    one: &mut Endpoint,
    other: &mut Endpoint,
    moment: u64,
    bytes: &[u8],
) -> Result<Option<(Index, Message)>, Fail> {
    let _index = one.append(moment, bytes)?;
    match other.next(alloc)? {
        Next::Message(index, message) => Ok(Some((index, message))),
        Next::NotYet | Next::Finished | Next::BeforeStart => Ok(None),
    }
}
