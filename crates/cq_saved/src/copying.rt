//! Copies of what a queue holds.
ghost use Rattle.std.specs.Prelude.{◌≡◌, IfOk};

use cq_model::{Contents, CycleList, Items, Message};
use std::alloc::{AllocError, Global};

/// Copies the cycles with each message, the positions and the floor.
///
/// Errors:
/// - `AllocError`: out of memory.
pub(crate) fn copied(alloc: Global, contents: &Contents) -> Result<Contents, AllocError>
    ensures { IfOk result (λ copy. copy ≡ contents.now) }
{
    Ok(Contents {
        lists: copied_lists(alloc, contents.lists.as_slice())?,
        positions: Items::new(contents.positions.as_slice().to_vec(alloc)?),
        floor: contents.floor,
    })
}

/// Copies cycles with their messages.
fn copied_lists(alloc: Global, lists: &[CycleList]) -> Result<Items<CycleList>, AllocError>
    ensures { IfOk result (λ copy. copy ≡ lists.now) }
{
    let mut copies = Vec::with_capacity(alloc, lists.len())?;
    for i in 0..lists.len() {
        let list = &lists[i];
        copies.push(CycleList {
            cycle: list.cycle,
            messages: copied_messages(alloc, list.messages.as_slice())?,
        })?;
    }
    Ok(Items::new(copies))
}

/// Copies messages.
fn copied_messages(alloc: Global, messages: &[Message]) -> Result<Items<Message>, AllocError>
    ensures { IfOk result (λ copy. copy ≡ messages.now) }
{
    let mut copies = Vec::with_capacity(alloc, messages.len())?;
    for i in 0..messages.len() {
        copies.push(Items::new(messages[i].as_slice().to_vec(alloc)?))?;
    }
    Ok(Items::new(copies))
}
