//! What is found of the messages of threads.
use cq_cycle::Index;
use cq_model::{Contents, Message};

/// The messages of the only cycle.
pub fn messages(contents: &Contents) -> &[Message] {
    match contents.lists.as_slice().first() {
        Some(list) => list.messages.as_slice(),
        None => &[],
    }
}

/// How many messages of the thread with this letter are there, if they are its first ones, each once and in its order.
pub fn count_of(found: &[Message], letter: u8) -> Option<u8> {
    let mut next = 0u8;
    for message in found {
        let bytes = message.as_slice();
        if bytes.first() != Some(&letter) {
            continue;
        }
        if bytes != [letter, next].as_slice() {
            return None;
        }
        next = next.wrapping_add(1);
    }
    Some(next)
}

/// Whether a message is at an index.
pub(crate) fn is_at(found: &[Message], bytes: &[u8], index: Index) -> bool {
    match found.get(index.sequence() as usize) {
        Some(message) => index.cycle() == 0 && message.as_slice() == bytes,
        None => false,
    }
}
