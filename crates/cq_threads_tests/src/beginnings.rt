//! Which cycles begin others.

use cq_model::{CycleList, Message};

/// Whether these messages are the first ones of others.
fn has_first(few: &[Message], more: &[Message]) -> bool {
    for (place, message) in few.iter().enumerate() {
        match more.get(place) {
            Some(other) => {
                if message.as_slice() != other.as_slice() {
                    return false;
                }
            }
            None => return false,
        }
    }
    true
}

/// Whether a cycle may have become another list: the same cycle, with more messages if it may still grow.
fn may_become(list: &CycleList, later: &CycleList, may_grow: bool) -> bool {
    let messages = list.messages.as_slice();
    let others = later.messages.as_slice();
    list.cycle == later.cycle
        && has_first(messages, others)
        && (may_grow || messages.len() == others.len())
}

/// Whether later cycles begin with these: all except the last one are the same there, and the last one has more
/// messages, or the same.
pub fn is_beginning(lists: &[CycleList], later: &[CycleList]) -> bool {
    for (place, list) in lists.iter().enumerate() {
        match later.get(place) {
            Some(other) => {
                if !may_become(list, other, place + 1 == lists.len()) {
                    return false;
                }
            }
            None => return false,
        }
    }
    true
}

/// Whether later cycles begin with these, if there are any.
pub fn is_some_beginning(lists: &Option<Vec<CycleList>>, later: &[CycleList]) -> bool {
    match lists {
        Some(lists) => is_beginning(lists.as_slice(), later),
        None => false,
    }
}
