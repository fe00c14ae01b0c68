//! The messages that are appended in a race, and the counts of what was read.
ghost use Rattle.std.specs.Prelude.{◌≡◌, ◌↔◌, ◌<◌, ◌++◌, ◌∷◌, List, ℕ, IfOk, IsTrue, length, slice_index_or, string_bytes, []};
ghost use Rattle.cq_race.specs.Races.{IsInOrder, IsInOrderForBoth, IsTally, message_of, messages_of, tally_text};

use cq_model::{Items, Message};
use std::alloc::{AllocError, Global};

/// Returns the first messages of a writer.
fn messages_of(alloc: Global, writer: usize, count: u32) -> Result<Vec<Message>, AllocError>
    ensures { IfOk result (λ messages. messages.items ≡ messages_of writer count) }
{
    let mut messages = Vec::new(alloc);
    for number in 0..count {
        let message = message_of(alloc, writer, number)?;
        messages.push(message).map_err(|_| AllocError)?;
    }
    Ok(messages)
}

/// Returns message `number` of a writer.
pub(crate) fn message_of(alloc: Global, writer: usize, number: u32) -> Result<Message, AllocError>
    ensures { IfOk result (λ message. message ≡ message_of writer number) }
{
    let text = format!(in alloc; "{writer} {number}")?;
    Ok(Items::new(text.into_bytes()))
}

/// Returns the lines that say what two readers read, if each writer was to append `count` messages.
pub(crate) fn tally_text(
    alloc: Global,
    count: u32,
    first: &[Message],
    second: &[Message],
) -> Result<String, AllocError>
    ensures { IfOk result (λ text. IsTally count first.now second.now (string_bytes text)) }
{
    let by_zero = in_order_for_both(messages_of(alloc, 0, count)?.as_slice(), first, second);
    let by_one = in_order_for_both(messages_of(alloc, 1, count)?.as_slice(), first, second);
    spelled(alloc, by_zero, by_one, first.len(), second.len())
}

/// Returns the lines of how many messages of each writer were read in order, and of how many each reader read.
fn spelled(
    alloc: Global,
    by_zero: usize,
    by_one: usize,
    first: usize,
    second: usize,
) -> Result<String, AllocError>
    ensures { IfOk result (λ text. string_bytes text ≡ tally_text by_zero by_one first second) }
{
    format!(in alloc;
        "writer 0: {by_zero} in order\nwriter 1: {by_one} in order\nreader 0: {first} read\nreader 1: {second} read\n"
    )
}

/// Counts the messages of a writer, from the first on, that both readers read in this order.
fn in_order_for_both(messages: &[Message], first: &[Message], second: &[Message]) -> usize
    ensures { IsInOrderForBoth messages.now first.now second.now result }
{
    in_order(messages, first).min(in_order(messages, second))
}

/// Counts the messages of a writer, from the first on, that were read in this order.
fn in_order(messages: &[Message], read: &[Message]) -> usize
    ensures { IsInOrder messages.now read.now result }
{
    let mut count = 0;
    for message in read {
        count = counted(messages, count, message.as_slice());
    }
    count
}

/// Returns the count once these bytes too were read, after those that were counted.
fn counted(messages: &[Message], count: usize, bytes: &[u8]) -> usize
    ensures { (read : List (List ℕ)) → IsInOrder messages.now read count
        → IsInOrder messages.now (read ++ bytes.now ∷ []) result }
{
    if is_message(messages, count, bytes) {
        count + 1
    } else {
        count
    }
}

/// Returns whether these bytes are the message at this place.
fn is_message(messages: &[Message], place: usize, bytes: &[u8]) -> bool
    ensures { IsTrue result ↔ (place < length messages.now) × (slice_index_or messages.now place [] ≡ bytes.now) }
{
    if place >= messages.len() {
        return false;
    }
    messages[place].as_slice() == bytes
}
