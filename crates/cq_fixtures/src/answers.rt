//! What calls of queues return, as text.
use cq_cycle::Index;
use cq_model::Message;
use std::alloc::Global;
use std::fmt::Debug;
use std::test::Fail;

/// Gives a message as text, after its index.
pub fn message_text(alloc: Global, index: Index, message: &Message) -> Result<String, Fail> {
    let text = str::from_utf8(message.as_slice())?;
    Ok(format!(in alloc; "{} {}", index.value(), text)?)
}

/// Gives a message as text, after its index, or `none` if there is no message.
pub fn message_or_none(alloc: Global, answer: &Option<(Index, Message)>) -> Result<String, Fail> {
    match answer {
        Some((index, message)) => message_text(alloc, *index, message),
        None => Ok(String::from_str(alloc, "none")?),
    }
}

/// Gives what a call returned as it is, or why it did nothing.
pub fn shown_text<T: Debug, E: Debug>(
    alloc: Global,
    answer: &Result<T, E>,
) -> Result<String, Fail> {
    match answer {
        Ok(value) => Ok(format!(in alloc; "{value:?}")?),
        Err(fault) => Ok(format!(in alloc; "{fault:?}")?),
    }
}

/// Gives a number after a label, or why there is none.
pub fn number_text<E: Debug>(
    alloc: Global,
    label: &str,
    answer: &Result<u64, E>,
) -> Result<String, Fail> {
    match answer {
        Ok(number) => Ok(format!(in alloc; "{label}{number}")?),
        Err(fault) => Ok(format!(in alloc; "{fault:?}")?),
    }
}

/// Gives the index of a message that was appended, or why none was.
pub fn index_text<E: Debug>(alloc: Global, answer: &Result<Index, E>) -> Result<String, Fail> {
    match answer {
        Ok(index) => Ok(format!(in alloc; "{}", index.value())?),
        Err(fault) => Ok(format!(in alloc; "{fault:?}")?),
    }
}

/// Gives a word for what a call did, or why it did nothing.
pub fn done_text<E: Debug>(
    alloc: Global,
    word: &str,
    answer: &Result<(), E>,
) -> Result<String, Fail> {
    match answer {
        Ok(()) => Ok(String::from_str(alloc, word)?),
        Err(fault) => Ok(format!(in alloc; "{fault:?}")?),
    }
}
