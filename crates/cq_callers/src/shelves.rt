//! A shelf, for more messages than one queue holds.
use cq_model::{Config, Message};
use cq_shelf::{AtLimit, Position, ShelfFault, ShelfNext, ShelfWriter};
use std::alloc::Global;

/// Makes a shelf of which at most three queues live at once, appends a message, and reads it.
pub fn first_of_shelf(
    alloc: Global,
    config: Config,
    moment: u64,
) -> Result<Option<(Position, Message)>, ShelfFault> {
    let mut writer = ShelfWriter::create(alloc, config, 3, AtLimit::Refuse, moment)?;
    let mut reader = writer.reader()?;
    writer.append(alloc, moment, b"hello")?;
    match reader.next(alloc)? {
        ShelfNext::Message(position, message) => Ok(Some((position, message))),
        _ => Ok(None),
    }
}
