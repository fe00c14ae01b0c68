//! What each thread of a soak does.
//!
//! A message begins with its number: how many messages its writer had appended before, times the number of writers, and the
//! number of the writer.
use crate::appending::{MOMENT, MOST_TRIES};
use crate::fault::BenchFault;
use crate::tally::{Account, Deed, Order, Tally, WRITERS};
use cq_shelf::{ShelfFault, ShelfNextInto, ShelfReader, ShelfTaken, ShelfTaker, ShelfWriter};
use std::alloc::Global;
use std::thread::yield_now;

/// The bytes of a message.
pub const LENGTH: usize = 64;

/// Returns the message with this number.
fn message_of(number: u64) -> [u8; LENGTH] {
    let mut message = [b'x'; LENGTH];
    message[..8].copy_from_slice(&number.to_le_bytes());
    message
}

/// Returns the number of a message.
fn number_of(message: &[u8]) -> Result<u64, BenchFault> {
    match message.first_chunk::<8>() {
        Some(bytes) if message.len() == LENGTH => Ok(u64::from_le_bytes(*bytes)),
        _ => Err(BenchFault::Missing),
    }
}

/// Appends messages until the soak is over, and returns them. The last writer closes the shelf.
pub fn write(
    alloc: Global,
    tally: &Tally,
    writer: &mut ShelfWriter,
    name: u64,
) -> Result<Account, BenchFault> {
    let written = write_messages(alloc, tally, writer, name);
    if tally.is_last_writer() {
        close(writer)?;
    }
    written
}

fn write_messages(
    alloc: Global,
    tally: &Tally,
    writer: &mut ShelfWriter,
    name: u64,
) -> Result<Account, BenchFault> {
    let mut written = Account::NONE;
    for _ in 0..u64::MAX {
        if tally.is_over() {
            break;
        }
        let number = written.count.wrapping_mul(WRITERS).wrapping_add(name);
        match writer.append(alloc, MOMENT, &message_of(number)) {
            Ok(at) => {
                written.add(number);
                tally.note(Deed::Append, written, at.queue);
            }
            Err(ShelfFault::Busy | ShelfFault::Full) => yield_now(),
            Err(fault) => return Err(BenchFault::Shelf(fault)),
        }
    }
    Ok(written)
}

/// Closes the shelf.
fn close(writer: &mut ShelfWriter) -> Result<(), BenchFault> {
    for _ in 0..MOST_TRIES {
        match writer.close() {
            Ok(()) => return Ok(()),
            Err(ShelfFault::Busy) => yield_now(),
            Err(fault) => return Err(BenchFault::Shelf(fault)),
        }
    }
    Err(BenchFault::Shelf(ShelfFault::Busy))
}

/// Reads messages into a buffer until the shelf is closed, and returns them. They are each message of each writer, in order.
pub fn read(tally: &Tally, reader: &mut ShelfReader) -> Result<Account, BenchFault> {
    let mut read = Account::NONE;
    let mut order = Order::new();
    let mut room = [0u8; LENGTH];
    let mut tries = 0u32;
    for _ in 0..u64::MAX {
        match reader.next_into(&mut room) {
            Ok(ShelfNextInto::Message(at, len)) => {
                let number = number_of(room.get(..len as usize).unwrap_or(&[]))?;
                order.expect_next(number)?;
                read.add(number);
                tally.note(Deed::Read, read, at.queue);
                tries = 0;
            }
            Ok(ShelfNextInto::NotYet) | Err(ShelfFault::Busy) => try_again(&mut tries)?,
            Ok(ShelfNextInto::Finished) => return Ok(read),
            Ok(_) => return Err(BenchFault::Missing),
            Err(fault) => return Err(BenchFault::Shelf(fault)),
        }
    }
    Err(BenchFault::Missing)
}

/// Takes messages as owned copies until the shelf is closed, and returns them. Those of each writer come in order.
pub fn take(alloc: Global, tally: &Tally, taker: &mut ShelfTaker) -> Result<Account, BenchFault> {
    let mut taken = Account::NONE;
    let mut order = Order::new();
    let mut tries = 0u32;
    for _ in 0..u64::MAX {
        match taker.take(alloc) {
            Ok(ShelfTaken::Taken(at, message)) => {
                let number = number_of(message.as_slice())?;
                order.expect_later(number)?;
                taken.add(number);
                tally.note(Deed::Take, taken, at.queue);
                tries = 0;
            }
            Ok(ShelfTaken::NotYet | ShelfTaken::Moved(_)) | Err(ShelfFault::Busy) => try_again(
                &mut tries,
            )?,
            Ok(ShelfTaken::Finished) => return Ok(taken),
            Ok(ShelfTaken::Missed(_)) => return Err(BenchFault::Missing),
            Err(fault) => return Err(BenchFault::Shelf(fault)),
        }
    }
    Err(BenchFault::Missing)
}

/// Lets others work before the next try, unless there were as many tries as may be.
fn try_again(tries: &mut u32) -> Result<(), BenchFault> {
    if *tries >= MOST_TRIES {
        return Err(BenchFault::Missing);
    }
    *tries += 1;
    yield_now();
    Ok(())
}
