//! Reading messages from a queue that others may write to.
ghost use Rattle.std.specs.Prelude.{◌≡◌, ◌+◌, ◌≤◌, IfOk, OnOk};
ghost use Rattle.cq_bench.specs.Counts.{messages_read, of_a_look};
ghost use Rattle.cq_words.specs.Values.{IsOf};

use crate::fault::BenchFault;
use cq_tail::{Found, FoundInto, Tailer};
use cq_words::Queue;
use std::alloc::{AllocError, Global};
use std::hint::spin_loop;

/// The bytes of a buffer: as many as the longest measured messages have.
const ROOM: usize = 4096;

/// How messages are read.
#[derive(Clone, Copy)]
pub enum Reading {
    /// As owned copies.
    Copies,
    /// Into a buffer of the tailer's own.
    Into,
}

/// Where a tailer puts the messages that it reads.
#[derive(Drop)]
pub enum Target {
    /// Owned copies, which take memory.
    Copies(Global),
    /// This buffer, one message after the other, which takes none.
    Room(Vec<u8>),
}

impl Target {
    /// Makes a target for messages that are read in this way.
    pub fn new(alloc: Global, reading: Reading) -> Result<Target, AllocError> {
        match reading {
            Reading::Copies => Ok(Target::Copies(alloc)),
            Reading::Into => Ok(Target::Room(Vec::from_elem(alloc, 0, ROOM)?)),
        }
    }
}

/// Reads the next message, if it has come, as an owned copy. Returns whether it has.
#[inline(always)]
fn look_for_copy(alloc: Global, queue: &Queue, tailer: &mut Tailer) -> Result<bool, BenchFault>
    requires { IsOf queue.now tailer.old.caller }
    ensures of { IsOf queue.now tailer.new.caller }
    ensures read { IfOk result (λ come.
        messages_read tailer.old.caller + of_a_look come ≤ messages_read tailer.new.caller) }
{
    match tailer.next(alloc, queue)? {
        Found::Message(_index, _message) => Ok(true),
        Found::NotYet | Found::BeforeStart => Ok(false),
    }
}

/// Reads the next message, if it has come, into a buffer. Returns whether it has. It is not inlined: its figure is
/// that of a call, and is compared with that of a call from C.
#[inline(never)]
fn look_into(queue: &Queue, tailer: &mut Tailer, room: &mut [u8]) -> Result<bool, BenchFault>
    requires { IsOf queue.now tailer.old.caller }
    ensures of { IsOf queue.now tailer.new.caller }
    ensures read { IfOk result (λ come.
        messages_read tailer.old.caller + of_a_look come ≤ messages_read tailer.new.caller) }
{
    match tailer.next_into(queue, room) {
        FoundInto::Message(_index, _len) => Ok(true),
        FoundInto::NotYet | FoundInto::BeforeStart => Ok(false),
        FoundInto::NoRoom(_len) => Err(BenchFault::Missing),
    }
}

/// Reads the next message as an owned copy. If none has come it tries again, up to this many times.
#[inline(always)]
pub fn read_copy(
    alloc: Global,
    queue: &Queue,
    tailer: &mut Tailer,
    tries: u32,
) -> Result<(), BenchFault>
    requires { IsOf queue.now tailer.old.caller }
    ensures of { IsOf queue.now tailer.new.caller }
    ensures read { OnOk result (messages_read tailer.old.caller + 1 ≤ messages_read tailer.new.caller) }
{
    if look_for_copy(alloc, queue, tailer)? {
        return Ok(());
    }
    read_copy_again(alloc, queue, tailer, tries)
}

/// Tries again to read a message that had not come, with a pause before each try. It is a function of its own, so
/// that a read is one call if messages are there.
#[inline(never)]
fn read_copy_again(
    alloc: Global,
    queue: &Queue,
    tailer: &mut Tailer,
    tries: u32,
) -> Result<(), BenchFault>
    requires { IsOf queue.now tailer.old.caller }
    ensures of { IsOf queue.now tailer.new.caller }
    ensures read { OnOk result (messages_read tailer.old.caller + 1 ≤ messages_read tailer.new.caller) }
{
    for _ in 0..tries {
        spin_loop();
        if look_for_copy(alloc, queue, tailer)? {
            return Ok(());
        }
    }
    Err(BenchFault::Missing)
}

/// Reads the next message into a buffer. If none has come it tries again, this many times in all.
#[inline(always)]
fn read_into(
    queue: &Queue,
    tailer: &mut Tailer,
    room: &mut [u8],
    tries: u32,
) -> Result<(), BenchFault>
    requires { IsOf queue.now tailer.old.caller }
    ensures of { IsOf queue.now tailer.new.caller }
    ensures read { OnOk result (messages_read tailer.old.caller + 1 ≤ messages_read tailer.new.caller) }
{
    for _ in 0..tries {
        if look_into(queue, tailer, room)? {
            return Ok(());
        }
        spin_loop();
    }
    Err(BenchFault::Missing)
}

/// Reads this many messages as owned copies. If the next one has not come it tries again, up to the given number of
/// times for each.
fn read_copies(
    alloc: Global,
    queue: &Queue,
    tailer: &mut Tailer,
    count: u32,
    tries: u32,
) -> Result<(), BenchFault>
    requires { IsOf queue.now tailer.old.caller }
    ensures of { IsOf queue.now tailer.new.caller }
    ensures read { OnOk result (messages_read tailer.old.caller + count ≤ messages_read tailer.new.caller) }
{
    for done in 0..count {
        if !look_for_copy(alloc, queue, tailer)? {
            return wait_for_copies(alloc, queue, tailer, count - done, tries);
        }
    }
    Ok(())
}

/// The same if the next one had not come. It is a function of its own, so that nothing is kept for more tries if
/// messages are there.
#[inline(never)]
fn wait_for_copies(
    alloc: Global,
    queue: &Queue,
    tailer: &mut Tailer,
    count: u32,
    tries: u32,
) -> Result<(), BenchFault>
    requires { IsOf queue.now tailer.old.caller }
    ensures of { IsOf queue.now tailer.new.caller }
    ensures read { OnOk result (messages_read tailer.old.caller + count ≤ messages_read tailer.new.caller) }
{
    for _ in 0..count {
        read_copy(alloc, queue, tailer, tries)?;
    }
    Ok(())
}

/// The same into a buffer, one after the other.
fn read_all_into(
    queue: &Queue,
    tailer: &mut Tailer,
    room: &mut [u8],
    count: u32,
    tries: u32,
) -> Result<(), BenchFault>
    requires { IsOf queue.now tailer.old.caller }
    ensures of { IsOf queue.now tailer.new.caller }
    ensures read { OnOk result (messages_read tailer.old.caller + count ≤ messages_read tailer.new.caller) }
{
    for _ in 0..count {
        read_into(queue, tailer, room, tries)?;
    }
    Ok(())
}

/// Reads this many messages. If the next one has not come it tries again, up to the given number of times for each.
/// At least `count` more of the caller's calls return a message, or it fails.
pub fn read_all(
    target: &mut Target,
    queue: &Queue,
    tailer: &mut Tailer,
    count: u32,
    tries: u32,
) -> Result<(), BenchFault>
    requires { IsOf queue.now tailer.old.caller }
    ensures of { IsOf queue.now tailer.new.caller }
    ensures read { OnOk result (messages_read tailer.old.caller + count ≤ messages_read tailer.new.caller) }
{
    match target {
        Target::Copies(alloc) => read_copies(*alloc, queue, tailer, count, tries),
        Target::Room(room) => read_all_into(queue, tailer, room.as_mut_slice(), count, tries),
    }
}
