//! Calls of a shelf that wait: a time that passes, and threads that end the wait of others.
use cq_fixtures::{expect_text, small_config};
use cq_shelf::{
    AtLimit, Position, ShelfFault, ShelfNext, ShelfReader, ShelfTaken, ShelfTaker, ShelfWriter,
};
use std::alloc::Global;
use std::sync::Wait;
use std::test::Fail;
use std::thread::{Threads, map_vec, sleep};
use std::time::{Clock, Duration, Instant};

/// A time that passes, in milliseconds.
const SHORT: u64 = 20;

/// A time in which a thread that waits has an answer in any case, in milliseconds.
const LONG: u64 = 20_000;

/// A shelf with places for two queues of 64 cells, each of which takes 13 messages of one byte.
fn new_shelf(alloc: Global) -> Result<ShelfWriter, Fail> {
    let config = small_config(alloc, 1)?;
    Ok(ShelfWriter::create(alloc, config, 2, AtLimit::Refuse, 0)?)
}

/// What a thread comes to by its last call.
#[derive(Clone, Copy, Debug, PartialEq, Eq)]
enum End {
    /// A message was read or taken.
    Message,
    /// A message was appended.
    Appended,
    NotYet,
    Finished,
    Full,
    Closed,
    /// Its writer was dropped.
    Dropped,
    /// An answer that does not come here.
    Other,
    /// Another fault.
    Refused,
}

/// What is read, without its text.
fn read_end(answer: &Result<ShelfNext, ShelfFault>) -> End {
    match answer {
        Ok(ShelfNext::Message(_, _)) => End::Message,
        Ok(ShelfNext::NotYet) => End::NotYet,
        Ok(ShelfNext::Finished) => End::Finished,
        Ok(ShelfNext::BeforeStart | ShelfNext::Missed(_)) => End::Other,
        Err(_) => End::Refused,
    }
}

/// What is taken, without its text.
fn taken_end(answer: &Result<ShelfTaken, ShelfFault>) -> End {
    match answer {
        Ok(ShelfTaken::Taken(_, _)) => End::Message,
        Ok(ShelfTaken::NotYet) => End::NotYet,
        Ok(ShelfTaken::Finished) => End::Finished,
        Ok(ShelfTaken::Moved(_) | ShelfTaken::Missed(_)) => End::Other,
        Err(_) => End::Refused,
    }
}

/// What is appended.
fn appended_end(answer: Result<Position, ShelfFault>) -> End {
    match answer {
        Ok(_) => End::Appended,
        Err(ShelfFault::Full) => End::Full,
        Err(ShelfFault::Closed) => End::Closed,
        Err(_) => End::Refused,
    }
}

/// What a thread does.
#[derive(Drop)]
enum Job {
    /// Reads, and waits for a message.
    Read(ShelfReader),
    /// Takes, and waits for a message.
    Take(ShelfTaker),
    /// Appends, and waits for a place.
    Append(ShelfWriter),
    /// Sleeps for the short time and appends.
    LaterAppend(ShelfWriter),
    /// Begins a message, sleeps for the short time, and completes it.
    LaterComplete(ShelfWriter),
    /// Sleeps for the short time and closes the shelf. The reader stays where it is until then.
    LaterClose(ShelfWriter, ShelfReader),
    /// Sleeps for the short time and reads all messages.
    LaterRead(ShelfReader),
    /// Sleeps for the short time, and is dropped with the message that it has begun.
    LaterDrop(ShelfWriter),
}

/// Sleeps for the short time.
fn nap<R: Clock>(rt: &R) {
    sleep(rt, Duration::from_millis(SHORT));
}

/// Begins a message, sleeps for the short time and completes it.
fn complete_later<R: Clock>(rt: &R, alloc: Global, mut writer: ShelfWriter) -> End {
    if writer.begin(alloc, 0, 1).is_err() || writer.put(b"a").is_err() {
        return End::Refused;
    }
    nap(rt);
    match writer.complete() {
        Ok(_) => End::Appended,
        Err(_) => End::Refused,
    }
}

/// Closes the shelf.
fn close(mut writer: ShelfWriter) -> End {
    match writer.close() {
        Ok(()) => End::Closed,
        Err(_) => End::Refused,
    }
}

/// Reads all messages that are there.
fn read_all(alloc: Global, mut reader: ShelfReader) -> End {
    for _ in 0..100u32 {
        let answer = reader.next(alloc);
        if read_end(&answer) != End::Message {
            return read_end(&answer);
        }
    }
    End::Other
}

impl Job {
    /// What its last call gives, where a call that waits does so for this many milliseconds.
    fn work<R: Wait + Clock + AllocGlobal>(self, rt: &R, millis: u64) -> End {
        let time = Duration::from_millis(millis);
        match self {
            Job::Read(mut reader) => read_end(&reader.next_waiting(rt, time)),
            Job::Take(mut taker) => taken_end(&taker.take_waiting(rt, time)),
            Job::Append(mut writer) => appended_end(writer.append_waiting(rt, time, 0, b"a")),
            Job::LaterAppend(mut writer) => {
                nap(rt);
                appended_end(writer.append(rt.alloc(), 0, b"a"))
            }
            Job::LaterComplete(writer) => complete_later(rt, rt.alloc(), writer),
            Job::LaterClose(writer, reader) => {
                nap(rt);
                let end = close(writer);
                drop(reader);
                end
            }
            Job::LaterRead(reader) => {
                nap(rt);
                read_all(rt.alloc(), reader)
            }
            Job::LaterDrop(writer) => {
                nap(rt);
                drop(writer);
                End::Dropped
            }
        }
    }
}

/// What the threads of these jobs come to, in turn, and whether it was well within the long time.
fn worked_text<R: Threads + Wait + Clock + AllocGlobal + Sync>(
    rt: &R,
    jobs: Vec<Job>,
) -> Result<String, Fail> {
    let start = Instant::now(rt)?;
    let ends = map_vec(rt, jobs, &|job: Job| -> End { job.work(rt, LONG) })?;
    let is_soon = start.elapsed(rt)? < Duration::from_millis(LONG / 2);
    Ok(format!(in rt.alloc(); "{ends:?}, soon: {is_soon}")?)
}

/// A shelf whose queues are full, and whose name has taken all. Returns its writer, and a reader that has read nothing.
fn full_shelf(alloc: Global) -> Result<(ShelfWriter, ShelfReader, ShelfTaker), Fail> {
    let mut writer = new_shelf(alloc)?;
    let reader = writer.reader()?;
    let mut taker = writer.taker(alloc, "reader")?;
    for _ in 0..26u32 {
        writer.append(alloc, 0, b"a")?;
        let _taken = taker.take(alloc)?;
    }
    Ok((writer, reader, taker))
}

/// Three readers and a taker wait, and one message is appended.
fn append_later(alloc: Global) -> Result<Vec<Job>, Fail> {
    let mut writer = new_shelf(alloc)?;
    Ok(vec![in alloc;
        Job::Read(writer.reader()?),
        Job::Read(writer.reader()?),
        Job::Read(writer.reader()?),
        Job::Take(writer.taker(alloc, "reader")?),
        Job::LaterAppend(writer),
    ]?)
}

/// A reader and a taker wait, and a message is completed that was begun before.
fn complete_after(alloc: Global) -> Result<Vec<Job>, Fail> {
    let mut writer = new_shelf(alloc)?;
    Ok(vec![in alloc;
        Job::Read(writer.reader()?),
        Job::Take(writer.taker(alloc, "reader")?),
        Job::LaterComplete(writer),
    ]?)
}

/// A reader and a taker wait at the end of a full queue, and a message goes to the next one.
fn append_to_next(alloc: Global) -> Result<Vec<Job>, Fail> {
    let mut writer = new_shelf(alloc)?;
    let mut reader = writer.reader()?;
    let mut taker = writer.taker(alloc, "reader")?;
    for _ in 0..13u32 {
        writer.append(alloc, 0, b"a")?;
        let _read = reader.next(alloc)?;
        let _taken = taker.take(alloc)?;
    }
    Ok(vec![in alloc;
        Job::Read(reader),
        Job::Take(taker),
        Job::LaterAppend(writer),
    ]?)
}

/// A reader and a taker wait, and the shelf is closed.
fn close_later(alloc: Global) -> Result<Vec<Job>, Fail> {
    let mut writer = new_shelf(alloc)?;
    let other = writer.reader()?;
    Ok(vec![in alloc;
        Job::Read(writer.reader()?),
        Job::Take(writer.taker(alloc, "reader")?),
        Job::LaterClose(writer, other),
    ]?)
}

/// A writer waits at a full shelf, and a reader reads all messages.
fn read_later(alloc: Global) -> Result<Vec<Job>, Fail> {
    let (writer, reader, taker) = full_shelf(alloc)?;
    drop(taker);
    Ok(vec![in alloc; Job::Append(writer), Job::LaterRead(reader)]?)
}

/// A writer waits at a full shelf, and another one closes it.
fn close_full(alloc: Global) -> Result<Vec<Job>, Fail> {
    let (mut writer, reader, taker) = full_shelf(alloc)?;
    drop(taker);
    let other = writer.split()?;
    Ok(vec![in alloc; Job::Append(writer), Job::LaterClose(other, reader)]?)
}

/// A writer waits while another has begun a message, and that one is dropped.
fn drop_later(alloc: Global) -> Result<Vec<Job>, Fail> {
    let mut writer = new_shelf(alloc)?;
    let mut other = writer.split()?;
    other.begin(alloc, 0, 1)?;
    Ok(vec![in alloc; Job::Append(writer), Job::LaterDrop(other)]?)
}

#[test]
fn threads_end_the_wait_of_others(rt: HostRuntime) -> Result<(), Fail> {
    let alloc = rt.alloc();
    expect_text(
        worked_text(&rt, append_later(alloc)?)?,
        "[Message, Message, Message, Message, Appended], soon: true",
    )?;
    expect_text(
        worked_text(&rt, complete_after(alloc)?)?,
        "[Message, Message, Appended], soon: true",
    )?;
    expect_text(
        worked_text(&rt, append_to_next(alloc)?)?,
        "[Message, Message, Appended], soon: true",
    )?;
    expect_text(
        worked_text(&rt, close_later(alloc)?)?,
        "[Finished, Finished, Closed], soon: true",
    )?;
    expect_text(
        worked_text(&rt, read_later(alloc)?)?,
        "[Appended, NotYet], soon: true",
    )?;
    expect_text(
        worked_text(&rt, close_full(alloc)?)?,
        "[Closed, Closed], soon: true",
    )?;
    expect_text(
        worked_text(&rt, drop_later(alloc)?)?,
        "[Appended, Dropped], soon: true",
    )
}

/// What this job comes to, which waits for the short time, and whether it waited that long.
fn waited_text<R: Wait + Clock + AllocGlobal>(rt: &R, job: Job) -> Result<String, Fail> {
    let start = Instant::now(rt)?;
    let end = job.work(rt, SHORT);
    let is_long = start.elapsed(rt)? >= Duration::from_millis(SHORT);
    Ok(format!(in rt.alloc(); "{end:?}, waited: {is_long}")?)
}

#[test]
fn a_time_that_passes_ends_the_wait(rt: HostRuntime) -> Result<(), Fail> {
    let (mut writer, first, taker) = full_shelf(rt.alloc())?;
    let mut last = writer.reader()?;
    last.to_end()?;
    expect_text(waited_text(&rt, Job::Read(last))?, "NotYet, waited: true")?;
    expect_text(waited_text(&rt, Job::Take(taker))?, "NotYet, waited: true")?;
    // The reader keeps the first queue.
    expect_text(waited_text(&rt, Job::Append(writer))?, "Full, waited: true")?;
    drop(first);
    Ok(())
}
