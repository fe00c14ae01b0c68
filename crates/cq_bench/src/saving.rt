//! A queue is saved as an image, and opened again from it.
ghost use Rattle.std.specs.Prelude.{◌≡◌, IfOk, None};
ghost use Rattle.cq_words.specs.Values.{IsOf};

use crate::appending::append_all;
use crate::fault::BenchFault;
use crate::figures::{Figure, Label, print_line};
use crate::queues::{config_of, message_count, new_queue};
use crate::reading::{Target, read_all};
use crate::running::now;
use crate::settings::Settings;
use cq_append::Appender;
use cq_cycle::Roll;
use cq_image::{ImageRead, ReadFault, image_by_layout, recover};
use cq_journal::laws::what_a_stopped_queue_holds_has_images;
use cq_layout::Shape;
use cq_model::{Contents, CycleList, Items, Message};
use cq_tail::Tailer;
use cq_words::{Caller, Queue};
use std::alloc::{AllocError, Global};
use std::rt::Clock;
use std::time::{Duration, Instant};

/// The bytes of a message.
const LENGTH: u32 = 64;

/// A queue as an image, and the time that it took.
#[derive(Drop)]
struct Saved {
    image: Vec<u8>,
    time: Duration,
}

/// Makes the image of the first cycle of a queue, which has not ended.
fn stopped_image(alloc: Global, queue: Queue, caller: Caller) -> Result<Vec<u8>, BenchFault>
    requires { IsOf queue caller }
{
    let stopped = queue.stop(caller);
    let contents = recover(alloc, &stopped)?;
    let layout = stopped.config().layout();
    let Some(list) = contents.lists.as_slice().first() else {
        return Err(BenchFault::Missing);
    };
    what_a_stopped_queue_holds_has_images();
    Ok(image_by_layout(alloc, list.cycle, layout, list.messages.as_slice(), false)?)
}

/// Appends this many messages to a queue, stops it, and makes its image.
fn filled_image(
    alloc: Global,
    queue: Queue,
    caller: Caller,
    count: u32,
) -> Result<Vec<u8>, BenchFault>
    requires of { IsOf queue caller }
    requires idle { caller.view.claim ≡ None }
{
    let mut appender = Appender::new(caller);
    append_all(&queue, &mut appender, &[b'x'; LENGTH as usize], count)?;
    stopped_image(alloc, queue, appender.into_caller())
}

/// Makes the image of a new queue to which this many messages were appended, and measures how long that took.
fn save<R: AllocGlobal + Clock>(rt: &R, shape: Shape, count: u32) -> Result<Saved, BenchFault> {
    let (queue, caller) = new_queue(rt.alloc(), shape)?;
    let start = now(rt);
    let image = filled_image(rt.alloc(), queue, caller, count)?;
    let end = now(rt)?;
    Ok(Saved {
        time: end.duration_since(start?),
        image,
    })
}

/// Reads the messages of a cycle from its image.
fn messages_of(alloc: Global, shape: Shape, image: &[u8]) -> Result<Items<Message>, BenchFault> {
    match cq_image::read(alloc, 0, shape, Roll::Daily, 0, image) {
        Ok(ImageRead { messages, ended: _ }) => Ok(messages),
        Err(ReadFault::Fault(_)) => Err(BenchFault::Missing),
        Err(ReadFault::OutOfMemory) => Err(BenchFault::OutOfMemory),
    }
}

/// Makes the contents of a queue whose first cycle has these messages.
fn contents_of(alloc: Global, messages: Items<Message>) -> Result<Contents, AllocError> {
    let lists = vec![in alloc; CycleList { cycle: 0, messages }]?;
    Ok(Contents {
        lists: Items::new(lists),
        positions: Items::new(Vec::new(alloc)),
        floor: 0,
    })
}

/// Reads the contents of a queue from its image.
fn contents_in(alloc: Global, shape: Shape, image: &[u8]) -> Result<Contents, BenchFault> {
    Ok(contents_of(alloc, messages_of(alloc, shape, image)?)?)
}

/// Opens a queue with these contents, and returns it with its first caller.
fn reopened(alloc: Global, shape: Shape, contents: &Contents) -> Result<(Queue, Caller), BenchFault>
    ensures of { IfOk result (λ made. IsOf made.0 made.1) }
    ensures idle { IfOk result (λ made. made.1.view.claim ≡ None) }
{
    Ok(Queue::reopen(alloc, config_of(alloc, shape)?, contents)?)
}

/// Reads this many messages, and returns the time since a start.
fn time_to_read<R: AllocGlobal + Clock>(
    rt: &R,
    queue: &Queue,
    tailer: &mut Tailer,
    count: u32,
    start: Instant,
) -> Result<Duration, BenchFault>
    requires { IsOf queue.now tailer.old.caller }
{
    let mut target = Target::Copies(rt.alloc());
    read_all(&mut target, queue, tailer, count, 1)?;
    Ok(now(rt)?.duration_since(start))
}

/// Opens a queue with these contents, and reads this many messages. Returns the time since a start.
fn time_to_read_of<R: AllocGlobal + Clock>(
    rt: &R,
    shape: Shape,
    contents: &Contents,
    count: u32,
    start: Instant,
) -> Result<Duration, BenchFault> {
    let (queue, caller) = reopened(rt.alloc(), shape, contents)?;
    time_to_read(rt, &queue, &mut Tailer::new(caller), count, start)
}

/// Reads an image, opens a queue with its contents, and reads this many messages. Returns the time that it took.
fn reopen_time<R: AllocGlobal + Clock>(
    rt: &R,
    shape: Shape,
    image: &[u8],
    count: u32,
) -> Result<Duration, BenchFault> {
    let start = now(rt)?;
    let contents = contents_in(rt.alloc(), shape, image)?;
    time_to_read_of(rt, shape, &contents, count, start)
}

/// Measures how long it takes to save a queue.
pub fn print_save<R: AllocGlobal + Clock + Print>(
    rt: &R,
    settings: &Settings,
) -> Result<(), BenchFault> {
    let count = message_count(settings.shape, LENGTH);
    let mut best = Duration::MAX;
    for _ in 0..settings.repetitions {
        best = best.min(save(rt, settings.shape, count)?.time);
    }
    print_messages(rt, settings, "save", count, best)
}

/// Measures how long it takes to open a queue again.
pub fn print_reopen<R: AllocGlobal + Clock + Print>(
    rt: &R,
    settings: &Settings,
) -> Result<(), BenchFault> {
    let count = message_count(settings.shape, LENGTH);
    let image = save(rt, settings.shape, count)?.image;
    let mut best = Duration::MAX;
    for _ in 0..settings.repetitions {
        best = best.min(reopen_time(rt, settings.shape, image.as_slice(), count)?);
    }
    print_messages(rt, settings, "reopen", count, best)
}

fn print_messages<R: Print>(
    rt: &R,
    settings: &Settings,
    case: &str,
    count: u32,
    time: Duration,
) -> Result<(), BenchFault> {
    let label = Label {
        case,
        payload: LENGTH,
        threads: "1",
    };
    let figure = Figure::rate(u64::from(count), time);
    print_line(rt, settings, label, figure, "msg/s")
}
