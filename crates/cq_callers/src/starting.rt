//! A first caller, which the README shows: a queue is made, and a message is appended and read.
use cq_append::Appender;
use cq_cycle::Roll;
use cq_layout::Shape;
use cq_model::Config;
use cq_tail::{Found, Tailer};
use cq_words::Queue;
use std::alloc::Global;
use std::test::Fail;

/// Makes a queue of up to four days, appends a message, and reads it. `moment` is in milliseconds of Unix time.
pub fn start(alloc: Global, moment: u64) -> Result<Found, Fail> {
    let names = vec![in alloc; String::from_str(alloc, "reader")?]?;
    let config = Config::new(Shape::new(65_536, 64, 16)?, 4, Roll::Daily, 0, names)?;
    let (queue, mut caller) = Queue::create(alloc, config, moment)?;
    let mut appender = Appender::new(queue.split(&mut caller));
    let mut tailer = Tailer::new(caller);
    let _index = appender.append(&queue, moment, b"hello")?;
    Ok(tailer.next(alloc, &queue)?)
}
