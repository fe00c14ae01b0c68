//! A queue of many messages.

ghost use Rattle.std.specs.Prelude.{◌≡◌, IfOk, None};
ghost use Rattle.cq_words.specs.Values.{IsOf};

use cq_append::Appender;
use cq_fixtures::config_of;
use cq_layout::Shape;
use cq_model::{Config, Contents};
use cq_shown::recover;
use cq_words::{Caller, Queue};
use std::alloc::Global;
use std::marker::Model;
use std::test::Fail;

/// How many messages the queues have.
pub const COUNT: u32 = 30_000;

/// One message in this many has an entry.
pub const SPACING: u32 = 16;

/// One cycle in which all messages fit.
fn config(alloc: Global) -> Result<Config, Fail> {
    Ok(config_of(alloc, Shape::new(1_048_576, 256, SPACING)?, 1)?)
}

/// A new queue, and its first caller.
fn new_queue(alloc: Global) -> Result<(Queue, Caller), Fail>
    ensures of { IfOk result (λ made. IsOf made.0 made.1) }
    ensures idle { IfOk result (λ made. made.1.view.claim ≡ None) }
{
    Ok(Queue::create(alloc, config(alloc)?, 0)?)
}

/// Appends this many messages at moment 0.
pub fn append_all(queue: &Queue, caller: Caller, count: u32) -> Result<Caller, Fail>
    requires of { IsOf queue.now caller }
    requires idle { caller.view.claim ≡ None }
    ensures { IfOk result (λ caller. IsOf queue.now caller) }
{
    let mut appender = Appender::new(caller);
    for _ in 0..count {
        appender.append(queue, 0, b"a")?;
    }
    Ok(appender.into_caller())
}

/// A queue of many messages, and a caller of it. Contracts see no more of it than that it is of this queue.
#[derive(Drop)]
pub struct Many {
    pub queue: Queue,
    pub caller: Caller,
}

impl Model for Many {
    ghost use Rattle.std.specs.Prelude.{ℕ};
    ghost use Rattle.cq_words.specs.Values.{IsOf};

    ghost Value = { ℕ };

    ghost view = { λ m. 0 };

    ghost invariant = { λ m. IsOf m.queue m.caller };
}

/// A queue to which this many messages were appended by a caller, its only one.
fn filled(queue: Queue, caller: Caller, count: u32) -> Result<Many, Fail>
    requires of { IsOf queue caller }
    requires idle { caller.view.claim ≡ None }
{
    let caller = append_all(&queue, caller, count)?;
    Ok(Many { queue, caller })
}

impl Many {
    /// A new queue to which this many messages were appended.
    pub fn of(alloc: Global, count: u32) -> Result<Many, Fail> {
        let (queue, caller) = new_queue(alloc)?;
        filled(queue, caller, count)
    }

    /// A new queue to which all messages were appended.
    pub fn new(alloc: Global) -> Result<Many, Fail> {
        Many::of(alloc, COUNT)
    }

    /// What the queue holds once it is stopped.
    fn into_contents(self, alloc: Global) -> Result<Contents, Fail> {
        let Many { queue, caller } = self;
        Ok(recover(alloc, &queue.stop(caller))?)
    }

    /// A new queue of all messages, stopped and opened again: no message has an entry, and there is no write position.
    pub fn reopened(alloc: Global) -> Result<Many, Fail> {
        let contents = Many::new(alloc)?.into_contents(alloc)?;
        Many::held(alloc, config(alloc)?, &contents, 0)
    }

    /// A queue that is opened again with contents, and to which this many messages were appended then.
    pub fn held(
        alloc: Global,
        config: Config,
        contents: &Contents,
        count: u32,
    ) -> Result<Many, Fail> {
        let (queue, caller) = Queue::reopen(alloc, config, contents)?;
        filled(queue, caller, count)
    }
}
