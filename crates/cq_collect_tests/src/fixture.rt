//! A queue for the tests, with a collector: calls of it, and what they return, as text.

ghost use Rattle.cq_words.specs.Values.{IsOf};

use crate::played::{news_text, played};
use cq_append::{Appender, Writing};
use cq_collect::{Collector, News};
use cq_cycle::{Index, Roll};
use cq_fixtures::{Cycles, contents_of, contents_text, lists_text, shown_text};
use cq_layout::Shape;
use cq_model::{Config, Contents};
use cq_shown::{Stopped, recover};
use cq_tail::Tailer;
use cq_words::{Caller, Queue};
use std::alloc::{AllocError, Global};
use std::marker::Model;
use std::test::Fail;

/// How a queue begins. It may have four cycles of a day each, and has the names "one" and "two".
#[derive(Clone, Copy)]
pub enum Beginning {
    /// New at a moment.
    New(u64),
    /// Opened with these cycles and these positions.
    Held(Cycles, &'static [u64]),
}

/// A call by those who share a queue: an appender, a tailer and a collector.
#[derive(Clone, Copy)]
pub enum Call {
    /// Appends this text at a moment.
    Append(u64, &'static str),
    /// Begins the cycle of a moment.
    Advance(u64),
    /// Begins a message at a moment, of at most this many bytes.
    Begin(u64, u32),
    /// Puts this text into the message that was begun.
    Put(&'static str),
    /// Completes the message that was begun.
    Complete,
    /// Gives up the message that was begun.
    GiveUp,
    /// Moves a name from one position to another.
    Seek(&'static str, u64, u64),
    /// Drops the cycles below this one.
    DropBefore(u32),
    /// Looks at what came, and does not hold it.
    Look,
    /// Makes a turn of the collector, and plays its notes.
    Turn,
    /// The same, with another turn if memory was refused to it.
    TurnAgain,
    /// Replaces the collector by a new one, which holds nothing.
    Renew,
    /// Asks what the notes of all turns gave.
    Played,
    /// Takes a snapshot.
    Snapshot,
}

/// A queue with an appender, or the message that the appender has begun, a tailer, a collector, and what the notes of the
/// collector gave. Contracts see no more of it than that all are of this queue.
#[derive(Drop)]
pub struct Fixture {
    pub(crate) queue: Queue,
    pub(crate) appender: Option<Appender>,
    pub(crate) writing: Option<Writing>,
    tailer: Tailer,
    collector: Collector,
    held: Contents,
}

impl Model for Fixture {
    ghost use Rattle.std.specs.Prelude.{ℕ, IfSome};
    ghost use Rattle.cq_words.specs.Values.{IsOf};

    ghost Value = { ℕ };

    ghost view = { λ f. 0 };

    ghost invariant = { λ f. IfSome f.appender (λ appender. IsOf f.queue appender)
        × IfSome f.writing (λ writing. IsOf f.queue writing.caller)
        × IsOf f.queue f.tailer.caller × IsOf f.queue f.collector.caller };
}

/// The configuration of all queues here.
fn config(alloc: Global) -> Result<Config, Fail> {
    let names = vec![in alloc;
        String::from_str(alloc, "one")?,
        String::from_str(alloc, "two")?,
    ]?;
    Ok(Config::new(Shape::new(64, 8, 1)?, 4, Roll::Daily, 0, names)?)
}

/// What a collector holds that has made no turn.
fn nothing(alloc: Global) -> Result<Contents, AllocError> {
    contents_of(alloc, &[], &[0, 0])
}

/// A call of a table that needs something that is not there.
pub(crate) fn misplaced<T>(what: &str) -> Result<T, Fail> {
    Err(Fail::new(format_args!("no {what}")))
}

impl Fixture {
    /// A queue whose only caller is split into these.
    fn of(alloc: Global, queue: Queue, caller: Caller) -> Result<Fixture, Fail>
        requires { IsOf queue caller }
    {
        let held = nothing(alloc)?;
        let mut caller = caller;
        let collector = Collector::new(alloc, &queue, queue.split(&mut caller))?;
        let appender = Appender::new(queue.split(&mut caller));
        let tailer = Tailer::new(queue.split(&mut caller));
        Ok(Fixture {
            queue,
            appender: Some(appender),
            writing: None,
            tailer,
            collector,
            held,
        })
    }

    /// A queue that begins so.
    pub(crate) fn begun(alloc: Global, beginning: Beginning) -> Result<Fixture, Fail> {
        let config = config(alloc)?;
        let (queue, caller) = match beginning {
            Beginning::New(moment) => Queue::create(alloc, config, moment)?,
            Beginning::Held(cycles, positions) => {
                Queue::reopen(alloc, config, &contents_of(alloc, cycles, positions)?)?
            }
        };
        Fixture::of(alloc, queue, caller)
    }

    /// Moves a name to a position that is not past the end.
    fn seek(&mut self, alloc: Global, name: &str, from: u64, to: u64) -> Result<String, Fail> {
        self.tailer.to_end(&self.queue);
        if self.tailer.seen_end() < to {
            return misplaced("end");
        }
        shown_text(alloc, &self.tailer.seek(&self.queue, name, from, to))
    }

    /// Raises the floor to a cycle that has come.
    fn drop_before(&mut self, alloc: Global, cycle: u32) -> Result<String, Fail> {
        self.tailer.to_end(&self.queue);
        if Index::of_value(self.tailer.seen_end()).cycle() < cycle {
            return misplaced("cycle");
        }
        let floor = self.tailer.drop_before(&self.queue, cycle);
        Ok(format!(in alloc; "floor {floor}")?)
    }

    /// Plays the notes of a turn, and gives them as text.
    fn play(&mut self, alloc: Global, news: News) -> Result<String, Fail> {
        let text = news_text(alloc, &news)?;
        let held = std::mem::replace(&mut self.held, nothing(alloc)?);
        self.held = played(alloc, held, news)?;
        Ok(text)
    }

    fn look(&mut self, alloc: Global) -> Result<String, Fail> {
        let turn = self.collector.look(alloc, &self.queue)?;
        Ok(news_text(alloc, &turn.news)?)
    }

    fn turn(&mut self, alloc: Global) -> Result<String, Fail> {
        let news = self.collector.turn(alloc, &self.queue)?;
        self.play(alloc, news)
    }

    /// Makes a turn; if memory was refused to it, another one.
    fn turn_again(&mut self, alloc: Global) -> Result<String, Fail> {
        match self.collector.turn(alloc, &self.queue) {
            Ok(news) => self.play(alloc, news),
            Err(_) => self.turn(alloc),
        }
    }

    fn renew(&mut self, alloc: Global) -> Result<String, Fail> {
        let caller = self.tailer.split(&self.queue);
        self.collector = Collector::new(alloc, &self.queue, caller)?;
        self.held = nothing(alloc)?;
        Ok(String::from_str(alloc, "new")?)
    }

    fn snapshot(&mut self, alloc: Global) -> Result<String, Fail> {
        let lists = self.tailer.snapshot(alloc, &self.queue)?;
        Ok(lists_text(alloc, lists.as_slice())?)
    }

    /// The queue, stopped by the caller of the collector.
    fn stopped(self) -> Stopped {
        let Fixture {
            queue,
            appender: _,
            writing: _,
            tailer: _,
            collector,
            held: _,
        } = self;
        queue.stop(collector.into_caller())
    }

    /// Stops the queue, and gives what it holds then.
    pub(crate) fn stop(self, alloc: Global) -> Result<String, Fail> {
        contents_text(alloc, &recover(alloc, &self.stopped())?)
    }

    /// What a call returns.
    pub(crate) fn answer(&mut self, alloc: Global, call: Call) -> Result<String, Fail> {
        match call {
            Call::Append(moment, text) => self.append(alloc, moment, text),
            Call::Advance(moment) => self.advance(alloc, moment),
            Call::Begin(moment, room) => self.begin(alloc, moment, room),
            Call::Put(text) => self.put(alloc, text),
            Call::Complete => self.complete(alloc),
            Call::GiveUp => self.give_up(alloc),
            Call::Seek(name, from, to) => self.seek(alloc, name, from, to),
            Call::DropBefore(cycle) => self.drop_before(alloc, cycle),
            Call::Look => self.look(alloc),
            Call::Turn => self.turn(alloc),
            Call::TurnAgain => self.turn_again(alloc),
            Call::Renew => self.renew(alloc),
            Call::Played => contents_text(alloc, &self.held),
            Call::Snapshot => self.snapshot(alloc),
        }
    }
}
