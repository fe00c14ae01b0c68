//! Lives of queues: calls in turn, from how a queue begins to what is left of it.

use crate::queues::{Call, Calls, Fixture, misplaced};
use cq_fixtures::{Cycles, config_of, contents_of, contents_text, expect_answer};
use cq_layout::Shape;
use cq_model::{Config, Contents, CycleList};
use cq_shown::{CreateError, Stopped, recover};
use cq_words::Queue;
use std::alloc::{AllocError, Global};
use std::test::Fail;

/// A new queue of this configuration.
fn created(alloc: Global, config: Config, moment: u64) -> Result<Fixture, CreateError> {
    let (queue, caller) = Queue::create(alloc, config, moment)?;
    Ok(Fixture::new(queue, caller))
}

/// A queue of this configuration that is opened again with contents.
fn reopened(alloc: Global, config: Config, contents: &Contents) -> Result<Fixture, CreateError> {
    let (queue, caller) = Queue::reopen(alloc, config, contents)?;
    Ok(Fixture::new(queue, caller))
}

/// Whether a queue was made, or why not.
pub fn made_text<T>(alloc: Global, made: &Result<T, CreateError>) -> Result<String, Fail> {
    match made {
        Ok(_) => Ok(String::from_str(alloc, "open")?),
        Err(refusal) => Ok(format!(in alloc; "{refusal}")?),
    }
}

/// Queues with the name "reader", one after the other, each from its start to its end.
#[derive(Drop)]
pub struct Lives {
    /// The measures of their cycles.
    shape: Shape,
    /// How many queues have begun.
    count: usize,
    /// How many calls of the last one were made.
    calls: usize,
    /// How many cycles it may have.
    cycles: u32,
    /// The queue with its callers, unless it is stopped.
    running: Option<Fixture>,
    /// What it holds once it is stopped.
    contents: Option<Contents>,
}

impl Lives {
    /// No queue yet, with cycles of this shape.
    pub fn of(shape: Shape) -> Lives {
        Lives {
            shape,
            count: 0,
            calls: 0,
            cycles: 0,
            running: None,
            contents: None,
        }
    }

    /// Begins the next life, of a queue that may have this many cycles. Returns its configuration.
    fn begin(&mut self, alloc: Global, cycles: u32) -> Result<Config, Fail> {
        self.count = self.count.saturating_add(1);
        self.calls = 0;
        self.cycles = cycles;
        self.contents = None;
        config_of(alloc, self.shape, cycles)
    }

    /// Goes on with a queue, or with none if it was refused.
    fn enter(&mut self, alloc: Global, made: Result<Fixture, CreateError>) -> Result<String, Fail> {
        let text = made_text(alloc, &made);
        self.running = made.ok();
        text
    }

    fn create(&mut self, alloc: Global, cycles: u32, moment: u64) -> Result<String, Fail> {
        let config = self.begin(alloc, cycles)?;
        self.enter(alloc, created(alloc, config, moment))
    }

    fn hold(
        &mut self,
        alloc: Global,
        cycles: u32,
        held: Cycles,
        position: u64,
    ) -> Result<String, Fail> {
        let config = self.begin(alloc, cycles)?;
        let contents = contents_of(alloc, held, &[position])?;
        self.enter(alloc, reopened(alloc, config, &contents))
    }

    /// The queue with its callers, which is stopped next.
    fn taken(&mut self) -> Result<Fixture, Fail> {
        match self.running.take() {
            Some(fixture) => Ok(fixture),
            None => misplaced("queue"),
        }
    }

    /// Keeps what is left of the queue, and gives it as text.
    fn keep(&mut self, alloc: Global, stopped: &Stopped) -> Result<String, Fail> {
        let contents = recover(alloc, stopped)?;
        let text = contents_text(alloc, &contents)?;
        self.contents = Some(contents);
        Ok(text)
    }

    fn stop(&mut self, alloc: Global) -> Result<String, Fail> {
        let stopped = self.taken()?.stop();
        self.keep(alloc, &stopped)
    }

    fn stop_by_other(&mut self, alloc: Global) -> Result<String, Fail> {
        let stopped = self.taken()?.stop_by_other();
        self.keep(alloc, &stopped)
    }

    fn reopen(&mut self, alloc: Global) -> Result<String, Fail> {
        if self.running.is_some() {
            let _left = self.stop(alloc)?;
        }
        let Some(contents) = self.contents.take() else {
            return misplaced("stopped queue");
        };
        let config = config_of(alloc, self.shape, self.cycles)?;
        self.enter(alloc, reopened(alloc, config, &contents))
    }

    fn cells(&mut self, alloc: Global, from: u32) -> Result<String, Fail> {
        let stopped = self.taken()?.stop();
        Ok(cells_text(alloc, &stopped, from)?)
    }

    fn published(&mut self, alloc: Global, cells: &[u32]) -> Result<String, Fail> {
        let stopped = self.taken()?.stop_by_other();
        Ok(published_text(alloc, &stopped, cells)?)
    }

    /// What a call returns.
    fn answer_text(&mut self, alloc: Global, call: Call) -> Result<String, Fail> {
        match call {
            Call::New(cycles, moment) => self.create(alloc, cycles, moment),
            Call::Held(cycles, held, position) => self.hold(alloc, cycles, held, position),
            Call::Stop => self.stop(alloc),
            Call::StopByOther => self.stop_by_other(alloc),
            Call::Cells(from) => self.cells(alloc, from),
            Call::Published(cells) => self.published(alloc, cells),
            Call::Reopen => self.reopen(alloc),
            _ => match &mut self.running {
                Some(fixture) => fixture.answer_text(alloc, call),
                None => misplaced("queue"),
            },
        }
    }

    /// Makes the next call. Fails if it does not return what is wanted, and names the life and the call in the fault.
    fn expect_next(&mut self, alloc: Global, call: Call, want: &str) -> Result<(), Fail> {
        let answer = self.answer_text(alloc, call)?;
        let life = format!(in alloc; "life {}", self.count)?;
        expect_answer(life.as_str(), self.calls, answer.as_str(), want)?;
        self.calls = self.calls.saturating_add(1);
        Ok(())
    }

    /// Makes these calls in turn. Fails if one of them does not return what is wanted.
    pub fn expect(&mut self, alloc: Global, calls: Calls) -> Result<(), Fail> {
        for (call, want) in calls {
            self.expect_next(alloc, *call, want)?;
        }
        Ok(())
    }

    /// Makes these lists of calls in turn.
    fn expect_all(&mut self, alloc: Global, lists: &[Calls]) -> Result<(), Fail> {
        for calls in lists {
            self.expect(alloc, calls)?;
        }
        Ok(())
    }

    /// What a snapshot gives.
    pub fn snapshot_lists(&mut self, alloc: Global) -> Result<Vec<CycleList>, Fail> {
        match &mut self.running {
            Some(fixture) => Ok(fixture.snapshot_lists(alloc)?),
            None => misplaced("queue"),
        }
    }
}

/// The cells of the first slot that are not 0, from this one on, each after its number.
fn cells_text(alloc: Global, stopped: &Stopped, from: u32) -> Result<String, AllocError> {
    let mut text = String::new(alloc);
    let cells = stopped.config().layout().cells();
    for k in from..cells {
        push_cell(k, stopped.cell(0, k), &mut text)?;
    }
    Ok(text)
}

/// A cell after its number, if it is not 0.
fn push_cell(k: u32, cell: u32, text: &mut String) -> Result<(), AllocError> {
    if cell == 0 {
        return Ok(());
    }
    write!(text, "{k}:{cell:08x} ")
}

/// What cells of the first slot hold, and its write position.
fn published_text(alloc: Global, stopped: &Stopped, cells: &[u32]) -> Result<String, AllocError> {
    let mut text = String::new(alloc);
    let count = stopped.config().layout().cells();
    let _cycles = stopped.config().cycles();
    for k in cells {
        if *k < count {
            write!(text, "{} ", stopped.cell(0, *k))?;
        }
    }
    write!(text, "at {}", stopped.write_position(0))?;
    Ok(text)
}

/// Makes these calls of queues with cycles of 64 cells. Fails if one of them does not return what is wanted.
pub fn expect_lives(alloc: Global, lists: &[Calls]) -> Result<(), Fail> {
    Lives::of(Shape::new(64, 8, 1)?).expect_all(alloc, lists)
}
