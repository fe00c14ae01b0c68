//! Shelves of two parties, each of which may have a writer, a reader and a taker.
use crate::calls::{Call, read_text, taken_text, written_text};
use cq_fixtures::{expect_answer, small_config};
use cq_shelf::{AtLimit, ShelfFault, ShelfReader, ShelfTaker, ShelfWriter};
use std::alloc::Global;
use std::test::Fail;

/// Which party calls.
#[derive(Clone, Copy)]
pub enum Who {
    /// The one that made the shelf, and has its first writer.
    First,
    /// The other one, which has no endpoint at first.
    Second,
}

/// Calls of two parties in turn, each with what it returns.
pub type Calls = &'static [(Who, Call, &'static str)];

/// A new shelf, whose queues have cycles of 64 cells, each of a day, and the name "reader".
pub struct Life {
    /// How many cycles each queue has.
    pub cycles: u32,
    /// How many queues live at once.
    pub most: u32,
    /// What happens where a new queue would be one more.
    pub at_limit: AtLimit,
    /// What is called, and what it returns.
    pub calls: Calls,
}

/// The endpoints of a party.
#[derive(Drop)]
struct Party {
    writer: Option<ShelfWriter>,
    reader: Option<ShelfReader>,
    taker: Option<ShelfTaker>,
}

/// An endpoint that one party makes for the other.
#[derive(Drop)]
enum Made {
    Writer(ShelfWriter),
    Reader(ShelfReader),
    Taker(ShelfTaker),
    /// It was refused.
    Refused(ShelfFault),
}

/// A writer that was made, or why none was.
fn made_writer(answer: Result<ShelfWriter, ShelfFault>) -> Made {
    match answer {
        Ok(writer) => Made::Writer(writer),
        Err(fault) => Made::Refused(fault),
    }
}

/// A reader that was made, or why none was.
fn made_reader(answer: Result<ShelfReader, ShelfFault>) -> Made {
    match answer {
        Ok(reader) => Made::Reader(reader),
        Err(fault) => Made::Refused(fault),
    }
}

/// A taker that was made, or why none was.
fn made_taker(answer: Result<ShelfTaker, ShelfFault>) -> Made {
    match answer {
        Ok(taker) => Made::Taker(taker),
        Err(fault) => Made::Refused(fault),
    }
}

impl Party {
    fn new(writer: Option<ShelfWriter>) -> Party {
        Party {
            writer,
            reader: None,
            taker: None,
        }
    }

    /// What a call of the writer returns.
    fn write(&mut self, alloc: Global, call: Call) -> Result<String, Fail> {
        match &mut self.writer {
            Some(writer) => written_text(alloc, writer, call),
            None => Err(Fail::new("no writer")),
        }
    }

    /// What a call of the reader returns.
    fn read(&mut self, alloc: Global, call: Call) -> Result<String, Fail> {
        match &mut self.reader {
            Some(reader) => read_text(alloc, reader, call),
            None => Err(Fail::new("no reader")),
        }
    }

    /// What a call of the taker returns.
    fn take(&mut self, alloc: Global, call: Call) -> Result<String, Fail> {
        match &mut self.taker {
            Some(taker) => taken_text(alloc, taker, call),
            None => Err(Fail::new("no taker")),
        }
    }

    /// Drops an endpoint.
    fn let_go(&mut self, alloc: Global, call: Call) -> Result<String, Fail> {
        match call {
            Call::DropWriter => self.writer = None,
            Call::DropReader => self.reader = None,
            _ => self.taker = None,
        }
        Ok(String::from_str(alloc, "dropped")?)
    }

    /// What this call returns, but for one that makes an endpoint.
    fn answer_text(&mut self, alloc: Global, call: Call) -> Result<String, Fail> {
        match call {
            Call::DropWriter | Call::DropReader | Call::DropTaker => self.let_go(alloc, call),
            Call::Next
            | Call::NextInto(_)
            | Call::Count
            | Call::ReadAt(_, _, _)
            | Call::ReadAtInto(_, _, _, _)
            | Call::Turn(_)
            | Call::ToStart
            | Call::ToEnd
            | Call::MoveTo(_, _, _)
            | Call::ReaderPosition
            | Call::Snapshot
            | Call::ReaderQueue => self.read(alloc, call),
            Call::Take | Call::TakeInto(_) | Call::CountTaken | Call::TakerPosition => {
                self.take(alloc, call)
            }
            _ => self.write(alloc, call),
        }
    }

    /// Makes an endpoint by the writer.
    fn make_by_writer(&mut self, alloc: Global, call: Call) -> Result<Made, Fail> {
        let Some(writer) = &mut self.writer else {
            return Err(Fail::new("no writer"));
        };
        Ok(match call {
            Call::NewReader => made_reader(writer.reader()),
            Call::NewTaker(name) => made_taker(writer.taker(alloc, name)),
            _ => made_writer(writer.split()),
        })
    }

    /// Makes an endpoint, if this call does. Returns none where it is another call.
    fn make(&mut self, alloc: Global, call: Call) -> Result<Option<Made>, Fail> {
        match (call, &mut self.reader, &mut self.taker) {
            (Call::SplitReader, Some(reader), _) => Ok(Some(made_reader(reader.split()))),
            (Call::SplitTaker, _, Some(taker)) => Ok(Some(made_taker(taker.split(alloc)))),
            (Call::SplitReader | Call::SplitTaker, _, _) => Err(Fail::new("nothing to split")),
            (Call::SplitWriter | Call::NewReader | Call::NewTaker(_), _, _) => {
                Ok(Some(self.make_by_writer(alloc, call)?))
            }
            _ => Ok(None),
        }
    }

    /// Has what the other party made, in place of what it had.
    fn have(&mut self, alloc: Global, made: Made) -> Result<String, Fail> {
        match made {
            Made::Writer(writer) => self.writer = Some(writer),
            Made::Reader(reader) => self.reader = Some(reader),
            Made::Taker(taker) => self.taker = Some(taker),
            Made::Refused(fault) => {
                return Ok(format!(in alloc; "{fault:?}")?);
            }
        }
        Ok(String::from_str(alloc, "made")?)
    }
}

/// What a call of one party returns. What it makes is the other party's.
fn answer_text(
    alloc: Global,
    caller: &mut Party,
    other: &mut Party,
    call: Call,
) -> Result<String, Fail> {
    match caller.make(alloc, call)? {
        Some(made) => other.have(alloc, made),
        None => caller.answer_text(alloc, call),
    }
}

impl Life {
    /// Makes the calls in turn. Fails if one does not return what is wanted.
    fn expect(&self, alloc: Global, row: &str) -> Result<(), Fail> {
        let config = small_config(alloc, self.cycles)?;
        let writer = ShelfWriter::create(alloc, config, self.most, self.at_limit, 0)?;
        let mut first = Party::new(Some(writer));
        let mut second = Party::new(None);
        for (number, (who, call, want)) in self.calls.iter().enumerate() {
            let answer = match who {
                Who::First => answer_text(alloc, &mut first, &mut second, *call)?,
                Who::Second => answer_text(alloc, &mut second, &mut first, *call)?,
            };
            expect_answer(row, number, answer.as_str(), want)?;
        }
        Ok(())
    }
}

/// Makes the calls of each shelf in turn. Fails if one does not return what is wanted.
pub fn expect_lives(alloc: Global, lives: &[Life]) -> Result<(), Fail> {
    for (number, life) in lives.iter().enumerate() {
        let row = format!(in alloc; "shelf {number}")?;
        life.expect(alloc, row.as_str())?;
    }
    Ok(())
}
