//! Messages over many queues: on a shelf, over queues one after the other, and over large queues.
//!
//! One thread appends as many messages as a queue of the shelf certainly holds, reads them into a buffer, and goes on so.
//! Appends and reads are timed apart. So in each way what is read was appended just before, by the same thread.
use crate::appending::MOMENT;
use crate::fault::BenchFault;
use crate::figures::{Figure, Label, Spread, print_spread};
use crate::queues::{config_of, message_count, shelf_shape};
use crate::running::now;
use crate::settings::Settings;
use cq_endpoint::{Endpoint, NextInto};
use cq_layout::Shape;
use cq_shelf::{AtLimit, ShelfNextInto, ShelfReader, ShelfWriter};
use std::alloc::{AllocError, Global};
use std::rt::Clock;
use std::time::{Duration, Instant};

/// How many large queues are filled.
const LARGE_QUEUES: u32 = 4;

/// How many queues of the shelf may live at once.
const PLACES: u32 = 3;

/// The bytes of messages that are measured.
const LENGTHS: [u32; 3] = [8, 64, 256];

/// What is measured.
#[derive(Clone, Copy)]
pub enum Measured {
    /// Appends, and the making of queues with them.
    Appends,
    /// Reads, and the freeing of queues with them.
    Reads,
}

impl Measured {
    /// The names and the units in the lines.
    fn lines(self) -> &'static [(&'static str, &'static str); 6] {
        match self {
            Measured::Appends => &APPEND_LINES,
            Measured::Reads => &READ_LINES,
        }
    }
}

/// The name and the unit in the lines of appends. The first four are of the shelf, of queues one after the other, of large
/// queues, and of large queues that were made before and are freed after. The others are the shelf's shares of the speeds of
/// the last two.
static APPEND_LINES: [(&str, &str); 6] = [
    ("shelf_append", "msg/s"),
    ("shelf_append_queues", "msg/s"),
    ("shelf_append_large", "msg/s"),
    ("shelf_append_made", "msg/s"),
    ("shelf_append_of_large", "ratio"),
    ("shelf_append_of_made", "ratio"),
];

/// The same of reads.
static READ_LINES: [(&str, &str); 6] = [
    ("shelf_read", "msg/s"),
    ("shelf_read_queues", "msg/s"),
    ("shelf_read_large", "msg/s"),
    ("shelf_read_made", "msg/s"),
    ("shelf_read_of_large", "ratio"),
    ("shelf_read_of_made", "ratio"),
];

/// How long each part took so far.
#[derive(Clone, Copy)]
struct Times {
    making: Duration,
    appends: Duration,
    reads: Duration,
    freeing: Duration,
}

impl Times {
    /// Nothing was done yet.
    const ZERO: Times = Times {
        making: Duration::ZERO,
        appends: Duration::ZERO,
        reads: Duration::ZERO,
        freeing: Duration::ZERO,
    };

    /// Adds the making of a queue, from this moment until now.
    fn add_making(&mut self, clock: &impl Clock, start: Instant) -> Result<(), BenchFault> {
        let end = now(clock)?;
        self.making = self.making.saturating_add(end.duration_since(start));
        Ok(())
    }

    /// Adds appends between the first two of these moments, and reads between the last two.
    fn add_calls(&mut self, start: Instant, middle: Instant, end: Instant) {
        self.appends = self.appends.saturating_add(middle.duration_since(start));
        self.reads = self.reads.saturating_add(end.duration_since(middle));
    }

    /// Adds the freeing of a queue, from this moment until now.
    fn add_freeing(&mut self, clock: &impl Clock, start: Instant) -> Result<(), BenchFault> {
        let end = now(clock)?;
        self.freeing = self.freeing.saturating_add(end.duration_since(start));
        Ok(())
    }

    /// The time of all that is measured.
    fn whole(self, measured: Measured) -> Duration {
        match measured {
            Measured::Appends => self.making.saturating_add(self.appends),
            Measured::Reads => self.reads.saturating_add(self.freeing),
        }
    }

    /// The time of the calls alone.
    fn calls(self, measured: Measured) -> Duration {
        match measured {
            Measured::Appends => self.appends,
            Measured::Reads => self.reads,
        }
    }
}

/// What is appended and read before the clock is read again.
#[derive(Drop)]
struct Load {
    count: u32,
    /// A message.
    bytes: Vec<u8>,
}

/// The loads that one queue takes.
#[derive(Clone, Copy)]
struct Loads<'a> {
    load: &'a Load,
    count: u32,
}

/// Queues without a shelf, one after the other.
#[derive(Clone, Copy)]
struct Queues {
    shape: Shape,
    count: u32,
    /// How many loads each of them takes.
    loads: u32,
}

/// What is compared.
#[derive(Drop)]
struct Plan {
    load: Load,
    /// Queues that take one load each. Those of the shelf have the same shape.
    small: Queues,
    large: Queues,
}

impl Plan {
    /// The plan for messages of this length, in bytes, over large queues of this shape.
    fn new(alloc: Global, large: Shape, length: u32) -> Result<Plan, BenchFault> {
        let small = shelf_shape(large)?;
        let count = message_count(small, length);
        if count == 0 {
            return Err(BenchFault::NoRoom);
        }
        let loads = message_count(large, length) / count;
        Ok(Plan {
            load: Load {
                count,
                bytes: Vec::from_elem(alloc, b'x', length as usize)?,
            },
            small: Queues {
                shape: small,
                count: loads.saturating_mul(LARGE_QUEUES),
                loads: 1,
            },
            large: Queues {
                shape: large,
                count: LARGE_QUEUES,
                loads,
            },
        })
    }

    /// How many messages are appended in all.
    fn all(&self) -> u64 {
        u64::from(self.load.count) * u64::from(self.small.count)
    }
}

/// Appends a load to a queue.
fn append_to_queue(writer: &mut Endpoint, load: &Load) -> Result<(), BenchFault> {
    let bytes = load.bytes.as_slice();
    for _ in 0..load.count {
        writer.append(MOMENT, bytes)?;
    }
    Ok(())
}

/// Reads this many messages of a queue.
fn read_from_queue(reader: &mut Endpoint, room: &mut [u8], count: u32) -> Result<(), BenchFault> {
    for _ in 0..count {
        match reader.next_into(room) {
            NextInto::Message(_index, _len) => {}
            _ => return Err(BenchFault::Missing),
        }
    }
    Ok(())
}

/// Appends a load to a shelf.
fn append_to_shelf(alloc: Global, writer: &mut ShelfWriter, load: &Load) -> Result<(), BenchFault> {
    let bytes = load.bytes.as_slice();
    for _ in 0..load.count {
        writer.append(alloc, MOMENT, bytes)?;
    }
    Ok(())
}

/// Reads this many messages of a shelf.
fn read_from_shelf(
    reader: &mut ShelfReader,
    room: &mut [u8],
    count: u32,
) -> Result<(), BenchFault> {
    for _ in 0..count {
        match reader.next_into(room)? {
            ShelfNextInto::Message(_at, _len) => {}
            _ => return Err(BenchFault::Missing),
        }
    }
    Ok(())
}

/// A shelf: its writer, and its reader.
#[derive(Drop)]
struct ShelfEnds {
    writer: ShelfWriter,
    reader: ShelfReader,
}

/// Makes the writer of a shelf with queues of this shape.
fn shelf_writer(alloc: Global, shape: Shape) -> Result<ShelfWriter, BenchFault> {
    let config = config_of(alloc, shape)?;
    Ok(ShelfWriter::create(alloc, config, PLACES, AtLimit::Refuse, MOMENT)?)
}

/// Makes a shelf with queues of this shape.
fn shelf_ends(alloc: Global, shape: Shape) -> Result<ShelfEnds, BenchFault> {
    let mut writer = shelf_writer(alloc, shape)?;
    let reader = writer.reader()?;
    Ok(ShelfEnds { writer, reader })
}

/// The same, and adds the time that it takes.
fn new_shelf<R: AllocGlobal + Clock>(
    rt: &R,
    shape: Shape,
    times: &mut Times,
) -> Result<ShelfEnds, BenchFault> {
    let start = now(rt)?;
    let ends = shelf_ends(rt.alloc(), shape)?;
    times.add_making(rt, start)?;
    Ok(ends)
}

/// Appends a load to a shelf, and reads it.
fn move_by_shelf<R: AllocGlobal + Clock>(
    rt: &R,
    ends: &mut ShelfEnds,
    load: &Load,
    room: &mut [u8],
    times: &mut Times,
) -> Result<(), BenchFault> {
    let start = now(rt)?;
    append_to_shelf(rt.alloc(), &mut ends.writer, load)?;
    let middle = now(rt)?;
    read_from_shelf(&mut ends.reader, room, load.count)?;
    times.add_calls(start, middle, now(rt)?);
    Ok(())
}

/// Appends and reads these loads, one after the other.
fn move_all_by_shelf<R: AllocGlobal + Clock>(
    rt: &R,
    ends: &mut ShelfEnds,
    loads: Loads,
    room: &mut [u8],
    times: &mut Times,
) -> Result<(), BenchFault> {
    for _ in 0..loads.count {
        move_by_shelf(rt, ends, loads.load, room, times)?;
    }
    Ok(())
}

/// Frees a shelf, and adds the time that it takes.
fn free_shelf<R: Clock>(rt: &R, ends: ShelfEnds, times: &mut Times) -> Result<(), BenchFault> {
    let start = now(rt);
    drop(ends);
    times.add_freeing(rt, start?)
}

/// Measures a shelf. Its later queues are made by appends, and freed by reads.
fn shelf_times<R: AllocGlobal + Clock>(
    rt: &R,
    plan: &Plan,
    room: &mut [u8],
) -> Result<Times, BenchFault> {
    let loads = Loads {
        load: &plan.load,
        count: plan.small.count,
    };
    let mut times = Times::ZERO;
    let mut ends = new_shelf(rt, plan.small.shape, &mut times)?;
    move_all_by_shelf(rt, &mut ends, loads, room, &mut times)?;
    free_shelf(rt, ends, &mut times)?;
    Ok(times)
}

/// A queue without a shelf: an endpoint that appends, and one that reads.
#[derive(Drop)]
struct Ends {
    writer: Endpoint,
    reader: Endpoint,
}

/// Makes the endpoint of a queue of this shape.
fn queue_writer(alloc: Global, shape: Shape) -> Result<Endpoint, BenchFault> {
    Ok(Endpoint::create(alloc, config_of(alloc, shape)?, MOMENT)?)
}

/// Makes a queue of this shape.
fn queue_ends(alloc: Global, shape: Shape) -> Result<Ends, BenchFault> {
    let mut writer = queue_writer(alloc, shape)?;
    let reader = writer.split()?;
    Ok(Ends { writer, reader })
}

/// The same, and adds the time that it takes.
fn new_ends<R: AllocGlobal + Clock>(
    rt: &R,
    shape: Shape,
    times: &mut Times,
) -> Result<Ends, BenchFault> {
    let start = now(rt)?;
    let ends = queue_ends(rt.alloc(), shape)?;
    times.add_making(rt, start)?;
    Ok(ends)
}

/// Appends a load to a queue, and reads it.
fn move_by_queue<R: Clock>(
    rt: &R,
    ends: &mut Ends,
    load: &Load,
    room: &mut [u8],
    times: &mut Times,
) -> Result<(), BenchFault> {
    let start = now(rt)?;
    append_to_queue(&mut ends.writer, load)?;
    let middle = now(rt)?;
    read_from_queue(&mut ends.reader, room, load.count)?;
    times.add_calls(start, middle, now(rt)?);
    Ok(())
}

/// Appends and reads these loads, one after the other.
fn move_all_by_queue<R: Clock>(
    rt: &R,
    ends: &mut Ends,
    loads: Loads,
    room: &mut [u8],
    times: &mut Times,
) -> Result<(), BenchFault> {
    for _ in 0..loads.count {
        move_by_queue(rt, ends, loads.load, room, times)?;
    }
    Ok(())
}

/// Frees a queue, and adds the time that it takes.
fn free_ends<R: Clock>(rt: &R, ends: Ends, times: &mut Times) -> Result<(), BenchFault> {
    let start = now(rt);
    drop(ends);
    times.add_freeing(rt, start?)
}

/// Measures one queue of this shape: it is made, takes these loads, and is freed.
fn add_queue<R: AllocGlobal + Clock>(
    rt: &R,
    shape: Shape,
    loads: Loads,
    room: &mut [u8],
    times: &mut Times,
) -> Result<(), BenchFault> {
    let mut ends = new_ends(rt, shape, times)?;
    move_all_by_queue(rt, &mut ends, loads, room, times)?;
    free_ends(rt, ends, times)
}

/// Measures queues without a shelf. Each is made once the one before it was freed.
fn queues_times<R: AllocGlobal + Clock>(
    rt: &R,
    queues: Queues,
    load: &Load,
    room: &mut [u8],
) -> Result<Times, BenchFault> {
    let loads = Loads {
        load,
        count: queues.loads,
    };
    let mut times = Times::ZERO;
    for _ in 0..queues.count {
        add_queue(rt, queues.shape, loads, room, &mut times)?;
    }
    Ok(times)
}

/// The times of one way, in all repetitions.
#[derive(Drop)]
struct Turns {
    times: Vec<Duration>,
}

impl Turns {
    /// No time was measured yet.
    fn new(alloc: Global) -> Turns {
        Turns {
            times: Vec::new(alloc),
        }
    }

    fn push(&mut self, time: Duration) -> Result<(), AllocError> {
        Ok(self.times.push(time)?)
    }

    /// The best rate and the middle one, if this many messages took each of the times. It sorts the times.
    fn spread(&mut self, count: u64) -> Result<Spread, BenchFault> {
        self.times.sort_unstable();
        let times = self.times.as_slice();
        match (times.first(), times.get(times.len() / 2)) {
            (Some(best), Some(middle)) => Ok(Spread {
                best: Figure::rate(count, *best),
                middle: Figure::rate(count, *middle),
            }),
            (_, _) => Err(BenchFault::Missing),
        }
    }
}

/// The best and the middle rate of each way.
#[derive(Clone, Copy)]
struct Rates {
    shelf: Spread,
    queues: Spread,
    large: Spread,
    /// Those of large queues that were made before, and are freed after.
    made: Spread,
}

/// The times of each way, in all repetitions.
#[derive(Drop)]
struct Ways {
    shelf: Turns,
    queues: Turns,
    large: Turns,
    made: Turns,
}

impl Ways {
    /// No time was measured yet.
    fn new(alloc: Global) -> Ways {
        Ways {
            shelf: Turns::new(alloc),
            queues: Turns::new(alloc),
            large: Turns::new(alloc),
            made: Turns::new(alloc),
        }
    }

    /// Adds the times of one repetition.
    fn push(
        &mut self,
        measured: Measured,
        shelf: Times,
        queues: Times,
        large: Times,
    ) -> Result<(), AllocError> {
        self.shelf.push(shelf.whole(measured))?;
        self.queues.push(queues.whole(measured))?;
        self.large.push(large.whole(measured))?;
        self.made.push(large.calls(measured))
    }

    /// The rates, if this many messages took each of the times.
    fn rates(&mut self, count: u64) -> Result<Rates, BenchFault> {
        Ok(Rates {
            shelf: self.shelf.spread(count)?,
            queues: self.queues.spread(count)?,
            large: self.large.spread(count)?,
            made: self.made.spread(count)?,
        })
    }
}

/// Measures each way in turn, once.
fn add_turn<R: AllocGlobal + Clock>(
    rt: &R,
    measured: Measured,
    plan: &Plan,
    room: &mut [u8],
    ways: &mut Ways,
) -> Result<(), BenchFault> {
    let shelf = shelf_times(rt, plan, room)?;
    let queues = queues_times(rt, plan.small, &plan.load, room)?;
    let large = queues_times(rt, plan.large, &plan.load, room)?;
    Ok(ways.push(measured, shelf, queues, large)?)
}

/// Measures each way in turn, this many times.
fn add_turns<R: AllocGlobal + Clock>(
    rt: &R,
    repetitions: u32,
    measured: Measured,
    plan: &Plan,
    ways: &mut Ways,
) -> Result<(), BenchFault> {
    let mut room = Vec::from_elem(rt.alloc(), 0u8, plan.load.bytes.len())?;
    for _ in 0..repetitions {
        add_turn(rt, measured, plan, room.as_mut_slice(), ways)?;
    }
    Ok(())
}

/// Measures each way in turn, and returns the rates.
fn rates_of<R: AllocGlobal + Clock>(
    rt: &R,
    repetitions: u32,
    measured: Measured,
    plan: &Plan,
) -> Result<Rates, BenchFault> {
    let mut ways = Ways::new(rt.alloc());
    add_turns(rt, repetitions, measured, plan, &mut ways)?;
    ways.rates(plan.all())
}

impl Rates {
    /// What is printed, in the order of the lines.
    fn spreads(self) -> [Spread; 6] {
        [
            self.shelf,
            self.queues,
            self.large,
            self.made,
            self.shelf.times(self.large),
            self.shelf.times(self.made),
        ]
    }
}

/// Prints the lines of messages of this length.
fn print_rates<R: Print>(
    rt: &R,
    settings: &Settings,
    measured: Measured,
    length: u32,
    rates: Rates,
) -> Result<(), BenchFault> {
    for ((case, unit), spread) in measured.lines().iter().zip(rates.spreads().iter()) {
        let label = Label {
            case: *case,
            payload: length,
            threads: "1",
        };
        print_spread(rt, settings, label, *spread, *unit)?;
    }
    Ok(())
}

/// Measures appends or reads of messages of each length.
pub fn print_shelves<R: AllocGlobal + Clock + Print>(
    rt: &R,
    settings: &Settings,
    measured: Measured,
) -> Result<(), BenchFault> {
    for length in &LENGTHS {
        let plan = Plan::new(rt.alloc(), settings.shape, *length)?;
        let rates = rates_of(rt, settings.repetitions, measured, &plan)?;
        print_rates(rt, settings, measured, *length, rates)?;
    }
    Ok(())
}
