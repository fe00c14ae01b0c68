//! How many atomic steps calls take on headers and hints over many messages. Not counted: the steps on the cells of
//! payloads, and the load of the floor with which a read ends. An append takes two more that its caller does not
//! count: the compare-and-swap that begins its message, and the store of its length.

ghost use Rattle.cq_words.specs.Values.{IsOf};

use crate::many::{COUNT, Many, SPACING, append_all};
use cq_cycle::Index;
use cq_tail::{At, Direction, Found, Peeked, Tailer};
use cq_words::Queue;
use std::alloc::Global;
use std::test::Fail;

/// A message that was appended is not read.
fn missing() -> Result<u64, Fail> {
    let none: Option<u64> = None;
    Ok(none.ok_or("a message is missing")?)
}

/// Reads this many messages by a tailer. Returns all steps that it made until then.
fn steps_after(alloc: Global, queue: &Queue, mut tailer: Tailer, count: u32) -> Result<u64, Fail>
    requires { IsOf queue.now tailer.caller }
{
    for _ in 0..count {
        match tailer.next(alloc, queue)? {
            Found::Message(_index, _message) => {}
            Found::NotYet | Found::BeforeStart => return missing(),
        }
    }
    Ok(tailer.into_caller().steps())
}

/// Reads this many messages by a tailer, each after a look at it. Returns all steps that it made until then.
fn steps_with_looks(
    alloc: Global,
    queue: &Queue,
    mut tailer: Tailer,
    count: u32,
) -> Result<u64, Fail>
    requires { IsOf queue.now tailer.caller }
{
    for _ in 0..count {
        match tailer.peek(queue) {
            Peeked::Message(_index, _len) => {}
            Peeked::NotYet | Peeked::BeforeStart => return missing(),
        }
        match tailer.next(alloc, queue)? {
            Found::Message(_index, _message) => {}
            Found::NotYet | Found::BeforeStart => return missing(),
        }
    }
    Ok(tailer.into_caller().steps())
}

impl Many {
    /// The steps of a read by index, by a caller that is just split off.
    fn read_steps(&mut self, alloc: Global, sequence: u32) -> Result<u64, Fail> {
        let mut tailer = Tailer::new(self.queue.split(&mut self.caller));
        let found = tailer.read_at(alloc, &self.queue, Index::new(0, sequence));
        let steps = tailer.into_caller().steps();
        match found? {
            At::Message(_message) => Ok(steps),
            At::NotYet | At::Never | At::Gone => missing(),
        }
    }

    /// The most steps of a read by index here and there, each by a new caller.
    fn most_read_steps(&mut self, alloc: Global) -> Result<u64, Fail> {
        let mut most = 0;
        for k in 0..500u32 {
            most = most.max(self.read_steps(alloc, k * 7_919 % COUNT)?);
        }
        Ok(most)
    }

    /// The steps of this many reads forwards by a new caller, one after the other.
    fn forward_steps(&mut self, alloc: Global, count: u32) -> Result<u64, Fail> {
        let tailer = Tailer::new(self.queue.split(&mut self.caller));
        steps_after(alloc, &self.queue, tailer, count)
    }

    /// The steps of reads of all messages forwards by a new caller, each after a look at the message.
    fn steps_with_looks(&mut self, alloc: Global) -> Result<u64, Fail> {
        let tailer = Tailer::new(self.queue.split(&mut self.caller));
        steps_with_looks(alloc, &self.queue, tailer, COUNT)
    }

    /// The most steps of one of these reads forwards, each by the caller that read the message before it.
    fn most_forward_steps(&mut self, alloc: Global, wanted: &[u32]) -> Result<u64, Fail> {
        let mut most = 0;
        for sequence in wanted {
            let before = self.forward_steps(alloc, *sequence)?;
            let with = self.forward_steps(alloc, sequence.saturating_add(1))?;
            most = most.max(with.saturating_sub(before));
        }
        Ok(most)
    }

    /// The steps of this many reads backwards from the end on by a new caller, and of its way to the end.
    fn backward_steps(&mut self, alloc: Global, count: u32) -> Result<u64, Fail> {
        let mut tailer = Tailer::new(self.queue.split(&mut self.caller));
        tailer.to_end(&self.queue);
        tailer.direction(Direction::Backwards);
        steps_after(alloc, &self.queue, tailer, count)
    }

    /// The steps of reads of all messages backwards, without the way to the end.
    fn all_backward_steps(&mut self, alloc: Global) -> Result<u64, Fail> {
        let way = self.backward_steps(alloc, 0)?;
        let all = self.backward_steps(alloc, COUNT)?;
        Ok(all.saturating_sub(way))
    }
}

/// What is counted of a queue of many messages.
#[derive(Clone, Copy)]
enum Reads {
    /// The most steps of a read by index here and there, each by a new caller.
    ByIndex,
    /// The most steps of one of these reads forwards, each by the caller that read the message before it.
    Forwards(&'static [u32]),
    /// The steps of reads of all messages forwards, each after a look at the message.
    WithLooks,
    /// The steps of reads of all messages backwards.
    Backwards,
}

/// Fails if these are more steps than this.
fn expect_steps(steps: u64, most: u64) -> Result<(), Fail> {
    if steps <= most {
        return Ok(());
    }
    Err(Fail::new(format_args!("{steps} steps in place of {most}")))
}

impl Many {
    /// The steps of these reads.
    fn steps_of(&mut self, alloc: Global, reads: Reads) -> Result<u64, Fail> {
        match reads {
            Reads::ByIndex => self.most_read_steps(alloc),
            Reads::Forwards(wanted) => self.most_forward_steps(alloc, wanted),
            Reads::WithLooks => self.steps_with_looks(alloc),
            Reads::Backwards => self.all_backward_steps(alloc),
        }
    }

    /// Fails if these reads take more steps than this.
    fn expect_reads(&mut self, alloc: Global, reads: Reads, most: u64) -> Result<(), Fail> {
        expect_steps(self.steps_of(alloc, reads)?, most)
    }
}

/// Fails if these reads of a new queue take more steps than this.
fn expect_new_reads(alloc: Global, reads: Reads, most: u64) -> Result<(), Fail> {
    Many::new(alloc)?.expect_reads(alloc, reads, most)
}

#[test]
fn a_read_by_index_takes_few_steps(rt: HostRuntime) -> Result<(), Fail> {
    expect_new_reads(rt.alloc(), Reads::ByIndex, 11 + u64::from(SPACING))
}

#[test]
fn a_read_behind_the_last_one_takes_one_step(rt: HostRuntime) -> Result<(), Fail> {
    let wanted = Reads::Forwards(&[1, 2, 16, 4_095, 4_097, 12_345, 29_999]);
    expect_new_reads(rt.alloc(), wanted, 1)
}

#[test]
fn a_read_over_an_index_table_takes_three_steps(rt: HostRuntime) -> Result<(), Fail> {
    // An index table comes before each 4,096th message.
    expect_new_reads(rt.alloc(), Reads::Forwards(&[4_096, 8_192, 28_672]), 3)
}

#[test]
fn a_look_before_a_read_takes_one_step_more(rt: HostRuntime) -> Result<(), Fail> {
    // A few more are for the first message, and for those after an index table.
    expect_new_reads(rt.alloc(), Reads::WithLooks, u64::from(2 * COUNT + 64))
}

#[test]
fn reads_backwards_look_at_one_header_a_message(rt: HostRuntime) -> Result<(), Fail> {
    // In each block of 64 messages the slot's cycle, the write position and two entries are loaded too.
    expect_new_reads(
        rt.alloc(),
        Reads::Backwards,
        u64::from(COUNT + 4 * (COUNT / 64 + 2)),
    )
}

/// Fails if these reads of a queue that is opened again take more steps than this.
fn expect_reopened_reads(alloc: Global, reads: Reads, most: u64) -> Result<(), Fail> {
    Many::reopened(alloc)?.expect_reads(alloc, reads, most)
}

#[test]
fn reads_backwards_without_hints_look_at_two_headers_a_message(
    rt: HostRuntime,
) -> Result<(), Fail> {
    expect_reopened_reads(
        rt.alloc(),
        Reads::Backwards,
        u64::from(2 * COUNT + COUNT / 64),
    )
}

/// Returns the steps of this many appends to a new queue by one caller.
fn append_steps(alloc: Global, count: u32) -> Result<u64, Fail> {
    let steps = Many::of(alloc, count)?.caller.steps();
    Ok(steps.saturating_add(2 * u64::from(count)))
}

/// Fails if an append of one of these messages takes more steps than this, each by the caller that appended the one before
/// it.
fn expect_appends(alloc: Global, sequences: &[u32], most: u64) -> Result<(), Fail> {
    for sequence in sequences {
        let before = append_steps(alloc, *sequence)?;
        let with = append_steps(alloc, sequence.saturating_add(1))?;
        expect_steps(with.saturating_sub(before), most)?;
    }
    Ok(())
}

/// Messages right behind others.
static BEHIND_OTHERS: [u32; 10] = [1, 2, 15, 16, 17, 4_095, 4_097, 4_112, 29_984, 29_999];

#[test]
fn an_append_behind_the_last_one_takes_five_steps(rt: HostRuntime) -> Result<(), Fail> {
    expect_appends(rt.alloc(), &BEHIND_OTHERS, 5)
}

#[test]
fn an_append_behind_a_new_table_takes_six_steps(rt: HostRuntime) -> Result<(), Fail> {
    expect_appends(rt.alloc(), &[4_096, 8_192], 6)
}

impl Many {
    /// Returns the steps of an append by a caller that is just split off.
    fn new_append_steps(&mut self) -> Result<u64, Fail> {
        let other = self.queue.split(&mut self.caller);
        Ok(append_all(&self.queue, other, 1)?.steps().saturating_add(2))
    }
}

/// The steps of an append of this message by a new caller.
fn new_append_steps(alloc: Global, sequence: u32) -> Result<u64, Fail> {
    Many::of(alloc, sequence)?.new_append_steps()
}

/// Fails if an append of one of these messages takes more steps than this, each by a new caller.
fn expect_new_appends(alloc: Global, sequences: &[u32], most: u64) -> Result<(), Fail> {
    for sequence in sequences {
        expect_steps(new_append_steps(alloc, *sequence)?, most)?;
    }
    Ok(())
}

/// Messages that new callers append.
static BY_NEW_CALLERS: [u32; 9] = [2, 15, 16, 17, 4_095, 4_097, 4_112, 29_984, 29_999];

/// Three of them find the place, if there is more than one message.
#[test]
fn an_append_by_a_new_caller_takes_eight_steps(rt: HostRuntime) -> Result<(), Fail> {
    expect_new_appends(rt.alloc(), &BY_NEW_CALLERS, 8)?;
    expect_new_appends(rt.alloc(), &[2, 15, 17, 4_095, 4_097, 29_999], 6)
}
