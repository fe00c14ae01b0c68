//! What is said of a queue.

use cq_cycle::Index;
use cq_model::Config;
use std::fmt;

/// What becomes of a cycle that has begun (ours; Chronicle Queue has no rule for it).
#[derive(Clone, Copy, Debug, PartialEq, Eq)]
pub enum CycleState {
    /// It is below the floor: reads skip its messages.
    Dropped,
    /// It is a later one that has ended.
    Ended,
    /// It is the last one, which goes on.
    Open,
}

/// The numbers of a cycle that has begun (ours; Chronicle Queue has no rule for it).
#[derive(Clone, Copy, Debug, PartialEq, Eq)]
pub struct CycleFacts {
    /// The number of the cycle.
    pub number: u32,
    /// How many messages it has.
    pub messages: usize,
    /// How many bytes its messages have.
    pub bytes: u64,
    /// How many of its cells are used, with the one that is kept for the end of data.
    pub cells_used: u64,
    /// How many of its cells are left.
    pub cells_left: u64,
    /// What becomes of it.
    pub state: CycleState,
}

/// A cycle that has begun (ours; Chronicle Queue has no rule for it).
#[derive(Debug, Drop)]
pub struct CycleStat {
    /// The name of the cycle, as its image has it.
    pub name: String,
    /// Its numbers.
    pub facts: CycleFacts,
}

/// A named tailer (ours; Chronicle Queue has no rule for it).
#[derive(Debug, Drop)]
pub struct NameStat {
    /// The name.
    pub name: String,
    /// Its position: the index at or after which its next message is.
    pub position: Index,
    /// How many messages are left for it: those at or after its position whose cycles are not dropped.
    pub messages_left: u64,
}

/// What is said of a queue (ours; Chronicle Queue has no rule for it).
#[derive(Debug, Drop)]
pub struct QueueStat {
    /// The settings.
    pub config: Config,
    /// The cycles that have begun, in order.
    pub cycles: Vec<CycleStat>,
    /// The index of the first message that reads look at; `None` if there is none.
    pub first: Option<Index>,
    /// The floor: reads skip all cycles below this one.
    pub floor: u32,
    /// The end: the index that the next message of the last cycle gets, and 0 if no cycle has begun.
    pub end: Index,
    /// How many cycles may still begin.
    pub more_cycles: u32,
    /// The names, in the order in which they were declared.
    pub names: Vec<NameStat>,
}

impl fmt::Display for CycleState {
    ghost use Rattle.std.specs.Prelude.{Some};
    ghost use Rattle.cq_stat.specs.StatText.{state_word};

    ghost output = { λ state. Some (state_word state) };

    fn fmt<W: fmt::Write>(&self, f: &mut fmt::Formatter<W>) -> fmt::Result {
        f.write_str(match self {
            CycleState::Dropped => "dropped",
            CycleState::Ended => "ended",
            CycleState::Open => "open",
        })
    }
}
