//! Endpoints of a queue. An `Endpoint` shares its queue with other endpoints, and has an appender and a tailer of it in
//! one value. It may be moved to a thread; split off another one for each thread. Dropping the last endpoint frees the
//! queue.
//!
//! | item | what it is for |
//! |---|---|
//! | `Endpoint` | `create` or `open` makes the first one, `split` another, `of` one from a caller; it appends, reads, takes, closes and stops, and has the `config` of its queue |
//! | `AppendFault`, `PutFault`, `CompleteFault`, `NotWriting` | why nothing was appended, put, completed or rolled back |
//! | `CloseFault` | why the queue was not closed |
//! | `Next`, `ReadAt`, `NextInto`, `ReadAtInto`, `NextPeeked`, `Direction` | what reads and `peek` return, and which way they go |
//! | `Taken`, `TakenInto`, `TakeFault`, `Sought`, `NoSuchName`, `SeekFault` | what takes and moves of a name return |
//! | `NotSeen` | why no cycle was dropped |
//! | `laws` | what follows of a closed queue |
//!
//! No call waits for another endpoint. Calls have no preconditions, except that `meet` takes two endpoints of one queue, and `of` a
//! caller of the queue.
//! What a call says is said by the definitions of `cq_append` and `cq_tail`, with a look at the seal where nothing was
//! appended or found, and nothing else of the endpoint changes. Those crates also name the atomic steps.
//!
//! Contracts: `specs/Endpoints.antt` says what an endpoint is, `specs/Works.antt` what the calls that append return,
//! `specs/Reads.antt` what reads and takes return, `specs/Closes.antt` how a queue is closed, `specs/Looks.antt` what a
//! look at the seal says, `specs/Faults.antt` which calls are refused, `specs/Meetings.antt` what endpoints have seen
//! that met, `specs/Endings.antt` what the end of a closed queue is, and `specs/Stops.antt` what is left of a queue.
#![tactic(auto)]

mod again;
mod answers;
mod appending;
mod closer;
mod closing;
mod endpoint;
mod fault;
pub mod laws;
mod meeting;
mod naming;
mod reading;
mod rooms;
mod sealed;
mod sharing;
mod stopping;
mod work;

pub use answers::{Next, NextInto, NextPeeked, ReadAt, ReadAtInto, Taken, TakenInto};
pub use cq_tail::{Direction, NoSuchName, Sought, TakeFault};
pub use endpoint::Endpoint;
pub use fault::{AppendFault, CloseFault, CompleteFault, NotSeen, NotWriting, PutFault, SeekFault};
