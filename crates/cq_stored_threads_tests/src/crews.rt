//! Threads that append to one queue and wait until their messages are stored.
use crate::example::append_stored;
use crate::found::is_at;
use cq_cycle::Index;
use cq_endpoint::Endpoint;
use cq_log::Device;
use cq_model::Message;
use cq_stored::{AppendStoredFault, StoredQueue};
use std::alloc::{AllocError, Global};
use std::sync::Wait;
use std::thread::{Threads, map_vec};

/// A thread: its endpoint, its letter, and how many messages it appends.
#[derive(Drop)]
pub struct Member {
    pub endpoint: Endpoint,
    pub letter: u8,
    pub count: u8,
}

/// What the calls of a thread returned.
#[derive(Drop)]
pub struct Answers {
    pub letter: u8,
    /// Where its messages are stored, in its order.
    pub stored: Vec<Index>,
    /// Why the others are not.
    pub faults: Vec<AppendStoredFault>,
}

impl Answers {
    /// Whether its first messages are among these, at the indexes that were returned.
    pub fn is_true_of(&self, found: &[Message]) -> bool {
        let mut number = 0u8;
        for &index in self.stored.as_slice() {
            if !is_at(found, &[self.letter, number], index) {
                return false;
            }
            number = number.wrapping_add(1);
        }
        true
    }

    /// Notes an answer.
    fn note(&mut self, answer: Result<Index, AppendStoredFault>) -> Result<(), AllocError> {
        match answer {
            Ok(index) => self.stored.push(index)?,
            Err(fault) => self.faults.push(fault)?,
        }
        Ok(())
    }
}

/// As many threads as this, named by the letters from `a` on. Each has an endpoint of its own, and appends as many messages as this.
pub fn crew(
    alloc: Global,
    mut first: Endpoint,
    threads: u8,
    count: u8,
) -> Result<Vec<Member>, AllocError> {
    let mut members = Vec::new(alloc);
    for number in 0..threads {
        let endpoint = first.split()?;
        let letter = b'a'.wrapping_add(number);
        members.push(Member {
            endpoint,
            letter,
            count,
        })?;
    }
    Ok(members)
}

impl Member {
    /// Appends the messages of this thread, each after the one before it is stored. Returns what its calls returned, unless memory is refused.
    fn work<D: Device, R: Wait + AllocGlobal>(
        self,
        rt: &R,
        stored: &StoredQueue<D>,
    ) -> Option<Answers> {
        let Member {
            mut endpoint,
            letter,
            count,
        } = self;
        let mut answers = Answers {
            letter,
            stored: Vec::new(rt.alloc()),
            faults: Vec::new(rt.alloc()),
        };
        for number in 0..count {
            let answer = append_stored(rt, stored, &mut endpoint, 0, &[letter, number]);
            answers.note(answer).ok()?;
        }
        Some(answers)
    }
}

/// Lets all threads append their messages. Returns what the calls of each of them returned.
pub fn work<D: Device + Send, R: Threads + Wait + AllocGlobal + Sync>(
    rt: &R,
    stored: &StoredQueue<D>,
    members: Vec<Member>,
) -> Result<Vec<Option<Answers>>, AllocError> {
    map_vec(
        rt,
        members,
        &|member: Member| -> Option<Answers> { member.work(rt, stored) },
    )
}
