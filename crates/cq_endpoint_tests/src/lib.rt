//! Tests of endpoints, and of the callers that `docs/CALLING.md` shows. They make calls in turn and read into
//! buffers. Endpoints meet, run in threads, and one is the last of its queue.
#![tactic(auto)]

#[cfg(test)]
mod caller_tests;
#[cfg(test)]
mod calls;
#[cfg(test)]
mod closing_tests;
#[cfg(test)]
mod closing_thread_tests;
#[cfg(test)]
mod life_tests;
#[cfg(test)]
mod meeting_tests;
#[cfg(test)]
mod new_queues;
#[cfg(test)]
mod peek_tests;
#[cfg(test)]
mod room_tests;
#[cfg(test)]
mod thread_tests;
