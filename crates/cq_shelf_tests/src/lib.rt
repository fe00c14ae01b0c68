//! Tests of shelves: in one thread by tables of calls, with calls that wait, by threads, and with memory that is refused.
#![tactic(auto)]

#[cfg(test)]
mod appending;
#[cfg(test)]
mod calls;
#[cfg(test)]
mod closing_tests;
#[cfg(test)]
mod coming;
#[cfg(test)]
mod dropping_tests;
#[cfg(test)]
mod lives;
#[cfg(test)]
mod memory_tests;
#[cfg(test)]
mod numbers;
#[cfg(test)]
mod reading;
#[cfg(test)]
mod reading_at_tests;
#[cfg(test)]
mod reading_tests;
#[cfg(test)]
mod rounds;
#[cfg(test)]
mod shelf_tests;
#[cfg(test)]
mod taking;
#[cfg(test)]
mod taking_tests;
#[cfg(test)]
mod thread_tests;
#[cfg(test)]
mod waiting_tests;
#[cfg(test)]
mod writing_tests;
