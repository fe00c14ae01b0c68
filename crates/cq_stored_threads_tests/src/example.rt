//! The examples of `docs/GUIDE.md`.
use cq_cycle::Index;
use cq_endpoint::{AppendFault, Endpoint};
use cq_layout::Refusal;
use cq_log::Device;
use cq_stored::{AppendStoredFault, StoredQueue};
use std::sync::Wait;
use std::thread::yield_now;

/// Appends a message in one of many threads, and returns its index once it is stored. It tries again while another thread is writing.
pub(crate) fn append_stored<D: Device, R: Wait + AllocGlobal>(
    rt: &R,
    stored: &StoredQueue<D>,
    endpoint: &mut Endpoint,
    moment: u64,
    message: &[u8],
) -> Result<Index, AppendStoredFault> {
    for _ in rt.forever() {
        match stored.append_stored(rt, endpoint, moment, message) {
            Err(AppendStoredFault::Refused(AppendFault::Refused(Refusal::Busy))) => yield_now(),
            answer => return answer,
        }
    }
    unreachable!()
}
