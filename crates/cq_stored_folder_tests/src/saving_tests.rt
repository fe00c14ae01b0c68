//! A queue that is saved while threads append.
use crate::folders::{folder_at, found, new_queue, opened, place_at};
use crate::meanwhile::{EACH, THREADS, both};
use cq_fixtures::{expect, expect_text};
use cq_live::Live;
use cq_model::Contents;
use cq_stored::StoredQueue;
use cq_stored_threads_tests::{count_of, messages};
use std::fs;
use std::test::Fail;

/// Whether the messages of each thread are there, each once and in its order, and nothing else.
fn are_whole(contents: &Contents) -> bool {
    let found = messages(contents);
    for number in 0..THREADS {
        if count_of(found, b'a'.wrapping_add(number)) != Some(EACH) {
            return false;
        }
    }
    found.len() == usize::from(THREADS) * usize::from(EACH)
}

/// Threads append while another one makes checkpoints. Then the process ends without a close. The next opening finds each message once, in
/// the order of each thread: in the images, or in the log.
#[test]
fn endpoints_go_on_while_a_queue_is_saved(rt: HostRuntime) -> Result<(), Fail> {
    let path = new_queue(&rt, "save")?;
    let Live {
        kept,
        endpoint,
        turns: _,
    } = opened(&rt, path.as_str())?;
    let stored = StoredQueue::new(kept);
    let mut folder = folder_at(&rt, path.as_str())?;
    let mut place = place_at(&rt, path.as_str(), "queue.log")?;
    let said = both(&rt, &stored, endpoint, &mut folder, &mut place);
    expect_text(format!(in rt.alloc(); "{said:?}")?, "(Some(3), 4)")?;
    drop(stored);
    expect(
        are_whole(&found(&rt, path.as_str())?),
        "each message is there once, in its order",
    )?;
    fs::remove_dir_all(&rt, path.as_str())?;
    Ok(())
}
