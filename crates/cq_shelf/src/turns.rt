//! A call goes on from queue to queue.

/// By how many queues one call goes on at most.
pub(crate) const TURNS: u32 = 1 << 16;

/// Asks in one queue after the other until there is an answer, with which the function that it is written in returns.
/// After `TURNS` queues its value is `Busy`.
macro_rules! in_turns {
    ($asked:expr) => {{
        for _ in 0..$crate::turns::TURNS {
            if let Some(answer) = $asked {
                return Ok(answer);
            }
        }
        Err(ShelfFault::Busy)
    }};
}

pub(crate) use in_turns;
