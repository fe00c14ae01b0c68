/// Which way messages are read.
#[derive(Clone, Copy, Debug, PartialEq, Eq)]
pub enum Direction {
    /// The message with the least index at or after the cursor comes next.
    Forwards,
    /// The message with the greatest index below the cursor comes next.
    Backwards,
}
