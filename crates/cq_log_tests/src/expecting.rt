//! What rows of tables want.
use std::test::Fail;

/// Fails if a claim does not hold at this place of a table, and gives the claim.
pub fn expect_at(holds: bool, claim: &str, place: u64) -> Result<(), Fail> {
    if holds {
        return Ok(());
    }
    Err(Fail::new(format_args!("at {place}: not {claim}")))
}

/// Fails if a text is not the wanted one at this place of a table, or of bytes, and gives both.
pub fn expect_text_at(text: &str, want: &str, place: u64) -> Result<(), Fail> {
    if text == want {
        return Ok(());
    }
    Err(Fail::new(format_args!("at {place}: {text} in place of {want}")))
}

/// Fails if another number of frames than the wanted one is there, and gives both. A count is `None` if other frames are there.
pub fn expect_frames(count: Option<usize>, want: usize, place: u64) -> Result<(), Fail> {
    if count == Some(want) {
        return Ok(());
    }
    Err(Fail::new(format_args!("at {place}: {count:?} in place of {want} frames")))
}
