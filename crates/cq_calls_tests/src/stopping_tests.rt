//! What is left of queues that are stopped.
use crate::lives::expect_lives;
use crate::queues::{Call, Calls, THREE_CYCLES};
use cq_fixtures::{DAY, expect_row, small_config};
use cq_image::image;
use std::alloc::Global;
use std::test::Fail;

/// "hello", and seven bytes of another message.
const BEGUN: Calls = &[
    (Call::New(4, 0), "open"),
    (Call::Append(0, "hello"), "0"),
    (Call::Begin(0, 12), "begun"),
    (Call::Put("1234567"), "put"),
];

/// The other message is dropped.
const DROPPED: Calls = &[(Call::DropWriting, "dropped")];

/// No other caller appends after the message that was begun. What others completed is kept.
const HELLO_IS_KEPT: Calls = &[
    (Call::AppendAndReadByNew("x"), "Busy, 0 hello"),
    (Call::Stop, "0[hello;] at [0]"),
    (Call::Reopen, "open"),
    (Call::Append(0, "x"), "1"),
];

const KEPT: Calls = &[
    // Cycles without messages are kept.
    (Call::New(4, 0), "open"),
    (Call::Advance(5 * DAY), "cycle 5"),
    (Call::Stop, "0[] 5[] at [0]"),
    // What a queue was opened with is kept.
    (Call::Held(4, THREE_CYCLES, 1), "open"),
    (Call::Stop, "0[hello;ab;] 5[] 9[z;] at [1]"),
    // A queue without cycles is refused.
    (Call::Held(4, &[], 0), "BadContents"),
    // A new queue has the cycle of its moment.
    (Call::New(4, 5 * DAY), "open"),
    (Call::Stop, "5[] at [0]"),
];

#[test]
fn a_stopped_queue_keeps_what_is_complete(rt: HostRuntime) -> Result<(), Fail> {
    expect_lives(
        rt.alloc(),
        &[BEGUN, HELLO_IS_KEPT, BEGUN, DROPPED, HELLO_IS_KEPT, KEPT],
    )
}

/// The image of a cycle without messages that has ended, or that has not.
fn image_without_messages(alloc: Global, cycle: u32, has_ended: bool) -> Result<Vec<u8>, Fail> {
    let config = small_config(alloc, 4)?;
    let (shape, roll, epoch) = (config.shape(), config.roll(), config.epoch());
    Ok(image(alloc, cycle, shape, roll, epoch, &[], has_ended)?)
}

/// Cycles, whether they have ended, and the images that they have without messages.
static IMAGES: [(u32, bool, &[u8]); 2] = [(0, true, &[0, 0, 0, 0xc0]), (5, false, &[])];

#[test]
fn cycles_without_messages_have_images(rt: HostRuntime) -> Result<(), Fail> {
    for &(cycle, has_ended, want) in &IMAGES {
        let bytes = image_without_messages(rt.alloc(), cycle, has_ended)?;
        expect_row(bytes.as_slice() == want, u64::from(cycle))?;
    }
    Ok(())
}
