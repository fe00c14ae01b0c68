//! The images of snapshots that are taken while a message is begun, and the printed text of their records.
use crate::lives::Lives;
use crate::queues::{Call, Calls};
use cq_chain::fits_all;
use cq_cycle::Roll;
use cq_fixtures::{DAY, expect_text};
use cq_image::{ImageRead, image, read};
use cq_layout::Shape;
use cq_model::{CycleList, Message};
use cq_origin::layout_of;
use cq_text::dump_text;
use std::alloc::{AllocError, Global};
use std::test::Fail;

/// The image of a cycle of a queue whose cycles are days.
#[tactic(auto, using(cq_chain::proofs::HeldLemmas::held_are_next))]
fn image_of(alloc: Global, shape: Shape, list: &CycleList, ended: bool) -> Result<Vec<u8>, Fail> {
    let layout = layout_of(shape, Roll::Daily, 0);
    // The readers of a layout ensure that it is lawful.
    let _cells = layout.cells();
    let messages = list.messages.as_slice();
    if !fits_all(layout, messages) {
        return Err(Fail::new("the messages do not fit"));
    }
    Ok(image(alloc, list.cycle, shape, Roll::Daily, 0, messages, ended)?)
}

/// Messages as text, each with a semicolon after it.
fn push_texts(messages: &[Message], out: &mut String) -> Result<(), AllocError> {
    for message in messages {
        out.push_str(str::from_utf8(message.as_slice()).unwrap_or("no text"))?;
        out.push_str(";")?;
    }
    Ok(())
}

/// What was read of an image: its messages in brackets, and its mark.
fn push_image(cycle: u32, image: &ImageRead, out: &mut String) -> Result<(), AllocError> {
    write!(out, "{cycle}[")?;
    push_texts(image.messages.as_slice(), out)?;
    if image.ended {
        return out.push_str("] ended\n");
    }
    out.push_str("] open\n")
}

/// The records of an image as text.
fn push_records(
    alloc: Global,
    shape: Shape,
    cycle: u32,
    bytes: &[u8],
    out: &mut String,
) -> Result<(), Fail> {
    let records = dump_text(alloc, cycle, shape, Roll::Daily, 0, bytes)?;
    Ok(out.push_str(str::from_utf8(records.as_slice())?)?)
}

/// What the image of a cycle is read as, and its records if it is the last one, which is open.
fn push_cycle(
    alloc: Global,
    shape: Shape,
    list: &CycleList,
    is_last: bool,
    out: &mut String,
) -> Result<(), Fail> {
    let bytes = image_of(alloc, shape, list, !is_last)?;
    let image = read(alloc, list.cycle, shape, Roll::Daily, 0, bytes.as_slice())?;
    push_image(list.cycle, &image, out)?;
    if is_last {
        return push_records(alloc, shape, list.cycle, bytes.as_slice(), out);
    }
    Ok(())
}

/// What the images of these cycles are read as, the last one open and the others ended, and then the records of the
/// last one.
fn push_images(
    alloc: Global,
    shape: Shape,
    lists: &[CycleList],
    out: &mut String,
) -> Result<(), Fail> {
    for (place, list) in lists.iter().enumerate() {
        push_cycle(alloc, shape, list, place + 1 == lists.len(), out)?;
    }
    Ok(())
}

/// Calls after which a message is begun in the last of two cycles.
const BEFORE_SNAPSHOT: Calls = &[
    (Call::New(4, 0), "open"),
    (Call::Append(0, "a"), "0"),
    (Call::Append(5 * DAY, "b"), "21474836480"),
    (Call::Begin(0, 1), "begun"),
];

/// Makes these calls, and gives what the images of a snapshot after them are read as.
fn images_text(
    alloc: Global,
    shape: Shape,
    lives: &mut Lives,
    calls: Calls,
) -> Result<String, Fail> {
    lives.expect(alloc, calls)?;
    let lists = lives.snapshot_lists(alloc)?;
    let mut text = String::new(alloc);
    push_images(alloc, shape, lists.as_slice(), &mut text)?;
    Ok(text)
}

/// The same of a new queue.
fn new_images_text(alloc: Global, calls: Calls) -> Result<String, Fail> {
    let shape = Shape::new(64, 8, 1)?;
    images_text(alloc, shape, &mut Lives::of(shape), calls)
}

/// What the images are read as, and the records of the last one.
const READ_BACK: &str = "0[a;] ended\n5[b;] open\n\
00000000 40000024 store 2 5 8 1 64 0 86400000\n00000028 40000020 top 76 0 0 0 0 0 0 0\n\
0000004c 40000020 table 0 112 0 0 0 0 0 0 0\n00000070 00000001 data 0 62\n";

#[test]
fn a_snapshot_during_a_claim_has_images(rt: HostRuntime) -> Result<(), Fail> {
    expect_text(new_images_text(rt.alloc(), BEFORE_SNAPSHOT)?, READ_BACK)
}
