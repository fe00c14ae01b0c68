//! What is saved of images that are cut or changed.
use crate::image_tests::Change::{Add, Cut, Patch, Same};
use crate::image_tests::{
    Change, HELLO, HELLO_OF_VERSION_2, HELLO_RECORD, changed, image_of_copies, image_with, outcome,
};
use crate::settings::push_message;
use cq_cycle::Roll;
use cq_fixtures::expect_text;
use cq_image::{Salvaged, salvage};
use cq_layout::{Messages, Shape};
use std::alloc::{AllocError, Global};
use std::test::Fail;

/// What is saved of the bytes: each message with a space after it, and then the fault, or `whole`.
fn saved(alloc: Global, cycle: u32, shape: Shape, bytes: &[u8]) -> Result<String, Fail> {
    let salvaged = salvage(alloc, cycle, shape, Roll::Daily, 0, bytes)?;
    Ok(salvaged_text(alloc, &salvaged)?)
}

/// What was saved, as text.
fn salvaged_text(alloc: Global, salvaged: &Salvaged) -> Result<String, AllocError> {
    let mut text = String::new(alloc);
    push_messages(&salvaged.messages.messages(), &mut text)?;
    match &salvaged.fault {
        Some(fault) => write!(text, "{fault}")?,
        None => text.push_str("whole")?,
    }
    Ok(text)
}

/// Adds each message to a text, with a space after it.
fn push_messages(messages: &Messages<'_>, text: &mut String) -> Result<(), AllocError> {
    for sequence in 0..messages.len() {
        push_message(messages.bytes(sequence), " ", text)?;
    }
    Ok(())
}

/// How many of the first bytes of the worked image are left, from a number to another one, what they are read as, and what
/// is saved of them.
static BEGINNINGS: [(usize, usize, &str, &str); 8] = [
    (0, 0, "0 open", "whole"),
    (1, 27, "Cut at 0", "Cut at 0"),
    (28, 63, "Cut at 28", "Cut at 28"),
    (64, 99, "Cut at 64", "Cut at 64"),
    (100, 111, "Cut at 100", "Cut at 100"),
    (112, 112, "1 open", "hello whole"),
    (113, 115, "Cut at 112", "hello Cut at 112"),
    (116, 116, "1 ended", "hello whole"),
];

/// Fails if the first bytes of the worked image, this many of them, are read or saved other than wanted.
fn expect_beginning(alloc: Global, len: usize, read: &str, want: &str) -> Result<(), Fail> {
    let shape = Shape::new(64, 8, 1)?;
    let bytes = HELLO.get(..len).unwrap_or(&HELLO);
    expect_text(outcome(alloc, 0, shape, bytes)?, read)?;
    expect_text(saved(alloc, 0, shape, bytes)?, want)
}

#[test]
fn every_beginning_is_saved(rt: HostRuntime) -> Result<(), Fail> {
    for &(first, last, read, want) in &BEGINNINGS {
        for len in first..=last {
            expect_beginning(rt.alloc(), len, read, want)?;
        }
    }
    Ok(())
}

/// Fails if an image is saved other than wanted with the changes of a row.
fn expect_saved(
    alloc: Global,
    cycle: u32,
    shape: Shape,
    bytes: &[u8],
    table: &[(Change, &str)],
) -> Result<(), Fail> {
    for (change, want) in table {
        expect_text(saved_with(alloc, cycle, shape, bytes, change)?, want)?;
    }
    Ok(())
}

/// What is saved of bytes that are changed.
fn saved_with(
    alloc: Global,
    cycle: u32,
    shape: Shape,
    bytes: &[u8],
    change: &Change,
) -> Result<String, Fail> {
    let bytes = changed(alloc, bytes, change, &Same)?;
    saved(alloc, cycle, shape, &bytes)
}

/// The worked image with some bytes replaced, and what is saved of it.
static CHANGED: [(Change, &str); 12] = [
    (Same, "hello whole"),
    (Cut(113), "hello Cut at 112"),
    (Patch(109, &[1]), "BadPadding at 109"),
    (Patch(68, &[0, 0, 0, 0]), "hello WrongTable at 68"),
    (Patch(32, &[0, 0, 0, 0]), "hello WrongTable at 32"),
    (Patch(36, &[4]), "hello WrongTable at 36"),
    // A header of the longest message, and one of the longest meta-data.
    (Patch(100, &[0xff, 0xff, 0xff, 0x3f]), "Cut at 100"),
    (Patch(100, &[0xff, 0xff, 0xff, 0x7f]), "WrongTable at 100"),
    (Patch(112, &[0, 0, 0, 0]), "hello Unfinished at 112"),
    (Add(&[0, 0, 0, 0]), "hello AfterEnd at 116"),
    (
        Patch(112, &[0x01, 0x00, 0x00, 0x80]),
        "hello BadHeader at 112",
    ),
    (Patch(12, &[1]), "WrongStore at 12"),
];

/// The same of version 2.
static CHANGED_OF_VERSION_2: [(Change, &str); 1] = [(Cut(127), "hello Cut at 124")];

/// Of a queue of version 2 the messages of either version are saved.
#[test]
fn the_worked_image_of_either_version_is_saved_changed(rt: HostRuntime) -> Result<(), Fail> {
    let (alloc, shape) = (rt.alloc(), Shape::new(64, 8, 1)?);
    expect_saved(alloc, 0, shape, &HELLO, &CHANGED)?;
    expect_saved(alloc, 0, shape, &HELLO_OF_VERSION_2, &CHANGED_OF_VERSION_2)
}

/// A cycle of nine messages, of which one more does not fit, and what is saved of it.
static FULL: [(Change, &str); 3] = [
    (
        Same,
        "hello hello hello hello hello hello hello hello hello whole",
    ),
    (
        Add(HELLO_RECORD),
        "hello hello hello hello hello hello hello hello hello OverShape at 244",
    ),
    // The last message begins at 232.
    (
        Cut(243),
        "hello hello hello hello hello hello hello hello Cut at 232",
    ),
];

#[test]
fn a_full_cycle_is_saved(rt: HostRuntime) -> Result<(), Fail> {
    let shape = Shape::new(64, 8, 1)?;
    let bytes = image_of_copies(rt.alloc(), 0, shape, b"hello", 9, false)?;
    expect_saved(rt.alloc(), 0, shape, &bytes, &FULL)
}

/// The open image of two messages in cycle 20,000, whole and cut.
static TWO: [(Change, &str); 2] = [(Same, "hello world whole"), (Cut(115), "hello Cut at 112")];

#[test]
fn an_open_image_is_saved(rt: HostRuntime) -> Result<(), Fail> {
    let shape = Shape::new(64, 8, 1)?;
    let bytes = image_with(rt.alloc(), 20_000, shape, &[b"hello", b"world"], false)?;
    expect_saved(rt.alloc(), 20_000, shape, &bytes, &TWO)
}
