//! Cells, the shapes of cycles, and what fits in a cycle.

ghost use Rattle.std.specs.Prelude.{◌≤◌};

use cq_fixtures::{expect, expect_row, expect_text};
use cq_layout::{BadShape, Shape, cells_for, fits, fits_v1, needs, needs_v1, pack, unpack};
use std::alloc::{AllocError, Global};
use std::test::Fail;

/// Lengths, each with the cells that it takes.
static LENGTHS: [(u32, u32); 6] = [
    (0, 0),
    (1, 1),
    (4, 1),
    (5, 2),
    (128, 32),
    (u32::MAX, 1_073_741_824),
];

#[test]
fn payloads_take_cells() -> Result<(), Fail> {
    for &(len, want) in &LENGTHS {
        expect_row(cells_for(len) == want, u64::from(len))?;
    }
    Ok(())
}

#[test]
fn payloads_are_packed() -> Result<(), Fail> {
    expect_row(pack(b"hello", 0) == 0x6C6C_6568, 0)?;
    expect_row(pack(b"hello", 1) == 0x0000_006F, 1)
}

/// The bytes that are unpacked from the cells of "hello", and from none, as text.
fn unpacked_text(alloc: Global) -> Result<String, AllocError> {
    let hello = unpack(alloc, &[0x6C6C_6568, 0x0000_006F], 5)?;
    let nothing = unpack(alloc, &[], 0)?;
    format!(in alloc; "{:?} {:?}", hello.as_slice(), nothing.as_slice())
}

#[test]
fn payloads_are_unpacked(rt: HostRuntime) -> Result<(), Fail> {
    // The letters of "hello".
    expect_text(unpacked_text(rt.alloc())?, "[104, 101, 108, 108, 111] []")
}

/// The measures of the shape that is made with these: cells, index count and index spacing.
fn measures(cells: u32, index_count: u32, index_spacing: u32) -> Result<(u32, u32, u32), BadShape> {
    let shape = Shape::new(cells, index_count, index_spacing)?;
    Ok((shape.cells(), shape.index_count(), shape.index_spacing()))
}

/// Cells, index counts and index spacings, each with whether they are measures of a shape.
static SHAPES: [(u32, u32, u32, bool); 16] = [
    (31, 8, 1, true),
    (64, 8, 1, true),
    (65_536, 32, 1, true),
    (1_048_576, 1024, 256, true),
    (2063, 1024, 256, true),
    (30, 8, 1, false),
    (1_048_577, 8, 1, false),
    (2062, 1024, 256, false),
    (64, 7, 1, false),
    (64, 4, 1, false),
    (64, 0, 1, false),
    (64, 12, 1, false),
    (1_048_576, 2048, 1, false),
    (64, 8, 0, false),
    (64, 8, 3, false),
    (64, 8, 512, false),
];

#[test]
fn shapes_have_limits() -> Result<(), Fail> {
    for &(cells, count, spacing, accepted) in &SHAPES {
        let want = if accepted {
            Ok((cells, count, spacing))
        } else {
            Err(BadShape)
        };
        expect_row(measures(cells, count, spacing) == want, u64::from(cells))?;
    }
    Ok(())
}

#[test]
fn messages_need_cells() -> Result<(), Fail> {
    let shape = Shape::new(64, 8, 1)?;
    let found = [needs(shape, &[]), needs(shape, &[5]), needs(shape, &[5; 8])];
    expect(found == [0, 31, 52], "no message, one and eight")
}

#[test]
fn messages_need_three_cells_fewer_in_version_1() -> Result<(), Fail> {
    let shape = Shape::new(64, 8, 1)?;
    let found = [
        needs_v1(shape, &[]),
        needs_v1(shape, &[5]),
        needs_v1(shape, &[5; 9]),
    ];
    expect(found == [0, 28, 61], "no message, one and nine")
}

#[test]
fn messages_fit_up_to_the_end_of_data() -> Result<(), Fail> {
    let shape = Shape::new(64, 8, 1)?;
    let found = [
        // An eighth message, a ninth one, and a ninth one of one cell.
        fits(shape, &[5; 7], 5),
        fits(shape, &[5; 8], 5),
        fits(shape, &[5; 8], 4),
        // One in a full cycle, and the longest one.
        fits(shape, &[5, 5, 5, 5, 5, 5, 5, 5, 4], 1),
        fits(shape, &[], 1_073_741_823),
    ];
    expect(found == [true, false, true, false, false], "what fits")
}

#[test]
fn messages_fit_up_to_the_end_of_data_in_version_1() -> Result<(), Fail> {
    let shape = Shape::new(64, 8, 1)?;
    let found = [
        // A ninth message, a tenth one, and a tenth one of one cell.
        fits_v1(shape, &[5; 8], 5),
        fits_v1(shape, &[5; 9], 5),
        fits_v1(shape, &[5; 9], 4),
        // One in a full cycle, and the longest one.
        fits_v1(shape, &[5, 5, 5, 5, 5, 5, 5, 5, 5, 4], 1),
        fits_v1(shape, &[], 1_073_741_823),
    ];
    expect(found == [true, false, true, false, false], "what fits")
}

/// What this many messages of 128 bytes need in a cycle of 65,536 cells, in version 1 and in version 2.
#[tactic(auto, using(std::proofs::lemmas::Grind::pieces))]
fn needs_of(alloc: Global, count: usize) -> Result<(u64, u64), Fail>
    requires { count ≤ 1000 }
{
    let shape = Shape::new(65_536, 32, 1)?;
    let lengths = vec![in alloc; 128; count]?;
    Ok((needs_v1(shape, &lengths), needs(shape, &lengths)))
}

#[test]
fn a_thousand_messages_need_cells(rt: HostRuntime) -> Result<(), Fail> {
    // 33 cells for each message, for the top table and for each of 32 index tables, and 7 or 10 for the store record.
    expect_row(needs_of(rt.alloc(), 1000)? == (34_096, 34_099), 1)
}

/// Whether a message of one byte fits after this many others in a cycle of 4,096 cells.
#[tactic(auto, using(std::proofs::lemmas::Grind::pieces))]
fn fits_behind(alloc: Global, count: usize) -> Result<bool, Fail>
    requires { count ≤ 64 }
{
    let lengths = vec![in alloc; 1; count]?;
    Ok(fits(Shape::new(4096, 8, 1)?, &lengths, 1))
}

#[test]
fn messages_fit_up_to_the_end_of_the_index(rt: HostRuntime) -> Result<(), Fail> {
    expect(
        fits_behind(rt.alloc(), 63)?,
        "message 64 has a place in the index",
    )?;
    expect(!fits_behind(rt.alloc(), 64)?, "message 65 has none")
}
