//! Entries of the index, and hints where a walk may begin.

use cq_fixtures::expect_row;
use cq_layout::Shape;
use cq_tables::{entry_places, pack_hint, start_for, unpack_hint};
use std::test::Fail;

/// Index counts, index spacings and sequences, each with the table and the entry that name the message.
static ENTRIES: [(u32, u32, u32, Option<(u32, u32)>); 5] = [
    (8, 1, 8, Some((1, 0))),
    (8, 1, 9, Some((1, 1))),
    (8, 2, 3, None),
    (8, 2, 6, Some((0, 3))),
    (8, 2, 18, Some((1, 1))),
];

#[test]
fn messages_have_entries() -> Result<(), Fail> {
    for &(count, spacing, sequence, want) in &ENTRIES {
        let shape = Shape::new(4096, count, spacing)?;
        expect_row(entry_places(shape, sequence) == want, u64::from(sequence))?;
    }
    Ok(())
}

/// Positions and sequences, each with its hint.
static HINTS: [(u32, u32, u64); 2] = [(100, 0, 429_496_729_600), (112, 1, 481_036_337_153)];

#[test]
fn hints_are_packed() -> Result<(), Fail> {
    for &(position, sequence, want) in &HINTS {
        expect_row(pack_hint(position, sequence) == want, want)?;
    }
    Ok(())
}

#[test]
fn hints_are_unpacked() -> Result<(), Fail> {
    for &(position, sequence, hint) in &HINTS {
        expect_row(unpack_hint(hint) == (position, sequence), hint)?;
    }
    Ok(())
}

/// The hint at position 112, sequence 1.
const SECOND: u64 = 481_036_337_153;

/// Sequences and words, each with the hint from which a walk begins. The hint 2,576,980,377,601 is at position 600,
/// sequence 1.
static STARTS: [(u32, [u64; 3], Option<u64>); 4] = [
    (2, [429_496_729_600, 0, SECOND], Some(SECOND)),
    (1, [SECOND, 2_576_980_377_601, 0], Some(SECOND)),
    (0, [0, SECOND, 0], None),
    (7, [0, 0, 0], None),
];

#[test]
fn a_walk_begins_at_the_last_hint_before() -> Result<(), Fail> {
    for &(sequence, hints, want) in &STARTS {
        expect_row(start_for(sequence, &hints) == want, u64::from(sequence))?;
    }
    Ok(())
}

#[test]
fn a_walk_without_hints_begins_at_none() -> Result<(), Fail> {
    expect_row(start_for(7, &[]).is_none(), 0)
}
