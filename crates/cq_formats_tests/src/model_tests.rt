//! Settings with their limits, and contents.
use crate::settings::{names_of, settings_text};
use cq_cycle::{LAST_MOMENT, Roll};
use cq_fixtures::{contents_of, contents_text, expect_row, expect_text};
use cq_layout::Shape;
use cq_model::Config;
use std::alloc::{AllocError, Global};
use std::test::Fail;

/// What the settings of four cycles of an hour each, of 64 cells, say of themselves.
fn hourly_text(alloc: Global) -> Result<String, Fail> {
    let shape = Shape::new(64, 8, 1)?;
    let names = names_of(alloc, &["reader", "b-2_.Z"])?;
    let config = Config::new(shape, 4, Roll::Hourly, 3_600_000, names)?;
    Ok(settings_text(alloc, &config)?)
}

#[test]
fn a_configuration_gives_back_its_settings(rt: HostRuntime) -> Result<(), Fail> {
    expect_text(
        hourly_text(rt.alloc())?,
        "Hourly from 3600000, 4 of Layout { store: Second(Origin { epoch: 3600000, roll_length: 3600000 }), \
            cells: 64, index_count: 8, index_spacing: 1 }, [\"reader\", \"b-2_.Z\"]",
    )
}

/// Whether these are settings.
fn is_config(
    alloc: Global,
    cells: u32,
    cycles: u32,
    epoch: u64,
    names: &[&str],
) -> Result<bool, Fail> {
    let shape = Shape::new(cells, 8, 1)?;
    let names = names_of(alloc, names)?;
    Ok(Config::new(shape, cycles, Roll::Daily, epoch, names).is_ok())
}

/// Cells, cycles and epochs, each with whether they are settings.
static SETTINGS: [(u32, u32, u64, bool); 11] = [
    (64, 1, 0, true),
    (64, 4, 0, true),
    (64, 64, 0, true),
    (64, 0, 0, false),
    (64, 65, 0, false),
    (64, 4, LAST_MOMENT, true),
    (64, 4, 253_402_300_800_000, false),
    (65_536, 64, 0, true),
    (65_537, 64, 0, false),
    (1_048_576, 4, 0, true),
    (1_048_576, 5, 0, false),
];

#[test]
fn a_configuration_has_limits(rt: HostRuntime) -> Result<(), Fail> {
    for &(cells, cycles, epoch, accepted) in &SETTINGS {
        let found = is_config(rt.alloc(), cells, cycles, epoch, &["reader"])?;
        expect_row(found == accepted, u64::from(cycles))?;
    }
    Ok(())
}

/// Names, each list with whether these are names of tailers.
static NAMES: [(&[&str], bool); 11] = [
    (&[], true),
    (&["AZaz09_-."], true),
    (&["read er"], false),
    (&["reader", ""], false),
    (&["l\u{e9}o"], false),
    (&["reader", "reader"], false),
    (&["reader", "writer", "reader"], false),
    // 16 names, and 17.
    (
        &[
            "a", "b", "c", "d", "e", "f", "g", "h", "i", "j", "k", "l", "m", "n", "o", "p",
        ],
        true,
    ),
    (
        &[
            "a", "b", "c", "d", "e", "f", "g", "h", "i", "j", "k", "l", "m", "n", "o", "p", "q",
        ],
        false,
    ),
    // 32 letters, and 33.
    (&["nnnnnnnnnnnnnnnnnnnnnnnnnnnnnnnn"], true),
    (&["nnnnnnnnnnnnnnnnnnnnnnnnnnnnnnnnn"], false),
];

#[test]
fn names_have_limits(rt: HostRuntime) -> Result<(), Fail> {
    for &(names, accepted) in &NAMES {
        let found = is_config(rt.alloc(), 64, 4, 0, names)?;
        expect_row(found == accepted, names.len() as u64)?;
    }
    Ok(())
}

/// What contents of one cycle say of themselves.
fn one_cycle_text(alloc: Global) -> Result<String, Fail> {
    let contents = contents_of(alloc, &[(5, &["hello"])], &[1])?;
    contents_text(alloc, &contents)
}

/// How many cycles there are in contents of one cycle.
fn one_cycle_count(alloc: Global) -> Result<usize, AllocError> {
    let contents = contents_of(alloc, &[(5, &["hello"])], &[1])?;
    Ok(contents.lists.into_vec().len())
}

#[test]
fn contents_give_back_their_items(rt: HostRuntime) -> Result<(), Fail> {
    expect_text(one_cycle_text(rt.alloc())?, "5[hello;] at [1]")?;
    expect_row(one_cycle_count(rt.alloc())? == 1, 1)
}
