//! Roll cycles, their names, and indexes.
use cq_cycle::{
    BadMoment, Index, LAST_MOMENT, NameFault, Roll, cycle_named, cycle_of, has_cycle, name_of,
    roll_named,
};
use cq_fixtures::{expect, expect_row, expect_text};
use std::alloc::{AllocError, Global};
use std::test::Fail;

/// An epoch of one hour, in milliseconds of Unix time.
const HOUR: u64 = 3_600_000;

/// The epoch from which the last minute of the year 9999 is in the last cycle.
const LATE: u64 = 124_553_281_980_000;

/// Rolls, epochs and moments, each with the cycle of the moment.
static CYCLES: [(Roll, u64, u64, Result<u32, BadMoment>); 15] = [
    (Roll::Daily, 0, 86_399_999, Ok(0)),
    (Roll::Daily, 0, 86_400_000, Ok(1)),
    (Roll::Daily, 0, 253_402_300_799_999, Ok(2_932_896)),
    (Roll::Daily, 0, 253_402_300_800_000, Err(BadMoment)),
    (Roll::Daily, 0, u64::MAX, Err(BadMoment)),
    (Roll::Daily, HOUR, 3_599_999, Err(BadMoment)),
    (Roll::Daily, HOUR, 3_600_000, Ok(0)),
    (Roll::Daily, HOUR, 89_999_999, Ok(0)),
    (Roll::Daily, HOUR, 90_000_000, Ok(1)),
    (Roll::Hourly, 0, 253_402_300_799_999, Ok(70_389_527)),
    (Roll::Hourly, 0, 253_402_300_800_000, Err(BadMoment)),
    (Roll::Minutely, 0, 128_849_018_819_999, Ok(2_147_483_646)),
    (Roll::Minutely, 0, 128_849_018_820_000, Err(BadMoment)),
    (Roll::Minutely, LATE, 253_402_300_799_999, Ok(2_147_483_646)),
    (Roll::Minutely, LATE, 253_402_300_800_000, Err(BadMoment)),
];

#[test]
fn tells_the_cycle_of_a_moment() -> Result<(), Fail> {
    for &(roll, epoch, moment, want) in &CYCLES {
        expect_row(cycle_of(roll, epoch, moment) == want, moment)?;
    }
    Ok(())
}

/// Rolls, epochs and cycles, each with whether there is such a cycle.
static KNOWN: [(Roll, u64, u32, bool); 13] = [
    (Roll::Daily, 0, 2_932_896, true),
    (Roll::Daily, 0, 2_932_897, false),
    (Roll::Daily, HOUR, 2_932_896, true),
    (Roll::Daily, 86_400_000, 2_932_896, false),
    (Roll::Daily, LAST_MOMENT, 0, true),
    (Roll::Daily, LAST_MOMENT + 1, 0, false),
    (Roll::Daily, u64::MAX, 0, false),
    (Roll::Hourly, 0, 70_389_527, true),
    (Roll::Hourly, 0, 70_389_528, false),
    (Roll::Minutely, 0, 2_147_483_646, true),
    (Roll::Minutely, 0, 2_147_483_647, false),
    (Roll::Minutely, LATE, 2_147_483_646, true),
    (Roll::Minutely, LATE + 60_000, 2_147_483_646, false),
];

#[test]
fn knows_which_cycles_there_are() -> Result<(), Fail> {
    for &(roll, epoch, cycle, want) in &KNOWN {
        expect_row(has_cycle(roll, epoch, cycle) == want, u64::from(cycle))?;
    }
    Ok(())
}

/// Whether there is this cycle, and it has this name, which is that of no other.
fn is_named(
    alloc: Global,
    roll: Roll,
    epoch: u64,
    cycle: u32,
    name: &str,
) -> Result<bool, AllocError> {
    if !has_cycle(roll, epoch, cycle) {
        return Ok(false);
    }
    let printed = name_of(alloc, roll, epoch, cycle)?;
    Ok(printed.as_str() == name && cycle_named(roll, epoch, name) == Ok(cycle))
}

/// Rolls, epochs and cycles, each with the name of the cycle.
static NAMES: [(Roll, u64, u32, &str); 17] = [
    (Roll::Daily, 0, 20_000, "20241004"),
    (Roll::Hourly, 0, 480_000, "20241004-00"),
    (Roll::Minutely, 0, 28_800_000, "20241004-0000"),
    (Roll::Daily, HOUR, 0, "19700101"),
    (Roll::Daily, HOUR, 1, "19700102"),
    (Roll::Hourly, HOUR, 0, "19700101-01"),
    (Roll::Daily, 0, 11_016, "20000229"),
    (Roll::Daily, 0, 19_782, "20240229"),
    (Roll::Daily, 0, 19_783, "20240301"),
    (Roll::Daily, 0, 47_540, "21000228"),
    (Roll::Daily, 0, 47_541, "21000301"),
    (Roll::Hourly, 0, 474_780, "20240229-12"),
    (Roll::Minutely, 0, 28_486_834, "20240229-1234"),
    (Roll::Minutely, 0, 2_147_483_646, "60530123-0206"),
    (Roll::Daily, 0, 2_932_896, "99991231"),
    (Roll::Hourly, 0, 70_389_527, "99991231-23"),
    (Roll::Minutely, LATE, 2_147_483_646, "99991231-2359"),
];

#[test]
fn names_cycles_and_finds_them(rt: HostRuntime) -> Result<(), Fail> {
    for &(roll, epoch, cycle, want) in &NAMES {
        expect(is_named(rt.alloc(), roll, epoch, cycle, want)?, want)?;
    }
    Ok(())
}

/// Rolls and epochs, each with a name that no cycle has.
static NO_NAMES: [(Roll, u64, &str); 35] = [
    // Not eight digits.
    (Roll::Daily, 0, ""),
    (Roll::Daily, 0, "2024104"),
    (Roll::Daily, 0, "202410040"),
    (Roll::Daily, 0, "+0241004"),
    (Roll::Daily, 0, "-0241004"),
    (Roll::Daily, 0, " 0241004"),
    (Roll::Daily, 0, "20241004 "),
    (Roll::Daily, 0, "2024 004"),
    (Roll::Daily, 0, "2024100４"),
    (Roll::Daily, 0, "2024100٤"),
    // No date.
    (Roll::Daily, 0, "20240004"),
    (Roll::Daily, 0, "20241304"),
    (Roll::Daily, 0, "20241000"),
    (Roll::Daily, 0, "20241032"),
    (Roll::Daily, 0, "20240431"),
    (Roll::Daily, 0, "20230229"),
    (Roll::Daily, 0, "21000229"),
    // No time.
    (Roll::Hourly, 0, "20241004-24"),
    (Roll::Hourly, 0, "20241004-0"),
    (Roll::Hourly, 0, "20241004-000"),
    (Roll::Hourly, 0, "20241004_00"),
    (Roll::Minutely, 0, "20241004-2400"),
    (Roll::Minutely, 0, "20241004-0060"),
    (Roll::Minutely, 0, "20241004-00000"),
    (Roll::Minutely, 0, "20241004-+100"),
    // Names of another roll.
    (Roll::Daily, 0, "20241004-00"),
    (Roll::Daily, 0, "20241004-0000"),
    (Roll::Hourly, 0, "20241004"),
    (Roll::Hourly, 0, "20241004-0000"),
    (Roll::Minutely, 0, "20241004"),
    (Roll::Minutely, 0, "20241004-00"),
    // Before the epoch.
    (Roll::Daily, 0, "19691231"),
    (Roll::Daily, 86_400_000, "19700101"),
    (Roll::Hourly, HOUR, "19700101-00"),
    // After the last cycle.
    (Roll::Minutely, 0, "60530123-0207"),
];

#[test]
fn refuses_names_of_no_cycle() -> Result<(), Fail> {
    for &(roll, epoch, name) in &NO_NAMES {
        expect(
            cycle_named(roll, epoch, name) == Err(NameFault::BadName),
            name,
        )?;
    }
    Ok(())
}

/// An index of these as text: its value, its cycle and its sequence, and what it prints, if it is the one of its value.
fn index_text(alloc: Global, cycle: u32, sequence: u32) -> Result<String, AllocError> {
    let index = Index::new(cycle, sequence);
    if Index::of_value(index.value()) != index {
        return format!(in alloc; "another index");
    }
    let (value, cycle, sequence) = (index.value(), index.cycle(), index.sequence());
    format!(in alloc; "{value} = {cycle}, {sequence}: {index}")
}

/// Cycles and sequences, each with what the index of both says.
static INDEXES: [(u32, u32, &str); 4] = [
    (0, 0, "0 = 0, 0: 0000000000000000"),
    (20_000, 0, "85899345920000 = 20000, 0: 00004e2000000000"),
    (5, 1, "21474836481 = 5, 1: 0000000500000001"),
    (
        u32::MAX,
        u32::MAX,
        "18446744073709551615 = 4294967295, 4294967295: ffffffffffffffff",
    ),
];

#[test]
fn joins_and_splits_indexes(rt: HostRuntime) -> Result<(), Fail> {
    for &(cycle, sequence, want) in &INDEXES {
        expect_text(index_text(rt.alloc(), cycle, sequence)?, want)?;
    }
    Ok(())
}

/// Words, each with the roll that it names.
static WORDS: [(&str, Option<Roll>); 9] = [
    ("daily", Some(Roll::Daily)),
    ("hourly", Some(Roll::Hourly)),
    ("minutely", Some(Roll::Minutely)),
    ("", None),
    ("Daily", None),
    ("daily ", None),
    ("dail", None),
    ("weekly", None),
    ("minutely\n", None),
];

#[test]
fn words_name_rolls() -> Result<(), Fail> {
    for &(word, want) in &WORDS {
        expect(roll_named(word) == want, word)?;
    }
    Ok(())
}
