//! The text of the file `queue.cqc`.
use crate::settings::settings_text;
use cq_config_text::{SavedConfig, read_config, write_config};
use cq_cycle::LAST_CYCLE;
use cq_fixtures::{expect, expect_text};
use std::alloc::{AllocError, Global};
use std::test::Fail;

/// The lines of the format, except the names.
const HEAD: &str = "cq 1\nroll daily\nepoch 0\ncells 64\ncount 8\nspacing 1\ncycles 4\n";

/// What reading a text returns, as a text.
fn answer_of(alloc: Global, text: &str) -> Result<String, AllocError> {
    match read_config(alloc, text.as_bytes()) {
        Ok(saved) => {
            let names = saved.config.names().len();
            let positions = saved.positions.len();
            format!(in alloc; "{names} names, {positions} positions")
        }
        Err(fault) => format!(in alloc; "{fault}"),
    }
}

/// What reading a text of two parts returns, as a text.
fn answer_of_parts(alloc: Global, head: &str, rest: &str) -> Result<String, AllocError> {
    let text = format!(in alloc; "{head}{rest}")?;
    answer_of(alloc, text.as_str())
}

/// Reads the texts of a table, each of which begins with this head, and fails at the first that returns something
/// else than the table wants.
fn expect_answers(alloc: Global, head: &str, table: &[(&str, &str)]) -> Result<(), Fail> {
    for (rest, want) in table {
        expect_text(answer_of_parts(alloc, head, rest)?, want)?;
    }
    Ok(())
}

/// Whether the same text is written from what a text says, which has a position for each name and a floor within its limit.
fn is_written_again(alloc: Global, text: &str, saved: &SavedConfig) -> Result<bool, AllocError> {
    let positions = saved.positions.as_slice();
    if positions.len() != saved.config.names().len() || saved.floor > LAST_CYCLE {
        return Ok(false);
    }
    let written = write_config(alloc, &saved.config, positions, saved.floor)?;
    Ok(written.as_slice() == text.as_bytes())
}

/// Fails if a text is not written again from what it says, or if that is not what is wanted.
fn expect_saved(alloc: Global, text: &str, saved: &SavedConfig, want: &str) -> Result<(), Fail> {
    expect(is_written_again(alloc, text, saved)?, text)?;
    expect_text(saved_text(alloc, saved)?, want)
}

/// What a text says: the settings, the positions and the floor.
fn saved_text(alloc: Global, saved: &SavedConfig) -> Result<String, AllocError> {
    let settings = settings_text(alloc, &saved.config)?;
    let (positions, floor) = (saved.positions.as_slice(), saved.floor);
    format!(in alloc; "{settings} at {positions:?} from {floor}")
}

/// Reads a text, and fails as `expect_saved` does.
fn expect_read(alloc: Global, text: &str, want: &str) -> Result<(), Fail> {
    let saved = read_config(alloc, text.as_bytes())?;
    expect_saved(alloc, text, &saved, want)
}

/// Texts, each with what it says.
static TEXTS: [(&str, &str); 4] = [
    (
        "cq 1\nroll daily\nepoch 0\ncells 64\ncount 8\nspacing 1\ncycles 4\nname reader 0\n",
        "Daily from 0, 4 of Layout { store: First, cells: 64, index_count: 8, index_spacing: 1 }, [\"reader\"] at [0] from 0",
    ),
    (
        "cq 1\nroll daily\nepoch 0\ncells 64\ncount 8\nspacing 1\ncycles 4\nfloor 20005\n\
        name reader 85920820756481\n",
        "Daily from 0, 4 of Layout { store: First, cells: 64, index_count: 8, index_spacing: 1 }, [\"reader\"] at [85920820756481] \
        from 20005",
    ),
    (
        "cq 1\nroll minutely\nepoch 253402300799999\ncells 3000\ncount 16\nspacing 256\ncycles 64\n\
        name b-2_.Z 18446744073709551615\nname a 85899345920001\n",
        "Minutely from 253402300799999, 64 of Layout { store: First, cells: 3000, index_count: 16, index_spacing: 256 }, \
        [\"b-2_.Z\", \"a\"] at [18446744073709551615, 85899345920001] from 0",
    ),
    (
        "cq 2\nroll hourly\nepoch 3600000\ncells 64\ncount 8\nspacing 1\ncycles 4\nname reader 0\n",
        "Hourly from 3600000, 4 of Layout { store: Second(Origin { epoch: 3600000, roll_length: 3600000 }), \
        cells: 64, index_count: 8, index_spacing: 1 }, [\"reader\"] at [0] from 0",
    ),
];

/// Reads the texts of a table, and fails at the first that says something else than the table wants.
fn expect_each_read(alloc: Global, table: &[(&str, &str)]) -> Result<(), Fail> {
    for (text, want) in table {
        expect_read(alloc, text, want)?;
    }
    Ok(())
}

#[test]
fn a_text_is_read_and_written_again(rt: HostRuntime) -> Result<(), Fail> {
    expect_each_read(rt.alloc(), &TEXTS)
}

/// Texts, each with what reading it returns.
static FAULTY_LINES: [(&str, &str); 31] = [
    // Texts that end too early.
    ("", "line 1"),
    ("cq 1", "line 1"),
    ("cq 1\n", "line 2"),
    ("cq 1\nroll daily\nepoch 0\n", "line 4"),
    (
        "cq 1\nroll daily\nepoch 0\ncells 64\ncount 8\nspacing 1\n",
        "line 7",
    ),
    (
        "cq 1\nroll daily\nepoch 0\ncells 64\ncount 8\nspacing 1\ncycles 4",
        "line 7",
    ),
    // Each line wrong in turn.
    ("cq 2\nroll daily\n", "line 3"),
    ("cq 3\nroll daily\n", "line 1"),
    ("cq 12\nroll daily\n", "line 1"),
    ("cq  1\nroll daily\n", "line 1"),
    ("cq 1 \nroll daily\n", "line 1"),
    ("cq 1\r\nroll daily\n", "line 1"),
    ("CQ 1\n", "line 1"),
    ("cq 1\nroll weekly\nepoch 0\n", "line 2"),
    ("cq 1\nroll Daily\nepoch 0\n", "line 2"),
    ("cq 1\nroll\nepoch 0\n", "line 2"),
    ("cq 1\nroll \u{e9}\nepoch 0\n", "line 2"),
    ("cq 1\nroll daily\ncells 64\n", "line 3"),
    ("cq 1\nroll daily\nepoch 00\n", "line 3"),
    ("cq 1\nroll daily\nepoch +1\n", "line 3"),
    ("cq 1\nroll daily\nepoch -1\n", "line 3"),
    ("cq 1\nroll daily\nepoch \n", "line 3"),
    ("cq 1\nroll daily\nepoch 18446744073709551616\n", "line 3"),
    (
        "cq 1\nroll daily\nepoch 18446744073709551615\ncells 064\n",
        "line 4",
    ),
    ("cq 1\nroll daily\nepoch 0\ncells 6 4\n", "line 4"),
    ("cq 1\nroll daily\nepoch 0\ncells 64\ncount8\n", "line 5"),
    ("cq 1\nroll daily\nepoch 0\ncells 64\nspacing 1\n", "line 5"),
    (
        "cq 1\nroll daily\nepoch 0\ncells 64\ncount 8\n spacing 1\n",
        "line 6",
    ),
    (
        "cq 1\nroll daily\nepoch 0\ncells 64\ncount 8\nspacing 1\ncycles 0x4\n",
        "line 7",
    ),
    (
        "cq 1\nroll daily\nepoch 0\ncells 64\ncount 8\nspacing 1\n\ncycles 4\n",
        "line 7",
    ),
    // The syntax comes before the limits.
    (
        "cq 1\nroll daily\nepoch 0\ncells 1\ncount 8\nspacing 1\ncycles 0\nx\n",
        "line 8",
    ),
];

#[test]
fn the_faulty_line_is_named(rt: HostRuntime) -> Result<(), Fail> {
    expect_answers(rt.alloc(), "", &FAULTY_LINES)
}

/// Lines of names, each with what reading them returns.
static FAULTY_NAMES: [(&str, &str); 15] = [
    ("", "0 names, 0 positions"),
    ("name reader 0\nname writer 7\n", "2 names, 2 positions"),
    ("name reader 0", "line 8"),
    ("name reader 0\nname writer 7", "line 9"),
    ("name reader 0\nname  7\n", "line 9"),
    ("name reader 0\nname writer\n", "line 9"),
    ("name reader 0\n\n", "line 9"),
    ("name reader 0\nname writer 07\n", "line 9"),
    ("name reader 18446744073709551616\n", "line 8"),
    ("name read/er 0\n", "line 8"),
    ("name l\u{e9}o 0\n", "line 8"),
    ("name a b 0\n", "line 8"),
    ("Name a 0\n", "line 8"),
    ("name a 0\nname b 0\nname a 0\nname\n", "line 11"),
    // No name is there twice.
    ("name a 0\nname b 0\nname a 0\n", "BadConfig"),
];

#[test]
fn the_faulty_name_is_named(rt: HostRuntime) -> Result<(), Fail> {
    expect_answers(rt.alloc(), HEAD, &FAULTY_NAMES)
}

/// The floor that is read of the lines after the head, or the fault, as a text.
fn floor_answer(alloc: Global, rest: &str) -> Result<String, AllocError> {
    let text = format!(in alloc; "{HEAD}{rest}")?;
    match read_config(alloc, text.as_bytes()) {
        Ok(saved) => format!(in alloc; "{}", saved.floor),
        Err(fault) => format!(in alloc; "{fault}"),
    }
}

/// Lines after the head, each with the floor or the fault that is read of them.
static FLOORS: [(&str, &str); 20] = [
    ("", "0"),
    ("name a 0\n", "0"),
    ("floor 1\n", "1"),
    ("floor 20005\nname a 0\nname b 0\n", "20005"),
    ("floor 2147483646\n", "2147483646"),
    ("floor 2147483647\n", "BadConfig"),
    ("floor 18446744073709551615\n", "BadConfig"),
    ("floor 18446744073709551616\n", "line 8"),
    ("floor 0\n", "line 8"),
    ("floor 01\n", "line 8"),
    ("floor +1\n", "line 8"),
    ("floor \n", "line 8"),
    ("floor\n", "line 8"),
    ("floor 1", "line 8"),
    ("floor 1 2\n", "line 8"),
    ("Floor 1\n", "line 8"),
    // It is there once, and before the names.
    ("floor 1\nfloor 1\n", "line 9"),
    ("name a 0\nfloor 1\n", "line 9"),
    ("floor 1\nname a 0", "line 9"),
    // The lines come before the limits.
    ("floor 2147483647\nname\n", "line 9"),
];

#[test]
fn a_floor_is_read_or_refused(rt: HostRuntime) -> Result<(), Fail> {
    for &(rest, want) in &FLOORS {
        expect_text(floor_answer(rt.alloc(), rest)?, want)?;
    }
    Ok(())
}

/// Lines after those of the roll, each with what reading them returns.
static LIMITS: [(&str, &str); 14] = [
    (
        "epoch 0\ncells 64\ncount 8\nspacing 1\ncycles 4\n",
        "0 names, 0 positions",
    ),
    (
        "epoch 0\ncells 30\ncount 8\nspacing 1\ncycles 4\n",
        "BadShape",
    ),
    (
        "epoch 0\ncells 64\ncount 7\nspacing 1\ncycles 4\n",
        "BadShape",
    ),
    (
        "epoch 0\ncells 64\ncount 8\nspacing 3\ncycles 4\n",
        "BadShape",
    ),
    (
        "epoch 0\ncells 4294967360\ncount 8\nspacing 1\ncycles 4\n",
        "BadShape",
    ),
    (
        "epoch 0\ncells 64\ncount 4294967304\nspacing 1\ncycles 4\n",
        "BadShape",
    ),
    (
        "epoch 0\ncells 64\ncount 8\nspacing 4294967297\ncycles 4\n",
        "BadShape",
    ),
    (
        "epoch 0\ncells 64\ncount 8\nspacing 1\ncycles 0\n",
        "BadConfig",
    ),
    (
        "epoch 0\ncells 64\ncount 8\nspacing 1\ncycles 65\n",
        "BadConfig",
    ),
    (
        "epoch 0\ncells 64\ncount 8\nspacing 1\ncycles 4294967300\n",
        "BadConfig",
    ),
    (
        "epoch 0\ncells 65537\ncount 8\nspacing 1\ncycles 64\n",
        "BadConfig",
    ),
    (
        "epoch 253402300800000\ncells 64\ncount 8\nspacing 1\ncycles 4\n",
        "BadConfig",
    ),
    // The limits of a shape come first.
    (
        "epoch 18446744073709551615\ncells 30\ncount 8\nspacing 1\ncycles 0\n",
        "BadShape",
    ),
    (
        "epoch 0\ncells 30\ncount 8\nspacing 1\ncycles 4\nfloor 2147483647\n",
        "BadShape",
    ),
];

#[test]
fn limits_are_told_apart(rt: HostRuntime) -> Result<(), Fail> {
    expect_answers(rt.alloc(), "cq 1\nroll hourly\n", &LIMITS)
}

/// The lines of this many names, each of a letter of its own, up to 26, and these after it.
fn lines_of_names(alloc: Global, count: u8, letters: &str) -> Result<String, AllocError> {
    let mut text = String::new(alloc);
    for i in 0..count {
        let first = char::from(b'a' + i % 26);
        write!(text, "name {first}{letters} 5\n")?;
    }
    Ok(text)
}

/// What reading the lines of this many names returns.
fn answer_of_names(alloc: Global, count: u8, letters: &str) -> Result<String, AllocError> {
    let lines = lines_of_names(alloc, count, letters)?;
    answer_of_parts(alloc, HEAD, lines.as_str())
}

/// The letters of a name of 32 letters after the first one.
const LONGEST: &str = "nnnnnnnnnnnnnnnnnnnnnnnnnnnnnnn";

/// Numbers of names and their letters after the first one, each with what reading such a text returns.
static NAMES: [(u8, &str, &str); 5] = [
    (1, LONGEST, "1 names, 1 positions"),
    (1, "nnnnnnnnnnnnnnnnnnnnnnnnnnnnnnnn", "BadConfig"),
    (16, LONGEST, "16 names, 16 positions"),
    (17, "", "BadConfig"),
    (27, "", "BadConfig"),
];

/// Reads the names of a table, and fails at the first that returns something else than the table wants.
fn expect_names(alloc: Global, table: &[(u8, &str, &str)]) -> Result<(), Fail> {
    for (count, letters, want) in table {
        expect_text(answer_of_names(alloc, *count, letters)?, want)?;
    }
    Ok(())
}

#[test]
fn names_have_limits(rt: HostRuntime) -> Result<(), Fail> {
    expect_names(rt.alloc(), &NAMES)
}
