//! What `new` chooses, as the line of `init` that does the same.
use cq_fixtures::expect_text;
use cq_new::{init_line, settings_of};
use cq_orders::NewSettings;
use std::alloc::{AllocError, Global};
use std::test::Fail;

/// The folder, the roll, the cells, the cycles and the names that are given, and the line.
type Row = (
    &'static str,
    Option<&'static str>,
    Option<u64>,
    Option<u64>,
    &'static [&'static str],
    &'static str,
);

static ROWS: &[Row] = &[
    (
        "DIR",
        None,
        None,
        None,
        &["reader"],
        "cq init DIR daily 0 65536 64 16 64 reader",
    ),
    (
        "/tmp/a-b_c.d",
        Some("hourly"),
        Some(31),
        Some(3),
        &[],
        "cq init /tmp/a-b_c.d hourly 0 31 8 16 3",
    ),
    (
        "a",
        None,
        Some(2_048),
        None,
        &[],
        "cq init a daily 0 2048 8 16 64",
    ),
    (
        "a",
        None,
        Some(2_049),
        None,
        &[],
        "cq init a daily 0 2049 16 16 64",
    ),
    (
        "a",
        None,
        Some(131_073),
        None,
        &[],
        "cq init a daily 0 131073 128 16 31",
    ),
    (
        "a",
        None,
        Some(1_048_576),
        None,
        &["x", "y"],
        "cq init a daily 0 1048576 256 16 4 x y",
    ),
    // What `init` refuses is passed on.
    ("a", None, Some(0), None, &[], "cq init a daily 0 0 8 16 64"),
    (
        "a",
        None,
        Some(5_000_000),
        None,
        &[],
        "cq init a daily 0 5000000 256 16 1",
    ),
    // Words that a shell would cut or change.
    (
        "",
        None,
        None,
        None,
        &[],
        "cq init '' daily 0 65536 64 16 64",
    ),
    (
        "my queue",
        Some("a$b"),
        None,
        None,
        &["it's", "'"],
        "cq init 'my queue' 'a$b' 0 65536 64 16 64 'it'\\''s' ''\\'''",
    ),
    // Words that `init` would read as options.
    (
        "-q",
        None,
        None,
        None,
        &["reader"],
        "cq init -- -q daily 0 65536 64 16 64 reader",
    ),
    (
        "a-b",
        None,
        None,
        None,
        &["x", "-v"],
        "cq init -- a-b daily 0 65536 64 16 64 x -v",
    ),
    (
        "a",
        Some("--help"),
        None,
        None,
        &[],
        "cq init -- a --help 0 65536 64 16 64",
    ),
];

/// The line of `init` for what is given.
fn line_for(alloc: Global, row: &Row) -> Result<String, AllocError> {
    let (folder, word, cells, cycles, words, _) = *row;
    let roll = match word {
        None => None,
        Some(word) => Some(String::from_str(alloc, word)?),
    };
    let mut names = Vec::new(alloc);
    for word in words {
        names.push(String::from_str(alloc, word)?)?;
    }
    let given = NewSettings {
        roll,
        cells,
        cycles,
        names,
    };
    let settings = settings_of(alloc, &given)?;
    init_line(alloc, folder, &settings)
}

#[test]
fn settings_are_chosen(rt: HostRuntime) -> Result<(), Fail> {
    let alloc = rt.alloc();
    for row in ROWS {
        expect_text(line_for(alloc, row)?, row.5)?;
    }
    Ok(())
}
