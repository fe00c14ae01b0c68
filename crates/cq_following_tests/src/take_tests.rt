//! What a take prints that waits, and when it ends.
use crate::world::Step::{Put, Write};
use crate::world::{Life, LivingFolder, Says, Ticks};
use cq_fixtures::expect_text;
use cq_following::{Watch, take_waiting};
use cq_running::TakeSettings;
use std::alloc::Global;
use std::test::Fail;

/// The name, the limit, whether it only looks, for how many seconds it waits, the life of the folder, and what is said: the lines,
/// what was found, and the milliseconds that it took.
type Row = (
    &'static str,
    Option<u64>,
    bool,
    Option<u64>,
    Life,
    &'static str,
);

static ROWS: &[Row] = &[
    ("reader", None, false, None, &[], "Nothing after 0"),
    (
        "reader",
        None,
        false,
        None,
        &[&[], &[Write(0, b"a\n")]],
        "Nothing after 0",
    ),
    ("reader", None, false, Some(1), &[], "Nothing after 1000"),
    (
        "reader",
        None,
        false,
        Some(9),
        &[&[Write(0, b"a\nb\n")], &[Write(0, b"c\n")]],
        "0000000000000000 a\nMessages after 0",
    ),
    (
        "reader",
        Some(9),
        false,
        Some(9),
        &[&[], &[], &[Write(0, b"a\nb\n")], &[Write(0, b"c\n")]],
        "0000000000000000 a\n0000000000000001 b\nMessages after 150",
    ),
    (
        "reader",
        Some(9),
        true,
        Some(9),
        &[&[], &[Write(0, b"a\n")]],
        "0000000000000000 a\nMessages after 50",
    ),
    ("other", None, false, Some(9), &[], "cq: NoSuchName after 0"),
    (
        "reader",
        None,
        false,
        Some(9),
        &[&[], &[Put("queue.cqc", b"cq 3\n")]],
        "cq: queue.cqc: line 1 after 50",
    ),
    (
        "reader",
        None,
        false,
        Some(0),
        &[&[], &[Write(0, b"a\n")]],
        "0000000000000000 a\nMessages after 0",
    ),
];

/// What is said of a take.
fn said_of(alloc: Global, row: &Row) -> Result<String, Fail> {
    let (name, limit, peek, wait, life, _) = *row;
    let clock = Ticks::new(alloc, false);
    let Ok(mut folder) = LivingFolder::new(alloc, life) else {
        return Ok(String::from_str(alloc, "no queue")?);
    };
    let settings = TakeSettings { limit, peek, wait };
    let mut watch = Watch::new(&clock, Says(true));
    let mut output = Vec::new(alloc);
    let done = take_waiting(&mut watch, &mut folder, name, &settings, &mut output);
    let text = str::from_utf8(output.as_slice()).unwrap_or("no text");
    let passed = clock.passed();
    match done {
        Ok(took) => Ok(format!(in alloc; "{text}{took:?} after {passed}")?),
        Err(fault) => Ok(format!(in alloc; "{text}cq: {fault} after {passed}")?),
    }
}

#[test]
fn it_waits_only_where_there_is_nothing(rt: HostRuntime) -> Result<(), Fail> {
    let alloc = rt.alloc();
    for row in ROWS {
        expect_text(said_of(alloc, row)?, row.5)?;
    }
    Ok(())
}

#[test]
fn a_message_is_taken_once(rt: HostRuntime) -> Result<(), Fail> {
    let alloc = rt.alloc();
    let clock = Ticks::new(alloc, false);
    let life: Life = &[&[Write(0, b"a\n")], &[], &[Write(0, b"b\n")]];
    let Ok(mut folder) = LivingFolder::new(alloc, life) else {
        return Err(Fail::new(format_args!("no queue")));
    };
    let settings = TakeSettings {
        limit: None,
        peek: false,
        wait: Some(5),
    };
    let mut watch = Watch::new(&clock, Says(true));
    let mut output = Vec::new(alloc);
    for _ in 0..3 {
        let _took = take_waiting(&mut watch, &mut folder, "reader", &settings, &mut output);
    }
    let text = str::from_utf8(output.as_slice()).unwrap_or("no text");
    let passed = clock.passed();
    expect_text(
        format!(in alloc; "{text}{passed}")?,
        "0000000000000000 a\n0000000000000001 b\n5050",
    )
}
