//! What `follow` prints, and when it ends.
use crate::world::Step::{Drop, Put, Trim, Write};
use crate::world::{Life, LivingFolder, Room, Says, Ticks};
use cq_fixtures::{DAY, expect_text};
use cq_following::{Pipe, Watch, follow};
use cq_running::{ReadForm, ReadSettings};
use std::alloc::{AllocError, Global};
use std::io::ErrorKind;
use std::test::Fail;

/// What is read, and for how long.
#[derive(Clone, Copy)]
struct Wanted {
    back: bool,
    from: Option<&'static str>,
    limit: Option<u64>,
    last: Option<u64>,
    since: Option<&'static str>,
    until: Option<&'static str>,
    seconds: u64,
}

/// All messages, for a second.
static ALL: Wanted = Wanted {
    back: false,
    from: None,
    limit: None,
    last: None,
    since: None,
    until: None,
    seconds: 1,
};

/// What is read of which life of a folder, with what is said: the text, the fault if there is one, and the milliseconds that it took.
type Row = (Wanted, Life, &'static str);

/// Messages come in one day and the next, while days are dropped and removed: each is printed once, in order.
static LIVES: &[Row] = &[
    (ALL, &[], "after 1000"),
    (
        ALL,
        &[
            &[Write(0, b"a\nb\n")],
            &[],
            &[Write(0, b"c\n")],
            &[Write(DAY, b"d\n")],
            &[Drop(1)],
            &[Trim],
            &[Write(DAY, b"e\n"), Write(3 * DAY, b"f\n"), Drop(3), Trim],
        ],
        "0000000000000000 a\n0000000000000001 b\n0000000000000002 c\n0000000100000000 d\n0000000300000000 f\nafter 1000",
    ),
    (
        ALL,
        &[
            &[Write(0, b"a\n")],
            &[Write(DAY, b"b\n"), Drop(1), Trim, Write(2 * DAY, b"c\n")],
            &[Write(2 * DAY, b"d\n")],
        ],
        "0000000000000000 a\n0000000100000000 b\n0000000200000000 c\n0000000200000001 d\nafter 1000",
    ),
];

/// Fewer messages are read.
static PARTS: &[Row] = &[
    (
        Wanted {
            limit: Some(3),
            ..ALL
        },
        &[&[Write(0, b"a\nb\n")], &[Write(0, b"c\nd\n")]],
        "0000000000000000 a\n0000000000000001 b\n0000000000000002 c\nafter 50",
    ),
    (
        Wanted {
            last: Some(1),
            limit: Some(1),
            back: true,
            ..ALL
        },
        &[&[Write(0, b"a\nb\n")], &[Write(0, b"c\nd\n")]],
        "0000000000000001 b\n0000000000000002 c\n0000000000000003 d\nafter 1000",
    ),
    (
        Wanted {
            back: true,
            from: Some("0000000000000001"),
            ..ALL
        },
        &[&[Write(0, b"a\nb\n")], &[Write(0, b"c\n")]],
        "0000000000000001 b\n0000000000000002 c\nafter 1000",
    ),
    (
        Wanted { back: true, ..ALL },
        &[&[Write(0, b"a\n")], &[Write(0, b"b\n")]],
        "0000000000000000 a\n0000000000000001 b\nafter 1000",
    ),
    (
        Wanted {
            since: Some("19700102"),
            until: Some("19700103"),
            ..ALL
        },
        &[
            &[Write(0, b"a\n")],
            &[Write(DAY, b"b\n")],
            &[Write(DAY, b"c\n"), Write(2 * DAY, b"d\n")],
        ],
        "0000000100000000 b\n0000000100000001 c\nafter 1000",
    ),
    (
        Wanted {
            last: Some(2),
            since: Some("19700102"),
            ..ALL
        },
        &[&[Write(0, b"a\n")], &[Write(DAY, b"b\n")]],
        "0000000100000000 b\nafter 1000",
    ),
    (
        Wanted { seconds: 0, ..ALL },
        &[
            &[Write(0, b"a\n")],
            &[Write(0, b"b\n")],
            &[Write(0, b"c\n")],
        ],
        "0000000000000000 a\n0000000000000001 b\nafter 0",
    ),
];

/// Faults end it, at once and later.
static FAULTS: &[Row] = &[
    (
        Wanted {
            from: Some("x"),
            ..ALL
        },
        &[],
        "cq: BadIndex after 0",
    ),
    (
        Wanted {
            until: Some("x"),
            ..ALL
        },
        &[],
        "cq: BadIndex after 0",
    ),
    (
        ALL,
        &[&[Write(0, b"a\n")], &[Put("queue.cqc", b"cq 3\n")]],
        "0000000000000000 a\ncq: queue.cqc: line 1 after 50",
    ),
];

/// What is said of a life of a folder.
fn said_of(alloc: Global, wanted: &Wanted, life: Life, says: Says) -> Result<String, Fail> {
    let clock = Ticks::new(alloc, false);
    let Ok(mut folder) = LivingFolder::new(alloc, life) else {
        return Ok(String::from_str(alloc, "no queue")?);
    };
    let settings = settings_of(alloc, wanted)?;
    let mut watch = Watch::new(&clock, says);
    let mut output = Pipe::new(Vec::new(alloc));
    let done = follow(
        &mut watch,
        &mut folder,
        &settings,
        Some(wanted.seconds),
        &mut output,
    );
    let written = output.into_writer();
    let text = str::from_utf8(written.as_slice()).unwrap_or("no text");
    let passed = clock.passed();
    match done {
        Ok(()) => Ok(format!(in alloc; "{text}after {passed}")?),
        Err(fault) => Ok(format!(in alloc; "{text}cq: {fault} after {passed}")?),
    }
}

/// What is read.
fn settings_of(alloc: Global, wanted: &Wanted) -> Result<ReadSettings, AllocError> {
    Ok(ReadSettings {
        form: ReadForm::Line,
        back: wanted.back,
        from: word_of(alloc, wanted.from)?,
        limit: wanted.limit,
        last: wanted.last,
        since: word_of(alloc, wanted.since)?,
        until: word_of(alloc, wanted.until)?,
    })
}

fn word_of(alloc: Global, word: Option<&str>) -> Result<Option<String>, AllocError> {
    match word {
        None => Ok(None),
        Some(word) => Ok(Some(String::from_str(alloc, word)?)),
    }
}

fn expect_rows(alloc: Global, rows: &[Row]) -> Result<(), Fail> {
    for (wanted, life, want) in rows {
        expect_text(said_of(alloc, wanted, life, Says(true))?, want)?;
    }
    Ok(())
}

#[test]
fn each_message_is_printed_once_and_in_order(rt: HostRuntime) -> Result<(), Fail> {
    expect_rows(rt.alloc(), LIVES)
}

#[test]
fn the_settings_say_which_messages(rt: HostRuntime) -> Result<(), Fail> {
    expect_rows(rt.alloc(), PARTS)
}

#[test]
fn a_fault_ends_it(rt: HostRuntime) -> Result<(), Fail> {
    expect_rows(rt.alloc(), FAULTS)
}

#[test]
fn where_nothing_changes_it_ends_in_time(rt: HostRuntime) -> Result<(), Fail> {
    let alloc = rt.alloc();
    expect_text(said_of(alloc, &ALL, &[], Says(false))?, "after 1000")?;
    // What has come is printed in the last round.
    let life: Life = &[&[], &[Write(0, b"a\n")]];
    expect_text(
        said_of(alloc, &ALL, life, Says(false))?,
        "0000000000000000 a\nafter 1000",
    )
}

/// What a writer keeps that fails in this way after this many bytes, and what is said.
fn kept_of(alloc: Global, left: usize, kind: ErrorKind) -> Result<String, Fail> {
    let life: Life = &[&[Write(0, b"a\n")], &[Write(0, b"b\n")]];
    let clock = Ticks::new(alloc, false);
    let Ok(mut folder) = LivingFolder::new(alloc, life) else {
        return Ok(String::from_str(alloc, "no queue")?);
    };
    let settings = settings_of(alloc, &ALL)?;
    let mut watch = Watch::new(&clock, Says(true));
    let mut output = Pipe::new(Room::new(alloc, left, kind));
    let done = follow(&mut watch, &mut folder, &settings, None, &mut output);
    let is_closed = output.is_closed();
    let room = output.into_writer();
    let text = str::from_utf8(room.taken.as_slice()).unwrap_or("no text");
    match done {
        Ok(()) => Ok(format!(in alloc; "{text}|{is_closed}")?),
        Err(fault) => Ok(format!(in alloc; "{text}|{is_closed} cq: {fault}")?),
    }
}

#[test]
fn a_closed_pipe_ends_it_quietly(rt: HostRuntime) -> Result<(), Fail> {
    let alloc = rt.alloc();
    expect_text(
        kept_of(alloc, 24, ErrorKind::BrokenPipe)?,
        "0000000000000000 a\n00000|true",
    )?;
    expect_text(
        kept_of(alloc, 24, ErrorKind::Other)?,
        "0000000000000000 a\n00000|false cq: write fault",
    )
}

#[test]
fn without_a_clock_a_time_is_over_at_once(rt: HostRuntime) -> Result<(), Fail> {
    let alloc = rt.alloc();
    let clock = Ticks::new(alloc, true);
    let life: Life = &[&[Write(0, b"a\n")], &[Write(0, b"b\n")]];
    let Ok(mut folder) = LivingFolder::new(alloc, life) else {
        return Err(Fail::new(format_args!("no queue")));
    };
    let settings = settings_of(alloc, &ALL)?;
    let mut watch = Watch::new(&clock, Says(true));
    let mut output = Pipe::new(Vec::new(alloc));
    let done = follow(&mut watch, &mut folder, &settings, Some(9), &mut output);
    let written = output.into_writer();
    let text = str::from_utf8(written.as_slice()).unwrap_or("no text");
    let is_done = done.is_ok();
    expect_text(
        format!(in alloc; "{text}{is_done}")?,
        "0000000000000000 a\n0000000000000001 b\ntrue",
    )
}
