//! No command is in its folder while it reads its input, or writes its output.
use crate::command_tests::order_of;
use crate::steps::{Step, said_by};
use crate::streams::{Said, said};
use crate::watched::{WatchedFolder, WatchedInput, WatchedOutput};
use cq_fixtures::{expect_text, push_missed};
use cq_folder::Folder;
use cq_running::{Order, run, take_by};
use std::alloc::Global;
use std::cell::Cell;
use std::test::Fail;

/// The arguments of a command, its input, and what it writes.
type Row = (&'static str, &'static [u8], &'static str);

/// What an order writes over a folder from an input, which both fail while a command is in the folder.
fn said_outside(
    alloc: Global,
    folder: &mut WatchedFolder<'_>,
    is_entered: &Cell<bool>,
    order: &Order,
    left: &[u8],
) -> Said {
    let mut input = WatchedInput { left, is_entered };
    let mut output = WatchedOutput {
        text: Vec::new(alloc),
        is_entered,
    };
    let done = match order {
        Order::Race { messages: _ }
        | Order::WriteBy { .. }
        | Order::Log { .. }
        | Order::Follow { .. }
        | Order::Trim { .. }
        | Order::Names { .. }
        | Order::New { .. }
        | Order::Repair { .. }
        | Order::Explain { .. } => {
            return Ok(String::from_str(alloc, "not run here")?);
        }
        Order::TakeBy {
            folder: _,
            name,
            settings,
        } => take_by(alloc, folder, name.as_str(), settings, &mut output).map(|_| ()),
        _ => run(alloc, order, folder, &mut input, &mut output),
    };
    // As the program lets its folder go.
    folder.end();
    said(alloc, done, output.text.as_slice())
}

/// What the order that the arguments of a line are writes over a folder.
fn line_said(
    alloc: Global,
    folder: &mut WatchedFolder<'_>,
    is_entered: &Cell<bool>,
    line: &str,
    left: &[u8],
) -> Result<String, Fail> {
    let order = order_of(alloc, line)?;
    Ok(said_outside(alloc, folder, is_entered, &order, left)?)
}

/// After these steps, each command in turn writes what the table wants.
fn expect_outside(alloc: Global, before: &[Step], table: &[Row]) -> Result<(), Fail> {
    let is_entered = Cell::new(false);
    let mut folder = WatchedFolder::new(alloc, &is_entered);
    said_by(alloc, &mut folder, before)?;
    folder.end();
    let mut missed = String::new(alloc);
    for (place, &(words, input, want)) in table.iter().enumerate() {
        let said = line_said(alloc, &mut folder, &is_entered, words, input)?;
        push_missed(alloc, &mut missed, place, said.as_str(), want)?;
    }
    expect_text(missed, "")
}

/// Each command that uses a folder.
static COMMANDS: [Row; 19] = [
    ("cq|init|D|daily|0|64|8|1|4|reader", b"", ""),
    ("cq|write|D|0", b"", ""),
    (
        "cq|write|D|0",
        b"a\nb\n",
        "0000000000000000\n0000000000000001\n",
    ),
    ("cq|write|D|86400000", b"c\n", "0000000100000000\n"),
    (
        "cq|read|D",
        b"",
        "0000000000000000 a\n0000000000000001 b\n0000000100000000 c\n",
    ),
    ("cq|take|D|reader", b"", "0000000000000000 a\n"),
    (
        "cq|take|D|reader|--peek|--limit|2",
        b"",
        "0000000000000001 b\n0000000100000000 c\n",
    ),
    ("cq|take|D|reader|--limit|1", b"", "0000000000000001 b\n"),
    ("cq|drop|D|1", b"", "1\n"),
    ("cq|take|D|reader", b"", "0000000100000000 c\n"),
    ("cq|take|D|reader", b"", "not yet\n"),
    ("cq|take|D|reader|--limit|1", b"", ""),
    ("cq|take|D|reader|--peek", b"", ""),
    (
        "cq|check|D",
        b"",
        "19700101.cqi: 2 messages, ended\n19700102.cqi: 1 messages, open\n",
    ),
    (
        "cq|stat|D",
        b"",
        "version 2\nroll daily\nepoch 0\ncells 64\ncount 8\nspacing 1\ncycles 4\n\
cycle 19700101 0 2 2 33 31 dropped\ncycle 19700102 1 1 1 31 33 open\n\
first 0000000100000000\nfloor 1\nend 0000000100000001\nmore_cycles 2\nname reader 0000000100000001 0\n",
    ),
    (
        "cq|dump|D|19700102.cqi",
        b"",
        "00000000 40000024 store 2 1 8 1 64 0 86400000\n00000028 40000020 top 76 0 0 0 0 0 0 0\n\
0000004c 40000020 table 0 112 0 0 0 0 0 0 0\n00000070 00000001 data 0 63\n",
    ),
    ("cq|salvage|D|19700102.cqi", b"", "0 c\nwhole\n"),
    ("cq|migrate|D", b"", ""),
    ("cq|init|D|daily|0|64|8|1|4", b"", "cq: queue there already"),
];

#[test]
fn no_command_is_inside_while_it_waits(rt: HostRuntime) -> Result<(), Fail> {
    expect_outside(rt.alloc(), &[], &COMMANDS)
}

/// A folder of version 1 with an image at fault.
static OLD: [Step; 2] = [Step::OldQueue(4), Step::Put("19700101.cqi", b"x")];

/// Commands that write, or refuse what they read, over that folder.
static FAULTY: [Row; 6] = [
    (
        "cq|check|D",
        b"",
        "19700101.cqi: Cut at 0\ncq: images at fault",
    ),
    ("cq|stat|D", b"", "cq: 19700101.cqi: Cut at 0"),
    ("cq|dump|D|19700101.cqi", b"", "cq: 19700101.cqi: Cut at 0"),
    ("cq|salvage|D|19700101.cqi", b"", "Cut at 0\n"),
    ("cq|write|D|0", b"a\n", "cq: OldVersion"),
    ("cq|migrate|D", b"", "cq: 19700101.cqi: Cut at 0"),
];

#[test]
fn no_command_is_inside_while_it_reports_faults(rt: HostRuntime) -> Result<(), Fail> {
    expect_outside(rt.alloc(), &OLD, &FAULTY)
}
