//! What the commands do and print.
use crate::steps::Step::{
    self, Back, BackFrom, Bar, Check, Config, Dump, Length, Limited, OldQueue, Queue, Read,
    ReadFrom, Take, Write,
};
use crate::steps::{AFTER_HELLO, AT_START, WRITES_HELLO_WORLD, expect, push_said, said_by};
use crate::streams::{Said, said};
use crate::word_tests::words_of;
use cq_command_line::parse;
use cq_fixtures::{DAY, expect_answer};
use cq_folder::{Folder, MemoryFolder};
use cq_running::{Order, run, take_by};
use std::alloc::Global;
use std::test::Fail;

static KEPT: [(Step, &str); 11] = [
    (Queue(4), ""),
    (Config, AT_START),
    (Read, ""),
    (Check, ""),
    WRITES_HELLO_WORLD,
    (Length("20241004.cqi"), "136"),
    (Read, "00004e2000000000 hello\n00004e2000000001 world\n"),
    (Check, "20241004.cqi: 2 messages, open\n"),
    (
        Dump("20241004.cqi"),
        "00000000 40000024 store 2 20000 8 1 64 0 86400000\n00000028 40000020 top 76 0 0 0 0 0 0 0\n\
0000004c 40000020 table 0 112 124 0 0 0 0 0 0\n00000070 00000005 data 0 68656c6c6f\n\
0000007c 00000005 data 1 776f726c64\n",
    ),
    (Take("reader"), "00004e2000000000 hello\n"),
    (Config, AFTER_HELLO),
];

static ROLLED: [(Step, &str); 8] = [
    (Queue(2), ""),
    (Write(0, b"a\n"), "0000000000000000\n"),
    (
        Write(5 * DAY, b"b\nc"),
        "0000000500000000\n0000000500000001\n",
    ),
    (Write(9 * DAY, b"d\n"), "cq: line 1: NoCycleLeft"),
    (Write(9 * DAY, b"\nd\n"), "cq: line 1: BadRoom"),
    (Write(9 * DAY, b""), ""),
    // A moment before the last cycle appends there.
    (Write(3 * DAY, b"d\n"), "0000000500000002\n"),
    (
        Check,
        "19700101.cqi: 1 messages, ended\n19700106.cqi: 3 messages, open\n",
    ),
];

/// With "a" in cycle 0, and "b", "c" and "d" in cycle 5.
static READ: [(Step, &str); 18] = [
    (Queue(2), ""),
    (Write(0, b"a\n"), "0000000000000000\n"),
    (
        Write(5 * DAY, b"b\nc\nd\n"),
        "0000000500000000\n0000000500000001\n0000000500000002\n",
    ),
    (
        Read,
        "0000000000000000 a\n0000000500000000 b\n0000000500000001 c\n0000000500000002 d\n",
    ),
    (
        ReadFrom("0000000000000001"),
        "0000000500000000 b\n0000000500000001 c\n0000000500000002 d\n",
    ),
    (ReadFrom("0000000500000002"), "0000000500000002 d\n"),
    (ReadFrom("ffffffffffffffff"), ""),
    (
        Back,
        "0000000500000002 d\n0000000500000001 c\n0000000500000000 b\n0000000000000000 a\n",
    ),
    (
        BackFrom("0000000500000001"),
        "0000000500000000 b\n0000000000000000 a\n",
    ),
    (BackFrom("0000000000000000"), ""),
    (
        BackFrom("ffffffffffffffff"),
        "0000000500000002 d\n0000000500000001 c\n0000000500000000 b\n0000000000000000 a\n",
    ),
    (
        Limited(false, None, 2),
        "0000000000000000 a\n0000000500000000 b\n",
    ),
    (
        Limited(false, Some("0000000000000001"), 1),
        "0000000500000000 b\n",
    ),
    (
        Limited(true, None, 3),
        "0000000500000002 d\n0000000500000001 c\n0000000500000000 b\n",
    ),
    (
        Limited(true, Some("0000000500000001"), 1),
        "0000000500000000 b\n",
    ),
    (
        Limited(false, Some("0000000500000001"), u64::MAX),
        "0000000500000001 c\n0000000500000002 d\n",
    ),
    (Limited(true, None, 0), ""),
    (Limited(false, Some("x"), 1), "cq: BadIndex"),
];

static NO_INDEX: [(Step, &str); 9] = [
    (Queue(2), ""),
    (Write(0, b"a\n"), "0000000000000000\n"),
    (ReadFrom(""), "cq: BadIndex"),
    (ReadFrom("0"), "cq: BadIndex"),
    (ReadFrom("000000000000000"), "cq: BadIndex"),
    (ReadFrom("00000000000000000"), "cq: BadIndex"),
    (ReadFrom("000000000000000G"), "cq: BadIndex"),
    (ReadFrom("000000000000000A"), "cq: BadIndex"),
    (ReadFrom("+000000000000000"), "cq: BadIndex"),
];

static BEGUN: [(Step, &str); 5] = [
    (Queue(4), ""),
    (Write(2 * DAY, b""), ""),
    (Check, "19700103.cqi: 0 messages, open\n"),
    (Write(9 * DAY, b""), ""),
    (Check, "19700103.cqi: 0 messages, open\n"),
];

#[test]
fn keeps_what_was_written_and_rolls(rt: HostRuntime) -> Result<(), Fail> {
    expect(rt.alloc(), &KEPT)?;
    expect(rt.alloc(), &ROLLED)?;
    expect(rt.alloc(), &BEGUN)
}

static DUMPED: [(Step, &str); 7] = [
    (Queue(4), ""),
    (Write(0, b"hello\n"), "0000000000000000\n"),
    (Write(DAY, b"a\n"), "0000000100000000\n"),
    (
        Dump("19700101.cqi"),
        "00000000 40000024 store 2 0 8 1 64 0 86400000\n00000028 40000020 top 76 0 0 0 0 0 0 0\n\
0000004c 40000020 table 0 112 0 0 0 0 0 0 0\n00000070 00000005 data 0 68656c6c6f\n0000007c c0000000 end\n",
    ),
    (
        Dump("19700102.cqi"),
        "00000000 40000024 store 2 1 8 1 64 0 86400000\n00000028 40000020 top 76 0 0 0 0 0 0 0\n\
0000004c 40000020 table 0 112 0 0 0 0 0 0 0\n00000070 00000001 data 0 61\n",
    ),
    (Dump("19700103.cqi"), "cq: no such file: 19700103.cqi"),
    (Dump("queue.cqc"), "cq: no such file: queue.cqc"),
];

#[test]
fn reads_and_dumps_what_is_kept(rt: HostRuntime) -> Result<(), Fail> {
    expect(rt.alloc(), &READ)?;
    expect(rt.alloc(), &NO_INDEX)?;
    expect(rt.alloc(), &DUMPED)
}

/// The order that the arguments of a line are.
pub fn order_of(alloc: Global, line: &str) -> Result<Order, Fail> {
    let words = words_of(alloc, line)?;
    match parse(alloc, words.as_slice()) {
        Ok(order) => Ok(order),
        Err(_) => Err(Fail::new("no order")),
    }
}

/// What an order writes over a folder, with the input "hello".
fn ran<F: Folder>(alloc: Global, folder: &mut F, order: &Order) -> Said {
    let mut output = Vec::new(alloc);
    let mut rest: &[u8] = b"hello\n";
    let done = match order {
        Order::Race { messages: _ }
        | Order::WriteBy { .. }
        | Order::Log { .. }
        | Order::Follow { .. }
        | Order::Trim { .. }
        | Order::Names { .. }
        | Order::New { .. }
        | Order::Repair { .. }
        | Order::Explain { .. } => {
            return Ok(String::from_str(alloc, "not run here")?);
        }
        Order::TakeBy {
            folder: _,
            name,
            settings,
        } => take_by(alloc, folder, name.as_str(), settings, &mut output).map(|_| ()),
        _ => run(alloc, order, folder, &mut rest, &mut output),
    };
    said(alloc, done, &output)
}

/// What an order writes over a folder, and what `check` says then.
fn ran_and_checked<F: Folder>(alloc: Global, folder: &mut F, order: &Order) -> Said {
    let mut said = ran(alloc, folder, order)?;
    push_said(alloc, folder, &[Bar, Check], &mut said)?;
    Ok(said)
}

/// What an order writes after these steps, and what `check` says then.
fn ran_after(alloc: Global, before: &[Step], order: &Order) -> Said {
    let mut folder = MemoryFolder::new(alloc);
    said_by(alloc, &mut folder, before)?;
    ran_and_checked(alloc, &mut folder, order)
}

/// The same of the order that the arguments of a line are.
fn line_ran(alloc: Global, before: &[Step], line: &str) -> Result<String, Fail> {
    let order = order_of(alloc, line)?;
    Ok(ran_after(alloc, before, &order)?)
}

/// What is done before, the arguments of a command, and what it and `check` say.
static ORDERS: [(&[Step], &str, &str); 5] = [
    (&[], "cq|echo", "0 hello\n|cq: no queue here"),
    (
        &[],
        "cq|cycle|daily|0|86400000",
        "1 19700102 0000000100000000\n|cq: no queue here",
    ),
    (&[], "cq|init|q|daily|0|64|8|1|4", "|"),
    (
        &[Queue(4)],
        "cq|write|q|86400000",
        "0000000100000000\n|19700102.cqi: 1 messages, open\n",
    ),
    (&[OldQueue(4)], "cq|write|q|86400000", "cq: OldVersion|"),
];

/// A queue with "hello" in cycle 1.
const HELLO: &[Step] = &[Queue(4), Write(DAY, b"hello\n")];

/// The arguments of commands over that queue, in which they change no image, and what they say.
static OVER_HELLO: [(&str, &str); 12] = [
    ("cq|read|q", "0000000100000000 hello\n"),
    ("cq|read|q|--back|--from|0000000100000000", ""),
    ("cq|take|q|reader", "0000000100000000 hello\n"),
    ("cq|take|q|reader|--limit|2", "0000000100000000 hello\n"),
    ("cq|take|q|reader|--peek", "0000000100000000 hello\n"),
    ("cq|drop|q|1", "1\n"),
    ("cq|check|q", "19700102.cqi: 1 messages, open\n"),
    (
        "cq|stat|q",
        "version 2\nroll daily\nepoch 0\ncells 64\ncount 8\nspacing 1\ncycles 4\ncycle 19700102 1 1 5 32 32 open\n\
first 0000000100000000\nfloor 0\nend 0000000100000001\nmore_cycles 3\nname reader 0000000000000000 1\n",
    ),
    (
        "cq|stat|q|--json",
        "{\"version\":2,\"roll\":\"daily\",\"epoch\":0,\"cells\":64,\"count\":8,\"spacing\":1,\"cycles\":4,\
\"begun\":[{\"name\":\"19700102\",\"number\":1,\"messages\":1,\"bytes\":5,\"cells_used\":32,\"cells_left\":32,\
\"state\":\"open\"}],\"first\":\"0000000100000000\",\"floor\":0,\"end\":\"0000000100000001\",\"more_cycles\":3,\
\"names\":[{\"name\":\"reader\",\"position\":\"0000000000000000\",\"messages_left\":1}]}\n",
    ),
    (
        "cq|dump|q|19700102.cqi",
        "00000000 40000024 store 2 1 8 1 64 0 86400000\n00000028 40000020 top 76 0 0 0 0 0 0 0\n\
0000004c 40000020 table 0 112 0 0 0 0 0 0 0\n00000070 00000005 data 0 68656c6c6f\n",
    ),
    ("cq|salvage|q|19700102.cqi", "0 hello\nwhole\n"),
    ("cq|migrate|q", ""),
];

#[test]
fn runs_orders(rt: HostRuntime) -> Result<(), Fail> {
    for (place, &(before, line, want)) in ORDERS.iter().enumerate() {
        let said = line_ran(rt.alloc(), before, line)?;
        expect_answer(line, place, said.as_str(), want)?;
    }
    for (place, &(line, said)) in OVER_HELLO.iter().enumerate() {
        let want = format!(in rt.alloc(); "{said}|19700102.cqi: 1 messages, open\n")?;
        let said = line_ran(rt.alloc(), HELLO, line)?;
        expect_answer(line, place, said.as_str(), want.as_str())?;
    }
    Ok(())
}
