//! In which forms `read` prints messages, and which of them.
use crate::command_tests::order_of;
use crate::steps::Step::{self, Drop, Init, Queue, Write};
use crate::steps::said_by;
use crate::streams::{Broken, said};
use cq_fixtures::{DAY, expect_text, push_missed};
use cq_folder::{Folder, MemoryFolder};
use cq_running::{Order, ToolFault, run};
use std::alloc::{AllocError, Global};
use std::io::Write as _;
use std::test::Fail;

/// Runs the order of a `read`, and writes to this output.
fn read_by<F: Folder, W: std::io::Write>(
    alloc: Global,
    folder: &mut F,
    order: &Order,
    output: &mut W,
) -> Result<(), ToolFault> {
    let mut input: &[u8] = b"";
    match order {
        Order::Read { .. } => run(alloc, order, folder, &mut input, output),
        _ => Ok(()),
    }
}

/// Bytes as text in which each byte but a line feed and those from a space to `~` is `%` and two hexadecimal digits.
fn shown(alloc: Global, bytes: &[u8]) -> Result<String, AllocError> {
    let mut text = String::new(alloc);
    for byte in bytes {
        if matches!(*byte, b'\n' | b' '..=b'~') {
            write!(text, "{}", char::from(*byte))?;
        } else {
            write!(text, "%{byte:02x}")?;
        }
    }
    Ok(text)
}

/// What a `read` with these arguments says over a folder.
fn read_said<F: Folder>(alloc: Global, folder: &mut F, line: &str) -> Result<String, Fail> {
    let order = order_of(alloc, line)?;
    let mut output = Vec::new(alloc);
    let done = read_by(alloc, folder, &order, &mut output);
    let text = shown(alloc, output.as_slice())?;
    Ok(said(alloc, done, text.as_bytes())?)
}

/// After these steps, a `read` with the arguments of each row says what the row wants.
fn expect_reads(alloc: Global, before: &[Step], rows: &[(&str, &str)]) -> Result<(), Fail> {
    let mut folder = MemoryFolder::new(alloc);
    said_by(alloc, &mut folder, before)?;
    let mut missed = String::new(alloc);
    for (place, &(line, want)) in rows.iter().enumerate() {
        let said = read_said(alloc, &mut folder, line)?;
        push_missed(alloc, &mut missed, place, said.as_str(), want)?;
    }
    expect_text(missed, "")
}

/// A quote, a backslash, each of the short escapes, other control characters, and characters of two to four bytes.
static TEXTS: [Step; 2] = [
    Queue(4),
    Write(
        DAY,
        b"a\"b\\c\n\x08\x09\x0c\x0d\x00\x1f\x7f\n\xc3\xa9\xe2\x82\xac\xf0\x9f\x98\x80\n",
    ),
];

static TEXT_FORMS: [(&str, &str); 5] = [
    (
        "cq|read|D",
        "0000000100000000 a\"b\\c\n0000000100000001 %08%09%0c%0d%00%1f%7f\n\
0000000100000002 %c3%a9%e2%82%ac%f0%9f%98%80\n",
    ),
    (
        "cq|read|D|--text",
        "a\"b\\c\n%08%09%0c%0d%00%1f%7f\n%c3%a9%e2%82%ac%f0%9f%98%80\n",
    ),
    (
        "cq|read|D|--null",
        "a\"b\\c%00%08%09%0c%0d%00%1f%7f%00%c3%a9%e2%82%ac%f0%9f%98%80%00",
    ),
    (
        "cq|read|D|--hex",
        "0000000100000000 6122625c63\n0000000100000001 08090c0d001f7f\n0000000100000002 c3a9e282acf09f9880\n",
    ),
    (
        "cq|read|D|--json",
        "{\"index\":\"0000000100000000\",\"cycle\":\"19700102\",\"sequence\":0,\"text\":\"a\\\"b\\\\c\"}\n\
{\"index\":\"0000000100000001\",\"cycle\":\"19700102\",\"sequence\":1,\"text\":\"\\b\\t\\f\\r\\u0000\\u001f%7f\"}\n\
{\"index\":\"0000000100000002\",\"cycle\":\"19700102\",\"sequence\":2,\"text\":\"%c3%a9%e2%82%ac%f0%9f%98%80\"}\n",
    ),
];

#[test]
fn each_form_prints_texts(rt: HostRuntime) -> Result<(), Fail> {
    expect_reads(rt.alloc(), &TEXTS, &TEXT_FORMS)
}

/// Messages that are not UTF-8, of one to three bytes, in a cycle of an hour: a byte that no character begins with, a cut
/// character, and a surrogate.
static OTHERS: [Step; 2] = [
    Init("hourly", 0, 64, 4, &[]),
    Write(DAY + 3_600_000, b"\xff\nA\xc3\n\xed\xa0\x80\n"),
];

static OTHER_FORMS: [(&str, &str); 4] = [
    ("cq|read|D|--text", "%ff\nA%c3\n%ed%a0%80\n"),
    ("cq|read|D|--null", "%ff%00A%c3%00%ed%a0%80%00"),
    (
        "cq|read|D|--hex",
        "0000001900000000 ff\n0000001900000001 41c3\n0000001900000002 eda080\n",
    ),
    (
        "cq|read|D|--json",
        "{\"index\":\"0000001900000000\",\"cycle\":\"19700102-01\",\"sequence\":0,\"base64\":\"/w==\"}\n\
{\"index\":\"0000001900000001\",\"cycle\":\"19700102-01\",\"sequence\":1,\"base64\":\"QcM=\"}\n\
{\"index\":\"0000001900000002\",\"cycle\":\"19700102-01\",\"sequence\":2,\"base64\":\"7aCA\"}\n",
    ),
];

#[test]
fn each_form_prints_other_bytes(rt: HostRuntime) -> Result<(), Fail> {
    expect_reads(rt.alloc(), &OTHERS, &OTHER_FORMS)
}

/// With "a" and "b" in cycle 0, "c" in cycle 2, and "d", "e" and "f" in cycle 5.
static ROLLS: [Step; 4] = [
    Queue(4),
    Write(0, b"a\nb\n"),
    Write(2 * DAY, b"c\n"),
    Write(5 * DAY, b"d\ne\nf\n"),
];

static RANGES: [(&str, &str); 33] = [
    ("cq|read|D|--text", "a\nb\nc\nd\ne\nf\n"),
    // The last ones, over one roll and more, of all and of too many.
    ("cq|read|D|--text|--last|1", "f\n"),
    ("cq|read|D|--text|--last|3", "d\ne\nf\n"),
    ("cq|read|D|--text|--last|5", "b\nc\nd\ne\nf\n"),
    ("cq|read|D|--text|--last|6", "a\nb\nc\nd\ne\nf\n"),
    ("cq|read|D|--text|--last|4294967295", "a\nb\nc\nd\ne\nf\n"),
    (
        "cq|read|D|--last|2",
        "0000000500000001 e\n0000000500000002 f\n",
    ),
    (
        "cq|read|D|--json|--last|1",
        "{\"index\":\"0000000500000002\",\"cycle\":\"19700106\",\"sequence\":2,\"text\":\"f\"}\n",
    ),
    // From an index, a moment or a cycle on.
    (
        "cq|read|D|--text|--since|0000000000000001",
        "b\nc\nd\ne\nf\n",
    ),
    ("cq|read|D|--text|--since|0000000100000000", "c\nd\ne\nf\n"),
    ("cq|read|D|--text|--since|19700103", "c\nd\ne\nf\n"),
    ("cq|read|D|--text|--since|19700104", "d\ne\nf\n"),
    ("cq|read|D|--text|--since|@518399999", "d\ne\nf\n"),
    ("cq|read|D|--text|--since|@518400000", ""),
    ("cq|read|D|--text|--since|0000000500000003", ""),
    ("cq|read|D|--text|--since|ffffffffffffffff", ""),
    // Up to one.
    ("cq|read|D|--text|--until|0000000500000001", "a\nb\nc\nd\n"),
    (
        "cq|read|D|--text|--until|0000000500000002",
        "a\nb\nc\nd\ne\n",
    ),
    ("cq|read|D|--text|--until|19700103", "a\nb\n"),
    ("cq|read|D|--text|--until|19700101", ""),
    (
        "cq|read|D|--text|--until|ffffffffffffffff",
        "a\nb\nc\nd\ne\nf\n",
    ),
    // Both, with the other options.
    ("cq|read|D|--text|--since|19700103|--until|19700106", "c\n"),
    ("cq|read|D|--text|--since|19700106|--until|19700103", ""),
    (
        "cq|read|D|--text|--since|19700101|--until|0000000500000002|--back",
        "e\nd\nc\nb\na\n",
    ),
    (
        "cq|read|D|--text|--since|0000000000000001|--back|--limit|9",
        "f\ne\nd\nc\nb\n",
    ),
    (
        "cq|read|D|--text|--until|0000000500000001|--limit|2",
        "a\nb\n",
    ),
    (
        "cq|read|D|--text|--until|0000000500000001|--from|0000000000000001",
        "b\nc\nd\n",
    ),
    (
        "cq|read|D|--text|--back|--until|0000000500000001|--from|0000000500000002",
        "d\nc\nb\na\n",
    ),
    (
        "cq|read|D|--text|--back|--until|0000000500000002|--from|0000000500000001",
        "d\nc\nb\na\n",
    ),
    (
        "cq|read|D|--text|--since|0000000000000001|--until|0000000500000002|--last|3",
        "c\nd\ne\n",
    ),
    (
        "cq|read|D|--text|--since|0000000500000001|--last|3",
        "e\nf\n",
    ),
    ("cq|read|D|--since|soon", "cq: BadIndex"),
    ("cq|read|D|--until|@18446744073709551615", "cq: BadMoment"),
];

#[test]
fn reads_ranges_over_rolls(rt: HostRuntime) -> Result<(), Fail> {
    expect_reads(rt.alloc(), &ROLLS, &RANGES)
}

/// The same queue, of which cycle 0 was dropped.
static DROPPED: [Step; 5] = [
    Queue(4),
    Write(0, b"a\nb\n"),
    Write(2 * DAY, b"c\n"),
    Write(5 * DAY, b"d\ne\nf\n"),
    Drop(1),
];

static KEPT: [(&str, &str); 4] = [
    ("cq|read|D|--text|--last|5", "c\nd\ne\nf\n"),
    ("cq|read|D|--text|--since|19700101", "c\nd\ne\nf\n"),
    ("cq|read|D|--text|--until|19700106", "c\n"),
    ("cq|read|D|--text|--until|19700103", ""),
];

#[test]
fn ranges_skip_dropped_cycles(rt: HostRuntime) -> Result<(), Fail> {
    expect_reads(rt.alloc(), &DROPPED, &KEPT)
}

/// A queue of which no cycle has begun.
static NONE: [Step; 1] = [Queue(4)];

static NOTHING: [(&str, &str); 8] = [
    ("cq|read|D|--text", ""),
    ("cq|read|D|--null", ""),
    ("cq|read|D|--hex", ""),
    ("cq|read|D|--json", ""),
    ("cq|read|D|--last|3", ""),
    ("cq|read|D|--since|19700101|--until|19700102", ""),
    ("cq|read|D|--from|x|--until|x", "cq: BadIndex"),
    ("cq|read|D|--since|@x", "cq: BadIndex"),
];

#[test]
fn reads_nothing_of_an_empty_queue(rt: HostRuntime) -> Result<(), Fail> {
    expect_reads(rt.alloc(), &NONE, &NOTHING)
}

/// What a `read` says whose writer takes some bytes and then fails.
fn cut_said<F: Folder>(alloc: Global, folder: &mut F, line: &str) -> Result<String, Fail> {
    let order = order_of(alloc, line)?;
    let done = read_by(alloc, folder, &order, &mut Broken { left: 3 });
    Ok(said(alloc, done, &[])?)
}

/// Each form and range, with a writer that fails.
static CUT: [&str; 6] = [
    "cq|read|D|--text",
    "cq|read|D|--null",
    "cq|read|D|--hex",
    "cq|read|D|--json",
    "cq|read|D|--last|2",
    "cq|read|D|--since|19700103",
];

#[test]
fn says_that_the_writer_failed(rt: HostRuntime) -> Result<(), Fail> {
    let alloc = rt.alloc();
    let mut folder = MemoryFolder::new(alloc);
    said_by(alloc, &mut folder, &ROLLS)?;
    let mut missed = String::new(alloc);
    for (place, line) in CUT.iter().enumerate() {
        let said = cut_said(alloc, &mut folder, line)?;
        push_missed(alloc, &mut missed, place, said.as_str(), "cq: write fault")?;
    }
    expect_text(missed, "")
}
