//! What `echo` and `cycle` print, which need no folder, and the texts of faults.
use crate::streams::said;
use cq_fixtures::expect_text;
use cq_model::Refusal;
use cq_running::{ToolFault, cycle, echo};
use std::alloc::{AllocError, Global};
use std::io;
use std::io::{ErrorKind, Read, Write};
use std::test::Fail;

/// Fails if bytes are not those that are wanted, and gives both.
fn expect_bytes(said: Vec<u8>, want: &[u8]) -> Result<(), Fail> {
    if said.as_slice() == want {
        return Ok(());
    }
    let said = said.as_slice();
    Err(Fail::new(format_args!("{said:?} in place of {want:?}")))
}

/// How many lines `echo` gives or the text of its fault.
fn done_text(alloc: Global, done: Result<u64, ToolFault>) -> Result<String, AllocError> {
    match done {
        Ok(count) => format!(in alloc; "{count} lines"),
        Err(fault) => format!(in alloc; "{fault}"),
    }
}

/// Adds how many lines `echo` gives or the text of its fault to what it wrote.
fn told(
    alloc: Global,
    mut output: Vec<u8>,
    done: Result<u64, ToolFault>,
) -> Result<Vec<u8>, AllocError> {
    output.extend_from_slice(done_text(alloc, done)?.as_bytes())?;
    Ok(output)
}

/// What `echo` writes, and after it how many lines it counts or the text of its fault.
fn echoed<R: Read>(alloc: Global, input: &mut R) -> Result<Vec<u8>, AllocError> {
    let mut output = Vec::new(alloc);
    let done = echo(alloc, input, &mut output);
    told(alloc, output, done)
}

static ECHOED: [(&[u8], &[u8]); 8] = [
    (b"hello\nworld\n", b"0 hello\n1 world\n2 lines"),
    (b"", b"0 lines"),
    (b"a", b"0 a\n1 lines"),
    (b"a\r\n\x00\xff\n", b"0 a\r\n1 \x00\xff\n2 lines"),
    (b"a\n\n", b"line 2: BadRoom"),
    (b"\n", b"line 1: BadRoom"),
    (b"a\n\nb", b"line 2: BadRoom"),
    (b"a b c d e\n", b"0 a b c d e\n1 lines"),
];

#[test]
fn echoes_lines(rt: HostRuntime) -> Result<(), Fail> {
    for &(input, want) in &ECHOED {
        let mut rest = input;
        expect_bytes(echoed(rt.alloc(), &mut rest)?, want)?;
    }
    Ok(())
}

/// This many lines of this many bytes, and more.
fn lines_of(alloc: Global, lines: usize, bytes: usize, more: &str) -> Result<String, AllocError> {
    let line = format!(in alloc; "{}\n", "x".repeat(alloc, bytes)?)?;
    format!(in alloc; "{}{more}", line.as_str().repeat(alloc, lines)?)
}

/// How many lines `echo` gives of an input or the text of its fault, and whether it wrote any.
fn counted(alloc: Global, input: &[u8]) -> Result<String, AllocError> {
    let mut output = Vec::new(alloc);
    let mut rest = input;
    let done = echo(alloc, &mut rest, &mut output);
    let text = done_text(alloc, done)?;
    format!(in alloc; "{text}, silent: {}", output.is_empty())
}

/// The same of this many lines of this many bytes, and more.
fn counted_lines(
    alloc: Global,
    lines: usize,
    bytes: usize,
    more: &str,
) -> Result<String, AllocError> {
    let input = lines_of(alloc, lines, bytes, more)?;
    counted(alloc, input.as_bytes())
}

static BOUNDS: [(usize, usize, &str, &str); 11] = [
    (1, 128, "", "1 lines, silent: false"),
    (1, 129, "", "line 1: too long, silent: true"),
    (2, 129, "", "line 1: too long, silent: true"),
    (1, 128, "\n", "line 2: BadRoom, silent: true"),
    (1000, 1, "", "1000 lines, silent: false"),
    (1000, 1, "a", "line 1001: too many, silent: true"),
    (1000, 1, "\n", "line 1001: too many, silent: true"),
    (1002, 1, "", "line 1001: too many, silent: true"),
    // 129,000 bytes, and one more.
    (1000, 128, "", "1000 lines, silent: false"),
    (1000, 128, "a", "input too long, silent: true"),
    (1, 129_000, "", "input too long, silent: true"),
];

#[test]
fn bounds_the_input(rt: HostRuntime) -> Result<(), Fail> {
    for &(lines, bytes, more, want) in &BOUNDS {
        expect_text(counted_lines(rt.alloc(), lines, bytes, more)?, want)?;
    }
    Ok(())
}

/// A reader that gives this many single bytes, and then only this result.
#[derive(Drop)]
struct Reader {
    bytes: u32,
    then: Result<usize, ErrorKind>,
}

impl Read for Reader {
    fn read(&mut self, buf: &mut [u8]) -> io::Result<usize> {
        if buf.is_empty() {
            return Ok(0);
        }
        buf[0] = b'a';
        if self.bytes > 0 {
            self.bytes -= 1;
            return Ok(1);
        }
        match self.then {
            Ok(0) => Ok(0),
            Ok(_) => Ok(1),
            Err(kind) => Err(io::Error::from(kind)),
        }
    }
}

static ENDS: [(u32, Result<usize, ErrorKind>, &[u8]); 7] = [
    (3, Ok(0), b"0 aaa\n1 lines"),
    (3, Err(ErrorKind::Other), b"read fault"),
    (0, Err(ErrorKind::IsADirectory), b"read fault"),
    // The whole input is read before its length is checked.
    (129_001, Ok(0), b"input too long"),
    (129_001, Err(ErrorKind::Other), b"read fault"),
    // A reader that never ends.
    (0, Ok(1), b"read fault"),
    (3, Err(ErrorKind::Interrupted), b"read fault"),
];

#[test]
fn reads_to_the_end(rt: HostRuntime) -> Result<(), Fail> {
    for &(bytes, then, want) in &ENDS {
        let mut input = Reader { bytes, then };
        expect_bytes(echoed(rt.alloc(), &mut input)?, want)?;
    }
    Ok(())
}

/// A writer that takes one byte at a time, this many of them, and refuses the flush if it has to.
#[derive(Drop)]
struct Writer {
    room: usize,
    refuses_flush: bool,
    taken: Vec<u8>,
}

impl Write for Writer {
    fn write(&mut self, buf: &[u8]) -> io::Result<usize> {
        let [first, ..] = buf else {
            return Ok(0);
        };
        if self.room == 0 {
            return Err(io::Error::from(ErrorKind::Other));
        }
        self.taken.push(*first)?;
        self.room -= 1;
        Ok(1)
    }

    fn flush(&mut self) -> io::Result<()> {
        if self.refuses_flush {
            return Err(io::Error::from(ErrorKind::Other));
        }
        Ok(())
    }
}

/// What a writer for this many bytes takes of "a" and "b", and after it how many lines `echo` counts or the text of
/// its fault.
fn echoed_into(alloc: Global, room: usize, refuses_flush: bool) -> Result<Vec<u8>, AllocError> {
    let mut output = Writer {
        room,
        refuses_flush,
        taken: Vec::new(alloc),
    };
    let mut input: &[u8] = b"a\nb\n";
    let done = echo(alloc, &mut input, &mut output);
    told(alloc, output.taken, done)
}

static ROOMS: [(usize, bool, &[u8]); 4] = [
    (8, false, b"0 a\n1 b\n2 lines"),
    (7, false, b"0 a\n1 bwrite fault"),
    (0, false, b"write fault"),
    (8, true, b"0 a\n1 b\nwrite fault"),
];

#[test]
fn passes_write_faults_on(rt: HostRuntime) -> Result<(), Fail> {
    for &(room, refuses_flush, want) in &ROOMS {
        expect_bytes(echoed_into(rt.alloc(), room, refuses_flush)?, want)?;
    }
    Ok(())
}

/// The texts of these faults, each after a bar.
fn texts_of(alloc: Global, faults: &[ToolFault]) -> Result<String, Fail> {
    let mut text = String::new(alloc);
    for fault in faults {
        write!(text, "|{fault}")?;
    }
    Ok(text)
}

#[test]
fn prints_faults(rt: HostRuntime) -> Result<(), Fail> {
    let faults = [
        ToolFault::OutOfMemory,
        ToolFault::ReadFault,
        ToolFault::InputTooLong,
        ToolFault::TooMany(1001),
        ToolFault::Refused(2, Refusal::BadRoom),
        ToolFault::TooLong(3),
        ToolFault::BadConfig,
        ToolFault::BadMoment,
        ToolFault::WriteFault,
    ];
    expect_text(
        texts_of(rt.alloc(), &faults)?,
        "|want of memory|read fault|input too long|line 1001: too many|line 2: BadRoom|line 3: too long|BadConfig\
|BadMoment|write fault",
    )
}

/// What `cycle` says.
fn cycle_said(alloc: Global, roll: &str, epoch: u64, moment: u64) -> Result<String, Fail> {
    let mut output = Vec::new(alloc);
    let done = cycle(alloc, roll, epoch, moment, &mut output);
    Ok(said(alloc, done, &output)?)
}

static CYCLES: [(&str, u64, u64, &str); 10] = [
    (
        "daily",
        0,
        1_728_000_000_000,
        "20000 20241004 00004e2000000000\n",
    ),
    (
        "hourly",
        0,
        1_728_000_000_000,
        "480000 20241004-00 0007530000000000\n",
    ),
    (
        "minutely",
        3_600_000,
        3_600_000,
        "0 19700101-0100 0000000000000000\n",
    ),
    ("weekly", 0, 0, "cq: BadConfig"),
    ("", 0, 0, "cq: BadConfig"),
    ("Daily", 0, 0, "cq: BadConfig"),
    // The roll is checked before the moment.
    ("weekly", 1, 0, "cq: BadConfig"),
    ("daily", 1, 0, "cq: BadMoment"),
    ("daily", 0, 253_402_300_800_000, "cq: BadMoment"),
    ("daily", u64::MAX, u64::MAX, "cq: BadMoment"),
];

#[test]
fn prints_cycles(rt: HostRuntime) -> Result<(), Fail> {
    for &(roll, epoch, moment, want) in &CYCLES {
        expect_text(cycle_said(rt.alloc(), roll, epoch, moment)?, want)?;
    }
    Ok(())
}

/// What `cycle` says if the output takes this many bytes.
fn cycle_said_into(alloc: Global, room: usize) -> Result<String, Fail> {
    let mut output = Writer {
        room,
        refuses_flush: false,
        taken: Vec::new(alloc),
    };
    let done = cycle(alloc, "daily", 0, 0, &mut output);
    Ok(said(alloc, done, &output.taken)?)
}

#[test]
fn a_cycle_is_printed_whole_or_at_fault(rt: HostRuntime) -> Result<(), Fail> {
    expect_text(cycle_said_into(rt.alloc(), 7)?, "0 19700cq: write fault")
}
