//! Inputs up to a deadline.
use cq_fixtures::expect_answer;
use cq_input::TimedInput;
use std::io::{self, ErrorKind, Read};
use std::test::Fail;
use std::thread;
use std::time::{Clock, Duration};

/// What a reader does after its bytes.
#[derive(Clone, Copy)]
enum Then {
    Ends,
    Fails,
    /// It waits for much longer than the deadline.
    Waits,
    /// It gives the same byte again and again.
    GoesOn,
}

/// A reader that gives one byte a read.
#[derive(Drop)]
struct Bytes<C> {
    clock: C,
    left: &'static [u8],
    then: Then,
}

impl<C: Clock> Read for Bytes<C> {
    fn read(&mut self, buf: &mut [u8]) -> io::Result<usize> {
        let byte = match self.left {
            [byte, rest @ ..] => {
                self.left = rest;
                *byte
            }
            [] => match self.then {
                Then::Ends => return Ok(0),
                Then::Fails => return Err(io::Error::from(ErrorKind::Other)),
                Then::Waits => {
                    thread::sleep(&self.clock, Duration::from_secs(100));
                    return Ok(0);
                }
                Then::GoesOn => b'g',
            },
        };
        match buf.first_mut() {
            Some(first) => {
                *first = byte;
                Ok(1)
            }
            None => Ok(0),
        }
    }
}

/// What a reader does after the bytes `ab`, the time that it has in milliseconds, and what reads give: bytes, and then the end.
static ROWS: [(Then, u64, &str); 4] = [
    (Then::Ends, 100_000, "ab, then the end, over false"),
    (Then::Fails, 100_000, "ab, then Other, over false"),
    (Then::Waits, 200, "ab, then TimedOut, over true"),
    (Then::GoesOn, 200, "ab, then TimedOut, over true"),
];

#[test]
fn inputs_end_at_their_deadline(rt: HostRuntime) -> Result<(), Fail> {
    let alloc = rt.alloc();
    for (number, (then, time, answer)) in ROWS.iter().enumerate() {
        let bytes = Bytes {
            clock: rt,
            left: b"ab",
            then: *then,
        };
        let mut input = TimedInput::new(&rt, bytes, Duration::from_millis(*time))?;
        let mut text = String::new(alloc);
        for _ in 0..u64::MAX {
            let mut buffer = [0u8; 1];
            match input.read(&mut buffer) {
                Ok(0) => {
                    text.push_str(", then the end")?;
                    break;
                }
                Ok(_) => {
                    if buffer[0] != b'g' {
                        text.push(char::from(buffer[0]))?;
                    }
                }
                Err(error) => {
                    text.push_str(", then ")?;
                    text.push_str(name_of(error.kind()))?;
                    break;
                }
            }
        }
        text.push_str(if input.is_over() {
            ", over true"
        } else {
            ", over false"
        })?;
        expect_answer("inputs", number, text.as_str(), answer)?;
    }
    Ok(())
}

fn name_of(kind: ErrorKind) -> &'static str {
    match kind {
        ErrorKind::TimedOut => "TimedOut",
        ErrorKind::Other => "Other",
        _ => "another",
    }
}
