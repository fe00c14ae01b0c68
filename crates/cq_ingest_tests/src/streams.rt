//! Readers, writers and clocks that say what a test wants.
use std::alloc::Global;
use std::cell::Cell;
use std::io::{self, ErrorKind, Read, Write};
use std::time::{Clock, Duration};

/// A reader of which each read gives one of these pieces. Then it is at its end, or fails.
#[derive(Drop)]
pub(crate) struct Pieces {
    /// The pieces that are left, each no longer than a read may be.
    left: &'static [&'static str],
    /// Whether it fails after the last piece.
    is_broken: bool,
}

impl Pieces {
    pub(crate) fn new(pieces: &'static [&'static str], is_broken: bool) -> Pieces {
        Pieces {
            left: pieces,
            is_broken,
        }
    }
}

impl Read for Pieces {
    fn read(&mut self, buf: &mut [u8]) -> io::Result<usize> {
        let [first, rest @ ..] = self.left else {
            if self.is_broken {
                return Err(io::Error::from(ErrorKind::Other));
            }
            return Ok(0);
        };
        let bytes = first.as_bytes();
        let count = bytes.len().min(buf.len());
        buf[..count].copy_from_slice(&bytes[..count]);
        self.left = rest;
        Ok(count)
    }
}

/// A writer that keeps this many bytes, and then fails.
#[derive(Drop)]
pub(crate) struct Room {
    pub taken: Vec<u8>,
    room: usize,
}

impl Room {
    pub(crate) fn new(alloc: Global, room: usize) -> Room {
        Room {
            taken: Vec::new(alloc),
            room,
        }
    }
}

impl Write for Room {
    fn write(&mut self, buf: &[u8]) -> io::Result<usize> {
        let count = buf.len().min(self.room);
        if count == 0 {
            return Err(io::Error::from(ErrorKind::Other));
        }
        self.taken.extend_from_slice(&buf[..count])?;
        self.room -= count;
        Ok(count)
    }

    fn flush(&mut self) -> io::Result<()> {
        Ok(())
    }
}

/// A clock whose time is 0 at first, and one day later at each look. At the look with this number it fails; with number 0 at none.
#[derive(Drop)]
pub(crate) struct Days {
    looks: Cell<u32>,
    failing: u32,
}

impl Days {
    pub(crate) fn new(failing: u32) -> Days {
        Days {
            looks: Cell::new(0),
            failing,
        }
    }
}

impl Clock for Days {
    fn monotonic(&self) -> io::Result<Duration> {
        Err(io::Error::from(ErrorKind::Other))
    }

    fn since_1970(&self) -> io::Result<Duration> {
        let looks = self.looks.get();
        self.looks.set(looks.saturating_add(1));
        if looks.saturating_add(1) == self.failing {
            return Err(io::Error::from(ErrorKind::Other));
        }
        Ok(Duration::from_secs(u64::from(looks) * 86_400))
    }
}
