//! What is said of a command, and streams that fail.
use cq_folder::FolderFault;
use cq_running::ToolFault;
use std::alloc::Global;
use std::io::{ErrorKind, Read, Write};
use std::{io, str};

/// What is said, unless memory or the folder fails.
pub type Said = Result<String, FolderFault>;

/// What a command wrote, and after it the text of its fault.
pub fn said(alloc: Global, done: Result<(), ToolFault>, output: &[u8]) -> Said {
    let text = str::from_utf8(output).unwrap_or("no text");
    match done {
        Ok(()) => Ok(String::from_str(alloc, text)?),
        Err(fault) => Ok(format!(in alloc; "{text}cq: {fault}")?),
    }
}

/// A reader that fails after this many line feeds.
#[derive(Drop)]
pub struct BrokenAfter {
    /// How many are left.
    pub left: usize,
}

impl Read for BrokenAfter {
    fn read(&mut self, buf: &mut [u8]) -> io::Result<usize> {
        if self.left == 0 {
            return Err(io::Error::from(ErrorKind::Other));
        }
        let count = buf.len().min(self.left);
        buf[..count].fill(b'\n');
        self.left -= count;
        Ok(count)
    }
}

/// A writer that takes some bytes and then fails.
#[derive(Drop)]
pub struct Broken {
    /// How many it still takes.
    pub left: usize,
}

impl Write for Broken {
    fn write(&mut self, bytes: &[u8]) -> io::Result<usize> {
        let count = bytes.len().min(self.left);
        if count == 0 {
            return Err(io::Error::from(ErrorKind::Other));
        }
        self.left -= count;
        Ok(count)
    }

    fn flush(&mut self) -> io::Result<()> {
        Ok(())
    }
}
