//! A writer that notes that its reader is gone.
ghost use Rattle.std.specs.Prelude.{◌≡◌, false};

use std::io::{self, ErrorKind, Write};

/// A writer that notes that its reader is gone (ours). It is so once a write ends with `BrokenPipe`, which it passes on.
#[derive(Drop)]
pub struct Pipe<W: Write> {
    writer: W,
    is_closed: bool,
}

impl<W: Write> Pipe<W> {
    /// Makes one that writes to this writer. Its reader counts as there.
    pub fn new(writer: W) -> Pipe<W>
        ensures writer { result.writer ≡ writer }
        ensures open { result.is_closed ≡ false }
    {
        Pipe {
            writer,
            is_closed: false,
        }
    }

    /// Returns whether its reader is gone.
    pub fn is_closed(&self) -> bool
        ensures { result ≡ self.now.is_closed }
    {
        self.is_closed
    }

    /// Gives back the writer.
    pub fn into_writer(self) -> W
        ensures { result ≡ self.writer }
    {
        let Pipe {
            writer,
            is_closed: _,
        } = self;
        writer
    }

    /// Notes whether a call ended since the reader is gone.
    fn note<T>(&mut self, done: &io::Result<T>)
        ensures { self.new.writer ≡ self.old.writer }
    {
        if let Err(error) = done
            && error.kind() == ErrorKind::BrokenPipe
        {
            self.is_closed = true;
        }
    }
}

impl<W: Write> Write for Pipe<W> {
    ghost contents = { λ pipe. W.contents pipe.writer };

    fn write(&mut self, buf: &[u8]) -> io::Result<usize> {
        let done = self.writer.write(buf);
        self.note(&done);
        done
    }

    fn flush(&mut self) -> io::Result<()> {
        let done = self.writer.flush();
        self.note(&done);
        done
    }
}
