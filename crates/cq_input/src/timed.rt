//! An input up to a deadline.
use crossbeam_channel::{Receiver, RecvTimeoutError, Sender, bounded};
use std::alloc::Global;
use std::io::{self, ErrorKind, Read};
use std::sync::Wait;
use std::thread::{self, Threads};
use std::time::{Clock, Duration, Instant};

/// The most bytes of one read.
const READ_BYTES: usize = 65_536;

/// The bytes of one read, or why it failed.
type Chunk = Result<Vec<u8>, ErrorKind>;

/// An input that another thread reads, up to a deadline (ours). From then on each read that needs a new chunk fails with `TimedOut`, also
/// in the middle of a line.
///
/// The thread reads ahead, at most three chunks of 65,536 bytes, which are lost at the deadline. It ends with the input, or at its next read once this value is dropped:
/// a read that waits for ever keeps the thread until the process ends.
#[derive(Drop)]
pub struct TimedInput<'a, R> {
    rt: &'a R,
    chunks: Receiver<Chunk>,
    chunk: Vec<u8>,
    /// The bytes of the chunk that were taken.
    taken: usize,
    deadline: Instant,
    is_over: bool,
}

impl<'a, R: AllocGlobal + Wait + Clock> TimedInput<'a, R> {
    /// Starts a thread that reads the input, which ends after this time.
    ///
    /// Errors: `OutOfMemory`: out of memory. Others: the clock could not be read, or no thread was started.
    pub fn new<I>(rt: &'a R, input: I, time: Duration) -> io::Result<TimedInput<'a, R>>
    where
        R: Threads + Clone + Send + Drop + 'static,
        I: Read + Send + Drop + 'static,
    {
        let now = Instant::now(rt)?;
        let Some(deadline) = now.checked_add(time) else {
            return Err(io::Error::from(ErrorKind::InvalidInput));
        };
        let (to, chunks) = bounded(rt.alloc(), 1)?;
        let own = rt.clone()?;
        let _reader = thread::spawn(rt, move || send_chunks(&own, input, to))?;
        Ok(TimedInput {
            rt,
            chunks,
            chunk: Vec::new(rt.alloc()),
            taken: 0,
            deadline,
            is_over: false,
        })
    }

    /// Returns whether a read came after the deadline.
    pub fn is_over(&self) -> bool {
        self.is_over
    }

    /// Returns the next chunk, which is empty at the end of the input.
    fn next_chunk(&mut self) -> io::Result<Vec<u8>> {
        if Instant::now(self.rt)? >= self.deadline {
            return self.over();
        }
        match self.chunks.recv_deadline(self.rt, self.deadline) {
            Ok(Ok(chunk)) => Ok(chunk),
            Ok(Err(kind)) => Err(io::Error::from(kind)),
            Err(RecvTimeoutError::Disconnected) => Ok(Vec::new(self.rt.alloc())),
            Err(RecvTimeoutError::Timeout) => self.over(),
        }
    }

    /// Fails, since the deadline has passed.
    fn over(&mut self) -> io::Result<Vec<u8>> {
        self.is_over = true;
        Err(io::Error::from(ErrorKind::TimedOut))
    }
}

impl<'a, R: AllocGlobal + Wait + Clock> Read for TimedInput<'a, R> {
    fn read(&mut self, buf: &mut [u8]) -> io::Result<usize> {
        if self.taken >= self.chunk.len() {
            self.chunk = self.next_chunk()?;
            self.taken = 0;
        }
        let rest = &self.chunk[self.taken..];
        let count = rest.len().min(buf.len());
        buf[..count].copy_from_slice(&rest[..count]);
        self.taken += count;
        Ok(count)
    }
}

/// Reads an input to its end, and sends what each read gave.
fn send_chunks<R: AllocGlobal + Wait, I: Read + Drop>(rt: &R, input: I, to: Sender<Chunk>) {
    let mut input = input;
    let mut buffer = [0u8; READ_BYTES];
    for _ in rt.forever() {
        let chunk = match input.read(&mut buffer) {
            Ok(0) => return,
            Ok(count) => copied(rt.alloc(), &buffer[..count]),
            Err(error) if error.kind() == ErrorKind::Interrupted => continue,
            Err(error) => Err(error.kind()),
        };
        let is_last = chunk.is_err();
        if to.send(rt, chunk).is_err() || is_last {
            return;
        }
    }
}

/// Returns a copy of the bytes of a read.
fn copied(alloc: Global, bytes: &[u8]) -> Chunk {
    match bytes.to_vec(alloc) {
        Ok(chunk) => Ok(chunk),
        Err(_) => Err(ErrorKind::OutOfMemory),
    }
}
