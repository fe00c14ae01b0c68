//! Calls of a log, and their answers as text.
ghost use Rattle.cq_log.specs.Log.{IsSound};

use crate::{Change, TornFile};
use cq_log::{Device, DeviceFault, Log, LogFault};
use std::alloc::{AllocError, Global};

/// A call of a log.
#[derive(Clone, Copy)]
pub enum Call {
    /// Puts a frame with these bytes.
    Push(&'static str),
    /// Puts a frame of this many bytes, each `x`.
    Long(usize),
    /// Opens the gate of the frame that waits.
    Settle,
}

impl Call {
    /// Whether it puts a frame.
    pub fn is_put(self) -> bool {
        !matches!(self, Call::Settle)
    }

    /// Whether it puts a frame of these bytes.
    pub fn puts(self, frame: &[u8]) -> bool {
        match self {
            Call::Push(text) => frame == text.as_bytes(),
            Call::Long(count) => frame.len() == count && frame.iter().all(|byte| *byte == b'x'),
            Call::Settle => false,
        }
    }
}

/// Makes the calls, and returns their answers as text. Out of memory ends it.
fn answers<D: Device>(
    alloc: Global,
    log: &mut Log<D>,
    calls: &[Call],
) -> Result<String, DeviceFault>
    requires { IsSound D.seen D.may_leave D.fault D.supposed log.old }
    ensures { IsSound D.seen D.may_leave D.fault D.supposed log.new }
{
    let mut text = String::new(alloc);
    for call in calls {
        let answer = match call {
            Call::Push(frame) => log.push(frame.as_bytes()),
            Call::Long(count) => log.push(&vec![in alloc; b'x'; *count]?),
            Call::Settle => log.settle().map_err(LogFault::Stopped),
        };
        match answer {
            Ok(()) => text.push_str("ok ")?,
            Err(LogFault::Stopped(DeviceFault::OutOfMemory)) => {
                return Err(DeviceFault::OutOfMemory);
            }
            Err(fault) => write!(text, "{fault:?} ")?,
        }
    }
    Ok(text)
}

/// Makes a log in a file of which the write, cut or sync with this number fails, and makes the calls. Returns the file and the
/// answers.
pub fn after_calls(
    alloc: Global,
    failing: u64,
    calls: &[Call],
) -> Result<(TornFile, String), DeviceFault> {
    match Log::create(TornFile::new(alloc, failing)) {
        Err(error) if error.fault == DeviceFault::OutOfMemory => Err(DeviceFault::OutOfMemory),
        Err(error) => Ok((error.device, format!(in alloc; "{:?}", error.fault)?)),
        Ok(log) => {
            let mut log = log;
            let answers = answers(alloc, &mut log, calls)?;
            Ok((log.into_device(), answers))
        }
    }
}

/// Makes such a log, and the calls. Returns the file.
pub fn file_after(alloc: Global, failing: u64, calls: &[Call]) -> Result<TornFile, DeviceFault> {
    let (file, _answers) = after_calls(alloc, failing, calls)?;
    Ok(file)
}

/// Returns the writes and syncs of a file as text: the offset and the number of bytes of a write.
pub fn changes_text(alloc: Global, file: &TornFile) -> Result<String, AllocError> {
    let mut text = String::new(alloc);
    for change in file.changes() {
        match change {
            Change::Write { at, bytes } => write!(text, "{at}+{} ", bytes.len())?,
            Change::Cut(len) => write!(text, "cut {len} ")?,
            Change::Sync(_) => text.push_str("sync ")?,
        }
    }
    Ok(text)
}
