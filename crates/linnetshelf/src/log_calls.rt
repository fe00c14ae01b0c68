//! The calls of a log, which C makes of its own file.
ghost use Rattle.std.specs.Prelude.{◌≡◌};
ghost use Rattle.linnetshelf.specs.Answers.{Tells};
ghost use Rattle.linnetshelf.specs.Handles.{OnKeeper};
ghost use Rattle.linnetshelf.specs.LogCalls.{CopiesCall, HandsCall, IsOfCall, NotesCall, call_answer, call_of, kind_of, no_call, note_answer, place_of};
ghost use Rattle.linnetshelf.specs.Statuses.{number};
ghost use Rattle.linnetshelf.specs.declared.status.Status.TheVariants.{WrongKind};

use crate::calling::on_held;
use crate::status::Status;
use cq_handle::{Handle, Held};
use cq_kept_calls::{CallFault, CallKeeper, KeeperStopped};
use cq_log_calls::LogCall;
use cq_log_file::Call;

/// A call of a log. What it does not say is 0.
#[repr(C)]
#[derive(Clone, Copy)]
pub struct LogAnswer {
    /// The offset of a write in bytes, or the length in bytes to which the file is cut.
    pub place: u64,
    /// How many bytes are written.
    pub length: u64,
    /// Which call: 0 a write, 1 a cut, 2 a sync of the file, 3 a sync of its folder.
    pub kind: u32,
    /// How it went: the number of a `Status`.
    pub status: u32,
}

/// Copies the bytes of the oldest call of the log that is left to the front of a buffer, and returns the call. It is returned again until
/// `linnetshelf_log_done`.
///
/// - `NoCall`: each call was made.
/// - `LogStopped`: a call failed before.
/// - `NoRoom`: the buffer has fewer bytes. The answer has the length, and nothing is copied.
#[unsafe(no_mangle)]
pub extern "C" fn linnetshelf_log_call(handle: &mut Handle, room: &mut [u8]) -> LogAnswer
    ensures { OnKeeper handle.old.held handle.new.held ((result ≡ no_call WrongKind) × (room.new ≡ room.old)) (λ old new.
        Tells (HandsCall old room.old room.new) call_answer result × (new ≡ old)) }
{
    on_held!(handle, Held::Keeper(keeper) => call_answer(call_into(keeper, room)), else no_call)
}

/// How the copy of a call into a buffer went.
#[derive(Clone, Copy)]
enum CallInto {
    /// A call with that many bytes: they are the first of the buffer.
    Copied(Call, u64),
    /// The call has that many bytes, which is more than the buffer has.
    NoRoom(Call, u64),
    /// No call is left.
    NoCall,
    /// A call failed before.
    Stopped,
}

fn call_into(keeper: &CallKeeper, room: &mut [u8]) -> CallInto
    ensures { HandsCall keeper.now room.old room.new result }
{
    match keeper.next_call() {
        Ok(Some(call)) => copy_into(call, room),
        Ok(None) => CallInto::NoCall,
        Err(KeeperStopped) => CallInto::Stopped,
    }
}

/// Copies the bytes of a call to the front of a buffer that is large enough.
fn copy_into(call: &LogCall, room: &mut [u8]) -> CallInto
    ensures copied { CopiesCall call.now.bytes.items room.old room.new result }
    ensures which { IsOfCall call.now.call result }
{
    let bytes = call.bytes.as_slice();
    let length = bytes.len();
    if length > room.len() {
        return CallInto::NoRoom(call.call, length as u64);
    }
    room[..length].copy_from_slice(bytes);
    CallInto::Copied(call.call, length as u64)
}

/// Makes the answer of `log_call`.
fn call_answer(said: CallInto) -> LogAnswer
    ensures { result ≡ call_answer said }
{
    match said {
        CallInto::Copied(call, length) => call_of(call, length, Status::Done),
        CallInto::NoRoom(call, length) => call_of(call, length, Status::NoRoom),
        CallInto::NoCall => no_call(Status::NoCall),
        CallInto::Stopped => no_call(Status::LogStopped),
    }
}

/// Makes the answer that has only a status.
fn no_call(status: Status) -> LogAnswer
    ensures { result ≡ no_call status }
{
    LogAnswer {
        place: 0,
        length: 0,
        kind: 0,
        status: status.number(),
    }
}

/// Makes the answer of a call with that many bytes.
fn call_of(call: Call, length: u64, status: Status) -> LogAnswer
    ensures { result ≡ call_of call length status }
{
    let (kind, place) = match call {
        Call::Write(at) => (0, at),
        Call::Cut(len) => (1, len),
        Call::Sync => (2, 0),
        Call::SyncFolder => (3, 0),
        // These are never left to make.
        Call::Lock => (4, 0),
        Call::Find => (5, 0),
        Call::Read => (6, 0),
    };
    LogAnswer {
        place: place as u64,
        length,
        kind,
        status: status.number(),
    }
}

/// Notes how the oldest call of the log went that was left. After one that failed the keeper has stopped.
///
/// - `LogStopped`: a call failed before.
/// - `NoCall`: no call is left.
#[unsafe(no_mangle)]
pub extern "C" fn linnetshelf_log_done(handle: &mut Handle, is_done: bool) -> u32
    ensures { OnKeeper handle.old.held handle.new.held (result ≡ number WrongKind) (λ old new.
        Tells (NotesCall old new is_done) note_answer result) }
{
    on_held!(handle, Held::Keeper(keeper) => {
        note_answer(keeper.note_call(is_done))
    }, else Status::number)
}

/// Makes the answer of `log_done`.
fn note_answer(said: Result<(), CallFault>) -> u32
    ensures { result ≡ note_answer said }
{
    let status = match said {
        Ok(()) => Status::Done,
        Err(CallFault::NoCall) => Status::NoCall,
        Err(CallFault::Stopped) => Status::LogStopped,
    };
    status.number()
}
