//! Playing a log on what is saved of a queue.
ghost use Rattle.std.specs.Prelude.{◌≡◌};
ghost use Rattle.linnetshelf.specs.Answers.{Tells, plain};
ghost use Rattle.linnetshelf.specs.Handles.{OnSaved};
ghost use Rattle.linnetshelf.specs.Plays.{Plays, bad_turn, play_answer, replay_answer};
ghost use Rattle.linnetshelf.specs.declared.status.Status.TheVariants.{WrongKind};

use crate::answer::{Answer, answer_of, done, plain};
use crate::calling::on_held;
use crate::status::Status;
use cq_handle::{Handle, Held};
use cq_replay::ReplayFault;
use cq_saved::PlayFault;
use std::alloc::Global;

/// Plays the bytes of a log on what is saved, from which the log goes on. Returns how many turns were played. `Saved::play` says what is
/// refused; nothing changes then. A frame that is at fault is returned with its number.
#[unsafe(no_mangle)]
pub extern "C" fn linnetshelf_play(alloc: Global, handle: &mut Handle, bytes: &[u8]) -> Answer
    ensures { OnSaved handle.old.held handle.new.held (result ≡ plain WrongKind) (λ old new.
        Tells (Plays old new bytes.now) play_answer result) }
{
    on_held!(handle, Held::Saved(saved) => play_answer(saved.play(alloc, bytes)), else plain)
}

/// Makes the answer of `play`.
fn play_answer(said: Result<usize, PlayFault>) -> Answer
    ensures { result ≡ play_answer said }
{
    match said {
        Ok(turns) => done(turns as u64),
        Err(PlayFault::BadContents) => plain(Status::BadContents),
        Err(PlayFault::Log(fault)) => replay_answer(fault),
        Err(PlayFault::BadGain) => plain(Status::BadGain),
        Err(PlayFault::OutOfMemory) => plain(Status::OutOfMemory),
    }
}

/// Makes the answer for what is wrong with a log.
fn replay_answer(fault: ReplayFault) -> Answer
    ensures { result ≡ replay_answer fault }
{
    match fault {
        ReplayFault::BadHead(_) => plain(Status::BadHead),
        ReplayFault::DoesNotFit(_) => plain(Status::OtherLog),
        ReplayFault::BadFrame { frame, fault: _ } => bad_turn(frame),
        ReplayFault::Unplayable {
            frame,
            note: _,
            misfit: _,
        } => bad_turn(frame),
        ReplayFault::OutOfMemory => plain(Status::OutOfMemory),
    }
}

/// Makes the answer that the frame with this number is at fault.
fn bad_turn(frame: usize) -> Answer
    ensures { result ≡ bad_turn frame }
{
    answer_of(frame as u64, 0, Status::BadTurn)
}
