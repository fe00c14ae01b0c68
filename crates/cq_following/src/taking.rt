//! A take that waits for messages.
ghost use Rattle.std.specs.Prelude.{◌≡◌, ◌⊎◌, ◌↔◌, IfErr, IfOk, IfSome, IsTrue, None, Ok};
ghost use Rattle.cq_folder.specs.Folder.{KeepsFiles};
ghost use Rattle.cq_files.specs.Counted.{CountsFaults};
ghost use Rattle.cq_following.specs.Times.{IsTimeOver};
ghost use Rattle.cq_following.specs.Waiting.{TakesAtLast};

use crate::changes::Changes;
use crate::watch::Watch;
use cq_commands::{TakeSettings, Took, ToolFault, take_by};
use cq_folder::Folder;
use std::io::Write;
use std::rt::Clock;

/// The command `take` with `wait` (ours): takes messages under a name as `take_by` does. While there is none it tries again,
/// until one has come or as many seconds are over as the settings say, after a last try. Without `wait` it tries once. If the clock
/// cannot be read, the time is over at once.
///
/// Errors, each of which ends it: those of `take_by`.
///
/// The last call of `take_by` does all that is promised of it. Those before it found nothing, and no file changed. It is not
/// proved that time passes, that it tries again soon, or that the folder of the system is seen as it is. After 2^64 tries the time
/// counts as over.
pub fn take_waiting<R, C, F, W>(
    watch: &mut Watch<R, C>,
    folder: &mut F,
    name: &str,
    settings: &TakeSettings,
    output: &mut W,
) -> Result<Took, ToolFault>
where
    R: AllocGlobal + Clock,
    C: Changes,
    F: Folder,
    W: Write,
    ensures last { TakesAtLast settings.now name.now (F.files folder.old) (F.files folder.new) (W.contents output.old) (W.contents output.new) result }
    ensures nothing { result ≡ Ok Took.Nothing → (settings.now.wait ≡ None)
        ⊎ (IsTrue watch.new.is_over × IsTimeOver settings.now.wait watch.new.seen watch.new.end watch.new.looks) }
    ensures kept { IsTrue settings.now.peek → KeepsFiles (F.files folder.old) (F.files folder.new) }
    ensures counted { CountsFaults (F.failed folder.old) (F.failed folder.new) result }
{
    let alloc = watch.alloc();
    let Some(seconds) = settings.wait else {
        return take_by(alloc, folder, name, settings, output);
    };
    watch.begin(Some(seconds));
    'takes: loop {
        let done = take_by(alloc, folder, name, settings, output);
        if !is_nothing(&done) {
            return done;
        }
        if watch.is_over() {
            return done;
        }
        drop(done);
        watch.wait();
    }
}

/// Returns whether a take found nothing.
fn is_nothing(done: &Result<Took, ToolFault>) -> bool
    ensures { IsTrue result ↔ (done.now ≡ Ok Took.Nothing) }
{
    matches!(done, Ok(Took::Nothing))
}
