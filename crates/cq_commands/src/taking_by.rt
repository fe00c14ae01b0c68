//! Takes several messages by one save, or only looks at them.

ghost use Rattle.std.specs.Prelude.{◌≡◌, ◌≢◌, ◌+◌, ◌⊎◌, ℕ, AllPairs, IfErr, IfOk, IfSome, List, None, OnErr, OnOk, false, length, true};
ghost use Rattle.std.specs.List.{flat_map};
ghost use Rattle.std.specs.Io.KnownBytes.{Appends};
ghost use Rattle.cq_folder.specs.Folder.{KeepsFiles};
ghost use Rattle.cq_model.specs.Journals.{HasTaken};
ghost use Rattle.cq_layout.specs.Layout.{IsLawfulLayout};
ghost use Rattle.cq_model.specs.Finds.{Placed};
ghost use Rattle.cq_model.specs.States.{AreLawfulContents};
ghost use Rattle.cq_model.specs.declared.contents.Contents.{Contents};
ghost use Rattle.cq_model.specs.Settings.{Declares};
ghost use Rattle.cq_text.specs.Output.{AppendsBeginning};
ghost use Rattle.cq_files.specs.Counted.{CountsFaults};
ghost use Rattle.cq_files.specs.Queue.{CanBeOpened};
ghost use Rattle.cq_commands.specs.Messages.{message_line};
ghost use Rattle.cq_commands.specs.Opened.{HoldsContents, journal_with};
ghost use Rattle.cq_commands.specs.QueueFaults.{IsNameFault};
ghost use Rattle.cq_files.specs.Printing.{SavesAndPrints, TellsConfig};
ghost use Rattle.cq_commands.specs.TakenBy.{HasTakenAll, IsTakeByFault, IsTakenBy, TakesAll, TakesVersionBy, TellsTook, most_of};

use crate::opened::{OpenedQueue, config_after, open_held};
use crate::printing::push_message;
use crate::taking::declares;
use cq_contents::{ContentsReader, QueueContents};
use cq_cycle::Index;
use cq_files::{print_outside, write_file};
use cq_folder::{Access, CONFIG_FILE, Folder};
use cq_layout::Message;
use cq_model::{Config, Direction, TakeFault};
use cq_orders::TakeSettings;
use cq_text::ToolFault;
use std::alloc::{AllocError, Global};
use std::io::Write;

/// What a take with options found.
#[derive(Clone, Copy, Debug, PartialEq, Eq)]
pub enum Took {
    /// Messages, of which each was printed.
    Messages,
    /// No message, so nothing was printed.
    Nothing,
}

/// The command `take` with options: takes the messages with the least indexes at or after the position of a name, in the
/// cycles that are not below the floor: as many as the limit says, or all that have come if these are fewer. Without a
/// limit it takes one. It saves the position after the last of them in `queue.cqc`, by one save, and writes `INDEX TEXT` on a
/// line for each, in order. If no message has come there, it writes and saves nothing, and returns `Nothing`.
///
/// With `peek` it writes the same lines and saves nothing. Then it enters the folder with those that only read it, and the
/// queue may be of either version.
///
/// Errors, in this order:
/// - those of opening the queue, with `OldVersion` among them;
/// - `NoSuchName`: the queue declares no such name;
/// - `FileFault`: the position is saved, and none of the messages is taken again, or every file is as it was;
/// - `WriteFault`: the position is saved, and a beginning of the lines was written.
///
/// `OutOfMemory` can come at any growth. The memory for the lines is all taken before the save. Before an error other than the
/// last two every file is as it was, and with `peek` always. Nothing is written to the writer before an error other than
/// `WriteFault`.
///
/// `queue.cqc` has the same settings, floor and other positions, and no other file changes. `NoSuchName` comes only if
/// the queue can be opened, and a `WriteFault` only if the name is declared. With `peek` a `FileFault` comes only from the opening,
/// and `OldVersion` never. If files changed, a `FileFault` names `queue.cqc`.
pub fn take_by<F: Folder, W: Write>(
    alloc: Global,
    folder: &mut F,
    name: &str,
    settings: &TakeSettings,
    output: &mut W,
) -> Result<Took, ToolFault>
    ensures saved { SavesAndPrints (F.files folder.old) (F.files folder.new) (W.contents output.old) (W.contents output.new)
        (IsTakenBy settings.now.peek (most_of settings.now) name.now (F.files folder.old) (F.files folder.new)) result }
    ensures took { IfOk result (TellsTook (W.contents output.old) (W.contents output.new)
        (IsTakenBy settings.now.peek (most_of settings.now) name.now (F.files folder.old) (F.files folder.new))) }
    ensures cause { IfErr result (λ fault. IfSome (F.files folder.old)
        (λ files. IsTakeByFault settings.now.peek name.now files fault)) }
    ensures kept { settings.now.peek ≡ true → KeepsFiles (F.files folder.old) (F.files folder.new) }
    ensures told { IfErr result (λ fault. KeepsFiles (F.files folder.old) (F.files folder.new) ⊎ TellsConfig fault) }
    ensures version { TakesVersionBy settings.now.peek (F.files folder.old) result }
    ensures counted { CountsFaults (F.failed folder.old) (F.failed folder.new) result }
{
    let most = settings.limit.unwrap_or(1);
    if settings.peek {
        look(alloc, folder, name, most, output)
    } else {
        take_all(alloc, folder, name, most, output)
    }
}

/// Takes the next messages of a name, `most` at most, and prints them.
fn take_all<F: Folder, W: Write>(
    alloc: Global,
    folder: &mut F,
    name: &str,
    most: u64,
    output: &mut W,
) -> Result<Took, ToolFault>
    ensures saved { SavesAndPrints (F.files folder.old) (F.files folder.new) (W.contents output.old) (W.contents output.new)
        (IsTakenBy false most name.now (F.files folder.old) (F.files folder.new)) result }
    ensures took { IfOk result (TellsTook (W.contents output.old) (W.contents output.new)
        (IsTakenBy false most name.now (F.files folder.old) (F.files folder.new))) }
    ensures cause { IfErr result (λ fault. IfSome (F.files folder.old) (λ files. IsTakeByFault false name.now files fault)) }
    ensures told { IfErr result (λ fault. KeepsFiles (F.files folder.old) (F.files folder.new) ⊎ TellsConfig fault) }
    ensures version { TakesVersionBy false (F.files folder.old) result }
    ensures counted { CountsFaults (F.failed folder.old) (F.failed folder.new) result }
{
    let queue = open_held(alloc, folder, Access::Alone)?;
    match taken_for(alloc, queue, name, most)? {
        None => {
            folder.end();
            Ok(Took::Nothing)
        }
        Some(TakenLines { config, lines }) => {
            write_file(alloc, folder, CONFIG_FILE, config.as_slice())?;
            folder.end();
            print_lines(folder, output, lines.as_slice())
        }
    }
}

/// Prints the next messages of a name, `most` at most, and leaves the name where it is.
fn look<F: Folder, W: Write>(
    alloc: Global,
    folder: &mut F,
    name: &str,
    most: u64,
    output: &mut W,
) -> Result<Took, ToolFault>
    ensures saved { SavesAndPrints (F.files folder.old) (F.files folder.new) (W.contents output.old) (W.contents output.new)
        (IsTakenBy true most name.now (F.files folder.old) (F.files folder.new)) result }
    ensures took { IfOk result (TellsTook (W.contents output.old) (W.contents output.new)
        (IsTakenBy true most name.now (F.files folder.old) (F.files folder.new))) }
    ensures cause { IfErr result (λ fault. IfSome (F.files folder.old) (λ files. IsTakeByFault true name.now files fault)) }
    ensures kept { KeepsFiles (F.files folder.old) (F.files folder.new) }
    ensures version { TakesVersionBy true (F.files folder.old) result }
    ensures counted { CountsFaults (F.failed folder.old) (F.failed folder.new) result }
{
    let queue = open_held(alloc, folder, Access::Shared)?;
    folder.end();
    match taken_for(alloc, queue, name, most)? {
        None => Ok(Took::Nothing),
        Some(taken) => print_lines(folder, output, taken.lines.as_slice()),
    }
}

/// What is saved of messages that were taken, and what is printed.
#[derive(Drop)]
struct TakenLines {
    /// The text of `queue.cqc` in which the position of the name is after the last of them.
    config: Vec<u8>,
    /// Their lines.
    lines: Vec<u8>,
}

/// Takes the next messages for a name, `most` at most; `None` if none has come. Nothing is held if no cycle has begun.
fn taken_for(
    alloc: Global,
    queue: OpenedQueue,
    name: &str,
    most: u64,
) -> Result<Option<TakenLines>, ToolFault>
    requires names { IfSome queue.held (λ j. j.settings.names ≡ queue.config.names) }
    requires lawful { IfSome queue.held (λ j. AreLawfulContents j.settings j.contents × IsLawfulLayout j.settings.layout) }
    ensures taken { IfOk result (λ taken. (contents : Contents) → length contents.positions ≡ length queue.config.names
        → CanBeOpened queue.config contents → HoldsContents queue.config contents queue.held
        → TakesAll (journal_with queue.config contents) name.now most taken) }
    ensures fault { IfErr result (IsNameFault queue.config name.now) }
{
    let OpenedQueue { config, held } = queue;
    if !declares(&config, name) {
        return Err(ToolFault::NoSuchName);
    }
    match held {
        Some(held) => Ok(taken_from(alloc, &config, held, name, most)?),
        None => Ok(None),
    }
}

/// Takes the next messages for a name that is declared, in a queue of which a cycle has begun.
fn taken_from(
    alloc: Global,
    config: &Config,
    held: QueueContents,
    name: &str,
    most: u64,
) -> Result<Option<TakenLines>, AllocError>
    requires names { held.settings.names ≡ config.now.names }
    requires lawful { AreLawfulContents held.settings held.contents }
    requires layout { IsLawfulLayout held.settings.layout }
    requires declared { Declares config.now name.now }
    requires distinct { AllPairs (λ one other. one ≢ other) config.now.names }
    ensures { IfOk result (TakesAll (journal_with config.now held.contents) name.now most) }
{
    let mut reader = held.into_reader(Direction::Forwards, 0);
    let lines = lines_taken(alloc, &mut reader, name, most)?;
    if lines.is_empty() {
        return Ok(None);
    }
    let config = config_after(alloc, config, reader)?;
    Ok(Some(TakenLines { config, lines }))
}

/// Takes messages by a name that is declared, `most` at most, and returns their lines.
fn lines_taken(
    alloc: Global,
    reader: &mut ContentsReader,
    name: &str,
    most: u64,
) -> Result<Vec<u8>, AllocError>
    requires lawful { AreLawfulContents reader.now.journal.settings reader.now.journal.contents }
    requires layout { IsLawfulLayout reader.now.journal.settings.layout }
    requires declared { Declares reader.now.journal.settings name.now }
    requires distinct { AllPairs (λ one other. one ≢ other) reader.now.journal.settings.names }
    ensures { IfOk result (λ lines. (messages : List Placed) × HasTakenAll reader.old reader.new name.now most messages
        × (lines.items ≡ flat_map message_line messages)) }
{
    let mut lines = Vec::new(alloc);
    let mut left = most;
    'messages: while let Some((index, message)) = next_taken(alloc, reader, name, &mut left)? {
        push_message(&mut lines, index, message.as_slice())?;
    }
    Ok(lines)
}

/// Takes the next message by a name that is declared, unless none is left to be taken. A message that is taken is one less.
fn next_taken(
    alloc: Global,
    reader: &mut ContentsReader,
    name: &str,
    left: &mut u64,
) -> Result<Option<(Index, Message)>, AllocError>
    requires { Declares reader.now.journal.settings name.now }
    ensures used { IfOk result (λ found. left.old ≡ 0 → (found ≡ None) × (reader.new ≡ reader.old)) }
    ensures one { IfOk result (λ found. left.old ≢ 0 → HasTaken reader.old reader.new name.now found) }
    ensures fewer { IfOk result (λ found. IfSome found (λ _. left.new + 1 ≡ left.old)) }
{
    if *left == 0 {
        return Ok(None);
    }
    match reader.take(alloc, name) {
        Ok(Some(found)) => {
            *left -= 1;
            Ok(Some(found))
        }
        Ok(None) => Ok(None),
        Err(TakeFault::OutOfMemory) => Err(AllocError),
        Err(TakeFault::NoSuchName) => unreachable!(),
    }
}

/// Prints lines of messages.
fn print_lines<F: Folder, W: Write>(
    folder: &F,
    output: &mut W,
    lines: &[u8],
) -> Result<Took, ToolFault>
    requires { F.entered folder.now ≡ None }
    ensures written { OnOk result (Appends (W.contents output.old) (W.contents output.new) lines.now) }
    ensures took { IfOk result (λ took. took ≡ Took.Messages) }
    ensures fault { IfErr result (λ fault. fault ≡ ToolFault.WriteFault) }
    ensures begun { OnErr result (AppendsBeginning (W.contents output.old) (W.contents output.new) lines.now) }
{
    print_outside(folder, output, lines)?;
    Ok(Took::Messages)
}
