//! Making shelves, and handing out writers, readers and takers of them.
ghost use Rattle.std.specs.Prelude.{◌≡◌};
ghost use Rattle.linnetshelf.specs.Answers.{Tells};
ghost use Rattle.linnetshelf.specs.Handles.{OnShelf, OnShelfWriter};
ghost use Rattle.linnetshelf.specs.Shelves.{CreatesShelf, GivesUser, HandsOutUser, MakesReader, MakesShelf, MakesTaker, SplitsUser};
ghost use Rattle.linnetshelf.specs.Statuses.{number};
ghost use Rattle.linnetshelf.specs.declared.status.Status.TheVariants.{WrongKind};

use crate::calling::on_held;
use crate::making::hand_out;
use crate::settings::config_of;
use crate::shelf_answer::fault_status;
use crate::shelf_settings::{ShelfSettings, limit_of};
use crate::status::Status;
use cq_handle::{Handle, Held, ShelfUser};
use cq_shelf::{ShelfFault, ShelfWriter};
use std::alloc::Global;

/// Hands out the first writer of a new shelf, whose first queue begins with the cycle of `moment`, in milliseconds of
/// Unix time. The names are a text with a line for each. `ShelfWriter::create` says what is refused. It returns
/// `BadSettings` only if there can be no such queue, if a name is not UTF-8, or if nothing at the limit has the number.
#[unsafe(no_mangle)]
pub extern "C" fn linnetshelf_shelf_create(
    alloc: Global,
    settings: &ShelfSettings,
    names: &[u8],
    moment: u64,
    out: &mut Handle,
) -> u32
    ensures { Tells (CreatesShelf settings.now names.now moment out.old.held out.new.held) number result }
{
    match create(alloc, settings, names, moment) {
        Ok(writer) => hand_out(alloc, Held::Shelf(ShelfUser::Writer(writer)), out).number(),
        Err(status) => status.number(),
    }
}

/// Makes the first writer of a new shelf.
fn create(
    alloc: Global,
    settings: &ShelfSettings,
    names: &[u8],
    moment: u64,
) -> Result<ShelfWriter, Status>
    ensures { MakesShelf settings.now names.now moment result }
{
    let config = config_of(alloc, &settings.queue, names)?;
    let Some(at_limit) = limit_of(settings.at_limit) else {
        return Err(Status::BadSettings);
    };
    match ShelfWriter::create(alloc, config, settings.most, at_limit, moment) {
        Ok(writer) => Ok(writer),
        Err(fault) => Err(fault_status(fault)),
    }
}

/// Hands out another user of the kind that the handle holds, which may go to another thread. A writer or a reader is at
/// the same queue, and a taker has the same name. It returns `Busy` only of a taker, or `OutOfMemory`.
#[unsafe(no_mangle)]
pub extern "C" fn linnetshelf_shelf_split(
    alloc: Global,
    handle: &mut Handle,
    out: &mut Handle,
) -> u32
    ensures { OnShelf handle.old.held handle.new.held
        ((result ≡ number WrongKind) × (out.new.held ≡ out.old.held)) (λ old new.
        Tells (GivesUser (SplitsUser old new) out.old.held out.new.held) number result) }
{
    on_held!(handle, Held::Shelf(user) => {
        hand_out_user(alloc, split(alloc, user), out).number()
    }, else Status::number)
}

/// Makes another writer, reader or taker at the same queue.
fn split(alloc: Global, user: &mut ShelfUser) -> Result<ShelfUser, ShelfFault>
    ensures { SplitsUser user.old user.new result }
{
    match user {
        ShelfUser::Writer(writer) => Ok(ShelfUser::Writer(writer.split()?)),
        ShelfUser::Reader(reader) => Ok(ShelfUser::Reader(reader.split()?)),
        ShelfUser::Taker(taker) => Ok(ShelfUser::Taker(taker.split(alloc)?)),
    }
}

/// Hands out a reader, which reads from the start of the queue to which a writer appends. It is refused as
/// `OutOfMemory`.
#[unsafe(no_mangle)]
pub extern "C" fn linnetshelf_shelf_reader(
    alloc: Global,
    handle: &mut Handle,
    out: &mut Handle,
) -> u32
    ensures { OnShelfWriter handle.old.held handle.new.held
        ((result ≡ number WrongKind) × (out.new.held ≡ out.old.held)) (λ old new.
        Tells (GivesUser (MakesReader old new) out.old.held out.new.held) number result) }
{
    on_held!(handle, Held::Shelf(ShelfUser::Writer(writer)) => {
        hand_out_user(alloc, reader(writer), out).number()
    }, else Status::number)
}

/// Makes a reader at the queue of a writer.
fn reader(writer: &mut ShelfWriter) -> Result<ShelfUser, ShelfFault>
    ensures { MakesReader writer.old writer.new result }
{
    Ok(ShelfUser::Reader(writer.reader()?))
}

/// Hands out a taker, which takes by a name from where that is. A name is the UTF-8 bytes of a text. Other bytes are no
/// name of a shelf. `ShelfWriter::taker` says what is refused.
#[unsafe(no_mangle)]
pub extern "C" fn linnetshelf_shelf_taker(
    alloc: Global,
    handle: &mut Handle,
    name: &[u8],
    out: &mut Handle,
) -> u32
    ensures { OnShelfWriter handle.old.held handle.new.held
        ((result ≡ number WrongKind) × (out.new.held ≡ out.old.held)) (λ old new.
        Tells (GivesUser (MakesTaker old name.now) out.old.held out.new.held) number result × (new ≡ old)) }
{
    on_held!(handle, Held::Shelf(ShelfUser::Writer(writer)) => {
        hand_out_user(alloc, taker(alloc, writer, name), out).number()
    }, else Status::number)
}

/// Makes a taker by a name.
fn taker(alloc: Global, writer: &ShelfWriter, name: &[u8]) -> Result<ShelfUser, ShelfFault>
    ensures { MakesTaker writer.now name.now result }
{
    match str::from_utf8(name) {
        Ok(name) => Ok(ShelfUser::Taker(writer.taker(alloc, name)?)),
        Err(_) => Err(ShelfFault::NoSuchName),
    }
}

/// Hands out what was made of a shelf, or says why nothing was; then the handle is left as it was.
fn hand_out_user(alloc: Global, made: Result<ShelfUser, ShelfFault>, out: &mut Handle) -> Status
    ensures { HandsOutUser made out.old.held out.new.held result }
{
    match made {
        Ok(user) => hand_out(alloc, Held::Shelf(user), out),
        Err(fault) => fault_status(fault),
    }
}
