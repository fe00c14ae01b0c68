//! Stopping queues and saving what they held: an image for each cycle, a position for each name, and the floor. What
//! was saved is put together again, and opened.
ghost use Rattle.std.specs.Prelude.{◌≡◌, length};
ghost use Rattle.linnetshelf.specs.Answers.{Tells, add_answer, done, kind_status, number_answer, plain};
ghost use Rattle.linnetshelf.specs.Handles.{OnSaved};
ghost use Rattle.linnetshelf.specs.Makes.{MakesSaved, Opens, Recovers, SavesNew, StopsHeld};
ghost use Rattle.linnetshelf.specs.Saves.{Adds, IsPlaceOf, PlacesName, TellsCycle, TellsEnded, TellsImage, TellsLength, TellsPosition};
ghost use Rattle.cq_saved.specs.Saved.{with_contents};
ghost use Rattle.linnetshelf.specs.Statuses.{number};
ghost use Rattle.linnetshelf.specs.Told.{copy_answer};
ghost use Rattle.linnetshelf.specs.declared.status.Status.TheVariants.{Done, WrongKind};

use crate::answer::{Answer, answer_of, done, plain};
use crate::calling::on_held;
use crate::copying::copy_answer;
use crate::making::hand_out;
use crate::settings::{Settings, config_of};
use crate::status::Status;
use core::mem::replace_with;
use cq_foreign::{Copied, copy_into};
use cq_handle::{Handle, Held};
use cq_image::FaultKind;
use cq_saved::{AddFault, NoSuchPlace, Saved};
use cq_shown::{CreateError, Stopped};
use std::alloc::Global;

/// Stops the queue of an endpoint, which is the last one, and reads what it held: the handle holds that afterwards. A
/// message that is begun is given up.
///
/// - `InUse`: other endpoints of the queue live. The endpoint is as it was.
/// - `OutOfMemory`: the queue is stopped, and the call can be made again.
#[unsafe(no_mangle)]
pub extern "C" fn linnetshelf_stop(alloc: Global, handle: &mut Handle) -> u32
    ensures { Tells (StopsHeld handle.old.held handle.new.held) number result }
{
    let status = replace_with(handle.held_mut(), (), |held, _| stop(alloc, held));
    status.number()
}

/// Returns what is held once it is stopped and read.
fn stop(alloc: Global, held: Held) -> (Held, Status)
    ensures { StopsHeld held result.0 result.1 }
{
    match held {
        Held::Endpoint(endpoint) => match endpoint.stop() {
            Ok(stopped) => recover(alloc, stopped),
            Err(endpoint) => (Held::Endpoint(endpoint), Status::InUse),
        },
        Held::Stopped(stopped) => recover(alloc, stopped),
        Held::Saved(saved) => (Held::Saved(saved), Status::WrongKind),
        Held::Keeper(keeper) => (Held::Keeper(keeper), Status::WrongKind),
        Held::Shelf(user) => (Held::Shelf(user), Status::WrongKind),
    }
}

/// Reads what a stopped queue held; if memory is refused, returns the stopped queue as it is.
fn recover(alloc: Global, stopped: Stopped) -> (Held, Status)
    ensures { Recovers stopped result.0 result.1 }
{
    match Saved::recovered(alloc, &stopped) {
        Ok(saved) => (Held::Saved(saved), Status::Done),
        Err(_) => (Held::Stopped(stopped), Status::OutOfMemory),
    }
}

/// Hands out a queue without cycles, with each name at 0 and the floor 0, to which what was saved is added. It
/// returns `BadSettings` only if there can be no such queue, or if a name is not UTF-8.
#[unsafe(no_mangle)]
pub extern "C" fn linnetshelf_saved_new(
    alloc: Global,
    settings: &Settings,
    names: &[u8],
    out: &mut Handle,
) -> u32
    ensures { Tells (SavesNew settings.now names.now out.old.held out.new.held) number result }
{
    match create(alloc, settings, names) {
        Ok(saved) => hand_out(alloc, Held::Saved(saved), out).number(),
        Err(status) => status.number(),
    }
}

/// Makes a queue without cycles.
fn create(alloc: Global, settings: &Settings, names: &[u8]) -> Result<Saved, Status>
    ensures { MakesSaved settings.now names.now result }
{
    let config = config_of(alloc, settings, names)?;
    match Saved::new(alloc, config) {
        Ok(saved) => Ok(saved),
        Err(_) => Err(Status::OutOfMemory),
    }
}

/// Adds a cycle after the others, from its image. An error of the image is returned with its position in bytes.
#[unsafe(no_mangle)]
pub extern "C" fn linnetshelf_saved_add(
    alloc: Global,
    handle: &mut Handle,
    cycle: u32,
    bytes: &[u8],
) -> Answer
    ensures { OnSaved handle.old.held handle.new.held (result ≡ plain WrongKind) (λ old new.
        Tells (Adds old new cycle bytes.now) add_answer result) }
{
    on_held!(handle, Held::Saved(saved) => add_answer(saved.add(alloc, cycle, bytes)), else plain)
}

/// Makes the answer of `add`.
fn add_answer(said: Result<(), AddFault>) -> Answer
    ensures { result ≡ add_answer said }
{
    match said {
        Ok(()) => plain(Status::Done),
        Err(AddFault::BehindOpen) => plain(Status::BehindOpen),
        Err(AddFault::Image(fault)) => answer_of(fault.at, 0, kind_status(fault.kind)),
        Err(AddFault::OutOfMemory) => plain(Status::OutOfMemory),
    }
}

/// Says what is wrong with an image.
fn kind_status(kind: FaultKind) -> Status
    ensures { result ≡ kind_status kind }
{
    match kind {
        FaultKind::Cut => Status::Cut,
        FaultKind::BadHeader => Status::BadHeader,
        FaultKind::Unfinished => Status::Unfinished,
        FaultKind::WrongStore => Status::WrongStore,
        FaultKind::WrongTable => Status::WrongTable,
        FaultKind::BadPadding => Status::BadPadding,
        FaultKind::AfterEnd => Status::AfterEnd,
        FaultKind::OverShape => Status::OverShape,
    }
}

/// Returns how many cycles there are.
#[unsafe(no_mangle)]
pub extern "C" fn linnetshelf_saved_count(handle: &mut Handle) -> Answer
    ensures { OnSaved handle.old.held handle.new.held (result ≡ plain WrongKind) (λ old new.
        (result ≡ done (length old.contents.lists)) × (new ≡ old)) }
{
    on_held!(handle, Held::Saved(saved) => done(saved.len() as u64), else plain)
}

/// Returns the number of cycle `k`, counted from 0.
#[unsafe(no_mangle)]
pub extern "C" fn linnetshelf_saved_cycle(handle: &mut Handle, k: u32) -> Answer
    ensures { OnSaved handle.old.held handle.new.held (result ≡ plain WrongKind) (λ old new.
        Tells (TellsCycle old k) number_answer result × (new ≡ old)) }
{
    on_held!(handle, Held::Saved(saved) => number_answer(cycle(saved, k)), else plain)
}

/// Returns the place of cycle `k`, if there are as many.
fn place_of(saved: &Saved, k: u32) -> Result<usize, NoSuchPlace>
    ensures { IsPlaceOf saved.now k result }
{
    let k = k as usize;
    if k >= saved.len() {
        return Err(NoSuchPlace);
    }
    Ok(k)
}

fn cycle(saved: &Saved, k: u32) -> Result<u64, NoSuchPlace>
    ensures { TellsCycle saved.now k result }
{
    let k = place_of(saved, k)?;
    Ok(u64::from(saved.cycle(k)))
}

/// Returns how many messages cycle `k` has, counted from 0.
#[unsafe(no_mangle)]
pub extern "C" fn linnetshelf_saved_length(handle: &mut Handle, k: u32) -> Answer
    ensures { OnSaved handle.old.held handle.new.held (result ≡ plain WrongKind) (λ old new.
        Tells (TellsLength old k) number_answer result × (new ≡ old)) }
{
    on_held!(handle, Held::Saved(saved) => number_answer(messages(saved, k)), else plain)
}

fn messages(saved: &Saved, k: u32) -> Result<u64, NoSuchPlace>
    ensures { TellsLength saved.now k result }
{
    let k = place_of(saved, k)?;
    Ok(saved.messages(k) as u64)
}

/// Returns 1 if cycle `k`, counted from 0, has ended, and 0 if it is open.
#[unsafe(no_mangle)]
pub extern "C" fn linnetshelf_saved_ended(handle: &mut Handle, k: u32) -> Answer
    ensures { OnSaved handle.old.held handle.new.held (result ≡ plain WrongKind) (λ old new.
        Tells (TellsEnded old k) number_answer result × (new ≡ old)) }
{
    on_held!(handle, Held::Saved(saved) => number_answer(ended(saved, k)), else plain)
}

fn ended(saved: &Saved, k: u32) -> Result<u64, NoSuchPlace>
    ensures { TellsEnded saved.now k result }
{
    let k = place_of(saved, k)?;
    Ok(u64::from(saved.has_ended(k)))
}

/// Makes the answer of a call on the `k`th of something that returns a number.
fn number_answer(said: Result<u64, NoSuchPlace>) -> Answer
    ensures { result ≡ number_answer said }
{
    match said {
        Ok(told) => done(told),
        Err(NoSuchPlace) => plain(Status::NoSuchPlace),
    }
}

/// Copies the image of cycle `k`, counted from 0, to the front of a buffer. Returns its length.
///
/// - `NoSuchPlace`: there are fewer cycles.
/// - `NoRoom`: the buffer is smaller. The answer has the length, and nothing is copied.
/// - `OutOfMemory`: out of memory. Nothing is copied.
#[unsafe(no_mangle)]
pub extern "C" fn linnetshelf_saved_image(
    alloc: Global,
    handle: &mut Handle,
    k: u32,
    room: &mut [u8],
) -> Answer
    ensures { OnSaved handle.old.held handle.new.held ((result ≡ plain WrongKind) × (room.new ≡ room.old)) (λ old new.
        Tells (TellsImage old k room.old room.new) copy_answer result × (new ≡ old)) }
{
    on_held!(handle, Held::Saved(saved) => {
        copy_answer(image_into(alloc, saved, k, room))
    }, else plain)
}

fn image_into(alloc: Global, saved: &Saved, k: u32, room: &mut [u8]) -> Result<Copied, Status>
    ensures { TellsImage saved.now k room.old room.new result }
{
    let Ok(k) = place_of(saved, k) else {
        return Err(Status::NoSuchPlace);
    };
    match saved.image(alloc, k) {
        Ok(bytes) => Ok(copy_into(bytes.as_slice(), room)),
        Err(_) => Err(Status::OutOfMemory),
    }
}

/// Returns the position of the name that was declared as the `k`th, counted from 0.
#[unsafe(no_mangle)]
pub extern "C" fn linnetshelf_saved_position(handle: &mut Handle, k: u32) -> Answer
    ensures { OnSaved handle.old.held handle.new.held (result ≡ plain WrongKind) (λ old new.
        Tells (TellsPosition old k) number_answer result × (new ≡ old)) }
{
    on_held!(handle, Held::Saved(saved) => number_answer(position(saved, k)), else plain)
}

fn position(saved: &Saved, k: u32) -> Result<u64, NoSuchPlace>
    ensures { TellsPosition saved.now k result }
{
    match saved.position(k as usize) {
        Some(position) => Ok(position),
        None => Err(NoSuchPlace),
    }
}

/// Sets the position of the name that was declared as the `k`th, counted from 0.
#[unsafe(no_mangle)]
pub extern "C" fn linnetshelf_saved_set_position(
    alloc: Global,
    handle: &mut Handle,
    k: u32,
    position: u64,
) -> u32
    ensures { OnSaved handle.old.held handle.new.held (result ≡ number WrongKind) (λ old new.
        Tells (PlacesName old new k position) number result) }
{
    on_held!(handle, Held::Saved(saved) => {
        set_position(alloc, saved, k, position).number()
    }, else Status::number)
}

/// Sets the position of a name, if as many are declared.
fn set_position(alloc: Global, saved: &mut Saved, k: u32, position: u64) -> Status
    ensures { PlacesName saved.old saved.new k position result }
{
    match saved.set_position(alloc, k as usize, position) {
        Ok(()) => Status::Done,
        Err(NoSuchPlace) => Status::NoSuchPlace,
    }
}

/// Returns the floor: reads skip all cycles below this one.
#[unsafe(no_mangle)]
pub extern "C" fn linnetshelf_saved_floor(handle: &mut Handle) -> Answer
    ensures { OnSaved handle.old.held handle.new.held (result ≡ plain WrongKind) (λ old new.
        (result ≡ done old.contents.floor) × (new ≡ old)) }
{
    on_held!(handle, Held::Saved(saved) => done(u64::from(saved.floor())), else plain)
}

/// Sets the floor: reads skip all cycles below this one.
#[unsafe(no_mangle)]
pub extern "C" fn linnetshelf_saved_set_floor(handle: &mut Handle, floor: u32) -> u32
    ensures { OnSaved handle.old.held handle.new.held (result ≡ number WrongKind) (λ old new.
        (result ≡ number Done) × (new ≡ with_contents old (record old.contents { floor = floor }))) }
{
    on_held!(handle, Held::Saved(saved) => {
        saved.set_floor(floor);
        Status::Done.number()
    }, else Status::number)
}

/// Hands out the first endpoint of a queue that holds what is saved, with the last of its cycles current. What is
/// saved stays as it is. `Saved::open` says which contents are refused as `BadContents`.
#[unsafe(no_mangle)]
pub extern "C" fn linnetshelf_open(alloc: Global, handle: &mut Handle, out: &mut Handle) -> u32
    ensures { OnSaved handle.old.held handle.new.held
        ((result ≡ number WrongKind) × (out.new.held ≡ out.old.held)) (λ old new.
        Tells (Opens old out.old.held out.new.held) number result × (new ≡ old)) }
{
    on_held!(handle, Held::Saved(saved) => open(alloc, saved, out).number(), else Status::number)
}

/// Hands out the first endpoint of a queue that holds what is saved.
fn open(alloc: Global, saved: &Saved, out: &mut Handle) -> Status
    ensures { Opens saved.now out.old.held out.new.held result }
{
    match saved.open(alloc) {
        Ok(endpoint) => hand_out(alloc, Held::Endpoint(endpoint), out),
        Err(CreateError::BadContents) => Status::BadContents,
        Err(CreateError::OutOfMemory) => Status::OutOfMemory,
        Err(CreateError::BadMoment) => unreachable!(),
    }
}
