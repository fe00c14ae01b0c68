//! How the queue of an endpoint was made, or what is saved of one.
ghost use Rattle.std.specs.Prelude.{◌≡◌, length};
ghost use Rattle.cq_foreign.specs.Names.{CopiesTailer};
ghost use Rattle.linnetshelf.specs.Answers.{Tells, done, plain};
ghost use Rattle.linnetshelf.specs.Told.{OnSettings, name_answer, settings_for};
ghost use Rattle.linnetshelf.specs.declared.status.Status.TheVariants.{WrongKind};

use crate::answer::{Answer, done, plain};
use crate::copying::name_answer;
use crate::settings::{Settings, settings_of};
use crate::status::Status;
use cq_foreign::tailer_into;
use cq_handle::{Handle, Held};
use cq_model::Config;

/// Writes the settings of an endpoint's queue, or of what is saved, to `settings`. Returns how many names it declares.
#[unsafe(no_mangle)]
pub extern "C" fn linnetshelf_settings_of(handle: &mut Handle, settings: &mut Settings) -> Answer
    ensures { OnSettings handle.old.held handle.new.held
        ((result ≡ plain WrongKind) × (settings.new ≡ settings.old)) (λ made.
        (result ≡ done (length made.names)) × (settings.new ≡ settings_for made)) }
{
    match handle.held_mut() {
        Held::Endpoint(endpoint) => write_settings(endpoint.config(), settings),
        Held::Saved(saved) => write_settings(saved.config(), settings),
        Held::Stopped(_) | Held::Keeper(_) | Held::Shelf(_) => plain(Status::WrongKind),
    }
}

fn write_settings(config: &Config, settings: &mut Settings) -> Answer
    ensures count { result ≡ done (length config.now.names) }
    ensures written { settings.new ≡ settings_for config.now }
{
    *settings = settings_of(config);
    done(config.names().len() as u64)
}

/// Copies the name that the queue of an endpoint, or what is saved, declares as the `k`th, counted from 0, to the front of a
/// buffer. Returns its length.
///
/// - `NoSuchPlace`: fewer names are declared.
/// - `NoRoom`: the buffer is smaller. The answer has the length, and nothing is copied.
#[unsafe(no_mangle)]
pub extern "C" fn linnetshelf_names_of(handle: &mut Handle, k: u32, room: &mut [u8]) -> Answer
    ensures { OnSettings handle.old.held handle.new.held ((result ≡ plain WrongKind) × (room.new ≡ room.old)) (λ made.
        Tells (CopiesTailer made.names k room.old room.new) name_answer result) }
{
    match handle.held_mut() {
        Held::Endpoint(endpoint) => {
            name_answer(tailer_into(endpoint.config(), k as usize, room))
        }
        Held::Saved(saved) => name_answer(tailer_into(saved.config(), k as usize, room)),
        Held::Stopped(_) | Held::Keeper(_) | Held::Shelf(_) => plain(Status::WrongKind),
    }
}
