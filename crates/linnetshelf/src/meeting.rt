//! Endpoints of one queue meet.
ghost use Rattle.linnetshelf.specs.Meets.{AreOfOneQueue, Meets};

use crate::status::Status;
use cq_handle::{Handle, Held};

/// Shares what two endpoints of one queue have seen. Afterwards both have seen one history, which begins with what
/// each of them had seen. If one may move, drop cycles or place a name by the end that it was given, the other may
/// too. An appender that has begun a message takes no part.
///
/// Precondition: both are of one queue, as an endpoint is of the queue of the one that it was split off.
#[unsafe(no_mangle)]
pub extern "C" fn linnetshelf_meet(handle: &mut Handle, other: &mut Handle) -> u32
    requires { AreOfOneQueue handle.old.held other.old.held }
    ensures { Meets handle.old.held other.old.held handle.new.held other.new.held result }
{
    let status = match (handle.held_mut(), other.held_mut()) {
        (Held::Endpoint(one), Held::Endpoint(two)) => {
            one.meet(two);
            Status::Done
        }
        (_, _) => Status::WrongKind,
    };
    status.number()
}
