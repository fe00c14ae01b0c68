//! What calls return to C that copy bytes into a buffer.
ghost use Rattle.std.specs.Prelude.{◌≡◌};
ghost use Rattle.linnetshelf.specs.Told.{copied_answer, copy_answer, name_answer};

use crate::answer::{Answer, plain};
use crate::rooms::{read, too_long};
use crate::status::Status;
use cq_foreign::Copied;

/// Makes the answer of a copy.
pub(crate) fn copied_answer(came: Copied) -> Answer
    ensures { result ≡ copied_answer came }
{
    match came {
        Copied::Whole(length) => read(0, length),
        Copied::NoRoom(length) => too_long(length),
    }
}

/// Makes the answer of a copy that may be refused.
pub(crate) fn copy_answer(said: Result<Copied, Status>) -> Answer
    ensures { result ≡ copy_answer said }
{
    match said {
        Ok(came) => copied_answer(came),
        Err(status) => plain(status),
    }
}

/// Makes the answer of `names_of`.
pub(crate) fn name_answer(said: Option<Copied>) -> Answer
    ensures { result ≡ name_answer said }
{
    match said {
        Some(came) => copied_answer(came),
        None => plain(Status::NoSuchPlace),
    }
}
