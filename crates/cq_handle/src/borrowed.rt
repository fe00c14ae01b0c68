// `held_mut` has a file of its own: its clause names the row of `Handle`, which the file that declares it cannot
// import.
ghost use Rattle.std.specs.Prelude.{◌≡◌};
ghost use types.Logic.{sem};
ghost use denote.Follow.{follows};
ghost use Rattle.cq_handle.specs.contracts.handle.Handle.{the_row};
ghost use Rattle.cq_handle.specs.contracts.held.Held.{the_row as held_row};
ghost use Rattle.cq_handle.specs.Borrowed.{with_held};

use crate::handle::Handle;
use crate::held::Held;

impl Handle {
    /// Returns what a handle holds, to read or to change.
    pub fn held_mut(&mut self) -> &mut Held
        ensures* writes_back { sem 𝓛 (follows the_row held_row self.entry.ghost_name result.ghost_name (with_held self.old)) }
        ensures value { result.now ≡ self.old.held }
    {
        unsafe { &mut *(self.at as *mut Held) }
    }
}
