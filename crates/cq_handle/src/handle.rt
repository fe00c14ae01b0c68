ghost use Rattle.std.specs.Prelude.{◌≡◌, IfOk, MatchOption, None, Option, Some};
ghost use Rattle.cq_handle.specs.declared.held.Held.{Held};
ghost use Rattle.cq_handle.specs.Handles.{handle_owns, held_coded, optional_coded, optional_owns};

use crate::held::Held;
use crate::parts::Parts;
use std::alloc::{AllocError, Global};
use std::marker::Model;

/// Something that the library holds, of which C sees only its address. A handle that is dropped does not free its
/// memory. It owns what a box of the same value owns: it can be made from a box, and turned back into one.
#[repr(C)]
#[derive(Drop)]
pub struct Handle {
    pub(crate) at: *mut u8,
    alloc: Global,
    pub ghost held: { Held } by { held_coded },
}

impl Model for Handle {
    ghost also_owns = { λ h. handle_owns h.alloc h.at h.held };
}

impl Handle {
    /// Makes a handle of this. Returns `AllocError` if there is no memory for it; the value is dropped then.
    pub fn new(alloc: Global, held: Held) -> Result<Handle, AllocError>
        ensures { IfOk result (λ handle. handle.held ≡ held) }
    {
        Ok(Handle::of(Box::new(alloc, held)?))
    }

    /// Makes the handle of a box.
    pub fn of(held: Box<Held>) -> Handle
        ensures { result.held ≡ held.value }
    {
        Handle::of_parts(Parts::of(held))
    }

    /// Turns a handle back into its box.
    pub fn into_box(self) -> Box<Held>
        ensures { result.value ≡ self.held }
    {
        self.into_parts().into_box()
    }

    fn of_parts(parts: Parts<Held, Global>) -> Handle
        ensures { result.held ≡ parts.value }
    {
        let Parts { ptr, alloc } = parts;
        Handle {
            at: ptr as *mut u8,
            alloc,
        }
    }

    fn into_parts(self) -> Parts<Held, Global>
        ensures { result.value ≡ self.held }
    {
        let Handle { at, alloc } = self;
        Parts {
            ptr: at as *mut Held,
            alloc,
        }
    }
}

/// A handle, or a zero one, which holds nothing. C passes it where a call takes either.
#[repr(C)]
#[derive(Drop)]
pub struct OptionalHandle {
    at: *mut u8,
    alloc: Global,
    pub ghost held: { Option Held } by { optional_coded },
}

impl Model for OptionalHandle {
    ghost also_owns = { λ h. optional_owns h.alloc h.at h.held };
}

impl OptionalHandle {
    /// Returns the handle, if it is not zero.
    pub fn handle(self) -> Option<Handle>
        ensures { MatchOption result (self.held ≡ None) (λ handle. self.held ≡ Some handle.held) }
    {
        let OptionalHandle { at, alloc } = self;
        if at.is_null() {
            None
        } else {
            Some(Handle { at, alloc })
        }
    }
}
