//! The handle by which C and other languages hold an endpoint, a keeper, a stopped queue, a saved one, or a writer, a reader
//! or a taker of a shelf. It is an address, and its type owns what lives there.
//!
//! | item | what it is for |
//! |---|---|
//! | `Handle::new`, `of` | make a handle of a value or of a box |
//! | `Handle::held_mut`, `into_box` | give access to the value, or the box back |
//! | `OptionalHandle::handle` | takes a handle that may be zero |
//! | `Held` | what a handle holds |
//! | `ShelfUser` | what it holds of a shelf: a writer, a reader or a taker |
//!
//! `Parts` and the proofs of `Handle` are those of a box that is kept as its address.
#![tactic(auto)]

mod borrowed;
mod handle;
mod held;
mod parts;

pub use handle::{Handle, OptionalHandle};
pub use held::{Held, ShelfUser};
