//! Calls on what a handle holds.

/// Makes a call on what a handle holds, where that is of this kind. Anything else stays as it is. The answer is then made of
/// `WrongKind`, by the function after `else`.
macro_rules! on_held {
    ($handle:expr, $kind:pat => $said:expr, else $answer:path) => {
        match $handle.held_mut() {
            $kind => $said,
            _ => $answer($crate::status::Status::WrongKind),
        }
    };
}

pub(crate) use on_held;
