/// Is called before and after each call of the workers of a race. Workers 0 and 1 append, 2 and 3 read. Each numbers
/// its calls from 0.
pub trait Gate {
    /// Returns whether a worker may make its next call, which has this number. If not, the race is given up.
    fn enter(&self, worker: usize, call: u64) -> bool;

    /// Is called when the call has returned.
    fn answered(&self, worker: usize, call: u64);
}

/// A gate that lets every call pass.
#[derive(Drop)]
pub struct OpenGate;

impl Gate for OpenGate {
    fn enter(&self, _worker: usize, _call: u64) -> bool {
        true
    }

    fn answered(&self, _worker: usize, _call: u64) {}
}
