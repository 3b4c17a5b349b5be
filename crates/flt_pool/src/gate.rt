//! Gates, at which a worker can be held up.

/// A gate, which a worker calls before each change that it makes. A test holds one worker here until another has come as far.
pub trait Gate {
    /// Before a change of the worker. `n` is how often it was called for this worker before. Workers have numbers from 0.
    fn before(&mut self, worker: usize, n: u64);
}
