//! The entries of queues.

/// A pended operation's visit by its number, with the context that was given with it.
#[derive(Clone, Copy, Debug, PartialEq, Eq)]
pub struct Entry {
    pub visit: usize,
    /// The number of a context, if one was given.
    pub context: Option<usize>,
}
