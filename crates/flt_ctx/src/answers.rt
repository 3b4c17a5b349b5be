//! The answers of calls.

/// Whether a call dropped a context's last reference.
#[derive(Clone, Copy, PartialEq)]
pub enum Release {
    /// The last reference is gone: the context is freed.
    Freed,
    /// References are left, none was dropped, or the context was freed before.
    Alive,
}

/// A context that lost its link, and whether it was freed if the link's reference was dropped.
#[derive(Clone, Copy, PartialEq)]
pub struct UnlinkedContext {
    pub context: usize,
    pub release: Release,
}

/// How setting a context ended.
#[derive(Clone, Copy, PartialEq)]
pub enum SetAnswer {
    /// The context is linked; the one that was linked there before isn't any more.
    Done(Option<UnlinkedContext>),
    /// The filter is closed.
    Deleting,
    /// The context is linked already, or freed.
    Linked,
    /// This other context is linked there and stays. It has one reference more if the caller wanted it.
    Defined(usize),
}
