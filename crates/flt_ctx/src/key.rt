//! The streams and instances that a context can be linked to.

/// A stream, by the number of its file, or the instance itself.
#[derive(Clone, Copy, PartialEq)]
pub enum Target {
    Stream(u32),
    Instance,
}

/// A stream or the instance of a filter, by the filter's number.
#[derive(Clone, Copy, PartialEq)]
pub struct Key {
    pub filter: usize,
    pub target: Target,
}
