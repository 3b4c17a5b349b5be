//! The subjects of moves that may come next.

/// A subject waits for a move to be made: a worker takes one, and makes the move that comes next for it. Numbers are those of moves.
#[derive(Clone, Copy, PartialEq, Eq)]
pub enum Subject {
    /// An operation that is neither done nor in a visit, by its serial number.
    Operation(u32),
    /// An activation that continues.
    Activation(u32),
    /// A queued work item.
    Item(u32),
    /// An entry of a filter's queue whose operation is cancelled, or whose filter is being detached.
    Entry { altitude: u32, serial: u32 },
    /// The teardown of the filter at an altitude.
    Detach(u32),
}
