//! Hands: the tickets that go through a pass.

use crate::Ticket;
use std::collections::LinkedList;

/// The tickets that were put into one deque, or into the injector, and those that were taken from it, through one pass.
///
/// Contracts alone speak of hands; no value of this type is made.
pub struct Hand {
    /// The tickets that were put, in order.
    pub put: LinkedList<Ticket>,
    /// The tickets that were taken, in order.
    pub taken: LinkedList<Ticket>,
}
