//! A seat, and its views.

use crate::Step;
use crate::words::Token;
use std::collections::LinkedList;

/// A seat's view of the requests or of the marks.
///
/// Contracts alone speak of views; no value of this type is made.
pub struct View {
    /// The serials that the seat requested, in order.
    pub asked: LinkedList<u32>,
    /// The serials that it collected, in order.
    pub collected: LinkedList<u32>,
    /// Every step there up to the seat's last, which comes first; none before the seat's first.
    pub seen: LinkedList<Step>,
}

/// A right to ask and to collect on the pads that gave it. It has no bytes, and may go to another thread.
#[derive(Drop)]
pub struct Seat {
    /// The right to ask and to collect among the requests.
    pub(crate) token: Token,
    /// The same among the marks.
    pub(crate) mark: Token,
}
