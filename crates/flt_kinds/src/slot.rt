//! Where contexts may be.

use flt_graph::ContextVariable;

/// A statement: its callback and its point there, each from 0.
#[derive(Clone, Copy)]
pub struct Spot {
    pub callback: usize,
    pub point: usize,
}

/// Where a context may be.
#[derive(Clone, Copy)]
pub enum Slot {
    /// In the queue, beside an operation.
    Queue,
    /// In a variable, when the statement is next.
    Variable(Spot, ContextVariable),
}

/// How a statement takes a context on.
#[derive(Clone, Copy)]
pub struct Flow {
    /// The variable that has the context before the statement. None if the queue has it.
    pub from: Option<ContextVariable>,
    pub to: Slot,
}
