//! The variables of a callback, in their order.

use flt_graph::{ContextVariable, NumberVariable, RemovedVariable};

pub const NUMBERS: [NumberVariable; 8] = [
    NumberVariable::N0,
    NumberVariable::N1,
    NumberVariable::N2,
    NumberVariable::N3,
    NumberVariable::N4,
    NumberVariable::N5,
    NumberVariable::N6,
    NumberVariable::N7,
];

pub const CONTEXTS: [ContextVariable; 9] = [
    ContextVariable::C0,
    ContextVariable::C1,
    ContextVariable::C2,
    ContextVariable::C3,
    ContextVariable::C4,
    ContextVariable::C5,
    ContextVariable::C6,
    ContextVariable::C7,
    ContextVariable::Arg,
];

/// The variables for operations that were removed from a queue.
pub const REMOVED: [RemovedVariable; 4] = [
    RemovedVariable::O0,
    RemovedVariable::O1,
    RemovedVariable::O2,
    RemovedVariable::O3,
];
