//! All operands, in the order in which they are reported.

use crate::finding::Subject;
use flt_graph::{ContextVariable, OperationVariable, RemovedVariable};
use flt_rules::LockNumber;

pub(crate) const OPERANDS: [Subject; 24] = [
    Subject::Context(ContextVariable::C0),
    Subject::Context(ContextVariable::C1),
    Subject::Context(ContextVariable::C2),
    Subject::Context(ContextVariable::C3),
    Subject::Context(ContextVariable::C4),
    Subject::Context(ContextVariable::C5),
    Subject::Context(ContextVariable::C6),
    Subject::Context(ContextVariable::C7),
    Subject::Context(ContextVariable::Arg),
    Subject::Operation(OperationVariable::Removed(RemovedVariable::O0)),
    Subject::Operation(OperationVariable::Removed(RemovedVariable::O1)),
    Subject::Operation(OperationVariable::Removed(RemovedVariable::O2)),
    Subject::Operation(OperationVariable::Removed(RemovedVariable::O3)),
    Subject::Operation(OperationVariable::Data),
    Subject::Mode,
    Subject::Draining,
    Subject::Lock(LockNumber::L0),
    Subject::Lock(LockNumber::L1),
    Subject::Lock(LockNumber::L2),
    Subject::Lock(LockNumber::L3),
    Subject::Lock(LockNumber::L4),
    Subject::Lock(LockNumber::L5),
    Subject::Lock(LockNumber::L6),
    Subject::Lock(LockNumber::L7),
];
