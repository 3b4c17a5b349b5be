//! Findings: the rules that points break, and their subjects.

ghost use Rattle.std.specs.Prelude.{◌≡◌, ◌<◌};
ghost use Rattle.flt_rules.specs.Call.{place_of};
ghost use Rattle.flt_explain.specs.Subjects as spec;

use flt_graph::{ContextVariable, OperationVariable};
use flt_rules::{LockNumber, Rule};

/// The subject of a broken rule.
#[derive(Clone, Copy)]
pub enum Subject {
    Context(ContextVariable),
    Operation(OperationVariable),
    /// Whether the operation is fast I/O.
    Mode,
    /// Whether FLTFL_POST_OPERATION_DRAINING may be set.
    Draining,
    Lock(LockNumber),
    /// The call itself, at its level and its place.
    Call,
    /// The status itself, or that there is none.
    Status,
}

/// A rule that a point breaks, and its subject.
#[derive(Clone, Copy)]
pub struct Fault {
    pub rule: Rule,
    pub subject: Subject,
}

/// A fault, and where it is. Callbacks and points count from 0, lines from 1.
#[derive(Clone, Copy)]
pub struct Finding {
    pub callback: usize,
    pub point: usize,
    pub line: usize,
    pub rule: Rule,
    pub subject: Subject,
}

impl Subject {
    /// The place of the subject among all: the variables, mode and draining, the locks, the call and the status.
    pub(crate) fn place(self) -> usize
        ensures value { result ≡ spec.place self }
        ensures within { result < 26 }
    {
        match self {
            Subject::Context(variable) => variable.place(),
            Subject::Operation(variable) => 9 + variable.place(),
            Subject::Mode => 14,
            Subject::Draining => 15,
            Subject::Lock(lock) => 16 + lock_place(lock),
            Subject::Call => 24,
            Subject::Status => 25,
        }
    }
}

/// The place of a lock among the declared ones, from 0.
pub(crate) fn lock_place(lock: LockNumber) -> usize
    ensures value { result ≡ place_of lock }
    ensures within { result < 8 }
{
    match lock {
        LockNumber::L0 => 0,
        LockNumber::L1 => 1,
        LockNumber::L2 => 2,
        LockNumber::L3 => 3,
        LockNumber::L4 => 4,
        LockNumber::L5 => 5,
        LockNumber::L6 => 6,
        LockNumber::L7 => 7,
    }
}

impl Finding {
    /// Whether both have the same callback, point, rule and subject.
    pub(crate) fn is_same(&self, other: &Finding) -> bool
        ensures { result ≡ spec.is_same_finding self.now other.now }
    {
        self.callback == other.callback
            && self.point == other.point
            && flt_rules::number(self.rule) == flt_rules::number(other.rule)
            && self.subject.place() == other.subject.place()
    }
}
