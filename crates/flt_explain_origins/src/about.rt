//! The fact about the subject of a finding.

ghost use Rattle.std.specs.Prelude.{◌≡◌, IfSome, IsTrue};
ghost use Rattle.flt_explain_origins.specs.Facts.{is_so};
ghost use Rattle.flt_explain_origins.specs.Origins as spec;
ghost use Rattle.flt_rules.specs.Held.{holds_lock};

use crate::facts::{Fact, VariableStatus};
use crate::situation::Situation;
use flt_abs::{Abs, Draining, LockList, Modes, Statuses};
use flt_explain::Subject;
use flt_graph::{ContextVariable, LockNumber, OperationVariable};
use flt_rules::{HeldLock, Mode};

/// The status in a set of one.
fn word_in(set: Statuses) -> VariableStatus
    ensures { result ≡ spec.word_in set }
{
    let digit = set.digit();
    if digit == 1 {
        VariableStatus::Null
    } else if digit == 2 {
        VariableStatus::Held
    } else {
        VariableStatus::Stale
    }
}

/// The mode in a set of one.
fn mode_in(modes: Modes) -> Mode
    ensures { result ≡ spec.mode_in modes }
{
    if modes.digit() == 1 {
        Mode::Irp
    } else {
        Mode::Fast
    }
}

/// The answer in a set of one.
fn draining_in(draining: Draining) -> bool
    ensures { result ≡ spec.draining_in draining }
{
    draining.digit() == 2
}

/// The fact that the last lock was taken, if there is one.
fn latest_taken(locks: &[HeldLock]) -> Option<Fact>
    ensures { result ≡ spec.held_fact (spec.latest_of locks.now) }
{
    match locks {
        [] => None,
        [last] => Some(Fact::Lock(last.lock, true)),
        [_, later @ ..] => latest_taken(later),
    }
}

/// The fact about a subject in a state that means one situation alone.
fn fact_in(subject: Subject, state: &Abs) -> Option<Fact>
    ensures { result ≡ spec.fact_in subject state.now }
{
    match subject {
        Subject::Context(variable) => {
            let set = state.context(variable);
            Some(Fact::Context(variable, word_in(set)))
        }
        Subject::Operation(variable) => {
            let set = state.operation(variable);
            Some(Fact::Operation(variable, word_in(set)))
        }
        Subject::Mode => Some(Fact::Mode(mode_in(state.modes()))),
        Subject::Draining => Some(Fact::Draining(draining_in(state.draining()))),
        Subject::Lock(lock) => Some(Fact::Lock(lock, state.locks().contains(lock))),
        Subject::Call => latest_taken(state.locks().as_slice()),
        Subject::Status => None,
    }
}

/// The fact about a finding's subject in a situation: the status of a variable, the mode, the answer to the draining test, whether a lock
/// is held; of a call, that the last lock was taken, since that raised its level. None of a status, and of a call if no lock is held.
#[tactic(auto, using(crate::proofs::Subjects::alone_in))]
pub fn fact_about(subject: Subject, situation: &Situation) -> Option<Fact>
    ensures value { result ≡ spec.fact_about subject situation.now }
    ensures so { IfSome result (λ f. IsTrue (is_so f situation.now)) }
{
    fact_in(subject, situation.state())
}
