//! The faults at a point in a single situation.

ghost use Rattle.std.specs.Prelude.{◌≡◌, IfOk, Ok};
ghost use Rattle.flt_explain.specs.Subjects.{place as place_of_subject};
ghost use Rattle.flt_explain_origins.specs.Ways as spec;

use flt_abs::{LockList, transfer};
use flt_explain::{Fault, Finding, Subject, faults};
use flt_explain_origins::Situation;
use flt_graph::Graph;
use std::alloc::{AllocError, Global};

/// The place of a subject among all: the variables, mode and draining, the locks, the call and the status.
fn place(subject: Subject) -> usize
    ensures { result ≡ place_of_subject subject }
{
    match subject {
        Subject::Context(variable) => variable.place(),
        Subject::Operation(variable) => 9 + variable.place(),
        Subject::Mode => 14,
        Subject::Draining => 15,
        Subject::Lock(lock) => 16 + lock.place() as usize,
        Subject::Call => 24,
        Subject::Status => 25,
    }
}

fn is_fault_of(finding: &Finding, fault: &Fault) -> bool
    ensures { result ≡ spec.is_fault_of finding.now fault.now }
{
    flt_rules::number(fault.rule) == flt_rules::number(finding.rule)
        && place(fault.subject) == place(finding.subject)
}

/// Whether no rule is broken at a point.
#[tactic(auto, using(crate::proofs::Breaking::ok_where_none))]
pub(crate) fn breaks_nothing(
    graph: &Graph,
    callback: usize,
    point: usize,
    situation: &Situation,
) -> bool
    ensures { result ≡ spec.breaks_nothing graph.now callback point situation.now }
{
    let outcome = transfer(graph, callback, point, situation.state());
    outcome.is_ok()
}

fn is_among(faults: &[Fault], finding: &Finding) -> bool
    ensures { result ≡ spec.is_among faults.now finding.now }
{
    faults.iter().any(|fault| is_fault_of(finding, fault))
}

/// Whether the finding holds at its point in a situation.
pub(crate) fn is_found_in(
    alloc: Global,
    graph: &Graph,
    finding: &Finding,
    situation: &Situation,
) -> Result<bool, AllocError>
    ensures { IfOk result (λ b. b ≡ spec.is_found_in graph.now finding.now situation.now) }
{
    let faults = faults(
        alloc,
        graph,
        finding.callback,
        finding.point,
        situation.state(),
    )?;
    Ok(is_among(faults.as_slice(), finding))
}

/// Whether this is a lock that is held.
fn is_held_lock(subject: Subject, locks: &LockList) -> bool
    ensures { result ≡ spec.is_held_lock subject locks.now }
{
    match subject {
        Subject::Lock(lock) => locks.contains(lock),
        _ => false,
    }
}

/// Whether two lists have different locks, or the same in another manner or order, and at least one has the lock that is the subject.
pub(crate) fn are_lists_apart(subject: Subject, a: &LockList, b: &LockList) -> bool
    ensures { result ≡ spec.are_lists_apart subject a.now b.now }
{
    !a.is_same(b) && (is_held_lock(subject, a) || is_held_lock(subject, b))
}

/// Whether the lock lists of two situations are apart in this sense.
pub(crate) fn are_apart(subject: Subject, a: &Situation, b: &Situation) -> bool
    ensures { result ≡ spec.are_apart subject a.now b.now }
{
    are_lists_apart(subject, a.state().locks(), b.state().locks())
}
