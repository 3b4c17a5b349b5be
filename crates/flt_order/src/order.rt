//! The order of locks: one after the other gets its rank, each while none of those that have none yet is held where it is taken.

ghost use Rattle.std.specs.Prelude.{◌≡◌, ◌<◌, ◌⊎◌, ℕ, length, slice_set, Some, true, false, IfSome, IfNone};
ghost use Rattle.flt_order.specs.Order as spec;
ghost use Rattle.flt_check.specs.Covering.{count_at};
ghost use Rattle.flt_rules.specs.Call.{place_of};
ghost use Rattle.flt_rules.specs.Held.{holds_lock};

use flt_cert::FullCert;
use flt_graph::{Graph, Instruction};
use flt_rules::{Call, HeldLock, LockNumber};

/// A callback takes a lock at a point while it holds another. Callbacks and points count from 0, lines from 1.
#[derive(Clone, Copy)]
pub struct Acquisition {
    pub callback: usize,
    pub point: usize,
    pub line: usize,
    pub taken: LockNumber,
    pub holding: LockNumber,
}

/// The lock that an instruction takes.
fn taken_by(instruction: Instruction) -> Option<LockNumber>
    ensures { result ≡ spec.taken_by instruction }
{
    match instruction {
        Instruction::Call(call, _, _) => {
            let roles = call.roles();
            match roles.call {
                Call::AcquireLock(_) => roles.lock,
                Call::AcquirePushLockShared => roles.lock,
                _ => None,
            }
        }
        _ => None,
    }
}

/// Whether a lock is left.
pub(crate) fn is_left(left: &[bool; 8], lock: LockNumber) -> bool
    ensures { result ≡ spec.is_left left.now lock }
{
    left.get(usize::from(lock.place()))
        .copied()
        .unwrap_or(false)
}

/// The first held lock that is left.
fn first_left(locks: &[HeldLock], left: &[bool; 8]) -> Option<LockNumber>
    ensures some { IfSome result (λ l. (holds_lock l locks.now ≡ true) × (spec.is_left left.now l ≡ true)) }
    ensures none { IfNone result (spec.NoneLeft left.now locks.now) }
{
    for held in locks {
        if is_left(left, held.lock) {
            return Some(held.lock);
        }
    }
    None
}

/// An acquisition of the lock at a point, with a lock that is left.
fn from_point(
    graph: &Graph,
    cert: &FullCert,
    left: &[bool; 8],
    lock: LockNumber,
    callback: usize,
    point: usize,
) -> Option<Acquisition>
    ensures some { IfSome result (spec.IsFrom graph.now cert.now left.now lock) }
    ensures none { IfNone result (spec.FreeAt graph.now cert.now left.now lock callback point) }
{
    let state = cert.state(callback, point)?;
    let taken = taken_by(graph.instruction(callback, point))?;
    if taken != lock {
        return None;
    }
    let holding = first_left(state.locks().as_slice(), left)?;
    Some(Acquisition {
        callback,
        point,
        line: graph.line(callback, point),
        taken,
        holding,
    })
}

/// An acquisition of the lock in a callback, with a lock that is left.
fn from_callback(
    graph: &Graph,
    cert: &FullCert,
    left: &[bool; 8],
    lock: LockNumber,
    callback: usize,
) -> Option<Acquisition>
    ensures some { IfSome result (spec.IsFrom graph.now cert.now left.now lock) }
    ensures none { IfNone result (spec.FreeBefore graph.now cert.now left.now lock callback (count_at cert.now callback)) }
{
    for point in 0..cert.points(callback).len() {
        if let Some(found) = from_point(graph, cert, left, lock, callback, point) {
            return Some(found);
        }
    }
    None
}

/// An acquisition of the lock that holds one that is left; none if it is taken only while none that is left is held.
pub(crate) fn taken_from(
    graph: &Graph,
    cert: &FullCert,
    left: &[bool; 8],
    lock: LockNumber,
) -> Option<Acquisition>
    ensures some { IfSome result (spec.IsFrom graph.now cert.now left.now lock) }
    ensures none { IfNone result (spec.IsFree graph.now cert.now left.now lock) }
{
    for callback in 0..cert.callbacks().len() {
        if let Some(found) = from_callback(graph, cert, left, lock, callback) {
            return Some(found);
        }
    }
    None
}

/// Whether a lock is left that is taken only where none that is left is held.
fn is_next(graph: &Graph, cert: &FullCert, left: &[bool; 8], lock: LockNumber) -> bool
    ensures yes { result ≡ true → (spec.is_left left.now lock ≡ true) × spec.IsFree graph.now cert.now left.now lock }
    ensures no_ { result ≡ false → spec.is_left left.now lock ≡ true → spec.IsTaken graph.now cert.now left.now lock }
{
    is_left(left, lock) && taken_from(graph, cert, left, lock).is_none()
}

/// A lock that is left and is taken only where none that is left is held.
fn next_free(graph: &Graph, cert: &FullCert, left: &[bool; 8]) -> Option<LockNumber>
    ensures some { IfSome result (λ l. (spec.is_left left.now l ≡ true) × spec.IsFree graph.now cert.now left.now l) }
    ensures none { IfNone result (spec.AreTakenBefore graph.now cert.now left.now 8) }
{
    for place in 0..8usize {
        if let Some(lock) = LockNumber::at(place) {
            if is_next(graph, cert, left, lock) {
                return Some(lock);
            }
        }
    }
    None
}

/// The lock is left no longer.
#[tactic(auto, using(crate::proofs::Places::place_below))]
pub(crate) fn remove(left: &mut [bool; 8], lock: LockNumber)
    ensures { left.new ≡ slice_set left.old (place_of lock) false }
{
    left[usize::from(lock.place())] = false;
}

/// A lock that is left.
pub(crate) fn any_left(left: &[bool; 8]) -> Option<LockNumber>
    ensures some { IfSome result (λ l. spec.is_left left.now l ≡ true) }
    ensures none { IfNone result ((l : LockNumber) → place_of l < 8 → spec.is_left left.now l ≡ false) }
{
    for place in 0..8usize {
        if let Some(lock) = LockNumber::at(place) {
            if is_left(left, lock) {
                return Some(lock);
            }
        }
    }
    None
}

/// The locks that are left when locks are taken away one after the other, each only if none that is left is held while it is taken.
pub(crate) fn reduce(graph: &Graph, cert: &FullCert) -> [bool; 8]
    ensures ranked { spec.AreRanked graph.now cert.now result 8 }
    ensures rest { (spec.count_left result ≡ 0) ⊎ spec.AreTakenBefore graph.now cert.now result 8 }
{
    let mut left = [true; 8];
    for round in 0..8usize {
        match next_free(graph, cert, &left) {
            Some(lock) => remove(&mut left, lock),
            None => return left,
        }
    }
    left
}
