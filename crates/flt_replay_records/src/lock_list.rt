//! The locks that an activation holds, the oldest first.

ghost use Rattle.std.specs.Prelude.{◌≡◌, ◌<◌, length, remove, is_some, IfSome, MatchOption};
ghost use Rattle.flt_rules.specs.Held as spec;

use crate::going::Going;
use flt_rules::{HeldLock, LockNumber};

/// Whether a lock is among some, held with either access.
pub fn holds_lock(lock: LockNumber, locks: &[HeldLock]) -> bool
    ensures { result ≡ spec.holds_lock lock locks.now }
{
    locks.iter().any(|held| lock.is_same(held.lock))
}

/// The place of the last entry of the lock.
fn last_place(lock: LockNumber, locks: &[HeldLock]) -> Option<usize>
    ensures held { spec.holds_lock lock locks.now ≡ is_some result }
    ensures within { IfSome result (λ at. at < length locks.now) }
    ensures last { MatchOption result (spec.without_last lock locks.now ≡ locks.now)
        (λ at. spec.without_last lock locks.now ≡ remove locks.now at) }
{
    let [first, others @ ..] = locks else {
        return None;
    };
    match last_place(lock, others) {
        Some(at) => Some(at + 1),
        None if lock.is_same(first.lock) => Some(0),
        None => None,
    }
}

impl<'a> Going<'a> {
    /// The locks that the activation holds.
    pub(crate) fn locks(&self) -> &[HeldLock]
        ensures { result.now ≡ self.now.locks }
    {
        self.kept.locks()
    }

    /// Whether the activation took the lock and didn't give it up.
    pub(crate) fn holds_lock(&self, lock: LockNumber) -> bool
        ensures { result ≡ spec.holds_lock lock self.now.locks }
    {
        holds_lock(lock, self.locks())
    }

    /// Takes the last entry of the lock out of the list, of either kind.
    pub(crate) fn remove_lock(&mut self, lock: LockNumber)
        ensures { self.new ≡ record self.old { locks = spec.without_last lock self.old.locks } }
    {
        if let Some(place) = last_place(lock, self.locks()) {
            self.kept.remove_lock(place);
        }
    }
}
