//! The locks that an activation holds.

ghost use Rattle.std.specs.Prelude.{◌≡◌, ◌↔◌, ◌+◌, ◌<◌, ◌≤◌, [], ◌∷◌, ◌++◌, ◌&&◌, not, length, IsTrue};
ghost use Rattle.std.specs.Cmp.Lexicographic.{pointwise};
ghost use Rattle.flt_rules.specs.Held as rules;

use flt_rules::{Access, HeldLock, LockNumber};
use std::marker::Model;

/// The value of an unused place.
const NO_LOCK: HeldLock = HeldLock {
    lock: LockNumber::L0,
    access: Access::Exclusive,
};

/// The locks that an activation holds, the oldest first, at most eight. Unused places are blank, so that equal lists are equal values.
#[derive(Clone, Copy)]
pub struct HeldLocks {
    locks: [HeldLock; 8],
    used: usize,
}

impl Model for HeldLocks {
    ghost use Rattle.std.specs.Prelude.{List, length, take};
    ghost use Rattle.flt_rules.specs.declared.held.HeldLock.{HeldLock};

    ghost Value = { List HeldLock };

    ghost use Rattle.flt_machine_frames.specs.Padded.{IsPadded, padded};
    ghost use Rattle.flt_machine_frames.specs.HeldLocks.{no_lock};

    ghost view = { λ h. take h.used h.locks };

    ghost invariant = { λ h. IsPadded HeldLock 8 no_lock h.locks h.used };

    ghost inverse = { λ locks. record { locks = padded 8 no_lock locks; used = length locks } };

    ghost inverse_ok = { λ h p i. record { locks = p.filled i; used = p.counted i } };
}

/// Whether two lists have the same locks, each with the same access.
fn are_same(left: &[HeldLock], right: &[HeldLock]) -> bool
    ensures { result ≡ pointwise rules.same_held left.now right.now }
{
    match left {
        [] => right.is_empty(),
        [first, rest @ ..] => match right {
            [] => false,
            [other, others @ ..] => first.is_same(*other) && are_same(rest, others),
        },
    }
}

/// Whether the lock is among some, exclusively or shared.
fn holds_lock(lock: LockNumber, locks: &[HeldLock]) -> bool
    ensures { result ≡ rules.holds_lock lock locks.now }
{
    locks.iter().any(|held| lock.is_same(held.lock))
}

/// Whether a lock's last entry is the first of some.
fn is_last(lock: LockNumber, first: HeldLock, rest: &[HeldLock]) -> bool
    ensures { result ≡ (rules.same_lock lock first.lock && not (rules.holds_lock lock rest.now)) }
{
    lock.is_same(first.lock) && !holds_lock(lock, rest)
}

/// Adds locks to some, without the last entry of one.
#[tactic(auto, using(crate::proofs::Parts::last_goes, crate::proofs::Parts::other_stays))]
fn keep(kept: &mut HeldLocks, lock: LockNumber, locks: &[HeldLock])
    requires { length kept.old + length locks.now ≤ 8 }
    ensures { kept.new ≡ kept.old ++ rules.without_last lock locks.now }
{
    let [first, rest @ ..] = locks else {
        return;
    };
    if is_last(lock, *first, rest) {
        return keep(kept, lock, rest);
    }
    kept.take(*first);
    keep(kept, lock, rest);
}

impl HeldLocks {
    /// No lock.
    pub(crate) fn none() -> HeldLocks
        ensures { result ≡ [] }
    {
        HeldLocks {
            locks: [NO_LOCK; 8],
            used: 0,
        }
    }

    /// The locks, the oldest first.
    pub fn as_slice(&self) -> &[HeldLock]
        ensures value { result.now ≡ self.now }
        ensures few { length self.now ≤ 8 }
    {
        &self.locks[..self.used]
    }

    /// Takes a lock, as the latest.
    pub fn take(&mut self, lock: HeldLock)
        requires { length self.old < 8 }
        ensures { self.new ≡ self.old ++ lock ∷ [] }
    {
        self.locks[self.used] = lock;
        self.used += 1;
    }

    /// Gives a lock up: its last entry goes, however the lock is held.
    pub fn give_up(&mut self, lock: LockNumber)
        ensures { self.new ≡ rules.without_last lock self.old }
    {
        let locks = *self;
        let mut kept = HeldLocks::none();
        keep(&mut kept, lock, locks.as_slice());
        *self = kept;
    }

    pub(crate) fn is_same(&self, other: &HeldLocks) -> bool
        ensures { IsTrue result ↔ (self.now ≡ other.now) }
    {
        are_same(self.as_slice(), other.as_slice())
    }
}
