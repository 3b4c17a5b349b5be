//! Locks on which the paths to a point disagree.

ghost use Rattle.std.specs.Prelude.{◌≡◌, ◌&&◌, ◌||◌, not};
ghost use Rattle.flt_explain.specs.Locks as spec;

use crate::finding::lock_place;
use flt_abs::LockList;
use flt_rules::LockNumber;

pub(crate) const LOCKS: [LockNumber; 8] = [
    LockNumber::L0,
    LockNumber::L1,
    LockNumber::L2,
    LockNumber::L3,
    LockNumber::L4,
    LockNumber::L5,
    LockNumber::L6,
    LockNumber::L7,
];

/// A set of locks.
#[derive(Clone, Copy)]
pub(crate) struct Locks {
    flags: [bool; 8],
}

/// Whether a flag is set.
fn has_any(flags: &[bool]) -> bool
    ensures { result ≡ spec.has_any flags.now }
{
    match flags {
        [flag, others @ ..] => *flag || has_any(others),
        [] => false,
    }
}

impl Locks {
    pub(crate) fn none() -> Locks
        ensures { result ≡ spec.none }
    {
        Locks { flags: [false; 8] }
    }

    pub(crate) fn contains(&self, lock: LockNumber) -> bool
        ensures { result ≡ spec.contains self.now lock }
    {
        self.flags[lock_place(lock)]
    }

    fn is_in_either(&self, other: &Locks, lock: LockNumber) -> bool
        ensures { result ≡ (spec.contains self.now lock || spec.contains other.now lock) }
    {
        self.contains(lock) || other.contains(lock)
    }

    fn is_in_first(&self, other: &Locks, lock: LockNumber) -> bool
        ensures { result ≡ (spec.contains self.now lock && not (spec.contains other.now lock)) }
    {
        self.contains(lock) && !other.contains(lock)
    }

    /// The locks of both.
    pub(crate) fn union(&self, other: &Locks) -> Locks
        ensures { result ≡ spec.union self.now other.now }
    {
        Locks {
            flags: [
                self.is_in_either(other, LockNumber::L0),
                self.is_in_either(other, LockNumber::L1),
                self.is_in_either(other, LockNumber::L2),
                self.is_in_either(other, LockNumber::L3),
                self.is_in_either(other, LockNumber::L4),
                self.is_in_either(other, LockNumber::L5),
                self.is_in_either(other, LockNumber::L6),
                self.is_in_either(other, LockNumber::L7),
            ],
        }
    }

    /// The locks of this set that aren't in the other.
    pub(crate) fn without(&self, other: &Locks) -> Locks
        ensures { result ≡ spec.without self.now other.now }
    {
        Locks {
            flags: [
                self.is_in_first(other, LockNumber::L0),
                self.is_in_first(other, LockNumber::L1),
                self.is_in_first(other, LockNumber::L2),
                self.is_in_first(other, LockNumber::L3),
                self.is_in_first(other, LockNumber::L4),
                self.is_in_first(other, LockNumber::L5),
                self.is_in_first(other, LockNumber::L6),
                self.is_in_first(other, LockNumber::L7),
            ],
        }
    }

    pub(crate) fn is_empty(&self) -> bool
        ensures { result ≡ spec.is_empty self.now }
    {
        !has_any(&self.flags)
    }

    /// The locks of a list.
    fn of(list: &LockList) -> Locks
        ensures { result ≡ spec.locks_in list.now }
    {
        Locks {
            flags: [
                list.contains(LockNumber::L0),
                list.contains(LockNumber::L1),
                list.contains(LockNumber::L2),
                list.contains(LockNumber::L3),
                list.contains(LockNumber::L4),
                list.contains(LockNumber::L5),
                list.contains(LockNumber::L6),
                list.contains(LockNumber::L7),
            ],
        }
    }

    /// The locks that are in only one of two lists.
    fn in_one(a: &LockList, b: &LockList) -> Locks
        ensures { result ≡ spec.in_one a.now b.now }
    {
        let first = Locks::of(a);
        let second = Locks::of(b);
        first.without(&second).union(&second.without(&first))
    }

    /// The locks by which two lists differ: those that are in only one. All of them if both lists have the same locks, in another order or
    /// held in another manner; none if the lists are the same.
    #[tactic(auto, unfolding(crate::specs::Locks::differing))]
    pub(crate) fn differing(a: &LockList, b: &LockList) -> Locks
        ensures { result ≡ spec.differing a.now b.now }
    {
        if a.is_same(b) {
            return Locks::none();
        }
        let differ = Locks::in_one(a, b);
        if differ.is_empty() {
            Locks::of(a)
        } else {
            differ
        }
    }
}
