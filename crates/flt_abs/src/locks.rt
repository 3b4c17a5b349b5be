//! Lists of held locks.

ghost use Rattle.std.specs.Prelude.{◌≡◌, ◌<◌, length, IfSome};
ghost use Rattle.std.specs.List.{position};
ghost use Rattle.flt_abs.specs.Locks as spec;
ghost use Rattle.flt_rules.specs.Held as held_spec;
ghost use Rattle.flt_rules.specs.declared.held.HeldLock.{HeldLock};

use flt_rules::{Access, HeldLock, LockNumber};
use smallvec::SmallVec;
use std::alloc::Global;
use std::marker::Model;

/// The locks that are held, the oldest first, each with how it is held. None is in it twice, so there are eight at most and it never takes
/// memory.
#[derive(Drop)]
pub struct LockList {
    locks: SmallVec<HeldLock, 8>,
}

impl Model for LockList {
    ghost use Rattle.std.specs.Prelude.{◌≡◌, List, IsTrue};
    ghost use Rattle.flt_rules.specs.declared.held.HeldLock.{HeldLock};
    ghost use Rattle.flt_abs.specs.Locks.{are_locks};

    ghost Value = { List HeldLock };

    ghost view = { λ l. l.locks.items };

    ghost invariant = { λ l. (l.locks.capacity ≡ 8) × IsTrue (are_locks l.locks.items) };
}

impl LockList {
    ghost use Rattle.std.specs.Prelude.{◌≡◌, ◌↔◌, [], ◌∷◌, ◌++◌, false, IsTrue};

    /// No lock.
    pub fn none(alloc: Global) -> LockList
        ensures { result ≡ [] }
    {
        LockList {
            locks: SmallVec::new(alloc),
        }
    }

    /// The locks, the oldest first.
    pub fn as_slice(&self) -> &[HeldLock]
        ensures value { result.now ≡ self.now }
        ensures locks { IsTrue (spec.are_locks self.now) }
    {
        self.locks.as_slice()
    }

    /// Whether the lock is held, exclusively or shared.
    pub fn contains(&self, lock: LockNumber) -> bool
        ensures { result ≡ held_spec.holds_lock lock self.now }
    {
        self.locks
            .as_slice()
            .iter()
            .any(|held| lock.is_same(held.lock))
    }

    /// Whether the lock is the latest taken.
    pub(crate) fn is_latest(&self, lock: LockNumber) -> bool
        ensures { result ≡ held_spec.is_latest lock self.now }
    {
        match self.locks.as_slice() {
            [.., last] => lock.is_same(last.lock),
            [] => false,
        }
    }

    pub(crate) fn is_empty(&self) -> bool
        ensures { IsTrue result ↔ (self.now ≡ []) }
    {
        self.locks.as_slice().is_empty()
    }

    /// Whether both lists have the same locks in the same order, each with the same access.
    #[tactic(auto, using(crate::specs::LockLaws::same_locks_decides))]
    pub fn is_same(&self, other: &LockList) -> bool
        ensures value { result ≡ held_spec.same_locks self.now other.now }
        ensures meaning { IsTrue result ↔ (self.now ≡ other.now) }
    {
        same_locks(self.locks.as_slice(), other.locks.as_slice())
    }

    /// Becomes the same as another list.
    #[inline(always)]
    pub(crate) fn set_to(&mut self, other: &LockList)
        ensures { self.new ≡ other.now }
    {
        // Mostly no lock is held.
        if !(self.is_empty() && other.is_empty()) {
            self.copy_from(other);
        }
    }

    /// The same, for a list that isn't empty.
    #[inline(never)]
    fn copy_from(&mut self, other: &LockList)
        ensures { self.new ≡ other.now }
    {
        *self = other.copied();
    }

    /// The same list.
    #[tactic(auto, using(crate::specs::LockLaws::eight_at_most))]
    pub(crate) fn copied(&self) -> LockList
        ensures { result ≡ self.now }
    {
        let alloc = *self.locks.allocator();
        // Mostly no lock is held.
        if self.is_empty() {
            return LockList::none(alloc);
        }
        LockList {
            locks: SmallVec::from_slice(alloc, self.locks.as_slice()).unwrap(),
        }
    }

    /// No lock, in the same memory.
    pub(crate) fn emptied(&self) -> LockList
        ensures { result ≡ [] }
    {
        LockList::none(*self.locks.allocator())
    }

    /// Adds a lock that isn't held as the latest.
    #[tactic(auto, using(crate::proofs::LockLemmas::are_locks_more, crate::proofs::LockLemmas::seven_at_most))]
    pub fn take(&mut self, lock: LockNumber, access: Access)
        requires { held_spec.holds_lock lock self.old ≡ false }
        ensures { self.new ≡ self.old ++ held_spec.held lock access ∷ [] }
    {
        self.locks.push_reserved(HeldLock { lock, access });
    }

    /// Takes out the last entry of the lock, if there is one. There is one at most.
    #[tactic(auto, using(crate::proofs::LockLemmas::are_locks_without, crate::proofs::LockLemmas::without_found, crate::proofs::LockLemmas::without_none))]
    pub(crate) fn release(&mut self, lock: LockNumber)
        ensures { self.new ≡ held_spec.without_last lock self.old }
    {
        if let Some(place) = place_in(self.locks.as_slice(), lock) {
            let _ = self.locks.remove(place);
        }
    }
}

#[tactic(auto, using(crate::proofs::LockLemmas::more_not_same))]
fn same_locks(a: &[HeldLock], b: &[HeldLock]) -> bool
    ensures { result ≡ held_spec.same_locks a.now b.now }
{
    match (a, b) {
        ([], []) => true,
        ([], [_, ..]) | ([_, ..], []) => false,
        ([x, a @ ..], [y, b @ ..]) => x.is_same(*y) && same_locks(a, b),
    }
}

/// The place of the lock in a list, from 0.
fn place_in(locks: &[HeldLock], lock: LockNumber) -> Option<usize>
    ensures value { result ≡ position (λ (h : HeldLock). held_spec.same_lock lock h.lock) locks.now }
    ensures there { IfSome result (λ place. place < length locks.now) }
{
    locks.iter().position(|held| lock.is_same(held.lock))
}
