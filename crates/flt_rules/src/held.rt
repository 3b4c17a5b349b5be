//! Locks that are held.

ghost use Rattle.std.specs.Prelude.{◌≡◌};
ghost use Rattle.flt_rules.specs.Held as spec;

use crate::call::LockNumber;

/// How a lock is held: alone, or beside others that share it. Only a push lock is ever shared.
#[derive(Clone, Copy)]
pub enum Access {
    Exclusive,
    Shared,
}

/// A lock that is held, and how.
#[derive(Clone, Copy)]
pub struct HeldLock {
    pub lock: LockNumber,
    pub access: Access,
}

impl LockNumber {
    /// Whether two numbers are one lock.
    pub fn is_same(self, other: LockNumber) -> bool
        ensures { result ≡ spec.same_lock self other }
    {
        self.place() == other.place()
    }
}

impl Access {
    pub fn is_same(self, other: Access) -> bool
        ensures { result ≡ spec.same_access self other }
    {
        match self {
            Access::Exclusive => matches!(other, Access::Exclusive),
            Access::Shared => matches!(other, Access::Shared),
        }
    }

    /// Whether two activations may hold one lock with these accesses at the same time: only if both share it.
    pub fn is_compatible(self, other: Access) -> bool
        ensures { result ≡ spec.are_compatible self other }
    {
        matches!(self, Access::Shared) && matches!(other, Access::Shared)
    }
}

/// The entry at a place of a list that isn't filled. Nothing reads it.
impl Default for HeldLock {
    fn default() -> HeldLock {
        HeldLock {
            lock: LockNumber::L0,
            access: Access::Exclusive,
        }
    }
}

impl HeldLock {
    /// Whether both are one lock, held with the same access.
    pub fn is_same(self, other: HeldLock) -> bool
        ensures { result ≡ spec.same_held self other }
    {
        self.lock.is_same(other.lock) && self.access.is_same(other.access)
    }
}
