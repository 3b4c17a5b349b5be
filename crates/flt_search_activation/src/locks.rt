//! The locks that an activation holds.

use flt_rules::{Access, HeldLock, LockNumber, MAX_LOCKS};

/// The locks of an activation, the oldest first.
#[derive(Clone, Copy)]
pub struct Locks {
    locks: [HeldLock; 8],
    used: usize,
}

const NO_LOCK: HeldLock = HeldLock {
    lock: LockNumber::L0,
    access: Access::Exclusive,
};

impl Locks {
    pub(crate) const NONE: Locks = Locks {
        locks: [NO_LOCK; 8],
        used: 0,
    };

    /// The lock of a number, from the oldest.
    pub fn get(&self, place: usize) -> Option<HeldLock> {
        if place < self.used {
            self.locks.get(place).copied()
        } else {
            None
        }
    }

    /// How many there are.
    pub fn len(&self) -> usize {
        self.used
    }

    /// How a lock is held, if it is.
    pub fn held(&self, lock: LockNumber) -> Option<Access> {
        for place in 0..MAX_LOCKS {
            if let Some(held) = self.get(place) {
                if held.lock.place() == lock.place() {
                    return Some(held.access);
                }
            }
        }
        None
    }

    /// Whether a lock is the one that was taken last.
    pub fn is_latest(&self, lock: LockNumber) -> bool {
        match self.used.checked_sub(1) {
            Some(last) => match self.get(last) {
                Some(held) => held.lock.place() == lock.place(),
                None => false,
            },
            None => false,
        }
    }

    /// A lock is taken; one more than there is room for isn't kept.
    pub fn push(&mut self, held: HeldLock) {
        if self.used < MAX_LOCKS {
            self.locks[self.used] = held;
            self.used += 1;
        }
    }

    /// The lock that was taken last is released.
    pub fn pop(&mut self) {
        self.used = self.used.saturating_sub(1);
    }
}
