//! The lists of locks that are held on paths through a callback, each kept once and named by its number.

use crate::plan::LockAsk;
use flt_abs::{Abs, LockList, Successor, Successors, entry_state, leads_past};
use flt_explain::Subject;
use flt_graph::Graph;
use flt_rules::{HeldLock, Level, LockNeed, LockNumber, entry_level, raised_by};
use std::alloc::{AllocError, Global};

/// The greatest number of lists that are kept of a callback.
const LISTS: usize = 4096;

/// A state in which the locks of a list are held, and the level that they make.
#[derive(Drop)]
struct LockedState {
    state: Abs,
    level: Level,
}

/// The lists of a callback. The first one is empty.
#[derive(Drop)]
pub(crate) struct Lists {
    lists: Vec<LockedState>,
}

fn level_of(graph: &Graph, callback: usize, locks: &[HeldLock]) -> Level {
    let mut level = entry_level(graph.place(callback));
    for held in locks {
        let kind = graph.locks.get(usize::from(held.lock.place())).copied();
        level = level.max(raised_by(kind));
    }
    level
}

/// Whether a lock is the latest of a list.
fn is_latest(locks: &[HeldLock], lock: LockNumber) -> bool {
    match locks {
        [.., last] => lock.is_same(last.lock),
        [] => false,
    }
}

impl Lists {
    pub(crate) fn of(alloc: Global, graph: &Graph, callback: usize) -> Result<Lists, AllocError> {
        let mut lists = Lists {
            lists: Vec::new(alloc),
        };
        let state = entry_state(alloc, graph.place(callback));
        let _first = lists.number(graph, callback, state)?;
        Ok(lists)
    }

    /// The number of a state's list; none if there are too many.
    fn number(
        &mut self,
        graph: &Graph,
        callback: usize,
        state: Abs,
    ) -> Result<Option<usize>, AllocError> {
        let known = self
            .lists
            .iter()
            .position(|held| held.state.locks().is_same(state.locks()));
        if known.is_some() {
            return Ok(known);
        }
        let number = self.lists.len();
        if number >= LISTS {
            return Ok(None);
        }
        let level = level_of(graph, callback, state.locks().as_slice());
        self.lists.push(LockedState { state, level })?;
        Ok(Some(number))
    }

    fn held(&self, number: usize) -> Option<&LockedState> {
        self.lists.get(number)
    }

    /// A state in which the locks of a list are held.
    pub(crate) fn state(&self, number: usize) -> Option<&Abs> {
        match self.held(number) {
            Some(held) => Some(&held.state),
            None => None,
        }
    }

    /// The list after a point that takes or releases a lock; none if there are too many.
    pub(crate) fn behind(
        &mut self,
        graph: &Graph,
        callback: usize,
        point: usize,
        number: usize,
    ) -> Result<Option<usize>, AllocError> {
        match self.granted(graph, callback, point, number) {
            Some(next) => self.number(graph, callback, next.state),
            None => Ok(None),
        }
    }

    /// The granted successor of a point, with a list before it.
    fn granted(
        &self,
        graph: &Graph,
        callback: usize,
        point: usize,
        number: usize,
    ) -> Option<Successor> {
        let held = self.held(number)?;
        let Successors { first, second } = leads_past(graph, callback, point, &held.state);
        drop(second);
        first
    }

    /// Whether a list breaks a rule at a point that asks this of the locks.
    pub(crate) fn breaks(&self, number: usize, ask: LockAsk) -> bool {
        let Some(held) = self.held(number) else {
            return false;
        };
        let locks = held.state.locks();
        match ask {
            LockAsk::Nothing => false,
            LockAsk::None => !locks.as_slice().is_empty(),
            LockAsk::Call(greatest, need, lock) => {
                held.level.is_above(greatest) || is_needed_otherwise(locks, need, lock)
            }
        }
    }

    /// Whether the level is above another one.
    pub(crate) fn is_above(&self, number: usize, level: Level) -> bool {
        match self.held(number) {
            Some(held) => held.level.is_above(level),
            None => false,
        }
    }

    pub(crate) fn contains(&self, number: usize, lock: LockNumber) -> bool {
        match self.held(number) {
            Some(held) => held.state.locks().contains(lock),
            None => false,
        }
    }

    pub(crate) fn is_latest(&self, number: usize, lock: LockNumber) -> bool {
        match self.held(number) {
            Some(held) => is_latest(held.state.locks().as_slice(), lock),
            None => false,
        }
    }

    /// Whether two lists differ, and the lock that a finding is about is in one of them at least.
    pub(crate) fn are_apart(&self, subject: Subject, a: usize, b: usize) -> bool {
        match subject {
            Subject::Lock(lock) => a != b && (self.contains(a, lock) || self.contains(b, lock)),
            _ => false,
        }
    }
}

/// Whether the lock that a call names isn't held as the call needs it.
fn is_needed_otherwise(locks: &LockList, need: LockNeed, lock: Option<LockNumber>) -> bool {
    match (need, lock) {
        (LockNeed::NotHeld, Some(lock)) => locks.contains(lock),
        (LockNeed::Latest, Some(lock)) => !is_latest(locks.as_slice(), lock),
        _ => false,
    }
}
