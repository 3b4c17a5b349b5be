//! The callbacks of a filter by the places for which they are registered, and its locks.

ghost use Rattle.std.specs.Prelude.{◌≡◌, ◌≤◌, length};
ghost use Rattle.flt_model.specs.Levels as levels;
ghost use Rattle.flt_model.specs.Program as spec;
ghost use Rattle.flt_rules.specs.Held as held;

use flt_rules::{HeldLock, Level, LockKind, LockNumber, Operation, Place, entry_level, raised_by};
use flt_tree::{Callback, Filter, Head, Routine, Statement};

fn is_canceled(head: &Head) -> bool
    ensures { result ≡ spec.is_canceled head.now }
{
    matches!(head, Head::Canceled)
}

pub(crate) fn has_pre(callbacks: &[Callback], kind: Operation) -> bool
    ensures { result ≡ spec.has_pre callbacks.now kind }
{
    callbacks.iter().any(|c| c.head.is_pre_of(kind))
}

pub(crate) fn has_post(callbacks: &[Callback], kind: Operation) -> bool
    ensures { result ≡ spec.has_post callbacks.now kind }
{
    callbacks.iter().any(|c| c.head.is_post_of(kind))
}

fn is_paired(callbacks: &[Callback], kind: Operation) -> bool
    ensures { result ≡ spec.is_paired callbacks.now kind }
{
    !has_pre(callbacks, kind) || has_post(callbacks, kind)
}

/// Whether each operation with a pre callback has a post callback.
pub(crate) fn are_paired(callbacks: &[Callback]) -> bool
    ensures { result ≡ spec.are_paired callbacks.now }
{
    Operation::all()
        .iter()
        .all(|kind| is_paired(callbacks, *kind))
}

/// The statements of the pre callback of an operation; none if it isn't there.
pub(crate) fn pre_body(callbacks: &[Callback], kind: Operation) -> &[Statement]
    ensures { result.now ≡ spec.body_for (spec.is_pre_of kind) callbacks.now }
{
    match callbacks {
        [] => &[],
        [first, ..] if first.head.is_pre_of(kind) => first.body.as_slice(),
        [_, others @ ..] => pre_body(others, kind),
    }
}

pub(crate) fn post_body(callbacks: &[Callback], kind: Operation) -> &[Statement]
    ensures { result.now ≡ spec.body_for (spec.is_post_of kind) callbacks.now }
{
    match callbacks {
        [] => &[],
        [first, ..] if first.head.is_post_of(kind) => first.body.as_slice(),
        [_, others @ ..] => post_body(others, kind),
    }
}

pub(crate) fn canceled_body(callbacks: &[Callback]) -> &[Statement]
    ensures { result.now ≡ spec.body_for spec.is_canceled callbacks.now }
{
    match callbacks {
        [] => &[],
        [first, ..] if is_canceled(&first.head) => first.body.as_slice(),
        [_, others @ ..] => canceled_body(others),
    }
}

/// The number of the routine that a call names; past all callbacks if the filter hasn't it.
pub(crate) fn routine_of(callbacks: &[Callback], routine: &Routine) -> usize
    ensures number { result ≡ spec.routine_of callbacks.now routine.now }
    ensures within { result ≤ length callbacks.now }
{
    match callbacks {
        [] => 0,
        [first, ..] if first.head.is_named(routine.name.as_slice()) => 0,
        [_, others @ ..] => routine_of(others, routine) + 1,
    }
}

pub(crate) fn body_at(callbacks: &[Callback], routine: usize) -> &[Statement]
    ensures { result.now ≡ spec.body_at callbacks.now routine }
{
    match callbacks.get(routine) {
        Some(callback) => callback.body.as_slice(),
        None => &[],
    }
}

pub(crate) fn place_at(callbacks: &[Callback], routine: usize) -> Place
    ensures { result ≡ spec.place_at callbacks.now routine }
{
    match callbacks.get(routine) {
        Some(callback) => callback.head.place(),
        None => Place::Generic,
    }
}

/// The kind of a declared lock.
fn kind_of_lock(filter: &Filter, lock: LockNumber) -> Option<LockKind>
    ensures { result ≡ spec.kind_of_lock filter.now lock }
{
    match filter.locks.get(usize::from(lock.place())) {
        Some(lock) => Some(lock.kind),
        None => None,
    }
}

fn level_with(filter: &Filter, level: Level, locks: &[HeldLock]) -> Level
    ensures { result ≡ held.level_with (spec.kind_of_lock filter.now) level locks.now }
{
    match locks {
        [] => level,
        [first, others @ ..] => {
            let raised = raised_by(kind_of_lock(filter, first.lock));
            level_with(filter, level.max(raised), others)
        }
    }
}

/// The level of a callback of a place that holds these locks.
pub(crate) fn level_at(filter: &Filter, place: Place, locks: &[HeldLock]) -> Level
    ensures { result ≡ levels.level_at filter.now place locks.now }
{
    level_with(filter, entry_level(place), locks)
}
