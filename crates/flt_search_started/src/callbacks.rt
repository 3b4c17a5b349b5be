//! The numbers of a filter's callbacks, by operation or by name. A number past all stands for one that isn't there.

ghost use Rattle.std.specs.Prelude.{◌≡◌, ◌≤◌, length};
ghost use Rattle.flt_starts.specs.Closed as spec;
ghost use Rattle.flt_tree.specs.Registered as registered;
ghost use Rattle.flt_model.specs.Program as program;

use flt_rules::Operation;
use flt_tree::{Callback, Head, Routine};

fn is_canceled(head: &Head) -> bool
    ensures { result ≡ program.is_canceled head.now }
{
    matches!(head, Head::Canceled)
}

pub(crate) fn has_pre(callbacks: &[Callback], kind: Operation) -> bool
    ensures { result ≡ registered.has_pre callbacks.now kind }
{
    callbacks.iter().any(|c| c.head.is_pre_of(kind))
}

pub(crate) fn has_post(callbacks: &[Callback], kind: Operation) -> bool
    ensures { result ≡ registered.has_post callbacks.now kind }
{
    callbacks.iter().any(|c| c.head.is_post_of(kind))
}

pub(crate) fn pre_number(callbacks: &[Callback], kind: Operation) -> usize
    ensures number { result ≡ spec.pre_number callbacks.now kind }
    ensures within { result ≤ length callbacks.now }
{
    match callbacks {
        [] => 0,
        [first, ..] if first.head.is_pre_of(kind) => 0,
        [_, others @ ..] => pre_number(others, kind) + 1,
    }
}

pub(crate) fn post_number(callbacks: &[Callback], kind: Operation) -> usize
    ensures number { result ≡ spec.post_number callbacks.now kind }
    ensures within { result ≤ length callbacks.now }
{
    match callbacks {
        [] => 0,
        [first, ..] if first.head.is_post_of(kind) => 0,
        [_, others @ ..] => post_number(others, kind) + 1,
    }
}

pub(crate) fn canceled_number(callbacks: &[Callback]) -> usize
    ensures number { result ≡ spec.canceled_number callbacks.now }
    ensures within { result ≤ length callbacks.now }
{
    match callbacks {
        [] => 0,
        [first, ..] if is_canceled(&first.head) => 0,
        [_, others @ ..] => canceled_number(others) + 1,
    }
}

/// The number of the routine that a call names.
pub(crate) fn routine_of(callbacks: &[Callback], routine: &Routine) -> usize
    ensures number { result ≡ registered.routine_of callbacks.now routine.now }
    ensures within { result ≤ length callbacks.now }
{
    match callbacks {
        [] => 0,
        [first, ..] if first.head.is_named(routine.name.as_slice()) => 0,
        [_, others @ ..] => routine_of(others, routine) + 1,
    }
}
