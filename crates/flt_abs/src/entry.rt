//! The states in which callbacks are entered.

ghost use Rattle.std.specs.Prelude.{◌≡◌};
ghost use Rattle.flt_abs.specs.Entry as spec;
ghost use Rattle.flt_abs.specs.State.{is_below};

use crate::locks::LockList;
use crate::sets::{Draining, Modes, Statuses};
use crate::state::{Abs, CONTEXTS, OPERATIONS, all_within};
use flt_graph::{Operation, Place};
use std::alloc::Global;

/// No context is there but the one that the callback may be given.
fn entry_contexts(place: Place) -> [Statuses; CONTEXTS]
    ensures { result ≡ spec.entry_contexts place }
{
    let null = Statuses::null();
    let arg = match place {
        Place::Pre(_) => null,
        _ => Statuses::null_or_held(),
    };
    [null, null, null, null, null, null, null, null, arg]
}

/// No operation is there but the one that the callback is given.
fn entry_operations(place: Place) -> [Statuses; OPERATIONS]
    ensures { result ≡ spec.entry_operations place }
{
    let null = Statuses::null();
    let given = match place {
        Place::Generic => null,
        _ => Statuses::held(),
    };
    [null, null, null, null, given]
}

/// The modes in which an operation comes.
fn operation_modes(kind: Operation) -> Modes
    ensures { result ≡ spec.operation_modes kind }
{
    if kind.is_always_irp() {
        Modes::irp()
    } else {
        Modes::irp().union(Modes::fast())
    }
}

/// A callback of an operation is entered in each mode in which that comes.
fn entry_modes(place: Place) -> Modes
    ensures { result ≡ spec.entry_modes place }
{
    match place {
        Place::Pre(kind) | Place::Post(kind) => operation_modes(kind),
        _ => Modes::irp(),
    }
}

/// A post callback may be called for draining.
fn entry_draining(place: Place) -> Draining
    ensures { result ≡ spec.entry_draining place }
{
    match place {
        Place::Post(_) => Draining::no().union(Draining::yes()),
        _ => Draining::no(),
    }
}

/// The state in which a callback of the place is entered.
pub fn entry_state(alloc: Global, place: Place) -> Abs
    ensures { result ≡ spec.entry place }
{
    Abs {
        contexts: entry_contexts(place),
        operations: entry_operations(place),
        modes: entry_modes(place),
        draining: entry_draining(place),
        locks: LockList::none(alloc),
    }
}

/// Whether the state in which a callback of the place is entered is below a state.
pub fn is_entry_below(place: Place, state: &Abs) -> bool
    ensures { result ≡ is_below (spec.entry place) state.now }
{
    let locks = state.locks.is_empty();
    let modes = entry_modes(place).is_within(state.modes);
    let draining = entry_draining(place).is_within(state.draining);
    let contexts = all_within(&entry_contexts(place), &state.contexts);
    let operations = all_within(&entry_operations(place), &state.operations);
    locks && modes && draining && contexts && operations
}
