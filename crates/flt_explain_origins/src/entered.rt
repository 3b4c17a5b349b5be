//! The facts that may hold when a callback is entered.

ghost use Rattle.std.specs.Prelude.{◌≡◌};
ghost use Rattle.flt_abs.specs.Entry.{entry};
ghost use Rattle.flt_abs.specs.Outcome.{agrees};
ghost use Rattle.flt_abs.specs.State.{has_mode, has_draining};
ghost use Rattle.flt_explain_origins.specs.Origins as spec;

use crate::facts::{Fact, VariableStatus};
use flt_abs::{Draining, Modes, Statuses, entry_state};
use flt_graph::Place;
use flt_rules::Mode;
use std::alloc::Global;

/// Whether a status is in a set.
fn has(set: Statuses, status: VariableStatus) -> bool
    ensures { result ≡ spec.has set status }
{
    match status {
        VariableStatus::Null => set.has_null(),
        VariableStatus::Held => set.has_held(),
        VariableStatus::Stale => set.has_stale(),
    }
}

fn has_mode(modes: Modes, mode: Mode) -> bool
    ensures { result ≡ has_mode modes mode }
{
    match mode {
        Mode::Irp => modes.has_irp(),
        Mode::Fast => modes.has_fast(),
    }
}

fn has_draining(draining: Draining, set: bool) -> bool
    ensures { result ≡ has_draining draining set }
{
    if set {
        draining.has_yes()
    } else {
        draining.has_no()
    }
}

/// Whether a fact may hold when a callback of the place is entered.
pub(crate) fn may_be_at_entry(alloc: Global, place: Place, fact: Fact) -> bool
    ensures { result ≡ spec.may_be (entry place) fact }
{
    let state = entry_state(alloc, place);
    match fact {
        Fact::Context(variable, status) => has(state.context(variable), status),
        Fact::Operation(variable, status) => has(state.operation(variable), status),
        Fact::Mode(mode) => has_mode(state.modes(), mode),
        Fact::Draining(set) => has_draining(state.draining(), set),
        Fact::Lock(lock, held) => {
            let found = state.locks().contains(lock);
            if held { found } else { !found }
        }
    }
}
