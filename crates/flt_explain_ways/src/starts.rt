//! Situations in which a callback may be entered, by digits.

use flt_abs::{Abs, CONTEXTS, Draining, Modes, Statuses, entry_state};
use flt_explain_origins::Situation;
use flt_graph::{ContextVariable, Place};
use std::alloc::Global;

/// A state in which all contexts but `arg` are NULL, by the digits of `arg`, of the mode and of draining, and all else as in the state of
/// an entry.
fn narrowed(state: &Abs, arg: u8, mode: u8, draining: u8) -> Option<Abs> {
    let [a, b, c, d, given] = state.operations() else {
        return None;
    };
    let mut contexts = [Statuses::null(); CONTEXTS];
    contexts[ContextVariable::Arg.place()] = Statuses::from_digit(arg)?;
    state.with_sets(
        contexts,
        [*a, *b, *c, *d, *given],
        Modes::from_digit(mode)?,
        Draining::from_digit(draining)?,
    )
}

/// A situation by these digits, whether or not a callback of the place may be entered in it.
fn narrowed_entry(
    alloc: Global,
    place: Place,
    arg: u8,
    mode: u8,
    draining: u8,
) -> Option<Situation> {
    let state = entry_state(alloc, place);
    Situation::of(narrowed(&state, arg, mode, draining)?)
}

/// A situation in which a callback of the place may be entered, by the digits of `arg`, of the mode and of draining; none if it can't be
/// entered in that situation.
pub(crate) fn entered(
    alloc: Global,
    place: Place,
    arg: u8,
    mode: u8,
    draining: u8,
) -> Option<Situation> {
    let situation = narrowed_entry(alloc, place, arg, mode, draining)?;
    if situation.is_entry(alloc, place) {
        Some(situation)
    } else {
        None
    }
}
