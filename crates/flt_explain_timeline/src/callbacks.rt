//! The callback that an activation runs, and its lines.

ghost use Rattle.std.specs.Prelude.{◌≡◌, ◌≤◌, List, length, slice_get, [], ◌∷◌, MatchOption};
ghost use Rattle.flt_model.specs.Program as program;
ghost use Rattle.flt_model.specs.World.{actor_at};
ghost use Rattle.flt_replay_records.specs.Rest.{statement_of};
ghost use Rattle.flt_tree.specs.declared.filter.Statement.{Statement as Written};
ghost use Rattle.flt_replay_world.specs.Filters.{filters_behind};
ghost use Rattle.flt_explain_timeline.specs.Callbacks as spec;

use crate::telling::StartedCallback;
use flt_replay_records::Upcoming;
use flt_replay_world::World;
use flt_rules::Place;
use flt_tree::{Callback, Filter, Head};

fn is_canceled(head: &Head) -> bool
    ensures { result ≡ program.is_canceled head.now }
{
    matches!(head, Head::Canceled)
}

fn is_registered(place: Place, head: &Head) -> bool
    ensures { result ≡ spec.is_registered place head.now }
{
    match place {
        Place::Pre(kind) => head.is_pre_of(kind),
        Place::Post(kind) => head.is_post_of(kind),
        Place::Canceled => is_canceled(head),
        Place::DeferredPre | Place::DeferredPost | Place::Generic => false,
    }
}

/// The number of the callback for a place that isn't a routine's; past all callbacks if there is none.
fn callback_for(callbacks: &[Callback], place: Place) -> usize
    ensures number { result ≡ spec.callback_for callbacks.now place }
    ensures within { result ≤ length callbacks.now }
{
    match callbacks {
        [] => 0,
        [first, ..] if is_registered(place, &first.head) => 0,
        [_, others @ ..] => callback_for(others, place) + 1,
    }
}

/// The callbacks of the filter of a number; none if there is no such filter.
pub fn callbacks_at<'a>(filters: &[&'a Filter], filter: usize) -> &'a [Callback]
    ensures { result.now ≡ program.callbacks_at (filters_behind filters.now) filter }
{
    match filters.get(filter) {
        Some(filter) => filter.callbacks.as_slice(),
        None => &[],
    }
}

fn callback_of(
    filters: &[&Filter],
    world: &World<'_>,
    activation: usize,
    routine: Option<usize>,
) -> usize
    ensures { result ≡ spec.callback_of (filters_behind filters.now) (actor_at world.now activation) routine }
{
    match routine {
        Some(routine) => routine,
        None => callback_for(
            callbacks_at(filters, world.filter(activation)),
            world.place(activation),
        ),
    }
}

/// The callback that an activation runs, whose routine is known if a work item started it.
pub fn start_of(
    filters: &[&Filter],
    world: &World<'_>,
    activation: usize,
    routine: Option<usize>,
) -> StartedCallback
    ensures { result ≡ spec.start_of (filters_behind filters.now) (actor_at world.now activation) routine }
{
    StartedCallback {
        filter: world.filter(activation),
        callback: callback_of(filters, world, activation, routine),
        draining: world.has_flag(activation),
    }
}

// ---- lines

/// The line of the closing brace of a callback; 0 if there is no such callback.
pub(crate) fn end_line(filters: &[&Filter], started: StartedCallback) -> usize
    ensures { result ≡ spec.end_line (filters_behind filters.now) started }
{
    match callbacks_at(filters, started.filter).get(started.callback) {
        Some(callback) => callback.end.line,
        None => 0,
    }
}

/// The line of the next step: at the end of a body that of its closing brace.
pub(crate) fn next_line(next: Option<Upcoming<'_>>, end: usize) -> usize
    ensures { (statements rest : List Written) → MatchOption next.entry (statements ≡ []) (λ u. statements ≡ statement_of u ∷ rest) →
        result ≡ spec.next_line end statements }
{
    match next {
        Some(next) => next.span().line,
        None => end,
    }
}
