//! The callbacks of cancelled queue entries and of work items.

ghost use Rattle.std.specs.Prelude.{◌≡◌, false, ◌||◌, IfSome};
ghost use Rattle.flt_machine_dispatch.specs.Decisions.{DecidesIn};
ghost use Rattle.flt_model.specs.Moves as moves;
ghost use Rattle.flt_model.specs.World as world;
ghost use Rattle.flt_machine_store.specs.Changes.{IsPossible, cancels_entries};

use crate::decision::{Decision, Start};
use flt_machine_frames::Loaded;
use flt_machine_store::{Change, Store};
use flt_rules::Place;

/// Whether the operation is cancelled, or the filter is being detached.
fn may_cancel(store: &Store, filter: usize, serial: u32) -> bool
    ensures { result ≡ ((world.route_at store.now serial).cancelled || world.is_detaching (world.presence_at store.now filter)) }
{
    store.cancelled(serial) || store.is_detaching(filter)
}

/// An entry of an operation that is cancelled, or of a filter that is being detached; CompleteCanceledIo starts with it.
pub(crate) fn canceled(
    loaded: &Loaded,
    store: &Store,
    filter: usize,
    serial: u32,
) -> Option<Decision>
    ensures decided { DecidesIn loaded.now store.now result (λ p w. moves.canceled p w filter serial) }
    ensures possible { IfSome result (λ d. IsPossible store.now d.change) }
    ensures few { IfSome result (λ d. cancels_entries d.change ≡ false) }
{
    if !may_cancel(store, filter, serial) {
        return None;
    }
    let entry = store.first_entry(filter, serial)?;
    let start = Start {
        filter,
        place: Place::Canceled,
        draining: false,
        callback: loaded.canceled(filter),
        given: Some(entry.visit),
        arg: entry.context,
    };
    Some(Decision {
        start: Some(start),
        freed: None,
        change: Change::RemoveOf(filter, serial, entry.visit),
    })
}

/// A work item is taken out, and its routine starts.
pub(crate) fn work(loaded: &Loaded, store: &Store, number: usize) -> Option<Decision>
    ensures decided { DecidesIn loaded.now store.now result (λ p w. moves.work_by p w number (world.item_at store.now number)) }
    ensures possible { IfSome result (λ d. IsPossible store.now d.change) }
    ensures few { IfSome result (λ d. cancels_entries d.change ≡ false) }
{
    let item = store.item(number)?;
    let start = Start {
        filter: item.filter,
        place: loaded.place(item.filter, item.routine),
        draining: false,
        callback: item.routine,
        given: item.visit,
        arg: item.context,
    };
    Some(Decision {
        start: Some(start),
        freed: None,
        change: Change::Start(number),
    })
}
