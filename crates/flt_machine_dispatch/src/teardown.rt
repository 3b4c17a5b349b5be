//! The teardown of a filter's instance.

ghost use Rattle.std.specs.Prelude.{◌≡◌, true, false, List, IfSome};
ghost use Rattle.flt_machine_dispatch.specs.Decisions.{Decides, DecidesAnywhere, DecidesIn};
ghost use Rattle.flt_model.specs.Moves as moves;
ghost use Rattle.flt_model.specs.World.{Actor, Activation};
ghost use Rattle.flt_machine_store.specs.Changes.{IsPossible, cancels_entries};
ghost use Rattle.flt_machine_store.specs.Stores.{world_of};
ghost use Rattle.flt_tree.specs.declared.filter.Filter.{Filter};

use crate::decision::{Decision, Start};
use flt_machine_frames::Loaded;
use flt_machine_store::{Change, Store};
use flt_model::Key;
use flt_rules::Place;

/// A filter is detached once.
pub(crate) fn detach(store: &Store, filter: usize) -> Option<Decision>
    ensures decided { DecidesAnywhere store.now result (λ w. moves.detach w filter) }
    ensures possible { IfSome result (λ d. IsPossible store.now d.change) }
    ensures few { IfSome result (λ d. cancels_entries d.change ≡ true) }
{
    if store.is_attached(filter) {
        Some(Decision::only(Change::Detach(filter)))
    } else {
        None
    }
}

/// The first frame of the filter goes, and its post callback starts with the draining flag; the operation stays where it is.
pub(crate) fn drain(loaded: &Loaded, store: &Store, filter: usize, serial: u32) -> Option<Decision>
    ensures decided { DecidesIn loaded.now store.now result (λ p w. moves.drain p w filter serial) }
    ensures possible { IfSome result (λ d. IsPossible store.now d.change) }
    ensures few { IfSome result (λ d. cancels_entries d.change ≡ false) }
{
    if !store.is_detaching(filter) {
        return None;
    }
    let frame = store.first_frame(filter, serial)?;
    let kind = store.arrival(serial).kind;
    let start = Start {
        filter,
        place: Place::Post(kind),
        draining: true,
        callback: loaded.post(filter, kind),
        given: Some(store.visits()),
        arg: frame.context,
    };
    Some(Decision {
        start: Some(start),
        freed: None,
        change: Change::StartDraining(serial, filter, frame.context),
    })
}

/// The link goes, and its reference.
pub(crate) fn unlink(store: &Store, filter: usize, key: Key) -> Option<Decision>
    ensures decided { DecidesAnywhere store.now result (λ w. moves.unlink w filter key) }
    ensures possible { IfSome result (λ d. IsPossible store.now d.change) }
    ensures few { IfSome result (λ d. cancels_entries d.change ≡ false) }
{
    if !store.is_detaching(filter) {
        return None;
    }
    let context = store.linked_at(filter, key)?;
    Some(Decision {
        start: None,
        freed: if store.is_last(context) {
            Some(context)
        } else {
            None
        },
        change: Change::Unlink(context, None),
    })
}

/// Whether nothing of the filter is left: no frame, entry, work item, link or activation.
pub(crate) fn is_drained(store: &Store, filter: usize, active: bool) -> bool
    ensures { (actors : List Actor) (activations : List Activation) → active ≡ moves.has_active filter actors activations →
        result ≡ moves.is_drained (world_of store.now actors activations) filter }
{
    store.is_empty_of(filter) && !active
}

/// The teardown ends.
pub(crate) fn detached(store: &Store, filter: usize, active: bool) -> Option<Decision>
    ensures decided { (p : List Filter) (actors : List Actor) (activations : List Activation) →
        active ≡ moves.has_active filter actors activations →
        Decides p (world_of store.now actors activations) result (moves.detached (world_of store.now actors activations) filter) }
    ensures possible { IfSome result (λ d. IsPossible store.now d.change) }
    ensures few { IfSome result (λ d. cancels_entries d.change ≡ false) }
{
    if store.is_detaching(filter) && is_drained(store, filter, active) {
        Some(Decision::only(Change::Finish(filter)))
    } else {
        None
    }
}
