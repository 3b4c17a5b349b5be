//! Which move comes next.

ghost use Rattle.std.specs.Prelude.{◌≡◌, true, false, List, length, IfSome};
ghost use Rattle.flt_machine_store.specs.Stores.{world_of};
ghost use Rattle.flt_machine_dispatch.specs.Decisions.{is_cancelling};
ghost use Rattle.flt_machine_dispatch.specs.Turns as spec;
ghost use Rattle.flt_machine_frames.specs.Loading.{AreLoaded};
ghost use Rattle.flt_model.specs.Moves.{has_active};
ghost use Rattle.flt_model.specs.Program.{filter_of};
ghost use Rattle.flt_model.specs.World.{Actor, Activation};
ghost use Rattle.flt_tree.specs.declared.filter.Filter.{Filter};

use crate::moves::calls_pre;
use crate::teardown::is_drained;
use flt_machine_frames::Loaded;
use flt_machine_store::Store;
use flt_model::Move;

/// The enabled one of an operation's own moves: pre, skip, lower or post.
pub fn next_of(loaded: &Loaded, store: &Store, serial: u32) -> Option<Move>
    ensures next { (p : List Filter) (actors : List Actor) (activations : List Activation) → AreLoaded p loaded.now →
        length store.now.presences ≡ length p → result ≡ spec.next_of p (world_of store.now actors activations) serial }
    ensures enabled { (p : List Filter) (actors : List Actor) (activations : List Activation) → AreLoaded p loaded.now →
        length store.now.presences ≡ length p →
        IfSome result (λ step. spec.is_enabled p (world_of store.now actors activations) step ≡ true) }
    ensures few { IfSome result (λ step. is_cancelling step ≡ false) }
{
    if let Some(filter) = store.filter_at(serial) {
        let kind = store.arrival(serial).kind;
        return Some(if calls_pre(loaded, store, filter, kind) {
            Move::Pre { serial }
        } else {
            Move::Skip { serial }
        });
    }
    if store.is_past_filters(serial) {
        return Some(Move::Lower { serial });
    }
    match store.frame_at(serial) {
        Some(_) => Some(Move::Post { serial }),
        None => None,
    }
}

/// The move of the teardown of the filter at an altitude; none if it isn't being detached, or if only its work items and activations are
/// left. `active` says whether it has an activation that hasn't ended.
pub fn next_of_teardown(loaded: &Loaded, store: &Store, altitude: u32, active: bool) -> Option<Move>
    ensures next { (p : List Filter) (actors : List Actor) (activations : List Activation) → AreLoaded p loaded.now →
        active ≡ has_active (filter_of p altitude) actors activations →
        spec.ComesNextOf p (world_of store.now actors activations) altitude result }
    ensures enabled { (p : List Filter) (actors : List Actor) (activations : List Activation) → AreLoaded p loaded.now →
        active ≡ has_active (filter_of p altitude) actors activations →
        IfSome result (λ step. spec.is_enabled p (world_of store.now actors activations) step ≡ true) }
    ensures few { IfSome result (λ step. is_cancelling step ≡ false) }
{
    let filter = loaded.number(altitude);
    if !store.is_detaching(filter) {
        return None;
    }
    if let Some(serial) = store.least_frame(filter) {
        return Some(Move::Drain { altitude, serial });
    }
    if let Some(entry) = store.front(filter) {
        let serial = store.visit(entry.visit).operation;
        return Some(Move::Canceled { altitude, serial });
    }
    if let Some(key) = store.first_key(filter) {
        return Some(Move::Unlink { altitude, key });
    }
    if is_drained(store, filter, active) {
        Some(Move::Detached { altitude })
    } else {
        None
    }
}
