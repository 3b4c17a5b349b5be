//! Operations that arrive, go down and up, and are cancelled; and moves by name.

ghost use Rattle.std.specs.Prelude.{◌≡◌, true, false, ◌<◌, List, length, IfSome};
ghost use Rattle.flt_machine_store.specs.Stores.{world_of};
ghost use Rattle.flt_machine_dispatch.specs.Decisions.{Decides, DecidesAnywhere, DecidesIn, HasRoom, IsActive, is_cancelling};
ghost use Rattle.flt_machine_frames.specs.Loading.{AreLoaded};
ghost use Rattle.flt_model.specs.Moves as moves;
ghost use Rattle.flt_model.specs.Moves.{make};
ghost use Rattle.flt_model.specs.World as world;
ghost use Rattle.flt_model.specs.World.{Actor, Activation};
ghost use Rattle.flt_machine_store.specs.Changes.{IsPossible, cancels_entries};
ghost use Rattle.flt_tree.specs.declared.filter.Filter.{Filter};
ghost use Rattle.flt_rules.specs.Limits.{max_operations};

use crate::decision::{Decision, Start};
use crate::{teardown, waiting};
use flt_machine_frames::Loaded;
use flt_machine_store::{Change, Store};
use flt_model::Move;
use flt_rules::{Mode, Operation, Place};

/// There are 1,024 files.
fn arrive(kind: Operation, mode: Mode, file: u32) -> Option<Decision>
    ensures decided { (s : world.Store) → DecidesAnywhere s result (λ w. moves.arrive w kind mode file) }
    ensures possible { IfSome result (λ d. (s : world.Store) → length s.arrivals < max_operations → IsPossible s d.change) }
    ensures few { IfSome result (λ d. cancels_entries d.change ≡ false) }
{
    if kind.fits(mode) && file < 1024 {
        Some(Decision::only(Change::Arrive(kind, mode, file)))
    } else {
        None
    }
}

/// Whether the filter is there, with a pre callback of the operation.
pub(crate) fn calls_pre(loaded: &Loaded, store: &Store, filter: usize, kind: Operation) -> bool
    ensures { (p : List Filter) → AreLoaded p loaded.now → result ≡ moves.calls_pre p store.now filter kind }
{
    store.is_attached(filter) && loaded.has_pre(filter, kind)
}

/// The operation is down at a filter, whose pre callback starts.
fn pre(loaded: &Loaded, store: &Store, serial: u32) -> Option<Decision>
    ensures decided { DecidesIn loaded.now store.now result (λ p w. moves.pre_at p w serial
        (world.arrival_at store.now serial).kind (world.route_at store.now serial).position) }
    ensures possible { IfSome result (λ d. IsPossible store.now d.change) }
    ensures few { IfSome result (λ d. cancels_entries d.change ≡ false) }
{
    let kind = store.arrival(serial).kind;
    let filter = store.filter_at(serial)?;
    if !calls_pre(loaded, store, filter, kind) {
        return None;
    }
    let start = Start {
        filter,
        place: Place::Pre(kind),
        draining: false,
        callback: loaded.pre(filter, kind),
        given: Some(store.visits()),
        arg: None,
    };
    Some(Decision {
        start: Some(start),
        freed: None,
        change: Change::StartPre(serial, filter),
    })
}

/// A filter that isn't there, or has no such callback, is passed.
fn skip(loaded: &Loaded, store: &Store, serial: u32) -> Option<Decision>
    ensures decided { DecidesIn loaded.now store.now result (λ p w. moves.skip_at p w serial
        (world.arrival_at store.now serial).kind (world.route_at store.now serial).position) }
    ensures possible { IfSome result (λ d. IsPossible store.now d.change) }
    ensures few { IfSome result (λ d. cancels_entries d.change ≡ false) }
{
    let kind = store.arrival(serial).kind;
    let filter = store.filter_at(serial)?;
    if calls_pre(loaded, store, filter, kind) {
        return None;
    }
    Some(Decision::only(Change::Skip(serial, filter)))
}

/// Below the last filter the operation is carried out.
fn lower(store: &Store, serial: u32) -> Option<Decision>
    ensures decided { (p : List Filter) (actors : List Actor) (activations : List Activation) → length store.now.presences ≡ length p →
        Decides p (world_of store.now actors activations) result
        (moves.lower_at p (world_of store.now actors activations) serial (world.route_at store.now serial).position) }
    ensures possible { IfSome result (λ d. IsPossible store.now d.change) }
    ensures few { IfSome result (λ d. cancels_entries d.change ≡ false) }
{
    if store.is_past_filters(serial) {
        Some(Decision::only(Change::Lower(serial)))
    } else {
        None
    }
}

/// The operation goes up; the post callback of its last frame starts.
fn post(loaded: &Loaded, store: &Store, serial: u32) -> Option<Decision>
    ensures decided { DecidesIn loaded.now store.now result (λ p w. moves.post_at p w serial
        (world.route_at store.now serial) (world.route_at store.now serial).position) }
    ensures possible { IfSome result (λ d. IsPossible store.now d.change) }
    ensures few { IfSome result (λ d. cancels_entries d.change ≡ false) }
{
    let frame = store.frame_at(serial)?;
    let kind = store.arrival(serial).kind;
    let start = Start {
        filter: frame.filter,
        place: Place::Post(kind),
        draining: false,
        callback: loaded.post(frame.filter, kind),
        given: Some(store.visits()),
        arg: frame.context,
    };
    Some(Decision {
        start: Some(start),
        freed: None,
        change: Change::StartPost(serial, frame.filter, frame.context),
    })
}

/// An operation is cancelled once, and not when it is done.
fn cancel(store: &Store, serial: u32) -> Option<Decision>
    ensures decided { DecidesAnywhere store.now result (λ w. moves.cancel w serial) }
    ensures possible { IfSome result (λ d. IsPossible store.now d.change) }
    ensures few { IfSome result (λ d. cancels_entries d.change ≡ true) }
{
    if store.is_done(serial) || store.cancelled(serial) {
        None
    } else {
        Some(Decision::only(Change::Cancel(serial)))
    }
}

/// The effect of a move, if it is enabled. If the move ends a teardown, `active` says whether the filter has an activation that hasn't
/// ended.
pub fn decide(loaded: &Loaded, store: &Store, step: Move, active: bool) -> Option<Decision>
    ensures decided { (p : List Filter) (actors : List Actor) (activations : List Activation) → AreLoaded p loaded.now →
        length store.now.presences ≡ length p → IsActive p step active actors activations →
        Decides p (world_of store.now actors activations) result (make p (world_of store.now actors activations) step) }
    ensures possible { IfSome result (λ d. HasRoom store.now step → IsPossible store.now d.change) }
    ensures few { IfSome result (λ d. cancels_entries d.change ≡ is_cancelling step) }
{
    match step {
        Move::Arrive {
            operation,
            mode,
            file,
        } => arrive(operation, mode, file),
        Move::Pre { serial } => pre(loaded, store, serial),
        Move::Skip { serial } => skip(loaded, store, serial),
        Move::Lower { serial } => lower(store, serial),
        Move::Post { serial } => post(loaded, store, serial),
        Move::Cancel { serial } => cancel(store, serial),
        Move::Canceled { altitude, serial } => {
            waiting::canceled(loaded, store, loaded.number(altitude), serial)
        }
        Move::Work { item } => waiting::work(loaded, store, item as usize),
        Move::Detach { altitude } => teardown::detach(store, loaded.number(altitude)),
        Move::Drain { altitude, serial } => {
            teardown::drain(loaded, store, loaded.number(altitude), serial)
        }
        Move::Unlink { altitude, key } => teardown::unlink(store, loaded.number(altitude), key),
        Move::Detached { altitude } => {
            teardown::detached(store, loaded.number(altitude), active)
        }
    }
}
