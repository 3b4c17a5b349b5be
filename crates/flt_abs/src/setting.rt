//! The setting of a point, which its rules read besides its variables: the callback's place and the level.

ghost use Rattle.std.specs.Prelude.{◌≡◌, List};
ghost use Rattle.flt_abs.specs.Setting as spec;
ghost use Rattle.flt_rules.specs.Held as held_spec;
ghost use Rattle.flt_rules.specs.declared.place.Operation.{Operation};
ghost use Rattle.flt_tree.specs.Registered as registered;
ghost use Rattle.flt_tree.specs.declared.filter.Callback.{Callback};
ghost use Rattle.flt_graph.specs.Lowering.{AreGraphsOf};
ghost use Rattle.flt_graph.specs.declared.graph.CallbackGraph.{CallbackGraph};

use crate::state::Abs;
use flt_graph::{CallbackGraph, Graph, LockKind, LockNumber, Operation, Place};
use flt_rules::{HeldLock, Level, entry_level, raised_by};

/// The setting of a point: its callback's place, the level, and which post callbacks are registered.
#[derive(Clone, Copy)]
pub struct Setting {
    pub place: Place,
    /// The greatest of the entry level and the levels of the held locks.
    pub level: Level,
    /// Whether a post callback of the callback's own operation is registered.
    pub registered: bool,
    /// Whether each operation that has a pre callback has a post callback.
    pub all_registered: bool,
}

fn is_post_of(operation: Operation, callback: &CallbackGraph) -> bool
    ensures { result ≡ spec.is_post_of operation callback.now }
{
    match callback.place {
        Place::Post(own) => own.is_same(operation),
        _ => false,
    }
}

fn has_post(callbacks: &[CallbackGraph], operation: Operation) -> bool
    ensures { result ≡ spec.has_post callbacks.now operation }
{
    callbacks.iter().any(|c| is_post_of(operation, c))
}

/// Whether a callback that asks for a post callback gets one.
fn is_registered(callbacks: &[CallbackGraph], place: Place) -> bool
    ensures { result ≡ spec.is_registered callbacks.now place }
{
    match place {
        Place::Pre(operation) => has_post(callbacks, operation),
        _ => false,
    }
}

fn is_paired(callbacks: &[CallbackGraph], callback: &CallbackGraph) -> bool
    ensures { result ≡ spec.is_paired callbacks.now callback.now }
{
    match callback.place {
        Place::Pre(operation) => has_post(callbacks, operation),
        _ => true,
    }
}

fn are_paired(callbacks: &[CallbackGraph]) -> bool
    ensures { result ≡ spec.are_paired callbacks.now }
{
    callbacks.iter().all(|c| is_paired(callbacks, c))
}

/// The kind of a declared lock.
fn kind_at(kinds: &[LockKind], lock: LockNumber) -> Option<LockKind>
    ensures { result ≡ spec.kind_at kinds.now lock }
{
    kinds.get(usize::from(lock.place())).copied()
}

fn level_with(kinds: &[LockKind], locks: &[HeldLock], entry: Level) -> Level
    ensures { result ≡ held_spec.level_with (spec.kind_at kinds.now) entry locks.now }
{
    let mut level = entry;
    for held in locks {
        level = level.max(raised_by(kind_at(kinds, held.lock)));
    }
    level
}

/// The setting of a callback's points in which a state's locks are held. A callback that isn't there is a generic routine.
pub(crate) fn setting_of(graph: &Graph, callback: usize, state: &Abs) -> Setting
    ensures { result ≡ spec.setting_of graph.now callback state.now }
{
    let place = graph.place(callback);
    let callbacks = graph.callbacks.as_slice();
    Setting {
        place,
        level: level_with(
            graph.locks.as_slice(),
            state.locks.as_slice(),
            entry_level(place),
        ),
        registered: is_registered(callbacks, place),
        all_registered: are_paired(callbacks),
    }
}

/// The same setting for a reader that doesn't ask which callbacks are registered.
pub(crate) fn standing_of(graph: &Graph, callback: usize, state: &Abs) -> Setting
    ensures { result ≡ spec.unregistered (spec.setting_of graph.now callback state.now) }
{
    let place = graph.place(callback);
    let level = level_with(
        graph.locks.as_slice(),
        state.locks.as_slice(),
        entry_level(place),
    );
    Setting {
        place,
        level,
        registered: false,
        all_registered: false,
    }
}

/// A filter's graphs are registered as its callbacks are. It does nothing: its clauses are the law.
#[tactic(auto, using(crate::proofs::Registrations::posts_agree, crate::proofs::Registrations::pairs_agree))]
pub fn graphs_are_registered_alike()
    ensures posts { (all cs : List Callback) (gs : List CallbackGraph) (kind : Operation) → AreGraphsOf all cs gs →
        spec.has_post gs kind ≡ registered.has_post cs kind }
    ensures pairs { (cs : List Callback) (gs : List CallbackGraph) → AreGraphsOf cs cs gs → spec.are_paired gs ≡ registered.are_paired cs }
{}
