//! Single situations: states in which one status of each variable is possible, one mode, and one answer to the draining test.

ghost use Rattle.std.specs.Prelude.{◌≡◌, ◌↔◌, true, IsTrue, IsSome, IfSome, map};
ghost use Rattle.std.specs.List.{list_all};
ghost use Rattle.flt_abs.specs.Entry.{entry};
ghost use Rattle.flt_abs.specs.Outcome.{may_come_out, side as side_of};
ghost use Rattle.flt_abs.specs.State.{Means};
ghost use Rattle.flt_graph.specs.Graph.{instruction_at};
ghost use Rattle.flt_explain_origins.specs.Alone as spec;
ghost use Rattle.flt_explain_origins.specs.Ways as ways;

use crate::answer::Step;
use flt_abs::{
    Abs, CONTEXTS, Draining, Modes, OPERATIONS, Statuses, Successor, Successors, entry_state,
    is_partial_order, leads_past, leq,
};
use flt_graph::{Graph, Place};
use std::alloc::Global;
use std::marker::Model;

/// One status of each variable, a mode, draining or not, and the locks that are held.
#[derive(Drop)]
pub struct Situation {
    state: Abs,
}

impl Model for Situation {
    ghost use Rattle.std.specs.Prelude.{IsTrue};
    ghost use Rattle.flt_abs.specs.State as abs;
    ghost use Rattle.flt_explain_origins.specs.Alone.{situation_in, is_single};

    ghost Value = { abs.Situation };

    ghost view = { λ s. situation_in s.state };

    ghost invariant = { λ s. IsTrue (is_single s.state) };
}

/// A point, from 0, and the situation there.
#[derive(Drop)]
pub struct Moment {
    pub point: usize,
    pub situation: Situation,
}

/// Whether just one status is in a set.
fn is_one(set: Statuses) -> bool
    ensures { result ≡ spec.is_one set }
{
    let digit = set.digit();
    digit == 1 || digit == 2 || digit == 4
}

fn are_one(sets: &[Statuses]) -> bool
    ensures { result ≡ list_all spec.is_one sets.now }
{
    sets.iter().all(|set| is_one(*set))
}

fn is_one_mode(modes: Modes) -> bool
    ensures { result ≡ spec.is_one_mode modes }
{
    let digit = modes.digit();
    digit == 1 || digit == 2
}

fn is_one_draining(draining: Draining) -> bool
    ensures { result ≡ spec.is_one_draining draining }
{
    let digit = draining.digit();
    digit == 1 || digit == 2
}

/// Of NULL or held the one that a call gave; any other set unchanged.
#[tactic(auto, using(crate::proofs::Singles::held_is, crate::proofs::Singles::null_is))]
fn one_of(set: Statuses, gives: bool) -> Statuses
    ensures { result ≡ spec.one_of gives set }
{
    if set.digit() == 3 {
        if gives {
            Statuses::from_digit(2).unwrap()
        } else {
            Statuses::null()
        }
    } else {
        set
    }
}

/// The sets of contexts after a call that may give one gave one, or none.
fn contexts_given(sets: &[Statuses], gives: bool) -> Option<[Statuses; CONTEXTS]>
    ensures { IfSome result (λ given. given ≡ map (spec.one_of gives) sets.now) }
{
    let [a, b, c, d, e, f, g, h, i] = sets else {
        return None;
    };
    Some([
        one_of(*a, gives),
        one_of(*b, gives),
        one_of(*c, gives),
        one_of(*d, gives),
        one_of(*e, gives),
        one_of(*f, gives),
        one_of(*g, gives),
        one_of(*h, gives),
        one_of(*i, gives),
    ])
}

/// The same for operations.
fn operations_given(sets: &[Statuses], gives: bool) -> Option<[Statuses; OPERATIONS]>
    ensures { IfSome result (λ given. given ≡ map (spec.one_of gives) sets.now) }
{
    let [a, b, c, d, e] = sets else {
        return None;
    };
    Some([
        one_of(*a, gives),
        one_of(*b, gives),
        one_of(*c, gives),
        one_of(*d, gives),
        one_of(*e, gives),
    ])
}

/// The state after a call that may give a context gave one, or none.
fn where_given(state: &Abs, gives: bool) -> Option<Abs>
    ensures { IfSome result (λ x. x ≡ spec.where_given gives state.now) }
{
    let contexts = contexts_given(state.contexts(), gives)?;
    let operations = operations_given(state.operations(), gives)?;
    state.with_sets(contexts, operations, state.modes(), state.draining())
}

/// The successor by an outcome.
fn side(next: Successors, granted: bool) -> Option<Successor>
    ensures { result ≡ side_of next granted }
{
    let Successors { first, second } = next;
    if granted { first } else { second }
}

impl Situation {
    /// The situation that a state means, if it means just one.
    #[tactic(auto, using(crate::proofs::Singles::alone_single))]
    pub fn of(state: Abs) -> Option<Situation>
        ensures known { IsSome result ↔ IsTrue (spec.is_single state) }
        ensures value { IfSome result (λ t. spec.alone t ≡ state) }
    {
        let contexts = are_one(state.contexts());
        let operations = are_one(state.operations());
        let single = contexts
            && operations
            && is_one_mode(state.modes())
            && is_one_draining(state.draining());
        if !single {
            return None;
        }
        Some(Situation { state })
    }

    /// The state that means this situation and no other.
    #[tactic(auto, using(crate::proofs::Singles::alone_single))]
    pub fn state(&self) -> &Abs
        ensures { result.now ≡ spec.alone self.now }
    {
        &self.state
    }

    /// A copy of the situation.
    #[tactic(auto, using(crate::proofs::Leading::same_given))]
    pub fn copied(&self) -> Option<Situation>
        ensures { IfSome result (λ t. t ≡ self.now) }
    {
        Situation::of(where_given(self.state(), true)?)
    }

    /// Whether a state means the situation.
    pub(crate) fn is_meant_by(&self, state: &Abs) -> bool
        ensures { IsTrue result → Means state.now self.now }
    {
        leq(self.state(), state)
    }

    /// Whether a callback of the place may be entered in the situation.
    pub fn is_entry(&self, alloc: Global, place: Place) -> bool
        ensures { IsTrue result → Means (entry place) self.now }
    {
        let entry = entry_state(alloc, place);
        self.is_meant_by(&entry)
    }

    /// Whether both are the same.
    #[tactic(auto, using(crate::proofs::Singles::same_alone))]
    pub(crate) fn is_same(&self, other: &Situation) -> bool
        ensures { IsTrue result → self.now ≡ other.now }
    {
        is_partial_order();
        leq(self.state(), other.state()) && leq(other.state(), self.state())
    }

    /// The moment to which the step of a point leads, if the point may have that outcome.
    pub fn after(&self, graph: &Graph, callback: usize, step: Step) -> Option<Moment>
        ensures { IfSome result (λ m. (may_come_out (instruction_at graph.now callback step.point) self.now step.granted ≡ true)
            × (m ≡ ways.moment_after graph.now callback step.point self.now step)) }
    {
        let next = leads_past(graph, callback, step.point, self.state());
        let Successor { point, state } = side(next, step.granted)?;
        let situation = Situation::of(where_given(&state, step.gives)?)?;
        Some(Moment { point, situation })
    }
}
