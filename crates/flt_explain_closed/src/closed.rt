//! Whether no step leads out of a set of states.

ghost use Rattle.std.specs.Prelude.{◌≡◌, ℕ, Bool, List, IsTrue};
ghost use Rattle.std.specs.List.{list_all};
ghost use Rattle.flt_graph.specs.declared.graph.Graph.{Graph};
ghost use Rattle.flt_explain_closed.specs.declared.member.Member.{Member};
ghost use Rattle.flt_explain_closed.specs.Closed as spec;

use crate::member::Member;
use flt_abs::{
    Abs, Successor, Successors, is_entry_below, is_partial_order, leads_past,
    leads_past_follows_situations, leq,
};
use flt_graph::{Graph, Place};

/// The state as it is followed: with its locks, or without.
fn seen_state(state: &Abs, locks: bool) -> Abs
    ensures { result ≡ spec.seen_state locks state.now }
{
    if locks {
        state.copied()
    } else {
        state.without_locks()
    }
}

/// Whether the member of a number is at a point, and has a state.
fn has(members: &[Member], number: usize, point: usize, state: &Abs) -> bool
    ensures { result ≡ spec.has members.now number point state.now }
{
    match members.get(number) {
        Some(member) => member.point == point && leq(state, &member.state),
        None => false,
    }
}

/// Whether the member of a number has what follows, if something does.
fn has_next(members: &[Member], locks: bool, number: usize, next: &Option<Successor>) -> bool
    ensures { result ≡ spec.has_next members.now locks number next.now }
{
    match next {
        Some(next) => has(members, number, next.point, &seen_state(&next.state, locks)),
        None => true,
    }
}

/// Whether the set has all that follows a member.
fn is_kept(graph: &Graph, callback: usize, locks: bool, members: &[Member], member: &Member) -> bool
    ensures { result ≡ spec.is_kept graph.now callback locks members.now member.now }
{
    let Successors { first, second } = leads_past(graph, callback, member.point, &member.state);
    has_next(members, locks, member.granted, &first)
        && has_next(members, locks, member.refused, &second)
}

/// Whether the first member is at point 0, and has all situations of the entry.
fn is_entered(place: Place, members: &[Member]) -> bool
    ensures { result ≡ spec.is_entered place members.now }
{
    match members {
        [first, ..] => first.point == 0 && is_entry_below(place, &first.state),
        [] => false,
    }
}

/// Whether the set has all that follows each of these members.
fn are_kept(
    graph: &Graph,
    callback: usize,
    locks: bool,
    members: &[Member],
    these: &[Member],
) -> bool
    ensures { result ≡ list_all (spec.is_kept graph.now callback locks members.now) these.now }
{
    these
        .iter()
        .all(|member| is_kept(graph, callback, locks, members, member))
}

/// Whether the set has the entry, and all that follows each member.
fn passes(graph: &Graph, callback: usize, locks: bool, members: &[Member]) -> bool
    ensures { result ≡ spec.is_closed graph.now callback locks members.now }
{
    is_entered(graph.place(callback), members) && are_kept(graph, callback, locks, members, members)
}

/// A set is closed if `is_closed` finds that it is. It does nothing at run time: its clause is a law.
pub fn closed_sets_are_closed()
    ensures { (g : Graph) (k : ℕ) (locks : Bool) (ms : List Member) → IsTrue (spec.is_closed g k locks ms) → spec.IsClosed g k locks ms }
{
    is_partial_order();
    leads_past_follows_situations();
}

/// Whether a set of states has all situations of a callback's entry, and no step leads out of it, whatever rules are broken on the path; if
/// `locks` is false, whichever locks are held. Callbacks and points count from 0.
pub fn is_closed(graph: &Graph, callback: usize, locks: bool, members: &[Member]) -> bool
    ensures value { result ≡ spec.is_closed graph.now callback locks members.now }
    ensures meaning { IsTrue result → spec.IsClosed graph.now callback locks members.now }
{
    closed_sets_are_closed();
    passes(graph, callback, locks, members)
}
