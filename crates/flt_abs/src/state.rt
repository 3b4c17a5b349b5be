//! Abstract states, their order and their join.

ghost use Rattle.std.specs.List.{list_all};
ghost use Rattle.flt_abs.specs.Sets.{is_possible};
ghost use Rattle.std.specs.Prelude.{◌≡◌, ◌↔◌, length, IsTrue, IsOk, IfOk, IsSome, IfSome};
ghost use Rattle.flt_abs.specs.State as spec;

use crate::locks::LockList;
use crate::sets::{Draining, Modes, Statuses};
use std::marker::Model;

/// How many variables of contexts a callback has: `c0` to `c7`, then `arg`.
pub const CONTEXTS: usize = 9;

/// How many variables of operations a callback has: `o0` to `o3`, then `data`.
pub const OPERATIONS: usize = 5;

/// The possible situations at a point of a callback: the statuses of each variable, the modes of its operation, whether draining is set,
/// and the locks that it holds. No set is empty, so it means some situation.
#[derive(Drop)]
pub struct Abs {
    pub(crate) contexts: [Statuses; CONTEXTS],
    pub(crate) operations: [Statuses; OPERATIONS],
    pub(crate) modes: Modes,
    pub(crate) draining: Draining,
    pub(crate) locks: LockList,
}

impl Model for Abs {
    ghost use Rattle.std.specs.Prelude.{IsTrue};
    ghost use Rattle.flt_abs.specs.State.{State, state_of, is_proper};

    ghost Value = { State };

    ghost view = { λ a. state_of a.contexts a.operations a.modes a.draining a.locks };

    ghost invariant = { λ a. IsTrue (is_proper (state_of a.contexts a.operations a.modes a.draining a.locks)) };
}

impl Abs {
    /// The state with these sets and locks; none if a set is empty.
    #[inline(always)]
    pub fn new(
        contexts: [Statuses; CONTEXTS],
        operations: [Statuses; OPERATIONS],
        modes: Modes,
        draining: Draining,
        locks: LockList,
    ) -> Option<Abs>
        ensures known { IsSome result ↔ IsTrue (spec.is_proper (spec.state_of contexts operations modes draining locks)) }
        ensures value { IfSome result (λ a. a ≡ spec.state_of contexts operations modes draining locks) }
    {
        let _places = locks.as_slice();
        let sets_possible = are_possible(&contexts) && are_possible(&operations);
        if !(sets_possible && modes.is_possible() && draining.is_possible()) {
            return None;
        }
        Some(Abs {
            contexts,
            operations,
            modes,
            draining,
            locks,
        })
    }

    /// The possible statuses of `c0` to `c7` and `arg`.
    pub fn contexts(&self) -> &[Statuses]
        ensures value { result.now ≡ self.now.contexts }
        ensures proper { IsTrue (spec.is_proper self.now) }
    {
        &self.contexts
    }

    /// The possible statuses of `o0` to `o3` and `data`.
    pub fn operations(&self) -> &[Statuses]
        ensures value { result.now ≡ self.now.operations }
        ensures proper { IsTrue (spec.is_proper self.now) }
    {
        &self.operations
    }

    pub fn modes(&self) -> Modes
        ensures { result ≡ self.now.modes }
    {
        self.modes
    }

    pub fn draining(&self) -> Draining
        ensures { result ≡ self.now.draining }
    {
        self.draining
    }

    pub fn locks(&self) -> &LockList
        ensures { result.now ≡ self.now.locks }
    {
        &self.locks
    }

    /// The same state. It takes no memory.
    #[inline(always)]
    pub fn copied(&self) -> Abs
        ensures { result ≡ self.now }
    {
        Abs {
            contexts: self.contexts,
            operations: self.operations,
            modes: self.modes,
            draining: self.draining,
            locks: self.locks.copied(),
        }
    }
}

/// Whether some status is in each set. It looks at all of them, since a branch for each set takes longer.
#[inline(always)]
fn are_possible(sets: &[Statuses]) -> bool
    ensures { result ≡ list_all is_possible sets.now }
{
    let mut possible = true;
    for index in 0..sets.len() {
        possible &= sets[index].is_possible();
    }
    possible
}

/// The lock lists of two states are not the same, so they have no join.
#[derive(Clone, Copy, Debug)]
pub struct LocksDiffer;

/// Whether each set of the first list is within its set of the second. It looks at all of them, since a branch for each
/// set takes longer.
#[tactic(auto, using(crate::proofs::Order::lengths_differ))]
#[inline(always)]
pub(crate) fn all_within(a: &[Statuses], b: &[Statuses]) -> bool
    ensures { result ≡ spec.all_within a.now b.now }
{
    if a.len() != b.len() {
        return false;
    }
    let mut within = true;
    for index in 0..a.len() {
        within &= a[index].is_within(b[index]);
    }
    within
}

#[inline(always)]
fn is_below(a: &Abs, b: &Abs) -> bool
    ensures { result ≡ spec.is_below a.now b.now }
{
    let locks = a.locks.is_same(&b.locks);
    let modes = a.modes.is_within(b.modes);
    let draining = a.draining.is_within(b.draining);
    let contexts = all_within(&a.contexts, &b.contexts);
    let operations = all_within(&a.operations, &b.operations);
    locks && modes && draining && contexts && operations
}

/// Whether each situation of the first state is one of the second, and both hold the same locks.
pub fn leq(a: &Abs, b: &Abs) -> bool
    ensures value { result ≡ spec.is_below a.now b.now }
    ensures meaning { IsTrue result ↔ spec.IsBelow a.now b.now }
{
    let _sets = a.contexts();
    is_below(a, b)
}

/// Adds to each set the statuses of the other list's set at its place.
pub fn unite(into: &mut [Statuses], other: &[Statuses])
    requires { length into.old ≡ length other.now }
    ensures { into.new ≡ spec.either_all into.old other.now }
{
    for index in 0..into.len() {
        into[index] = into[index].union(other[index]);
    }
}

/// The state of the situations of both, each set the union of theirs.
pub fn join(a: &Abs, b: &Abs) -> Result<Abs, LocksDiffer>
    ensures known { IsOk result ↔ (a.now.locks ≡ b.now.locks) }
    ensures value { IfOk result (λ c. c ≡ spec.join_of a.now b.now) }
    ensures meaning { IfOk result (λ c. spec.IsJoin a.now b.now c) }
{
    if !a.locks.is_same(&b.locks) {
        return Err(LocksDiffer);
    }
    let mut contexts = a.contexts;
    unite(&mut contexts, &b.contexts);
    let mut operations = a.operations;
    unite(&mut operations, &b.operations);
    Ok(Abs {
        contexts,
        operations,
        modes: a.modes.union(b.modes),
        draining: a.draining.union(b.draining),
        locks: a.locks.copied(),
    })
}

/// The order of states is a partial order, also as it is computed, and the computed one is that order. It does nothing: its clauses are the
/// law.
#[tactic(auto, using(crate::proofs::Order::below_same))]
pub fn is_partial_order()
    ensures reflexive { (a : spec.State) → spec.IsBelow a a }
    ensures transitive { (a b c : spec.State) → spec.IsBelow a b → spec.IsBelow b c → spec.IsBelow a c }
    ensures antisymmetric { (a b : spec.State) → IsTrue (spec.is_below a b) → IsTrue (spec.is_below b a) → a ≡ b }
    ensures computed { (a b : spec.State) → IsTrue (spec.is_below a b) → spec.IsBelow a b }
    ensures decided { (a b : spec.State) → IsTrue (spec.is_proper a) → spec.IsBelow a b → IsTrue (spec.is_below a b) }
{}

/// The order of states and their join, as they are computed: the join is the least state above both. It does nothing: its
/// clauses are the law.
pub fn joins_are_least()
    ensures reflexive { (a : spec.State) → IsTrue (spec.is_below a a) }
    ensures transitive { (a b c : spec.State) → IsTrue (spec.is_below a b) → IsTrue (spec.is_below b c) → IsTrue (spec.is_below a c) }
    ensures left { (a b : spec.State) → IsTrue (spec.is_proper a) → IsTrue (spec.is_proper b) →
        IsTrue (spec.is_below a (spec.join_of a b)) }
    ensures right { (a b : spec.State) → IsTrue (spec.is_proper a) → IsTrue (spec.is_proper b) → a.locks ≡ b.locks →
        IsTrue (spec.is_below b (spec.join_of a b)) }
    ensures least { (a b c : spec.State) → IsTrue (spec.is_below a c) → IsTrue (spec.is_below b c) →
        IsTrue (spec.is_below (spec.join_of a b) c) }
    ensures proper { (a b : spec.State) → IsTrue (spec.is_proper a) → IsTrue (spec.is_proper (spec.join_of a b)) }
{}
