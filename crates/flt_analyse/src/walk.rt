//! The walk over the points of one callback.

ghost use Rattle.std.specs.Prelude.{◌≡◌, ◌≢◌, ◌<◌, ◌≤◌, ◌+◌, length, slice_index_or, None, Ok, Err, OnOk, IfOk, IfErr, IfSome, IfNone};
ghost use Rattle.flt_abs.specs.Leads.{lent};
ghost use Rattle.flt_graph.specs.Graph.{points_at};
ghost use Rattle.flt_analyse.specs.Least as answer;
ghost use Rattle.flt_analyse.specs.Columns.{Column, ProperNext, ProperSteps};
ghost use Rattle.flt_analyse.specs.Pending.{least};
ghost use Rattle.flt_analyse.specs.Ticks.{one_at};
ghost use Rattle.flt_analyse.specs.Walk as spec;

use crate::fault::AnalyseFault;
use crate::pending::Pending;
use crate::ticks::Ticks;
use flt_abs::{
    Abs, Leads, LocksDiffer, entry_state, join, joins_are_least, leq, transfer_is_monotone,
};
use flt_graph::Graph;
use flt_rules::{Refusal, Rule};
use sqlite_items::Items;
use std::alloc::{AllocError, Global};
use std::sync::ledger::Ledger;

/// The states found so far at the points of a callback, and which points are pending.
#[derive(Drop)]
pub(crate) struct Walk {
    pub(crate) points: Items<Option<Abs>>,
    pub(crate) pending: Pending,
}

/// A state has no empty set. It does nothing: its clause is the invariant of the type.
fn is_proper(lead: Option<(usize, &Abs)>)
    ensures { ProperNext (lent lead.entry) }
{
    if let Some((_point, state)) = lead {
        let _sets = state.contexts();
    }
}

impl Walk {
    /// The callback is entered, and nothing else is reached.
    fn open(alloc: Global, graph: &Graph, callback: usize) -> Result<Walk, AllocError>
        requires callback { callback < length graph.now.callbacks }
        requires some { 0 < points_at graph.now callback }
        ensures { IfOk result (λ w. w ≡ spec.opening graph.now callback) }
    {
        let mut room = Vec::new(alloc);
        room.reserve(graph.points(callback))?;
        let mut points = Items::from_vec(room);
        'points: for _point in 0..graph.points(callback) {
            points.push(None)?;
        }
        points.set(0, Some(entry_state(alloc, graph.place(callback))));
        let mut pending = Pending::none();
        pending.insert(0);
        Ok(Walk { points, pending })
    }

    /// Takes the least point that is pending.
    fn take(&mut self) -> Option<usize>
        ensures value { result ≡ least self.old.pending }
        ensures some { IfSome result (λ p. self.new ≡ spec.taken self.old p) }
        ensures none { IfNone result (self.new ≡ self.old) }
    {
        self.pending.take_least()
    }

    /// A point has this state from now on, and is pending.
    fn arrive(&mut self, point: usize, state: Abs)
        requires point { point < length self.old.points }
        requires few { length self.old.points ≤ 512 }
        ensures { self.new ≡ spec.arrived self.old point state }
    {
        self.points.set(point, Some(state));
        self.pending.insert(point);
    }

    /// A state leads to a point, and is joined to the state found there.
    ///
    /// # Errors
    ///
    /// The rule that this breaks: other locks were held there, or there is no such point.
    #[inline(always)]
    fn reach(&mut self, lead: Option<(usize, &Abs)>) -> Result<(), Rule>
        requires few { length self.old.points ≤ 512 }
        ensures ok { OnOk result (spec.reach self.old (lent lead.entry) ≡ Ok self.new) }
        ensures err { IfErr result (λ r. spec.reach self.old (lent lead.entry) ≡ Err r) }
    {
        match lead {
            Some((point, state)) => self.reach_point(point, state),
            None => Ok(()),
        }
    }

    /// The same of the point and the state.
    #[inline(never)]
    #[tactic(auto, using(flt_abs::specs::LockLaws::same_locks_decides))]
    fn reach_point(&mut self, point: usize, state: &Abs) -> Result<(), Rule>
        requires few { length self.old.points ≤ 512 }
        ensures ok { OnOk result (spec.reach self.old (Some (record { point = point; state = state.now })) ≡ Ok self.new) }
        ensures err { IfErr result (λ r. spec.reach self.old (Some (record { point = point; state = state.now })) ≡ Err r) }
    {
        if self.points.len() <= point {
            return Err(Rule::R14);
        }
        let joined = match &self.points.as_slice()[point] {
            None => state.copied(),
            Some(found) if leq(state, found) => return Ok(()),
            Some(found) => match join(found, state) {
                Ok(joined) => joined,
                Err(LocksDiffer) => return Err(Rule::R12),
            },
        };
        self.arrive(point, joined);
        Ok(())
    }

    /// Where a point leads from the state found there.
    ///
    /// # Errors
    ///
    /// The least rule that it breaks.
    fn follow<L: Ledger, const CALLBACK: usize, const POINT: usize>(
        &self,
        graph: &Graph,
        callback: usize,
        point: usize,
        ticks: &mut Ticks<L, CALLBACK, POINT>,
        leads: &mut Leads,
    ) -> Result<(), Rule>
        requires callback { callback < length graph.now.callbacks }
        requires point { point < points_at graph.now callback }
        requires count { length self.now.points ≡ points_at graph.now callback }
        ensures ok { OnOk result (spec.outcome_at graph.now callback point (slice_index_or self.now.points point None) ≡ Ok leads.new) }
        ensures err { IfErr result (λ r. spec.outcome_at graph.now callback point (slice_index_or self.now.points point None) ≡ Err r) }
        ensures proper { ProperSteps (spec.outcome_at graph.now callback point (slice_index_or self.now.points point None)) }
        ensures count { ticks.new ≤ ticks.old + one_at CALLBACK POINT callback point }
    {
        let Some(state) = &self.points.as_slice()[point] else {
            leads.clear();
            return Ok(());
        };
        if let Some(rule) = ticks.transfer_into(graph, callback, point, state, leads) {
            return Err(rule);
        }
        is_proper(leads.first());
        is_proper(leads.second());
        Ok(())
    }

    /// Looks at a point that was taken: its successors are reached, the one where a call succeeds or a test holds first.
    ///
    /// # Errors
    ///
    /// The first rule that this breaks.
    fn look<L: Ledger, const CALLBACK: usize, const POINT: usize>(
        &mut self,
        graph: &Graph,
        callback: usize,
        point: usize,
        ticks: &mut Ticks<L, CALLBACK, POINT>,
        leads: &mut Leads,
    ) -> Result<(), Rule>
        requires callback { callback < length graph.now.callbacks }
        requires point { point < points_at graph.now callback }
        requires count { length self.old.points ≡ points_at graph.now callback }
        requires few { length self.old.points ≤ 512 }
        ensures ok { OnOk result (spec.look graph.now callback point self.old ≡ Ok self.new) }
        ensures err { IfErr result (λ r. spec.look graph.now callback point self.old ≡ Err r) }
        ensures proper { ProperSteps (spec.outcome_at graph.now callback point (slice_index_or self.old.points point None)) }
        ensures count { ticks.new ≤ ticks.old + one_at CALLBACK POINT callback point }
    {
        self.follow(graph, callback, point, ticks, leads)?;
        self.reach(leads.first())?;
        self.reach(leads.second())
    }

    /// Looks at the least pending point until none is pending, from where the callback is entered.
    ///
    /// # Errors
    ///
    /// Where a look stops, and at which rule.
    fn go_on<L: Ledger, const CALLBACK: usize, const POINT: usize>(
        &mut self,
        graph: &Graph,
        callback: usize,
        ticks: &mut Ticks<L, CALLBACK, POINT>,
        leads: &mut Leads,
    ) -> Result<(), Refusal>
        requires callback { callback < length graph.now.callbacks }
        requires some { 0 < points_at graph.now callback }
        requires few { points_at graph.now callback < 513 }
        requires opening { self.old ≡ spec.opening graph.now callback }
        ensures column { OnOk result (Column graph.now callback self.new.points) }
        ensures stop { IfErr result (answer.IsStop graph.now callback) }
        ensures count { ticks.new ≤ ticks.old + 31 }
        ensures other { CALLBACK ≢ callback → ticks.new ≤ ticks.old }
    {
        joins_are_least();
        transfer_is_monotone();
        'looks: while let Some(point) = self.take() {
            if let Err(rule) = self.look(graph, callback, point, ticks, leads) {
                return Err(Refusal {
                    callback,
                    point,
                    line: graph.line(callback, point),
                    rule,
                });
            }
        }
        Ok(())
    }
}

/// The least that covers the points of a callback.
pub(crate) fn walk_callback<L: Ledger, const CALLBACK: usize, const POINT: usize>(
    alloc: Global,
    graph: &Graph,
    callback: usize,
    ticks: &mut Ticks<L, CALLBACK, POINT>,
) -> Result<Items<Option<Abs>>, AnalyseFault>
    requires callback { callback < length graph.now.callbacks }
    requires some { 0 < points_at graph.now callback }
    requires few { points_at graph.now callback < 513 }
    ensures column { IfOk result (λ points. Column graph.now callback points) }
    ensures stop { IfErr result (λ f. answer.IfRefused f (answer.IsStop graph.now callback)) }
    ensures count { ticks.new ≤ ticks.old + 31 }
    ensures other { CALLBACK ≢ callback → ticks.new ≤ ticks.old }
{
    let mut walk = Walk::open(alloc, graph, callback)?;
    let mut leads = Leads::none(&entry_state(alloc, graph.place(callback)));
    let walked = walk.go_on(graph, callback, ticks, &mut leads);
    drop(leads);
    if let Err(refusal) = walked {
        return Err(AnalyseFault::Refused(refusal));
    }
    Ok(walk.points)
}
