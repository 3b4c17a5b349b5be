//! The walk over the points of one callback, past the faults there.

ghost use Rattle.std.specs.Prelude.{◌≡◌, ◌<◌, length, OnOk, IfOk, IfSome, is_some};
ghost use Rattle.std.specs.Option.{option_copied};
ghost use Rattle.flt_analyse.specs.Pending.{least};
ghost use Rattle.flt_explain.specs.ByPoint.{AreBefore, AreByPoint};
ghost use Rattle.flt_explain.specs.Pending.{IsClear, earliest as earliest_by};
ghost use Rattle.flt_explain.specs.Told.{at_point};
ghost use Rattle.flt_explain.specs.Walk as spec;

use crate::at_point::faults;
use crate::by_point::ByPoint;
use crate::finding::{Fault, Finding};
use crate::locks::Locks;
use crate::sight::{Sight, Way, Ways};
use crate::tell::Spot;
use flt_abs::Abs;
use flt_graph::Graph;
use sqlite_items::Items;
use std::alloc::{AllocError, Global};

/// How often a point is looked at, at most. Each time but the first its sets have grown, an empty one has come back, or a lock is unsure.
const LOOKS: usize = 80;

/// The sights at the points of a callback so far, and which points are pending.
#[derive(Drop)]
struct Walk {
    points: Items<Option<Sight>>,
    pending: Items<bool>,
}

/// The least flag that is set, from 0. No flag before a number is set.
#[tactic(auto, using(crate::proofs::Clearing::first_set, crate::proofs::Clearing::none_set, crate::proofs::Clearing::one_more))]
fn first(flags: &[bool], from: usize) -> Option<usize>
    requires { IsClear from flags.now }
    ensures value { result ≡ least flags.now }
    ensures within { IfSome result (λ point. point < length flags.now) }
    ensures clear { IfSome result (λ point. IsClear point flags.now) }
{
    for place in from..flags.len() {
        if flags[place] {
            return Some(place);
        }
    }
    None
}

/// The least of a number and the point of a path.
fn earliest(number: usize, way: &Option<Way>) -> usize
    ensures { result ≡ earliest_by number way.now }
{
    match way {
        Some(way) => number.min(way.point),
        None => number,
    }
}

impl Walk {
    /// A walk in which nothing is reached.
    fn blank(alloc: Global, count: usize) -> Result<Walk, AllocError>
        ensures { IfOk result (λ w. w ≡ spec.blank count) }
    {
        let mut points = Items::new(alloc);
        let mut pending = Items::new(alloc);
        for _point in 0..count {
            points.push(None)?;
            pending.push(false)?;
        }
        Ok(Walk { points, pending })
    }

    /// A walk in which the callback is entered, and nothing else is reached.
    #[tactic(auto, unfolding(crate::specs::Walk::opened))]
    fn open(alloc: Global, graph: &Graph, callback: usize) -> Result<Walk, AllocError>
        ensures { IfOk result (λ w. w ≡ spec.opened graph.now callback) }
    {
        let mut walk = Walk::blank(alloc, graph.points(callback))?;
        walk.arrive(0, Sight::entry(alloc, graph.place(callback)));
        Ok(walk)
    }

    /// Marks a point as pending, or as no longer pending.
    fn mark(&mut self, point: usize, is_pending: bool)
        ensures { self.new ≡ spec.marked self.old point is_pending }
    {
        if point < self.pending.len() {
            self.pending.set(point, is_pending);
        }
    }

    /// Replaces the sight at a point, and marks the point as pending.
    fn arrive(&mut self, point: usize, sight: Sight)
        ensures { self.new ≡ spec.arrived self.old point sight }
    {
        if point < self.points.len() {
            self.points.set(point, Some(sight));
        }
        self.mark(point, true);
    }

    /// Takes the least point that is pending. No point before a number is.
    #[tactic(auto, using(crate::proofs::Clearing::still_clear))]
    fn take(&mut self, from: usize) -> Option<usize>
        requires { IsClear from self.old.pending }
        ensures point { result ≡ spec.first_pending self.old }
        ensures within { IfSome result (λ point. point < length self.old.pending) }
        ensures clear { IfSome result (λ point. IsClear point self.new.pending) }
        ensures rest { self.new ≡ spec.taken_if self.old result }
    {
        let point = first(self.pending.as_slice(), from)?;
        self.mark(point, false);
        Some(point)
    }

    /// The sight at a point, if it is reached.
    #[tactic(auto, using(crate::proofs::Reading::found, crate::proofs::Reading::missing))]
    fn known(&self, point: usize) -> Option<&Sight>
        ensures { option_copied result ≡ spec.known self.now point }
    {
        match self.points.get(point) {
            Some(sight) => sight.as_ref(),
            None => None,
        }
    }

    /// The locks by which a path to a point differs from those that led there before.
    fn apart(&self, point: usize, sight: &Sight) -> Locks
        ensures { result ≡ spec.apart (spec.known self.now point) sight.now }
    {
        match self.known(point) {
            Some(found) => found.differing(sight),
            None => Locks::none(),
        }
    }

    /// The new sight at a point after a path came to it; none if that adds nothing.
    fn news(&self, point: usize, sight: Sight) -> Option<Sight>
        ensures { result ≡ spec.news (spec.known self.now point) sight }
    {
        match self.known(point) {
            Some(found) => found.joined(&sight),
            None => Some(sight),
        }
    }

    /// Takes a path to its point, and returns the locks by which it differs from those that led there before.
    #[tactic(auto, unfolding(crate::specs::Walk::met, crate::specs::Walk::reached))]
    fn reach(&mut self, way: Option<Way>) -> Locks
        ensures differ { result ≡ spec.met self.old way }
        ensures reached { self.new ≡ spec.reached self.old way }
    {
        let Some(Way { point, sight }) = way else {
            return Locks::none();
        };
        let differ = self.apart(point, &sight);
        if let Some(sight) = self.news(point, sight) {
            self.arrive(point, sight);
        }
        differ
    }

    /// Follows both paths from a point. The findings there are these.
    #[tactic(auto, unfolding(crate::specs::Walk::led))]
    fn follow(
        &mut self,
        spot: Spot,
        ways: Ways,
        here: &mut Items<Finding>,
        findings: &mut Items<Finding>,
    ) -> Result<(), AllocError>
        requires { here.old ≡ at_point spot.callback spot.point findings.old }
        ensures led { OnOk result (spec.progress self.new findings.new ≡ spec.led spot ways (spec.progress self.old findings.old)) }
        ensures here { OnOk result (here.new ≡ at_point spot.callback spot.point findings.new) }
    {
        let first = self.reach(ways.first);
        spot.tell_locks(here, findings, &first)?;
        let second = self.reach(ways.second);
        spot.tell_locks(here, findings, &second)?;
        Ok(())
    }

    /// Looks at a point that was taken: reports its faults, and continues as if it had none. The findings there are these. Returns from
    /// where on points are pending, at the earliest.
    #[tactic(auto, using(crate::proofs::Looks::looked_by), unfolding(crate::specs::Walk::looked))]
    fn look(
        &mut self,
        alloc: Global,
        graph: &Graph,
        spot: Spot,
        here: &mut Items<Finding>,
        findings: &mut Items<Finding>,
    ) -> Result<usize, AllocError>
        requires clear { IsClear spot.point self.old.pending }
        requires here { here.old ≡ at_point spot.callback spot.point findings.old }
        ensures clear { IfOk result (λ from. IsClear from self.new.pending) }
        ensures looked { OnOk result
            (spec.progress self.new findings.new ≡ spec.looked graph.now spot (spec.progress self.old findings.old)) }
        ensures here { OnOk result (here.new ≡ at_point spot.callback spot.point findings.new) }
    {
        let Some(sight) = self.known(spot.point) else {
            return Ok(spot.point);
        };
        let faults = wrong(alloc, graph, spot, &sight.state)?;
        spot.tell_faults(here, findings, sight, faults.as_slice())?;
        let ways = sight.past(graph, spot.callback, spot.point, faults.as_slice());
        let from = earliest(earliest(spot.point, &ways.first), &ways.second);
        self.follow(spot, ways, here, findings)?;
        Ok(from)
    }

    /// Looks at the least pending point, if there is one. No point before a number is pending, and the findings of the callback are these,
    /// by their points. Returns from where on points are pending then, at the earliest.
    #[tactic(auto, unfolding(crate::specs::Walk::step))]
    fn step(
        &mut self,
        alloc: Global,
        graph: &Graph,
        callback: usize,
        from: usize,
        by_point: &mut ByPoint,
        findings: &mut Items<Finding>,
    ) -> Result<Option<usize>, AllocError>
        requires clear { IsClear from self.old.pending }
        requires wide { length by_point.old.lists ≡ length self.old.pending }
        requires by_point { AreByPoint callback by_point.old.lists findings.old }
        ensures pending { IfOk result (λ next. is_some next ≡ is_some (spec.first_pending self.old)) }
        ensures clear { IfOk result (λ next. IfSome next (λ point. IsClear point self.new.pending)) }
        ensures walk { OnOk result (self.new ≡ (spec.step graph.now callback (spec.progress self.old findings.old)).walk) }
        ensures found { OnOk result (findings.new ≡ (spec.step graph.now callback (spec.progress self.old findings.old)).found) }
        ensures wide { OnOk result (length by_point.new.lists ≡ length self.new.pending) }
        ensures by_point { OnOk result (AreByPoint callback by_point.new.lists findings.new) }
    {
        let Some(point) = self.take(from) else {
            return Ok(None);
        };
        let mut here = by_point.copied(alloc, point)?;
        let spot = spot(graph, callback, point);
        let next = self.look(alloc, graph, spot, &mut here, findings)?;
        by_point.replace(point, here);
        Ok(Some(next))
    }
}

/// The faults at a point.
#[tactic(auto, unfolding(crate::specs::Walk::wrong))]
fn wrong(alloc: Global, graph: &Graph, spot: Spot, state: &Abs) -> Result<Items<Fault>, AllocError>
    ensures { IfOk result (λ fs. fs ≡ spec.wrong graph.now spot state.now) }
{
    let faults = faults(alloc, graph, spot.callback, spot.point, state)?;
    Ok(faults)
}

/// A point of a callback, where findings are reported.
fn spot(graph: &Graph, callback: usize, point: usize) -> Spot
    ensures { result ≡ spec.spot graph.now callback point }
{
    Spot {
        callback,
        point,
        line: graph.line(callback, point),
    }
}

/// Reports all faults in a callback. The findings so far are in callbacks before it.
#[tactic(auto, using(crate::proofs::Looks::one_look, crate::proofs::Looks::no_look, crate::proofs::Looks::no_more), unfolding(crate::specs::Walk::walked))]
pub(crate) fn walk_callback(
    alloc: Global,
    graph: &Graph,
    callback: usize,
    findings: &mut Items<Finding>,
) -> Result<(), AllocError>
    requires { AreBefore callback findings.old }
    ensures { OnOk result (findings.new ≡ spec.walked graph.now callback findings.old) }
{
    let mut walk = Walk::open(alloc, graph, callback)?;
    let mut by_point = ByPoint::none(alloc, graph.points(callback))?;
    let mut from = 0;
    for _look in 0..graph.points(callback).saturating_mul(LOOKS) {
        match walk.step(alloc, graph, callback, from, &mut by_point, findings)? {
            Some(next) => from = next,
            None => return Ok(()),
        }
    }
    Ok(())
}
