//! The targets of a search: violations at points of callbacks, and anywhere in them.

use flt_model::Violation;
use flt_search_plan::Plan;
use flt_search_world::{MAX_FILTERS, VIOLATIONS, Violations};
use std::alloc::{AllocError, Global};

/// The point at which an activation is: filters from the highest, callbacks and points from 0.
#[derive(Clone, Copy)]
pub struct Stand {
    pub filter: u8,
    pub callback: usize,
    pub point: usize,
}

/// The first break of each violation, by its number.
#[derive(Clone, Copy)]
pub struct Firsts {
    breaks: [Option<usize>; 8],
}

const NO_FIRSTS: Firsts = Firsts { breaks: [None; 8] };

fn number_of(violation: Violation) -> usize {
    match violation {
        Violation::V1 => 0,
        Violation::V2 => 1,
        Violation::V3 => 2,
        Violation::V4 => 3,
        Violation::V5 => 4,
        Violation::V6 => 5,
        Violation::V7 => 6,
        Violation::V8 => 7,
    }
}

impl Firsts {
    /// The number of the first break of a violation.
    pub fn get(&self, violation: Violation) -> Option<usize> {
        match self.breaks.get(number_of(violation)) {
            Some(found) => *found,
            None => None,
        }
    }

    fn put(&mut self, violation: Violation, number: usize) {
        if let Some(found) = self.breaks.get_mut(number_of(violation)) {
            *found = Some(number);
        }
    }
}

/// A point, or a whole callback.
#[derive(Clone, Copy)]
pub(crate) struct Target {
    /// The violations that are sought there.
    pub(crate) wanted: Violations,
    pub(crate) firsts: Firsts,
    /// The last goal that was added.
    goal: Option<usize>,
}

const NO_TARGET: Target = Target {
    wanted: Violations::NOTHING,
    firsts: NO_FIRSTS,
    goal: None,
};

/// A callback: the targets at any of its points, and in one of them.
#[derive(Drop)]
struct Callback {
    filter: u8,
    callback: usize,
    /// The target anywhere in it.
    anywhere: Target,
    /// The violations sought at a point of it or anywhere.
    whole: Target,
    points: Vec<Target>,
}

/// A goal that isn't met.
#[derive(Clone, Copy)]
struct Open {
    wanted: Violations,
    /// The goal that was added before it at its target.
    before: Option<usize>,
    is_open: bool,
}

/// All targets of a search.
#[derive(Drop)]
pub struct Targets {
    callbacks: Vec<Callback>,
    goals: Vec<Open>,
    /// The points at which activations wait for one another in the deadlock that is sought, or none if no deadlock is.
    pub(crate) circle: Vec<Stand>,
    /// The number of open goals.
    pub(crate) open: usize,
}

/// A break as it counts for targets.
#[derive(Clone, Copy)]
pub(crate) struct Met {
    pub(crate) stand: Stand,
    pub(crate) violation: Violation,
    /// Its number.
    pub(crate) number: usize,
}

fn targets_of(alloc: Global, points: usize) -> Result<Vec<Target>, AllocError> {
    let mut targets = Vec::new(alloc);
    for _ in 0..points {
        targets.push(NO_TARGET)?;
    }
    Ok(targets)
}

fn add_all(wanted: &mut Violations, more: Violations) {
    for violation in VIOLATIONS {
        if more.contains(violation) {
            wanted.add(violation);
        }
    }
}

impl Callback {
    /// The target of a goal.
    fn target(&mut self, point: Option<usize>) -> Option<&mut Target> {
        match point {
            Some(point) => self.points.get_mut(point),
            None => Some(&mut self.anywhere),
        }
    }
}

impl Targets {
    /// No target in any callback of some filters.
    ///
    /// # Errors
    ///
    /// `AllocError` if a growth is refused.
    pub fn new(alloc: Global, plan: &Plan) -> Result<Targets, AllocError> {
        let mut callbacks = Vec::new(alloc);
        for filter in 0..MAX_FILTERS {
            for callback in 0..plan.callbacks(filter) {
                callbacks.push(Callback {
                    filter,
                    callback,
                    anywhere: NO_TARGET,
                    whole: NO_TARGET,
                    points: targets_of(alloc, plan.points(filter, callback))?,
                })?;
            }
        }
        Ok(Targets {
            callbacks,
            goals: Vec::new(alloc),
            circle: Vec::new(alloc),
            open: 0,
        })
    }

    /// The targets of a search for a deadlock alone: activations at these points, none of which can continue.
    ///
    /// # Errors
    ///
    /// `AllocError` if a growth is refused.
    pub fn of_circle(alloc: Global, plan: &Plan, circle: &[Stand]) -> Result<Targets, AllocError> {
        let mut targets = Targets::new(alloc, plan)?;
        for stand in circle {
            targets.circle.push(*stand)?;
        }
        targets.open = 1;
        Ok(targets)
    }

    fn callback(&mut self, filter: u8, callback: usize) -> Option<&mut Callback> {
        for own in self.callbacks.iter_mut() {
            if own.filter == filter && own.callback == callback {
                return Some(own);
            }
        }
        None
    }

    fn found(&self, filter: u8, callback: usize) -> Option<&Callback> {
        for own in self.callbacks.iter() {
            if own.filter == filter && own.callback == callback {
                return Some(own);
            }
        }
        None
    }

    /// Adds violations to seek, at a point of a callback or anywhere in it.
    ///
    /// # Errors
    ///
    /// `AllocError` if a growth is refused.
    pub fn add(
        &mut self,
        filter: u8,
        callback: usize,
        point: Option<usize>,
        wanted: Violations,
    ) -> Result<(), AllocError> {
        let number = self.goals.len();
        let mut before = None;
        if let Some(own) = self.callback(filter, callback) {
            add_all(&mut own.whole.wanted, wanted);
            if let Some(target) = own.target(point) {
                add_all(&mut target.wanted, wanted);
                before = target.goal;
                target.goal = Some(number);
            }
        }
        self.goals.push(Open {
            wanted,
            before,
            is_open: true,
        })?;
        self.open = self.open.saturating_add(1);
        Ok(())
    }

    /// Meets the goals from one on that want a violation.
    fn close(&mut self, goal: Option<usize>, violation: Violation) {
        let mut next = goal;
        for _ in 0..self.goals.len() {
            let Some(number) = next else {
                return;
            };
            let Some(open) = self.goals.get_mut(number) else {
                return;
            };
            next = open.before;
            if open.is_open && open.wanted.contains(violation) {
                open.is_open = false;
                self.open = self.open.saturating_sub(1);
            }
        }
    }

    /// The first breaks of each violation at a point, and in its callback.
    pub fn firsts(&self, stand: Stand) -> (Firsts, Firsts) {
        match self.found(stand.filter, stand.callback) {
            Some(own) => match own.points.get(stand.point) {
                Some(target) => (target.firsts, own.whole.firsts),
                None => (NO_FIRSTS, own.whole.firsts),
            },
            None => (NO_FIRSTS, NO_FIRSTS),
        }
    }

    /// Whether a violation is sought at a point, and in the callback.
    pub fn wants(&self, stand: Stand, violation: Violation) -> (bool, bool) {
        match self.found(stand.filter, stand.callback) {
            Some(own) => match own.points.get(stand.point) {
                Some(target) => (
                    target.wanted.contains(violation),
                    own.whole.wanted.contains(violation),
                ),
                None => (false, own.whole.wanted.contains(violation)),
            },
            None => (false, false),
        }
    }

    /// Whether something is sought in a callback.
    pub(crate) fn is_looked_in(&self, filter: u8, callback: usize) -> bool {
        match self.found(filter, callback) {
            Some(own) => !own.whole.wanted.is_empty() || self.is_in_circle(filter, callback),
            None => false,
        }
    }

    /// Whether a point of the circle is in a callback.
    fn is_in_circle(&self, filter: u8, callback: usize) -> bool {
        for stand in self.circle.iter() {
            if stand.filter == filter && stand.callback == callback {
                return true;
            }
        }
        false
    }

    /// Notes a break that stands for its violation at its point.
    pub(crate) fn put_at_point(&mut self, met: Met) {
        let mut goal = None;
        if let Some(own) = self.callback(met.stand.filter, met.stand.callback) {
            if let Some(target) = own.points.get_mut(met.stand.point) {
                target.firsts.put(met.violation, met.number);
                goal = target.goal;
            }
        }
        self.close(goal, met.violation);
    }

    /// Notes a break that stands for its violation in its callback.
    pub(crate) fn put_in_callback(&mut self, met: Met) {
        let mut goal = None;
        if let Some(own) = self.callback(met.stand.filter, met.stand.callback) {
            own.whole.firsts.put(met.violation, met.number);
            if own.anywhere.wanted.contains(met.violation) {
                goal = own.anywhere.goal;
            }
        }
        self.close(goal, met.violation);
    }
}
