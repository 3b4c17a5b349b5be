//! Where a point leads, kept from point to point.

ghost use Rattle.std.specs.Prelude.{◌≡◌, None, Some, IfSome, IfNone};
ghost use Rattle.flt_abs.specs.Leads as spec;

use crate::state::Abs;
use crate::step::{Successor, Successors};
use std::marker::Model;

/// The point that follows, if one does, and the state with which it is reached.
#[derive(Drop)]
pub(crate) struct Lead {
    pub(crate) point: Option<usize>,
    pub(crate) state: Abs,
}

/// Writes a state over another one.
#[inline(always)]
fn set(state: &mut Abs, to: &Abs)
    ensures { state.new ≡ to.now }
{
    state.contexts = to.contexts;
    state.operations = to.operations;
    state.modes = to.modes;
    state.draining = to.draining;
    state.locks.set_to(&to.locks);
}

impl Lead {
    /// No point follows.
    fn none(state: &Abs) -> Lead
        ensures { result ≡ record { point = None; state = state.now } }
    {
        Lead {
            point: None,
            state: state.copied(),
        }
    }

    /// The point is reached with this state, which is written over the one before.
    #[inline(always)]
    pub(crate) fn reach(&mut self, point: usize, state: &Abs)
        ensures { self.new ≡ record { point = Some point; state = state.now } }
    {
        self.point = Some(point);
        set(&mut self.state, state);
    }

    fn into_successor(self) -> Option<Successor>
        ensures { result ≡ spec.lead self }
    {
        match self.point {
            Some(point) => Some(Successor {
                point,
                state: self.state,
            }),
            None => None,
        }
    }
}

/// Where a point leads, as `Successors`. It is kept from point to point: a state is written over the one before, while a value that is
/// handed back is copied each time.
#[derive(Drop)]
pub struct Leads {
    pub(crate) first: Lead,
    pub(crate) second: Lead,
}

impl Model for Leads {
    ghost use Rattle.flt_abs.specs.Leads.{lead};
    ghost use Rattle.flt_abs.specs.declared.step.Successors.{Successors};

    ghost Value = { Successors };

    ghost view = { λ l. record { first = lead l.first; second = lead l.second } };
}

impl Leads {
    /// No point follows. The state is copied twice, for the memory alone.
    pub fn none(state: &Abs) -> Leads
        ensures { result ≡ record { first = None; second = None } }
    {
        Leads {
            first: Lead::none(state),
            second: Lead::none(state),
        }
    }

    /// No point follows.
    pub fn clear(&mut self)
        ensures { self.new ≡ record { first = None; second = None } }
    {
        self.first.point = None;
        self.second.point = None;
    }

    /// The first point that follows, from 0, and its state.
    #[inline(always)]
    pub fn first(&self) -> Option<(usize, &Abs)>
        ensures { spec.lent result ≡ self.now.first }
    {
        match self.first.point {
            Some(point) => Some((point, &self.first.state)),
            None => None,
        }
    }

    /// The second point that follows, from 0, and its state.
    #[inline(always)]
    pub fn second(&self) -> Option<(usize, &Abs)>
        ensures { spec.lent result ≡ self.now.second }
    {
        match self.second.point {
            Some(point) => Some((point, &self.second.state)),
            None => None,
        }
    }

    pub(crate) fn into_successors(self) -> Successors
        ensures { result ≡ self }
    {
        Successors {
            first: self.first.into_successor(),
            second: self.second.into_successor(),
        }
    }
}
