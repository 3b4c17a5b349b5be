//! The parts of operations, one struct for each record of the machine.

use flt_model::{Outcome, Position};
use flt_rules::Stage;
use std::marker::Model;

/// A post callback that will be called, with its completion context.
#[derive(Clone, Copy)]
pub struct Frame {
    pub filter: usize,
    pub context: Option<usize>,
}

impl Model for Frame {
    ghost use Rattle.flt_model.specs.World as machine;

    ghost Value = { machine.Frame };

    ghost view = { λ f. record { filter = f.filter; context = f.context } };

    ghost inverse = { λ f. record { filter = f.filter; context = f.context } };
}

/// How far an operation has come.
#[derive(Drop)]
pub(crate) struct Route {
    pub(crate) position: Position,
    /// In the order of the filters.
    pub(crate) frames: Vec<Frame>,
    pub(crate) cancelled: bool,
    pub(crate) outcome: Option<Outcome>,
}

impl Model for Route {
    ghost use Rattle.flt_model.specs.World as machine;

    ghost Value = { machine.Route };

    ghost view = { λ r. record { position = r.position; frames = r.frames.items; cancelled = r.cancelled; outcome = r.outcome } };
}

/// One passing of an operation through a filter, before or after those below it; it never changes.
#[derive(Clone, Copy)]
pub struct Visit {
    /// The operation's serial number.
    pub operation: u32,
    pub filter: usize,
    pub stage: Stage,
    /// FLTFL_POST_OPERATION_DRAINING: the post callback only cleans up its completion context.
    pub draining: bool,
}

impl Model for Visit {
    ghost use Rattle.flt_model.specs.World as machine;

    ghost Value = { machine.Visit };

    ghost view = { λ v. record { operation = v.operation; filter = v.filter; stage = v.stage; draining = v.draining } };

    ghost inverse = { λ v. record { operation = v.operation; filter = v.filter; stage = v.stage; draining = v.draining } };
}

/// The start of a callback: a new visit, the filter whose callback it is, and the completion context that its frame kept.
#[derive(Clone, Copy)]
pub struct CallbackStart {
    pub visit: usize,
    pub filter: usize,
    pub context: Option<usize>,
}
