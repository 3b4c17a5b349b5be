//! The parts of operations and activations, with their numbers in four bytes, and with one struct for each record of the machine.

ghost use Rattle.std.specs.Prelude.{◌≡◌, IfOk};

use crate::slot::Slot;
use flt_model::{Outcome, Position};
use flt_rules::{Place, Stage};
use std::alloc::AllocError;
use std::marker::Model;

/// A number in four bytes. It fails if it is 2^32 or greater.
pub(crate) fn in_four_bytes(number: usize) -> Result<u32, AllocError>
    ensures { IfOk result (λ short. short ≡ number) }
{
    match u32::try_from(number) {
        Ok(short) => Ok(short),
        Err(_) => Err(AllocError),
    }
}

/// A post callback that will be called, with its completion context.
#[derive(Drop)]
pub struct Frame {
    pub filter: u32,
    pub(crate) context: Slot,
}

impl Model for Frame {
    ghost use Rattle.flt_model.specs.World as machine;

    ghost Value = { machine.Frame };

    ghost view = { λ f. record { filter = f.filter; context = f.context } };
}

impl Frame {
    /// It fails if the filter's number is 2^32 or greater, or the context's 2^32 - 1 or greater.
    pub fn of(filter: usize, context: Option<usize>) -> Result<Frame, AllocError>
        ensures { IfOk result (λ f. f ≡ record { filter = filter; context = context }) }
    {
        Ok(Frame {
            filter: in_four_bytes(filter)?,
            context: Slot::naming(context)?,
        })
    }

    /// The completion context, or none if it has none.
    pub fn context(&self) -> Option<usize>
        ensures { result ≡ self.now.context }
    {
        self.context.get()
    }
}

/// How far an operation has come.
#[derive(Drop)]
pub struct Route {
    pub position: Position,
    /// In the order of the filters.
    pub frames: Vec<Frame>,
    pub cancelled: bool,
    pub outcome: Option<Outcome>,
}

impl Model for Route {
    ghost use Rattle.flt_model.specs.World as machine;

    ghost Value = { machine.Route };

    ghost view = { λ r. record { position = r.position; frames = r.frames.items; cancelled = r.cancelled; outcome = r.outcome } };
}

/// One passing of an operation through a filter; it never changes.
#[derive(Drop)]
pub struct Visit {
    pub operation: u32,
    pub filter: u32,
    pub stage: Stage,
    pub draining: bool,
}

impl Model for Visit {
    ghost use Rattle.flt_model.specs.World as machine;

    ghost Value = { machine.Visit };

    ghost view = { λ v. record { operation = v.operation; filter = v.filter; stage = v.stage; draining = v.draining } };
}

impl Visit {
    /// It fails if a number is 2^32 or greater.
    pub fn of(
        operation: usize,
        filter: usize,
        stage: Stage,
        draining: bool,
    ) -> Result<Visit, AllocError>
        ensures { IfOk result (λ v. v ≡ record { operation = operation; filter = filter; stage = stage; draining = draining }) }
    {
        Ok(Visit {
            operation: in_four_bytes(operation)?,
            filter: in_four_bytes(filter)?,
            stage,
            draining,
        })
    }
}

/// The callback that an activation runs, by its filter and place; it never changes.
#[derive(Drop)]
pub struct Actor {
    pub filter: u32,
    pub place: Place,
    pub draining: bool,
}

impl Model for Actor {
    ghost use Rattle.flt_model.specs.World as machine;

    ghost Value = { machine.Actor };

    ghost view = { λ a. record { filter = a.filter; place = a.place; draining = a.draining } };
}

impl Actor {
    /// It fails if the filter's number is 2^32 or greater.
    pub fn of(filter: usize, place: Place, draining: bool) -> Result<Actor, AllocError>
        ensures { IfOk result (λ a. a ≡ record { filter = filter; place = place; draining = draining }) }
    {
        let short = in_four_bytes(filter)?;
        Ok(Actor {
            filter: short,
            place,
            draining,
        })
    }
}
