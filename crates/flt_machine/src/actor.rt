//! Whose callback an activation runs.

use flt_rules::Place;
use std::marker::Model;

/// Whose callback an activation runs, and where; it never changes.
#[derive(Clone, Copy)]
pub(crate) struct Actor {
    pub(crate) filter: usize,
    pub(crate) place: Place,
    pub(crate) draining: bool,
}

impl Model for Actor {
    ghost use Rattle.flt_model.specs.World as machine;

    ghost Value = { machine.Actor };

    ghost view = { λ a. record { filter = a.filter; place = a.place; draining = a.draining } };

    ghost inverse = { λ a. record { filter = a.filter; place = a.place; draining = a.draining } };
}
