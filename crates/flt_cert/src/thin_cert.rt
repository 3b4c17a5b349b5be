//! Thin certificates as values: format 2, with the abstract states at the points whose states don't follow from those before.

ghost use Rattle.std.specs.Prelude.{◌≡◌, ◌<◌, ◌↔◌, length, [], get_or, IsTrue, IsSome, IfSome};
ghost use Rattle.std.specs.List.{list_all};
ghost use Rattle.flt_cert.specs.Thin as spec;

use flt_abs::Abs;
use flt_rules::{MAX_CALLBACKS, MAX_POINTS};
use sqlite_items::Items;
use std::marker::Model;

/// The abstract state given at a point, if one is given.
pub type Slot = Option<Option<Abs>>;

/// The abstract states at some points of each callback, a slot for each point: the others follow from those. It has 1 to 16 callbacks, and
/// each of them 1 to 512 points, of which the first is given.
#[derive(Drop)]
pub struct ThinCert {
    callbacks: Items<Items<Slot>>,
}

impl Model for ThinCert {
    ghost use Rattle.std.specs.Prelude.{IsTrue};
    ghost use Rattle.flt_cert.specs.Thin.{Thin, is_thin};

    ghost Value = { Thin };

    ghost view = { λ t. t.callbacks };

    ghost invariant = { λ t. IsTrue (is_thin t.callbacks) };
}

impl ThinCert {
    /// The thin certificate with these slots, callback by callback, or none if there are too few or too many, or if the first point of a
    /// callback isn't given.
    pub fn new(callbacks: Items<Items<Slot>>) -> Option<ThinCert>
        ensures known { IsSome result ↔ IsTrue (spec.is_thin callbacks) }
        ensures value { IfSome result (λ t. t ≡ callbacks) }
    {
        if is_thin(callbacks.as_slice()) {
            Some(ThinCert { callbacks })
        } else {
            None
        }
    }

    /// The slots of each callback.
    pub fn callbacks(&self) -> &[Items<Slot>]
        ensures value { result.now ≡ self.now }
        ensures thin { IsTrue (spec.is_thin self.now) }
    {
        self.callbacks.as_slice()
    }

    /// The slots of a callback, or none if there is no such callback.
    #[tactic(auto, using(crate::proofs::Slots::no_slots))]
    pub fn slots(&self, callback: usize) -> &[Slot]
        ensures { result.now ≡ get_or self.now callback [] }
    {
        match self.callbacks.get(callback) {
            Some(slots) => slots.as_slice(),
            None => &[],
        }
    }
}

fn is_slot(slot: &Slot) -> bool
    ensures { result ≡ spec.is_slot slot.now }
{
    match slot {
        Some(Some(state)) => state.contexts().len() == 9,
        _ => true,
    }
}

/// Whether the first point is given.
#[tactic(auto, using(crate::proofs::Slots::given_first, crate::proofs::Slots::none_first))]
fn begins(slots: &[Slot]) -> bool
    ensures { result ≡ spec.begins slots.now }
{
    match slots.first() {
        Some(slot) => slot.is_some(),
        None => false,
    }
}

fn are_slots(slots: &[Slot]) -> bool
    ensures { result ≡ list_all spec.is_slot slots.now }
{
    slots.iter().all(|slot| is_slot(slot))
}

fn is_callback(slots: &[Slot]) -> bool
    ensures { result ≡ spec.is_thin_callback slots.now }
{
    if !begins(slots) || slots.len() > MAX_POINTS {
        return false;
    }
    are_slots(slots)
}

fn are_callbacks(callbacks: &[Items<Slot>]) -> bool
    ensures { result ≡ list_all spec.is_thin_callback callbacks.now }
{
    callbacks.iter().all(|slots| is_callback(slots.as_slice()))
}

fn is_thin(callbacks: &[Items<Slot>]) -> bool
    ensures { result ≡ spec.is_thin callbacks.now }
{
    if callbacks.is_empty() || callbacks.len() > MAX_CALLBACKS {
        return false;
    }
    are_callbacks(callbacks)
}
