//! Certificates as values: format 1, with the abstract state at each point.

ghost use Rattle.std.specs.Prelude.{◌≡◌, ◌<◌, ◌↔◌, length, [], get_or, IsTrue, IsSome, IfSome};
ghost use Rattle.std.specs.List.{list_all};
ghost use Rattle.std.specs.Option.{option_copied};
ghost use Rattle.flt_cert.specs.Format as spec;

use flt_abs::Abs;
use flt_rules::{MAX_CALLBACKS, MAX_POINTS};
use sqlite_items::Items;
use std::marker::Model;

/// The abstract state at each point of each callback, or none if the point isn't reached. It has 1 to 16 callbacks, and each of them 1 to
/// 512 points.
#[derive(Drop)]
pub struct FullCert {
    callbacks: Items<Items<Option<Abs>>>,
}

impl Model for FullCert {
    ghost use Rattle.std.specs.Prelude.{IsTrue};
    ghost use Rattle.flt_cert.specs.Format.{Certificate, is_certificate};

    ghost Value = { Certificate };

    ghost view = { λ c. c.callbacks };

    ghost invariant = { λ c. IsTrue (is_certificate c.callbacks) };
}

impl FullCert {
    /// The certificate with these points, callback by callback, or none if there are too few or too many.
    pub fn new(callbacks: Items<Items<Option<Abs>>>) -> Option<FullCert>
        ensures known { IsSome result ↔ IsTrue (spec.is_certificate callbacks) }
        ensures value { IfSome result (λ c. c ≡ callbacks) }
    {
        if is_certificate(callbacks.as_slice()) {
            Some(FullCert { callbacks })
        } else {
            None
        }
    }

    /// The points of each callback.
    pub fn callbacks(&self) -> &[Items<Option<Abs>>]
        ensures value { result.now ≡ self.now }
        ensures certificate { IsTrue (spec.is_certificate self.now) }
    {
        self.callbacks.as_slice()
    }

    /// The points of a callback, or none if there is no such callback.
    #[tactic(auto, using(crate::proofs::Certificates::no_points))]
    pub fn points(&self, callback: usize) -> &[Option<Abs>]
        ensures { result.now ≡ get_or self.now callback [] }
    {
        match self.callbacks.get(callback) {
            Some(points) => points.as_slice(),
            None => &[],
        }
    }

    /// The abstract state at a point, or none if it isn't reached or isn't there.
    pub fn state(&self, callback: usize, point: usize) -> Option<&Abs>
        ensures { option_copied result ≡ get_or (get_or self.now callback []) point None }
    {
        self.points(callback).get(point)?.as_ref()
    }
}

fn is_point(point: &Option<Abs>) -> bool
    ensures { result ≡ spec.is_point point.now }
{
    match point {
        None => true,
        Some(state) => state.contexts().len() == 9,
    }
}

fn are_points(points: &[Option<Abs>]) -> bool
    ensures { result ≡ list_all spec.is_point points.now }
{
    points.iter().all(|point| is_point(point))
}

fn is_callback(points: &[Option<Abs>]) -> bool
    ensures { result ≡ spec.is_callback points.now }
{
    if points.is_empty() || points.len() > MAX_POINTS {
        return false;
    }
    are_points(points)
}

fn are_callbacks(callbacks: &[Items<Option<Abs>>]) -> bool
    ensures { result ≡ list_all spec.is_callback callbacks.now }
{
    callbacks
        .iter()
        .all(|points| is_callback(points.as_slice()))
}

fn is_certificate(callbacks: &[Items<Option<Abs>>]) -> bool
    ensures { result ≡ spec.is_certificate callbacks.now }
{
    if callbacks.is_empty() || callbacks.len() > MAX_CALLBACKS {
        return false;
    }
    are_callbacks(callbacks)
}
