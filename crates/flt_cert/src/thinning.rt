//! The thinning of certificates.

ghost use Rattle.std.specs.Prelude.{◌≡◌, ◌<◌, length, IfOk};
ghost use Rattle.flt_cert.specs.Spelling.{thinned};
ghost use Rattle.flt_cert.specs.Thin as spec;

use crate::cert::Cert;
use crate::full_cert::FullCert;
use crate::kept::kept_points;
use crate::thin_cert::{Slot, ThinCert};
use flt_abs::Abs;
use flt_graph::Graph;
use sqlite_items::Items;
use std::alloc::{AllocError, Global};

fn slot_of(kept: bool, point: &Option<Abs>) -> Slot
    ensures { result ≡ spec.slot_of kept point.now }
{
    if !kept {
        return None;
    }
    match point {
        Some(state) => Some(Some(state.copied())),
        None => Some(None),
    }
}

/// The points of a callback without those that aren't kept.
fn thin_points(
    alloc: Global,
    graph: &Graph,
    callback: usize,
    points: &[Option<Abs>],
) -> Result<Items<Slot>, AllocError>
    requires { length points.now < 513 }
    ensures { IfOk result (λ slots. slots ≡ spec.thin_points graph.now callback 0 points.now) }
{
    let kept = kept_points(graph, callback);
    let mut slots = Vec::new(alloc);
    slots.reserve(points.len())?;
    for number in 0..points.len() {
        slots.reserve(1)?;
        slots.push_reserved(slot_of(kept[number], &points[number]));
    }
    Ok(Items::from_vec(slots))
}

/// The thin certificate of a full one, with the points that are kept.
fn thin_full(alloc: Global, graph: &Graph, full: &FullCert) -> Result<ThinCert, AllocError>
    ensures { IfOk result (λ t. t ≡ spec.thin graph.now full.now) }
{
    let mut callbacks = Items::new(alloc);
    for callback in 0..full.callbacks().len() {
        callbacks.push(thin_points(alloc, graph, callback, full.points(callback))?)?;
    }
    Ok(ThinCert::new(callbacks).unwrap())
}

fn same_slot(slot: &Slot) -> Slot
    ensures { result ≡ slot.now }
{
    match slot {
        Some(Some(state)) => Some(Some(state.copied())),
        Some(None) => Some(None),
        None => None,
    }
}

fn same_slots(alloc: Global, slots: &[Slot]) -> Result<Items<Slot>, AllocError>
    ensures { IfOk result (λ same. same ≡ slots.now) }
{
    let mut same = Items::new(alloc);
    for slot in slots {
        same.push(same_slot(slot))?;
    }
    Ok(same)
}

/// A copy of a thin certificate.
fn same_thin(alloc: Global, thin: &ThinCert) -> Result<ThinCert, AllocError>
    ensures { IfOk result (λ t. t ≡ thin.now) }
{
    let mut callbacks = Items::new(alloc);
    for slots in thin.callbacks() {
        callbacks.push(same_slots(alloc, slots.as_slice())?)?;
    }
    Ok(ThinCert::new(callbacks).unwrap())
}

/// The thin certificate of any: a full one keeps the abstract states at the points that are kept, a thin one stays as it is. If the
/// certificate covers the text of the graph, this one does too.
pub fn thin(alloc: Global, graph: &Graph, cert: &Cert) -> Result<Cert, AllocError>
    ensures { IfOk result (λ c. c ≡ thinned graph.now cert.now) }
{
    match cert {
        Cert::Full(full) => Ok(Cert::Thin(thin_full(alloc, graph, full)?)),
        Cert::Thin(thin) => Ok(Cert::Thin(same_thin(alloc, thin)?)),
    }
}
