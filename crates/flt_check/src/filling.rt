//! The certificate that follows from a thin one.

ghost use Rattle.std.specs.Prelude.{◌≡◌, ◌<◌, nat_lt, length, Some, None, Ok, Err, IfOk};
ghost use Rattle.std.specs.Option.{option_copied};
ghost use Rattle.flt_abs.specs.Leads.{lent};
ghost use Rattle.flt_graph.specs.Kept.{edge, edges_of};
ghost use Rattle.flt_check.specs.Full as spec;

use crate::laws::thin_certificates_fill_up;
use flt_abs::{Abs, Leads, transfer_into};
use flt_cert::{FullCert, Slot, ThinCert};
use flt_graph::{Graph, Instruction};
use sqlite_items::Items;
use std::alloc::{AllocError, Global};

/// Whether an edge leads from an instruction into a point.
fn has_edge(instruction: &Instruction, to: usize) -> bool
    ensures { result ≡ nat_lt 0 (edges_of instruction.now to) }
{
    match instruction {
        Instruction::Act(_, next) => *next == to,
        Instruction::Call(call, granted, failed) => {
            *granted == to || (call.can_fail() && *failed == to)
        }
        Instruction::Test(_, granted, refused) => *granted == to || *refused == to,
        Instruction::Repeat(_, body, next) => *body == to || *next == to,
        Instruction::Return(_) | Instruction::End => false,
    }
}

/// The state of a successor that is there and is the point, or else another.
fn reaching(to: usize, lead: Option<(usize, &Abs)>, other: Option<Abs>) -> Option<Abs>
    ensures { result ≡ spec.reaching to (lent lead.entry) other }
{
    match lead {
        Some((point, state)) if point == to => Some(state.copied()),
        _ => other,
    }
}

/// With which state a point reaches another, by where it leads.
fn reached_by(to: usize, leads: &Leads) -> Option<Abs>
    ensures { result ≡ spec.reached_by to (Ok leads.now) }
{
    let second = reaching(to, leads.second(), None);
    reaching(to, leads.first(), second)
}

/// With which state a point reaches another; none if it isn't reached itself, breaks a rule or doesn't lead there.
fn reached_from(
    graph: &Graph,
    callback: usize,
    from: usize,
    to: usize,
    point: &Option<Abs>,
) -> Option<Abs>
    ensures { result ≡ spec.reached_from graph.now callback from to point.now }
{
    let Some(state) = point else {
        return None;
    };
    let mut leads = Leads::none(state);
    match transfer_into(graph, callback, from, state, &mut leads) {
        Some(_) => None,
        None => reached_by(to, &leads),
    }
}

/// The state that follows for the next point: it is reached from the first point before it that has an edge into it.
fn followed(graph: &Graph, callback: usize, before: &[Option<Abs>]) -> Option<Abs>
    ensures { result ≡ spec.followed graph.now callback (length before.now) 0 before.now }
{
    let to = before.len();
    for from in 0..to {
        if has_edge(graph.instruction_ref(callback, from), to) {
            return reached_from(graph, callback, from, to, &before[from]);
        }
    }
    None
}

/// The given state of the next point, or the one that follows from the points before it.
fn filled_in(graph: &Graph, callback: usize, before: &[Option<Abs>], slot: &Slot) -> Option<Abs>
    ensures { result ≡ spec.filled_in graph.now callback before.now slot.now }
{
    match slot {
        Some(Some(state)) => Some(state.copied()),
        Some(None) => None,
        None => followed(graph, callback, before),
    }
}

/// All points of a callback.
fn fill_points(
    alloc: Global,
    graph: &Graph,
    callback: usize,
    slots: &[Slot],
) -> Result<Items<Option<Abs>>, AllocError>
    ensures { IfOk result (λ points. points ≡ spec.full_points graph.now callback slots.now) }
{
    let mut points = Items::new(alloc);
    for place in 0..slots.len() {
        let point = filled_in(graph, callback, points.as_slice(), &slots[place]);
        points.push(point)?;
    }
    Ok(points)
}

/// The full certificate: the states that a thin one gives, and for each other point the state that follows from the points before it. If
/// the thin one covers, the full one covers.
pub fn fill(alloc: Global, graph: &Graph, thin: &ThinCert) -> Result<FullCert, AllocError>
    ensures { IfOk result (λ k. k ≡ spec.full graph.now thin.now) }
{
    thin_certificates_fill_up();
    let mut callbacks = Items::new(alloc);
    for callback in 0..thin.callbacks().len() {
        callbacks.push(fill_points(alloc, graph, callback, thin.slots(callback))?)?;
    }
    Ok(FullCert::new(callbacks).unwrap())
}
