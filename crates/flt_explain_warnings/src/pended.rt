//! W03: pended and left in the queue.

ghost use Rattle.std.specs.Prelude.{◌≡◌, IfOk};
ghost use Rattle.flt_explain_warnings.specs.Pended as spec;

use crate::flow::end_from;
use crate::reading::{is_reached, removes_outside, removes_somewhere};
use crate::trail::Trail;
use crate::warning::{Site, Warning};
use flt_cert::FullCert;
use flt_graph::{Call, Graph, Instruction};
use std::alloc::{AllocError, Global};

/// The point after an insert that succeeds.
fn inserted(instruction: &Instruction) -> Option<usize>
    ensures { result ≡ spec.inserted instruction.now }
{
    match instruction {
        Instruction::Call(call, granted, _) => {
            if matches!(call.roles().call, Call::InsertIo) {
                Some(*granted)
            } else {
                None
            }
        }
        _ => None,
    }
}

/// The point after an insert that is reached and succeeds.
fn inserted_at(graph: &Graph, cert: &FullCert, site: Site) -> Option<usize>
    ensures { result ≡ spec.inserted_at graph.now cert.now site }
{
    if is_reached(cert, site) {
        inserted(graph.instruction_ref(site.callback, site.point))
    } else {
        None
    }
}

/// The warning that a point inserts into a queue from which the text removes nothing.
pub(crate) fn never_removed(graph: &Graph, cert: &FullCert, site: Site) -> Option<Warning>
    ensures { result ≡ spec.never_removed graph.now cert.now site }
{
    let _granted = inserted_at(graph, cert, site)?;
    if removes_somewhere(graph) {
        None
    } else {
        Some(Warning::NeverRemoved(site))
    }
}

/// The point after an insert into a queue from which only work items remove.
fn awaiting(graph: &Graph, cert: &FullCert, site: Site) -> Option<usize>
    ensures { result ≡ spec.awaiting graph.now cert.now site }
{
    let granted = inserted_at(graph, cert, site)?;
    if removes_somewhere(graph) && !removes_outside(graph) {
        Some(granted)
    } else {
        None
    }
}

/// The warning that PENDING is returned after an insert and no work item was queued that removes.
pub(crate) fn left_pended(
    alloc: Global,
    graph: &Graph,
    cert: &FullCert,
    site: Site,
) -> Result<Option<Warning>, AllocError>
    ensures { IfOk result (λ w. w ≡ spec.left_pended graph.now cert.now site) }
{
    let Some(granted) = awaiting(graph, cert, site) else {
        return Ok(None);
    };
    let end = end_from(alloc, graph, site.callback, Trail::Pended, granted)?;
    match end {
        Some(point) => Ok(Some(Warning::LeftPended(site, point))),
        None => Ok(None),
    }
}
