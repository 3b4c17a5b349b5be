//! W05: a context is used that wasn't set, since there was another one.

ghost use Rattle.std.specs.Prelude.{◌≡◌, IfOk};
ghost use Rattle.flt_explain_warnings.specs.Lost as spec;

use crate::flow::end_from;
use crate::reading::is_reached;
use crate::trail::Trail;
use crate::warning::{Site, Warning};
use flt_cert::FullCert;
use flt_graph::{Call, Graph, Instruction, Invocation};
use flt_rules::Existing;
use std::alloc::{AllocError, Global};

/// The point, from 0, at which a search begins, and the trail that it follows.
#[derive(Clone, Copy)]
struct Loss {
    start: usize,
    trail: Trail,
}

/// Whether a call sets a context unless there is one.
fn keeps(call: Call) -> bool
    ensures { result ≡ spec.keeps call }
{
    matches!(call, Call::SetContext(_, Existing::Keep))
}

/// The loss if a call fails.
fn loss_by(call: &Invocation, refused: usize) -> Option<Loss>
    ensures { result ≡ spec.loss_by call.now refused }
{
    if !keeps(call.call) {
        return None;
    }
    let context = call.context?;
    Some(Loss {
        start: refused,
        trail: Trail::Lost(context, call.output),
    })
}

/// The loss if an instruction fails.
fn loss_in(instruction: &Instruction) -> Option<Loss>
    ensures { result ≡ spec.loss_in instruction.now }
{
    match instruction {
        Instruction::Call(call, _, refused) => loss_by(&call.roles(), *refused),
        _ => None,
    }
}

/// The loss if a point fails that is reached.
fn loss_at(graph: &Graph, cert: &FullCert, site: Site) -> Option<Loss>
    ensures { result ≡ spec.loss_at graph.now cert.now site }
{
    if is_reached(cert, site) {
        loss_in(graph.instruction_ref(site.callback, site.point))
    } else {
        None
    }
}

/// The warning that the context that a point doesn't set is used after it.
pub(crate) fn lost_context(
    alloc: Global,
    graph: &Graph,
    cert: &FullCert,
    site: Site,
) -> Result<Option<Warning>, AllocError>
    ensures { IfOk result (λ w. w ≡ spec.lost_context graph.now cert.now site) }
{
    let Some(Loss { start, trail }) = loss_at(graph, cert, site) else {
        return Ok(None);
    };
    let end = end_from(alloc, graph, site.callback, trail, start)?;
    match end {
        Some(point) => Ok(Some(Warning::LostContext(site, point))),
        None => Ok(None),
    }
}
