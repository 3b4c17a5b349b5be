//! The statements at which a context's kind is known or begins.

ghost use Rattle.flt_kinds.specs.Sites as spec;
ghost use Rattle.std.specs.Prelude.{◌≡◌};

use crate::slot::{Slot, Spot};
use flt_graph::{Call, ContextVariable, Graph, Instruction};
use flt_rules::Anchor;

/// A context of a stream or of the instance, and where it is.
#[derive(Clone, Copy)]
pub(crate) struct ContextSite {
    pub(crate) anchor: Anchor,
    pub(crate) slot: Slot,
}

fn same_anchor(one: Anchor, other: Anchor) -> bool
    ensures { result ≡ spec.same_anchor one other }
{
    match (one, other) {
        (Anchor::Stream, Anchor::Stream) | (Anchor::Instance, Anchor::Instance) => true,
        _ => false,
    }
}

fn in_variable(at: Spot, variable: Option<ContextVariable>) -> Option<Slot>
    ensures { result ≡ spec.in_variable at variable }
{
    match variable {
        Some(variable) => Some(Slot::Variable(at, variable)),
        None => None,
    }
}

/// Whether a call sets a context on a stream, or on the instance.
fn is_set(anchor: Anchor, call: Call) -> bool
    ensures { result ≡ spec.is_set anchor call }
{
    match call {
        Call::SetContext(found, _) => same_anchor(anchor, found),
        _ => false,
    }
}

/// The variable whose context the statement at a point sets on a stream, or on the instance, if it does.
#[tactic(auto, unfolding(crate::specs::Sites::set_at))]
pub(crate) fn set_at(
    graph: &Graph,
    anchor: Anchor,
    callback: usize,
    point: usize,
) -> Option<ContextVariable>
    ensures { result ≡ spec.set_at graph.now anchor callback point }
{
    match graph.instruction_ref(callback, point) {
        Instruction::Call(found, _, _) if is_set(anchor, found.roles().call) => {
            found.roles().context
        }
        _ => None,
    }
}

/// The place of the context that the statement at a point allocates, if it does.
#[tactic(auto, unfolding(crate::specs::Sites::begun_at))]
pub(crate) fn begun_at(graph: &Graph, callback: usize, point: usize) -> Option<Slot>
    ensures { result ≡ spec.begun_at graph.now callback point }
{
    match graph.instruction_ref(callback, point) {
        Instruction::Call(found, granted, _) => {
            let point = *granted;
            let found = found.roles();
            match found.call {
                Call::AllocateContext => in_variable(Spot { callback, point }, found.output),
                _ => None,
            }
        }
        _ => None,
    }
}

/// The stream or the instance whose context a call gives, by its outcome.
fn giver(call: Call, outcome: bool) -> Option<Anchor>
    ensures { result ≡ spec.giver call outcome }
{
    match call {
        Call::GetContext(anchor) | Call::DeleteContextOf(anchor) if outcome => Some(anchor),
        Call::SetContext(anchor, _) => Some(anchor),
        _ => None,
    }
}

fn gives(anchor: Option<Anchor>, slot: Option<Slot>) -> Option<ContextSite>
    ensures { result ≡ spec.gives anchor slot }
{
    match (anchor, slot) {
        (Some(anchor), Some(slot)) => Some(ContextSite { anchor, slot }),
        _ => None,
    }
}

/// The stream's or the instance's context that the statement at a point gives, by its outcome, and the place of that context.
#[tactic(auto, unfolding(crate::specs::Sites::given_at))]
pub(crate) fn given_at(
    graph: &Graph,
    callback: usize,
    point: usize,
    outcome: bool,
) -> Option<ContextSite>
    ensures { result ≡ spec.given_at graph.now callback point outcome }
{
    match graph.instruction_ref(callback, point) {
        Instruction::Call(found, granted, failed) => {
            let point = if outcome { *granted } else { *failed };
            let found = found.roles();
            let slot = in_variable(Spot { callback, point }, found.output);
            gives(giver(found.call, outcome), slot)
        }
        _ => None,
    }
}
