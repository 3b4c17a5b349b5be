//! Contexts that no callback of a filter sets.

ghost use Rattle.std.specs.Prelude.{◌≡◌, ◌||◌};
ghost use Rattle.flt_graph.specs.declared.graph.Graph.{Graph};
ghost use Rattle.flt_explain_outcomes.specs.Unset as spec;

use flt_graph::{Call, CallbackGraph, Graph, Instruction};
use flt_rules::Anchor;

/// Anchors on which no callback of a filter sets a context, so that no call gets one.
#[derive(Clone, Copy)]
pub struct Unset {
    pub stream: bool,
    pub instance: bool,
}

/// Whether two anchors are one.
fn is_same(one: Anchor, other: Anchor) -> bool
    ensures { result ≡ spec.same_anchor one other }
{
    match (one, other) {
        (Anchor::Stream, Anchor::Stream) | (Anchor::Instance, Anchor::Instance) => true,
        _ => false,
    }
}

/// Whether a call sets a context on an anchor.
fn is_setting(anchor: Anchor, call: Call) -> bool
    ensures { result ≡ spec.is_setting anchor call }
{
    match call {
        Call::SetContext(own, _) => is_same(anchor, own),
        _ => false,
    }
}

/// Whether a call succeeds only if a context is linked to an anchor.
fn is_asking(anchor: Anchor, call: Call) -> bool
    ensures { result ≡ spec.is_asking anchor call }
{
    match call {
        Call::GetContext(own) | Call::DeleteContextOf(own) => is_same(anchor, own),
        _ => false,
    }
}

fn is_set_by(anchor: Anchor, instruction: &Instruction) -> bool
    ensures { result ≡ spec.is_set_by anchor instruction.now }
{
    match instruction {
        Instruction::Call(call, _, _) => is_setting(anchor, call.roles().call),
        _ => false,
    }
}

fn is_asked_by(anchor: Anchor, instruction: &Instruction) -> bool
    ensures { result ≡ spec.is_asked_by anchor instruction.now }
{
    match instruction {
        Instruction::Call(call, _, _) => is_asking(anchor, call.roles().call),
        _ => false,
    }
}

fn is_set_in(anchor: Anchor, own: &CallbackGraph) -> bool
    ensures { result ≡ spec.is_set_in anchor own.now }
{
    own.points
        .as_slice()
        .iter()
        .any(|p| is_set_by(anchor, &p.instruction))
}

fn is_asked_in(anchor: Anchor, own: &CallbackGraph) -> bool
    ensures { result ≡ spec.is_asked_in anchor own.now }
{
    own.points
        .as_slice()
        .iter()
        .any(|p| is_asked_by(anchor, &p.instruction))
}

/// Whether some callback sets a context on an anchor.
fn is_set(graph: &Graph, anchor: Anchor) -> bool
    ensures { result ≡ spec.is_set graph.now anchor }
{
    let callbacks = graph.callbacks.as_slice();
    callbacks.iter().any(|own| is_set_in(anchor, own))
}

/// Whether some callback asks for the context of an anchor.
fn is_asked(graph: &Graph, anchor: Anchor) -> bool
    ensures { result ≡ spec.is_asked graph.now anchor }
{
    let callbacks = graph.callbacks.as_slice();
    callbacks.iter().any(|own| is_asked_in(anchor, own))
}

/// Whether some callback asks for the context of an anchor, and none sets one.
fn is_unset(graph: &Graph, anchor: Anchor) -> bool
    ensures { result ≡ spec.is_unset graph.now anchor }
{
    is_asked(graph, anchor) && !is_set(graph, anchor)
}

impl Unset {
    /// No anchors.
    pub(crate) fn none() -> Unset
        ensures value { result ≡ spec.nothing_unset }
        ensures unset { (g : Graph) → spec.AreUnset g result }
    {
        Unset {
            stream: false,
            instance: false,
        }
    }

    /// The anchors whose context some callback of a filter asks for, and on which none sets one.
    pub(crate) fn of(graph: &Graph) -> Unset
        ensures { spec.AreUnset graph.now result }
    {
        Unset {
            stream: is_unset(graph, Anchor::Stream),
            instance: is_unset(graph, Anchor::Instance),
        }
    }

    /// The instance alone, if it is one of them.
    pub(crate) fn of_instance(self) -> Unset
        ensures { (g : Graph) → spec.AreUnset g self → spec.AreUnset g result }
    {
        Unset {
            stream: false,
            ..self
        }
    }

    /// Streams alone, if they are one of them.
    pub(crate) fn of_streams(self) -> Unset
        ensures { (g : Graph) → spec.AreUnset g self → spec.AreUnset g result }
    {
        Unset {
            instance: false,
            ..self
        }
    }

    /// Whether there is an anchor.
    pub(crate) fn is_some(self) -> bool
        ensures { result ≡ (self.stream || self.instance) }
    {
        self.stream || self.instance
    }

    /// Whether an instruction is a call that never succeeds if nothing sets contexts on these.
    pub(crate) fn is_barren(self, instruction: &Instruction) -> bool
        ensures { result ≡ spec.is_barren self instruction.now }
    {
        match instruction {
            Instruction::Call(call, _, _) => match call.roles().call {
                Call::GetContext(Anchor::Stream) | Call::DeleteContextOf(Anchor::Stream) => {
                    self.stream
                }
                Call::GetContext(Anchor::Instance) | Call::DeleteContextOf(Anchor::Instance) => {
                    self.instance
                }
                _ => false,
            },
            _ => false,
        }
    }
}
