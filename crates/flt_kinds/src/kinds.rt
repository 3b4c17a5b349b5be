//! The kinds of a filter's contexts.

ghost use Rattle.flt_graph.specs.Lowering.{IsLowered};
ghost use Rattle.flt_graph.specs.declared.graph.Graph.{Graph};
ghost use Rattle.flt_kinds.specs.Kinds as spec;
ghost use Rattle.std.specs.Prelude.{◌≡◌, List, IfOk};

use crate::mixed::{MixedContext, Setters, mixed_in, needed_in};
use crate::rounds::settled;
use crate::slot::Spot;
use flt_graph::{Graph, Tree};
use flt_rules::Anchor;
use std::alloc::{AllocError, Global};

/// The kinds of a filter's contexts.
#[derive(Drop)]
pub enum ContextKinds {
    /// Each has one kind: contexts of the instance are allocated at these statements, and contexts of a stream at all others.
    Known(Vec<Spot>),
    /// One has two.
    Refused(MixedContext),
}

/// If each context has a kind, none has two. It does nothing at run time: its clause is a law.

pub fn kinds_exclude_mixtures()
    ensures { (g : Graph) (listed : List Spot) (m : MixedContext) → spec.AreKinds g listed → spec.IsMixed g m → ⊥ }
{}

/// The kinds of a filter's contexts, or one that has two. The graph is the tree's.
///
/// # Errors
///
/// `AllocError` if a growth is refused.
#[tactic(auto, using(crate::proofs::Narrow::narrow, crate::proofs::Deciding::mixed_is, crate::proofs::Deciding::kinds_are))]
pub fn context_kinds(alloc: Global, tree: &Tree, graph: &Graph) -> Result<ContextKinds, AllocError>
    requires { IsLowered tree.now.filter graph.now }
    ensures { IfOk result (λ kinds. spec.Decides graph.now kinds) }
{
    let streams = settled(alloc, graph, Anchor::Stream)?;
    let instances = settled(alloc, graph, Anchor::Instance)?;
    let setters = Setters {
        callbacks: graph.callbacks(),
        streams: streams.as_slice(),
        instances: instances.as_slice(),
    };
    match mixed_in(graph, setters) {
        Some(found) => Ok(ContextKinds::Refused(found)),
        None => {
            let listed = needed_in(alloc, graph, instances.as_slice())?;
            Ok(ContextKinds::Known(listed))
        }
    }
}
