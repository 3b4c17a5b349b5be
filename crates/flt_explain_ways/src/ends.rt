//! The moments to which steps lead.

ghost use Rattle.std.specs.Prelude.{◌≡◌, Some, IfSome, IsTrue};
ghost use Rattle.flt_explain_origins.specs.Ways as spec;

use crate::faults::breaks_nothing;
use flt_explain_origins::{Moment, Step};
use flt_graph::Graph;

/// The moment to which a step leads, if it may be taken.
fn taken(graph: &Graph, callback: usize, clean: bool, from: &Moment, step: Step) -> Option<Moment>
    ensures { IfSome result (λ m. IsTrue (spec.is_taken graph.now callback clean from.now.point from.now.situation step)
        × (m ≡ spec.moment_after graph.now callback from.now.point from.now.situation step)) }
{
    if step.point != from.point {
        return None;
    }
    if clean && !breaks_nothing(graph, callback, from.point, &from.situation) {
        return None;
    }
    from.situation.after(graph, callback, step)
}

/// The moment to which steps lead, if each may be taken where the one before it leads.
pub(crate) fn end_of(
    graph: &Graph,
    callback: usize,
    clean: bool,
    from: Moment,
    steps: &[Step],
) -> Option<Moment>
    ensures { IfSome result (λ m. spec.end_of graph.now callback clean from.point from.situation steps.now ≡ Some m) }
{
    let mut moment = from;
    for step in steps {
        moment = taken(graph, callback, clean, &moment, *step)?;
    }
    Some(moment)
}

/// Whether the last step is of a point.
pub(crate) fn is_last(steps: &[Step], point: usize) -> bool
    ensures { result ≡ spec.is_last steps.now point }
{
    match steps {
        [] => false,
        [.., step] => step.point == point,
    }
}
