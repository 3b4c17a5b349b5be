//! The findings of a text that are reported by themselves.

ghost use Rattle.std.specs.Prelude.{◌≡◌, IfOk, map};
ghost use Rattle.flt_explain_ways.specs.Covering.{AreFirsts};
ghost use Rattle.flt_explain_ways.specs.Reported as spec;

use crate::tracing::Traces;
use flt_explain::Finding;
use flt_explain_origins::Group;
use flt_graph::Graph;
use sqlite_items::Items;
use std::alloc::{AllocError, Global};

/// A finding that is reported by itself.
#[derive(Clone, Copy)]
pub struct ReportedFinding {
    /// Its number among those of its text, from 0.
    pub number: usize,
    /// Whether each path to it that was found breaks another rule before.
    pub is_behind: bool,
}

/// The findings of a text that are reported by themselves, and the traces that show them.
#[derive(Drop)]
pub struct ReportedFindings {
    pub traces: Traces,
    /// The first of each group, in their order.
    pub each: Items<ReportedFinding>,
}

/// The finding of a group that is reported by itself: the first.
fn reported_of(traces: &Traces, group: &Group) -> ReportedFinding
    ensures { result ≡ spec.reported_of traces.now group.now }
{
    ReportedFinding {
        number: group.first.number,
        is_behind: traces.is_behind(&group.first),
    }
}

/// The finding of each group that is reported by itself.
fn firsts(alloc: Global, traces: &Traces) -> Result<Items<ReportedFinding>, AllocError>
    ensures { IfOk result (λ all. all ≡ map (spec.reported_of traces.now) traces.now.groups) }
{
    let mut all = Items::new(alloc);
    for group in traces.groups.as_slice() {
        all.push(reported_of(traces, group))?;
    }
    Ok(all)
}

/// The findings of a text that are reported by themselves, in their order: one of each group of those of one origin. Each finding is one
/// of these, or is akin to one before it that is. Nothing is drawn.
///
/// # Errors
///
/// If memory is refused.
pub fn reported_findings(
    alloc: Global,
    graph: &Graph,
    found: &[Finding],
) -> Result<ReportedFindings, AllocError>
    ensures are { IfOk result (λ r. spec.AreReportedBy graph.now found.now r.traces r.each) }
    ensures firsts { IfOk result (λ r. AreFirsts found.now (spec.numbers_of r.each)) }
{
    let traces = Traces::of(alloc, graph, found)?;
    let each = firsts(alloc, &traces)?;
    Ok(ReportedFindings { traces, each })
}
