//! Whether a thin certificate covers a text, and if not, the least fault.

ghost use Rattle.std.specs.Prelude.{◌≡◌, ◌<◌, ◌↔◌, length, get_or, [], IsOk, OnOk, IfErr, IfSome, IfNone};
ghost use Rattle.flt_check.specs.Checker as check;
ghost use Rattle.flt_graph.specs.Graph.{line_at};
ghost use Rattle.flt_check.specs.ThinCovering.{CoversThin};
ghost use Rattle.flt_check.specs.ThinFault as spec;
ghost use Rattle.flt_check.specs.Full.{full};

use crate::laws::covering_is_faultless;
use crate::thin_points::{callback_fault, other_point};
use flt_abs::{joins_are_least, transfer_is_monotone, transfer_keeps_states_proper};
use flt_cert::ThinCert;
use flt_graph::Graph;
use flt_rules::{Refusal, Rule};

/// Whether a certificate lacks a callback of the text, or has not as many points for it.
fn differs(graph: &Graph, thin: &ThinCert, callback: usize) -> bool
    ensures { result ≡ spec.differs_thin graph.now thin.now callback }
{
    thin.callbacks().len() <= callback || graph.points(callback) != thin.slots(callback).len()
}

/// The first callback that differs; if none does and the certificate has too many callbacks, the text's last one.
fn count_fault(graph: &Graph, thin: &ThinCert) -> Option<usize>
    ensures none { IfNone result (check.AgreeOnCounts graph.now (full graph.now thin.now)) }
    ensures some { IfSome result (check.IsCountFault graph.now (full graph.now thin.now)) }
{
    for callback in 0..graph.callbacks() {
        if differs(graph, thin, callback) {
            return Some(callback);
        }
    }
    if graph.callbacks() < thin.callbacks().len() {
        Some(graph.callbacks().saturating_sub(1))
    } else {
        None
    }
}

fn refusal(graph: &Graph, callback: usize, point: usize, rule: Rule) -> Refusal
    ensures { result ≡ record { callback = callback; point = point; line = line_at graph.now callback point; rule = rule } }
{
    Refusal {
        callback,
        point,
        line: graph.line(callback, point),
        rule,
    }
}

/// The least fault, if there is one.
fn first_fault(graph: &Graph, thin: &ThinCert) -> Result<(), Refusal>
    ensures accepted { OnOk result (spec.IsFaultlessThin graph.now thin.now) }
    ensures refused { IfErr result (spec.IsThinFault graph.now thin.now) }
{
    let _callbacks = thin.callbacks();
    if let Some(callback) = count_fault(graph, thin) {
        return Err(refusal(graph, callback, 0, Rule::R14));
    }
    'marks: for callback in 0..graph.callbacks() {
        if let Some(point) = other_point(graph, thin.slots(callback), callback) {
            return Err(refusal(graph, callback, point, Rule::R14));
        }
    }
    'points: for callback in 0..graph.callbacks() {
        if let Some((point, rule)) = callback_fault(graph, thin.slots(callback), callback) {
            return Err(refusal(graph, callback, point, rule));
        }
    }
    Ok(())
}

/// Whether a thin certificate covers a text's points; if not, the least fault: a number of callbacks or points that isn't the text's comes
/// first, then a point that is given and not kept or the reverse, then the least callback, point and rule. It takes no memory.
pub(crate) fn check_thin(graph: &Graph, thin: &ThinCert) -> Result<(), Refusal>
    ensures accepted { IsOk result ↔ CoversThin graph.now thin.now }
    ensures refused { IfErr result (spec.IsThinFault graph.now thin.now) }
{
    joins_are_least();
    transfer_is_monotone();
    transfer_keeps_states_proper();
    covering_is_faultless();
    let _callbacks = thin.callbacks();
    first_fault(graph, thin)
}
