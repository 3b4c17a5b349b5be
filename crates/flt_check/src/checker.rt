//! Goes over the points of a text with its full certificate.

ghost use Rattle.std.specs.Prelude.{◌≡◌, ◌<◌, ◌↔◌, length, IsOk, OnOk, IfErr, IfSome, IfNone};
ghost use Rattle.std.specs.Option.{option_copied};
ghost use Rattle.flt_abs.specs.Leads.{lent};
ghost use Rattle.flt_check.specs.Checker as spec;
ghost use Rattle.flt_check.specs.Covering.{Covers};
ghost use Rattle.flt_graph.specs.Graph.{points_at, line_at};

use flt_abs::{Abs, Leads, is_entry_below, leq, transfer_into};
use flt_cert::FullCert;
use flt_graph::{Graph, Place};
use flt_rules::{Refusal, Rule};

/// The rule that a state breaks by leading to a point, if it breaks one.
pub(crate) fn lead_fault(state: &Abs, at: Option<&Abs>) -> Option<Rule>
    ensures { result ≡ spec.lead_fault state.now (option_copied at.entry) }
{
    match at {
        Some(there) if leq(state, there) => None,
        Some(there) if !state.locks().is_same(there.locks()) => Some(Rule::R12),
        _ => Some(Rule::R14),
    }
}

#[inline(always)]
fn successor_fault(cert: &FullCert, callback: usize, lead: Option<(usize, &Abs)>) -> Option<Rule>
    ensures { result ≡ spec.successor_fault cert.now callback (lent lead.entry) }
{
    match lead {
        Some((point, state)) => lead_fault(state, cert.state(callback, point)),
        None => None,
    }
}

/// The lesser of two faults.
pub(crate) fn lesser(a: Option<Rule>, b: Option<Rule>) -> Option<Rule>
    ensures { result ≡ spec.lesser a b }
{
    match (a, b) {
        (Some(x), Some(y)) => {
            if flt_rules::number(y) < flt_rules::number(x) {
                Some(y)
            } else {
                Some(x)
            }
        }
        (None, b) => b,
        (a, None) => a,
    }
}

fn leads_fault(cert: &FullCert, callback: usize, leads: &Leads) -> Option<Rule>
    ensures { result ≡ spec.leads_fault cert.now callback leads.now }
{
    let first = successor_fault(cert, callback, leads.first());
    let second = successor_fault(cert, callback, leads.second());
    lesser(first, second)
}

/// The least rule that a point breaks with its state, or that is broken where it leads.
fn state_fault(
    graph: &Graph,
    cert: &FullCert,
    callback: usize,
    point: usize,
    state: &Abs,
    leads: &mut Leads,
) -> Option<Rule>
    requires callback { callback < length graph.now.callbacks }
    requires point { point < points_at graph.now callback }
    ensures { result ≡ spec.state_fault graph.now cert.now callback point state.now }
{
    match transfer_into(graph, callback, point, state, leads) {
        Some(rule) => Some(rule),
        None => leads_fault(cert, callback, leads),
    }
}

/// The same, with the `Leads` that were kept from the points before, if there are any yet.
fn reached_fault(
    graph: &Graph,
    cert: &FullCert,
    callback: usize,
    point: usize,
    state: &Abs,
    kept: &mut Option<Leads>,
) -> Option<Rule>
    requires callback { callback < length graph.now.callbacks }
    requires point { point < points_at graph.now callback }
    ensures { result ≡ spec.state_fault graph.now cert.now callback point state.now }
{
    match kept {
        Some(leads) => state_fault(graph, cert, callback, point, state, leads),
        None => {
            let mut leads = Leads::none(state);
            let fault = state_fault(graph, cert, callback, point, state, &mut leads);
            *kept = Some(leads);
            fault
        }
    }
}

/// The rule that is broken if a callback of the place is entered with a point in this state.
pub(crate) fn entry_by(place: Place, state: Option<&Abs>) -> Option<Rule>
    ensures { result ≡ spec.entry_by place (option_copied state.entry) }
{
    match state {
        Some(state) => {
            if is_entry_below(place, state) {
                None
            } else {
                Some(Rule::R14)
            }
        }
        None => Some(Rule::R14),
    }
}

/// The rule that the entry of a callback breaks, if it breaks one.
fn entry_fault(graph: &Graph, cert: &FullCert, callback: usize) -> Option<Rule>
    requires { callback < length graph.now.callbacks }
    ensures { result ≡ spec.entry_fault graph.now cert.now callback }
{
    entry_by(graph.place(callback), cert.state(callback, 0))
}

/// The least rule that is broken at a point. One that isn't reached breaks none of its own.
fn point_fault(
    graph: &Graph,
    cert: &FullCert,
    callback: usize,
    point: usize,
    kept: &mut Option<Leads>,
) -> Option<Rule>
    requires callback { callback < length graph.now.callbacks }
    requires point { point < points_at graph.now callback }
    ensures { result ≡ spec.point_fault graph.now cert.now callback point }
{
    let own = match cert.state(callback, point) {
        Some(state) => reached_fault(graph, cert, callback, point, state, kept),
        None => None,
    };
    if point == 0 {
        lesser(own, entry_fault(graph, cert, callback))
    } else {
        own
    }
}

/// The first point of a callback at which a rule is broken, and the least such rule.
fn callback_fault(graph: &Graph, cert: &FullCert, callback: usize) -> Option<(usize, Rule)>
    requires { callback < length graph.now.callbacks }
    ensures none { IfNone result (spec.NoneBefore graph.now cert.now callback (points_at graph.now callback)) }
    ensures some { IfSome result (λ q. spec.IsFirstPoint graph.now cert.now callback q.0 q.1) }
{
    let mut kept = None;
    for point in 0..graph.points(callback) {
        if let Some(rule) = point_fault(graph, cert, callback, point, &mut kept) {
            return Some((point, rule));
        }
    }
    None
}

/// Whether a certificate lacks a callback of the text, or has not as many points for it.
fn differs(graph: &Graph, cert: &FullCert, callback: usize) -> bool
    requires { callback < length graph.now.callbacks }
    ensures { result ≡ spec.differs graph.now cert.now callback }
{
    cert.callbacks().len() <= callback || graph.points(callback) != cert.points(callback).len()
}

/// The first callback that differs; if none does and the certificate has too many callbacks, the text's last one.
fn count_fault(graph: &Graph, cert: &FullCert) -> Option<usize>
    ensures none { IfNone result (spec.AgreeOnCounts graph.now cert.now) }
    ensures some { IfSome result (spec.IsCountFault graph.now cert.now) }
{
    for callback in 0..graph.callbacks() {
        if differs(graph, cert, callback) {
            return Some(callback);
        }
    }
    if graph.callbacks() < cert.callbacks().len() {
        Some(graph.callbacks().saturating_sub(1))
    } else {
        None
    }
}

fn line_of(graph: &Graph, callback: usize, point: usize) -> usize
    ensures { result ≡ line_at graph.now callback point }
{
    if callback < graph.callbacks() && point < graph.points(callback) {
        graph.line(callback, point)
    } else {
        0
    }
}

/// The least fault, if there is one.
#[tactic(auto, using(crate::proofs::Points::none_in_more))]
fn first_fault(graph: &Graph, cert: &FullCert) -> Result<(), Refusal>
    ensures accepted { OnOk result (spec.IsFaultless graph.now cert.now) }
    ensures refused { IfErr result (spec.IsLeastFault graph.now cert.now) }
{
    if let Some(callback) = count_fault(graph, cert) {
        return Err(Refusal {
            callback,
            point: 0,
            line: line_of(graph, callback, 0),
            rule: Rule::R14,
        });
    }
    for callback in 0..graph.callbacks() {
        if let Some((point, rule)) = callback_fault(graph, cert, callback) {
            return Err(Refusal {
                callback,
                point,
                line: line_of(graph, callback, point),
                rule,
            });
        }
    }
    Ok(())
}

/// Whether a full certificate covers a text's points; if not, the least fault: a number of callbacks or points that isn't the
/// text's comes first, then the least callback, point and rule. It takes no memory.
pub(crate) fn check_full(graph: &Graph, cert: &FullCert) -> Result<(), Refusal>
    ensures accepted { IsOk result ↔ Covers graph.now cert.now }
    ensures refused { IfErr result (spec.IsLeastFault graph.now cert.now) }
{
    let _callbacks = cert.callbacks();
    first_fault(graph, cert)
}
