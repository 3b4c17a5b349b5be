//! The callbacks of a text, one after the other.

ghost use Rattle.std.specs.Prelude.{◌≡◌, ◌<◌, ◌≤◌, ◌+◌, ◌↔◌, length, IsTrue, IfOk, IfErr};
ghost use Rattle.flt_check.specs.Covering.{Covers};
ghost use Rattle.flt_rules.specs.declared.refusal.Refusal.{Refusal};
ghost use Rattle.flt_graph.specs.declared.graph.Graph.{Graph};
ghost use Rattle.flt_analyse.specs.Least as spec;

use crate::fault::AnalyseFault;
use crate::pending::POINTS;
use crate::ticks::Ticks;
use crate::walk::walk_callback;
use flt_cert::FullCert;
use flt_graph::Graph;
use flt_rules::{MAX_CALLBACKS, Refusal, Rule};
use sqlite_items::Items;
use std::alloc::Global;
use std::marker::Brand;
use std::sync::ledger::{Blank, Ledger};

/// Whether a certificate can have as many callbacks and points as a graph. It can for each graph of a text.
fn has_room(graph: &Graph) -> bool
    ensures { IsTrue result ↔ spec.HasRoom graph.now }
{
    let callbacks = graph.callbacks();
    if callbacks == 0 || MAX_CALLBACKS < callbacks {
        return false;
    }
    'rooms: for callback in 0..callbacks {
        let points = graph.points(callback);
        if points == 0 || POINTS < points {
            return false;
        }
    }
    true
}

/// The least certificate that covers a text. Each point is transferred at most 31 times, by `Ticks::transfer_into` alone.
///
/// # Errors
///
/// `Refused` if no certificate covers, with the first fault that is met: callbacks in order; in each the least pending point is looked at,
/// and its successors are joined to the states found so far, the one where a call succeeds or a test holds first. `OutOfMemory` if a growth
/// is refused.
#[tactic(auto, using(crate::proofs::Turns::refused_none, crate::proofs::Turns::refused_named, crate::proofs::Certificates::is_made, crate::proofs::Certificates::none_without_room))]
pub fn analyse<L: Ledger, const CALLBACK: usize, const POINT: usize>(
    alloc: Global,
    graph: &Graph,
    ticks: &mut Ticks<L, CALLBACK, POINT>,
) -> Result<FullCert, AnalyseFault>
    ensures covers { IfOk result (λ c. Covers graph.now c) }
    ensures least { IfOk result (λ c. spec.IsLeast graph.now c) }
    ensures none { IfErr result (λ f. spec.IfRefused f (λ _. spec.NoneCovers graph.now)) }
    ensures named { IfErr result (λ f. spec.IfRefused f (spec.IsNamed graph.now)) }
    ensures bounded { ticks.new ≤ ticks.old + 31 }
{
    if !has_room(graph) {
        return Err(AnalyseFault::Refused(Refusal {
            callback: 0,
            point: 0,
            line: 0,
            rule: Rule::R14,
        }));
    }
    let mut callbacks = Items::new(alloc);
    'walks: for callback in 0..graph.callbacks() {
        callbacks.push(walk_callback(alloc, graph, callback, ticks)?)?;
    }
    Ok(FullCert::new(callbacks).unwrap())
}

/// `analyse` in a ledger of its own.
fn analyse_in<L: Ledger>(
    alloc: Global,
    graph: &Graph,
    blank: Blank,
) -> Result<FullCert, AnalyseFault>
    requires name { blank.name ≡ L.name }
    requires parts { blank.parts ≡ L.parts }
    requires some { 0 < blank.parts }
    ensures covers { IfOk result (λ c. Covers graph.now c) }
    ensures least { IfOk result (λ c. spec.IsLeast graph.now c) }
    ensures none { IfErr result (λ f. spec.IfRefused f (λ _. spec.NoneCovers graph.now)) }
    ensures named { IfErr result (λ f. spec.IfRefused f (spec.IsNamed graph.now)) }
{
    let mut ticks = Ticks::<L, 0, 0>::new(blank);
    analyse(alloc, graph, &mut ticks)
}

/// `analyse` for callers that don't ask how often a point is transferred.
///
/// # Errors
///
/// Those of `analyse`.
pub fn analyse_plainly(alloc: Global, graph: &Graph) -> Result<FullCert, AnalyseFault>
    ensures covers { IfOk result (λ c. Covers graph.now c) }
    ensures least { IfOk result (λ c. spec.IsLeast graph.now c) }
    ensures none { IfErr result (λ f. spec.IfRefused f (λ _. spec.NoneCovers graph.now)) }
    ensures named { IfErr result (λ f. spec.IfRefused f (spec.IsNamed graph.now)) }
{
    analyse_in::<Brand>(alloc, graph, Blank::new(1))
}

/// One fault is named of a graph at most. It does nothing: its clause is the law.
pub fn one_fault_is_named()
    ensures { (g : Graph) (f h : Refusal) → spec.IsNamed g f → spec.IsNamed g h → f ≡ h }
{}
