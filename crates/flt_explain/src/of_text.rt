//! All findings of a text.

ghost use Rattle.std.specs.Prelude.{◌≡◌, ◌<◌, ◌-◌, [], ◌∷◌, length, IfOk, IfSome};
ghost use Rattle.std.specs.List.{position};
ghost use Rattle.flt_explain.specs.Findings as spec;
ghost use Rattle.flt_explain.specs.Walk.{walked_from};

use crate::finding::{Finding, Subject};
use crate::walk::walk_callback;
use flt_analyse::{AnalyseFault, analyse_plainly};
use flt_graph::Graph;
use flt_rules::Refusal;
use sqlite_items::Items;
use std::alloc::{AllocError, Global};

/// The analyser's refusal of a text; none if the text has a certificate.
fn refusal(alloc: Global, graph: &Graph) -> Result<Option<Refusal>, AllocError>
    ensures { IfOk result (spec.Answers graph.now) }
{
    match analyse_plainly(alloc, graph) {
        Ok(cert) => {
            let _callbacks = cert.callbacks();
            Ok(None)
        }
        Err(AnalyseFault::Refused(refusal)) => Ok(Some(refusal)),
        Err(AnalyseFault::OutOfMemory) => Err(AllocError),
    }
}

/// Whether a finding is where the refusal is, by its rule.
fn is_refusal(refusal: &Refusal, finding: &Finding) -> bool
    ensures { result ≡ spec.is_refusal refusal.now finding.now }
{
    finding.callback == refusal.callback
        && finding.point == refusal.point
        && flt_rules::number(finding.rule) == flt_rules::number(refusal.rule)
}

/// The number of the first finding that the refusal is about, from 0.
fn place_of(refusal: &Refusal, findings: &[Finding]) -> Option<usize>
    ensures value { result ≡ position (spec.is_refusal refusal.now) findings.now }
    ensures within { IfSome result (λ place. place < length findings.now) }
{
    findings.iter().position(|f| is_refusal(refusal, f))
}

/// The refusal as a finding about a subject.
fn refused(refusal: &Refusal, subject: Subject) -> Finding
    ensures { result ≡ spec.refused refusal.now subject }
{
    Finding {
        callback: refusal.callback,
        point: refusal.point,
        line: refusal.line,
        rule: refusal.rule,
        subject,
    }
}

/// Takes the finding that the refusal is about out of the others.
#[tactic(auto, unfolding(crate::specs::Findings::with_first))]
fn take_first(refusal: &Refusal, findings: &mut Items<Finding>) -> Finding
    ensures { result ∷ findings.new ≡ spec.with_first refusal.now findings.old }
{
    let subject = match place_of(refusal, findings.as_slice()) {
        Some(place) => findings.remove(place).subject,
        None => Subject::Call,
    };
    refused(refusal, subject)
}

/// The findings, with the one that the refusal is about before the others.
fn with_first(
    alloc: Global,
    refusal: &Refusal,
    mut findings: Items<Finding>,
) -> Result<Items<Finding>, AllocError>
    ensures { IfOk result (λ fs. fs ≡ spec.with_first refusal.now findings) }
{
    let first = take_first(refusal, &mut findings);
    let mut all = Items::new(alloc);
    all.push(first)?;
    all.append(findings)?;
    Ok(all)
}

/// The findings of the walks of all callbacks from one on, in order.
#[tactic(auto, using(crate::proofs::Looks::one_walk, crate::proofs::Looks::no_more_walks, crate::proofs::Telling::walked_before))]
fn walk_from(alloc: Global, graph: &Graph, first: usize) -> Result<Items<Finding>, AllocError>
    ensures { IfOk result (λ fs. fs ≡ walked_from graph.now first (length graph.now.callbacks - first) []) }
{
    let mut findings = Items::new(alloc);
    for callback in first..graph.callbacks() {
        walk_callback(alloc, graph, callback, &mut findings)?;
    }
    Ok(findings)
}

/// The findings of a text. There are none exactly if the analyser gives a certificate; otherwise the first one is its refusal. The others
/// come as the walk meets them: callbacks in order, in each the least pending point, and at a point by rule and then by subject.
///
/// # Errors
///
/// `AllocError` if a growth is refused.
pub fn findings(alloc: Global, graph: &Graph) -> Result<Items<Finding>, AllocError>
    ensures { IfOk result (spec.AreFindings graph.now) }
{
    let Some(refusal) = refusal(alloc, graph)? else {
        return Ok(Items::new(alloc));
    };
    let found = walk_from(alloc, graph, refusal.callback)?;
    let told = with_first(alloc, &refusal, found)?;
    Ok(told)
}
