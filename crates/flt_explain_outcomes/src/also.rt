//! A further violation of a run that was shown before: by its last entry, beside the least violation, which alone is in its verdict.

ghost use Rattle.std.specs.Prelude.{◌≡◌, Some, Contains, IfOk, IfSome, IsTrue};
ghost use Rattle.flt_explain_outcomes.specs.Noted as spec;
ghost use Rattle.flt_explain_outcomes.specs.Violations.{violations_of as prevented_by};

use crate::noted::{Note, own_trees, schedule_of};
use crate::schedules::Schedule;
use crate::violations::violations_of;
use flt_explain::Finding;
use flt_model::Violation;
use flt_replay::broken_rule_at_last;
use flt_tree::Tree;
use std::alloc::{AllocError, Global};

/// Whether two findings are at one point.
fn are_at_one_point(one: &Finding, other: &Finding) -> bool
    ensures { IsTrue result → (one.now.callback ≡ other.now.callback) × (one.now.point ≡ other.now.point) }
{
    one.callback == other.callback && one.point == other.point
}

/// The violation by the last entry of the run of a finding that was noted before, the least of the last four violations.
fn rule_of(alloc: Global, trees: &[Tree], noted: &Note) -> Result<Option<Violation>, AllocError>
    ensures { IfOk result (λ o. IfSome o (spec.IsBrokenBy trees.now noted.now)) }
{
    let own = own_trees(trees, noted.filter, &noted.scheduled);
    match schedule_of(&noted.scheduled) {
        Schedule::Breaks(broken) => broken_rule_at_last(alloc, own, &broken.journal),
        _ => Ok(None),
    }
}

/// Whether a finding's rule prevents a violation.
fn is_prevented(finding: &Finding, violation: Violation) -> bool
    ensures { IsTrue result → Contains (prevented_by finding.now.rule) violation }
{
    let number = violation.number();
    for own in violations_of(finding.rule) {
        if own.number() == number {
            return true;
        }
    }
    false
}

/// The violation, if the finding's rule prevents it.
fn prevented(finding: &Finding, violation: Option<Violation>) -> Option<Violation>
    ensures { IfSome result (λ v. (violation ≡ Some v) × Contains (prevented_by finding.now.rule) v) }
{
    match violation {
        Some(own) if is_prevented(finding, own) => violation,
        _ => None,
    }
}

/// Whether a note of the filter of this number, whose findings these are, is of a finding at the same point.
fn is_near(filter: usize, found: &[Finding], finding: &Finding, noted: &Note) -> bool
    ensures { IsTrue result → spec.IsNear filter found.now finding.now noted.now }
{
    if noted.filter != filter {
        return false;
    }
    match found.get(noted.finding) {
        Some(other) => are_at_one_point(other, finding),
        None => false,
    }
}

/// A violation by the last entry of a note's run, if a finding's rule prevents it.
fn broken_too(
    alloc: Global,
    trees: &[Tree],
    finding: &Finding,
    noted: &Note,
) -> Result<Option<Violation>, AllocError>
    ensures { IfOk result (λ o. IfSome o (λ v. spec.IsBrokenBy trees.now noted.now v × Contains (prevented_by finding.now.rule) v)) }
{
    let violation = rule_of(alloc, trees, noted)?;
    Ok(prevented(finding, violation))
}

/// A violation that a finding's rule prevents, by the last entry of the run of another finding at the same point: of the filter of this
/// number, whose findings these are. The notes on one point follow each other.
pub(crate) fn also_broken(
    alloc: Global,
    trees: &[Tree],
    earlier: &[Note],
    filter: usize,
    found: &[Finding],
    finding: &Finding,
) -> Result<Option<Violation>, AllocError>
    ensures { IfOk result (λ o. IfSome o (spec.IsAlso trees.now filter found.now earlier.now finding.now)) }
{
    for back in 0..earlier.len() {
        let noted = &earlier[earlier.len() - 1 - back];
        if !is_near(filter, found, finding, noted) {
            return Ok(None);
        }
        let violation = broken_too(alloc, trees, finding, noted)?;
        if violation.is_some() {
            return Ok(violation);
        }
    }
    Ok(None)
}
