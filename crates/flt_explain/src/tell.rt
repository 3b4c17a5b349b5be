//! Findings as they are reported.

ghost use Rattle.std.specs.Prelude.{◌≡◌, OnOk};
ghost use Rattle.flt_explain.specs.Told as spec;
ghost use Rattle.flt_explain.specs.Walk as walk_spec;

use crate::finding::{Fault, Finding, Subject};
use crate::locks::{LOCKS, Locks};
use crate::sight::Sight;
use flt_rules::{LockNumber, Rule};
use sqlite_items::Items;
use std::alloc::AllocError;

/// The place where findings are reported: callbacks and points from 0, lines from 1.
#[derive(Clone, Copy)]
pub(crate) struct Spot {
    pub(crate) callback: usize,
    pub(crate) point: usize,
    pub(crate) line: usize,
}

impl Spot {
    fn finding(self, rule: Rule, subject: Subject) -> Finding
        ensures { result ≡ spec.finding_at self rule subject }
    {
        Finding {
            callback: self.callback,
            point: self.point,
            line: self.line,
            rule,
            subject,
        }
    }

    /// Reports the faults at the point, as far as they aren't reported yet. The findings there are these.
    pub(crate) fn tell_faults(
        self,
        here: &mut Items<Finding>,
        findings: &mut Items<Finding>,
        sight: &Sight,
        faults: &[Fault],
    ) -> Result<(), AllocError>
        requires { here.old ≡ spec.at_point self.callback self.point findings.old }
        ensures told { OnOk result (findings.new ≡ walk_spec.faults_told self sight.now faults.now findings.old) }
        ensures here { OnOk result (here.new ≡ spec.at_point self.callback self.point findings.new) }
    {
        for fault in faults {
            if sight.tells(fault.subject) {
                tell(here, findings, self.finding(fault.rule, fault.subject))?;
            }
        }
        Ok(())
    }

    /// Reports that the paths from the point meet others with different locks.
    #[tactic(auto, unfolding(crate::specs::Walk::locks_told))]
    pub(crate) fn tell_locks(
        self,
        here: &mut Items<Finding>,
        findings: &mut Items<Finding>,
        differ: &Locks,
    ) -> Result<(), AllocError>
        requires { here.old ≡ spec.at_point self.callback self.point findings.old }
        ensures told { OnOk result (findings.new ≡ walk_spec.locks_told self differ.now findings.old) }
        ensures here { OnOk result (here.new ≡ spec.at_point self.callback self.point findings.new) }
    {
        self.tell_each(here, findings, differ, &LOCKS)
    }

    /// The same for some locks.
    fn tell_each(
        self,
        here: &mut Items<Finding>,
        findings: &mut Items<Finding>,
        differ: &Locks,
        locks: &[LockNumber],
    ) -> Result<(), AllocError>
        requires { here.old ≡ spec.at_point self.callback self.point findings.old }
        ensures told { OnOk result (findings.new ≡ walk_spec.locks_told_of self differ.now locks.now findings.old) }
        ensures here { OnOk result (here.new ≡ spec.at_point self.callback self.point findings.new) }
    {
        for lock in locks {
            if differ.contains(*lock) {
                tell(
                    here,
                    findings,
                    self.finding(Rule::R12, Subject::Lock(*lock)),
                )?;
            }
        }
        Ok(())
    }
}

/// Whether a finding is among these.
fn is_told(findings: &[Finding], finding: &Finding) -> bool
    ensures { result ≡ spec.is_told findings.now finding.now }
{
    findings.iter().any(|f| f.is_same(finding))
}

/// Adds a finding, unless it is there. Those at its point are also in a list of their own, which is short.
#[tactic(auto, using(crate::proofs::Telling::told_at_point, crate::proofs::Telling::one_more))]
fn tell(
    here: &mut Items<Finding>,
    findings: &mut Items<Finding>,
    finding: Finding,
) -> Result<(), AllocError>
    requires { here.old ≡ spec.at_point finding.callback finding.point findings.old }
    ensures told { OnOk result (findings.new ≡ spec.told findings.old finding) }
    ensures here { OnOk result (here.new ≡ spec.at_point finding.callback finding.point findings.new) }
{
    if !is_told(here.as_slice(), &finding) {
        here.push(finding)?;
        findings.push(finding)?;
    }
    Ok(())
}
