//! The outcome of a finding if one more callback sets the contexts that nothing in its text sets: a run of another text.

ghost use Rattle.std.specs.Prelude.{◌≡◌, Some, All, IfOk, IfSome, slice_get};
ghost use Rattle.flt_explain_outcomes.specs.Again as spec;
ghost use Rattle.flt_explain_outcomes.specs.Noted.{IsAgain};
ghost use Rattle.flt_explain_outcomes.specs.Setters.{IsSetter};

use crate::noted::{SetterOutcome, schedule_of};
use crate::outlook::Outlook;
use crate::schedules::{Outcome, RunSearch, Schedule, Suspect, Suspects, outcomes_among};
use crate::setters::{Setter, is_same};
use flt_explain::Finding;
use flt_search::SearchWatch;
use std::alloc::{AllocError, Global};

/// A text that sets what another doesn't, and the outcomes in it of the other's findings that need this.
#[derive(Drop)]
pub struct Setting {
    pub setter: Setter,
    pub outcomes: Vec<Outcome>,
}

/// The finding of a number, if it is found in the text with the callback too: with the rule that it has without it.
fn suspect_again(setter: &Setter, found: &[Finding], number: usize) -> Option<Suspect>
    ensures { IfSome result (spec.IsSuspectAgain found.now) }
{
    match (setter.found.get(number), found.get(number)) {
        (Some(own), Some(finding)) if is_same(own, finding) => Some(Suspect {
            number,
            finding: Finding {
                rule: finding.rule,
                ..*own
            },
        }),
        _ => None,
    }
}

/// The findings that need contexts which nothing sets, as they are in the text with the callback.
fn suspects_of(
    alloc: Global,
    setter: &Setter,
    found: &[Finding],
    outcomes: &[Outcome],
) -> Result<Vec<Suspect>, AllocError>
    ensures { IfOk result (λ all. All (spec.IsSuspectAgain found.now) all.items) }
{
    let mut all = Vec::new(alloc);
    for outcome in outcomes {
        if let Schedule::NeverGot(_) = schedule_of(&outcome.scheduled) {
            if let Some(suspect) = suspect_again(setter, found, outcome.number) {
                all.push(suspect)?;
            }
        }
    }
    Ok(all)
}

/// The outcomes of these findings in runs of that text.
fn outcomes_of<W: SearchWatch>(
    alloc: Global,
    setter: &Setter,
    found: &[Finding],
    outcomes: &[Outcome],
    states: u32,
    watch: &mut W,
) -> Result<Vec<Outcome>, AllocError>
    requires alone { spec.IsAlone setter.now.trees }
    ensures { IfOk result (λ all. All (spec.IsOutcomeAgain setter.now.trees found.now) all.items) }
{
    let again = suspects_of(alloc, setter, found, outcomes)?;
    let outlook = Outlook::of(alloc, &setter.graph)?;
    let suspects = Suspects {
        filter: 0,
        outlook: &outlook,
        found: again.as_slice(),
    };
    let asked = RunSearch {
        states,
        is_stack: false,
    };
    let all = outcomes_among(alloc, setter.trees.as_slice(), &suspects, asked, watch)?;
    Ok(all)
}

/// The outcome of a finding in runs of a text with one more callback.
fn again_by(alloc: Global, outcome: &Outcome) -> Result<SetterOutcome, AllocError>
    ensures { IfOk result (spec.IsAgainBy outcome.now) }
{
    match schedule_of(&outcome.scheduled) {
        Schedule::Breaks(broken) => Ok(SetterOutcome::Runs(broken.copy(alloc)?)),
        _ => Ok(SetterOutcome::RunsNowhere),
    }
}

impl Setting {
    /// The outcomes of a text's findings with the callback, given those without it: one search for all of them, up to so many states.
    ///
    /// # Errors
    ///
    /// If memory is refused, or a number or a count would reach 2^32.
    pub(crate) fn of<W: SearchWatch>(
        alloc: Global,
        setter: Setter,
        _text: &[u8],
        found: &[Finding],
        outcomes: &[Outcome],
        states: u32,
        watch: &mut W,
    ) -> Result<Setting, AllocError>
        requires setter { IsSetter _text.now setter }
        ensures { IfOk result (spec.IsSetting _text.now found.now) }
    {
        let outcomes = outcomes_of(alloc, &setter, found, outcomes, states, watch)?;
        Ok(Setting { setter, outcomes })
    }

    /// The outcome of the finding of a number, from 0; none if it isn't found in the text with the callback.
    fn outcome(&self, number: usize) -> Option<&Outcome>
        ensures { IfSome result (λ o. spec.IsOutcomeOf self.now number o.now) }
    {
        for outcome in &self.outcomes {
            if outcome.number == number {
                return Some(outcome);
            }
        }
        None
    }

    /// The outcome of the finding of a number, from 0; none if it isn't found in the text with the callback.
    ///
    /// # Errors
    ///
    /// If memory is refused.
    pub(crate) fn again(
        &self,
        alloc: Global,
        _text: &[u8],
        found: &[Finding],
        number: usize,
    ) -> Result<Option<SetterOutcome>, AllocError>
        requires setting { spec.IsSetting _text.now found.now self.now }
        ensures { IfOk result (λ a. IfSome a (λ a. (f : Finding) → slice_get found.now number ≡ Some f → IsAgain _text.now f a)) }
    {
        match self.outcome(number) {
            Some(outcome) => Ok(Some(again_by(alloc, outcome)?)),
            None => Ok(None),
        }
    }
}
