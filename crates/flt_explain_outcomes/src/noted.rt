//! The outcomes of the findings of texts in runs.

ghost use Rattle.std.specs.Prelude.{◌≡◌};
ghost use Rattle.std.specs.Option.{option_copied};
ghost use Rattle.flt_explain_outcomes.specs.Noted as spec;

use crate::schedules::{JointOutcome, Schedule, only};
use flt_graph::Place;
use flt_model::{Journal, Violation};
use flt_places::Files;
use flt_search::BreakingJournal;
use flt_tree::Tree;

/// The outcome of a finding if one more callback sets the contexts that nothing in its text sets.
#[derive(Drop)]
pub enum SetterOutcome {
    /// This is a run of the text with that callback.
    Runs(BreakingJournal),
    /// No run was found there either.
    RunsNowhere,
}

/// A note on a finding: its outcome in runs.
#[derive(Drop)]
pub struct Note {
    /// The number of its filter among those of the texts that parse, from 0.
    pub filter: usize,
    /// The number of the finding among those of its text, from 0.
    pub finding: usize,
    /// The place of its callback.
    pub place: Place,
    /// Whether each known path to it breaks another rule before.
    pub is_behind: bool,
    pub scheduled: JointOutcome,
    /// The further violation of the run of a finding that was noted before, at the same point, if this one has no run.
    pub also: Option<Violation>,
    /// Its outcome if one more callback sets what nothing in its text sets, if that was looked for.
    pub again: Option<SetterOutcome>,
}

/// The outcome of a finding, in whichever runs.
pub fn schedule_of(scheduled: &JointOutcome) -> &Schedule
    ensures { result.now ≡ spec.schedule_of scheduled.now }
{
    match scheduled {
        JointOutcome::Together(schedule) | JointOutcome::Alone(schedule) => schedule,
    }
}

/// The journal that breaks something, if there is one.
fn journal_of(noted: &Note) -> Option<&Journal>
    ensures { option_copied result ≡ spec.journal_of noted.now }
{
    match schedule_of(&noted.scheduled) {
        Schedule::Breaks(broken) => Some(&broken.journal),
        Schedule::NotWithin
        | Schedule::Cut
        | Schedule::NeverHanded
        | Schedule::NeverStarted
        | Schedule::NeverGot(_) => None,
    }
}

/// The journal of the first finding that has one.
pub fn first_journal(noted: &[Note]) -> Option<&Journal>
    ensures { option_copied result ≡ spec.first_journal noted.now }
{
    for one in noted {
        let journal = journal_of(one);
        if journal.is_some() {
            return journal;
        }
    }
    None
}

/// The trees of the filters in whose runs a finding of the filter of a number has its outcome.
pub fn own_trees<'t>(trees: &'t [Tree], number: usize, scheduled: &JointOutcome) -> &'t [Tree]
    ensures { result.now ≡ spec.own_of trees.now number scheduled.now }
{
    match scheduled {
        JointOutcome::Together(_) => trees,
        JointOutcome::Alone(_) => only(trees, number),
    }
}

/// The files of the filters in whose runs a finding has its outcome: of all filters, or of that of a number alone.
pub fn own_files<'f>(
    files: &'f [Files<'f>],
    filter: usize,
    scheduled: &JointOutcome,
) -> &'f [Files<'f>]
    ensures { result.now ≡ spec.own_files files.now filter scheduled.now }
{
    match scheduled {
        JointOutcome::Together(_) => files,
        JointOutcome::Alone(_) if filter < files.len() => &files[filter..filter + 1],
        JointOutcome::Alone(_) => &[],
    }
}
