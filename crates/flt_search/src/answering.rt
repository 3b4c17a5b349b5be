//! Answers: each run is judged once, and each goal is answered by its own copy of one.

ghost use Rattle.std.specs.Prelude.{IfOk, IfSome};
ghost use Rattle.flt_replay_world.specs.Filters.{filters_of};
ghost use Rattle.flt_search.specs.Found as spec;

use crate::goal::Goal;
use crate::judging::{BreakingJournal, is_wanted, judge};
use flt_model::JournalEntry;
use flt_tree::Tree;
use std::alloc::{AllocError, Global};

/// The answer of a search for a goal.
#[derive(Drop)]
pub enum Answer {
    /// This run breaks something that is looked for.
    Breaks(BreakingJournal),
    /// Each round came to its end.
    NotWithin,
    /// Something was beyond the bounds.
    Cut,
}

/// The proposed answers: the number of a run for each goal, if there is one.
#[derive(Clone, Copy)]
pub(crate) struct Proposals<'s> {
    pub(crate) runs: &'s [Vec<JournalEntry>],
    pub(crate) chosen: &'s [Option<usize>],
    /// Whether something was beyond the bounds.
    pub(crate) is_cut: bool,
}

/// Judges each run that is proposed: none if the monitor doesn't agree.
fn judge_all(
    alloc: Global,
    trees: &[Tree],
    journals: &[Vec<JournalEntry>],
) -> Result<Vec<Option<BreakingJournal>>, AllocError>
    ensures { IfOk result (λ runs. spec.AreRuns (filters_of trees.now) runs.items) }
{
    let mut runs = Vec::new(alloc);
    for journal in journals {
        let run = judge(alloc, trees, journal.as_slice())?;
        runs.push(run)?;
    }
    Ok(runs)
}

/// A run on some filters as the answer of a goal, if it breaks a violation that the goal wants.
fn breaks(
    alloc: Global,
    _trees: &[Tree],
    goal: &Goal<'_>,
    run: &BreakingJournal,
) -> Result<Answer, AllocError>
    requires { spec.IsRun (filters_of _trees.now) run.now }
    ensures { IfOk result (spec.IsAnswer (filters_of _trees.now) goal.now) }
{
    if !is_wanted(goal.wanted, run.violation) {
        return Ok(Answer::NotWithin);
    }
    Ok(Answer::Breaks(run.copy(alloc)?))
}

/// The run of a number on some filters, if the monitor agrees.
fn run_at<'r>(
    _trees: &[Tree],
    runs: &'r [Option<BreakingJournal>],
    number: Option<usize>,
) -> Option<&'r BreakingJournal>
    requires { spec.AreRuns (filters_of _trees.now) runs.now }
    ensures { IfSome result (λ run. spec.IsRun (filters_of _trees.now) run.now) }
{
    match runs.get(number?) {
        Some(Some(run)) => Some(run),
        _ => None,
    }
}

/// The answer of a goal by the run of a number.
fn answer_of(
    alloc: Global,
    trees: &[Tree],
    runs: &[Option<BreakingJournal>],
    goal: &Goal<'_>,
    number: Option<usize>,
    is_cut: bool,
) -> Result<Answer, AllocError>
    requires { spec.AreRuns (filters_of trees.now) runs.now }
    ensures { IfOk result (spec.IsAnswer (filters_of trees.now) goal.now) }
{
    match run_at(trees, runs, number) {
        Some(run) => breaks(alloc, trees, goal, run),
        None if is_cut => Ok(Answer::Cut),
        None => Ok(Answer::NotWithin),
    }
}

/// The number of a goal's run.
fn chosen_at(chosen: &[Option<usize>], goal: usize) -> Option<usize> {
    match chosen.get(goal) {
        Some(number) => *number,
        None => None,
    }
}

/// The answers of all goals.
pub(crate) fn answers(
    alloc: Global,
    trees: &[Tree],
    goals: &[Goal<'_>],
    proposals: Proposals<'_>,
) -> Result<Vec<Answer>, AllocError>
    ensures { IfOk result (λ answers. spec.AreAnswers (filters_of trees.now) goals.now answers.items) }
{
    let runs = judge_all(alloc, trees, proposals.runs)?;
    let mut answers = Vec::new(alloc);
    for goal in goals {
        let run = chosen_at(proposals.chosen, answers.len());
        let one = answer_of(alloc, trees, runs.as_slice(), goal, run, proposals.is_cut)?;
        answers.push(one)?;
    }
    Ok(answers)
}
