//! The schedules of findings.

ghost use Rattle.std.specs.Prelude.{◌≡◌, List, IsTrue, IfOk, IfSome, None, false};
ghost use Rattle.std.specs.List.{AllZip};
ghost use Rattle.flt_starts.specs.Starts.{NeverStarts};
ghost use Rattle.flt_tree.specs.declared.filter.Callback.{Callback};
ghost use Rattle.flt_tree.specs.declared.filter.Filter.{Filter};
ghost use Rattle.flt_replay_world.specs.Filters.{filters_of};
ghost use Rattle.flt_explain_outcomes.specs.HandOver as hand;
ghost use Rattle.flt_explain_outcomes.specs.Schedules as spec;

use crate::hand_over::is_without_hand_over;
use crate::meeting::meets_others;
use crate::outlook::Outlook;
use crate::unset::Unset;
use crate::violations::violations_of;
use flt_explain::Finding;
use flt_model::{Violation, first_repeated};
use flt_rules::{MAX_FILTERS, Rule};
use flt_search::{Answer, Bounds, BreakingJournal, Goal, SearchWatch, WatchedSearch, search};
use flt_search_started::StartedCallbacks;
use flt_tree::{Callback, Tree};
use std::alloc::{AllocError, Global};

/// How runs are looked for.
#[derive(Clone, Copy)]
pub struct RunSearch {
    /// The greatest number of states from which the search for runs of a text continues.
    pub states: u32,
    /// Whether the filters are those of one stack: then runs of all of them are looked for first. Else each is alone.
    pub is_stack: bool,
}

/// A finding, by its number among those of its text.
#[derive(Clone, Copy)]
pub struct Suspect {
    pub number: usize,
    pub finding: Finding,
}

/// Findings of one of some filters, by the filter's number from 0, and what runs can reach of the filter's text.
#[derive(Clone, Copy)]
pub struct Suspects<'g> {
    pub filter: usize,
    pub outlook: &'g Outlook<'g>,
    pub found: &'g [Suspect],
}

/// The outcome of a finding in runs of some filters.
#[derive(Drop)]
pub enum Schedule {
    /// This run breaks what the finding's rule prevents.
    Breaks(BreakingJournal),
    /// No run was found within the bounds.
    NotWithin,
    /// No run was found before there were too many states.
    Cut,
    /// There can be no run: `arg` is held where it mustn't be, and nothing hands a context there.
    NeverHanded,
    /// There can be no run: nothing starts the finding's callback.
    NeverStarted,
    /// There can be no run: the finding isn't reached unless a call gets a context on one of these anchors, and no callback of the filter
    /// sets one.
    NeverGot(Unset),
}

/// The outcome of a finding in runs of several filters.
#[derive(Drop)]
pub enum JointOutcome {
    /// In runs of all filters.
    Together(Schedule),
    /// In runs of the finding's filter alone.
    Alone(Schedule),
}

/// The outcome of a finding, by its number among those of its text.
#[derive(Drop)]
pub struct Outcome {
    pub number: usize,
    pub scheduled: JointOutcome,
}

/// The callbacks of the filter of a number; none if there is no such filter.
fn callbacks_of(trees: &[Tree], number: usize) -> &[Callback]
    ensures { result.now ≡ spec.callbacks_of trees.now number }
{
    match trees.get(number) {
        Some(tree) => tree.filter.callbacks.as_slice(),
        None => &[],
    }
}

// ---- what is looked for

/// Whether the harm that a broken rule does may come at another line of the callback.
fn is_anywhere(rule: Rule) -> bool {
    matches!(rule, Rule::R03 | Rule::R12)
}

/// Whether no run starts a finding's callback, as far as it is known which may start.
fn never_starts(started: Option<&StartedCallbacks>, finding: &Finding) -> bool
    ensures { (cs : List Callback) → spec.IsStartedOf cs started.entry → IsTrue result → NeverStarts cs finding.now.callback }
{
    match started {
        Some(started) => started.rules_out(finding.callback),
        None => false,
    }
}

/// Why there can be no run, if that is known without a search.
fn known_for(
    outlook: &Outlook<'_>,
    started: Option<&StartedCallbacks>,
    finding: &Finding,
) -> Option<Schedule>
    ensures known { (p : List Filter) (cs : List Callback) → spec.IsStartedOf cs started.entry →
        IfSome result (spec.IsSchedule p cs outlook.now finding.now) }
    ensures otherwise { result ≡ None → hand.is_without_hand_over outlook.now finding.now ≡ false }
{
    if is_without_hand_over(outlook.graph(), finding) {
        return Some(Schedule::NeverHanded);
    }
    if never_starts(started, finding) && outlook.is_unstarted(finding) {
        return Some(Schedule::NeverStarted);
    }
    match outlook.unset_for(finding) {
        Some(unset) => Some(Schedule::NeverGot(unset)),
        None => None,
    }
}

/// Whether an answer is a run.
fn is_run(answer: Option<&Answer>) -> bool {
    matches!(answer, Some(Answer::Breaks(_)))
}

/// The violations to look for: none if a finding's outcome is known without a search, or if this answer is a run.
fn wanted_for(
    outlook: &Outlook<'_>,
    started: Option<&StartedCallbacks>,
    finding: &Finding,
    answer: Option<&Answer>,
) -> &'static [Violation]
    ensures { spec.AreWanted finding.now result.now }
{
    if is_run(answer) || known_for(outlook, started, finding).is_some() {
        &[]
    } else {
        violations_of(finding.rule)
    }
}

/// The goal for a finding of the filter of a number, given an earlier answer.
fn goal_for(
    outlook: &Outlook<'_>,
    started: Option<&StartedCallbacks>,
    filter: usize,
    suspect: &Suspect,
    answer: Option<&Answer>,
) -> Goal<'static>
    ensures { spec.IsGoalFor suspect.now result }
{
    let finding = &suspect.finding;
    Goal {
        filter,
        callback: finding.callback,
        point: finding.point,
        wanted: wanted_for(outlook, started, finding, answer),
        is_anywhere: is_anywhere(finding.rule),
    }
}

/// The goals for some findings of the filter of a number, given earlier answers.
fn goals_for(
    alloc: Global,
    outlook: &Outlook<'_>,
    started: Option<&StartedCallbacks>,
    filter: usize,
    found: &[Suspect],
    answers: &[Answer],
) -> Result<Vec<Goal<'static>>, AllocError>
    ensures { IfOk result (λ goals. AllZip spec.IsGoalFor found.now goals.items) }
{
    let mut goals = Vec::new(alloc);
    for (place, suspect) in found.iter().enumerate() {
        let goal = goal_for(outlook, started, filter, suspect, answers.get(place));
        goals.push(goal)?;
    }
    Ok(goals)
}

// ---- the searches

/// The answers of a search in runs of some filters for some findings of the filter of a number, given earlier answers.
fn searched<W: SearchWatch>(
    alloc: Global,
    trees: &[Tree],
    filter: usize,
    suspects: &Suspects<'_>,
    started: Option<&StartedCallbacks>,
    answers: &[Answer],
    states: u32,
    watched: &mut WatchedSearch<'_, W>,
) -> Result<Vec<Answer>, AllocError>
    ensures { IfOk result (λ found. spec.AreFound (filters_of trees.now) suspects.now.found.now found.items) }
{
    let goals = goals_for(
        alloc,
        suspects.outlook,
        started,
        filter,
        suspects.found,
        answers,
    )?;
    search(alloc, trees, goals.as_slice(), Bounds { states }, watched)
}

/// The filter of a number alone; none if there is no such filter.
pub fn only(trees: &[Tree], number: usize) -> &[Tree]
    ensures { result.now ≡ spec.only trees.now number }
{
    if number < trees.len() {
        &trees[number..number + 1]
    } else {
        &[]
    }
}

/// Whether runs of all filters are worth a search: the filters are those of one stack, the filter of a number meets another one, and all
/// can be there at once.
fn may_meet(is_stack: bool, trees: &[Tree], number: usize) -> bool
    ensures { IsTrue result → spec.MayMeet is_stack trees.now number }
{
    is_stack
        && trees.len() <= MAX_FILTERS
        && meets_others(trees, number)
        && first_repeated(trees).is_none()
}

/// The answers of a search in runs of all filters, with half of so many states; none if the filters are no stack, or the findings' filter
/// doesn't meet another one.
fn searched_together<W: SearchWatch>(
    alloc: Global,
    trees: &[Tree],
    suspects: &Suspects<'_>,
    started: Option<&StartedCallbacks>,
    asked: RunSearch,
    watched: &mut WatchedSearch<'_, W>,
) -> Result<Vec<Answer>, AllocError>
    ensures { IfOk result
        (λ found. spec.AreTogether asked.is_stack trees.now suspects.now.filter suspects.now.found.now found.items) }
{
    if !may_meet(asked.is_stack, trees, suspects.filter) {
        return Ok(Vec::new(alloc));
    }
    searched(
        alloc,
        trees,
        suspects.filter,
        suspects,
        started,
        &[],
        asked.states / 2,
        watched,
    )
}

/// The answers of a search in runs of the findings' filter alone, for the findings without a run among these answers of runs of all
/// filters: with half of so many states, or with all of them if there are no such answers.
fn searched_alone<W: SearchWatch>(
    alloc: Global,
    trees: &[Tree],
    suspects: &Suspects<'_>,
    started: Option<&StartedCallbacks>,
    together: &[Answer],
    states: u32,
    watched: &mut WatchedSearch<'_, W>,
) -> Result<Vec<Answer>, AllocError>
    ensures { IfOk result
        (λ found. spec.AreFound (filters_of (spec.only trees.now suspects.now.filter)) suspects.now.found.now found.items) }
{
    let left = if together.is_empty() {
        states
    } else {
        states / 2
    };
    let own = only(trees, suspects.filter);
    searched(alloc, own, 0, suspects, started, together, left, watched)
}

// ---- what comes of them

/// The outcome of a finding, by its answer.
fn schedule_for(
    alloc: Global,
    outlook: &Outlook<'_>,
    started: Option<&StartedCallbacks>,
    finding: &Finding,
    answer: Option<&Answer>,
) -> Result<Schedule, AllocError>
    ensures { IfOk result (λ s. (p : List Filter) (cs : List Callback) → spec.IsStartedOf cs started.entry →
        spec.IsFoundBy p finding.now answer.entry → spec.IsSchedule p cs outlook.now finding.now s) }
{
    if let Some(known) = known_for(outlook, started, finding) {
        return Ok(known);
    }
    match answer {
        Some(Answer::Breaks(broken)) => Ok(Schedule::Breaks(broken.copy(alloc)?)),
        Some(Answer::Cut) => Ok(Schedule::Cut),
        Some(Answer::NotWithin) | None => Ok(Schedule::NotWithin),
    }
}

/// The outcome of a finding, by the answers of both searches.
fn scheduled_for(
    alloc: Global,
    _is_stack: bool,
    _trees: &[Tree],
    suspects: &Suspects<'_>,
    started: Option<&StartedCallbacks>,
    finding: &Finding,
    together: Option<&Answer>,
    alone: Option<&Answer>,
) -> Result<JointOutcome, AllocError>
    requires started { spec.IsStartedOf (spec.callbacks_of _trees.now suspects.now.filter) started }
    requires together { spec.IsTogetherBy _is_stack _trees.now suspects.now.filter finding.now together }
    requires alone { spec.IsFoundBy (filters_of (spec.only _trees.now suspects.now.filter)) finding.now alone }
    ensures { IfOk result (spec.IsScheduled _is_stack _trees.now suspects.now.filter suspects.now.outlook.now finding.now) }
{
    match together {
        Some(Answer::Breaks(_)) => {
            let schedule = schedule_for(alloc, suspects.outlook, started, finding, together)?;
            Ok(JointOutcome::Together(schedule))
        }
        _ => {
            let schedule = schedule_for(alloc, suspects.outlook, started, finding, alone)?;
            Ok(JointOutcome::Alone(schedule))
        }
    }
}

/// The outcome of each finding, by the answers of both searches.
fn outcomes_by(
    alloc: Global,
    is_stack: bool,
    trees: &[Tree],
    suspects: &Suspects<'_>,
    started: Option<&StartedCallbacks>,
    together: &[Answer],
    alone: &[Answer],
) -> Result<Vec<Outcome>, AllocError>
    requires started { spec.IsStartedOf (spec.callbacks_of trees.now suspects.now.filter) started }
    requires together { spec.AreTogether is_stack trees.now suspects.now.filter suspects.now.found.now together.now }
    requires alone { spec.AreFound (filters_of (spec.only trees.now suspects.now.filter)) suspects.now.found.now alone.now }
    ensures { IfOk result
        (λ all. spec.AreOutcomes is_stack trees.now suspects.now.filter suspects.now.outlook.now suspects.now.found.now all.items) }
{
    let mut all = Vec::new(alloc);
    for (place, suspect) in suspects.found.iter().enumerate() {
        let scheduled = scheduled_for(
            alloc,
            is_stack,
            trees,
            suspects,
            started,
            &suspect.finding,
            together.get(place),
            alone.get(place),
        )?;
        all.push(Outcome {
            number: suspect.number,
            scheduled,
        })?;
    }
    Ok(all)
}

/// The outcome of each of some findings of one filter in runs of these filters, which may be in any order. If they are those of one stack
/// and the findings' filter meets another one on an operation, runs of all filters are looked for first, with half of the bound; for the
/// findings without such a run, runs of the filter alone are looked for. Each of these is one search for all findings, as
/// `flt_search::search` says; both together continue from at most so many states, and `watch` hears of each 10,000 of them. A run that
/// breaks something where a finding is comes before one that breaks it elsewhere in the callback; no clause is about that.
///
/// # Errors
///
/// If memory is refused, or a number or a count would reach 2^32.
pub fn outcomes_among<W: SearchWatch>(
    alloc: Global,
    trees: &[Tree],
    suspects: &Suspects<'_>,
    asked: RunSearch,
    watch: &mut W,
) -> Result<Vec<Outcome>, AllocError>
    ensures { IfOk result
        (λ all. spec.AreOutcomes asked.is_stack trees.now suspects.now.filter suspects.now.outlook.now suspects.now.found.now
        all.items) }
{
    let started = StartedCallbacks::of(alloc, callbacks_of(trees, suspects.filter))?;
    let started = started.as_ref();
    let mut watched = WatchedSearch::new(watch);
    let together = searched_together(alloc, trees, suspects, started, asked, &mut watched)?;
    let together = together.as_slice();
    let alone = searched_alone(
        alloc,
        trees,
        suspects,
        started,
        together,
        asked.states,
        &mut watched,
    )?;
    outcomes_by(
        alloc,
        asked.is_stack,
        trees,
        suspects,
        started,
        together,
        alone.as_slice(),
    )
}
