//! The search, round after round, and its answers.

ghost use Rattle.std.specs.Prelude.{IfOk};
ghost use Rattle.flt_replay_world.specs.Filters.{filters_of};
ghost use Rattle.flt_search.specs.Found as spec;

use crate::answering::{Answer, Proposals, answers};
use crate::goal::{Bounds, Goal};
use crate::judging::{is_same, judge};
use crate::shortening::shorten;
use flt_model::{JournalEntry, Violation};
use flt_rules::MAX_FILTERS;
use flt_search_plan::Plan;
use flt_search_rounds::{
    Firsts, Found, Left, ROUNDS, Round, Search, SearchWatch, Stand, Targets, WatchedSearch, explore,
};
use flt_search_world::Violations;
use flt_tree::Tree;
use std::alloc::{AllocError, Global};

/// How many entries are replayed in all, and how many more to leave some out.
const MAX_JUDGED: usize = 400_000;

const MAX_SHORTENED: usize = 100_000;

/// The judgement on a break that was found.
#[derive(Clone, Copy)]
enum BreakJudgement {
    NotYet,
    /// The monitor doesn't agree, or there was no room to ask it.
    No,
    /// It is the run of this number.
    Run(usize),
}

/// The runs that are found so far for a goal.
#[derive(Clone, Copy)]
struct Hit {
    /// The run that is answered.
    run: Option<usize>,
    /// A run that breaks something elsewhere in the callback, where another goal is.
    spare: Option<usize>,
}

/// The runs that were judged, and the rest of the bounds on judging and on shortening.
#[derive(Drop)]
struct Runs {
    runs: Vec<Vec<JournalEntry>>,
    judging: usize,
    shortening: usize,
}

impl Runs {
    /// The number of the run of a break, if the monitor judges it to break that.
    fn judge(
        &mut self,
        alloc: Global,
        trees: &[Tree],
        search: &Search<'_>,
        found: &Found,
    ) -> Result<Option<usize>, AllocError> {
        if found.depth > self.judging {
            return Ok(None);
        }
        self.judging = self.judging.saturating_sub(found.depth);
        let entries = search.journal(found)?;
        match judge(alloc, trees, entries.as_slice())? {
            Some(broken) if is_same(broken.violation, found.violation) => {
                let shorter = shorten(
                    alloc,
                    trees,
                    entries,
                    found.violation,
                    &mut self.shortening,
                )?;
                let number = self.runs.len();
                self.runs.push(shorter)?;
                Ok(Some(number))
            }
            _ => Ok(None),
        }
    }
}

// ---- what a round has found

/// The findings of a round.
#[derive(Drop)]
struct Harvest<'p, 's> {
    search: &'s Search<'p>,
    judged: Vec<BreakJudgement>,
}

impl<'p, 's> Harvest<'p, 's> {
    fn of(alloc: Global, search: &'s Search<'p>) -> Result<Harvest<'p, 's>, AllocError> {
        let mut judged = Vec::new(alloc);
        for _ in 0..search.found.len() {
            judged.push(BreakJudgement::NotYet)?;
        }
        Ok(Harvest { search, judged })
    }

    /// The shortest break of a violation that a goal wants.
    fn shortest(&self, wanted: &[Violation], firsts: Firsts) -> Option<usize> {
        let mut best: Option<usize> = None;
        let mut length = usize::MAX;
        for violation in wanted {
            if let Some(number) = firsts.get(*violation) {
                if let Some(found) = self.search.found.get(number) {
                    if found.depth < length {
                        length = found.depth;
                        best = Some(number);
                    }
                }
            }
        }
        best
    }

    /// The run of a break, which is judged once.
    fn run_of(
        &mut self,
        alloc: Global,
        trees: &[Tree],
        runs: &mut Runs,
        number: usize,
    ) -> Result<Option<usize>, AllocError> {
        match self.judged.get(number) {
            Some(BreakJudgement::Run(run)) => return Ok(Some(*run)),
            Some(BreakJudgement::NotYet) => {}
            _ => return Ok(None),
        }
        let Some(found) = self.search.found.get(number) else {
            return Ok(None);
        };
        let run = runs.judge(alloc, trees, self.search, found)?;
        if let Some(judged) = self.judged.get_mut(number) {
            *judged = match run {
                Some(run) => BreakJudgement::Run(run),
                None => BreakJudgement::No,
            };
        }
        Ok(run)
    }

    /// Whether another goal is looked for where a break is.
    fn is_elsewhere_wanted(&self, number: usize) -> bool {
        match self.search.found.get(number) {
            Some(found) => self.search.targets.wants(found.stand, found.violation).0,
            None => true,
        }
    }

    /// The round's run for a goal at its point.
    fn at_point(
        &mut self,
        alloc: Global,
        trees: &[Tree],
        runs: &mut Runs,
        goal: &Goal<'_>,
        stand: Stand,
    ) -> Result<Option<usize>, AllocError> {
        let (point, whole) = self.search.targets.firsts(stand);
        let firsts = if goal.is_anywhere { whole } else { point };
        match self.shortest(goal.wanted, firsts) {
            Some(number) => self.run_of(alloc, trees, runs, number),
            None => Ok(None),
        }
    }

    /// The hit of a goal with the round's run elsewhere in the callback.
    fn elsewhere(
        &mut self,
        alloc: Global,
        trees: &[Tree],
        runs: &mut Runs,
        goal: &Goal<'_>,
        stand: Stand,
        hit: Hit,
    ) -> Result<Hit, AllocError> {
        let (_, whole) = self.search.targets.firsts(stand);
        let Some(number) = self.shortest(goal.wanted, whole) else {
            return Ok(hit);
        };
        let is_wanted = self.is_elsewhere_wanted(number);
        if is_wanted && hit.spare.is_some() {
            return Ok(hit);
        }
        let run = self.run_of(alloc, trees, runs, number)?;
        if is_wanted {
            Ok(Hit { spare: run, ..hit })
        } else {
            Ok(Hit { run, ..hit })
        }
    }

    /// The hit of a goal after the round.
    fn hit(
        &mut self,
        alloc: Global,
        trees: &[Tree],
        runs: &mut Runs,
        goal: &Goal<'_>,
        stand: Stand,
        hit: Hit,
    ) -> Result<Hit, AllocError> {
        let run = self.at_point(alloc, trees, runs, goal, stand)?;
        if run.is_some() {
            return Ok(Hit { run, ..hit });
        }
        self.elsewhere(alloc, trees, runs, goal, stand, hit)
    }
}

// ---- all rounds

/// The place of a goal; none if it doesn't exist.
fn stand_of(plan: &Plan, goal: &Goal<'_>) -> Option<Stand> {
    let place = plan.place_of(goal.filter)?;
    if place >= MAX_FILTERS {
        return None;
    }
    Some(Stand {
        filter: place as u8,
        callback: goal.callback,
        point: goal.point,
    })
}

/// The violations that a goal looks for.
fn wanted_by(goal: &Goal<'_>) -> Violations {
    let mut wanted = Violations::NOTHING;
    for violation in goal.wanted {
        wanted.add(*violation);
    }
    wanted
}

/// The targets that are still looked for.
fn targets_of(
    alloc: Global,
    plan: &Plan,
    goals: &[Goal<'_>],
    hits: &[Hit],
) -> Result<Targets, AllocError> {
    let mut targets = Targets::new(alloc, plan)?;
    for (goal, hit) in goals.iter().zip(hits.iter()) {
        if is_open(goal, *hit) {
            if let Some(stand) = stand_of(plan, goal) {
                let point = if goal.is_anywhere {
                    None
                } else {
                    Some(stand.point)
                };
                targets.add(stand.filter, stand.callback, point, wanted_by(goal))?;
            }
        }
    }
    Ok(targets)
}

/// Updates the hits of all goals after a round.
fn hits_behind(
    alloc: Global,
    trees: &[Tree],
    goals: &[Goal<'_>],
    search: &Search<'_>,
    plan: &Plan,
    runs: &mut Runs,
    hits: &mut [Hit],
) -> Result<(), AllocError> {
    let mut harvest = Harvest::of(alloc, search)?;
    for (number, goal) in goals.iter().enumerate() {
        if let (Some(stand), Some(hit)) = (stand_of(plan, goal), hits.get_mut(number)) {
            if is_open(goal, *hit) {
                *hit = harvest.hit(alloc, trees, runs, goal, stand, *hit)?;
            }
        }
    }
    Ok(())
}

/// The state of a search: its runs, its hits and its bounds.
#[derive(Drop)]
struct State {
    runs: Runs,
    hits: Vec<Hit>,
    left: Left,
    is_cut: bool,
}

/// Whether a run is still looked for.
fn is_open(goal: &Goal<'_>, hit: Hit) -> bool {
    hit.run.is_none() && !goal.wanted.is_empty()
}

/// Whether each goal that wants something has a run.
fn are_hit(goals: &[Goal<'_>], hits: &[Hit]) -> bool {
    for (goal, hit) in goals.iter().zip(hits.iter()) {
        if is_open(goal, *hit) {
            return false;
        }
    }
    true
}

/// Takes over the findings of a round.
fn take_over(
    alloc: Global,
    trees: &[Tree],
    goals: &[Goal<'_>],
    plan: &Plan,
    search: &Search<'_>,
    state: &mut State,
) -> Result<(), AllocError> {
    state.left = search.left;
    state.is_cut = state.is_cut || search.is_cut;
    hits_behind(
        alloc,
        trees,
        goals,
        search,
        plan,
        &mut state.runs,
        state.hits.as_mut_slice(),
    )
}

fn go_through<W: SearchWatch>(
    alloc: Global,
    trees: &[Tree],
    goals: &[Goal<'_>],
    plan: &Plan,
    round: Round,
    state: &mut State,
    watched: &mut WatchedSearch<'_, W>,
) -> Result<(), AllocError> {
    let targets = targets_of(alloc, plan, goals, state.hits.as_slice())?;
    let search = explore(alloc, plan, round, targets, state.left, watched)?;
    let taken = take_over(alloc, trees, goals, plan, &search, state);
    drop(search);
    taken
}

fn no_hits(alloc: Global, count: usize) -> Result<Vec<Hit>, AllocError> {
    let mut hits = Vec::new(alloc);
    for _ in 0..count {
        hits.push(Hit {
            run: None,
            spare: None,
        })?;
    }
    Ok(hits)
}

fn state_behind<W: SearchWatch>(
    alloc: Global,
    trees: &[Tree],
    goals: &[Goal<'_>],
    bounds: Bounds,
    watched: &mut WatchedSearch<'_, W>,
) -> Result<State, AllocError> {
    let mut state = State {
        runs: Runs {
            runs: Vec::new(alloc),
            judging: MAX_JUDGED,
            shortening: MAX_SHORTENED,
        },
        hits: no_hits(alloc, goals.len())?,
        left: Left {
            states: bounds.states,
            moves: bounds.states.saturating_mul(5),
            steps: bounds.states.saturating_mul(100),
        },
        is_cut: false,
    };
    if trees.len() > MAX_FILTERS {
        return Ok(state);
    }
    let plan = Plan::of(alloc, trees)?;
    for round in ROUNDS {
        if are_hit(goals, state.hits.as_slice()) {
            return Ok(state);
        }
        let round = round.within(bounds.states);
        go_through(alloc, trees, goals, &plan, round, &mut state, watched)?;
    }
    Ok(state)
}

// ---- answers

fn chosen_of(alloc: Global, hits: &[Hit]) -> Result<Vec<Option<usize>>, AllocError> {
    let mut chosen = Vec::new(alloc);
    for hit in hits {
        let number = match hit.run {
            Some(run) => Some(run),
            None => hit.spare,
        };
        chosen.push(number)?;
    }
    Ok(chosen)
}

/// Seeks for each goal a journal that breaks one of its violations. The filters may be in any order. One search serves all goals: it goes
/// breadth first through small worlds, in rounds of growing bounds, of which the last have three operations, two switches between
/// activations that could continue, a cancelled operation and a filter that is detached, and one has 1,100 operations one after the other.
/// The bounds say how many states are continued from in all, with five times as many moves and a hundred times as many local steps. For a
/// goal at a point, the answer is a run that breaks something there, if a round finds one, else one that breaks it elsewhere in the
/// callback. No clause says this, nor that a run is found if one exists. `watched` counts the states, and reports them to its watcher.
///
/// # Errors
///
/// `AllocError` if a growth is refused, or if a number or a count would reach 2^32.
pub fn search<W: SearchWatch>(
    alloc: Global,
    trees: &[Tree],
    goals: &[Goal<'_>],
    bounds: Bounds,
    watched: &mut WatchedSearch<'_, W>,
) -> Result<Vec<Answer>, AllocError>
    ensures { IfOk result (λ answers. spec.AreAnswers (filters_of trees.now) goals.now answers.items) }
{
    let state = state_behind(alloc, trees, goals, bounds, watched)?;
    let chosen = chosen_of(alloc, state.hits.as_slice())?;
    let proposals = Proposals {
        runs: state.runs.runs.as_slice(),
        chosen: chosen.as_slice(),
        is_cut: state.is_cut,
    };
    answers(alloc, trees, goals, proposals)
}
