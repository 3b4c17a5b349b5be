//! The steps of a run, and its activations.

ghost use Rattle.std.specs.Prelude.{◌≡◌, IfOk, MatchOption, None, map};
ghost use Rattle.flt_model.specs.Program as program;
ghost use Rattle.flt_replay_world.specs.Filters.{filters_behind};
ghost use Rattle.flt_explain_flows.specs.Flows as spec;
ghost use Rattle.flt_explain_flows.specs.Running as running;

use crate::naming::name_of;
use crate::running::{Active, EntryActivation, Run, run_of};
use flt_explain_timeline::{Row, Stage, Timeline, tree_at};
use flt_model::{Journal, Verdict};
use flt_places::Files;
use flt_replay_world::{Stack, filters_of};
use flt_tree::{Filter, Span, Tree};
use sqlite_items::Items;
use std::alloc::{AllocError, Global};

/// An entry of a journal, as a step of a run.
#[derive(Drop)]
pub struct FlowStep {
    /// The number of the entry, from 0.
    pub entry: usize,
    /// The number of the activation that starts or continues with it, from 0 in the order in which they start; none if the entry is another
    /// move of the filter manager.
    pub activation: Option<usize>,
    /// Where that activation is: at the head of the callback that starts, at the statement that others see, or at the closing brace.
    pub span: Option<Span>,
    /// The words that a timeline has for the entry.
    pub words: Items<u8>,
}

/// An activation of a run.
#[derive(Drop)]
pub struct FlowActivation {
    /// The number of the tree with its filter, from 0 in the order in which the trees were given: the first of its altitude.
    pub tree: usize,
    /// The number of its callback in that text, from 0.
    pub callback: usize,
    /// The number of the operation that it is about, from 0 in the order in which they arrive, if it is about one.
    pub operation: Option<usize>,
    /// The head of its callback, the name of its filter if there are several, and its operation.
    pub name: Items<u8>,
}

/// A run: its steps in the order of the entries, and its activations in the order in which they start.
#[derive(Drop)]
pub struct Flow {
    pub steps: Items<FlowStep>,
    pub activations: Items<FlowActivation>,
}

// ---- steps

/// An entry as a step, with the words of a timeline.
fn step_of(
    alloc: Global,
    timeline: &Timeline<'_>,
    entry: usize,
    taken: EntryActivation,
) -> Result<FlowStep, AllocError>
    ensures { IfOk result (λ step. step ≡ spec.step_of timeline.now entry taken) }
{
    let row = Row {
        first: entry,
        count: 1,
    };
    let words = timeline.words(alloc, row)?;
    Ok(FlowStep {
        entry,
        activation: taken.activation,
        span: taken.span,
        words: Items::from_vec(words.into_bytes()),
    })
}

/// All entries as steps.
#[tactic(auto, unfolding(crate::specs::Flows::steps_from))]
fn steps_of(
    alloc: Global,
    timeline: &Timeline<'_>,
    taken: &[EntryActivation],
) -> Result<Items<FlowStep>, AllocError>
    ensures { IfOk result (λ steps. steps ≡ spec.steps_of timeline.now taken.now) }
{
    let mut steps = Items::new(alloc);
    for one in taken {
        let entry = steps.len();
        let step = step_of(alloc, timeline, entry, *one)?;
        steps.push(step)?;
    }
    Ok(steps)
}

// ---- activations

/// The altitude of the filter of a number; 0 if there is no such filter.
fn altitude_of(filters: &[&Filter], filter: usize) -> u64
    ensures { result ≡ (program.filter_at (filters_behind filters.now) filter).altitude }
{
    match filters.get(filter) {
        Some(filter) => filter.altitude,
        None => 0,
    }
}

/// An activation, with its name.
fn activation_of(
    alloc: Global,
    trees: &[Tree],
    filters: &[&Filter],
    active: Active,
) -> Result<FlowActivation, AllocError>
    ensures { IfOk result (λ activation. activation ≡ spec.activation_of trees.now filters.now active) }
{
    let name = name_of(alloc, filters, active)?;
    Ok(FlowActivation {
        tree: tree_at(trees, altitude_of(filters, active.started.filter)),
        callback: active.started.callback,
        operation: active.operation,
        name: Items::from_vec(name.into_bytes()),
    })
}

/// All activations, with their names.
fn activations_of(
    alloc: Global,
    trees: &[Tree],
    filters: &[&Filter],
    actives: &[Active],
) -> Result<Items<FlowActivation>, AllocError>
    ensures { IfOk result (λ all. all ≡ map (spec.activation_of trees.now filters.now) actives.now) }
{
    let mut all = Items::new(alloc);
    for active in actives {
        let activation = activation_of(alloc, trees, filters, *active)?;
        all.push(activation)?;
    }
    Ok(all)
}

// ---- all

impl Flow {
    /// A run of which so much is kept.
    fn by(
        stage: &Stage<'_, '_>,
        trees: &[Tree],
        files: &[Files<'_>],
        journal: &Journal,
        run: &Run,
    ) -> Result<Flow, AllocError>
        ensures { IfOk result (spec.IsFlowBy trees.now files.now journal.now stage.now.filters.now run.now) }
    {
        let timeline = Timeline::of(stage.alloc, trees, files, journal, Verdict::Legal)?;
        let steps = steps_of(stage.alloc, &timeline, run.taken.as_slice())?;
        let activations = activations_of(
            stage.alloc,
            trees,
            stage.filters,
            run.actives.as_slice(),
        )?;
        Ok(Flow { steps, activations })
    }

    /// The run of a journal on some filters, in any order, whatever it breaks; none if the journal isn't a run on them. The files of the
    /// filters' texts, in the order of the filters, name the lines; without them these have their numbers in the texts.
    ///
    /// # Errors
    ///
    /// If memory is refused, or a number or a count would reach 2^32.
    pub fn of(
        alloc: Global,
        trees: &[Tree],
        files: &[Files<'_>],
        journal: &Journal,
    ) -> Result<Option<Flow>, AllocError>
        ensures { IfOk result (λ found. MatchOption found
            (running.run_of (program.by_altitude (program.filters_of trees.now)) journal.now ≡ None)
            (spec.IsFlow trees.now files.now journal.now)) }
    {
        let stack = Stack::of(alloc, trees)?;
        let filters = filters_of(alloc, trees)?;
        let stage = Stage {
            alloc,
            stack: &stack,
            filters: filters.as_slice(),
        };
        match run_of(&stage, journal)? {
            Some(run) => Ok(Some(Flow::by(&stage, trees, files, journal, &run)?)),
            None => Ok(None),
        }
    }
}
