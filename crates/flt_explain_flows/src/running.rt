//! Runs a journal, and keeps of each entry which activation starts or continues with it, and where.

ghost use Rattle.std.specs.Prelude.{◌≡◌, [], ◌∷◌, List, IfOk, MatchOption, slice_get};
ghost use Rattle.flt_model.specs.Program.{callbacks_at as callbacks_in};
ghost use Rattle.flt_replay_records.specs.Rest.{statement_of};
ghost use Rattle.flt_tree.specs.declared.filter.Statement.{Statement as Written};
ghost use Rattle.flt_replay_world.specs.Filters.{filters_behind};
ghost use Rattle.flt_explain_timeline.specs.Course as told;
ghost use Rattle.flt_explain_flows.specs.Running as spec;

use flt_explain_timeline::{Stage, StartedCallback, callbacks_at, start_of};
use flt_model::{Journal, JournalEntry, Move};
use flt_replay_course::{make_move, step_seen, upcoming};
use flt_replay_records::Upcoming;
use flt_replay_steps::steps_unseen;
use flt_replay_world::World;
use flt_tree::{Filter, OperationVariable, Span, Statement};
use sqlite_items::Items;
use std::alloc::AllocError;

/// A callback that has started, and the operation that it is about.
#[derive(Clone, Copy)]
pub(crate) struct Active {
    pub(crate) started: StartedCallback,
    pub(crate) operation: Option<usize>,
}

/// The activation that starts or continues with an entry, and where that is; neither if the entry is another move of the filter manager.
#[derive(Clone, Copy)]
pub(crate) struct EntryActivation {
    pub(crate) activation: Option<usize>,
    pub(crate) span: Option<Span>,
}

/// The run of a journal: an item for each entry, and each activation in the order in which they start.
#[derive(Drop)]
pub(crate) struct Run {
    pub(crate) taken: Items<EntryActivation>,
    pub(crate) actives: Items<Active>,
}

/// How far a journal was run.
#[derive(Drop)]
struct Course<'a> {
    world: World<'a>,
    /// The callback and the operation of each activation.
    actives: Items<Active>,
}

// ---- places

/// A place that isn't there.
const NOWHERE: Span = Span {
    line: 0,
    start: 0,
    end: 0,
};

/// The place of a callback's head.
fn head_of(filters: &[&Filter], started: StartedCallback) -> Span
    ensures { result ≡ spec.head_of (slice_get (callbacks_in (filters_behind filters.now) started.filter) started.callback) }
{
    match callbacks_at(filters, started.filter).get(started.callback) {
        Some(callback) => callback.span,
        None => NOWHERE,
    }
}

/// The place of a callback's closing brace.
fn end_of(filters: &[&Filter], started: StartedCallback) -> Span
    ensures { result ≡ spec.end_of (slice_get (callbacks_in (filters_behind filters.now) started.filter) started.callback) }
{
    match callbacks_at(filters, started.filter).get(started.callback) {
        Some(callback) => callback.end,
        None => NOWHERE,
    }
}

/// The place of the next step: at the end of a body that of its closing brace.
fn next_span(next: Option<Upcoming<'_>>, end: Span) -> Span
    ensures { (statements rest : List Written) → MatchOption next.entry (statements ≡ []) (λ u. statements ≡ statement_of u ∷ rest) →
        result ≡ spec.next_span end statements }
{
    match next {
        Some(next) => next.span(),
        None => end,
    }
}

// ---- steps

/// Makes the step of an activation that others see, in a callback whose closing brace is there, and returns its place; none if it isn't
/// enabled.
fn go_seen<'a>(
    world: &mut World<'a>,
    stage: &Stage<'_, 'a>,
    activation: usize,
    grant: bool,
    end: Span,
) -> Result<Option<Span>, AllocError>
    ensures { IfOk result (λ gone. spec.IsGone gone world.new (spec.seen stage.now.stack.now activation grant end world.old)) }
{
    let next = upcoming(world, activation)?;
    let span = next_span(next, end);
    if !step_seen(world, stage.alloc, stage.stack, activation, grant)? {
        return Ok(None);
    }
    Ok(Some(span))
}

/// Makes so many steps of an activation, of which the last is seen, and returns the place of that; none if one of them isn't enabled.
fn go<'a>(
    world: &mut World<'a>,
    stage: &Stage<'_, 'a>,
    activation: usize,
    steps: u32,
    grant: bool,
    end: Span,
) -> Result<Option<Span>, AllocError>
    ensures { IfOk result (λ gone. spec.IsGone gone world.new (spec.go stage.now.stack.now activation grant end steps world.old)) }
{
    if steps == 0 {
        return Ok(None);
    }
    if !steps_unseen(world, activation, steps - 1)? {
        return Ok(None);
    }
    go_seen(world, stage, activation, grant, end)
}

impl<'a> Course<'a> {
    /// The course before the first entry.
    fn new(stage: &Stage<'_, 'a>) -> Result<Course<'a>, AllocError>
        ensures { IfOk result (λ course. course ≡ spec.course_before stage.now.stack.now) }
    {
        Ok(Course {
            world: World::opening(stage.alloc, stage.stack.len())?,
            actives: Items::new(stage.alloc),
        })
    }

    /// The routine of the work item that a move starts.
    fn routine_of(&self, step: Move) -> Option<usize>
        ensures { result ≡ told.routine_of self.now.world.store step }
    {
        let Move::Work { item } = step else {
            return None;
        };
        match self.world.items().get(item as usize) {
            Some(Some(item)) => Some(item.routine),
            _ => None,
        }
    }

    /// The operation that an activation is about.
    fn operation_on(&self, activation: usize) -> Option<usize>
        ensures { result ≡ told.operation_on self.now.world activation }
    {
        match self.world.operation_in(activation, OperationVariable::Data) {
            Some(visit) => Some(self.world.operation_of(visit)),
            None => None,
        }
    }

    /// Keeps the activation of a number, which has started.
    fn start(
        &mut self,
        stage: &Stage<'_, 'a>,
        activation: usize,
        routine: Option<usize>,
    ) -> Result<EntryActivation, AllocError>
        ensures { IfOk result (λ taken. spec.GoesTo taken self.new
            (spec.after_start (filters_behind stage.now.filters.now) self.old.world self.old.actives activation routine)) }
    {
        let started = start_of(stage.filters, &self.world, activation, routine);
        let operation = self.operation_on(activation);
        self.actives.push(Active { started, operation })?;
        Ok(EntryActivation {
            activation: Some(activation),
            span: Some(head_of(stage.filters, started)),
        })
    }

    /// Makes a move; none if it isn't enabled.
    fn take_move(
        &mut self,
        stage: &Stage<'_, 'a>,
        step: Move,
    ) -> Result<Option<EntryActivation>, AllocError>
        requires { filters_behind stage.now.filters.now ≡ stage.now.stack.now }
        ensures { IfOk result (λ taken. spec.IsEntered taken self.new (spec.move_entry stage.now.stack.now self.old step)) }
    {
        let routine = self.routine_of(step);
        let before = self.world.activations.len();
        if !make_move(&mut self.world, stage.alloc, stage.stack, step)? {
            return Ok(None);
        }
        if self.world.activations.len() > before {
            return Ok(Some(self.start(stage, before, routine)?));
        }
        Ok(Some(EntryActivation {
            activation: None,
            span: None,
        }))
    }

    /// Makes so many steps of an activation; none if one of them isn't enabled.
    fn take_go(
        &mut self,
        stage: &Stage<'_, 'a>,
        activation: usize,
        steps: u32,
        grant: bool,
    ) -> Result<Option<EntryActivation>, AllocError>
        requires { filters_behind stage.now.filters.now ≡ stage.now.stack.now }
        ensures { IfOk result (λ taken. spec.IsEntered taken self.new
            (spec.go_entry stage.now.stack.now self.old activation steps grant (slice_get self.old.actives activation))) }
    {
        let Some(active) = self.actives.get(activation).copied() else {
            return Ok(None);
        };
        let end = end_of(stage.filters, active.started);
        match go(&mut self.world, stage, activation, steps, grant, end)? {
            Some(span) => Ok(Some(EntryActivation {
                activation: Some(activation),
                span: Some(span),
            })),
            None => Ok(None),
        }
    }

    /// Makes an entry; none if it isn't enabled.
    fn take(
        &mut self,
        stage: &Stage<'_, 'a>,
        entry: JournalEntry,
    ) -> Result<Option<EntryActivation>, AllocError>
        requires { filters_behind stage.now.filters.now ≡ stage.now.stack.now }
        ensures { IfOk result (λ taken. spec.IsEntered taken self.new (spec.entry_of stage.now.stack.now self.old entry)) }
    {
        match entry {
            JournalEntry::Move(step) => self.take_move(stage, step),
            JournalEntry::Go {
                activation,
                steps,
                grant,
            } => self.take_go(stage, activation as usize, steps, grant),
        }
    }

    /// Makes all entries of a journal; none if one of them isn't enabled.
    fn take_all(
        &mut self,
        stage: &Stage<'_, 'a>,
        journal: &Journal,
    ) -> Result<Option<Items<EntryActivation>>, AllocError>
        requires { filters_behind stage.now.filters.now ≡ stage.now.stack.now }
        ensures { IfOk result (λ found. spec.IsRan found self.new (spec.ran_from stage.now.stack.now self.old journal.now)) }
    {
        let mut all = Items::new(stage.alloc);
        for entry in journal.entries() {
            match self.take(stage, *entry)? {
                Some(taken) => all.push(taken)?,
                None => return Ok(None),
            }
        }
        Ok(Some(all))
    }

    /// The callback and the operation of each activation.
    fn into_actives(self) -> Items<Active>
        ensures { result ≡ self.entry.actives }
    {
        let Course { world, actives } = self;
        drop(world);
        actives
    }
}

/// Runs a journal on these filters; none if it isn't a run on them.
pub(crate) fn run_of(stage: &Stage<'_, '_>, journal: &Journal) -> Result<Option<Run>, AllocError>
    requires { filters_behind stage.now.filters.now ≡ stage.now.stack.now }
    ensures { IfOk result (λ run. run ≡ spec.run_of stage.now.stack.now journal.now) }
{
    let mut course = Course::new(stage)?;
    match course.take_all(stage, journal) {
        Ok(Some(taken)) => Ok(Some(Run {
            taken,
            actives: course.into_actives(),
        })),
        Ok(None) => {
            drop(course);
            Ok(None)
        }
        Err(fault) => {
            drop(course);
            Err(fault)
        }
    }
}
