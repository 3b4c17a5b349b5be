//! Runs a journal, and describes each entry.

ghost use Rattle.std.specs.Prelude.{◌≡◌, ◌-◌, ◌≤◌, IfOk, count_by, length, slice_get};
ghost use Rattle.flt_replay_world.specs.Filters.{filters_behind};
ghost use Rattle.flt_explain_timeline.specs.Course as spec;

use crate::callbacks::{end_line, start_of};
use crate::columns::Columns;
use crate::going::{Stage, go};
use crate::refusal::{Refusal, of_move};
use crate::telling::{Column, Happening, StartedCallback, Telling, Who};
use flt_model::{Journal, JournalEntry, Move};
use flt_replay_course::make_move;
use flt_replay_world::World;
use flt_tree::OperationVariable;
use sqlite_items::Items;
use std::alloc::AllocError;

/// The operation and the callback of an activation.
#[derive(Clone, Copy)]
pub(crate) struct Run {
    operation: Option<usize>,
    started: StartedCallback,
}

/// An entry's description, and who is on in it.
#[derive(Clone, Copy)]
pub(crate) struct DescribedEntry {
    pub(crate) telling: Telling,
    pub(crate) who: Who,
}

/// How far a journal was run.
#[derive(Drop)]
pub(crate) struct Scene<'a> {
    world: World<'a>,
    columns: Columns,
    /// The operation and the callback of each activation.
    runs: Items<Run>,
}

fn is_arrival(entry: &JournalEntry) -> bool
    ensures { result ≡ spec.is_arrival entry.now }
{
    matches!(entry, JournalEntry::Move(Move::Arrive { .. }))
}

/// How many operations arrive in some entries.
fn arrivals(entries: &[JournalEntry]) -> usize
    ensures exact { result ≡ count_by spec.is_arrival entries.now }
    ensures within { result ≤ length entries.now }
{
    let mut arrivals: usize = 0;
    for entry in entries {
        if is_arrival(entry) {
            arrivals += 1;
        }
    }
    arrivals
}

/// The event of a move that starts no callback.
fn happening_of(step: Move) -> Happening
    ensures { result ≡ spec.happening_of step }
{
    match step {
        Move::Arrive {
            operation,
            mode,
            file,
        } => Happening::Arrives(operation, mode, file),
        Move::Skip { .. } => Happening::Skips,
        Move::Lower { .. } => Happening::Lowers,
        Move::Cancel { .. } => Happening::Cancels,
        Move::Detach { altitude } => Happening::Detaches(altitude),
        Move::Unlink { altitude, key } => Happening::Unlinks(altitude, key),
        Move::Detached { altitude } => Happening::IsDetached(altitude),
        Move::Pre { .. }
        | Move::Post { .. }
        | Move::Canceled { .. }
        | Move::Work { .. }
        | Move::Drain { .. } => Happening::IsRefused(JournalEntry::Move(step)),
    }
}

/// The description of an entry that changes nothing; the columns are those of the last entry that was made.
pub(crate) fn aside(alive: u32, happening: Happening) -> DescribedEntry
    ensures { result ≡ spec.aside alive happening }
{
    DescribedEntry {
        telling: Telling {
            column: Column::Margin,
            alive,
            resumed: None,
            happening,
        },
        who: Who {
            operation: None,
            activation: None,
            ends: false,
        },
    }
}

fn resumed_if(on: bool, started: StartedCallback) -> Option<StartedCallback>
    ensures { result ≡ spec.resumed_if on started }
{
    if on { None } else { Some(started) }
}

impl<'a> Scene<'a> {
    /// The scene before the first entry.
    pub(crate) fn new(stage: &Stage<'_, 'a>, journal: &Journal) -> Result<Scene<'a>, AllocError>
        ensures { IfOk result (λ scene. scene ≡ spec.scene_before stage.now.stack.now journal.now) }
    {
        Ok(Scene {
            world: World::opening(stage.alloc, stage.stack.len())?,
            columns: Columns::new(arrivals(journal.entries())),
            runs: Items::new(stage.alloc),
        })
    }

    fn told(
        &self,
        who: Who,
        resumed: Option<StartedCallback>,
        happening: Happening,
    ) -> DescribedEntry
        ensures { result ≡ spec.told_in self.now.world self.now.columns who resumed happening }
    {
        DescribedEntry {
            telling: Telling {
                column: self.columns.find(who.operation),
                alive: self.columns.alive(&self.world),
                resumed,
                happening,
            },
            who,
        }
    }

    // ---- moves

    /// The routine of the work item that a move starts.
    fn routine_of(&self, step: Move) -> Option<usize>
        ensures { result ≡ spec.routine_of self.now.world.store step }
    {
        let Move::Work { item } = step else {
            return None;
        };
        match self.world.items().get(item as usize) {
            Some(Some(item)) => Some(item.routine),
            _ => None,
        }
    }

    /// The number of the last operation that has arrived.
    fn last_operation(&self) -> usize
        ensures { result ≡ length self.now.world.store.routes - 1 }
    {
        self.world.routes.len().saturating_sub(1)
    }

    /// The operation that a move which starts nothing is about.
    fn operation_of(&self, step: Move) -> Option<usize>
        ensures { result ≡ spec.operation_of self.now.world.store step }
    {
        match step {
            Move::Arrive { .. } => Some(self.last_operation()),
            Move::Skip { serial } | Move::Lower { serial } | Move::Cancel { serial } => {
                Some(serial as usize)
            }
            _ => None,
        }
    }

    /// The operation that an activation is about.
    fn operation_on(&self, activation: usize) -> Option<usize>
        ensures { result ≡ spec.operation_on self.now.world activation }
    {
        match self.world.operation_in(activation, OperationVariable::Data) {
            Some(visit) => Some(self.world.operation_of(visit)),
            None => None,
        }
    }

    /// Describes the start of a callback: the activation of a number.
    fn tell_start(
        &mut self,
        stage: &Stage<'_, 'a>,
        activation: usize,
        routine: Option<usize>,
    ) -> Result<DescribedEntry, AllocError>
        ensures { IfOk result (λ here. spec.GoesTo here self.new
            (spec.after_start (filters_behind stage.now.filters.now) self.old.world self.old.columns self.old.runs activation routine)) }
    {
        let started = start_of(stage.filters, &self.world, activation, routine);
        let operation = self.operation_on(activation);
        self.runs.push(Run { operation, started })?;
        let column = self.columns.find(operation);
        self.columns.start(column, activation);
        let who = Who {
            operation,
            activation: Some(activation),
            ends: false,
        };
        Ok(self.told(who, None, Happening::Starts(started)))
    }

    /// Gives a column to an operation that arrives.
    fn add_column(&mut self, step: Move)
        ensures { self.new ≡ record self.old { columns = spec.columns_after self.old.world.store self.old.columns step } }
    {
        if let Move::Arrive { .. } = step {
            let operation = self.last_operation();
            self.columns.add(&self.world, operation);
        }
    }

    /// Describes a move that started nothing.
    fn tell_system(&mut self, step: Move) -> DescribedEntry
        ensures { spec.GoesTo result self.new (spec.after_system self.old step self.old.world) }
    {
        self.add_column(step);
        let who = Who {
            operation: self.operation_of(step),
            activation: None,
            ends: false,
        };
        self.told(who, None, happening_of(step))
    }

    fn tell_move(
        &mut self,
        stage: &Stage<'_, 'a>,
        step: Move,
    ) -> Result<Result<DescribedEntry, Refusal>, AllocError>
        requires { filters_behind stage.now.filters.now ≡ stage.now.stack.now }
        ensures { IfOk result (λ entered. spec.IsEntered entered self.new (spec.move_entry stage.now.stack.now self.old step)) }
    {
        let why = of_move(&self.world, stage.stack, step);
        let routine = self.routine_of(step);
        let before = self.world.activations.len();
        if !make_move(&mut self.world, stage.alloc, stage.stack, step)? {
            return Ok(Err(why));
        }
        if self.world.activations.len() > before {
            return Ok(Ok(self.tell_start(stage, before, routine)?));
        }
        Ok(Ok(self.tell_system(step)))
    }

    // ---- steps

    /// Describes an activation that has continued, with this event.
    fn tell_run(&mut self, activation: usize, run: Run, happening: Happening) -> DescribedEntry
        ensures { spec.GoesTo result self.new (spec.after_run self.old activation run (spec.Comes self.old.world happening)) }
    {
        let column = self.columns.find(run.operation);
        let ends = self.world.has_ended(activation);
        let resumed = resumed_if(self.columns.was_on(column, activation), run.started);
        self.columns.go_on(column, activation, ends);
        let who = Who {
            operation: run.operation,
            activation: Some(activation),
            ends,
        };
        self.told(who, resumed, happening)
    }

    fn tell_go(
        &mut self,
        stage: &Stage<'_, 'a>,
        activation: usize,
        steps: u32,
        grant: bool,
    ) -> Result<Result<DescribedEntry, Refusal>, AllocError>
        requires { filters_behind stage.now.filters.now ≡ stage.now.stack.now }
        ensures { IfOk result (λ entered. spec.IsEntered entered self.new
            (spec.go_entry stage.now.stack.now self.old activation steps grant (slice_get self.old.runs activation))) }
    {
        let Some(run) = self.runs.get(activation).copied() else {
            return Ok(Err(Refusal::NoActivation));
        };
        let end = end_line(stage.filters, run.started);
        let filter = run.started.filter;
        match go(
            &mut self.world,
            stage,
            activation,
            steps,
            grant,
            filter,
            end,
        )? {
            Ok(happening) => Ok(Ok(self.tell_run(activation, run, happening))),
            Err(why) => Ok(Err(why)),
        }
    }

    // ---- all

    /// Makes an entry and describes it, or says why it isn't enabled.
    pub(crate) fn tell(
        &mut self,
        stage: &Stage<'_, 'a>,
        entry: JournalEntry,
    ) -> Result<Result<DescribedEntry, Refusal>, AllocError>
        requires { filters_behind stage.now.filters.now ≡ stage.now.stack.now }
        ensures { IfOk result (λ entered. spec.IsEntered entered self.new (spec.entry_of stage.now.stack.now self.old entry)) }
    {
        match entry {
            JournalEntry::Move(step) => self.tell_move(stage, step),
            JournalEntry::Go {
                activation,
                steps,
                grant,
            } => self.tell_go(stage, activation as usize, steps, grant),
        }
    }
}
