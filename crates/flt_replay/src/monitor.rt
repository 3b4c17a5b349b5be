//! The monitor: it runs a journal entry by entry, and stops at the first that isn't a run or that breaks something.

ghost use Rattle.std.specs.Prelude.{◌≡◌, ◌↔◌, ℕ, true, false, List, [], ◌∷◌, ◌++◌, None, Some, option_map, replicate, IfOk, IfSome};
ghost use Rattle.flt_model.specs.declared.moves.Move.{Move};
ghost use Rattle.flt_model.specs.declared.verdict.Violation.{Violation};
ghost use Rattle.flt_model.specs.Effects.{Step};
ghost use Rattle.flt_model.specs.Expansion as spec;
ghost use Rattle.flt_model.specs.Runs.{Moment, broken, after, next, start};
ghost use Rattle.flt_model.specs.Steps.{Transition, Make, Local, Board};
ghost use Rattle.flt_replay.specs.Ledger.{Agrees};
ghost use Rattle.flt_replay.specs.Judging.{Follows, IsJudgedBy, first_of, of_rules};
ghost use Rattle.flt_replay.specs.Lesser.{BreaksRule, EndsBy, moment_after};
ghost use Rattle.flt_replay_world.specs.Filters.{filters_of};
ghost use Rattle.flt_replay.specs.Monitoring.{IsAt, ComesTo, GoesOn};
ghost use Rattle.flt_replay_world.specs.Happening.{holds_given};
ghost use Rattle.flt_tree.specs.declared.filter.Filter.{Filter};

use crate::ledger::Ledger;
use crate::rules::Scene;
use flt_model::{
    Event, Journal, JournalEntry, Move, Object, Verdict, Violation, first_faults_are_told,
    legal_journals_are_clean_runs, local_steps_are_quiet, locks_stay_exclusive,
};
use flt_replay_steps::Setup;
use flt_replay_world::{Stack, World};
use flt_tree::{OperationVariable, Tree};
use std::alloc::{AllocError, Global};

/// The outcome of an entry.
#[derive(Clone, Copy)]
pub(crate) enum Course {
    Reaches,
    Stops,
    Fails(Violation),
}

/// The state of the machine and the counts after some entries of a journal.
#[derive(Drop)]
pub(crate) struct Monitor<'a> {
    world: World<'a>,
    ledger: Ledger,
}

/// The lists by which a step is judged; they are kept from step to step only for their memory.
#[derive(Drop)]
struct Room {
    /// The events of the step.
    events: Vec<Event>,
    /// The visits that are checked after it.
    touched: Vec<usize>,
}

impl<'a> Monitor<'a> {
    /// Whether an activation holds the visit that it was given.
    fn holds_given(&self, a: usize) -> bool
        ensures { (m : Moment) → IsAt self.now m → result ≡ holds_given m.trace m.world a }
    {
        match self.world.operation_in(a, OperationVariable::Data) {
            Some(visit) => self.ledger.holds(a, Object::Visit(visit)),
            None => false,
        }
    }

    /// The outcome of a step that led to this world with these events, given the least rule that it breaks.
    fn judged(
        &mut self,
        alloc: Global,
        room: &mut Room,
        rule: Option<Violation>,
    ) -> Result<Course, AllocError>
        ensures { IfOk result (λ c. (p : List Filter) (m : Moment) (x : Transition) (s : Step) → Agrees m self.old.ledger →
            Follows p m x s self.old.world room.old.events.items → rule ≡ first_of of_rules p m s →
            ComesTo c self.new (spec.unless_broken (broken p m s) (spec.Reaches (after m s)))) }
    {
        let found = self.ledger.take(
            alloc,
            &self.world,
            room.events.as_slice(),
            &mut room.touched,
        )?;
        match found.or(rule) {
            Some(violation) => Ok(Course::Fails(violation)),
            None => Ok(Course::Reaches),
        }
    }

    /// The outcome of a move.
    fn make(
        &mut self,
        alloc: Global,
        stack: &Stack<'a>,
        next: Move,
        room: &mut Room,
    ) -> Result<Course, AllocError>
        ensures { IfOk result (λ c. (m : Moment) → IsAt self.old m → ComesTo c self.new (spec.course stack.now m (Make next ∷ []))) }
    {
        locks_stay_exclusive();
        room.events.clear();
        if !flt_replay_steps::make(&mut self.world, alloc, stack, next, &mut room.events)? {
            return Ok(Course::Stops);
        }
        self.judged(alloc, room, None)
    }

    /// Makes a step that others see. Returns the least of the last four violations that it breaks, if any; the outer `None` means that the
    /// step isn't enabled.
    fn step_seen(
        &mut self,
        alloc: Global,
        stack: &Stack<'a>,
        a: usize,
        grant: bool,
        room: &mut Room,
    ) -> Result<Option<Option<Violation>>, AllocError>
        ensures stops { IfOk result (λ o. o ≡ None → (m : Moment) → IsAt self.old m → next stack.now m (Board a grant) ≡ None) }
        ensures steps { IfOk result (λ o. IfSome o (λ rule. (m : Moment) → IsAt self.old m →
            IsJudgedBy stack.now m (Board a grant) self.new.world room.new.events.items rule)) }
        ensures ledger { IfOk result (λ o. self.new.ledger ≡ self.old.ledger) }
    {
        locks_stay_exclusive();
        let setup = Setup {
            activation: a,
            grant,
            held: self.holds_given(a),
        };
        let locks = self.world.locks_of(alloc, a)?;
        room.events.clear();
        if !flt_replay_steps::step_seen(&mut self.world, stack, setup, &mut room.events)? {
            return Ok(None);
        }
        let scene = Scene {
            stack,
            world: &self.world,
            activation: a,
            held: setup.held,
            locks: locks.as_slice(),
        };
        Ok(Some(scene.broken_rule(room.events.as_slice())))
    }

    /// The outcome of a step that others see.
    fn go_seen(
        &mut self,
        alloc: Global,
        stack: &Stack<'a>,
        a: usize,
        grant: bool,
        room: &mut Room,
    ) -> Result<Course, AllocError>
        ensures { IfOk result (λ c. (m : Moment) → IsAt self.old m → ComesTo c self.new (spec.course stack.now m (Board a grant ∷ []))) }
    {
        match self.step_seen(alloc, stack, a, grant, room)? {
            Some(rule) => self.judged(alloc, room, rule),
            None => Ok(Course::Stops),
        }
    }

    /// Makes steps that nobody else sees, unless one of them isn't such a step.
    #[inline(never)]
    fn go_locally(&mut self, a: usize, steps: u32) -> Result<bool, AllocError>
        ensures { IfOk result (λ unseen. (p : List Filter) (m : Moment) (xs : List Transition) → IsAt self.old m →
            GoesOn unseen self.new p xs (spec.course p m (replicate steps (Local a) ++ xs))) }
    {
        local_steps_are_quiet();
        locks_stay_exclusive();
        flt_replay_steps::steps_unseen(&mut self.world, a, steps)
    }

    /// The same, for mostly no steps.
    #[inline(always)]
    fn go_unseen(&mut self, a: usize, steps: u32) -> Result<bool, AllocError>
        ensures { IfOk result (λ unseen. (p : List Filter) (m : Moment) (xs : List Transition) → IsAt self.old m →
            GoesOn unseen self.new p xs (spec.course p m (replicate steps (Local a) ++ xs))) }
    {
        if steps == 0 {
            return Ok(true);
        }
        self.go_locally(a, steps)
    }

    /// The outcome of this many steps of an activation, of which exactly the last is seen.
    fn go(
        &mut self,
        alloc: Global,
        stack: &Stack<'a>,
        a: usize,
        steps: u32,
        grant: bool,
        room: &mut Room,
    ) -> Result<Course, AllocError>
        ensures { IfOk result (λ c. (m : Moment) → IsAt self.old m →
            ComesTo c self.new (spec.entry_course stack.now m (spec.go_on a steps grant))) }
    {
        if steps == 0 || !self.go_unseen(a, steps - 1)? {
            return Ok(Course::Stops);
        }
        self.go_seen(alloc, stack, a, grant, room)
    }

    /// The least of the last four violations that this many steps of an activation break, of which exactly the last is seen.
    fn go_rule(
        &mut self,
        alloc: Global,
        stack: &Stack<'a>,
        a: usize,
        steps: u32,
        grant: bool,
        room: &mut Room,
    ) -> Result<Option<Violation>, AllocError>
        ensures { IfOk result (λ o. IfSome o (λ v. (m : Moment) → IsAt self.old m → EndsBy stack.now m (spec.go_on a steps grant) v)) }
    {
        if steps == 0 || !self.go_unseen(a, steps - 1)? {
            return Ok(None);
        }
        match self.step_seen(alloc, stack, a, grant, room)? {
            Some(rule) => Ok(rule),
            None => Ok(None),
        }
    }

    /// The least of the last four violations that an entry breaks by its last step. No move breaks one of them.
    fn entry_rule(
        &mut self,
        alloc: Global,
        stack: &Stack<'a>,
        entry: JournalEntry,
        room: &mut Room,
    ) -> Result<Option<Violation>, AllocError>
        ensures { IfOk result (λ o. IfSome o (λ v. (m : Moment) → IsAt self.old m → EndsBy stack.now m (spec.expansion entry) v)) }
    {
        match entry {
            JournalEntry::Move(_) => Ok(None),
            JournalEntry::Go {
                activation,
                steps,
                grant,
            } => self.go_rule(alloc, stack, activation as usize, steps, grant, room),
        }
    }

    /// The outcome of an entry.
    #[inline(always)]
    fn entry(
        &mut self,
        alloc: Global,
        stack: &Stack<'a>,
        entry: JournalEntry,
        room: &mut Room,
    ) -> Result<Course, AllocError>
        ensures { IfOk result (λ c. (m : Moment) → IsAt self.old m →
            ComesTo c self.new (spec.entry_course stack.now m (spec.expansion entry))) }
    {
        match entry {
            JournalEntry::Move(next) => self.make(alloc, stack, next, room),
            JournalEntry::Go {
                activation,
                steps,
                grant,
            } => self.go(alloc, stack, activation as usize, steps, grant, room),
        }
    }

    /// The verdict about a journal, entry by entry, by a monitor before its first entry.
    fn verdict(
        &mut self,
        alloc: Global,
        stack: &Stack<'a>,
        journal: &Journal,
        room: &mut Room,
    ) -> Result<Verdict, AllocError>
        requires { IsAt self.old (start stack.now) }
        ensures { IfOk result (λ v. v ≡ spec.verdict_from stack.now (start stack.now) 0 journal.now) }
    {
        for (number, entry) in journal.entries().iter().enumerate() {
            match self.entry(alloc, stack, *entry, room)? {
                Course::Reaches => {}
                Course::Stops => return Ok(Verdict::NotARun(number)),
                Course::Fails(violation) => return Ok(Verdict::Breaks(violation, number)),
            }
        }
        Ok(Verdict::Legal)
    }
}

impl<'a> Monitor<'a> {
    /// Whether some entries are a run that breaks nothing, by a monitor before the first of them. It is then after the last.
    fn runs(
        &mut self,
        alloc: Global,
        stack: &Stack<'a>,
        entries: &[JournalEntry],
        room: &mut Room,
    ) -> Result<bool, AllocError>
        requires { IsAt self.old (start stack.now) }
        ensures behind { IfOk result (λ legal. legal ≡ true → (m : Moment)
            × IsAt self.new m × (moment_after stack.now (start stack.now) entries.now ≡ Some m)) }
        ensures stops { IfOk result (λ legal. legal ≡ false → moment_after stack.now (start stack.now) entries.now ≡ None) }
    {
        for entry in entries {
            match self.entry(alloc, stack, *entry, room)? {
                Course::Reaches => {}
                Course::Stops => return Ok(false),
                Course::Fails(_) => return Ok(false),
            }
        }
        Ok(true)
    }

    /// The least of the last four violations that the last of some entries breaks, by a monitor before the first of them, if those before
    /// the last are a run that breaks nothing.
    fn last_rule(
        &mut self,
        alloc: Global,
        stack: &Stack<'a>,
        before: &[JournalEntry],
        last: JournalEntry,
        room: &mut Room,
    ) -> Result<Option<Violation>, AllocError>
        requires { IsAt self.old (start stack.now) }
        ensures { IfOk result (λ o. IfSome o (λ v. (m : Moment)
            × (moment_after stack.now (start stack.now) before.now ≡ Some m) × EndsBy stack.now m (spec.expansion last) v)) }
    {
        if !self.runs(alloc, stack, before, room)? {
            return Ok(None);
        }
        self.entry_rule(alloc, stack, last, room)
    }

    /// The world that it has come to.
    fn into_world(self) -> World<'a>
        ensures { result ≡ self.entry.world }
    {
        let Monitor { world, ledger } = self;
        drop(ledger);
        world
    }
}

/// The verdict about a journal on a stack.
fn verdict_on(alloc: Global, stack: &Stack<'_>, journal: &Journal) -> Result<Verdict, AllocError>
    ensures { IfOk result (λ v. v ≡ spec.verdict_from stack.now (start stack.now) 0 journal.now) }
{
    let mut monitor = opening(alloc, stack)?;
    let mut room = no_room(alloc);
    let verdict = monitor.verdict(alloc, stack, journal, &mut room);
    drop(monitor);
    verdict
}

/// The monitor before the first entry.
fn opening<'a>(alloc: Global, stack: &Stack<'a>) -> Result<Monitor<'a>, AllocError>
    ensures { IfOk result (λ m. IsAt m (start stack.now)) }
{
    locks_stay_exclusive();
    Ok(Monitor {
        world: World::opening(alloc, stack.len())?,
        ledger: Ledger::new(alloc),
    })
}

/// Empty room for the events of a step.
fn no_room(alloc: Global) -> Room {
    Room {
        events: Vec::new(alloc),
        touched: Vec::new(alloc),
    }
}

/// The verdict about a journal on the filters of some texts.
fn verdict_of(alloc: Global, trees: &[Tree], journal: &Journal) -> Result<Verdict, AllocError>
    ensures { IfOk result (λ v. v ≡ spec.verdict (filters_of trees.now) journal.now) }
{
    let stack = Stack::of(alloc, trees)?;
    verdict_on(alloc, &stack, journal)
}

/// The verdict about a journal on some filters, in any order. Entries are numbered from 0. It fails if memory is refused, or if a number or
/// a count would reach 2^32.
pub fn replay(alloc: Global, trees: &[Tree], journal: &Journal) -> Result<Verdict, AllocError>
    // It is the machine's verdict.
    ensures verdict { IfOk result (λ v. v ≡ spec.verdict (filters_of trees.now) journal.now) }
    // Legal, exactly where the journal's transitions are a run that breaks nothing.
    ensures legal { IfOk result (λ v. (v ≡ Verdict.Legal) ↔ spec.IsCleanRun (filters_of trees.now) journal.now) }
    // Not a run at n, exactly where the entries before n are a run that breaks nothing, and with n they are no run.
    ensures not_a_run { IfOk result (λ v. (n : ℕ) →
        (v ≡ Verdict.NotARun n) ↔ spec.IsStoppedAt (filters_of trees.now) journal.now n) }
    // Broken at n, exactly where the entries before n are a run that breaks nothing, and with n they are a run of which
    // this is the first break: the least violation at the first moment that has one.
    ensures breaks { IfOk result (λ v. (violation : Violation) (n : ℕ) →
        (v ≡ Verdict.Breaks violation n) ↔ spec.IsBrokenAt (filters_of trees.now) journal.now violation n) }
{
    let verdict = verdict_of(alloc, trees, journal)?;
    legal_journals_are_clean_runs();
    first_faults_are_told();
    Ok(verdict)
}

/// The world at the end of a journal on a stack, or none if its entries aren't a run that breaks nothing.
///
/// # Errors
///
/// `AllocError` if a growth is refused, or if a number or a count would reach 2^32.
pub fn world_after<'a>(
    alloc: Global,
    stack: &Stack<'a>,
    journal: &Journal,
) -> Result<Option<World<'a>>, AllocError>
    ensures { IfOk result (λ found. found ≡ option_map (λ m. m.world) (moment_after stack.now (start stack.now) journal.now)) }
{
    let mut monitor = opening(alloc, stack)?;
    let mut room = no_room(alloc);
    match monitor.runs(alloc, stack, journal.entries(), &mut room) {
        Ok(true) => Ok(Some(monitor.into_world())),
        Ok(false) => {
            drop(monitor);
            Ok(None)
        }
        Err(fault) => {
            drop(monitor);
            Err(fault)
        }
    }
}

/// The least of the violations of statuses, levels, lock discipline and places that the last entry of a journal breaks, whatever else it
/// breaks. None if it breaks none of them, or if the entries before it aren't a run that breaks nothing. The verdict of `replay` reports
/// only the least of all violations.
///
/// # Errors
///
/// `AllocError` if a growth is refused, or if a number or a count would reach 2^32.
pub fn broken_rule_at_last(
    alloc: Global,
    trees: &[Tree],
    journal: &Journal,
) -> Result<Option<Violation>, AllocError>
    ensures { IfOk result (λ o. IfSome o (BreaksRule (filters_of trees.now) journal.now)) }
{
    let Some((last, before)) = journal.entries().split_last() else {
        return Ok(None);
    };
    let stack = Stack::of(alloc, trees)?;
    let mut monitor = opening(alloc, &stack)?;
    let mut room = no_room(alloc);
    let rule = monitor.last_rule(alloc, &stack, before, *last, &mut room);
    drop(monitor);
    rule
}
