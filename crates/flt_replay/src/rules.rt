//! The rules that the events of a step break: of statuses, levels, lock discipline and places.

ghost use Rattle.std.specs.Prelude.{◌≡◌, ℕ, true, not, ◌&&◌, ◌||◌, List, find};
ghost use Rattle.std.specs.List.{list_all};
ghost use Rattle.flt_model.specs.Levels.{level_at};
ghost use Rattle.flt_model.specs.Program as program;
ghost use Rattle.flt_model.specs.Statuses as statuses;
ghost use Rattle.flt_model.specs.Trace.{is_held};
ghost use Rattle.flt_model.specs.Variables.{operation_in};
ghost use Rattle.flt_model.specs.Violations as spec;
ghost use Rattle.flt_model.specs.World.{activation_at, actor_at, arrival_of, visit_at};
ghost use Rattle.flt_model.specs.declared.event.Event.{Event};
ghost use Rattle.flt_model.specs.declared.event.Event.TheVariants.{Call as Called};
ghost use Rattle.flt_model.specs.declared.event.Object.TheVariants.{Visit};
ghost use Rattle.flt_replay.specs.Judging.{is_by, keeps_rule, least_of, of_rules};
ghost use Rattle.flt_replay.specs.Scenes.{before};
ghost use Rattle.flt_replay_world.specs.Happening.{holds_visit, holds_given};
ghost use Rattle.flt_rules.specs.Call as calls;
ghost use Rattle.flt_rules.specs.Columns.{has_place};
ghost use Rattle.flt_rules.specs.Held as held;
ghost use Rattle.flt_rules.specs.Place as places;
ghost use Rattle.flt_rules.specs.Status.{is_with_callback, status_row};
ghost use Rattle.flt_rules.specs.declared.place.Stage.TheVariants as stage;
ghost use Rattle.flt_tree.specs.Filter.{completes_pending, word_of};
ghost use Rattle.flt_tree.specs.declared.variable.OperationVariable.TheVariants as variable;

use crate::statuses::{is_of_mode, is_possessed};
use flt_model::{Answer, Event, Violation};
use flt_replay_records::holds_lock;
use flt_replay_world::{Stack, World};
use flt_rules::{
    Call, HeldLock, Level, LockNumber, Mode, Operation, Place, Places, Possessed, Stage, StatusRow,
    StatusWord, is_legal_in_draining, row, status_row,
};
use flt_tree::{OperationVariable, Status};

/// Whether the lock is the latest taken.
fn is_latest(lock: LockNumber, locks: &[HeldLock]) -> bool
    ensures { result ≡ held.is_latest lock locks.now }
{
    match locks {
        [] => false,
        [last] => lock.is_same(last.lock),
        [_, others @ ..] => is_latest(lock, others),
    }
}

/// The scene by which a step's events are judged: the world after the step, in which all that rules read is as before, except the locks.
#[derive(Clone, Copy)]
pub(crate) struct Scene<'b, 'a> {
    pub(crate) stack: &'b Stack<'a>,
    pub(crate) world: &'b World<'a>,
    /// The activation whose step it was.
    pub(crate) activation: usize,
    /// Whether the activation held the visit that it was given, before the step.
    pub(crate) held: bool,
    /// The locks that it held before the step.
    pub(crate) locks: &'b [HeldLock],
}

// ---- what is read as it was before the step

impl<'b, 'a> Scene<'b, 'a> {
    /// The locks before the step. An activation that isn't there holds none.
    #[tactic(auto, using(crate::proofs::Judging::Scenes::found_set, crate::proofs::Judging::Scenes::missing_set))]
    fn locks(&self) -> &'b [HeldLock]
        ensures { result.now ≡ (activation_at (before self.now) self.now.activation).locks }
    {
        let world = self.world;
        match world.activations.get(self.activation) {
            Some(_) => self.locks,
            None => &[],
        }
    }

    /// The visit that the activation was given.
    #[tactic(auto, using(crate::proofs::Judging::Scenes::operations_kept))]
    fn given(&self) -> Option<usize>
        ensures { result ≡ operation_in (activation_at (before self.now) self.now.activation) variable.Data }
    {
        self.world
            .operation_in(self.activation, OperationVariable::Data)
    }

    fn level(&self) -> Level
        ensures { result ≡ level_at (program.filter_at self.now.stack.now (actor_at (before self.now) self.now.activation).filter)
            (actor_at (before self.now) self.now.activation).place (activation_at (before self.now) self.now.activation).locks }
    {
        self.stack.level(
            self.world.filter(self.activation),
            self.world.place(self.activation),
            self.locks(),
        )
    }
}

// ---- statuses

impl<'b, 'a> Scene<'b, 'a> {
    /// Whether a row's conditions on the callback hold.
    fn fits_callback(&self, row: StatusRow, visit: usize) -> bool
        ensures { result ≡ (places.fits_stage (actor_at (before self.now) self.now.activation).place row.stage
            && ((not row.needs_post || program.has_post
            (program.callbacks_at self.now.stack.now (actor_at (before self.now) self.now.activation).filter)
            (arrival_of (before self.now).store visit).kind)
            && (row.in_create || not (places.is_pre_create (actor_at (before self.now) self.now.activation).place)))) }
    {
        let place = self.world.place(self.activation);
        place.fits(row.stage)
            && (!row.needs_post || self.has_post(self.world.kind_of(visit)))
            && (row.in_create || !place.is_pre_create())
    }

    /// Whether a row's conditions on the operation hold.
    fn fits_operation(&self, row: StatusRow, visit: usize) -> bool
        ensures { result ≡ (statuses.is_possessed self.now.held row.data
            && (statuses.is_of_mode (arrival_of (before self.now).store visit).mode row.mode
            && (row.in_draining || not (actor_at (before self.now) self.now.activation).draining))) }
    {
        is_possessed(self.held, row.data)
            && is_of_mode(self.world.mode_of(visit), row.mode)
            && (row.in_draining || !self.world.has_flag(self.activation))
    }

    /// Whether the status of a row may be returned about a visit.
    fn fits_row(&self, row: StatusRow, visit: usize) -> bool
        ensures { (t : List Event) → self.now.held ≡ is_held t self.now.activation (Visit visit) →
            result ≡ statuses.fits_row self.now.stack.now (before self.now) t self.now.activation row visit }
    {
        self.fits_callback(row, visit) && self.fits_operation(row, visit)
    }

    fn has_post(&self, kind: Operation) -> bool
        ensures { result ≡ program.has_post
            (program.callbacks_at self.now.stack.now (actor_at (before self.now) self.now.activation).filter) kind }
    {
        self.stack
            .has_post(self.world.filter(self.activation), kind)
    }

    /// Whether the status may be returned about a visit that is there.
    fn is_returned_legally(&self, status: Status, visit: Option<usize>) -> bool
        ensures { (t : List Event) → self.now.held ≡ holds_visit t self.now.activation visit →
            result ≡ statuses.is_returned_legally self.now.stack.now (before self.now) t self.now.activation status visit }
    {
        match visit {
            None => false,
            Some(visit) => {
                self.fits_row(status_row(status.word()), visit) && !status.completes_pending()
            }
        }
    }

    /// Whether the status may be returned. A missing status isn't legal.
    fn may_return(&self, status: Option<Status>) -> bool
        ensures { (t : List Event) → self.now.held ≡ holds_given t (before self.now) self.now.activation →
            result ≡ statuses.may_return self.now.stack.now (before self.now) t self.now.activation status }
    {
        match status {
            None => false,
            Some(status) => self.is_returned_legally(status, self.given()),
        }
    }

    fn are_paired(&self) -> bool
        ensures { result ≡ program.are_paired
            (program.callbacks_at self.now.stack.now (actor_at (before self.now) self.now.activation).filter) }
    {
        self.stack.are_paired(self.world.filter(self.activation))
    }

    /// Whether a status word is legal here: in the callback of a cancelled entry only COMPLETE is for the given operation, and
    /// WITH_CALLBACK needs post callbacks.
    fn fits_word(&self, whose: Possessed, word: StatusWord) -> bool
        ensures { (t : List Event) → result ≡
            (statuses.fits_canceled self.now.stack.now (before self.now) t self.now.activation
            (actor_at (before self.now) self.now.activation).place whose word
            && (not (is_with_callback word) || program.are_paired
            (program.callbacks_at self.now.stack.now (actor_at (before self.now) self.now.activation).filter))) }
    {
        let given_in_canceled = matches!(
            (self.world.place(self.activation), whose),
            (Place::Canceled, Possessed::Given)
        );
        (!given_in_canceled || word.is_complete())
            && (!word.is_with_callback() || self.are_paired())
    }

    /// Whether the status is one to hand on, and the visit is before the filters below.
    fn is_for_handing(&self, visit: usize, status: Status) -> bool
        ensures { result ≡ (places.same_stage (visit_at (before self.now).store visit).stage stage.Pre
            && ((status_row (word_of status)).handed && not (completes_pending status))) }
    {
        self.world.stage(visit).is_same(Stage::Pre)
            && status_row(status.word()).handed
            && !status.completes_pending()
    }

    /// Whether the status may be handed on for a visit.
    fn may_hand(&self, whose: Possessed, visit: usize, status: Status) -> bool
        ensures { (t : List Event) → result ≡ statuses.may_hand self.now.stack.now
            (before self.now) t self.now.activation whose visit status }
    {
        self.is_for_handing(visit, status) && self.fits_word(whose, status.word())
    }

    fn may_answer(&self, answer: Answer) -> bool
        ensures { (t : List Event) → self.now.held ≡ holds_given t (before self.now) self.now.activation →
            result ≡ statuses.may_answer self.now.stack.now (before self.now) t self.now.activation answer }
    {
        match answer {
            Answer::Returned(status) => self.may_return(status),
            Answer::CompletesPre {
                whose,
                visit,
                status,
            } => self.may_hand(whose, visit, status),
            Answer::CompletesPost { visit } => self.world.stage(visit).is_same(Stage::Post),
        }
    }

    /// Whether the given operation is an I/O request packet, if there is one.
    fn is_packet(&self) -> bool
        ensures { (t : List Event) → result ≡ statuses.is_packet self.now.stack.now (before self.now) t self.now.activation
            (operation_in (activation_at (before self.now) self.now.activation) variable.Data) }
    {
        match self.given() {
            None => true,
            Some(visit) => self.world.mode_of(visit).is_same(Mode::Irp),
        }
    }

    /// Whether a call may be made for the given operation: only an I/O request packet may be queued or deferred.
    fn may_pend(&self, call: Call) -> bool
        ensures { (t : List Event) → result ≡ statuses.may_pend self.now.stack.now (before self.now) t self.now.activation call }
    {
        match call {
            Call::InsertIo => self.is_packet(),
            Call::QueueDeferredIoWorkItem => self.is_packet(),
            _ => true,
        }
    }
}

// ---- one event

impl<'b, 'a> Scene<'b, 'a> {
    /// Whether a call isn't made above its greatest level.
    fn is_low_enough(&self, greatest: Level) -> bool
        ensures { result ≡
            not (places.is_above (level_at (program.filter_at self.now.stack.now (actor_at (before self.now) self.now.activation).filter)
            (actor_at (before self.now) self.now.activation).place (activation_at (before self.now) self.now.activation).locks) greatest) }
    {
        !self.level().is_above(greatest)
    }

    /// Whether a call is legal at this place: by the table, and in a draining callback only those that clean up.
    fn is_in_place(&self, legal: Places, call: Call) -> bool
        ensures { result ≡ (has_place legal (actor_at (before self.now) self.now.activation).place
            && (not (actor_at (before self.now) self.now.activation).draining || calls.is_legal_in_draining call)) }
    {
        legal.contains(self.world.place(self.activation))
            && (!self.world.has_flag(self.activation) || is_legal_in_draining(call))
    }
}

// ---- all events of a step

/// The rules that the events so far keep.
#[derive(Clone, Copy)]
struct KeptRules {
    statuses: bool,
    levels: bool,
    locks: bool,
    places: bool,
}

impl KeptRules {
    /// The least violation of those that aren't kept.
    fn broken(self) -> Option<Violation>
        ensures { result ≡ least_of self.statuses self.levels self.locks self.places }
    {
        if !self.statuses {
            Some(Violation::V5)
        } else if !self.levels {
            Some(Violation::V6)
        } else if !self.locks {
            Some(Violation::V7)
        } else if !self.places {
            Some(Violation::V8)
        } else {
            None
        }
    }
}

impl<'b, 'a> Scene<'b, 'a> {
    /// Updates the rules kept by a call. Its row is looked up once.
    #[inline(always)]
    fn also_call(&self, call: Call, kept: &mut KeptRules)
        ensures statuses { (t : List Event) →
            kept.new.statuses ≡ (kept.old.statuses && spec.is_legal self.now.stack.now (before self.now) t
            (Called self.now.activation call)) }
        ensures levels { (t : List Event) →
            kept.new.levels ≡ (kept.old.levels && spec.is_low_enough self.now.stack.now (before self.now) t
            (Called self.now.activation call)) }
        ensures locks { kept.new.locks ≡ kept.old.locks }
        ensures places { (t : List Event) →
            kept.new.places ≡ (kept.old.places && spec.is_in_place self.now.stack.now (before self.now) t
            (Called self.now.activation call)) }
    {
        let row = row(call);
        kept.statuses &= self.may_pend(call);
        kept.levels &= self.is_low_enough(row.greatest);
        kept.places &= self.is_in_place(row.places, call);
    }

    /// Updates the rules kept by an event: the latest lock is released first, none is taken twice, and none is kept at the end. Most events
    /// are subject to no rule.
    #[tactic(auto, using(crate::proofs::Judging::Rules::kept_still))]
    fn also(&self, event: Event, kept: &mut KeptRules)
        ensures statuses { (t : List Event) → self.now.held ≡ holds_given t (before self.now) self.now.activation →
            is_by self.now.activation event ≡ true →
            kept.new.statuses ≡ (kept.old.statuses && spec.is_legal self.now.stack.now (before self.now) t event) }
        ensures levels { (t : List Event) → is_by self.now.activation event ≡ true →
            kept.new.levels ≡ (kept.old.levels && spec.is_low_enough self.now.stack.now (before self.now) t event) }
        ensures locks { (t : List Event) → is_by self.now.activation event ≡ true →
            kept.new.locks ≡ (kept.old.locks && spec.is_disciplined self.now.stack.now (before self.now) t event) }
        ensures places { (t : List Event) → is_by self.now.activation event ≡ true →
            kept.new.places ≡ (kept.old.places && spec.is_in_place self.now.stack.now (before self.now) t event) }
    {
        match event {
            Event::Call(_, call) => self.also_call(call, kept),
            Event::Status(_, answer) => kept.statuses &= self.may_answer(answer),
            Event::Lock(_, lock) => kept.locks &= !holds_lock(lock, self.locks()),
            Event::Unlock(_, lock) => kept.locks &= is_latest(lock, self.locks()),
            Event::End(_) => kept.locks &= self.locks().is_empty(),
            _ => {}
        }
    }

    /// The least of the last four violations that the events break.
    #[tactic(auto, using(crate::proofs::Judging::Rules::least_is))]
    pub(crate) fn broken_rule(&self, events: &[Event]) -> Option<Violation>
        ensures { (t : List Event) → self.now.held ≡ holds_given t (before self.now) self.now.activation →
            list_all (is_by self.now.activation) events.now ≡ true →
            result ≡ find (λ v. not (keeps_rule self.now.stack.now (before self.now) t events.now v)) of_rules }
    {
        let mut kept = KeptRules {
            statuses: true,
            levels: true,
            locks: true,
            places: true,
        };
        for event in events {
            self.also(*event, &mut kept);
        }
        kept.broken()
    }
}
