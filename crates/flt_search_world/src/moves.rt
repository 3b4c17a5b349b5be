//! The moves of the system, several in a row if nobody sees the worlds between.

use crate::frames::Frame;
use crate::step::Course;
use crate::world::{ContextLink, NO_ITEM, NO_PASSAGE, Passage, Visit, Whereabouts, World};
use flt_model::{JournalEntry, Key, Move};
use flt_rules::{Mode, Operation, Place, Stage};
use flt_search_activation::{Activation, Start};
use flt_search_plan::Plan;

/// How many entries a move makes at most.
const MAX_ENTRIES: usize = 24;

/// The entries that a move makes.
#[derive(Clone, Copy)]
pub struct MoveEntries {
    entries: [Option<Move>; 24],
    used: usize,
}

/// No entry.
pub const NOTHING_MADE: MoveEntries = MoveEntries {
    entries: [None; 24],
    used: 0,
};

impl MoveEntries {
    fn push(&mut self, step: Move) {
        if self.used < MAX_ENTRIES {
            self.entries[self.used] = Some(step);
            self.used += 1;
        }
    }

    /// How many entries there are.
    pub fn len(&self) -> usize {
        self.used
    }

    /// The entry of a number, from the first.
    pub fn entry(&self, place: usize) -> Option<JournalEntry> {
        match self.entries.get(place) {
            Some(Some(step)) => Some(JournalEntry::Move(*step)),
            _ => None,
        }
    }
}

/// The next move or step.
#[derive(Clone, Copy)]
pub enum Next {
    Arrive(Operation, Mode, u32),
    /// The operation continues to its next callback.
    Onwards(u8),
    Cancel(u8),
    Canceled(u8, u8),
    Work(u8),
    Detach(u8),
    Drain(u8, u8),
    Unlink(u8, ContextLink),
    /// An activation makes a step, granted or not.
    Go(u8, bool),
}

impl World {
    fn is_packet(&self, visit: Option<u8>) -> bool {
        match visit {
            Some(visit) => self.operation(self.visit(visit).operation).mode.is_irp(),
            None => true,
        }
    }

    /// Starts a callback, which makes its local steps. None if no place is free or its local steps are too many.
    fn start(&mut self, plan: &Plan, start: Start, left: &mut u32) -> Option<u8> {
        let place = self.free_activation()?;
        let activation = Activation::starting(start, self.started, self.is_packet(start.visit));
        self.started = self.started.saturating_add(1);
        if let Some(free) = self.activations.get_mut(usize::from(place)) {
            *free = activation;
        }
        match self.go_on(plan, place, left) {
            Course::Goes => Some(place),
            _ => None,
        }
    }

    /// A visit begins, and its callback.
    fn start_visit(
        &mut self,
        plan: &Plan,
        visit: Visit,
        place: Place,
        context: Option<u8>,
        left: &mut u32,
    ) -> Option<u8> {
        let callback = plan.callback(visit.filter, place)?;
        let free = self.free_visit()?;
        if let Some(own) = self.visits.get_mut(usize::from(free)) {
            *own = visit;
        }
        let start = Start {
            filter: visit.filter,
            callback,
            visit: Some(free),
            context,
            is_draining: visit.is_draining,
        };
        self.start(plan, start, left)
    }

    fn put_operation_at(&mut self, operation: u8, at: Whereabouts) {
        if let Some(operation) = self.operations.get_mut(usize::from(operation)) {
            operation.at = at;
        }
    }

    fn pop_frame(&mut self, operation: u8) -> Option<Frame> {
        self.operations
            .get_mut(usize::from(operation))?
            .frames
            .pop()
    }

    fn take_frame(&mut self, operation: u8, filter: u8) -> Option<Frame> {
        self.operations
            .get_mut(usize::from(operation))?
            .frames
            .take(filter)
    }

    fn calls_pre(&self, plan: &Plan, filter: u8, kind: Operation) -> bool {
        !self.detaches(filter) && plan.has_callback(filter, Place::Pre(kind))
    }
}

// ---- an operation goes on

/// The result of continuing by one entry.
#[derive(Clone, Copy)]
enum Onward {
    Again,
    /// This activation has started.
    Starts(u8),
    /// There is nothing more to come, or no room.
    Ends,
}

impl World {
    fn start_pre(&mut self, plan: &Plan, place: u8, filter: u8, left: &mut u32) -> Onward {
        self.put_operation_at(place, Whereabouts::Visiting);
        let visit = Visit {
            is_there: true,
            operation: place,
            filter,
            stage: Stage::Pre,
            is_draining: false,
        };
        let kind = self.operation(place).kind;
        match self.start_visit(plan, visit, Place::Pre(kind), None, left) {
            Some(activation) => Onward::Starts(activation),
            None => Onward::Ends,
        }
    }

    fn start_post(
        &mut self,
        plan: &Plan,
        place: u8,
        frame: Frame,
        is_draining: bool,
        left: &mut u32,
    ) -> Onward {
        let visit = Visit {
            is_there: true,
            operation: place,
            filter: frame.filter,
            stage: Stage::Post,
            is_draining,
        };
        let kind = self.operation(place).kind;
        match self.start_visit(plan, visit, Place::Post(kind), frame.context, left) {
            Some(activation) => Onward::Starts(activation),
            None => Onward::Ends,
        }
    }

    fn go_down(
        &mut self,
        plan: &Plan,
        place: u8,
        filter: u8,
        made: &mut MoveEntries,
        left: &mut u32,
    ) -> Onward {
        let operation = self.operation(place);
        let serial = operation.serial;
        if usize::from(filter) >= plan.filters() {
            made.push(Move::Lower { serial });
            self.put_operation_at(place, Whereabouts::Up);
            return Onward::Again;
        }
        if self.calls_pre(plan, filter, operation.kind) {
            made.push(Move::Pre { serial });
            return self.start_pre(plan, place, filter, left);
        }
        made.push(Move::Skip { serial });
        self.put_operation_at(place, Whereabouts::Down(filter.saturating_add(1)));
        Onward::Again
    }

    fn go_up(&mut self, plan: &Plan, place: u8, made: &mut MoveEntries, left: &mut u32) -> Onward {
        let serial = self.operation(place).serial;
        match self.pop_frame(place) {
            Some(frame) => {
                made.push(Move::Post { serial });
                self.put_operation_at(place, Whereabouts::Visiting);
                self.start_post(plan, place, frame, false, left)
            }
            None => Onward::Ends,
        }
    }

    fn go_onward(
        &mut self,
        plan: &Plan,
        place: u8,
        made: &mut MoveEntries,
        left: &mut u32,
    ) -> Onward {
        match self.operation(place).at {
            Whereabouts::Down(filter) => self.go_down(plan, place, filter, made, left),
            Whereabouts::Up => self.go_up(plan, place, made, left),
            Whereabouts::Visiting => Onward::Ends,
        }
    }

    /// Continues an operation to its next callback, which starts. None if it has no next callback, or no room is left.
    fn onwards(
        &mut self,
        plan: &Plan,
        place: u8,
        made: &mut MoveEntries,
        left: &mut u32,
    ) -> Option<u8> {
        for _ in 0..MAX_ENTRIES {
            match self.go_onward(plan, place, made, left) {
                Onward::Again => {}
                Onward::Starts(activation) => return Some(activation),
                Onward::Ends => return None,
            }
        }
        None
    }

    fn arrive(
        &mut self,
        plan: &Plan,
        kind: Operation,
        mode: Mode,
        file: u32,
        made: &mut MoveEntries,
        left: &mut u32,
    ) -> Option<u8> {
        let place = self.free_operation()?;
        let serial = self.arrived;
        self.arrived = serial.saturating_add(1);
        if let Some(free) = self.operations.get_mut(usize::from(place)) {
            *free = Passage {
                is_there: true,
                serial,
                kind,
                mode,
                file,
                at: Whereabouts::Down(0),
                ..NO_PASSAGE
            };
        }
        made.push(Move::Arrive {
            operation: kind,
            mode,
            file,
        });
        self.onwards(plan, place, made, left)
    }
}

// ---- other moves

fn key_of(link: ContextLink) -> Key {
    match link {
        ContextLink::Stream(file) => Key::Stream(file),
        _ => Key::Instance,
    }
}

impl World {
    fn cancel(&mut self, place: u8, made: &mut MoveEntries) {
        if let Some(operation) = self.operations.get_mut(usize::from(place)) {
            operation.is_cancelled = true;
            made.push(Move::Cancel {
                serial: operation.serial,
            });
        }
        self.cancels = self.cancels.saturating_add(1);
    }

    fn canceled(
        &mut self,
        plan: &Plan,
        filter: u8,
        place: u8,
        made: &mut MoveEntries,
        left: &mut u32,
    ) -> Option<u8> {
        let number = self.entry_of(filter, place)?;
        let entry = self.entries.get(number)?;
        self.entries.remove(number);
        made.push(Move::Canceled {
            altitude: plan.altitude(filter),
            serial: self.operation(place).serial,
        });
        let start = Start {
            filter,
            callback: plan.callback(filter, Place::Canceled)?,
            visit: Some(entry.visit),
            context: entry.context,
            is_draining: false,
        };
        self.start(plan, start, left)
    }

    fn work(
        &mut self,
        plan: &Plan,
        place: u8,
        made: &mut MoveEntries,
        left: &mut u32,
    ) -> Option<u8> {
        let item = self.item(place);
        if let Some(taken) = self.items.get_mut(usize::from(place)) {
            *taken = NO_ITEM;
        }
        made.push(Move::Work { item: item.serial });
        let start = Start {
            filter: item.filter,
            callback: item.routine,
            visit: item.visit,
            context: item.context,
            is_draining: false,
        };
        self.start(plan, start, left)
    }

    fn detach(&mut self, plan: &Plan, filter: u8, made: &mut MoveEntries) {
        if let Some(detaching) = self.is_detaching.get_mut(usize::from(filter)) {
            *detaching = true;
        }
        made.push(Move::Detach {
            altitude: plan.altitude(filter),
        });
    }

    fn drain(
        &mut self,
        plan: &Plan,
        filter: u8,
        place: u8,
        made: &mut MoveEntries,
        left: &mut u32,
    ) -> Option<u8> {
        let frame = self.take_frame(place, filter)?;
        made.push(Move::Drain {
            altitude: plan.altitude(filter),
            serial: self.operation(place).serial,
        });
        match self.start_post(plan, place, frame, true, left) {
            Onward::Starts(activation) => Some(activation),
            _ => None,
        }
    }

    fn unlink(&mut self, plan: &Plan, filter: u8, link: ContextLink, made: &mut MoveEntries) {
        if let Some(place) = self.linked(filter, link) {
            if let Some(context) = self.contexts.get_mut(usize::from(place)) {
                context.link = ContextLink::Nowhere;
            }
        }
        made.push(Move::Unlink {
            altitude: plan.altitude(filter),
            key: key_of(link),
        });
    }

    /// Makes a move of the system. None if it isn't enabled or there is no room; else the activation that it starts, if it does.
    pub fn make_move(
        &mut self,
        plan: &Plan,
        next: Next,
        made: &mut MoveEntries,
        left: &mut u32,
    ) -> Option<Option<u8>> {
        let started = match next {
            Next::Arrive(kind, mode, file) => self.arrive(plan, kind, mode, file, made, left),
            Next::Onwards(place) => self.onwards(plan, place, made, left),
            Next::Canceled(filter, place) => self.canceled(plan, filter, place, made, left),
            Next::Work(place) => self.work(plan, place, made, left),
            Next::Drain(filter, place) => self.drain(plan, filter, place, made, left),
            Next::Cancel(place) => {
                self.cancel(place, made);
                return Some(None);
            }
            Next::Detach(filter) => {
                self.detach(plan, filter, made);
                return Some(None);
            }
            Next::Unlink(filter, link) => {
                self.unlink(plan, filter, link, made);
                return Some(None);
            }
            Next::Go(_, _) => return None,
        };
        match started {
            Some(place) => Some(Some(place)),
            None => None,
        }
    }
}
