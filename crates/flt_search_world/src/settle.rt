//! How operations continue, and how activations end.

use crate::frames::Frame;
use crate::world::{NO_VISIT, Visit, Whereabouts, World};
use flt_graph::{Invocation, OperationVariable, Status};
use flt_model::{Violation, Way};
use flt_rules::{Mode, Place, Possessed, Possession, Stage, StatusRow, StatusWord, status_row};
use flt_search_activation::{NOBODY, VariableValue};
use flt_search_plan::Plan;
use flt_tree::named_context;

// ---- statuses

fn is_of_mode(is_packet: bool, wanted: Option<Mode>) -> bool {
    match wanted {
        Some(mode) => mode.is_irp() == is_packet,
        None => true,
    }
}

fn is_possessed(held: bool, possession: Possession) -> bool {
    match possession {
        Possession::Held => held,
        Possession::GivenAway => !held,
    }
}

fn fits_callback(plan: &Plan, filter: u8, place: Place, row: StatusRow) -> bool {
    let has_post = match place {
        Place::Pre(kind) | Place::Post(kind) => plan.has_callback(filter, Place::Post(kind)),
        _ => true,
    };
    place.fits(row.stage)
        && (!row.needs_post || has_post)
        && (row.in_create || !place.is_pre_create())
}

impl World {
    /// Whether an activation may return a status.
    fn may_return(&self, plan: &Plan, a: u8, status: Option<Status>) -> bool {
        let Some(status) = status else {
            return false;
        };
        let activation = self.activation(a);
        let place = plan.place(activation.filter, activation.callback);
        let row = status_row(status.word());
        fits_callback(plan, activation.filter, place, row)
            && is_possessed(self.holds_given(a), row.data)
            && is_of_mode(activation.is_packet, row.mode)
            && (row.in_draining || !activation.is_draining)
            && !status.completes_pending()
    }

    fn holds_given(&self, a: u8) -> bool {
        let activation = self.activation(a);
        match activation.given {
            VariableValue::At(visit) => activation.held_visit(visit) > 0,
            _ => false,
        }
    }

    /// Whether an activation may hand on a status for a visit.
    fn may_hand(&self, plan: &Plan, a: u8, whose: Possessed, visit: u8, status: Status) -> bool {
        let activation = self.activation(a);
        let place = plan.place(activation.filter, activation.callback);
        let word = status.word();
        let is_given_in_canceled = matches!((place, whose), (Place::Canceled, Possessed::Given));
        self.visit(visit).stage.is_same(Stage::Pre)
            && status_row(word).handed
            && !status.completes_pending()
            && (!is_given_in_canceled || word.is_complete())
            && (!is_callback_word(word) || plan.is_paired(activation.filter))
    }
}

fn is_callback_word(word: StatusWord) -> bool {
    word.is_with_callback()
}

// ---- settling

impl World {
    fn way_of(&self, plan: &Plan, visit: Visit, returned: bool, status: Option<Status>) -> Way {
        match visit.stage {
            Stage::Pre => {
                let kind = self.operation(visit.operation).kind;
                let has_post = plan.has_callback(visit.filter, Place::Post(kind));
                Way::before(has_post, returned, status)
            }
            Stage::Post => Way::after(returned, status),
        }
    }

    fn put_at(&mut self, operation: u8, at: Whereabouts) {
        if let Some(operation) = self.operations.get_mut(usize::from(operation)) {
            operation.at = at;
        }
    }

    /// Adds a frame to an operation. False if it has no room.
    fn push_frame(&mut self, operation: u8, frame: Frame) -> bool {
        match self.operations.get_mut(usize::from(operation)) {
            Some(operation) => operation.frames.push(frame),
            None => false,
        }
    }

    /// Leads the operation of a visit. The frame takes over what the activation hands to it.
    fn lead(&mut self, a: u8, visit: Visit, context: Option<u8>, way: Way) {
        let below = Whereabouts::Down(visit.filter.saturating_add(1));
        match way {
            Way::Passes => self.put_at(visit.operation, below),
            Way::Frames => {
                self.put_at(visit.operation, below);
                let frame = Frame {
                    filter: visit.filter,
                    context,
                };
                let is_pushed = self.push_frame(visit.operation, frame);
                if let Some(context) = context {
                    if is_pushed {
                        self.lose(a, context);
                    }
                }
            }
            Way::Ends(_) | Way::Rises => self.put_at(visit.operation, Whereabouts::Up),
            Way::Stays => {}
        }
    }

    /// The visit of a place is over. It breaks V4 if somebody has it still.
    fn settle(&mut self, place: u8) {
        if self.owners(place) > 0 {
            self.broken.add(Violation::V4);
        }
        if let Some(visit) = self.visits.get_mut(usize::from(place)) {
            *visit = NO_VISIT;
        }
        for activation in self.activations.iter_mut() {
            activation.settle(place);
        }
    }

    /// The effect of a status on a visit that is there.
    fn answer(
        &mut self,
        plan: &Plan,
        a: u8,
        place: u8,
        context: Option<u8>,
        returned: bool,
        status: Option<Status>,
    ) {
        let visit = self.visit(place);
        match self.way_of(plan, visit, returned, status) {
            Way::Stays => {}
            way => {
                if !visit.is_draining {
                    self.lead(a, visit, context, way);
                }
                self.lose_visit(a, place);
                self.settle(place);
            }
        }
    }
}

// ---- completion

impl World {
    pub(crate) fn complete_pre(&mut self, plan: &Plan, a: u8, call: &Invocation) {
        let (Some(variable), Some(status)) = (call.operation, call.status) else {
            return;
        };
        let visit = self.used_visit(a, variable);
        let context = self.handed(a, call.context);
        let (Some(visit), Some(context)) = (visit, context) else {
            return;
        };
        if !self.may_hand(plan, a, variable.whose(), visit, status) {
            self.broken.add(Violation::V5);
        }
        self.answer(plan, a, visit, context, false, Some(status));
    }

    pub(crate) fn complete_post(&mut self, plan: &Plan, a: u8) {
        let Some(visit) = self.used_visit(a, OperationVariable::Data) else {
            return;
        };
        if !self.visit(visit).stage.is_same(Stage::Post) {
            self.broken.add(Violation::V5);
        }
        self.answer(
            plan,
            a,
            visit,
            None,
            false,
            Some(Status::FinishedProcessing),
        );
    }
}

// ---- the end

impl World {
    /// The visit that a callback answers for.
    fn answer_given(&mut self, plan: &Plan, a: u8, context: Option<u8>, status: Option<Status>) {
        match self.activation(a).given {
            VariableValue::At(visit) => self.answer(plan, a, visit, context, true, status),
            VariableValue::Gone => {
                if !matches!(
                    status,
                    Some(Status::Pending | Status::MoreProcessingRequired)
                ) {
                    self.broken.add(Violation::V3);
                }
            }
            VariableValue::Null => {}
        }
    }

    /// An activation ends with a status.
    pub(crate) fn end(&mut self, plan: &Plan, a: u8, status: Option<Status>) {
        let activation = self.activation(a);
        let answers = plan.place(activation.filter, activation.callback).answers();
        let has_locks = activation.locks.len() > 0;
        if (answers || status.is_some()) && !self.may_return(plan, a, status) {
            self.broken.add(Violation::V5);
        }
        if let Some(context) = self.handed(a, named_context(status)) {
            if answers {
                self.answer_given(plan, a, context, status);
            }
        }
        if has_locks {
            self.broken.add(Violation::V7);
        }
        if self.activation(a).holds_contexts() {
            self.broken.add(Violation::V2);
        }
        if let Some(activation) = self.activations.get_mut(usize::from(a)) {
            *activation = NOBODY;
        }
        self.judge_owners();
    }
}
