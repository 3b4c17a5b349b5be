//! The steps that others see, and the violations of each.

use crate::entries::Entry;
use crate::world::{Context, ContextLink, Item, MAX_ACTIVATIONS, MAX_VISITS, NO_CONTEXT, World};
use flt_graph::{
    Action, ContextVariable, Instruction, Invocation, NumberVariable, OperationVariable,
};
use flt_model::Violation;
use flt_rules::{
    Access, Anchor, Call, Existing, HeldLock, Level, LockNumber, entry_level, is_legal_in_draining,
    raised_by, row,
};
use flt_search_activation::VariableValue;
use flt_search_plan::Plan;
use flt_tree::Atom;

/// The result of a step or a move.
#[derive(Clone, Copy)]
pub enum Course {
    /// It is made.
    Goes,
    /// It breaks this.
    Breaks(Violation),
    /// It isn't enabled.
    Stuck,
    /// There is no room for its effect.
    Full,
}

/// How a call ends.
#[derive(Clone, Copy)]
enum Ending {
    Granted,
    Refused,
    Stuck,
    Full,
}

// ---- variables

impl World {
    /// The context that an activation holds by a variable. It breaks V1 if it holds none.
    fn used_context(&mut self, a: u8, variable: ContextVariable) -> Option<u8> {
        let activation = self.activation(a);
        if let VariableValue::At(place) = activation.context(variable) {
            if activation.held(place) > 0 {
                return Some(place);
            }
        }
        self.broken.add(Violation::V1);
        None
    }

    /// The visit that an activation holds by a variable. It breaks V1 if it holds none.
    pub(crate) fn used_visit(&mut self, a: u8, variable: OperationVariable) -> Option<u8> {
        let activation = self.activation(a);
        if let VariableValue::At(place) = activation.operation(variable) {
            if activation.held_visit(place) > 0 {
                return Some(place);
            }
        }
        self.broken.add(Violation::V1);
        None
    }

    fn used_named(&mut self, a: u8, variable: Option<ContextVariable>) -> Option<u8> {
        self.used_context(a, variable?)
    }

    /// The context that a call hands over, if it has that operand; none if that isn't held.
    pub(crate) fn handed(
        &mut self,
        a: u8,
        variable: Option<ContextVariable>,
    ) -> Option<Option<u8>> {
        match variable {
            Some(variable) => match self.used_context(a, variable) {
                Some(context) => Some(Some(context)),
                None => None,
            },
            None => Some(None),
        }
    }

    fn put_context(&mut self, a: u8, variable: ContextVariable, named: VariableValue) {
        if let Some(activation) = self.activations.get_mut(usize::from(a)) {
            activation.set_context(variable, named);
        }
    }

    fn put_operation(&mut self, a: u8, variable: OperationVariable, named: VariableValue) {
        if let Some(activation) = self.activations.get_mut(usize::from(a)) {
            activation.set_operation(variable, named);
        }
    }

    fn hold(&mut self, a: u8, context: u8) {
        if let Some(activation) = self.activations.get_mut(usize::from(a)) {
            activation.hold(context);
        }
    }

    pub(crate) fn lose(&mut self, a: u8, context: u8) {
        if let Some(activation) = self.activations.get_mut(usize::from(a)) {
            activation.lose(context);
        }
    }

    pub(crate) fn lose_visit(&mut self, a: u8, visit: u8) {
        if let Some(activation) = self.activations.get_mut(usize::from(a)) {
            activation.lose_visit(visit);
        }
    }

    fn go_to(&mut self, a: u8, point: usize) {
        if let Some(activation) = self.activations.get_mut(usize::from(a)) {
            activation.point = point;
        }
    }

    /// A variable that a call need not have receives a context that is held from now on.
    fn give(&mut self, a: u8, variable: Option<ContextVariable>, context: u8) {
        if let Some(variable) = variable {
            self.put_context(a, variable, VariableValue::At(context));
            self.hold(a, context);
        }
    }

    fn clear(&mut self, a: u8, variable: Option<ContextVariable>) {
        if let Some(variable) = variable {
            self.put_context(a, variable, VariableValue::Null);
        }
    }

    fn set_link(&mut self, context: u8, link: ContextLink) {
        if let Some(context) = self.contexts.get_mut(usize::from(context)) {
            context.link = link;
        }
    }
}

// ---- what every call may break

impl World {
    /// The level at which an activation is.
    fn level(&self, plan: &Plan, a: u8) -> Level {
        let activation = self.activation(a);
        let mut level = entry_level(plan.place(activation.filter, activation.callback));
        for place in 0..activation.locks.len() {
            if let Some(held) = activation.locks.get(place) {
                level = level.max(raised_by(plan.lock(activation.filter, held.lock)));
            }
        }
        level
    }

    fn judge_call(&mut self, plan: &Plan, a: u8, call: Call) {
        let activation = self.activation(a);
        let is_draining = activation.is_draining;
        let place = plan.place(activation.filter, activation.callback);
        let row = row(call);
        if self.level(plan, a).is_above(row.greatest) {
            self.broken.add(Violation::V6);
        }
        if !row.places.contains(place) || (is_draining && !is_legal_in_draining(call)) {
            self.broken.add(Violation::V8);
        }
    }

    fn judge_packet(&mut self, a: u8) {
        if !self.activation(a).is_packet {
            self.broken.add(Violation::V5);
        }
    }
}

// ---- contexts

impl World {
    /// The link that a call works on. It breaks V1 if that is of an operation that isn't held.
    fn link_of(&mut self, a: u8, anchor: Anchor) -> Option<ContextLink> {
        match anchor {
            Anchor::Instance => Some(ContextLink::Instance),
            Anchor::Stream => {
                let visit = self.used_visit(a, OperationVariable::Data)?;
                let operation = self.visit(visit).operation;
                Some(ContextLink::Stream(self.operation(operation).file))
            }
        }
    }

    fn allocate(&mut self, a: u8, output: Option<ContextVariable>, grant: bool) -> Ending {
        if !grant {
            self.clear(a, output);
            return Ending::Refused;
        }
        let filter = self.activation(a).filter;
        let Some(place) = self.free_context() else {
            return Ending::Full;
        };
        if let Some(context) = self.contexts.get_mut(usize::from(place)) {
            *context = Context {
                is_there: true,
                filter,
                ..NO_CONTEXT
            };
        }
        self.give(a, output, place);
        Ending::Granted
    }

    fn get_linked(&mut self, a: u8, anchor: Anchor, output: Option<ContextVariable>) -> Ending {
        let Some(link) = self.link_of(a, anchor) else {
            return Ending::Refused;
        };
        match self.linked(self.activation(a).filter, link) {
            Some(context) => {
                self.give(a, output, context);
                Ending::Granted
            }
            None => {
                self.clear(a, output);
                Ending::Refused
            }
        }
    }

    /// Links a context where another one may be linked.
    fn set_over(
        &mut self,
        a: u8,
        existing: Existing,
        context: u8,
        link: ContextLink,
        old: Option<ContextVariable>,
    ) -> Ending {
        let other = self.linked(self.activation(a).filter, link);
        match (other, existing) {
            (None, _) => {
                self.clear(a, old);
                self.set_link(context, link);
                Ending::Granted
            }
            (Some(other), Existing::Keep) => {
                self.give(a, old, other);
                Ending::Refused
            }
            (Some(other), Existing::Replace) => {
                self.set_link(other, ContextLink::Nowhere);
                self.give(a, old, other);
                self.set_link(context, link);
                Ending::Granted
            }
        }
    }

    fn set_linked(
        &mut self,
        a: u8,
        anchor: Anchor,
        existing: Existing,
        call: &Invocation,
    ) -> Ending {
        let context = self.used_named(a, call.context);
        let link = self.link_of(a, anchor);
        let (Some(context), Some(link)) = (context, link) else {
            return Ending::Refused;
        };
        let is_linked = self.context(context).link != ContextLink::Nowhere;
        if is_linked || self.detaches(self.activation(a).filter) {
            self.clear(a, call.output);
            return Ending::Refused;
        }
        self.set_over(a, existing, context, link, call.output)
    }

    fn delete_linked(&mut self, a: u8, anchor: Anchor, old: Option<ContextVariable>) -> Ending {
        let Some(link) = self.link_of(a, anchor) else {
            return Ending::Refused;
        };
        match self.linked(self.activation(a).filter, link) {
            Some(context) => {
                self.set_link(context, ContextLink::Nowhere);
                self.give(a, old, context);
                Ending::Granted
            }
            None => {
                self.clear(a, old);
                Ending::Refused
            }
        }
    }

    fn delete(&mut self, a: u8, variable: Option<ContextVariable>) -> Ending {
        if let Some(context) = self.used_named(a, variable) {
            self.set_link(context, ContextLink::Nowhere);
        }
        Ending::Granted
    }

    fn reference(
        &mut self,
        a: u8,
        variable: Option<ContextVariable>,
        output: Option<ContextVariable>,
    ) -> Ending {
        if let Some(context) = self.used_named(a, variable) {
            self.give(a, output, context);
        }
        Ending::Granted
    }

    fn release(&mut self, a: u8, variable: Option<ContextVariable>) -> Ending {
        if let Some(context) = self.used_named(a, variable) {
            self.lose(a, context);
        }
        Ending::Granted
    }
}

// ---- locks

impl World {
    /// Whether others hold a lock so that it is refused.
    fn is_refused(&self, a: u8, lock: LockNumber, access: Access) -> bool {
        let filter = self.activation(a).filter;
        for place in 0..MAX_ACTIVATIONS {
            let other = self.activation(place);
            if place != a && other.is_on && other.filter == filter {
                match (other.locks.held(lock), access) {
                    (None, _) | (Some(Access::Shared), Access::Shared) => {}
                    _ => return true,
                }
            }
        }
        false
    }

    fn acquire(&mut self, a: u8, lock: Option<LockNumber>, access: Access) -> Ending {
        let Some(lock) = lock else {
            return Ending::Granted;
        };
        if self.is_refused(a, lock, access) {
            return Ending::Stuck;
        }
        if self.activation(a).locks.held(lock).is_some() {
            self.broken.add(Violation::V7);
        }
        if let Some(activation) = self.activations.get_mut(usize::from(a)) {
            activation.locks.push(HeldLock { lock, access });
        }
        Ending::Granted
    }

    fn release_lock(&mut self, a: u8, lock: Option<LockNumber>) -> Ending {
        if let Some(lock) = lock {
            if !self.activation(a).locks.is_latest(lock) {
                self.broken.add(Violation::V7);
            }
            if let Some(activation) = self.activations.get_mut(usize::from(a)) {
                activation.locks.pop();
            }
        }
        Ending::Granted
    }
}

// ---- the queue and work items

impl World {
    /// The visit and the context that a call hands over, if both are held.
    fn handed_over(
        &mut self,
        a: u8,
        variable: Option<ContextVariable>,
    ) -> Option<(u8, Option<u8>)> {
        let visit = self.used_visit(a, OperationVariable::Data);
        let context = self.handed(a, variable);
        match (visit, context) {
            (Some(visit), Some(context)) => Some((visit, context)),
            _ => None,
        }
    }

    fn lose_optional(&mut self, a: u8, context: Option<u8>) {
        if let Some(context) = context {
            self.lose(a, context);
        }
    }

    fn insert(&mut self, a: u8, variable: Option<ContextVariable>) -> Ending {
        self.judge_packet(a);
        let Some((visit, context)) = self.handed_over(a, variable) else {
            return Ending::Refused;
        };
        let filter = self.activation(a).filter;
        if self.detaches(filter) {
            return Ending::Refused;
        }
        let entry = Entry {
            filter,
            visit,
            context,
        };
        if !self.entries.push(entry) {
            return Ending::Full;
        }
        self.lose_visit(a, visit);
        self.lose_optional(a, context);
        Ending::Granted
    }

    fn remove_next(&mut self, a: u8, call: &Invocation) -> Ending {
        let Some(variable) = call.operation else {
            return Ending::Refused;
        };
        let front = self.front(self.activation(a).filter);
        let Some(front) = front else {
            self.put_operation(a, variable, VariableValue::Null);
            self.clear(a, call.output);
            return Ending::Refused;
        };
        if let Some(entry) = self.entries.get(front) {
            self.entries.remove(front);
            self.put_operation(a, variable, VariableValue::At(entry.visit));
            if let Some(activation) = self.activations.get_mut(usize::from(a)) {
                activation.hold_visit(entry.visit);
            }
            match entry.context {
                Some(context) => self.give(a, call.output, context),
                None => self.clear(a, call.output),
            }
        }
        Ending::Granted
    }

    /// Queues a work item. False if no place is free.
    fn push_item(
        &mut self,
        a: u8,
        routine: Option<usize>,
        visit: Option<u8>,
        context: Option<u8>,
    ) -> bool {
        let filter = self.activation(a).filter;
        let (Some(place), Some(routine)) = (self.free_item(), routine) else {
            return false;
        };
        let serial = self.queued;
        self.queued = serial.saturating_add(1);
        if let Some(item) = self.items.get_mut(usize::from(place)) {
            *item = Item {
                is_there: true,
                serial,
                filter,
                routine,
                visit,
                context,
            };
        }
        true
    }

    fn queue_deferred(&mut self, a: u8, call: &Invocation, grant: bool) -> Ending {
        self.judge_packet(a);
        let Some((visit, context)) = self.handed_over(a, call.context) else {
            return Ending::Refused;
        };
        if !grant {
            return Ending::Refused;
        }
        if !self.push_item(a, call.routine, Some(visit), context) {
            return Ending::Full;
        }
        self.lose_visit(a, visit);
        self.lose_optional(a, context);
        Ending::Granted
    }

    fn queue_generic(&mut self, a: u8, call: &Invocation, grant: bool) -> Ending {
        let Some(context) = self.handed(a, call.context) else {
            return Ending::Refused;
        };
        if !grant {
            return Ending::Refused;
        }
        if !self.push_item(a, call.routine, None, context) {
            return Ending::Full;
        }
        self.lose_optional(a, context);
        Ending::Granted
    }
}

// ---- a call

impl World {
    fn call_context(&mut self, a: u8, call: &Invocation, grant: bool) -> Ending {
        match call.call {
            Call::AllocateContext => self.allocate(a, call.output, grant),
            Call::GetContext(anchor) => self.get_linked(a, anchor, call.output),
            Call::SetContext(anchor, existing) => self.set_linked(a, anchor, existing, call),
            Call::DeleteContextOf(anchor) => self.delete_linked(a, anchor, call.output),
            Call::DeleteContext => self.delete(a, call.context),
            Call::ReferenceContext => self.reference(a, call.context, call.output),
            Call::ReleaseContext => self.release(a, call.context),
            _ => Ending::Granted,
        }
    }

    fn call_other(&mut self, plan: &Plan, a: u8, call: &Invocation, grant: bool) -> Ending {
        match call.call {
            Call::AcquireLock(_) => self.acquire(a, call.lock, Access::Exclusive),
            Call::AcquirePushLockShared => self.acquire(a, call.lock, Access::Shared),
            Call::ReleaseLock(_) => self.release_lock(a, call.lock),
            Call::InsertIo => self.insert(a, call.context),
            Call::RemoveNextIo => self.remove_next(a, call),
            Call::QueueDeferredIoWorkItem => self.queue_deferred(a, call, grant),
            Call::QueueGenericWorkItem => self.queue_generic(a, call, grant),
            Call::CompletePendedPreOperation(_) => {
                self.complete_pre(plan, a, call);
                Ending::Granted
            }
            Call::CompletePendedPostOperation => {
                self.complete_post(plan, a);
                Ending::Granted
            }
            _ => self.call_context(a, call, grant),
        }
    }

    fn call(
        &mut self,
        plan: &Plan,
        a: u8,
        call: &Invocation,
        yes: usize,
        no: usize,
        grant: bool,
    ) -> Course {
        self.judge_call(plan, a, call.call);
        match self.call_other(plan, a, call, grant) {
            Ending::Granted => self.go_to(a, yes),
            Ending::Refused => self.go_to(a, no),
            Ending::Stuck => return Course::Stuck,
            Ending::Full => {
                if self.broken.is_empty() {
                    return Course::Full;
                }
            }
        }
        self.judge_owners();
        Course::Goes
    }

    /// Each visit has one owner.
    pub(crate) fn judge_owners(&mut self) {
        for place in 0..MAX_VISITS {
            if self.visit(place).is_there && self.owners(place) != 1 {
                self.broken.add(Violation::V4);
            }
        }
    }
}

// ---- reads, and all steps

impl World {
    fn read_value(&mut self, a: u8, variable: NumberVariable, context: ContextVariable) {
        if let Some(context) = self.used_context(a, context) {
            let value = self.context(context).value;
            self.put_number(a, variable, value);
        }
    }

    fn put_number(&mut self, a: u8, variable: NumberVariable, value: u64) {
        if let Some(activation) = self.activations.get_mut(usize::from(a)) {
            activation.set_number(variable, value);
        }
    }

    fn read_file(&mut self, a: u8, variable: NumberVariable, operation: OperationVariable) {
        if let Some(visit) = self.used_visit(a, operation) {
            let operation = self.visit(visit).operation;
            let file = u64::from(self.operation(operation).file);
            self.put_number(a, variable, file);
        }
    }

    fn write_value(&mut self, a: u8, context: ContextVariable, atom: Atom) {
        if let Some(context) = self.used_context(a, context) {
            let value = self.activation(a).atom(atom);
            if let Some(context) = self.contexts.get_mut(usize::from(context)) {
                context.value = value;
            }
        }
    }

    fn act(&mut self, a: u8, action: Action, next: usize) {
        match action {
            Action::ReadValue(variable, context) => self.read_value(a, variable, context),
            Action::ReadFile(variable, operation) => self.read_file(a, variable, operation),
            Action::WriteValue(context, atom) => self.write_value(a, context, atom),
            _ => {}
        }
        self.go_to(a, next);
    }

    fn test_packet(&mut self, a: u8, yes: usize, no: usize) {
        let _ = self.used_visit(a, OperationVariable::Data);
        let next = if self.activation(a).is_packet {
            yes
        } else {
            no
        };
        self.go_to(a, next);
    }

    fn make(&mut self, plan: &Plan, a: u8, instruction: &Instruction, grant: bool) -> Course {
        match instruction {
            Instruction::Act(action, next) => self.act(a, *action, *next),
            Instruction::Call(call, yes, no) => {
                return self.call(plan, a, &call.roles(), *yes, *no, grant);
            }
            Instruction::Test(_, yes, no) => self.test_packet(a, *yes, *no),
            Instruction::Repeat(_, _, _) => return Course::Stuck,
            Instruction::Return(status) => self.end(plan, a, *status),
            Instruction::End => self.end(plan, a, None),
        }
        Course::Goes
    }

    /// An activation makes its next step that others see, and then its local steps, unless that step breaks something.
    pub fn step(&mut self, plan: &Plan, a: u8, grant: bool, left: &mut u32) -> Course {
        let activation = self.activation(a);
        if !activation.is_on {
            return Course::Stuck;
        }
        let instruction = plan.instruction(
            activation.filter,
            activation.callback,
            activation.point,
        );
        match self.make(plan, a, instruction, grant) {
            Course::Goes => {}
            other => return other,
        }
        if let Some(violation) = self.broken.least() {
            return Course::Breaks(violation);
        }
        self.go_on(plan, a, left)
    }

    /// An activation makes its local steps.
    pub(crate) fn go_on(&mut self, plan: &Plan, a: u8, left: &mut u32) -> Course {
        match self.activations.get_mut(usize::from(a)) {
            Some(activation) if activation.is_on => {
                if activation.go_on(plan, left) {
                    Course::Goes
                } else {
                    Course::Full
                }
            }
            _ => Course::Goes,
        }
    }
}

// ---- which steps others wait for

/// Whether the system has the choice at a step.
fn is_choice(instruction: &Instruction) -> bool {
    match instruction {
        Instruction::Call(call, _, _) => matches!(
            call.roles().call,
            Call::AllocateContext | Call::QueueDeferredIoWorkItem | Call::QueueGenericWorkItem
        ),
        _ => false,
    }
}

impl World {
    /// Whether anything but an activation reaches the context that its variable names.
    fn is_shared(&self, a: u8, variable: ContextVariable) -> bool {
        let VariableValue::At(context) = self.activation(a).context(variable) else {
            return false;
        };
        if self.context(context).link != ContextLink::Nowhere {
            return true;
        }
        for place in 0..MAX_ACTIVATIONS {
            let other = self.activation(place);
            if place != a && other.is_on && other.held(context) > 0 {
                return true;
            }
        }
        false
    }

    /// Whether others can see when an activation makes its next step.
    pub fn is_seen(&self, plan: &Plan, a: u8) -> bool {
        let activation = self.activation(a);
        let filter = activation.filter;
        match plan.instruction(filter, activation.callback, activation.point) {
            Instruction::Call(call, _, _) => plan.is_watched(filter, call.roles().call),
            Instruction::Act(Action::ReadValue(_, context) | Action::WriteValue(context, _), _) => {
                plan.sees_values(filter) && self.is_shared(a, *context)
            }
            _ => false,
        }
    }

    /// Whether the system has the choice at an activation's next step.
    pub fn has_choice(&self, plan: &Plan, a: u8) -> bool {
        let activation = self.activation(a);
        is_choice(plan.instruction(activation.filter, activation.callback, activation.point))
    }
}
