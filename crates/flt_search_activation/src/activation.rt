//! An activation, its variables and its holdings.

use crate::locks::Locks;
use crate::turns::Turns;
use flt_graph::{ContextVariable, NumberVariable, OperationVariable};

/// The value of a variable: NULL, an object that no longer exists, or the object at a place.
#[derive(Clone, Copy)]
pub enum VariableValue {
    Null,
    Gone,
    At(u8),
}

impl VariableValue {
    /// The object at a place, or NULL if there is no place.
    fn by(place: Option<u8>) -> VariableValue {
        match place {
            Some(place) => VariableValue::At(place),
            None => VariableValue::Null,
        }
    }

    /// Whether it names the object at a place.
    fn is(self, place: u8) -> bool {
        match self {
            VariableValue::At(own) => own == place,
            _ => false,
        }
    }
}

/// The filter, the callback and the arguments with which an activation starts.
#[derive(Clone, Copy)]
pub struct Start {
    pub filter: u8,
    pub callback: usize,
    pub visit: Option<u8>,
    pub context: Option<u8>,
    pub is_draining: bool,
}

/// An activation that hasn't ended. Its point is that of the next step that others see, or that leaves the system a choice.
#[derive(Clone, Copy)]
pub struct Activation {
    pub is_on: bool,
    /// Its number in the journal.
    pub serial: u32,
    pub filter: u8,
    pub callback: usize,
    pub point: usize,
    /// How many local steps lead there from its last step, or from its start.
    pub steps: u32,
    pub is_draining: bool,
    /// Whether it holds a context that nothing names any more.
    pub is_leaking: bool,
    /// Whether the operation that it was given is an I/O request packet, if there is one.
    pub is_packet: bool,
    /// The visit that it was given.
    pub given: VariableValue,
    pub(crate) numbers: [u64; 8],
    pub(crate) contexts: [VariableValue; 9],
    pub(crate) operations: [VariableValue; 5],
    /// How often it holds each context, and each visit.
    holds: [u8; 16],
    visits: [u8; 8],
    pub locks: Locks,
    pub turns: Turns,
}

/// The value of a place without an activation.
pub const NOBODY: Activation = Activation {
    is_on: false,
    serial: 0,
    filter: 0,
    callback: 0,
    point: 0,
    steps: 0,
    is_draining: false,
    is_leaking: false,
    is_packet: true,
    given: VariableValue::Null,
    numbers: [0; 8],
    contexts: [VariableValue::Null; 9],
    operations: [VariableValue::Null; 5],
    holds: [0; 16],
    visits: [0; 8],
    locks: Locks::NONE,
    turns: Turns::NONE,
};

impl Activation {
    /// An activation that has just started, with this number in the journal.
    pub fn starting(start: Start, serial: u32, is_packet: bool) -> Activation {
        let mut activation = Activation {
            is_on: true,
            serial,
            filter: start.filter,
            callback: start.callback,
            is_draining: start.is_draining,
            is_packet,
            given: VariableValue::by(start.visit),
            ..NOBODY
        };
        activation.set_context(ContextVariable::Arg, VariableValue::by(start.context));
        activation.set_operation(OperationVariable::Data, VariableValue::by(start.visit));
        if let Some(context) = start.context {
            activation.hold(context);
        }
        if let Some(visit) = start.visit {
            activation.hold_visit(visit);
        }
        activation
    }

    /// The context that a variable names.
    pub fn context(&self, variable: ContextVariable) -> VariableValue {
        self.contexts[variable.place()]
    }

    /// The visit that a variable names.
    pub fn operation(&self, variable: OperationVariable) -> VariableValue {
        self.operations[variable.place()]
    }

    /// The value of a variable.
    pub fn number(&self, variable: NumberVariable) -> u64 {
        self.numbers[variable.place()]
    }

    pub fn set_context(&mut self, variable: ContextVariable, named: VariableValue) {
        self.contexts[variable.place()] = named;
    }

    pub fn set_operation(&mut self, variable: OperationVariable, named: VariableValue) {
        self.operations[variable.place()] = named;
    }

    pub fn set_number(&mut self, variable: NumberVariable, value: u64) {
        self.numbers[variable.place()] = value;
    }

    /// How often it holds a context.
    pub fn held(&self, context: u8) -> u8 {
        match self.holds.get(usize::from(context)) {
            Some(count) => *count,
            None => 0,
        }
    }

    /// How often it holds a visit.
    pub fn held_visit(&self, visit: u8) -> u8 {
        match self.visits.get(usize::from(visit)) {
            Some(count) => *count,
            None => 0,
        }
    }

    /// Whether it holds a context, be it one that nothing names.
    pub fn holds_contexts(&self) -> bool {
        self.is_leaking || self.holds.iter().any(|count| *count > 0)
    }

    /// It holds a context once more.
    pub fn hold(&mut self, context: u8) {
        if let Some(count) = self.holds.get_mut(usize::from(context)) {
            *count = count.saturating_add(1);
        }
    }

    /// It holds a context once less.
    pub fn lose(&mut self, context: u8) {
        if let Some(count) = self.holds.get_mut(usize::from(context)) {
            *count = count.saturating_sub(1);
        }
    }

    /// It holds a context no more.
    pub fn forget(&mut self, context: u8) {
        if let Some(count) = self.holds.get_mut(usize::from(context)) {
            *count = 0;
        }
    }

    /// It holds a visit once more.
    pub fn hold_visit(&mut self, visit: u8) {
        if let Some(count) = self.visits.get_mut(usize::from(visit)) {
            *count = count.saturating_add(1);
        }
    }

    /// It holds a visit once less.
    pub fn lose_visit(&mut self, visit: u8) {
        if let Some(count) = self.visits.get_mut(usize::from(visit)) {
            *count = count.saturating_sub(1);
        }
    }

    /// Frees a context: each variable that named it is `Gone`.
    pub fn free(&mut self, context: u8) {
        for named in self.contexts.iter_mut() {
            if named.is(context) {
                *named = VariableValue::Gone;
            }
        }
    }

    /// Settles a visit: each variable that named it is `Gone`.
    pub fn settle(&mut self, visit: u8) {
        if self.given.is(visit) {
            self.given = VariableValue::Gone;
        }
        for named in self.operations.iter_mut() {
            if named.is(visit) {
                *named = VariableValue::Gone;
            }
        }
    }
}
