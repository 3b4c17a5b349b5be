//! Which callbacks start which.

use flt_graph::{Graph, Instruction};
use flt_rules::{Call, MAX_CALLBACKS, OPERATIONS, Operation, Place};
use std::alloc::{AllocError, Global};

/// Some callbacks of a filter.
#[derive(Clone, Copy)]
pub(crate) struct Callbacks {
    flags: [bool; 16],
}

const NO_CALLBACKS: Callbacks = Callbacks { flags: [false; 16] };

impl Callbacks {
    pub(crate) fn has(&self, callback: usize) -> bool {
        match self.flags.get(callback) {
            Some(flag) => *flag,
            None => false,
        }
    }

    fn add(&mut self, callback: usize) {
        if let Some(flag) = self.flags.get_mut(callback) {
            *flag = true;
        }
    }

    fn add_all(&mut self, others: &Callbacks) {
        for callback in 0..MAX_CALLBACKS {
            if others.has(callback) {
                self.add(callback);
            }
        }
    }
}

fn is_place(own: Place, other: Place) -> bool {
    match (own, other) {
        (Place::Pre(own), Place::Pre(kind)) | (Place::Post(own), Place::Post(kind)) => {
            own.is_same(kind)
        }
        (Place::Canceled, Place::Canceled) => true,
        _ => false,
    }
}

/// The callback of a place that is no routine's.
pub(crate) fn callback_at(graph: &Graph, place: Place) -> Option<usize> {
    for (number, callback) in graph.callbacks.as_slice().iter().enumerate() {
        if is_place(callback.place, place) {
            return Some(number);
        }
    }
    None
}

fn add_started(graph: &Graph, instruction: &Instruction, started: &mut Callbacks) {
    let Instruction::Call(call, _, _) = instruction else {
        return;
    };
    let call = call.roles();
    match call.call {
        Call::InsertIo => {
            if let Some(canceled) = callback_at(graph, Place::Canceled) {
                started.add(canceled);
            }
        }
        Call::QueueDeferredIoWorkItem | Call::QueueGenericWorkItem => {
            if let Some(routine) = call.routine {
                started.add(routine);
            }
        }
        _ => {}
    }
}

/// The callbacks that a callback starts.
fn started_by(graph: &Graph, callback: usize) -> Callbacks {
    let mut started = NO_CALLBACKS;
    if let Some(own) = graph.callbacks.get(callback) {
        for point in own.points.as_slice() {
            add_started(graph, &point.instruction, &mut started);
        }
    }
    started
}

fn all_started(alloc: Global, graph: &Graph) -> Result<Vec<Callbacks>, AllocError> {
    let mut all = Vec::new(alloc);
    for callback in 0..graph.callbacks() {
        all.push(started_by(graph, callback))?;
    }
    Ok(all)
}

/// The callbacks that an operation of a kind can start.
fn reached_by(graph: &Graph, started: &[Callbacks], kind: Operation) -> Callbacks {
    let mut reached = NO_CALLBACKS;
    let Some(pre) = callback_at(graph, Place::Pre(kind)) else {
        return reached;
    };
    reached.add(pre);
    if let Some(post) = callback_at(graph, Place::Post(kind)) {
        reached.add(post);
    }
    for _ in 0..MAX_CALLBACKS {
        for (callback, others) in started.iter().enumerate() {
            if reached.has(callback) {
                reached.add_all(others);
            }
        }
    }
    reached
}

/// The callbacks that an operation of each kind can start.
pub(crate) fn all_reached(
    alloc: Global,
    graph: &Graph,
) -> Result<[Callbacks; OPERATIONS], AllocError> {
    let started = all_started(alloc, graph)?;
    let mut all = [NO_CALLBACKS; OPERATIONS];
    for (reached, kind) in all.iter_mut().zip(Operation::all()) {
        *reached = reached_by(graph, started.as_slice(), *kind);
    }
    Ok(all)
}
