//! Whether the calls of a filter link contexts and queue operations, and whether values and numbers of files count.

use crate::live::{Live, NONE_LIVE, lives};
use flt_graph::{Action, Graph, Instruction};
use flt_rules::{Anchor, Call};
use std::alloc::{AllocError, Global};

pub(crate) fn live_in(lives: &[Live], point: usize) -> Live {
    match lives.get(point) {
        Some(live) => *live,
        None => NONE_LIVE,
    }
}

/// Whether a value is read into a variable that is read later.
fn reads_value(points: &[flt_graph::Point], lives: &[Live]) -> bool {
    for point in points {
        if let Instruction::Act(Action::ReadValue(variable, _), next) = point.instruction {
            if live_in(lives, next).number(variable) {
                return true;
            }
        }
    }
    false
}

fn reads_file(points: &[flt_graph::Point], lives: &[Live]) -> bool {
    for point in points {
        if let Instruction::Act(Action::ReadFile(variable, _), next) = point.instruction {
            if live_in(lives, next).number(variable) {
                return true;
            }
        }
    }
    false
}

/// Whether the calls of a filter link contexts to streams and to the instance, and queue operations.
#[derive(Clone, Copy)]
pub(crate) struct Uses {
    pub(crate) streams: bool,
    pub(crate) instance: bool,
    pub(crate) entries: bool,
}

impl Uses {
    fn add(&mut self, call: Call) {
        match call {
            Call::SetContext(Anchor::Stream, _) => self.streams = true,
            Call::SetContext(Anchor::Instance, _) => self.instance = true,
            Call::InsertIo => self.entries = true,
            _ => {}
        }
    }
}

pub(crate) fn uses_of(graph: &Graph) -> Uses {
    let mut uses = Uses {
        streams: false,
        instance: false,
        entries: false,
    };
    for callback in graph.callbacks.as_slice() {
        for point in callback.points.as_slice() {
            if let Instruction::Call(call, _, _) = point.instruction {
                uses.add(call.roles().call);
            }
        }
    }
    uses
}

pub(crate) fn all_lives(
    alloc: Global,
    graph: &Graph,
    values: bool,
) -> Result<Vec<Vec<Live>>, AllocError> {
    let mut all = Vec::new(alloc);
    for callback in graph.callbacks.as_slice() {
        all.push(lives(alloc, callback.points.as_slice(), values)?)?;
    }
    Ok(all)
}

pub(crate) fn some_reads_value(graph: &Graph, lives: &[Vec<Live>]) -> bool {
    for (callback, own) in graph.callbacks.as_slice().iter().zip(lives.iter()) {
        if reads_value(callback.points.as_slice(), own.as_slice()) {
            return true;
        }
    }
    false
}

pub(crate) fn some_reads_file(graph: &Graph, lives: &[Vec<Live>]) -> bool {
    for (callback, own) in graph.callbacks.as_slice().iter().zip(lives.iter()) {
        if reads_file(callback.points.as_slice(), own.as_slice()) {
            return true;
        }
    }
    false
}
