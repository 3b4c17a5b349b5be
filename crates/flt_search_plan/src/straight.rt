//! Repeats that neither ask nor call.

use flt_graph::{Action, Graph, Instruction};
use std::alloc::{AllocError, Global};

pub(crate) fn is_marked(marks: &[bool], point: usize) -> bool {
    match marks.get(point) {
        Some(mark) => *mark,
        None => false,
    }
}

/// The point after one that neither asks nor calls.
fn behind_straight(instruction: &Instruction, straight: &[bool], point: usize) -> Option<usize> {
    match instruction {
        Instruction::Act(
            Action::SetNumber(_, _) | Action::ClearContext(_) | Action::ClearOperation(_),
            next,
        ) => Some(*next),
        Instruction::Repeat(_, _, behind) if is_marked(straight, point) => Some(*behind),
        _ => None,
    }
}

/// Whether the `repeat` at a point neither asks nor calls; those within it are marked.
fn is_straight(points: &[flt_graph::Point], straight: &[bool], repeat: usize, body: usize) -> bool {
    let mut point = body;
    for _ in 0..points.len() {
        if point == repeat {
            return true;
        }
        let Some(own) = points.get(point) else {
            return false;
        };
        let Some(next) = behind_straight(&own.instruction, straight, point) else {
            return false;
        };
        point = next;
    }
    false
}

fn is_straight_at(points: &[flt_graph::Point], straight: &[bool], repeat: usize) -> bool {
    match points.get(repeat) {
        Some(point) => match point.instruction {
            Instruction::Repeat(_, body, _) => is_straight(points, straight, repeat, body),
            _ => false,
        },
        None => false,
    }
}

fn straight_of(alloc: Global, points: &[flt_graph::Point]) -> Result<Vec<bool>, AllocError> {
    let mut straight = Vec::new(alloc);
    for _ in 0..points.len() {
        straight.push(false)?;
    }
    for repeat in (0..points.len()).rev() {
        let is_one = is_straight_at(points, straight.as_slice(), repeat);
        if let Some(mark) = straight.get_mut(repeat) {
            *mark = is_one;
        }
    }
    Ok(straight)
}

pub(crate) fn all_straight(alloc: Global, graph: &Graph) -> Result<Vec<Vec<bool>>, AllocError> {
    let mut all = Vec::new(alloc);
    for callback in graph.callbacks.as_slice() {
        all.push(straight_of(alloc, callback.points.as_slice())?)?;
    }
    Ok(all)
}
