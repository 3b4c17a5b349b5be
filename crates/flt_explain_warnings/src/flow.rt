//! The points of a callback that are reached along a trail.

ghost use Rattle.std.specs.Prelude.{◌≡◌, false, IfOk};
ghost use Rattle.flt_graph.specs.Graph.{points_at};
ghost use Rattle.flt_explain_warnings.specs.Flow as spec;

use crate::trail::Trail;
use flt_graph::Graph;
use sqlite_items::Items;
use std::alloc::{AllocError, Global};

/// Whether a point is marked.
#[tactic(auto, using(crate::proofs::Places::found, crate::proofs::Places::missing))]
pub(crate) fn is_marked(marks: &[bool], point: usize) -> bool
    ensures { result ≡ spec.is_marked marks.now point }
{
    match marks.get(point) {
        Some(mark) => *mark,
        None => false,
    }
}

/// Marks a point, if there is one; returns whether it is new.
#[tactic(auto, using(crate::proofs::Marks::marked_again, crate::proofs::Marks::nothing_marked))]
pub(crate) fn mark(marks: &mut Items<bool>, point: Option<usize>) -> bool
    ensures marks { marks.new ≡ spec.marked marks.old point }
    ensures same { result ≡ false → marks.new ≡ marks.old }
{
    let Some(point) = point else {
        return false;
    };
    if is_marked(marks.as_slice(), point) || marks.len() <= point {
        return false;
    }
    marks.set(point, true);
    true
}

/// Marks the points to which a point leads along the trail, if it is marked itself; returns whether one is new.
fn follow(
    graph: &Graph,
    callback: usize,
    trail: Trail,
    marks: &mut Items<bool>,
    point: usize,
) -> bool
    ensures marks { marks.new ≡ spec.followed graph.now callback trail point marks.old }
    ensures same { result ≡ false → marks.new ≡ marks.old }
{
    if !is_marked(marks.as_slice(), point) {
        return false;
    }
    let instruction = graph.instruction_ref(callback, point);
    let granted = mark(marks, trail.onward(graph, instruction, true));
    let refused = mark(marks, trail.onward(graph, instruction, false));
    granted || refused
}

/// Follows the points of a callback once, in order; returns whether a mark is new.
#[tactic(auto, using(crate::proofs::Marks::one_point, crate::proofs::Marks::no_point))]
fn pass(graph: &Graph, callback: usize, trail: Trail, marks: &mut Items<bool>) -> bool
    ensures marks { marks.new ≡ spec.passed graph.now callback trail marks.old }
    ensures same { result ≡ false → marks.new ≡ marks.old }
{
    let mut is_new = false;
    for point in 0..graph.points(callback) {
        if follow(graph, callback, trail, marks, point) {
            is_new = true;
        }
    }
    is_new
}

/// Follows the points until nothing is new.
#[tactic(auto, using(crate::proofs::Marks::one_pass, crate::proofs::Marks::no_pass, crate::proofs::Marks::settled_once))]
pub(crate) fn settle(graph: &Graph, callback: usize, trail: Trail, marks: &mut Items<bool>)
    ensures { marks.new ≡ spec.settled graph.now callback trail (points_at graph.now callback) marks.old }
{
    for _pass in 0..graph.points(callback) {
        let is_new = pass(graph, callback, trail, marks);
        if !is_new {
            return;
        }
    }
}

/// Marks for a number of points, of which none is marked.
pub(crate) fn blank(alloc: Global, count: usize) -> Result<Items<bool>, AllocError>
    ensures { IfOk result (λ m. m ≡ spec.blank count) }
{
    let mut marks = Items::new(alloc);
    for _point in 0..count {
        marks.push(false)?;
    }
    Ok(marks)
}

/// The points that are reached along a trail from one point.
fn reached(
    alloc: Global,
    graph: &Graph,
    callback: usize,
    trail: Trail,
    start: usize,
) -> Result<Items<bool>, AllocError>
    ensures { IfOk result (λ m. m ≡ spec.reached graph.now callback trail start) }
{
    let mut marks = blank(alloc, graph.points(callback))?;
    mark(&mut marks, Some(start));
    settle(graph, callback, trail, &mut marks);
    Ok(marks)
}

/// The first marked point of a callback that is an end of the trail.
#[tactic(auto, using(crate::proofs::Marks::no_end_at, crate::proofs::Marks::end_at, crate::proofs::Marks::no_end))]
fn first_end(graph: &Graph, callback: usize, trail: Trail, marks: &[bool]) -> Option<usize>
    ensures { result ≡ spec.first_end graph.now callback trail marks.now }
{
    for point in 0..graph.points(callback) {
        if is_marked(marks, point) && trail.ends(graph.instruction_ref(callback, point)) {
            return Some(point);
        }
    }
    None
}

/// The first point of a callback that is reached along a trail from one point and is an end of the trail.
pub(crate) fn end_from(
    alloc: Global,
    graph: &Graph,
    callback: usize,
    trail: Trail,
    start: usize,
) -> Result<Option<usize>, AllocError>
    ensures { IfOk result (λ end. end ≡ spec.end_from graph.now callback trail start) }
{
    let marks = reached(alloc, graph, callback, trail, start)?;
    let end = first_end(graph, callback, trail, marks.as_slice());
    Ok(end)
}
