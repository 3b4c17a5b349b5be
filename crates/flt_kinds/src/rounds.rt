//! Cells that are filled from those that follow, until nothing changes.

ghost use Rattle.flt_graph.specs.Graph.{points_at};
ghost use Rattle.flt_kinds.specs.Cells.{cells_for};
ghost use Rattle.flt_kinds.specs.Rounds as spec;
ghost use Rattle.flt_kinds.specs.Settled.{IsSettled};
ghost use Rattle.std.specs.Prelude.{◌≡◌, ◌<◌, ◌≤◌, IfOk, OnOk, length};

use crate::cells::{blank, cell, mark};
use crate::flows::{flows, source};
use crate::sites::set_at;
use crate::slot::{Flow, Slot, Spot};
use flt_graph::Graph;
use flt_rules::Anchor;
use std::alloc::{AllocError, Global};

/// Fills the cell from which a flow of a statement leads, if it is empty, with the content of the cell to which it leads. Returns whether
/// it did.
fn carry(callbacks: usize, at: Spot, cells: &mut [Option<Spot>], flow: &Flow) -> bool
    requires within { at.callback < callbacks }
    requires narrow { at.point < 513 }
    requires sized { length cells.old ≡ cells_for callbacks }
    ensures value { result ≡ spec.carries at.callback at.point cells.old flow.now }
    ensures carried { cells.new ≡ spec.carried at.callback at.point cells.old flow.now }
{
    match cell(callbacks, cells, flow.to) {
        Some(found) => mark(
            callbacks,
            cells,
            source(at.callback, at.point, flow.from),
            found,
        ),
        None => false,
    }
}

/// The same for all flows of a statement.
fn carry_all(callbacks: usize, at: Spot, cells: &mut [Option<Spot>], mut flows: &[Flow]) -> bool
    requires within { at.callback < callbacks }
    requires narrow { at.point < 513 }
    requires sized { length cells.old ≡ cells_for callbacks }
    ensures value { result ≡ spec.any_carries at.callback at.point cells.old flows.entry.now }
    ensures carried { cells.new ≡ spec.all_carried at.callback at.point cells.old flows.entry.now }
{
    let mut changed = false;
    while let [flow, rest @ ..] = flows {
        let more = carry(callbacks, at, cells, flow);
        changed = changed || more;
        flows = rest;
    }
    changed
}

/// Notes the statement at a point, if it sets a context.
#[tactic(auto, unfolding(crate::specs::Rounds::noted, crate::specs::Rounds::notes))]
fn note(
    callbacks: usize,
    graph: &Graph,
    anchor: Anchor,
    at: Spot,
    cells: &mut [Option<Spot>],
) -> bool
    requires within { at.callback < callbacks }
    requires narrow { at.point < 513 }
    requires sized { length cells.old ≡ cells_for callbacks }
    ensures value { result ≡ spec.notes graph.now anchor at.callback at.point cells.old }
    ensures noted { cells.new ≡ spec.noted graph.now anchor at.callback at.point cells.old }
{
    match set_at(graph, anchor, at.callback, at.point) {
        Some(variable) => mark(callbacks, cells, Slot::Variable(at, variable), at),
        None => false,
    }
}

/// Notes a statement, and brings back what follows from it.
#[tactic(auto, unfolding(crate::specs::Rounds::visited, crate::specs::Rounds::visits))]
fn visit(
    alloc: Global,
    callbacks: usize,
    graph: &Graph,
    anchor: Anchor,
    at: Spot,
    cells: &mut [Option<Spot>],
) -> Result<bool, AllocError>
    requires within { at.callback < callbacks }
    requires narrow { at.point < 513 }
    requires sized { length cells.old ≡ cells_for callbacks }
    ensures value { IfOk result (λ changed. changed ≡ spec.visits graph.now anchor at.callback at.point cells.old) }
    ensures visited { OnOk result (cells.new ≡ spec.visited graph.now anchor at.callback at.point cells.old) }
{
    let found = flows(alloc, graph, at.callback, at.point)?;
    let noted = note(callbacks, graph, anchor, at, cells);
    let carried = carry_all(callbacks, at, cells, found.as_slice());
    Ok(noted || carried)
}

/// Visits the statements of a callback, from the last.
fn visit_points(
    alloc: Global,
    callbacks: usize,
    graph: &Graph,
    anchor: Anchor,
    callback: usize,
    cells: &mut [Option<Spot>],
) -> Result<bool, AllocError>
    requires within { callback < callbacks }
    requires narrow { spec.IsNarrow graph.now }
    requires sized { length cells.old ≡ cells_for callbacks }
    ensures value { IfOk result (λ changed. changed
        ≡ spec.points_change graph.now anchor callback (points_at graph.now callback) cells.old) }
    ensures visited { OnOk result (cells.new
        ≡ spec.points_visited graph.now anchor callback (points_at graph.now callback) cells.old) }
{
    let mut changed = false;
    let mut left = graph.points(callback);
    while left > 0 {
        left -= 1;
        let at = Spot {
            callback,
            point: left,
        };
        let more = visit(alloc, callbacks, graph, anchor, at, cells)?;
        changed = changed || more;
    }
    Ok(changed)
}

/// Visits all statements once, from the last, and says whether a cell is filled by it.
#[tactic(auto, unfolding(crate::specs::Rounds::round_of, crate::specs::Rounds::changes))]
fn round(
    alloc: Global,
    graph: &Graph,
    anchor: Anchor,
    cells: &mut [Option<Spot>],
) -> Result<bool, AllocError>
    requires narrow { spec.IsNarrow graph.now }
    requires sized { length cells.old ≡ cells_for (length graph.now.callbacks) }
    ensures value { IfOk result (λ changed. changed ≡ spec.changes graph.now anchor cells.old) }
    ensures visited { OnOk result (cells.new ≡ spec.round_of graph.now anchor cells.old) }
{
    let callbacks = graph.callbacks();
    let mut changed = false;
    let mut left = callbacks;
    while left > 0 {
        left -= 1;
        let more = visit_points(alloc, callbacks, graph, anchor, left, cells)?;
        changed = changed || more;
    }
    Ok(changed)
}

/// The same of cells that are owned.
#[tactic(auto, using(crate::proofs::Steps::whole))]
fn round_on(
    alloc: Global,
    graph: &Graph,
    anchor: Anchor,
    cells: &mut Vec<Option<Spot>>,
) -> Result<bool, AllocError>
    requires narrow { spec.IsNarrow graph.now }
    requires sized { length cells.old.items ≡ cells_for (length graph.now.callbacks) }
    ensures value { IfOk result (λ changed. changed ≡ spec.changes graph.now anchor cells.old.items) }
    ensures visited { OnOk result (cells.new.items ≡ spec.round_of graph.now anchor cells.old.items) }
{
    round(alloc, graph, anchor, cells.as_mut_slice())
}

/// For each place a statement that may set the context which is there, on a stream or on the instance, if there is one.
pub(crate) fn settled(
    alloc: Global,
    graph: &Graph,
    anchor: Anchor,
) -> Result<Vec<Option<Spot>>, AllocError>
    requires { spec.IsNarrow graph.now }
    ensures { IfOk result (λ cells. IsSettled graph.now anchor cells.items) }
{
    let mut cells = blank(alloc, graph.callbacks())?;
    let mut open = true;
    while open {
        open = round_on(alloc, graph, anchor, &mut cells)?;
    }
    Ok(cells)
}
