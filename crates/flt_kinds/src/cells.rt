//! A table with a cell for each place in which a context may be. It has a statement that sets a context which may be there, as far as one
//! is known.

ghost use Rattle.flt_kinds.specs.Cells as spec;
ghost use Rattle.std.specs.Prelude.{◌≡◌, ◌<◌, ◌++◌, ◌^◌, None, OnOk, IfOk, is_none, length, replicate};

use crate::slot::{Slot, Spot};
use std::alloc::{AllocError, Global};

/// The greatest number of points of a callback, with its end.
const MAX_POINTS: usize = 513;

/// The number of variables of contexts at a point.
const VARIABLES: usize = 9;

/// The number of cells of a callback.
const CELLS: usize = 4617;

/// Adds the empty cells of a callback.
fn add_callback(cells: &mut Vec<Option<Spot>>) -> Result<(), AllocError>
    ensures { OnOk result (cells.new.items ≡ cells.old.items ++ replicate 4617 None) }
{
    for _cell in 0..CELLS {
        cells.push(None)?;
    }
    Ok(())
}

/// Empty cells for callbacks.
pub(crate) fn blank(alloc: Global, callbacks: usize) -> Result<Vec<Option<Spot>>, AllocError>
    ensures { IfOk result (λ cells. cells.items ≡ replicate (spec.cells_for callbacks) None) }
{
    let mut cells = Vec::new(alloc);
    cells.push(None)?;
    for _callback in 0..callbacks {
        add_callback(&mut cells)?;
    }
    Ok(cells)
}

/// The number of a place among the cells of callbacks.
fn index(callbacks: usize, slot: Slot) -> usize
    requires within { spec.IsWithin callbacks slot }
    requires few { spec.cells_for callbacks < 2 ^ 64 }
    ensures value { result ≡ spec.index slot }
    ensures within { result < spec.cells_for callbacks }
{
    match slot {
        Slot::Queue => 0,
        Slot::Variable(at, variable) => {
            1 + (CELLS * at.callback + (VARIABLES * at.point + variable.place()))
        }
    }
}

/// The content of a place's cell. None if there is no such cell.
#[tactic(auto, unfolding(crate::specs::Cells::cell))]
pub(crate) fn cell(callbacks: usize, cells: &[Option<Spot>], slot: Slot) -> Option<Spot>
    requires { length cells.now ≡ spec.cells_for callbacks }
    ensures { result ≡ spec.cell cells.now slot }
{
    match slot {
        Slot::Queue => cells[0],
        Slot::Variable(at, _) if at.callback < callbacks && at.point < MAX_POINTS => {
            cells[index(callbacks, slot)]
        }
        Slot::Variable(_, _) => None,
    }
}

/// Fills the cell of a place, if it is empty, and says whether it was.
#[tactic(auto, unfolding(crate::specs::Cells::marked))]
pub(crate) fn mark(callbacks: usize, cells: &mut [Option<Spot>], slot: Slot, at: Spot) -> bool
    requires within { spec.IsWithin callbacks slot }
    requires sized { length cells.old ≡ spec.cells_for callbacks }
    ensures value { result ≡ is_none (spec.cell cells.old slot) }
    ensures marked { cells.new ≡ spec.marked cells.old slot at }
{
    if cell(callbacks, cells, slot).is_some() {
        return false;
    }
    cells[index(callbacks, slot)] = Some(at);
    true
}
