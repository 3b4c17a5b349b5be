//! The reach of runs in a filter's text, as far as one variable determines it. The possible states of the variable at each point are found
//! first, callback by callback; then it is checked that nothing leads out of them. No clause is about how they are found.

ghost use Rattle.std.specs.Prelude.{◌≡◌, ◌<◌, ℕ, true, [], IsTrue, slice_index_or};
ghost use Rattle.flt_graph.specs.Graph.{place_at, points_at};
ghost use Rattle.flt_graph.specs.Points.{successor as successor_of};
ghost use Rattle.flt_explain_outcomes.specs.Reach as spec;
ghost use Rattle.flt_explain_outcomes.specs.Possible.{nothing};
ghost use Rattle.flt_search_started.specs.Triggers.{is_started_alone as is_started_alone_at};

use crate::possible::Possible;
use crate::unset::Unset;
use flt_graph::{ContextVariable, Graph, Instruction};
use flt_search_started::{is_started_alone, is_started_by};
use sqlite_items::Items;
use std::alloc::{AllocError, Global};

/// The point to which an instruction leads by an outcome, if it continues.
fn successor(instruction: &Instruction, outcome: bool) -> Option<usize>
    ensures { result ≡ successor_of instruction.now outcome }
{
    match instruction {
        Instruction::Act(_, next) => Some(*next),
        Instruction::Call(_, granted, refused)
        | Instruction::Test(_, granted, refused)
        | Instruction::Repeat(_, granted, refused) => {
            if outcome {
                Some(*granted)
            } else {
                Some(*refused)
            }
        }
        Instruction::Return(_) | Instruction::End => None,
    }
}

/// The possible states at a point of a callback.
fn in_row(row: &[Possible], point: usize) -> Possible
    ensures { result ≡ slice_index_or row.now point nothing }
{
    row.get(point).copied().unwrap_or(Possible::nothing())
}

/// The possible states at the points of a callback.
fn row_of(rows: &[Items<Possible>], callback: usize) -> &[Possible]
    ensures { result.now ≡ slice_index_or rows.now callback [] }
{
    match rows.get(callback) {
        Some(row) => row.as_slice(),
        None => &[],
    }
}

pub(crate) fn at(rows: &[Items<Possible>], callback: usize, point: usize) -> Possible
    ensures { result ≡ spec.at rows.now callback point }
{
    in_row(row_of(rows, callback), point)
}

/// A filter's points, the variable that is followed, and the anchors on which nothing sets contexts.
#[derive(Clone, Copy)]
pub(crate) struct Survey<'g> {
    pub(crate) graph: &'g Graph,
    pub(crate) unset: Unset,
    pub(crate) variable: ContextVariable,
}

// ---- what may be so

impl Survey<'_> {
    /// The possible states when a callback is entered.
    fn entered(&self, callback: usize) -> Possible {
        Possible::entered(self.graph.place(callback), self.variable)
    }

    /// Whether an instruction may have this outcome.
    fn may_come_out(&self, instruction: &Instruction, outcome: bool) -> bool
        ensures { result ≡ spec.may_come_out self.now.unset instruction.now outcome }
    {
        !(outcome && self.unset.is_barren(instruction))
    }

    /// Adds the states that a point leaves by an outcome to those of the point to which that leads, and says whether they are new there.
    fn lead(
        &self,
        row: &mut Items<Possible>,
        callback: usize,
        point: usize,
        outcome: bool,
    ) -> bool {
        let instruction = self.graph.instruction_ref(callback, point);
        let (Some(next), true) = (
            successor(instruction, outcome),
            self.may_come_out(instruction, outcome),
        ) else {
            return false;
        };
        let left = in_row(row.as_slice(), point).after(instruction, outcome, self.variable);
        let found = in_row(row.as_slice(), next);
        if left.is_within(found) || row.len() <= next {
            return false;
        }
        row.set(next, found.or(left));
        true
    }

    /// Goes once over the points of a callback, and says whether a state is new at one.
    fn pass(&self, row: &mut Items<Possible>, callback: usize) -> bool {
        let mut is_new = false;
        for point in 0..row.len() {
            if in_row(row.as_slice(), point).is_some() {
                is_new |= self.lead(row, callback, point, true);
                is_new |= self.lead(row, callback, point, false);
            }
        }
        is_new
    }

    /// The possible states at the points of a callback that is entered.
    fn row(&self, alloc: Global, callback: usize) -> Result<Items<Possible>, AllocError> {
        let points = self.graph.points(callback);
        let mut row = Items::new(alloc);
        for point in 0..points {
            let first = if point == 0 {
                self.entered(callback)
            } else {
                Possible::nothing()
            };
            row.push(first)?;
        }
        for _pass in 0..points.saturating_mul(3) {
            if !self.pass(&mut row, callback) {
                return Ok(row);
            }
        }
        Ok(row)
    }

    /// Whether a point of a callback that is reached starts the callback of a number.
    fn starts(&self, row: &[Possible], callback: usize, number: usize) -> bool {
        let from = self.graph.place(callback);
        let place = self.graph.place(number);
        for point in 0..row.len() {
            let instruction = self.graph.instruction_ref(callback, point);
            if in_row(row, point).is_some() && is_started_by(from, instruction, number, place) {
                return true;
            }
        }
        false
    }

    /// Whether the system or a callback that is entered starts the callback of a number.
    fn is_started(&self, rows: &[Items<Possible>], number: usize) -> bool {
        if is_started_alone(self.graph.place(number)) {
            return true;
        }
        for callback in 0..rows.len() {
            if self.starts(row_of(rows, callback), callback, number) {
                return true;
            }
        }
        false
    }

    /// Goes once over the callbacks, and enters those that are started from now on. Says whether there is one.
    fn enter(&self, alloc: Global, rows: &mut Items<Items<Possible>>) -> Result<bool, AllocError> {
        let mut is_new = false;
        for number in 0..rows.len() {
            let is_entered = !row_of(rows.as_slice(), number).is_empty();
            if !is_entered && self.is_started(rows.as_slice(), number) {
                let row = self.row(alloc, number)?;
                is_new |= !row.is_empty();
                if number < rows.len() {
                    rows.set(number, row);
                }
            }
        }
        Ok(is_new)
    }

    /// The possible states at each point.
    pub(crate) fn rows(&self, alloc: Global) -> Result<Items<Items<Possible>>, AllocError> {
        let callbacks = self.graph.callbacks();
        let mut rows = Items::new(alloc);
        for _callback in 0..callbacks {
            rows.push(Items::new(alloc))?;
        }
        for _round in 0..callbacks {
            if !self.enter(alloc, &mut rows)? {
                return Ok(rows);
            }
        }
        Ok(rows)
    }
}

// ---- whether anything leads out of it

impl Survey<'_> {
    /// Whether an outcome of a point leads to possible states alone.
    fn leads_on(
        &self,
        rows: &[Items<Possible>],
        callback: usize,
        point: usize,
        outcome: bool,
    ) -> bool
        ensures { IsTrue result → spec.LeadsOn self.now.graph.now self.now.unset self.now.variable rows.now callback point outcome }
    {
        let instruction = self.graph.instruction_ref(callback, point);
        if !self.may_come_out(instruction, outcome) {
            return true;
        }
        match successor(instruction, outcome) {
            Some(next) => {
                let left = at(rows, callback, point).after(instruction, outcome, self.variable);
                left.is_within(at(rows, callback, next))
            }
            None => true,
        }
    }

    /// Whether a callback is entered in possible states.
    fn is_entered(&self, rows: &[Items<Possible>], number: usize) -> bool
        ensures { IsTrue result → spec.IsEntered self.now.graph.now self.now.unset self.now.variable rows.now number }
    {
        Possible::entered(self.graph.place(number), self.variable).is_within(at(rows, number, 0))
    }

    /// Whether each callback that a point starts is entered in possible states.
    fn starts_on(&self, rows: &[Items<Possible>], callback: usize, point: usize) -> bool
        ensures { IsTrue result → spec.StartsOn self.now.graph.now self.now.unset self.now.variable rows.now callback point }
    {
        for number in 0..self.graph.callbacks() {
            if !self.starts_one(rows, callback, point, number) {
                return false;
            }
        }
        true
    }

    /// Whether nothing leads out of the possible states at a point.
    fn goes_on(&self, rows: &[Items<Possible>], callback: usize, point: usize) -> bool
        ensures { IsTrue result → spec.GoesOn self.now.graph.now self.now.unset self.now.variable rows.now callback point }
    {
        !at(rows, callback, point).is_some()
            || (self.leads_on(rows, callback, point, true)
                && self.leads_on(rows, callback, point, false)
                && self.starts_on(rows, callback, point))
    }

    /// Whether nothing leads out of the possible states at each point of a callback.
    fn all_go_on(&self, rows: &[Items<Possible>], callback: usize) -> bool
        ensures { IsTrue result →
            spec.GoOnBefore self.now.graph.now self.now.unset self.now.variable rows.now callback (points_at self.now.graph.now callback) }
    {
        for point in 0..self.graph.points(callback) {
            if !self.goes_on(rows, callback, point) {
                return false;
            }
        }
        true
    }

    /// Whether the system doesn't start the callback of a number, or it is entered in possible states.
    fn enters(&self, rows: &[Items<Possible>], callback: usize) -> bool
        ensures { IsTrue result → is_started_alone_at (place_at self.now.graph.now callback) ≡ true →
            spec.IsEntered self.now.graph.now self.now.unset self.now.variable rows.now callback }
    {
        !is_started_alone(self.graph.place(callback)) || self.is_entered(rows, callback)
    }

    /// Whether nothing leads out of the possible states of a callback, and the system enters it in those alone.
    fn holds_in(&self, rows: &[Items<Possible>], callback: usize) -> bool
        ensures { IsTrue result → spec.HoldsIn self.now.graph.now self.now.unset self.now.variable rows.now callback }
    {
        self.enters(rows, callback) && self.all_go_on(rows, callback)
    }

    /// Whether a callback is entered in possible states, if a point of another starts it.
    fn starts_one(
        &self,
        rows: &[Items<Possible>],
        callback: usize,
        point: usize,
        number: usize,
    ) -> bool
        ensures { IsTrue result → spec.StartsOne self.now.graph.now self.now.unset self.now.variable rows.now callback point number }
    {
        let from = self.graph.place(callback);
        let instruction = self.graph.instruction_ref(callback, point);
        !is_started_by(from, instruction, number, self.graph.place(number))
            || self.is_entered(rows, number)
    }

    /// Whether nothing leads out of the possible states.
    pub(crate) fn holds(&self, rows: &[Items<Possible>]) -> bool
        ensures { IsTrue result → spec.Holds self.now.graph.now self.now.unset self.now.variable rows.now }
    {
        for callback in 0..self.graph.callbacks() {
            if !self.holds_in(rows, callback) {
                return false;
            }
        }
        true
    }
}
