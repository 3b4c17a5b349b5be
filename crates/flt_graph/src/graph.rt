//! The points of a filter's callbacks.

ghost use Rattle.std.specs.Prelude.{◌≡◌, length};
ghost use Rattle.flt_graph.specs.Graph as spec;

use crate::instruction::Instruction;
use flt_rules::{LockKind, Place};
use flt_tree::Span;
use sqlite_items::Items;

/// A point: its instruction, and the place of that in the text.
#[derive(Clone, Copy)]
pub struct Point {
    pub span: Span,
    pub instruction: Instruction,
}

/// An end without a place in the text.
static NO_POINT: Point = Point {
    span: Span {
        line: 0,
        start: 0,
        end: 0,
    },
    instruction: Instruction::End,
};

/// A callback's place and its points, from 0. The last one is the end of the body.
#[derive(Drop)]
pub struct CallbackGraph {
    pub place: Place,
    pub points: Items<Point>,
}

/// The kinds of a filter's locks, and its callbacks in order of the text, from 0.
#[derive(Drop)]
pub struct Graph {
    pub locks: Items<LockKind>,
    pub callbacks: Items<CallbackGraph>,
}

impl Graph {
    /// How many callbacks there are.
    pub fn callbacks(&self) -> usize
        ensures { result ≡ length self.now.callbacks }
    {
        self.callbacks.len()
    }

    /// How many points a callback has; none if it isn't there.
    #[tactic(auto, using(crate::proofs::Reading::found, crate::proofs::Reading::missing))]
    pub fn points(&self, callback: usize) -> usize
        ensures { result ≡ spec.points_at self.now callback }
    {
        match self.callbacks.get(callback) {
            Some(found) => found.points.len(),
            None => 0,
        }
    }

    /// The place of a callback; that of a generic routine if it isn't there.
    #[tactic(auto, using(crate::proofs::Reading::found, crate::proofs::Reading::missing))]
    pub fn place(&self, callback: usize) -> Place
        ensures { result ≡ spec.place_at self.now callback }
    {
        match self.callbacks.get(callback) {
            Some(found) => found.place,
            None => Place::Generic,
        }
    }

    /// A point of a callback; if it doesn't exist, an end without a place in the text.
    #[tactic(auto, using(crate::proofs::Reading::found, crate::proofs::Reading::missing))]
    #[inline(always)]
    fn point(&self, callback: usize, point: usize) -> &Point
        ensures { result.now ≡ spec.point_at self.now callback point }
    {
        let found = match self.callbacks.get(callback) {
            Some(found) => found.points.get(point),
            None => None,
        };
        match found {
            Some(found) => found,
            None => &NO_POINT,
        }
    }

    /// The line of a point, from 1: that of the first token of its statement, or of the closing brace for the end. It is 0 if the point
    /// isn't there.
    pub fn line(&self, callback: usize, point: usize) -> usize
        ensures { result ≡ spec.line_at self.now callback point }
    {
        self.span(callback, point).line
    }

    /// The place of a point in the text: its statement, or the closing brace for the end. If the point doesn't exist, all is 0.
    pub fn span(&self, callback: usize, point: usize) -> Span
        ensures { result ≡ spec.span_at self.now callback point }
    {
        self.point(callback, point).span
    }

    /// The instruction at a point, with the points where it leads; the end if the point doesn't exist.
    pub fn instruction(&self, callback: usize, point: usize) -> Instruction
        ensures { result ≡ spec.instruction_at self.now callback point }
    {
        *self.instruction_ref(callback, point)
    }

    /// The same as `instruction`, lent and not copied.
    pub fn instruction_ref(&self, callback: usize, point: usize) -> &Instruction
        ensures { result.now ≡ spec.instruction_at self.now callback point }
    {
        &self.point(callback, point).instruction
    }
}
