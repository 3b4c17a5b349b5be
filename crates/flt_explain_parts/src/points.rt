//! The places of the points of a callback.

ghost use Rattle.std.specs.Prelude.{◌≡◌};
ghost use Rattle.flt_explain_parts.specs.Points as spec;

use flt_graph::Graph;
use flt_places::{Files, Lines, Region};

/// A callback of a text, whose points have places.
#[derive(Drop)]
pub struct Points<'a> {
    pub lines: &'a Lines<'a>,
    pub files: Files<'a>,
    /// The number of the file in which the finding is.
    pub home: usize,
    pub graph: &'a Graph,
    /// Its number, from 0.
    pub callback: usize,
}

impl Points<'_> {
    /// The region of the statement of a point; of an `if`, that of its condition. Points count from 0.
    pub fn region(&self, point: usize) -> Region
        ensures { result ≡ spec.regions self.now point }
    {
        self.lines.region(self.graph.span(self.callback, point))
    }
}
