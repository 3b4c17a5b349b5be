//! A text that parses, with all that is looked up in it.

ghost use Rattle.std.specs.Prelude.{◌≡◌};
ghost use Rattle.flt_graph.specs.Graph.{instruction_at, line_at, span_at};
ghost use Rattle.flt_explain_texts.specs.Scene.{head_of, place_of};
ghost use Rattle.flt_places.specs.Places.{bytes_of, site_of};

use flt_graph::{Graph, Instruction};
use flt_places::{Files, Lines, Site};
use flt_syntax::Tree;
use flt_tree::Position;

/// A text that parses, with all that is looked up in it.
#[derive(Clone, Copy)]
pub struct Scene<'a> {
    pub lines: &'a Lines<'a>,
    /// The files in which its lines are.
    pub files: Files<'a>,
    pub tree: &'a Tree,
    pub graph: &'a Graph,
}

impl<'a> Scene<'a> {
    /// The place of a point: of an `if` that of its condition. A point that isn't there is at the beginning of the text.
    pub fn site(&self, callback: usize, point: usize) -> Site
        ensures { result ≡ site_of self.now.lines.now (span_at self.now.graph.now callback point) }
    {
        self.lines.site(self.graph.span(callback, point))
    }

    /// The position where a point begins.
    pub fn place(&self, callback: usize, point: usize) -> Position
        ensures { result ≡ place_of self.now.lines.now self.now.graph.now callback point }
    {
        self.lines.place(self.graph.span(callback, point).start)
    }

    /// The text at a point; empty if the point isn't in it.
    pub fn at_point(&self, callback: usize, point: usize) -> &'a [u8]
        ensures { result.now ≡ bytes_of self.now.lines.now (span_at self.now.graph.now callback point) }
    {
        self.lines.bytes(self.graph.span(callback, point))
    }

    /// The head of a callback.
    pub fn head(&self, callback: usize) -> &'a [u8]
        ensures { result.now ≡ head_of self.now.lines.now self.now.tree.now.filter callback }
    {
        match self.tree.filter.callbacks.get(callback) {
            Some(callback) => self.lines.bytes(callback.span),
            None => &[],
        }
    }

    /// The line of a point's statement, from 1, as `check` prints it.
    pub fn line(&self, callback: usize, point: usize) -> usize
        ensures { result ≡ line_at self.now.graph.now callback point }
    {
        self.graph.line(callback, point)
    }

    pub fn instruction(&self, callback: usize, point: usize) -> Instruction
        ensures { result ≡ instruction_at self.now.graph.now callback point }
    {
        self.graph.instruction(callback, point)
    }
}
