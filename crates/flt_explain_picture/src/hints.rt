//! The lines of a text that a row names, as a hint for a pointer over its words.

use crate::course::NamedLine;
use crate::title::shown;
use flt_explain_timeline::Timeline;
use flt_places::Lines;
use flt_replay_world::Stack;
use flt_tree::Tree;
use std::alloc::{AllocError, Global};

/// A filter's text, with its number from the highest altitude.
#[derive(Drop)]
struct Source<'a> {
    filter: usize,
    lines: Lines<'a>,
}

/// The texts of filters.
#[derive(Drop)]
pub(crate) struct Sources<'a> {
    timeline: &'a Timeline<'a>,
    all: Vec<Source<'a>>,
}

/// The number of a tree's filter; past all filters if it has no altitude that one may have.
fn number_of(stack: &Stack<'_>, tree: &Tree) -> usize {
    match u32::try_from(tree.filter.altitude) {
        Ok(altitude) => stack.number_of(altitude),
        Err(_) => stack.len(),
    }
}

fn is_blank(byte: u8) -> bool {
    matches!(byte, b' ' | b'\t' | b'\r')
}

/// A line without the blanks before it.
fn without_indent(line: &[u8]) -> &[u8] {
    for start in 0..line.len() {
        if !is_blank(line[start]) {
            return &line[start..];
        }
    }
    &[]
}

/// Adds a line after its number, which is written already.
fn put_line(out: &mut String, line: &[u8]) -> Result<(), AllocError> {
    out.push_str(": ")?;
    for byte in without_indent(line) {
        if is_blank(*byte) {
            out.push(' ')?;
        } else {
            out.push(shown(*byte) as char)?;
        }
    }
    Ok(())
}

impl<'a> Sources<'a> {
    /// The texts of some trees, in the same order.
    pub(crate) fn of(
        alloc: Global,
        stack: &Stack<'_>,
        trees: &[Tree],
        texts: &'a [Vec<u8>],
        timeline: &'a Timeline<'a>,
    ) -> Result<Sources<'a>, AllocError> {
        let mut all = Vec::new(alloc);
        for (tree, text) in trees.iter().zip(texts) {
            let filter = number_of(stack, tree);
            let lines = Lines::of(alloc, text.as_slice())?;
            all.push(Source { filter, lines })?;
        }
        Ok(Sources { timeline, all })
    }

    /// A line; empty if it isn't there.
    fn line(&self, named: NamedLine) -> &[u8] {
        for source in self.all.iter() {
            if source.filter == named.filter {
                return source.lines.line(named.line);
            }
        }
        &[]
    }

    /// These lines, each after its number, and `...` if there are more.
    pub(crate) fn hint(
        &self,
        alloc: Global,
        lines: &[NamedLine],
        are_more: bool,
    ) -> Result<String, AllocError> {
        let mut hint = String::new(alloc);
        for named in lines {
            if !hint.is_empty() {
                hint.push_str("\n")?;
            }
            self.timeline
                .put_text_line(&mut hint, named.filter, named.line)?;
            put_line(&mut hint, self.line(*named))?;
        }
        if are_more {
            hint.push_str("\n...")?;
        }
        Ok(hint)
    }
}
