//! A text with warnings.

use flt_places::{Files, Lines};
use flt_tree::Tree;
use std::alloc::Global;

/// A text with warnings, and how they are reported.
#[derive(Clone, Copy)]
pub(crate) struct WarnedText<'a> {
    pub(crate) alloc: Global,
    pub(crate) coloured: bool,
    /// The greatest number of states from which a search for a run continues.
    pub(crate) states: u32,
    /// The tree of the text, alone.
    pub(crate) own: &'a [Tree],
    pub(crate) tree: &'a Tree,
    /// The files in which the text is.
    pub(crate) files: &'a Files<'a>,
    pub(crate) lines: &'a Lines<'a>,
}
