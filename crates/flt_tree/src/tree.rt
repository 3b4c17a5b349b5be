//! A filter within the limits.

ghost use Rattle.std.specs.Prelude.{IsTrue};
ghost use Rattle.flt_tree.specs.Measures.{are_small};

use crate::filter::Filter;

/// The filter that a text spells, as `parse` returns it, and the fact that each of its callbacks has at most 512 points and a cost of at
/// most 1,000,000.
#[derive(Drop)]
pub struct Tree {
    pub filter: Filter,
    pub ghost small: { IsTrue (are_small filter) },
}
