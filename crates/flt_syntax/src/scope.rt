//! The declarations of a text before its callbacks.

ghost use Rattle.flt_tree.specs.Names.{lock_names};
ghost use Rattle.std.specs.Prelude.{◌≡◌};

use crate::names::Names;
use flt_tree::Lock;

/// The declarations that the calls of a text may name.
#[derive(Drop)]
pub struct Scope<'a> {
    pub text: &'a [u8],
    pub locks: &'a [Lock],
    /// The locks' names.
    pub names: &'a Names<'a>,
    pub has_queue: bool,
    pub ghost named: { names.now ≡ lock_names locks.now },
}
