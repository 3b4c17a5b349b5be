//! The place of a statement, and the names that are visible there.

ghost use Rattle.flt_emit.specs.Scope as spec;
ghost use Rattle.std.specs.Prelude.{◌≡◌};

use flt_rules::Place;
use flt_tree::Lock;

/// A point with FltAllocateContext: its callback and its number there, each from 0.
#[derive(Clone, Copy)]
pub struct Allocation {
    pub callback: usize,
    pub point: usize,
}

/// The callback of a statement, and the parts that all callbacks share.
#[derive(Clone, Copy)]
pub(crate) struct Scope<'a> {
    pub(crate) callback: usize,
    pub(crate) place: Place,
    pub(crate) locks: &'a [Lock],
    /// The points at which contexts of the instance are allocated. At every other one a context of a stream is.
    pub(crate) instances: &'a [Allocation],
}

impl<'a> Scope<'a> {
    /// Whether the context that is allocated at a point is one of the instance.
    pub(crate) fn allocates_for_instance(&self, point: usize) -> bool
        ensures { result ≡ spec.allocates_for_instance (spec.scope_of self.now) point }
    {
        let callback = self.callback;
        self.instances
            .iter()
            .any(|found| found.callback == callback && found.point == point)
    }
}
