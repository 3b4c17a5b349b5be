//! Decisions.

ghost use Rattle.std.specs.Prelude.{◌≡◌, None};

use flt_machine_store::Change;
use flt_rules::Place;

/// An activation that starts: its filter, the place for which its callback is registered, the draining flag, the number of the callback,
/// and the visit and the context that it is given.
#[derive(Clone, Copy)]
pub struct Start {
    pub filter: usize,
    pub place: Place,
    pub draining: bool,
    /// From 0; past all callbacks if the filter has no such callback, and then its body is empty.
    pub callback: usize,
    pub given: Option<usize>,
    pub arg: Option<usize>,
}

/// The effect of a move.
#[derive(Clone, Copy)]
pub struct Decision {
    pub start: Option<Start>,
    /// The context whose last reference goes.
    pub freed: Option<usize>,
    pub change: Change,
}

impl Decision {
    /// A change alone: no activation starts, and no context is freed.
    pub(crate) fn only(change: Change) -> Decision
        ensures { result ≡ record { start = None; freed = None; change = change } }
    {
        Decision {
            start: None,
            freed: None,
            change,
        }
    }
}
