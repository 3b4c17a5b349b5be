//! The events of a step, one after another.

ghost use Rattle.std.specs.Prelude.{◌≡◌, [], ◌∷◌, ◌++◌, OnOk};

use flt_model::Event;
use flt_model::effects::EventAllocator;
use std::alloc::AllocError;

/// Adds an event. Room is made first: `push` would hand the event back if memory is refused, and takes longer for that.
#[inline(always)]
pub fn push_event(events: &mut Vec<Event>, event: Event) -> Result<(), AllocError>
    ensures { OnOk result (events.new.items ≡ events.old.items ++ event ∷ []) }
{
    events.reserve(1)?;
    events.push_reserved(event);
    Ok(())
}

/// The heap of the monitor's events, which counts no refusals.
#[derive(Clone, Copy)]
pub struct UncountedHeap;

impl EventAllocator for UncountedHeap {
    ghost refuses = { λ old new. Unit {0} };

    #[inline(always)]
    fn push_event(&mut self, events: &mut Vec<Event>, event: Event) -> Result<(), AllocError> {
        push_event(events, event)
    }
}
