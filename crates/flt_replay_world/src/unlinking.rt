//! Links that go, and contexts that are freed with the last reference.

ghost use Rattle.std.specs.Prelude.{◌≡◌, ◌++◌, None, OnOk};
ghost use Rattle.flt_model.specs.Effects as effects;

use crate::events::push_event;
use crate::world::World;
use flt_model::Event;
use std::alloc::AllocError;

impl<'a> World<'a> {
    /// Pushes the event of a context's end before a reference is dropped, if it is the last.
    pub fn tell_drop(&self, x: usize, events: &mut Vec<Event>) -> Result<(), AllocError>
        ensures { OnOk result (events.new.items ≡ events.old.items ++ effects.freed_by_drop self.now.store x) }
    {
        if self.references(x) == 1 {
            push_event(events, Event::Free(x))?;
        }
        Ok(())
    }

    /// The link goes, and its reference is dropped.
    pub fn unlink_context(&mut self, x: usize, events: &mut Vec<Event>) -> Result<(), AllocError>
        ensures { OnOk result ((self.new ≡ record self.old { store = effects.after_unlink self.old.store x None })
            × (events.new.items ≡ events.old.items ++ effects.freed_by_drop self.old.store x)) }
    {
        self.tell_drop(x, events)?;
        self.clear_link(x);
        self.drop_reference(x);
        Ok(())
    }
}
