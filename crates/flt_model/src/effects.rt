//! The events of a call's operands, and of contexts that are gained or lost. The monitor and the board both add them by these functions.

ghost use Rattle.std.specs.Prelude.{◌≡◌, ◌≢◌, [], ◌∷◌, ◌++◌, OnOk, OnErr};
ghost use Rattle.flt_model.specs.Effects as spec;

use crate::event::{Event, Object};
use counted_heap::Heap;
use std::alloc::AllocError;

/// The heap that lists of events grow on. It may count the requests that it refuses.
pub trait EventAllocator {
    /// The change of the heap by a refusal of memory.
    ghost refuses: { Self → Self → Type 0 };

    /// Adds an event after the others.
    fn push_event(&mut self, events: &mut Vec<Event>, event: Event) -> Result<(), AllocError>
        ensures added { OnOk result (events.new.items ≡ events.old.items ++ event ∷ []) }
        ensures granted { OnOk result (self.new ≡ self.old) }
        ensures memory { OnErr result (refuses self.old self.new) };
}

impl EventAllocator for Heap {
    ghost refuses = { λ old new. new ≢ old };

    #[inline(always)]
    fn push_event(&mut self, events: &mut Vec<Event>, event: Event) -> Result<(), AllocError> {
        self.push(events, event)
    }
}

/// The context that a variable names, as an object.
pub fn context(variable: Option<usize>) -> Option<Object>
    ensures { result ≡ spec.context variable }
{
    match variable {
        Some(number) => Some(Object::Context(number)),
        None => None,
    }
}

/// The visit that an operation variable names, as an object.
pub fn operation(variable: Option<usize>) -> Option<Object>
    ensures { result ≡ spec.operation variable }
{
    match variable {
        Some(number) => Some(Object::Visit(number)),
        None => None,
    }
}

fn push_uses<H: EventAllocator>(
    heap: &mut H,
    a: usize,
    needs: &[Option<Object>],
    events: &mut Vec<Event>,
) -> Result<(), AllocError>
    ensures added { OnOk result (events.new.items ≡ events.old.items ++ spec.uses a needs.now) }
    ensures granted { OnOk result (heap.new ≡ heap.old) }
    ensures memory { OnErr result (H.refuses heap.old heap.new) }
{
    match needs {
        [] => Ok(()),
        [None, others @ ..] => push_uses(heap, a, others, events),
        [Some(object), others @ ..] => {
            heap.push_event(events, Event::Use(a, *object))?;
            push_uses(heap, a, others, events)
        }
    }
}

fn push_empties<H: EventAllocator>(
    heap: &mut H,
    a: usize,
    needs: &[Option<Object>],
    events: &mut Vec<Event>,
) -> Result<(), AllocError>
    ensures added { OnOk result (events.new.items ≡ events.old.items ++ spec.empties a needs.now) }
    ensures granted { OnOk result (heap.new ≡ heap.old) }
    ensures memory { OnErr result (H.refuses heap.old heap.new) }
{
    match needs {
        [] => Ok(()),
        [None, others @ ..] => {
            heap.push_event(events, Event::Empty(a))?;
            push_empties(heap, a, others, events)
        }
        [Some(_), others @ ..] => push_empties(heap, a, others, events),
    }
}

/// Each variable that names something is used, and then each that is NULL is reported.
pub fn need<H: EventAllocator>(
    heap: &mut H,
    a: usize,
    needs: &[Option<Object>],
    events: &mut Vec<Event>,
) -> Result<(), AllocError>
    ensures added { OnOk result (events.new.items ≡ events.old.items ++ (spec.uses a needs.now ++ spec.empties a needs.now)) }
    ensures granted { OnOk result (heap.new ≡ heap.old) }
    ensures memory { OnErr result (H.refuses heap.old heap.new) }
{
    push_uses(heap, a, needs, events)?;
    push_empties(heap, a, needs, events)
}

/// The same of one variable.
#[inline(always)]
pub fn need_one<H: EventAllocator>(
    heap: &mut H,
    a: usize,
    named: Option<Object>,
    events: &mut Vec<Event>,
) -> Result<(), AllocError>
    ensures added { OnOk result (events.new.items ≡ events.old.items ++ (spec.uses a (named ∷ []) ++ spec.empties a (named ∷ []))) }
    ensures granted { OnOk result (heap.new ≡ heap.old) }
    ensures memory { OnErr result (H.refuses heap.old heap.new) }
{
    match named {
        Some(object) => heap.push_event(events, Event::Use(a, object)),
        None => heap.push_event(events, Event::Empty(a)),
    }
}

/// The same of a context that a call need not have.
pub fn need_optional<H: EventAllocator>(
    heap: &mut H,
    a: usize,
    named: Option<Option<usize>>,
    events: &mut Vec<Event>,
) -> Result<(), AllocError>
    ensures added { OnOk result (events.new.items ≡ events.old.items
        ++ (spec.uses a (spec.optional named) ++ spec.empties a (spec.optional named))) }
    ensures granted { OnOk result (heap.new ≡ heap.old) }
    ensures memory { OnErr result (H.refuses heap.old heap.new) }
{
    match named {
        Some(named) => need_one(heap, a, context(named), events),
        None => Ok(()),
    }
}

/// The operands of a call: an operation, and a context that the call need not have.
#[derive(Clone, Copy)]
pub struct CallOperands {
    pub visit: Option<usize>,
    pub context: Option<Option<usize>>,
}

/// Both are used, or reported if they are NULL.
pub fn need_named<H: EventAllocator>(
    heap: &mut H,
    a: usize,
    named: CallOperands,
    events: &mut Vec<Event>,
) -> Result<(), AllocError>
    ensures added { OnOk result (events.new.items ≡ events.old.items
        ++ (spec.uses a (spec.operation named.visit ∷ spec.optional named.context)
        ++ spec.empties a (spec.operation named.visit ∷ spec.optional named.context))) }
    ensures granted { OnOk result (heap.new ≡ heap.old) }
    ensures memory { OnErr result (H.refuses heap.old heap.new) }
{
    let visit = operation(named.visit);
    match named.context {
        Some(named) => need(heap, a, &[visit, context(named)], events),
        None => need_one(heap, a, visit, events),
    }
}

/// A context that may be there is gained.
pub fn gain_context<H: EventAllocator>(
    heap: &mut H,
    a: usize,
    context: Option<usize>,
    events: &mut Vec<Event>,
) -> Result<(), AllocError>
    ensures added { OnOk result (events.new.items ≡ events.old.items ++ spec.gains_context a context) }
    ensures granted { OnOk result (heap.new ≡ heap.old) }
    ensures memory { OnErr result (H.refuses heap.old heap.new) }
{
    if let Some(context) = context {
        heap.push_event(events, Event::Gain(a, Object::Context(context)))?;
    }
    Ok(())
}

/// A context that may be there is lost.
pub fn lose_context<H: EventAllocator>(
    heap: &mut H,
    a: usize,
    context: Option<usize>,
    events: &mut Vec<Event>,
) -> Result<(), AllocError>
    ensures added { OnOk result (events.new.items ≡ events.old.items ++ spec.loses_context a context) }
    ensures granted { OnOk result (heap.new ≡ heap.old) }
    ensures memory { OnErr result (H.refuses heap.old heap.new) }
{
    if let Some(context) = context {
        heap.push_event(events, Event::Lose(a, Object::Context(context)))?;
    }
    Ok(())
}
