//! The cancel-safe queue, and work items: a visit or context that is handed over is no longer held, whether it was held or not.

ghost use Rattle.std.specs.Prelude.{◌≡◌, ◌∷◌, ◌++◌, OnOk};
ghost use Rattle.flt_model.specs.Calls as calls;
ghost use Rattle.flt_model.specs.Variables as variables;
ghost use Rattle.flt_model.specs.World as spec;
ghost use Rattle.flt_replay_steps.specs.Queueing.{gives_entry};
ghost use Rattle.flt_replay_world.specs.Happening.{later, Happened};
ghost use Rattle.flt_tree.specs.declared.variable.OperationVariable.TheVariants.{Data};

use crate::contexts::Branches;
use flt_model::effects::{CallOperands, gain_context, lose_context, need_named, need_optional};
use flt_model::{Entry, Event, Item, Object};
use flt_replay_records::Write;
use flt_replay_world::{UncountedHeap, World, push_event};
use flt_rules::Call;
use flt_tree::{ContextVariable, OperationVariable, RemovedVariable, Statement};
use std::alloc::AllocError;

/// The operation and the context that a call with this variable hands over.
fn handed(world: &World<'_>, a: usize, c: Option<ContextVariable>) -> CallOperands
    ensures visit { result.visit ≡ variables.operation_in (spec.activation_at world.now a) Data }
    ensures context { result.context ≡ variables.named_in (spec.activation_at world.now a) c }
{
    CallOperands {
        visit: world.operation_in(a, OperationVariable::Data),
        context: world.named_in(a, c),
    }
}

// ---- the cancel-safe queue

/// The entry takes the visit and the context over. A queue of a filter that is being detached is disabled.
fn enqueued<'a>(
    world: &mut World<'a>,
    a: usize,
    visit: usize,
    context: Option<usize>,
    to: Branches<'a>,
    events: &mut Vec<Event>,
) -> Result<(), AllocError>
    ensures { OnOk result (Happened world.new events.old.items events.new.items
        (calls.enqueued world.old a (to.entry.granted.now ++ later world.old a)
        (to.entry.refused.now ++ later world.old a) visit context)) }
{
    let filter = world.filter(a);
    if world.is_attached(filter) {
        world.go_on(a, to.granted, Write::Nothing)?;
        world.add_entry(filter, Entry { visit, context })?;
        push_event(events, Event::Lose(a, Object::Visit(visit)))?;
        lose_context(&mut UncountedHeap, a, context, events)
    } else {
        world.go_on(a, to.refused, Write::Nothing)
    }
}

/// Nothing is queued if the operation or the named context is NULL.
fn insert_by<'a>(
    world: &mut World<'a>,
    a: usize,
    handed: CallOperands,
    to: Branches<'a>,
    events: &mut Vec<Event>,
) -> Result<(), AllocError>
    ensures { OnOk result (Happened world.new events.old.items events.new.items
        (calls.insert_by world.old a (to.entry.granted.now ++ later world.old a)
        (to.entry.refused.now ++ later world.old a) handed.visit handed.context)) }
{
    match (handed.visit, handed.context) {
        (None, _) | (Some(_), Some(None)) => world.go_on(a, to.refused, Write::Nothing),
        (Some(visit), Some(Some(context))) => {
            enqueued(world, a, visit, Some(context), to, events)
        }
        (Some(visit), None) => enqueued(world, a, visit, None, to, events),
    }
}

pub(crate) fn insert<'a>(
    world: &mut World<'a>,
    a: usize,
    c: Option<ContextVariable>,
    to: Branches<'a>,
    events: &mut Vec<Event>,
) -> Result<(), AllocError>
    ensures { OnOk result (Happened world.new events.old.items events.new.items
        (calls.insert world.old a c (to.entry.granted.now ++ later world.old a) (to.entry.refused.now ++ later world.old a))) }
{
    let handed = handed(world, a, c);
    push_event(events, Event::Call(a, Call::InsertIo))?;
    need_named(&mut UncountedHeap, a, handed, events)?;
    insert_by(world, a, handed, to, events)
}

/// The variables name the visit and the context of the first entry, which is out of the queue already.
fn give_entry<'a>(
    world: &mut World<'a>,
    a: usize,
    o: RemovedVariable,
    d: ContextVariable,
    entry: Option<Entry>,
    block: &'a [Statement],
    events: &mut Vec<Event>,
) -> Result<(), AllocError>
    ensures { OnOk result (Happened world.new events.old.items events.new.items
        (gives_entry world.old a o d (block.now ++ later world.old a) entry)) }
{
    let Some(entry) = entry else {
        return world.go_on(a, block, Write::Entry(o, d, None, None));
    };
    let visit = entry.visit;
    let context = entry.context;
    world.go_on(a, block, Write::Entry(o, d, Some(visit), context))?;
    push_event(events, Event::Gain(a, Object::Visit(visit)))?;
    gain_context(&mut UncountedHeap, a, context, events)
}

pub(crate) fn remove_next<'a>(
    world: &mut World<'a>,
    a: usize,
    o: RemovedVariable,
    d: ContextVariable,
    to: Branches<'a>,
    events: &mut Vec<Event>,
) -> Result<(), AllocError>
    ensures { OnOk result (Happened world.new events.old.items events.new.items
        (calls.remove_next world.old a o d (to.entry.granted.now ++ later world.old a) (to.entry.refused.now ++ later world.old a))) }
{
    push_event(events, Event::Call(a, Call::RemoveNextIo))?;
    match world.take_first(world.filter(a)) {
        None => give_entry(world, a, o, d, None, to.refused, events),
        Some(entry) => give_entry(world, a, o, d, Some(entry), to.granted, events),
    }
}

// ---- work items

/// The item takes the visit and the context over.
fn deferred<'a>(
    world: &mut World<'a>,
    a: usize,
    routine: usize,
    visit: usize,
    context: Option<usize>,
    granted: &'a [Statement],
    events: &mut Vec<Event>,
) -> Result<(), AllocError>
    ensures { OnOk result (Happened world.new events.old.items events.new.items
        (calls.deferred world.old a routine (granted.now ++ later world.old a) visit context)) }
{
    let filter = world.filter(a);
    world.go_on(a, granted, Write::Nothing)?;
    world.add_item(Item {
        filter,
        routine,
        visit: Some(visit),
        context,
    })?;
    push_event(events, Event::Lose(a, Object::Visit(visit)))?;
    lose_context(&mut UncountedHeap, a, context, events)
}

/// Nothing is queued if the operation or the named context is NULL, or the system refuses.
fn defer_by<'a>(
    world: &mut World<'a>,
    a: usize,
    routine: usize,
    grant: bool,
    handed: CallOperands,
    to: Branches<'a>,
    events: &mut Vec<Event>,
) -> Result<(), AllocError>
    ensures { OnOk result (Happened world.new events.old.items events.new.items
        (calls.defer_by world.old a routine grant (to.entry.granted.now ++ later world.old a)
        (to.entry.refused.now ++ later world.old a) handed.visit handed.context)) }
{
    match (handed.visit, handed.context) {
        (Some(visit), Some(Some(context))) if grant => {
            deferred(world, a, routine, visit, Some(context), to.granted, events)
        }
        (Some(visit), None) if grant => {
            deferred(world, a, routine, visit, None, to.granted, events)
        }
        _ => world.go_on(a, to.refused, Write::Nothing),
    }
}

pub(crate) fn queue_deferred<'a>(
    world: &mut World<'a>,
    a: usize,
    routine: usize,
    c: Option<ContextVariable>,
    grant: bool,
    to: Branches<'a>,
    events: &mut Vec<Event>,
) -> Result<(), AllocError>
    ensures { OnOk result (Happened world.new events.old.items events.new.items
        (calls.queue_deferred world.old a routine c grant (to.entry.granted.now ++ later world.old a)
        (to.entry.refused.now ++ later world.old a))) }
{
    let handed = handed(world, a, c);
    push_event(events, Event::Call(a, Call::QueueDeferredIoWorkItem))?;
    need_named(&mut UncountedHeap, a, handed, events)?;
    defer_by(world, a, routine, grant, handed, to, events)
}

/// The item takes the context over.
fn queued<'a>(
    world: &mut World<'a>,
    a: usize,
    routine: usize,
    context: Option<usize>,
    granted: &'a [Statement],
    events: &mut Vec<Event>,
) -> Result<(), AllocError>
    ensures { OnOk result (Happened world.new events.old.items events.new.items
        (calls.queued world.old a routine (granted.now ++ later world.old a) context)) }
{
    let filter = world.filter(a);
    world.go_on(a, granted, Write::Nothing)?;
    world.add_item(Item {
        filter,
        routine,
        visit: None,
        context,
    })?;
    lose_context(&mut UncountedHeap, a, context, events)
}

/// Nothing is queued if the named context is NULL, or the system refuses.
fn queue_by<'a>(
    world: &mut World<'a>,
    a: usize,
    routine: usize,
    grant: bool,
    named: Option<Option<usize>>,
    to: Branches<'a>,
    events: &mut Vec<Event>,
) -> Result<(), AllocError>
    ensures { OnOk result (Happened world.new events.old.items events.new.items
        (calls.queue_by world.old a routine grant (to.entry.granted.now ++ later world.old a)
        (to.entry.refused.now ++ later world.old a) named)) }
{
    match named {
        Some(Some(context)) if grant => {
            queued(world, a, routine, Some(context), to.granted, events)
        }
        None if grant => queued(world, a, routine, None, to.granted, events),
        _ => world.go_on(a, to.refused, Write::Nothing),
    }
}

pub(crate) fn queue_generic<'a>(
    world: &mut World<'a>,
    a: usize,
    routine: usize,
    c: Option<ContextVariable>,
    grant: bool,
    to: Branches<'a>,
    events: &mut Vec<Event>,
) -> Result<(), AllocError>
    ensures { OnOk result (Happened world.new events.old.items events.new.items
        (calls.queue_generic world.old a routine c grant (to.entry.granted.now ++ later world.old a)
        (to.entry.refused.now ++ later world.old a))) }
{
    let named = world.named_in(a, c);
    push_event(events, Event::Call(a, Call::QueueGenericWorkItem))?;
    need_optional(&mut UncountedHeap, a, named, events)?;
    queue_by(world, a, routine, grant, named, to, events)
}
