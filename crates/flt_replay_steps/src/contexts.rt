//! The calls on contexts, and the effect of each if it is used wrongly: a variable that is NULL where an object is needed leaves all as it
//! is, and a call that can fail then fails.

ghost use Rattle.std.specs.Prelude.{◌≡◌, ◌∷◌, ◌++◌, None, OnOk};
ghost use Rattle.flt_model.specs.Calls as calls;
ghost use Rattle.flt_model.specs.Effects as effects;
ghost use Rattle.flt_model.specs.Variables as variables;
ghost use Rattle.flt_model.specs.World as spec;
ghost use Rattle.flt_replay_world.specs.Happening.{later, Happened};
ghost use Rattle.flt_tree.specs.declared.variable.OperationVariable.TheVariants.{Data};

use flt_model::effects::{context, need, need_one, operation};
use flt_model::{Event, Key, Link, Object};
use flt_replay_records::Write;
use flt_replay_world::{UncountedHeap, World, push_event};
use flt_rules::{Anchor, Call, Existing};
use flt_tree::{ContextVariable, OperationVariable, Statement};
use std::alloc::AllocError;

/// The two blocks of a call that can fail, or of a test.
#[derive(Clone, Copy)]
pub(crate) struct Branches<'a> {
    pub(crate) granted: &'a [Statement],
    pub(crate) refused: &'a [Statement],
}

/// How a context is set, and where.
#[derive(Clone, Copy)]
pub(crate) struct Setting {
    pub(crate) on: Anchor,
    pub(crate) existing: Existing,
    pub(crate) context: ContextVariable,
    /// Receives the context that was there.
    pub(crate) old: Option<ContextVariable>,
}

// ---- links

/// The link that a call works on; none if it is on the stream of `data`, which is NULL.
fn link_of(world: &World<'_>, a: usize, on: Anchor) -> Option<Link>
    ensures { result ≡ calls.link_of world.now.store (spec.actor_at world.now a).filter on
        (variables.operation_in (spec.activation_at world.now a) Data) }
{
    let filter = world.filter(a);
    match on {
        Anchor::Stream => match world.operation_in(a, OperationVariable::Data) {
            Some(visit) => Some(Link {
                filter,
                key: Key::Stream(world.file_of(visit)),
            }),
            None => None,
        },
        Anchor::Instance => Some(Link {
            filter,
            key: Key::Instance,
        }),
    }
}

/// A call on the stream works on the file of `data`.
fn need_anchor(
    world: &World<'_>,
    a: usize,
    on: Anchor,
    events: &mut Vec<Event>,
) -> Result<(), AllocError>
    ensures { OnOk result (events.new.items ≡ events.old.items
        ++ (effects.uses a (calls.needs_of on (variables.operation_in (spec.activation_at world.now a) Data))
        ++ effects.empties a (calls.needs_of on (variables.operation_in (spec.activation_at world.now a) Data)))) }
{
    match on {
        Anchor::Stream => {
            let given = world.operation_in(a, OperationVariable::Data);
            need_one(&mut UncountedHeap, a, operation(given), events)
        }
        Anchor::Instance => Ok(()),
    }
}

/// The link takes a reference of its own.
fn put_link(world: &mut World<'_>, x: usize, link: Link) -> Result<(), AllocError>
    ensures { OnOk result (world.new ≡ record world.old { store = calls.put_link world.old.store x link }) }
{
    world.add_reference(x)?;
    world.set_link(x, link)
}

/// The link's reference goes to the variable that receives it, or is dropped.
fn drop_link(
    world: &mut World<'_>,
    a: usize,
    x: usize,
    old: Option<ContextVariable>,
    events: &mut Vec<Event>,
) -> Result<(), AllocError>
    ensures { OnOk result ((world.new ≡ record world.old { store = effects.after_unlink world.old.store x old })
        × (events.new.items ≡ events.old.items ++ effects.events_of_unlink a world.old.store x old)) }
{
    match old {
        Some(_) => {
            push_event(events, Event::Gain(a, Object::Context(x)))?;
            world.clear_link(x);
            Ok(())
        }
        None => world.unlink_context(x, events),
    }
}

// ---- calls

pub(crate) fn allocate<'a>(
    world: &mut World<'a>,
    a: usize,
    d: ContextVariable,
    grant: bool,
    to: Branches<'a>,
    events: &mut Vec<Event>,
) -> Result<(), AllocError>
    ensures { OnOk result (Happened world.new events.old.items events.new.items
        (calls.allocate world.old a d grant (to.entry.granted.now ++ later world.old a) (to.entry.refused.now ++ later world.old a))) }
{
    push_event(events, Event::Call(a, Call::AllocateContext))?;
    if grant {
        let number = world.add_context(world.filter(a))?;
        world.go_on(a, to.granted, Write::Output(Some(d), Some(number)))?;
        push_event(events, Event::Gain(a, Object::Context(number)))?;
        Ok(())
    } else {
        world.go_on(a, to.refused, Write::Output(Some(d), None))
    }
}

/// The context is given, with one reference more; none if nothing is there.
fn got<'a>(
    world: &mut World<'a>,
    a: usize,
    d: ContextVariable,
    to: Branches<'a>,
    x: Option<usize>,
    events: &mut Vec<Event>,
) -> Result<(), AllocError>
    ensures { OnOk result (Happened world.new events.old.items events.new.items
        (calls.got world.old a d (to.entry.granted.now ++ later world.old a) (to.entry.refused.now ++ later world.old a) x)) }
{
    match x {
        None => world.go_on(a, to.refused, Write::Output(Some(d), None)),
        Some(x) => {
            world.go_on(a, to.granted, Write::Output(Some(d), Some(x)))?;
            world.add_reference(x)?;
            push_event(events, Event::Gain(a, Object::Context(x)))?;
            Ok(())
        }
    }
}

/// Nothing is given if `data` was needed and is NULL.
fn get_by<'a>(
    world: &mut World<'a>,
    a: usize,
    d: ContextVariable,
    to: Branches<'a>,
    link: Option<Link>,
    events: &mut Vec<Event>,
) -> Result<(), AllocError>
    ensures { OnOk result (Happened world.new events.old.items events.new.items
        (calls.get_by world.old a d (to.entry.granted.now ++ later world.old a) (to.entry.refused.now ++ later world.old a) link)) }
{
    match link {
        None => world.go_on(a, to.refused, Write::Nothing),
        Some(link) => {
            let x = world.linked_at(link);
            got(world, a, d, to, x, events)
        }
    }
}

pub(crate) fn get<'a>(
    world: &mut World<'a>,
    a: usize,
    on: Anchor,
    d: ContextVariable,
    to: Branches<'a>,
    events: &mut Vec<Event>,
) -> Result<(), AllocError>
    ensures { OnOk result (Happened world.new events.old.items events.new.items
        (calls.get world.old a on d (to.entry.granted.now ++ later world.old a) (to.entry.refused.now ++ later world.old a))) }
{
    push_event(events, Event::Call(a, Call::GetContext(on)))?;
    need_anchor(world, a, on, events)?;
    let link = link_of(world, a, on);
    get_by(world, a, d, to, link, events)
}

/// A context that is there stays, and is given if a variable receives it.
fn kept<'a>(
    world: &mut World<'a>,
    a: usize,
    old: Option<ContextVariable>,
    refused: &'a [Statement],
    y: usize,
    events: &mut Vec<Event>,
) -> Result<(), AllocError>
    ensures { OnOk result (Happened world.new events.old.items events.new.items
        (calls.kept world.old a old (refused.now ++ later world.old a) y)) }
{
    match old {
        None => world.go_on(a, refused, Write::Nothing),
        Some(d) => {
            let to = Branches {
                granted: refused,
                refused,
            };
            got(world, a, d, to, Some(y), events)
        }
    }
}

/// The context is linked if the link is free; otherwise the call keeps or replaces the context that is there.
fn set_there<'a>(
    world: &mut World<'a>,
    a: usize,
    set: Setting,
    to: Branches<'a>,
    x: usize,
    link: Link,
    events: &mut Vec<Event>,
) -> Result<(), AllocError>
    ensures { OnOk result (Happened world.new events.old.items events.new.items
        (calls.set_there world.old a set.existing set.old (to.entry.granted.now ++ later world.old a)
        (to.entry.refused.now ++ later world.old a) x link (spec.linked_at world.old.store link))) }
{
    match world.linked_at(link) {
        None => {
            world.go_on(a, to.granted, Write::Output(set.old, None))?;
            put_link(world, x, link)
        }
        Some(y) => match set.existing {
            Existing::Keep => kept(world, a, set.old, to.refused, y, events),
            Existing::Replace => {
                world.go_on(a, to.granted, Write::Output(set.old, Some(y)))?;
                drop_link(world, a, y, set.old, events)?;
                put_link(world, x, link)
            }
        },
    }
}

/// It fails if the filter is being detached, or if the context is linked or freed.
fn cannot_set(world: &World<'_>, a: usize, x: usize) -> bool
    ensures { result ≡ calls.cannot_set world.now a x }
{
    !world.is_attached(world.filter(a)) || world.is_linked(x) || world.is_freed(x)
}

/// Nothing is set if the context or `data` is NULL.
fn set_by<'a>(
    world: &mut World<'a>,
    a: usize,
    set: Setting,
    to: Branches<'a>,
    x: Option<usize>,
    link: Option<Link>,
    events: &mut Vec<Event>,
) -> Result<(), AllocError>
    ensures { OnOk result (Happened world.new events.old.items events.new.items
        (calls.set_by world.old a set.existing set.old (to.entry.granted.now ++ later world.old a)
        (to.entry.refused.now ++ later world.old a) x link)) }
{
    match (x, link) {
        (Some(x), Some(link)) => {
            if cannot_set(world, a, x) {
                world.go_on(a, to.refused, Write::Output(set.old, None))
            } else {
                set_there(world, a, set, to, x, link, events)
            }
        }
        _ => world.go_on(a, to.refused, Write::Nothing),
    }
}

/// The context, and the operation if the call is on its stream.
fn need_to_set(
    world: &World<'_>,
    a: usize,
    on: Anchor,
    x: Option<usize>,
    events: &mut Vec<Event>,
) -> Result<(), AllocError>
    ensures { OnOk result (events.new.items ≡ events.old.items
        ++ (effects.uses a (effects.context x ∷ calls.needs_of on (variables.operation_in (spec.activation_at world.now a) Data))
        ++ effects.empties a (effects.context x ∷ calls.needs_of on (variables.operation_in (spec.activation_at world.now a) Data)))) }
{
    match on {
        Anchor::Stream => {
            let given = world.operation_in(a, OperationVariable::Data);
            need(
                &mut UncountedHeap,
                a,
                &[context(x), operation(given)],
                events,
            )
        }
        Anchor::Instance => need_one(&mut UncountedHeap, a, context(x), events),
    }
}

pub(crate) fn set_context<'a>(
    world: &mut World<'a>,
    a: usize,
    set: Setting,
    to: Branches<'a>,
    events: &mut Vec<Event>,
) -> Result<(), AllocError>
    ensures { OnOk result (Happened world.new events.old.items events.new.items
        (calls.set_context world.old a set.on set.existing set.context set.old (to.entry.granted.now ++ later world.old a)
        (to.entry.refused.now ++ later world.old a))) }
{
    let x = world.context_in(a, set.context);
    push_event(
        events,
        Event::Call(a, Call::SetContext(set.on, set.existing)),
    )?;
    need_to_set(world, a, set.on, x, events)?;
    let link = link_of(world, a, set.on);
    set_by(world, a, set, to, x, link, events)
}

/// The link's reference is given, or dropped.
fn unlinked<'a>(
    world: &mut World<'a>,
    a: usize,
    old: Option<ContextVariable>,
    to: Branches<'a>,
    y: Option<usize>,
    events: &mut Vec<Event>,
) -> Result<(), AllocError>
    ensures { OnOk result (Happened world.new events.old.items events.new.items
        (calls.unlinked world.old a old (to.entry.granted.now ++ later world.old a) (to.entry.refused.now ++ later world.old a) y)) }
{
    match y {
        None => world.go_on(a, to.refused, Write::Output(old, None)),
        Some(y) => {
            world.go_on(a, to.granted, Write::Output(old, Some(y)))?;
            drop_link(world, a, y, old, events)
        }
    }
}

/// Nothing is deleted if `data` was needed and is NULL.
fn delete_by<'a>(
    world: &mut World<'a>,
    a: usize,
    old: Option<ContextVariable>,
    to: Branches<'a>,
    link: Option<Link>,
    events: &mut Vec<Event>,
) -> Result<(), AllocError>
    ensures { OnOk result (Happened world.new events.old.items events.new.items
        (calls.delete_by world.old a old (to.entry.granted.now ++ later world.old a) (to.entry.refused.now ++ later world.old a) link)) }
{
    match link {
        None => world.go_on(a, to.refused, Write::Nothing),
        Some(link) => {
            let y = world.linked_at(link);
            unlinked(world, a, old, to, y, events)
        }
    }
}

pub(crate) fn delete_at<'a>(
    world: &mut World<'a>,
    a: usize,
    on: Anchor,
    old: Option<ContextVariable>,
    to: Branches<'a>,
    events: &mut Vec<Event>,
) -> Result<(), AllocError>
    ensures { OnOk result (Happened world.new events.old.items events.new.items
        (calls.delete_at world.old a on old (to.entry.granted.now ++ later world.old a) (to.entry.refused.now ++ later world.old a))) }
{
    push_event(events, Event::Call(a, Call::DeleteContextOf(on)))?;
    need_anchor(world, a, on, events)?;
    let link = link_of(world, a, on);
    delete_by(world, a, old, to, link, events)
}

/// Unlinked if it is linked; the link's reference is dropped.
fn deleted(
    world: &mut World<'_>,
    a: usize,
    x: Option<usize>,
    events: &mut Vec<Event>,
) -> Result<(), AllocError>
    ensures { OnOk result (Happened world.new events.old.items events.new.items (calls.deleted world.old a (later world.old a) x)) }
{
    match x {
        Some(x) if world.is_linked(x) => {
            world.go_on(a, &[], Write::Nothing)?;
            drop_link(world, a, x, None, events)
        }
        _ => world.go_on(a, &[], Write::Nothing),
    }
}

pub(crate) fn delete(
    world: &mut World<'_>,
    a: usize,
    c: ContextVariable,
    events: &mut Vec<Event>,
) -> Result<(), AllocError>
    ensures { OnOk result (Happened world.new events.old.items events.new.items (calls.delete world.old a c (later world.old a))) }
{
    let x = world.context_in(a, c);
    push_event(events, Event::Call(a, Call::DeleteContext))?;
    need_one(&mut UncountedHeap, a, context(x), events)?;
    deleted(world, a, x, events)
}

/// Adds a reference, and the second variable names the context too.
fn referenced(
    world: &mut World<'_>,
    a: usize,
    d: ContextVariable,
    x: Option<usize>,
    events: &mut Vec<Event>,
) -> Result<(), AllocError>
    ensures { OnOk result (Happened world.new events.old.items events.new.items (calls.referenced world.old a d (later world.old a) x)) }
{
    match x {
        None => world.go_on(a, &[], Write::Nothing),
        Some(_) => {
            let to = Branches {
                granted: &[],
                refused: &[],
            };
            got(world, a, d, to, x, events)
        }
    }
}

pub(crate) fn reference(
    world: &mut World<'_>,
    a: usize,
    c: ContextVariable,
    d: ContextVariable,
    events: &mut Vec<Event>,
) -> Result<(), AllocError>
    ensures { OnOk result (Happened world.new events.old.items events.new.items (calls.reference world.old a c d (later world.old a))) }
{
    let x = world.context_in(a, c);
    push_event(events, Event::Call(a, Call::ReferenceContext))?;
    need_one(&mut UncountedHeap, a, context(x), events)?;
    referenced(world, a, d, x, events)
}

/// A reference is dropped, held or not.
fn released(
    world: &mut World<'_>,
    a: usize,
    x: Option<usize>,
    events: &mut Vec<Event>,
) -> Result<(), AllocError>
    ensures { OnOk result (Happened world.new events.old.items events.new.items (calls.released world.old a (later world.old a) x)) }
{
    if let Some(x) = x {
        push_event(events, Event::Lose(a, Object::Context(x)))?;
        world.tell_drop(x, events)?;
        world.drop_reference(x);
    }
    world.go_on(a, &[], Write::Nothing)
}

pub(crate) fn release(
    world: &mut World<'_>,
    a: usize,
    c: ContextVariable,
    events: &mut Vec<Event>,
) -> Result<(), AllocError>
    ensures { OnOk result (Happened world.new events.old.items events.new.items (calls.release world.old a c (later world.old a))) }
{
    let x = world.context_in(a, c);
    push_event(events, Event::Call(a, Call::ReleaseContext))?;
    need_one(&mut UncountedHeap, a, context(x), events)?;
    released(world, a, x, events)
}
