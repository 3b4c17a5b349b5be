//! Callbacks that start: each is a new activation, which gains the objects that it is given.

ghost use Rattle.std.specs.Prelude.{◌≡◌, ◌++◌, Some, length, OnOk};
ghost use Rattle.flt_model.specs.Effects.{gains_context};
ghost use Rattle.flt_model.specs.Moves as moves;
ghost use Rattle.flt_replay_steps.specs.Starting.{starts_post};
ghost use Rattle.flt_replay_world.specs.Happening.{Happened};

use flt_model::{Event, Object, Position};
use flt_replay_records::{Activation, Actor, Frame, Visit};
use flt_replay_world::{Stack, World, push_event};
use flt_rules::{Operation, Place, Stage};
use flt_tree::Statement;
use std::alloc::{AllocError, Global};

/// A callback that starts: its filter, its statements, and the objects that it is given.
#[derive(Drop)]
pub(crate) struct Start<'a> {
    pub(crate) actor: Actor,
    pub(crate) body: &'a [Statement],
    pub(crate) visit: Option<usize>,
    pub(crate) context: Option<usize>,
}

/// A new activation gains the objects that it is given.
fn gain_given(
    number: usize,
    visit: Option<usize>,
    context: Option<usize>,
    events: &mut Vec<Event>,
) -> Result<(), AllocError>
    ensures { OnOk result (events.new.items ≡ events.old.items ++ (moves.gains_visit number visit ++ gains_context number context)) }
{
    if let Some(visit) = visit {
        push_event(events, Event::Gain(number, Object::Visit(visit)))?;
    }
    if let Some(context) = context {
        push_event(events, Event::Gain(number, Object::Context(context)))?;
    }
    Ok(())
}

pub(crate) fn start_activation<'a>(
    world: &mut World<'a>,
    alloc: Global,
    start: Start<'a>,
    events: &mut Vec<Event>,
) -> Result<(), AllocError>
    ensures { OnOk result (Happened world.new events.old.items events.new.items
        (moves.starts world.old world.old.store start.entry.actor start.entry.body.now start.entry.visit start.entry.context)) }
{
    let number = world.activations.len();
    let Start {
        actor,
        body,
        visit,
        context,
    } = start;
    world.actors.push(actor)?;
    let activation = Activation::starting(alloc, &mut world.spare, body, visit, context)?;
    world.activations.push(activation)?;
    gain_given(number, visit, context, events)
}

/// A visit begins, and its callback starts with it.
fn start_visit<'a>(
    world: &mut World<'a>,
    alloc: Global,
    visit: Visit,
    place: Place,
    body: &'a [Statement],
    context: Option<usize>,
    events: &mut Vec<Event>,
) -> Result<(), AllocError>
    ensures { OnOk result (Happened world.new events.old.items events.new.items
        (moves.starts world.old (moves.with_visit world.old.store visit)
        (record { filter = visit.filter; place = place; draining = visit.draining }) body.now
        (Some (length world.old.store.visits)) context)) }
{
    let actor = Actor {
        filter: visit.filter,
        place,
        draining: visit.draining,
    };
    let start = Start {
        actor,
        body,
        visit: Some(world.add_visit(visit)?),
        context,
    };
    start_activation(world, alloc, start, events)
}

/// The visit of an operation that is down at a filter with a pre callback, and the callback.
pub(crate) fn start_pre<'a>(
    world: &mut World<'a>,
    alloc: Global,
    stack: &Stack<'a>,
    operation: usize,
    kind: Operation,
    filter: usize,
    events: &mut Vec<Event>,
) -> Result<(), AllocError>
    ensures { OnOk result (Happened world.new events.old.items events.new.items (moves.pre_of stack.now world.old operation kind filter)) }
{
    let visit = Visit::of(operation, filter, Stage::Pre, false)?;
    world.set_position(operation, Position::Visiting);
    let body = stack.pre_body(filter, kind);
    start_visit(world, alloc, visit, Place::Pre(kind), body, None, events)
}

/// The post callback of a frame that was taken out of its operation.
pub(crate) fn start_post<'a>(
    world: &mut World<'a>,
    alloc: Global,
    stack: &Stack<'a>,
    operation: usize,
    frame: Frame,
    draining: bool,
    events: &mut Vec<Event>,
) -> Result<(), AllocError>
    ensures { OnOk result (Happened world.new events.old.items events.new.items
        (starts_post stack.now world.old operation frame draining)) }
{
    let kind = world.kind(operation);
    let filter = frame.filter as usize;
    let context = frame.context();
    let visit = Visit::of(operation, filter, Stage::Post, draining)?;
    let body = stack.post_body(filter, kind);
    start_visit(
        world,
        alloc,
        visit,
        Place::Post(kind),
        body,
        context,
        events,
    )
}
