//! The end of a callback, with the status that it returns. The end of a body is a `return` without one.

ghost use Rattle.std.specs.Prelude.{◌≡◌, ◌++◌, true, List, [], set, OnOk};
ghost use Rattle.flt_model.specs.declared.event.Event.{Event};
ghost use Rattle.flt_model.specs.declared.event.Object.TheVariants.{Visit};
ghost use Rattle.flt_model.specs.Returns as spec;
ghost use Rattle.flt_model.specs.Trace.{is_held};
ghost use Rattle.flt_model.specs.Variables.{named_in};
ghost use Rattle.flt_model.specs.World as machine;
ghost use Rattle.flt_replay_world.specs.Happening.{holds_given, Happened};
ghost use Rattle.flt_tree.specs.Filter.{named_context};

use crate::settling::{makes_frame, settled_by, way_of};
use flt_model::effects::{context, lose_context, need_one};
use flt_model::{Answer, Event, Object, Way};
use flt_replay_world::{Stack, UncountedHeap, World, push_event};
use flt_tree::{OperationVariable, Status, named_context};
use std::alloc::AllocError;

/// The visit that an activation was given, and whether it holds it.
#[derive(Clone, Copy)]
struct HeldVisit {
    visit: usize,
    held: bool,
}

/// A context that is named, and not NULL.
fn there(named: Option<Option<usize>>) -> Option<usize>
    ensures { result ≡ spec.there named }
{
    match named {
        Some(context) => context,
        None => None,
    }
}

/// Nothing remains of an activation; a lock that it kept stays held.
fn end_activation(world: &mut World<'_>, a: usize)
    ensures { world.new ≡ record world.old {
      activations =
          set world.old.activations a (record (machine.activation_at world.old a) { rest = []; ended = true });
    } }
{
    if let Some(activation) = world.activations.get_mut(a) {
        activation.end(&mut world.spare);
    }
}

/// A status is given, or is missing if one is needed. Here and below, a clause has `[]` for filters or a trace that the definition doesn't
/// read.
fn give_status(
    world: &World<'_>,
    a: usize,
    status: Option<Status>,
    events: &mut Vec<Event>,
) -> Result<(), AllocError>
    ensures { OnOk result (events.new.items ≡ events.old.items ++ spec.status_given [] [] world.now a status) }
{
    if world.place(a).answers() || status.is_some() {
        push_event(events, Event::Status(a, Answer::Returned(status)))?;
    }
    Ok(())
}

/// The context that goes with the status is used.
fn use_context(
    world: &World<'_>,
    a: usize,
    status: Option<Status>,
    events: &mut Vec<Event>,
) -> Result<(), AllocError>
    ensures { OnOk result (events.new.items ≡ events.old.items ++ spec.context_used [] [] world.now a status) }
{
    match world.named_in(a, named_context(status)) {
        Some(x) => need_one(&mut UncountedHeap, a, context(x), events),
        None => Ok(()),
    }
}

/// The events of a status, whatever it settles.
fn tell_status(
    world: &World<'_>,
    a: usize,
    status: Option<Status>,
    events: &mut Vec<Event>,
) -> Result<(), AllocError>
    ensures { OnOk result (events.new.items ≡ events.old.items
        ++ (spec.status_given [] [] world.now a status ++ spec.context_used [] [] world.now a status)) }
{
    give_status(world, a, status, events)?;
    use_context(world, a, status, events)
}

/// The visit is lost if it is held, and settled in both cases; a frame takes the context over.
fn give_visit_back(
    world: &World<'_>,
    a: usize,
    given: HeldVisit,
    context: Option<usize>,
    way: Way,
    events: &mut Vec<Event>,
) -> Result<(), AllocError>
    ensures { OnOk result ((t : List Event) → given.held ≡ is_held t a (Visit given.visit) →
        events.new.items ≡ events.old.items ++ spec.visit_given_back [] t world.now a given.visit context way) }
{
    if given.held {
        push_event(events, Event::Lose(a, Object::Visit(given.visit)))?;
    }
    if makes_frame(world, given.visit, way) {
        lose_context(&mut UncountedHeap, a, context, events)?;
    }
    if way.settles_visit() {
        push_event(events, Event::Settle(given.visit))?;
    }
    Ok(())
}

/// It ends, with its last event.
fn ends(world: &mut World<'_>, a: usize, events: &mut Vec<Event>) -> Result<(), AllocError>
    ensures { OnOk result (Happened world.new events.old.items events.new.items (spec.ends [] [] world.old a world.old.store [])) }
{
    end_activation(world, a);
    push_event(events, Event::End(a))?;
    Ok(())
}

/// The visit is settled by the status.
fn answered<'a>(
    world: &mut World<'a>,
    stack: &Stack<'a>,
    a: usize,
    status: Option<Status>,
    given: HeldVisit,
    events: &mut Vec<Event>,
) -> Result<(), AllocError>
    ensures { OnOk result ((t : List Event) → given.held ≡ is_held t a (Visit given.visit) →
        Happened world.new events.old.items events.new.items
        (spec.answered stack.now t world.old a status given.visit
        (spec.there (named_in (machine.activation_at world.old a) (named_context status))))) }
{
    let context = there(world.named_in(a, named_context(status)));
    let way = way_of(world, stack, given.visit, Answer::Returned(status));
    tell_status(world, a, status, events)?;
    give_visit_back(world, a, given, context, way, events)?;
    settled_by(world, given.visit, context, way)?;
    ends(world, a, events)
}

/// Only a callback that answers for its operation settles a visit, held or not; the statuses of others settle nothing.
pub(crate) fn end<'a>(
    world: &mut World<'a>,
    stack: &Stack<'a>,
    a: usize,
    status: Option<Status>,
    held: bool,
    events: &mut Vec<Event>,
) -> Result<(), AllocError>
    ensures { OnOk result ((t : List Event) → held ≡ holds_given t world.old a →
        Happened world.new events.old.items events.new.items (spec.returns stack.now t world.old a status)) }
{
    match world.operation_in(a, OperationVariable::Data) {
        Some(visit) if world.place(a).answers() => {
            answered(world, stack, a, status, HeldVisit { visit, held }, events)
        }
        _ => {
            tell_status(world, a, status, events)?;
            ends(world, a, events)
        }
    }
}
