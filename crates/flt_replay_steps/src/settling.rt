//! Where an operation is led when a filter's part in it is over.

ghost use Rattle.std.specs.Prelude.{◌≡◌, ◌+◌, ◌∷◌, ◌++◌, OnOk, IfOk};
ghost use Rattle.flt_model.specs.Calls as calls;
ghost use Rattle.flt_model.specs.Settling as spec;
ghost use Rattle.flt_model.specs.declared.parts.Position.TheVariants.{Down};
ghost use Rattle.flt_replay_world.specs.Happening.{later, Happened};

use flt_model::effects::{CallOperands, lose_context, need_named, need_one, operation};
use flt_model::{Answer, Event, Object, Position, Way};
use flt_replay_records::{Frame, Route, Write};
use flt_replay_world::{Stack, UncountedHeap, World, push_event};
use flt_rules::{Call, Stage};
use flt_tree::{OperationVariable, Status};
use std::alloc::AllocError;

/// The place below a filter. A filter's number is less than how many filters there are, so there is always a next one.
fn next_below(filter: usize) -> Result<Position, AllocError>
    ensures { IfOk result (λ p. p ≡ Down (filter + 1)) }
{
    match filter.checked_add(1) {
        Some(filter) => Ok(Position::Down(filter)),
        None => Err(AllocError),
    }
}

/// Leads the operation from a filter, with this context for the frame.
fn lead_from(
    route: &mut Route,
    filter: usize,
    context: Option<usize>,
    way: Way,
) -> Result<(), AllocError>
    ensures { OnOk result (route.new ≡ spec.led filter context way route.old) }
{
    match way {
        Way::Passes => route.position = next_below(filter)?,
        Way::Frames => {
            route.position = next_below(filter)?;
            route.frames.push(Frame::of(filter, context)?)?;
        }
        Way::Ends(outcome) => {
            route.position = Position::Up;
            route.outcome = Some(outcome);
        }
        Way::Rises => route.position = Position::Up,
        Way::Stays => {}
    }
    Ok(())
}

/// Where an answer leads the operation of a visit.
pub(crate) fn way_of<'a>(world: &World<'a>, stack: &Stack<'a>, visit: usize, answer: Answer) -> Way
    ensures { result ≡ spec.way_of stack.now world.now.store visit answer }
{
    let returned = answer.is_returned();
    let status = answer.status();
    match world.stage(visit) {
        Stage::Pre => {
            let has_post = stack.has_post(world.filter_of(visit), world.kind_of(visit));
            Way::before(has_post, returned, status)
        }
        Stage::Post => Way::after(returned, status),
    }
}

/// Whether the visit's operation is led: a visit that is settled moves nothing, nor does a draining one.
fn is_led(world: &World<'_>, visit: usize) -> bool
    ensures { result ≡ spec.is_led world.now.store visit }
{
    !world.is_settled(visit) && !world.is_draining(visit)
}

/// Whether a frame is made, which takes the context over.
pub(crate) fn makes_frame(world: &World<'_>, visit: usize, way: Way) -> bool
    ensures { result ≡ spec.makes_frame world.now.store visit way }
{
    way.asks_for_frame() && is_led(world, visit)
}

/// Leads the operation, if the visit still moves it.
fn lead(
    world: &mut World<'_>,
    visit: usize,
    context: Option<usize>,
    way: Way,
) -> Result<(), AllocError>
    ensures { OnOk result (world.new ≡ record world.old { store = spec.lead world.old.store visit context way }) }
{
    if is_led(world, visit) {
        let filter = world.filter_of(visit);
        let number = world.operation_of(visit);
        if let Some(route) = world.routes.get_mut(number) {
            lead_from(route, filter, context, way)?;
        }
    }
    Ok(())
}

/// The visit is settled and its operation led.
pub(crate) fn settled_by(
    world: &mut World<'_>,
    visit: usize,
    context: Option<usize>,
    way: Way,
) -> Result<(), AllocError>
    ensures { OnOk result (world.new ≡ record world.old { store = spec.settled_by world.old.store visit context way }) }
{
    if way.settles_visit() {
        lead(world, visit, context, way)?;
        world.settle(visit);
    }
    Ok(())
}

// ---- completion

/// The visit is given back and settled.
fn completed<'a>(
    world: &mut World<'a>,
    stack: &Stack<'a>,
    a: usize,
    visit: usize,
    context: Option<usize>,
    answer: Answer,
    events: &mut Vec<Event>,
) -> Result<(), AllocError>
    ensures { OnOk result (Happened world.new events.old.items events.new.items
        (calls.completed world.old a stack.now (later world.old a) visit context answer)) }
{
    let way = way_of(world, stack, visit, answer);
    push_event(events, Event::Lose(a, Object::Visit(visit)))?;
    if makes_frame(world, visit, way) {
        lose_context(&mut UncountedHeap, a, context, events)?;
    }
    push_event(events, Event::Settle(visit))?;
    world.go_on(a, &[], Write::Nothing)?;
    settled_by(world, visit, context, way)
}

/// Nothing is completed if the operation or the named context is NULL.
fn complete_by<'a>(
    world: &mut World<'a>,
    stack: &Stack<'a>,
    a: usize,
    d: OperationVariable,
    status: Status,
    named: CallOperands,
    events: &mut Vec<Event>,
) -> Result<(), AllocError>
    ensures { OnOk result (Happened world.new events.old.items events.new.items
        (calls.complete_by world.old a stack.now d status (later world.old a) named.visit named.context)) }
{
    match (named.visit, named.context) {
        (None, _) | (Some(_), Some(None)) => world.go_on(a, &[], Write::Nothing),
        (Some(visit), Some(Some(x))) => {
            let answer = Answer::completes_pre(d, visit, status);
            completed(world, stack, a, visit, Some(x), answer, events)
        }
        (Some(visit), None) => {
            let answer = Answer::completes_pre(d, visit, status);
            completed(world, stack, a, visit, None, answer, events)
        }
    }
}

/// Of `data` or of an operation taken out of the queue.
pub(crate) fn complete_pre<'a>(
    world: &mut World<'a>,
    stack: &Stack<'a>,
    a: usize,
    d: OperationVariable,
    status: Status,
    events: &mut Vec<Event>,
) -> Result<(), AllocError>
    ensures { OnOk result (Happened world.new events.old.items events.new.items
        (calls.complete_pre world.old a stack.now d status (later world.old a))) }
{
    let named = CallOperands {
        visit: world.operation_in(a, d),
        context: world.named_in(a, status.context()),
    };
    push_event(
        events,
        Event::Call(a, Call::CompletePendedPreOperation(d.whose())),
    )?;
    if let Some(visit) = named.visit {
        push_event(
            events,
            Event::Status(a, Answer::completes_pre(d, visit, status)),
        )?;
    }
    need_named(&mut UncountedHeap, a, named, events)?;
    complete_by(world, stack, a, d, status, named, events)
}

fn complete_post_by<'a>(
    world: &mut World<'a>,
    stack: &Stack<'a>,
    a: usize,
    visit: Option<usize>,
    events: &mut Vec<Event>,
) -> Result<(), AllocError>
    ensures { OnOk result (Happened world.new events.old.items events.new.items
        (calls.complete_post_by world.old a stack.now (later world.old a) visit)) }
{
    match visit {
        Some(visit) => {
            let answer = Answer::CompletesPost { visit };
            completed(world, stack, a, visit, None, answer, events)
        }
        None => world.go_on(a, &[], Write::Nothing),
    }
}

/// The given operation continues upwards.
pub(crate) fn complete_post<'a>(
    world: &mut World<'a>,
    stack: &Stack<'a>,
    a: usize,
    events: &mut Vec<Event>,
) -> Result<(), AllocError>
    ensures { OnOk result (Happened world.new events.old.items events.new.items
        (calls.complete_post world.old a stack.now (later world.old a))) }
{
    let given = world.operation_in(a, OperationVariable::Data);
    push_event(events, Event::Call(a, Call::CompletePendedPostOperation))?;
    if let Some(visit) = given {
        push_event(events, Event::Status(a, Answer::CompletesPost { visit }))?;
    }
    need_one(&mut UncountedHeap, a, operation(given), events)?;
    complete_post_by(world, stack, a, given, events)
}
