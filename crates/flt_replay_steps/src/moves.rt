//! The moves of the filter manager and of worker threads: when each is enabled, and its effect.

ghost use Rattle.std.specs.Prelude.{◌≡◌, List, Some, None, IfOk, OnOk, MatchOption};
ghost use Rattle.flt_model.specs.declared.event.Event.{Event};
ghost use Rattle.flt_model.specs.Moves as moves;
ghost use Rattle.flt_model.specs.World as spec;
ghost use Rattle.flt_model.specs.declared.parts.Position.TheVariants.{Down, Visiting};
ghost use Rattle.flt_replay_world.specs.Happening.{ComesOf};

use crate::starting::{start_post, start_pre};
use crate::{teardown, waiting};
use flt_model::{Arrival, Event, Move, Outcome, Position};
use flt_replay_records::{Frame, Route};
use flt_replay_world::{Stack, World};
use flt_rules::{FinalStatus, Mode, Operation};
use std::alloc::{AllocError, Global};

// ---- operations arrive, go down and up, and are cancelled

/// Adds an operation, at the highest filter.
fn add_operation(world: &mut World<'_>, alloc: Global, arrival: Arrival) -> Result<(), AllocError>
    ensures { OnOk result (world.new ≡ record world.old { store = moves.with_arrival world.old.store arrival }) }
{
    world.arrivals.push(arrival)?;
    world.routes.push(Route {
        position: Position::Down(0),
        frames: Vec::new(alloc),
        cancelled: false,
        outcome: None,
    })?;
    Ok(())
}

/// There are 1,024 files.
fn arrive(
    world: &mut World<'_>,
    alloc: Global,
    kind: Operation,
    mode: Mode,
    file: u32,
) -> Result<bool, AllocError>
    ensures { IfOk result (λ enabled. (earlier : List Event) →
        ComesOf (moves.arrive world.old kind mode file) enabled world.new earlier earlier) }
{
    if kind.fits(mode) && file < 1024 {
        add_operation(world, alloc, Arrival { kind, mode, file })?;
        Ok(true)
    } else {
        Ok(false)
    }
}

/// Whether the filter is there, with a pre callback of the operation.
fn calls_pre<'a>(world: &World<'a>, stack: &Stack<'a>, filter: usize, kind: Operation) -> bool
    ensures { result ≡ moves.calls_pre stack.now world.now.store filter kind }
{
    world.is_attached(filter) && stack.has_pre(filter, kind)
}

/// The operation is down at the filter.
fn pre_at<'a>(
    world: &mut World<'a>,
    alloc: Global,
    stack: &Stack<'a>,
    operation: usize,
    kind: Operation,
    filter: usize,
    events: &mut Vec<Event>,
) -> Result<bool, AllocError>
    ensures { IfOk result (λ enabled. ComesOf
        (moves.pre_at stack.now world.old operation kind (Down filter)) enabled world.new events.old.items events.new.items) }
{
    if filter < stack.len() && calls_pre(world, stack, filter, kind) {
        start_pre(world, alloc, stack, operation, kind, filter, events)?;
        Ok(true)
    } else {
        Ok(false)
    }
}

fn pre<'a>(
    world: &mut World<'a>,
    alloc: Global,
    stack: &Stack<'a>,
    operation: usize,
    events: &mut Vec<Event>,
) -> Result<bool, AllocError>
    ensures { IfOk result (λ enabled. ComesOf
        (moves.pre_at stack.now world.old operation (spec.arrival_at world.old.store operation).kind
        (spec.route_at world.old.store operation).position) enabled world.new events.old.items events.new.items) }
{
    let kind = world.kind(operation);
    match world.position(operation) {
        Position::Down(filter) => pre_at(world, alloc, stack, operation, kind, filter, events),
        _ => Ok(false),
    }
}

/// A filter that isn't there, or has no such callback, is passed.
fn skip<'a>(world: &mut World<'a>, stack: &Stack<'a>, operation: usize) -> bool
    ensures { (earlier : List Event) → ComesOf
        (moves.skip_at stack.now world.old operation (spec.arrival_at world.old.store operation).kind
        (spec.route_at world.old.store operation).position) result world.new earlier earlier }
{
    let kind = world.kind(operation);
    match world.position(operation) {
        Position::Down(filter) if filter < stack.len() && !calls_pre(world, stack, filter, kind) =>
            {
                world.set_position(operation, Position::Down(filter + 1));
                true
            }
        _ => false,
    }
}

/// Below the last filter the operation is carried out.
fn carry_out(world: &mut World<'_>, operation: usize)
    ensures { world.new ≡ record world.old {
      store =
          spec.with_route world.old.store operation (moves.carried_out (spec.route_at world.old.store operation));
    } }
{
    if let Some(route) = world.routes.get_mut(operation) {
        route.position = Position::Up;
        route.outcome = Some(Outcome::Completed(FinalStatus::Success));
    }
}

fn lower<'a>(world: &mut World<'a>, stack: &Stack<'a>, operation: usize) -> bool
    ensures { (earlier : List Event) → ComesOf
        (moves.lower_at stack.now world.old operation (spec.route_at world.old.store operation).position) result world.new earlier earlier }
{
    match world.position(operation) {
        Position::Down(filter) if filter >= stack.len() => {
            carry_out(world, operation);
            true
        }
        _ => false,
    }
}

/// The frame of the lowest filter is taken out, and its visit begins.
fn visit_last_frame(world: &mut World<'_>, operation: usize) -> Option<Frame>
    ensures { MatchOption result (moves.last_frame (spec.route_at world.old.store operation).frames ≡ None)
        (λ f. (moves.last_frame (spec.route_at world.old.store operation).frames ≡ Some f)
        × (world.new ≡ record world.old {
          store =
              spec.with_route world.old.store operation
              (record (spec.route_at world.old.store operation) {
                position = Visiting;
                frames = moves.without_last (spec.route_at world.old.store operation).frames;
              });
        })) }
{
    match world.routes.get_mut(operation) {
        Some(route) => route.visit_last_frame(),
        None => None,
    }
}

/// The operation goes up: the post callback of its last frame starts.
fn post_last<'a>(
    world: &mut World<'a>,
    alloc: Global,
    stack: &Stack<'a>,
    operation: usize,
    events: &mut Vec<Event>,
) -> Result<bool, AllocError>
    ensures { IfOk result (λ enabled. ComesOf
        (moves.post_by stack.now world.old operation (spec.route_at world.old.store operation)
        (moves.last_frame (spec.route_at world.old.store operation).frames)) enabled world.new events.old.items events.new.items) }
{
    match visit_last_frame(world, operation) {
        Some(frame) => {
            start_post(world, alloc, stack, operation, frame, false, events)?;
            Ok(true)
        }
        None => Ok(false),
    }
}

fn post<'a>(
    world: &mut World<'a>,
    alloc: Global,
    stack: &Stack<'a>,
    operation: usize,
    events: &mut Vec<Event>,
) -> Result<bool, AllocError>
    ensures { IfOk result (λ enabled. ComesOf
        (moves.post_at stack.now world.old operation (spec.route_at world.old.store operation)
        (spec.route_at world.old.store operation).position) enabled world.new events.old.items events.new.items) }
{
    match world.position(operation) {
        Position::Up => post_last(world, alloc, stack, operation, events),
        _ => Ok(false),
    }
}

fn has_no_frame(world: &World<'_>, operation: usize) -> bool
    ensures { result ≡ moves.is_empty (spec.route_at world.now.store operation).frames }
{
    match world.routes.get(operation) {
        Some(route) => matches!(route.frames.as_slice(), []),
        None => true,
    }
}

/// Whether the operation is up, has no frame, and no filter keeps it.
fn is_done(world: &World<'_>, operation: usize) -> bool
    ensures { result ≡ moves.is_done world.now.store operation }
{
    matches!(world.position(operation), Position::Up)
        && has_no_frame(world, operation)
        && world.are_settled(operation)
}

/// An operation is cancelled once, and not when it is done.
fn cancel(world: &mut World<'_>, operation: usize) -> bool
    ensures { (earlier : List Event) → ComesOf (moves.cancel world.old operation) result world.new earlier earlier }
{
    if is_done(world, operation) || world.is_cancelled(operation) {
        return false;
    }
    world.set_cancelled(operation);
    true
}

/// Makes a move, with its events. False if it isn't enabled.
pub fn make<'a>(
    world: &mut World<'a>,
    alloc: Global,
    stack: &Stack<'a>,
    next: Move,
    events: &mut Vec<Event>,
) -> Result<bool, AllocError>
    ensures { IfOk result (λ enabled. ComesOf (moves.make stack.now world.old next) enabled world.new events.old.items events.new.items) }
{
    match next {
        Move::Arrive {
            operation,
            mode,
            file,
        } => arrive(world, alloc, operation, mode, file),
        Move::Pre { serial } => pre(world, alloc, stack, serial as usize, events),
        Move::Skip { serial } => Ok(skip(world, stack, serial as usize)),
        Move::Lower { serial } => Ok(lower(world, stack, serial as usize)),
        Move::Post { serial } => post(world, alloc, stack, serial as usize, events),
        Move::Cancel { serial } => Ok(cancel(world, serial as usize)),
        Move::Canceled { altitude, serial } => {
            let filter = stack.number_of(altitude);
            waiting::canceled(world, alloc, stack, filter, serial as usize, events)
        }
        Move::Work { item } => waiting::work(world, alloc, stack, item as usize, events),
        Move::Detach { altitude } => Ok(teardown::detach(world, stack.number_of(altitude))),
        Move::Drain { altitude, serial } => {
            let filter = stack.number_of(altitude);
            teardown::drain(world, alloc, stack, filter, serial as usize, events)
        }
        Move::Unlink { altitude, key } => {
            let filter = stack.number_of(altitude);
            teardown::unlink(world, filter, key, events)
        }
        Move::Detached { altitude } => Ok(teardown::detached(world, stack.number_of(altitude))),
    }
}
