//! The teardown of a filter's instance.

ghost use Rattle.std.specs.Prelude.{◌≡◌, List, Some, None, find, IfOk, MatchOption};
ghost use Rattle.std.specs.List.{list_any};
ghost use Rattle.flt_model.specs.declared.event.Event.{Event};
ghost use Rattle.flt_model.specs.Moves as moves;
ghost use Rattle.flt_model.specs.World as spec;
ghost use Rattle.flt_replay_world.specs.Happening.{ComesOf};

use crate::starting::start_post;
use flt_model::{Event, Item, Key, Link, Presence};
use flt_replay_records::{Activation, Actor, Frame};
use flt_replay_world::{Stack, World};
use std::alloc::{AllocError, Global};

/// A filter is detached once.
pub(crate) fn detach(world: &mut World<'_>, filter: usize) -> bool
    ensures { (earlier : List Event) → ComesOf (moves.detach world.old filter) result world.new earlier earlier }
{
    let enabled = world.is_attached(filter);
    if enabled {
        world.set_presence(filter, Presence::Detaching);
    }
    enabled
}

/// The first frame of a filter is taken out of an operation.
fn take_frame(world: &mut World<'_>, filter: usize, operation: usize) -> Option<Frame>
    ensures { MatchOption result (find (moves.is_frame_of filter) (spec.route_at world.old.store operation).frames ≡ None)
        (λ f. (find (moves.is_frame_of filter) (spec.route_at world.old.store operation).frames ≡ Some f)
        × (world.new ≡ record world.old {
          store =
              spec.with_route world.old.store operation
              (record (spec.route_at world.old.store operation) {
                frames =
                    moves.other_frames filter (spec.route_at world.old.store operation).frames;
              });
        })) }
{
    match world.routes.get_mut(operation) {
        Some(route) => route.take_frame(filter),
        None => None,
    }
}

/// The frame is taken out, and its post callback starts with the draining flag.
fn drain_by<'a>(
    world: &mut World<'a>,
    alloc: Global,
    stack: &Stack<'a>,
    filter: usize,
    operation: usize,
    events: &mut Vec<Event>,
) -> Result<bool, AllocError>
    ensures { IfOk result (λ enabled. ComesOf
        (moves.drain_by stack.now world.old filter operation
        (find (moves.is_frame_of filter) (spec.route_at world.old.store operation).frames)) enabled world.new events.old.items
        events.new.items) }
{
    match take_frame(world, filter, operation) {
        Some(frame) => {
            start_post(world, alloc, stack, operation, frame, true, events)?;
            Ok(true)
        }
        None => Ok(false),
    }
}

/// The operation stays where it is.
pub(crate) fn drain<'a>(
    world: &mut World<'a>,
    alloc: Global,
    stack: &Stack<'a>,
    filter: usize,
    operation: usize,
    events: &mut Vec<Event>,
) -> Result<bool, AllocError>
    ensures { IfOk result (λ enabled. ComesOf
        (moves.drain stack.now world.old filter operation) enabled world.new events.old.items events.new.items) }
{
    if world.is_detaching(filter) {
        drain_by(world, alloc, stack, filter, operation, events)
    } else {
        Ok(false)
    }
}

/// The link goes, and its reference.
fn unlink_by(
    world: &mut World<'_>,
    context: Option<usize>,
    events: &mut Vec<Event>,
) -> Result<bool, AllocError>
    ensures { IfOk result (λ enabled. ComesOf (moves.unlink_by world.old context) enabled world.new events.old.items events.new.items) }
{
    match context {
        Some(context) => {
            world.unlink_context(context, events)?;
            Ok(true)
        }
        None => Ok(false),
    }
}

pub(crate) fn unlink(
    world: &mut World<'_>,
    filter: usize,
    key: Key,
    events: &mut Vec<Event>,
) -> Result<bool, AllocError>
    ensures { IfOk result (λ enabled. ComesOf (moves.unlink world.old filter key) enabled world.new events.old.items events.new.items) }
{
    if world.is_detaching(filter) {
        let context = world.linked_at(Link { filter, key });
        unlink_by(world, context, events)
    } else {
        Ok(false)
    }
}

/// Whether nothing of the filter is left: no frame, entry, item, link or activation.
fn is_drained(world: &World<'_>, filter: usize) -> bool
    ensures { result ≡ moves.is_drained world.now filter }
{
    !has_frame(world, filter)
        && world.is_queue_empty(filter)
        && !has_item(world, filter)
        && !world.has_link(filter)
        && !has_active(
            filter,
            world.actors.as_slice(),
            world.activations.as_slice(),
        )
}

fn has_frame(world: &World<'_>, filter: usize) -> bool
    ensures { result ≡ list_any (moves.has_frame filter) world.now.store.routes }
{
    world.routes.iter().any(|route| route.has_frame(filter))
}

fn has_item(world: &World<'_>, filter: usize) -> bool
    ensures { result ≡ list_any (moves.is_item_of filter) world.now.store.items }
{
    world.items().iter().any(|item| is_item_of(filter, item))
}

/// Teardown ends.
pub(crate) fn detached(world: &mut World<'_>, filter: usize) -> bool
    ensures { (earlier : List Event) → ComesOf (moves.detached world.old filter) result world.new earlier earlier }
{
    let enabled = world.is_detaching(filter) && is_drained(world, filter);
    if enabled {
        world.set_presence(filter, Presence::Detached);
    }
    enabled
}

fn is_item_of(filter: usize, item: &Option<Item>) -> bool
    ensures { result ≡ moves.is_item_of filter item.now }
{
    match item {
        Some(item) => item.filter == filter,
        None => false,
    }
}

/// Whether the filter has an activation that hasn't ended.
#[tactic(auto, using(crate::proofs::Moving::active_past))]
fn has_active(filter: usize, actors: &[Actor], activations: &[Activation<'_>]) -> bool
    ensures { result ≡ moves.has_active filter actors.now activations.now }
{
    let mut number = 0;
    while number < actors.len() && number < activations.len() {
        let actor = &actors[number];
        let activation = &activations[number];
        if actor.filter as usize == filter && !activation.has_ended() {
            return true;
        }
        number += 1;
    }
    false
}
