//! The callbacks of cancelled queue entries and of work items.

ghost use Rattle.std.specs.Prelude.{◌≡◌, find, IfOk};
ghost use Rattle.flt_model.specs.Moves as moves;
ghost use Rattle.flt_model.specs.World as spec;
ghost use Rattle.flt_replay_world.specs.Happening.{ComesOf};

use crate::starting::{Start, start_activation};
use flt_model::{Event, Item};
use flt_replay_records::Actor;
use flt_replay_world::{Stack, World};
use flt_rules::Place;
use std::alloc::{AllocError, Global};

/// The entry is taken out, and CompleteCanceledIo starts with it.
fn canceled_by<'a>(
    world: &mut World<'a>,
    alloc: Global,
    stack: &Stack<'a>,
    filter: usize,
    operation: usize,
    events: &mut Vec<Event>,
) -> Result<bool, AllocError>
    ensures { IfOk result (λ enabled. ComesOf
        (moves.canceled_by stack.now world.old filter operation
        (find (moves.is_entry_of world.old.store operation) (spec.queue_at world.old.store filter))) enabled world.new
        events.old.items events.new.items) }
{
    match world.take_entry(alloc, filter, operation)? {
        Some(entry) => {
            let start = Start {
                actor: Actor::of(filter, Place::Canceled, false)?,
                body: stack.canceled_body(filter),
                visit: Some(entry.visit),
                context: entry.context,
            };
            start_activation(world, alloc, start, events)?;
            Ok(true)
        }
        None => Ok(false),
    }
}

/// An entry of an operation that is cancelled, or of a filter that is being detached.
pub(crate) fn canceled<'a>(
    world: &mut World<'a>,
    alloc: Global,
    stack: &Stack<'a>,
    filter: usize,
    operation: usize,
    events: &mut Vec<Event>,
) -> Result<bool, AllocError>
    ensures { IfOk result (λ enabled. ComesOf
        (moves.canceled stack.now world.old filter operation) enabled world.new events.old.items events.new.items) }
{
    if world.is_cancelled(operation) || world.is_detaching(filter) {
        canceled_by(world, alloc, stack, filter, operation, events)
    } else {
        Ok(false)
    }
}

/// A work item is taken out, and its routine starts.
pub(crate) fn work<'a>(
    world: &mut World<'a>,
    alloc: Global,
    stack: &Stack<'a>,
    number: usize,
    events: &mut Vec<Event>,
) -> Result<bool, AllocError>
    ensures { IfOk result (λ enabled. ComesOf
        (moves.work_by stack.now world.old number (spec.item_at world.old.store number)) enabled world.new events.old.items
        events.new.items) }
{
    match world.take_item(number) {
        Some(item) => {
            let Item {
                filter,
                routine,
                visit,
                context,
            } = item;
            let start = Start {
                actor: Actor::of(filter, stack.place_at(filter, routine), false)?,
                body: stack.body_at(filter, routine),
                visit,
                context,
            };
            start_activation(world, alloc, start, events)?;
            Ok(true)
        }
        None => Ok(false),
    }
}
