//! The locks of a filter: a lock that is held already isn't taken again, and one that isn't held isn't released.

ghost use Rattle.std.specs.Prelude.{◌≡◌, [], OnOk};
ghost use Rattle.flt_model.specs.Calls as calls;
ghost use Rattle.flt_model.specs.Steps as steps;
ghost use Rattle.flt_model.specs.World as spec;
ghost use Rattle.flt_rules.specs.Held as held;
ghost use Rattle.flt_replay_world.specs.Happening.{later, Happened};

use flt_model::{Event, Holder};
use flt_replay_records::Write;
use flt_replay_world::{World, push_event};
use flt_rules::{Access, Call, HeldLock, LockKind, LockNumber};
use std::alloc::AllocError;

/// Whether an activation may take a lock with this access, beside the others that hold it.
pub(crate) fn may_take(world: &World<'_>, a: usize, lock: LockNumber, access: Access) -> bool
    ensures { result ≡ steps.may_take world.now a lock access }
{
    world.is_free_for(world.filter(a), lock, a, access)
}

fn holds_lock(world: &World<'_>, a: usize, lock: LockNumber) -> bool
    ensures { result ≡ held.holds_lock lock (spec.activation_at world.now a).locks }
{
    match world.activations.get(a) {
        Some(activation) => activation.holds_lock(lock),
        None => false,
    }
}

/// The lock is the latest of the list, and the activation is one of its holders. No event is pushed.
fn taken(
    world: &mut World<'_>,
    a: usize,
    lock: LockNumber,
    access: Access,
) -> Result<(), AllocError>
    ensures { OnOk result (Happened world.new [] [] (calls.taken world.old a lock access (later world.old a))) }
{
    if holds_lock(world, a, lock) {
        return world.go_on(a, &[], Write::Nothing);
    }
    let filter = world.filter(a);
    let holder = Holder {
        activation: a,
        access,
    };
    world.go_on(a, &[], Write::Lock(HeldLock { lock, access }))?;
    world.add_holder(filter, lock, holder)
}

pub(crate) fn acquire(
    world: &mut World<'_>,
    a: usize,
    kind: LockKind,
    lock: LockNumber,
    events: &mut Vec<Event>,
) -> Result<(), AllocError>
    ensures { OnOk result (Happened world.new events.old.items events.new.items (calls.acquire world.old a kind lock (later world.old a))) }
{
    push_event(events, Event::Call(a, Call::AcquireLock(kind)))?;
    push_event(events, Event::Lock(a, lock))?;
    taken(world, a, lock, Access::Exclusive)
}

pub(crate) fn acquire_shared(
    world: &mut World<'_>,
    a: usize,
    lock: LockNumber,
    events: &mut Vec<Event>,
) -> Result<(), AllocError>
    ensures { OnOk result (Happened world.new events.old.items events.new.items
        (calls.acquire_shared world.old a lock (later world.old a))) }
{
    push_event(events, Event::Call(a, Call::AcquirePushLockShared))?;
    push_event(events, Event::Lock(a, lock))?;
    taken(world, a, lock, Access::Shared)
}

/// The last entry of the lock leaves the list, and the activation is none of its holders. No event is pushed.
fn given_up(world: &mut World<'_>, a: usize, lock: LockNumber) -> Result<(), AllocError>
    ensures { OnOk result (Happened world.new [] [] (calls.given_up world.old a lock (later world.old a))) }
{
    if !holds_lock(world, a, lock) {
        return world.go_on(a, &[], Write::Nothing);
    }
    let filter = world.filter(a);
    world.go_on(a, &[], Write::Unlock(lock))?;
    world.remove_holder(filter, lock, a);
    Ok(())
}

pub(crate) fn release_lock(
    world: &mut World<'_>,
    a: usize,
    kind: LockKind,
    lock: LockNumber,
    events: &mut Vec<Event>,
) -> Result<(), AllocError>
    ensures { OnOk result (Happened world.new events.old.items events.new.items
        (calls.release_lock world.old a kind lock (later world.old a))) }
{
    push_event(events, Event::Call(a, Call::ReleaseLock(kind)))?;
    push_event(events, Event::Unlock(a, lock))?;
    given_up(world, a, lock)
}
