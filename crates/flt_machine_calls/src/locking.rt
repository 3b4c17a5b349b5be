//! Calls on locks.

ghost use Rattle.std.specs.Prelude.{◌≡◌, ◌≢◌, List, IfOk, false, OnOk, OnErr};
ghost use Rattle.flt_model.specs.Calls as calls;
ghost use Rattle.flt_model.specs.World as machine;
ghost use Rattle.flt_rules.specs.Held as rules;
ghost use Rattle.flt_machine_calls.specs.Following.{Follows};
ghost use Rattle.flt_machine_calls.specs.Plans.{Plans};
ghost use Rattle.flt_machine_calls.specs.Own.{AreOwn};
ghost use Rattle.flt_machine_store.specs.Changes.{AreCounted, IsPossible, cancels_entries};

use crate::caller::Caller;
use crate::plans::{Plan, Write, made_plan};
use counted_heap::Heap;
use flt_machine_frames::HeldLocks;
use flt_machine_store::{Change, Store};
use flt_model::Event;
use flt_rules::{Access, Call, LockKind, LockNumber};
use std::alloc::AllocError;

fn holds_lock(lock: LockNumber, locks: &HeldLocks) -> bool
    ensures { result ≡ rules.holds_lock lock locks.now }
{
    locks.as_slice().iter().any(|held| lock.is_same(held.lock))
}

/// The lock is the latest of the list, and the activation is one of its holders.
fn taken(caller: &Caller, lock: LockNumber, access: Access, events: Vec<Event>) -> Plan
    ensures planned { (s : machine.Store) → Follows s caller.now events.items result
        (λ w granted refused. calls.taken w caller.now.activation lock access granted) }
    ensures events { result.events ≡ events.items }
    ensures possible { (s : machine.Store) → IsPossible s result.change }
    ensures few { cancels_entries result.change ≡ false }
{
    let a = caller.activation;
    if holds_lock(lock, &caller.standing.locks) {
        made_plan(events, true, Write::Nothing, Change::Nothing)
    } else {
        made_plan(
            events,
            true,
            Write::Take(lock, access),
            Change::TakeLock(caller.filter, lock, a, access),
        )
    }
}

/// The last entry of the lock leaves the list, and the activation is none of its holders.
fn given_up(caller: &Caller, lock: LockNumber, events: Vec<Event>) -> Plan
    ensures planned { (s : machine.Store) → Follows s caller.now events.items result
        (λ w granted refused. calls.given_up w caller.now.activation lock granted) }
    ensures events { result.events ≡ events.items }
    ensures possible { (s : machine.Store) → IsPossible s result.change }
    ensures few { cancels_entries result.change ≡ false }
{
    let a = caller.activation;
    if holds_lock(lock, &caller.standing.locks) {
        made_plan(
            events,
            true,
            Write::GiveUp(lock),
            Change::GiveUpLock(caller.filter, lock, a),
        )
    } else {
        made_plan(events, true, Write::Nothing, Change::Nothing)
    }
}

/// KeAcquireSpinLock, ExAcquireFastMutex, FltAcquirePushLockExclusive: a lock that the activation holds already isn't taken again.
pub(crate) fn acquire(
    heap: &mut Heap,
    store: &Store,
    caller: &Caller,
    kind: LockKind,
    lock: LockNumber,
) -> Result<Plan, AllocError>
    ensures planned { IfOk result (λ plan. Plans store.now caller.now plan
        (λ w granted refused. calls.acquire w caller.now.activation kind lock granted)) }
    ensures own { IfOk result (λ plan. AreOwn caller.now.activation plan.events) }
    ensures possible { IfOk result (λ plan. AreCounted store.now → IsPossible store.now plan.change) }
    ensures few { IfOk result (λ plan. cancels_entries plan.change ≡ false) }
    ensures granted { OnOk result (heap.new ≡ heap.old) }
    ensures memory { OnErr result (heap.new ≢ heap.old) }
{
    let _ = store;
    let a = caller.activation;
    let mut events = Vec::new(heap.alloc());
    heap.push(&mut events, Event::Call(a, Call::AcquireLock(kind)))?;
    heap.push(&mut events, Event::Lock(a, lock))?;
    Ok(taken(caller, lock, Access::Exclusive, events))
}

/// FltAcquirePushLockShared.
pub(crate) fn acquire_shared(
    heap: &mut Heap,
    store: &Store,
    caller: &Caller,
    lock: LockNumber,
) -> Result<Plan, AllocError>
    ensures planned { IfOk result (λ plan. Plans store.now caller.now plan
        (λ w granted refused. calls.acquire_shared w caller.now.activation lock granted)) }
    ensures own { IfOk result (λ plan. AreOwn caller.now.activation plan.events) }
    ensures possible { IfOk result (λ plan. AreCounted store.now → IsPossible store.now plan.change) }
    ensures few { IfOk result (λ plan. cancels_entries plan.change ≡ false) }
    ensures granted { OnOk result (heap.new ≡ heap.old) }
    ensures memory { OnErr result (heap.new ≢ heap.old) }
{
    let _ = store;
    let a = caller.activation;
    let mut events = Vec::new(heap.alloc());
    heap.push(&mut events, Event::Call(a, Call::AcquirePushLockShared))?;
    heap.push(&mut events, Event::Lock(a, lock))?;
    Ok(taken(caller, lock, Access::Shared, events))
}

/// KeReleaseSpinLock, ExReleaseFastMutex, FltReleasePushLock: a lock that the activation doesn't hold isn't released.
pub(crate) fn release_lock(
    heap: &mut Heap,
    store: &Store,
    caller: &Caller,
    kind: LockKind,
    lock: LockNumber,
) -> Result<Plan, AllocError>
    ensures planned { IfOk result (λ plan. Plans store.now caller.now plan
        (λ w granted refused. calls.release_lock w caller.now.activation kind lock granted)) }
    ensures own { IfOk result (λ plan. AreOwn caller.now.activation plan.events) }
    ensures possible { IfOk result (λ plan. AreCounted store.now → IsPossible store.now plan.change) }
    ensures few { IfOk result (λ plan. cancels_entries plan.change ≡ false) }
    ensures granted { OnOk result (heap.new ≡ heap.old) }
    ensures memory { OnErr result (heap.new ≢ heap.old) }
{
    let _ = store;
    let a = caller.activation;
    let mut events = Vec::new(heap.alloc());
    heap.push(&mut events, Event::Call(a, Call::ReleaseLock(kind)))?;
    heap.push(&mut events, Event::Unlock(a, lock))?;
    Ok(given_up(caller, lock, events))
}
