//! Calls on the cancel-safe queue and on work items: a visit or context that is handed over is no longer held, whether it was held or not.

ghost use Rattle.std.specs.Prelude.{◌≡◌, ◌≢◌, [], List, IfOk, OnOk, if◌then◌else◌, false, OnErr};
ghost use Rattle.flt_model.specs.Calls as calls;
ghost use Rattle.flt_model.specs.Effects as effects;
ghost use Rattle.flt_model.specs.Variables as variables;
ghost use Rattle.flt_model.specs.World as machine;
ghost use Rattle.flt_machine_frames.specs.Standings.{activation_with};
ghost use Rattle.flt_machine_calls.specs.Following.{Follows};
ghost use Rattle.flt_machine_calls.specs.Plans.{Plans};
ghost use Rattle.flt_machine_calls.specs.Own.{AreOwn};
ghost use Rattle.flt_machine_store.specs.Changes.{AreCounted, IsPossible, cancels_entries};
ghost use Rattle.flt_tree.specs.declared.variable.OperationVariable.TheVariants.{Data};

use crate::caller::Caller;
use crate::plans::{Plan, Write, made_plan};
use crate::settling::named_in;
use counted_heap::Heap;
use flt_machine_frames::Standing;
use flt_machine_store::{Change, Store};
use flt_model::effects::{CallOperands, gain_context, lose_context, need_named, need_optional};
use flt_model::{Event, Object, Variables};
use flt_rules::Call;
use flt_tree::{ContextVariable, OperationVariable, RemovedVariable};
use std::alloc::AllocError;

/// The operation and the context that a call with this variable hands over.
fn handed(standing: &Standing, variable: Option<ContextVariable>) -> CallOperands
    ensures visit { result.visit ≡ variables.operation_in (activation_with standing.now []) Data }
    ensures context { result.context ≡ variables.named_in (activation_with standing.now []) variable }
{
    CallOperands {
        visit: standing.operation(OperationVariable::Data),
        context: named_in(standing, variable),
    }
}

// ---- the cancel-safe queue

/// The entry takes the visit and the context over. A queue of a filter that is being detached is disabled.
fn enqueued(
    heap: &mut Heap,
    store: &Store,
    caller: &Caller,
    visit: usize,
    context: Option<usize>,
    mut events: Vec<Event>,
) -> Result<Plan, AllocError>
    ensures planned { IfOk result (λ plan. Follows store.now caller.now events.items plan
        (λ w granted refused. calls.enqueued w caller.now.activation granted refused visit context)) }
    ensures possible { IfOk result (λ plan. IsPossible store.now plan.change) }
    ensures few { IfOk result (λ plan. cancels_entries plan.change ≡ false) }
    ensures granted { OnOk result (heap.new ≡ heap.old) }
    ensures memory { OnErr result (heap.new ≢ heap.old) }
{
    if store.is_attached(caller.filter) {
        heap.push(
            &mut events,
            Event::Lose(caller.activation, Object::Visit(visit)),
        )?;
        lose_context(heap, caller.activation, context, &mut events)?;
        Ok(made_plan(
            events,
            true,
            Write::Nothing,
            Change::Insert(caller.filter, visit, context),
        ))
    } else {
        Ok(made_plan(events, false, Write::Nothing, Change::Nothing))
    }
}

/// Nothing is queued if the operation or the named context is NULL.
fn insert_by(
    heap: &mut Heap,
    store: &Store,
    caller: &Caller,
    handed: CallOperands,
    events: Vec<Event>,
) -> Result<Plan, AllocError>
    ensures planned { IfOk result (λ plan. Follows store.now caller.now events.items plan
        (λ w granted refused. calls.insert_by w caller.now.activation granted refused handed.visit handed.context)) }
    ensures possible { IfOk result (λ plan. IsPossible store.now plan.change) }
    ensures few { IfOk result (λ plan. cancels_entries plan.change ≡ false) }
    ensures granted { OnOk result (heap.new ≡ heap.old) }
    ensures memory { OnErr result (heap.new ≢ heap.old) }
{
    match (handed.visit, handed.context) {
        (None, _) | (Some(_), Some(None)) => {
            Ok(made_plan(events, false, Write::Nothing, Change::Nothing))
        }
        (Some(visit), Some(Some(context))) => {
            enqueued(heap, store, caller, visit, Some(context), events)
        }
        (Some(visit), None) => enqueued(heap, store, caller, visit, None, events),
    }
}

/// The front entry's visit and context.
fn removed(
    heap: &mut Heap,
    store: &Store,
    caller: &Caller,
    operation: RemovedVariable,
    output: ContextVariable,
    mut events: Vec<Event>,
) -> Result<Plan, AllocError>
    ensures planned { IfOk result (λ plan. Follows store.now caller.now events.items plan
        (λ w granted refused. calls.removed w caller.now.activation operation output granted refused
        (machine.queue_at store.now caller.now.filter))) }
    ensures possible { IfOk result (λ plan. IsPossible store.now plan.change) }
    ensures few { IfOk result (λ plan. cancels_entries plan.change ≡ false) }
    ensures granted { OnOk result (heap.new ≡ heap.old) }
    ensures memory { OnErr result (heap.new ≢ heap.old) }
{
    match store.front(caller.filter) {
        None => Ok(made_plan(
            events,
            false,
            Write::Removed(operation, None, output, None),
            Change::Nothing,
        )),
        Some(entry) => {
            heap.push(
                &mut events,
                Event::Gain(caller.activation, Object::Visit(entry.visit)),
            )?;
            gain_context(heap, caller.activation, entry.context, &mut events)?;
            Ok(made_plan(
                events,
                true,
                Write::Removed(operation, Some(entry.visit), output, entry.context),
                Change::RemoveNext(caller.filter),
            ))
        }
    }
}

// ---- work items

/// The routine that is queued, by its number, and whether the system grants it.
#[derive(Clone, Copy)]
struct Request {
    routine: usize,
    grant: bool,
}

/// The item takes the visit and the context over, unless the system refuses.
fn deferred(
    heap: &mut Heap,
    caller: &Caller,
    asked: Request,
    visit: usize,
    context: Option<usize>,
    mut events: Vec<Event>,
) -> Result<Plan, AllocError>
    ensures planned { IfOk result (λ plan. (s : machine.Store) → Follows s caller.now events.items plan
        (λ w granted refused. if asked.grant then calls.deferred w caller.now.activation asked.routine granted visit context
        else effects.unchanged w caller.now.activation refused)) }
    ensures possible { IfOk result (λ plan. (s : machine.Store) → IsPossible s plan.change) }
    ensures few { IfOk result (λ plan. cancels_entries plan.change ≡ false) }
    ensures granted { OnOk result (heap.new ≡ heap.old) }
    ensures memory { OnErr result (heap.new ≢ heap.old) }
{
    if asked.grant {
        heap.push(
            &mut events,
            Event::Lose(caller.activation, Object::Visit(visit)),
        )?;
        lose_context(heap, caller.activation, context, &mut events)?;
        let change = Change::Queue(caller.filter, asked.routine, Some(visit), context);
        Ok(made_plan(events, true, Write::Nothing, change))
    } else {
        Ok(made_plan(events, false, Write::Nothing, Change::Nothing))
    }
}

/// Nothing is queued if the operation or the named context is NULL, or the system refuses.
fn defer_by(
    heap: &mut Heap,
    caller: &Caller,
    asked: Request,
    handed: CallOperands,
    events: Vec<Event>,
) -> Result<Plan, AllocError>
    ensures planned { IfOk result (λ plan. (s : machine.Store) → Follows s caller.now events.items plan
        (λ w granted refused. calls.defer_by w caller.now.activation asked.routine asked.grant granted refused
        handed.visit handed.context)) }
    ensures possible { IfOk result (λ plan. (s : machine.Store) → IsPossible s plan.change) }
    ensures few { IfOk result (λ plan. cancels_entries plan.change ≡ false) }
    ensures granted { OnOk result (heap.new ≡ heap.old) }
    ensures memory { OnErr result (heap.new ≢ heap.old) }
{
    match (handed.visit, handed.context) {
        (None, _) | (Some(_), Some(None)) => {
            Ok(made_plan(events, false, Write::Nothing, Change::Nothing))
        }
        (Some(visit), Some(Some(context))) => {
            deferred(heap, caller, asked, visit, Some(context), events)
        }
        (Some(visit), None) => deferred(heap, caller, asked, visit, None, events),
    }
}

/// The item takes the context over, unless the system refuses.
fn queued(
    heap: &mut Heap,
    caller: &Caller,
    asked: Request,
    context: Option<usize>,
    mut events: Vec<Event>,
) -> Result<Plan, AllocError>
    ensures planned { IfOk result (λ plan. (s : machine.Store) → Follows s caller.now events.items plan
        (λ w granted refused. if asked.grant then calls.queued w caller.now.activation asked.routine granted context
        else effects.unchanged w caller.now.activation refused)) }
    ensures possible { IfOk result (λ plan. (s : machine.Store) → IsPossible s plan.change) }
    ensures few { IfOk result (λ plan. cancels_entries plan.change ≡ false) }
    ensures granted { OnOk result (heap.new ≡ heap.old) }
    ensures memory { OnErr result (heap.new ≢ heap.old) }
{
    if asked.grant {
        lose_context(heap, caller.activation, context, &mut events)?;
        let change = Change::Queue(caller.filter, asked.routine, None, context);
        Ok(made_plan(events, true, Write::Nothing, change))
    } else {
        Ok(made_plan(events, false, Write::Nothing, Change::Nothing))
    }
}

/// Nothing is queued if the named context is NULL, or the system refuses.
fn queue_by(
    heap: &mut Heap,
    caller: &Caller,
    asked: Request,
    named: Option<Option<usize>>,
    events: Vec<Event>,
) -> Result<Plan, AllocError>
    ensures planned { IfOk result (λ plan. (s : machine.Store) → Follows s caller.now events.items plan
        (λ w granted refused. calls.queue_by w caller.now.activation asked.routine asked.grant granted refused named)) }
    ensures possible { IfOk result (λ plan. (s : machine.Store) → IsPossible s plan.change) }
    ensures few { IfOk result (λ plan. cancels_entries plan.change ≡ false) }
    ensures granted { OnOk result (heap.new ≡ heap.old) }
    ensures memory { OnErr result (heap.new ≢ heap.old) }
{
    match named {
        Some(None) => Ok(made_plan(events, false, Write::Nothing, Change::Nothing)),
        Some(Some(context)) => queued(heap, caller, asked, Some(context), events),
        None => queued(heap, caller, asked, None, events),
    }
}

// ---- calls

/// FltCbdqInsertIo.
pub(crate) fn insert(
    heap: &mut Heap,
    store: &Store,
    caller: &Caller,
    context: Option<ContextVariable>,
) -> Result<Plan, AllocError>
    ensures planned { IfOk result (λ plan. Plans store.now caller.now plan
        (λ w granted refused. calls.insert w caller.now.activation context granted refused)) }
    ensures own { IfOk result (λ plan. AreOwn caller.now.activation plan.events) }
    ensures possible { IfOk result (λ plan. AreCounted store.now → IsPossible store.now plan.change) }
    ensures few { IfOk result (λ plan. cancels_entries plan.change ≡ false) }
    ensures granted { OnOk result (heap.new ≡ heap.old) }
    ensures memory { OnErr result (heap.new ≢ heap.old) }
{
    let handed = handed(&caller.standing, context);
    let mut events = Vec::new(heap.alloc());
    heap.push(&mut events, Event::Call(caller.activation, Call::InsertIo))?;
    need_named(heap, caller.activation, handed, &mut events)?;
    insert_by(heap, store, caller, handed, events)
}

/// FltCbdqRemoveNextIo.
pub(crate) fn remove_next(
    heap: &mut Heap,
    store: &Store,
    caller: &Caller,
    operation: RemovedVariable,
    output: ContextVariable,
) -> Result<Plan, AllocError>
    ensures planned { IfOk result (λ plan. Plans store.now caller.now plan
        (λ w granted refused. calls.remove_next w caller.now.activation operation output granted refused)) }
    ensures own { IfOk result (λ plan. AreOwn caller.now.activation plan.events) }
    ensures possible { IfOk result (λ plan. AreCounted store.now → IsPossible store.now plan.change) }
    ensures few { IfOk result (λ plan. cancels_entries plan.change ≡ false) }
    ensures granted { OnOk result (heap.new ≡ heap.old) }
    ensures memory { OnErr result (heap.new ≢ heap.old) }
{
    let mut events = Vec::new(heap.alloc());
    heap.push(
        &mut events,
        Event::Call(caller.activation, Call::RemoveNextIo),
    )?;
    removed(heap, store, caller, operation, output, events)
}

/// FltQueueDeferredIoWorkItem, of the routine of a number.
pub(crate) fn queue_deferred(
    heap: &mut Heap,
    store: &Store,
    caller: &Caller,
    routine: usize,
    context: Option<ContextVariable>,
    grant: bool,
) -> Result<Plan, AllocError>
    ensures planned { IfOk result (λ plan. Plans store.now caller.now plan
        (λ w granted refused. calls.queue_deferred w caller.now.activation routine context grant granted refused)) }
    ensures own { IfOk result (λ plan. AreOwn caller.now.activation plan.events) }
    ensures possible { IfOk result (λ plan. AreCounted store.now → IsPossible store.now plan.change) }
    ensures few { IfOk result (λ plan. cancels_entries plan.change ≡ false) }
    ensures granted { OnOk result (heap.new ≡ heap.old) }
    ensures memory { OnErr result (heap.new ≢ heap.old) }
{
    let _ = store;
    let handed = handed(&caller.standing, context);
    let mut events = Vec::new(heap.alloc());
    heap.push(
        &mut events,
        Event::Call(caller.activation, Call::QueueDeferredIoWorkItem),
    )?;
    need_named(heap, caller.activation, handed, &mut events)?;
    defer_by(heap, caller, Request { routine, grant }, handed, events)
}

/// FltQueueGenericWorkItem, of the routine of a number.
pub(crate) fn queue_generic(
    heap: &mut Heap,
    store: &Store,
    caller: &Caller,
    routine: usize,
    context: Option<ContextVariable>,
    grant: bool,
) -> Result<Plan, AllocError>
    ensures planned { IfOk result (λ plan. Plans store.now caller.now plan
        (λ w granted refused. calls.queue_generic w caller.now.activation routine context grant granted refused)) }
    ensures own { IfOk result (λ plan. AreOwn caller.now.activation plan.events) }
    ensures possible { IfOk result (λ plan. AreCounted store.now → IsPossible store.now plan.change) }
    ensures few { IfOk result (λ plan. cancels_entries plan.change ≡ false) }
    ensures granted { OnOk result (heap.new ≡ heap.old) }
    ensures memory { OnErr result (heap.new ≢ heap.old) }
{
    let _ = store;
    let named = named_in(&caller.standing, context);
    let mut events = Vec::new(heap.alloc());
    heap.push(
        &mut events,
        Event::Call(caller.activation, Call::QueueGenericWorkItem),
    )?;
    need_optional(heap, caller.activation, named, &mut events)?;
    queue_by(heap, caller, Request { routine, grant }, named, events)
}
