//! Calls on contexts, and the effect of each if it is used wrongly: a variable that is NULL where an object is needed leaves all as it is,
//! and a call that can fail then fails.

ghost use Rattle.std.specs.Prelude.{◌≡◌, ◌≢◌, ◌∷◌, ◌++◌, ◌||◌, ℕ, true, false, if◌then◌else◌, is_some};
ghost use Rattle.std.specs.Prelude.{length, Some, List, IfOk, OnOk, get_or, option_map, OnErr};
ghost use Rattle.flt_model.specs.Calls as calls;
ghost use Rattle.flt_model.specs.Effects as effects;
ghost use Rattle.flt_model.specs.World as machine;
ghost use Rattle.flt_machine_calls.specs.Plans.{IsPlanned, Plans, world_of};
ghost use Rattle.flt_machine_calls.specs.Own.{AreOwn};
ghost use Rattle.flt_machine_store.specs.Changes.{AreCounted, IsPossible, cancels_entries};
ghost use Rattle.flt_tree.specs.declared.filter.Statement.{Statement};

use crate::caller::Caller;
use crate::plans::{Plan, Write, made_plan};
use counted_heap::Heap;
use flt_machine_store::{Change, Store};
use flt_model::effects::{context as context_object, need, operation as operation_object};
use flt_model::{Event, Key, Object, Variables};
use flt_rules::{Anchor, Call, Existing};
use flt_tree::{ContextVariable, OperationVariable};
use std::alloc::AllocError;

/// Where a call works: its activation and the filter of that, and the key of the link; none if the call is on the stream of `data`, which
/// is NULL.
#[derive(Clone, Copy)]
struct At {
    activation: usize,
    filter: usize,
    key: Option<Key>,
}

// ---- links

/// The key of the link that a call works on; none if it is on the stream of `data`, which is NULL.
fn key_of(store: &Store, on: Anchor, given: Option<usize>) -> Option<Key>
    ensures { (filter : ℕ) → option_map (λ k. record { filter = filter; key = k }) result ≡ calls.link_of store.now filter on given }
{
    match on {
        Anchor::Stream => match given {
            Some(visit) => Some(Key::Stream(store.arrival_of(visit).file)),
            None => None,
        },
        Anchor::Instance => Some(Key::Instance),
    }
}

/// A call on the stream works on the file of `data`.
fn need_anchor(
    heap: &mut Heap,
    a: usize,
    on: Anchor,
    given: Option<usize>,
    events: &mut Vec<Event>,
) -> Result<(), AllocError>
    ensures told { OnOk result (events.new.items ≡ events.old.items
        ++ (effects.uses a (calls.needs_of on given) ++ effects.empties a (calls.needs_of on given))) }
    ensures granted { OnOk result (heap.new ≡ heap.old) }
    ensures memory { OnErr result (heap.new ≢ heap.old) }
{
    match on {
        Anchor::Stream => need(heap, a, &[operation_object(given)], events),
        Anchor::Instance => Ok(()),
    }
}

/// The context is freed when its last reference is dropped.
fn tell_drop(
    heap: &mut Heap,
    store: &Store,
    x: usize,
    events: &mut Vec<Event>,
) -> Result<(), AllocError>
    ensures told { OnOk result (events.new.items ≡ events.old.items ++ effects.freed_by_drop store.now x) }
    ensures granted { OnOk result (heap.new ≡ heap.old) }
    ensures memory { OnErr result (heap.new ≢ heap.old) }
{
    if store.is_last(x) {
        heap.push(events, Event::Free(x))?;
    }
    Ok(())
}

/// The link's reference goes to the variable that receives it, or is dropped.
fn tell_unlink(
    heap: &mut Heap,
    store: &Store,
    a: usize,
    x: usize,
    old: Option<ContextVariable>,
    events: &mut Vec<Event>,
) -> Result<(), AllocError>
    ensures told { OnOk result (events.new.items ≡ events.old.items ++ effects.events_of_unlink a store.now x old) }
    ensures granted { OnOk result (heap.new ≡ heap.old) }
    ensures memory { OnErr result (heap.new ≢ heap.old) }
{
    match old {
        Some(_) => {
            heap.push(events, Event::Gain(a, Object::Context(x)))?;
            Ok(())
        }
        None => tell_drop(heap, store, x, events),
    }
}

// ---- a new context

/// A new context, unless the system refuses.
fn allocated(
    heap: &mut Heap,
    store: &Store,
    caller: &Caller,
    output: ContextVariable,
    grant: bool,
    mut events: Vec<Event>,
) -> Result<Plan, AllocError>
    ensures planned { IfOk result (λ plan. (actors : List machine.Actor) (acts : List machine.Activation)
        (granted refused : List Statement) → (get_or actors caller.now.activation machine.no_actor).filter ≡ caller.now.filter →
        IsPlanned (world_of store.now actors acts) caller.now.activation plan events.items granted refused
        (if grant
        then calls.allocated (world_of store.now actors acts) caller.now.activation output granted (length store.now.contexts)
        else effects.gives_nothing (world_of store.now actors acts) caller.now.activation (Some output) refused)) }
    ensures possible { IfOk result (λ plan. AreCounted store.now → IsPossible store.now plan.change) }
    ensures few { IfOk result (λ plan. cancels_entries plan.change ≡ false) }
    ensures granted { OnOk result (heap.new ≡ heap.old) }
    ensures memory { OnErr result (heap.new ≢ heap.old) }
{
    if grant {
        let number = store.contexts();
        heap.push(
            &mut events,
            Event::Gain(caller.activation, Object::Context(number)),
        )?;
        Ok(made_plan(
            events,
            true,
            Write::Output(Some(output), Some(number)),
            Change::Allocate(caller.filter),
        ))
    } else {
        Ok(made_plan(
            events,
            false,
            Write::Output(Some(output), None),
            Change::Nothing,
        ))
    }
}

/// FltAllocateContext: a new context, unless the system refuses.
pub(crate) fn allocate(
    heap: &mut Heap,
    store: &Store,
    caller: &Caller,
    output: ContextVariable,
    grant: bool,
) -> Result<Plan, AllocError>
    ensures planned { IfOk result (λ plan. Plans store.now caller.now plan
        (λ w granted refused. calls.allocate w caller.now.activation output grant granted refused)) }
    ensures own { IfOk result (λ plan. AreOwn caller.now.activation plan.events) }
    ensures possible { IfOk result (λ plan. AreCounted store.now → IsPossible store.now plan.change) }
    ensures few { IfOk result (λ plan. cancels_entries plan.change ≡ false) }
    ensures granted { OnOk result (heap.new ≡ heap.old) }
    ensures memory { OnErr result (heap.new ≢ heap.old) }
{
    let mut events = Vec::new(heap.alloc());
    heap.push(
        &mut events,
        Event::Call(caller.activation, Call::AllocateContext),
    )?;
    allocated(heap, store, caller, output, grant, events)
}

// ---- the context that is there

/// The context is given, with one reference more; none if nothing is there.
fn got(
    heap: &mut Heap,
    store: &Store,
    a: usize,
    output: ContextVariable,
    there: Option<usize>,
    mut events: Vec<Event>,
) -> Result<Plan, AllocError>
    ensures planned { IfOk result (λ plan. (actors : List machine.Actor) (acts : List machine.Activation)
        (granted refused : List Statement) →
        IsPlanned (world_of store.now actors acts) a plan events.items granted refused
        (calls.got (world_of store.now actors acts) a output granted refused there)) }
    ensures possible { IfOk result (λ plan. AreCounted store.now → IsPossible store.now plan.change) }
    ensures few { IfOk result (λ plan. cancels_entries plan.change ≡ false) }
    ensures granted { OnOk result (heap.new ≡ heap.old) }
    ensures memory { OnErr result (heap.new ≢ heap.old) }
{
    match there {
        None => Ok(made_plan(
            events,
            false,
            Write::Output(Some(output), None),
            Change::Nothing,
        )),
        Some(x) => {
            heap.push(&mut events, Event::Gain(a, Object::Context(x)))?;
            Ok(made_plan(
                events,
                true,
                Write::Output(Some(output), Some(x)),
                Change::AddReference(x),
            ))
        }
    }
}

/// Nothing is given if `data` was needed and is NULL.
fn get_by(
    heap: &mut Heap,
    store: &Store,
    at: At,
    output: ContextVariable,
    events: Vec<Event>,
) -> Result<Plan, AllocError>
    ensures planned { IfOk result (λ plan. (actors : List machine.Actor) (acts : List machine.Activation)
        (granted refused : List Statement) → (get_or actors at.activation machine.no_actor).filter ≡ at.filter →
        IsPlanned (world_of store.now actors acts) at.activation plan events.items granted refused
        (calls.get_by (world_of store.now actors acts) at.activation output granted refused
        (option_map (λ k. record { filter = at.filter; key = k }) at.key))) }
    ensures possible { IfOk result (λ plan. AreCounted store.now → IsPossible store.now plan.change) }
    ensures few { IfOk result (λ plan. cancels_entries plan.change ≡ false) }
    ensures granted { OnOk result (heap.new ≡ heap.old) }
    ensures memory { OnErr result (heap.new ≢ heap.old) }
{
    match at.key {
        None => Ok(made_plan(events, false, Write::Nothing, Change::Nothing)),
        Some(key) => {
            let there = store.linked_at(at.filter, key);
            got(heap, store, at.activation, output, there, events)
        }
    }
}

/// FltGetStreamContext, FltGetInstanceContext.
pub(crate) fn get(
    heap: &mut Heap,
    store: &Store,
    caller: &Caller,
    on: Anchor,
    output: ContextVariable,
) -> Result<Plan, AllocError>
    ensures planned { IfOk result (λ plan. Plans store.now caller.now plan
        (λ w granted refused. calls.get w caller.now.activation on output granted refused)) }
    ensures own { IfOk result (λ plan. AreOwn caller.now.activation plan.events) }
    ensures possible { IfOk result (λ plan. AreCounted store.now → IsPossible store.now plan.change) }
    ensures few { IfOk result (λ plan. cancels_entries plan.change ≡ false) }
    ensures granted { OnOk result (heap.new ≡ heap.old) }
    ensures memory { OnErr result (heap.new ≢ heap.old) }
{
    let a = caller.activation;
    let given = caller.standing.operation(OperationVariable::Data);
    let mut events = Vec::new(heap.alloc());
    heap.push(&mut events, Event::Call(a, Call::GetContext(on)))?;
    need_anchor(heap, a, on, given, &mut events)?;
    let at = At {
        activation: a,
        filter: caller.filter,
        key: key_of(store, on, given),
    };
    get_by(heap, store, at, output, events)
}

// ---- a context is linked

/// Which context is kept if one is there, and the variable that receives the one that was there.
#[derive(Clone, Copy)]
struct Setting {
    existing: Existing,
    old: Option<ContextVariable>,
}

/// A link to be made: of a context, of a filter, there.
#[derive(Clone, Copy)]
struct Linking {
    context: usize,
    filter: usize,
    key: Key,
}

/// A context that is there stays, and is given if a variable receives it.
fn kept(
    heap: &mut Heap,
    store: &Store,
    a: usize,
    old: Option<ContextVariable>,
    y: usize,
    mut events: Vec<Event>,
) -> Result<Plan, AllocError>
    ensures planned { IfOk result (λ plan. (actors : List machine.Actor) (acts : List machine.Activation)
        (granted refused : List Statement) →
        IsPlanned (world_of store.now actors acts) a plan events.items granted refused
        (calls.kept (world_of store.now actors acts) a old refused y)) }
    ensures possible { IfOk result (λ plan. AreCounted store.now → IsPossible store.now plan.change) }
    ensures few { IfOk result (λ plan. cancels_entries plan.change ≡ false) }
    ensures granted { OnOk result (heap.new ≡ heap.old) }
    ensures memory { OnErr result (heap.new ≢ heap.old) }
{
    match old {
        None => Ok(made_plan(events, false, Write::Nothing, Change::Nothing)),
        Some(_) => {
            heap.push(&mut events, Event::Gain(a, Object::Context(y)))?;
            Ok(made_plan(
                events,
                false,
                Write::Output(old, Some(y)),
                Change::AddReference(y),
            ))
        }
    }
}

/// The context is linked if the link is free; otherwise the call keeps or replaces the context that is there.
fn set_there(
    heap: &mut Heap,
    store: &Store,
    a: usize,
    set: Setting,
    link: Linking,
    mut events: Vec<Event>,
) -> Result<Plan, AllocError>
    ensures planned { IfOk result (λ plan. (actors : List machine.Actor) (acts : List machine.Activation)
        (granted refused : List Statement) →
        IsPlanned (world_of store.now actors acts) a plan events.items granted refused
        (calls.set_there (world_of store.now actors acts) a set.existing set.old granted refused link.context
        (record { filter = link.filter; key = link.key })
        (machine.linked_at store.now (record { filter = link.filter; key = link.key })))) }
    ensures possible { IfOk result (λ plan. (machine.is_attached (machine.presence_at store.now link.filter) ≡ true) →
        (is_some (machine.context_at store.now link.context).link || machine.is_freed (machine.context_at store.now link.context)) ≡ false →
        AreCounted store.now → IsPossible store.now plan.change) }
    ensures few { IfOk result (λ plan. cancels_entries plan.change ≡ false) }
    ensures granted { OnOk result (heap.new ≡ heap.old) }
    ensures memory { OnErr result (heap.new ≢ heap.old) }
{
    match store.linked_at(link.filter, link.key) {
        None => Ok(made_plan(
            events,
            true,
            Write::Output(set.old, None),
            Change::Link(link.context, link.filter, link.key, None, set.old),
        )),
        Some(y) => match set.existing {
            Existing::Keep => kept(heap, store, a, set.old, y, events),
            Existing::Replace => {
                tell_unlink(heap, store, a, y, set.old, &mut events)?;
                Ok(made_plan(
                    events,
                    true,
                    Write::Output(set.old, Some(y)),
                    Change::Link(link.context, link.filter, link.key, Some(y), set.old),
                ))
            }
        },
    }
}

/// Nothing is set if the context or `data` is NULL.
fn set_by(
    heap: &mut Heap,
    store: &Store,
    at: At,
    set: Setting,
    named: Option<usize>,
    events: Vec<Event>,
) -> Result<Plan, AllocError>
    ensures planned { IfOk result (λ plan. (actors : List machine.Actor) (acts : List machine.Activation)
        (granted refused : List Statement) → (get_or actors at.activation machine.no_actor).filter ≡ at.filter →
        IsPlanned (world_of store.now actors acts) at.activation plan events.items granted refused
        (calls.set_by (world_of store.now actors acts) at.activation set.existing set.old granted refused named
        (option_map (λ k. record { filter = at.filter; key = k }) at.key))) }
    ensures possible { IfOk result (λ plan. AreCounted store.now → IsPossible store.now plan.change) }
    ensures few { IfOk result (λ plan. cancels_entries plan.change ≡ false) }
    ensures granted { OnOk result (heap.new ≡ heap.old) }
    ensures memory { OnErr result (heap.new ≢ heap.old) }
{
    match (named, at.key) {
        (Some(context), Some(key)) => {
            if store.cannot_set(at.filter, context) {
                Ok(made_plan(events, false, Write::Output(set.old, None), Change::Nothing))
            } else {
                let link = Linking {
                    context,
                    filter: at.filter,
                    key,
                };
                set_there(heap, store, at.activation, set, link, events)
            }
        }
        _ => Ok(made_plan(events, false, Write::Nothing, Change::Nothing)),
    }
}

/// The context, and the operation if the call is on its stream.
fn need_to_set(
    heap: &mut Heap,
    a: usize,
    on: Anchor,
    named: Option<usize>,
    given: Option<usize>,
    events: &mut Vec<Event>,
) -> Result<(), AllocError>
    ensures told { OnOk result (events.new.items ≡ events.old.items
        ++ (effects.uses a (effects.context named ∷ calls.needs_of on given) ++ effects.empties a
        (effects.context named ∷ calls.needs_of on given))) }
    ensures granted { OnOk result (heap.new ≡ heap.old) }
    ensures memory { OnErr result (heap.new ≢ heap.old) }
{
    match on {
        Anchor::Stream => need(
            heap,
            a,
            &[context_object(named), operation_object(given)],
            events,
        ),
        Anchor::Instance => need(heap, a, &[context_object(named)], events),
    }
}

/// FltSetStreamContext, FltSetInstanceContext.
pub(crate) fn set_context(
    heap: &mut Heap,
    store: &Store,
    caller: &Caller,
    on: Anchor,
    existing: Existing,
    context: ContextVariable,
    old: Option<ContextVariable>,
) -> Result<Plan, AllocError>
    ensures planned { IfOk result (λ plan. Plans store.now caller.now plan
        (λ w granted refused. calls.set_context w caller.now.activation on existing context old granted refused)) }
    ensures own { IfOk result (λ plan. AreOwn caller.now.activation plan.events) }
    ensures possible { IfOk result (λ plan. AreCounted store.now → IsPossible store.now plan.change) }
    ensures few { IfOk result (λ plan. cancels_entries plan.change ≡ false) }
    ensures granted { OnOk result (heap.new ≡ heap.old) }
    ensures memory { OnErr result (heap.new ≢ heap.old) }
{
    let a = caller.activation;
    let named = caller.standing.context(context);
    let given = caller.standing.operation(OperationVariable::Data);
    let set = Setting { existing, old };
    let mut events = Vec::new(heap.alloc());
    heap.push(&mut events, Event::Call(a, Call::SetContext(on, existing)))?;
    need_to_set(heap, a, on, named, given, &mut events)?;
    let at = At {
        activation: a,
        filter: caller.filter,
        key: key_of(store, on, given),
    };
    set_by(heap, store, at, set, named, events)
}

// ---- a link goes

/// The link's reference is given, or dropped.
fn unlinked(
    heap: &mut Heap,
    store: &Store,
    a: usize,
    old: Option<ContextVariable>,
    there: Option<usize>,
    mut events: Vec<Event>,
) -> Result<Plan, AllocError>
    ensures planned { IfOk result (λ plan. (actors : List machine.Actor) (acts : List machine.Activation)
        (granted refused : List Statement) →
        IsPlanned (world_of store.now actors acts) a plan events.items granted refused
        (calls.unlinked (world_of store.now actors acts) a old granted refused there)) }
    ensures possible { IfOk result (λ plan. AreCounted store.now → IsPossible store.now plan.change) }
    ensures few { IfOk result (λ plan. cancels_entries plan.change ≡ false) }
    ensures granted { OnOk result (heap.new ≡ heap.old) }
    ensures memory { OnErr result (heap.new ≢ heap.old) }
{
    match there {
        None => Ok(made_plan(events, false, Write::Output(old, None), Change::Nothing)),
        Some(y) => {
            tell_unlink(heap, store, a, y, old, &mut events)?;
            Ok(made_plan(
                events,
                true,
                Write::Output(old, Some(y)),
                Change::Unlink(y, old),
            ))
        }
    }
}

/// Nothing is deleted if `data` was needed and is NULL.
fn delete_by(
    heap: &mut Heap,
    store: &Store,
    at: At,
    old: Option<ContextVariable>,
    events: Vec<Event>,
) -> Result<Plan, AllocError>
    ensures planned { IfOk result (λ plan. (actors : List machine.Actor) (acts : List machine.Activation)
        (granted refused : List Statement) → (get_or actors at.activation machine.no_actor).filter ≡ at.filter →
        IsPlanned (world_of store.now actors acts) at.activation plan events.items granted refused
        (calls.delete_by (world_of store.now actors acts) at.activation old granted refused
        (option_map (λ k. record { filter = at.filter; key = k }) at.key))) }
    ensures possible { IfOk result (λ plan. AreCounted store.now → IsPossible store.now plan.change) }
    ensures few { IfOk result (λ plan. cancels_entries plan.change ≡ false) }
    ensures granted { OnOk result (heap.new ≡ heap.old) }
    ensures memory { OnErr result (heap.new ≢ heap.old) }
{
    match at.key {
        None => Ok(made_plan(events, false, Write::Nothing, Change::Nothing)),
        Some(key) => {
            let there = store.linked_at(at.filter, key);
            unlinked(heap, store, at.activation, old, there, events)
        }
    }
}

/// FltDeleteStreamContext, FltDeleteInstanceContext.
pub(crate) fn delete_at(
    heap: &mut Heap,
    store: &Store,
    caller: &Caller,
    on: Anchor,
    old: Option<ContextVariable>,
) -> Result<Plan, AllocError>
    ensures planned { IfOk result (λ plan. Plans store.now caller.now plan
        (λ w granted refused. calls.delete_at w caller.now.activation on old granted refused)) }
    ensures own { IfOk result (λ plan. AreOwn caller.now.activation plan.events) }
    ensures possible { IfOk result (λ plan. AreCounted store.now → IsPossible store.now plan.change) }
    ensures few { IfOk result (λ plan. cancels_entries plan.change ≡ false) }
    ensures granted { OnOk result (heap.new ≡ heap.old) }
    ensures memory { OnErr result (heap.new ≢ heap.old) }
{
    let a = caller.activation;
    let given = caller.standing.operation(OperationVariable::Data);
    let mut events = Vec::new(heap.alloc());
    heap.push(&mut events, Event::Call(a, Call::DeleteContextOf(on)))?;
    need_anchor(heap, a, on, given, &mut events)?;
    let at = At {
        activation: a,
        filter: caller.filter,
        key: key_of(store, on, given),
    };
    delete_by(heap, store, at, old, events)
}

/// Unlinked if it is linked; the link's reference is dropped.
fn deleted(
    heap: &mut Heap,
    store: &Store,
    a: usize,
    named: Option<usize>,
    mut events: Vec<Event>,
) -> Result<Plan, AllocError>
    ensures planned { IfOk result (λ plan. (actors : List machine.Actor) (acts : List machine.Activation)
        (granted refused : List Statement) →
        IsPlanned (world_of store.now actors acts) a plan events.items granted refused
        (calls.deleted (world_of store.now actors acts) a granted named)) }
    ensures possible { IfOk result (λ plan. AreCounted store.now → IsPossible store.now plan.change) }
    ensures few { IfOk result (λ plan. cancels_entries plan.change ≡ false) }
    ensures granted { OnOk result (heap.new ≡ heap.old) }
    ensures memory { OnErr result (heap.new ≢ heap.old) }
{
    match named {
        Some(x) if store.is_linked(x) => {
            tell_drop(heap, store, x, &mut events)?;
            Ok(made_plan(events, true, Write::Nothing, Change::Unlink(x, None)))
        }
        _ => Ok(made_plan(events, true, Write::Nothing, Change::Nothing)),
    }
}

/// FltDeleteContext.
pub(crate) fn delete(
    heap: &mut Heap,
    store: &Store,
    caller: &Caller,
    context: ContextVariable,
) -> Result<Plan, AllocError>
    ensures planned { IfOk result (λ plan. Plans store.now caller.now plan
        (λ w granted refused. calls.delete w caller.now.activation context granted)) }
    ensures own { IfOk result (λ plan. AreOwn caller.now.activation plan.events) }
    ensures possible { IfOk result (λ plan. AreCounted store.now → IsPossible store.now plan.change) }
    ensures few { IfOk result (λ plan. cancels_entries plan.change ≡ false) }
    ensures granted { OnOk result (heap.new ≡ heap.old) }
    ensures memory { OnErr result (heap.new ≢ heap.old) }
{
    let a = caller.activation;
    let named = caller.standing.context(context);
    let mut events = Vec::new(heap.alloc());
    heap.push(&mut events, Event::Call(a, Call::DeleteContext))?;
    need(heap, a, &[context_object(named)], &mut events)?;
    deleted(heap, store, a, named, events)
}

// ---- references

/// Adds a reference, and the second variable names the context too.
fn referenced(
    heap: &mut Heap,
    store: &Store,
    a: usize,
    output: ContextVariable,
    named: Option<usize>,
    mut events: Vec<Event>,
) -> Result<Plan, AllocError>
    ensures planned { IfOk result (λ plan. (actors : List machine.Actor) (acts : List machine.Activation)
        (granted refused : List Statement) →
        IsPlanned (world_of store.now actors acts) a plan events.items granted refused
        (calls.referenced (world_of store.now actors acts) a output granted named)) }
    ensures possible { IfOk result (λ plan. AreCounted store.now → IsPossible store.now plan.change) }
    ensures few { IfOk result (λ plan. cancels_entries plan.change ≡ false) }
    ensures granted { OnOk result (heap.new ≡ heap.old) }
    ensures memory { OnErr result (heap.new ≢ heap.old) }
{
    match named {
        None => Ok(made_plan(events, true, Write::Nothing, Change::Nothing)),
        Some(x) => {
            heap.push(&mut events, Event::Gain(a, Object::Context(x)))?;
            Ok(made_plan(
                events,
                true,
                Write::Output(Some(output), Some(x)),
                Change::AddReference(x),
            ))
        }
    }
}

/// FltReferenceContext.
pub(crate) fn reference(
    heap: &mut Heap,
    store: &Store,
    caller: &Caller,
    context: ContextVariable,
    output: ContextVariable,
) -> Result<Plan, AllocError>
    ensures planned { IfOk result (λ plan. Plans store.now caller.now plan
        (λ w granted refused. calls.reference w caller.now.activation context output granted)) }
    ensures own { IfOk result (λ plan. AreOwn caller.now.activation plan.events) }
    ensures possible { IfOk result (λ plan. AreCounted store.now → IsPossible store.now plan.change) }
    ensures few { IfOk result (λ plan. cancels_entries plan.change ≡ false) }
    ensures granted { OnOk result (heap.new ≡ heap.old) }
    ensures memory { OnErr result (heap.new ≢ heap.old) }
{
    let a = caller.activation;
    let named = caller.standing.context(context);
    let mut events = Vec::new(heap.alloc());
    heap.push(&mut events, Event::Call(a, Call::ReferenceContext))?;
    need(heap, a, &[context_object(named)], &mut events)?;
    referenced(heap, store, a, output, named, events)
}

/// A reference is dropped, held or not.
fn released(
    heap: &mut Heap,
    store: &Store,
    a: usize,
    named: Option<usize>,
    mut events: Vec<Event>,
) -> Result<Plan, AllocError>
    ensures planned { IfOk result (λ plan. (actors : List machine.Actor) (acts : List machine.Activation)
        (granted refused : List Statement) →
        IsPlanned (world_of store.now actors acts) a plan events.items granted refused
        (calls.released (world_of store.now actors acts) a granted named)) }
    ensures possible { IfOk result (λ plan. AreCounted store.now → IsPossible store.now plan.change) }
    ensures few { IfOk result (λ plan. cancels_entries plan.change ≡ false) }
    ensures granted { OnOk result (heap.new ≡ heap.old) }
    ensures memory { OnErr result (heap.new ≢ heap.old) }
{
    match named {
        None => Ok(made_plan(events, true, Write::Nothing, Change::Nothing)),
        Some(x) => {
            heap.push(&mut events, Event::Lose(a, Object::Context(x)))?;
            tell_drop(heap, store, x, &mut events)?;
            Ok(made_plan(events, true, Write::Nothing, Change::DropReference(x)))
        }
    }
}

/// FltReleaseContext.
pub(crate) fn release(
    heap: &mut Heap,
    store: &Store,
    caller: &Caller,
    context: ContextVariable,
) -> Result<Plan, AllocError>
    ensures planned { IfOk result (λ plan. Plans store.now caller.now plan
        (λ w granted refused. calls.release w caller.now.activation context granted)) }
    ensures own { IfOk result (λ plan. AreOwn caller.now.activation plan.events) }
    ensures possible { IfOk result (λ plan. AreCounted store.now → IsPossible store.now plan.change) }
    ensures few { IfOk result (λ plan. cancels_entries plan.change ≡ false) }
    ensures granted { OnOk result (heap.new ≡ heap.old) }
    ensures memory { OnErr result (heap.new ≢ heap.old) }
{
    let a = caller.activation;
    let named = caller.standing.context(context);
    let mut events = Vec::new(heap.alloc());
    heap.push(&mut events, Event::Call(a, Call::ReleaseContext))?;
    need(heap, a, &[context_object(named)], &mut events)?;
    released(heap, store, a, named, events)
}
