//! Reads and writes that others see and that are no calls: the value of a context, the file of an operation, and whether it is an I/O
//! request packet. A variable that is NULL leaves all as it is, and the test then fails.

ghost use Rattle.std.specs.Prelude.{◌≡◌, ◌≢◌, List, IfOk, get_or, false, OnOk, OnErr};
ghost use Rattle.flt_model.specs.Reads as reads;
ghost use Rattle.flt_model.specs.Variables.{atom_value};
ghost use Rattle.flt_model.specs.World as machine;
ghost use Rattle.flt_machine_calls.specs.Plans.{IsPlanned, Plans, world_of};
ghost use Rattle.flt_machine_calls.specs.Own.{AreOwn};
ghost use Rattle.flt_machine_store.specs.Changes.{AreCounted, IsPossible, cancels_entries};
ghost use Rattle.flt_tree.specs.declared.filter.Statement.{Statement};

use crate::caller::Caller;
use crate::plans::{Plan, Write, made_plan};
use counted_heap::Heap;
use flt_machine_store::{Change, Store};
use flt_model::effects::{context as context_object, need, operation as operation_object};
use flt_model::{Event, Variables};
use flt_tree::{Atom, ContextVariable, NumberVariable, OperationVariable};
use std::alloc::AllocError;

/// The context's value goes to the variable.
fn value_read(
    store: &Store,
    a: usize,
    number: NumberVariable,
    context: Option<usize>,
    events: Vec<Event>,
) -> Plan
    ensures planned { (actors : List machine.Actor) (acts : List machine.Activation) (granted refused : List Statement) →
        IsPlanned (world_of store.now actors acts) a result events.items granted refused
        (reads.read_value_of (world_of store.now actors acts) a number granted context) }
    ensures possible { AreCounted store.now → IsPossible store.now result.change }
    ensures few { cancels_entries result.change ≡ false }
{
    let write = match context {
        Some(context) => Write::Number(number, store.value(context)),
        None => Write::Nothing,
    };
    made_plan(events, true, write, Change::Nothing)
}

/// The value of a context, freed or not.
pub(crate) fn read_value(
    heap: &mut Heap,
    store: &Store,
    caller: &Caller,
    number: NumberVariable,
    context: ContextVariable,
) -> Result<Plan, AllocError>
    ensures planned { IfOk result (λ plan. Plans store.now caller.now plan
        (λ w granted refused. reads.read_value w caller.now.activation number context granted)) }
    ensures own { IfOk result (λ plan. AreOwn caller.now.activation plan.events) }
    ensures possible { IfOk result (λ plan. AreCounted store.now → IsPossible store.now plan.change) }
    ensures few { IfOk result (λ plan. cancels_entries plan.change ≡ false) }
    ensures granted { OnOk result (heap.new ≡ heap.old) }
    ensures memory { OnErr result (heap.new ≢ heap.old) }
{
    let a = caller.activation;
    let named = caller.standing.context(context);
    let mut events = Vec::new(heap.alloc());
    need(heap, a, &[context_object(named)], &mut events)?;
    Ok(value_read(store, a, number, named, events))
}

/// The file goes to the variable.
fn file_read(
    store: &Store,
    a: usize,
    number: NumberVariable,
    visit: Option<usize>,
    events: Vec<Event>,
) -> Plan
    ensures planned { (actors : List machine.Actor) (acts : List machine.Activation) (granted refused : List Statement) →
        IsPlanned (world_of store.now actors acts) a result events.items granted refused
        (reads.read_file_of (world_of store.now actors acts) a number granted visit) }
    ensures possible { AreCounted store.now → IsPossible store.now result.change }
    ensures few { cancels_entries result.change ≡ false }
{
    let write = match visit {
        Some(visit) => Write::Number(number, u64::from(store.arrival_of(visit).file)),
        None => Write::Nothing,
    };
    made_plan(events, true, write, Change::Nothing)
}

/// The file of an operation.
pub(crate) fn read_file(
    heap: &mut Heap,
    store: &Store,
    caller: &Caller,
    number: NumberVariable,
    operation: OperationVariable,
) -> Result<Plan, AllocError>
    ensures planned { IfOk result (λ plan. Plans store.now caller.now plan
        (λ w granted refused. reads.read_file w caller.now.activation number operation granted)) }
    ensures own { IfOk result (λ plan. AreOwn caller.now.activation plan.events) }
    ensures possible { IfOk result (λ plan. AreCounted store.now → IsPossible store.now plan.change) }
    ensures few { IfOk result (λ plan. cancels_entries plan.change ≡ false) }
    ensures granted { OnOk result (heap.new ≡ heap.old) }
    ensures memory { OnErr result (heap.new ≢ heap.old) }
{
    let a = caller.activation;
    let visit = caller.standing.operation(operation);
    let mut events = Vec::new(heap.alloc());
    need(heap, a, &[operation_object(visit)], &mut events)?;
    Ok(file_read(store, a, number, visit, events))
}

/// A written value: an atom, and its number.
#[derive(Clone, Copy)]
struct AtomValue {
    atom: Atom,
    value: u64,
}

/// The value goes to the context.
fn value_written(
    store: &Store,
    a: usize,
    written: AtomValue,
    context: Option<usize>,
    events: Vec<Event>,
) -> Plan
    ensures planned { (actors : List machine.Actor) (acts : List machine.Activation) (granted refused : List Statement) →
        atom_value (get_or acts a machine.nobody) written.atom ≡ written.value →
        IsPlanned (world_of store.now actors acts) a result events.items granted refused
        (reads.write_value_of (world_of store.now actors acts) a written.atom granted context) }
    ensures possible { AreCounted store.now → IsPossible store.now result.change }
    ensures few { cancels_entries result.change ≡ false }
{
    let change = match context {
        Some(context) => Change::Write(context, written.value),
        None => Change::Nothing,
    };
    made_plan(events, true, Write::Nothing, change)
}

/// A value is written to a context.
pub(crate) fn write_value(
    heap: &mut Heap,
    store: &Store,
    caller: &Caller,
    context: ContextVariable,
    value: Atom,
) -> Result<Plan, AllocError>
    ensures planned { IfOk result (λ plan. Plans store.now caller.now plan
        (λ w granted refused. reads.write_value w caller.now.activation context value granted)) }
    ensures own { IfOk result (λ plan. AreOwn caller.now.activation plan.events) }
    ensures possible { IfOk result (λ plan. AreCounted store.now → IsPossible store.now plan.change) }
    ensures few { IfOk result (λ plan. cancels_entries plan.change ≡ false) }
    ensures granted { OnOk result (heap.new ≡ heap.old) }
    ensures memory { OnErr result (heap.new ≢ heap.old) }
{
    let a = caller.activation;
    let named = caller.standing.context(context);
    let written = AtomValue {
        atom: value,
        value: caller.standing.atom(value),
    };
    let mut events = Vec::new(heap.alloc());
    need(heap, a, &[context_object(named)], &mut events)?;
    Ok(value_written(store, a, written, named, events))
}

/// By the mode of the visit's operation.
fn irp_tested(store: &Store, a: usize, visit: Option<usize>, events: Vec<Event>) -> Plan
    ensures planned { (actors : List machine.Actor) (acts : List machine.Activation) (granted refused : List Statement) →
        IsPlanned (world_of store.now actors acts) a result events.items granted refused
        (reads.test_irp_of (world_of store.now actors acts) a granted refused visit) }
    ensures possible { AreCounted store.now → IsPossible store.now result.change }
    ensures few { cancels_entries result.change ≡ false }
{
    let holds = match visit {
        Some(visit) => store.arrival_of(visit).mode.is_irp(),
        None => false,
    };
    made_plan(events, holds, Write::Nothing, Change::Nothing)
}

/// Whether the operation is an I/O request packet.
pub(crate) fn test_irp(heap: &mut Heap, store: &Store, caller: &Caller) -> Result<Plan, AllocError>
    ensures planned { IfOk result (λ plan. Plans store.now caller.now plan
        (λ w granted refused. reads.test_irp w caller.now.activation granted refused)) }
    ensures own { IfOk result (λ plan. AreOwn caller.now.activation plan.events) }
    ensures possible { IfOk result (λ plan. AreCounted store.now → IsPossible store.now plan.change) }
    ensures few { IfOk result (λ plan. cancels_entries plan.change ≡ false) }
    ensures granted { OnOk result (heap.new ≡ heap.old) }
    ensures memory { OnErr result (heap.new ≢ heap.old) }
{
    let a = caller.activation;
    let visit = caller.standing.operation(OperationVariable::Data);
    let mut events = Vec::new(heap.alloc());
    need(heap, a, &[operation_object(visit)], &mut events)?;
    Ok(irp_tested(store, a, visit, events))
}
