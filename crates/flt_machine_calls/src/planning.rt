//! The plan of an activation's next instruction.

ghost use Rattle.std.specs.Prelude.{◌≡◌, ◌≢◌, [], List, true, false, Some, IfOk, OnOk, OnErr};
ghost use Rattle.flt_machine_calls.specs.Own.{AreOwn};
ghost use Rattle.flt_machine_calls.specs.Plans.{IsCaller, IsPlanned, Plans, PlansStep, TakesNone, is_end, world_of, choice_of, is_ending};
ghost use Rattle.flt_machine_calls.specs.declared.plans.Write.TheVariants as write;
ghost use Rattle.flt_machine_frames.specs.Loading.{AreLoaded, instruction_in};
ghost use Rattle.flt_graph.specs.declared.instruction.ResolvedCall.TheVariants as resolved;
ghost use Rattle.flt_model.specs.Effects.{Step};
ghost use Rattle.flt_model.specs.Program.{callbacks_at};
ghost use Rattle.flt_model.specs.Steps as steps;
ghost use Rattle.flt_model.specs.World as machine;
ghost use Rattle.flt_model.specs.declared.event.Event.{Event};
ghost use Rattle.flt_machine_store.specs.Changes.{AreCounted, IsPossible, cancels_entries};
ghost use Rattle.flt_machine_store.specs.declared.change.Change.TheVariants.{Nothing};
ghost use Rattle.flt_tree.specs.Registered.{numbered};
ghost use Rattle.flt_tree.specs.declared.filter.FallibleCall.{FallibleCall};
ghost use Rattle.flt_tree.specs.declared.filter.Filter.{Filter};
ghost use Rattle.flt_tree.specs.declared.filter.PlainCall.{PlainCall};
ghost use Rattle.flt_tree.specs.declared.filter.Routine.{Routine};
ghost use Rattle.flt_tree.specs.declared.filter.Statement.{Statement};

use crate::caller::Caller;
use crate::plans::{Plan, Write, made_plan};
use crate::{contexts, locking, queueing, reads, settling};
use counted_heap::Heap;
use flt_graph::{Instruction, ResolvedCall};
use flt_machine_frames::{Loaded, standings_have_points};
use flt_machine_store::{Change, Store};
use flt_tree::{Action, FallibleCall, PlainCall, Test};
use std::alloc::{AllocError, Global};

/// The plan of an instruction that can't be at a point, or that no other activation sees: it does nothing.
fn nothing(alloc: Global) -> Plan
    ensures events { result.events ≡ [] }
    ensures change { result.change ≡ Nothing }
    ensures lasts { is_end result.write ≡ false }
    ensures write { result.write ≡ write.Nothing }
{
    made_plan(Vec::new(alloc), true, Write::Nothing, Change::Nothing)
}

/// The plan of an action that others see.
fn plan_action(
    heap: &mut Heap,
    store: &Store,
    caller: &Caller,
    action: Action,
) -> Result<Plan, AllocError>
    ensures planned { (p : List Filter) (t : List Event) (actors : List machine.Actor) (acts : List machine.Activation)
        (granted refused : List Statement) (step : Step) →
        IsCaller actors acts caller.now →
        steps.act_step p t (world_of store.now actors acts) caller.now.activation granted action ≡ Some step →
        IfOk result (λ plan. IsPlanned (world_of store.now actors acts) caller.now.activation plan [] granted refused step) }
    ensures lasts { IfOk result (λ plan. is_end plan.write ≡ false) }
    ensures takes { IfOk result (λ plan. TakesNone caller.now.standing.locks plan.write) }
    ensures own { IfOk result (λ plan. AreOwn caller.now.activation plan.events) }
    ensures possible { IfOk result (λ plan. AreCounted store.now → IsPossible store.now plan.change) }
    ensures few { IfOk result (λ plan. cancels_entries plan.change ≡ false) }
    ensures granted { OnOk result (heap.new ≡ heap.old) }
    ensures memory { OnErr result (heap.new ≢ heap.old) }
{
    match action {
        Action::ReadValue(number, context) => {
            reads::read_value(heap, store, caller, number, context)
        }
        Action::ReadFile(number, operation) => {
            reads::read_file(heap, store, caller, number, operation)
        }
        Action::WriteValue(context, value) => {
            reads::write_value(heap, store, caller, context, value)
        }
        _ => Ok(nothing(heap.alloc())),
    }
}

/// The plan of a test that others see.
fn plan_test(
    heap: &mut Heap,
    store: &Store,
    caller: &Caller,
    test: Test,
) -> Result<Plan, AllocError>
    ensures planned { (p : List Filter) (t : List Event) (actors : List machine.Actor) (acts : List machine.Activation)
        (granted refused : List Statement) (step : Step) →
        IsCaller actors acts caller.now →
        steps.test_step p t (world_of store.now actors acts) caller.now.activation granted refused test ≡ Some step →
        IfOk result (λ plan. IsPlanned (world_of store.now actors acts) caller.now.activation plan [] granted refused step) }
    ensures lasts { IfOk result (λ plan. is_end plan.write ≡ false) }
    ensures takes { IfOk result (λ plan. TakesNone caller.now.standing.locks plan.write) }
    ensures own { IfOk result (λ plan. AreOwn caller.now.activation plan.events) }
    ensures possible { IfOk result (λ plan. AreCounted store.now → IsPossible store.now plan.change) }
    ensures few { IfOk result (λ plan. cancels_entries plan.change ≡ false) }
    ensures granted { OnOk result (heap.new ≡ heap.old) }
    ensures memory { OnErr result (heap.new ≢ heap.old) }
{
    match test {
        Test::IsIrp => reads::test_irp(heap, store, caller),
        _ => Ok(nothing(heap.alloc())),
    }
}

/// The plan of a call that always succeeds.
fn plan_plain(
    heap: &mut Heap,
    loaded: &Loaded,
    store: &Store,
    caller: &Caller,
    call: PlainCall,
) -> Result<Plan, AllocError>
    ensures planned { (p : List Filter) (t : List Event) → AreLoaded p loaded.now →
        IfOk result (λ plan. Plans store.now caller.now plan
        (λ w granted refused. steps.plain_step p t w caller.now.activation granted call)) }
    ensures takes { IfOk result (λ plan. TakesNone caller.now.standing.locks plan.write) }
    ensures own { IfOk result (λ plan. AreOwn caller.now.activation plan.events) }
    ensures possible { IfOk result (λ plan. AreCounted store.now → IsPossible store.now plan.change) }
    ensures few { IfOk result (λ plan. cancels_entries plan.change ≡ false) }
    ensures granted { OnOk result (heap.new ≡ heap.old) }
    ensures memory { OnErr result (heap.new ≢ heap.old) }
{
    match call {
        PlainCall::DeleteContext(context) => contexts::delete(heap, store, caller, context),
        PlainCall::ReferenceContext(context, output) => {
            contexts::reference(heap, store, caller, context, output)
        }
        PlainCall::ReleaseContext(context) => contexts::release(heap, store, caller, context),
        PlainCall::AcquireLock(kind, lock) => locking::acquire(heap, store, caller, kind, lock),
        PlainCall::AcquirePushLockShared(lock) => {
            locking::acquire_shared(heap, store, caller, lock)
        }
        PlainCall::ReleaseLock(kind, lock) => {
            locking::release_lock(heap, store, caller, kind, lock)
        }
        PlainCall::CompletePendedPreOperation(operation, status) => {
            settling::complete_pre(heap, loaded, store, caller, operation, status)
        }
        PlainCall::CompletePendedPostOperation => {
            settling::complete_post(heap, loaded, store, caller)
        }
    }
}

/// The plan of a call that can fail.
fn plan_fallible(
    heap: &mut Heap,
    store: &Store,
    caller: &Caller,
    call: FallibleCall<usize>,
    grant: bool,
) -> Result<Plan, AllocError>
    ensures planned { IfOk result (λ plan. Plans store.now caller.now plan
        (λ w granted refused. steps.numbered_step w caller.now.activation grant granted refused call)) }
    ensures own { IfOk result (λ plan. AreOwn caller.now.activation plan.events) }
    ensures possible { IfOk result (λ plan. AreCounted store.now → IsPossible store.now plan.change) }
    ensures few { IfOk result (λ plan. cancels_entries plan.change ≡ false) }
    ensures granted { OnOk result (heap.new ≡ heap.old) }
    ensures memory { OnErr result (heap.new ≢ heap.old) }
{
    match call {
        FallibleCall::AllocateContext(output) => {
            contexts::allocate(heap, store, caller, output, grant)
        }
        FallibleCall::GetContext(on, output) => contexts::get(heap, store, caller, on, output),
        FallibleCall::SetContext(on, existing, context, old) => {
            contexts::set_context(heap, store, caller, on, existing, context, old)
        }
        FallibleCall::DeleteContextOf(on, old) => contexts::delete_at(heap, store, caller, on, old),
        FallibleCall::InsertIo(context) => queueing::insert(heap, store, caller, context),
        FallibleCall::RemoveNextIo(operation, output) => {
            queueing::remove_next(heap, store, caller, operation, output)
        }
        FallibleCall::QueueDeferredIoWorkItem(routine, context) => {
            queueing::queue_deferred(heap, store, caller, routine, context, grant)
        }
        FallibleCall::QueueGenericWorkItem(routine, context) => {
            queueing::queue_generic(heap, store, caller, routine, context, grant)
        }
    }
}

/// The plan of a call, of either kind.
fn plan_call(
    heap: &mut Heap,
    loaded: &Loaded,
    store: &Store,
    caller: &Caller,
    made: ResolvedCall,
    grant: bool,
) -> Result<Plan, AllocError>
    ensures plain { (p : List Filter) (t : List Event) (call : PlainCall) → AreLoaded p loaded.now → made ≡ resolved.Plain call →
        IfOk result (λ plan. Plans store.now caller.now plan
        (λ w granted refused. steps.plain_step p t w caller.now.activation granted call)) }
    ensures fallible { (p : List Filter) (t : List Event) (call : FallibleCall Routine) → AreLoaded p loaded.now →
        made ≡ resolved.Fallible (numbered (callbacks_at p caller.now.filter) call) →
        IfOk result (λ plan. Plans store.now caller.now plan
        (λ w granted refused. steps.fallible_step p t w caller.now.activation (choice_of call grant) granted refused call)) }
    ensures lasts { IfOk result (λ plan. (p : List Filter) → AreLoaded p loaded.now → is_end plan.write ≡ false) }
    ensures takes { IfOk result (λ plan. TakesNone caller.now.standing.locks plan.write) }
    ensures own { IfOk result (λ plan. AreOwn caller.now.activation plan.events) }
    ensures possible { IfOk result (λ plan. AreCounted store.now → IsPossible store.now plan.change) }
    ensures few { IfOk result (λ plan. cancels_entries plan.change ≡ false) }
    ensures granted { OnOk result (heap.new ≡ heap.old) }
    ensures memory { OnErr result (heap.new ≢ heap.old) }
{
    match made {
        ResolvedCall::Plain(call) => plan_plain(heap, loaded, store, caller, call),
        ResolvedCall::Fallible(call) => plan_fallible(heap, store, caller, call, grant),
    }
}

/// The plan of the caller's next step. `grant` is the system's choice, if the step leaves one. The store isn't changed.
pub fn plan_step(
    heap: &mut Heap,
    loaded: &Loaded,
    store: &Store,
    caller: &Caller,
    grant: bool,
) -> Result<Plan, AllocError>
    ensures planned { IfOk result (PlansStep loaded.now store.now caller.now grant) }
    ensures ends { IfOk result (λ plan. (p : List Filter) → AreLoaded p loaded.now →
        is_end plan.write ≡ is_ending
        (instruction_in loaded.now caller.now.filter caller.now.standing.callback caller.now.standing.point)) }
    ensures takes { IfOk result (λ plan. TakesNone caller.now.standing.locks plan.write) }
    ensures own { IfOk result (λ plan. AreOwn caller.now.activation plan.events) }
    ensures possible { IfOk result (λ plan. AreCounted store.now → IsPossible store.now plan.change) }
    ensures few { IfOk result (λ plan. cancels_entries plan.change ≡ false) }
    ensures granted { OnOk result (heap.new ≡ heap.old) }
    ensures memory { OnErr result (heap.new ≢ heap.old) }
{
    standings_have_points();
    let standing = &caller.standing;
    match loaded.instruction(caller.filter, standing.callback, standing.point) {
        Instruction::Act(action, _) => plan_action(heap, store, caller, action),
        Instruction::Call(made, _, _) => plan_call(heap, loaded, store, caller, made, grant),
        Instruction::Test(test, _, _) => plan_test(heap, store, caller, test),
        Instruction::Repeat(_, _, _) => Ok(nothing(heap.alloc())),
        Instruction::Return(status) => settling::returns(heap, loaded, store, caller, status),
        Instruction::End => settling::returns(heap, loaded, store, caller, None),
    }
}
