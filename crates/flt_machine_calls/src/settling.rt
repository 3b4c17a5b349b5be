//! Calls that complete an operation, and the end of a callback.

ghost use Rattle.std.specs.Prelude.{◌≡◌, ◌≢◌, true, ◌++◌, [], List, Some, IfOk, OnOk, nat_lt, option_map, false, OnErr};
ghost use Rattle.flt_rules.specs.Place.{answers};
ghost use Rattle.flt_rules.specs.declared.held.HeldLock.{HeldLock};
ghost use Rattle.flt_model.specs.Calls as calls;
ghost use Rattle.flt_model.specs.Returns as spec;
ghost use Rattle.flt_model.specs.Settling as settling;
ghost use Rattle.flt_model.specs.Trace.{is_held};
ghost use Rattle.flt_model.specs.Variables.{named_in, operation_in};
ghost use Rattle.flt_model.specs.World as machine;
ghost use Rattle.flt_model.specs.declared.event.Answer.TheVariants.{CompletesPost, CompletesPre};
ghost use Rattle.flt_model.specs.declared.event.Event.{Event};
ghost use Rattle.flt_model.specs.declared.event.Object.TheVariants.{Visit};
ghost use Rattle.flt_machine_frames.specs.Loading.{AreLoaded};
ghost use Rattle.flt_machine_frames.specs.Standings.{activation_with};
ghost use Rattle.flt_tree.specs.Filter as tree;
ghost use Rattle.flt_tree.specs.Variable.{whose};
ghost use Rattle.flt_tree.specs.declared.filter.Filter.{Filter};
ghost use Rattle.flt_tree.specs.declared.filter.Statement.{Statement};
ghost use Rattle.flt_tree.specs.declared.variable.OperationVariable.TheVariants.{Data};
ghost use Rattle.flt_machine_calls.specs.Plans.{IsPlanned, TakesNone, is_end, Plans, PlansBy, world_of};
ghost use Rattle.flt_machine_calls.specs.Completing.{IsSettledBy, completes, completion_told, settled_told};
ghost use Rattle.flt_machine_calls.specs.Returning.{IsReturning, context_told, status_told, visit_told};
ghost use Rattle.flt_machine_calls.specs.Own.{AreOwn};
ghost use Rattle.flt_machine_store.specs.Changes.{AreCounted, IsPossible, cancels_entries};

use crate::caller::Caller;
use crate::plans::{Plan, Write, made_plan};
use counted_heap::Heap;
use flt_machine_frames::{Loaded, Standing};
use flt_machine_store::{Change, Store};
use flt_model::effects::{CallOperands, context, lose_context, need, need_named};
use flt_model::{Answer, Event, Object, Variables, Way};
use flt_rules::{Call, Stage};
use flt_tree::{ContextVariable, OperationVariable, Status, named_context};
use std::alloc::AllocError;

/// The context that an optional operand names; none if the call hasn't the operand.
pub(crate) fn named_in(
    standing: &Standing,
    variable: Option<ContextVariable>,
) -> Option<Option<usize>>
    ensures { result ≡ named_in (activation_with standing.now []) variable }
{
    match variable {
        Some(variable) => Some(standing.context(variable)),
        None => None,
    }
}

/// A context that is named, and not NULL.
fn there(named: Option<Option<usize>>) -> Option<usize>
    ensures { result ≡ spec.there named }
{
    match named {
        Some(context) => context,
        None => None,
    }
}

/// Where an answer leads the operation of a visit.
fn way_of(loaded: &Loaded, store: &Store, visit: usize, answer: Answer) -> Way
    ensures { (p : List Filter) → AreLoaded p loaded.now → result ≡ settling.way_of p store.now visit answer }
{
    let returned = answer.is_returned();
    let status = answer.status();
    let at = store.visit(visit);
    match at.stage {
        Stage::Pre => {
            let kind = store.arrival_of(visit).kind;
            Way::before(loaded.has_post(at.filter, kind), returned, status)
        }
        Stage::Post => Way::after(returned, status),
    }
}

// ---- completion

/// How a visit is settled: the visit, the context for a frame, and where its operation is led.
#[derive(Clone, Copy)]
struct Settlement {
    visit: usize,
    context: Option<usize>,
    way: Way,
}

/// A call that completes an operation: the call, the status that it gives, its operands, and the visit that it settles.
#[derive(Clone, Copy)]
struct Completion {
    call: Call,
    answer: Option<Answer>,
    named: CallOperands,
    settled: Option<Settlement>,
}

/// The visit is given back and settled; a frame takes the context over.
fn tell_settled(
    heap: &mut Heap,
    store: &Store,
    a: usize,
    settled: Settlement,
    events: &mut Vec<Event>,
) -> Result<(), AllocError>
    ensures told { OnOk result (events.new.items ≡ events.old.items ++ settled_told store.now a settled) }
    ensures granted { OnOk result (heap.new ≡ heap.old) }
    ensures memory { OnErr result (heap.new ≢ heap.old) }
{
    heap.push(events, Event::Lose(a, Object::Visit(settled.visit)))?;
    if store.makes_frame(settled.visit, settled.way) {
        lose_context(heap, a, settled.context, events)?;
    }
    heap.push(events, Event::Settle(settled.visit))?;
    Ok(())
}

/// The events of the call before its effect.
fn tell_completion(
    heap: &mut Heap,
    a: usize,
    completion: Completion,
    events: &mut Vec<Event>,
) -> Result<(), AllocError>
    ensures told { OnOk result (events.new.items ≡ events.old.items ++ completion_told a completion) }
    ensures granted { OnOk result (heap.new ≡ heap.old) }
    ensures memory { OnErr result (heap.new ≢ heap.old) }
{
    heap.push(events, Event::Call(a, completion.call))?;
    if let Some(answer) = completion.answer {
        heap.push(events, Event::Status(a, answer))?;
    }
    need_named(heap, a, completion.named, events)
}

/// The plan of a call that completes an operation, by the reads of the activation.
fn plan_completion(
    heap: &mut Heap,
    store: &Store,
    a: usize,
    completion: Completion,
) -> Result<Plan, AllocError>
    ensures planned { IfOk result (λ plan. (actors : List machine.Actor) (acts : List machine.Activation)
        (granted refused : List Statement) →
        IsPlanned (world_of store.now actors acts) a plan [] granted refused
        (completes (world_of store.now actors acts) a completion granted)) }
    ensures takes { IfOk result (λ plan. (locks : List HeldLock) → TakesNone locks plan.write) }
    ensures possible { IfOk result (λ plan. IsPossible store.now plan.change) }
    ensures few { IfOk result (λ plan. cancels_entries plan.change ≡ false) }
    ensures granted { OnOk result (heap.new ≡ heap.old) }
    ensures memory { OnErr result (heap.new ≢ heap.old) }
{
    let mut events = Vec::new(heap.alloc());
    tell_completion(heap, a, completion, &mut events)?;
    match completion.settled {
        Some(settled) => {
            tell_settled(heap, store, a, settled, &mut events)?;
            let change = Change::Settle(settled.visit, settled.context, settled.way);
            Ok(made_plan(events, true, Write::Nothing, change))
        }
        None => Ok(made_plan(events, true, Write::Nothing, Change::Nothing)),
    }
}

/// The answer of FltCompletePendedPreOperation.
fn pre_answer(variable: OperationVariable, visit: Option<usize>, status: Status) -> Option<Answer>
    ensures { result ≡ option_map (λ v. CompletesPre (whose variable) v status) visit }
{
    match visit {
        Some(visit) => Some(Answer::completes_pre(variable, visit, status)),
        None => None,
    }
}

/// The answer of FltCompletePendedPostOperation.
fn post_answer(visit: Option<usize>) -> Option<Answer>
    ensures { result ≡ option_map CompletesPost visit }
{
    match visit {
        Some(visit) => Some(Answer::CompletesPost { visit }),
        None => None,
    }
}

/// The visit that an answer settles; none if the context is NULL.
fn settled_by(
    loaded: &Loaded,
    store: &Store,
    named: CallOperands,
    answer: Option<Answer>,
) -> Option<Settlement>
    ensures { (p : List Filter) → AreLoaded p loaded.now → IsSettledBy p store.now named answer result }
{
    match (named.visit, named.context, answer) {
        (Some(visit), None, Some(answer)) => Some(Settlement {
            visit,
            context: None,
            way: way_of(loaded, store, visit, answer),
        }),
        (Some(visit), Some(Some(x)), Some(answer)) => Some(Settlement {
            visit,
            context: Some(x),
            way: way_of(loaded, store, visit, answer),
        }),
        _ => None,
    }
}

/// FltCompletePendedPreOperation, of the given operation or of one that was removed from the queue.
pub(crate) fn complete_pre(
    heap: &mut Heap,
    loaded: &Loaded,
    store: &Store,
    caller: &Caller,
    operation: OperationVariable,
    status: Status,
) -> Result<Plan, AllocError>
    ensures planned { IfOk result (λ plan. (p : List Filter) → AreLoaded p loaded.now →
        Plans store.now caller.now plan (λ w granted refused. calls.complete_pre w caller.now.activation p operation status granted)) }
    ensures takes { IfOk result (λ plan. TakesNone caller.now.standing.locks plan.write) }
    ensures own { IfOk result (λ plan. AreOwn caller.now.activation plan.events) }
    ensures possible { IfOk result (λ plan. AreCounted store.now → IsPossible store.now plan.change) }
    ensures few { IfOk result (λ plan. cancels_entries plan.change ≡ false) }
    ensures granted { OnOk result (heap.new ≡ heap.old) }
    ensures memory { OnErr result (heap.new ≢ heap.old) }
{
    let named = CallOperands {
        visit: caller.standing.operation(operation),
        context: named_in(&caller.standing, status.context()),
    };
    let answer = pre_answer(operation, named.visit, status);
    let completion = Completion {
        call: Call::CompletePendedPreOperation(operation.whose()),
        answer,
        named,
        settled: settled_by(loaded, store, named, answer),
    };
    plan_completion(heap, store, caller.activation, completion)
}

/// FltCompletePendedPostOperation.
pub(crate) fn complete_post(
    heap: &mut Heap,
    loaded: &Loaded,
    store: &Store,
    caller: &Caller,
) -> Result<Plan, AllocError>
    ensures planned { IfOk result (λ plan. (p : List Filter) → AreLoaded p loaded.now →
        Plans store.now caller.now plan (λ w granted refused. calls.complete_post w caller.now.activation p granted)) }
    ensures takes { IfOk result (λ plan. TakesNone caller.now.standing.locks plan.write) }
    ensures own { IfOk result (λ plan. AreOwn caller.now.activation plan.events) }
    ensures possible { IfOk result (λ plan. AreCounted store.now → IsPossible store.now plan.change) }
    ensures few { IfOk result (λ plan. cancels_entries plan.change ≡ false) }
    ensures granted { OnOk result (heap.new ≡ heap.old) }
    ensures memory { OnErr result (heap.new ≢ heap.old) }
{
    let named = CallOperands {
        visit: caller.standing.operation(OperationVariable::Data),
        context: None,
    };
    let answer = post_answer(named.visit);
    let completion = Completion {
        call: Call::CompletePendedPostOperation,
        answer,
        named,
        settled: settled_by(loaded, store, named, answer),
    };
    plan_completion(heap, store, caller.activation, completion)
}

// ---- the end

/// The reads of an activation by the end of its callback: whether its callback answers for its operation, the visit that it was given and
/// whether it holds it, and the context that the status names.
#[derive(Clone, Copy)]
struct Returning {
    answers: bool,
    given: Option<usize>,
    held: bool,
    named: Option<Option<usize>>,
}

/// The visit is lost if it is held, and settled in both cases; a frame takes the context over.
fn tell_back(
    heap: &mut Heap,
    store: &Store,
    a: usize,
    held: bool,
    visit: usize,
    context: Option<usize>,
    way: Way,
    events: &mut Vec<Event>,
) -> Result<(), AllocError>
    ensures told { OnOk result (events.new.items ≡ events.old.items ++ visit_told store.now a held visit context way) }
    ensures granted { OnOk result (heap.new ≡ heap.old) }
    ensures memory { OnErr result (heap.new ≢ heap.old) }
{
    if held {
        heap.push(events, Event::Lose(a, Object::Visit(visit)))?;
    }
    if store.makes_frame(visit, way) {
        lose_context(heap, a, context, events)?;
    }
    if way.settles_visit() {
        heap.push(events, Event::Settle(visit))?;
    }
    Ok(())
}

/// A status is given, or is missing if one is needed; the context that goes with it is used.
fn tell_status(
    heap: &mut Heap,
    a: usize,
    answers: bool,
    named: Option<Option<usize>>,
    status: Option<Status>,
    events: &mut Vec<Event>,
) -> Result<(), AllocError>
    ensures told { OnOk result (events.new.items ≡ events.old.items ++ (status_told a answers status ++ context_told a named)) }
    ensures granted { OnOk result (heap.new ≡ heap.old) }
    ensures memory { OnErr result (heap.new ≢ heap.old) }
{
    if answers || status.is_some() {
        heap.push(events, Event::Status(a, Answer::Returned(status)))?;
    }
    match named {
        Some(x) => need(heap, a, &[context(x)], events),
        None => Ok(()),
    }
}

/// The plan of a callback's end, by the reads of the activation.
fn plan_return(
    heap: &mut Heap,
    loaded: &Loaded,
    store: &Store,
    a: usize,
    status: Option<Status>,
    r: Returning,
) -> Result<Plan, AllocError>
    ensures planned { IfOk result (λ plan. (p : List Filter) (t : List Event) (actors : List machine.Actor)
        (acts : List machine.Activation) (granted refused : List Statement) →
        AreLoaded p loaded.now → IsReturning t (world_of store.now actors acts) a status r →
        IsPlanned (world_of store.now actors acts) a plan [] granted refused (spec.returns p t (world_of store.now actors acts) a status)) }
    ensures ends { IfOk result (λ plan. is_end plan.write ≡ true) }
    ensures own { IfOk result (λ plan. AreOwn a plan.events) }
    ensures possible { IfOk result (λ plan. IsPossible store.now plan.change) }
    ensures few { IfOk result (λ plan. cancels_entries plan.change ≡ false) }
    ensures granted { OnOk result (heap.new ≡ heap.old) }
    ensures memory { OnErr result (heap.new ≢ heap.old) }
{
    let mut events = Vec::new(heap.alloc());
    tell_status(heap, a, r.answers, r.named, status, &mut events)?;
    match r.given {
        Some(visit) if r.answers => {
            let x = there(r.named);
            let way = way_of(loaded, store, visit, Answer::Returned(status));
            tell_back(heap, store, a, r.held, visit, x, way, &mut events)?;
            heap.push(&mut events, Event::End(a))?;
            Ok(made_plan(events, true, Write::End, Change::Settle(visit, x, way)))
        }
        _ => {
            heap.push(&mut events, Event::End(a))?;
            Ok(made_plan(events, true, Write::End, Change::Nothing))
        }
    }
}

fn read_at_end(caller: &Caller, status: Option<Status>) -> Returning
    ensures answers { result.answers ≡ answers caller.now.place }
    ensures given { result.given ≡ operation_in (activation_with caller.now.standing []) Data }
    ensures held { result.held ≡ nat_lt caller.now.standing.lost caller.now.standing.gained }
    ensures named { result.named ≡ named_in (activation_with caller.now.standing []) (tree.named_context status) }
{
    let standing = &caller.standing;
    Returning {
        answers: caller.place.answers(),
        given: standing.operation(OperationVariable::Data),
        held: standing.lost < standing.gained,
        named: named_in(standing, named_context(status)),
    }
}

/// The end of a callback, by `return` with a status or without.
pub(crate) fn returns(
    heap: &mut Heap,
    loaded: &Loaded,
    store: &Store,
    caller: &Caller,
    status: Option<Status>,
) -> Result<Plan, AllocError>
    ensures planned { IfOk result (λ plan. (p : List Filter) → AreLoaded p loaded.now →
        PlansBy store.now caller.now plan (λ t w granted refused. spec.returns p t w caller.now.activation status)) }
    ensures ends { IfOk result (λ plan. is_end plan.write ≡ true) }
    ensures own { IfOk result (λ plan. AreOwn caller.now.activation plan.events) }
    ensures possible { IfOk result (λ plan. AreCounted store.now → IsPossible store.now plan.change) }
    ensures few { IfOk result (λ plan. cancels_entries plan.change ≡ false) }
    ensures granted { OnOk result (heap.new ≡ heap.old) }
    ensures memory { OnErr result (heap.new ≢ heap.old) }
{
    let r = read_at_end(caller, status);
    plan_return(heap, loaded, store, caller.activation, status, r)
}
