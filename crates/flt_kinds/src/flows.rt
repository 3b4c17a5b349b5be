//! How statements take contexts on.

ghost use Rattle.flt_graph.specs.Points.{successor as successor_of};
ghost use Rattle.flt_kinds.specs.Flows as spec;
ghost use Rattle.std.specs.Prelude.{◌≡◌, ◌+◌, ◌≤◌, ◌++◌, map, flat_map, length, IfOk, OnOk};

use crate::slot::{Flow, Slot, Spot};
use flt_graph::{
    Action, Call, CallbackGraph, ContextVariable, Graph, Instruction, Invocation, Operation, Place,
    Test,
};
use flt_tree::named_context;
use std::alloc::{AllocError, Global};

/// `c0` to `c7`, and `arg`.
const VARIABLES: [ContextVariable; 9] = [
    ContextVariable::C0,
    ContextVariable::C1,
    ContextVariable::C2,
    ContextVariable::C3,
    ContextVariable::C4,
    ContextVariable::C5,
    ContextVariable::C6,
    ContextVariable::C7,
    ContextVariable::Arg,
];

/// The argument of a callback.
fn argument(callback: usize) -> Slot
    ensures { result ≡ spec.argument callback }
{
    let point = 0;
    Slot::Variable(Spot { callback, point }, ContextVariable::Arg)
}

/// Where the context of a flow is before the statement at a point.
pub(crate) fn source(callback: usize, point: usize, from: Option<ContextVariable>) -> Slot
    ensures { result ≡ spec.source callback point from }
{
    match from {
        Some(variable) => Slot::Variable(Spot { callback, point }, variable),
        None => Slot::Queue,
    }
}

// ---- variables that keep their contexts

fn same_context(one: ContextVariable, other: ContextVariable) -> bool
    ensures { result ≡ spec.same_context one other }
{
    one.place() == other.place()
}

fn is_context(one: ContextVariable, other: Option<ContextVariable>) -> bool
    ensures { result ≡ spec.is_context one other }
{
    match other {
        Some(other) => same_context(one, other),
        None => false,
    }
}

/// Whether a variable has after a statement, as it comes out, the context that it had before.
fn keeps(instruction: &Instruction, outcome: bool, variable: ContextVariable) -> bool
    ensures { result ≡ spec.keeps instruction.now outcome variable }
{
    match instruction {
        Instruction::Act(Action::ClearContext(cleared), _) => !same_context(variable, *cleared),
        Instruction::Call(call, _, _) => !is_context(variable, call.roles().output),
        Instruction::Test(Test::ContextIsSome(tested), _, _) => {
            outcome || !same_context(variable, *tested)
        }
        _ => true,
    }
}

/// The point to which an instruction leads by its outcome, if it leads to one.
fn successor(instruction: &Instruction, outcome: bool) -> Option<usize>
    ensures { result ≡ successor_of instruction.now outcome }
{
    match instruction {
        Instruction::Act(_, next) => Some(*next),
        Instruction::Call(_, granted, refused) | Instruction::Test(_, granted, refused) => {
            Some(if outcome { *granted } else { *refused })
        }
        Instruction::Repeat(_, body, next) => Some(if outcome { *body } else { *next }),
        Instruction::Return(_) | Instruction::End => None,
    }
}

fn stay(
    out: &mut Vec<Flow>,
    callback: usize,
    instruction: &Instruction,
    outcome: bool,
    point: usize,
    variable: ContextVariable,
) -> Result<(), AllocError>
    ensures { OnOk result (out.new.items ≡ out.old.items ++ spec.stay_flow callback instruction.now outcome point variable) }
{
    if keeps(instruction, outcome, variable) {
        out.push(Flow {
            from: Some(variable),
            to: Slot::Variable(Spot { callback, point }, variable),
        })?;
    }
    Ok(())
}

fn stay_in(
    out: &mut Vec<Flow>,
    callback: usize,
    instruction: &Instruction,
    outcome: bool,
    point: usize,
    mut variables: &[ContextVariable],
) -> Result<(), AllocError>
    ensures { OnOk result (out.new.items ≡ out.old.items
        ++ flat_map (spec.stay_flow callback instruction.now outcome point) variables.entry.now) }
{
    while let [variable, rest @ ..] = variables {
        stay(out, callback, instruction, outcome, point, *variable)?;
        variables = rest;
    }
    Ok(())
}

/// Contexts stay in variables, as a statement comes out.
#[tactic(auto, unfolding(crate::specs::Flows::stays))]
fn stays(
    out: &mut Vec<Flow>,
    callback: usize,
    instruction: &Instruction,
    outcome: bool,
) -> Result<(), AllocError>
    ensures { OnOk result (out.new.items ≡ out.old.items ++ spec.stays callback instruction.now outcome) }
{
    match successor(instruction, outcome) {
        Some(next) => stay_in(out, callback, instruction, outcome, next, &VARIABLES),
        None => Ok(()),
    }
}

// ---- contexts that are handed over

fn is_followed(kind: Option<Operation>, place: Place) -> bool
    ensures { result ≡ spec.is_followed kind place }
{
    match (kind, place) {
        (None, Place::Post(_)) => true,
        (Some(kind), Place::Post(found)) => kind.is_same(found),
        _ => false,
    }
}

fn follow(
    out: &mut Vec<Slot>,
    kind: Option<Operation>,
    callback: usize,
    place: Place,
) -> Result<(), AllocError>
    ensures { OnOk result (out.new.items ≡ out.old.items ++ spec.followed_by kind callback place) }
{
    if is_followed(kind, place) {
        out.push(argument(callback))?;
    }
    Ok(())
}

/// The arguments of the post callbacks that continue an operation of a kind, or of any.
fn followed(
    out: &mut Vec<Slot>,
    kind: Option<Operation>,
    callbacks: &[CallbackGraph],
) -> Result<(), AllocError>
    ensures { OnOk result (out.new.items ≡ out.old.items ++ spec.followed kind 0 callbacks.now) }
{
    for (number, callback) in callbacks.iter().enumerate() {
        follow(out, kind, number, callback.place)?;
    }
    Ok(())
}

fn receive(
    out: &mut Vec<Slot>,
    callback: usize,
    point: usize,
    output: Option<ContextVariable>,
) -> Result<(), AllocError>
    ensures { OnOk result (out.new.items ≡ out.old.items ++ spec.received callback point output) }
{
    match output {
        Some(output) => Ok(out.push(Slot::Variable(Spot { callback, point }, output))?),
        None => Ok(()),
    }
}

fn start(out: &mut Vec<Slot>, routine: Option<usize>) -> Result<(), AllocError>
    ensures { OnOk result (out.new.items ≡ out.old.items ++ spec.started routine) }
{
    match routine {
        Some(routine) => Ok(out.push(argument(routine))?),
        None => Ok(()),
    }
}

/// Where a call takes the context that it names.
fn destinations(
    out: &mut Vec<Slot>,
    graph: &Graph,
    callback: usize,
    call: &Invocation,
    granted: usize,
) -> Result<(), AllocError>
    ensures { OnOk result (out.new.items ≡ out.old.items ++ spec.destinations graph.now callback call.now granted call.now.call) }
{
    match call.call {
        Call::ReferenceContext => receive(out, callback, granted, call.output),
        Call::InsertIo => Ok(out.push(Slot::Queue)?),
        Call::QueueDeferredIoWorkItem | Call::QueueGenericWorkItem => start(out, call.routine),
        Call::CompletePendedPreOperation(_) => followed(out, None, graph.callbacks.as_slice()),
        _ => Ok(()),
    }
}

fn lead(
    out: &mut Vec<Flow>,
    from: Option<ContextVariable>,
    mut slots: &[Slot],
) -> Result<(), AllocError>
    ensures { OnOk result (out.new.items ≡ out.old.items ++ map (spec.flow from) slots.entry.now) }
{
    while let [to, rest @ ..] = slots {
        out.push(Flow { from, to: *to })?;
        slots = rest;
    }
    Ok(())
}

fn lead_from(
    out: &mut Vec<Flow>,
    from: Option<ContextVariable>,
    slots: &[Slot],
) -> Result<(), AllocError>
    ensures { OnOk result (out.new.items ≡ out.old.items ++ spec.from_named from slots.now) }
{
    match from {
        Some(_) => lead(out, from, slots),
        None => Ok(()),
    }
}

fn remove(
    alloc: Global,
    out: &mut Vec<Flow>,
    callback: usize,
    call: &Invocation,
    granted: usize,
) -> Result<(), AllocError>
    ensures { OnOk result (out.new.items ≡ out.old.items ++ spec.removed call.now.call callback granted call.now.output) }
{
    match call.call {
        Call::RemoveNextIo => {
            let mut slots = Vec::new(alloc);
            receive(&mut slots, callback, granted, call.output)?;
            lead(out, None, slots.as_slice())
        }
        _ => Ok(()),
    }
}

/// The kind of the operations that a place passes on.
fn passed_on(place: Place) -> Option<Operation>
    ensures { result ≡ spec.passed_on place }
{
    match place {
        Place::Pre(kind) => Some(kind),
        _ => None,
    }
}

/// Contexts that a statement hands over.
#[tactic(auto, unfolding(crate::specs::Flows::handed))]
fn handed(
    alloc: Global,
    out: &mut Vec<Flow>,
    graph: &Graph,
    callback: usize,
    instruction: &Instruction,
) -> Result<(), AllocError>
    ensures { OnOk result (out.new.items ≡ out.old.items ++ spec.handed graph.now callback instruction.now) }
{
    let mut slots = Vec::new(alloc);
    match instruction {
        Instruction::Call(call, granted, _) => {
            let call = call.roles();
            destinations(&mut slots, graph, callback, &call, *granted)?;
            lead_from(out, call.context, slots.as_slice())?;
            remove(alloc, out, callback, &call, *granted)
        }
        Instruction::Return(status) => {
            let kind = passed_on(graph.place(callback));
            followed(&mut slots, kind, graph.callbacks.as_slice())?;
            lead_from(out, named_context(*status), slots.as_slice())
        }
        _ => Ok(()),
    }
}

fn is_canceled(place: Place) -> bool
    ensures { result ≡ spec.is_canceled place }
{
    matches!(place, Place::Canceled)
}

/// An operation that is canceled leaves the queue with its context.
#[tactic(auto, unfolding(crate::specs::Flows::entered))]
fn entered(
    out: &mut Vec<Flow>,
    graph: &Graph,
    callback: usize,
    point: usize,
) -> Result<(), AllocError>
    ensures { OnOk result (out.new.items ≡ out.old.items ++ spec.entered graph.now callback point) }
{
    if point == 0 && is_canceled(graph.place(callback)) {
        out.push(Flow {
            from: None,
            to: argument(callback),
        })?;
    }
    Ok(())
}

/// How the statement at a point takes contexts on.
#[tactic(auto, unfolding(crate::specs::Flows::flows))]
pub(crate) fn flows(
    alloc: Global,
    graph: &Graph,
    callback: usize,
    point: usize,
) -> Result<Vec<Flow>, AllocError>
    ensures { IfOk result (λ found. found.items ≡ spec.flows graph.now callback point) }
{
    let mut out = Vec::new(alloc);
    let instruction = graph.instruction_ref(callback, point);
    stays(&mut out, callback, instruction, true)?;
    stays(&mut out, callback, instruction, false)?;
    handed(alloc, &mut out, graph, callback, instruction)?;
    entered(&mut out, graph, callback, point)?;
    Ok(out)
}
