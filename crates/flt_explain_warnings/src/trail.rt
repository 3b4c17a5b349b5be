//! Trails: the things that a search follows along the paths of a graph, how far, and the points that end the search.

ghost use Rattle.std.specs.Prelude.{◌≡◌};
ghost use Rattle.flt_graph.specs.Points.{successor as successor_of};
ghost use Rattle.flt_explain_warnings.specs.Trail as spec;

use crate::reading::removes_in;
use flt_graph::{Action, Call, ContextVariable, Graph, Instruction, Invocation, Status, Test};

/// The thing that a search follows.
#[derive(Clone, Copy)]
pub(crate) enum Trail {
    /// An operation in the queue, while no work item is queued whose routine removes.
    Pended,
    /// A context that wasn't set since there was another one, and the variable that received that one.
    Lost(ContextVariable, Option<ContextVariable>),
    /// A context that others may have, while a variable holds it.
    Shared(ContextVariable),
}

/// Whether a variable of contexts is the one that is named.
pub(crate) fn is_named(named: Option<ContextVariable>, variable: ContextVariable) -> bool
    ensures { result ≡ spec.is_named named variable }
{
    match named {
        Some(named) => named.place() == variable.place(),
        None => false,
    }
}

/// The point after an instruction by an outcome, if there is one.
pub(crate) fn successor(instruction: &Instruction, outcome: bool) -> Option<usize>
    ensures { result ≡ successor_of instruction.now outcome }
{
    match instruction {
        Instruction::Act(_, next) => Some(*next),
        Instruction::Call(_, granted, refused)
        | Instruction::Test(_, granted, refused)
        | Instruction::Repeat(_, granted, refused) => {
            if outcome {
                Some(*granted)
            } else {
                Some(*refused)
            }
        }
        Instruction::Return(_) | Instruction::End => None,
    }
}

// ---- an operation in the queue

/// Whether a routine, if there is one, takes operations out of the queue.
fn routine_removes(graph: &Graph, routine: Option<usize>) -> bool
    ensures { result ≡ spec.routine_removes graph.now routine }
{
    match routine {
        Some(callback) => removes_in(graph, callback),
        None => false,
    }
}

/// Whether an instruction queues a work item whose routine takes operations out of the queue.
fn queues_removal(graph: &Graph, instruction: &Instruction) -> bool
    ensures { result ≡ spec.queues_removal graph.now instruction.now }
{
    match instruction {
        Instruction::Call(call, _, _) => routine_removes(graph, call.roles().routine),
        _ => false,
    }
}

fn returns_pending(instruction: &Instruction) -> bool
    ensures { result ≡ spec.returns_pending instruction.now }
{
    matches!(instruction, Instruction::Return(Some(Status::Pending)))
}

// ---- a context that wasn't set

/// Whether a call sets the context that it names.
fn is_set(call: Call) -> bool
    ensures { result ≡ spec.is_set call }
{
    matches!(call, Call::SetContext(_, _))
}

fn is_release(call: Call) -> bool
    ensures { result ≡ spec.is_release call }
{
    matches!(call, Call::ReleaseContext)
}

/// Whether a call gives the variable another context, releases its context, or tries to set it.
fn settles_by(call: &Invocation, variable: ContextVariable) -> bool
    ensures { result ≡ spec.settles_by call.now variable }
{
    is_named(call.output, variable)
        || ((is_set(call.call) || is_release(call.call)) && is_named(call.context, variable))
}

/// Whether an instruction ends the knowledge about the variable's context.
fn settles(instruction: &Instruction, variable: ContextVariable) -> bool
    ensures { result ≡ spec.settles instruction.now variable }
{
    match instruction {
        Instruction::Act(Action::ClearContext(cleared), _) => is_named(Some(*cleared), variable),
        Instruction::Call(call, _, _) => settles_by(&call.roles(), variable),
        _ => false,
    }
}

/// Whether a test finds by this outcome that a variable is NULL.
fn finds_null(instruction: &Instruction, outcome: bool, variable: Option<ContextVariable>) -> bool
    ensures { result ≡ spec.finds_null instruction.now outcome variable }
{
    match instruction {
        Instruction::Test(Test::ContextIsSome(tested), _, _) => {
            !outcome && is_named(variable, *tested)
        }
        _ => false,
    }
}

/// Whether a call hands its context on.
pub(crate) fn hands_on(call: Call) -> bool
    ensures { result ≡ spec.hands_on call }
{
    matches!(
        call,
        Call::InsertIo
            | Call::QueueDeferredIoWorkItem
            | Call::QueueGenericWorkItem
            | Call::CompletePendedPreOperation(_)
    )
}

fn action_uses(action: Action, variable: ContextVariable) -> bool
    ensures { result ≡ spec.action_uses action variable }
{
    match action {
        Action::ReadValue(_, context) => is_named(Some(context), variable),
        Action::WriteValue(context, _) => is_named(Some(context), variable),
        _ => false,
    }
}

pub(crate) fn status_uses(status: Option<Status>, variable: ContextVariable) -> bool
    ensures { result ≡ spec.status_uses status variable }
{
    is_named(flt_tree::named_context(status), variable)
}

/// Whether an instruction reads or writes the value of the variable's context, or hands the context on.
fn uses(instruction: &Instruction, variable: ContextVariable) -> bool
    ensures { result ≡ spec.uses instruction.now variable }
{
    match instruction {
        Instruction::Act(action, _) => action_uses(*action, variable),
        Instruction::Call(call, _, _) => {
            let call = call.roles();
            hands_on(call.call) && is_named(call.context, variable)
        }
        Instruction::Return(status) => status_uses(*status, variable),
        _ => false,
    }
}

// ---- a context that others may have

/// Whether an instruction gives the variable another context, or none.
fn renews(instruction: &Instruction, variable: ContextVariable) -> bool
    ensures { result ≡ spec.renews instruction.now variable }
{
    match instruction {
        Instruction::Act(Action::ClearContext(cleared), _) => is_named(Some(*cleared), variable),
        Instruction::Call(call, _, _) => is_named(call.roles().output, variable),
        _ => false,
    }
}

// ---- all

impl Trail {
    /// Whether the trail is lost after an instruction by an outcome.
    fn stops(self, graph: &Graph, instruction: &Instruction, outcome: bool) -> bool
        ensures { result ≡ spec.stops graph.now self instruction.now outcome }
    {
        match self {
            Trail::Pended => queues_removal(graph, instruction),
            Trail::Lost(context, there) => {
                settles(instruction, context) || finds_null(instruction, outcome, there)
            }
            Trail::Shared(context) => renews(instruction, context),
        }
    }

    /// The point to which the trail leads after an instruction by an outcome.
    pub(crate) fn onward(
        self,
        graph: &Graph,
        instruction: &Instruction,
        outcome: bool,
    ) -> Option<usize>
        ensures { result ≡ spec.onward graph.now self instruction.now outcome }
    {
        if self.stops(graph, instruction, outcome) {
            None
        } else {
            successor(instruction, outcome)
        }
    }

    /// Whether an instruction is an end of the trail, for which the search looks.
    pub(crate) fn ends(self, instruction: &Instruction) -> bool
        ensures { result ≡ spec.ends self instruction.now }
    {
        match self {
            Trail::Pended => returns_pending(instruction),
            Trail::Lost(context, _) | Trail::Shared(context) => uses(instruction, context),
        }
    }
}
