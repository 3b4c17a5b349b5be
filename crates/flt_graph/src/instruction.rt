//! Instructions: the actions at points.

ghost use Rattle.std.specs.Prelude.{◌≡◌, ◌≤◌, length};
ghost use Rattle.flt_graph.specs.Instruction as spec;
ghost use Rattle.flt_tree.specs.Registered as registered;

use flt_rules::{Call, LockNumber};
use flt_tree::{
    Action, Callback, ContextVariable, FallibleCall, OperationVariable, PlainCall, RemovedVariable,
    Routine, Status, Test,
};

/// A call as the filter makes it. It names a routine by the number of the callback, from 0, or past all callbacks if none has the name.
#[derive(Clone, Copy)]
pub enum ResolvedCall {
    /// One that always succeeds.
    Plain(PlainCall),
    /// One that can fail.
    Fallible(FallibleCall<usize>),
}

/// A call with its operands by their roles.
#[derive(Clone, Copy)]
pub struct Invocation {
    pub call: Call,
    /// The context that it works on or hands over.
    pub context: Option<ContextVariable>,
    /// The variable that receives a context.
    pub output: Option<ContextVariable>,
    /// The operation that it works on, or the variable that receives one.
    pub operation: Option<OperationVariable>,
    pub status: Option<Status>,
    pub lock: Option<LockNumber>,
    /// The callback that a work item starts, from 0, or past all callbacks.
    pub routine: Option<usize>,
}

/// The action at a point, with the points that follow it, from 0.
#[derive(Clone, Copy)]
pub enum Instruction {
    /// A statement that neither calls nor branches, and the next point.
    Act(Action, usize),
    /// A call, the point where it succeeds and the point where it fails. They are the same for a call that always
    /// succeeds.
    Call(ResolvedCall, usize, usize),
    /// A test, the point where it holds and the point where it doesn't.
    Test(Test, usize, usize),
    /// The number of turns, the point of the body and the point after the `repeat`.
    Repeat(u64, usize, usize),
    Return(Option<Status>),
    /// The end of the body.
    End,
}

/// An invocation of a call that names no operand.
fn bare(call: Call) -> Invocation
    ensures { result ≡ spec.bare call }
{
    Invocation {
        call,
        context: None,
        output: None,
        operation: None,
        status: None,
        lock: None,
        routine: None,
    }
}

/// A plain call with its operands by role.
fn plain(call: PlainCall) -> Invocation
    ensures { result ≡ spec.plain call }
{
    match call {
        PlainCall::DeleteContext(context) => Invocation {
            context: Some(context),
            ..bare(Call::DeleteContext)
        },
        PlainCall::ReferenceContext(context, output) => Invocation {
            context: Some(context),
            output: Some(output),
            ..bare(Call::ReferenceContext)
        },
        PlainCall::ReleaseContext(context) => Invocation {
            context: Some(context),
            ..bare(Call::ReleaseContext)
        },
        PlainCall::AcquireLock(kind, lock) => Invocation {
            lock: Some(lock),
            ..bare(Call::AcquireLock(kind))
        },
        PlainCall::AcquirePushLockShared(lock) => Invocation {
            lock: Some(lock),
            ..bare(Call::AcquirePushLockShared)
        },
        PlainCall::ReleaseLock(kind, lock) => Invocation {
            lock: Some(lock),
            ..bare(Call::ReleaseLock(kind))
        },
        PlainCall::CompletePendedPreOperation(operation, status) => Invocation {
            operation: Some(operation),
            context: status.context(),
            status: Some(status),
            ..bare(Call::CompletePendedPreOperation(operation.whose()))
        },
        PlainCall::CompletePendedPostOperation => Invocation {
            operation: Some(OperationVariable::Data),
            ..bare(Call::CompletePendedPostOperation)
        },
    }
}

/// A call that can fail, with its operands by role.
fn fallible(call: FallibleCall<usize>) -> Invocation
    ensures { result ≡ spec.fallible call }
{
    match call {
        FallibleCall::AllocateContext(output) => Invocation {
            output: Some(output),
            ..bare(Call::AllocateContext)
        },
        FallibleCall::GetContext(anchor, output) => Invocation {
            output: Some(output),
            operation: Some(OperationVariable::Data),
            ..bare(Call::GetContext(anchor))
        },
        FallibleCall::SetContext(anchor, existing, context, output) => Invocation {
            context: Some(context),
            output,
            operation: Some(OperationVariable::Data),
            ..bare(Call::SetContext(anchor, existing))
        },
        FallibleCall::DeleteContextOf(anchor, output) => Invocation {
            output,
            operation: Some(OperationVariable::Data),
            ..bare(Call::DeleteContextOf(anchor))
        },
        FallibleCall::InsertIo(context) => Invocation {
            context,
            operation: Some(OperationVariable::Data),
            ..bare(Call::InsertIo)
        },
        FallibleCall::RemoveNextIo(operation, output) => Invocation {
            operation: Some(OperationVariable::Removed(operation)),
            output: Some(output),
            ..bare(Call::RemoveNextIo)
        },
        FallibleCall::QueueDeferredIoWorkItem(routine, context) => Invocation {
            context,
            operation: Some(OperationVariable::Data),
            routine: Some(routine),
            ..bare(Call::QueueDeferredIoWorkItem)
        },
        FallibleCall::QueueGenericWorkItem(routine, context) => Invocation {
            context,
            routine: Some(routine),
            ..bare(Call::QueueGenericWorkItem)
        },
    }
}

impl ResolvedCall {
    ghost use Rattle.std.specs.Prelude.{◌≡◌, is_some};
    ghost use Rattle.flt_rules.specs.Table.{row};
    ghost use Rattle.flt_graph.specs.Instruction as spec;

    /// The call with its operands by their roles.
    pub fn roles(self) -> Invocation
        ensures { result ≡ spec.roles self }
    {
        match self {
            ResolvedCall::Plain(call) => plain(call),
            ResolvedCall::Fallible(call) => fallible(call),
        }
    }

    /// Whether the row of the call says what becomes of its operands where it fails.
    pub fn can_fail(self) -> bool
        ensures { result ≡ is_some (row (spec.roles self).call).on_fail }
    {
        matches!(self, ResolvedCall::Fallible(_))
    }
}

/// The number of the routine that a call names, from 0; past all callbacks if none has the name.
fn routine_of(callbacks: &[Callback], routine: &Routine) -> usize
    ensures number { result ≡ registered.routine_of callbacks.now routine.now }
    ensures within { result ≤ length callbacks.now }
{
    match callbacks {
        [] => 0,
        [first, ..] if first.head.is_named(routine.name.as_slice()) => 0,
        [_, others @ ..] => routine_of(others, routine) + 1,
    }
}

/// A call that can fail, with the number of its routine among the callbacks.
pub(crate) fn numbered(callbacks: &[Callback], call: &FallibleCall<Routine>) -> FallibleCall<usize>
    ensures { result ≡ registered.numbered callbacks.now call.now }
{
    match call {
        FallibleCall::AllocateContext(output) => FallibleCall::AllocateContext(*output),
        FallibleCall::GetContext(anchor, output) => FallibleCall::GetContext(*anchor, *output),
        FallibleCall::SetContext(anchor, existing, context, output) => {
            FallibleCall::SetContext(*anchor, *existing, *context, *output)
        }
        FallibleCall::DeleteContextOf(anchor, output) => {
            FallibleCall::DeleteContextOf(*anchor, *output)
        }
        FallibleCall::InsertIo(context) => FallibleCall::InsertIo(*context),
        FallibleCall::RemoveNextIo(operation, output) => {
            FallibleCall::RemoveNextIo(*operation, *output)
        }
        FallibleCall::QueueDeferredIoWorkItem(routine, context) => {
            FallibleCall::QueueDeferredIoWorkItem(routine_of(callbacks, routine), *context)
        }
        FallibleCall::QueueGenericWorkItem(routine, context) => {
            FallibleCall::QueueGenericWorkItem(routine_of(callbacks, routine), *context)
        }
    }
}
