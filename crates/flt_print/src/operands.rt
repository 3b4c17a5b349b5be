//! The shapes of calls and their operands: a call is written as it is read, by the slots of its shape.

ghost use Rattle.flt_print.specs.Operands as spec;
ghost use Rattle.flt_tree.specs.Declarations as declared;
ghost use Rattle.std.specs.Prelude.{◌≡◌};

use flt_rules::{Existing, LockNumber};
use flt_syntax::{ContextEnd, ContextSource, FallibleShape, LockCall, PlainShape, QueueCall};
use flt_tree::{
    ContextVariable, FallibleCall, Lock, OperationVariable, PlainCall, RemovedVariable, Routine,
    Status,
};

/// The operands of a call, each as before the first slot where the call hasn't one.
#[derive(Clone, Copy)]
pub struct Operands<'a> {
    pub operation: OperationVariable,
    pub removed: RemovedVariable,
    pub existing: Existing,
    pub context: ContextVariable,
    /// The second context.
    pub other: ContextVariable,
    /// The context of the tail.
    pub optional: Option<ContextVariable>,
    /// The name of the routine or of the lock.
    pub name: &'a [u8],
    pub status: Status,
}

/// The operands before the first slot.
fn unfilled() -> Operands<'static>
    ensures { spec.operands_of result ≡ spec.unfilled }
{
    Operands {
        operation: OperationVariable::Data,
        removed: RemovedVariable::O0,
        existing: Existing::Keep,
        context: ContextVariable::C0,
        other: ContextVariable::C0,
        optional: None,
        name: b"",
        status: Status::NoCallback,
    }
}

/// The shape of a call that can fail.
pub fn fallible_shape(call: &FallibleCall<Routine>) -> FallibleShape
    ensures { result ≡ spec.fallible_shape call.now }
{
    match call {
        FallibleCall::AllocateContext(_) => FallibleShape::Obtain(ContextSource::Allocate),
        FallibleCall::GetContext(anchor, _) => FallibleShape::Obtain(ContextSource::Get(*anchor)),
        FallibleCall::SetContext(anchor, _, _, _) => FallibleShape::Set(*anchor),
        FallibleCall::DeleteContextOf(anchor, _) => FallibleShape::Delete(*anchor),
        FallibleCall::InsertIo(_) => FallibleShape::Queue(QueueCall::Insert),
        FallibleCall::RemoveNextIo(_, _) => FallibleShape::Queue(QueueCall::RemoveNext),
        FallibleCall::QueueDeferredIoWorkItem(_, _) => FallibleShape::QueueDeferred,
        FallibleCall::QueueGenericWorkItem(_, _) => FallibleShape::QueueGeneric,
    }
}

/// The operands of a call that can fail.
pub fn fallible_operands(call: &FallibleCall<Routine>) -> Operands<'_>
    ensures { spec.operands_of result ≡ spec.fallible_operands call.now }
{
    match call {
        FallibleCall::AllocateContext(context) | FallibleCall::GetContext(_, context) => Operands {
            context: *context,
            ..unfilled()
        },
        FallibleCall::SetContext(_, existing, context, optional) => Operands {
            existing: *existing,
            context: *context,
            optional: *optional,
            ..unfilled()
        },
        FallibleCall::DeleteContextOf(_, optional) | FallibleCall::InsertIo(optional) => Operands {
            optional: *optional,
            ..unfilled()
        },
        FallibleCall::RemoveNextIo(removed, context) => Operands {
            removed: *removed,
            context: *context,
            ..unfilled()
        },
        FallibleCall::QueueDeferredIoWorkItem(routine, optional)
        | FallibleCall::QueueGenericWorkItem(routine, optional) => Operands {
            name: routine.name.as_slice(),
            optional: *optional,
            ..unfilled()
        },
    }
}

/// The shape of a call that always succeeds.
pub fn plain_shape(call: PlainCall) -> PlainShape
    ensures { result ≡ spec.plain_shape call }
{
    match call {
        PlainCall::DeleteContext(_) => PlainShape::End(ContextEnd::Delete),
        PlainCall::ReferenceContext(_, _) => PlainShape::Reference,
        PlainCall::ReleaseContext(_) => PlainShape::End(ContextEnd::Release),
        PlainCall::AcquireLock(kind, _) => PlainShape::Lock(LockCall::Acquire(kind)),
        PlainCall::AcquirePushLockShared(_) => PlainShape::Lock(LockCall::AcquireShared),
        PlainCall::ReleaseLock(kind, _) => PlainShape::Lock(LockCall::Release(kind)),
        PlainCall::CompletePendedPreOperation(_, _) => PlainShape::CompletePre,
        PlainCall::CompletePendedPostOperation => PlainShape::CompletePost,
    }
}

/// The name of the lock of a number, if it is there.
fn lock_name(locks: &[Lock], number: LockNumber) -> &[u8]
    ensures { result.now ≡ declared.lock_name locks.now number }
{
    match locks.get(usize::from(number.place())) {
        None => b"",
        Some(lock) => lock.name.as_slice(),
    }
}

/// The operands of a call that always succeeds.
pub fn plain_operands(locks: &[Lock], call: PlainCall) -> Operands<'_>
    ensures { spec.operands_of result ≡ spec.plain_operands locks.now call }
{
    match call {
        PlainCall::DeleteContext(context) | PlainCall::ReleaseContext(context) => Operands {
            context,
            ..unfilled()
        },
        PlainCall::ReferenceContext(context, other) => Operands {
            context,
            other,
            ..unfilled()
        },
        PlainCall::AcquireLock(_, lock)
        | PlainCall::AcquirePushLockShared(lock)
        | PlainCall::ReleaseLock(_, lock) => Operands {
            name: lock_name(locks, lock),
            ..unfilled()
        },
        PlainCall::CompletePendedPreOperation(operation, status) => Operands {
            operation,
            status,
            ..unfilled()
        },
        PlainCall::CompletePendedPostOperation => unfilled(),
    }
}
