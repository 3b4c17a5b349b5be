//! How the words of the grammar are spelled, and which of them stand for variables, statuses and the like.

ghost use Rattle.flt_print.specs.Vocabulary as spec;
ghost use Rattle.std.specs.Prelude.{◌≡◌, map, option_map};

use flt_rules::{Anchor, Existing, FinalStatus, LockKind, Operation};
use flt_syntax::{
    ContextEnd, ContextSource, FallibleShape, Kind, LockCall, PlainShape, QueueCall, keywords,
    same_kind,
};
use flt_tree::{ContextVariable, NumberVariable, OperationVariable, RemovedVariable};

fn word_for(kind: Kind, mut table: &[(&'static [u8], Kind)]) -> &'static [u8]
    ensures { result.now ≡ spec.word_for kind (map (λ e. (e.0.now, e.1)) table.entry.now) }
{
    while let [entry, rest @ ..] = table {
        if same_kind(entry.1, kind) {
            return entry.0;
        }
        table = rest;
    }
    b""
}

fn symbol(kind: Kind) -> Option<&'static [u8]>
    ensures { option_map (λ z. z.now) result ≡ spec.symbol kind }
{
    match kind {
        Kind::OpenBrace => Some(b"{"),
        Kind::CloseBrace => Some(b"}"),
        Kind::Assign => Some(b"="),
        Kind::Equal => Some(b"=="),
        Kind::NotEqual => Some(b"!="),
        Kind::Less => Some(b"<"),
        Kind::Plus => Some(b"+"),
        Kind::Minus => Some(b"-"),
        _ => None,
    }
}

/// The symbol or word of a kind.
#[tactic(auto, unfolding(crate::specs::Vocabulary::spelling))]
pub fn spelling(kind: Kind) -> &'static [u8]
    ensures { result.now ≡ spec.spelling kind }
{
    match symbol(kind) {
        None => word_for(kind, keywords()),
        Some(symbol) => symbol,
    }
}

/// No word of the language stands for two kinds, and no kind has two words. It does nothing at run time: its clause is a law.
pub fn each_word_is_one_kind()
    ensures { spec.EachWordIsOneKind }
{}

pub fn number_kind(n: NumberVariable) -> Kind
    ensures { result ≡ spec.number_kind n }
{
    match n {
        NumberVariable::N0 => Kind::N0,
        NumberVariable::N1 => Kind::N1,
        NumberVariable::N2 => Kind::N2,
        NumberVariable::N3 => Kind::N3,
        NumberVariable::N4 => Kind::N4,
        NumberVariable::N5 => Kind::N5,
        NumberVariable::N6 => Kind::N6,
        NumberVariable::N7 => Kind::N7,
    }
}

pub fn context_kind(c: ContextVariable) -> Kind
    ensures { result ≡ spec.context_kind c }
{
    match c {
        ContextVariable::C0 => Kind::C0,
        ContextVariable::C1 => Kind::C1,
        ContextVariable::C2 => Kind::C2,
        ContextVariable::C3 => Kind::C3,
        ContextVariable::C4 => Kind::C4,
        ContextVariable::C5 => Kind::C5,
        ContextVariable::C6 => Kind::C6,
        ContextVariable::C7 => Kind::C7,
        ContextVariable::Arg => Kind::Arg,
    }
}

pub fn removed_kind(o: RemovedVariable) -> Kind
    ensures { result ≡ spec.removed_kind o }
{
    match o {
        RemovedVariable::O0 => Kind::O0,
        RemovedVariable::O1 => Kind::O1,
        RemovedVariable::O2 => Kind::O2,
        RemovedVariable::O3 => Kind::O3,
    }
}

pub fn operation_variable_kind(d: OperationVariable) -> Kind
    ensures { result ≡ spec.operation_variable_kind d }
{
    match d {
        OperationVariable::Removed(o) => removed_kind(o),
        OperationVariable::Data => Kind::Data,
    }
}

pub fn final_status_kind(status: FinalStatus) -> Kind
    ensures { result ≡ spec.final_status_kind status }
{
    match status {
        FinalStatus::Success => Kind::StatusSuccess,
        FinalStatus::AccessDenied => Kind::StatusAccessDenied,
        FinalStatus::Cancelled => Kind::StatusCancelled,
        FinalStatus::InsufficientResources => Kind::StatusInsufficientResources,
        FinalStatus::InvalidParameter => Kind::StatusInvalidParameter,
        FinalStatus::Pending => Kind::StatusPending,
    }
}

pub fn operation_kind(operation: Operation) -> Kind
    ensures { result ≡ spec.operation_kind operation }
{
    Kind::of_operation(operation)
}

/// The kind of a lock where it is declared.
pub fn lock_kind_kind(kind: LockKind) -> Kind
    ensures { result ≡ spec.lock_kind_kind kind }
{
    match kind {
        LockKind::Spin => Kind::Spin,
        LockKind::Fast => Kind::Fast,
        LockKind::Push => Kind::Push,
    }
}

/// The word of a call that can fail, by its shape.
pub fn fallible_kind(shape: FallibleShape) -> Kind
    ensures { result ≡ spec.fallible_kind shape }
{
    match shape {
        FallibleShape::Obtain(ContextSource::Allocate) => Kind::AllocateContext,
        FallibleShape::Obtain(ContextSource::Get(Anchor::Stream)) => Kind::GetStreamContext,
        FallibleShape::Obtain(ContextSource::Get(Anchor::Instance)) => Kind::GetInstanceContext,
        FallibleShape::Set(Anchor::Stream) => Kind::SetStreamContext,
        FallibleShape::Set(Anchor::Instance) => Kind::SetInstanceContext,
        FallibleShape::Delete(Anchor::Stream) => Kind::DeleteStreamContext,
        FallibleShape::Delete(Anchor::Instance) => Kind::DeleteInstanceContext,
        FallibleShape::Queue(QueueCall::Insert) => Kind::InsertIo,
        FallibleShape::Queue(QueueCall::RemoveNext) => Kind::RemoveNextIo,
        FallibleShape::QueueDeferred => Kind::QueueDeferredIoWorkItem,
        FallibleShape::QueueGeneric => Kind::QueueGenericWorkItem,
    }
}

/// The word of a call that always succeeds, by its shape.
pub fn plain_kind(shape: PlainShape) -> Kind
    ensures { result ≡ spec.plain_kind shape }
{
    match shape {
        PlainShape::End(ContextEnd::Delete) => Kind::DeleteContext,
        PlainShape::Reference => Kind::ReferenceContext,
        PlainShape::End(ContextEnd::Release) => Kind::ReleaseContext,
        PlainShape::Lock(LockCall::Acquire(LockKind::Spin)) => Kind::AcquireSpinLock,
        PlainShape::Lock(LockCall::Release(LockKind::Spin)) => Kind::ReleaseSpinLock,
        PlainShape::Lock(LockCall::Acquire(LockKind::Fast)) => Kind::AcquireFastMutex,
        PlainShape::Lock(LockCall::Release(LockKind::Fast)) => Kind::ReleaseFastMutex,
        PlainShape::Lock(LockCall::Acquire(LockKind::Push)) => Kind::AcquirePushLock,
        PlainShape::Lock(LockCall::AcquireShared) => Kind::AcquirePushLockShared,
        PlainShape::Lock(LockCall::Release(LockKind::Push)) => Kind::ReleasePushLock,
        PlainShape::CompletePre => Kind::CompletePendedPreOperation,
        PlainShape::CompletePost => Kind::CompletePendedPostOperation,
    }
}

pub fn existing_kind(existing: Existing) -> Kind
    ensures { result ≡ spec.existing_kind existing }
{
    match existing {
        Existing::Keep => Kind::KeepIfExists,
        Existing::Replace => Kind::ReplaceIfExists,
    }
}
