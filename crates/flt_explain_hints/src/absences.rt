//! The features that the language leaves out, and what to write in their place.

ghost use Rattle.std.specs.Prelude.{◌≡◌, map};
ghost use Rattle.flt_explain_hints.specs.Absences as spec;

use flt_rules::Operation;

/// A feature that the language leaves out.
#[derive(Clone, Copy)]
pub(crate) enum Absence {
    // Of contexts of other things than streams and instances.
    StreamHandleContext,
    FileContext,
    VolumeContext,
    TransactionContext,
    SectionContext,
    SeveralContexts,
    ContextSupport,
    // Of other operations, and what is tested of them.
    Operation,
    FilterOperation,
    IrpTest,
    FastIoTest,
    DrainingTest,
    OperationTest,
    WhenSafe,
    // Of waits, the level, and locks before their use.
    Wait,
    LockSetup,
    Level,
    Interlocked,
    // Of other locks.
    Resource,
    SpinLock,
    FastMutex,
    LockKind,
    // Of the queue, cancels, work items and operations of the filter's own.
    QueueSetup,
    QueueState,
    RemoveIo,
    CancelRoutine,
    CancelOpen,
    WorkItem,
    OwnOperation,
    // Of what operations carry.
    FileName,
    FinalStatus,
    Change,
    Memory,
    // Of what a driver has beside its callbacks.
    Port,
    Registration,
    Object,
    Trace,
    Declaration,
}

static CONTEXTS: [(&[u8], Absence); 20] = [
    (b"FltGetStreamH", Absence::StreamHandleContext),
    (b"FltSetStreamH", Absence::StreamHandleContext),
    (b"FltDeleteStreamH", Absence::StreamHandleContext),
    (b"FltGetFileContext", Absence::FileContext),
    (b"FltSetFileContext", Absence::FileContext),
    (b"FltDeleteFileContext", Absence::FileContext),
    (b"FltGetVolumeContext", Absence::VolumeContext),
    (b"FltSetVolumeContext", Absence::VolumeContext),
    (b"FltDeleteVolumeContext", Absence::VolumeContext),
    (b"FltGetTransactionContext", Absence::TransactionContext),
    (b"FltSetTransactionContext", Absence::TransactionContext),
    (b"FltDeleteTransactionContext", Absence::TransactionContext),
    (b"FltEnlistInTransaction", Absence::TransactionContext),
    (b"FltGetSectionContext", Absence::SectionContext),
    (b"FltRegisterForDataScan", Absence::SectionContext),
    (b"FltCreateSectionForDataScan", Absence::SectionContext),
    (b"FltCloseSectionForDataScan", Absence::SectionContext),
    (b"FltGetContexts", Absence::SeveralContexts),
    (b"FltReleaseContexts", Absence::SeveralContexts),
    (b"FltSupports", Absence::ContextSupport),
];

static OPERATIONS: [(&[u8], Absence); 31] = [
    (b"close", Absence::Operation),
    (b"query_", Absence::Operation),
    (b"set_", Absence::Operation),
    (b"create_named_pipe", Absence::Operation),
    (b"create_mailslot", Absence::Operation),
    (b"flush_buffers", Absence::Operation),
    (b"directory_control", Absence::Operation),
    (b"file_system_control", Absence::Operation),
    (b"device_control", Absence::Operation),
    (b"internal_device_control", Absence::Operation),
    (b"lock_control", Absence::Operation),
    (b"shutdown", Absence::Operation),
    (b"power", Absence::Operation),
    (b"system_control", Absence::Operation),
    (b"pnp", Absence::Operation),
    (b"acquire_for_", Absence::Operation),
    (b"release_for_", Absence::Operation),
    (b"network_query_open", Absence::Operation),
    (b"volume_mount", Absence::Operation),
    (b"volume_dismount", Absence::Operation),
    (b"FLT_IS_FS_FILTER_OPERATION", Absence::FilterOperation),
    (b"FLT_PREOP_DISALLOW_FSFILTER_IO", Absence::FilterOperation),
    (b"FLT_POSTOP_DISALLOW_FSFILTER_IO", Absence::FilterOperation),
    (b"DISALLOW_FSFILTER_IO", Absence::FilterOperation),
    (b"FLT_IS_IRP_OPERATION", Absence::IrpTest),
    (b"FLT_IS_FASTIO_OPERATION", Absence::FastIoTest),
    (b"FLTFL_POST_OPERATION_DRAINING", Absence::DrainingTest),
    (b"FLT_IS_", Absence::OperationTest),
    (b"FlagOn", Absence::OperationTest),
    (b"FltIsOperationSynchronous", Absence::OperationTest),
    (b"FltDoCompletionProcessingWhenSafe", Absence::WhenSafe),
];

static WAITS: [(&[u8], Absence); 25] = [
    (b"KeWaitFor", Absence::Wait),
    (b"KeInitializeEvent", Absence::Wait),
    (b"KeSetEvent", Absence::Wait),
    (b"KeClearEvent", Absence::Wait),
    (b"KeResetEvent", Absence::Wait),
    (b"KeDelayExecutionThread", Absence::Wait),
    (b"KeInitializeTimer", Absence::Wait),
    (b"KeSetTimer", Absence::Wait),
    (b"FltCancellableWaitFor", Absence::Wait),
    (b"event", Absence::Wait),
    (b"semaphore", Absence::Wait),
    (b"timer", Absence::Wait),
    (b"KeInitializeSpinLock", Absence::LockSetup),
    (b"ExInitializeFastMutex", Absence::LockSetup),
    (b"FltInitializePushLock", Absence::LockSetup),
    (b"FltDeletePushLock", Absence::LockSetup),
    (b"KeGetCurrentIrql", Absence::Level),
    (b"KeRaiseIrql", Absence::Level),
    (b"KeLowerIrql", Absence::Level),
    (b"KeEnterCriticalRegion", Absence::Level),
    (b"KeLeaveCriticalRegion", Absence::Level),
    (b"FsRtlEnterFileSystem", Absence::Level),
    (b"FsRtlExitFileSystem", Absence::Level),
    (b"PAGED_CODE", Absence::Level),
    (b"Interlocked", Absence::Interlocked),
];

static LOCKS: [(&[u8], Absence); 32] = [
    (b"ExAcquireResource", Absence::Resource),
    (b"ExReleaseResource", Absence::Resource),
    (b"ExInitializeResource", Absence::Resource),
    (b"ExDeleteResource", Absence::Resource),
    (b"ExAcquireShared", Absence::Resource),
    (b"FltAcquireResource", Absence::Resource),
    (b"FltReleaseResource", Absence::Resource),
    (b"resource", Absence::Resource),
    (b"ERESOURCE", Absence::Resource),
    (b"KeAcquireSpinLockAtDpcLevel", Absence::SpinLock),
    (b"KeReleaseSpinLockFromDpcLevel", Absence::SpinLock),
    (b"KeAcquireSpinLockRaiseToDpc", Absence::SpinLock),
    (b"KeAcquireSpinLockForDpc", Absence::SpinLock),
    (b"KeReleaseSpinLockForDpc", Absence::SpinLock),
    (b"KeAcquireInStackQueuedSpinLock", Absence::SpinLock),
    (b"KeReleaseInStackQueuedSpinLock", Absence::SpinLock),
    (b"KeAcquireQueuedSpinLock", Absence::SpinLock),
    (b"KeReleaseQueuedSpinLock", Absence::SpinLock),
    (b"KeTryToAcquireSpinLock", Absence::SpinLock),
    (b"ExAcquireSpinLock", Absence::SpinLock),
    (b"ExReleaseSpinLock", Absence::SpinLock),
    (b"ExAcquireFastMutexUnsafe", Absence::FastMutex),
    (b"ExReleaseFastMutexUnsafe", Absence::FastMutex),
    (b"ExTryToAcquireFastMutex", Absence::FastMutex),
    (b"KeAcquireGuardedMutex", Absence::FastMutex),
    (b"KeReleaseGuardedMutex", Absence::FastMutex),
    (b"mutex", Absence::FastMutex),
    (b"KMUTEX", Absence::FastMutex),
    (b"KGUARDED_MUTEX", Absence::FastMutex),
    (b"KSPIN_LOCK", Absence::LockKind),
    (b"FAST_MUTEX", Absence::LockKind),
    (b"EX_PUSH_LOCK", Absence::LockKind),
];

static QUEUEING: [(&[u8], Absence); 29] = [
    (b"FltCbdqInitialize", Absence::QueueSetup),
    (b"FltCbdqEnable", Absence::QueueState),
    (b"FltCbdqDisable", Absence::QueueState),
    (b"FltCbdqRemoveIo", Absence::RemoveIo),
    (b"FltSetCancelCompletion", Absence::CancelRoutine),
    (b"FltClearCancelCompletion", Absence::CancelRoutine),
    (b"FltCancelIo", Absence::CancelRoutine),
    (b"IoSetCancelRoutine", Absence::CancelRoutine),
    (b"FltCancelFileOpen", Absence::CancelOpen),
    (b"FltAllocateDeferredIoWorkItem", Absence::WorkItem),
    (b"FltFreeDeferredIoWorkItem", Absence::WorkItem),
    (b"FltAllocateGenericWorkItem", Absence::WorkItem),
    (b"FltFreeGenericWorkItem", Absence::WorkItem),
    (b"IoAllocateWorkItem", Absence::WorkItem),
    (b"IoQueueWorkItem", Absence::WorkItem),
    (b"IoFreeWorkItem", Absence::WorkItem),
    (b"FltAllocateCallbackData", Absence::OwnOperation),
    (b"FltFreeCallbackData", Absence::OwnOperation),
    (b"FltReuseCallbackData", Absence::OwnOperation),
    (b"FltPerformSynchronousIo", Absence::OwnOperation),
    (b"FltPerformAsynchronousIo", Absence::OwnOperation),
    (b"FltReissueSynchronousIo", Absence::OwnOperation),
    (b"FltCreateFile", Absence::OwnOperation),
    (b"FltReadFile", Absence::OwnOperation),
    (b"FltWriteFile", Absence::OwnOperation),
    (b"FltQueryInformationFile", Absence::OwnOperation),
    (b"FltSetInformationFile", Absence::OwnOperation),
    (b"FltFsControlFile", Absence::OwnOperation),
    (b"Zw", Absence::OwnOperation),
];

static CONTENTS: [(&[u8], Absence); 27] = [
    (b"FltGetFileNameInformation", Absence::FileName),
    (b"FltReleaseFileNameInformation", Absence::FileName),
    (b"FltReferenceFileNameInformation", Absence::FileName),
    (b"FltParseFileName", Absence::FileName),
    (b"FltGetDestinationFileNameInformation", Absence::FileName),
    (b"FltGetTunneledName", Absence::FileName),
    (b"FsRtlIsNameInExpression", Absence::FileName),
    (b"RtlCompareUnicodeString", Absence::FileName),
    (b"RtlEqualUnicodeString", Absence::FileName),
    (b"RtlInitUnicodeString", Absence::FileName),
    (b"STATUS_INVALID_PARAMETER_", Absence::FinalStatus),
    (b"STATUS_INSUFF_SERVER_RESOURCES", Absence::FinalStatus),
    (b"FltSetCallbackDataDirty", Absence::Change),
    (b"FltClearCallbackDataDirty", Absence::Change),
    (b"FltIsCallbackDataDirty", Absence::Change),
    (b"ExAllocatePool", Absence::Memory),
    (b"ExFreePool", Absence::Memory),
    (b"ExAllocateFrom", Absence::Memory),
    (b"ExFreeTo", Absence::Memory),
    (b"FltAllocatePoolAligned", Absence::Memory),
    (b"FltFreePoolAligned", Absence::Memory),
    (b"FltLockUserBuffer", Absence::Memory),
    (b"FltDecodeParameters", Absence::Memory),
    (b"FltGetSwappedBufferMdl", Absence::Memory),
    (b"MmGetSystemAddressForMdl", Absence::Memory),
    (b"RtlCopyMemory", Absence::Memory),
    (b"RtlZeroMemory", Absence::Memory),
];

static SURROUNDINGS: [(&[u8], Absence); 29] = [
    (b"FltCreateCommunicationPort", Absence::Port),
    (b"FltCloseCommunicationPort", Absence::Port),
    (b"FltCloseClientPort", Absence::Port),
    (b"FltSendMessage", Absence::Port),
    (b"FltRegisterFilter", Absence::Registration),
    (b"FltStartFiltering", Absence::Registration),
    (b"FltUnregisterFilter", Absence::Registration),
    (b"FLT_REGISTRATION", Absence::Registration),
    (b"FLT_OPERATION_REGISTRATION", Absence::Registration),
    (b"FltObjectReference", Absence::Object),
    (b"FltObjectDereference", Absence::Object),
    (b"ObReferenceObject", Absence::Object),
    (b"ObDereferenceObject", Absence::Object),
    (b"FltGetVolumeFromInstance", Absence::Object),
    (b"FltGetVolumeProperties", Absence::Object),
    (b"FltGetRequestorProcess", Absence::Object),
    (b"PsGetCurrentProcess", Absence::Object),
    (b"DbgPrint", Absence::Trace),
    (b"KdPrint", Absence::Trace),
    (b"ASSERT", Absence::Trace),
    (b"FLT_ASSERT", Absence::Trace),
    (b"NT_ASSERT", Absence::Trace),
    (b"UNREFERENCED_PARAMETER", Absence::Trace),
    (b"PFLT_", Absence::Declaration),
    (b"NTSTATUS", Absence::Declaration),
    (b"ULONG", Absence::Declaration),
    (b"PVOID", Absence::Declaration),
    (b"BOOLEAN", Absence::Declaration),
    (b"KIRQL", Absence::Declaration),
];

#[tactic(auto, unfolding(crate::specs::Absences::contexts))]
pub(crate) fn contexts() -> &'static [(&'static [u8], Absence)]
    ensures { map (λ e. (e.0.now, e.1)) result.now ≡ spec.contexts }
{
    &CONTEXTS
}

#[tactic(auto, unfolding(crate::specs::Absences::operations))]
pub(crate) fn operations() -> &'static [(&'static [u8], Absence)]
    ensures { map (λ e. (e.0.now, e.1)) result.now ≡ spec.operations }
{
    &OPERATIONS
}

#[tactic(auto, unfolding(crate::specs::Absences::waits))]
pub(crate) fn waits() -> &'static [(&'static [u8], Absence)]
    ensures { map (λ e. (e.0.now, e.1)) result.now ≡ spec.waits }
{
    &WAITS
}

#[tactic(auto, unfolding(crate::specs::Absences::locks))]
pub(crate) fn locks() -> &'static [(&'static [u8], Absence)]
    ensures { map (λ e. (e.0.now, e.1)) result.now ≡ spec.locks }
{
    &LOCKS
}

#[tactic(auto, unfolding(crate::specs::Absences::queueing))]
pub(crate) fn queueing() -> &'static [(&'static [u8], Absence)]
    ensures { map (λ e. (e.0.now, e.1)) result.now ≡ spec.queueing }
{
    &QUEUEING
}

#[tactic(auto, unfolding(crate::specs::Absences::contents))]
pub(crate) fn contents() -> &'static [(&'static [u8], Absence)]
    ensures { map (λ e. (e.0.now, e.1)) result.now ≡ spec.contents }
{
    &CONTENTS
}

#[tactic(auto, unfolding(crate::specs::Absences::surroundings))]
pub(crate) fn surroundings() -> &'static [(&'static [u8], Absence)]
    ensures { map (λ e. (e.0.now, e.1)) result.now ≡ spec.surroundings }
{
    &SURROUNDINGS
}

/// Whether the name of an operation that the language has begins so.
fn begins_operation(beginning: &[u8]) -> bool
    ensures { result ≡ spec.begins_operation beginning.now }
{
    Operation::all()
        .iter()
        .any(|kind| kind.name().as_bytes().starts_with(beginning))
}

/// The feature of the first entry of a table with which a word begins. One with which an operation's name begins doesn't count.
fn absence_among(table: &[(&'static [u8], Absence)], word: &[u8]) -> Option<Absence>
    ensures { result ≡ spec.named_among (map (λ e. (e.0.now, e.1)) table.now) word.now }
{
    for entry in table {
        if word.starts_with(entry.0) && !begins_operation(entry.0) {
            return Some(entry.1);
        }
    }
    None
}

/// The feature that the language leaves out, if a word names one.
#[tactic(auto, unfolding(crate::specs::Absences::absence_of))]
pub(crate) fn absence_of(word: &[u8]) -> Option<Absence>
    ensures { result ≡ spec.absence_of word.now }
{
    let found = absence_among(contexts(), word);
    if found.is_some() {
        return found;
    }
    let found = absence_among(operations(), word);
    if found.is_some() {
        return found;
    }
    let found = absence_among(waits(), word);
    if found.is_some() {
        return found;
    }
    let found = absence_among(locks(), word);
    if found.is_some() {
        return found;
    }
    let found = absence_among(queueing(), word);
    if found.is_some() {
        return found;
    }
    let found = absence_among(contents(), word);
    if found.is_some() {
        return found;
    }
    absence_among(surroundings(), word)
}

impl Absence {
    /// One sentence: the language has no such feature, and what to write instead.
    pub(crate) fn sentence(self) -> &'static str
        ensures { result.now ≡ spec.sentence self }
    {
        match self {
            Absence::StreamHandleContext =>
                "there are no stream handle contexts: a stream context does instead, but all handles of the stream share it",
            Absence::FileContext =>
                "there are no file contexts: a stream context does instead, but each stream of the file has its own",
            Absence::VolumeContext =>
                "there are no volume contexts: an instance context does instead, since an instance is attached to one volume",
            Absence::TransactionContext =>
                "there are no transactions: keep in an instance context what outlives an operation",
            Absence::SectionContext =>
                "there are no sections and no data scans: leave their contexts out",
            Absence::SeveralContexts =>
                "contexts are got and released one at a time, as by `FltGetStreamContext` and `FltReleaseContext`",
            Absence::ContextSupport =>
                "each stream and instance can have a context: leave this test out",
            Absence::Operation => "the only operations are ",
            Absence::FilterOperation =>
                "there are no file system filter operations and no status for them: leave their callbacks out",
            Absence::IrpTest => "this test is written `irp data`",
            Absence::FastIoTest => "there is no test for fast I/O: use the `else` of `if irp data`",
            Absence::DrainingTest => "this test is written `draining`",
            Absence::OperationTest =>
                "an operation is tested by `irp data` only, and in a `post` callback by `draining`",
            Absence::WhenSafe =>
                "there is no such call: test `irp data`, and hand `data` to a `deferred_post` routine by `FltQueueDeferredIoWorkItem`",
            Absence::Wait =>
                "there are no events, timers or waits: leave the wait out, or put what follows it into the routine of a work item",
            Absence::LockSetup =>
                "a lock needs no such call: it is declared after the altitude, `lock KIND NAME`",
            Absence::Level =>
                "the level isn't read or set: spin locks raise it, and the checker knows it at each point",
            Absence::Interlocked =>
                "there are no interlocked operations: take a lock, and use `n0 = value c0` and `value c0 = n0`",
            Absence::Resource =>
                "there is no ERESOURCE: use `lock push NAME`, which `FltAcquirePushLockExclusive` and `FltAcquirePushLockShared` take",
            Absence::SpinLock =>
                "spin locks are taken and released by `KeAcquireSpinLock` and `KeReleaseSpinLock` only",
            Absence::FastMutex =>
                "the only mutex is `lock fast NAME`, which `ExAcquireFastMutex` takes and `ExReleaseFastMutex` releases",
            Absence::LockKind =>
                "the kinds of lock are `spin` (KSPIN_LOCK), `fast` (FAST_MUTEX) and `push` (EX_PUSH_LOCK)",
            Absence::QueueSetup =>
                "the queue needs no such call: write `queue` after the locks and before the callbacks",
            Absence::QueueState => "the queue is always enabled: leave this call out",
            Absence::RemoveIo =>
                "no operation is taken from the middle of the queue: `FltCbdqRemoveNextIo` takes the first",
            Absence::CancelRoutine =>
                "the only cancel routine is the `canceled` callback, for operations in the queue: use `FltCbdqInsertIo`",
            Absence::CancelOpen =>
                "an open can't be undone: refuse it in `pre create`, by `return COMPLETE` and a final status",
            Absence::WorkItem =>
                "work items aren't allocated or freed: write `FltQueueDeferredIoWorkItem` or `FltQueueGenericWorkItem` alone",
            Absence::OwnOperation => "a filter makes no operations of its own: leave this call out",
            Absence::FileName =>
                "there are no file names: `n0 = file data` gives the number of the file",
            Absence::FinalStatus =>
                "there are no other final statuses: write the nearest, since the rules refuse `STATUS_PENDING` and distinguish no others",
            Absence::Change => "what an operation asks for can't be changed: leave this call out",
            Absence::Memory =>
                "there is no memory but the number of a context, `value c0`: leave this call out",
            Absence::Port => "there are no communication ports: leave this call out",
            Absence::Registration =>
                "the text itself registers the filter: it has the altitude, and a callback for each operation",
            Absence::Object => "the only objects are contexts and operations: leave this call out",
            Absence::Trace => "there is nothing to print or assert: leave this out",
            Absence::Declaration =>
                "variables aren't declared: `n0` to `n7` are numbers, `c0` to `c7` contexts, `o0` to `o3` operations",
        }
    }
}
