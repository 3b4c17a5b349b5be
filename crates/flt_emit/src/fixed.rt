//! The parts of a source that are the same for all filters.

ghost use Rattle.flt_emit.specs.Fixed as spec;
ghost use Rattle.std.specs.Prelude.{◌≡◌, ◌++◌, OnOk};

use crate::line::text;
use std::alloc::AllocError;

/// How a file begins, up to the filter's name.
#[tactic(auto, unfolding(crate::specs::Fixed::comment_begin))]
pub(crate) fn comment_begin(out: &mut Vec<u8>) -> Result<(), AllocError>
    ensures { OnOk result (out.new.items ≡ out.old.items ++ spec.comment_begin) }
{
    text(
        out,
        b"/*
 *  ",
    )
}

/// The title of the source, up to the filter's name.
#[tactic(auto, unfolding(crate::specs::Fixed::source_title))]
pub(crate) fn source_title(out: &mut Vec<u8>) -> Result<(), AllocError>
    ensures { OnOk result (out.new.items ≡ out.old.items ++ spec.source_title) }
{
    text(out, b".c - minifilter `")
}

/// Up to the altitude.
#[tactic(auto, unfolding(crate::specs::Fixed::altitude_title))]
pub(crate) fn altitude_title(out: &mut Vec<u8>) -> Result<(), AllocError>
    ensures { OnOk result (out.new.items ≡ out.old.items ++ spec.altitude_title) }
{
    text(out, b"`, altitude ")
}

/// The head of the source after the filter's name.
#[tactic(auto, unfolding(crate::specs::Fixed::written))]
pub(crate) fn written(out: &mut Vec<u8>) -> Result<(), AllocError>
    ensures { OnOk result (out.new.items ≡ out.old.items ++ spec.written) }
{
    text(
        out,
        b" *
 *  Written by fltstack from the filter's text. Each statement of the text is one statement here, in the text's order; its
 *  point and its line in the text follow it. Your own code goes to the header that is named below. Don't change this
 *  file: change the text and write it anew.
 */

#include <fltKernel.h>
",
    )
}

/// The contexts, which are never paged, since post callbacks access them at DISPATCH_LEVEL.
#[tactic(auto, unfolding(crate::specs::Fixed::contexts))]
pub(crate) fn contexts(out: &mut Vec<u8>) -> Result<(), AllocError>
    ensures { OnOk result (out.new.items ≡ out.old.items ++ spec.contexts) }
{
    text(
        out,
        b"
//
//  A context of the text. Post callbacks look at it at DISPATCH_LEVEL, so it is never paged.
//

typedef struct _FILTER_CONTEXT {

    volatile ULONG64 Value;    // the text's `value`
    USER_CONTEXT_FIELDS

} FILTER_CONTEXT, *PFILTER_CONTEXT;

static struct {

    PFLT_FILTER Filter;
    volatile LONG Attached;    // 1 once there is an instance: the text is of one volume
",
    )
}

/// The fields of the queue.
#[tactic(auto, unfolding(crate::specs::Fixed::queue_fields))]
pub(crate) fn queue_fields(out: &mut Vec<u8>) -> Result<(), AllocError>
    ensures { OnOk result (out.new.items ≡ out.old.items ++ spec.queue_fields) }
{
    text(
        out,
        b"    FLT_CALLBACK_DATA_QUEUE Queue;
    KSPIN_LOCK QueueLock;      // guards QueueHead
    LIST_ENTRY QueueHead;
",
    )
}

/// The end of the declarations that all callbacks share.
#[tactic(auto, unfolding(crate::specs::Fixed::globals_end))]
pub(crate) fn globals_end(out: &mut Vec<u8>) -> Result<(), AllocError>
    ensures { OnOk result (out.new.items ≡ out.old.items ++ spec.globals_end) }
{
    text(
        out,
        b"
} Globals;

DRIVER_INITIALIZE DriverEntry;
",
    )
}

/// How contexts are allocated and referenced.
#[tactic(auto, unfolding(crate::specs::Fixed::allocating))]
pub(crate) fn allocating(out: &mut Vec<u8>) -> Result<(), AllocError>
    ensures { OnOk result (out.new.items ≡ out.old.items ++ spec.allocating) }
{
    text(
        out,
        b"
//
//  Calls that take more than one step, or that leave their results in variables.
//

NTSTATUS
AllocateContext(
    FLT_CONTEXT_TYPE Type,
    PFILTER_CONTEXT *Context
    )
{
    PFLT_CONTEXT context = NULL;
    NTSTATUS status;

    *Context = NULL;
    status = FltAllocateContext( Globals.Filter, Type, sizeof( FILTER_CONTEXT ), NonPagedPoolNx, &context );

    if (NT_SUCCESS( status )) {
        RtlZeroMemory( context, sizeof( FILTER_CONTEXT ) );
        *Context = context;
    }

    return status;
}

PFILTER_CONTEXT
ReferenceContext(
    PFILTER_CONTEXT Context
    )
{
    FltReferenceContext( Context );
    return Context;
}
",
    )
}

/// How the context of a stream is got, set and deleted.
#[tactic(auto, unfolding(crate::specs::Fixed::stream_contexts))]
pub(crate) fn stream_contexts(out: &mut Vec<u8>) -> Result<(), AllocError>
    ensures { OnOk result (out.new.items ≡ out.old.items ++ spec.stream_contexts) }
{
    text(
        out,
        b"
NTSTATUS
GetStreamContext(
    PFLT_INSTANCE Instance,
    PFILE_OBJECT FileObject,
    PFILTER_CONTEXT *Context
    )
{
    PFLT_CONTEXT context = NULL;
    NTSTATUS status = FltGetStreamContext( Instance, FileObject, &context );

    *Context = NT_SUCCESS( status ) ? context : NULL;
    return status;
}

NTSTATUS
SetStreamContext(
    PFLT_INSTANCE Instance,
    PFILE_OBJECT FileObject,
    FLT_SET_CONTEXT_OPERATION Operation,
    PFILTER_CONTEXT NewContext,
    PFILTER_CONTEXT *OldContext
    )
{
    PFLT_CONTEXT old = NULL;
    NTSTATUS status = FltSetStreamContext( Instance, FileObject, Operation, NewContext, OldContext == NULL ? NULL : &old );

    if (OldContext != NULL) {
        *OldContext = old;
    }

    return status;
}

NTSTATUS
DeleteStreamContext(
    PFLT_INSTANCE Instance,
    PFILE_OBJECT FileObject,
    PFILTER_CONTEXT *OldContext
    )
{
    PFLT_CONTEXT old = NULL;
    NTSTATUS status = FltDeleteStreamContext( Instance, FileObject, OldContext == NULL ? NULL : &old );

    if (OldContext != NULL) {
        *OldContext = NT_SUCCESS( status ) ? old : NULL;
    }

    return status;
}
",
    )
}

/// The same of the instance.
#[tactic(auto, unfolding(crate::specs::Fixed::instance_contexts))]
pub(crate) fn instance_contexts(out: &mut Vec<u8>) -> Result<(), AllocError>
    ensures { OnOk result (out.new.items ≡ out.old.items ++ spec.instance_contexts) }
{
    text(
        out,
        b"
NTSTATUS
GetInstanceContext(
    PFLT_INSTANCE Instance,
    PFILTER_CONTEXT *Context
    )
{
    PFLT_CONTEXT context = NULL;
    NTSTATUS status = FltGetInstanceContext( Instance, &context );

    *Context = NT_SUCCESS( status ) ? context : NULL;
    return status;
}

NTSTATUS
SetInstanceContext(
    PFLT_INSTANCE Instance,
    FLT_SET_CONTEXT_OPERATION Operation,
    PFILTER_CONTEXT NewContext,
    PFILTER_CONTEXT *OldContext
    )
{
    PFLT_CONTEXT old = NULL;
    NTSTATUS status = FltSetInstanceContext( Instance, Operation, NewContext, OldContext == NULL ? NULL : &old );

    if (OldContext != NULL) {
        *OldContext = old;
    }

    return status;
}

NTSTATUS
DeleteInstanceContext(
    PFLT_INSTANCE Instance,
    PFILTER_CONTEXT *OldContext
    )
{
    PFLT_CONTEXT old = NULL;
    NTSTATUS status = FltDeleteInstanceContext( Instance, OldContext == NULL ? NULL : &old );

    if (OldContext != NULL) {
        *OldContext = NT_SUCCESS( status ) ? old : NULL;
    }

    return status;
}
",
    )
}

/// How work items are queued.
#[tactic(auto, unfolding(crate::specs::Fixed::work_items))]
pub(crate) fn work_items(out: &mut Vec<u8>) -> Result<(), AllocError>
    ensures { OnOk result (out.new.items ≡ out.old.items ++ spec.work_items) }
{
    text(
        out,
        b"
NTSTATUS
QueueDeferredIo(
    PFLT_CALLBACK_DATA Data,
    PFLT_DEFERRED_IO_WORKITEM_ROUTINE Routine,
    PVOID Context
    )
{
    PFLT_DEFERRED_IO_WORKITEM item = FltAllocateDeferredIoWorkItem();
    NTSTATUS status;

    if (item == NULL) {
        return STATUS_INSUFFICIENT_RESOURCES;
    }

    status = FltQueueDeferredIoWorkItem( item, Data, Routine, DelayedWorkQueue, Context );

    if (!NT_SUCCESS( status )) {
        FltFreeDeferredIoWorkItem( item );
    }

    return status;
}

NTSTATUS
QueueGeneric(
    PFLT_INSTANCE Instance,
    PFLT_GENERIC_WORKITEM_ROUTINE Routine,
    PVOID Context
    )
{
    PFLT_GENERIC_WORKITEM item = FltAllocateGenericWorkItem();
    NTSTATUS status;

    if (item == NULL) {
        return STATUS_INSUFFICIENT_RESOURCES;
    }

    status = FltQueueGenericWorkItem( item, Instance, Routine, DelayedWorkQueue, Context );

    if (!NT_SUCCESS( status )) {
        FltFreeGenericWorkItem( item );
    }

    return status;
}
",
    )
}

/// How operations are put into the queue and removed from it.
#[tactic(auto, unfolding(crate::specs::Fixed::queueing))]
pub(crate) fn queueing(out: &mut Vec<u8>) -> Result<(), AllocError>
    ensures { OnOk result (out.new.items ≡ out.old.items ++ spec.queueing) }
{
    text(
        out,
        b"
NTSTATUS
InsertIo(
    PFLT_CALLBACK_DATA Data,
    PVOID Context
    )
{
    Data->QueueContext[0] = Context;
    Data->QueueContext[1] = NULL;
    return FltCbdqInsertIo( &Globals.Queue, Data, NULL, NULL );
}

NTSTATUS
RemoveNextIo(
    PFLT_CALLBACK_DATA *Data,
    PFILTER_CONTEXT *Context
    )
{
    *Data = FltCbdqRemoveNextIo( &Globals.Queue, NULL );
    *Context = (*Data == NULL) ? NULL : (*Data)->QueueContext[0];
    return (*Data == NULL) ? STATUS_NOT_FOUND : STATUS_SUCCESS;
}
",
    )
}

/// The callbacks of the queue that keep its entries in order.
#[tactic(auto, unfolding(crate::specs::Fixed::queue_callbacks))]
pub(crate) fn queue_callbacks(out: &mut Vec<u8>) -> Result<(), AllocError>
    ensures { OnOk result (out.new.items ≡ out.old.items ++ spec.queue_callbacks) }
{
    text(
        out,
        b"
//
//  The cancel-safe queue: first in, first out, under its own spin lock.
//

NTSTATUS FLTAPI
CsqInsertIo(
    _Inout_ PFLT_CALLBACK_DATA_QUEUE Cbdq,
    _In_ PFLT_CALLBACK_DATA Data,
    _In_opt_ PVOID InsertContext
    )
{
    UNREFERENCED_PARAMETER( Cbdq );
    UNREFERENCED_PARAMETER( InsertContext );

    InsertTailList( &Globals.QueueHead, &Data->QueueLinks );
    return STATUS_SUCCESS;
}

VOID FLTAPI
CsqRemoveIo(
    _Inout_ PFLT_CALLBACK_DATA_QUEUE Cbdq,
    _In_ PFLT_CALLBACK_DATA Data
    )
{
    UNREFERENCED_PARAMETER( Cbdq );

    RemoveEntryList( &Data->QueueLinks );
}

PFLT_CALLBACK_DATA FLTAPI
CsqPeekNextIo(
    _In_ PFLT_CALLBACK_DATA_QUEUE Cbdq,
    _In_opt_ PFLT_CALLBACK_DATA Data,
    _In_opt_ PVOID PeekContext
    )
{
    PLIST_ENTRY next = (Data == NULL) ? Globals.QueueHead.Flink : Data->QueueLinks.Flink;

    UNREFERENCED_PARAMETER( Cbdq );
    UNREFERENCED_PARAMETER( PeekContext );

    return (next == &Globals.QueueHead) ? NULL : CONTAINING_RECORD( next, FLT_CALLBACK_DATA, QueueLinks );
}
",
    )
}

/// The callbacks of the queue that take and release its lock.
#[tactic(auto, unfolding(crate::specs::Fixed::queue_locking))]
pub(crate) fn queue_locking(out: &mut Vec<u8>) -> Result<(), AllocError>
    ensures { OnOk result (out.new.items ≡ out.old.items ++ spec.queue_locking) }
{
    text(
        out,
        b"
VOID FLTAPI
CsqAcquire(
    _In_ PFLT_CALLBACK_DATA_QUEUE Cbdq,
    _Out_opt_ PKIRQL Irql
    )
{
    UNREFERENCED_PARAMETER( Cbdq );

    KeAcquireSpinLock( &Globals.QueueLock, Irql );
}

VOID FLTAPI
CsqRelease(
    _In_ PFLT_CALLBACK_DATA_QUEUE Cbdq,
    _In_opt_ KIRQL Irql
    )
{
    UNREFERENCED_PARAMETER( Cbdq );

    KeReleaseSpinLock( &Globals.QueueLock, Irql );
}

//
//  From here on an insert fails, and the operations in the queue are treated as cancelled ones.
//

VOID FLTAPI
InstanceTeardownStart(
    _In_ PCFLT_RELATED_OBJECTS FltObjects,
    _In_ FLT_INSTANCE_TEARDOWN_FLAGS Reason
    )
{
    PFLT_CALLBACK_DATA data;

    UNREFERENCED_PARAMETER( FltObjects );
    UNREFERENCED_PARAMETER( Reason );

    FltCbdqDisable( &Globals.Queue );

    while ((data = FltCbdqRemoveNextIo( &Globals.Queue, NULL )) != NULL) {
        CompleteCanceledIo( &Globals.Queue, data );
    }
}
",
    )
}

/// How the filter attaches to one volume.
#[tactic(auto, unfolding(crate::specs::Fixed::attaching))]
pub(crate) fn attaching(out: &mut Vec<u8>) -> Result<(), AllocError>
    ensures { OnOk result (out.new.items ≡ out.old.items ++ spec.attaching) }
{
    text(
        out,
        b"
//
//  Registration.
//

NTSTATUS FLTAPI
InstanceSetup(
    _In_ PCFLT_RELATED_OBJECTS FltObjects,
    _In_ FLT_INSTANCE_SETUP_FLAGS Flags,
    _In_ DEVICE_TYPE VolumeDeviceType,
    _In_ FLT_FILESYSTEM_TYPE VolumeFilesystemType
    )
{
    UNREFERENCED_PARAMETER( Flags );

    if (!USER_WANTS_VOLUME( FltObjects, VolumeDeviceType, VolumeFilesystemType )) {
        return STATUS_FLT_DO_NOT_ATTACH;
    }

    if (InterlockedCompareExchange( &Globals.Attached, 1, 0 ) != 0) {
        return STATUS_FLT_DO_NOT_ATTACH;
    }

",
    )
}

/// How the queue begins.
#[tactic(auto, unfolding(crate::specs::Fixed::queue_setup))]
pub(crate) fn queue_setup(out: &mut Vec<u8>) -> Result<(), AllocError>
    ensures { OnOk result (out.new.items ≡ out.old.items ++ spec.queue_setup) }
{
    text(
        out,
        b"    if (!NT_SUCCESS( FltCbdqInitialize( FltObjects->Instance,
                                        &Globals.Queue,
                                        CsqInsertIo,
                                        CsqRemoveIo,
                                        CsqPeekNextIo,
                                        CsqAcquire,
                                        CsqRelease,
                                        CompleteCanceledIo ) )) {
        InterlockedExchange( &Globals.Attached, 0 );
        return STATUS_FLT_DO_NOT_ATTACH;
    }

",
    )
}

/// How the filter detaches, up to the locks that are deleted then.
#[tactic(auto, unfolding(crate::specs::Fixed::detaching))]
pub(crate) fn detaching(out: &mut Vec<u8>) -> Result<(), AllocError>
    ensures { OnOk result (out.new.items ≡ out.old.items ++ spec.detaching) }
{
    text(
        out,
        b"    return STATUS_SUCCESS;
}

NTSTATUS FLTAPI
InstanceQueryTeardown(
    _In_ PCFLT_RELATED_OBJECTS FltObjects,
    _In_ FLT_INSTANCE_QUERY_TEARDOWN_FLAGS Flags
    )
{
    UNREFERENCED_PARAMETER( FltObjects );
    UNREFERENCED_PARAMETER( Flags );

    return STATUS_SUCCESS;
}

VOID FLTAPI
InstanceTeardownComplete(
    _In_ PCFLT_RELATED_OBJECTS FltObjects,
    _In_ FLT_INSTANCE_TEARDOWN_FLAGS Reason
    )
{
    UNREFERENCED_PARAMETER( FltObjects );
    UNREFERENCED_PARAMETER( Reason );

    InterlockedExchange( &Globals.Attached, 0 );
}

NTSTATUS FLTAPI
FilterUnload(
    _In_ FLT_FILTER_UNLOAD_FLAGS Flags
    )
{
    UNREFERENCED_PARAMETER( Flags );

    FltUnregisterFilter( Globals.Filter );
",
    )
}

/// The lines before the registered operations.
#[tactic(auto, unfolding(crate::specs::Fixed::operations))]
pub(crate) fn operations(out: &mut Vec<u8>) -> Result<(), AllocError>
    ensures { OnOk result (out.new.items ≡ out.old.items ++ spec.operations) }
{
    text(
        out,
        b"    return STATUS_SUCCESS;
}

const FLT_OPERATION_REGISTRATION Callbacks[] = {
",
    )
}

/// The contexts that are registered, and the callbacks but one.
#[tactic(auto, unfolding(crate::specs::Fixed::registration))]
pub(crate) fn registration(out: &mut Vec<u8>) -> Result<(), AllocError>
    ensures { OnOk result (out.new.items ≡ out.old.items ++ spec.registration) }
{
    text(
        out,
        b"    { IRP_MJ_OPERATION_END, 0, NULL, NULL, NULL }
};

const FLT_CONTEXT_REGISTRATION Contexts[] = {
    { FLT_STREAM_CONTEXT, 0, NULL, sizeof( FILTER_CONTEXT ), USER_CONTEXT_TAG, NULL, NULL, NULL },
    { FLT_INSTANCE_CONTEXT, 0, NULL, sizeof( FILTER_CONTEXT ), USER_CONTEXT_TAG, NULL, NULL, NULL },
    { FLT_CONTEXT_END, 0, NULL, 0, 0, NULL, NULL, NULL }
};

const FLT_REGISTRATION Registration = {
    .Size = sizeof( FLT_REGISTRATION ),
    .Version = FLT_REGISTRATION_VERSION,
    .ContextRegistration = Contexts,
    .OperationRegistration = Callbacks,
    .FilterUnloadCallback = FilterUnload,
    .InstanceSetupCallback = InstanceSetup,
    .InstanceQueryTeardownCallback = InstanceQueryTeardown,
",
    )
}

/// The callback that a filter with a queue registers.
#[tactic(auto, unfolding(crate::specs::Fixed::queue_registration))]
pub(crate) fn queue_registration(out: &mut Vec<u8>) -> Result<(), AllocError>
    ensures { OnOk result (out.new.items ≡ out.old.items ++ spec.queue_registration) }
{
    text(
        out,
        b"    .InstanceTeardownStartCallback = InstanceTeardownStart,
",
    )
}

/// How the driver begins, up to its locks.
#[tactic(auto, unfolding(crate::specs::Fixed::entry))]
pub(crate) fn entry(out: &mut Vec<u8>) -> Result<(), AllocError>
    ensures { OnOk result (out.new.items ≡ out.old.items ++ spec.entry) }
{
    text(
        out,
        b"    .InstanceTeardownCompleteCallback = InstanceTeardownComplete,
};

NTSTATUS NTAPI
DriverEntry(
    _In_ PDRIVER_OBJECT DriverObject,
    _In_ PUNICODE_STRING RegistryPath
    )
{
    NTSTATUS status;

    UNREFERENCED_PARAMETER( RegistryPath );
",
    )
}

/// How the lock of the queue and its list begin.
#[tactic(auto, unfolding(crate::specs::Fixed::queue_entry))]
pub(crate) fn queue_entry(out: &mut Vec<u8>) -> Result<(), AllocError>
    ensures { OnOk result (out.new.items ≡ out.old.items ++ spec.queue_entry) }
{
    text(
        out,
        b"    KeInitializeSpinLock( &Globals.QueueLock );
    InitializeListHead( &Globals.QueueHead );
",
    )
}

/// How the driver registers.
#[tactic(auto, unfolding(crate::specs::Fixed::registering))]
pub(crate) fn registering(out: &mut Vec<u8>) -> Result<(), AllocError>
    ensures { OnOk result (out.new.items ≡ out.old.items ++ spec.registering) }
{
    text(
        out,
        b"
    status = FltRegisterFilter( DriverObject, &Registration, &Globals.Filter );

    if (NT_SUCCESS( status )) {
        status = FltStartFiltering( Globals.Filter );

        if (!NT_SUCCESS( status )) {
            FltUnregisterFilter( Globals.Filter );
        }
    }

",
    )
}

/// The end of the source.
#[tactic(auto, unfolding(crate::specs::Fixed::ending))]
pub(crate) fn ending(out: &mut Vec<u8>) -> Result<(), AllocError>
    ensures { OnOk result (out.new.items ≡ out.old.items ++ spec.ending) }
{
    text(
        out,
        b"    return status;
}
",
    )
}
