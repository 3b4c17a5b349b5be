//! The parts of callbacks and of their prototypes that are the same for all filters.

ghost use Rattle.flt_emit.specs.Fixed as spec;
ghost use Rattle.std.specs.Prelude.{◌≡◌, ◌++◌, OnOk};

use crate::line::text;
use std::alloc::AllocError;

/// How the prototype of a pre callback begins.
#[tactic(auto, unfolding(crate::specs::Fixed::pre_head))]
pub(crate) fn pre_head(out: &mut Vec<u8>) -> Result<(), AllocError>
    ensures { OnOk result (out.new.items ≡ out.old.items ++ spec.pre_head) }
{
    text(
        out,
        b"FLT_PREOP_CALLBACK_STATUS FLTAPI
Pre",
    )
}

/// How the prototype of a post callback begins.
#[tactic(auto, unfolding(crate::specs::Fixed::post_head))]
pub(crate) fn post_head(out: &mut Vec<u8>) -> Result<(), AllocError>
    ensures { OnOk result (out.new.items ≡ out.old.items ++ spec.post_head) }
{
    text(
        out,
        b"FLT_POSTOP_CALLBACK_STATUS FLTAPI
Post",
    )
}

/// How the prototype of a routine begins that has an operation.
#[tactic(auto, unfolding(crate::specs::Fixed::deferred_head))]
pub(crate) fn deferred_head(out: &mut Vec<u8>) -> Result<(), AllocError>
    ensures { OnOk result (out.new.items ≡ out.old.items ++ spec.deferred_head) }
{
    text(
        out,
        b"VOID FLTAPI
Deferred_",
    )
}

/// How the prototype of a routine begins that has none.
#[tactic(auto, unfolding(crate::specs::Fixed::generic_head))]
pub(crate) fn generic_head(out: &mut Vec<u8>) -> Result<(), AllocError>
    ensures { OnOk result (out.new.items ≡ out.old.items ++ spec.generic_head) }
{
    text(
        out,
        b"VOID FLTAPI
Generic_",
    )
}

/// The parameters of a pre callback.
#[tactic(auto, unfolding(crate::specs::Fixed::pre_parameters))]
pub(crate) fn pre_parameters(out: &mut Vec<u8>) -> Result<(), AllocError>
    ensures { OnOk result (out.new.items ≡ out.old.items ++ spec.pre_parameters) }
{
    text(
        out,
        b"(
    _Inout_ PFLT_CALLBACK_DATA Data,
    _In_ PCFLT_RELATED_OBJECTS FltObjects,
    _Flt_CompletionContext_Outptr_ PVOID *CompletionContext
    )",
    )
}

/// The parameters of a post callback.
#[tactic(auto, unfolding(crate::specs::Fixed::post_parameters))]
pub(crate) fn post_parameters(out: &mut Vec<u8>) -> Result<(), AllocError>
    ensures { OnOk result (out.new.items ≡ out.old.items ++ spec.post_parameters) }
{
    text(
        out,
        b"(
    _Inout_ PFLT_CALLBACK_DATA Data,
    _In_ PCFLT_RELATED_OBJECTS FltObjects,
    _In_opt_ PVOID CompletionContext,
    _In_ FLT_POST_OPERATION_FLAGS Flags
    )",
    )
}

/// The prototype of the callback for cancelled operations.
#[tactic(auto, unfolding(crate::specs::Fixed::canceled_prototype))]
pub(crate) fn canceled_prototype(out: &mut Vec<u8>) -> Result<(), AllocError>
    ensures { OnOk result (out.new.items ≡ out.old.items ++ spec.canceled_prototype) }
{
    text(
        out,
        b"VOID FLTAPI
CompleteCanceledIo(
    _Inout_ PFLT_CALLBACK_DATA_QUEUE Cbdq,
    _Inout_ PFLT_CALLBACK_DATA Data
    )",
    )
}

/// The parameters of a routine that has an operation.
#[tactic(auto, unfolding(crate::specs::Fixed::deferred_parameters))]
pub(crate) fn deferred_parameters(out: &mut Vec<u8>) -> Result<(), AllocError>
    ensures { OnOk result (out.new.items ≡ out.old.items ++ spec.deferred_parameters) }
{
    text(
        out,
        b"(
    _In_ PFLT_DEFERRED_IO_WORKITEM WorkItem,
    _In_ PFLT_CALLBACK_DATA Data,
    _In_opt_ PVOID Context
    )",
    )
}

/// The parameters of a routine that has none.
#[tactic(auto, unfolding(crate::specs::Fixed::generic_parameters))]
pub(crate) fn generic_parameters(out: &mut Vec<u8>) -> Result<(), AllocError>
    ensures { OnOk result (out.new.items ≡ out.old.items ++ spec.generic_parameters) }
{
    text(
        out,
        b"(
    _In_ PFLT_GENERIC_WORKITEM WorkItem,
    _In_ PVOID FltObject,
    _In_opt_ PVOID Context
    )",
    )
}

/// The writer's hook for cancelled operations.
#[tactic(auto, unfolding(crate::specs::Fixed::canceled_hook))]
pub(crate) fn canceled_hook(out: &mut Vec<u8>) -> Result<(), AllocError>
    ensures { OnOk result (out.new.items ≡ out.old.items ++ spec.canceled_hook) }
{
    text(
        out,
        b"    UNREFERENCED_PARAMETER( Cbdq );

    USER_CANCELED( Data, Instance, arg );
",
    )
}

/// The end of a pre or a post callback that doesn't return on each of its paths.
#[tactic(auto, unfolding(crate::specs::Fixed::unreached))]
pub(crate) fn unreached(out: &mut Vec<u8>) -> Result<(), AllocError>
    ensures { OnOk result (out.new.items ≡ out.old.items ++ spec.unreached) }
{
    text(
        out,
        b"
    FLT_ASSERT( FALSE );    // no run of the text comes here
    ",
    )
}

/// The end of a routine that has an operation.
#[tactic(auto, unfolding(crate::specs::Fixed::free_deferred))]
pub(crate) fn free_deferred(out: &mut Vec<u8>) -> Result<(), AllocError>
    ensures { OnOk result (out.new.items ≡ out.old.items ++ spec.free_deferred) }
{
    text(
        out,
        b"    FltFreeDeferredIoWorkItem( WorkItem );
",
    )
}

/// The end of a routine that has none.
#[tactic(auto, unfolding(crate::specs::Fixed::free_generic))]
pub(crate) fn free_generic(out: &mut Vec<u8>) -> Result<(), AllocError>
    ensures { OnOk result (out.new.items ≡ out.old.items ++ spec.free_generic) }
{
    text(
        out,
        b"    FltFreeGenericWorkItem( WorkItem );
",
    )
}
