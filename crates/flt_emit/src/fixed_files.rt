//! The parts of the writer's header and of the file for the installation that are the same for all filters.

ghost use Rattle.flt_emit.specs.FixedFiles as spec;
ghost use Rattle.std.specs.Prelude.{◌≡◌, ◌++◌, OnOk};

use crate::line::text;
use std::alloc::AllocError;

/// The title of the writer's header, up to the filter's name.
#[tactic(auto, unfolding(crate::specs::FixedFiles::user_title))]
pub(crate) fn user_title(out: &mut Vec<u8>) -> Result<(), AllocError>
    ensures { OnOk result (out.new.items ≡ out.old.items ++ spec.user_title) }
{
    text(out, b"_user.h - the writer's own part of the minifilter `")
}

/// The head of the writer's header after the filter's name.
#[tactic(auto, unfolding(crate::specs::FixedFiles::user_written))]
pub(crate) fn user_written(out: &mut Vec<u8>) -> Result<(), AllocError>
    ensures { OnOk result (out.new.items ≡ out.old.items ++ spec.user_written) }
{
    text(
        out,
        b" *
 *  Written once by fltstack; it is yours from then on. Your code here must not hand over, complete or keep Data or a
 *  context, take a lock of the text, or raise the IRQL: the proofs about the text hold for the driver only then. A hook
 *  is at the beginning of its callback, which runs at most at APC_LEVEL where it is named PRE or CANCELED, at
 *  DISPATCH_LEVEL where it is named POST, and else at PASSIVE_LEVEL. The Context that it is given may be NULL.
 */

#pragma once

//  Which volume the filter attaches to: the first one offered for which this is TRUE.

#define USER_WANTS_VOLUME( FltObjects, VolumeDeviceType, VolumeFilesystemType ) \\
    ((VOID) (FltObjects), (VOID) (VolumeDeviceType), (VOID) (VolumeFilesystemType), TRUE)

//  Fields of a context beside the text's value. They are zero at first, and nothing of the text guards them.

#define USER_CONTEXT_FIELDS

//  The pool tag of contexts.

#define USER_CONTEXT_TAG 0x73746c66    // 'flts', as the debugger shows it

//  The text's `file`: a number that says which file this is. The analysis takes any number as possible, so any function of the
//  file object will do. In a pre callback of create FsContext isn't set yet.

#define USER_FILE_NUMBER( FileObject ) ((ULONG64) (ULONG_PTR) (FileObject)->FsContext)

//  Hooks, one for each callback.

",
    )
}

/// The head of the file for the installation, up to the catalog's name.
#[tactic(auto, unfolding(crate::specs::FixedFiles::inf_head))]
pub(crate) fn inf_head(out: &mut Vec<u8>) -> Result<(), AllocError>
    ensures { OnOk result (out.new.items ≡ out.old.items ++ spec.inf_head) }
{
    text(
        out,
        b"[Version]
Signature   = \"$WINDOWS NT$\"
Class       = \"ActivityMonitor\"                          ; choose the class that fits the altitude
ClassGuid   = {b86dff51-a31e-4bac-b3cf-e8cfe75c9fc2}
Provider    = %Provider%
DriverVer   = 01/01/2026,1.0.0.0
CatalogFile = ",
    )
}

/// Up to the name of the file that is copied from the disk.
#[tactic(auto, unfolding(crate::specs::FixedFiles::inf_files))]
pub(crate) fn inf_files(out: &mut Vec<u8>) -> Result<(), AllocError>
    ensures { OnOk result (out.new.items ≡ out.old.items ++ spec.inf_files) }
{
    text(
        out,
        b".cat
PnpLockdown = 1

[DestinationDirs]
DefaultDestDir = 13

[SourceDisksNames]
1 = %Disk%

[SourceDisksFiles]
",
    )
}

/// Up to its name among those of the driver.
#[tactic(auto, unfolding(crate::specs::FixedFiles::inf_copied))]
pub(crate) fn inf_copied(out: &mut Vec<u8>) -> Result<(), AllocError>
    ensures { OnOk result (out.new.items ≡ out.old.items ++ spec.inf_copied) }
{
    text(
        out,
        b".sys = 1

[DefaultInstall.NTamd64]
CopyFiles = DriverFiles

[DriverFiles]
",
    )
}

/// Up to the service's name.
#[tactic(auto, unfolding(crate::specs::FixedFiles::inf_service))]
pub(crate) fn inf_service(out: &mut Vec<u8>) -> Result<(), AllocError>
    ensures { OnOk result (out.new.items ≡ out.old.items ++ spec.inf_service) }
{
    text(
        out,
        b".sys

[DefaultInstall.NTamd64.Services]
AddService = ",
    )
}

/// Up to the name by which it is shown.
#[tactic(auto, unfolding(crate::specs::FixedFiles::inf_shown))]
pub(crate) fn inf_shown(out: &mut Vec<u8>) -> Result<(), AllocError>
    ensures { OnOk result (out.new.items ≡ out.old.items ++ spec.inf_shown) }
{
    text(
        out,
        b",,Service

[Service]
DisplayName   = ",
    )
}

/// Up to the name of its binary.
#[tactic(auto, unfolding(crate::specs::FixedFiles::inf_binary))]
pub(crate) fn inf_binary(out: &mut Vec<u8>) -> Result<(), AllocError>
    ensures { OnOk result (out.new.items ≡ out.old.items ++ spec.inf_binary) }
{
    text(
        out,
        b"
ServiceBinary = %13%\\",
    )
}

/// Up to the name of the instance that attaches by itself.
#[tactic(auto, unfolding(crate::specs::FixedFiles::inf_registered))]
pub(crate) fn inf_registered(out: &mut Vec<u8>) -> Result<(), AllocError>
    ensures { OnOk result (out.new.items ≡ out.old.items ++ spec.inf_registered) }
{
    text(
        out,
        b".sys
Dependencies  = FltMgr
ServiceType   = 2                                        ; SERVICE_FILE_SYSTEM_DRIVER
StartType     = 3                                        ; SERVICE_DEMAND_START
ErrorControl  = 1
AddReg        = Registration

[Registration]
HKR,Parameters,SupportedFeatures,0x00010001,0x3
HKR,Parameters\\Instances,DefaultInstance,0x00000000,\"",
    )
}

/// Up to the name of the instance among the instances.
#[tactic(auto, unfolding(crate::specs::FixedFiles::inf_instance))]
pub(crate) fn inf_instance(out: &mut Vec<u8>) -> Result<(), AllocError>
    ensures { OnOk result (out.new.items ≡ out.old.items ++ spec.inf_instance) }
{
    text(
        out,
        b"\"
HKR,Parameters\\Instances\\",
    )
}

/// Up to the altitude, after that name.
#[tactic(auto, unfolding(crate::specs::FixedFiles::inf_altitude))]
pub(crate) fn inf_altitude(out: &mut Vec<u8>) -> Result<(), AllocError>
    ensures { OnOk result (out.new.items ≡ out.old.items ++ spec.inf_altitude) }
{
    text(out, b",Altitude,0x00000000,\"")
}

/// Up to the name of the instance again.
#[tactic(auto, unfolding(crate::specs::FixedFiles::inf_flags))]
pub(crate) fn inf_flags(out: &mut Vec<u8>) -> Result<(), AllocError>
    ensures { OnOk result (out.new.items ≡ out.old.items ++ spec.inf_flags) }
{
    text(
        out,
        b"\"
HKR,Parameters\\Instances\\",
    )
}

/// Up to the name of the disk, after that name.
#[tactic(auto, unfolding(crate::specs::FixedFiles::inf_strings))]
pub(crate) fn inf_strings(out: &mut Vec<u8>) -> Result<(), AllocError>
    ensures { OnOk result (out.new.items ≡ out.old.items ++ spec.inf_strings) }
{
    text(
        out,
        b",Flags,0x00010001,0x0

[Strings]
Provider = \"your name\"
Disk     = \"",
    )
}

/// The end of the file.
#[tactic(auto, unfolding(crate::specs::FixedFiles::inf_end))]
pub(crate) fn inf_end(out: &mut Vec<u8>) -> Result<(), AllocError>
    ensures { OnOk result (out.new.items ≡ out.old.items ++ spec.inf_end) }
{
    text(
        out,
        b"\"
",
    )
}
