//! How the program ran, as an invocation of SARIF, with files that aren't read as its notifications.

ghost use Rattle.std.specs.Prelude.{◌≡◌, codes, flat_map, string_bytes, []};
ghost use Rattle.std.specs.Prelude.{◌∷◌};
ghost use Rattle.flt_explain_parts.specs.Members.{Adds, number_member, object_member};
ghost use Rattle.flt_explain_sarif.specs.Results.{item, reference as reference_members};
ghost use Rattle.flt_explain_sarif.specs.Sarif as spec;
ghost use Rattle.json.specs.Token.{boolean, key};

use crate::results::{put_level, put_reference};
use flt_explain_parts::{
    Reference, close_array, close_object, open_array, open_object, put_key, put_number, put_string,
    reference_to,
};
use flt_files::UnreadFile;
use json::Writer;
use std::alloc::{AllocError, Global};

fn put_why(writer: &mut Writer, file: &UnreadFile) -> Result<(), AllocError>
    ensures { Adds result writer.old writer.new (spec.reason (string_bytes file.now.why)) }
{
    put_key(writer, "message")?;
    open_object(writer)?;
    put_string(writer, "text", file.why.as_str())?;
    close_object(writer)
}

fn put_name(alloc: Global, writer: &mut Writer, name: &Reference) -> Result<(), AllocError>
    ensures { Adds result writer.old writer.new (object_member (codes "artifactLocation") (reference_members name.now)) }
{
    put_key(writer, "artifactLocation")?;
    open_object(writer)?;
    put_reference(alloc, writer, name)?;
    close_object(writer)
}

fn put_file(alloc: Global, writer: &mut Writer, name: &Reference) -> Result<(), AllocError>
    ensures { Adds result writer.old writer.new (spec.whole_file name.now) }
{
    put_key(writer, "physicalLocation")?;
    open_object(writer)?;
    put_name(alloc, writer, name)?;
    close_object(writer)
}

fn put_place(alloc: Global, writer: &mut Writer, name: &Reference) -> Result<(), AllocError>
    ensures { Adds result writer.old writer.new (item (spec.whole_file name.now)) }
{
    open_object(writer)?;
    put_file(alloc, writer, name)?;
    close_object(writer)
}

fn put_places(alloc: Global, writer: &mut Writer, file: &UnreadFile) -> Result<(), AllocError>
    ensures { Adds result writer.old writer.new (spec.unread_places (string_bytes file.now.name)) }
{
    let name = reference_to(alloc, file.name.as_str())?;
    put_key(writer, "locations")?;
    open_array(writer)?;
    put_place(alloc, writer, &name)?;
    close_array(writer)
}

/// Writes that a file isn't read, and why.
fn put_notification(alloc: Global, writer: &mut Writer, file: &UnreadFile) -> Result<(), AllocError>
    ensures { Adds result writer.old writer.new (spec.notification file.now) }
{
    open_object(writer)?;
    put_level(writer)?;
    put_why(writer, file)?;
    put_places(alloc, writer, file)?;
    close_object(writer)
}

/// The same for several files, in their order.
fn put_each(alloc: Global, writer: &mut Writer, files: &[UnreadFile]) -> Result<(), AllocError>
    ensures { Adds result writer.old writer.new (flat_map spec.notification files.now) }
{
    for file in files {
        put_notification(alloc, writer, file)?;
    }
    Ok(())
}

fn put_notifications(
    alloc: Global,
    writer: &mut Writer,
    files: &[UnreadFile],
) -> Result<(), AllocError>
    ensures { Adds result writer.old writer.new
        (spec.notifications files.now) }
{
    put_key(writer, "toolExecutionNotifications")?;
    open_array(writer)?;
    put_each(alloc, writer, files)?;
    close_array(writer)
}

fn is_successful(files: &[UnreadFile]) -> bool
    ensures { result ≡ spec.is_successful files.now }
{
    match files {
        [] => true,
        [_, ..] => false,
    }
}

fn exit_code(files: &[UnreadFile], status: u8) -> usize
    ensures { result ≡ spec.exit_code files.now status }
{
    match files {
        [] => status as usize,
        [_, ..] => 2,
    }
}

fn put_is_successful(writer: &mut Writer, files: &[UnreadFile]) -> Result<(), AllocError>
    ensures { Adds result writer.old writer.new (boolean (spec.is_successful files.now) ∷ []) }
{
    writer.boolean(is_successful(files))
}

fn put_success(writer: &mut Writer, files: &[UnreadFile]) -> Result<(), AllocError>
    ensures { Adds result writer.old writer.new (key (codes "executionSuccessful") ∷ boolean (spec.is_successful files.now) ∷ []) }
{
    put_key(writer, "executionSuccessful")?;
    put_is_successful(writer, files)
}

fn put_exit_code(writer: &mut Writer, files: &[UnreadFile], status: u8) -> Result<(), AllocError>
    ensures { Adds result writer.old writer.new (number_member (codes "exitCode") (spec.exit_code files.now status)) }
{
    put_number(writer, "exitCode", exit_code(files, status))
}

fn put_invocation(
    alloc: Global,
    writer: &mut Writer,
    files: &[UnreadFile],
    status: u8,
) -> Result<(), AllocError>
    ensures { Adds result writer.old writer.new (spec.invocation files.now status) }
{
    open_object(writer)?;
    put_success(writer, files)?;
    put_exit_code(writer, files, status)?;
    put_notifications(alloc, writer, files)?;
    close_object(writer)
}

/// Writes how the program ran, with these files that aren't read, by the status of the others.
pub(crate) fn put_invocations(
    alloc: Global,
    writer: &mut Writer,
    files: &[UnreadFile],
    status: u8,
) -> Result<(), AllocError>
    ensures { Adds result writer.old writer.new (spec.invocations files.now status) }
{
    put_key(writer, "invocations")?;
    open_array(writer)?;
    put_invocation(alloc, writer, files, status)?;
    close_array(writer)
}
