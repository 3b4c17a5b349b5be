//! The members of a SARIF run for its files and columns.

ghost use Rattle.std.specs.Prelude.{◌∷◌, [], codes, flat_map};
ghost use Rattle.flt_explain_parts.specs.Members.{Adds, array_member, object_member};
ghost use Rattle.flt_explain_parts.specs.Uri.{reference_of};
ghost use Rattle.flt_explain_sarif.specs.Results.{reference as reference_members};
ghost use Rattle.flt_explain_sarif.specs.Sarif as spec;
ghost use Rattle.json.specs.Token.{string};

use crate::results::put_reference;
use flt_explain_parts::{
    close_array, close_object, open_array, open_object, put_key, put_string, reference_to,
};
use json::Writer;
use std::alloc::{AllocError, Global};

fn put_role(writer: &mut Writer) -> Result<(), AllocError>
    ensures { Adds result writer.old writer.new (string (codes "analysisTarget") ∷ []) }
{
    writer.string("analysisTarget")
}

fn put_roles(writer: &mut Writer) -> Result<(), AllocError>
    ensures { Adds result writer.old writer.new (array_member (codes "roles") (string (codes "analysisTarget") ∷ [])) }
{
    put_key(writer, "roles")?;
    open_array(writer)?;
    put_role(writer)?;
    close_array(writer)
}

fn put_name(alloc: Global, writer: &mut Writer, name: &str) -> Result<(), AllocError>
    ensures { Adds result writer.old writer.new (reference_members (reference_of name.now)) }
{
    let reference = reference_to(alloc, name)?;
    put_reference(alloc, writer, &reference)
}

fn put_location(alloc: Global, writer: &mut Writer, name: &str) -> Result<(), AllocError>
    ensures { Adds result writer.old writer.new
        (object_member (codes "location") (reference_members (reference_of name.now))) }
{
    put_key(writer, "location")?;
    open_object(writer)?;
    put_name(alloc, writer, name)?;
    close_object(writer)
}

fn put_artifact(alloc: Global, writer: &mut Writer, name: &str) -> Result<(), AllocError>
    ensures { Adds result writer.old writer.new (spec.artifact name.now) }
{
    open_object(writer)?;
    put_location(alloc, writer, name)?;
    put_roles(writer)?;
    close_object(writer)
}

/// Writes a file for each name.
fn put_each(alloc: Global, writer: &mut Writer, names: &[&str]) -> Result<(), AllocError>
    ensures { Adds result writer.old writer.new (flat_map (λ n. spec.artifact n.now) names.now) }
{
    for name in names {
        put_artifact(alloc, writer, name)?;
    }
    Ok(())
}

fn put_artifacts(alloc: Global, writer: &mut Writer, names: &[&str]) -> Result<(), AllocError>
    ensures { Adds result writer.old writer.new (spec.artifacts names.now) }
{
    put_key(writer, "artifacts")?;
    open_array(writer)?;
    put_each(alloc, writer, names)?;
    close_array(writer)
}

fn put_base_text(writer: &mut Writer) -> Result<(), AllocError>
    ensures { Adds result writer.old writer.new spec.base_text }
{
    put_key(writer, "description")?;
    open_object(writer)?;
    put_string(writer, "text", "the folder in which the program ran")?;
    close_object(writer)
}

fn put_root(writer: &mut Writer) -> Result<(), AllocError>
    ensures { Adds result writer.old writer.new (object_member (codes "%SRCROOT%") spec.base_text) }
{
    put_key(writer, "%SRCROOT%")?;
    open_object(writer)?;
    put_base_text(writer)?;
    close_object(writer)
}

fn put_bases(writer: &mut Writer) -> Result<(), AllocError>
    ensures { Adds result writer.old writer.new spec.bases }
{
    put_key(writer, "originalUriBaseIds")?;
    open_object(writer)?;
    put_root(writer)?;
    close_object(writer)
}

fn put_column_kind(writer: &mut Writer) -> Result<(), AllocError>
    ensures { Adds result writer.old writer.new spec.column_kind }
{
    put_string(writer, "columnKind", "utf16CodeUnits")
}

/// Writes how files and columns are named.
pub(crate) fn put_setting(
    alloc: Global,
    writer: &mut Writer,
    names: &[&str],
) -> Result<(), AllocError>
    ensures { Adds result writer.old writer.new (spec.setting names.now) }
{
    put_bases(writer)?;
    put_artifacts(alloc, writer, names)?;
    put_column_kind(writer)
}
