//! Warnings, as JSON.

ghost use Rattle.std.specs.Prelude.{◌≡◌, ◌++◌, IfOk, flat_map};
ghost use Rattle.flt_explain_forms.specs.Warning as spec;
ghost use Rattle.flt_explain_parts.specs.Members.{Adds, string_member};
ghost use Rattle.flt_explain_warnings.specs.Kinds.{kind_name};

use crate::places::put_marks;
use crate::preface::put_preface;
use flt_explain_parts::{
    close_array, close_object, open_array, open_object, put_filled_items, put_items, put_key,
    put_null, put_numbers, put_string, put_warning_level,
};
use flt_explain_warning_details::{RelatedPlace, WarningDetail};
use flt_explain_warnings::{Kind, Site};
use flt_places::Files;
use json::Writer;
use sqlite_items::Items;
use std::alloc::{AllocError, Global};

/// Writes the name of a kind of warnings under a name.
pub(crate) fn put_kind_name(writer: &mut Writer, name: &str, kind: Kind) -> Result<(), AllocError>
    ensures { Adds result writer.old writer.new (string_member name.now (kind_name kind)) }
{
    put_string(writer, name, kind.name())
}

fn put_no_site(writer: &mut Writer) -> Result<(), AllocError>
    ensures { Adds result writer.old writer.new spec.no_site }
{
    put_null(writer, "callback")?;
    put_null(writer, "point")
}

/// Writes the point that a warning is about, or nulls.
fn put_site(writer: &mut Writer, site: Option<Site>) -> Result<(), AllocError>
    ensures { Adds result writer.old writer.new (spec.site_members site) }
{
    match site {
        None => put_no_site(writer),
        Some(site) => put_numbers(writer, site),
    }
}

/// Writes the level and the place of a warning.
fn put_place(
    writer: &mut Writer,
    files: &Files<'_>,
    home: usize,
    detail: &WarningDetail,
) -> Result<(), AllocError>
    ensures { Adds result writer.old writer.new (spec.place files.now home detail.now) }
{
    put_warning_level(writer)?;
    put_site(writer, detail.site)?;
    put_marks(writer, files, home, detail.marks)
}

fn put_words(alloc: Global, writer: &mut Writer, detail: &WarningDetail) -> Result<(), AllocError>
    ensures { Adds result writer.old writer.new (spec.words detail.now) }
{
    put_kind_name(writer, "warning", detail.kind)?;
    put_filled_items(alloc, writer, "head", &detail.head)?;
    put_items(alloc, writer, "message", &detail.title)?;
    put_items(alloc, writer, "help", &detail.help)?;
    put_filled_items(alloc, writer, "note", &detail.note)
}

/// Writes another place, with its words.
fn put_related_place(
    alloc: Global,
    writer: &mut Writer,
    files: &Files<'_>,
    home: usize,
    place: &RelatedPlace,
) -> Result<(), AllocError>
    ensures { Adds result writer.old writer.new (spec.related_place files.now home place.now) }
{
    open_object(writer)?;
    put_marks(writer, files, home, place.marks)?;
    put_items(alloc, writer, "message", &place.words)?;
    close_object(writer)
}

fn put_related_places(
    alloc: Global,
    writer: &mut Writer,
    files: &Files<'_>,
    home: usize,
    places: &Items<RelatedPlace>,
) -> Result<(), AllocError>
    ensures { Adds result writer.old writer.new (flat_map (spec.related_place files.now home) places.now) }
{
    for place in places.as_slice() {
        put_related_place(alloc, writer, files, home, place)?;
    }
    Ok(())
}

/// Writes the other places, in order.
fn put_related(
    alloc: Global,
    writer: &mut Writer,
    files: &Files<'_>,
    home: usize,
    detail: &WarningDetail,
) -> Result<(), AllocError>
    ensures { Adds result writer.old writer.new (spec.related files.now home detail.now) }
{
    put_key(writer, "related")?;
    open_array(writer)?;
    put_related_places(alloc, writer, files, home, &detail.related)?;
    close_array(writer)
}

/// Writes the reason of the comment that allows a warning, or null.
fn put_suppressed(
    alloc: Global,
    writer: &mut Writer,
    reason: &Option<Items<u8>>,
) -> Result<(), AllocError>
    ensures { Adds result writer.old writer.new (spec.suppressed reason.now) }
{
    match reason {
        None => put_null(writer, "suppressed"),
        Some(reason) => put_items(alloc, writer, "suppressed", reason),
    }
}

fn put_warning(
    alloc: Global,
    writer: &mut Writer,
    files: &Files<'_>,
    home: usize,
    detail: &WarningDetail,
) -> Result<(), AllocError>
    ensures { Adds result writer.old writer.new (spec.warning files.now home detail.now) }
{
    open_object(writer)?;
    put_preface(writer, "warning", files.file_name(home))?;
    put_place(writer, files, home, detail)?;
    put_words(alloc, writer, detail)?;
    put_related(alloc, writer, files, home, detail)?;
    put_suppressed(alloc, writer, &detail.reason)?;
    close_object(writer)
}

/// Adds a warning on a line of its own to the output.
fn put_line(
    alloc: Global,
    out: Vec<u8>,
    files: &Files<'_>,
    detail: &WarningDetail,
) -> Result<Vec<u8>, AllocError>
    ensures { IfOk result (λ v. v.items ≡ out.items ++ spec.warning_line files.now detail.now) }
{
    let home = files.file_at(detail.marks.statement.first.line);
    let mut writer = Writer::new(out);
    put_warning(alloc, &mut writer, files, home, detail)?;
    let mut out = writer.into_inner();
    out.push(b'\n')?;
    Ok(out)
}

/// Adds a line for each warning to the output.
pub(crate) fn put_warnings(
    alloc: Global,
    out: Vec<u8>,
    files: &Files<'_>,
    warned: &[WarningDetail],
) -> Result<Vec<u8>, AllocError>
    ensures { IfOk result (λ v. v.items ≡ out.items ++ flat_map (spec.warning_line files.now) warned.now) }
{
    let mut out = out;
    for detail in warned {
        out = put_line(alloc, out, files, detail)?;
    }
    Ok(out)
}
