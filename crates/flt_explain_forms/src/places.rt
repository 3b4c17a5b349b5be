//! Members that say where something of a text is.

ghost use Rattle.std.specs.Prelude.{Some};
ghost use Rattle.flt_explain_forms.specs.Places as spec;
ghost use Rattle.flt_explain_parts.specs.Members.{Adds};

use flt_explain_parts::{close_object, open_object, put_key, put_null, put_number, put_string};
use flt_explain_texts::Marks;
use flt_places::{Files, Region};
use flt_tree::Position;
use json::Writer;
use std::alloc::AllocError;

/// Writes the name of a file, unless it is that of the whole object.
fn put_other_file(
    writer: &mut Writer,
    files: &Files<'_>,
    home: usize,
    file: usize,
) -> Result<(), AllocError>
    ensures { Adds result writer.old writer.new (spec.other_file files.now home file) }
{
    if file == home {
        return Ok(());
    }
    put_string(writer, "file", files.file_name(file))
}

/// Writes the place of the first byte, and that of the last, which is one column before `end`.
pub(crate) fn put_place(
    writer: &mut Writer,
    first: Position,
    end: Position,
) -> Result<(), AllocError>
    ensures { Adds result writer.old writer.new (spec.place_members first end) }
{
    put_number(writer, "line", first.line)?;
    put_number(writer, "column", first.column)?;
    put_number(writer, "end_line", end.line)?;
    put_number(writer, "end_column", end.column.saturating_sub(1))
}

/// Writes the place of a region of a text in its file, and before it the file's name if it isn't that of the whole object.
pub(crate) fn put_region_members(
    writer: &mut Writer,
    files: &Files<'_>,
    home: usize,
    region: Region,
) -> Result<(), AllocError>
    ensures { Adds result writer.old writer.new (spec.region_members files.now home region) }
{
    put_other_file(writer, files, home, files.file_at(region.first.line))?;
    put_place(
        writer,
        files.file_place(region.first),
        files.file_place(region.end),
    )
}

fn put_operand_object(
    writer: &mut Writer,
    files: &Files<'_>,
    home: usize,
    region: Region,
) -> Result<(), AllocError>
    ensures { Adds result writer.old writer.new (spec.operand_member files.now home (Some region)) }
{
    put_key(writer, "operand")?;
    open_object(writer)?;
    put_region_members(writer, files, home, region)?;
    close_object(writer)
}

fn put_operand(
    writer: &mut Writer,
    files: &Files<'_>,
    home: usize,
    region: Option<Region>,
) -> Result<(), AllocError>
    ensures { Adds result writer.old writer.new (spec.operand_member files.now home region) }
{
    match region {
        None => put_null(writer, "operand"),
        Some(region) => put_operand_object(writer, files, home, region),
    }
}

/// Writes the place of a statement, and in it that of the word that a finding names.
pub(crate) fn put_marks(
    writer: &mut Writer,
    files: &Files<'_>,
    home: usize,
    marks: Marks,
) -> Result<(), AllocError>
    ensures { Adds result writer.old writer.new (spec.marks_members files.now home marks) }
{
    put_region_members(writer, files, home, marks.statement)?;
    put_operand(writer, files, home, marks.operand)
}
