//! Steps of paths, as JSON.

ghost use Rattle.std.specs.Prelude.{◌≡◌, codes};
ghost use Rattle.flt_explain_forms.specs.Places.{region_members};
ghost use Rattle.flt_explain_forms.specs.Steps as spec;
ghost use Rattle.flt_explain_parts.specs.Members.{Adds, string_member};
ghost use Rattle.flt_explain_parts.specs.Points.{regions};

use crate::places::{put_marks, put_region_members};
use flt_explain_details::{Maker, Stage, WayKind};
use flt_explain_parts::{
    Points, close_array, close_object, open_array, open_object, put_filled, put_key, put_null,
    put_number, put_string,
};
use flt_places::Files;
use json::Writer;
use sqlite_items::Items;
use std::alloc::{AllocError, Global};

/// Writes the outcome of a step.
fn put_side(writer: &mut Writer, granted: bool) -> Result<(), AllocError>
    ensures { Adds result writer.old writer.new (string_member (codes "side") (spec.side granted)) }
{
    put_string(writer, "side", if granted { "yes" } else { "no" })
}

fn kind_name(kind: WayKind) -> &'static str
    ensures { result.now ≡ spec.kind_name kind }
{
    match kind {
        WayKind::Clean => "clean",
        WayKind::Behind => "behind",
        WayKind::Unreached => "none",
        WayKind::Unknown => "unknown",
    }
}

/// Writes the kind of a path.
pub(crate) fn put_kind(writer: &mut Writer, kind: WayKind) -> Result<(), AllocError>
    ensures { Adds result writer.old writer.new (string_member (codes "kind") (spec.kind_name kind)) }
{
    put_string(writer, "kind", kind_name(kind))
}

/// Writes the number of the finding whose path serves, or null.
pub(crate) fn put_like(writer: &mut Writer, like: Option<usize>) -> Result<(), AllocError>
    ensures { Adds result writer.old writer.new (spec.like_member like) }
{
    match like {
        None => put_null(writer, "like"),
        Some(number) => put_number(writer, "like", number),
    }
}

/// Writes the place of a point.
fn put_place(writer: &mut Writer, points: &Points<'_>, point: usize) -> Result<(), AllocError>
    ensures { Adds result writer.old writer.new (region_members points.now.files points.now.home (regions points.now point)) }
{
    put_region_members(writer, &points.files, points.home, points.region(point))
}

fn put_step(
    alloc: Global,
    writer: &mut Writer,
    points: &Points<'_>,
    stage: &Stage,
) -> Result<(), AllocError>
    ensures { Adds result writer.old writer.new (spec.step points.now.files points.now.home (regions points.now) stage.now) }
{
    open_object(writer)?;
    put_number(writer, "point", stage.point)?;
    put_place(writer, points, stage.point)?;
    put_side(writer, stage.granted)?;
    put_filled(alloc, writer, "words", &stage.words)?;
    close_object(writer)
}

pub(crate) fn put_steps(
    alloc: Global,
    writer: &mut Writer,
    points: &Points<'_>,
    stages: &Items<Stage>,
) -> Result<(), AllocError>
    ensures { Adds result writer.old writer.new (spec.steps points.now.files points.now.home (regions points.now) stages.now) }
{
    open_array(writer)?;
    for stage in stages.as_slice() {
        put_step(alloc, writer, points, stage)?;
    }
    close_array(writer)
}

/// Writes the step that caused a finding, with its place.
fn put_maker(
    alloc: Global,
    writer: &mut Writer,
    files: &Files<'_>,
    home: usize,
    maker: &Maker,
) -> Result<(), AllocError>
    ensures { Adds result writer.old writer.new (spec.maker files.now home maker.now) }
{
    open_object(writer)?;
    put_number(writer, "point", maker.stage.point)?;
    put_marks(writer, files, home, maker.marks)?;
    put_side(writer, maker.stage.granted)?;
    put_filled(alloc, writer, "words", &maker.stage.words)?;
    close_object(writer)
}

pub(crate) fn put_maker_member(
    alloc: Global,
    writer: &mut Writer,
    points: &Points<'_>,
    name: &str,
    maker: &Option<Maker>,
) -> Result<(), AllocError>
    ensures { Adds result writer.old writer.new (spec.maker_member points.now.files points.now.home name.now maker.now) }
{
    match maker {
        None => put_null(writer, name),
        Some(maker) => {
            put_key(writer, name)?;
            put_maker(alloc, writer, &points.files, points.home, maker)
        }
    }
}

pub(crate) fn put_steps_member(
    alloc: Global,
    writer: &mut Writer,
    points: &Points<'_>,
    name: &str,
    stages: &Option<Items<Stage>>,
) -> Result<(), AllocError>
    ensures { Adds result writer.old writer.new
        (spec.steps_member points.now.files points.now.home (regions points.now) name.now stages.now) }
{
    match stages {
        None => put_null(writer, name),
        Some(stages) => {
            put_key(writer, name)?;
            put_steps(alloc, writer, points, stages)
        }
    }
}
