//! The drifts of C files, as JSON, a line each.

ghost use Rattle.std.specs.Prelude.{◌≡◌, ◌++◌, IfOk, codes};
ghost use Rattle.flt_c_drift.specs.DriftWords as words;
ghost use Rattle.flt_explain_forms.specs.DriftLines as spec;
ghost use Rattle.flt_explain_parts.specs.Members.{Adds, line_of, string_member};

use crate::places::put_place;
use crate::preface::put_preface;
use flt_c_drift::{Drift, DriftKind, code, drift_sentence, has_difference};
use flt_explain_parts::{
    close_object, open_object, put_drift_help, put_drift_level, put_string, put_text, region_of,
};
use flt_places::{Lines, Region};
use json::Writer;
use std::alloc::{AllocError, Global};

// ---- a drift

fn put_region(writer: &mut Writer, region: Region) -> Result<(), AllocError>
    ensures { Adds result writer.old writer.new (spec.place region) }
{
    put_place(writer, region.first, region.end)
}

fn put_code(writer: &mut Writer, kind: DriftKind) -> Result<(), AllocError>
    ensures { Adds result writer.old writer.new (string_member (codes "drift") (words.code kind)) }
{
    put_string(writer, "drift", code(kind))
}

fn put_words(
    alloc: Global,
    writer: &mut Writer,
    file: &[u8],
    drift: Drift,
) -> Result<(), AllocError>
    ensures { Adds result writer.old writer.new (spec.words file.now drift) }
{
    let sentence = drift_sentence(alloc, file, drift)?;
    put_code(writer, drift.kind)?;
    put_text(alloc, writer, "message", &sentence)?;
    put_drift_help(writer, drift.kind)
}

/// Writes a drift at a region of the C file of a name.
fn put_drift(
    alloc: Global,
    writer: &mut Writer,
    name: &str,
    file: &[u8],
    region: Region,
    drift: Drift,
) -> Result<(), AllocError>
    ensures { Adds result writer.old writer.new (spec.drift name.now file.now region drift) }
{
    open_object(writer)?;
    put_preface(writer, "drift", name)?;
    put_drift_level(writer, drift.kind)?;
    put_region(writer, region)?;
    put_words(alloc, writer, file, drift)?;
    close_object(writer)
}

// ---- the drifts of a file

/// Adds a drift on a line of its own to the output.
fn put_line(
    alloc: Global,
    out: Vec<u8>,
    name: &str,
    file: &[u8],
    region: Region,
    drift: Drift,
) -> Result<Vec<u8>, AllocError>
    ensures { IfOk result (λ v. v.items ≡ out.items ++ line_of (spec.drift name.now file.now region drift)) }
{
    let mut writer = Writer::new(out);
    put_drift(alloc, &mut writer, name, file, region, drift)?;
    let mut out = writer.into_inner();
    out.push(b'\n')?;
    Ok(out)
}

/// A line for each drift, in their order.
fn lines_of(alloc: Global, name: &str, file: &[u8], drifts: &[Drift]) -> Result<Vec<u8>, AllocError>
    ensures { IfOk result (λ v. v.items ≡ spec.lines_of name.now file.now drifts.now) }
{
    let lines = Lines::of(alloc, file)?;
    let mut out = Vec::new(alloc);
    for drift in drifts {
        let region = region_of(&lines, *drift);
        out = put_line(alloc, out, name, file, region, *drift)?;
    }
    Ok(out)
}

/// The drifts of the C file of a name, a JSON object a line, in their order. docs/FORMATS.md says how they are written. Notes alone have no
/// line.
///
/// # Errors
///
/// `AllocError` if a growth is refused.
pub fn drift_objects(
    alloc: Global,
    name: &str,
    file: &[u8],
    drifts: &[Drift],
) -> Result<Vec<u8>, AllocError>
    ensures { IfOk result (λ lines. lines.items ≡ spec.drift_objects name.now file.now drifts.now) }
{
    if has_difference(drifts) {
        lines_of(alloc, name, file, drifts)
    } else {
        Ok(Vec::new(alloc))
    }
}
