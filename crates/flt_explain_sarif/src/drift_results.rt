//! Results of SARIF: the drifts of C files.

ghost use Rattle.std.specs.Prelude.{◌≡◌, ◌∷◌, ◌++◌, [], IfOk, option_map, string_bytes};
ghost use Rattle.flt_explain_parts.specs.Members.{Added, Adds};
ghost use Rattle.flt_explain_sarif.specs.DriftResults as spec;
ghost use Rattle.flt_explain_sarif.specs.Results.{fingerprints, item};

use crate::fingerprints::{key_of, next_fingerprint, text_in, word_in};
use crate::results::{
    put_fingerprints, put_message, put_not_suppressed, put_region as put_region_member,
    put_whole_artifact,
};
use flt_c_drift::{Drift, DriftKind, Span, code, drift_sentence, has_difference};
use flt_explain_parts::{
    Artifact, DriftedFile, ResultKind, artifact_of, close_array, close_object, open_array,
    open_object, put_drift_help, put_drift_level, put_key, put_of_rule, region_at, region_of,
};
use flt_places::{Lines, Region, column_of};
use flt_tree::Position;
use json::Writer;
use sqlite_items::Items;
use std::alloc::{AllocError, Global};

// ---- places

/// A place of a file, with its column in UTF-16 units.
fn units_in(lines: &Lines<'_>, place: Position) -> Position
    ensures { result ≡ spec.units_in lines.now place }
{
    Position {
        line: place.line,
        column: column_of(lines, place),
    }
}

/// Writes where a region of a file begins and ends.
fn put_region(writer: &mut Writer, lines: &Lines<'_>, region: Region) -> Result<(), AllocError>
    ensures { Adds result writer.old writer.new (spec.region lines.now region) }
{
    let first = units_in(lines, region.first);
    let end = units_in(lines, region.end);
    put_region_member(writer, "region", first, end)
}

fn put_physical(
    alloc: Global,
    writer: &mut Writer,
    artifact: &Artifact,
    lines: &Lines<'_>,
    region: Region,
) -> Result<(), AllocError>
    ensures { Adds result writer.old writer.new (spec.physical artifact.now lines.now region) }
{
    put_key(writer, "physicalLocation")?;
    open_object(writer)?;
    put_whole_artifact(alloc, writer, artifact)?;
    put_region(writer, lines, region)?;
    close_object(writer)
}

fn put_location(
    alloc: Global,
    writer: &mut Writer,
    artifact: &Artifact,
    lines: &Lines<'_>,
    region: Region,
    words: &Vec<u8>,
) -> Result<(), AllocError>
    ensures { Adds result writer.old writer.new (spec.location artifact.now lines.now region words.now.items) }
{
    open_object(writer)?;
    put_physical(alloc, writer, artifact, lines, region)?;
    put_message(alloc, writer, words)?;
    close_object(writer)
}

/// Writes the places of a result: one.
fn put_locations(
    alloc: Global,
    writer: &mut Writer,
    artifact: &Artifact,
    lines: &Lines<'_>,
    region: Region,
    words: &Vec<u8>,
) -> Result<(), AllocError>
    ensures { Adds result writer.old writer.new (spec.locations artifact.now lines.now region words.now.items) }
{
    put_key(writer, "locations")?;
    open_array(writer)?;
    put_location(alloc, writer, artifact, lines, region, words)?;
    close_array(writer)
}

// ---- results

fn put_properties(writer: &mut Writer, kind: DriftKind) -> Result<(), AllocError>
    ensures { Adds result writer.old writer.new (spec.properties kind) }
{
    put_key(writer, "properties")?;
    open_object(writer)?;
    put_drift_help(writer, kind)?;
    close_object(writer)
}

/// Writes a fingerprint with these words, in no callback.
fn put_prints(
    alloc: Global,
    writer: &mut Writer,
    words: &Vec<u8>,
    print: &str,
) -> Result<(), AllocError>
    ensures { Adds result writer.old writer.new (fingerprints [] words.now.items print.now) }
{
    let head = Vec::new(alloc);
    put_fingerprints(alloc, writer, &head, words, print)
}

fn put_result_members(
    alloc: Global,
    writer: &mut Writer,
    artifact: &Artifact,
    lines: &Lines<'_>,
    region: Region,
    words: &Vec<u8>,
    print: &str,
    kind: DriftKind,
) -> Result<(), AllocError>
    ensures { Adds result writer.old writer.new
        (spec.result_members artifact.now lines.now region words.now.items print.now kind) }
{
    put_of_rule(writer, ResultKind::Drifted(kind))?;
    put_drift_level(writer, kind)?;
    put_message(alloc, writer, words)?;
    put_locations(alloc, writer, artifact, lines, region, words)?;
    put_prints(alloc, writer, words, print)?;
    put_properties(writer, kind)?;
    put_not_suppressed(writer)
}

/// Writes a drift of this kind and fingerprint at a region of a file, in these words.
fn put_result(
    alloc: Global,
    writer: &mut Writer,
    artifact: &Artifact,
    lines: &Lines<'_>,
    region: Region,
    words: &Vec<u8>,
    print: &str,
    kind: DriftKind,
) -> Result<(), AllocError>
    ensures { Adds result writer.old writer.new
        (item (spec.result_members artifact.now lines.now region words.now.items print.now kind)) }
{
    open_object(writer)?;
    put_result_members(alloc, writer, artifact, lines, region, words, print, kind)?;
    close_object(writer)
}

/// The region of some bytes of a file, if there are some.
fn region_by(lines: &Lines<'_>, span: Option<Span>) -> Option<Region>
    ensures { result ≡ option_map (spec.region_by lines.now) span }
{
    match span {
        None => None,
        Some(span) => Some(region_at(lines, span.start, span.length)),
    }
}

/// The key of a drift in a file of these lines.
fn drift_key(alloc: Global, lines: &Lines<'_>, drift: Drift) -> Result<String, AllocError>
    ensures { IfOk result (λ key. string_bytes key ≡ spec.drift_key lines.now drift) }
{
    key_of(
        alloc,
        code(drift.kind),
        b"",
        text_in(lines, region_of(lines, drift)),
        word_in(lines, region_by(lines, drift.other)),
    )
}

/// Writes a drift of a file of these lines with its fingerprint, after drifts with the keys `before`, to which its key is added.
fn put_next_result(
    alloc: Global,
    writer: &mut Writer,
    artifact: &Artifact,
    file: &[u8],
    lines: &Lines<'_>,
    before: &mut Items<Items<u8>>,
    drift: Drift,
) -> Result<(), AllocError>
    requires { lines.now ≡ file.now }
    ensures { IfOk result (λ _. (before.new ≡ before.old ++ spec.drift_key file.now drift ∷ []) × Added writer.old writer.new
        (spec.next_result artifact.now file.now before.old drift)) }
{
    let region = region_of(lines, drift);
    let words = drift_sentence(alloc, file, drift)?;
    let key = drift_key(alloc, lines, drift)?;
    let print = next_fingerprint(alloc, before, key.as_str())?;
    put_result(
        alloc,
        writer,
        artifact,
        lines,
        region,
        &words,
        print.as_str(),
        drift.kind,
    )?;
    Ok(())
}

/// Writes drifts of a file, in their order.
fn put_results(
    alloc: Global,
    writer: &mut Writer,
    artifact: &Artifact,
    file: &[u8],
    drifts: &[Drift],
) -> Result<(), AllocError>
    ensures { Adds result writer.old writer.new (spec.results_of artifact.now file.now drifts.now) }
{
    let lines = Lines::of(alloc, file)?;
    let mut before = Items::new(alloc);
    for drift in drifts {
        put_next_result(alloc, writer, artifact, file, &lines, &mut before, *drift)?;
    }
    Ok(())
}

/// Writes the drifts of a C file, in a document of files of these names, if one of them is no note.
fn put_file(
    alloc: Global,
    writer: &mut Writer,
    names: &[&str],
    file: &DriftedFile<'_>,
) -> Result<(), AllocError>
    ensures { Adds result writer.old writer.new (spec.file_results names.now file.now) }
{
    let drifts = file.drifts.as_slice();
    if !has_difference(drifts) {
        return Ok(());
    }
    let artifact = artifact_of(alloc, names, file.name)?;
    put_results(alloc, writer, &artifact, file.file, drifts)
}

/// The same for several C files, in their order.
pub(crate) fn put_drift_results(
    alloc: Global,
    writer: &mut Writer,
    names: &[&str],
    drifted: &[DriftedFile<'_>],
) -> Result<(), AllocError>
    ensures { Adds result writer.old writer.new (spec.drift_results names.now drifted.now) }
{
    for file in drifted {
        put_file(alloc, writer, names, file)?;
    }
    Ok(())
}
