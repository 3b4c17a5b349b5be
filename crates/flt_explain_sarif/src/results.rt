//! Results of SARIF: findings and faults of texts.

ghost use Rattle.std.specs.Prelude.{◌≡◌, ◌∷◌, ◌++◌, [], IfOk, codes, flat_map, option_copied, slice_get};
ghost use Rattle.flt_explain_parts.specs.Members.{Added, Adds, array_member};
ghost use Rattle.flt_explain_parts.specs.Points.{regions};
ghost use Rattle.flt_explain_sarif.specs.Fingerprints.{finding_key};
ghost use Rattle.flt_explain_sarif.specs.Results as spec;
ghost use Rattle.flt_explain_sarif.specs.RunFlow.{flow_of, flows_in};
ghost use Rattle.flt_places.specs.Files.{file_at};

use crate::fingerprints as keys;
use crate::run_flow::{FileRuns, OwnFlow, put_run_flow};
use flt_explain_details::{Detail, Maker, Stage, WayKind};
use flt_explain_parts::{
    Artifact, File, Points, Reference, ResultKind, close_array, close_object, open_array,
    open_object, place_of, put_filled, put_items, put_key, put_number, put_of_rule, put_string,
    put_text,
};
use flt_explain_texts::Marks;
use flt_graph::Graph;
use flt_places::{Files, Region, file_column_behind};
use flt_syntax::SyntaxFault;
use flt_tree::Position;
use json::Writer;
use sqlite_items::Items;
use std::alloc::{AllocError, Global};

// ---- places

pub(crate) fn put_message(
    alloc: Global,
    writer: &mut Writer,
    words: &Vec<u8>,
) -> Result<(), AllocError>
    ensures { Adds result writer.old writer.new (spec.message words.now.items) }
{
    put_key(writer, "message")?;
    open_object(writer)?;
    put_text(alloc, writer, "text", words)?;
    close_object(writer)
}

/// Writes the folder that a relative name is from, by its name in the document.
fn put_base(writer: &mut Writer, is_absolute: bool) -> Result<(), AllocError>
    ensures { Adds result writer.old writer.new (spec.base is_absolute) }
{
    if is_absolute {
        return Ok(());
    }
    put_string(writer, "uriBaseId", "%SRCROOT%")
}

/// Writes how a file is named.
pub(crate) fn put_reference(
    alloc: Global,
    writer: &mut Writer,
    reference: &Reference,
) -> Result<(), AllocError>
    ensures { Adds result writer.old writer.new (spec.reference reference.now) }
{
    put_items(alloc, writer, "uri", &reference.uri)?;
    put_base(writer, reference.is_absolute)
}

/// Writes a file, by its name and its number.
pub(crate) fn put_whole_artifact(
    alloc: Global,
    writer: &mut Writer,
    artifact: &Artifact,
) -> Result<(), AllocError>
    ensures { Adds result writer.old writer.new (spec.artifact_by (Some artifact.now)) }
{
    put_key(writer, "artifactLocation")?;
    open_object(writer)?;
    put_reference(alloc, writer, &artifact.reference)?;
    put_number(writer, "index", artifact.number)?;
    close_object(writer)
}

/// The file in which a line of a text is, if there is one.
fn artifact_at<'f>(file: &'f File<'_>, line: usize) -> Option<&'f Artifact>
    ensures { option_copied result ≡ slice_get file.now.artifacts (file_at file.now.files line) }
{
    file.artifacts.get(file.files.file_at(line))
}

/// Writes the file in which a line of a text is, by its name and its number.
pub(crate) fn put_artifact(
    alloc: Global,
    writer: &mut Writer,
    file: &File<'_>,
    line: usize,
) -> Result<(), AllocError>
    ensures { Adds result writer.old writer.new (spec.artifact_location file.now line) }
{
    match artifact_at(file, line) {
        None => Ok(()),
        Some(artifact) => put_whole_artifact(alloc, writer, artifact),
    }
}

/// Writes a region: where it begins, and one column after its end.
pub(crate) fn put_region(
    writer: &mut Writer,
    name: &str,
    first: Position,
    end: Position,
) -> Result<(), AllocError>
    ensures { Adds result writer.old writer.new (spec.region_member name.now first end) }
{
    put_key(writer, name)?;
    open_object(writer)?;
    put_number(writer, "startLine", first.line)?;
    put_number(writer, "startColumn", first.column)?;
    put_number(writer, "endLine", end.line)?;
    put_number(writer, "endColumn", end.column)?;
    close_object(writer)
}

/// The place that is `count` bytes after a place of a text, in the line of its file; its column counts in UTF-16 units.
fn units_behind(files: &Files<'_>, place: Position, count: usize) -> Position
    ensures { result ≡ spec.units_behind files.now place count }
{
    Position {
        line: files.file_line(place.line),
        column: file_column_behind(files, place, count),
    }
}

/// Writes where a region of a text begins and ends in its file.
pub(crate) fn put_whole_region(
    writer: &mut Writer,
    name: &str,
    file: &File<'_>,
    region: Region,
) -> Result<(), AllocError>
    ensures { Adds result writer.old writer.new (spec.whole_region name.now file.now region) }
{
    let first = units_behind(&file.files, region.first, 0);
    let end = units_behind(&file.files, region.end, 0);
    put_region(writer, name, first, end)
}

/// Writes where a region of a file is.
fn put_physical(
    alloc: Global,
    writer: &mut Writer,
    file: &File<'_>,
    region: Region,
) -> Result<(), AllocError>
    ensures { Adds result writer.old writer.new (spec.physical file.now region) }
{
    put_key(writer, "physicalLocation")?;
    open_object(writer)?;
    put_artifact(alloc, writer, file, region.first.line)?;
    put_whole_region(writer, "region", file, region)?;
    close_object(writer)
}

/// Writes where a region of a file is, with words.
fn put_location(
    alloc: Global,
    writer: &mut Writer,
    file: &File<'_>,
    region: Region,
    words: &Vec<u8>,
) -> Result<(), AllocError>
    ensures { Adds result writer.old writer.new (spec.location file.now region words.now.items) }
{
    open_object(writer)?;
    put_physical(alloc, writer, file, region)?;
    put_message(alloc, writer, words)?;
    close_object(writer)
}

/// Writes the region of the operand and that of the statement round it, or that of the statement alone.
fn put_marked_regions(
    writer: &mut Writer,
    file: &File<'_>,
    statement: Region,
    operand: Option<Region>,
) -> Result<(), AllocError>
    ensures { Adds result writer.old writer.new (spec.marked_regions file.now statement operand) }
{
    match operand {
        None => put_whole_region(writer, "region", file, statement),
        Some(operand) => {
            put_whole_region(writer, "region", file, operand)?;
            put_whole_region(writer, "contextRegion", file, statement)
        }
    }
}

fn put_marked_physical(
    alloc: Global,
    writer: &mut Writer,
    file: &File<'_>,
    marks: Marks,
) -> Result<(), AllocError>
    ensures { Adds result writer.old writer.new (spec.marked_physical file.now marks) }
{
    put_key(writer, "physicalLocation")?;
    open_object(writer)?;
    put_artifact(alloc, writer, file, marks.statement.first.line)?;
    put_marked_regions(writer, file, marks.statement, marks.operand)?;
    close_object(writer)
}

/// Writes the regions of marks in a file, with words.
pub(crate) fn put_marked_location(
    alloc: Global,
    writer: &mut Writer,
    file: &File<'_>,
    marks: Marks,
    words: &Vec<u8>,
) -> Result<(), AllocError>
    ensures { Adds result writer.old writer.new (spec.marked_location file.now marks words.now.items) }
{
    open_object(writer)?;
    put_marked_physical(alloc, writer, file, marks)?;
    put_message(alloc, writer, words)?;
    close_object(writer)
}

/// Writes the places of a result: the regions of its marks, with words.
pub(crate) fn put_marked_locations(
    alloc: Global,
    writer: &mut Writer,
    file: &File<'_>,
    marks: Marks,
    words: &Vec<u8>,
) -> Result<(), AllocError>
    ensures { Adds result writer.old writer.new (spec.locations file.now marks words.now.items) }
{
    put_key(writer, "locations")?;
    open_array(writer)?;
    put_marked_location(alloc, writer, file, marks, words)?;
    close_array(writer)
}

// ---- ways

/// Writes a statement on a path.
fn put_flow_location(
    alloc: Global,
    writer: &mut Writer,
    file: &File<'_>,
    region: Region,
    words: &Vec<u8>,
) -> Result<(), AllocError>
    ensures { Adds result writer.old writer.new (spec.flow_location file.now region words.now.items) }
{
    open_object(writer)?;
    put_key(writer, "location")?;
    put_location(alloc, writer, file, region, words)?;
    close_object(writer)
}

/// Writes a step, if it has words.
fn put_flow_step(
    alloc: Global,
    writer: &mut Writer,
    file: &File<'_>,
    points: &Points<'_>,
    stage: &Stage,
) -> Result<(), AllocError>
    ensures { Adds result writer.old writer.new (spec.flow_step file.now (regions points.now) stage.now) }
{
    match stage.words.as_slice() {
        [] => Ok(()),
        [_, ..] => {
            put_flow_location(
                alloc,
                writer,
                file,
                points.region(stage.point),
                &stage.words,
            )
        }
    }
}

fn put_flow_steps(
    alloc: Global,
    writer: &mut Writer,
    file: &File<'_>,
    points: &Points<'_>,
    stages: &Items<Stage>,
) -> Result<(), AllocError>
    ensures { Adds result writer.old writer.new (flat_map (spec.flow_step file.now (regions points.now)) stages.now) }
{
    for stage in stages.as_slice() {
        put_flow_step(alloc, writer, file, points, stage)?;
    }
    Ok(())
}

fn put_finding_place(
    alloc: Global,
    writer: &mut Writer,
    file: &File<'_>,
    detail: &Detail,
) -> Result<(), AllocError>
    ensures { Adds result writer.old writer.new (spec.finding_place file.now detail.now) }
{
    open_object(writer)?;
    put_key(writer, "location")?;
    put_marked_location(alloc, writer, file, detail.marks, &detail.words.title)?;
    close_object(writer)
}

/// Writes the places of a path to a finding, with the finding last.
fn put_thread_places(
    alloc: Global,
    writer: &mut Writer,
    file: &File<'_>,
    points: &Points<'_>,
    detail: &Detail,
    stages: &Items<Stage>,
) -> Result<(), AllocError>
    ensures { Adds result writer.old writer.new (spec.thread_places file.now (regions points.now) detail.now stages.now) }
{
    put_flow_steps(alloc, writer, file, points, stages)?;
    put_finding_place(alloc, writer, file, detail)
}

fn put_thread_locations(
    alloc: Global,
    writer: &mut Writer,
    file: &File<'_>,
    points: &Points<'_>,
    detail: &Detail,
    stages: &Items<Stage>,
) -> Result<(), AllocError>
    ensures { Adds result writer.old writer.new
        (array_member (codes "locations") (spec.thread_places file.now (regions points.now) detail.now stages.now)) }
{
    put_key(writer, "locations")?;
    open_array(writer)?;
    put_thread_places(alloc, writer, file, points, detail, stages)?;
    close_array(writer)
}

fn put_thread(
    alloc: Global,
    writer: &mut Writer,
    file: &File<'_>,
    points: &Points<'_>,
    detail: &Detail,
    stages: &Items<Stage>,
) -> Result<(), AllocError>
    ensures { Adds result writer.old writer.new (spec.thread file.now (regions points.now) detail.now stages.now) }
{
    open_object(writer)?;
    put_thread_locations(alloc, writer, file, points, detail, stages)?;
    close_object(writer)
}

fn put_threads(
    alloc: Global,
    writer: &mut Writer,
    file: &File<'_>,
    points: &Points<'_>,
    detail: &Detail,
    stages: &Items<Stage>,
) -> Result<(), AllocError>
    ensures { Adds result writer.old writer.new
        (array_member (codes "threadFlows") (spec.thread file.now (regions points.now) detail.now stages.now)) }
{
    put_key(writer, "threadFlows")?;
    open_array(writer)?;
    put_thread(alloc, writer, file, points, detail, stages)?;
    close_array(writer)
}

/// Writes a path to a finding.
fn put_flow(
    alloc: Global,
    writer: &mut Writer,
    file: &File<'_>,
    points: &Points<'_>,
    detail: &Detail,
    stages: &Items<Stage>,
) -> Result<(), AllocError>
    ensures { Adds result writer.old writer.new (spec.flow file.now (regions points.now) detail.now stages.now) }
{
    open_object(writer)?;
    put_threads(alloc, writer, file, points, detail, stages)?;
    close_object(writer)
}

/// Writes the other path, if there is one.
fn put_other_flow(
    alloc: Global,
    writer: &mut Writer,
    file: &File<'_>,
    points: &Points<'_>,
    detail: &Detail,
    stages: &Option<Items<Stage>>,
) -> Result<(), AllocError>
    ensures { Adds result writer.old writer.new (spec.other_flow file.now (regions points.now) detail.now stages.now) }
{
    match stages {
        None => Ok(()),
        Some(stages) => put_flow(alloc, writer, file, points, detail, stages),
    }
}

/// Writes both paths.
fn put_both_flows(
    alloc: Global,
    writer: &mut Writer,
    file: &File<'_>,
    points: &Points<'_>,
    detail: &Detail,
) -> Result<(), AllocError>
    ensures { Adds result writer.old writer.new (spec.both_flows file.now (regions points.now) detail.now) }
{
    put_flow(alloc, writer, file, points, detail, &detail.route.stages)?;
    put_other_flow(alloc, writer, file, points, detail, &detail.route.other)
}

fn put_found_flows(
    alloc: Global,
    writer: &mut Writer,
    file: &File<'_>,
    points: &Points<'_>,
    detail: &Detail,
    kind: WayKind,
) -> Result<(), AllocError>
    ensures { Adds result writer.old writer.new (spec.flows_by kind file.now (regions points.now) detail.now) }
{
    match kind {
        WayKind::Clean | WayKind::Behind => put_both_flows(alloc, writer, file, points, detail),
        WayKind::Unreached | WayKind::Unknown => Ok(()),
    }
}

/// Writes the paths, if one was found and those of no other finding serve.
fn put_own_flows(
    alloc: Global,
    writer: &mut Writer,
    file: &File<'_>,
    points: &Points<'_>,
    detail: &Detail,
) -> Result<(), AllocError>
    ensures { Adds result writer.old writer.new (spec.flows file.now (regions points.now) detail.now) }
{
    match detail.route.like {
        None => put_found_flows(alloc, writer, file, points, detail, detail.route.kind),
        Some(_) => Ok(()),
    }
}

/// Writes the paths of a result, and its run.
fn put_all_flows(
    alloc: Global,
    writer: &mut Writer,
    file: &File<'_>,
    points: &Points<'_>,
    own: OwnFlow<'_, '_>,
    detail: &Detail,
) -> Result<(), AllocError>
    ensures { Adds result writer.old writer.new (spec.flows file.now (regions points.now) detail.now ++ flow_of own.entry) }
{
    put_own_flows(alloc, writer, file, points, detail)?;
    put_run_flow(alloc, writer, own)
}

fn put_flows(
    alloc: Global,
    writer: &mut Writer,
    file: &File<'_>,
    points: &Points<'_>,
    own: OwnFlow<'_, '_>,
    detail: &Detail,
) -> Result<(), AllocError>
    ensures { Adds result writer.old writer.new
        (array_member (codes "codeFlows") (spec.flows file.now (regions points.now) detail.now ++ flow_of own.entry)) }
{
    put_key(writer, "codeFlows")?;
    open_array(writer)?;
    put_all_flows(alloc, writer, file, points, own, detail)?;
    close_array(writer)
}

// ---- results

pub(crate) fn put_level(writer: &mut Writer) -> Result<(), AllocError>
    ensures { Adds result writer.old writer.new spec.level }
{
    put_string(writer, "level", "error")
}

/// Writes that nothing in the text allows the result.
pub(crate) fn put_not_suppressed(writer: &mut Writer) -> Result<(), AllocError>
    ensures { Adds result writer.old writer.new spec.not_suppressed }
{
    put_key(writer, "suppressions")?;
    open_array(writer)?;
    close_array(writer)
}

fn put_origin(
    alloc: Global,
    writer: &mut Writer,
    file: &File<'_>,
    maker: &Maker,
) -> Result<(), AllocError>
    ensures { Adds result writer.old writer.new (spec.origin file.now maker.now) }
{
    let words = Vec::from_slice(alloc, b"this caused it")?;
    put_marked_location(alloc, writer, file, maker.marks, &words)
}

fn put_related_origin(
    alloc: Global,
    writer: &mut Writer,
    file: &File<'_>,
    origin: &Option<Maker>,
) -> Result<(), AllocError>
    ensures { Adds result writer.old writer.new (spec.related file.now origin.now) }
{
    match origin {
        None => Ok(()),
        Some(maker) => put_origin(alloc, writer, file, maker),
    }
}

/// Writes the place that caused a finding, if there is one.
fn put_related(
    alloc: Global,
    writer: &mut Writer,
    file: &File<'_>,
    origin: &Option<Maker>,
) -> Result<(), AllocError>
    ensures { Adds result writer.old writer.new
        (array_member (codes "relatedLocations") (spec.related file.now origin.now)) }
{
    put_key(writer, "relatedLocations")?;
    open_array(writer)?;
    put_related_origin(alloc, writer, file, origin)?;
    close_array(writer)
}

/// Writes the head of a callback, the subject of a result in it, and a fingerprint.
pub(crate) fn put_fingerprints(
    alloc: Global,
    writer: &mut Writer,
    head: &Vec<u8>,
    subject: &Vec<u8>,
    print: &str,
) -> Result<(), AllocError>
    ensures { Adds result writer.old writer.new (spec.fingerprints head.now.items subject.now.items print.now) }
{
    put_key(writer, "partialFingerprints")?;
    open_object(writer)?;
    put_text(alloc, writer, "callback/v1", head)?;
    put_text(alloc, writer, "subject/v1", subject)?;
    put_string(writer, "callbackRuleSubject/v2", print)?;
    close_object(writer)
}

fn put_properties(alloc: Global, writer: &mut Writer, detail: &Detail) -> Result<(), AllocError>
    ensures { Adds result writer.old writer.new (spec.properties detail.now) }
{
    put_key(writer, "properties")?;
    open_object(writer)?;
    put_number(writer, "callback", detail.finding.callback)?;
    put_number(writer, "point", detail.finding.point)?;
    put_text(alloc, writer, "help", &detail.words.help)?;
    put_filled(alloc, writer, "note", &detail.words.note)?;
    close_object(writer)
}

fn put_result_members(
    alloc: Global,
    writer: &mut Writer,
    file: &File<'_>,
    points: &Points<'_>,
    own: OwnFlow<'_, '_>,
    detail: &Detail,
    print: &str,
) -> Result<(), AllocError>
    ensures { Adds result writer.old writer.new
        (spec.result_members file.now (regions points.now) print.now (flow_of own.entry) detail.now) }
{
    put_of_rule(writer, ResultKind::Broken(detail.finding.rule))?;
    put_level(writer)?;
    put_message(alloc, writer, &detail.words.title)?;
    put_marked_locations(alloc, writer, file, detail.marks, &detail.words.title)?;
    put_related(alloc, writer, file, &detail.route.origin)?;
    put_flows(alloc, writer, file, points, own, detail)?;
    put_fingerprints(
        alloc,
        writer,
        &detail.words.head,
        &detail.words.subject,
        print,
    )?;
    put_properties(alloc, writer, detail)?;
    put_not_suppressed(writer)
}

/// Writes a finding of this fingerprint.
fn put_result(
    alloc: Global,
    writer: &mut Writer,
    file: &File<'_>,
    points: &Points<'_>,
    own: OwnFlow<'_, '_>,
    detail: &Detail,
    print: &str,
) -> Result<(), AllocError>
    ensures { Adds result writer.old writer.new (spec.result file.now (regions points.now) print.now (flow_of own.entry) detail.now) }
{
    open_object(writer)?;
    put_result_members(alloc, writer, file, points, own, detail, print)?;
    close_object(writer)
}

/// Writes a finding of the text of a number with its fingerprint and its run, after findings with the keys `before`, to which its key is
/// added.
fn put_next_result(
    alloc: Global,
    writer: &mut Writer,
    file: &File<'_>,
    graph: &Graph,
    runs: FileRuns<'_, '_>,
    source: usize,
    before: &mut Items<Items<u8>>,
    detail: &Detail,
) -> Result<(), AllocError>
    ensures { IfOk result (λ _. (before.new ≡ before.old ++ finding_key file.now.lines detail.now ∷ []) × Added writer.old writer.new
        (spec.next_result file.now graph.now (flows_in runs.entry source) before.old detail.now)) }
{
    let own = OwnFlow {
        runs,
        source,
        finding: before.len(),
    };
    let points = Points {
        lines: &file.lines,
        files: file.files,
        home: file.files.file_at(detail.marks.statement.first.line),
        graph,
        callback: detail.finding.callback,
    };
    let key = keys::finding_key(alloc, &file.lines, detail)?;
    let print = keys::next_fingerprint(alloc, before, key.as_str())?;
    put_result(alloc, writer, file, &points, own, detail, print.as_str())?;
    Ok(())
}

/// Writes findings of the text of a number, in their order.
pub(crate) fn put_results(
    alloc: Global,
    writer: &mut Writer,
    file: &File<'_>,
    graph: &Graph,
    runs: FileRuns<'_, '_>,
    source: usize,
    details: &[Detail],
) -> Result<(), AllocError>
    ensures { Adds result writer.old writer.new (spec.results_of file.now graph.now (flows_in runs.entry source) details.now) }
{
    let mut before = Items::new(alloc);
    for detail in details {
        put_next_result(
            alloc,
            writer,
            file,
            graph,
            runs,
            source,
            &mut before,
            detail,
        )?;
    }
    Ok(())
}

// ---- faults

/// Writes the region of the bytes at which a text is refused.
fn put_fault_region(
    writer: &mut Writer,
    file: &File<'_>,
    place: Position,
    found: &[u8],
) -> Result<(), AllocError>
    ensures { Adds result writer.old writer.new (spec.fault_region file.now place found.now) }
{
    let first = units_behind(&file.files, place, 0);
    let end = units_behind(&file.files, place, found.len());
    put_region(writer, "region", first, end)
}

fn put_fault_physical(
    alloc: Global,
    writer: &mut Writer,
    file: &File<'_>,
    fault: SyntaxFault,
    found: &[u8],
) -> Result<(), AllocError>
    ensures { Adds result writer.old writer.new (spec.fault_physical file.now fault found.now) }
{
    put_key(writer, "physicalLocation")?;
    open_object(writer)?;
    put_artifact(alloc, writer, file, fault.line)?;
    put_fault_region(writer, file, place_of(fault), found)?;
    close_object(writer)
}

fn put_fault_location(
    alloc: Global,
    writer: &mut Writer,
    file: &File<'_>,
    fault: SyntaxFault,
    found: &[u8],
    words: &Vec<u8>,
) -> Result<(), AllocError>
    ensures { Adds result writer.old writer.new (spec.fault_location file.now fault found.now words.now.items) }
{
    open_object(writer)?;
    put_fault_physical(alloc, writer, file, fault, found)?;
    put_message(alloc, writer, words)?;
    close_object(writer)
}

/// Writes the places of a fault: one.
fn put_fault_locations(
    alloc: Global,
    writer: &mut Writer,
    file: &File<'_>,
    fault: SyntaxFault,
    found: &[u8],
    words: &Vec<u8>,
) -> Result<(), AllocError>
    ensures { Adds result writer.old writer.new (spec.fault_locations file.now fault found.now words.now.items) }
{
    put_key(writer, "locations")?;
    open_array(writer)?;
    put_fault_location(alloc, writer, file, fault, found, words)?;
    close_array(writer)
}

fn put_fault_properties(
    alloc: Global,
    writer: &mut Writer,
    help: &Vec<u8>,
) -> Result<(), AllocError>
    ensures { Adds result writer.old writer.new (spec.fault_properties help.now.items) }
{
    put_key(writer, "properties")?;
    open_object(writer)?;
    put_filled(alloc, writer, "help", help)?;
    close_object(writer)
}

fn put_fault_members(
    alloc: Global,
    writer: &mut Writer,
    file: &File<'_>,
    fault: SyntaxFault,
    found: &[u8],
    words: &Vec<u8>,
    help: &Vec<u8>,
) -> Result<(), AllocError>
    ensures { Adds result writer.old writer.new
        (spec.fault_members file.now fault found.now words.now.items help.now.items) }
{
    put_of_rule(writer, ResultKind::Unread(fault.kind))?;
    put_level(writer)?;
    put_message(alloc, writer, words)?;
    put_fault_locations(alloc, writer, file, fault, found, words)?;
    put_fault_properties(alloc, writer, help)?;
    put_not_suppressed(writer)
}

/// Writes a fault of a text.
pub(crate) fn put_fault_result(
    alloc: Global,
    writer: &mut Writer,
    file: &File<'_>,
    fault: SyntaxFault,
    found: &[u8],
    words: &Vec<u8>,
    help: &Vec<u8>,
) -> Result<(), AllocError>
    ensures { Adds result writer.old writer.new
        (spec.fault_result file.now fault found.now words.now.items help.now.items) }
{
    open_object(writer)?;
    put_fault_members(alloc, writer, file, fault, found, words, help)?;
    close_object(writer)
}
