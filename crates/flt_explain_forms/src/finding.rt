//! Findings, as JSON.

ghost use Rattle.std.specs.Prelude.{◌≡◌, ◌++◌, codes, IfOk};
ghost use Rattle.flt_explain_forms.specs.Finding as spec;
ghost use Rattle.flt_explain_forms.specs.RunMember.{member_of, members_in};
ghost use Rattle.flt_explain_parts.specs.Members.{Adds, string_member};
ghost use Rattle.flt_explain_parts.specs.Points.{regions};
ghost use Rattle.flt_rules.specs.Rule.{rule_name, text as rule_text};

use crate::places::put_marks;
use crate::preface::put_preface;
use crate::run_member::{OwnRun, TextRuns, put_run_member};
use crate::steps::{put_kind, put_like, put_maker_member, put_steps, put_steps_member};
use flt_explain::Finding;
use flt_explain_advice::Words;
use flt_explain_details::{Detail, Route};
use flt_explain_parts::{
    Points, close_object, open_object, put_filled, put_key, put_null, put_number, put_string,
    put_text,
};
use flt_graph::Graph;
use flt_places::{Files, Lines};
use flt_rules::{Rule, text};
use json::Writer;
use std::alloc::{AllocError, Global};

fn put_place(writer: &mut Writer, points: &Points<'_>, detail: &Detail) -> Result<(), AllocError>
    ensures { Adds result writer.old writer.new (spec.place points.now.files points.now.home detail.now) }
{
    put_number(writer, "callback", detail.finding.callback)?;
    put_number(writer, "point", detail.finding.point)?;
    put_marks(writer, &points.files, points.home, detail.marks)
}

/// Writes a rule's number.
fn put_rule_name(writer: &mut Writer, rule: Rule) -> Result<(), AllocError>
    ensures { Adds result writer.old writer.new (string_member (codes "rule") (rule_name rule)) }
{
    put_string(writer, "rule", rule.name())
}

/// Writes a rule's text.
fn put_rule_text(writer: &mut Writer, rule: Rule) -> Result<(), AllocError>
    ensures { Adds result writer.old writer.new (string_member (codes "text") (rule_text rule)) }
{
    put_string(writer, "text", text(rule))
}

fn put_rule(writer: &mut Writer, finding: &Finding) -> Result<(), AllocError>
    ensures { Adds result writer.old writer.new (spec.rule finding.now) }
{
    put_rule_name(writer, finding.rule)?;
    put_rule_text(writer, finding.rule)
}

fn put_words(alloc: Global, writer: &mut Writer, words: &Words) -> Result<(), AllocError>
    ensures { Adds result writer.old writer.new (spec.words words.now) }
{
    put_text(alloc, writer, "head", &words.head)?;
    put_text(alloc, writer, "message", &words.title)?;
    put_text(alloc, writer, "subject", &words.subject)?;
    put_text(alloc, writer, "help", &words.help)?;
    put_filled(alloc, writer, "note", &words.note)
}

fn put_state(writer: &mut Writer, state: Option<&'static str>) -> Result<(), AllocError>
    ensures { Adds result writer.old writer.new (spec.state state.entry) }
{
    match state {
        None => put_null(writer, "state"),
        Some(word) => put_string(writer, "state", word),
    }
}

/// Writes how a finding is reached.
fn put_path(
    alloc: Global,
    writer: &mut Writer,
    points: &Points<'_>,
    route: &Route,
) -> Result<(), AllocError>
    ensures { Adds result writer.old writer.new (spec.path points.now.files points.now.home (regions points.now) route.now) }
{
    put_key(writer, "path")?;
    open_object(writer)?;
    put_kind(writer, route.kind)?;
    put_like(writer, route.like)?;
    put_key(writer, "steps")?;
    put_steps(alloc, writer, points, &route.stages)?;
    put_steps_member(alloc, writer, points, "other", &route.other)?;
    close_object(writer)
}

fn put_route(
    alloc: Global,
    writer: &mut Writer,
    points: &Points<'_>,
    route: &Route,
) -> Result<(), AllocError>
    ensures { Adds result writer.old writer.new (spec.route points.now.files points.now.home (regions points.now) route.now) }
{
    put_state(writer, route.state)?;
    put_maker_member(alloc, writer, points, "origin", &route.origin)?;
    put_path(alloc, writer, points, route)
}

/// Writes a finding of a number of a text of a number, with its run.
fn put_finding(
    alloc: Global,
    writer: &mut Writer,
    points: &Points<'_>,
    own: OwnRun<'_, '_>,
    detail: &Detail,
) -> Result<(), AllocError>
    ensures { Adds result writer.old writer.new
        (spec.finding points.now.files points.now.home (regions points.now) (member_of own.entry) detail.now) }
{
    open_object(writer)?;
    put_preface(writer, "finding", points.files.file_name(points.home))?;
    put_place(writer, points, detail)?;
    put_rule(writer, &detail.finding)?;
    put_words(alloc, writer, &detail.words)?;
    put_route(alloc, writer, points, &detail.route)?;
    put_run_member(alloc, writer, own)?;
    close_object(writer)
}

/// Adds a finding on a line of its own to the output.
fn put_line(
    alloc: Global,
    out: Vec<u8>,
    files: &Files<'_>,
    lines: &Lines<'_>,
    graph: &Graph,
    own: OwnRun<'_, '_>,
    detail: &Detail,
) -> Result<Vec<u8>, AllocError>
    ensures { IfOk result (λ v. v.items ≡ out.items ++ spec.finding_line files.now lines.now graph.now (member_of own.entry) detail.now) }
{
    let points = Points {
        lines,
        files: *files,
        home: files.file_at(detail.marks.statement.first.line),
        graph,
        callback: detail.finding.callback,
    };
    let mut writer = Writer::new(out);
    put_finding(alloc, &mut writer, &points, own, detail)?;
    let mut out = writer.into_inner();
    out.push(b'\n')?;
    Ok(out)
}

/// Adds a line for each finding of the text of a number to the output, with its run.
pub(crate) fn put_lines(
    alloc: Global,
    out: Vec<u8>,
    files: &Files<'_>,
    lines: &Lines<'_>,
    graph: &Graph,
    runs: TextRuns<'_, '_>,
    source: usize,
    details: &[Detail],
) -> Result<Vec<u8>, AllocError>
    ensures { IfOk result (λ v. v.items
        ≡ out.items ++ spec.finding_lines files.now lines.now graph.now (members_in runs.entry source) details.now) }
{
    let mut out = out;
    for (finding, detail) in details.iter().enumerate() {
        let own = OwnRun {
            runs,
            source,
            finding,
        };
        out = put_line(alloc, out, files, lines, graph, own, detail)?;
    }
    Ok(out)
}
