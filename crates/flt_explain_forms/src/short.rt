//! The findings in texts, a sentence per line, as compilers print them.

ghost use Rattle.std.specs.Prelude.{◌≡◌, ◌++◌, List, ℕ, IfOk, Some, flat_map, string_bytes};
ghost use Rattle.flt_explain_forms.specs.Lines.{AreShortLines};
ghost use Rattle.flt_explain_forms.specs.Short as spec;
ghost use Rattle.flt_syntax.specs.TextFails.{Fails};

use flt_explain::Finding;
use flt_explain_details::{Detail, details};
use flt_explain_hints::{describe, tell};
use flt_explain_parts::place_of;
use flt_explain_texts::{Source, fault_name};
use flt_explain_warning_details::WarningDetail;
use flt_graph::Graph;
use flt_places::Files;
use flt_syntax::{SyntaxFault, Tree, fails_exactly_where_nothing_is_spelled};
use flt_tree::Position;
use std::alloc::{AllocError, Global};
use std::fmt;

/// Whether it is an error or a warning, and the rule.
#[derive(Drop)]
struct Tag<'a> {
    level: &'a str,
    rule: &'a str,
}

impl fmt::Display for Tag<'_> {
    ghost output = { λ t. Some (spec.tag t.level.now t.rule.now) };

    fn fmt<W: fmt::Write>(&self, f: &mut fmt::Formatter<W>) -> fmt::Result {
        let level = self.level;
        let rule = self.rule;
        write!(f, "{level}[{rule}]")
    }
}

/// The beginning of a line, before its words: the file's name, the place and the tag.
#[derive(Drop)]
struct Head<'a> {
    name: &'a str,
    place: Position,
    tag: &'a str,
}

impl fmt::Display for Head<'_> {
    ghost output = { λ h. Some (spec.tagged h.name.now h.place.line h.place.column h.tag.now) };

    fn fmt<W: fmt::Write>(&self, f: &mut fmt::Formatter<W>) -> fmt::Result {
        let name = self.name;
        let line = self.place.line;
        let column = self.place.column;
        let tag = self.tag;
        write!(f, "{name}:{line}:{column}: {tag}: ")
    }
}

fn tag_of(alloc: Global, level: &str, rule: &str) -> Result<String, AllocError>
    ensures { IfOk result (λ tag. string_bytes tag ≡ spec.tag level.now rule.now) }
{
    let tag = Tag { level, rule };
    format!(in alloc; "{tag}")
}

fn head_of(
    alloc: Global,
    files: &Files<'_>,
    place: Position,
    level: &str,
    rule: &str,
) -> Result<String, AllocError>
    ensures { IfOk result (λ head. string_bytes head ≡ spec.head files.now place level.now rule.now) }
{
    let tag = tag_of(alloc, level, rule)?;
    let head = Head {
        name: files.file_name(files.file_at(place.line)),
        place: files.file_place(place),
        tag: tag.as_str(),
    };
    format!(in alloc; "{head}")
}

/// Adds a head, words and a line feed to the output.
fn put_sentence(out: Vec<u8>, head: &str, words: &[u8]) -> Result<Vec<u8>, AllocError>
    ensures { IfOk result (λ v. v.items ≡ out.items ++ spec.sentence head.now words.now) }
{
    let mut out = out;
    out.extend_from_slice(head.as_bytes())?;
    out.extend_from_slice(words)?;
    out.push(b'\n')?;
    Ok(out)
}

/// Adds the line of a finding to the output.
fn put_finding(
    alloc: Global,
    out: Vec<u8>,
    files: &Files<'_>,
    detail: &Detail,
) -> Result<Vec<u8>, AllocError>
    ensures { IfOk result (λ v. v.items ≡ out.items ++ spec.finding_line files.now detail.now) }
{
    let rule = detail.finding.rule.name();
    let place = detail.marks.statement.first;
    let head = head_of(alloc, files, place, "error", rule)?;
    put_sentence(out, head.as_str(), detail.words.title.as_slice())
}

/// Adds a line for each finding to the output.
fn put_findings(
    alloc: Global,
    out: Vec<u8>,
    files: &Files<'_>,
    details: &[Detail],
) -> Result<Vec<u8>, AllocError>
    ensures { IfOk result (λ v. v.items ≡ out.items ++ flat_map (spec.finding_line files.now) details.now) }
{
    let mut out = out;
    for detail in details {
        out = put_finding(alloc, out, files, detail)?;
    }
    Ok(out)
}

/// Adds the lines of the findings in a text that parses to the output.
pub(crate) fn put_short_lines(
    alloc: Global,
    out: Vec<u8>,
    source: Source<'_>,
    tree: &Tree,
    graph: &Graph,
    found: &[Finding],
) -> Result<Vec<u8>, AllocError>
    ensures { IfOk result (λ v. (printed : List ℕ)
        × AreShortLines source.entry.files source.entry.text.now tree.now.filter graph.now found.now printed ×
        (v.items ≡ out.items ++ printed)) }
{
    let details = details(alloc, source, tree, graph, found)?;
    put_findings(alloc, out, &source.files, details.as_slice())
}

/// Adds the line of a warning that is shown to the output.
fn put_shown(
    alloc: Global,
    out: Vec<u8>,
    files: &Files<'_>,
    detail: &WarningDetail,
) -> Result<Vec<u8>, AllocError>
    ensures { IfOk result (λ v. v.items ≡ out.items ++ spec.shown_line files.now detail.now) }
{
    let place = detail.marks.statement.first;
    let head = head_of(alloc, files, place, "warning", detail.kind.name())?;
    put_sentence(out, head.as_str(), detail.title.as_slice())
}

/// Adds the line of a warning to the output, unless a comment allows it.
fn put_warning(
    alloc: Global,
    out: Vec<u8>,
    files: &Files<'_>,
    detail: &WarningDetail,
) -> Result<Vec<u8>, AllocError>
    ensures { IfOk result (λ v. v.items ≡ out.items ++ spec.warning_line files.now detail.now) }
{
    match &detail.reason {
        None => put_shown(alloc, out, files, detail),
        Some(_) => Ok(out),
    }
}

/// Adds a line for each warning that is shown to the output.
pub(crate) fn put_short_warnings(
    alloc: Global,
    out: Vec<u8>,
    files: &Files<'_>,
    warned: &[WarningDetail],
) -> Result<Vec<u8>, AllocError>
    ensures { IfOk result (λ v. v.items ≡ out.items ++ flat_map (spec.warning_line files.now) warned.now) }
{
    let mut out = out;
    for detail in warned {
        out = put_warning(alloc, out, files, detail)?;
    }
    Ok(out)
}

/// Adds the line of a fault to the output.
fn put_fault(
    alloc: Global,
    out: Vec<u8>,
    files: &Files<'_>,
    fault: SyntaxFault,
    words: &[u8],
) -> Result<Vec<u8>, AllocError>
    ensures { IfOk result (λ v. v.items ≡ out.items ++ spec.fault_line files.now fault words.now) }
{
    let head = head_of(
        alloc,
        files,
        place_of(fault),
        "error",
        fault_name(fault.kind),
    )?;
    put_sentence(out, head.as_str(), words)
}

/// Adds the line of a text that doesn't parse to the output.
pub(crate) fn put_short_fault(
    alloc: Global,
    out: Vec<u8>,
    source: Source<'_>,
    fault: SyntaxFault,
) -> Result<Vec<u8>, AllocError>
    requires { Fails source.text.now fault }
    ensures { IfOk result (λ v. (printed : List ℕ) × spec.IsFaultLine source.entry.files source.entry.text.now printed
        × (v.items ≡ out.items ++ printed)) }
{
    fails_exactly_where_nothing_is_spelled();
    let Some(trouble) = describe(alloc, source.text)? else {
        return Ok(out);
    };
    let told = tell(alloc, &trouble, b"")?;
    let written = put_fault(
        alloc,
        out,
        &source.files,
        trouble.spot.fault,
        told.title.as_slice(),
    )?;
    Ok(written)
}
