//! Quick fixes of a fault or a finding: an editor may write the word that is probably meant, or release a context or a lock that is held at
//! the end of a path. An edit for a finding is offered only if its callback has fewer findings after it. No other callback's depend on it.
//! In a C file only words are written: a call that an annotation lacks its code lacks, too.

use crate::edits::{Edit, findings_in, is_better, put_action};
use crate::faults::is_too_long;
use crate::focus::{Focus, focus_by, symbols_in};
use crate::places::Document;
use crate::trial::trial_text;
use flt_explain::{Finding, Subject};
use flt_explain_hints::{Trouble, describe};
use flt_explain_texts::{TextJudgement, call_name, judge, word_of};
use flt_graph::{Graph, Instruction, Place};
use flt_rules::{Call, LockNumber, Rule};
use flt_server_outline::{Part, Symbol};
use flt_syntax::{SyntaxFault, Tree};
use json::Writer;
use std::alloc::{AllocError, Global};

/// How many findings are looked at for one request, since an edit for each takes an analysis of its callback.
const MAX_TRIED: usize = 16;

/// How many points and findings of callbacks are analysed for one request, but for those of the last edit.
const MAX_ANALYSED: usize = 1_000;

fn meets(part: Part, other: Part) -> bool {
    other.start <= part.end && part.start <= other.end
}

fn joined(alloc: Global, parts: &[&[u8]]) -> Result<Vec<u8>, AllocError> {
    let mut out = Vec::new(alloc);
    for part in parts {
        out.extend_from_slice(part)?;
    }
    Ok(out)
}

// ---- faults

fn replacing_title<'a>(
    alloc: Global,
    word: &'a [u8],
    found: &'a [u8],
) -> Result<Vec<u8>, AllocError> {
    joined(alloc, &[b"Write `", word, b"` instead of `", found, b"`"])
}

/// The edit that writes a word in place of the one that is found.
fn replacing(
    alloc: Global,
    trouble: &Trouble<'_>,
    part: Part,
    word: &[u8],
) -> Result<Edit, AllocError> {
    let title = replacing_title(alloc, word, trouble.spot.bytes)?;
    let new = Vec::from_slice(alloc, word)?;
    Ok(Edit { title, part, new })
}

fn put_replacing(
    alloc: Global,
    writer: &mut Writer,
    document: &Document<'_>,
    trouble: &Trouble<'_>,
    left_out: usize,
    part: Part,
) -> Result<(), AllocError> {
    let (Some(word), Some(token)) = (trouble.meant, trouble.spot.token) else {
        return Ok(());
    };
    let found = Part {
        start: token.start.saturating_add(left_out),
        end: token.end.saturating_add(left_out),
    };
    if !meets(part, found) {
        return Ok(());
    }
    let edit = replacing(alloc, trouble, found, word)?;
    put_action(alloc, writer, document, &edit)
}

fn put_for_fault(
    alloc: Global,
    writer: &mut Writer,
    document: &Document<'_>,
    fault: SyntaxFault,
    part: Part,
) -> Result<(), AllocError> {
    let focus = trial_text(alloc, document.text, fault)?;
    match describe(alloc, focus.text.as_slice())? {
        Some(trouble) => put_replacing(alloc, writer, document, &trouble, focus.left_out, part),
        None => Ok(()),
    }
}

// ---- findings

/// The blanks with which the line of a byte begins, if nothing else is before the byte.
fn indentation(text: &[u8], byte: usize) -> &[u8] {
    let before = text.get(..byte).unwrap_or(b"");
    let count = before
        .iter()
        .rev()
        .take_while(|byte| **byte == b' ' || **byte == b'\t')
        .count();
    let start = before.len().saturating_sub(count);
    before.get(start..).unwrap_or(b"")
}

/// The bytes before the first line: more blanks before the brace that ends a body.
fn further(graph: &Graph, finding: &Finding) -> &'static [u8] {
    match graph.instruction_ref(finding.callback, finding.point) {
        Instruction::End => b"  ",
        _ => b"",
    }
}

/// The call that releases a lock.
fn release_of(tree: &Tree, lock: LockNumber) -> &'static str {
    match tree.filter.locks.get(usize::from(lock.place())) {
        Some(lock) => call_name(Call::ReleaseLock(lock.kind)),
        None => "",
    }
}

/// The call that a finding's path lacks at its end, and whether it is made only where the subject isn't NULL; none if that isn't known.
fn lacking(tree: &Tree, graph: &Graph, finding: &Finding) -> Option<&'static str> {
    match (finding.rule, finding.subject) {
        (Rule::R10, Subject::Lock(lock)) => Some(release_of(tree, lock)),
        (Rule::R02, Subject::Context(_)) => Some("FltReleaseContext"),
        (Rule::R05, Subject::Operation(_)) => match graph.place(finding.callback) {
            Place::DeferredPost => Some("FltCompletePendedPostOperation"),
            _ => None,
        },
        _ => None,
    }
}

fn title_of<'a>(alloc: Global, call: &'a [u8], name: &'a [u8]) -> Result<Vec<u8>, AllocError> {
    joined(alloc, &[b"Write `", call, b" ", name, b"` before this"])
}

/// A call, and the blanks of the line after it.
fn call_text<'a>(
    alloc: Global,
    more: &'a [u8],
    call: &'a [u8],
    name: &'a [u8],
    blanks: &'a [u8],
) -> Result<Vec<u8>, AllocError> {
    joined(alloc, &[more, call, b" ", name, b"\n", blanks])
}

/// The edit that makes a call before a finding's statement.
fn calling(
    alloc: Global,
    document: &Document<'_>,
    tree: &Tree,
    graph: &Graph,
    finding: &Finding,
    call: &[u8],
) -> Result<Edit, AllocError> {
    let name = word_of(tree, finding.subject);
    let start = graph.span(finding.callback, finding.point).start;
    let blanks = indentation(document.text, start);
    let more = further(graph, finding);
    let title = title_of(alloc, call, name)?;
    let new = call_text(alloc, more, call, name, blanks)?;
    let part = Part { start, end: start };
    Ok(Edit { title, part, new })
}

fn testing_title<'a>(alloc: Global, call: &'a [u8], name: &'a [u8]) -> Result<Vec<u8>, AllocError> {
    joined(
        alloc,
        &[
            b"Write `if ",
            name,
            b" != NULL { ",
            call,
            b" ",
            name,
            b" }` before this",
        ],
    )
}

fn test_head<'a>(
    alloc: Global,
    more: &'a [u8],
    name: &'a [u8],
    blanks: &'a [u8],
) -> Result<Vec<u8>, AllocError> {
    joined(
        alloc,
        &[more, b"if ", name, b" != NULL {\n", blanks, more, b"  "],
    )
}

fn test_tail<'a>(
    alloc: Global,
    more: &'a [u8],
    call: &'a [u8],
    name: &'a [u8],
    blanks: &'a [u8],
) -> Result<Vec<u8>, AllocError> {
    joined(
        alloc,
        &[call, b" ", name, b"\n", blanks, more, b"}\n", blanks],
    )
}

/// A call in a test of its operand, and the blanks of the line after it.
fn test_text<'a>(
    alloc: Global,
    more: &'a [u8],
    call: &'a [u8],
    name: &'a [u8],
    blanks: &'a [u8],
) -> Result<Vec<u8>, AllocError> {
    let mut out = test_head(alloc, more, name, blanks)?;
    let tail = test_tail(alloc, more, call, name, blanks)?;
    out.extend_from_slice(tail.as_slice())?;
    Ok(out)
}

/// The edit that makes a call before a finding's statement where its subject isn't NULL.
fn testing(
    alloc: Global,
    document: &Document<'_>,
    tree: &Tree,
    graph: &Graph,
    finding: &Finding,
    call: &[u8],
) -> Result<Edit, AllocError> {
    let name = word_of(tree, finding.subject);
    let start = graph.span(finding.callback, finding.point).start;
    let blanks = indentation(document.text, start);
    let more = further(graph, finding);
    let title = testing_title(alloc, call, name)?;
    let new = test_text(alloc, more, call, name, blanks)?;
    let part = Part { start, end: start };
    Ok(Edit { title, part, new })
}

/// A callback in which edits are tried.
#[derive(Drop)]
struct Scope<'a> {
    focus: &'a Focus,
    callback: usize,
    /// How many findings it has.
    findings: usize,
}

/// Puts an edit if its callback has fewer findings after it, and says whether it is put.
fn put_if_better(
    alloc: Global,
    writer: &mut Writer,
    document: &Document<'_>,
    scope: &Scope<'_>,
    edit: &Edit,
) -> Result<bool, AllocError> {
    let better = is_better(alloc, scope.focus, scope.callback, scope.findings, edit)?;
    if better {
        put_action(alloc, writer, document, edit)?;
    }
    Ok(better)
}

/// Puts the edit that makes a call, or the one that makes it where the subject isn't NULL.
fn put_calling(
    alloc: Global,
    writer: &mut Writer,
    document: &Document<'_>,
    tree: &Tree,
    graph: &Graph,
    scope: &Scope<'_>,
    finding: &Finding,
    call: &[u8],
) -> Result<(), AllocError> {
    let first = calling(alloc, document, tree, graph, finding, call)?;
    if put_if_better(alloc, writer, document, scope, &first)? {
        return Ok(());
    }
    let second = testing(alloc, document, tree, graph, finding, call)?;
    put_if_better(alloc, writer, document, scope, &second)?;
    Ok(())
}

fn put_for_finding(
    alloc: Global,
    writer: &mut Writer,
    document: &Document<'_>,
    tree: &Tree,
    graph: &Graph,
    scope: &Scope<'_>,
    finding: &Finding,
) -> Result<(), AllocError> {
    match lacking(tree, graph, finding) {
        Some(call) => {
            put_calling(
                alloc,
                writer,
                document,
                tree,
                graph,
                scope,
                finding,
                call.as_bytes(),
            )
        }
        None => Ok(()),
    }
}

fn is_there(graph: &Graph, finding: &Finding, part: Part) -> bool {
    let span = graph.span(finding.callback, finding.point);
    let statement = Part {
        start: span.start,
        end: span.end,
    };
    meets(part, statement)
}

/// Puts the edit for a finding, and returns how many points and findings each analysis for it has.
fn put_in_scope(
    alloc: Global,
    writer: &mut Writer,
    document: &Document<'_>,
    tree: &Tree,
    graph: &Graph,
    symbols: &[Symbol],
    finding: &Finding,
) -> Result<usize, AllocError> {
    let callback = finding.callback;
    let start = graph.span(callback, finding.point).start;
    let focus = focus_by(alloc, document.text, symbols, start)?;
    let findings = findings_in(alloc, focus.text.as_slice(), callback)?.unwrap_or(0);
    let scope = Scope {
        focus: &focus,
        callback,
        findings,
    };
    put_for_finding(alloc, writer, document, tree, graph, &scope, finding)?;
    Ok(graph.points(callback).saturating_add(findings))
}

fn put_for_findings(
    alloc: Global,
    writer: &mut Writer,
    document: &Document<'_>,
    tree: &Tree,
    graph: &Graph,
    found: &[Finding],
    part: Part,
) -> Result<(), AllocError> {
    let symbols = symbols_in(alloc, document.text)?;
    let mut left = MAX_TRIED;
    let mut analysed: usize = 0;
    for finding in found {
        if left > 0 && analysed < MAX_ANALYSED && is_there(graph, finding, part) {
            left -= 1;
            let size = put_in_scope(
                alloc,
                writer,
                document,
                tree,
                graph,
                symbols.as_slice(),
                finding,
            )?;
            analysed = analysed.saturating_add(size);
        }
    }
    Ok(())
}

fn put_judged(
    alloc: Global,
    writer: &mut Writer,
    document: &Document<'_>,
    judged: &TextJudgement,
    part: Part,
) -> Result<(), AllocError> {
    match judged {
        TextJudgement::Unread(fault) => put_for_fault(alloc, writer, document, *fault, part),
        TextJudgement::Known(_, _, _) if document.c_file.is_some() => Ok(()),
        TextJudgement::Known(tree, graph, found) => {
            put_for_findings(alloc, writer, document, tree, graph, found.as_slice(), part)
        }
    }
}

fn put_actions(
    alloc: Global,
    writer: &mut Writer,
    document: &Document<'_>,
    part: Part,
) -> Result<(), AllocError> {
    if is_too_long(document.text) {
        return Ok(());
    }
    let judged = judge(alloc, document.text)?;
    put_judged(alloc, writer, document, &judged, part)
}

/// The quick fixes of the faults and findings in a part of a document, as a result.
pub(crate) fn actions(
    alloc: Global,
    document: &Document<'_>,
    part: Part,
) -> Result<Vec<u8>, AllocError> {
    let mut writer = Writer::new(Vec::new(alloc));
    writer.begin_array()?;
    put_actions(alloc, &mut writer, document, part)?;
    writer.end_array()?;
    Ok(writer.into_inner())
}
