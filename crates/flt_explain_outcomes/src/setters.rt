//! A text with one more callback that sets contexts which nothing in the text sets, as the driver kit's InstanceSetupCallback does, which
//! the language leaves out.

ghost use Rattle.std.specs.Prelude.{◌≡◌, ◌≤◌, ◌-◌, IfOk, IfSome, length, slice_get, string_bytes};
ghost use Rattle.flt_explain_outcomes.specs.Setters as spec;

use crate::unset::Unset;
use flt_explain::Finding;
use flt_explain_texts::{TextJudgement, judge};
use flt_graph::Graph;
use flt_rules::{Operation, number};
use flt_tree::{Filter, Head, Tree};
use sqlite_items::Items;
use std::alloc::{AllocError, Global};
use std::fmt::Write;

/// A text that sets contexts that another doesn't: its tree alone, its points and its findings, the lines that were added, and the number
/// of the first of them, from 1.
#[derive(Drop)]
pub struct Setter {
    pub trees: Items<Tree>,
    pub graph: Graph,
    pub found: Items<Finding>,
    pub added: String,
    pub line: usize,
}

/// Whether a callback is of an operation.
fn is_of(head: &Head, operation: Operation) -> bool {
    match head {
        Head::Pre(own) | Head::Post(own) => own.is_same(operation),
        _ => false,
    }
}

/// Whether a context can be set in a filter's pre callback of an operation: it has no callback of that, and a create has no stream yet.
fn is_free(filter: &Filter, operation: Operation, unset: Unset) -> bool {
    let is_early = unset.stream && operation.is_same(Operation::Create);
    let mut callbacks = filter.callbacks.as_slice().iter();
    !is_early && !callbacks.any(|c| is_of(&c.head, operation))
}

/// Writes the statements that set a context by a call.
fn put_set(out: &mut String, call: &str) -> Result<(), AllocError> {
    write!(
        out,
        "  if FltAllocateContext c0 {{\n    if {call} KEEP_IF_EXISTS c0 {{ }}\n    FltReleaseContext c0\n  }}\n"
    )
}

/// The lines of a pre callback of an operation that sets contexts on these anchors.
fn setter_lines(alloc: Global, operation: &str, unset: Unset) -> Result<String, AllocError> {
    let mut out = String::new(alloc);
    write!(out, "pre {operation} {{\n")?;
    if unset.instance {
        put_set(&mut out, "FltSetInstanceContext")?;
    }
    if unset.stream {
        put_set(&mut out, "FltSetStreamContext")?;
    }
    out.push_str("  return NO_CALLBACK\n}\n")?;
    Ok(out)
}

/// The last operation in whose pre callback contexts can be set, of those that come as I/O request packets alone, or of the others.
fn last_free(filter: &Filter, unset: Unset, is_always_irp: bool) -> Option<Operation> {
    let mut operations = Operation::all().iter().rev();
    let free = operations.find(|operation| {
        operation.is_always_irp() == is_always_irp && is_free(filter, **operation, unset)
    });
    free.copied()
}

/// The operation of the callback that sets contexts, if one is free for that. Those that come as I/O request packets alone are asked first:
/// a driver sees them least often.
fn setting_operation(filter: &Filter, unset: Unset) -> Option<Operation> {
    last_free(filter, unset, true).or(last_free(filter, unset, false))
}

/// The lines that a filter can have after its last one to set contexts on these anchors; none if no operation is free for that.
fn added_lines(alloc: Global, filter: &Filter, unset: Unset) -> Result<Option<String>, AllocError> {
    match setting_operation(filter, unset) {
        Some(operation) => Ok(Some(setter_lines(alloc, operation.name(), unset)?)),
        None => Ok(None),
    }
}

/// How many lines end in a text.
fn line_ends(text: &[u8]) -> usize
    ensures ends { result ≡ spec.line_ends text.now }
    ensures within { result ≤ length text.now }
{
    let mut count = 0;
    for byte in text {
        if *byte == b'\n' {
            count += 1;
        }
    }
    count
}

/// Whether two findings are of one rule at one point.
pub(crate) fn is_same(one: &Finding, other: &Finding) -> bool {
    one.callback == other.callback
        && one.point == other.point
        && one.line == other.line
        && number(one.rule) == number(other.rule)
}

/// Whether both have a first finding, and it is the same.
fn begin_alike(found: &[Finding], other: &[Finding]) -> bool {
    match (found, other) {
        ([first, ..], [other, ..]) => is_same(first, other),
        _ => false,
    }
}

/// Whether the last byte ends a line.
fn is_ended(text: &[u8]) -> bool
    ensures { result ≡ spec.is_end (slice_get text.now (length text.now - 1)) }
{
    match text.last() {
        Some(byte) => *byte == b'\n',
        None => false,
    }
}

/// A text with an end of its last line.
fn whole_lines(alloc: Global, text: &[u8]) -> Result<Vec<u8>, AllocError>
    ensures on { IfOk result (λ whole. spec.GoesOn text.now whole.items) }
    ensures ended { IfOk result (λ whole. whole.items ≡ spec.ended text.now) }
{
    let mut whole = Vec::from_slice(alloc, text)?;
    if !is_ended(text) {
        whole.push(b'\n')?;
    }
    Ok(whole)
}

/// The setter of a text with this judgement, if the first finding is the same.
fn setter_of(
    alloc: Global,
    found: &[Finding],
    judged: TextJudgement,
    added: String,
    line: usize,
) -> Result<Option<Setter>, AllocError>
    ensures tree { IfOk result (λ s. IfSome s (spec.IsOfJudged judged)) }
    ensures lines { IfOk result (λ s. IfSome s (λ s. (string_bytes s.added ≡ string_bytes added) × (s.line ≡ line))) }
{
    match judged {
        TextJudgement::Known(tree, graph, own) if begin_alike(found, own.as_slice()) => {
            let mut trees = Items::new(alloc);
            trees.push(tree)?;
            Ok(Some(Setter {
                trees,
                graph,
                found: own,
                added,
                line,
            }))
        }
        _ => Ok(None),
    }
}

/// The setter of a text with these lines added.
fn setter_with(
    alloc: Global,
    text: &[u8],
    found: &[Finding],
    added: String,
) -> Result<Option<Setter>, AllocError>
    ensures { IfOk result (λ s. IfSome s (spec.IsSetter text.now)) }
{
    let mut whole = whole_lines(alloc, text)?;
    let line = line_ends(whole.as_slice()) + 1;
    whole.extend_from_slice(added.as_bytes())?;
    let judged = judge(alloc, &whole)?;
    let setter = setter_of(alloc, found, judged, added, line)?;
    Ok(setter)
}

impl Setter {
    /// The setter of a text with a callback that sets contexts on these anchors; none if there is nothing to set, no operation is free for
    /// it, or the first finding is then another one.
    ///
    /// # Errors
    ///
    /// If memory is refused.
    pub(crate) fn of(
        alloc: Global,
        text: &[u8],
        tree: &Tree,
        found: &[Finding],
        unset: Unset,
    ) -> Result<Option<Setter>, AllocError>
        ensures { IfOk result (λ s. IfSome s (spec.IsSetter text.now)) }
    {
        if !unset.stream && !unset.instance {
            return Ok(None);
        }
        match added_lines(alloc, &tree.filter, unset)? {
            Some(added) => setter_with(alloc, text, found, added),
            None => Ok(None),
        }
    }
}
