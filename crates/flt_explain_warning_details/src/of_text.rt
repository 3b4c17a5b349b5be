//! The details of all warnings of a text.

ghost use Rattle.std.specs.Prelude.{◌≡◌, ◌<◌, ◌++◌, flat_map, length, slice_get, IfOk, OnOk, Some};
ghost use Rattle.std.specs.BTreeSet.{contains};
ghost use Rattle.std.specs.Ordering.{nat_cmp};
ghost use Rattle.flt_explain_warning_details.specs.Details as spec;
ghost use Rattle.flt_explain_warning_details.specs.Indexed.{idle_unless_needed, IsIndexed};
ghost use Rattle.flt_explain_warning_details.specs.Parsed.{of_parsed};

use crate::allowing::{needed_places, reason_for};
use crate::comments::idle_detail;
use crate::detail::WarningDetail;
use crate::indexed::IndexedComments;
use crate::parsed::ParsedText;
use crate::saying::{circle_of, head_of, help_of, marks_of, note_of, related_of, title_of};
use flt_analyse::{AnalyseFault, analyse_plainly};
use flt_cert::FullCert;
use flt_explain::Finding;
use flt_explain_texts::{Scene, Source, tokens_of};
use flt_explain_warnings::{Allowance, AllowedKinds, Kind, Warning, allowances, warnings};
use flt_graph::Graph;
use flt_places::{Files, Lines};
use flt_syntax::Tree;
use sqlite_items::Items;
use std::alloc::{AllocError, Global};
use std::collections::BTreeSet;

// ---- the certificate

/// The least certificate of a graph; `None` if no certificate covers it.
fn certificate(alloc: Global, graph: &Graph) -> Result<Option<FullCert>, AllocError>
    ensures { IfOk result (spec.IsLeastOf graph.now) }
{
    match analyse_plainly(alloc, graph) {
        Ok(cert) => Ok(Some(cert)),
        Err(AnalyseFault::Refused(_)) => Ok(None),
        Err(AnalyseFault::OutOfMemory) => Err(AllocError),
    }
}

// ---- what is said

/// The details of a warning.
fn detail_of(
    alloc: Global,
    text: &ParsedText<'_>,
    comments: &IndexedComments<'_>,
    warning: &Warning,
) -> Result<WarningDetail, AllocError>
    requires { IsIndexed comments.now }
    ensures { IfOk result (λ d. d ≡ spec.detail_of (of_parsed text.now) comments.now.all.now warning.now) }
{
    let marks = marks_of(alloc, text, warning)?;
    let head = Items::from_slice(alloc, head_of(text, warning))?;
    let title = title_of(alloc, text, warning)?;
    let help = help_of(alloc, text, warning)?;
    let note = note_of(alloc, text, warning)?;
    let related = related_of(alloc, text, warning)?;
    let circle = Items::from_slice(alloc, circle_of(warning))?;
    let reason = reason_for(alloc, text, comments, warning)?;
    Ok(WarningDetail {
        kind: warning.kind(),
        site: warning.site(),
        marks,
        head,
        title,
        help,
        note,
        related,
        circle,
        reason,
    })
}

/// Adds the details of a warning, unless its kind is left out.
fn add_detail(
    alloc: Global,
    all: &mut Items<WarningDetail>,
    text: &ParsedText<'_>,
    allowed: AllowedKinds,
    comments: &IndexedComments<'_>,
    warning: &Warning,
) -> Result<(), AllocError>
    requires { IsIndexed comments.now }
    ensures { OnOk result (all.new ≡ all.old ++ spec.detail_by (of_parsed text.now) allowed comments.now.all.now warning.now) }
{
    if !allowed.allows(warning.kind()) {
        all.push(detail_of(alloc, text, comments, warning)?)?;
    }
    Ok(())
}

/// The details of some warnings.
fn warned(
    alloc: Global,
    text: &ParsedText<'_>,
    allowed: AllowedKinds,
    comments: &IndexedComments<'_>,
    warnings: &[Warning],
) -> Result<Items<WarningDetail>, AllocError>
    requires { IsIndexed comments.now }
    ensures { IfOk result (λ all. all ≡ flat_map (spec.detail_by (of_parsed text.now) allowed comments.now.all.now) warnings.now) }
{
    let mut all = Items::new(alloc);
    for warning in warnings {
        add_detail(alloc, &mut all, text, allowed, comments, warning)?;
    }
    Ok(all)
}

/// The comment of a number, from 0.
fn comment_at(comments: &[Allowance], number: usize) -> &Allowance
    requires within { number < length comments.now }
    ensures { slice_get comments.now number ≡ Some result.now }
{
    &comments[number]
}

/// Adds the details of a comment, unless it is needed.
fn add_unneeded(
    alloc: Global,
    all: &mut Items<WarningDetail>,
    files: Files<'_>,
    is_needed: bool,
    comment: &Allowance,
) -> Result<(), AllocError>
    ensures { OnOk result (all.new ≡ all.old ++ idle_unless_needed files.entry is_needed (Some comment.now)) }
{
    if !is_needed {
        all.push(idle_detail(alloc, files, comment)?)?;
    }
    Ok(())
}

/// Adds the details of the comment of a number, unless its place is one of those that are needed.
fn add_idle(
    alloc: Global,
    all: &mut Items<WarningDetail>,
    files: Files<'_>,
    comments: &[Allowance],
    needed: &BTreeSet<usize>,
    number: usize,
) -> Result<(), AllocError>
    requires within { number < length comments.now }
    ensures { OnOk result (all.new ≡ all.old ++ idle_unless_needed files.entry (contains nat_cmp needed.now number) (slice_get comments.now number)) }
{
    let comment = comment_at(comments, number);
    add_unneeded(alloc, all, files, needed.contains(&number), comment)
}

/// The details of the comments that allow nothing.
#[tactic(auto, using(crate::proofs::IdleComments::no_comment))]
fn idle(
    alloc: Global,
    text: &ParsedText<'_>,
    comments: &IndexedComments<'_>,
    warnings: &[Warning],
) -> Result<Items<WarningDetail>, AllocError>
    requires { IsIndexed comments.now }
    ensures { IfOk result (λ all. all ≡ spec.idle (of_parsed text.now) comments.now.all.now warnings.now) }
{
    let needed = needed_places(alloc, text, comments, warnings)?;
    let mut all = Items::new(alloc);
    for number in 0..comments.all.len() {
        add_idle(
            alloc,
            &mut all,
            text.scene.files,
            comments.all,
            &needed,
            number,
        )?;
    }
    Ok(all)
}

/// The same, unless W00 is left out.
fn idle_unless(
    alloc: Global,
    text: &ParsedText<'_>,
    allowed: AllowedKinds,
    comments: &IndexedComments<'_>,
    warnings: &[Warning],
) -> Result<Items<WarningDetail>, AllocError>
    requires { IsIndexed comments.now }
    ensures { IfOk result (λ all. all ≡ spec.idle_unless (of_parsed text.now) allowed comments.now.all.now warnings.now) }
{
    if allowed.allows(Kind::W00) {
        Ok(Items::new(alloc))
    } else {
        idle(alloc, text, comments, warnings)
    }
}

/// The details of the warnings of a text and of its comments that allow nothing.
#[tactic(auto, unfolding(crate::specs::Details::details))]
fn details(
    alloc: Global,
    text: &ParsedText<'_>,
    allowed: AllowedKinds,
    comments: &[Allowance],
    warnings: &[Warning],
) -> Result<Items<WarningDetail>, AllocError>
    ensures { IfOk result (λ all. all ≡ spec.details (of_parsed text.now) allowed comments.now warnings.now) }
{
    let comments = IndexedComments::new(alloc, comments)?;
    let mut all = warned(alloc, text, allowed, &comments, warnings)?;
    let others = idle_unless(alloc, text, allowed, &comments, warnings)?;
    all.append(others)?;
    Ok(all)
}

/// The details of the warnings of a text that a certificate covers.
fn certified(
    alloc: Global,
    source: Source<'_>,
    tree: &Tree,
    graph: &Graph,
    cert: &FullCert,
    allowed: AllowedKinds,
) -> Result<Items<WarningDetail>, AllocError>
    ensures { IfOk result (spec.AreDetailsBy source.entry.files source.entry.text.now tree.now.filter graph.now cert.now allowed) }
{
    let lines = Lines::of(alloc, source.text)?;
    let tokens = tokens_of(alloc, source.text)?;
    let parsed = ParsedText {
        scene: Scene {
            lines: &lines,
            files: source.files,
            tree,
            graph,
        },
        tokens: tokens.as_slice(),
    };
    let comments = allowances(alloc, source.text)?;
    let found = warnings(alloc, graph, cert)?;
    details(
        alloc,
        &parsed,
        allowed,
        comments.as_slice(),
        found.as_slice(),
    )
}

/// The details of the warnings of a text without findings, by its least certificate: in the order of `flt_explain_warnings::warnings`, and
/// after them those of each comment that allows nothing, in the order of the text. Kinds that are `allowed` are left out. A text with
/// findings has none.
///
/// # Errors
///
/// `AllocError` if a growth is refused.
pub fn warning_details(
    alloc: Global,
    source: Source<'_>,
    tree: &Tree,
    graph: &Graph,
    found: &[Finding],
    allowed: AllowedKinds,
) -> Result<Items<WarningDetail>, AllocError>
    ensures { IfOk result (spec.AreWarningDetails source.entry.files source.entry.text.now tree.now.filter graph.now found.now allowed) }
{
    if let [_, ..] = found {
        return Ok(Items::new(alloc));
    }
    match certificate(alloc, graph)? {
        Some(cert) => certified(alloc, source, tree, graph, &cert, allowed),
        None => Ok(Items::new(alloc)),
    }
}
