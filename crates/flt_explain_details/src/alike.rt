//! Findings that one path serves.

ghost use Rattle.std.specs.Prelude.{◌≡◌, IfSome};
ghost use Rattle.flt_explain_details.specs.Alike as spec;

use flt_explain::{Finding, Subject};
use flt_explain_origins::Group;
use flt_rules::number;
use std::alloc::{AllocError, Global};

/// Whether two subjects are the same.
fn is_same_subject(one: Subject, other: Subject) -> bool
    ensures { result ≡ spec.same_subject one other }
{
    match (one, other) {
        (Subject::Context(one), Subject::Context(other)) => one.place() == other.place(),
        (Subject::Operation(one), Subject::Operation(other)) => one.place() == other.place(),
        (Subject::Lock(one), Subject::Lock(other)) => one.place() == other.place(),
        (Subject::Mode, Subject::Mode)
        | (Subject::Draining, Subject::Draining)
        | (Subject::Call, Subject::Call)
        | (Subject::Status, Subject::Status) => true,
        _ => false,
    }
}

/// Whether two findings have the same callback, rule and subject.
fn is_alike(one: &Finding, other: &Finding) -> bool
    ensures { result ≡ spec.is_alike one.now other.now }
{
    one.callback == other.callback
        && number(one.rule) == number(other.rule)
        && is_same_subject(one.subject, other.subject)
}

/// For each of `count` findings, the first one of its group, unless it is the first itself.
///
/// # Errors
///
/// `AllocError` if a growth is refused.
pub(crate) fn firsts_of(
    alloc: Global,
    groups: &[Group],
    count: usize,
) -> Result<Vec<Option<usize>>, AllocError> {
    let mut firsts = Vec::with_capacity(alloc, count)?;
    for _ in 0..count {
        firsts.push(None)?;
    }
    for group in groups {
        for other in group.others.as_slice() {
            if let Some(first) = firsts.get_mut(other.number) {
                *first = Some(group.first.number);
            }
        }
    }
    Ok(firsts)
}

/// An earlier finding whose path serves this one too, if there is one.
pub(crate) fn like(found: &[Finding], firsts: &[Option<usize>], own: usize) -> Option<usize>
    ensures { IfSome result (spec.IsLike found.now own) }
{
    let first = match firsts.get(own) {
        Some(first) => (*first)?,
        None => return None,
    };
    match (found.get(first), found.get(own)) {
        (Some(one), Some(other)) if first < own && is_alike(one, other) => Some(first),
        _ => None,
    }
}
