//! Brackets under lines of an `#if`: each branch begins at the depth of the first one, and all that follows is at the depth of its end.

ghost use Rattle.std.specs.Prelude.{◌≡◌, IfOk, OnOk};
ghost use Rattle.flt_c_items.specs.Groups as spec;

use crate::kind::depth_after;
use flt_c_tokens::Kind;
use sqlite_items::Items;
use std::alloc::AllocError;

/// An `#if` that is open.
#[derive(Clone, Copy)]
pub(crate) struct Group {
    /// The depth of brackets before it.
    pub before: usize,
    /// The depth at the end of its first branch, if another one has begun.
    pub first: Option<usize>,
}

/// The innermost group of those that are open, which is open no more.
fn taken(groups: &mut Items<Group>) -> Option<Group>
    ensures group { result ≡ spec.innermost groups.old }
    ensures rest { groups.new ≡ spec.others groups.old }
{
    groups.pop()
}

/// Begins another branch, and answers the depth there.
fn branch(groups: &mut Items<Group>, depth: usize) -> Result<usize, AllocError>
    ensures { IfOk result (λ d. (d, groups.new) ≡ spec.branch_by (spec.innermost groups.old) depth (spec.others groups.old)) }
{
    match taken(groups) {
        None => Ok(depth),
        Some(group) => {
            groups.push(Group {
                before: group.before,
                first: Some(group.first.unwrap_or(depth)),
            })?;
            Ok(group.before)
        }
    }
}

/// Ends a group, and answers the depth after it.
fn end(groups: &mut Items<Group>, depth: usize) -> usize
    ensures { (result, groups.new) ≡ spec.end_by (spec.innermost groups.old) depth (spec.others groups.old) }
{
    match taken(groups) {
        None => depth,
        Some(group) => group.first.unwrap_or(depth),
    }
}

/// Takes a token at a depth, and answers the depth after it.
pub(crate) fn turn(groups: &mut Items<Group>, kind: Kind, depth: usize) -> Result<usize, AllocError>
    ensures { IfOk result (λ d. (d, groups.new) ≡ spec.turned kind depth groups.old) }
{
    match kind {
        Kind::GroupIf => {
            groups.push(Group {
                before: depth,
                first: None,
            })?;
            Ok(depth)
        }
        Kind::GroupElse => branch(groups, depth),
        Kind::GroupEnd => Ok(end(groups, depth)),
        _ => Ok(depth_after(kind, depth)),
    }
}
