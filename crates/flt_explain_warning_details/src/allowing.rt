//! The comments that allow a warning, and those that allow none.

ghost use Rattle.std.specs.Prelude.{◌≡◌, ◌||◌, ℕ, option_copied, IfOk, OnOk};
ghost use Rattle.std.specs.BTreeSet.{contains};
ghost use Rattle.std.specs.List.{find};
ghost use Rattle.std.specs.Ordering.{nat_cmp};
ghost use Rattle.flt_explain_warning_details.specs.Allowing as spec;
ghost use Rattle.flt_explain_warning_details.specs.Indexed.{is_place, place_of, IsIndexed, AreNeeded};
ghost use Rattle.flt_explain_warning_details.specs.Parsed.{of_parsed};

use crate::indexed::IndexedComments;
use crate::parsed::ParsedText;
use crate::saying::line_of;
use flt_explain_warnings::{Allowance, Warning};
use sqlite_items::Items;
use std::alloc::{AllocError, Global};
use std::collections::BTreeSet;

pub(crate) fn is_reason(reason: &[u8]) -> bool
    ensures { result ≡ spec.is_reason reason.now }
{
    match reason {
        [] => false,
        [_, ..] => true,
    }
}

/// The place, from 0, of the first comment that allows a warning.
fn place_for(
    text: &ParsedText<'_>,
    comments: &IndexedComments<'_>,
    warning: &Warning,
) -> Option<usize>
    requires { IsIndexed comments.now }
    ensures { result ≡ place_of (spec.serves (of_parsed text.now) warning.now) comments.now.all.now }
{
    comments.place(line_of(text, warning), warning.kind())
}

/// The first comment that allows a warning.
fn first_for<'a>(
    text: &ParsedText<'_>,
    comments: &IndexedComments<'a>,
    warning: &Warning,
) -> Option<&'a Allowance>
    requires { IsIndexed comments.now }
    ensures { option_copied result ≡ find (spec.serves (of_parsed text.now) warning.now) comments.now.all.now }
{
    match place_for(text, comments, warning) {
        Some(place) => comments.comment(place),
        None => None,
    }
}

/// The reason of the first comment that allows a warning.
pub(crate) fn reason_for(
    alloc: Global,
    text: &ParsedText<'_>,
    comments: &IndexedComments<'_>,
    warning: &Warning,
) -> Result<Option<Items<u8>>, AllocError>
    requires { IsIndexed comments.now }
    ensures { IfOk result (λ reason. reason ≡ spec.reason_for (of_parsed text.now) comments.now.all.now warning.now) }
{
    match first_for(text, comments, warning) {
        Some(allowance) => {
            let reason = Items::from_slice(alloc, allowance.reason.as_slice())?;
            Ok(Some(reason))
        }
        None => Ok(None),
    }
}

/// Adds a place, if there is one.
fn add_place(places: &mut BTreeSet<usize>, place: Option<usize>) -> Result<(), AllocError>
    ensures { OnOk result ((n : ℕ) → contains nat_cmp places.new n ≡ (contains nat_cmp places.old n || is_place n place)) }
{
    match place {
        Some(place) => {
            let _ = places.insert(place)?;
            Ok(())
        }
        None => Ok(()),
    }
}

/// The places, from 0, of the comments that allow one of some warnings that none of those before them allows.
pub(crate) fn needed_places(
    alloc: Global,
    text: &ParsedText<'_>,
    comments: &IndexedComments<'_>,
    warnings: &[Warning],
) -> Result<BTreeSet<usize>, AllocError>
    requires { IsIndexed comments.now }
    ensures { IfOk result (λ places. AreNeeded (of_parsed text.now) comments.now.all.now warnings.now places) }
{
    let mut places = BTreeSet::new(alloc);
    for warning in warnings {
        add_place(&mut places, place_for(text, comments, warning))?;
    }
    Ok(places)
}
