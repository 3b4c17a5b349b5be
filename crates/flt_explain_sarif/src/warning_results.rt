//! Results of SARIF: warnings.

ghost use Rattle.std.specs.Prelude.{◌≡◌, ◌∷◌, ◌++◌, [], IfOk, codes, flat_map};
ghost use Rattle.flt_explain_parts.specs.Members.{Added, Adds, array_member};
ghost use Rattle.flt_explain_sarif.specs.Fingerprints.{warning_key};
ghost use Rattle.flt_explain_sarif.specs.WarningResults as spec;

use crate::fingerprints as keys;
use crate::results::{
    put_fingerprints, put_marked_location, put_marked_locations, put_message, put_not_suppressed,
};
use flt_explain_parts::{
    File, ResultKind, close_array, close_object, open_array, open_object, put_filled_items,
    put_items, put_key, put_numbers, put_of_rule, put_string, put_warning_level,
};
use flt_explain_warning_details::{RelatedPlace, WarningDetail};
use flt_explain_warnings::Site;
use json::Writer;
use sqlite_items::Items;
use std::alloc::{AllocError, Global};

/// The same bytes.
fn vec_of(alloc: Global, bytes: &Items<u8>) -> Result<Vec<u8>, AllocError>
    ensures { IfOk result (λ v. v.items ≡ bytes.now) }
{
    Vec::from_slice(alloc, bytes.as_slice())
}

// ---- the other places

fn put_related_place(
    alloc: Global,
    writer: &mut Writer,
    file: &File<'_>,
    place: &RelatedPlace,
) -> Result<(), AllocError>
    ensures { Adds result writer.old writer.new (spec.related_place file.now place.now) }
{
    let words = vec_of(alloc, &place.words)?;
    put_marked_location(alloc, writer, file, place.marks, &words)
}

fn put_related_places(
    alloc: Global,
    writer: &mut Writer,
    file: &File<'_>,
    places: &Items<RelatedPlace>,
) -> Result<(), AllocError>
    ensures { Adds result writer.old writer.new (flat_map (spec.related_place file.now) places.now) }
{
    for place in places.as_slice() {
        put_related_place(alloc, writer, file, place)?;
    }
    Ok(())
}

/// Writes the other places, in order.
fn put_related(
    alloc: Global,
    writer: &mut Writer,
    file: &File<'_>,
    detail: &WarningDetail,
) -> Result<(), AllocError>
    ensures { Adds result writer.old writer.new (spec.related file.now detail.now) }
{
    put_key(writer, "relatedLocations")?;
    open_array(writer)?;
    put_related_places(alloc, writer, file, &detail.related)?;
    close_array(writer)
}

// ---- properties

/// Writes the point that a warning is about, if there is one.
fn put_site(writer: &mut Writer, site: Option<Site>) -> Result<(), AllocError>
    ensures { Adds result writer.old writer.new (spec.site_members site) }
{
    match site {
        None => Ok(()),
        Some(site) => put_numbers(writer, site),
    }
}

fn put_property_members(
    alloc: Global,
    writer: &mut Writer,
    detail: &WarningDetail,
) -> Result<(), AllocError>
    ensures { Adds result writer.old writer.new (spec.property_members detail.now) }
{
    put_site(writer, detail.site)?;
    put_items(alloc, writer, "help", &detail.help)?;
    put_filled_items(alloc, writer, "note", &detail.note)
}

fn put_properties(
    alloc: Global,
    writer: &mut Writer,
    detail: &WarningDetail,
) -> Result<(), AllocError>
    ensures { Adds result writer.old writer.new (spec.properties detail.now) }
{
    put_key(writer, "properties")?;
    open_object(writer)?;
    put_property_members(alloc, writer, detail)?;
    close_object(writer)
}

/// Writes that a comment in the text allows a warning, for this reason.
fn put_suppression(alloc: Global, writer: &mut Writer, reason: &Items<u8>) -> Result<(), AllocError>
    ensures { Adds result writer.old writer.new (spec.suppression reason.now) }
{
    open_object(writer)?;
    put_string(writer, "kind", "inSource")?;
    put_items(alloc, writer, "justification", reason)?;
    close_object(writer)
}

fn put_one_suppression(
    alloc: Global,
    writer: &mut Writer,
    reason: &Items<u8>,
) -> Result<(), AllocError>
    ensures { Adds result writer.old writer.new
        (array_member (codes "suppressions") (spec.suppression reason.now)) }
{
    put_key(writer, "suppressions")?;
    open_array(writer)?;
    put_suppression(alloc, writer, reason)?;
    close_array(writer)
}

fn put_suppressions(
    alloc: Global,
    writer: &mut Writer,
    reason: &Option<Items<u8>>,
) -> Result<(), AllocError>
    ensures { Adds result writer.old writer.new (spec.suppressions reason.now) }
{
    match reason {
        None => put_not_suppressed(writer),
        Some(reason) => put_one_suppression(alloc, writer, reason),
    }
}

// ---- results

/// Writes a warning of this fingerprint, with this title, in the callback of this head.
fn put_result_members(
    alloc: Global,
    writer: &mut Writer,
    file: &File<'_>,
    detail: &WarningDetail,
    title: &Vec<u8>,
    head: &Vec<u8>,
    print: &str,
) -> Result<(), AllocError>
    ensures { Adds result writer.old writer.new
        (spec.result_members file.now print.now detail.now title.now.items head.now.items) }
{
    put_of_rule(writer, ResultKind::Warned(detail.kind))?;
    put_warning_level(writer)?;
    put_message(alloc, writer, title)?;
    put_marked_locations(alloc, writer, file, detail.marks, title)?;
    put_related(alloc, writer, file, detail)?;
    put_fingerprints(alloc, writer, head, title, print)?;
    put_properties(alloc, writer, detail)?;
    put_suppressions(alloc, writer, &detail.reason)
}

/// Writes a warning of this fingerprint.
fn put_result(
    alloc: Global,
    writer: &mut Writer,
    file: &File<'_>,
    detail: &WarningDetail,
    print: &str,
) -> Result<(), AllocError>
    ensures { Adds result writer.old writer.new (spec.result file.now print.now detail.now) }
{
    let title = vec_of(alloc, &detail.title)?;
    let head = vec_of(alloc, &detail.head)?;
    open_object(writer)?;
    put_result_members(alloc, writer, file, detail, &title, &head, print)?;
    close_object(writer)
}

/// Writes a warning with its fingerprint, after warnings with the keys `before`, to which its key is added.
fn put_next_result(
    alloc: Global,
    writer: &mut Writer,
    file: &File<'_>,
    before: &mut Items<Items<u8>>,
    detail: &WarningDetail,
) -> Result<(), AllocError>
    ensures { IfOk result (λ _. (before.new ≡ before.old ++ warning_key file.now.lines detail.now ∷ []) × Added writer.old writer.new
        (spec.next_result file.now before.old detail.now)) }
{
    let key = keys::warning_key(alloc, &file.lines, detail)?;
    let print = keys::next_fingerprint(alloc, before, key.as_str())?;
    put_result(alloc, writer, file, detail, print.as_str())?;
    Ok(())
}

/// Writes warnings, in their order.
pub(crate) fn put_warning_results(
    alloc: Global,
    writer: &mut Writer,
    file: &File<'_>,
    warned: &[WarningDetail],
) -> Result<(), AllocError>
    ensures { Adds result writer.old writer.new (spec.results_of file.now warned.now) }
{
    let mut before = Items::new(alloc);
    for detail in warned {
        put_next_result(alloc, writer, file, &mut before, detail)?;
    }
    Ok(())
}
