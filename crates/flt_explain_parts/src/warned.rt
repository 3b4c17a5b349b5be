//! The warnings of a text, what each form writes of one, and the status that results.

ghost use Rattle.std.specs.Prelude.{◌≡◌, IfOk, codes, max};
ghost use Rattle.flt_explain_parts.specs.Members.{Adds, string_member};
ghost use Rattle.flt_explain_parts.specs.Warned as spec;

use crate::members::{put_number, put_string};
use flt_explain_texts::{Source, TextJudgement};
use flt_explain_warning_details::{WarningDetail, warned_status, warning_details};
use flt_explain_warnings::{AllowedKinds, Site};
use json::Writer;
use sqlite_items::Items;
use std::alloc::{AllocError, Global};

/// The warnings of a text, without some kinds; none if it doesn't parse.
///
/// # Errors
///
/// `AllocError` if a growth is refused.
pub fn warned_of(
    alloc: Global,
    allowed: AllowedKinds,
    source: Source<'_>,
    judged: &TextJudgement,
) -> Result<Items<WarningDetail>, AllocError>
    ensures { IfOk result (λ warned. spec.AreWarned source.entry allowed judged.now warned) }
{
    match judged {
        TextJudgement::Unread(_) => Ok(Items::new(alloc)),
        TextJudgement::Known(tree, graph, found) => {
            warning_details(alloc, source, tree, graph, found.as_slice(), allowed)
        }
    }
}

/// The exit status of a text with its warnings: 2 if it doesn't parse, 1 if something is found, or if warnings count and one is shown; else
/// 0.
pub fn status_of(is_strict: bool, judged: &TextJudgement, warned: &[WarningDetail]) -> u8
    ensures { result ≡ spec.status_of is_strict judged.now warned.now }
{
    match judged {
        TextJudgement::Unread(_) => 2,
        TextJudgement::Known(_, _, found) => warned_status(is_strict, found.as_slice(), warned),
    }
}

/// The greater of two statuses.
pub fn greater(a: u8, b: u8) -> u8
    ensures { result ≡ max a b }
{
    if a < b { b } else { a }
}

/// Writes the level of a warning, which breaks no rule.
pub fn put_warning_level(writer: &mut Writer) -> Result<(), AllocError>
    ensures { Adds result writer.old writer.new (string_member (codes "level") (codes "warning")) }
{
    put_string(writer, "level", "warning")
}

/// Writes the numbers of a callback and of a point, from 0.
pub fn put_numbers(writer: &mut Writer, site: Site) -> Result<(), AllocError>
    ensures { Adds result writer.old writer.new (spec.numbers site) }
{
    put_number(writer, "callback", site.callback)?;
    put_number(writer, "point", site.point)
}
