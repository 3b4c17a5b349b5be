//! Calls that need the instance where no operation keeps it (W07).

ghost use Rattle.flt_explain_texts.specs.Page.{Writes};
ghost use Rattle.flt_explain_warning_details.specs.Late as spec;
ghost use Rattle.flt_explain_warning_details.specs.Parsed.{of_parsed};

use crate::locks::called;
use crate::parsed::ParsedText;
use flt_explain_texts::{Page, Part};
use flt_explain_warnings::Site;
use std::alloc::AllocError;

/// Writes that a call is made where the callback might hold no operation any more.
#[tactic(auto, unfolding(crate::specs::Late::late_title))]
pub(crate) fn tell_late_title(
    page: &mut Page,
    text: &ParsedText<'_>,
    site: Site,
) -> Result<(), AllocError>
    ensures { Writes result page.old page.new (spec.late_title (of_parsed text.now) site) }
{
    page.say(&[
        Part::Word(called(&text.instruction(site))),
        Part::Text(" is called where the last operation might have been given away"),
    ])
}

/// Writes how to fix that.
pub(crate) fn tell_late_help(page: &mut Page) -> Result<(), AllocError>
    ensures { Writes result page.old page.new spec.late_help }
{
    page.texts(&["make this call before the operation is completed or queued"])
}

/// Writes the possible consequence.
pub(crate) fn tell_late_note(page: &mut Page) -> Result<(), AllocError>
    ensures { Writes result page.old page.new spec.late_note }
{
    page.texts(&["nothing keeps the instance here: it might be torn down before this call"])
}
