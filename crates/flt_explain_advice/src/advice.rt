//! The words for each rule: the mistake, how to fix it, and where the rule is stricter than the driver kit, with a sentence for each case.

ghost use Rattle.flt_explain_advice.specs.Advice.ByRule as spec;
ghost use Rattle.flt_explain_advice.specs.Case.{of_case};
ghost use Rattle.flt_explain_texts.specs.Page.{Writes};

mod levels;
mod locks;
mod notes;
mod places;
mod reasons;
mod sentences;
mod statuses;
mod variables;

use crate::case::Case;
use flt_explain_texts::Page;
use flt_rules::Rule;
pub(crate) use notes::tell_note;
use sentences::{around, of_callback};
use std::alloc::AllocError;

/// Writes the title of a finding, which names the mistake.
#[tactic(auto, unfolding(crate::specs::Advice::ByRule::title))]
pub(crate) fn tell_title(page: &mut Page, case: &Case<'_>) -> Result<(), AllocError>
    ensures { Writes result page.old page.new (spec.title (of_case case.now)) }
{
    match case.finding.rule {
        Rule::R01 => variables::tell_use_title(page, case),
        Rule::R02 | Rule::R05 => variables::tell_end_title(page, case),
        Rule::R03 => around(page, case, "", " might be held where it is overwritten"),
        Rule::R04 => variables::tell_operation_title(page, case),
        Rule::R06 => statuses::tell_title(page, case),
        Rule::R07 => levels::tell_title(page, case),
        Rule::R08 => places::tell_title(page, case),
        Rule::R09 => locks::tell_release_title(page, case),
        Rule::R10 => locks::tell_end_title(page, case),
        Rule::R11 => around(page, case, "", " is taken twice"),
        Rule::R12 => around(page, case, "two paths join with different locks held: ", ""),
        Rule::R13 => around(page, case, "", " might not be held where it is handed over"),
        Rule::R14 => page.texts(&["the certificate doesn't cover this point"]),
        Rule::R15 => of_callback(page, case, " ends without a status"),
    }
}

/// Writes how to fix a finding.
#[tactic(auto, unfolding(crate::specs::Advice::ByRule::help))]
pub(crate) fn tell_help(page: &mut Page, case: &Case<'_>) -> Result<(), AllocError>
    ensures { Writes result page.old page.new (spec.help (of_case case.now)) }
{
    match case.finding.rule {
        Rule::R01 => variables::tell_missing_help(page, case, variables::context_remedy(case)),
        Rule::R02 => variables::tell_release_help(page, case),
        Rule::R03 => variables::tell_overwriting_help(page, case),
        Rule::R04 => variables::tell_missing_help(page, case, variables::operation_remedy(case)),
        Rule::R05 => variables::tell_completion_help(page, case),
        Rule::R06 => statuses::tell_help(page, case),
        Rule::R07 => levels::tell_help(page, case),
        Rule::R08 => places::tell_help(page, case),
        Rule::R09 => locks::tell_release_help(page, case),
        Rule::R10 => around(page, case, "release ", " on this path"),
        Rule::R11 => locks::tell_twice_help(page, case),
        Rule::R12 => around(
            page,
            case,
            "release ",
            " on both paths before they join, or on none",
        ),
        Rule::R13 => {
            variables::tell_missing_help(page, case, ": hand it over only where it is held")
        }
        Rule::R14 => page.texts(&["let `fltstack analyse` write the certificate"]),
        Rule::R15 => {
            page.texts(&["end the callback with `return` and a status, on this path too"])
        }
    }
}
