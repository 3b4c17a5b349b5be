//! The forms of sentences on findings.

ghost use Rattle.flt_explain_advice.specs.Advice.Sentences as spec;
ghost use Rattle.flt_explain_advice.specs.Case.{of_case};
ghost use Rattle.flt_explain_texts.specs.Page.{Writes};

use crate::case::Case;
use flt_explain_texts::{Page, Part};
use std::alloc::AllocError;

/// Writes the finding's subject between two texts.
#[tactic(auto, unfolding(crate::specs::Advice::Sentences::around))]
pub(crate) fn around<'a>(
    page: &mut Page,
    case: &Case<'a>,
    before: &'a str,
    after: &'a str,
) -> Result<(), AllocError>
    ensures { Writes result page.old page.new (spec.around (of_case case.now) before.now after.now) }
{
    page.say(&[
        Part::Text(before),
        Part::Marked(case.subject()),
        Part::Text(after),
    ])
}

/// Writes the finding's subject, these words, and that the callback ends.
#[tactic(auto, unfolding(crate::specs::Advice::Sentences::at_end))]
pub(crate) fn at_end<'a>(page: &mut Page, case: &Case<'a>, words: &'a str) -> Result<(), AllocError>
    ensures { Writes result page.old page.new (spec.at_end (of_case case.now) words.now) }
{
    page.say(&[
        Part::Marked(case.subject()),
        Part::Text(words),
        Part::Quoted(case.head()),
        Part::Text(" ends"),
    ])
}

/// Writes what a line does with the subject.
#[tactic(auto, unfolding(crate::specs::Advice::Sentences::on_line))]
pub(crate) fn on_line<'a>(
    page: &mut Page,
    case: &Case<'a>,
    line: usize,
    verb: &'a str,
    after: &'a str,
) -> Result<(), AllocError>
    ensures { Writes result page.old page.new (spec.on_line (of_case case.now) line verb.now after.now) }
{
    page.say(&[
        Part::Text("line "),
        case.line(line),
        Part::Text(verb),
        Part::Marked(case.subject()),
        Part::Text(after),
    ])
}

/// Writes who has had the subject since a line.
#[tactic(auto, unfolding(crate::specs::Advice::Sentences::since))]
pub(crate) fn since<'a>(
    page: &mut Page,
    case: &Case<'a>,
    owns: &'a str,
    line: usize,
) -> Result<(), AllocError>
    ensures { Writes result page.old page.new (spec.since (of_case case.now) owns.now line) }
{
    page.say(&[
        Part::Text(owns),
        Part::Marked(case.subject()),
        Part::Text(" since line "),
        case.line(line),
    ])
}

/// Writes what becomes of the subject in a line.
#[tactic(auto, unfolding(crate::specs::Advice::Sentences::in_line))]
pub(crate) fn in_line<'a>(
    page: &mut Page,
    case: &Case<'a>,
    becomes: &'a str,
    line: usize,
) -> Result<(), AllocError>
    ensures { Writes result page.old page.new (spec.in_line (of_case case.now) becomes.now line) }
{
    page.say(&[
        Part::Marked(case.subject()),
        Part::Text(becomes),
        case.line(line),
    ])
}

/// Writes the head of the callback, and these words.
#[tactic(auto, unfolding(crate::specs::Advice::Sentences::of_callback))]
pub(crate) fn of_callback<'a>(
    page: &mut Page,
    case: &Case<'a>,
    words: &'a str,
) -> Result<(), AllocError>
    ensures { Writes result page.old page.new (spec.of_callback (of_case case.now) words.now) }
{
    page.say(&[Part::Quoted(case.head()), Part::Text(words)])
}
