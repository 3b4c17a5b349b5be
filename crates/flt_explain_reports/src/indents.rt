//! Lines of which the first comes after a word, and the others are indented as far.

ghost use Rattle.flt_explain_texts.specs.Page.{Writes};
ghost use Rattle.flt_explain_reports.specs.Indents as spec;

use flt_explain_texts::Page;
use std::alloc::AllocError;

/// Writes the start of a line: a word, or as many blanks if another line is above.
#[tactic(auto, unfolding(crate::specs::Indents::before))]
pub(crate) fn begin(page: &mut Page, word: &str, is_below: bool) -> Result<(), AllocError>
    ensures { Writes result page.old page.new (spec.before is_below word.now) }
{
    if is_below {
        page.run(b' ', word.len(), "")
    } else {
        page.texts(&[word])
    }
}
