//! The words about a finding: its title, its help, its note, its callback's head and its subject.

ghost use Rattle.std.specs.Prelude.{◌≡◌, option_copied, IfOk};
ghost use Rattle.flt_explain_advice.specs.Subjects as about;
ghost use Rattle.flt_explain_advice.specs.Words as words;

use crate::advice::{tell_help, tell_note, tell_title};
use crate::case::Case;
use crate::subjects::state_word;
use flt_explain::Finding;
use flt_explain_origins::{FindingTrace, Way};
use flt_explain_texts::{Page, Scene};
use std::alloc::{AllocError, Global};

/// The words about a finding.
#[derive(Drop)]
pub struct Words {
    /// The mistake.
    pub title: Vec<u8>,
    /// How to fix it; it may have several lines.
    pub help: Vec<u8>,
    /// A note that the rule is stricter there than the driver kit, or that numbers rule out the path; or empty.
    pub note: Vec<u8>,
    /// The head of its callback.
    pub head: Vec<u8>,
    /// Its subject.
    pub subject: Vec<u8>,
}

#[tactic(auto, unfolding(crate::specs::Words::title_of))]
fn title_of(alloc: Global, case: &Case<'_>) -> Result<Vec<u8>, AllocError>
    ensures { IfOk result (λ v. v.items ≡ words.title_of case.now.scene.files case.now.scene.lines.now case.now.scene.tree.now.filter
        case.now.scene.graph.now
        case.now.finding (option_copied case.now.shown)) }
{
    let mut page = Page::new(alloc);
    tell_title(&mut page, case)?;
    Ok(page.out)
}

#[tactic(auto, unfolding(crate::specs::Words::help_of))]
fn help_of(alloc: Global, case: &Case<'_>) -> Result<Vec<u8>, AllocError>
    ensures { IfOk result (λ v. v.items ≡ words.help_of case.now.scene.files case.now.scene.lines.now case.now.scene.tree.now.filter
        case.now.scene.graph.now
        case.now.finding (option_copied case.now.shown)) }
{
    let mut page = Page::new(alloc);
    tell_help(&mut page, case)?;
    Ok(page.out)
}

#[tactic(auto, unfolding(crate::specs::Words::note_of))]
fn note_of(alloc: Global, case: &Case<'_>) -> Result<Vec<u8>, AllocError>
    ensures { IfOk result (λ v. v.items ≡ words.note_of case.now.scene.files case.now.scene.lines.now case.now.scene.tree.now.filter
        case.now.scene.graph.now
        case.now.finding (option_copied case.now.shown)) }
{
    let mut page = Page::new(alloc);
    tell_note(&mut page, case)?;
    Ok(page.out)
}

fn subject_of(alloc: Global, case: &Case<'_>) -> Result<Vec<u8>, AllocError>
    ensures { IfOk result (λ v. v.items ≡ about.subject_told case.now.scene.tree.now.filter case.now.finding.subject) }
{
    let mut page = Page::new(alloc);
    let (mark, name) = case.subject();
    page.words(&[mark, name, mark])?;
    Ok(page.out)
}

/// The words of a case.
fn words_in(alloc: Global, case: &Case<'_>) -> Result<Words, AllocError>
    ensures { IfOk result (words.AreWords case.now.scene.files case.now.scene.lines.now case.now.scene.tree.now.filter
        case.now.scene.graph.now case.now.finding
        (option_copied case.now.shown)) }
{
    let title = title_of(alloc, case)?;
    let help = help_of(alloc, case)?;
    let note = note_of(alloc, case)?;
    let subject = subject_of(alloc, case)?;
    let head = Vec::from_slice(alloc, case.head())?;
    Ok(Words {
        title,
        help,
        note,
        head,
        subject,
    })
}

/// The words about a finding, by its trace.
pub fn words_of(
    alloc: Global,
    scene: &Scene<'_>,
    finding: &Finding,
    shown: Option<&FindingTrace>,
) -> Result<Words, AllocError>
    ensures { IfOk result
        (words.AreWords scene.now.files scene.now.lines.now scene.now.tree.now.filter scene.now.graph.now finding.now
        (option_copied shown.entry)) }
{
    words_in(alloc, &Case::of(scene, finding, shown))
}

/// The state of the finding's subject at the end of a path, in a word.
pub fn state_at_end(finding: &Finding, way: Option<&Way>) -> Option<&'static str>
    ensures { option_copied result ≡ about.state_at_end finding.now.subject (option_copied way.entry) }
{
    match way {
        Some(way) => state_word(way.end.situation.state(), finding.subject),
        None => None,
    }
}
