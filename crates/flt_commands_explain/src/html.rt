//! The page on reports of texts, with pictures of the runs of findings.

ghost use Rattle.std.specs.Prelude.{◌≡◌, ◌++◌, ◌∷◌, [], IfOk, List, OnOk, map};
ghost use Rattle.std.specs.Option.{option_copied};
ghost use Rattle.flt_shown.specs.Shown.{shown as shown_as};
ghost use Rattle.flt_explain_texts.specs.Reports.{texts_of};
ghost use Rattle.flt_model.specs.Program.{filters_of};
ghost use Rattle.flt_model.specs.declared.verdict.Verdict.TheVariants as verdicts;
ghost use Rattle.flt_explain_outcomes.specs.Parsed.{AreParsed};
ghost use Rattle.flt_explain_picture.specs.Pictures.{IsPicture};
ghost use Rattle.flt_explain_picture.specs.Titles.{title_of};
ghost use Rattle.flt_files.specs.Inputs.{Text};
ghost use Rattle.flt_commands_explain.specs.Html as spec;

use flt_explain_html::{ShownText, html_page};
use flt_explain_outcomes::{JointOutcome, Note, Schedule, only, own_files};
use flt_explain_picture::picture;
use flt_explain_texts::{Page, Source};
use flt_explain_timeline::Timeline;
use flt_model::Verdict;
use flt_places::{Files, SourceFile, lines_of};
use flt_search::BreakingJournal;
use flt_syntax::{ParseError, Tree, parse};
use sqlite_items::Items;
use std::alloc::{AllocError, Global};

// ---- texts

/// Bytes of a text as reports show them.
fn shown(alloc: Global, bytes: &[u8]) -> Result<Items<u8>, AllocError>
    ensures { IfOk result (λ all. all ≡ shown_as bytes.now) }
{
    let mut page = Page::new(alloc);
    page.words(&[bytes])?;
    Ok(Items::from_vec(page.out))
}

/// Lines as reports show them.
fn shown_lines(alloc: Global, lines: &[&[u8]]) -> Result<Items<Items<u8>>, AllocError>
    ensures { IfOk result (λ all. all ≡ map shown_as (map (λ line. line.now) lines.now)) }
{
    let mut all = Items::new(alloc);
    for line in lines {
        let line = shown(alloc, line)?;
        all.push(line)?;
    }
    Ok(all)
}

/// A file in which a text is, as reports show it.
fn shown_file(alloc: Global, file: &SourceFile<'_>) -> Result<ShownText, AllocError>
    ensures { IfOk result (λ text. text ≡ spec.shown_file file.now) }
{
    let lines = lines_of(alloc, file.lines.text())?;
    let name = shown(alloc, file.name.as_bytes())?;
    let lines = shown_lines(alloc, lines.as_slice())?;
    Ok(ShownText { name, lines })
}

/// Adds files, as reports show them.
fn add_files(
    alloc: Global,
    all: &mut Items<ShownText>,
    files: &[SourceFile<'_>],
) -> Result<(), AllocError>
    ensures { OnOk result (all.new ≡ all.old ++ map spec.shown_file files.now) }
{
    for file in files {
        let text = shown_file(alloc, file)?;
        all.push(text)?;
    }
    Ok(())
}

/// The files in which texts are, as reports show them.
fn shown_texts(alloc: Global, sources: &[Source<'_>]) -> Result<Items<ShownText>, AllocError>
    ensures { IfOk result (λ all. all ≡ spec.shown_files sources.now) }
{
    let mut all = Items::new(alloc);
    for source in sources {
        add_files(alloc, &mut all, source.files.all)?;
    }
    Ok(all)
}

// ---- pictures

/// The texts that parse, and their trees.
#[derive(Drop)]
struct ParsedTexts<'a> {
    texts: Vec<Vec<u8>>,
    /// The files of each.
    files: Vec<Files<'a>>,
    trees: Items<Tree>,
}

impl<'a> ParsedTexts<'a> {
    /// Those of some texts that parse.
    fn of(alloc: Global, sources: &[Source<'a>]) -> Result<ParsedTexts<'a>, AllocError>
        ensures { IfOk result (λ parsed. AreParsed (texts_of sources.now) (filters_of parsed.trees)) }
    {
        let mut parsed = ParsedTexts {
            texts: Vec::new(alloc),
            files: Vec::new(alloc),
            trees: Items::new(alloc),
        };
        for source in sources {
            parsed.add(alloc, *source)?;
        }
        Ok(parsed)
    }

    /// Adds a text if it parses.
    #[tactic(auto, using(crate::proofs::MoreParsed::tree_parsed, crate::proofs::MoreParsed::one_failed))]
    fn add(&mut self, alloc: Global, source: Source<'a>) -> Result<(), AllocError>
        ensures { OnOk result ((texts : List Text) → AreParsed texts (filters_of self.old.trees) →
            AreParsed (texts ++ source.entry.text.now ∷ []) (filters_of self.new.trees)) }
    {
        match parse(alloc, source.text) {
            Ok(tree) => {
                let mut text = Vec::new(alloc);
                text.extend_from_slice(source.text)?;
                self.texts.push(text)?;
                self.files.push(source.files)?;
                self.trees.push(tree)
            }
            Err(ParseError::Syntax(_)) => Ok(()),
            Err(ParseError::OutOfMemory) => Err(AllocError),
        }
    }
}

/// The text of a number alone; none if there is no such text.
fn only_text(texts: &[Vec<u8>], number: usize) -> &[Vec<u8>] {
    if number < texts.len() {
        &texts[number..number + 1]
    } else {
        &[]
    }
}

/// The run that breaks something, if there is one.
fn run_in(schedule: &Schedule) -> Option<&BreakingJournal>
    ensures { option_copied result ≡ spec.run_in schedule.now }
{
    match schedule {
        Schedule::Breaks(run) => Some(run),
        Schedule::NotWithin
        | Schedule::Cut
        | Schedule::NeverHanded
        | Schedule::NeverStarted
        | Schedule::NeverGot(_) => None,
    }
}

/// The run of a finding, if it has one.
fn run_of(noted: &Note) -> Option<&BreakingJournal>
    ensures { option_copied result ≡ spec.run_of noted.now }
{
    match &noted.scheduled {
        JointOutcome::Together(schedule) | JointOutcome::Alone(schedule) => run_in(schedule),
    }
}

/// The picture of a run of some filters.
fn drawn(
    alloc: Global,
    trees: &[Tree],
    texts: &[Vec<u8>],
    files: &[Files<'_>],
    run: &BreakingJournal,
) -> Result<Items<u8>, AllocError>
    ensures { IfOk result (IsPicture (title_of (filters_of trees.now) (verdicts.Breaks run.now.violation run.now.entry))) }
{
    let verdict = Verdict::Breaks(run.violation, run.entry);
    let timeline = Timeline::of(alloc, trees, files, &run.journal, verdict)?;
    let drawn = picture(alloc, trees, texts, &run.journal, verdict, &timeline)?;
    Ok(Items::from_vec(drawn.into_bytes()))
}

/// The picture of the run of a finding.
fn picture_of(
    alloc: Global,
    parsed: &ParsedTexts<'_>,
    noted: &Note,
    run: &BreakingJournal,
) -> Result<Items<u8>, AllocError>
    ensures { IfOk result (spec.IsDrawn parsed.now.trees noted.now run.now) }
{
    let trees = parsed.trees.as_slice();
    let texts = parsed.texts.as_slice();
    let files = own_files(parsed.files.as_slice(), noted.filter, &noted.scheduled);
    match noted.scheduled {
        JointOutcome::Together(_) => drawn(alloc, trees, texts, files, run),
        JointOutcome::Alone(_) => {
            let own = only(trees, noted.filter);
            drawn(alloc, own, only_text(texts, noted.filter), files, run)
        }
    }
}

/// Adds the picture of the run of a finding, if it has one.
fn add_picture(
    alloc: Global,
    parsed: &ParsedTexts<'_>,
    noted: &Note,
    pictures: &mut Items<Items<u8>>,
) -> Result<(), AllocError>
    ensures { OnOk result ((notes : List Note) → spec.AreDrawn parsed.now.trees notes pictures.old →
        spec.AreDrawn parsed.now.trees (notes ++ noted.now ∷ []) pictures.new) }
{
    match run_of(noted) {
        Some(run) => {
            let picture = picture_of(alloc, parsed, noted, run)?;
            pictures.push(picture)
        }
        None => Ok(()),
    }
}

/// The pictures of the runs of findings of texts, in the order of the findings.
fn pictures_of(
    alloc: Global,
    sources: &[Source<'_>],
    noted: &[Note],
) -> Result<Items<Items<u8>>, AllocError>
    ensures { IfOk result (spec.HasPictures sources.now noted.now) }
{
    let parsed = ParsedTexts::of(alloc, sources)?;
    let mut pictures = Items::new(alloc);
    for one in noted {
        add_picture(alloc, &parsed, one, &mut pictures)?;
    }
    Ok(pictures)
}

// ---- the page

/// The page on texts and on the print about them, with the pictures of the runs of their findings.
pub(crate) fn page_on(
    alloc: Global,
    sources: &[Source<'_>],
    printed: &[u8],
    noted: &[Note],
) -> Result<Vec<u8>, AllocError>
    ensures { IfOk result (λ page. spec.HasPage sources.now noted.now printed.now page.items) }
{
    let texts = shown_texts(alloc, sources)?;
    let pictures = pictures_of(alloc, sources, noted)?;
    html_page(alloc, texts.as_slice(), printed, pictures.as_slice())
}
