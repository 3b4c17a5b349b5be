//! The runs that break something because of findings, for the forms that have them.

ghost use Rattle.std.specs.Prelude.{◌≡◌, IfOk, get_or};
ghost use Rattle.flt_commands_explain.specs.FindingRuns as spec;

use flt_explain_flows::{FindingRun, Flow};
use flt_explain_outcomes::{JointOutcome, Note, Schedule, own_files, own_trees, schedule_of};
use flt_explain_texts::Source;
use flt_places::Files;
use flt_search::BreakingJournal;
use flt_syntax::{ParseError, parse};
use flt_tree::Tree;
use sqlite_items::Items;
use std::alloc::{AllocError, Global};

/// The trees of texts that parse, their files, and the numbers of these texts among all, from 0.
#[derive(Drop)]
struct ParsedTexts<'a> {
    trees: Vec<Tree>,
    files: Vec<Files<'a>>,
    numbers: Items<usize>,
}

/// Adds the tree of a text, if it parses, with its files and the text's number.
fn add_parsed<'a>(
    alloc: Global,
    parsed: &mut ParsedTexts<'a>,
    number: usize,
    source: Source<'a>,
) -> Result<(), AllocError>
    ensures { IfOk result (λ _. spec.IsOneMore number source.entry parsed.old.trees.items parsed.old.files.items parsed.old.numbers
        parsed.new.trees.items parsed.new.files.items parsed.new.numbers) }
{
    match parse(alloc, source.text) {
        Ok(tree) => {
            parsed.files.push(source.files)?;
            parsed.numbers.push(number)?;
            parsed.trees.push(tree)?;
            Ok(())
        }
        Err(ParseError::Syntax(_)) => Ok(()),
        Err(ParseError::OutOfMemory) => Err(AllocError),
    }
}

/// The trees of some texts.
fn parsed_of<'a>(alloc: Global, sources: &[Source<'a>]) -> Result<ParsedTexts<'a>, AllocError>
    ensures { IfOk result (λ p. spec.AreTrees sources.now p.trees.items p.files.items p.numbers) }
{
    let mut parsed = ParsedTexts {
        trees: Vec::new(alloc),
        files: Vec::new(alloc),
        numbers: Items::new(alloc),
    };
    for (number, source) in sources.iter().enumerate() {
        add_parsed(alloc, &mut parsed, number, *source)?;
    }
    Ok(parsed)
}

/// The number of the text of a tree; 0 if there is no such tree.
fn number_of(numbers: &[usize], tree: usize) -> usize
    ensures { result ≡ get_or numbers.now tree 0 }
{
    match numbers.get(tree) {
        Some(number) => *number,
        None => 0,
    }
}

/// The numbers of the texts of the filters in whose runs a finding has its outcome.
fn own_numbers(alloc: Global, numbers: &[usize], noted: &Note) -> Result<Items<usize>, AllocError>
    ensures { IfOk result (λ own. own ≡ spec.own_numbers numbers.now noted.now.filter noted.now.scheduled) }
{
    match &noted.scheduled {
        JointOutcome::Together(_) => Items::from_slice(alloc, numbers),
        JointOutcome::Alone(_) => Items::from_slice(alloc, &[number_of(numbers, noted.filter)]),
    }
}

/// The run of a finding that has this outcome.
fn run_by(
    alloc: Global,
    parsed: &ParsedTexts<'_>,
    noted: &Note,
    broken: &BreakingJournal,
    flow: Flow,
) -> Result<FindingRun, AllocError>
    ensures { IfOk result (λ run. run ≡ spec.run_by parsed.now.numbers noted.now broken.now flow) }
{
    Ok(FindingRun {
        source: number_of(parsed.numbers.as_slice(), noted.filter),
        finding: noted.finding,
        sources: own_numbers(alloc, parsed.numbers.as_slice(), noted)?,
        violation: broken.violation,
        entry: broken.entry,
        flow,
    })
}

/// Adds the run of a finding with its outcome, if it has one.
fn add_broken(
    alloc: Global,
    runs: &mut Vec<FindingRun>,
    parsed: &ParsedTexts<'_>,
    noted: &Note,
    broken: &BreakingJournal,
) -> Result<(), AllocError>
    ensures { IfOk result (λ _. spec.IsAdded parsed.now.trees.items parsed.now.files.items parsed.now.numbers noted.now broken.now
        runs.old.items runs.new.items) }
{
    let own = own_trees(parsed.trees.as_slice(), noted.filter, &noted.scheduled);
    let files = own_files(parsed.files.as_slice(), noted.filter, &noted.scheduled);
    let found = Flow::of(alloc, own, files, &broken.journal)?;
    match found {
        Some(flow) => {
            let run = run_by(alloc, parsed, noted, broken, flow)?;
            runs.push(run)?;
            Ok(())
        }
        None => Ok(()),
    }
}

/// Adds the run of a finding, if it has one.
fn add_run(
    alloc: Global,
    runs: &mut Vec<FindingRun>,
    parsed: &ParsedTexts<'_>,
    noted: &Note,
) -> Result<(), AllocError>
    ensures { IfOk result (λ _. spec.IsNext parsed.now.trees.items parsed.now.files.items parsed.now.numbers noted.now runs.old.items
        runs.new.items) }
{
    match schedule_of(&noted.scheduled) {
        Schedule::Breaks(broken) => add_broken(alloc, runs, parsed, noted, broken),
        Schedule::NotWithin
        | Schedule::Cut
        | Schedule::NeverHanded
        | Schedule::NeverStarted
        | Schedule::NeverGot(_) => Ok(()),
    }
}

/// The runs of the findings in some texts, by the notes on these.
pub(crate) fn runs_of(
    alloc: Global,
    sources: &[Source<'_>],
    noted: &[Note],
) -> Result<Vec<FindingRun>, AllocError>
    ensures { IfOk result (λ runs. spec.AreRuns sources.now noted.now runs.items) }
{
    let parsed = parsed_of(alloc, sources)?;
    let mut runs = Vec::new(alloc);
    for one in noted {
        add_run(alloc, &mut runs, &parsed, one)?;
    }
    Ok(runs)
}
