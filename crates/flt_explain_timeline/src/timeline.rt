//! The timeline of a journal.

ghost use Rattle.std.specs.Prelude.{◌≡◌, length, IfOk};
ghost use Rattle.flt_model.specs.Program.{filters_of};
ghost use Rattle.flt_replay_world.specs.Filters.{filters_behind};
ghost use Rattle.flt_explain_timeline.specs.Course as courses;
ghost use Rattle.flt_explain_timeline.specs.Tellings.{AreToldBy};
ghost use Rattle.flt_explain_timeline.specs.Timelines as spec;

use crate::course::{Course, course_of};
use crate::filters::tree_at;
use crate::folds::{Fold, folds_of};
use crate::going::Stage;
use crate::refusal::Refusal;
use crate::rows::{Row, rows_of};
use crate::running::Scene;
use crate::telling::Who;
use crate::tellings::Tellings;
use flt_model::{Journal, Verdict};
use flt_places::Files;
use flt_replay_world::{Stack, filters_of};
use flt_tree::{Filter, Tree};
use sqlite_items::Items;
use std::alloc::{AllocError, Global};

/// The course of a journal on a stack, for people to read.
#[derive(Drop)]
pub struct Timeline<'a> {
    /// From the highest altitude to the lowest.
    pub(crate) filters: Vec<&'a Filter>,
    /// The files of each filter's text, if they are known.
    pub(crate) files: Items<Option<Files<'a>>>,
    pub(crate) verdict: Verdict,
    /// Why the entry that ends the run isn't enabled, if it isn't.
    pub(crate) refusal: Option<Refusal>,
    /// The descriptions of entries, each once.
    pub(crate) tellings: Tellings,
    /// The description of each entry, by its number.
    pub told: Items<usize>,
    /// Who was on in each entry.
    pub(crate) whos: Items<Who>,
    pub rows: Items<Row>,
    pub folds: Items<Fold>,
}

/// Describes a journal on some filters, from the highest altitude to the lowest.
fn course_on<'a>(
    stage: &Stage<'_, 'a>,
    journal: &Journal,
    verdict: Verdict,
) -> Result<Course, AllocError>
    requires { filters_behind stage.now.filters.now ≡ stage.now.stack.now }
    ensures told { IfOk result (λ c. AreToldBy c.tellings c.told c.whos (courses.told_of stage.now.stack.now verdict journal.now)) }
    ensures refused { IfOk result (λ c. c.progress.refusal ≡ courses.refused_of stage.now.stack.now verdict journal.now) }
    ensures each { IfOk result (λ c. length c.told ≡ length journal.now) }
    ensures on { IfOk result (λ c. length c.whos ≡ length journal.now) }
{
    let mut scene = Scene::new(stage, journal)?;
    let course = course_of(stage, &mut scene, journal, verdict);
    drop(scene);
    course
}

/// The same for a stack and the filters in it.
fn course_by<'a>(
    alloc: Global,
    stack: &Stack<'a>,
    filters: &[&'a Filter],
    journal: &Journal,
    verdict: Verdict,
) -> Result<Course, AllocError>
    requires { filters_behind filters.now ≡ stack.now }
    ensures told { IfOk result (λ c. AreToldBy c.tellings c.told c.whos (courses.told_of stack.now verdict journal.now)) }
    ensures refused { IfOk result (λ c. c.progress.refusal ≡ courses.refused_of stack.now verdict journal.now) }
    ensures each { IfOk result (λ c. length c.told ≡ length journal.now) }
    ensures on { IfOk result (λ c. length c.whos ≡ length journal.now) }
{
    let stage = Stage {
        alloc,
        stack,
        filters,
    };
    course_on(&stage, journal, verdict)
}

/// The files of one of some filters, by its altitude, if they are known.
fn files_for<'a>(trees: &[Tree], files: &[Files<'a>], filter: &Filter) -> Option<Files<'a>>
    ensures { result ≡ spec.files_for (filters_of trees.now) files.now filter.now }
{
    files.get(tree_at(trees, filter.altitude)).copied()
}

/// The same for the filters in another order.
fn files_in<'a>(
    alloc: Global,
    trees: &[Tree],
    files: &[Files<'a>],
    filters: &[&Filter],
) -> Result<Items<Option<Files<'a>>>, AllocError>
    ensures { IfOk result (λ all. all ≡ spec.files_in (filters_of trees.now) files.now filters.now) }
{
    let mut all = Items::new(alloc);
    for filter in filters {
        all.push(files_for(trees, files, filter))?;
    }
    Ok(all)
}

impl<'a> Timeline<'a> {
    /// The timeline of a journal on some filters, in any order, with the monitor's verdict. Entries after the one that ends the run aren't
    /// run. The files of the filters' texts, in the order of the filters, name the lines; without them these have their numbers in the
    /// texts.
    ///
    /// # Errors
    ///
    /// If memory is refused, or a number or a count would reach 2^32.
    pub fn of(
        alloc: Global,
        trees: &'a [Tree],
        files: &[Files<'a>],
        journal: &Journal,
        verdict: Verdict,
    ) -> Result<Timeline<'a>, AllocError>
        ensures { IfOk result (spec.IsTimeline (filters_of trees.now) files.now journal.now verdict) }
    {
        let stack = Stack::of(alloc, trees)?;
        let filters = filters_of(alloc, trees)?;
        let course = course_by(alloc, &stack, filters.as_slice(), journal, verdict)?;
        let files = files_in(alloc, trees, files, filters.as_slice())?;
        let rows = rows_of(alloc, course.whos.as_slice())?;
        let folds = folds_of(alloc, course.told.as_slice(), rows.as_slice())?;
        Ok(Timeline {
            filters,
            files,
            verdict,
            refusal: course.progress.refusal,
            tellings: course.tellings,
            told: course.told,
            whos: course.whos,
            rows,
            folds,
        })
    }
}
