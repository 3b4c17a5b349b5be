//! The descriptions of a journal's entries, up to the one that ends the run and after it.

ghost use Rattle.std.specs.Prelude.{◌≡◌, ◌+◌, ◌++◌, ◌∷◌, [], List, IfOk, None, OnOk, false, true, length};
ghost use Rattle.flt_model.specs.declared.moves.JournalEntry.{JournalEntry as Written};
ghost use Rattle.flt_replay_world.specs.Filters.{filters_behind};
ghost use Rattle.flt_explain_timeline.specs.Course as spec;
ghost use Rattle.flt_explain_timeline.specs.Tellings.{AreToldBy};
ghost use Rattle.flt_explain_timeline.specs.declared.running.DescribedEntry.{DescribedEntry as Here};

use crate::going::Stage;
use crate::refusal::Refusal;
use crate::running::{DescribedEntry, Scene, aside};
use crate::telling::{Happening, Who};
use crate::tellings::Tellings;
use flt_model::{Journal, JournalEntry, Verdict};
use sqlite_items::Items;
use std::alloc::{AllocError, Global};

/// How far a run was described.
#[derive(Clone, Copy)]
pub(crate) struct Progress {
    /// Whether the run has ended.
    is_over: bool,
    /// The columns in which an operation isn't done, after the last entry that was made.
    alive: u32,
    /// Why the entry that ended the run isn't enabled, if it isn't.
    pub(crate) refusal: Option<Refusal>,
}

/// The descriptions of a journal's entries.
#[derive(Drop)]
pub(crate) struct Course {
    pub(crate) progress: Progress,
    pub(crate) tellings: Tellings,
    pub(crate) told: Items<usize>,
    pub(crate) whos: Items<Who>,
}

/// Whether a run ends with the entry of a number.
fn ends_at(verdict: Verdict, number: usize) -> bool
    ensures { result ≡ spec.ends_at verdict number }
{
    match verdict {
        Verdict::Legal => false,
        Verdict::NotARun(last) | Verdict::Breaks(_, last) => last == number,
    }
}

/// An entry, as the one that ends the run.
fn ending(here: DescribedEntry) -> DescribedEntry
    ensures { result ≡ spec.ending here }
{
    DescribedEntry {
        telling: here.telling,
        who: Who {
            operation: here.who.operation,
            activation: here.who.activation,
            ends: true,
        },
    }
}

fn ending_if(ends: bool, here: DescribedEntry) -> DescribedEntry
    ensures { result ≡ spec.ending_if ends here }
{
    if ends { ending(here) } else { here }
}

impl Progress {
    /// Notes that an entry was made, and whether the run ends with it.
    fn made(&mut self, ends: bool, here: DescribedEntry) -> DescribedEntry
        ensures told { result ≡ spec.ending_if ends here }
        ensures after { self.new ≡ record { is_over = ends; alive = here.telling.alive; refusal = None } }
    {
        *self = Progress {
            is_over: ends,
            alive: here.telling.alive,
            refusal: None,
        };
        ending_if(ends, here)
    }

    /// Notes that an entry isn't enabled, and that the run ends with it.
    fn stopped(&mut self, entry: JournalEntry, why: Refusal) -> DescribedEntry
        ensures told { result ≡ spec.ending (spec.aside self.old.alive (spec.not_enabled entry)) }
        ensures after { self.new ≡ record { is_over = true; alive = self.old.alive; refusal = Some why } }
    {
        let here = aside(self.alive, Happening::IsRefused(entry));
        *self = Progress {
            is_over: true,
            alive: self.alive,
            refusal: Some(why),
        };
        ending(here)
    }

    /// Makes and describes the next entry, before which there are so many.
    #[tactic(auto, using(crate::proofs::NextEntry::told_goes, crate::proofs::NextEntry::told_stops, crate::proofs::NextEntry::refused_goes, crate::proofs::NextEntry::refused_stops))]
    fn next<'a>(
        &mut self,
        stage: &Stage<'_, 'a>,
        scene: &mut Scene<'a>,
        verdict: Verdict,
        number: usize,
        entry: JournalEntry,
    ) -> Result<DescribedEntry, AllocError>
        requires { filters_behind stage.now.filters.now ≡ stage.now.stack.now }
        ensures told { IfOk result (λ here. (es : List Written) →
            here ∷ spec.next_told stage.now.stack.now verdict self.new (number + 1) scene.new es
            ≡ spec.next_told stage.now.stack.now verdict self.old number scene.old (entry ∷ es)) }
        ensures refused { OnOk result ((es : List Written) →
            spec.next_refused stage.now.stack.now verdict self.new (number + 1) scene.new es
            ≡ spec.next_refused stage.now.stack.now verdict self.old number scene.old (entry ∷ es)) }
        ensures clear { OnOk result (self.new.is_over ≡ false → self.new.refusal ≡ None) }
    {
        if self.is_over {
            return Ok(aside(self.alive, Happening::IsLeftOut));
        }
        match scene.tell(stage, entry)? {
            Ok(here) => Ok(self.made(ends_at(verdict, number), here)),
            Err(why) => Ok(self.stopped(entry, why)),
        }
    }
}

impl Course {
    fn new(alloc: Global) -> Course
        ensures told { AreToldBy result.tellings result.told result.whos [] }
        ensures starts { result.progress ≡ spec.unstarted }
        ensures empty { (result.told ≡ []) × (result.whos ≡ []) }
    {
        Course {
            progress: Progress {
                is_over: false,
                alive: 0,
                refusal: None,
            },
            tellings: Tellings::new(alloc),
            told: Items::new(alloc),
            whos: Items::new(alloc),
        }
    }

    /// Adds the description of the next entry, and who was on.

    fn add(&mut self, here: DescribedEntry) -> Result<(), AllocError>
        ensures told { OnOk result ((before : List Here) → AreToldBy self.old.tellings self.old.told self.old.whos before →
            AreToldBy self.new.tellings self.new.told self.new.whos (before ++ here ∷ [])) }
        ensures each { OnOk result (length self.new.told ≡ length self.old.told + 1) }
        ensures on { OnOk result (length self.new.whos ≡ length self.old.whos + 1) }
        ensures same { OnOk result (self.new.progress ≡ self.old.progress) }
    {
        let number = self.tellings.number(here.telling)?;
        self.told.push(number)?;
        self.whos.push(here.who)
    }
}

/// Describes a journal entry by entry.
pub(crate) fn course_of<'a>(
    stage: &Stage<'_, 'a>,
    scene: &mut Scene<'a>,
    journal: &Journal,
    verdict: Verdict,
) -> Result<Course, AllocError>
    requires { filters_behind stage.now.filters.now ≡ stage.now.stack.now }
    ensures told { IfOk result
        (λ c. AreToldBy c.tellings c.told c.whos (spec.told_from stage.now.stack.now verdict 0 0 scene.old journal.now)) }
    ensures refused { IfOk result (λ c. c.progress.refusal ≡ spec.refused_from stage.now.stack.now verdict 0 scene.old journal.now) }
    ensures each { IfOk result (λ c. length c.told ≡ length journal.now) }
    ensures on { IfOk result (λ c. length c.whos ≡ length journal.now) }
{
    let mut course = Course::new(stage.alloc);
    for entry in journal.entries() {
        let number = course.told.len();
        let here = course.progress.next(stage, scene, verdict, number, *entry)?;
        course.add(here)?;
    }
    Ok(course)
}
