//! The notes on the findings of texts: each finding that is reported by itself has one. No report is drawn for them.

ghost use Rattle.std.specs.Prelude.{◌≡◌, ◌≢◌, ◌<◌, ◌++◌, ◌∷◌, [], All, IfOk, IfSome, None};
ghost use Rattle.std.specs.Prelude.{Some, length, map, reverse, slice_get};
ghost use Rattle.std.specs.List.{AllZip};
ghost use Rattle.flt_syntax.specs.Spelling.{Spells};
ghost use Rattle.flt_explain_texts.specs.Reports.{texts_of};
ghost use Rattle.flt_explain_outcomes.specs.Again.{IsSetting};
ghost use Rattle.flt_explain_outcomes.specs.Noted.{AreNotes, AreNotesIn, AreNotesOf, IsAlso, reported_in};
ghost use Rattle.flt_explain_outcomes.specs.Noting as spec;
ghost use Rattle.flt_explain_outcomes.specs.Readings.{AreStudied, IsStudied, IsTreeOf, known_in, texts_read};

use crate::again::Setting;
use crate::also::also_broken;
use crate::noted::{Note, SetterOutcome, schedule_of};
use crate::outlook::Outlook;
use crate::readings::{Reading, StudiedText, read_all};
use crate::schedules::{
    JointOutcome, Outcome, RunSearch, Schedule, Suspect, Suspects, outcomes_among,
};
use crate::setters::Setter;
use flt_explain::{Finding, findings};
use flt_explain_texts::Source;
use flt_explain_ways::{ReportedFinding, reported_findings};
use flt_graph::{Graph, lower};
use flt_model::Violation;
use flt_search::SearchWatch;
use flt_tree::Tree;
use sqlite_items::Items;
use std::alloc::{AllocError, Global};

/// The trees, and how runs are looked for, which all notes share.
#[derive(Clone, Copy)]
pub struct Stage<'a> {
    pub alloc: Global,
    /// The trees of the texts that parse.
    pub trees: &'a [Tree],
    pub search: RunSearch,
}

/// A text that parses: the number of its tree, its tree, its points and its findings.
#[derive(Clone, Copy)]
pub struct ParsedText<'a> {
    pub source: Source<'a>,
    pub place: usize,
    pub tree: &'a Tree,
    pub graph: &'a Graph,
    pub found: &'a [Finding],
}

/// The notes of a text, and the outcomes of its findings with one more callback, if that was looked for.
#[derive(Drop)]
pub struct TextNotes {
    pub setting: Option<Setting>,
    pub each: Items<Note>,
}

/// The finding of a number, from 0.
fn finding_at(found: &[Finding], number: usize) -> Finding
    requires within { number < length found.now }
    ensures { slice_get found.now number ≡ Some result }
{
    found[number]
}

/// The findings of a text that are reported by themselves.
fn suspects_of(
    alloc: Global,
    found: &[Finding],
    reported: &[ReportedFinding],
) -> Result<Vec<Suspect>, AllocError>
    requires within { All (λ r. r.number < length found.now) reported.now }
    ensures { IfOk result (λ all. AllZip (spec.IsSuspectOf found.now) reported.now all.items) }
{
    let mut all = Vec::new(alloc);
    for one in reported {
        let number = one.number;
        let finding = finding_at(found, number);
        all.push(Suspect { number, finding })?;
    }
    Ok(all)
}

/// The tree of a text that parses, by its number: the text must spell the tree of this number.
pub fn tree_at<'a>(trees: &'a [Tree], _text: &[u8], place: usize) -> &'a Tree
    requires tree { IsTreeOf trees.now _text.now place }
    ensures own { slice_get trees.now place ≡ Some result.now }
    ensures spelled { Spells _text.now result.now.filter }
{
    &trees[place]
}

/// The last of the outcomes of findings, which is taken away.
fn last_of(outcomes: &mut Vec<Outcome>) -> Outcome
    requires some { outcomes.old.items ≢ [] }
    ensures { outcomes.old.items ≡ outcomes.new.items ++ result ∷ [] }
{
    match outcomes.pop() {
        Some(outcome) => outcome,
        None => unreachable!(),
    }
}

impl Stage<'_> {
    /// The outcomes of the findings of a text that are reported by themselves.
    fn outcomes<W: SearchWatch>(
        &self,
        known: ParsedText<'_>,
        outlook: &Outlook<'_>,
        reported: &[ReportedFinding],
        watch: &mut W,
    ) -> Result<Vec<Outcome>, AllocError>
        requires same { outlook.now ≡ known.graph.now }
        requires within { All (λ r. r.number < length known.found.now) reported.now }
        ensures { IfOk result (λ all. AllZip (spec.IsOutcomeOf self.now.search.is_stack self.now.trees.now known.entry) reported.now
            all.items) }
    {
        let found = suspects_of(self.alloc, known.found, reported)?;
        let suspects = Suspects {
            filter: known.place,
            outlook,
            found: found.as_slice(),
        };
        let outcomes = outcomes_among(self.alloc, self.trees, &suspects, self.search, watch)?;
        Ok(outcomes)
    }

    /// The outcomes of the findings that need contexts which nothing sets, if one more callback sets them.
    fn setting<W: SearchWatch>(
        &self,
        known: ParsedText<'_>,
        outlook: &Outlook<'_>,
        outcomes: &[Outcome],
        watch: &mut W,
    ) -> Result<Option<Setting>, AllocError>
        ensures { IfOk result (λ s. IfSome s (IsSetting known.entry.source.text.now known.entry.found.now)) }
    {
        let setter = Setter::of(
            self.alloc,
            known.source.text,
            known.tree,
            known.found,
            outlook.unset(),
        )?;
        match setter {
            Some(setter) => {
                let text = known.source.text;
                let setting = Setting::of(
                    self.alloc,
                    setter,
                    text,
                    known.found,
                    outcomes,
                    self.search.states,
                    watch,
                )?;
                Ok(Some(setting))
            }
            None => Ok(None),
        }
    }

    /// The further violation of the run of a finding that was noted before, if this one has no run.
    fn also(
        &self,
        earlier: &[Note],
        known: ParsedText<'_>,
        scheduled: &JointOutcome,
        finding: &Finding,
    ) -> Result<Option<Violation>, AllocError>
        ensures { IfOk result (λ o. IfSome o (IsAlso self.now.trees.now known.entry.place known.entry.found.now earlier.now finding.now)) }
    {
        match schedule_of(scheduled) {
            Schedule::NotWithin | Schedule::Cut => also_broken(
                self.alloc,
                self.trees,
                earlier,
                known.place,
                known.found,
                finding,
            ),
            _ => Ok(None),
        }
    }

    /// The outcome of a finding if one more callback sets the contexts that nothing in its text sets.
    fn again(
        &self,
        known: ParsedText<'_>,
        setting: &Option<Setting>,
        scheduled: &JointOutcome,
        number: usize,
    ) -> Result<Option<SetterOutcome>, AllocError>
        requires setting { IfSome setting.now (IsSetting known.source.text.now known.found.now) }
        ensures again { IfOk result (λ a. IfSome a (spec.IsAgainOf known.entry number)) }
        ensures none { IfOk result (λ a. setting.now ≡ None → a ≡ None) }
    {
        match (schedule_of(scheduled), setting) {
            (Schedule::NeverGot(_), Some(setting)) => {
                setting.again(self.alloc, known.source.text, known.found, number)
            }
            _ => Ok(None),
        }
    }

    /// The note on a finding, after earlier notes.
    fn note(
        &self,
        earlier: &[Note],
        known: ParsedText<'_>,
        setting: &Option<Setting>,
        reported: ReportedFinding,
        outcome: Outcome,
    ) -> Result<Note, AllocError>
        requires outcome { spec.IsOutcomeOf self.now.search.is_stack self.now.trees.now known reported outcome }
        requires setting { IfSome setting.now (IsSetting known.source.text.now known.found.now) }
        ensures noted { IfOk result (spec.IsNotedOf self.now.search.is_stack self.now.trees.now known.entry earlier.now) }
        ensures reported { IfOk result (λ n. reported_in n ≡ reported) }
        ensures none { IfOk result (λ n. setting.now ≡ None → n.again ≡ None) }
    {
        let number = reported.number;
        let finding = finding_at(known.found, number);
        let also = self.also(earlier, known, &outcome.scheduled, &finding)?;
        let again = self.again(known, setting, &outcome.scheduled, number)?;
        Ok(Note {
            filter: known.place,
            finding: number,
            place: known.graph.place(finding.callback),
            is_behind: reported.is_behind,
            scheduled: outcome.scheduled,
            also,
            again,
        })
    }

    /// The notes on the findings of a text that are reported by themselves, given their outcomes, the last one first.
    fn each_note(
        &self,
        known: ParsedText<'_>,
        setting: &Option<Setting>,
        reported: &[ReportedFinding],
        outcomes: &mut Vec<Outcome>,
    ) -> Result<Items<Note>, AllocError>
        requires outcomes { AllZip (spec.IsOutcomeOf self.now.search.is_stack self.now.trees.now known) reported.now (reverse
            outcomes.old.items) }
        requires setting { IfSome setting.now (IsSetting known.source.text.now known.found.now) }
        ensures noted { IfOk result (λ each. spec.HasNotes self.now.search.is_stack self.now.trees.now known.entry each) }
        ensures reported { IfOk result (λ each. map reported_in each ≡ reported.now) }
        ensures none { IfOk result (λ each. setting.now ≡ None → All (λ n. n.again ≡ None) each) }
    {
        let mut each = Items::new(self.alloc);
        for next in reported {
            let outcome = last_of(outcomes);
            let note = self.note(each.as_slice(), known, setting, *next, outcome)?;
            each.push(note)?;
        }
        Ok(each)
    }

    /// The notes on the findings of a text that are reported by themselves: each must be one of the text's.
    ///
    /// # Errors
    ///
    /// If memory is refused, or a number or a count would reach 2^32.
    pub fn text_notes<W: SearchWatch>(
        &self,
        known: ParsedText<'_>,
        reported: &[ReportedFinding],
        watch: &mut W,
    ) -> Result<TextNotes, AllocError>
        requires within { All (λ r. r.number < length known.found.now) reported.now }
        ensures { IfOk result (spec.AreTextNotes self.now.search.is_stack self.now.trees.now known.entry reported.now) }
    {
        let outlook = Outlook::of(self.alloc, known.graph)?;
        let mut outcomes = self.outcomes(known, &outlook, reported, watch)?;
        let setting = self.setting(known, &outlook, outcomes.as_slice(), watch)?;
        outcomes.reverse();
        let each = self.each_note(known, &setting, reported, &mut outcomes)?;
        Ok(TextNotes { setting, each })
    }

    /// The notes of a text that parses.
    fn known_notes<W: SearchWatch>(
        &self,
        known: ParsedText<'_>,
        watch: &mut W,
    ) -> Result<Items<Note>, AllocError>
        ensures { IfOk result (spec.AreAllNotes self.now.search.is_stack self.now.trees.now known.entry) }
    {
        let [_, ..] = known.found else {
            return Ok(Items::new(self.alloc));
        };
        let reported = reported_findings(self.alloc, known.graph, known.found)?;
        let noted = self.text_notes(known, reported.each.as_slice(), watch)?;
        Ok(noted.each)
    }

    /// The notes of a text that parses. Its points and its findings are computed here.
    fn parsed_notes<W: SearchWatch>(
        &self,
        source: Source<'_>,
        place: usize,
        watch: &mut W,
    ) -> Result<Items<Note>, AllocError>
        requires tree { IsTreeOf self.now.trees.now source.text.now place }
        ensures { IfOk result (AreNotesOf self.now.search.is_stack self.now.trees.now source.entry.text.now place) }
    {
        let tree = tree_at(self.trees, source.text, place);
        let graph = lower(self.alloc, tree)?;
        let found = findings(self.alloc, &graph)?;
        let known = ParsedText {
            source,
            place,
            tree,
            graph: &graph,
            found: found.as_slice(),
        };
        self.known_notes(known, watch)
    }

    /// The notes of a text: none if it doesn't parse.
    fn notes_of<W: SearchWatch>(
        &self,
        studied: &StudiedText<'_>,
        watch: &mut W,
    ) -> Result<Items<Note>, AllocError>
        requires text { IsStudied self.now.trees.now studied.now }
        ensures { IfOk result (spec.AreNotesFor self.now.search.is_stack self.now.trees.now studied.now.source.text.now
            studied.now.reading) }
    {
        match studied.reading {
            Reading::Unread(_) | Reading::Other(_) => Ok(Items::new(self.alloc)),
            Reading::Known(place) => self.parsed_notes(studied.source, place, watch),
        }
    }

    /// The notes of some texts, one text's after the other's.
    fn notes_of_all<W: SearchWatch>(
        &self,
        each: &[StudiedText<'_>],
        watch: &mut W,
    ) -> Result<Items<Note>, AllocError>
        requires texts { AreStudied self.now.trees.now 0 each.now }
        ensures { IfOk result (AreNotesIn self.now.search.is_stack self.now.trees.now (known_in each.now) (texts_read each.now)) }
    {
        let mut all = Items::new(self.alloc);
        for studied in each {
            let own = self.notes_of(studied, watch)?;
            all.append(own)?;
        }
        Ok(all)
    }
}

/// The notes on the findings of some texts, which `explain` prints with its reports: one for each finding that is reported by itself, in
/// their order. Journals are looked for as `explain` does it, by a search that continues from at most so many states for each text. No
/// report is made.
///
/// # Errors
///
/// If memory is refused, or a number or a count would reach 2^32.
pub fn notes_on<W: SearchWatch>(
    alloc: Global,
    search: RunSearch,
    sources: &[Source<'_>],
    watch: &mut W,
) -> Result<Items<Note>, AllocError>
    ensures { IfOk result (AreNotes search.is_stack (texts_of sources.now)) }
{
    let readings = read_all(alloc, sources)?;
    let stage = Stage {
        alloc,
        trees: readings.trees.as_slice(),
        search,
    };
    stage.notes_of_all(readings.each.as_slice(), watch)
}
