//! The report of a text, with its notes.

ghost use Rattle.std.specs.Prelude.{◌≡◌, [], IfOk, length, option_map};
ghost use Rattle.flt_model.specs.Program.{filters_of};
ghost use Rattle.flt_explain_runs.specs.Lines as lines_of;
ghost use Rattle.flt_explain_outcomes.specs.Noted.{AreNotesOf};
ghost use Rattle.flt_explain_outcomes.specs.Noting.{AreAllNotes, IsSettingFor, IsSettingOf};
ghost use Rattle.flt_explain_outcomes.specs.Parsed.{IsOther, IsUnread};
ghost use Rattle.flt_explain_runs.specs.Parts.{body_bytes, body_notes, notes_in};
ghost use Rattle.flt_explain_runs.specs.Printing as spec;
ghost use Rattle.flt_explain_outcomes.specs.Readings.{IsStudied, IsTreeOf};
ghost use Rattle.flt_explain_runs.specs.Reported.{faults_in as faults, stack_of};
ghost use Rattle.flt_explain_runs.specs.Rows.{AreAgainRows, AreNoteRows};
ghost use Rattle.flt_explain_runs.specs.Warnings.{ArePromised};
ghost use Rattle.flt_explain_runs.specs.Whole.{AreReportsWithNotes, is_alone};

use crate::again_lines::again_lines;
use crate::lines::{note_line, note_rows};
use crate::notices::{detaches, notice_lines};
use crate::parts::{Block, Body, RunLines, TextReport};
use crate::totals::Tally;
use crate::warned::WarnedText;
use crate::warnings::promise_and_warnings;
use flt_explain::findings;
use flt_explain_origins::Group;
use flt_explain_outcomes::{
    Note, ParsedText, Reading, Setting, Stage, StudiedText, TextNotes, only, tree_at,
};
use flt_explain_reasons::{Kind, Notice, describe};
use flt_explain_reports::{report_group, report_unread};
use flt_explain_texts::{Scene, Source, fault_line, findings_line};
use flt_explain_warning_details::{
    WarningDetail, WarningOptions, texts_without_circles_are_orderly, warned_status,
    warning_details,
};
use flt_explain_ways::{Traces, reported_findings};
use flt_graph::lower;
use flt_places::{Files, Lines};
use flt_search::SearchWatch;
use flt_syntax::SyntaxFault;
use flt_tree::Tree;
use std::alloc::AllocError;

/// The settings and the files of all reports.
#[derive(Clone, Copy)]
pub(crate) struct Printer<'a> {
    pub(crate) stage: Stage<'a>,
    pub(crate) coloured: bool,
    /// The files of each of the texts that parse.
    pub(crate) files: &'a [Files<'a>],
    /// Which warnings are left out, and whether they count.
    pub(crate) options: WarningOptions,
}

impl Printer<'_> {
    // ---- a text with findings

    /// The line of a note, and its rows.
    fn note_lines(&self, note: &Note) -> Result<RunLines, AllocError>
        ensures line { IfOk result (λ lines. lines.line.items
            ≡ lines_of.note_line self.now.stage.trees.now self.now.stage.search note.now) }
        ensures rows { IfOk result (λ lines. AreNoteRows self.now.stage.trees.now self.now.files.now note.now lines.rows.items) }
    {
        let stage = &self.stage;
        let line = note_line(stage.alloc, stage.trees, stage.search, note)?;
        let rows = note_rows(stage.alloc, stage.trees, self.files, note)?;
        Ok(RunLines {
            line,
            rows: rows.into_bytes(),
        })
    }

    /// The line on the outcome of a note's finding with one more callback, and its rows; none if that wasn't looked for.
    fn again_lines(
        &self,
        scene: &Scene<'_>,
        setting: &Option<Setting>,
        note: &Note,
    ) -> Result<RunLines, AllocError>
        requires setting { IsSettingOf scene.now.lines.now setting.now note.now }
        ensures line { IfOk result (λ lines. lines.line.items ≡ lines_of.again_line note.now.again) }
        ensures rows { IfOk result (λ lines. AreAgainRows scene.now.lines.now scene.now.files note.now.again lines.rows.items) }
    {
        match setting {
            Some(setting) => match &note.again {
                Some(again) => again_lines(self.stage.alloc, &scene.files, &setting.setter, again),
                None => Ok(RunLines::none(self.stage.alloc)),
            },
            None => Ok(RunLines::none(self.stage.alloc)),
        }
    }

    /// The block of a group of findings, with the note on its first.
    fn block(
        &self,
        scene: &Scene<'_>,
        traces: &Traces,
        group: &Group,
        setting: &Option<Setting>,
        note: &Note,
    ) -> Result<Block, AllocError>
        requires setting { IsSettingOf scene.now.lines.now setting.now note.now }
        ensures { IfOk result (spec.IsBlockOf self.now scene.now traces.now group.now note.now) }
    {
        let report = report_group(self.stage.alloc, self.coloured, scene, traces, group)?;
        let own = self.note_lines(note)?;
        let again = self.again_lines(scene, setting, note)?;
        Ok(Block {
            report,
            note: own,
            again,
        })
    }

    /// The block of each group of findings, with the notes on their firsts.
    fn blocks(
        &self,
        scene: &Scene<'_>,
        traces: &Traces,
        noted: &TextNotes,
    ) -> Result<Vec<Block>, AllocError>
        requires many { length noted.now.each ≡ length traces.now.groups }
        requires setting { IsSettingFor scene.now.lines.now noted.now.setting noted.now.each }
        ensures { IfOk result (λ blocks. spec.AreBlocksOf self.now scene.now traces.now traces.now.groups noted.now.each blocks.items) }
    {
        let mut blocks = Vec::new(self.stage.alloc);
        let notes = noted.each.as_slice();
        for (place, group) in traces.groups.as_slice().iter().enumerate() {
            let note = &notes[place];
            blocks.push(self.block(scene, traces, group, &noted.setting, note)?)?;
        }
        Ok(blocks)
    }

    /// The findings of a text that has some.
    fn found_body<W: SearchWatch>(
        &self,
        known: ParsedText<'_>,
        watch: &mut W,
    ) -> Result<Body, AllocError>
        ensures print { IfOk result (λ body. AreReportsWithNotes (spec.look_of self.now) self.now.stage.trees.now self.now.files.now
            known.entry.source known.entry.tree.now known.entry.graph.now known.entry.found.now (body_notes body) (body_bytes body)) }
        ensures notes { IfOk result (λ body. AreAllNotes self.now.stage.search.is_stack self.now.stage.trees.now known.entry
            (body_notes body)) }
    {
        let reported = reported_findings(self.stage.alloc, known.graph, known.found)?;
        let noted = self
            .stage
            .text_notes(known, reported.each.as_slice(), watch)?;
        let lines = Lines::of(self.stage.alloc, known.source.text)?;
        let scene = Scene {
            lines: &lines,
            files: known.source.files,
            tree: known.tree,
            graph: known.graph,
        };
        let all = self.blocks(&scene, &reported.traces, &noted)?;
        Ok(Body::Findings(all, noted.each))
    }

    // ---- a text that parses

    /// The promise and the warnings of a text without findings.
    fn promise_and_warnings<W: SearchWatch>(
        &self,
        known: ParsedText<'_>,
        details: &[WarningDetail],
        watch: &mut W,
    ) -> Result<Vec<u8>, AllocError>
        ensures { IfOk result (λ said. ArePromised (spec.warned_in (spec.look_of self.now) self.now.stage.trees.now known.entry)
            details.now said.items) }
    {
        let lines = Lines::of(self.stage.alloc, known.source.text)?;
        let text = WarnedText {
            alloc: self.stage.alloc,
            coloured: self.coloured,
            states: self.stage.search.states,
            own: only(self.stage.trees, known.place),
            tree: known.tree,
            files: &known.source.files,
            lines: &lines,
        };
        promise_and_warnings(&text, details, watch)
    }

    /// The findings of a text, or its promise and warnings.
    fn body<W: SearchWatch>(
        &self,
        known: ParsedText<'_>,
        details: &[WarningDetail],
        watch: &mut W,
    ) -> Result<Body, AllocError>
        ensures print { IfOk result (spec.IsBodyOf self.now known.entry details.now) }
        ensures notes { IfOk result (λ body. AreAllNotes self.now.stage.search.is_stack self.now.stage.trees.now known.entry
            (body_notes body)) }
    {
        match known.found {
            [] => Ok(Body::Lines(self.promise_and_warnings(known, details, watch)?)),
            [_, ..] => self.found_body(known, watch),
        }
    }

    /// The report of a text that parses.
    fn known_report<W: SearchWatch>(
        &self,
        known: ParsedText<'_>,
        details: &[WarningDetail],
        watch: &mut W,
    ) -> Result<TextReport, AllocError>
        requires known { spec.IsKnownIn (spec.look_of self.now) self.now.stage.trees.now known details.now }
        ensures print { IfOk result (spec.IsKnownPart (spec.look_of self.now) self.now.stage.trees.now self.now.files.now
            known.entry.place known.entry.source) }
        ensures notes { IfOk result (λ report. AreAllNotes self.now.stage.search.is_stack self.now.stage.trees.now known.entry
            (notes_in report)) }
    {
        texts_without_circles_are_orderly();
        let body = self.body(known, details, watch)?;
        let closing = findings_line(self.stage.alloc, &known.source.files, known.found)?;
        let tally = Tally {
            status: warned_status(self.options.is_strict, known.found, details),
            findings: known.found.len(),
        };
        Ok(TextReport {
            body,
            closing,
            tally,
        })
    }

    /// The report of a text that parses. Its points, its findings and its warnings are computed here.
    fn parsed_report<W: SearchWatch>(
        &self,
        source: Source<'_>,
        place: usize,
        watch: &mut W,
    ) -> Result<TextReport, AllocError>
        requires tree { IsTreeOf self.now.stage.trees.now source.text.now place }
        ensures print { IfOk result (spec.IsKnownPart (spec.look_of self.now) self.now.stage.trees.now self.now.files.now place
            source.entry) }
        ensures notes { IfOk result (λ report. AreNotesOf self.now.stage.search.is_stack self.now.stage.trees.now
            source.entry.text.now place (notes_in report)) }
    {
        let alloc = self.stage.alloc;
        let tree = tree_at(self.stage.trees, source.text, place);
        let graph = lower(alloc, tree)?;
        let found = findings(alloc, &graph)?;
        let found = found.as_slice();
        let allowed = self.options.allowed;
        let details = warning_details(alloc, source, tree, &graph, found, allowed)?;
        let known = ParsedText {
            source,
            place,
            tree,
            graph: &graph,
            found,
        };
        self.known_report(known, details.as_slice(), watch)
    }

    // ---- a text that doesn't parse

    /// The report of a text that isn't taken for anything else.
    fn unread_report(
        &self,
        source: Source<'_>,
        fault: SyntaxFault,
    ) -> Result<TextReport, AllocError>
        requires unread { IsUnread source.text.now fault }
        ensures print { IfOk result (spec.IsUnreadPart (spec.look_of self.now) source.entry) }
        ensures notes { IfOk result (λ report. notes_in report ≡ []) }
    {
        let lines = report_unread(self.stage.alloc, self.coloured, source)?;
        let closing = fault_line(self.stage.alloc, &source.files, fault)?;
        Ok(TextReport {
            body: Body::Lines(lines),
            closing,
            tally: Tally {
                status: 2,
                findings: 1,
            },
        })
    }

    /// The filters of a stack, if there are any.
    fn stack(&self) -> Option<&[Tree]>
        ensures { option_map (λ trees. filters_of trees.now) result ≡ stack_of (filters_of self.now.stage.trees.now) }
    {
        match self.stage.trees {
            [] => None,
            trees => Some(trees),
        }
    }

    /// Whether a script detaches filters, and no text parses that they could be of.
    fn is_alone(&self, script: &[u8]) -> bool
        ensures { result ≡ is_alone self.now.stage.trees.now script.now }
    {
        match self.stage.trees {
            [] => detaches(script),
            [_, ..] => false,
        }
    }

    /// The report of a certificate, a journal or a script that is described so.
    fn notice_report(
        &self,
        source: Source<'_>,
        notice: &Notice<'_>,
    ) -> Result<TextReport, AllocError>
        ensures print { IfOk result (spec.IsNoticeOf (spec.look_of self.now) self.now.stage.trees.now source.entry notice.now) }
        ensures notes { IfOk result (λ report. notes_in report ≡ []) }
    {
        let alloc = self.stage.alloc;
        let is_alone = self.is_alone(source.text);
        let lines = notice_lines(alloc, self.coloured, is_alone, source.name(), notice)?;
        let closing = notice.closing(alloc)?;
        Ok(TextReport {
            body: Body::Lines(lines),
            closing,
            tally: Tally {
                status: notice.status(),
                findings: faults_in(notice),
            },
        })
    }

    /// The report of a text that is taken for a certificate, a journal or a script.
    fn other_report(&self, source: Source<'_>, kind: Kind) -> Result<TextReport, AllocError>
        requires other { IsOther source.text.now kind }
        ensures print { IfOk result (spec.IsNoticePart (spec.look_of self.now) self.now.stage.trees.now source.entry) }
        ensures notes { IfOk result (λ report. notes_in report ≡ []) }
    {
        let notice = describe(self.stage.alloc, kind, self.stack(), 0, source.text)?;
        self.notice_report(source, &notice)
    }

    // ---- any text

    /// The report of a text.
    pub(crate) fn report<W: SearchWatch>(
        &self,
        studied: &StudiedText<'_>,
        watch: &mut W,
    ) -> Result<TextReport, AllocError>
        requires text { IsStudied self.now.stage.trees.now studied.now }
        ensures { IfOk result (spec.IsPart (spec.look_of self.now) self.now.stage.trees.now self.now.files.now studied.now) }
    {
        match studied.reading {
            Reading::Unread(fault) => self.unread_report(studied.source, fault),
            Reading::Other(kind) => self.other_report(studied.source, kind),
            Reading::Known(place) => self.parsed_report(studied.source, place, watch),
        }
    }
}

/// How many findings a certificate, a journal or a script has: its first malformed line, or none.
fn faults_in(notice: &Notice<'_>) -> usize
    ensures { result ≡ faults notice.now }
{
    match notice {
        Notice::Whole(_, _) => 0,
        Notice::Malformed(_, _) => 1,
    }
}
