//! The reports of several texts, each put out as soon as it is whole.

ghost use Rattle.std.specs.Prelude.{◌≡◌, ◌≢◌, ◌≤◌, true, false, ◌++◌, ◌∷◌, [], IfOk, IfErr, OnOk, drop, length};
ghost use Rattle.flt_door.specs.Lines.{AreWholeLines, Shows};
ghost use Rattle.flt_model.specs.Program.{filters_of};
ghost use Rattle.flt_explain_runs.specs.Parts.{notes_in, report_bytes};
ghost use Rattle.flt_explain_runs.specs.Printing.{HoldsBack, IsMore, IsPutOut, look_of};
ghost use Rattle.flt_explain_outcomes.specs.Noted.{AreNotesIn};
ghost use Rattle.flt_explain_outcomes.specs.Parsed.{AreParsed};
ghost use Rattle.flt_explain_outcomes.specs.Readings.{AreStudied, IsStudied, known_in, sources_read, texts_read};
ghost use Rattle.flt_explain_runs.specs.Reported as spec;
ghost use Rattle.flt_explain_runs.specs.Told.{Say};
ghost use Rattle.flt_explain_runs.specs.Totals.{ending, with_tally};
ghost use Rattle.flt_explain_runs.specs.Whole.{IsPrintOfAll};

use crate::fault::ExplainFault;
use crate::parts::{Body, TextReport, write};
use crate::printing::Printer;
use crate::totals::{Summary, Total};
use flt_door::put_let_out;
use flt_explain_outcomes::{Note, StudiedText};
use flt_model::Sink;
use flt_search::SearchWatch;
use sqlite_items::Items;
use std::alloc::{AllocError, Global};

/// The output for texts, the notes in it, their total, and how many bytes of the output are put out.
#[derive(Drop)]
pub(crate) struct PrintedTexts {
    pub(crate) bytes: Vec<u8>,
    pub(crate) noted: Items<Note>,
    pub(crate) total: Total,
    pub(crate) sent: usize,
}

impl PrintedTexts {
    /// No output.
    pub(crate) fn new(alloc: Global) -> PrintedTexts
        ensures bytes { result.bytes.items ≡ [] }
        ensures noted { result.noted ≡ [] }
        ensures total { (result.total.status ≡ 0) × (result.total.findings ≡ 0) × (result.total.files ≡ 0) }
        ensures sent { result.sent ≡ 0 }
    {
        PrintedTexts {
            bytes: Vec::new(alloc),
            noted: Items::new(alloc),
            total: Total {
                status: 0,
                findings: 0,
                files: 0,
            },
            sent: 0,
        }
    }

    /// Adds the report of a text, with its notes.
    fn add(&mut self, report: TextReport) -> Result<(), AllocError>
        ensures bytes { OnOk result (self.new.bytes.items ≡ self.old.bytes.items ++ report_bytes report) }
        ensures noted { OnOk result (self.new.noted ≡ self.old.noted ++ notes_in report) }
        ensures total { OnOk result (self.new.total ≡ with_tally self.old.total report.tally) }
        ensures sent { OnOk result (self.new.sent ≡ self.old.sent) }
    {
        let TextReport {
            body,
            closing,
            tally,
        } = report;
        self.total = self.total.and(tally)?;
        write(&mut self.bytes, &body, closing.as_str())?;
        match body {
            Body::Lines(_lines) => Ok(()),
            Body::Findings(_blocks, notes) => self.noted.append(notes),
        }
    }

    /// Ends the reports of so many texts: those of several with an empty line and the number of findings.
    fn end(&mut self, alloc: Global, all: usize) -> Result<(), AllocError>
        ensures bytes { OnOk result (self.new.bytes.items
            ≡ self.old.bytes.items ++ ending self.old.total.findings self.old.total.files all) }
        ensures noted { self.new.noted ≡ self.old.noted }
        ensures total { self.new.total ≡ self.old.total }
        ensures sent { self.new.sent ≡ self.old.sent }
    {
        if all < 2 {
            return Ok(());
        }
        let summary = Summary {
            findings: self.total.findings,
            files: self.total.files,
            all,
        };
        let line = format!(in alloc; "\n{summary}\n")?;
        self.bytes.extend_from_slice(line.as_bytes())
    }

    /// Puts out the bytes that aren't put out yet, which are whole lines.
    fn send<O: Sink>(&mut self, out: &mut O) -> Result<(), ExplainFault>
        requires within { self.old.sent ≤ length self.old.bytes.items }
        requires lines { AreWholeLines (drop self.old.sent self.old.bytes.items) }
        ensures bytes { self.new.bytes ≡ self.old.bytes }
        ensures noted { self.new.noted ≡ self.old.noted }
        ensures total { self.new.total ≡ self.old.total }
        ensures all { OnOk result (self.new.sent ≡ length self.new.bytes.items) }
        ensures added { OnOk result (Shows (O.taken out.old) (O.taken out.new) (drop self.old.sent self.old.bytes.items)) }
        ensures fine { OnOk result (O.failures out.new ≡ O.failures out.old) }
        ensures write { IfErr result (λ e. (e ≡ ExplainFault.Write) × (O.failures out.new ≢ O.failures out.old)) }
    {
        put_let_out(out, &self.bytes[self.sent..])?;
        self.sent = self.bytes.len();
        Ok(())
    }
}

impl Printer<'_> {
    /// Adds the report of one more text, and an empty line after it. Unless reports are held back, all bytes that aren't put out yet are
    /// put out then.
    fn put_report<O: Sink, W: SearchWatch>(
        &self,
        printed: &mut PrintedTexts,
        studied: &StudiedText<'_>,
        is_held: bool,
        out: &mut O,
        watch: &mut W,
    ) -> Result<(), ExplainFault>
        requires text { IsStudied self.now.stage.trees.now studied.now }
        requires sent { HoldsBack is_held printed.old }
        ensures added { OnOk result (IsMore (look_of self.now) self.now.stage.trees.now self.now.files.now studied.now (10 ∷ []) printed.old
            printed.new) }
        ensures sent { OnOk result (HoldsBack is_held printed.new) }
        ensures out { OnOk result (is_held ≡ false →
            Shows (O.taken out.old) (O.taken out.new) (drop printed.old.sent printed.new.bytes.items)) }
        ensures held { is_held ≡ true → out.new ≡ out.old }
        ensures fine { OnOk result (O.failures out.new ≡ O.failures out.old) }
        ensures write { IfErr result (λ e. e ≡ ExplainFault.Write → O.failures out.new ≢ O.failures out.old) }
        ensures memory { IfErr result (λ e. e ≡ ExplainFault.OutOfMemory → out.new ≡ out.old) }
    {
        let report = self.report(studied, watch)?;
        printed.add(report)?;
        printed.bytes.push(b'\n')?;
        if is_held {
            return Ok(());
        }
        printed.send(out)?;
        Ok(())
    }

    /// The reports of texts, and after several of them the number of findings. Unless they are held back, all but the last are put out,
    /// each as soon as it is whole.
    pub(crate) fn put_all<O: Sink, W: SearchWatch>(
        &self,
        each: &[StudiedText<'_>],
        is_held: bool,
        out: &mut O,
        watch: &mut W,
    ) -> Result<PrintedTexts, ExplainFault>
        requires texts { AreStudied self.now.stage.trees.now 0 each.now }
        requires parsed { AreParsed (texts_read each.now) (filters_of self.now.stage.trees.now) }
        ensures reports { IfOk result
            (λ p. spec.AreAllReports self.now.options (filters_of self.now.stage.trees.now) (sources_read each.now)
            p.bytes.items p.total.status) }
        ensures notes { IfOk result (λ p. AreNotesIn self.now.stage.search.is_stack self.now.stage.trees.now (known_in each.now)
            (texts_read each.now) p.noted) }
        ensures said { IfOk result (λ p. Say self.now.stage.trees.now self.now.stage.search p.noted p.bytes.items) }
        ensures print { IfOk result
            (λ p. IsPrintOfAll (look_of self.now) self.now.stage.trees.now self.now.files.now (sources_read each.now)
            p.noted
            p.bytes.items p.total.status) }
        ensures sent { IfOk result
            (IsPutOut self.now.options (sources_read each.now) self.now.stage.search is_held (O.taken out.old) (O.taken out.new)) }
        ensures held { is_held ≡ true → out.new ≡ out.old }
        ensures fine { OnOk result (O.failures out.new ≡ O.failures out.old) }
        ensures write { IfErr result (λ e. e ≡ ExplainFault.Write → O.failures out.new ≢ O.failures out.old) }
        ensures memory { IfErr result (λ e. e ≡ ExplainFault.OutOfMemory →
            spec.IsCut self.now.options (sources_read each.now) self.now.stage.search (O.taken out.old) (O.taken out.new)) }
    {
        let [before @ .., last] = each else {
            return Ok(PrintedTexts::new(self.stage.alloc));
        };
        let mut printed = PrintedTexts::new(self.stage.alloc);
        for studied in before {
            self.put_report(&mut printed, studied, is_held, out, watch)?;
        }
        let report = self.report(last, watch)?;
        printed.add(report)?;
        printed.end(self.stage.alloc, each.len())?;
        Ok(printed)
    }
}
