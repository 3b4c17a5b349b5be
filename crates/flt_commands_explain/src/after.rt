//! The output of `explain` for some texts, after the drifts of C files.

ghost use Rattle.flt_door.specs.Lines.{Shows};
ghost use Rattle.std.specs.Prelude.{◌≡◌, ◌≢◌, IfErr, IfOk, IsTrue, OnOk, false, option_map, take};
ghost use Rattle.flt_commands_explain.specs.Explain as spec;

use crate::drifts::tell_drifts;
use crate::explain::{ExplainOptions, told};
use crate::fault::CommandFault;
use flt_door::put_let_out;
use flt_explain_parts::{DriftedFile, drift_status};
use flt_explain_runs::{ExplainOutput, SearchWatch};
use flt_explain_texts::{Printout, Source};
use flt_files::UnreadFile;
use flt_model::Sink;
use flt_words::Form;
use std::alloc::{AllocError, Global};
use std::cmp::max;

/// The output for texts after drifts that are worth this status, when so many bytes of all of it are written already. Without drifts no
/// memory is requested: all may be written by then.
fn told_after(
    first: Vec<u8>,
    worth: u8,
    sent: usize,
    own: ExplainOutput,
) -> Result<ExplainOutput, AllocError>
    ensures after { IfOk result (spec.IsAfter first.items worth own) }
    ensures sent { IfOk result (λ e. e.sent ≡ sent) }
{
    let status = max(own.explained.status, worth);
    if first.is_empty() {
        return Ok(ExplainOutput {
            explained: Printout {
                output: own.explained.output,
                status,
            },
            noted: own.noted,
            sent,
        });
    }
    let mut output = first;
    output.extend_from_slice(own.explained.output.as_slice())?;
    Ok(ExplainOutput {
        explained: Printout { output, status },
        noted: own.noted,
        sent,
    })
}

/// Whether nothing is written before all is known.
fn holds_back(asked: ExplainOptions<'_>) -> bool
    ensures yes { IsTrue result → spec.HoldsBack asked.entry.form (option_map (λ name. name.now) asked.entry.journal) }
    ensures no { result ≡ false → spec.HoldsBack asked.entry.form (option_map (λ name. name.now) asked.entry.journal) → ⊥ }
{
    match asked.journal {
        Some(_) => true,
        None => match asked.form {
            Form::Human | Form::Short | Form::Lines => false,
            Form::Sarif | Form::Html | Form::LinesWithRuns | Form::SarifWithRuns => true,
        },
    }
}

/// The drifts that come before what a form prints of texts: none of a page, which has them within it.
fn first_drifts(
    alloc: Global,
    form: Form,
    drifted: &[DriftedFile<'_>],
) -> Result<Vec<u8>, AllocError>
    ensures { IfOk result (λ first. first.items ≡ spec.first_in form drifted.now) }
{
    match form {
        Form::Html => Ok(Vec::new(alloc)),
        _ => tell_drifts(alloc, form, drifted),
    }
}

/// The output for some texts, after some drifts, or with them within it. Nothing is written before all is known.
fn explain_held<O: Sink, W: SearchWatch>(
    alloc: Global,
    asked: ExplainOptions<'_>,
    drifted: &[DriftedFile<'_>],
    sources: &[Source<'_>],
    unread: &[UnreadFile],
    out: &mut O,
    watch: &mut W,
) -> Result<ExplainOutput, CommandFault>
    requires { spec.HoldsBack asked.form (option_map (λ name. name.now) asked.journal) }
    ensures told { IfOk result (spec.IsToldWith asked.entry.form (spec.look_of asked.entry)
        (option_map (λ name. name.now) asked.entry.journal) drifted.now sources.now unread.now) }
    ensures sent { IfOk result (λ t. t.sent ≡ 0) }
    ensures held { out.new ≡ out.old }
    ensures err { IfErr result (λ e. e ≡ CommandFault.OutOfMemory) }
{
    let first = first_drifts(alloc, asked.form, drifted)?;
    let worth = drift_status(asked.options.is_strict, drifted);
    let own = told(alloc, asked, drifted, sources, unread, out, watch)?;
    let told = told_after(first, worth, 0, own)?;
    Ok(told)
}

/// The same where the first drifts are written at once, and the output for each text as soon as it is made.
fn explain_early<O: Sink, W: SearchWatch>(
    alloc: Global,
    asked: ExplainOptions<'_>,
    drifted: &[DriftedFile<'_>],
    sources: &[Source<'_>],
    unread: &[UnreadFile],
    out: &mut O,
    watch: &mut W,
) -> Result<ExplainOutput, CommandFault>
    ensures told { IfOk result (spec.IsToldWith asked.entry.form (spec.look_of asked.entry)
        (option_map (λ name. name.now) asked.entry.journal) drifted.now sources.now unread.now) }
    ensures sent { IfOk result (λ t. Shows (O.taken out.old) (O.taken out.new) (take t.sent t.explained.output.items)) }
    ensures fine { OnOk result (O.failures out.new ≡ O.failures out.old) }
    ensures write { IfErr result (λ e. e ≡ CommandFault.Write → O.failures out.new ≢ O.failures out.old) }
    ensures memory { IfErr result (λ e. e ≡ CommandFault.OutOfMemory →
        spec.IsCutAfter (spec.first_in asked.entry.form drifted.now) asked.entry.form asked.entry.options
        (spec.search_of asked.entry.search) sources.now
        (O.taken out.old) (O.taken out.new)) }
    ensures cut { OnOk result
        (spec.IsCutAfter (spec.first_in asked.entry.form drifted.now) asked.entry.form asked.entry.options
        (spec.search_of asked.entry.search) sources.now
        (O.taken out.old) (O.taken out.new)) }
{
    let first = first_drifts(alloc, asked.form, drifted)?;
    let worth = drift_status(asked.options.is_strict, drifted);
    put_let_out(out, first.as_slice())?;
    let before = first.len();
    let own = told(alloc, asked, drifted, sources, unread, out, watch)?;
    let sent = before + own.sent.min(own.explained.output.len());
    let told = told_after(first, worth, sent, own)?;
    Ok(told)
}

/// The output for some texts, in a form, with files that aren't read, after some drifts, or with them within it. The first drifts are
/// written at once, and the output for each text as soon as it is made, unless all of it is held back.
#[tactic(auto, using(crate::proofs::Sent::none_sent, crate::proofs::AfterDrifts::nothing_after))]
pub(crate) fn explain_after<O: Sink, W: SearchWatch>(
    alloc: Global,
    asked: ExplainOptions<'_>,
    drifted: &[DriftedFile<'_>],
    sources: &[Source<'_>],
    unread: &[UnreadFile],
    out: &mut O,
    watch: &mut W,
) -> Result<ExplainOutput, CommandFault>
    ensures told { IfOk result (spec.IsToldWith asked.entry.form (spec.look_of asked.entry)
        (option_map (λ name. name.now) asked.entry.journal) drifted.now sources.now unread.now) }
    ensures sent { IfOk result (λ t. Shows (O.taken out.old) (O.taken out.new) (take t.sent t.explained.output.items)) }
    ensures held { spec.HoldsBack asked.entry.form (option_map (λ name. name.now) asked.entry.journal) → out.new ≡ out.old }
    ensures fine { OnOk result (O.failures out.new ≡ O.failures out.old) }
    ensures write { IfErr result (λ e. e ≡ CommandFault.Write → O.failures out.new ≢ O.failures out.old) }
    ensures memory { IfErr result (λ e. e ≡ CommandFault.OutOfMemory →
        spec.IsCutAfter (spec.first_in asked.entry.form drifted.now) asked.entry.form asked.entry.options
        (spec.search_of asked.entry.search) sources.now
        (O.taken out.old) (O.taken out.new)) }
    ensures cut { OnOk result
        (spec.IsCutAfter (spec.first_in asked.entry.form drifted.now) asked.entry.form asked.entry.options
        (spec.search_of asked.entry.search) sources.now
        (O.taken out.old) (O.taken out.new)) }
{
    if holds_back(asked) {
        return explain_held(alloc, asked, drifted, sources, unread, out, watch);
    }
    explain_early(alloc, asked, drifted, sources, unread, out, watch)
}
