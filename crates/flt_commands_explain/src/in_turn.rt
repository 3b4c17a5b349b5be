//! Output line by line: the lines of each text are written as soon as they are made.

ghost use Rattle.flt_door.specs.Lines.{Shows};
ghost use Rattle.std.specs.Prelude.{◌≡◌, ◌≢◌, IfErr, IfOk, None, OnOk};
ghost use Rattle.flt_commands_explain.specs.InTurn as spec;
ghost use Rattle.flt_explain_forms.specs.Lines.{AreLines};

use crate::fault::CommandFault;
use flt_door::put_let_out;
use flt_explain_forms::{Style, lines};
use flt_explain_parts::greater;
use flt_explain_texts::{Printout, Source};
use flt_explain_warning_details::WarningOptions;
use flt_model::Sink;
use std::alloc::Global;

/// Writes the lines of one more text, and adds them to those of others.
fn put_text<O: Sink>(
    alloc: Global,
    style: Style,
    options: WarningOptions,
    source: Source<'_>,
    told: &mut Printout,
    out: &mut O,
) -> Result<(), CommandFault>
    ensures text { OnOk result (spec.IsTextMore style options source.entry told.old told.new (O.taken out.old) (O.taken out.new)) }
    ensures fine { OnOk result (O.failures out.new ≡ O.failures out.old) }
    ensures write { IfErr result (λ e. e ≡ CommandFault.Write → O.failures out.new ≢ O.failures out.old) }
    ensures memory { IfErr result (λ e. e ≡ CommandFault.OutOfMemory → out.new ≡ out.old) }
{
    let one = lines(alloc, style, options, &[source], None)?;
    told.output.extend_from_slice(one.output.as_slice())?;
    told.status = greater(told.status, one.status);
    put_let_out(out, one.output.as_slice())?;
    Ok(())
}

/// The findings and warnings of some texts, line by line. All lines are written already.
#[tactic(auto, using(crate::proofs::InTurn::first_lines))]
pub(crate) fn lines_in_turn<O: Sink>(
    alloc: Global,
    style: Style,
    options: WarningOptions,
    sources: &[Source<'_>],
    out: &mut O,
) -> Result<Printout, CommandFault>
    ensures told { IfOk result (λ e. AreLines style options sources.now None e.output.items e.status) }
    ensures sent { IfOk result (λ e. Shows (O.taken out.old) (O.taken out.new) e.output.items) }
    ensures fine { OnOk result (O.failures out.new ≡ O.failures out.old) }
    ensures write { IfErr result (λ e. e ≡ CommandFault.Write → O.failures out.new ≢ O.failures out.old) }
    ensures memory { IfErr result (λ e. e ≡ CommandFault.OutOfMemory →
        spec.AreFirstLines style options sources.now (O.taken out.old) (O.taken out.new)) }
{
    let mut told = Printout {
        output: Vec::new(alloc),
        status: 0,
    };
    for source in sources {
        put_text(alloc, style, options, *source, &mut told, out)?;
    }
    Ok(told)
}
