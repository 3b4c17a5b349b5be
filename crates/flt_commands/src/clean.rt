//! The laws of a yes of the program: it means that texts break nothing.

ghost use Rattle.flt_cert.specs.declared.cert.Cert.{Cert};
ghost use Rattle.flt_check.specs.Accepting.{CertCovers};
ghost use Rattle.flt_commands_texts.specs.Check.{HasPoints};
ghost use Rattle.std.specs.Prelude.{List};
ghost use Rattle.flt_commands.specs.Clean.{BreaksNothing, BreakNothing};
ghost use Rattle.flt_files.specs.Inputs.{Text};
ghost use Rattle.flt_stack_crew.specs.Running.{IsRun};
ghost use Rattle.flt_stack_crew.specs.declared.running.Ran.{Ran};
ghost use Rattle.flt_graph.specs.declared.graph.Graph.{Graph};

use flt_check::accepted_certificates_fill_up;
use flt_sound::accepted_runs_break_nothing;
use flt_syntax::{spelled_is_well_formed, spells_at_most_one};

/// A text breaks nothing if some certificate covers its points. It does nothing at run time: its clause is the law.
pub fn covered_texts_break_nothing()
    ensures { (text : Text) (graph : Graph) (cert : Cert) → HasPoints text graph → CertCovers graph cert → BreaksNothing text }
{
    spells_at_most_one();
    spelled_is_well_formed();
    accepted_certificates_fill_up();
    accepted_runs_break_nothing();
}

/// The filters of a run break nothing, in no other run either. It does nothing at run time: its clause is the law.
pub fn driven_texts_break_nothing()
    ensures { (script : Text) (texts : List Text) (ran : Ran) → IsRun script texts ran → BreakNothing texts }
{
    spells_at_most_one();
}
