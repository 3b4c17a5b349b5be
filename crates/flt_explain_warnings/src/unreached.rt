//! W06: statements that no path reaches.

ghost use Rattle.std.specs.Prelude.{◌≡◌};
ghost use Rattle.flt_explain_warnings.specs.Unreached as spec;

use crate::reading::is_reached;
use crate::warning::{Site, Warning};
use flt_cert::FullCert;
use flt_graph::{Graph, Instruction};

/// Whether a point is the first of its callback, or the one before it is reached.
fn is_first(cert: &FullCert, site: Site) -> bool
    ensures { result ≡ spec.is_first cert.now site }
{
    if site.point == 0 {
        return true;
    }
    is_reached(
        cert,
        Site {
            callback: site.callback,
            point: site.point - 1,
        },
    )
}

/// Whether an instruction is a statement's, and not the end of the body.
fn is_statement(instruction: &Instruction) -> bool
    ensures { result ≡ spec.is_statement instruction.now }
{
    !matches!(instruction, Instruction::End)
}

/// The warning that nothing reaches a statement, the first of its run.
pub(crate) fn unreached(graph: &Graph, cert: &FullCert, site: Site) -> Option<Warning>
    ensures { result ≡ spec.unreached graph.now cert.now site }
{
    let instruction = graph.instruction_ref(site.callback, site.point);
    if !is_reached(cert, site) && is_first(cert, site) && is_statement(instruction) {
        Some(Warning::Unreached(site))
    } else {
        None
    }
}
