//! Whether a certificate of either format covers a text, and if not, the least fault.

ghost use Rattle.std.specs.Prelude.{◌≡◌, ◌↔◌, IsOk, IfErr};
ghost use Rattle.flt_check.specs.Accepting.{CertCovers, IsCertFault};

use crate::checker::check_full;
use crate::thin_checker::check_thin;
use flt_cert::Cert;
use flt_graph::Graph;
use flt_rules::Refusal;

/// Whether a certificate covers a text's points; if not, the least fault: a number of callbacks or points that isn't the text's comes
/// first, then, for a thin one, a point that is given and not kept or the reverse, then the least callback, point and rule. It takes no
/// memory.
pub fn check(graph: &Graph, cert: &Cert) -> Result<(), Refusal>
    ensures accepted { IsOk result ↔ CertCovers graph.now cert.now }
    ensures refused { IfErr result (IsCertFault graph.now cert.now) }
{
    match cert {
        Cert::Full(full) => check_full(graph, full),
        Cert::Thin(thin) => check_thin(graph, thin),
    }
}
