//! Whether locks are taken in an order, by any certificate that covers. If one shows an order, the least one does: it has no more reached
//! points and held locks. A greater one may show a circle although the least one shows an order.

ghost use Rattle.std.specs.Prelude.{◌↔◌, IsTrue, IfOk};
ghost use Rattle.flt_analyse.specs.Least.{NoneCovers};
ghost use Rattle.flt_cert.specs.Spelling.{is_cert};
ghost use Rattle.flt_check.specs.Accepting.{CertCovers};
ghost use Rattle.flt_stack.specs.Ordering as spec;

use flt_abs::is_partial_order;
use flt_analyse::{AnalyseFault, analyse_plainly};
use flt_cert::Cert;
use flt_check::accepted_certificates_fill_up;
use flt_graph::Graph;
use flt_order::find_circle;
use std::alloc::{AllocError, Global};

/// Whether the least certificate shows an order. There is one, since some certificate covers.
fn is_ordered_by_least(alloc: Global, graph: &Graph) -> Result<bool, AllocError>
    requires covered { ¬ NoneCovers graph.now }
    ensures { IfOk result (λ ordered. IsTrue ordered ↔ spec.IsOrdered graph.now) }
{
    is_partial_order();
    match analyse_plainly(alloc, graph) {
        Ok(least) => Ok(find_circle(graph, &least).is_none()),
        Err(AnalyseFault::Refused(_refusal)) => unreachable!(),
        Err(AnalyseFault::OutOfMemory) => Err(AllocError),
    }
}

/// Whether a full certificate is given that shows an order.
fn shows_order(graph: &Graph, cert: &Cert) -> bool
    requires covers { CertCovers graph.now cert.now }
    ensures { IsTrue result → spec.IsOrdered graph.now }
{
    match cert {
        Cert::Full(full) => find_circle(graph, full).is_none(),
        Cert::Thin(_) => false,
    }
}

/// Whether locks are taken in an order by some certificate that covers; the given one does. If it shows a circle or is a thin one, the
/// least one is made and decides.
pub(crate) fn is_ordered(alloc: Global, graph: &Graph, cert: &Cert) -> Result<bool, AllocError>
    requires covers { CertCovers graph.now cert.now }
    requires certificate { IsTrue (is_cert cert.now) }
    ensures { IfOk result (λ ordered. IsTrue ordered ↔ spec.IsOrdered graph.now) }
{
    if shows_order(graph, cert) {
        return Ok(true);
    }
    accepted_certificates_fill_up();
    is_ordered_by_least(alloc, graph)
}
