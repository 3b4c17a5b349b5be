//! The points of the filters, and their certificates.

ghost use Rattle.std.specs.Prelude.{◌≡◌, ◌≤◌, IfOk, IfErr};
ghost use Rattle.std.specs.List.{AllZip};
ghost use Rattle.flt_stack_prepare.specs.Certified as certified;
ghost use Rattle.flt_stack_prepare.specs.Texts as spec;
ghost use Rattle.flt_graph.specs.Lowering.{IsLowered};
ghost use Rattle.flt_model.specs.Program.{filters_of};
ghost use Rattle.flt_stack.specs.Lowered.{AreCertificates, AreCovered};

use crate::fault::RunFault;
use flt_analyse::{Start, analyse_all};
use flt_cert::{Cert, FullCert};
use flt_graph::{Graph, lower};
use flt_rules::Refusal;
use flt_tree::Tree;
use std::alloc::{AllocError, Global};
use std::thread::Threads;

/// Takes no notice of an analysis that begins.
struct NoNotice;

impl Start for NoNotice {
    fn before(&self, _place: usize) {}
}

/// The points of the filters, in order.
fn lower_all(alloc: Global, trees: &[Tree]) -> Result<Vec<Graph>, AllocError>
    ensures { IfOk result (λ graphs. AllZip IsLowered (filters_of trees.now) graphs.items) }
{
    let mut graphs = Vec::new(alloc);
    for tree in trees {
        graphs.push(lower(alloc, tree)?)?;
    }
    Ok(graphs)
}

/// The certificates that the analyser answered, if it refused nothing.
fn certificates_of(
    alloc: Global,
    answers: Vec<Result<FullCert, Refusal>>,
) -> Result<Vec<Cert>, RunFault>
    ensures ok { IfOk result (λ certificates. AllZip certified.IsGiven answers.items certificates.items) }
    ensures err { IfErr result (certified.StopsAt answers.items) }
{
    let mut certificates = Vec::new(alloc);
    'answers: for answer in answers {
        match answer {
            Ok(certificate) => {
                let _points = certificate.callbacks();
                certificates.push(Cert::Full(certificate))?;
            }
            Err(refusal) => {
                let file = certificates.len();
                return Err(RunFault::Refused { file, refusal });
            }
        }
    }
    Ok(certificates)
}

/// The points of the filters and the least certificates of these, in order, as many at a time as there are workers.
pub(crate) fn certify_all<R: Threads + Sync>(
    rt: &R,
    alloc: Global,
    workers: usize,
    trees: &[Tree],
) -> Result<(Vec<Graph>, Vec<Cert>), RunFault>
    requires { (1 ≤ workers) × (workers ≤ 16) }
    ensures lowered { IfOk result (λ made. AllZip IsLowered (filters_of trees.now) made.0.items) }
    ensures covered { IfOk result (λ made. AreCovered made.0.items made.1.items) }
    ensures certificates { IfOk result (λ made. AreCertificates made.0.items made.1.items) }
    ensures err { IfErr result (spec.FiltersFail (filters_of trees.now)) }
{
    let graphs = lower_all(alloc, trees)?;
    let answers = analyse_all(rt, alloc, graphs.as_slice(), workers, &NoNotice)?;
    let certificates = certificates_of(alloc, answers)?;
    Ok((graphs, certificates))
}
