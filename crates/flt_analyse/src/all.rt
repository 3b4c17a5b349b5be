//! The analyses of several texts, side by side on several threads.

ghost use Rattle.std.specs.Prelude.{◌≡◌, ◌<◌, ◌≤◌, length, map, Ok, IfOk};
ghost use Rattle.std.specs.List.{AllZip};
ghost use Rattle.flt_analyse.specs.All as spec;

use crate::analyser::analyse;
use crate::ticks::Ticks;
use flt_cert::FullCert;
use flt_graph::Graph;
use flt_rules::Refusal;
use sqlite_items::Items;
use std::alloc::{AllocError, Global};
use std::marker::Brand;
use std::sync::ledger::{Blank, Ledger};
use std::thread;
use std::thread::Threads;

/// A callback for the moment when the analysis of a graph begins.
pub trait Start {
    /// The graph's place in the list, from 0.
    fn before(&self, place: usize);
}

/// The answer for one graph. The transfers are counted in a ledger that nobody reads.
fn answer_with<L: Ledger>(
    alloc: Global,
    graph: &Graph,
    blank: Blank,
) -> Result<Result<FullCert, Refusal>, AllocError>
    requires name { blank.name ≡ L.name }
    requires parts { blank.parts ≡ L.parts }
    requires some { 0 < blank.parts }
    ensures { IfOk result (spec.IsAnswer graph.now) }
{
    let mut ticks = Ticks::<L, 0, 0>::new(blank);
    match analyse(alloc, graph, &mut ticks) {
        Ok(cert) => Ok(Ok(cert)),
        Err(fault) => Ok(Err(fault.refusal()?)),
    }
}

/// The answer for one graph.
fn answer(alloc: Global, graph: &Graph) -> Result<Result<FullCert, Refusal>, AllocError>
    ensures { IfOk result (spec.IsAnswer graph.now) }
{
    answer_with::<Brand>(alloc, graph, Blank::new(1))
}

/// A worker's share: the answers for the graphs at its own number, at that and the count of workers, and so on.
fn share<G: Start>(
    alloc: Global,
    graphs: &[Graph],
    workers: usize,
    worker: usize,
    start: &G,
) -> Result<Items<Result<FullCert, Refusal>>, AllocError>
    requires worker { worker < workers }
    requires few { workers ≤ 16 }
    ensures { IfOk result (spec.IsShare graphs.now workers (length graphs.now) worker) }
{
    let mut answers = Items::new(alloc);
    let mut place = worker;
    'places: while place < graphs.len() {
        start.before(place);
        answers.push(answer(alloc, &graphs[place])?)?;
        place += workers;
    }
    Ok(answers)
}

/// The shares, unless a worker ran out of memory.
fn all_shares(
    alloc: Global,
    given: Vec<Result<Items<Result<FullCert, Refusal>>, AllocError>>,
) -> Result<Vec<Items<Result<FullCert, Refusal>>>, AllocError>
    ensures { IfOk result (λ v. given.items ≡ map Ok v.items) }
{
    let mut shares = Vec::new(alloc);
    'shares: for share in given {
        shares.push(share?)?;
    }
    Ok(shares)
}

/// The answers in the order of the graphs, taken from the ends of the shares.
fn weave(
    alloc: Global,
    graphs: &[Graph],
    mut shares: Vec<Items<Result<FullCert, Refusal>>>,
) -> Result<Vec<Result<FullCert, Refusal>>, AllocError>
    requires some { 0 < length shares.items }
    requires shares { spec.AreShares graphs.now (length shares.items) (length graphs.now) shares.items }
    ensures { IfOk result (λ v. AllZip spec.IsAnswer graphs.now v.items) }
{
    let mut backwards = Items::new(alloc);
    let mut place = graphs.len();
    'places: while 0 < place {
        place -= 1;
        let worker = place % shares.len();
        backwards.push(shares[worker].pop().unwrap())?;
    }
    let mut answers = Vec::new(alloc);
    'turns: while let Some(answer) = backwards.pop() {
        answers.push(answer)?;
    }
    Ok(answers)
}

/// The answer of `analyse` for each graph, at the graph's place. Worker w takes the graphs at the places w, w + `workers` and so on, each
/// worker in a thread of its own where one can be made, and calls `start` before each graph.
///
/// # Errors
///
/// `AllocError` if a growth is refused.
pub fn analyse_all<R: Threads + Sync, G: Start + Sync>(
    rt: &R,
    alloc: Global,
    graphs: &[Graph],
    workers: usize,
    start: &G,
) -> Result<Vec<Result<FullCert, Refusal>>, AllocError>
    requires some { 1 ≤ workers }
    requires few { workers ≤ 16 }
    ensures { IfOk result (λ v. AllZip spec.IsAnswer graphs.now v.items) }
{
    let given = thread::map_indices(
        rt,
        alloc,
        workers,
        &|worker: usize| -> Result<Items<Result<FullCert, Refusal>>, AllocError>
            requires { (worker < workers) × (workers ≤ 16) }
            ensures { IfOk result (spec.IsShare graphs.entry.now workers (length graphs.entry.now) worker) }
        { share(alloc, graphs, workers, worker, start) },
    )?;
    weave(alloc, graphs, all_shares(alloc, given)?)
}
