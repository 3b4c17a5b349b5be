//! The origin of a fact.

ghost use Rattle.std.specs.Prelude.{◌≡◌, None, Some, IfOk, IfSome};
ghost use Rattle.flt_graph.specs.Points.{successor};
ghost use Rattle.flt_explain_origins.specs.Origins as spec;
ghost use Rattle.flt_explain_origins.specs.declared.origin.Cause.TheVariants as cause;

use crate::answer::Step;
use crate::entered::may_be_at_entry;
use crate::facts::{Fact, keeps, makes};
use flt_graph::{Graph, Instruction};
use sqlite_items::Items;
use std::alloc::{AllocError, Global};

/// The cause of a fact.
#[derive(Clone, Copy)]
pub enum Cause {
    /// It holds when the callback is entered.
    Entry,
    /// This step makes it, whatever held before.
    Made(Step),
}

/// The origin of a fact: its cause, and the steps since, each of which keeps it.
#[derive(Drop)]
pub struct Origin {
    pub fact: Fact,
    pub cause: Cause,
    pub later: Items<Step>,
}

/// The point to which an instruction leads, if it continues.
pub(crate) fn next(instruction: &Instruction, granted: bool) -> Option<usize>
    ensures { result ≡ successor instruction.now granted }
{
    match instruction {
        Instruction::Act(_, next) => Some(*next),
        Instruction::Call(_, yes, no)
        | Instruction::Test(_, yes, no)
        | Instruction::Repeat(_, yes, no) => Some(if granted { *yes } else { *no }),
        Instruction::Return(_) | Instruction::End => None,
    }
}

fn is_kept(graph: &Graph, callback: usize, fact: Fact, point: usize, step: Step) -> bool
    ensures { result ≡ spec.is_kept graph.now callback fact point step }
{
    step.point == point
        && keeps(
            graph.instruction_ref(callback, step.point),
            step.granted,
            fact,
        )
}

/// The point to which steps lead, if each is of the point to which the one before leads, and keeps a fact.
fn leads(
    graph: &Graph,
    callback: usize,
    fact: Fact,
    from: Option<usize>,
    steps: &[Step],
) -> Option<usize>
    ensures { result ≡ spec.leads graph.now callback fact from steps.now }
{
    let mut at = from;
    for step in steps {
        let Some(point) = at else {
            return None;
        };
        if !is_kept(graph, callback, fact, point, *step) {
            return None;
        }
        at = next(graph.instruction_ref(callback, step.point), step.granted);
    }
    at
}

pub(crate) fn is_made_by(graph: &Graph, callback: usize, fact: Fact, step: Step) -> bool
    ensures { result ≡ spec.is_made_by graph.now callback fact step }
{
    makes(
        graph.instruction_ref(callback, step.point),
        step.granted,
        step.gives,
        fact,
    )
}

/// Whether a cause makes a fact.
fn is_made(alloc: Global, graph: &Graph, callback: usize, fact: Fact, cause: Cause) -> bool
    ensures { result ≡ spec.is_made graph.now callback fact cause }
{
    match cause {
        Cause::Entry => may_be_at_entry(alloc, graph.place(callback), fact),
        Cause::Made(step) => is_made_by(graph, callback, fact, step),
    }
}

/// The point to which a cause leads.
fn behind(graph: &Graph, callback: usize, cause: Cause) -> Option<usize>
    ensures { result ≡ spec.behind graph.now callback cause }
{
    match cause {
        Cause::Entry => Some(0),
        Cause::Made(step) => next(graph.instruction_ref(callback, step.point), step.granted),
    }
}

/// Whether a point is there, and is this one.
fn is_at(found: Option<usize>, point: usize) -> bool
    ensures { result ≡ spec.is_at found point }
{
    match found {
        Some(found) => found == point,
        None => false,
    }
}

/// Whether a cause makes a fact, which later steps keep up to a point.
fn is_origin(
    alloc: Global,
    graph: &Graph,
    callback: usize,
    fact: Fact,
    point: usize,
    cause: Cause,
    later: &[Step],
) -> bool
    ensures { result ≡ spec.is_origin graph.now callback fact point cause later.now }
{
    is_made(alloc, graph, callback, fact, cause)
        && is_at(
            leads(graph, callback, fact, behind(graph, callback, cause), later),
            point,
        )
}

/// The last of these steps that makes a fact, or else the entry, and the steps since.
fn last_made<'a>(
    graph: &Graph,
    callback: usize,
    fact: Fact,
    steps: &'a [Step],
) -> (Cause, &'a [Step])
    ensures cause { result.0 ≡ spec.last_cause graph.now callback fact cause.Entry steps.now }
    ensures since { result.1.now ≡ spec.since graph.now callback fact steps.now steps.now }
{
    let mut cause = Cause::Entry;
    let mut later = steps;
    let mut rest = steps;
    while let [step, others @ ..] = rest {
        if is_made_by(graph, callback, fact, *step) {
            cause = Cause::Made(*step);
            later = others;
        }
        rest = others;
    }
    (cause, later)
}

/// Each fact that holds at the end of a path has an origin on it. It does nothing at run time: its clause is a law.
#[tactic(auto, using(crate::proofs::OnWays::have_origins))]
pub fn ways_have_origins()
    ensures { spec.HaveOrigins }
{}

/// The origin of a fact that holds at a point, on the path of these steps: the last step that makes it, or the entry, and the steps since,
/// which are a path of the graph to the point. None if they aren't, or if one of them doesn't keep the fact.
///
/// # Errors
///
/// `AllocError` if a growth is refused.
pub fn origin_on(
    alloc: Global,
    graph: &Graph,
    callback: usize,
    fact: Fact,
    steps: &[Step],
    point: usize,
) -> Result<Option<Origin>, AllocError>
    ensures value { IfOk result (λ o. o ≡ spec.origin_on graph.now callback fact steps.now point) }
    ensures meaning { IfOk result (λ o. IfSome o (spec.IsOrigin graph.now callback fact point)) }
    ensures last { IfOk result (λ o. IfSome o (λ x. spec.IsLast graph.now callback fact steps.now x.cause x.later)) }
    ensures none { IfOk result (λ o. o ≡ None → spec.HasNone graph.now callback fact steps.now point) }
{
    let (cause, later) = last_made(graph, callback, fact, steps);
    if !is_origin(alloc, graph, callback, fact, point, cause, later) {
        return Ok(None);
    }
    let later = Items::from_slice(alloc, later)?;
    Ok(Some(Origin { fact, cause, later }))
}
