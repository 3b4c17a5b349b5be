//! The traces of findings: the paths to them, their origins, and the groups of those that are reported together.

ghost use Rattle.std.specs.List.{AllZip};
ghost use Rattle.std.specs.Prelude.{◌≡◌, ◌<◌, Some, length, option_copied, slice_get, IfOk};
ghost use Rattle.flt_explain_ways.specs.Tracing as spec;
ghost use Rattle.flt_explain_origins.specs.Grouping.{groups_of};
ghost use Rattle.flt_explain_ways.specs.Told.{IsAnswer};
ghost use Rattle.flt_explain_origins.specs.Trace.{cause_of};

use crate::to_finding::ways;
use flt_explain::{Finding, Subject};
use flt_explain_origins::{
    Answer, Cause, Fact, FindingTrace, Group, Origin, Situation, TracedFinding, VariableStatus,
    Way, Ways, fact_about, groups, origin_at, origin_on,
};
use flt_graph::Graph;
use flt_rules::Rule;
use sqlite_items::Items;
use std::alloc::{AllocError, Global};

/// The findings of a text as they are reported.
#[derive(Drop)]
pub struct Traces {
    /// The trace of each finding, by its number.
    pub shown: Items<FindingTrace>,
    pub groups: Items<Group>,
}

/// The fact of a situation that breaks the rule of a finding. A call that isn't legal at its place is wrong in every situation.
fn offence(finding: &Finding, situation: &Situation) -> Option<Fact>
    ensures { result ≡ spec.offence finding.now situation.now }
{
    match (finding.rule, finding.subject) {
        (Rule::R07, _) => fact_about(finding.subject, situation),
        (_, Subject::Call) => None,
        _ => fact_about(finding.subject, situation),
    }
}

/// The origin of that fact at the end of a path.
fn origin_at_end(
    alloc: Global,
    graph: &Graph,
    finding: &Finding,
    way: &Way,
) -> Result<Option<Origin>, AllocError>
    ensures { IfOk result (λ o. o ≡ spec.origin_on_way graph.now finding.now way.now) }
{
    match offence(finding, &way.end.situation) {
        Some(fact) => origin_on(
            alloc,
            graph,
            finding.callback,
            fact,
            way.steps.as_slice(),
            way.end.point,
        ),
        None => Ok(None),
    }
}

/// Whether this is the fact that a lock is held.
fn is_held_lock(fact: Option<Fact>) -> bool
    ensures { result ≡ spec.is_held_lock fact }
{
    matches!(fact, Some(Fact::Lock(_, true)))
}

/// Of the paths to a finding, the one that shows its origin: if two meet with different locks, the one on which the lock is held.
fn telling_way<'a>(finding: &Finding, found: &'a Ways) -> &'a Way
    ensures { result.now ≡ spec.telling_way finding.now found.now.way found.now.other }
{
    match &found.other {
        Some(other) => {
            if is_held_lock(offence(finding, &found.way.end.situation)) {
                &found.way
            } else {
                other
            }
        }
        None => &found.way,
    }
}

/// The origin that the paths to a finding show.
fn origin_of(
    alloc: Global,
    graph: &Graph,
    finding: &Finding,
    found: &Ways,
) -> Result<Option<Origin>, AllocError>
    ensures { IfOk result (λ o. o ≡ spec.origin_on_ways graph.now finding.now found.now) }
{
    origin_at_end(alloc, graph, finding, telling_way(finding, found))
}

/// The fact that a variable has a status, if the subject is a variable.
fn has(subject: Subject, status: VariableStatus) -> Option<Fact>
    ensures { result ≡ spec.status_fact subject status }
{
    match subject {
        Subject::Context(variable) => Some(Fact::Context(variable, status)),
        Subject::Operation(variable) => Some(Fact::Operation(variable, status)),
        _ => None,
    }
}

/// The fact that a lock is held, if the subject is a lock.
fn is_held(subject: Subject) -> Option<Fact>
    ensures { result ≡ spec.lock_fact subject }
{
    match subject {
        Subject::Lock(lock) => Some(Fact::Lock(lock, true)),
        _ => None,
    }
}

/// The fact that may break a rule, whatever the situation.
fn offence_of(rule: Rule, subject: Subject) -> Option<Fact>
    ensures { result ≡ spec.offence_of rule subject }
{
    match rule {
        Rule::R01 | Rule::R04 | Rule::R13 => has(subject, VariableStatus::Stale),
        Rule::R02 | Rule::R03 | Rule::R05 => has(subject, VariableStatus::Held),
        Rule::R10 | Rule::R11 => is_held(subject),
        _ => None,
    }
}

/// Another fact that may break it.
fn other_offence_of(rule: Rule, subject: Subject) -> Option<Fact>
    ensures { result ≡ spec.other_offence_of rule subject }
{
    match rule {
        Rule::R01 | Rule::R04 | Rule::R13 => has(subject, VariableStatus::Null),
        _ => None,
    }
}

/// A possible origin of a fact, by the graph alone.
fn origin_by_graph(
    alloc: Global,
    graph: &Graph,
    finding: &Finding,
    fact: Option<Fact>,
) -> Result<Option<Origin>, AllocError>
    ensures { IfOk result (spec.IsByGraph graph.now finding.now fact) }
{
    match fact {
        Some(fact) => origin_at(alloc, graph, finding.callback, fact, finding.point),
        None => Ok(None),
    }
}

/// A possible origin of the fact that breaks the rule, by the graph alone.
fn origin_without_way(
    alloc: Global,
    graph: &Graph,
    finding: &Finding,
) -> Result<Option<Origin>, AllocError>
    ensures { IfOk result (spec.IsWithoutWay graph.now finding.now) }
{
    let fact = offence_of(finding.rule, finding.subject);
    match origin_by_graph(alloc, graph, finding, fact)? {
        Some(origin) => Ok(Some(origin)),
        None => {
            let other = other_offence_of(finding.rule, finding.subject);
            origin_by_graph(alloc, graph, finding, other)
        }
    }
}

/// The origin of a finding's fact, by the answer of the search.
fn origin_by(
    alloc: Global,
    graph: &Graph,
    finding: &Finding,
    answer: &Answer,
) -> Result<Option<Origin>, AllocError>
    ensures { IfOk result (spec.IsOriginBy graph.now finding.now answer.now) }
{
    match answer {
        Answer::Clean(found) | Answer::Behind(found) => origin_of(alloc, graph, finding, found),
        Answer::Unreached | Answer::Unknown => origin_without_way(alloc, graph, finding),
    }
}

/// The trace of a finding, by the answer of the search.
fn shown_by(
    alloc: Global,
    graph: &Graph,
    finding: &Finding,
    answer: Answer,
) -> Result<FindingTrace, AllocError>
    requires { IsAnswer graph.now finding.now answer }
    ensures { IfOk result (spec.IsShown graph.now finding.now) }
{
    let origin = origin_by(alloc, graph, finding, &answer)?;
    Ok(FindingTrace { answer, origin })
}

/// The finding of a number that is there.
#[tactic(auto, using(crate::proofs::MoreShown::found_there))]
fn finding_at(found: &[Finding], number: usize) -> &Finding
    requires { number < length found.now }
    ensures { slice_get found.now number ≡ Some result.now }
{
    &found[number]
}

/// The trace of each finding of a text.
fn trace_all(
    alloc: Global,
    graph: &Graph,
    found: &[Finding],
) -> Result<Items<FindingTrace>, AllocError>
    ensures { IfOk result (AllZip (spec.IsShown graph.now) found.now) }
{
    let mut answers = ways(alloc, graph, found)?;
    let mut all = Vec::new(alloc);
    while let Some(answer) = answers.pop() {
        let number = answers.len();
        let finding = finding_at(found, number);
        all.push(shown_by(alloc, graph, finding, answer)?)?;
    }
    all.reverse();
    Ok(Items::from_vec(all))
}

/// The cause of the fact of a trace's origin.
fn cause(shown: Option<&FindingTrace>) -> Option<Cause>
    ensures { result ≡ cause_of (option_copied shown.entry) }
{
    match &shown?.origin {
        Some(origin) => Some(origin.cause),
        None => None,
    }
}

/// The findings of a text with their causes, in groups of one origin.
fn grouped(
    alloc: Global,
    found: &[Finding],
    shown: &Items<FindingTrace>,
) -> Result<Items<Group>, AllocError>
    ensures { IfOk result (λ all. all ≡ groups_of (spec.traced_from 0 found.now shown.now)) }
{
    let mut all = Items::new(alloc);
    let mut number: usize = 0;
    for finding in found {
        all.push(TracedFinding {
            number,
            finding: *finding,
            cause: cause(shown.get(number)),
        })?;
        number = number.saturating_add(1);
    }
    groups(alloc, all.as_slice())
}

impl Traces {
    /// The traces of the findings of a text, with groups of one origin.
    pub fn of(alloc: Global, graph: &Graph, found: &[Finding]) -> Result<Traces, AllocError>
        ensures { IfOk result (spec.AreTraces graph.now found.now) }
    {
        let shown = trace_all(alloc, graph, found)?;
        let groups = grouped(alloc, found, &shown)?;
        Ok(Traces { shown, groups })
    }

    /// The trace of the finding of a number.
    fn shown_at(&self, number: usize) -> Option<&FindingTrace>
        ensures { option_copied result ≡ slice_get self.now.shown number }
    {
        self.shown.get(number)
    }

    /// The trace of a finding.
    pub fn shown(&self, traced: &TracedFinding) -> Option<&FindingTrace>
        ensures { option_copied result ≡ slice_get self.now.shown traced.now.number }
    {
        self.shown_at(traced.number)
    }

    /// Whether each path to a finding that was found breaks another rule before.
    pub fn is_behind(&self, traced: &TracedFinding) -> bool
        ensures { result ≡ spec.is_behind (slice_get self.now.shown traced.now.number) }
    {
        match self.shown(traced) {
            Some(shown) => matches!(shown.answer, Answer::Behind(_)),
            None => false,
        }
    }
}
