//! Sets of states that rule out paths: the search writes down all that it reached, and the proof here is about these sets alone.

ghost use Rattle.std.specs.Prelude.{◌≡◌, map, slice_get, IfOk, IsTrue};
ghost use Rattle.std.specs.List.{list_all};
ghost use Rattle.flt_explain_ways.specs.NoWay as spec;

use crate::faults::are_lists_apart;
use flt_abs::{
    Abs, Successor, Successors, breaks_rule, breaks_rule_is_monotone, leads_past,
    leads_past_follows_situations,
};
use flt_explain::{Finding, Subject, is_about};
use flt_explain_closed::{Member, closed_sets_are_closed, is_closed};
use flt_graph::Graph;
use flt_rules::Rule;
use sqlite_items::Items;
use std::alloc::{AllocError, Global};

/// All that a search reached in a callback, with or without the locks that are held.
#[derive(Drop)]
pub(crate) struct Cover {
    pub(crate) callback: usize,
    pub(crate) locks: bool,
    pub(crate) members: Items<Member>,
}

/// For each cover, whether no step leads out of it.
pub(crate) fn checked(
    alloc: Global,
    graph: &Graph,
    covers: &[Cover],
) -> Result<Items<bool>, AllocError>
    ensures { IfOk result (λ bs. bs ≡ map (spec.is_checked graph.now) covers.now) }
{
    let mut all = Items::new(alloc);
    for cover in covers {
        let is_kept = is_closed(graph, cover.callback, cover.locks, cover.members.as_slice());
        all.push(is_kept)?;
    }
    Ok(all)
}

/// Whether this is the call or the status itself.
fn is_itself(subject: Subject) -> bool
    ensures { result ≡ spec.is_itself subject }
{
    matches!(subject, Subject::Call | Subject::Status)
}

/// Whether a rule reads the locks that are held.
fn reads_locks(rule: Rule) -> bool
    ensures { result ≡ spec.reads_locks rule }
{
    matches!(rule, Rule::R07 | Rule::R09 | Rule::R10 | Rule::R11)
}

/// Whether the finding's point may break its rule in a state because of its subject.
fn may_break(graph: &Graph, finding: &Finding, state: &Abs) -> bool
    ensures { result ≡ spec.may_break graph.now finding.now state.now }
{
    let Finding {
        callback,
        point,
        rule,
        subject,
        ..
    } = *finding;
    let instruction = graph.instruction_ref(callback, point);
    breaks_rule(graph, callback, point, state, rule)
        && (is_itself(subject)
            || is_about(graph.place(callback), state, instruction, rule, subject))
}

/// Whether a state of the cover isn't one in which the finding holds.
fn is_free(graph: &Graph, finding: &Finding, member: &Member) -> bool
    ensures { result ≡ spec.is_free graph.now finding.now member.now }
{
    if member.point != finding.point {
        return true;
    }
    let _sets = member.state.contexts();
    !may_break(graph, finding, &member.state)
}

/// Whether a state of the cover is at another point than `next`, or their lock lists aren't apart.
fn is_with(subject: Subject, next: &Successor, member: &Member) -> bool
    ensures { result ≡ spec.is_with subject next.now member.now }
{
    member.point != next.point
        || !are_lists_apart(subject, next.state.locks(), member.state.locks())
}

/// Whether none of these states is at the point of `next` with a lock list apart from its own.
fn are_with(subject: Subject, next: &Successor, these: &[Member]) -> bool
    ensures { result ≡ list_all (spec.is_with subject next.now) these.now }
{
    these.iter().all(|member| is_with(subject, next, member))
}

/// Whether a successor, if there is one, meets no state of the cover with a lock list apart from its own.
fn meets_none(subject: Subject, members: &[Member], next: &Option<Successor>) -> bool
    ensures { result ≡ spec.meets_none subject members.now next.now }
{
    match next {
        Some(next) => are_with(subject, next, members),
        None => true,
    }
}

/// Whether the successors of a state, if it is at the finding's point, meet no state of the cover with a lock list apart from their own.
fn is_alone(graph: &Graph, finding: &Finding, members: &[Member], member: &Member) -> bool
    ensures { result ≡ spec.is_alone graph.now finding.now members.now member.now }
{
    if member.point != finding.point {
        return true;
    }
    let Successors { first, second } = leads_past(
        graph,
        finding.callback,
        finding.point,
        &member.state,
    );
    meets_none(finding.subject, members, &first) && meets_none(finding.subject, members, &second)
}

/// Whether none of these states is one in which the finding holds.
fn are_free(graph: &Graph, finding: &Finding, these: &[Member]) -> bool
    ensures { result ≡ list_all (spec.is_free graph.now finding.now) these.now }
{
    these.iter().all(|member| is_free(graph, finding, member))
}

/// Whether the successors of these states, if they are at the finding's point, meet no state of the cover with a lock list apart from their
/// own.
fn are_alone(graph: &Graph, finding: &Finding, members: &[Member], these: &[Member]) -> bool
    ensures { result ≡ list_all (spec.is_alone graph.now finding.now members.now) these.now }
{
    these
        .iter()
        .all(|member| is_alone(graph, finding, members, member))
}

/// Whether a cover, if no step leads out of it, rules out each path.
fn rules_out(graph: &Graph, finding: &Finding, cover: &Cover) -> bool
    ensures { result ≡ spec.rules_out finding.now.rule graph.now finding.now cover.now }
{
    let members = cover.members.as_slice();
    match finding.rule {
        Rule::R12 => cover.locks && are_alone(graph, finding, members, members),
        rule => (cover.locks || !reads_locks(rule)) && are_free(graph, finding, members),
    }
}

/// Whether the cover of a number is of the finding's callback, no step leads out of it, and it rules out each path.
fn has_ruled_out(
    graph: &Graph,
    finding: &Finding,
    covers: &[Cover],
    closed: &[bool],
    number: usize,
) -> bool
    ensures { result ≡ spec.is_ruled_out graph.now finding.now (slice_get covers.now number) (slice_get closed.now number) }
{
    match (covers.get(number), closed.get(number)) {
        (Some(cover), Some(true)) => {
            cover.callback == finding.callback && rules_out(graph, finding, cover)
        }
        _ => false,
    }
}

/// Whether the cover of a number rules out each path; `closed` says of each cover whether no step leads out of it.
pub(crate) fn is_ruled_out(
    graph: &Graph,
    finding: &Finding,
    covers: &[Cover],
    closed: &[bool],
    number: usize,
) -> bool
    requires { closed.now ≡ map (spec.is_checked graph.now) covers.now }
    ensures { IsTrue result → spec.NoWay graph.now finding.now }
{
    leads_past_follows_situations();
    breaks_rule_is_monotone();
    closed_sets_are_closed();
    has_ruled_out(graph, finding, covers, closed, number)
}
