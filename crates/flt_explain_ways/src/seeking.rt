//! The searches for all findings of a text, callback after callback.

ghost use Rattle.std.specs.Prelude.{◌≤◌, length};

use crate::cover::Cover;
use crate::ground::Ground;
use crate::meeting::seek_meeting;
use crate::sought::{Budgets, Outcomes, SearchResults};
use crate::tasks::Tasks;
use flt_explain::Finding;
use flt_graph::Graph;
use flt_rules::Rule;
use std::alloc::{AllocError, Global};

/// A list with no result yet for each of some findings.
fn unsought(alloc: Global, found: &[Finding]) -> Result<Vec<Option<SearchResults>>, AllocError> {
    let mut sought = Vec::new(alloc);
    for _finding in found {
        sought.push(None)?;
    }
    Ok(sought)
}

/// Looks for two paths that meet, first only past points where no rule is broken, then past any.
fn seek_pair(
    alloc: Global,
    ground: &mut Ground<'_>,
    finding: &Finding,
    budgets: &mut Budgets,
    covers: &mut Vec<Cover>,
) -> Result<SearchResults, AllocError> {
    match seek_meeting(alloc, ground, finding, true, &mut budgets.text, covers)? {
        SearchResults::Nothing(_) => {
            seek_meeting(alloc, ground, finding, false, &mut budgets.text, covers)
        }
        sought => Ok(sought),
    }
}

/// Looks for the paths that show the findings of one callback, the first of which has this number.
fn seek_in(
    alloc: Global,
    graph: &Graph,
    first: usize,
    found: &[Finding],
    budgets: &mut Budgets,
    outcomes: &mut Outcomes,
) -> Result<(), AllocError> {
    let [finding, ..] = found else {
        return Ok(());
    };
    let mut ground = Ground::of(alloc, graph, finding.callback)?;
    let mut tasks = Tasks::none(alloc);
    for (at, finding) in found.iter().enumerate() {
        let number = first.saturating_add(at);
        if matches!(finding.rule, Rule::R12) {
            let pair = seek_pair(alloc, &mut ground, finding, budgets, &mut outcomes.covers)?;
            outcomes.put(number, pair);
        } else {
            tasks.push(number, *finding)?;
        }
    }
    tasks.seek_all(alloc, &mut ground, budgets, outcomes)
}

/// How many findings there are of the first one's callback before one of another.
fn run_of(found: &[Finding]) -> usize
    ensures { result ≤ length found.now }
{
    let [first, ..] = found else {
        return 0;
    };
    match found.iter().position(|f| f.callback != first.callback) {
        Some(count) => count,
        None => found.len(),
    }
}

/// Looks for the paths that show each finding of a text.
pub(crate) fn seek_all(
    alloc: Global,
    graph: &Graph,
    found: &[Finding],
) -> Result<Outcomes, AllocError> {
    let mut outcomes = Outcomes {
        sought: unsought(alloc, found)?,
        covers: Vec::new(alloc),
    };
    let mut budgets = Budgets::new();
    let mut first: usize = 0;
    let mut rest = found;
    for _run in 0..found.len() {
        let count = run_of(rest);
        let (run, later) = rest.split_at(count);
        seek_in(alloc, graph, first, run, &mut budgets, &mut outcomes)?;
        first = first.saturating_add(count);
        rest = later;
    }
    Ok(outcomes)
}
