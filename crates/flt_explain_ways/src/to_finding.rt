//! Paths that show a finding, checked by walking them.

ghost use Rattle.std.specs.List.{AllZip};
ghost use Rattle.std.specs.Prelude.{◌≡◌, map, IfOk, IfSome, IsTrue};
ghost use Rattle.flt_explain_ways.specs.NoWay.{is_checked};
ghost use Rattle.flt_explain_ways.specs.Told as told;
ghost use Rattle.flt_explain_origins.specs.Ways as spec;

use crate::choices::Path;
use crate::cover::{Cover, checked, is_ruled_out};
use crate::ends::{end_of, is_last};
use crate::faults::{are_apart, is_found_in};
use crate::seeking::seek_all;
use crate::sought::{Found, Outcomes, SearchResults};
use flt_explain::Finding;
use flt_explain_origins::{Answer, Moment, Way, Ways};
use flt_graph::Graph;
use sqlite_items::Items;
use std::alloc::{AllocError, Global};

/// The `Way` of a path, if it can be walked.
fn walked(alloc: Global, graph: &Graph, callback: usize, clean: bool, path: Path) -> Option<Way>
    ensures { IfSome result (spec.IsWay graph.now callback clean) }
{
    let Path { start, steps } = path;
    if !start.is_entry(alloc, graph.place(callback)) {
        return None;
    }
    let from = Moment {
        point: 0,
        situation: start.copied()?,
    };
    let end = end_of(graph, callback, clean, from, steps.as_slice())?;
    Some(Way { start, steps, end })
}

/// The `Way` of a path, if it shows the finding.
fn shown(
    alloc: Global,
    graph: &Graph,
    finding: &Finding,
    clean: bool,
    path: Path,
) -> Result<Option<Ways>, AllocError>
    ensures { IfOk result (λ found. IfSome found (told.Show graph.now finding.now clean)) }
{
    let Some(way) = walked(alloc, graph, finding.callback, clean, path) else {
        return Ok(None);
    };
    if way.end.point != finding.point || !is_found_in(alloc, graph, finding, &way.end.situation)? {
        return Ok(None);
    }
    Ok(Some(Ways { way, other: None }))
}

/// Whether two paths meet as the finding says.
fn do_meet(finding: &Finding, way: &Way, other: &Way) -> bool
    ensures from { IsTrue result → IsTrue (spec.is_last way.now.steps finding.now.point) }
    ensures there { IsTrue result → way.now.end.point ≡ other.now.end.point }
    ensures apart { IsTrue result → IsTrue (spec.are_apart finding.now.subject way.now.end.situation other.now.end.situation) }
{
    way.end.point == other.end.point
        && is_last(way.steps.as_slice(), finding.point)
        && are_apart(finding.subject, &way.end.situation, &other.end.situation)
}

/// The `Way`s of two paths, if they meet as the finding says.
fn met(
    alloc: Global,
    graph: &Graph,
    finding: &Finding,
    clean: bool,
    path: Path,
    other: Path,
) -> Option<Ways>
    ensures { IfSome result (told.Show graph.now finding.now clean) }
{
    let way = walked(alloc, graph, finding.callback, clean, path)?;
    let other = walked(alloc, graph, finding.callback, clean, other)?;
    if do_meet(finding, &way, &other) {
        Some(Ways {
            way,
            other: Some(other),
        })
    } else {
        None
    }
}

/// The paths that were found, if a check confirms them.
fn confirmed(
    alloc: Global,
    graph: &Graph,
    finding: &Finding,
    clean: bool,
    found: Found,
) -> Result<Option<Ways>, AllocError>
    ensures { IfOk result (λ ways. IfSome ways (told.Show graph.now finding.now clean)) }
{
    match found {
        Found::One(path) => shown(alloc, graph, finding, clean, path),
        Found::Two(path, other) => Ok(met(alloc, graph, finding, clean, path, other)),
    }
}

/// The answer for a finding if all that its searches reached is in the cover of a number.
fn without_way(
    graph: &Graph,
    finding: &Finding,
    covers: &[Cover],
    closed: &[bool],
    number: usize,
) -> Answer
    requires { closed.now ≡ map (is_checked graph.now) covers.now }
    ensures { told.IsAnswer graph.now finding.now result }
{
    if is_ruled_out(graph, finding, covers, closed, number) {
        Answer::Unreached
    } else {
        Answer::Unknown
    }
}

/// The answer for a finding, by the result of its searches.
fn answer(
    alloc: Global,
    graph: &Graph,
    finding: &Finding,
    sought: SearchResults,
    covers: &[Cover],
    closed: &[bool],
) -> Result<Answer, AllocError>
    requires { closed.now ≡ map (is_checked graph.now) covers.now }
    ensures { IfOk result (told.IsAnswer graph.now finding.now) }
{
    match sought {
        SearchResults::Clean(found) => match confirmed(alloc, graph, finding, true, found)? {
            Some(ways) => Ok(Answer::Clean(ways)),
            None => Ok(Answer::Unknown),
        },
        SearchResults::Behind(found) => match confirmed(alloc, graph, finding, false, found)? {
            Some(ways) => Ok(Answer::Behind(ways)),
            None => Ok(Answer::Unknown),
        },
        SearchResults::Nothing(number) => Ok(without_way(graph, finding, covers, closed, number)),
        SearchResults::Unknown => Ok(Answer::Unknown),
    }
}

/// Takes the result of the searches for the finding of a number.
fn taken_from(sought: &mut Vec<Option<SearchResults>>, number: usize) -> SearchResults {
    match sought.get_mut(number) {
        Some(place) => place.take().unwrap_or(SearchResults::Unknown),
        None => SearchResults::Unknown,
    }
}

/// The answer for each finding of a text, in their order: a path to its point, or, if paths meet with different locks, two to the point
/// where they meet, the first of which comes from the finding's point. Numbers aren't followed, so a test of them may have either outcome;
/// nor are the turns that a `repeat` has left. If the answer is `Unreached`, there is no path; no clause says that a path is found if there
/// is one, nor that it is a shortest one.
///
/// # Errors
///
/// `AllocError` if a growth is refused.
pub fn ways(alloc: Global, graph: &Graph, found: &[Finding]) -> Result<Items<Answer>, AllocError>
    ensures { IfOk result (AllZip (told.IsAnswer graph.now) found.now) }
{
    let Outcomes { mut sought, covers } = seek_all(alloc, graph, found)?;
    let covers = covers.as_slice();
    let closed = checked(alloc, graph, covers)?;
    let closed = closed.as_slice();
    let mut all = Items::new(alloc);
    for finding in found {
        let came = taken_from(&mut sought, all.len());
        all.push(answer(alloc, graph, finding, came, covers, closed)?)?;
    }
    Ok(all)
}
