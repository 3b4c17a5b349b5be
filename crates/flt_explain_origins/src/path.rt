//! The possible origin of a fact by the graph alone, if no path is known: a search of the graph for a shortest path at whose end the fact
//! holds. Each point is reached once with the fact and once without it at most, so that the search comes to an end.

ghost use Rattle.std.specs.Prelude.{◌≡◌, None, IfOk, IfSome, replicate, reverse};
ghost use Rattle.flt_explain_origins.specs.Origins as origins;
ghost use Rattle.flt_explain_origins.specs.Search as spec;

use crate::answer::Step;
use crate::entered::may_be_at_entry;
use crate::facts::{Fact, keeps, makes};
use crate::origin::{Cause, Origin, is_made_by, next};
use flt_graph::{Graph, Instruction};
use sqlite_items::Items;
use std::alloc::{AllocError, Global};

/// Whether a point is reached: without the fact, and with it.
#[derive(Clone, Copy)]
struct Mark {
    absent: bool,
    present: bool,
}

/// A point that is reached, whether the fact holds there, and the step that leads there, from the point of a number.
#[derive(Clone, Copy)]
struct ReachedPoint {
    point: usize,
    is_so: bool,
    arrival: Option<(usize, Step)>,
}

/// Whether an instruction may have this outcome in some situation.
fn may_come_out(instruction: &Instruction, granted: bool) -> bool
    ensures { result ≡ origins.is_outcome instruction.now granted }
{
    match instruction {
        Instruction::Act(_, _) => granted,
        Instruction::Call(call, _, _) => granted || call.can_fail(),
        Instruction::Test(_, _, _) | Instruction::Repeat(_, _, _) => true,
        Instruction::Return(_) | Instruction::End => false,
    }
}

fn is_marked(mark: Mark, so: bool) -> bool
    ensures { result ≡ spec.is_marked mark so }
{
    if so { mark.present } else { mark.absent }
}

fn marked(mark: Mark, so: bool) -> Mark
    ensures { result ≡ spec.marked mark so }
{
    if so {
        Mark {
            present: true,
            ..mark
        }
    } else {
        Mark {
            absent: true,
            ..mark
        }
    }
}

/// Marks for so many points, none of which is reached.
fn unmarked(alloc: Global, count: usize) -> Result<Items<Mark>, AllocError>
    ensures { IfOk result (λ marks. marks ≡ replicate count spec.unmarked) }
{
    let mut marks = Items::new(alloc);
    for _point in 0..count {
        marks.push(Mark {
            absent: false,
            present: false,
        })?;
    }
    Ok(marks)
}

/// The points that are reached, in order, and for each point whether it is without the fact and with it.
#[derive(Drop)]
struct Search {
    found: Items<ReachedPoint>,
    seen: Items<Mark>,
}

impl Search {
    /// A search that has reached no point. It has a mark for each point of a callback, and for the one that is sought.
    fn none(alloc: Global, points: usize, point: usize) -> Result<Search, AllocError>
        ensures { IfOk result (spec.IsUnsearched points point) }
    {
        let mut seen = unmarked(alloc, if points < point { point } else { points })?;
        seen.push(Mark {
            absent: false,
            present: false,
        })?;
        Ok(Search {
            found: Items::new(alloc),
            seen,
        })
    }

    /// Reaches a point, with the fact or without it, unless it was reached like that before.
    fn arrive(&mut self, one: ReachedPoint) -> Result<(), AllocError>
        ensures { IfOk result (λ _. self.new ≡ spec.arrived self.old one) }
    {
        let Some(mark) = self.seen.get(one.point) else {
            return Ok(());
        };
        let mark = *mark;
        if is_marked(mark, one.is_so) {
            return Ok(());
        }
        self.found.push(one)?;
        self.seen.set(one.point, marked(mark, one.is_so));
        Ok(())
    }

    /// Reaches the entry, with the fact if it may hold there, and without it.
    fn enter(&mut self, so: bool) -> Result<(), AllocError>
        ensures { IfOk result (λ _. self.new ≡ spec.entered so self.old) }
    {
        if so {
            self.arrive(ReachedPoint {
                point: 0,
                is_so: true,
                arrival: None,
            })?;
        }
        self.arrive(ReachedPoint {
            point: 0,
            is_so: false,
            arrival: None,
        })
    }
}

/// Whether a fact may hold after a step.
fn may_be_after(graph: &Graph, callback: usize, fact: Fact, from: ReachedPoint, step: Step) -> bool
    ensures { result ≡ spec.may_be_after graph.now callback fact from step }
{
    let instruction = graph.instruction_ref(callback, step.point);
    makes(instruction, step.granted, step.gives, fact)
        || (from.is_so && keeps(instruction, step.granted, fact))
}

/// Reaches the point to which a step from the point of a number leads.
fn take(
    graph: &Graph,
    callback: usize,
    fact: Fact,
    search: &mut Search,
    number: usize,
    from: ReachedPoint,
    step: Step,
) -> Result<(), AllocError>
    ensures { IfOk result (λ _. search.new ≡ spec.taken graph.now callback fact number from step search.old) }
{
    let instruction = graph.instruction_ref(callback, step.point);
    let Some(point) = next(instruction, step.granted) else {
        return Ok(());
    };
    if !may_come_out(instruction, step.granted) {
        return Ok(());
    }
    let arrival = Some((number, step));
    if may_be_after(graph, callback, fact, from, step) {
        search.arrive(ReachedPoint {
            point,
            is_so: true,
            arrival,
        })?;
    }
    search.arrive(ReachedPoint {
        point,
        is_so: false,
        arrival,
    })
}

fn step(point: usize, granted: bool, gives: bool) -> Step
    ensures { result ≡ spec.step point granted gives }
{
    Step {
        point,
        granted,
        gives,
    }
}

/// Reaches the points that follow the point of a number.
fn go_on(
    graph: &Graph,
    callback: usize,
    fact: Fact,
    search: &mut Search,
    number: usize,
    from: ReachedPoint,
) -> Result<(), AllocError>
    ensures { IfOk result (λ _. search.new ≡ spec.gone_on graph.now callback fact number from search.old) }
{
    let point = from.point;
    take(
        graph,
        callback,
        fact,
        search,
        number,
        from,
        step(point, true, true),
    )?;
    take(
        graph,
        callback,
        fact,
        search,
        number,
        from,
        step(point, true, false),
    )?;
    take(
        graph,
        callback,
        fact,
        search,
        number,
        from,
        step(point, false, true),
    )?;
    take(
        graph,
        callback,
        fact,
        search,
        number,
        from,
        step(point, false, false),
    )
}

/// A search for a point that has only reached the entry of the callback.
fn entered(
    alloc: Global,
    graph: &Graph,
    callback: usize,
    fact: Fact,
    point: usize,
) -> Result<Search, AllocError>
    ensures { IfOk result (λ search. spec.IsSearched graph.now callback fact point search 0) }
{
    let mut search = Search::none(alloc, graph.points(callback), point)?;
    search.enter(may_be_at_entry(alloc, graph.place(callback), fact))?;
    Ok(search)
}

/// Whether this is the point that is sought, with the fact.
fn is_sought(one: ReachedPoint, point: usize) -> bool
    ensures { result ≡ spec.is_sought one point }
{
    one.point == point && one.is_so
}

/// Follows each point that is reached, in order, until it is the one that is sought, with the fact; returns its number.
fn reach(
    graph: &Graph,
    callback: usize,
    fact: Fact,
    point: usize,
    search: &mut Search,
) -> Result<Option<usize>, AllocError>
    requires { spec.IsSearched graph.now callback fact point search.old 0 }
    ensures found { IfOk result (λ n. IfSome n (spec.IsFound graph.now callback fact point search.new)) }
    ensures none { IfOk result (λ n. n ≡ None → origins.HasNoneAt graph.now callback fact point) }
{
    let mut number: usize = 0;
    while number < search.found.len() {
        let Some(from) = search.found.get(number) else {
            return Ok(None);
        };
        let from = *from;
        if is_sought(from, point) {
            return Ok(Some(number));
        }
        go_on(graph, callback, fact, search, number, from)?;
        number += 1;
    }
    Ok(None)
}

/// An origin, by its cause and the steps since, the last one first.
fn origin_back(fact: Fact, cause: Cause, later: Vec<Step>) -> Origin
    ensures { result ≡ origins.origin fact cause (reverse later.items) }
{
    let mut later = later;
    later.reverse();
    Origin {
        fact,
        cause,
        later: Items::from_vec(later),
    }
}

/// The origin of a fact that holds at the point of a number, by the steps that led there.
fn traced(
    alloc: Global,
    graph: &Graph,
    callback: usize,
    fact: Fact,
    found: &Items<ReachedPoint>,
    number: usize,
) -> Result<Origin, AllocError>
    requires { spec.AreArrivals graph.now callback fact found.now }
    ensures { IfOk result (spec.IsFollowedBack graph.now callback fact found.now number) }
{
    let mut number = number;
    let mut later = Vec::new(alloc);
    while let Some(one) = found.get(number) {
        let Some((from, step)) = one.arrival else {
            return Ok(origin_back(fact, Cause::Entry, later));
        };
        if is_made_by(graph, callback, fact, step) {
            return Ok(origin_back(fact, Cause::Made(step), later));
        }
        later.push(step)?;
        number = from;
    }
    Ok(origin_back(fact, Cause::Entry, later))
}

/// A possible origin of a fact that may hold at a point: a path of the graph leads from the callback's entry to the point, the entry or a
/// step on it makes the fact, and each step since keeps it. Whether a situation allows that path isn't checked. None if no path has such an
/// origin.
///
/// # Errors
///
/// `AllocError` if a growth is refused.
pub fn origin_at(
    alloc: Global,
    graph: &Graph,
    callback: usize,
    fact: Fact,
    point: usize,
) -> Result<Option<Origin>, AllocError>
    ensures meaning { IfOk result (λ o. IfSome o (origins.IsOrigin graph.now callback fact point)) }
    ensures path { IfOk result (λ o. IfSome o (origins.IsOnPath graph.now callback fact point)) }
    ensures none { IfOk result (λ o. o ≡ None → origins.HasNoneAt graph.now callback fact point) }
{
    let mut search = entered(alloc, graph, callback, fact, point)?;
    match reach(graph, callback, fact, point, &mut search)? {
        Some(number) => {
            let found = traced(alloc, graph, callback, fact, &search.found, number)?;
            Ok(Some(found))
        }
        None => Ok(None),
    }
}
