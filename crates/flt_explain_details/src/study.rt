//! The details of a finding for other forms of reports: its words and its places.

ghost use Rattle.std.specs.Prelude.{◌≡◌, ◌<◌, Some, length, option_copied, slice_get, IfOk};
ghost use Rattle.flt_explain_advice.specs.Branches.{step_outcome};
ghost use Rattle.flt_explain_details.specs.Stages as spec;
ghost use Rattle.flt_explain_origins.specs.Trace.{cause_of};

use crate::alike::{firsts_of, like};
use flt_explain::{Finding, Subject};
use flt_explain_advice::{Words, state_at_end, step_outcome, tell_branch, words_of};
use flt_explain_origins::{Answer, Cause, FindingTrace, Step, Way};
use flt_explain_texts::{Marks, Page, Scene, Source};
use flt_explain_ways::Traces;
use flt_graph::Graph;
use flt_places::Lines;
use flt_syntax::Tree;
use flt_tree::Position;
use sqlite_items::Items;
use std::alloc::{AllocError, Global};

/// A point on a path, and its outcome. Points count from 0.
#[derive(Drop)]
pub struct Stage {
    pub point: usize,
    /// Where its statement begins; of an `if` its condition.
    pub place: Position,
    /// The call succeeds, the test holds, or a turn is left. It is true if nothing is asked.
    pub granted: bool,
    /// The text of the point, and its outcome; empty if nothing is asked.
    pub words: Vec<u8>,
}

/// The kind of a path to a finding.
#[derive(Clone, Copy)]
pub enum WayKind {
    /// No rule is broken before.
    Clean,
    /// Other rules are broken before.
    Behind,
    /// There is no path.
    Unreached,
    /// No path was found among the situations that were looked at.
    Unknown,
}

/// The step that caused a finding.
#[derive(Drop)]
pub struct Maker {
    pub stage: Stage,
    /// The place of its statement, and of the finding's subject in it.
    pub marks: Marks,
}

/// How a finding is reached.
#[derive(Drop)]
pub struct Route {
    pub kind: WayKind,
    /// The number, from 0, of an earlier finding of the same origin whose path is reported: it serves here too, and none is reported here.
    pub like: Option<usize>,
    /// A path there, from the callback's entry.
    pub stages: Items<Stage>,
    /// If two paths meet with different locks, the other of them.
    pub other: Option<Items<Stage>>,
    /// The step that caused it, if one is known; none if its cause is the callback's entry.
    pub origin: Option<Maker>,
    /// The state of the subject at the end of the path, in a word, if there is a word for it.
    pub state: Option<&'static str>,
}

/// The details of a finding that every form reports.
#[derive(Drop)]
pub struct Detail {
    pub finding: Finding,
    /// The place of its point's statement, and of its subject in it.
    pub marks: Marks,
    pub words: Words,
    pub route: Route,
}

// ---- ways

/// The text of a point, and its outcome; empty if nothing is asked.
fn branch_of(
    alloc: Global,
    scene: &Scene<'_>,
    callback: usize,
    step: Step,
) -> Result<Vec<u8>, AllocError>
    ensures { IfOk result (λ words. words.items ≡
        spec.branch_words scene.now.lines.now scene.now.graph.now callback step.point (step_outcome scene.now.graph.now callback step)) }
{
    let mut page = Page::new(alloc);
    if let Some(outcome) = step_outcome(scene, callback, step) {
        tell_branch(&mut page, scene, callback, step.point, outcome)?;
    }
    Ok(page.out)
}

fn stage_of(
    alloc: Global,
    scene: &Scene<'_>,
    callback: usize,
    step: Step,
) -> Result<Stage, AllocError>
    ensures { IfOk result (spec.IsStage scene.now.lines.now scene.now.graph.now callback step) }
{
    Ok(Stage {
        point: step.point,
        place: scene.place(callback, step.point),
        granted: step.granted,
        words: branch_of(alloc, scene, callback, step)?,
    })
}

fn stages(
    alloc: Global,
    scene: &Scene<'_>,
    callback: usize,
    steps: &[Step],
) -> Result<Items<Stage>, AllocError>
    ensures { IfOk result (spec.AreStages scene.now.lines.now scene.now.graph.now callback steps.now) }
{
    let mut all = Items::new(alloc);
    for step in steps {
        all.push(stage_of(alloc, scene, callback, *step)?)?;
    }
    Ok(all)
}

fn kind_of(answer: &Answer) -> WayKind
    ensures { result ≡ spec.kind_of answer.now }
{
    match answer {
        Answer::Clean(_) => WayKind::Clean,
        Answer::Behind(_) => WayKind::Behind,
        Answer::Unreached => WayKind::Unreached,
        Answer::Unknown => WayKind::Unknown,
    }
}

/// The stages of a path; none without a path.
fn stages_on(
    alloc: Global,
    scene: &Scene<'_>,
    callback: usize,
    way: Option<&Way>,
) -> Result<Items<Stage>, AllocError>
    ensures { IfOk result (spec.AreStagesOn scene.now.lines.now scene.now.graph.now callback (option_copied way.entry)) }
{
    match way {
        Some(way) => stages(alloc, scene, callback, way.steps.as_slice()),
        None => Ok(Items::new(alloc)),
    }
}

/// The stages of another path, if there is one.
fn other_stages(
    alloc: Global,
    scene: &Scene<'_>,
    callback: usize,
    way: Option<&Way>,
) -> Result<Option<Items<Stage>>, AllocError>
    ensures { IfOk result (spec.AreOtherStages scene.now.lines.now scene.now.graph.now callback (option_copied way.entry)) }
{
    match way {
        Some(way) => Ok(Some(stages(alloc, scene, callback, way.steps.as_slice())?)),
        None => Ok(None),
    }
}

/// A step that caused a finding about this subject.
fn maker_of(
    alloc: Global,
    scene: &Scene<'_>,
    callback: usize,
    subject: Subject,
    step: Step,
) -> Result<Maker, AllocError>
    ensures { IfOk result (spec.IsMaker scene.now.lines.now scene.now.tree.now.filter scene.now.graph.now callback subject step) }
{
    let stage = stage_of(alloc, scene, callback, step)?;
    let marks = scene.marks(alloc, callback, step.point, subject)?;
    Ok(Maker { stage, marks })
}

/// The step that caused a finding, if one is known.
fn origin_of(
    alloc: Global,
    scene: &Scene<'_>,
    callback: usize,
    subject: Subject,
    shown: &FindingTrace,
) -> Result<Option<Maker>, AllocError>
    ensures { IfOk result
        (spec.IsMadeBy scene.now.lines.now scene.now.tree.now.filter scene.now.graph.now callback subject
        (cause_of (Some shown.now))) }
{
    let Some(origin) = shown.origin.as_ref() else {
        return Ok(None);
    };
    match origin.cause {
        Cause::Made(step) => Ok(Some(maker_of(alloc, scene, callback, subject, step)?)),
        Cause::Entry => Ok(None),
    }
}

// ---- findings

/// The stages of the path to a finding, and of the other path if it has two; none if another finding's serve.
fn shown_stages(
    alloc: Global,
    scene: &Scene<'_>,
    callback: usize,
    shown: &FindingTrace,
    like: Option<usize>,
) -> Result<(Items<Stage>, Option<Items<Stage>>), AllocError>
    ensures { IfOk result (λ all.
        spec.AreShownStages scene.now.lines.now scene.now.graph.now callback shown.now.answer like all.0 all.1) }
{
    if like.is_some() {
        return Ok((Items::new(alloc), None));
    }
    let (way, other) = shown.ways();
    let stages = stages_on(alloc, scene, callback, way)?;
    let other = other_stages(alloc, scene, callback, other)?;
    Ok((stages, other))
}

/// How a finding is reached, by its trace; `like` is the finding whose path serves, if there is one.
fn route_by(
    alloc: Global,
    scene: &Scene<'_>,
    finding: &Finding,
    shown: &FindingTrace,
    like: Option<usize>,
) -> Result<Route, AllocError>
    ensures route { IfOk result
        (spec.IsRoute scene.now.lines.now scene.now.tree.now.filter scene.now.graph.now finding.now shown.now) }
    ensures like { IfOk result (λ r. r.like ≡ like) }
{
    let (stages, other) = shown_stages(alloc, scene, finding.callback, shown, like)?;
    let origin = origin_of(alloc, scene, finding.callback, finding.subject, shown)?;
    let (way, _) = shown.ways();
    Ok(Route {
        kind: kind_of(&shown.answer),
        like,
        stages,
        other,
        origin,
        state: state_at_end(finding, way),
    })
}

/// The details of a finding, by its trace; `like` is the finding whose path serves, if there is one.
fn detail_by(
    alloc: Global,
    scene: &Scene<'_>,
    finding: &Finding,
    shown: &FindingTrace,
    like: Option<usize>,
) -> Result<Detail, AllocError>
    ensures detail { IfOk result (spec.IsDetail scene.now.files scene.now.lines.now scene.now.tree.now.filter scene.now.graph.now
        finding.now shown.now) }
    ensures like { IfOk result (λ d. d.route.like ≡ like) }
{
    let words = words_of(alloc, scene, finding, Some(shown))?;
    let route = route_by(alloc, scene, finding, shown, like)?;
    let marks = scene.marks(alloc, finding.callback, finding.point, finding.subject)?;
    Ok(Detail {
        finding: *finding,
        marks,
        words,
        route,
    })
}

/// The trace of the finding of a number that is there.
#[tactic(auto, using(std::proofs::lemmas::Option::slice_get_read))]
fn trace_at(traces: &Traces, number: usize) -> &FindingTrace
    requires { number < length traces.now.shown }
    ensures { slice_get traces.now.shown number ≡ Some result.now }
{
    &traces.shown.as_slice()[number]
}

/// The details of each finding of a text that parses, in their order. The paths of the first one of each origin serve the others.
///
/// # Errors
///
/// `AllocError` if a growth is refused.
pub fn details(
    alloc: Global,
    source: Source<'_>,
    tree: &Tree,
    graph: &Graph,
    found: &[Finding],
) -> Result<Items<Detail>, AllocError>
    ensures { IfOk result (spec.AreDetails source.entry.files source.entry.text.now tree.now.filter graph.now found.now) }
{
    let lines = Lines::of(alloc, source.text)?;
    let scene = Scene {
        lines: &lines,
        files: source.files,
        tree,
        graph,
    };
    let traces = Traces::of(alloc, graph, found)?;
    let firsts = firsts_of(alloc, traces.groups.as_slice(), found.len())?;
    let mut all = Items::new(alloc);
    for finding in found {
        let number = all.len();
        let like = like(found, firsts.as_slice(), number);
        let shown = trace_at(&traces, number);
        all.push(detail_by(alloc, &scene, finding, shown, like)?)?;
    }
    Ok(all)
}
