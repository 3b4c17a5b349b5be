//! The lines of a file that show a finding, with marks: its point, its origin, and the point where paths meet.

ghost use Rattle.std.specs.Prelude.{◌≡◌, option_copied, IfOk, OnOk};
ghost use Rattle.flt_explain_origins.specs.Trace.{other_way, way_of};
ghost use Rattle.flt_explain_texts.specs.Page.{Writes};
ghost use Rattle.flt_explain_reports.specs.MarkOrder.{all_placed};
ghost use Rattle.flt_explain_reports.specs.Shown as spec;

use crate::excerpts::excerpt_of;
use crate::mark_order::{Mark, add_mark, greatest_line};
use crate::mark_words::{Sign, tell_mark};
use crate::marks::{Drawing, Stroke};
use flt_explain::Finding;
use flt_explain_origins::{Cause, FindingTrace, Origin};
use flt_explain_texts::{Page, Scene};
use std::alloc::{AllocError, Global};

// ---- which marks

/// A mark at a point.
fn mark_at(scene: &Scene<'_>, callback: usize, point: usize, sign: Sign) -> Mark<Sign>
    ensures { result ≡ spec.mark_at scene.now.lines.now scene.now.graph.now callback point sign }
{
    let site = scene.site(callback, point);
    Mark { sign, site }
}

/// Adds the mark of an origin, if that is a step.
fn add_origin(
    marks: &mut Vec<Mark<Sign>>,
    scene: &Scene<'_>,
    callback: usize,
    origin: Option<&Origin>,
) -> Result<(), AllocError>
    ensures { OnOk result (marks.new.items ≡ all_placed marks.old.items
        (spec.origin_marks scene.now.lines.now scene.now.graph.now callback (option_copied origin.entry))) }
{
    let Some(origin) = origin else {
        return Ok(());
    };
    match origin.cause {
        Cause::Made(step) => {
            let sign = Sign::Origin(origin.fact, step);
            add_mark(marks, mark_at(scene, callback, step.point, sign))
        }
        Cause::Entry => Ok(()),
    }
}

/// Adds the mark of the point where two paths meet, if two are shown.
fn add_meeting(
    marks: &mut Vec<Mark<Sign>>,
    scene: &Scene<'_>,
    callback: usize,
    shown: &FindingTrace,
) -> Result<(), AllocError>
    ensures { OnOk result (marks.new.items ≡ all_placed marks.old.items
        (spec.meeting_marks scene.now.lines.now scene.now.graph.now callback (way_of shown.now.answer) (other_way shown.now.answer))) }
{
    match shown.ways() {
        (Some(way), Some(_)) => {
            add_mark(
                marks,
                mark_at(scene, callback, way.end.point, Sign::Meeting),
            )
        }
        _ => Ok(()),
    }
}

/// The marks that show a finding, in the order of their lines.
#[tactic(auto, unfolding(crate::specs::Shown::marks_of))]
fn marks_of(
    alloc: Global,
    scene: &Scene<'_>,
    finding: &Finding,
    shown: &FindingTrace,
) -> Result<Vec<Mark<Sign>>, AllocError>
    ensures { IfOk result (λ marks. marks.items ≡ spec.marks_of scene.now.lines.now scene.now.graph.now finding.now shown.now) }
{
    let mut marks = Vec::new(alloc);
    add_origin(&mut marks, scene, finding.callback, shown.origin.as_ref())?;
    let point = mark_at(scene, finding.callback, finding.point, Sign::Point);
    add_mark(&mut marks, point)?;
    add_meeting(&mut marks, scene, finding.callback, shown)?;
    Ok(marks)
}

// ---- how they are drawn

/// The stroke that is drawn under a site.
#[tactic(auto, unfolding(crate::specs::Shown::stroke))]
fn stroke(sign: Sign) -> Stroke
    ensures { result ≡ spec.stroke sign }
{
    match sign {
        Sign::Point => Stroke::Error,
        Sign::Origin(_, _) | Sign::Meeting => Stroke::Aside,
    }
}

/// Draws marks, in their order, with their words.
#[tactic(auto, unfolding(crate::specs::Shown::all_drawn))]
fn draw_marks(
    alloc: Global,
    page: &mut Page,
    drawing: &mut Drawing,
    scene: &Scene<'_>,
    finding: &Finding,
    subject: &[u8],
    shown: &FindingTrace,
    marks: &[Mark<Sign>],
) -> Result<(), AllocError>
    ensures { Writes result page.old page.new
        (spec.all_drawn drawing.old.coloured drawing.old.margin scene.now.files drawing.old.file scene.now.lines.now scene.now.graph.now
        finding.now subject.now shown.now.answer drawing.old.last marks.now) }
{
    for mark in marks {
        let number = mark.site.place.line;
        let line = scene.lines.line(number);
        let excerpt = excerpt_of(&scene.files, scene.lines, number);
        drawing.draw(
            alloc,
            page,
            &scene.files,
            excerpt,
            line,
            &mark.site,
            stroke(mark.sign),
        )?;
        tell_mark(page, scene, finding, subject, shown, mark.sign)?;
    }
    Ok(())
}

/// Draws the lines of a file that show a finding, in their order: on a path, or, if no path is known, its point and its possible origin.
#[tactic(auto, unfolding(crate::specs::Shown::shown_lines))]
pub(crate) fn draw_shown(
    alloc: Global,
    page: &mut Page,
    coloured: bool,
    scene: &Scene<'_>,
    finding: &Finding,
    subject: &[u8],
    shown: &FindingTrace,
) -> Result<(), AllocError>
    ensures { Writes result page.old page.new
        (spec.shown_lines coloured scene.now.files scene.now.lines.now scene.now.graph.now finding.now subject.now shown.now) }
{
    let marks = marks_of(alloc, scene, finding, shown)?;
    let marks = marks.as_slice();
    let site = scene.site(finding.callback, finding.point);
    let home = scene.files.file_at(site.place.line);
    let mut drawing = Drawing::new(coloured, greatest_line(&scene.files, marks), home);
    draw_marks(
        alloc,
        page,
        &mut drawing,
        scene,
        finding,
        subject,
        shown,
        marks,
    )
}
