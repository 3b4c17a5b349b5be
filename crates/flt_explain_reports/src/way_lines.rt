//! The branches of a path, in lines.

ghost use Rattle.std.specs.Prelude.{option_copied};
ghost use Rattle.flt_explain_texts.specs.Page.{Writes};
ghost use Rattle.flt_explain_reports.specs.Indents.{headed};
ghost use Rattle.flt_explain_reports.specs.Ways as spec;

use crate::indents::begin;
use flt_explain_advice::{step_outcome, tell_branch};
use flt_explain_origins::{Step, Way};
use flt_explain_texts::{Page, Part, Scene};
use std::alloc::AllocError;

/// Writes the line number of a statement, its question, and the outcome.
#[tactic(auto, unfolding(crate::specs::Ways::branch_line))]
fn tell_step(
    page: &mut Page,
    home: usize,
    scene: &Scene<'_>,
    callback: usize,
    point: usize,
    outcome: &str,
) -> Result<(), AllocError>
    ensures { Writes result page.old page.new
        (spec.branch_line scene.now.files home scene.now.lines.now scene.now.graph.now callback point outcome.now) }
{
    page.say(&[Part::Line(scene.files, home, scene.line(callback, point))])?;
    page.bytes(b": ")?;
    tell_branch(page, scene, callback, point, outcome)?;
    page.bytes(b"\n")
}

/// Writes the branches among some steps, a line each, the first after a word for them.
fn tell_steps(
    page: &mut Page,
    home: usize,
    scene: &Scene<'_>,
    callback: usize,
    word: &str,
    steps: &[Step],
) -> Result<(), AllocError>
    ensures { Writes result page.old page.new
        (headed word.now (spec.branch_lines scene.now.files home scene.now.lines.now scene.now.graph.now callback steps.now)) }
{
    let mut told = false;
    for step in steps {
        if let Some(outcome) = step_outcome(scene, callback, *step) {
            begin(page, word, told)?;
            tell_step(page, home, scene, callback, step.point, outcome)?;
            told = true;
        }
    }
    Ok(())
}

/// Writes the branches of a path, a line each, the first after a word for it; nothing if there is no path.
#[tactic(auto, unfolding(crate::specs::Ways::path_lines))]
pub(crate) fn tell_way(
    page: &mut Page,
    home: usize,
    scene: &Scene<'_>,
    callback: usize,
    word: &str,
    way: Option<&Way>,
) -> Result<(), AllocError>
    ensures { Writes result page.old page.new
        (spec.path_lines scene.now.files home scene.now.lines.now scene.now.graph.now callback word.now (option_copied way.entry)) }
{
    match way {
        Some(way) => tell_steps(page, home, scene, callback, word, way.steps.as_slice()),
        None => Ok(()),
    }
}
