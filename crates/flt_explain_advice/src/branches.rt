//! The outcomes of points on a path, in words.

ghost use Rattle.std.specs.Prelude.{◌≡◌, option_copied};
ghost use Rattle.flt_explain_advice.specs.Branches as spec;
ghost use Rattle.flt_explain_texts.specs.Page.{Writes};

use flt_explain_origins::Step;
use flt_explain_texts::{Page, Scene};
use flt_graph::{Instruction, Invocation};
use flt_rules::row;
use std::alloc::AllocError;

/// The outcome of an instruction; none if nothing is asked.
fn outcome(instruction: &Instruction, granted: bool) -> Option<&'static str>
    ensures { option_copied result ≡ spec.outcome instruction.now granted }
{
    match (instruction, granted) {
        (Instruction::Test(_, _, _), true) => Some("is true"),
        (Instruction::Test(_, _, _), false) => Some("is false"),
        (Instruction::Repeat(_, _, _), true) => Some("takes a turn"),
        (Instruction::Repeat(_, _, _), false) => Some("has no turn left"),
        (Instruction::Call(call, _, _), _) => call_outcome(&call.roles(), granted),
        _ => None,
    }
}

/// The outcome of a call; none if it can't fail.
fn call_outcome(call: &Invocation, granted: bool) -> Option<&'static str>
    ensures { option_copied result ≡ spec.call_outcome call.now granted }
{
    let can_fail = row(call.call).on_fail.is_some();
    match (can_fail, granted) {
        (true, true) => Some("succeeds"),
        (true, false) => Some("fails"),
        (false, _) => None,
    }
}

/// The outcome of a step; none if nothing is asked there.
pub fn step_outcome(scene: &Scene<'_>, callback: usize, step: Step) -> Option<&'static str>
    ensures { option_copied result ≡ spec.step_outcome scene.now.graph.now callback step }
{
    outcome(&scene.instruction(callback, step.point), step.granted)
}

/// The outcome of the call of a step; none if it is no call, or one that can't fail.
pub fn step_call_outcome(scene: &Scene<'_>, callback: usize, step: Step) -> Option<&'static str>
    ensures { option_copied result ≡ spec.step_call_outcome scene.now.graph.now callback step }
{
    match scene.instruction(callback, step.point) {
        Instruction::Call(call, _, _) => call_outcome(&call.roles(), step.granted),
        _ => None,
    }
}

/// Writes the text of a point, and its outcome.
pub fn tell_branch(
    page: &mut Page,
    scene: &Scene<'_>,
    callback: usize,
    point: usize,
    outcome: &str,
) -> Result<(), AllocError>
    ensures { Writes result page.old page.new (spec.branch_at scene.now.lines.now scene.now.graph.now callback point outcome.now) }
{
    let asked = scene.at_point(callback, point);
    if asked.is_empty() {
        page.words(&[outcome.as_bytes()])?;
        return Ok(());
    }
    page.words(&[b"`", asked, b"` ", outcome.as_bytes()])?;
    Ok(())
}
