//! Local steps, as many as come one after another.

ghost use Rattle.std.specs.Prelude.{◌≡◌, ◌≤◌, List, is_some};
ghost use Rattle.std.specs.Option.{unwrap_or};
ghost use Rattle.flt_machine_frames.specs.Leads.{IsAdvance, IsAdvanceOn};
ghost use Rattle.flt_machine_frames.specs.Loading.{AreLoaded, IsLoaded};
ghost use Rattle.flt_machine_frames.specs.Steps.{stepped};
ghost use Rattle.flt_graph.specs.Graph.{instruction_at};
ghost use Rattle.flt_tree.specs.declared.filter.Filter.{Filter};
ghost use Rattle.flt_rules.specs.Limits.{max_cost};

use crate::frame::{Advanced, Frame};
use crate::loaded::Loaded;
use crate::standing::Standing;
use flt_graph::{Graph, callbacks_have_graphs, lists_have_points, lists_have_turns};
use flt_rules::MAX_COST;

/// Makes one local step of a `Standing`, and answers whether it did: if others see the next step, nothing is changed.
fn go_further(graph: &Graph, draining: bool, after: &mut Standing) -> bool
    ensures local { result ≡ is_some (stepped draining (instruction_at graph.now after.old.callback after.old.point) after.old) }
    ensures after { after.new
        ≡ unwrap_or (stepped draining (instruction_at graph.now after.old.callback after.old.point) after.old) after.old }
{
    let instruction = graph.instruction_ref(after.callback, after.point);
    after.step_locally(draining, instruction)
}

/// Makes a frame's local steps on the points of its filter, and answers how many. The `Standing` that is lent is the frame's before them.
fn go_locally(graph: &Graph, frame: &Frame, after: &mut Standing) -> u32
    requires { after.old ≡ frame.now.standing }
    ensures few { result ≤ max_cost }
    ensures advance { (f : Filter) → IsLoaded f graph.now →
        IsAdvanceOn f.callbacks (record { frame = frame.now; after = after.new; steps = result }) }
{
    lists_have_points();
    callbacks_have_graphs();
    lists_have_turns();
    for steps in 0..MAX_COST {
        if !go_further(graph, frame.draining, after) {
            return steps;
        }
    }
    MAX_COST
}

/// Makes the local steps of a frame, up to the next step that others see. The machine isn't needed for it, and nothing is gained or lost.
pub fn advance(loaded: &Loaded, frame: Frame) -> Advanced
    ensures frame { result.frame ≡ frame }
    ensures few { result.steps ≤ max_cost }
    ensures advance { (p : List Filter) → AreLoaded p loaded.now → IsAdvance p result }
{
    let mut advanced = Advanced {
        frame,
        after: frame.standing,
        steps: 0,
    };
    match loaded.graphs.get(frame.filter) {
        Some(graph) => {
            advanced.steps = go_locally(graph, &frame, &mut advanced.after);
            advanced
        }
        None => advanced,
    }
}
