//! The law of `Standing`s: the instruction at a `Standing`'s point, and the statements that remain of its activation.

ghost use Rattle.std.specs.Prelude.{ℕ, Bool, List};
ghost use Rattle.flt_machine_frames.specs.Firsts as spec;
ghost use Rattle.flt_machine_frames.specs.Loading.{AreLoaded, instruction_in};
ghost use Rattle.flt_machine_frames.specs.Standings.{StandsFor};
ghost use Rattle.flt_machine_frames.specs.declared.loaded.Loaded.{Loaded};
ghost use Rattle.flt_machine_frames.specs.declared.standing.Standing.{Standing};
ghost use Rattle.flt_graph.specs.Points.{remaining, successor};
ghost use Rattle.flt_graph.specs.Turns.{StandsAtWith, turns_after};
ghost use Rattle.flt_model.specs.Program.{body_at, callbacks_at};
ghost use Rattle.flt_model.specs.World.{Activation};
ghost use Rattle.flt_tree.specs.declared.filter.Filter.{Filter};

use flt_graph::{callbacks_have_graphs, lists_have_points, lists_have_turns};

/// Whichever activation a `Standing` represents: the instruction at its point is that of the first statement that remains, and the
/// statements that remain after an outcome of it are at the point where the outcome leads, with the turns after it. The instruction also
/// determines which statement remains first, and the statements after it are at the point where the instruction leads. If the callback
/// doesn't exist, nothing remains, and the instruction is the end. It does nothing: its clauses are the law.
pub fn standings_have_points()
    ensures first { (p : List Filter) (l : Loaded) (filter : ℕ) (s : Standing) (act : Activation) → AreLoaded p l →
        StandsFor (callbacks_at p filter) s act →
        spec.IsInstructionOf (callbacks_at p filter) s act.rest (instruction_in l filter s.callback s.point) }
    ensures next { (p : List Filter) (l : Loaded) (filter : ℕ) (s : Standing) (act : Activation) (outcome : Bool) → AreLoaded p l →
        StandsFor (callbacks_at p filter) s act →
        StandsAtWith (body_at (callbacks_at p filter) s.callback) (successor (instruction_in l filter s.callback s.point) outcome)
        (turns_after (instruction_in l filter s.callback s.point) s.point outcome s.turns) (remaining act.rest outcome) }
    ensures told { (p : List Filter) (l : Loaded) (filter : ℕ) (s : Standing) (act : Activation) → AreLoaded p l →
        StandsFor (callbacks_at p filter) s act →
        spec.Remains (callbacks_at p filter) s act.rest (instruction_in l filter s.callback s.point) }
{
    lists_have_points();
    callbacks_have_graphs();
    lists_have_turns();
}
