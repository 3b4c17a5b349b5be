//! The law of transfer: the situations that an instruction leads to are in the states that transfer leads to.

ghost use Rattle.std.specs.Prelude.{◌≡◌, ℕ, Bool, true, Ok};
ghost use Rattle.flt_abs.specs.Outcome as spec;
ghost use Rattle.flt_abs.specs.State.{Means, Situation, State};
ghost use Rattle.flt_abs.specs.Step.{transfer};
ghost use Rattle.flt_abs.specs.declared.step.Successors.{Successors};
ghost use Rattle.flt_graph.specs.Graph.{instruction_at};
ghost use Rattle.flt_graph.specs.Points.{successor};
ghost use Rattle.flt_graph.specs.declared.graph.Graph.{Graph};

/// If no rule is broken in a state, each outcome that an instruction may have in a situation of the state has its successor, whose state
/// means the situation after the instruction. It does nothing: its clause is the law.
pub fn transfer_follows_situations()
    ensures { (g : Graph) (k p : ℕ) (x : State) (t : Situation) (next : Successors) (outcome gives : Bool) →
        transfer g k p x ≡ Ok next → Means x t → spec.may_come_out (instruction_at g k p) t outcome ≡ true →
        spec.Reaches (spec.side next outcome) (successor (instruction_at g k p) outcome)
        (spec.leaves (instruction_at g k p) outcome gives t) }
{}
