//! Past a broken rule: each rule by itself, and where a point leads whichever rules it breaks.

ghost use Rattle.std.specs.Prelude.{◌≡◌, ◌↔◌, Bool, true, [], IsSome, IfSome, IsTrue};
ghost use Rattle.flt_abs.specs.Breaks.{breaks};
ghost use Rattle.flt_abs.specs.Outcome as outcome_spec;
ghost use Rattle.flt_abs.specs.Setting.{setting_of};
ghost use Rattle.flt_abs.specs.State.{State, Situation, Means, state_of, is_proper, is_below};
ghost use Rattle.flt_abs.specs.Step.{leads_to};
ghost use Rattle.flt_abs.specs.declared.setting.Setting.{Setting};
ghost use Rattle.flt_graph.specs.Graph.{instruction_at};
ghost use Rattle.flt_graph.specs.Points.{successor};
ghost use Rattle.flt_graph.specs.declared.instruction.Instruction.{Instruction};
ghost use Rattle.flt_rules.specs.declared.rule.Rule.{Rule};

use crate::breaks::breaks;
use crate::sets::{Draining, Modes, Statuses};
use crate::setting::setting_of;
use crate::state::{Abs, CONTEXTS, OPERATIONS};
use crate::step::{Successors, leads_to};
use flt_graph::Graph;
use flt_rules::Rule;

/// Whether the point of a callback breaks a rule in a state. `transfer` answers the least such rule.
pub fn breaks_rule(graph: &Graph, callback: usize, point: usize, state: &Abs, rule: Rule) -> bool
    ensures { result ≡ breaks (setting_of graph.now callback state.now) state.now (instruction_at graph.now callback point) rule }
{
    let setting = setting_of(graph, callback, state);
    breaks(&setting, state, &graph.instruction(callback, point), rule)
}

/// Where the point of a callback leads from a state, even if it breaks a rule: each call is taken as made.
pub fn leads_past(graph: &Graph, callback: usize, point: usize, state: &Abs) -> Successors
    ensures { result ≡ leads_to state.now (instruction_at graph.now callback point) }
{
    leads_to(state, &graph.instruction(callback, point))
}

/// Each outcome that an instruction may have in a situation of a state has its successor, whichever rules the state breaks there, and the
/// successor's state means the situation after the instruction. It does nothing: its clause is the law.
pub fn leads_past_follows_situations()
    ensures { (i : Instruction) (x : State) (t : Situation) (outcome gives : Bool) → Means x t →
        outcome_spec.may_come_out i t outcome ≡ true →
        outcome_spec.Reaches (outcome_spec.side (leads_to x i) outcome) (successor i outcome) (outcome_spec.leaves i outcome gives t) }
{}

/// A rule that a state breaks is broken by each state above it. It does nothing: its clause is the law.
pub fn breaks_rule_is_monotone()
    ensures { (s : Setting) (x y : State) (i : Instruction) (r : Rule) → IsTrue (is_proper x) → IsTrue (is_below x y) →
        IsTrue (breaks s x i r) → IsTrue (breaks s y i r) }
{}

impl Abs {
    /// The state with these sets and the same locks; none if a set is empty.
    pub fn with_sets(
        &self,
        contexts: [Statuses; CONTEXTS],
        operations: [Statuses; OPERATIONS],
        modes: Modes,
        draining: Draining,
    ) -> Option<Abs>
        ensures known { IsSome result ↔ IsTrue (is_proper (state_of contexts operations modes draining self.now.locks)) }
        ensures value { IfSome result (λ a. a ≡ state_of contexts operations modes draining self.now.locks) }
    {
        Abs::new(contexts, operations, modes, draining, self.locks.copied())
    }

    /// The state with the same sets, and no lock.
    pub fn without_locks(&self) -> Abs
        ensures { result ≡ state_of self.now.contexts self.now.operations self.now.modes self.now.draining [] }
    {
        let _sets = self.contexts();
        Abs {
            contexts: self.contexts,
            operations: self.operations,
            modes: self.modes,
            draining: self.draining,
            locks: self.locks.emptied(),
        }
    }
}
