//! The laws of points with turns: a point, and the turns that are left round it, in place of a remaining list.

ghost use Rattle.std.specs.Prelude.{◌≡◌, ◌≤◌, ℕ, List, [], ◌∷◌, Bool, Some, length, slice_get};
ghost use Rattle.flt_graph.specs.Graph.{point_in};
ghost use Rattle.flt_graph.specs.Lowering.{IsGraphOf};
ghost use Rattle.flt_graph.specs.Points.{remaining, successor};
ghost use Rattle.flt_graph.specs.Turns as spec;
ghost use Rattle.flt_graph.specs.declared.graph.CallbackGraph.{CallbackGraph};
ghost use Rattle.flt_rules.specs.Limits.{max_repeats};
ghost use Rattle.flt_tree.specs.Measures.{cost};
ghost use Rattle.flt_tree.specs.WellFormed.{IsWellFormed};
ghost use Rattle.flt_tree.specs.declared.filter.Callback.{Callback};
ghost use Rattle.flt_tree.specs.declared.filter.Filter.{Filter};
ghost use Rattle.flt_tree.specs.declared.filter.Statement.{Statement, out-Statement};

/// A `repeat` in progress: its point, and how many turns are left of it.
#[derive(Clone, Copy)]
pub struct Turn {
    pub point: usize,
    pub left: u64,
}

/// A point and its turns represent a remaining list. Point 0 with no turns represents the body; the successor of an outcome of the first
/// statement, with the turns after it, represents the list that remains after that outcome; a `repeat` has as many turns left as its point.
/// No represented list costs more than the body, and in a well-formed filter none has more turns than repeats may nest. It does nothing:
/// its clauses are the law.
pub fn lists_have_turns()
    ensures whole { (body : List Statement) → spec.StandsWith body 0 [] body }
    ensures next { (all : List Callback) (c : Callback) (g : CallbackGraph) (p : ℕ) (turns : List Turn) (list : List Statement)
        (outcome : Bool) → IsGraphOf all c g → spec.StandsWith c.body p turns list →
        spec.StandsAtWith c.body (successor (point_in g p).instruction outcome)
        (spec.turns_after (point_in g p).instruction p outcome turns) (remaining list outcome) }
    ensures left { (all : List Callback) (c : Callback) (g : CallbackGraph) (p : ℕ) (turns : List Turn) (s : Statement)
        (rest : List Statement) → IsGraphOf all c g → spec.StandsWith c.body p turns (s ∷ rest) →
        spec.HasLeft p turns (point_in g p).instruction (out-Statement s) }
    ensures cost { (body : List Statement) (p : ℕ) (turns : List Turn) (list : List Statement) →
        spec.StandsWith body p turns list → cost list ≤ cost body }
    ensures nested { (f : Filter) (k p : ℕ) (c : Callback) (turns : List Turn) (list : List Statement) → IsWellFormed f →
        slice_get f.callbacks k ≡ Some c → spec.StandsWith c.body p turns list → length turns ≤ max_repeats }
{}
