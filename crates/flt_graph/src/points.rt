//! The laws of points: which points of a lowered callback the remaining lists of a run have.

ghost use Rattle.std.specs.Prelude.{◌≡◌, ℕ, List, Bool, Some, length, slice_get};
ghost use Rattle.flt_graph.specs.Graph.{point_in, callback_at, place_at, instruction_at};
ghost use Rattle.flt_graph.specs.Kept.{IsRising};
ghost use Rattle.flt_graph.specs.Lowering.{IsGraphOf, IsLowered, end_of, graph_of};
ghost use Rattle.flt_graph.specs.Points as spec;
ghost use Rattle.flt_graph.specs.Served.{IsInstructionServed};
ghost use Rattle.flt_graph.specs.declared.graph.CallbackGraph.{CallbackGraph};
ghost use Rattle.flt_graph.specs.declared.graph.Graph.{Graph};
ghost use Rattle.flt_tree.specs.WellFormed.{IsWellFormed};
ghost use Rattle.flt_tree.specs.declared.filter.Callback.{Callback};
ghost use Rattle.flt_tree.specs.declared.filter.Filter.{Filter};
ghost use Rattle.flt_tree.specs.declared.filter.Statement.{Statement};

/// Each remaining list of a callback has a point, where its first statement is done, and the list that remains after an outcome of that
/// statement has the point of that outcome's successor. It does nothing: its clauses are the law.
pub fn lists_have_points()
    ensures whole { (body : List Statement) → spec.Stands body 0 body }
    ensures first { (all : List Callback) (c : Callback) (g : CallbackGraph) (p : ℕ) (list : List Statement) → IsGraphOf all c g →
        spec.Stands c.body p list → spec.IsFirst all (end_of c) p list (point_in g p) }
    ensures next { (all : List Callback) (c : Callback) (g : CallbackGraph) (p : ℕ) (list : List Statement) (outcome : Bool) →
        IsGraphOf all c g → spec.Stands c.body p list →
        spec.StandsAt c.body (spec.successor (point_in g p).instruction outcome) (spec.remaining list outcome) }
{}

/// Each callback of a filter has its own graph, at its number from 0. It does nothing: its clauses are the law.
pub fn callbacks_have_graphs()
    ensures count { (f : Filter) (g : Graph) → IsLowered f g → length g.callbacks ≡ length f.callbacks }
    ensures each { (f : Filter) (g : Graph) (k : ℕ) (c : Callback) → IsLowered f g → slice_get f.callbacks k ≡ Some c →
        IsGraphOf f.callbacks c (callback_at g k) }
{}

/// Each filter has a graph, which can be computed. It does nothing: its clause is the law.
pub fn filters_have_graphs()
    ensures { (f : Filter) → IsLowered f (graph_of f) }
{}

/// A well-formed filter has one graph at most. It does nothing: its clause is the law.
pub fn one_graph_at_most()
    ensures { (f : Filter) (g h : Graph) → IsWellFormed f → IsLowered f g → IsLowered f h → g ≡ h }
{}

/// Each instruction of a well-formed filter names callbacks that exist: a call of the queue has its `canceled` callback, a work item its
/// routine, of the kind that its place asks. It does nothing: its clause is the law.
pub fn instructions_are_served()
    ensures { (f : Filter) (g : Graph) (k n : ℕ) → IsWellFormed f → IsLowered f g →
        IsInstructionServed f.callbacks (place_at g k) (instruction_at g k n) }
{}

/// Each edge of a well-formed filter's graph leads onwards, or to a `repeat`. It does nothing: its clause is the law.
pub fn edges_lead_onwards()
    ensures { (f : Filter) (g : Graph) → IsWellFormed f → IsLowered f g → IsRising g }
{}
