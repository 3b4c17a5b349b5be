//! The law of triggers for runs.

ghost use Rattle.std.specs.Prelude.{◌≡◌, ◌<◌, ℕ, false, length};
ghost use Rattle.flt_graph.specs.Lowering.{IsLowered};
ghost use Rattle.flt_graph.specs.declared.graph.Graph.{Graph};
ghost use Rattle.flt_starts.specs.Starts.{NeverStarts};
ghost use Rattle.flt_tree.specs.declared.filter.Filter.{Filter};
ghost use Rattle.flt_search_started.specs.Triggers.{is_started};

use flt_graph::callbacks_have_graphs;
use flt_starts::unasked_callbacks_never_start;

/// No run of any filters starts a callback that neither the system nor a point of its filter starts. It does nothing at run time: its
/// clause is a law.
pub fn unstarted_callbacks_never_start()
    ensures { (f : Filter) (g : Graph) (k : ℕ) → IsLowered f g → k < length f.callbacks → is_started g k ≡ false →
        NeverStarts f.callbacks k }
{
    callbacks_have_graphs();
    unasked_callbacks_never_start();
}
