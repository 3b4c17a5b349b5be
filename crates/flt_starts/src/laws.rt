//! The laws of starts.

ghost use Rattle.std.specs.Prelude.{◌≡◌, ℕ, Bool, true, false, List, length, Some, None};
ghost use Rattle.flt_starts.specs.Closed.{IsClosed};
ghost use Rattle.flt_starts.specs.Starts.{Callee, NeverStarts, Starts, starts_callback};
ghost use Rattle.flt_model.specs.Effects.{Step};
ghost use Rattle.flt_model.specs.Program.{callbacks_at};
ghost use Rattle.flt_model.specs.Runs.{Moment, next, run};
ghost use Rattle.flt_model.specs.Steps.{Transition};
ghost use Rattle.flt_tree.specs.declared.filter.Callback.{Callback};
ghost use Rattle.flt_tree.specs.declared.filter.Filter.{Filter};

use flt_costs::steps_spend;

/// No run, whatever it breaks and whatever other filters take part, starts a callback of a filter outside a closed set of its callbacks. It
/// does nothing: its clauses are the law, for the callbacks that start and for those that never do.
pub fn unasked_callbacks_never_start()
    ensures law { (p : List Filter) (f : ℕ) (may_start : ℕ → Bool) (xs : List Transition) (m : Moment) (x : Transition) (s : Step) (k : ℕ) →
        IsClosed (callbacks_at p f) may_start → run p xs ≡ Some m → next p m x ≡ Some s →
        starts_callback p m.world x ≡ Some (record { filter = f; callback = k }) → may_start k ≡ true }
    ensures never { (cs : List Callback) (may_start : ℕ → Bool) (k : ℕ) → IsClosed cs may_start → may_start k ≡ false → NeverStarts cs k }
{}

/// A transition starts what `starts_callback` says: there is one activation more, and all of that callback is still to come. If it says
/// that none starts, there are as many as there were. It does nothing: its clauses are the law.
pub fn starts_are_told()
    ensures one { (p : List Filter) (m : Moment) (x : Transition) (s : Step) (c : Callee) → next p m x ≡ Some s →
        starts_callback p m.world x ≡ Some c → Starts p c m.world s.world }
    ensures none { (p : List Filter) (m : Moment) (x : Transition) (s : Step) → next p m x ≡ Some s →
        starts_callback p m.world x ≡ None → length s.world.activations ≡ length m.world.activations }
{
    steps_spend();
}
