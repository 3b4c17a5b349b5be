//! The law of costs.

ghost use Rattle.std.specs.Prelude.{◌≡◌, ◌≤◌, ◌<◌, ℕ, Bool, List, length, IsTrue, Some};
ghost use Rattle.std.specs.List.{list_all};
ghost use Rattle.flt_costs.specs.Costs.{IsRunTo, IsStarted, Spends, callback_cost, steps_of};
ghost use Rattle.flt_model.specs.Effects.{Step};
ghost use Rattle.flt_model.specs.Runs.{Moment};
ghost use Rattle.flt_model.specs.Steps.{board, local};
ghost use Rattle.flt_model.specs.World.{World};
ghost use Rattle.flt_model.specs.declared.event.Event.{Event};
ghost use Rattle.flt_model.specs.declared.moves.JournalEntry.{JournalEntry};
ghost use Rattle.flt_tree.specs.Measures.{are_small};
ghost use Rattle.flt_rules.specs.Limits.{max_cost};
ghost use Rattle.flt_tree.specs.declared.filter.Filter.{Filter};

/// A journal that is a run gives each activation at most as many steps as the callback costs with which it started: its body, and 1 for its
/// end. Each activation that is there was started by one of the entries, and one that isn't there makes no steps. If the filters keep the
/// limit on costs, no activation makes more than 1,000,000 steps. It does nothing: its clauses are the law.
pub fn journals_stay_within_costs()
    ensures few { (p : List Filter) (entries : List JournalEntry) (m : Moment) (a filter callback : ℕ) → IsRunTo p entries m →
        IsStarted p entries a filter callback → steps_of a entries ≤ callback_cost p filter callback }
    ensures started { (p : List Filter) (entries : List JournalEntry) (m : Moment) (a : ℕ) → IsRunTo p entries m →
        a < length m.world.activations → (filter : ℕ) × (callback : ℕ) × IsStarted p entries a filter callback }
    ensures none { (p : List Filter) (entries : List JournalEntry) (m : Moment) (a : ℕ) → IsRunTo p entries m →
        length m.world.activations ≤ a → steps_of a entries ≡ 0 }
    ensures limited { (p : List Filter) (entries : List JournalEntry) (m : Moment) (a : ℕ) → IsRunTo p entries m →
        IsTrue (list_all are_small p) → steps_of a entries ≤ max_cost }
{}

/// Each step of an activation, one of its own or one that others see, lowers its remaining cost by one at least, and leaves the other
/// activations as they are. It does nothing: its clauses are the law.
pub fn steps_spend()
    ensures hidden { (p : List Filter) (t : List Event) (w : World) (a : ℕ) (s : Step) → local p t w a ≡ Some s →
        Spends w a s.world.activations }
    ensures seen { (p : List Filter) (t : List Event) (w : World) (a : ℕ) (grant : Bool) (s : Step) → board p t w a grant ≡ Some s →
        Spends w a s.world.activations }
{}
