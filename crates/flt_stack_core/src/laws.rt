//! The law of arrivals.

ghost use Rattle.std.specs.Prelude.{◌≡◌, List, length, count_by, Some};
ghost use Rattle.flt_model.specs.Expansion.{expand};
ghost use Rattle.flt_model.specs.Runs.{Moment, run};
ghost use Rattle.flt_model.specs.Steps.{Transition};
ghost use Rattle.flt_model.specs.declared.moves.JournalEntry.{JournalEntry};
ghost use Rattle.flt_stack_core.specs.Receipts.{is_arrival};
ghost use Rattle.flt_tree.specs.declared.filter.Filter.{Filter};

/// A journal that is a run leads to a moment at which as many operations are there as arrived by its entries. It does nothing: its clause
/// is the law.
pub fn arrivals_are_operations()
    ensures { (p : List Filter) (entries : List JournalEntry) (transitions : List Transition) (m : Moment) →
        expand entries ≡ Some transitions → run p transitions ≡ Some m → length m.world.store.arrivals ≡ count_by is_arrival entries }
{}
