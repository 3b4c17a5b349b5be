//! The laws of accepted filters.

ghost use Rattle.std.specs.Prelude.{◌≡◌, ◌↔◌, ℕ, List, [], ◌∷◌, None};
ghost use Rattle.flt_model.specs.Expansion.{verdict};
ghost use Rattle.flt_model.specs.Program.{by_altitude};
ghost use Rattle.flt_model.specs.Runs.{breaks};
ghost use Rattle.flt_model.specs.Steps.{Transition};
ghost use Rattle.flt_model.specs.declared.moves.JournalEntry.{JournalEntry};
ghost use Rattle.flt_model.specs.declared.verdict.Verdict.TheVariants.{Breaks};
ghost use Rattle.flt_model.specs.declared.verdict.Violation.{Violation};
ghost use Rattle.flt_sound.specs.Soundness.{IsAccepted, AreAccepted, AcceptedRunsBreakNothing};
ghost use Rattle.flt_sound.specs.Progress.{AllCanRest, AreOrderly, CallbacksCanEnd, FiltersCanUnload};
ghost use Rattle.flt_sound.specs.Progress.{IsOrderly, NoDeadlock, OperationsCanComplete};
ghost use Rattle.flt_sound.specs.Rest.{UnloadingLeaksNothing};
ghost use Rattle.flt_sound.specs.Worked.{worked};
ghost use Rattle.flt_tree.specs.declared.filter.Filter.{Filter};

use flt_abs::{graphs_are_registered_alike, is_partial_order, transfer_follows_situations};
use flt_check::covering_is_faultless;
use flt_costs::steps_spend;
use flt_graph::{
    callbacks_have_graphs, filters_have_graphs, instructions_are_served, lists_have_points,
};
use flt_model::{first_faults_are_told, locks_stay_exclusive};

/// No run of accepted filters breaks anything: for all filters and all lists of transitions, if each filter is accepted, `breaks` finds
/// nothing. It does nothing: its clause is the law.
pub fn accepted_runs_break_nothing()
    ensures { AcceptedRunsBreakNothing }
{
    lists_have_points();
    callbacks_have_graphs();
    instructions_are_served();
    graphs_are_registered_alike();
    transfer_follows_situations();
    is_partial_order();
    locks_stay_exclusive();
}

/// An unload of an accepted filter leaks nothing: at each moment of a run of accepted filters at which one is detached, no frame, queue
/// entry, work item, link or running callback of it is left, its visits are settled, its contexts are freed and its locks given up, and
/// none comes again. It does nothing: its clause is the law.
pub fn unloading_leaks_nothing()
    ensures { UnloadingLeaksNothing }
{
    lists_have_points();
    callbacks_have_graphs();
    instructions_are_served();
    graphs_are_registered_alike();
    transfer_follows_situations();
    is_partial_order();
}

/// Accepted filters that take their locks in an order come to rest. At each moment of a run of theirs: as long as a callback runs, one that
/// runs can make a step, so nothing deadlocks; all that run can be brought to their ends by their own steps; each filter can be unloaded;
/// and if no two have one altitude, each operation can be completed, and all can come to rest at one moment, with nothing left. Filters are
/// orderly exactly if they are when sorted by altitude, as the machine takes them. It does nothing: its clauses are the law.
pub fn orderly_filters_come_to_rest()
    ensures moving { NoDeadlock }
    ensures ending { CallbacksCanEnd }
    ensures unloading { FiltersCanUnload }
    ensures completing { OperationsCanComplete }
    ensures resting { AllCanRest }
    ensures ordered { (filters : List Filter) → AreOrderly filters ↔ AreOrderly (by_altitude filters) }
{
    lists_have_points();
    callbacks_have_graphs();
    instructions_are_served();
    graphs_are_registered_alike();
    transfer_follows_situations();
    is_partial_order();
    steps_spend();
}

/// Accepted filters are accepted in the order of their altitudes too, in which the machine takes them; and no journal of theirs is
/// judged to break anything. It does nothing: its clauses are the law.
pub fn accepted_journals_break_nothing()
    ensures ordered { (filters : List Filter) → AreAccepted filters → AreAccepted (by_altitude filters) }
    ensures verdicts { (filters : List Filter) (entries : List JournalEntry) (v : Violation) (n : ℕ) → AreAccepted filters →
        verdict filters entries ≡ Breaks v n → ⊥ }
{
    accepted_runs_break_nothing();
    first_faults_are_told();
}

/// The worked filter, which queues, takes two locks, hands a context over and asks for a worker, is accepted, takes its locks in an order,
/// and no run of it breaks anything. It does nothing: its clauses are the law.
pub fn worked_filter_breaks_nothing()
    ensures accepted { IsAccepted worked }
    ensures orderly { IsOrderly worked }
    ensures clean { (transitions : List Transition) → breaks (worked ∷ []) transitions ≡ None }
{
    filters_have_graphs();
    covering_is_faultless();
    accepted_runs_break_nothing();
}
