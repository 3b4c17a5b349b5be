//! The loaded filters, each accepted, from the highest altitude to the lowest, and the same as a machine runs them.

ghost use Rattle.std.specs.Prelude.{◌≡◌, ◌↔◌, ℕ, IsTrue, List, None};
ghost use Rattle.flt_machine_frames.specs.Loading.{AreLoaded};
ghost use Rattle.flt_machine.specs.Situations.{IsBoard};
ghost use Rattle.flt_model.specs.Expansion.{IsCleanRun, verdict};
ghost use Rattle.flt_model.specs.Program.{by_altitude, filters_of};
ghost use Rattle.flt_model.specs.Runs.{breaks};
ghost use Rattle.flt_model.specs.Steps.{Transition};
ghost use Rattle.flt_model.specs.declared.parts.Presence.TheVariants.{Detached};
ghost use Rattle.flt_model.specs.World.{presence_at};
ghost use Rattle.flt_model.specs.declared.verdict.Verdict.TheVariants.{Legal};
ghost use Rattle.flt_sound.specs.Progress.{AreOrderly, CanRest, CanUnload, IsMoving};
ghost use Rattle.flt_sound.specs.Rest.{IsGone};

use flt_machine::Board;
use flt_model::legal_journals_are_clean_runs;
use flt_sound::{
    accepted_runs_break_nothing, orderly_filters_come_to_rest, unloading_leaks_nothing,
};
use flt_syntax::Tree;
use sqlite_items::Items;
use std::marker::Model;

/// 1 to 16 filters from the highest altitude to the lowest, each accepted: a certificate covers it. Contracts see the list of the filters.
#[derive(Drop)]
pub struct Loaded {
    pub(crate) trees: Items<Tree>,
    pub(crate) machine: flt_machine::Loaded,
    pub(crate) ordered: bool,
}

impl Model for Loaded {
    ghost use Rattle.std.specs.Prelude.{List};
    ghost use Rattle.flt_tree.specs.declared.filter.Filter.{Filter};

    ghost Value = { List Filter };

    ghost use Rattle.std.specs.Coded.{codes};
    ghost use Rattle.flt_tree.specs.contracts.filter.Filter as filter;

    ghost coded = { Prim.hlevel (codes, filter.the_row.coded) };

    ghost use Rattle.flt_model.specs.Program.{filters_of};

    ghost view = { λ l. filters_of l.trees };

    ghost use Rattle.flt_stack.specs.Loaded.{AreLoadable};

    ghost invariant = { λ l. AreLoadable (filters_of l.trees) l.machine l.ordered };
}

impl Loaded {
    /// The trees of the filters. A script is read against them.
    pub fn filters(&self) -> &[Tree]
        ensures value { filters_of result.now ≡ self.now }
        ensures ordered { by_altitude self.now ≡ self.now }
    {
        self.trees.as_slice()
    }

    /// The same filters as a board runs them, for lending to each of its calls.
    pub fn machine(&self) -> &flt_machine::Loaded
        ensures { AreLoaded self.now result.now }
    {
        &self.machine
    }

    /// Whether each filter takes its locks in an order, by some certificate that accepts it; not only by the one that it came with.
    pub fn is_ordered(&self) -> bool
        ensures { IsTrue result ↔ AreOrderly self.now }
    {
        self.ordered
    }

    /// No run of the machine on the loaded filters breaks anything. It does nothing: its clause is the law.
    pub fn breaks_nothing(&self)
        ensures { (transitions : List Transition) → breaks self.now transitions ≡ None }
    {
        let _trees = &self.trees;
        accepted_runs_break_nothing();
    }

    /// A board on the loaded filters has broken nothing, whichever calls were made on it. `Board::new(loaded.machine())` makes such a
    /// board, and each call of a board leaves it one. It does nothing: its clauses are the law.
    pub fn boards_break_nothing(&self, board: &Board)
        // It is a board of these filters.
        requires own { IsBoard self.now board.now }
        // Its journal is a run of the machine on them that breaks nothing.
        ensures clean { IsCleanRun self.now board.now.entries }
        // So the verdict about it is that it is legal.
        ensures legal { verdict self.now board.now.entries ≡ Legal }
    {
        let _filters = self.filters();
        self.breaks_nothing();
        legal_journals_are_clean_runs();
    }
    /// An unload that has ended on a board has left nothing of the filter, whichever calls were made on the board since. It does nothing:
    /// its clause is the law.
    pub fn boards_leak_nothing(&self, board: &Board)
        // It is a board of these filters.
        requires own { IsBoard self.now board.now }
        // Of each filter that is detached there, nothing is left at the moment at which the board stands.
        ensures { (own : IsBoard self.now board.now) (filter : ℕ) → presence_at board.now.store filter ≡ Detached →
            IsGone own.moment.world filter }
    {
        let _trees = &self.trees;
        unloading_leaks_nothing();
    }

    /// If the filters take their locks in an order, a board on them never deadlocks, each filter can be unloaded there, and all can come to
    /// rest. "Can" says that transitions lead there, not that they are made. It does nothing: its clauses are the law.
    pub fn boards_can_come_to_rest(&self, board: &Board)
        // It is a board of these filters.
        requires own { IsBoard self.now board.now }
        // They take their locks in an order: `is_ordered` says so.
        requires ordered { AreOrderly self.now }
        // At the moment at which the board stands, as long as a callback runs, one that runs can make a step.
        ensures moving { (own : IsBoard self.now board.now) → IsMoving self.now own.moment }
        // The filter at each altitude can be unloaded from there.
        ensures unloading { (own : IsBoard self.now board.now) (altitude : ℕ) → CanUnload self.now own.moment altitude }
        // And one moment can be reached at which nothing goes on and nothing is left of any filter.
        ensures resting { (own : IsBoard self.now board.now) → CanRest self.now own.moment }
    {
        let _trees = &self.trees;
        orderly_filters_come_to_rest();
    }
}
