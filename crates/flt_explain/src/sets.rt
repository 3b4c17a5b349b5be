//! The sets of a state in which broken rules were fixed. Unlike those of `Abs` they may be empty.

ghost use Rattle.std.specs.Prelude.{◌≡◌, map, slice_index_or};
ghost use Rattle.flt_abs.specs.Sets as sets_spec;
ghost use Rattle.flt_explain.specs.Sets as spec;

use crate::finding::{Fault, Subject};
use crate::mending::{mended, mended_draining, mended_modes};
use crate::operands::OPERANDS;
use crate::writes::writes;
use flt_abs::{Abs, CONTEXTS, Draining, Modes, OPERATIONS, Statuses, unite};
use flt_graph::Instruction;
use flt_rules::Rule;

/// The possible values of each variable, of the mode and of draining. If a set is empty, all that was possible broke a rule; nothing more
/// is reported of its subject, until it is written or a path joins in that has one.
#[derive(Clone, Copy)]
pub(crate) struct Sets {
    contexts: [Statuses; CONTEXTS],
    operations: [Statuses; OPERATIONS],
    modes: Modes,
    draining: Draining,
}

fn no_statuses() -> Statuses
    ensures { result ≡ spec.no_statuses }
{
    Statuses::from_low_bits(0)
}

fn no_modes() -> Modes
    ensures { result ≡ spec.no_modes }
{
    Modes::from_digit(0).unwrap()
}

fn no_draining() -> Draining
    ensures { result ≡ spec.no_draining }
{
    Draining::from_digit(0).unwrap()
}

/// The set, or all statuses in place of none.
fn or_all(set: Statuses) -> Statuses
    ensures { result ≡ spec.or_all set }
{
    if set.is_possible() {
        set
    } else {
        Statuses::from_low_bits(7)
    }
}

/// The set, or both modes in place of none.
fn or_both(modes: Modes) -> Modes
    ensures { result ≡ spec.or_both modes }
{
    if modes.is_possible() {
        modes
    } else {
        Modes::from_digit(3).unwrap()
    }
}

/// The set, or both answers in place of none.
fn or_either(draining: Draining) -> Draining
    ensures { result ≡ spec.or_either draining }
{
    if draining.is_possible() {
        draining
    } else {
        Draining::from_digit(3).unwrap()
    }
}

#[tactic(auto, using(crate::proofs::Steps::more_not_same))]
fn are_same(a: &[Statuses], b: &[Statuses]) -> bool
    ensures { result ≡ spec.are_same a.now b.now }
{
    match (a, b) {
        ([], []) => true,
        ([], [_, ..]) | ([_, ..], []) => false,
        ([x, a @ ..], [y, b @ ..]) => x.digit() == y.digit() && are_same(a, b),
    }
}

/// Replaces each empty set by one of all values.
fn fill(sets: &mut [Statuses])
    ensures { sets.new ≡ map spec.or_all sets.old }
{
    for index in 0..sets.len() {
        sets[index] = or_all(sets[index]);
    }
}

/// The set at a place; NULL alone if it has none.
#[tactic(auto, using(crate::proofs::Reading::found, crate::proofs::Reading::missing))]
fn set_at(sets: &[Statuses], place: usize) -> Statuses
    ensures { result ≡ slice_index_or sets.now place sets_spec.null_alone }
{
    match sets.get(place) {
        Some(set) => *set,
        None => Statuses::null(),
    }
}

impl Sets {
    /// The sets of a state.
    pub(crate) fn of(state: &Abs) -> Sets
        ensures { result ≡ spec.sets_of state.now }
    {
        let mut contexts = [no_statuses(); CONTEXTS];
        contexts.copy_from_slice(state.contexts());
        let mut operations = [no_statuses(); OPERATIONS];
        operations.copy_from_slice(state.operations());
        Sets {
            contexts,
            operations,
            modes: state.modes(),
            draining: state.draining(),
        }
    }

    /// Whether faults of a subject are reported: its set isn't empty, or it has none.
    pub(crate) fn tells(&self, subject: Subject) -> bool
        ensures { result ≡ spec.tells self.now subject }
    {
        match subject {
            Subject::Context(variable) => set_at(&self.contexts, variable.place()).is_possible(),
            Subject::Operation(variable) => {
                set_at(&self.operations, variable.place()).is_possible()
            }
            Subject::Mode => self.modes.is_possible(),
            Subject::Draining => self.draining.is_possible(),
            Subject::Lock(_) | Subject::Call | Subject::Status => true,
        }
    }

    /// Empties the set of a subject.
    fn empty(&mut self, subject: Subject)
        ensures { self.new ≡ spec.emptied self.old subject }
    {
        match subject {
            Subject::Context(variable) => self.contexts[variable.place()] = no_statuses(),
            Subject::Operation(variable) => self.operations[variable.place()] = no_statuses(),
            Subject::Mode => self.modes = no_modes(),
            Subject::Draining => self.draining = no_draining(),
            Subject::Lock(_) | Subject::Call | Subject::Status => {}
        }
    }

    /// Removes the values by which a subject breaks a rule.
    fn mend(&mut self, rule: Rule, subject: Subject)
        ensures { self.new ≡ spec.mended_by self.old rule subject }
    {
        match subject {
            Subject::Context(variable) => {
                let place = variable.place();
                self.contexts[place] = mended(set_at(&self.contexts, place), rule);
            }
            Subject::Operation(variable) => {
                let place = variable.place();
                self.operations[place] = mended(set_at(&self.operations, place), rule);
            }
            Subject::Mode => self.modes = mended_modes(self.modes),
            Subject::Draining => self.draining = mended_draining(self.draining),
            Subject::Lock(_) | Subject::Call | Subject::Status => {}
        }
    }

    /// The sets without the values that break the rules of these faults.
    pub(crate) fn mended(&self, faults: &[Fault]) -> Sets
        ensures { result ≡ spec.mended_of self.now faults.now }
    {
        let mut sets = *self;
        for fault in faults {
            sets.mend(fault.rule, fault.subject);
        }
        sets
    }

    /// Empties those sets of some subjects that stay empty.
    fn keep_empty(
        &mut self,
        before: &Sets,
        instruction: &Instruction,
        granted: bool,
        subjects: &[Subject],
    )
        ensures { self.new ≡ spec.after_of before.now instruction.now granted subjects.now self.old }
    {
        for subject in subjects {
            if before.stays_empty(instruction, granted, *subject) {
                self.empty(*subject);
            }
        }
    }

    /// Whether a subject's faults are reported neither here nor after an instruction, which doesn't write it.
    fn stays_empty(&self, instruction: &Instruction, granted: bool, subject: Subject) -> bool
        ensures { result ≡ spec.stays_empty self.now instruction.now granted subject }
    {
        !self.tells(subject) && !writes(instruction, granted, subject)
    }

    /// These sets, which an instruction made of others: a set that was empty there is empty here, unless it was written.
    #[tactic(auto, unfolding(crate::specs::Sets::after))]
    pub(crate) fn after(&self, before: &Sets, instruction: &Instruction, granted: bool) -> Sets
        ensures { result ≡ spec.after before.now instruction.now granted self.now }
    {
        let mut sets = *self;
        sets.keep_empty(before, instruction, granted, &OPERANDS);
        sets
    }

    /// The values that are in either of both.
    pub(crate) fn union(&self, other: &Sets) -> Sets
        ensures { result ≡ spec.union self.now other.now }
    {
        let mut contexts = self.contexts;
        unite(&mut contexts, &other.contexts);
        let mut operations = self.operations;
        unite(&mut operations, &other.operations);
        Sets {
            contexts,
            operations,
            modes: self.modes.union(other.modes),
            draining: self.draining.union(other.draining),
        }
    }

    pub(crate) fn is_same(&self, other: &Sets) -> bool
        ensures { result ≡ spec.is_same self.now other.now }
    {
        are_same(&self.contexts, &other.contexts)
            && are_same(&self.operations, &other.operations)
            && self.modes.digit() == other.modes.digit()
            && self.draining.digit() == other.draining.digit()
    }

    /// The state with these sets, all in place of an empty one, and with the locks of a state.
    #[tactic(auto, using(crate::proofs::FilledSets::filled_is_proper))]
    pub(crate) fn with_locks_of(&self, state: &Abs) -> Abs
        ensures { result ≡ spec.filled self.now state.now }
    {
        let mut contexts = self.contexts;
        fill(&mut contexts);
        let mut operations = self.operations;
        fill(&mut operations);
        let _sets = state.contexts();
        let modes = or_both(self.modes);
        let draining = or_either(self.draining);
        state
            .with_sets(contexts, operations, modes, draining)
            .unwrap()
    }
}
