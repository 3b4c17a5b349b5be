//! The system's choices.

ghost use Rattle.std.specs.Prelude.{◌≡◌, []};
ghost use Rattle.flt_machine.specs.Calls.{instruction_for};
ghost use Rattle.flt_machine.specs.Calls as machine;
ghost use Rattle.flt_stack_core.specs.Turns as spec;

use flt_graph::Instruction;
use flt_machine::{Advanced, Loaded};
use flt_rules::Call;
use std::alloc::Global;
use std::collections::BTreeSet;

/// The system's choices: whether it grants memory or a work item that is requested.
#[derive(Drop)]
pub struct Choices {
    /// How many were committed. It stays at 2^64 - 1.
    pub made: u64,
    /// The numbers of those that are answered no, counted from 0.
    pub refused: BTreeSet<u64>,
}

impl Choices {
    /// None is committed, and none is refused.
    pub fn new(alloc: Global) -> Choices
        ensures made { result.made ≡ 0 }
        ensures refused { result.refused.keys ≡ [] }
    {
        Choices {
            made: 0,
            refused: BTreeSet::new(alloc),
        }
    }

    /// How the next one is answered.
    pub fn next(&self) -> bool
        ensures { result ≡ spec.is_granted self.now }
    {
        !self.refused.contains(&self.made)
    }

    /// The step after an advance was made. It counts if it leaves a choice: it requests memory or a work item.
    pub fn count(&mut self, loaded: &Loaded, advanced: &Advanced)
        ensures { self.new ≡ spec.counted self.old (machine.leaves_choice_at (instruction_for loaded.now advanced.now)) }
    {
        if leaves_choice(loaded, advanced) {
            self.made = self.made.saturating_add(1);
        }
    }
}

/// Whether the step after the advance asks the system for memory or for a work item.
fn leaves_choice(loaded: &Loaded, advanced: &Advanced) -> bool
    ensures { result ≡ machine.leaves_choice_at (instruction_for loaded.now advanced.now) }
{
    let instruction = loaded.instruction(
        advanced.frame.filter,
        advanced.after.callback,
        advanced.after.point,
    );
    match instruction {
        Instruction::Call(made, _, _) => matches!(
            made.roles().call,
            Call::AllocateContext | Call::QueueDeferredIoWorkItem | Call::QueueGenericWorkItem
        ),
        _ => false,
    }
}
