//! How far an activation has come, and its variables.

ghost use Rattle.std.specs.Prelude.{◌≡◌, ◌↔◌, [], List, slice_get, IsTrue};
ghost use Rattle.flt_model.specs.Program as program;
ghost use Rattle.flt_model.specs.Variables as model;
ghost use Rattle.flt_machine_frames.specs.Standings as spec;
ghost use Rattle.flt_tree.specs.declared.filter.Callback.{Callback};

use crate::held_locks::HeldLocks;
use crate::turns::Turns;
use flt_graph::lists_have_turns;
use flt_model::Variables;
use flt_tree::{ContextVariable, NumberVariable, OperationVariable};

/// How far an activation has come: its point, its variables and the locks that it holds. A variable keeps its number when the object that
/// it names is released or handed over.
#[derive(Clone, Copy)]
pub struct Standing {
    /// The number of its callback, from 0.
    pub callback: usize,
    /// The point of the first statement that remains, from 0.
    pub point: usize,
    pub turns: Turns,
    pub numbers: [u64; 8],
    pub contexts: [Option<usize>; 9],
    pub operations: [Option<usize>; 5],
    pub locks: HeldLocks,
    /// How often it gained the visit that it was given.
    pub gained: u64,
    /// How often it lost that visit.
    pub lost: u64,
}

fn are_same_numbers(left: &[u64], right: &[u64]) -> bool
    ensures { IsTrue result ↔ (left.now ≡ right.now) }
{
    left == right
}

fn are_same_names(left: &[Option<usize>], right: &[Option<usize>]) -> bool
    ensures { IsTrue result ↔ (left.now ≡ right.now) }
{
    left == right
}

impl Standing {
    /// At entry all is 0 or NULL but the given operation and the given context. Nothing is gained or lost yet. A callback that isn't
    /// there has an empty body.
    pub fn starting(callback: usize, given: Option<usize>, arg: Option<usize>) -> Standing
        ensures stands { (cs : List Callback) →
            spec.StandsFor cs result (model.starting (program.body_of (slice_get cs callback)) given arg) }
        ensures gained { result.gained ≡ 0 }
        ensures lost { result.lost ≡ 0 }
    {
        lists_have_turns();
        Standing {
            callback,
            point: 0,
            turns: Turns::none(),
            numbers: [0; 8],
            contexts: [None, None, None, None, None, None, None, None, arg],
            operations: [None, None, None, None, given],
            locks: HeldLocks::none(),
            gained: 0,
            lost: 0,
        }
    }

    // ---- variables

    /// Sets a number variable.
    pub fn set_number(&mut self, variable: NumberVariable, value: u64)
        ensures { self.new ≡ spec.with_variables self.old (model.with_number (spec.activation_with self.old []) variable value) }
    {
        let place = variable.place();
        self.numbers[place] = value;
    }

    /// Sets a context variable, or makes it NULL.
    pub fn set_context(&mut self, variable: ContextVariable, context: Option<usize>)
        ensures { self.new ≡ spec.with_variables self.old (model.with_context_in (spec.activation_with self.old []) variable context) }
    {
        let place = variable.place();
        self.contexts[place] = context;
    }

    /// Sets an operation variable, or makes it NULL.
    pub fn set_operation(&mut self, variable: OperationVariable, visit: Option<usize>)
        ensures { self.new ≡ spec.with_variables self.old (model.with_operation_in (spec.activation_with self.old []) variable visit) }
    {
        let place = variable.place();
        self.operations[place] = visit;
    }

    // ---- equality

    fn has_same_variables(&self, other: &Standing) -> bool
        ensures { IsTrue result ↔ spec.HaveSameVariables self.now other.now }
    {
        are_same_numbers(&self.numbers, &other.numbers)
            && are_same_names(&self.contexts, &other.contexts)
            && are_same_names(&self.operations, &other.operations)
    }

    fn has_same_place(&self, other: &Standing) -> bool
        ensures { IsTrue result ↔ spec.HaveSamePlace self.now other.now }
    {
        self.callback == other.callback
            && self.point == other.point
            && self.turns.is_same(&other.turns)
    }

    /// Whether both are one and the same in all that they say.
    pub fn is_same(&self, other: &Standing) -> bool
        ensures { IsTrue result ↔ (self.now ≡ other.now) }
    {
        self.has_same_place(other)
            && self.has_same_variables(other)
            && self.locks.is_same(&other.locks)
            && self.gained == other.gained
            && self.lost == other.lost
    }
}

impl Variables for Standing {
    ghost activation = { λ s. spec.activation_with s [] };

    fn number(&self, variable: NumberVariable) -> u64
        ensures { result ≡ model.number_in (spec.activation_with self.now []) variable }
    {
        self.numbers[variable.place()]
    }

    fn context(&self, variable: ContextVariable) -> Option<usize>
        ensures { result ≡ model.context_in (spec.activation_with self.now []) variable }
    {
        self.contexts[variable.place()]
    }

    fn operation(&self, variable: OperationVariable) -> Option<usize>
        ensures { result ≡ model.operation_in (spec.activation_with self.now []) variable }
    {
        self.operations[variable.place()]
    }
}
