//! The variables of a callback, and the numbers that it computes with.

ghost use Rattle.std.specs.Prelude.{◌≡◌, ◌<◌};
ghost use Rattle.flt_tree.specs.Variable as spec;

use flt_rules::Possessed;

/// A variable of numbers, `n0` to `n7`. It is 0 at entry.
#[derive(Clone, Copy)]
pub enum NumberVariable {
    N0,
    N1,
    N2,
    N3,
    N4,
    N5,
    N6,
    N7,
}

/// A variable of contexts: `c0` to `c7`, NULL at entry, and `arg`, the context that the callback was given.
#[derive(Clone, Copy, PartialEq, Eq)]
pub enum ContextVariable {
    C0,
    C1,
    C2,
    C3,
    C4,
    C5,
    C6,
    C7,
    Arg,
}

/// A variable of operations that were removed from the queue, `o0` to `o3`. It is NULL at entry.
#[derive(Clone, Copy)]
pub enum RemovedVariable {
    O0,
    O1,
    O2,
    O3,
}

/// A variable of operations: one of `o0` to `o3`, or `data`, the operation that the callback was given.
#[derive(Clone, Copy)]
pub enum OperationVariable {
    Removed(RemovedVariable),
    Data,
}

/// A number as it is written, or a variable of numbers.
#[derive(Clone, Copy)]
pub enum Atom {
    Number(u64),
    Variable(NumberVariable),
}

/// The value to which a variable of numbers is set. Sums and differences wrap at 2^64.
#[derive(Clone, Copy)]
pub enum Expression {
    Atom(Atom),
    Sum(Atom, Atom),
    Difference(Atom, Atom),
}

impl NumberVariable {
    /// The index of the variable among `n0` to `n7`.
    pub fn place(self) -> usize
        ensures value { result ≡ spec.number_place self }
        ensures within { result < 8 }
    {
        match self {
            NumberVariable::N0 => 0,
            NumberVariable::N1 => 1,
            NumberVariable::N2 => 2,
            NumberVariable::N3 => 3,
            NumberVariable::N4 => 4,
            NumberVariable::N5 => 5,
            NumberVariable::N6 => 6,
            NumberVariable::N7 => 7,
        }
    }
}

impl ContextVariable {
    /// The index of the variable among `c0` to `c7` and `arg`.
    pub fn place(self) -> usize
        ensures value { result ≡ spec.context_place self }
        ensures within { result < 9 }
    {
        match self {
            ContextVariable::C0 => 0,
            ContextVariable::C1 => 1,
            ContextVariable::C2 => 2,
            ContextVariable::C3 => 3,
            ContextVariable::C4 => 4,
            ContextVariable::C5 => 5,
            ContextVariable::C6 => 6,
            ContextVariable::C7 => 7,
            ContextVariable::Arg => 8,
        }
    }
}

impl OperationVariable {
    /// The index of the variable among `o0` to `o3` and `data`.
    pub fn place(self) -> usize
        ensures value { result ≡ spec.operation_place self }
        ensures within { result < 5 }
    {
        match self {
            OperationVariable::Removed(RemovedVariable::O0) => 0,
            OperationVariable::Removed(RemovedVariable::O1) => 1,
            OperationVariable::Removed(RemovedVariable::O2) => 2,
            OperationVariable::Removed(RemovedVariable::O3) => 3,
            OperationVariable::Data => 4,
        }
    }

    /// Whether it names the operation that the callback was given, or one that was removed from the queue.
    pub fn whose(self) -> Possessed
        ensures { result ≡ spec.whose self }
    {
        match self {
            OperationVariable::Data => Possessed::Given,
            OperationVariable::Removed(_) => Possessed::Removed,
        }
    }
}
