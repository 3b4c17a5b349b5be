//! The trees of the callback language: the meaning of a text, the names and places of its parts, and the size of a callback.
//! `specs/WellFormed.antt` defines which trees are well-formed.
#![tactic(auto)]

mod filter;
mod measure;
mod tree;
mod variable;

pub use filter::{
    Action, Callback, Condition, FallibleCall, Filter, Head, Lock, PlainCall, Position, Routine,
    Span, Statement, Status, Test, named_context,
};
pub use measure::is_small;
pub use tree::Tree;
pub use variable::{
    Atom, ContextVariable, Expression, NumberVariable, OperationVariable, RemovedVariable,
};
