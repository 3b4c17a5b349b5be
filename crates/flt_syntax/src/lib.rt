//! How a text of the callback language is read: its tokens, its grammar, and the tree that it spells or its first fault.
#![tactic(auto)]

mod action;
mod call;
mod condition;
mod cursor;
mod fails;
mod fault;
mod file;
mod head;
mod lex;
mod names;
mod naming;
mod operand;
mod scope;
mod shape;
mod spelled;
mod statement;
mod status;
mod texts;
mod token;
mod vocabulary;
mod whole;
mod words;

pub use cursor::bytes_of;
pub use fails::{fails_exactly_where_nothing_is_spelled, the_fault_is_the_one_told};
pub use fault::{FaultKind, ParseError, SyntaxFault};
pub use file::{parse, spelled_is_well_formed, spells_at_most_one};
pub use flt_tree::{
    Action, Atom, Callback, Condition, ContextVariable, Expression, FallibleCall, Filter, Head,
    Lock, NumberVariable, OperationVariable, PlainCall, Position, RemovedVariable, Routine,
    Statement, Status, Test, Tree, named_context,
};
pub use lex::{reads_back_words, same_kind, tokens};
pub use shape::{
    ContextEnd, ContextSource, FallibleShape, LockCall, PlainShape, QueueCall, Slot, Tail,
    fallible_shape_of, plain_shape_of, slots_of,
};
pub use spelled::spelled_is_read;
pub use texts::{TextsFault, parse_all};
pub use token::{Kind, Token, Word};
pub use vocabulary::keywords;
