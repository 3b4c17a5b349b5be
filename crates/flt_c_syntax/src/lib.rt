//! The statements and expressions of a function of C: their grammar, and the tree that the tokens of a body spell or their first fault.
#![tactic(auto)]

mod body;
mod class;
mod cursor;
mod declaration;
mod expression;
mod fault;
mod group;
mod operator;
mod statement;
mod tree;
mod types;

pub use body::{read_body, spells_at_most_one};
pub use class::Class;
pub use fault::{Fault, ReadError, Reason};
pub use tree::{
    Branch, Declarator, Designator, Expression, Form, Initialiser, Link, Operator, Place, Prefix,
    Specifier, Statement, Suffix, TypeName,
};
