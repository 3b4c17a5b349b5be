//! The items of a C file: its functions, its tables of registrations, the types that it names, and what lies between. No token is left out.
//!
//! A file's tokens, from which directives are gone, are cut into chunks, each of which ends with a `;` or with the `}` of a body (`cut`, by
//! `state`). The front of a chunk says what a brace after it opens (`front`). Each branch of an `#if` that isn't decided begins at the same
//! depth of brackets (`group`). Each chunk is an item: of a function its parameters are read (`parameters`), of a table its rows (`table`,
//! `rows`), and of a `typedef` the names that it gives.
#![tactic(auto)]

mod chunk;
mod cut;
mod declarator;
mod file;
mod front;
mod group;
mod item;
mod kind;
mod parameters;
mod rows;
mod state;
mod table;
mod words;

pub use chunk::Reason;
pub use file::{items, no_token_is_left_out};
pub use item::{Element, Function, Item, Parameter, Part, Row, Table, TableKind};
pub use words::Words;
