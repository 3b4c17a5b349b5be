//! Items: the functions, tables and type names of a file, and all else in it.

use crate::chunk::Reason;
use flt_c_tokens::Token;
use sqlite_items::Items;

/// A parameter of a function. Words are numbers of spellings, 0 for none.
#[derive(Clone, Copy)]
pub struct Parameter {
    pub name: u32,
    /// The last word of its type, as `INT` of `CONST INT *x`.
    pub type_word: u32,
    /// The number of stars outside of brackets.
    pub stars: usize,
}

/// A function. Its body is the tokens from its `{`, which has the number `body` in its file, up to the end of its item.
#[derive(Drop)]
pub struct Function {
    pub name: Token,
    pub is_static: bool,
    pub parameters: Items<Parameter>,
    pub body: usize,
}

/// The tables that a driver registers with.
#[derive(Clone, Copy, PartialEq, Eq)]
pub enum TableKind {
    /// `FLT_OPERATION_REGISTRATION`
    Operations,
    /// `FLT_CONTEXT_REGISTRATION`
    Contexts,
    /// `FLT_REGISTRATION`
    Registration,
}

/// An element between commas: the tokens of its file from number `from` up to number `to`, after its designator if it has one.
#[derive(Clone, Copy)]
pub struct Element {
    /// The number of the name in `.NAME =`, or 0.
    pub name: u32,
    pub from: usize,
    pub to: usize,
}

/// The elements of a row.
#[derive(Drop)]
pub struct Row {
    pub elements: Items<Element>,
}

/// A table with its values.
#[derive(Drop)]
pub struct Table {
    pub kind: TableKind,
    pub name: Token,
    /// A row for each pair of inner braces; of a registration the one row that its braces have.
    pub rows: Items<Row>,
}

/// The kinds of item, each with all that is read of it.
#[derive(Drop)]
pub enum Part {
    Function(Function),
    Table(Table),
    /// The names that a `typedef` gives.
    Types(Items<u32>),
    /// A declaration, a prototype, a line of an `#if`, a brace of a region, or the end of the file.
    Other,
    /// Unreadable from the item's first token on.
    Unread(Reason),
}

/// An item: the tokens of its file from number `from` up to, but without, number `to`. Numbers are from 0.
#[derive(Drop)]
pub struct Item {
    pub from: usize,
    pub to: usize,
    pub part: Part,
}
