//! Classes of words, and runs of tokens.

/// How a word looks, by which it is guessed what it names.
#[derive(Clone, Copy)]
pub enum Class {
    Plain,
    /// A typedef gives it.
    Type,
    /// At least two capitals, with digits and `_`.
    Capital,
}

/// The tokens that a run is made of.
#[derive(Clone, Copy)]
pub enum Part {
    /// Words of a type, before its stars.
    Type,
    /// Stars, and qualifiers among them.
    Star,
    /// Strings, and names among them.
    Text,
}

/// The role of an expression, by which it is read.
#[derive(Clone, Copy)]
pub enum Role {
    /// Any expression.
    Whole,
    /// An argument of a call, which may be a type.
    Argument,
    /// A first value or an element of braces, which may be in braces itself.
    Value,
}

/// The place of statements in another one, by which they are read.
#[derive(Clone, Copy)]
pub enum Nest {
    /// One statement or a block, after `if`, `else`, a loop or a `__try`.
    Body,
    /// The statements of a branch of a group of `#if`.
    Branch,
}
