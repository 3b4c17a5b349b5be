//! Trees of the statements and expressions of C. A word is the number of its spelling; a place is that of the first token.

use sqlite_items::{Boxed, Items};

/// A line and a column, each counted from 1.
#[derive(Clone, Copy)]
pub struct Place {
    pub line: u32,
    pub column: u32,
}

/// An operator between two operands.
#[derive(Clone, Copy)]
pub enum Operator {
    Product,
    Quotient,
    Remainder,
    Sum,
    Difference,
    ShiftLeft,
    ShiftRight,
    Less,
    Greater,
    LessEqual,
    GreaterEqual,
    Equal,
    NotEqual,
    BitAnd,
    BitXor,
    BitOr,
    And,
    Or,
    Assign,
    AssignSum,
    AssignDifference,
    AssignProduct,
    AssignQuotient,
    AssignRemainder,
    AssignAnd,
    AssignOr,
    AssignXor,
    AssignLeft,
    AssignRight,
    Comma,
}

/// The words of a type, and how many stars come after them. Qualifiers among the stars are left out.
#[derive(Drop)]
pub struct TypeName {
    pub words: Items<u32>,
    pub stars: usize,
}

/// A sign, `sizeof` or a cast before an operand.
#[derive(Drop)]
pub enum Prefix {
    Not,
    Complement,
    Minus,
    Plus,
    Address,
    Content,
    Increment,
    Decrement,
    SizeOf,
    Cast(TypeName),
}

/// An expression. Round brackets have no node of their own.
#[cycle(tree)]
#[derive(Drop)]
pub enum Expression {
    Name(Place, u32),
    Number(Place, u32),
    Character(Place, u32),
    /// Strings one after another, and names among them, each of which is a macro's.
    Text(Place, Items<u32>),
    /// A type as an argument of a call.
    Type(Place, TypeName),
    /// `sizeof` of a type.
    SizeOf(Place, TypeName),
    /// `(T){ .. }`
    Compound(Place, TypeName, Items<Initialiser>),
    /// `{ .. }`
    Braces(Place, Items<Initialiser>),
    /// The first prefix is the outermost.
    Prefixed(Place, Items<Prefix>, Boxed<Expression>),
    /// The first suffix is the innermost.
    Suffixed(Place, Boxed<Expression>, Items<Suffix>),
    /// A first operand, and operators of one level, each with the operand after it. They group from the left; assignments and choices
    /// group from the right.
    Linked(Place, Boxed<Expression>, Items<Link>),
}

/// A call, an index, a member or a sign after an operand.
#[cycle(tree)]
#[derive(Drop)]
pub enum Suffix {
    Call(Items<Expression>),
    Index(Boxed<Expression>),
    /// `.NAME`
    Member(u32),
    /// `->NAME`
    Arrow(u32),
    /// `::NAME`
    Scope(u32),
    Increment,
    Decrement,
}

/// An operator with the operand after it.
#[cycle(tree)]
#[derive(Drop)]
pub enum Link {
    Operated(Operator, Boxed<Expression>),
    /// `? middle : operand`; the middle may be missing.
    Choice(Option<Boxed<Expression>>, Boxed<Expression>),
}

/// `.NAME` or `[index]`.
#[cycle(tree)]
#[derive(Drop)]
pub enum Designator {
    Member(u32),
    Index(Boxed<Expression>),
}

/// An element of braces.
#[cycle(tree)]
#[derive(Drop)]
pub enum Initialiser {
    Plain(Boxed<Expression>),
    Designated(Items<Designator>, Boxed<Expression>),
}

/// A word of a declaration before its declarators.
#[derive(Clone, Copy)]
pub enum Specifier {
    Word(u32),
    /// `__declspec` or the like, with a group in brackets.
    Attribute(u32),
    /// The members of a structure, or the names of an enumeration.
    Members,
}

/// The brackets of a declared name, which say what it is.
#[derive(Clone, Copy)]
pub enum Form {
    Plain,
    Array,
    /// A function without its body.
    Prototype,
    /// A pointer to a function.
    FunctionPointer,
}

/// A declared name, how many stars it has, and its first value. Bounds and parameters are left out.
#[derive(Drop)]
pub struct Declarator {
    pub place: Place,
    pub name: u32,
    pub stars: usize,
    pub form: Form,
    pub value: Option<Boxed<Expression>>,
}

/// A statement.
#[cycle(statement)]
#[derive(Drop)]
pub enum Statement {
    Empty(Place),
    Expression(Place, Boxed<Expression>),
    Declaration(Place, Items<Specifier>, Items<Declarator>),
    /// `__declspec` or the like by itself.
    Attribute(Place, u32),
    Typedef(Place),
    /// `NAME(..)` without a semicolon, if the next token is on a later line.
    Macro(Place, u32, Items<Expression>),
    /// `NAME(..)` before a statement: a loop of which nothing is known.
    Loop(Place, u32, Items<Expression>, Items<Statement>),
    Label(Place, u32),
    /// `case first:` or `case first ... last:`
    Case(Place, Boxed<Expression>, Option<Boxed<Expression>>),
    Default(Place),
    /// The branches of `if` and of each `else if`, and the statements of `else`.
    If(Place, Items<Branch>, Items<Statement>),
    While(Place, Boxed<Expression>, Items<Statement>),
    Do(Place, Items<Statement>, Boxed<Expression>),
    /// The first part, the test, the step after each turn, and the turn.
    For(
        Place,
        Items<Statement>,
        Option<Boxed<Expression>>,
        Option<Boxed<Expression>>,
        Items<Statement>,
    ),
    Switch(Place, Boxed<Expression>, Items<Statement>),
    Goto(Place, u32),
    Return(Place, Option<Boxed<Expression>>),
    Break(Place),
    Continue(Place),
    Leave(Place),
    Finally(Place, Items<Statement>, Items<Statement>),
    Except(Place, Items<Statement>, Boxed<Expression>, Items<Statement>),
    Block(Place, Items<Statement>),
    /// The branches of a group of `#if`.
    Group(Place, Items<Branch>),
}

/// A branch, and when it is taken.
#[cycle(statement)]
#[derive(Drop)]
pub enum Branch {
    If(Boxed<Expression>, Items<Statement>),
    /// By the word of a condition.
    Directive(u32, Items<Statement>),
}
