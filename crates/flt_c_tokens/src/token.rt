//! Tokens of a C file, and their places.

/// The kinds of token. Comments and blanks are none.
#[derive(Clone, Copy, PartialEq, Eq)]
pub enum Kind {
    // Words: each has a spelling.
    /// A word that the grammar does not name.
    Name,
    /// A number as the preprocessor cuts it.
    Number,
    /// A character constant, with its prefix.
    Character,
    /// A string, with its prefix.
    Text,
    // Words that the grammar names.
    If,
    Else,
    While,
    Do,
    For,
    Switch,
    Case,
    Default,
    Goto,
    Return,
    Break,
    Continue,
    Sizeof,
    Typedef,
    /// `struct`, `union` or `enum`.
    Struct,
    /// A word of a type: `void`, `char`, `int`, `unsigned`, `__int64` ..
    TypeWord,
    /// A word beside a type: `const`, `static`, `__inline`, `__stdcall` ..
    Qualifier,
    /// `__try` or `try`.
    Try,
    /// `__finally` or `finally`.
    Finally,
    /// `__except` or `except`.
    Except,
    /// `__leave`. The name `leave` is a name.
    Leave,
    /// A word before a group in round brackets that changes nothing a function does: `__declspec`, `__attribute__` ..
    Attribute,
    /// `asm`, `__asm` or `__asm__`.
    Assembler,
    /// `static_cast`, `reinterpret_cast`, `const_cast` or `dynamic_cast`.
    Cast,
    /// A word of C++ that isn't read: `new`, `delete`, `throw`, `template` ..
    CPlusPlus,
    // Signs.
    OpenParen,
    CloseParen,
    OpenBracket,
    CloseBracket,
    OpenBrace,
    CloseBrace,
    Semicolon,
    Comma,
    Colon,
    DoubleColon,
    Question,
    Dot,
    Arrow,
    Ellipsis,
    Assign,
    AssignSum,
    AssignDifference,
    AssignProduct,
    AssignQuotient,
    AssignRemainder,
    AssignAnd,
    AssignOr,
    AssignXor,
    AssignLeft,
    AssignRight,
    Plus,
    Minus,
    Star,
    Slash,
    Percent,
    Ampersand,
    Bar,
    Caret,
    Tilde,
    Exclamation,
    Increment,
    Decrement,
    ShiftLeft,
    ShiftRight,
    Less,
    Greater,
    LessEqual,
    GreaterEqual,
    Equal,
    NotEqual,
    /// `&&`
    LogicalAnd,
    /// `||`
    LogicalOr,
    Hash,
    HashHash,
    // Directives.
    /// The `#` that begins a line.
    Directive,
    /// The end of a directive's line.
    LineEnd,
    // Groups of `#if` that can't be decided. No file has these: what decides conditions writes them, with the condition's spelling.
    GroupIf,
    GroupElse,
    GroupEnd,
    /// A header, in the place of its name in a line of `#include`. No file has it: what reads headers writes it, and its number is the header's.
    Header,
    // What can't be read.
    /// A byte with which no token begins.
    Stray,
    /// A quote that does not end in its line.
    Unclosed,
    /// Line continuations between two bytes that would make one word or one sign.
    Joined,
    /// A block comment without an end.
    OpenComment,
    /// The end of the file.
    End,
}

/// A token, the number of its spelling, and the place of its first byte. A token without a spelling has the number 0.
#[derive(Clone, Copy)]
pub struct Token {
    pub kind: Kind,
    /// Whether neither a blank nor a comment comes before it.
    pub is_glued: bool,
    pub word: u32,
    /// The first byte in its file, from 0.
    pub start: u32,
    /// From 1.
    pub line: u32,
    /// From 1; a byte is a column.
    pub column: u32,
}
