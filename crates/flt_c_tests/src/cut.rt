//! Cuts a text into tokens at its blanks, by tables of its own. A column is the number of a token in its line.

use flt_c_syntax::Class;
use flt_c_tokens::{Kind, Token};
use std::alloc::{AllocError, Global};

static KINDS: [(&str, Kind); 85] = [
    ("if", Kind::If),
    ("else", Kind::Else),
    ("while", Kind::While),
    ("do", Kind::Do),
    ("for", Kind::For),
    ("switch", Kind::Switch),
    ("case", Kind::Case),
    ("default", Kind::Default),
    ("goto", Kind::Goto),
    ("return", Kind::Return),
    ("break", Kind::Break),
    ("continue", Kind::Continue),
    ("sizeof", Kind::Sizeof),
    ("typedef", Kind::Typedef),
    ("struct", Kind::Struct),
    ("int", Kind::TypeWord),
    ("unsigned", Kind::TypeWord),
    ("void", Kind::TypeWord),
    ("const", Kind::Qualifier),
    ("static", Kind::Qualifier),
    ("__try", Kind::Try),
    ("__finally", Kind::Finally),
    ("__except", Kind::Except),
    ("__leave", Kind::Leave),
    ("__declspec", Kind::Attribute),
    ("__asm", Kind::Assembler),
    ("static_cast", Kind::Cast),
    ("new", Kind::CPlusPlus),
    ("(", Kind::OpenParen),
    (")", Kind::CloseParen),
    ("[", Kind::OpenBracket),
    ("]", Kind::CloseBracket),
    ("{", Kind::OpenBrace),
    ("}", Kind::CloseBrace),
    (";", Kind::Semicolon),
    (",", Kind::Comma),
    (":", Kind::Colon),
    ("::", Kind::DoubleColon),
    ("?", Kind::Question),
    (".", Kind::Dot),
    ("->", Kind::Arrow),
    ("...", Kind::Ellipsis),
    ("=", Kind::Assign),
    ("+=", Kind::AssignSum),
    ("-=", Kind::AssignDifference),
    ("*=", Kind::AssignProduct),
    ("/=", Kind::AssignQuotient),
    ("%=", Kind::AssignRemainder),
    ("&=", Kind::AssignAnd),
    ("|=", Kind::AssignOr),
    ("^=", Kind::AssignXor),
    ("<<=", Kind::AssignLeft),
    (">>=", Kind::AssignRight),
    ("+", Kind::Plus),
    ("-", Kind::Minus),
    ("*", Kind::Star),
    ("/", Kind::Slash),
    ("%", Kind::Percent),
    ("&", Kind::Ampersand),
    ("|", Kind::Bar),
    ("^", Kind::Caret),
    ("~", Kind::Tilde),
    ("!", Kind::Exclamation),
    ("++", Kind::Increment),
    ("--", Kind::Decrement),
    ("<<", Kind::ShiftLeft),
    (">>", Kind::ShiftRight),
    ("<", Kind::Less),
    (">", Kind::Greater),
    ("<=", Kind::LessEqual),
    (">=", Kind::GreaterEqual),
    ("==", Kind::Equal),
    ("!=", Kind::NotEqual),
    ("&&", Kind::LogicalAnd),
    ("||", Kind::LogicalOr),
    ("1", Kind::Number),
    ("2", Kind::Number),
    ("'c'", Kind::Character),
    ("\"s\"", Kind::Text),
    ("#if", Kind::GroupIf),
    ("#else", Kind::GroupElse),
    ("#endif", Kind::GroupEnd),
    ("@", Kind::Stray),
    ("'", Kind::Unclosed),
    ("/*", Kind::OpenComment),
];

/// The words in the order of their numbers.
static WORDS: [(&str, Class); 12] = [
    ("other", Class::Plain),
    ("leave", Class::Plain),
    ("T", Class::Type),
    ("CAPITAL", Class::Capital),
    ("a", Class::Plain),
    ("b", Class::Plain),
    ("c", Class::Plain),
    ("f", Class::Plain),
    ("x", Class::Plain),
    ("1", Class::Plain),
    ("2", Class::Plain),
    ("\"s\"", Class::Plain),
];

fn kind_of(word: &str) -> Kind {
    for (spelling, kind) in &KINDS {
        if *spelling == word {
            return *kind;
        }
    }
    Kind::Name
}

/// The number of a word; that of a word which the table lacks is 0.
pub fn number_of(word: &str) -> u32 {
    let mut number = 0;
    for (spelling, _) in &WORDS {
        if *spelling == word {
            return number;
        }
        if number < 12 {
            number += 1;
        }
    }
    0
}

pub fn classes(alloc: Global) -> Result<Vec<Class>, AllocError> {
    let mut found = Vec::new(alloc);
    for (_, class) in &WORDS {
        found.push(*class)?;
    }
    Ok(found)
}

/// The tokens of a text, and the end on its last line.
pub fn cut(alloc: Global, text: &str) -> Result<Vec<Token>, AllocError> {
    let mut found = Vec::new(alloc);
    let mut line = 0;
    for words in text.split('\n') {
        if line < 1000 {
            line += 1;
        }
        let mut column = 0;
        for word in words.split(' ') {
            if word.is_empty() {
                continue;
            }
            if column < 1000 {
                column += 1;
            }
            found.push(Token {
                kind: kind_of(word),
                is_glued: false,
                word: number_of(word),
                start: 0,
                line,
                column,
            })?;
        }
    }
    found.push(Token {
        kind: Kind::End,
        is_glued: false,
        word: 0,
        start: 0,
        line,
        column: 0,
    })?;
    Ok(found)
}
