//! The tokens of C files: each rule by which bytes become tokens.

use flt_c_tokens::{Kind, LEAVE, Spellings, Token, tokens};
use std::alloc::{AllocError, Global};
use std::test::Fail;

/// Comments, strings, character constants, numbers and names.
static PIECES: [(&[u8], &[Kind]); 24] = [
    (b"", &[Kind::End]),
    // Comments are blanks. One of a line goes on behind a backslash, one of a block ends at the first star with a slash.
    (b"a//b\\\nc\nd", &[Kind::Name, Kind::Name, Kind::End]),
    (b"a//b\\\r\nc\nd", &[Kind::Name, Kind::Name, Kind::End]),
    (
        b"a/*b*/c/**/d/***/",
        &[Kind::Name, Kind::Name, Kind::Name, Kind::End],
    ),
    (b"/*/ a */b", &[Kind::Name, Kind::End]),
    (b"/* *\\\n/ a", &[Kind::Name, Kind::End]),
    (b"a /* b", &[Kind::Name, Kind::OpenComment, Kind::End]),
    (b"a /*/", &[Kind::Name, Kind::OpenComment, Kind::End]),
    // A quote has escapes and prefixes, and goes on behind a backslash.
    (
        b"\"a\\\"b\" 'c' '\\''",
        &[Kind::Text, Kind::Character, Kind::Character, Kind::End],
    ),
    (
        b"L\"a\" u8\"b\" U'c' u'd' x\"e\" L \"f\"",
        &[
            Kind::Text,
            Kind::Text,
            Kind::Character,
            Kind::Character,
            Kind::Name,
            Kind::Text,
            Kind::Name,
            Kind::Text,
            Kind::End,
        ],
    ),
    (b"\"a\\\nb\" c", &[Kind::Text, Kind::Name, Kind::End]),
    // The second backslash and the line feed are nothing, so the first one escapes the quote after them.
    (b"\"a\\\\\n\"b\"", &[Kind::Text, Kind::End]),
    (b"\"a\nb", &[Kind::Unclosed, Kind::Name, Kind::End]),
    (b"'a", &[Kind::Unclosed, Kind::End]),
    // Raw strings.
    (
        b"R\"x(a\n\\\")y\" )x\" b",
        &[Kind::Text, Kind::Name, Kind::End],
    ),
    (b"u8R\"()\"a", &[Kind::Text, Kind::Name, Kind::End]),
    (b"R\"(a\nb", &[Kind::Unclosed, Kind::End]),
    (b"R\"a\"", &[Kind::Name, Kind::Text, Kind::End]),
    (b"R'a'", &[Kind::Name, Kind::Character, Kind::End]),
    (
        b"R\"abcdefghijklmnopq(a)abcdefghijklmnopq\"",
        &[Kind::Name, Kind::Text, Kind::End],
    ),
    // Numbers are cut as the preprocessor cuts them.
    (
        b"1 0x1F 1.5e+3 .5 1'000 0x1p-3 1e+ 3..4",
        &[
            Kind::Number,
            Kind::Number,
            Kind::Number,
            Kind::Number,
            Kind::Number,
            Kind::Number,
            Kind::Number,
            Kind::Number,
            Kind::End,
        ],
    ),
    (
        b"1+2 a.b 1' '",
        &[
            Kind::Number,
            Kind::Plus,
            Kind::Number,
            Kind::Name,
            Kind::Dot,
            Kind::Name,
            Kind::Number,
            Kind::Character,
            Kind::End,
        ],
    ),
    (
        b"_a $b \xc3\xa4 a1 iff",
        &[
            Kind::Name,
            Kind::Name,
            Kind::Name,
            Kind::Name,
            Kind::Name,
            Kind::End,
        ],
    ),
    // No token begins with these.
    (
        b"@ ` \x01 \0 \\",
        &[
            Kind::Stray,
            Kind::Stray,
            Kind::Stray,
            Kind::Stray,
            Kind::Stray,
            Kind::End,
        ],
    ),
];

/// Signs: the longest is taken.
static SIGNS: [(&[u8], &[Kind]); 8] = [
    (
        b"( ) [ ] { } ; , : :: ? . -> ... = += -= *= /= %= &= |= ^= <<= >>=",
        &[
            Kind::OpenParen,
            Kind::CloseParen,
            Kind::OpenBracket,
            Kind::CloseBracket,
            Kind::OpenBrace,
            Kind::CloseBrace,
            Kind::Semicolon,
            Kind::Comma,
            Kind::Colon,
            Kind::DoubleColon,
            Kind::Question,
            Kind::Dot,
            Kind::Arrow,
            Kind::Ellipsis,
            Kind::Assign,
            Kind::AssignSum,
            Kind::AssignDifference,
            Kind::AssignProduct,
            Kind::AssignQuotient,
            Kind::AssignRemainder,
            Kind::AssignAnd,
            Kind::AssignOr,
            Kind::AssignXor,
            Kind::AssignLeft,
            Kind::AssignRight,
            Kind::End,
        ],
    ),
    (
        b"+ - * / % & | ^ ~ ! ++ -- << >> < > <= >= == != && || # ##",
        &[
            Kind::Plus,
            Kind::Minus,
            Kind::Star,
            Kind::Slash,
            Kind::Percent,
            Kind::Ampersand,
            Kind::Bar,
            Kind::Caret,
            Kind::Tilde,
            Kind::Exclamation,
            Kind::Increment,
            Kind::Decrement,
            Kind::ShiftLeft,
            Kind::ShiftRight,
            Kind::Less,
            Kind::Greater,
            Kind::LessEqual,
            Kind::GreaterEqual,
            Kind::Equal,
            Kind::NotEqual,
            Kind::LogicalAnd,
            Kind::LogicalOr,
            Kind::Hash,
            Kind::HashHash,
            Kind::End,
        ],
    ),
    (
        b"a>>>=b+++c--->d",
        &[
            Kind::Name,
            Kind::ShiftRight,
            Kind::GreaterEqual,
            Kind::Name,
            Kind::Increment,
            Kind::Plus,
            Kind::Name,
            Kind::Decrement,
            Kind::Arrow,
            Kind::Name,
            Kind::End,
        ],
    ),
    (
        b"....&&&",
        &[
            Kind::Ellipsis,
            Kind::Dot,
            Kind::LogicalAnd,
            Kind::Ampersand,
            Kind::End,
        ],
    ),
    (b"..", &[Kind::Dot, Kind::Dot, Kind::End]),
    (b"!", &[Kind::Exclamation, Kind::End]),
    (
        b"<: :> <% %> %: %:%: %:%",
        &[
            Kind::OpenBracket,
            Kind::CloseBracket,
            Kind::OpenBrace,
            Kind::CloseBrace,
            Kind::Hash,
            Kind::HashHash,
            Kind::Hash,
            Kind::Percent,
            Kind::End,
        ],
    ),
    (
        b"%:a",
        &[Kind::Directive, Kind::Name, Kind::LineEnd, Kind::End],
    ),
];

/// Lines that continue after a backslash, and directives.
static LINES: [(&[u8], &[Kind]); 24] = [
    (b"a \\\n b", &[Kind::Name, Kind::Name, Kind::End]),
    (b"a\\\n b", &[Kind::Name, Kind::Name, Kind::End]),
    (
        b"a\\\nb",
        &[Kind::Name, Kind::Joined, Kind::Name, Kind::End],
    ),
    (
        b"a\\\n\\\r\nb",
        &[Kind::Name, Kind::Joined, Kind::Name, Kind::End],
    ),
    (
        b"+\\\n=",
        &[Kind::Plus, Kind::Joined, Kind::Assign, Kind::End],
    ),
    (
        b"/\\\n/",
        &[Kind::Slash, Kind::Joined, Kind::Slash, Kind::End],
    ),
    (
        b"1\\\n.5",
        &[Kind::Number, Kind::Joined, Kind::Number, Kind::End],
    ),
    (b"a\\\n+", &[Kind::Name, Kind::Plus, Kind::End]),
    (b"(\\\n)", &[Kind::OpenParen, Kind::CloseParen, Kind::End]),
    (b"\"a\"\\\n\"b\"", &[Kind::Text, Kind::Text, Kind::End]),
    (b"a\\\n", &[Kind::Name, Kind::End]),
    (b"a\\\rb", &[Kind::Name, Kind::Stray, Kind::Name, Kind::End]),
    (
        b"#define A 1\nb",
        &[
            Kind::Directive,
            Kind::Name,
            Kind::Name,
            Kind::Number,
            Kind::LineEnd,
            Kind::Name,
            Kind::End,
        ],
    ),
    (
        b"  # if x\\\n y\nz",
        &[
            Kind::Directive,
            Kind::If,
            Kind::Name,
            Kind::Name,
            Kind::LineEnd,
            Kind::Name,
            Kind::End,
        ],
    ),
    (
        b"a # b\nc",
        &[Kind::Name, Kind::Hash, Kind::Name, Kind::Name, Kind::End],
    ),
    // A comment is a blank of the line in which it begins.
    (
        b"/*\n*/ #a\n",
        &[Kind::Directive, Kind::Name, Kind::LineEnd, Kind::End],
    ),
    (
        b"a /*\n*/ # b",
        &[Kind::Name, Kind::Hash, Kind::Name, Kind::End],
    ),
    (
        b"#a /*\n*/ b\nc",
        &[
            Kind::Directive,
            Kind::Name,
            Kind::Name,
            Kind::LineEnd,
            Kind::Name,
            Kind::End,
        ],
    ),
    (
        b"#a // b\\\nc\nd",
        &[
            Kind::Directive,
            Kind::Name,
            Kind::LineEnd,
            Kind::Name,
            Kind::End,
        ],
    ),
    (
        b"#error don't\na",
        &[
            Kind::Directive,
            Kind::Name,
            Kind::Name,
            Kind::Unclosed,
            Kind::LineEnd,
            Kind::Name,
            Kind::End,
        ],
    ),
    (
        b"#include <a.h>\n",
        &[
            Kind::Directive,
            Kind::Name,
            Kind::Less,
            Kind::Name,
            Kind::Dot,
            Kind::Name,
            Kind::Greater,
            Kind::LineEnd,
            Kind::End,
        ],
    ),
    (
        b"#\n#\n",
        &[
            Kind::Directive,
            Kind::LineEnd,
            Kind::Directive,
            Kind::LineEnd,
            Kind::End,
        ],
    ),
    (b"#", &[Kind::Directive, Kind::LineEnd, Kind::End]),
    (b"##", &[Kind::HashHash, Kind::End]),
];

/// The words of C.
static WORDS: [(&[u8], &[Kind]); 5] = [
    (
        b"if else while do for switch case default goto return break continue",
        &[
            Kind::If,
            Kind::Else,
            Kind::While,
            Kind::Do,
            Kind::For,
            Kind::Switch,
            Kind::Case,
            Kind::Default,
            Kind::Goto,
            Kind::Return,
            Kind::Break,
            Kind::Continue,
            Kind::End,
        ],
    ),
    (
        b"__try try __finally finally __except except __leave leave sizeof typedef struct union enum",
        &[
            Kind::Try,
            Kind::Try,
            Kind::Finally,
            Kind::Finally,
            Kind::Except,
            Kind::Except,
            Kind::Leave,
            Kind::Name,
            Kind::Sizeof,
            Kind::Typedef,
            Kind::Struct,
            Kind::Struct,
            Kind::Struct,
            Kind::End,
        ],
    ),
    (
        b"void __int64 const __inline __stdcall constexpr",
        &[
            Kind::TypeWord,
            Kind::TypeWord,
            Kind::Qualifier,
            Kind::Qualifier,
            Kind::Qualifier,
            Kind::Qualifier,
            Kind::End,
        ],
    ),
    (
        b"__declspec __pragma asm __asm__ static_cast dynamic_cast new catch",
        &[
            Kind::Attribute,
            Kind::Attribute,
            Kind::Assembler,
            Kind::Assembler,
            Kind::Cast,
            Kind::Cast,
            Kind::CPlusPlus,
            Kind::CPlusPlus,
            Kind::End,
        ],
    ),
    (b"\"if\" 'if'", &[Kind::Text, Kind::Character, Kind::End]),
];

/// The place of each token of a file: line, column, first byte, and whether no blank and no comment comes before it.
static PLACES: [(&[u8], &[(u32, u32, u32, bool)]); 4] = [
    (
        b"a+ b\r\n  \"c\"/**/d",
        &[
            (1, 1, 0, true),
            (1, 2, 1, true),
            (1, 4, 3, false),
            (2, 3, 8, false),
            (2, 10, 15, false),
            (2, 11, 16, true),
        ],
    ),
    (
        b"/*\n*/a\\\n b",
        &[(2, 3, 5, false), (3, 2, 9, false), (3, 3, 10, true)],
    ),
    (
        b"#a\nb",
        &[
            (1, 1, 0, true),
            (1, 2, 1, true),
            (1, 3, 2, true),
            (2, 1, 3, false),
            (2, 2, 4, true),
        ],
    ),
    (
        b"a\\\nb\n",
        &[
            (1, 1, 0, true),
            (1, 2, 1, true),
            (2, 1, 3, true),
            (3, 1, 5, false),
        ],
    ),
];

/// The tokens of a file by themselves.
fn tokens_of(alloc: Global, file: &[u8]) -> Result<Vec<Token>, AllocError> {
    let mut spellings = Spellings::new(alloc)?;
    match tokens(alloc, &mut spellings, file)? {
        Ok(found) => Ok(found),
        Err(_) => Ok(Vec::new(alloc)),
    }
}

/// Whether a file's tokens are of these kinds.
fn are_kinds(alloc: Global, file: &[u8], kinds: &[Kind]) -> Result<bool, AllocError> {
    let found = tokens_of(alloc, file)?;
    if found.len() != kinds.len() {
        return Ok(false);
    }
    for (token, kind) in found.iter().zip(kinds.iter()) {
        if token.kind != *kind {
            return Ok(false);
        }
    }
    Ok(true)
}

/// The first row whose tokens are of other kinds.
fn wrong_kinds(alloc: Global, rows: &[(&[u8], &[Kind])]) -> Result<Option<usize>, AllocError> {
    for (row, (file, kinds)) in rows.iter().enumerate() {
        if !are_kinds(alloc, file, kinds)? {
            return Ok(Some(row));
        }
    }
    Ok(None)
}

/// Whether a file's tokens are at these places.
fn are_places(
    alloc: Global,
    file: &[u8],
    places: &[(u32, u32, u32, bool)],
) -> Result<bool, AllocError> {
    let found = tokens_of(alloc, file)?;
    if found.len() != places.len() {
        return Ok(false);
    }
    for (token, (line, column, start, is_glued)) in found.iter().zip(places.iter()) {
        if token.line != *line || token.column != *column {
            return Ok(false);
        }
        if token.start != *start || token.is_glued != *is_glued {
            return Ok(false);
        }
    }
    Ok(true)
}

/// The first row whose tokens are elsewhere.
fn wrong_places(
    alloc: Global,
    rows: &[(&[u8], &[(u32, u32, u32, bool)])],
) -> Result<Option<usize>, AllocError> {
    for (row, (file, places)) in rows.iter().enumerate() {
        if !are_places(alloc, file, places)? {
            return Ok(Some(row));
        }
    }
    Ok(None)
}

/// The numbers of a file's words, with the spellings of the files before it.
fn words_of(alloc: Global, spellings: &mut Spellings, file: &[u8]) -> Result<Vec<u32>, AllocError> {
    let mut words = Vec::new(alloc);
    if let Ok(found) = tokens(alloc, spellings, file)? {
        for token in &found {
            words.push(token.word)?;
        }
    }
    Ok(words)
}

#[test]
fn each_byte_of_a_c_file_is_of_its_token(rt: HostRuntime) -> Result<(), Fail> {
    assert!(rt; wrong_kinds(rt.alloc(), &PIECES)?.is_none());
    assert!(rt; wrong_kinds(rt.alloc(), &SIGNS)?.is_none());
    assert!(rt; wrong_kinds(rt.alloc(), &LINES)?.is_none());
    assert!(rt; wrong_kinds(rt.alloc(), &WORDS)?.is_none());
    assert!(rt; wrong_places(rt.alloc(), &PLACES)?.is_none());
    Ok(())
}

/// `tools/refuse-allocations.sh tests flt_c_tests memory` refuses each request for memory in turn.
#[test]
fn files_share_their_spellings_within_memory(rt: HostRuntime) -> Result<(), Fail> {
    let alloc = rt.alloc();
    let mut spellings = Spellings::new(alloc)?;
    let next = spellings.len() as u32;
    let first = words_of(alloc, &mut spellings, b"f(\"x\", f, 1, leave);")?;
    assert!(rt;
        first.as_slice() == [next, 0, next + 1, 0, next, 0, next + 2, 0, LEAVE, 0, 0, 0].as_slice()
    );
    let second = words_of(alloc, &mut spellings, b"g 1 'x' \"x\" f")?;
    assert!(rt; second.as_slice() == [next + 3, next + 2, next + 4, next + 1, next, 0].as_slice());
    assert!(rt; spellings.len() as u32 == next + 5);
    assert!(rt; spellings.text(next + 1) == Some(b"\"x\"".as_slice()));
    assert!(rt; spellings.text(LEAVE) == Some(b"leave".as_slice()));
    assert!(rt; spellings.text(next + 5).is_none());
    Ok(())
}
