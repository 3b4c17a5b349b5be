//! The items of C files: each row has tokens, which blanks part, and the items that they are.

use flt_c_items::{
    Element, Function, Item, Parameter, Part, Reason, Row, Table, TableKind, Words, items,
};
use flt_c_tokens::{Kind, Token};
use std::alloc::{AllocError, Global};
use std::test::Fail;

/// The words of the tests. A letter has its byte as its number.
const WORDS: Words = Words {
    linkage: 2,
    namespace: 3,
    internal: 1,
    nothing: 4,
    no_value: 5,
    operations: 6,
    contexts: 7,
    registration: 8,
};

/// Words and signs of more than a letter, with their kinds and numbers.
static SPELLINGS: [(&str, Kind, u32); 46] = [
    ("static", Kind::Qualifier, 1),
    ("extern", Kind::Qualifier, 2),
    ("namespace", Kind::CPlusPlus, 3),
    ("void", Kind::TypeWord, 4),
    ("VOID", Kind::Name, 5),
    ("OPERATIONS", Kind::Name, 6),
    ("CONTEXTS", Kind::Name, 7),
    ("REGISTRATION", Kind::Name, 8),
    ("class", Kind::CPlusPlus, 9),
    ("int", Kind::TypeWord, 10),
    ("const", Kind::Qualifier, 11),
    ("declspec", Kind::Attribute, 12),
    ("struct", Kind::Struct, 13),
    ("typedef", Kind::Typedef, 14),
    ("if", Kind::If, 15),
    ("return", Kind::Return, 16),
    ("\"C\"", Kind::Text, 17),
    ("#if", Kind::GroupIf, 18),
    ("#else", Kind::GroupElse, 0),
    ("#end", Kind::GroupEnd, 0),
    ("(", Kind::OpenParen, 0),
    (")", Kind::CloseParen, 0),
    ("[", Kind::OpenBracket, 0),
    ("]", Kind::CloseBracket, 0),
    ("{", Kind::OpenBrace, 0),
    ("}", Kind::CloseBrace, 0),
    (";", Kind::Semicolon, 0),
    (",", Kind::Comma, 0),
    (":", Kind::Colon, 0),
    ("::", Kind::DoubleColon, 0),
    (".", Kind::Dot, 0),
    ("...", Kind::Ellipsis, 0),
    ("=", Kind::Assign, 0),
    ("==", Kind::Equal, 0),
    ("*", Kind::Star, 0),
    ("&", Kind::Ampersand, 0),
    ("~", Kind::Tilde, 0),
    ("0", Kind::Number, 19),
    ("1", Kind::Number, 20),
    ("2", Kind::Number, 21),
    ("3", Kind::Number, 22),
    ("operator", Kind::CPlusPlus, 23),
    ("template", Kind::CPlusPlus, 24),
    ("else", Kind::Else, 25),
    ("do", Kind::Do, 26),
    ("@", Kind::Stray, 0),
];

/// The kind and the number of a word or sign.
fn spelling(text: &str) -> (Kind, u32) {
    for (spelling, kind, word) in &SPELLINGS {
        if *spelling == text {
            return (*kind, *word);
        }
    }
    match text.as_bytes().first() {
        Some(letter) => (Kind::Name, u32::from(*letter)),
        None => (Kind::Name, 0),
    }
}

/// A token of the tests: its line and its first byte don't matter.
fn token(kind: Kind, word: u32, column: u32) -> Token {
    Token {
        kind,
        is_glued: false,
        word,
        start: 0,
        line: 1,
        column,
    }
}

/// Adds the tokens of a line, the first of which is in column 1.
fn put_line(found: &mut Vec<Token>, line: &str) -> Result<(), AllocError> {
    let mut column = 1;
    for part in line.split_whitespace() {
        let (kind, word) = spelling(part);
        found.push(token(kind, word, column))?;
        column = 2;
    }
    Ok(())
}

/// The tokens of a text.
fn tokens(alloc: Global, text: &str) -> Result<Vec<Token>, AllocError> {
    let mut found = Vec::new(alloc);
    for line in text.split('\n') {
        put_line(&mut found, line)?;
    }
    found.push(token(Kind::End, 0, 1))?;
    Ok(found)
}

/// Adds a number.
fn put_number(out: &mut String, alloc: Global, number: usize) -> Result<(), AllocError> {
    let digits = format!(in alloc; "{number}")?;
    out.push_str(digits.as_str())
}

/// Adds a word of the tests: a letter, or the number of another one.
fn put_word(out: &mut String, alloc: Global, word: u32) -> Result<(), AllocError> {
    match char::from_u32(word) {
        Some(c) if c.is_ascii_alphabetic() => out.push(c),
        _ => put_number(out, alloc, word as usize),
    }
}

/// Adds ` name:type*`.
fn put_parameter(out: &mut String, alloc: Global, p: &Parameter) -> Result<(), AllocError> {
    out.push(' ')?;
    put_word(out, alloc, p.name)?;
    out.push(':')?;
    put_word(out, alloc, p.type_word)?;
    for _ in 0..p.stars {
        out.push('*')?;
    }
    Ok(())
}

/// Adds a function: its name, its parameters, and how many tokens of its item come before its body.
fn put_function(
    out: &mut String,
    alloc: Global,
    from: usize,
    function: &Function,
) -> Result<(), AllocError> {
    if function.is_static {
        out.push_str(" static")?;
    }
    out.push_str(" function ")?;
    put_word(out, alloc, function.name.word)?;
    for p in function.parameters.as_slice() {
        put_parameter(out, alloc, p)?;
    }
    out.push_str(" at ")?;
    put_number(out, alloc, function.body.saturating_sub(from))
}

/// Adds ` name=from-to`.
fn put_element(out: &mut String, alloc: Global, e: &Element) -> Result<(), AllocError> {
    out.push(' ')?;
    put_word(out, alloc, e.name)?;
    out.push('=')?;
    put_number(out, alloc, e.from)?;
    out.push('-')?;
    put_number(out, alloc, e.to)
}

/// Adds ` [` and the elements, and ` ]`.
fn put_row(out: &mut String, alloc: Global, row: &Row) -> Result<(), AllocError> {
    out.push_str(" [")?;
    for e in row.elements.as_slice() {
        put_element(out, alloc, e)?;
    }
    out.push_str(" ]")
}

/// The words for a kind of table.
fn kind_of_table(kind: TableKind) -> &'static str {
    match kind {
        TableKind::Operations => " operations ",
        TableKind::Contexts => " contexts ",
        TableKind::Registration => " registration ",
    }
}

/// Adds a table: its kind, its name, and its rows.
fn put_table(out: &mut String, alloc: Global, table: &Table) -> Result<(), AllocError> {
    out.push_str(kind_of_table(table.kind))?;
    put_word(out, alloc, table.name.word)?;
    for row in table.rows.as_slice() {
        put_row(out, alloc, row)?;
    }
    Ok(())
}

/// Adds the names of a `typedef`.
fn put_types(out: &mut String, alloc: Global, names: &[u32]) -> Result<(), AllocError> {
    out.push_str(" types")?;
    for name in names {
        out.push(' ')?;
        put_word(out, alloc, *name)?;
    }
    Ok(())
}

/// The word for a reason.
fn word_of(reason: Reason) -> &'static str {
    match reason {
        Reason::Unclosed => " unclosed",
        Reason::Unopened => " unopened",
        Reason::Headless => " headless",
        Reason::Divided => " divided",
        Reason::Foreign => " foreign",
    }
}

/// Adds an item: how many tokens it has, its kind, and `;`.
fn put_item(out: &mut String, alloc: Global, item: &Item) -> Result<(), AllocError> {
    put_number(out, alloc, item.to.saturating_sub(item.from))?;
    match &item.part {
        Part::Function(function) => put_function(out, alloc, item.from, function)?,
        Part::Table(table) => put_table(out, alloc, table)?,
        Part::Types(names) => put_types(out, alloc, names.as_slice())?,
        Part::Other => {}
        Part::Unread(reason) => out.push_str(word_of(*reason))?,
    }
    out.push(';')
}

/// Adds items.
fn put_items(out: &mut String, alloc: Global, items: &[Item]) -> Result<(), AllocError> {
    for item in items {
        put_item(out, alloc, item)?;
    }
    Ok(())
}

/// The items of a text.
fn items_of(alloc: Global, text: &str) -> Result<Vec<Item>, AllocError> {
    let tokens = tokens(alloc, text)?;
    items(alloc, &WORDS, tokens.as_slice())
}

/// The items of a text in words.
fn shown(alloc: Global, text: &str) -> Result<String, AllocError> {
    let mut out = String::new(alloc);
    let found = items_of(alloc, text)?;
    put_items(&mut out, alloc, found.as_slice())?;
    Ok(out)
}

/// The first row whose text has other items.
fn wrong_items(alloc: Global, rows: &[(&str, &str)]) -> Result<Option<usize>, AllocError> {
    for (row, (text, wanted)) in rows.iter().enumerate() {
        if shown(alloc, text)?.as_str() != *wanted {
            return Ok(Some(row));
        }
    }
    Ok(None)
}

/// Texts and their items. The last item of each is the end of the file.
static FILES: [(&str, &str); 53] = [
    ("", "1;"),
    (";", "1;1;"),
    ("int x ;", "3;1;"),
    ("int x", "2;1;"),
    ("int x [ ] = { 1 , 2 } ;", "11;1;"),
    // Functions and prototypes.
    ("void f ( void ) { }", "7 function f at 5;1;"),
    (
        "void f ( VOID ) { return ; } int x ;",
        "9 function f at 5;3;1;",
    ),
    (
        "void f ( ) { } void g ( ) { }",
        "6 function f at 4;6 function g at 4;1;",
    ),
    ("static T * f ( T * x , const U y ) ;", "14;1;"),
    (
        "static T * f ( T * x , const U y ) { { } }",
        "17 static function f x:T* y:U at 13;1;",
    ),
    (
        "static declspec ( f ) T f ( int ) a const { }",
        "14 static function f 0:10 at 12;1;",
    ),
    (
        "A ( B ) T f ( B ( 1 ) C x , ... ) { }",
        "18 function f x:C 0:0 at 16;1;",
    ),
    (
        "void f ( T ( * g ) ( A a , B b ) , U y [ 2 ] ) { }",
        "24 function f g:T y:U at 22;1;",
    ),
    (
        "void f ( void * p , T * * q , struct S * s , int ) { }",
        "21 function f p:4* q:T** s:S* 0:10 at 19;1;",
    ),
    ("struct S f ( x ) { }", "8 function f x:0 at 6;1;"),
    (
        "struct S { int x ; } ; void f ( ) { }",
        "8;6 function f at 4;1;",
    ),
    ("struct declspec ( 1 ) S { int x ; } a ;", "13;1;"),
    ("struct S { int x ; } f ( ) { }", "12 function f at 10;1;"),
    // What isn't a function.
    ("{ } void f ( ) { }", "2 headless;6 function f at 4;1;"),
    (
        "int f ( a , b ) int a ; int b ; { return ; } void g ( ) { }",
        "10;3;4 headless;6 function g at 4;1;",
    ),
    (
        "int ( f ) ( int a ) { } void g ( ) { }",
        "10 headless;6 function g at 4;1;",
    ),
    (
        "if ( x ) { } else { } x ; void g ( ) { }",
        "6 foreign;3 foreign;2;6 function g at 4;1;",
    ),
    (
        "A f ( ) : B ( 1 ) { } void g ( ) { }",
        "11 foreign;6 function g at 4;1;",
    ),
    (
        "A operator == ( B b ) { } void g ( ) { }",
        "9 foreign;6 function g at 4;1;",
    ),
    (
        "A operator = ( B b ) { } void g ( ) { }",
        "9 foreign;6 function g at 4;1;",
    ),
    (
        "class A { void f ( ) { } } ; void g ( ) { }",
        "10 foreign;1;6 function g at 4;1;",
    ),
    ("class A ;", "3 foreign;1;"),
    // Brackets.
    ("} void g ( ) { }", "1 unopened;6 function g at 4;1;"),
    ("int x } void g ( ) { }", "3 unopened;6 function g at 4;1;"),
    ("void f ( ) { { }", "7 unclosed;1;"),
    (
        "void f ( ) {\n if ( x ) {\n }\nstatic void g ( ) { }\nvoid h ( ) { }",
        "11 unclosed;7 static function g at 5;6 function h at 4;1;",
    ),
    (
        "void f ( ) {\n if ( x ) {\nvoid\ng\n(\nint\n)\n{\n}",
        "10 unclosed;7 function g 0:10 at 5;1;",
    ),
    (
        "void f ( int x\nvoid g ( ) { }",
        "5 unclosed;6 function g at 4;1;",
    ),
    (
        "void f ( ) {\na ( ) ;\nb :\nc = { 1 } ;\nstruct S\n{ int x ; } ;\n}",
        "26 function f at 4;1;",
    ),
    // Regions.
    (
        "extern \"C\" { void f ( ) { } }",
        "3;6 function f at 4;1;1;",
    ),
    ("extern \"C\" void f ( ) { }", "8 function f at 6;1;"),
    (
        "namespace A { namespace B :: C { int x ; } } }",
        "3;5;3;1;1;1 unopened;1;",
    ),
    // Lines of an #if.
    (
        "#if\nvoid f ( ) { }\n#else\nvoid f ( int x ) { }\n#end",
        "1;6 function f at 4;1;8 function f x:10 at 6;1;1;",
    ),
    (
        "void f ( ) {\n#if\nif ( x ) {\n#else\nif ( y ) { {\n#end\n} }\nvoid g ( ) { }",
        "21 function f at 4;6 function g at 4;1;",
    ),
    (
        "void f ( ) {\n#if\nif ( x ) {\n#end\n}\n#if\n}\n#end\nvoid g ( ) { }",
        "15 function f at 4;1;6 function g at 4;1;",
    ),
    (
        "void f ( ) {\n#if\n{\n#if\n{\n#else\n#end\n}\n#else\n#end\n}\n}\nvoid g ( ) { }",
        "16 function f at 4;6 function g at 4;1;",
    ),
    (
        "void f ( ) {\n#if\n{ {\n#else\n{\n#end\n} }\nvoid g ( ) { }",
        "13 unclosed;6 function g at 4;1;",
    ),
    (
        "#if\nvoid f ( ) {\n#else\nvoid f ( int x ) {\n#end\n}\nvoid g ( ) { }",
        "1;5 unclosed;1;9 function f x:10 at 6;6 function g at 4;1;",
    ),
    (
        "#if\nstatic\n#end\nvoid f ( ) { }",
        "1;8 static function f at 6;1;",
    ),
    ("void f (\n#if\nint x\n#end\n) { }", "10 divided;1;"),
    ("void f ( int x )\n#if\na\n#end\n{ }", "11 divided;1;"),
    // Type names.
    (
        "typedef struct S { int x , y ; } A , * B ;",
        "15 types A B;1;",
    ),
    (
        "typedef T f ( int x ) ; typedef T ( A * g ) ( int x ) , h [ 1 ] ;",
        "8 types f;17 types g h;1;",
    ),
    ("M typedef declspec ( 1 ) int x ;", "9 types x;1;"),
    // Tables.
    (
        "const OPERATIONS t [ ] = { { 1 , 0 , f , g } , { 2 , 0 , 0 , h } , { 3 } } ;",
        "32 operations t [ 0=8-9 0=10-11 0=12-13 0=14-15 ] [ 0=18-19 0=20-21 0=22-23 0=24-25 ] [ 0=28-29 ];1;",
    ),
    (
        "OPERATIONS t [ ] = {\n#if\n{ 1 , . a = f , } ,\n#end\nM ( 1 , 2 ) , [ 3 ] = { 2 } } ;",
        "34 operations t [ 0=8-9 a=13-14 ] [ 0=18-24 ] [ 0=30-31 ];1;",
    ),
    (
        "REGISTRATION r = { 1 , f ( 1 , 2 ) , . a = { 0 } , . b = & g } ;",
        "27 registration r [ 0=4-5 0=6-12 a=16-19 b=23-25 ];1;",
    ),
    (
        "CONTEXTS c [ 2 ] = { { 1 } , { 2 } } ; CONTEXTS d ;",
        "16 contexts c [ 0=8-9 ] [ 0=12-13 ];3;1;",
    ),
];

/// Few texts that have items of each kind.
static SMALL_FILES: [(&str, &str); 5] = [
    (
        "#if\nstatic\n#end\nvoid f ( int x ) { }",
        "1;10 static function f x:10 at 8;1;",
    ),
    (
        "void f ( ) {\n#if\n{\n#else\n{\n#end\n}\n}",
        "12 function f at 4;1;",
    ),
    (
        "OPERATIONS t [ ] = { { 1 , . a = f } } ;",
        "16 operations t [ 0=7-8 a=12-13 ];1;",
    ),
    ("REGISTRATION r = { 1 } ;", "7 registration r [ 0=4-5 ];1;"),
    ("typedef int A , * B ;", "7 types A B;1;"),
];

#[test]
fn files_have_their_items(rt: HostRuntime) -> Result<(), Fail> {
    assert!(rt; wrong_items(rt.alloc(), &FILES)?.is_none());
    Ok(())
}

/// `tools/refuse-allocations.sh tests flt_c_tests memory` refuses each request for memory in turn.
#[test]
fn small_files_have_their_items_within_memory(rt: HostRuntime) -> Result<(), Fail> {
    assert!(rt; wrong_items(rt.alloc(), &SMALL_FILES)?.is_none());
    Ok(())
}
