//! The tokens of texts with directives: each rule by which groups are decided and macros are expanded.

use flt_c_macros::{Expansion, MacroError, NoteKind, expanded, spelling};
use flt_c_tokens::{Kind, Spellings, Token, tokens};
use std::alloc::{AllocError, Global};
use std::test::Fail;

/// A text, the spellings of the tokens that it becomes, and the notes with their lines and columns. A blank follows each spelling, and a
/// mark of a group has a bracket. The name `KEPT` is never expanded.
type Case<'a> = (&'a [u8], &'a [u8], &'a [(NoteKind, u32, u32)]);

static CASES: [Case<'static>; 50] = [
    // Groups: what is known of a condition decides them; of the others each branch is marked that isn't known to be false.
    (b"a b\n", b"a b ", &[]),
    (b"#if 1\na\n#else\nb\n#endif\nc\n", b"a c ", &[]),
    (b"#if 0\na\n#else\nb\n#endif\nc\n", b"b c ", &[]),
    (
        b"#ifdef X\na\n#else\nb\n#endif\nc\n",
        b"[if defined X a [else  b [end c ",
        &[],
    ),
    (
        b"#define X\n#ifdef X\na\n#else\nb\n#endif\nc\n",
        b"a c ",
        &[],
    ),
    (b"#if X && 0\na\n#endif\nc\n", b"c ", &[]),
    (
        b"#if A == 1\na\n#elif 1\nb\n#elif B\nc\n#endif\n",
        b"[if A == 1 a [else  b [end ",
        &[],
    ),
    (
        b"#undef Q\n#if Q\na\n#elifndef R\nb\n#endif\n",
        b"[if ! defined R b [end ",
        &[],
    ),
    (
        b"#if 0\n#if 1\na\n#else\nb\n#endif\n#define X 1\n#elif !defined(X) || 1\nc\n#else\nd\n#endif\n",
        b"c ",
        &[],
    ),
    (
        b"#define V 0x10\n#define W V\n#if W > 017 && 16uL == W && !0\na\n#endif\n#if 9223372036854775809\nb\n#endif\n",
        b"a [if 9223372036854775809 b [end ",
        &[],
    ),
    (
        b"#if X\na\n",
        b"[if X a [end ",
        &[(NoteKind::OpenGroup, 1, 1)],
    ),
    (
        b"#if A /* x\n",
        b"[if A ? [end ",
        &[(NoteKind::OpenGroup, 1, 1)],
    ),
    (b"#endif\na\n", b"a ", &[(NoteKind::NoGroup, 1, 1)]),
    // Macros without parameters.
    (b"#define A 1 + B\nA;\n", b"1 + B ; ", &[]),
    (b"#define A B\n#define B A + 1\nA\n", b"A + 1 ", &[]),
    (
        b"#define A 1\nA\n#define A 2\nA\n#undef A\nA\n",
        b"1 2 A ",
        &[],
    ),
    (
        b"#define KEPT 1\n#define L KEPT\nKEPT L\n",
        b"KEPT KEPT ",
        &[],
    ),
    // A use has 4,096 words and ends of bodies: `B` has 17, `C` 145 and `D` 1,169, three of which leave 580 of those behind the body of `E`.
    (
        b"#define A\n#define B A A A A A A A A\n#define C B B B B B B B B\n#define D C C C C C C C C\n#define E D D D D D D D D\nE A E\n",
        b"B C C C C D D D D B C C C C D D D D ",
        &[(NoteKind::Large, 6, 1), (NoteKind::Large, 6, 5)],
    ),
    // A body isn't read within 16 others.
    (
        b"#define A B\n#define B C\n#define C D\n#define D E\n#define E F\n#define F G\n#define G H\n#define H I\n#define I J\n#define J K\n#define K L\n#define L M\n#define M N\n#define N O\n#define O P\n#define P Q\n#define Q R\nA B\n",
        b"Q R ",
        &[(NoteKind::Large, 18, 1)],
    ),
    // Macros with parameters. A bracket behind a blank is of the body.
    (
        b"#define F(a, b) a\n#if defined(F) && (2 < 0x10) == 1\nF(1, 2) F (3, ) F\n#endif\n",
        b"1 3 F ",
        &[],
    ),
    // The example of the C standard.
    (
        b"#define x 3\n#define f(a) f(x * (a))\n#undef x\n#define x 2\n#define g f\n#define z z[0]\n#define h g(~\n#define m(a) a(w)\n#define w 0,1\n#define t(a) a\n#define p() int\n#define q(x) x\nf(y+1) + f(f(z)) % t(t(g)(0) + t)(1);\ng(x+(3,4)-w) | h 5) & m\n(f)^m(m);\np() i[q()] = { q(1), };\n",
        b"f ( 2 * ( y + 1 ) ) + f ( 2 * ( f ( 2 * ( z [ 0 ] ) ) ) ) % f ( 2 * ( 0 ) ) + t ( 1 ) ; f ( 2 * ( 2 + ( 3 , 4 ) - 0 , 1 ) ) | f ( 2 * ( ~ 5 ) ) & f ( 2 * ( 0 , 1 ) ) ^ m ( 0 , 1 ) ; int i [ ] = { 1 , } ; ",
        &[],
    ),
    // What the C standard leaves open is as gcc has it: a name isn't in work any longer where its brackets end behind its body.
    (
        b"#define f(a) a*g\n#define g(a) f(a)\nf(2)(9)\n",
        b"2 * 9 * g ",
        &[],
    ),
    (
        b"#define a(x) b(x\n#define b(x) x\na(a) )(1)\n",
        b"a ( 1 ) ",
        &[],
    ),
    (
        b"#define NIL(xxx) xxx\n#define G_0(arg) NIL(G_1)(arg)\n#define G_1(arg) NIL(arg)\nG_0(42)\n",
        b"42 ",
        &[],
    ),
    // Arguments are read before they are put in, and commas in their brackets separate nothing.
    (
        b"#define F(a, b) b + a\n#define G(a) F(a, (1, a))\n#define H(a) a a\nG(H(G)(2)) H((,)) H() F(, )\n",
        b"( 1 , G ( 1 , 2 ) + 2 ) + G ( 1 , 2 ) + 2 ( , ) ( , ) + ",
        &[],
    ),
    // A use that C doesn't allow stays, with its arguments.
    (
        b"#define F(a, b) b\n#define G() 1\n#define H(a) a\n F(1) F(H(1), 2, 3) G(1) G() H(2) H(G\n#if 1\n()) H(3)\n#endif\n",
        b"F ( 1 ) F ( H ( 1 ) , 2 , 3 ) G ( 1 ) 1 2 H ( G ( ) ) 3 ",
        &[
            (NoteKind::Arguments, 4, 2),
            (NoteKind::Arguments, 4, 7),
            (NoteKind::Arguments, 4, 21),
            (NoteKind::Open, 4, 35),
        ],
    ),
    // What is behind the named arguments is one, without a comma before it if there is none.
    (
        b"#define LOG(f, ...) print(f, ##__VA_ARGS__)\n#define E(...) e(__VA_ARGS__)\n#define P(a, ...) a(__VA_ARGS__)\n#define N 1\nLOG(\"a\") LOG(\"a\", N, (2, 3)) LOG(N, LOG(N)) LOG();\nE() E(N, (2, E(N)));\nP(f) P(f, ) P(E, N, );\n",
        b"print ( \"a\" ) print ( \"a\" , 1 , ( 2 , 3 ) ) print ( 1 , LOG ( 1 ) ) print ( ) ; e ( ) e ( 1 , ( 2 , e ( 1 ) ) ) ; f ( ) f ( ) e ( 1 , ) ; ",
        &[],
    ),
    (
        b"#define F(a, b, ...) a\n#define G F\n#define H(a) #a\n#define I(a, ...) , ## a\n b G(1) G(1, ) F H(1) I(1)\n",
        b"b F ( 1 ) 1 F H ( 1 ) I ( 1 ) ",
        &[
            (NoteKind::Arguments, 5, 4),
            (NoteKind::Parameters, 5, 18),
            (NoteKind::Parameters, 5, 23),
        ],
    ),
    // A body is paid where its arguments are empty: `F()` takes 17 words and an end, `G` 321. Behind 12 of these `H` has 227 left, and ten
    // `F()` of the next `G` leave 8.
    (
        b"#define F(a) a a a a a a a a a a a a a a a a\n#define G F() F() F() F() F() F() F() F() F() F() F() F() F() F() F() F()\n#define H G G G G G G G G G G G G G G G G\nH\n",
        b"F ( ) F ( ) F ( ) F ( ) F ( ) F ( ) G G G ",
        &[(NoteKind::Large, 4, 1)],
    ),
    // So are a body and arguments where they don't fit: 18 and 9 of 136 that `C` leaves, as 136 words are more than 109 and 17. Then `W` in
    // its brackets takes 9, five `B` 85, and the sixth 9 and 6.
    (
        b"#define A\n#define B A A A A A A A A\n#define C B B B B B B B B\n#define D C C C C C C C C\n#define W w w w w w w w w\n#define S(a) a a a a a a a a a a a a a a a a a\n#define U D D D C C C S(W) B B B B B B B\nU\n",
        b"S ( w w w w w w w w ) A A B ",
        &[(NoteKind::Large, 8, 1)],
    ),
    // A name before `...` stands for it, as in GNU C, and `__VA_ARGS__` is then a name as any other.
    (
        b"#define L(f, args...) p(f, ## args)\n#define E(args...) e(args)\n#define V(args...) e(args, __VA_ARGS__)\n#define J(args ...) x, ## args\n#define N 1\nL(\"a\") L(\"a\", N, (2, 3)) L(N, L(N)) L(); E() E(N, (2, E(N)));\nV(1) V(1, N) J() J(1, N) J(,)\n",
        b"p ( \"a\" ) p ( \"a\" , 1 , ( 2 , 3 ) ) p ( 1 , L ( 1 ) ) p ( ) ; e ( ) e ( 1 , ( 2 , e ( 1 ) ) ) ; e ( 1 , __VA_ARGS__ ) e ( 1 , 1 , __VA_ARGS__ ) x x , 1 , 1 x , , ",
        &[],
    ),
    (
        b"#define F(a... b) 1\n#define F(a..., b) 1\n#define F(a b...) 1\n#define F(a......) 1\nF\n",
        b"F ",
        &[
            (NoteKind::Malformed, 1, 1),
            (NoteKind::Malformed, 2, 1),
            (NoteKind::Malformed, 3, 1),
            (NoteKind::Malformed, 4, 1),
        ],
    ),
    (b"#define F (a)\nF\n", b"( a ) ", &[]),
    (b"#define F(a,)\nF\n", b"F ", &[(NoteKind::Malformed, 1, 1)]),
    (
        b"#define if 1\n#define\n#undef else\n#undef A B\n",
        b"",
        &[
            (NoteKind::Keyword, 1, 1),
            (NoteKind::Malformed, 2, 1),
            (NoteKind::Keyword, 3, 1),
            (NoteKind::Malformed, 4, 1),
        ],
    ),
    // A line in a branch that isn't decided makes nothing known of its name: in the branch, in the others, and after the group.
    (
        b"#define A 1\n#if X\nA\n#define A 2\nA\n#else\nA\n#endif\nA\n#define A 3\nA\n",
        b"[if X 1 A [else  A [end A 3 ",
        &[
            (NoteKind::Undecided, 5, 1),
            (NoteKind::Undecided, 7, 1),
            (NoteKind::Undecided, 9, 1),
        ],
    ),
    (
        b"#define A 0\n#ifdef X\n#undef A\n#endif\n#ifdef A\na\n#endif\n#if !A\nb\n#endif\n#undef A\n#if A\nc\n#endif\n",
        b"[if defined X [end [if defined A a [end [if ! A b [end ",
        &[],
    ),
    (
        b"#ifdef X\n#if 1\n#define A 1\n#endif\n#endif\n#if 1\n#define B 1\n#ifdef Y\n#endif\n#define C 1\n#endif\nA B C\n",
        b"[if defined X [end [if defined Y [end A 1 1 ",
        &[(NoteKind::Undecided, 12, 1)],
    ),
    (
        b"#if X\n#elif 1\n#define A 1\n#endif\nA\n",
        b"[if X [else  [end A ",
        &[(NoteKind::Undecided, 5, 1)],
    ),
    (
        b"#if 0\n#elif X\n#define A 1\n#endif\nA\n",
        b"[if X [end A ",
        &[(NoteKind::Undecided, 5, 1)],
    ),
    (
        b"#if 1\n#define A 1\n#elif X\n#define A 2\n#endif\nA\n",
        b"1 ",
        &[],
    ),
    (
        b"#ifdef X\n#define B 1\n#endif\n#define A B + B\nA\n",
        b"[if defined X [end B + B ",
        &[(NoteKind::Undecided, 5, 1)],
    ),
    (
        b"#define F(a) a\n#ifdef X\n#define B\n#endif\n#define A B F\nA\n",
        b"[if defined X [end B F ",
        &[(NoteKind::Undecided, 6, 1)],
    ),
    // The guard of a file is true, unless a line before it knows its name. A line with a body is no guard.
    (
        b"#ifndef H\n#define H\n#define A 1\nA\n#endif\n#ifndef H\nb\n#endif\nA\n",
        b"1 1 ",
        &[],
    ),
    (
        b"#if !defined(H) // once\n\n#define H\n#define A 1\n#endif\nA\n",
        b"1 ",
        &[],
    ),
    (
        b"#ifndef D\n#define D 1\n#endif\nD\n",
        b"[if ! defined D [end D ",
        &[(NoteKind::Undecided, 4, 1)],
    ),
    (
        b"#ifndef H\n#define G\n#endif\nG\n",
        b"[if ! defined H [end G ",
        &[(NoteKind::Undecided, 4, 1)],
    ),
    (
        b"#ifdef X\n#define H\n#endif\n#ifndef H\n#define H\n#endif\n",
        b"[if defined X [end [if ! defined H [end ",
        &[],
    ),
    (
        b"#ifdef X\n#ifndef H\n#define H\n#define A 1\n#endif\n#endif\nA\n",
        b"[if defined X [end A ",
        &[(NoteKind::Undecided, 7, 1)],
    ),
    // Other directives are passed over.
    (b"#\n#include <a.h>\n#pragma b\n#error c\nd\n", b"d ", &[]),
];

/// How a mark of a group begins; nothing for other tokens.
fn front_of(kind: Kind) -> &'static [u8] {
    match kind {
        Kind::GroupIf => b"[if ",
        Kind::GroupElse => b"[else ",
        Kind::GroupEnd => b"[end",
        _ => b"",
    }
}

/// The spellings of tokens but the end, each with a blank after it.
fn spelled(alloc: Global, spellings: &Spellings, tokens: &[Token]) -> Result<Vec<u8>, AllocError> {
    let mut written = Vec::new(alloc);
    for token in tokens {
        if token.kind != Kind::End {
            written.extend_from_slice(front_of(token.kind))?;
            written.extend_from_slice(spelling(spellings, *token))?;
            written.push(b' ')?;
        }
    }
    Ok(written)
}

/// For each number whether its spelling is `KEPT`.
fn kept_names(alloc: Global, spellings: &Spellings) -> Result<Vec<bool>, AllocError> {
    let mut kept = Vec::new(alloc);
    for number in 0..spellings.len() {
        kept.push(spellings.text(number as u32) == Some(b"KEPT".as_slice()))?;
    }
    Ok(kept)
}

/// Whether these are the notes.
fn are_notes(found: &Expansion, notes: &[(NoteKind, u32, u32)]) -> bool {
    if found.notes.len() != notes.len() {
        return false;
    }
    for (note, (kind, line, column)) in found.notes.as_slice().iter().zip(notes.iter()) {
        if note.kind != *kind || note.at.line != *line || note.at.column != *column {
            return false;
        }
    }
    true
}

/// Whether a text becomes these tokens with these notes.
fn is_made(alloc: Global, case: Case<'_>) -> Result<bool, AllocError> {
    let mut spellings = Spellings::new(alloc)?;
    let read = match tokens(alloc, &mut spellings, case.0)? {
        Ok(read) => read,
        Err(_) => return Ok(false),
    };
    let kept = kept_names(alloc, &spellings)?;
    match expanded(alloc, &mut spellings, kept.as_slice(), &[], read.as_slice()) {
        Ok(found) => {
            let written = spelled(alloc, &spellings, found.tokens.as_slice())?;
            Ok(written.as_slice() == case.1 && are_notes(&found, case.2))
        }
        Err(MacroError::OutOfMemory) => Err(AllocError),
        Err(MacroError::TooManySpellings { .. }) => Ok(false),
    }
}

/// The first row that becomes something else.
fn wrong_case(alloc: Global, cases: &[Case<'_>]) -> Result<Option<usize>, AllocError> {
    for (row, case) in cases.iter().enumerate() {
        if !is_made(alloc, *case)? {
            return Ok(Some(row));
        }
    }
    Ok(None)
}

#[test]
fn directives_are_read(rt: HostRuntime) -> Result<(), Fail> {
    assert!(rt; wrong_case(rt.alloc(), &CASES)?.is_none());
    Ok(())
}

/// A text with a guard, a macro, one with parameters, a definition in a marked group, and notes.
static LARGEST: Case<'static> = (
    b"#ifndef H\n#define H\n#define A 1 B\n#define F(a) a\n#if A C\n#define B\nA F(A) KEPT\n#else\n#endif\n#endif\n#endif\n",
    b"[if A C 1 B 1 B KEPT [else  [end ",
    &[
        (NoteKind::Undecided, 7, 1),
        (NoteKind::Undecided, 7, 5),
        (NoteKind::NoGroup, 11, 1),
    ],
);

#[test]
fn a_text_is_read_within_memory(rt: HostRuntime) -> Result<(), Fail> {
    assert!(rt; is_made(rt.alloc(), LARGEST)?);
    Ok(())
}
