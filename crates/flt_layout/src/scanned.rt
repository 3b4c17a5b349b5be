//! The front of a text, or of the tokens that are left.

ghost use Rattle.flt_layout.specs.Items as spec;
ghost use Rattle.flt_syntax.specs.Cursor as cursor;
ghost use Rattle.flt_syntax.specs.Lex as lex;
ghost use Rattle.std.specs.Prelude.{◌≡◌, ◌-◌, take, drop};

use flt_syntax::{Kind, Token};

pub fn is_blank(b: u8) -> bool
    ensures { result ≡ lex.is_blank b }
{
    b == b' ' || b == b'\t' || b == b'\n' || b == b'\r'
}

pub fn is_fault(kind: Kind) -> bool
    ensures { result ≡ lex.is_fault kind }
{
    matches!(kind, Kind::Stray | Kind::Malformed)
}

/// Up to so many bytes at the front of a text.
pub fn front(z: &[u8], n: usize) -> &[u8]
    ensures { result.now ≡ take n z.now }
{
    if n <= z.len() { &z[..n] } else { z }
}

/// The bytes after so many others.
pub fn after_front(z: &[u8], n: usize) -> &[u8]
    ensures { result.now ≡ drop n z.now }
{
    if n <= z.len() { &z[n..] } else { &[] }
}

/// The rest of a text after a comment: from its line feed on, or nothing at the end of the text.
pub fn after_comment(mut rest: &[u8]) -> &[u8]
    ensures { result.now ≡ lex.after_comment rest.entry.now }
{
    while let [b, after @ ..] = rest {
        if *b == b'\n' {
            return rest;
        }
        rest = after;
    }
    rest
}

/// The comment at the front of a text: up to the line feed, without the blanks at its end.
pub fn comment(z: &[u8]) -> &[u8]
    ensures { result.now ≡ spec.comment z.now }
{
    let mut end = z.len() - after_comment(z).len();
    while 0 < end && is_blank(z[end - 1]) {
        end -= 1;
    }
    &z[..end]
}

/// The kind of the next token, and how many bytes it has.
pub fn next_token(left: &[Token]) -> (Kind, usize)
    ensures kind { result.0 ≡ cursor.kind left.now }
    ensures len { result.1 ≡ (cursor.front left.now).end - (cursor.front left.now).start }
{
    match left {
        [] => (Kind::End, 0),
        [first, ..] => (first.word.kind, first.end.saturating_sub(first.start)),
    }
}

/// The tokens after the next.
pub fn after_token(left: &[Token]) -> &[Token]
    ensures { result.now ≡ cursor.next left.now }
{
    match left {
        [] => left,
        [_, rest @ ..] => rest,
    }
}
