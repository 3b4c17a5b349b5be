//! Signs: the longest one is taken.

ghost use Rattle.std.specs.Prelude.{◌≡◌, ◌<◌, ◌≤◌, ◌==◌, length, if◌then◌else◌};
ghost use Rattle.flt_c_tokens.specs.Signs as spec;

use crate::byte::byte_at;
use crate::piece::{Part, Piece};
use crate::token::Kind;

#[inline(always)]
pub(crate) fn piece(kind: Kind, length: usize) -> Piece
    ensures { result ≡ spec.piece kind length }
{
    Piece {
        part: Part::Sign(kind),
        length,
    }
}

/// One of two signs, by whether `=` follows.
#[inline(always)]
fn with_equals(next: u8, with: Kind, alone: Kind) -> Piece
    ensures { result ≡ spec.with_equals next with alone }
{
    if next == b'=' {
        piece(with, 2)
    } else {
        piece(alone, 1)
    }
}

/// One of three signs, by whether the same byte or `=` follows.
#[inline(always)]
fn doubled(byte: u8, next: u8, double: Kind, with: Kind, alone: Kind) -> Piece
    ensures { result ≡ (if next == byte then spec.piece double 2 else spec.with_equals next with alone) }
{
    if next == byte {
        piece(double, 2)
    } else {
        with_equals(next, with, alone)
    }
}

/// The sign that begins with `<`.
#[tactic(auto, unfolding(crate::specs::Signs::sign_of))]
fn less(b: u8, c: u8, d: u8) -> Piece
    ensures { result ≡ spec.sign_of 60 b c d }
{
    match b {
        b'<' if c == b'=' => piece(Kind::AssignLeft, 3),
        b'<' => piece(Kind::ShiftLeft, 2),
        b'=' => piece(Kind::LessEqual, 2),
        b':' => piece(Kind::OpenBracket, 2),
        b'%' => piece(Kind::OpenBrace, 2),
        _ => piece(Kind::Less, 1),
    }
}

/// The sign that begins with `>`.
#[tactic(auto, unfolding(crate::specs::Signs::sign_of))]
fn greater(b: u8, c: u8, d: u8) -> Piece
    ensures { result ≡ spec.sign_of 62 b c d }
{
    match b {
        b'>' if c == b'=' => piece(Kind::AssignRight, 3),
        b'>' => piece(Kind::ShiftRight, 2),
        b'=' => piece(Kind::GreaterEqual, 2),
        _ => piece(Kind::Greater, 1),
    }
}

/// The sign that begins with `%`.
#[tactic(auto, unfolding(crate::specs::Signs::sign_of))]
fn percent(b: u8, c: u8, d: u8) -> Piece
    ensures { result ≡ spec.sign_of 37 b c d }
{
    match b {
        b':' if c == b'%' && d == b':' => piece(Kind::HashHash, 4),
        b':' => piece(Kind::Hash, 2),
        b'>' => piece(Kind::CloseBrace, 2),
        _ => with_equals(b, Kind::AssignRemainder, Kind::Percent),
    }
}

/// One of two signs, by whether the same byte follows.
#[inline(always)]
fn repeated(a: u8, b: u8, double: Kind, alone: Kind) -> Piece
    ensures { result ≡ (if b == a then spec.piece double 2 else spec.piece alone 1) }
{
    if b == a {
        piece(double, 2)
    } else {
        piece(alone, 1)
    }
}

/// The sign that four bytes begin with.
#[inline(always)]
#[tactic(auto, unfolding(crate::specs::Signs::sign_of))]
fn sign_of(a: u8, b: u8, c: u8, d: u8) -> Piece
    ensures { result ≡ spec.sign_of a b c d }
{
    match a {
        b'(' => piece(Kind::OpenParen, 1),
        b')' => piece(Kind::CloseParen, 1),
        b'[' => piece(Kind::OpenBracket, 1),
        b']' => piece(Kind::CloseBracket, 1),
        b'{' => piece(Kind::OpenBrace, 1),
        b'}' => piece(Kind::CloseBrace, 1),
        b';' => piece(Kind::Semicolon, 1),
        b',' => piece(Kind::Comma, 1),
        b'?' => piece(Kind::Question, 1),
        b'~' => piece(Kind::Tilde, 1),
        b'*' => with_equals(b, Kind::AssignProduct, Kind::Star),
        b'/' => with_equals(b, Kind::AssignQuotient, Kind::Slash),
        b'^' => with_equals(b, Kind::AssignXor, Kind::Caret),
        b'!' => with_equals(b, Kind::NotEqual, Kind::Exclamation),
        b'=' => with_equals(b, Kind::Equal, Kind::Assign),
        b'+' => doubled(a, b, Kind::Increment, Kind::AssignSum, Kind::Plus),
        b'-' if b == b'>' => piece(Kind::Arrow, 2),
        b'-' => doubled(a, b, Kind::Decrement, Kind::AssignDifference, Kind::Minus),
        b'&' => doubled(a, b, Kind::LogicalAnd, Kind::AssignAnd, Kind::Ampersand),
        b'|' => doubled(a, b, Kind::LogicalOr, Kind::AssignOr, Kind::Bar),
        b'<' => less(b, c, d),
        b'>' => greater(b, c, d),
        b'%' => percent(b, c, d),
        b':' if b == b'>' => piece(Kind::CloseBracket, 2),
        b':' => repeated(a, b, Kind::DoubleColon, Kind::Colon),
        b'#' => repeated(a, b, Kind::HashHash, Kind::Hash),
        b'.' if b == b'.' && c == b'.' => piece(Kind::Ellipsis, 3),
        b'.' => piece(Kind::Dot, 1),
        _ => piece(Kind::Stray, 1),
    }
}

/// The sign at the front of a text.
#[inline(always)]
#[tactic(auto, unfolding(crate::specs::Signs::sign))]
pub(crate) fn sign(z: &[u8]) -> Piece
    requires { 1 ≤ length z.now }
    ensures value { result ≡ spec.sign z.now }
    ensures some { 1 ≤ result.length }
    ensures within { result.length ≤ length z.now }
{
    sign_of(byte_at(z, 0), byte_at(z, 1), byte_at(z, 2), byte_at(z, 3))
}
