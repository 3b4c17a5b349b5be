//! The piece at the front of a text: a blank, a line feed, or a token.

ghost use Rattle.std.specs.Prelude.{◌≡◌, ◌<◌, ◌≤◌, ◌^◌, length};
ghost use Rattle.flt_c_tokens.specs.Fronts as spec;

use crate::byte::{byte_at, is_blank, is_digit, is_exponent, is_word};
use crate::piece::{Part, Piece};
use crate::scan::{Closing, block_comment, continuations, line_comment};
use crate::sign::{piece, sign};
use crate::token::Kind;
use crate::word::{character, number, string, word};

#[inline(always)]
fn blank(length: usize) -> Piece
    ensures { result ≡ spec.blank length }
{
    Piece {
        part: Part::Blank,
        length,
    }
}

/// Whether a letter can end the prefix of a string.
fn ends_prefix(b: u8) -> bool
    ensures { result ≡ spec.ends_prefix b }
{
    b == b'L' || b == b'u' || b == b'U' || b == b'8' || b == b'R'
}

/// Whether two bytes can be next to each other in a word or number.
fn join_in_words(a: u8, b: u8) -> bool
    ensures { result ≡ spec.join_in_words a b }
{
    if a == b'.' {
        return is_digit(b);
    }
    is_word(a)
        && (is_word(b)
            || b == b'.'
            || b == b'\''
            || (b == b'"' && ends_prefix(a))
            || ((b == b'+' || b == b'-') && is_exponent(a)))
}

/// Whether two bytes can be next to each other in a sign, or begin a comment.
#[tactic(auto, unfolding(crate::specs::Fronts::join_in_signs))]
fn join_in_signs(a: u8, b: u8) -> bool
    ensures { result ≡ spec.join_in_signs a b }
{
    match a {
        b'+' => b == b'+' || b == b'=',
        b'-' => b == b'-' || b == b'=' || b == b'>',
        b'&' => b == b'&' || b == b'=',
        b'|' => b == b'|' || b == b'=',
        b'*' | b'^' | b'!' | b'=' => b == b'=',
        b'/' => b == b'/' || b == b'*' || b == b'=',
        b'<' => b == b'<' || b == b'=' || b == b':' || b == b'%',
        b'>' => b == b'>' || b == b'=',
        b'%' => b == b'=' || b == b'>' || b == b':',
        b':' => b == b':' || b == b'>' || b == b'%',
        b'#' => b == b'#',
        b'.' => b == b'.',
        _ => false,
    }
}

/// A backslash, after a byte that may be a token's: continuations are a blank, unless they part what would be one token.
#[tactic(auto, unfolding(crate::specs::Fronts::backslash))]
fn backslash(is_glued: bool, last: u8, z: &[u8]) -> Piece
    requires { 1 ≤ length z.now }
    ensures value { result ≡ spec.backslash is_glued last z.now }
    ensures some { 1 ≤ result.length }
    ensures within { result.length ≤ length z.now }
{
    let length = continuations(z);
    if length == 0 {
        return piece(Kind::Stray, 1);
    }
    let next = byte_at(z, length);
    if is_glued && (join_in_words(last, next) || join_in_signs(last, next)) {
        return piece(Kind::Joined, length);
    }
    blank(length)
}

/// A block comment, which can't be read without its end.
#[inline(always)]
fn comment(closing: Closing) -> Piece
    ensures { result ≡ spec.comment closing }
{
    if closing.is_closed {
        blank(closing.length)
    } else {
        piece(Kind::OpenComment, closing.length)
    }
}

/// The piece at the front of a text, after a byte that may be a token's.
#[tactic(auto, unfolding(crate::specs::Fronts::front))]
pub(crate) fn front(is_glued: bool, last: u8, z: &[u8]) -> Piece
    requires small { length z.now < 2 ^ 32 }
    requires some { 1 ≤ length z.now }
    ensures value { result ≡ spec.front is_glued last z.now }
    ensures some { 1 ≤ result.length }
    ensures within { result.length ≤ length z.now }
{
    let b = byte_at(z, 0);
    let next = byte_at(z, 1);
    if b == b'\n' {
        return Piece {
            part: Part::Feed,
            length: 1,
        };
    }
    if is_blank(b) {
        return blank(1);
    }
    if is_digit(b) || (b == b'.' && is_digit(next)) {
        return number(b, &z[1..]);
    }
    if is_word(b) {
        return word(z);
    }
    match b {
        b'"' => string(1, z),
        b'\'' => character(1, z),
        b'/' if next == b'/' => blank(line_comment(2, &z[2..])),
        b'/' if next == b'*' => comment(block_comment(2, &z[2..])),
        b'\\' => backslash(is_glued, last, z),
        _ => sign(z),
    }
}
