//! Words and numbers, and the quotes that a word may begin.

ghost use Rattle.std.specs.Prelude.{◌≡◌, ◌<◌, ◌≤◌, ◌+◌, ◌^◌, length, drop, take, IsTrue};
ghost use Rattle.std.specs.List.{prefix_len};
ghost use Rattle.std.specs.Str.{bytes_eq};
ghost use Rattle.flt_c_tokens.specs.Bytes as bytes;
ghost use Rattle.flt_c_tokens.specs.Words as spec;

use crate::byte::{byte_at, is_exponent, is_word};
use crate::piece::{Part, Piece};
use crate::scan::{Closing, quote, raw_string};
use crate::token::Kind;

/// The most bytes that the delimiter of a raw string may have.
const MAX_DELIMITER: usize = 16;

/// How many bytes of words are at the front of a text.
#[inline(always)]
fn run_length(z: &[u8]) -> usize
    ensures value { result ≡ prefix_len bytes.is_word z.now }
    ensures within { result ≤ length z.now }
{
    let mut length = 0;
    let mut rest = z;
    while let [b, after @ ..] = rest {
        if !is_word(*b) {
            return length;
        }
        length += 1;
        rest = after;
    }
    length
}

/// Whether a byte continues a number: after this byte of it, and before that byte.
#[inline(always)]
fn is_of_number(last: u8, b: u8, next: u8) -> bool
    ensures { result ≡ spec.is_of_number last b next }
{
    is_word(b)
        || b == b'.'
        || (is_exponent(last) && (b == b'+' || b == b'-'))
        || (b == b'\'' && is_word(next))
}

/// The number that begins with `first`.
#[tactic(auto, unfolding(crate::specs::Words::number))]
pub(crate) fn number(first: u8, after: &[u8]) -> Piece
    requires { length after.now < 2 ^ 32 }
    ensures value { result ≡ spec.number first after.now }
    ensures some { 1 ≤ result.length }
    ensures within { result.length ≤ 1 + length after.now }
{
    let mut length = 1;
    let mut last = first;
    let mut rest = after;
    while let [b, behind @ ..] = rest {
        if !is_of_number(last, *b, byte_at(behind, 0)) {
            break;
        }
        length += 1;
        last = *b;
        rest = behind;
    }
    Piece {
        part: Part::Word(Kind::Number),
        length,
    }
}

/// A quote is a word if it ends.
#[inline(always)]
fn quoted(kind: Kind, closing: Closing) -> Piece
    ensures { result ≡ spec.quoted kind closing }
{
    Piece {
        part: if closing.is_closed {
            Part::Word(kind)
        } else {
            Part::Sign(Kind::Unclosed)
        },
        length: closing.length,
    }
}

/// The string at the front of a text, of which so many bytes are read.
#[tactic(auto, unfolding(crate::specs::Words::string))]
pub(crate) fn string(read: usize, z: &[u8]) -> Piece
    requires small { length z.now < 2 ^ 32 }
    requires within { read ≤ length z.now }
    ensures value { result ≡ spec.string read z.now }
    ensures some { read ≤ result.length }
    ensures within { result.length ≤ length z.now }
{
    quoted(Kind::Text, quote(b'"', read, &z[read..]))
}

/// The character constant at the front of a text, of which so many bytes are read.
#[tactic(auto, unfolding(crate::specs::Words::character))]
pub(crate) fn character(read: usize, z: &[u8]) -> Piece
    requires small { length z.now < 2 ^ 32 }
    requires within { read ≤ length z.now }
    ensures value { result ≡ spec.character read z.now }
    ensures some { read ≤ result.length }
    ensures within { result.length ≤ length z.now }
{
    quoted(Kind::Character, quote(b'\'', read, &z[read..]))
}

/// Whether a word is the prefix of a string or a character constant.
#[tactic(auto, unfolding(crate::specs::Words::is_prefix))]
fn is_prefix(word: &[u8]) -> bool
    ensures { result ≡ spec.is_prefix word.now }
{
    word == b"L".as_slice()
        || word == b"u".as_slice()
        || word == b"U".as_slice()
        || word == b"u8".as_slice()
}

/// Whether a word is the prefix of a raw string.
#[tactic(auto, unfolding(crate::specs::Words::is_raw_prefix))]
fn is_raw_prefix(word: &[u8]) -> bool
    ensures { result ≡ spec.is_raw_prefix word.now }
{
    word == b"R".as_slice()
        || word == b"LR".as_slice()
        || word == b"uR".as_slice()
        || word == b"UR".as_slice()
        || word == b"u8R".as_slice()
}

/// Whether the delimiters of raw strings are made of such bytes.
fn is_of_delimiter(b: u8) -> bool
    ensures { result ≡ spec.is_of_delimiter b }
{
    !(b <= b' ' || b == b'(' || b == b')' || b == b'\\')
}

/// How many bytes of a delimiter are at the front of a text.
fn delimiter_length(z: &[u8]) -> usize
    ensures value { result ≡ prefix_len spec.is_of_delimiter z.now }
    ensures within { result ≤ length z.now }
{
    let mut length = 0;
    let mut rest = z;
    while let [b, after @ ..] = rest {
        if !is_of_delimiter(*b) {
            return length;
        }
        length += 1;
        rest = after;
    }
    length
}

/// The raw string at the front of a text, whose delimiter has this length and begins after so many bytes.
#[tactic(auto, unfolding(crate::specs::Words::raw))]
fn raw(read: usize, delimiter: usize, z: &[u8]) -> Piece
    requires small { length z.now < 2 ^ 32 }
    requires within { read + delimiter + 1 ≤ length z.now }
    ensures value { result ≡ spec.raw read delimiter z.now }
    ensures some { read ≤ result.length }
    ensures within { result.length ≤ length z.now }
{
    let opening = read + delimiter + 1;
    quoted(
        Kind::Text,
        raw_string(&z[read..read + delimiter], opening, &z[opening..]),
    )
}

/// The piece that a quote makes of the word before it, which has so many bytes: a string, a character constant, or a word alone.
#[tactic(auto, unfolding(crate::specs::Words::quote_after))]
fn quote_after(mark: u8, end: usize, z: &[u8]) -> Piece
    requires small { length z.now < 2 ^ 32 }
    requires some { 1 ≤ end }
    requires within { end + 1 ≤ length z.now }
    ensures value { result ≡ spec.quote_after mark end z.now }
    ensures some { 1 ≤ result.length }
    ensures within { result.length ≤ length z.now }
{
    let word = &z[..end];
    if is_prefix(word) {
        return if mark == b'"' {
            string(end + 1, z)
        } else {
            character(end + 1, z)
        };
    }
    if mark == b'"' && is_raw_prefix(word) {
        let behind = &z[end + 1..];
        let delimiter = delimiter_length(behind);
        if delimiter <= MAX_DELIMITER && byte_at(behind, delimiter) == b'(' {
            return raw(end + 1, delimiter, z);
        }
    }
    Piece {
        part: Part::Word(Kind::Name),
        length: end,
    }
}

/// The piece at the front of a text that begins with the byte of a name.
#[inline(always)]
#[tactic(auto, unfolding(crate::specs::Words::word))]
pub(crate) fn word(z: &[u8]) -> Piece
    requires small { length z.now < 2 ^ 32 }
    requires some { 1 ≤ length z.now }
    ensures value { result ≡ spec.word z.now }
    ensures some { 1 ≤ result.length }
    ensures within { result.length ≤ length z.now }
{
    let end = 1 + run_length(&z[1..]);
    let mark = byte_at(z, end);
    if mark == b'"' || mark == b'\'' {
        return quote_after(mark, end, z);
    }
    Piece {
        part: Part::Word(Kind::Name),
        length: end,
    }
}
