//! Where comments, continuations of lines, and quotes end.

ghost use Rattle.std.specs.Prelude.{◌≡◌, ◌<◌, ◌≤◌, ◌+◌, ◌^◌, length, IsTrue, false};
ghost use Rattle.flt_c_tokens.specs.Scan as spec;

use crate::byte::byte_at;

/// How far something goes that has an end of its own, and whether it has that end.
#[derive(Clone, Copy)]
pub(crate) struct Closing {
    pub(crate) length: usize,
    pub(crate) is_closed: bool,
}

/// The length of the continuation at the front of a text: a backslash and the end of its line. 0 if there is none.
#[inline(always)]
pub(crate) fn continuation(z: &[u8]) -> usize
    ensures value { result ≡ spec.continuation z.now }
    ensures within { result ≤ length z.now }
{
    if byte_at(z, 0) != b'\\' {
        return 0;
    }
    if byte_at(z, 1) == b'\n' {
        return 2;
    }
    if byte_at(z, 1) == b'\r' && byte_at(z, 2) == b'\n' {
        return 3;
    }
    0
}

/// The length of the continuations at the front of a text.
pub(crate) fn continuations(z: &[u8]) -> usize
    ensures value { result ≡ spec.continuations_from 0 0 z.now }
    ensures within { result ≤ length z.now }
{
    let mut length = 0;
    let mut left = 0;
    let mut rest = z;
    while let [_, after @ ..] = rest {
        if left > 0 {
            left -= 1;
        } else {
            let skipped = continuation(rest);
            if skipped == 0 {
                return length;
            }
            left = skipped - 1;
        }
        length += 1;
        rest = after;
    }
    length
}

/// The length of a line comment, of which so many bytes were read. It ends before its line feed.
pub(crate) fn line_comment(read: usize, z: &[u8]) -> usize
    requires { read + length z.now < 2 ^ 32 }
    ensures value { result ≡ spec.line_from read 0 z.now }
    ensures some { read ≤ result }
    ensures within { result ≤ read + length z.now }
{
    let mut length = read;
    let mut left = 0;
    let mut rest = z;
    while let [b, after @ ..] = rest {
        if left > 0 {
            left -= 1;
        } else if *b == b'\n' {
            return length;
        } else {
            left = continuation(rest).saturating_sub(1);
        }
        length += 1;
        rest = after;
    }
    length
}

/// How far a block comment goes, of which so many bytes were read.
pub(crate) fn block_comment(read: usize, z: &[u8]) -> Closing
    requires { read + length z.now < 2 ^ 32 }
    ensures value { result ≡ spec.block_from read false 0 z.now }
    ensures some { read ≤ result.length }
    ensures within { result.length ≤ read + length z.now }
{
    let mut length = read;
    let mut is_star = false;
    let mut left = 0;
    let mut rest = z;
    while let [b, after @ ..] = rest {
        if left > 0 {
            left -= 1;
        } else {
            let skipped = continuation(rest);
            if skipped > 0 {
                left = skipped - 1;
            } else if is_star && *b == b'/' {
                return Closing {
                    length: length + 1,
                    is_closed: true,
                };
            } else {
                is_star = *b == b'*';
            }
        }
        length += 1;
        rest = after;
    }
    Closing {
        length,
        is_closed: false,
    }
}

/// How far a quote goes, of which so many bytes were read.
pub(crate) fn quote(mark: u8, read: usize, z: &[u8]) -> Closing
    requires { read + length z.now < 2 ^ 32 }
    ensures value { result ≡ spec.quote_from mark read false 0 z.now }
    ensures some { read ≤ result.length }
    ensures within { result.length ≤ read + length z.now }
{
    let mut length = read;
    let mut is_escaped = false;
    let mut left = 0;
    let mut rest = z;
    while let [b, after @ ..] = rest {
        if left > 0 {
            left -= 1;
        } else {
            let skipped = continuation(rest);
            if skipped > 0 {
                left = skipped - 1;
            } else if *b == b'\n' {
                break;
            } else if is_escaped {
                is_escaped = false;
            } else if *b == mark {
                return Closing {
                    length: length + 1,
                    is_closed: true,
                };
            } else {
                is_escaped = *b == b'\\';
            }
        }
        length += 1;
        rest = after;
    }
    Closing {
        length,
        is_closed: false,
    }
}

/// Whether a raw string ends with the delimiter at the front of a text, and the quote after it.
fn ends_raw(delimiter: &[u8], z: &[u8]) -> bool
    ensures value { result ≡ spec.ends_raw delimiter.now z.now }
    ensures within { IsTrue result → length delimiter.now + 1 ≤ length z.now }
{
    byte_at(z, delimiter.len()) == b'"' && z.starts_with(delimiter)
}

/// How far a raw string goes, of which so many bytes were read.
pub(crate) fn raw_string(delimiter: &[u8], read: usize, z: &[u8]) -> Closing
    requires { read + length z.now < 2 ^ 32 }
    ensures value { result ≡ spec.raw_from delimiter.now read z.now }
    ensures some { read ≤ result.length }
    ensures within { result.length ≤ read + length z.now }
{
    let mut length = read;
    let mut rest = z;
    while let [b, after @ ..] = rest {
        if *b == b')' && ends_raw(delimiter, after) {
            return Closing {
                length: length + delimiter.len() + 2,
                is_closed: true,
            };
        }
        length += 1;
        rest = after;
    }
    Closing {
        length,
        is_closed: false,
    }
}
