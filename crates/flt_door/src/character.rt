//! The first character of some bytes, and whether it is shown.

ghost use Rattle.std.specs.Prelude.{◌≡◌, ◌<◌, ◌≤◌, length, IsTrue};
ghost use Rattle.std.specs.Int.{is_in_range};
ghost use Rattle.flt_shown.specs.Shown as spec;

/// Whether a byte is in a range, from its least up to its greatest.
fn is_in(byte: u8, range: (u8, u8)) -> bool
    ensures { result ≡ is_in_range range.0 range.1 byte }
{
    range.0 <= byte && byte <= range.1
}

/// Whether bytes begin with one in each of these ranges.
pub(crate) fn begins(bytes: &[u8], ranges: &[(u8, u8)]) -> bool
    ensures value { result ≡ spec.begins ranges.now bytes.now }
    ensures fits { IsTrue result → length ranges.now ≤ length bytes.now }
{
    match ranges {
        [] => true,
        [range, ranges @ ..] => match bytes {
            [] => false,
            [byte, bytes @ ..] => is_in(*byte, *range) && begins(bytes, ranges),
        },
    }
}

/// Whether bytes begin with a control of two bytes, or with a mark that turns the direction of text.
fn is_acting_pair(bytes: &[u8]) -> bool
    ensures value { result ≡ spec.begins_any spec.acting_pairs bytes.now }
    ensures fits { IsTrue result → 2 ≤ length bytes.now }
{
    begins(bytes, &[(0xc2, 0xc2), (0x80, 0x9f)]) || begins(bytes, &[(0xd8, 0xd8), (0x9c, 0x9c)])
}

/// Whether bytes begin with such a mark of three bytes, or with a character that ends a line.
fn is_acting_triple(bytes: &[u8]) -> bool
    ensures value { result ≡ spec.begins_any spec.acting_triples bytes.now }
    ensures fits { IsTrue result → 3 ≤ length bytes.now }
{
    begins(bytes, &[(0xe2, 0xe2), (0x80, 0x80), (0x8e, 0x8f)])
        || begins(bytes, &[(0xe2, 0xe2), (0x80, 0x80), (0xa8, 0xae)])
        || begins(bytes, &[(0xe2, 0xe2), (0x81, 0x81), (0xa6, 0xa9)])
}

/// Whether bytes begin with a character of three bytes.
fn is_triple(bytes: &[u8]) -> bool
    ensures value { result ≡ spec.begins_any spec.triples bytes.now }
    ensures fits { IsTrue result → 3 ≤ length bytes.now }
{
    begins(bytes, &[(0xe0, 0xe0), (0xa0, 0xbf), (0x80, 0xbf)])
        || begins(bytes, &[(0xe1, 0xec), (0x80, 0xbf), (0x80, 0xbf)])
        || begins(bytes, &[(0xed, 0xed), (0x80, 0x9f), (0x80, 0xbf)])
        || begins(bytes, &[(0xee, 0xef), (0x80, 0xbf), (0x80, 0xbf)])
}

/// Whether bytes begin with a character of four bytes.
fn is_quad(bytes: &[u8]) -> bool
    ensures value { result ≡ spec.begins_any spec.quads bytes.now }
    ensures fits { IsTrue result → 4 ≤ length bytes.now }
{
    begins(
        bytes,
        &[(0xf0, 0xf0), (0x90, 0xbf), (0x80, 0xbf), (0x80, 0xbf)],
    ) || begins(
        bytes,
        &[(0xf1, 0xf3), (0x80, 0xbf), (0x80, 0xbf), (0x80, 0xbf)],
    ) || begins(
        bytes,
        &[(0xf4, 0xf4), (0x80, 0x8f), (0x80, 0xbf), (0x80, 0xbf)],
    )
}

/// How many bytes the first character has after its first one, and whether it is shown, if it has several bytes. A byte that begins no
/// character is one by itself.
fn long_character(bytes: &[u8]) -> (usize, bool)
    requires { 0 < length bytes.now }
    ensures value { result ≡ spec.long_character bytes.now }
    ensures within { result.0 < length bytes.now }
{
    if is_acting_pair(bytes) {
        (1, false)
    } else if is_acting_triple(bytes) {
        (2, false)
    } else if begins(bytes, &[(0xc2, 0xdf), (0x80, 0xbf)]) {
        (1, true)
    } else if is_triple(bytes) {
        (2, true)
    } else if is_quad(bytes) {
        (3, true)
    } else {
        (0, false)
    }
}

/// The same for any character. A terminal may act on a control, on a character that turns the direction of those after it, and on one that
/// ends a line: these aren't shown.
pub(crate) fn character(bytes: &[u8]) -> (usize, bool)
    requires { 0 < length bytes.now }
    ensures value { result ≡ spec.character bytes.now }
    ensures within { result.0 < length bytes.now }
{
    if begins(bytes, &[(32, 126)]) {
        (0, true)
    } else if begins(bytes, &[(0, 127)]) {
        (0, false)
    } else {
        long_character(bytes)
    }
}
