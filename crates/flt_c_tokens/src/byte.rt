//! The classes of bytes.

ghost use Rattle.std.specs.Prelude.{◌≡◌, ◌<◌, length};
ghost use Rattle.flt_c_tokens.specs.Bytes as spec;

/// The byte at a place, or 0 after the end.
#[inline(always)]
pub(crate) fn byte_at(z: &[u8], place: usize) -> u8
    ensures value { result ≡ spec.byte_at z.now place }
    ensures within { 0 < result → place < length z.now }
{
    match z.get(place) {
        Some(b) => *b,
        None => 0,
    }
}

/// Whether a byte is a blank within a line.
#[inline(always)]
pub(crate) fn is_blank(b: u8) -> bool
    ensures { result ≡ spec.is_blank b }
{
    b == b' ' || b == b'\t' || b == 11 || b == 12 || b == b'\r'
}

#[inline(always)]
pub(crate) fn is_digit(b: u8) -> bool
    ensures { result ≡ spec.is_digit b }
{
    b.is_ascii_digit()
}

/// Whether names are made of such bytes: letters, digits, `_`, `$`, and bytes above 127.
#[inline(always)]
pub(crate) fn is_word(b: u8) -> bool
    ensures { result ≡ spec.is_word b }
{
    b.is_ascii_alphanumeric() || b == b'_' || b == b'$' || b > 127
}

/// Whether a sign after this letter can belong to a number: it may begin an exponent.
#[inline(always)]
pub(crate) fn is_exponent(b: u8) -> bool
    ensures { result ≡ spec.is_exponent b }
{
    b == b'e' || b == b'E' || b == b'p' || b == b'P'
}
