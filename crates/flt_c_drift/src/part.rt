//! The parts of a file that letters belong to, and the letters that make words.

ghost use Rattle.std.specs.Prelude.{◌≡◌};
ghost use Rattle.flt_c_drift.specs.Parts as spec;

use flt_c::Part;

pub(crate) fn is_code(part: Part) -> bool
    ensures { result ≡ spec.is_code part }
{
    matches!(part, Part::Code)
}

pub(crate) fn is_note(part: Part) -> bool
    ensures { result ≡ spec.is_note part }
{
    matches!(part, Part::Note)
}

pub(crate) fn is_aside(part: Part) -> bool
    ensures { result ≡ spec.is_aside part }
{
    matches!(part, Part::Aside)
}

pub(crate) fn same_part(one: Part, other: Part) -> bool
    ensures { result ≡ spec.same_part one other }
{
    match one {
        Part::Code => is_code(other),
        Part::Note => is_note(other),
        Part::Aside => is_aside(other),
        Part::Other => false,
    }
}

pub(crate) fn is_blank(b: u8) -> bool
    ensures { result ≡ spec.is_blank b }
{
    b == b' ' || b == b'\t' || b == b'\n' || b == b'\r'
}

/// Whether a byte is a letter, a digit or `_`.
pub(crate) fn is_word_byte(b: u8) -> bool
    ensures { result ≡ spec.is_word_byte b }
{
    b.is_ascii_alphanumeric() || b == b'_'
}

/// Whether a byte belongs to a word.
pub(crate) fn is_of_word(part: Part, b: u8) -> bool
    ensures { result ≡ spec.is_of_word part b }
{
    match part {
        Part::Code | Part::Note => is_word_byte(b),
        Part::Aside => b.is_ascii_alphanumeric() || b == b'_' || b == b'-',
        Part::Other => false,
    }
}
