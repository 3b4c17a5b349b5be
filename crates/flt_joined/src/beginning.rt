//! How a text begins, and which files continue one.

ghost use Rattle.std.specs.Prelude.{◌≡◌, ◌<◌, ◌≤◌, ◌∷◌, drop, false, length, slice_range};
ghost use Rattle.flt_joined.specs.Texts as spec;

use crate::given::GivenFile;

fn is_blank(byte: u8) -> bool
    ensures { result ≡ spec.is_blank byte }
{
    matches!(byte, b' ' | b'\t' | b'\r' | b'\n')
}

/// The number of the bytes before the first word or sign of a text: blanks, ends of lines and remarks.
fn before_first(text: &[u8]) -> usize
    ensures value { result ≡ spec.before_first false text.now }
    ensures within { result ≤ length text.now }
{
    let mut at: usize = 0;
    let mut in_remark = false;
    for byte in text {
        if in_remark {
            in_remark = *byte != b'\n';
        } else if *byte == b'#' {
            in_remark = true;
        } else if !is_blank(*byte) {
            return at;
        }
        at += 1;
    }
    at
}

/// Whether the first word of a text begins with `filter`.
fn begins_filter(text: &[u8]) -> bool
    ensures { result ≡ spec.begins_filter text.now }
{
    text[before_first(text)..].starts_with(b"filter")
}

/// Whether a file continues the text of the one before it: both are C files, and its annotations don't begin with `filter`.
fn goes_on(before: &GivenFile<'_>, file: &GivenFile<'_>) -> bool
    ensures { result ≡ spec.goes_on (spec.given_of before.now) (spec.given_of file.now) }
{
    before.code.is_some() && file.code.is_some() && !begins_filter(file.text.as_slice())
}

/// The number of the file after those that continue the text of the file of a number.
pub(crate) fn end_of(files: &[GivenFile<'_>], first: usize) -> usize
    requires { first < length files.now }
    ensures some { first < result }
    ensures within { result ≤ length files.now }
    ensures group { spec.groups_of (spec.givens (drop first files.now))
        ≡ spec.givens (slice_range files.now first result) ∷ spec.groups_of (spec.givens (drop result files.now)) }
    ensures code { spec.IsGroup (spec.givens (slice_range files.now first result)) }
{
    for next in first + 1..files.len() {
        if !goes_on(&files[next - 1], &files[next]) {
            return next;
        }
    }
    files.len()
}
