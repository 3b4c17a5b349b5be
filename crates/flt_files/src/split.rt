//! A text and its certificate in one input.

ghost use Rattle.std.specs.Prelude.{◌≡◌, ◌≤◌, length};
ghost use Rattle.flt_files.specs.Split as spec;

/// The line with which a certificate begins that gives each point.
const HEADER: &[u8] = b"fltcert 1";

/// The same for one from which points may be left out.
const THIN_HEADER: &[u8] = b"fltcert 2";

/// Whether nothing follows a line, or its line feed does.
fn ends_line(bytes: &[u8]) -> bool
    ensures { result ≡ spec.ends_line bytes.now }
{
    match bytes.first() {
        None => true,
        Some(byte) => *byte == b'\n',
    }
}

/// Whether the first line is one with which a certificate begins.
fn is_header(bytes: &[u8]) -> bool
    ensures { result ≡ spec.is_header bytes.now }
{
    if bytes.len() < HEADER.len() {
        return false;
    }
    let word = &bytes[..HEADER.len()];
    (word == HEADER || word == THIN_HEADER) && ends_line(&bytes[HEADER.len()..])
}

/// Whether a line begins at a place: at the start, and after each line feed.
fn begins_line(input: &[u8], at: usize) -> bool
    requires { at ≤ length input.now }
    ensures { result ≡ spec.begins_line input.now at }
{
    if at == 0 {
        return true;
    }
    input[at - 1] == b'\n'
}

/// Whether a certificate's first line begins at a place.
fn is_header_at(input: &[u8], at: usize) -> bool
    requires { at ≤ length input.now }
    ensures { result ≡ spec.is_header_at input.now at }
{
    begins_line(input, at) && is_header(&input[at..])
}

/// The place, from 0, where the certificate begins in an input: the first line that is exactly `fltcert 1` or `fltcert 2`, or, without such
/// a line, the end.
pub fn certificate_start(input: &[u8]) -> usize
    ensures { spec.IsCertificateStart input.now result }
{
    let mut start = 0;
    while start < input.len() {
        if is_header_at(input, start) {
            return start;
        }
        start += 1;
    }
    start
}
