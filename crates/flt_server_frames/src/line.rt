//! The lines of a header, of which one has the length of the body.

ghost use Rattle.flt_server_frames.specs.Line as spec;
ghost use Rattle.std.specs.Prelude.{◌≡◌, option_map};

/// The content of a line of a header.
#[derive(Clone, Copy, Drop)]
pub(crate) enum HeaderLine {
    /// Nothing: it is empty, and the header ends with it.
    End,
    /// The length of the body.
    Length(usize),
    /// Something else, which is skipped.
    Other,
    /// A length that can't be read, or is too large.
    Malformed,
}

/// The greatest length that a header may say.
const MAX_LENGTH: usize = 1_000_000_000_000_000_000;

/// The name of the field that has the length of the body, in lower case, and the colon after it.
const NAME: &[u8] = b"content-length:";

/// A line without the carriage return at its end, if it has one.
fn without_return(line: &[u8]) -> &[u8]
    ensures { result.now ≡ spec.without_return line.now }
{
    let length = line.len();
    if 0 < length && line[length - 1] == b'\r' {
        &line[..length - 1]
    } else {
        line
    }
}

/// The rest of a line after a name, which is given in lower case and matches in either case; none if the line doesn't begin with it.
fn after_name<'a>(mut name: &[u8], mut line: &'a [u8]) -> Option<&'a [u8]>
    ensures { option_map (λ rest. rest.now) result ≡ spec.after_name name.entry.now line.entry.now }
{
    while let [letter, letters @ ..] = name {
        match line {
            [byte, rest @ ..] if byte.to_ascii_lowercase() == *letter => {
                name = letters;
                line = rest;
            }
            _ => return None,
        }
    }
    Some(line)
}

fn is_blank(byte: u8) -> bool
    ensures { result ≡ spec.is_blank byte }
{
    matches!(byte, b' ' | b'\t')
}

/// The rest after the blanks at the front.
fn after_blanks(mut rest: &[u8]) -> &[u8]
    ensures { result.now ≡ spec.after_blanks rest.entry.now }
{
    while let [byte, after @ ..] = rest {
        if !is_blank(*byte) {
            break;
        }
        rest = after;
    }
    rest
}

/// The number that some digits spell, and the rest after them; none if it is greater than a length may be.
fn number(mut text: &[u8]) -> Option<(usize, &[u8])>
    ensures { option_map (λ found. (found.0, found.1.now)) result ≡ spec.number_after 0 text.entry.now }
{
    let mut number: usize = 0;
    while let [byte, rest @ ..] = text {
        if !byte.is_ascii_digit() {
            break;
        }
        number = 10 * number + usize::from(*byte - b'0');
        if number > MAX_LENGTH {
            return None;
        }
        text = rest;
    }
    Some((number, text))
}

/// The length that the value of a field spells: digits, and maybe blanks before and after them.
fn length_in(value: &[u8]) -> Option<usize>
    ensures { result ≡ spec.length_in value.now }
{
    let digits = after_blanks(value);
    match number(digits) {
        Some((found, rest)) if rest.len() < digits.len() && after_blanks(rest).is_empty() => {
            Some(found)
        }
        _ => None,
    }
}

/// The content of a line, which is given without the line feed at its end.
pub(crate) fn said_by(line: &[u8]) -> HeaderLine
    ensures { result ≡ spec.said_by line.now }
{
    let line = without_return(line);
    if line.is_empty() {
        return HeaderLine::End;
    }
    match after_name(NAME, line) {
        Some(value) => match length_in(value) {
            Some(length) => HeaderLine::Length(length),
            None => HeaderLine::Malformed,
        },
        None => HeaderLine::Other,
    }
}
