//! The mistake in a line, in words.

ghost use Rattle.std.specs.Prelude.{◌≡◌, IfOk};

use crate::nearest::nearest_word;
use crate::notice::{Kind, Reason};
use crate::trouble::{Subject, Trouble, bytes_of};
use crate::wanted::Expectation;
use std::alloc::{AllocError, Global};

/// The greatest number of bytes of a line that are shown: more than any line of a certificate or a journal has.
const MAX_SHOWN: usize = 100;

/// How to fix a carriage return within a line.
const RETURNS: &str = "lines end in a line feed alone: save the file without carriage returns";

/// The note on a line that ends as lines of other systems do.
const ENDS_IN_RETURN: &str =
    "this line ends with a carriage return (CR LF); these files end lines with LF alone";

fn shortened(bytes: &[u8]) -> &[u8] {
    &bytes[..bytes.len().min(MAX_SHOWN)]
}

/// A line feed ends the line.
fn is_ended(trouble: &Trouble<'_>) -> bool {
    match trouble.line {
        Some(line) => line.is_ended,
        None => false,
    }
}

/// The bytes at the place, as many as show the mistake.
fn found<'a>(trouble: &Trouble<'a>) -> &'a [u8] {
    let left = trouble.left;
    let word = match left.iter().position(|byte| *byte == b' ') {
        Some(end) => &left[..end.min(left.len())],
        None => left,
    };
    match left {
        [b' ' | b'\t' | b'\r', ..] => &left[..1],
        [_, ..] if trouble.wanted.is_byte() => &left[..1],
        _ if trouble.wanted.is_line() => shortened(left),
        _ => shortened(word),
    }
}

fn text(out: &mut Vec<u8>, text: &str) -> Result<(), AllocError> {
    out.extend_from_slice(text.as_bytes())
}

/// Bytes in marks. A byte that isn't printable ASCII is a `?`.
fn quoted(out: &mut Vec<u8>, bytes: &[u8]) -> Result<(), AllocError> {
    text(out, "`")?;
    for byte in bytes {
        let is_shown = byte.is_ascii() && !byte.is_ascii_control();
        out.push(if is_shown { *byte } else { b'?' })?;
    }
    text(out, "`")
}

/// The found bytes, in words.
fn tell_found(
    out: &mut Vec<u8>,
    kind: Kind,
    trouble: &Trouble<'_>,
    found: &[u8],
) -> Result<(), AllocError> {
    match found {
        [] if is_ended(trouble) && bytes_of(trouble.line).is_empty() => text(out, "an empty line"),
        [] if is_ended(trouble) => text(out, "the end of the line"),
        [] => {
            text(out, "the end of the ")?;
            text(out, kind.name())
        }
        b" " => text(out, "a blank"),
        b"\t" => text(out, "a tab"),
        b"\r" => text(out, "a carriage return"),
        _ => quoted(out, found),
    }
}

/// The expected and the found words, or how the line ends.
fn note(
    alloc: Global,
    kind: Kind,
    trouble: &Trouble<'_>,
    found: &[u8],
) -> Result<Vec<u8>, AllocError> {
    let wanted = trouble.wanted;
    if matches!(wanted, Expectation::NoReturn) {
        return Vec::from_slice(alloc, ENDS_IN_RETURN.as_bytes());
    }
    let expected = format!(in alloc; "expected {wanted}, found ")?;
    let mut out = expected.into_bytes();
    tell_found(&mut out, kind, trouble, found)?;
    Ok(out)
}

/// The title of the mistake.
fn title(alloc: Global, kind: Kind, trouble: &Trouble<'_>) -> Result<Vec<u8>, AllocError> {
    let name = kind.name();
    let words = match (trouble.line, trouble.subject) {
        (None, _) => format!(in alloc; "the {name} ends too early")?,
        (_, Subject::First) => format!(in alloc; "the first line of a {name} is malformed")?,
        (_, Subject::Callback(0)) => format!(in alloc; "the line of callback 0 is malformed")?,
        (_, Subject::Callback(callback)) => {
            let before = callback.saturating_sub(1);
            format!(in alloc; "the line after callback {before} is malformed")?
        }
        (_, Subject::Point(callback, point)) => {
            format!(in alloc; "the line of callback {callback} point {point} is malformed")?
        }
        (_, Subject::Among(callback, least, _)) => {
            let point = least.saturating_sub(1);
            format!(in alloc; "the line after callback {callback} point {point} is malformed")?
        }
        (_, Subject::Entry(entry)) => format!(in alloc; "the line of entry {entry} is malformed")?,
        (_, Subject::Command(line)) => format!(in alloc; "line {line} of the {name} is malformed")?,
        (_, Subject::Last) => format!(in alloc; "the {name} is too long")?,
        (_, Subject::Behind) => format!(in alloc; "something follows the end of the {name}")?,
    };
    Ok(words.into_bytes())
}

/// The title, and after it the note.
fn message(alloc: Global, title: &Vec<u8>, note: &Vec<u8>) -> Result<Vec<u8>, AllocError> {
    let mut out = Vec::from_slice(alloc, title.as_slice())?;
    text(&mut out, ": ")?;
    out.extend_from_slice(note.as_slice())?;
    Ok(out)
}

/// The word that is probably meant, if one is.
fn meant(alloc: Global, wanted: Expectation, found: &[u8]) -> Result<Vec<u8>, AllocError> {
    match nearest_word(alloc, found, wanted.words())? {
        Some(word) => Vec::from_slice(alloc, word),
        None => Ok(Vec::new(alloc)),
    }
}

/// How to fix it.
fn help(alloc: Global, trouble: &Trouble<'_>, found: &[u8]) -> Result<String, AllocError> {
    match found {
        b"\r" => String::from_str(alloc, RETURNS),
        _ => trouble.wanted.help(alloc),
    }
}

/// The mistake in a line, in words, given the number of the line and the number of lines of its file before the input.
pub(crate) fn reason<'a>(
    alloc: Global,
    kind: Kind,
    before: usize,
    line: usize,
    trouble: &Trouble<'a>,
) -> Result<Reason<'a>, AllocError>
    ensures { IfOk result (λ r. r.line ≡ line) }
{
    let whole = bytes_of(trouble.line);
    let behind = whole.len().saturating_sub(trouble.left.len());
    let found = found(trouble);
    let title = title(alloc, kind, trouble)?;
    let note = note(alloc, kind, trouble, found)?;
    let message = message(alloc, &title, &note)?;
    let meant = meant(alloc, trouble.wanted, found)?;
    let help = help(alloc, trouble, found)?;
    Ok(Reason {
        line,
        file_line: before.saturating_add(line),
        column: behind.saturating_add(1),
        shown: shortened(whole),
        found,
        title,
        note,
        message,
        meant,
        help,
    })
}
