//! The modes of reading C, and which mode follows each byte.

ghost use Rattle.std.specs.Prelude.{◌≡◌};
ghost use Rattle.flt_c.specs.Modes as spec;

use crate::fault::FaultKind;

/// The piece of C that is being read.
#[derive(Clone, Copy)]
pub enum Mode {
    Code,
    /// Code, after an `R`, where a string would be a raw one.
    LetterR,
    /// Code, after a `/`.
    Slash,
    /// A line comment, which is an annotation if this byte and the rest of the marker come next.
    LineMark(u8),
    Line,
    /// A line comment, after its marker.
    LineMarked,
    LineText,
    /// The same of block comments.
    BlockMark(u8),
    Block,
    /// A block comment, after a `*`.
    BlockStar,
    BlockMarked,
    BlockText,
    BlockTextStar,
    String,
    /// A string, after a backslash.
    StringEscape,
    Character,
    CharacterEscape,
}

/// Whether a byte is a space, a tab, a line feed or a carriage return.
pub(crate) fn is_blank(b: u8) -> bool
    ensures { result ≡ spec.is_blank b }
{
    b == b' ' || b == b'\t' || b == b'\n' || b == b'\r'
}

/// The byte of the marker after one of its bytes.
fn following(b: u8) -> u8
    ensures { result ≡ spec.following b }
{
    match b {
        b'@' => b'f',
        b'f' => b'l',
        _ => b't',
    }
}

fn in_code(b: u8) -> Mode
    ensures { result ≡ spec.in_code b }
{
    match b {
        b'/' => Mode::Slash,
        b'"' => Mode::String,
        b'\'' => Mode::Character,
        b'R' => Mode::LetterR,
        _ => Mode::Code,
    }
}

fn in_line(b: u8) -> Mode
    ensures { result ≡ spec.in_line b }
{
    if b == b'\n' { Mode::Code } else { Mode::Line }
}

fn in_block(b: u8) -> Mode
    ensures { result ≡ spec.in_block b }
{
    if b == b'*' {
        Mode::BlockStar
    } else {
        Mode::Block
    }
}

fn in_block_text(b: u8) -> Mode
    ensures { result ≡ spec.in_block_text b }
{
    if b == b'*' {
        Mode::BlockTextStar
    } else {
        Mode::BlockText
    }
}

fn in_line_text(b: u8) -> Mode
    ensures { result ≡ spec.in_line_text b }
{
    if b == b'\n' {
        Mode::Code
    } else {
        Mode::LineText
    }
}

fn after_slash(b: u8) -> Mode
    ensures { result ≡ spec.after_slash b }
{
    match b {
        b'/' => Mode::LineMark(b'@'),
        b'*' => Mode::BlockMark(b'@'),
        _ => in_code(b),
    }
}

fn line_mark(skipped: bool, wanted: u8, b: u8) -> Mode
    ensures { result ≡ spec.line_mark skipped wanted b }
{
    if b != wanted {
        return in_line(b);
    }
    if b != b't' {
        return Mode::LineMark(following(b));
    }
    if skipped {
        Mode::Line
    } else {
        Mode::LineMarked
    }
}

fn block_mark(skipped: bool, wanted: u8, b: u8) -> Mode
    ensures { result ≡ spec.block_mark skipped wanted b }
{
    if b != wanted {
        return in_block(b);
    }
    if b != b't' {
        return Mode::BlockMark(following(b));
    }
    if skipped {
        Mode::Block
    } else {
        Mode::BlockMarked
    }
}

fn line_marked(b: u8) -> Result<Mode, FaultKind>
    ensures { result ≡ spec.line_marked b }
{
    if is_blank(b) {
        return Ok(in_line_text(b));
    }
    if b == b'-' {
        Ok(Mode::Line)
    } else {
        Err(FaultKind::Marker)
    }
}

fn block_marked(b: u8) -> Result<Mode, FaultKind>
    ensures { result ≡ spec.block_marked b }
{
    if is_blank(b) || b == b'*' {
        return Ok(in_block_text(b));
    }
    if b == b'-' {
        Ok(Mode::Block)
    } else {
        Err(FaultKind::Marker)
    }
}

/// The mode after a line in which a quote isn't closed.
fn line_end(lenient: bool, unended: FaultKind) -> Result<Mode, FaultKind>
    ensures { result ≡ spec.line_end lenient unended }
{
    if lenient {
        Ok(Mode::Code)
    } else {
        Err(unended)
    }
}

/// The mode after one byte of a string or a character constant.
fn in_quotes(
    lenient: bool,
    quote: u8,
    inside: Mode,
    escape: Mode,
    unended: FaultKind,
    b: u8,
) -> Result<Mode, FaultKind>
    ensures { result ≡ spec.in_quotes lenient quote inside escape unended b }
{
    if b == quote {
        return Ok(Mode::Code);
    }
    match b {
        b'\\' => Ok(escape),
        b'\n' => line_end(lenient, unended),
        _ => Ok(inside),
    }
}

/// The mode after a byte that follows a backslash in it.
fn escaped(lenient: bool, inside: Mode, unended: FaultKind, b: u8) -> Result<Mode, FaultKind>
    ensures { result ≡ spec.escaped lenient inside unended b }
{
    if b == b'\n' {
        line_end(lenient, unended)
    } else {
        Ok(inside)
    }
}

/// The mode after one byte of a string.
fn in_string(lenient: bool, b: u8) -> Result<Mode, FaultKind>
    ensures { result ≡ spec.in_quotes lenient 34 Mode.String Mode.StringEscape FaultKind.String b }
{
    in_quotes(
        lenient,
        b'"',
        Mode::String,
        Mode::StringEscape,
        FaultKind::String,
        b,
    )
}

/// The mode after one byte of a character constant.
fn in_character(lenient: bool, b: u8) -> Result<Mode, FaultKind>
    ensures { result ≡ spec.in_quotes lenient 39 Mode.Character Mode.CharacterEscape FaultKind.Character b }
{
    in_quotes(
        lenient,
        b'\'',
        Mode::Character,
        Mode::CharacterEscape,
        FaultKind::Character,
        b,
    )
}

/// The mode after a byte. A quote may end with its line if this is `lenient`, and there are no annotations in code that compilers skip.
pub(crate) fn turn(lenient: bool, skipped: bool, mode: Mode, b: u8) -> Result<Mode, FaultKind>
    ensures { result ≡ spec.turn lenient skipped mode b }
{
    match mode {
        Mode::Code => Ok(in_code(b)),
        Mode::LetterR => {
            if b == b'"' {
                Err(FaultKind::RawString)
            } else {
                Ok(in_code(b))
            }
        }
        Mode::Slash => Ok(after_slash(b)),
        Mode::LineMark(wanted) => Ok(line_mark(skipped, wanted, b)),
        Mode::Line => Ok(in_line(b)),
        Mode::LineMarked => line_marked(b),
        Mode::LineText => Ok(in_line_text(b)),
        Mode::BlockMark(wanted) => Ok(block_mark(skipped, wanted, b)),
        Mode::Block => Ok(in_block(b)),
        Mode::BlockStar => Ok(if b == b'/' { Mode::Code } else { in_block(b) }),
        Mode::BlockMarked => block_marked(b),
        Mode::BlockText => Ok(in_block_text(b)),
        Mode::BlockTextStar => Ok(if b == b'/' {
            Mode::Code
        } else {
            in_block_text(b)
        }),
        Mode::String => in_string(lenient, b),
        Mode::StringEscape => escaped(lenient, Mode::String, FaultKind::String, b),
        Mode::Character => in_character(lenient, b),
        Mode::CharacterEscape => escaped(lenient, Mode::Character, FaultKind::Character, b),
    }
}

/// Whether an annotation is being read: the text after the marker.
pub(crate) fn is_note(mode: Mode) -> bool
    ensures { result ≡ spec.is_note mode }
{
    matches!(
        mode,
        Mode::LineMarked
            | Mode::LineText
            | Mode::BlockMarked
            | Mode::BlockText
            | Mode::BlockTextStar
    )
}

/// Whether a block comment is being read, which can span lines.
pub(crate) fn is_block(mode: Mode) -> bool
    ensures { result ≡ spec.is_block mode }
{
    matches!(
        mode,
        Mode::BlockMark(_)
            | Mode::Block
            | Mode::BlockStar
            | Mode::BlockMarked
            | Mode::BlockText
            | Mode::BlockTextStar
    )
}

/// The fault if the file ends in a mode: something isn't closed. A quote that may end with its line is no fault.
pub(crate) fn unended(lenient: bool, mode: Mode) -> Option<FaultKind>
    ensures { result ≡ spec.unended lenient mode }
{
    match mode {
        Mode::String | Mode::StringEscape => {
            if lenient {
                None
            } else {
                Some(FaultKind::String)
            }
        }
        Mode::Character | Mode::CharacterEscape => {
            if lenient {
                None
            } else {
                Some(FaultKind::Character)
            }
        }
        _ => {
            if is_block(mode) {
                Some(FaultKind::Comment)
            } else {
                None
            }
        }
    }
}
