//! Lines of annotations that declare a lock by its expression in C, as `lock spin queue = &Extension->QueueLock`.

ghost use Rattle.std.specs.Prelude.{◌≡◌};
ghost use Rattle.flt_c.specs.Locks as spec;

use crate::mode::is_blank;

/// A word of the declaration of a lock.
#[derive(Clone, Copy)]
pub enum LockWord {
    /// `lock`.
    Lock,
    /// A kind of lock: `spin`.
    Spin,
    /// `fast`.
    Fast,
    /// `push`.
    Push,
}

/// The beginning of a line of an annotation, as far as it is read: how much of `lock KIND NAME = EXPRESSION` it has.
#[derive(Clone, Copy)]
pub enum LockLine {
    /// Nothing but blanks.
    Nothing,
    /// So many letters of a word.
    Word(LockWord, usize),
    /// `lock` and a blank: its kind comes next.
    Kind,
    /// Its kind and a blank: its name comes next.
    Name,
    /// Letters of its name.
    Letters,
    /// Its name and a blank: `=` comes next.
    Equals,
    /// `=`, or a part of the expression, up to a remark or the line's end.
    Expression,
    /// Anything else.
    Other,
}

/// The letters of a word.
fn letters(word: LockWord) -> &'static [u8]
    ensures { result.now ≡ spec.letters word }
{
    match word {
        LockWord::Lock => b"lock",
        LockWord::Spin => b"spin",
        LockWord::Fast => b"fast",
        LockWord::Push => b"push",
    }
}

/// The line after a word and a blank.
fn after_word(word: LockWord) -> LockLine
    ensures { result ≡ spec.after_word word }
{
    match word {
        LockWord::Lock => LockLine::Kind,
        _ => LockLine::Name,
    }
}

/// The line after one more byte, of which so many letters of a word are read.
fn in_word(word: LockWord, read: usize, b: u8) -> LockLine
    ensures { result ≡ spec.in_word word read b }
{
    let letters = letters(word);
    if read < letters.len() {
        if letters[read] == b {
            LockLine::Word(word, read + 1)
        } else {
            LockLine::Other
        }
    } else if is_blank(b) {
        after_word(word)
    } else {
        LockLine::Other
    }
}

/// The line after the first letter of a kind.
fn begun_kind(b: u8) -> LockLine
    ensures { result ≡ spec.begun_kind b }
{
    match b {
        b's' => LockLine::Word(LockWord::Spin, 1),
        b'f' => LockLine::Word(LockWord::Fast, 1),
        b'p' => LockLine::Word(LockWord::Push, 1),
        _ => LockLine::Other,
    }
}

/// Whether a byte belongs to a name.
fn is_of_name(b: u8) -> bool
    ensures { result ≡ spec.is_of_name b }
{
    b.is_ascii_alphanumeric() || b == b'_'
}

/// The line after a byte of a name, or after another one.
fn in_name(b: u8) -> LockLine
    ensures { result ≡ spec.in_name b }
{
    if is_of_name(b) {
        LockLine::Letters
    } else {
        LockLine::Other
    }
}

/// The line after a byte that may be `=`.
fn at_equals(b: u8) -> LockLine
    ensures { result ≡ spec.at_equals b }
{
    if is_blank(b) {
        return LockLine::Equals;
    }
    if b == b'=' {
        LockLine::Expression
    } else {
        LockLine::Other
    }
}

/// The line after one more byte within it.
fn within(line: LockLine, b: u8) -> LockLine
    ensures { result ≡ spec.within line b }
{
    match line {
        LockLine::Nothing => {
            if is_blank(b) {
                LockLine::Nothing
            } else {
                in_word(LockWord::Lock, 0, b)
            }
        }
        LockLine::Word(word, read) => in_word(word, read, b),
        LockLine::Kind => {
            if is_blank(b) {
                LockLine::Kind
            } else {
                begun_kind(b)
            }
        }
        LockLine::Name => {
            if is_blank(b) {
                LockLine::Name
            } else {
                in_name(b)
            }
        }
        LockLine::Letters => {
            if is_of_name(b) {
                LockLine::Letters
            } else {
                at_equals(b)
            }
        }
        LockLine::Equals => at_equals(b),
        LockLine::Expression => {
            if b == b'#' {
                LockLine::Other
            } else {
                LockLine::Expression
            }
        }
        LockLine::Other => LockLine::Other,
    }
}

/// The line of an annotation after one more byte of it. After a line feed it is the next one.
pub fn lock_line_after(line: LockLine, b: u8) -> LockLine
    ensures { result ≡ spec.after line b }
{
    if b == b'\n' {
        LockLine::Nothing
    } else {
        within(line, b)
    }
}

/// Whether the last byte of a line belongs to the expression of a lock or is the `=` before it.
pub fn is_expression(line: LockLine) -> bool
    ensures { result ≡ spec.is_expression line }
{
    matches!(line, LockLine::Expression)
}

/// A byte of the text, after which this is read of its line: a blank if it belongs to an expression.
fn plain_byte(line: LockLine, b: u8) -> u8
    ensures { result ≡ spec.plain_byte line b }
{
    if is_expression(line) { b' ' } else { b }
}

/// Whether a line declares no lock, as most lines do.
fn is_other(line: LockLine) -> bool
    ensures { result ≡ spec.is_other line }
{
    matches!(line, LockLine::Other)
}

/// Turns the expressions of locks into blanks.
pub(crate) fn take_off(text: &mut Vec<u8>)
    ensures { text.new.items ≡ spec.plain text.old.items }
{
    let mut line = LockLine::Nothing;
    let mut other = false;
    for byte in text.iter_mut() {
        if !other || *byte == b'\n' {
            line = lock_line_after(line, *byte);
            other = is_other(line);
            *byte = plain_byte(line, *byte);
        }
    }
}
