//! The words and names that are legal at a place.

use crate::members::{put_number, put_text};
use crate::places::Document;
use crate::trial::{byte_of_fault, fault_of, trial_text};
use flt_explain_hints::{Choices, ExpectedWord, describe};
use flt_explain_texts::tokens_of;
use flt_server_outline::is_variable;
use flt_syntax::{Kind, SyntaxFault};
use json::Writer;
use std::alloc::{AllocError, Global};

/// A word that is legal nowhere but at the beginning of a text, on a line of its own.
const STOP: &[u8] = b"\nfilter\n";

fn is_of_word(byte: u8) -> bool {
    byte.is_ascii_alphanumeric() || byte == b'_'
}

/// How many bytes at the end of some are of one word.
fn word_before(text: &[u8]) -> usize {
    text.iter()
        .rev()
        .take_while(|byte| is_of_word(**byte))
        .count()
}

/// How many bytes at the beginning of some are of one word.
fn word_after(text: &[u8]) -> usize {
    text.iter().take_while(|byte| is_of_word(**byte)).count()
}

/// The first and the last byte of the word around a byte, from 0.
pub(crate) fn word_around(text: &[u8], byte: usize) -> (usize, usize) {
    let at = byte.min(text.len());
    let start = at.saturating_sub(word_before(&text[..at]));
    let end = at.saturating_add(word_after(&text[at..]));
    (start, end)
}

/// A text with the word that is legal nowhere in place of the one around a byte, and where it begins.
fn stopped(alloc: Global, text: &[u8], byte: usize) -> Result<(Vec<u8>, usize), AllocError> {
    let (start, end) = word_around(text, byte);
    let mut out = Vec::new(alloc);
    out.extend_from_slice(text.get(..start).unwrap_or(b""))?;
    out.extend_from_slice(STOP)?;
    out.extend_from_slice(text.get(end..).unwrap_or(b""))?;
    Ok((out, start.saturating_add(1)))
}

/// The number by which the protocol knows the kind of a word: a variable, a function, a constant, an operator or a keyword.
fn kind_of(word: &[u8], kind: Kind) -> usize {
    if is_variable(kind) {
        return 6;
    }
    match word {
        [first, second, ..] => {
            if !first.is_ascii_uppercase() && !first.is_ascii_lowercase() {
                24
            } else if first.is_ascii_lowercase() {
                14
            } else if second.is_ascii_lowercase() {
                3
            } else {
                21
            }
        }
        _ => 24,
    }
}

fn put_choice(
    alloc: Global,
    writer: &mut Writer,
    word: &[u8],
    kind: usize,
) -> Result<(), AllocError> {
    writer.begin_object()?;
    put_text(alloc, writer, "label", word)?;
    put_number(writer, "kind", kind)?;
    writer.end_object()
}

fn put_expected(
    alloc: Global,
    writer: &mut Writer,
    expected: &[ExpectedWord],
) -> Result<(), AllocError> {
    for one in expected {
        put_choice(alloc, writer, one.word, kind_of(one.word, one.kind))?;
    }
    Ok(())
}

fn put_names(alloc: Global, writer: &mut Writer, names: &[&[u8]]) -> Result<(), AllocError> {
    for name in names {
        put_choice(alloc, writer, name, 6)?;
    }
    Ok(())
}

fn put_choices(
    alloc: Global,
    writer: &mut Writer,
    choices: &Choices<'_>,
) -> Result<(), AllocError> {
    put_names(alloc, writer, choices.names.as_slice())?;
    put_expected(alloc, writer, choices.expected.as_slice())
}

/// Writes the choices at a fault.
fn put_at_fault(
    alloc: Global,
    writer: &mut Writer,
    text: &[u8],
    fault: SyntaxFault,
) -> Result<(), AllocError> {
    let focus = trial_text(alloc, text, fault)?;
    match describe(alloc, focus.text.as_slice())? {
        Some(trouble) => put_choices(alloc, writer, &trouble.choices),
        None => Ok(()),
    }
}

/// Writes the choices at the token that begins at a byte, if the text is refused there.
fn put_at(alloc: Global, writer: &mut Writer, text: &[u8], start: usize) -> Result<(), AllocError> {
    match fault_of(alloc, text)? {
        Some(fault) if byte_of_fault(text, fault) == start => {
            put_at_fault(alloc, writer, text, fault)
        }
        _ => Ok(()),
    }
}

/// Whether a text before a place has no byte of a token.
fn is_beginning(alloc: Global, text: &[u8]) -> Result<bool, AllocError> {
    let tokens = tokens_of(alloc, text)?;
    Ok(match tokens.as_slice() {
        [only] => only.start == only.end,
        _ => false,
    })
}

fn put_completion(
    alloc: Global,
    writer: &mut Writer,
    document: &Document<'_>,
    byte: usize,
) -> Result<(), AllocError> {
    let (text, start) = stopped(alloc, document.text, byte)?;
    let before = text.as_slice().get(..start).unwrap_or(b"");
    if is_beginning(alloc, before)? {
        return put_choice(alloc, writer, b"filter", 14);
    }
    put_at(alloc, writer, text.as_slice(), start)
}

/// The words and names that are legal at a byte, as a result.
pub(crate) fn completion(
    alloc: Global,
    document: &Document<'_>,
    byte: usize,
) -> Result<Vec<u8>, AllocError> {
    let mut writer = Writer::new(Vec::new(alloc));
    writer.begin_array()?;
    put_completion(alloc, &mut writer, document, byte)?;
    writer.end_array()?;
    Ok(writer.into_inner())
}
