//! The part of a text in which words are tried at its fault.

use crate::focus::{Focus, focus_on};
use crate::narrow::narrow;
use flt_explain_texts::fault_name;
use flt_server_outline::byte_of;
use flt_server_session::{Encoding, Spot};
use flt_syntax::{ParseError, SyntaxFault, parse};
use std::alloc::{AllocError, Global};

/// The fault of a text, if it doesn't parse.
pub(crate) fn fault_of(alloc: Global, text: &[u8]) -> Result<Option<SyntaxFault>, AllocError> {
    match parse(alloc, text) {
        Ok(_) => Ok(None),
        Err(ParseError::Syntax(fault)) => Ok(Some(fault)),
        Err(ParseError::OutOfMemory) => Err(AllocError),
    }
}

/// The byte of a text's fault, from 0.
pub(crate) fn byte_of_fault(text: &[u8], fault: SyntaxFault) -> usize {
    let spot = Spot {
        line: fault.line.saturating_sub(1),
        character: fault.column.saturating_sub(1),
    };
    byte_of(text, Encoding::Utf8, spot)
}

fn is_same(fault: SyntaxFault, other: SyntaxFault) -> bool {
    fault.line == other.line
        && fault.column == other.column
        && fault_name(fault.kind) == fault_name(other.kind)
}

/// Whether a text has this fault.
fn has_fault(alloc: Global, text: &[u8], fault: SyntaxFault) -> Result<bool, AllocError> {
    match fault_of(alloc, text)? {
        Some(found) => Ok(is_same(found, fault)),
        None => Ok(false),
    }
}

fn whole(alloc: Global, text: &[u8]) -> Result<Focus, AllocError> {
    Ok(Focus {
        text: Vec::from_slice(alloc, text)?,
        left_out: 0,
    })
}

/// The least part of a text that has its fault, at the same line and column: without the bodies of other callbacks, and without statements
/// that are over before it; all of the text where they matter.
pub(crate) fn trial_text(
    alloc: Global,
    text: &[u8],
    fault: SyntaxFault,
) -> Result<Focus, AllocError> {
    let byte = byte_of_fault(text, fault);
    let focus = focus_on(alloc, text, byte)?;
    let narrowed = narrow(alloc, &focus, byte)?;
    if has_fault(alloc, narrowed.text.as_slice(), fault)? {
        return Ok(narrowed);
    }
    if has_fault(alloc, focus.text.as_slice(), fault)? {
        return Ok(focus);
    }
    whole(alloc, text)
}
