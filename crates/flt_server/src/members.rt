//! Members of JSON objects.

use json::Writer;
use std::alloc::{AllocError, Global};

/// A member whose value is a text of the program.
pub(crate) fn put_string(writer: &mut Writer, name: &str, text: &str) -> Result<(), AllocError> {
    writer.key(name)?;
    writer.string(text)
}

pub(crate) fn put_number(writer: &mut Writer, name: &str, number: usize) -> Result<(), AllocError> {
    writer.key(name)?;
    writer.u64(number as u64)
}

/// A member whose value is bytes; bytes that aren't UTF-8 become U+FFFD.
pub(crate) fn put_text(
    alloc: Global,
    writer: &mut Writer,
    name: &str,
    bytes: &[u8],
) -> Result<(), AllocError> {
    let text = String::from_utf8_lossy(alloc, bytes)?;
    put_string(writer, name, text.as_str())
}

/// The text of a value that is nothing.
pub(crate) fn null(alloc: Global) -> Result<Vec<u8>, AllocError> {
    Vec::from_slice(alloc, b"null")
}

/// The text of a list that has nothing.
pub(crate) fn nothing(alloc: Global) -> Result<Vec<u8>, AllocError> {
    Vec::from_slice(alloc, b"[]")
}

/// Adds words, on a line of their own, after the others.
pub(crate) fn add_line(out: &mut Vec<u8>, words: &[u8]) -> Result<(), AllocError> {
    if words.is_empty() {
        return Ok(());
    }
    if !out.is_empty() {
        out.push(b'\n')?;
    }
    out.extend_from_slice(words)
}
