//! The words for the place under a cursor: the facts of its statement, and the page of the word.

use crate::completion::word_around;
use crate::facts::say_facts;
use crate::faults::is_too_long;
use crate::members::{null, put_string, put_text};
use crate::places::Document;
use flt_explain_pages::page;
use flt_explain_texts::Page;
use flt_graph::lower;
use flt_syntax::{ParseError, Tree, parse};
use json::Writer;
use std::alloc::{AllocError, Global};

fn say_known(alloc: Global, out: &mut Page, tree: &Tree, byte: usize) -> Result<(), AllocError> {
    let graph = lower(alloc, tree)?;
    say_facts(alloc, out, tree, &graph, byte)
}

/// The facts of the statement at a byte, if the text parses.
fn say_place(
    alloc: Global,
    out: &mut Page,
    document: &Document<'_>,
    byte: usize,
) -> Result<(), AllocError> {
    if is_too_long(document.text) {
        return Ok(());
    }
    match parse(alloc, document.text) {
        Ok(tree) => say_known(alloc, out, &tree, byte),
        Err(ParseError::Syntax(_)) => Ok(()),
        Err(ParseError::OutOfMemory) => Err(AllocError),
    }
}

/// The page of the word at a byte, if it has one.
fn page_at(text: &[u8], byte: usize) -> Option<&'static str> {
    let (start, end) = word_around(text, byte);
    match std::str::from_utf8(text.get(start..end)?) {
        Ok(word) => page(word),
        Err(_) => None,
    }
}

fn say_page(out: &mut Page, document: &Document<'_>, byte: usize) -> Result<(), AllocError> {
    let Some(page) = page_at(document.text, byte) else {
        return Ok(());
    };
    if !out.out.is_empty() {
        out.texts(&["\n"])?;
    }
    out.texts(&[page])
}

fn put_hover(alloc: Global, writer: &mut Writer, words: &[u8]) -> Result<(), AllocError> {
    writer.begin_object()?;
    writer.key("contents")?;
    writer.begin_object()?;
    put_string(writer, "kind", "plaintext")?;
    put_text(alloc, writer, "value", words)?;
    writer.end_object()?;
    writer.end_object()
}

/// The result for words; null if there are none.
fn hover_of(alloc: Global, words: &[u8]) -> Result<Vec<u8>, AllocError> {
    if words.is_empty() {
        return null(alloc);
    }
    let mut writer = Writer::new(Vec::new(alloc));
    put_hover(alloc, &mut writer, words)?;
    Ok(writer.into_inner())
}

/// The words for the place at a byte, as a result.
pub(crate) fn hover(
    alloc: Global,
    document: &Document<'_>,
    byte: usize,
) -> Result<Vec<u8>, AllocError> {
    let mut out = Page::new(alloc);
    say_place(alloc, &mut out, document, byte)?;
    say_page(&mut out, document, byte)?;
    hover_of(alloc, out.out.as_slice())
}
