//! Where the name or the variable at a place is declared and used, as results.

use crate::members::null;
use crate::places::{Document, region_of};
use flt_explain_texts::tokens_of;
use flt_server_outline::{MarkedToken, Part, declaration_of, mark_tokens, mention_at, uses_of};
use flt_syntax::Token;
use json::Writer;
use sqlite_items::Items;
use std::alloc::{AllocError, Global};

fn marked_of(alloc: Global, text: &[u8]) -> Result<Items<MarkedToken>, AllocError> {
    let tokens = tokens_of(alloc, text)?;
    mark_tokens(alloc, tokens.as_slice())
}

fn put_token(writer: &mut Writer, document: &Document<'_>, token: Token) -> Result<(), AllocError> {
    let part = Part {
        start: token.start,
        end: token.end,
    };
    document.put_location(writer, region_of(&document.lines, part))
}

/// The token that declares the thing named at a byte; of a variable its first use.
fn declared_at(document: &Document<'_>, tokens: &[MarkedToken], byte: usize) -> Option<Token> {
    declaration_of(document.text, tokens, mention_at(tokens, byte)?)
}

fn location(
    alloc: Global,
    document: &Document<'_>,
    token: Option<Token>,
) -> Result<Vec<u8>, AllocError> {
    let Some(token) = token else {
        return null(alloc);
    };
    let mut writer = Writer::new(Vec::new(alloc));
    put_token(&mut writer, document, token)?;
    Ok(writer.into_inner())
}

/// The place where the name at a byte is declared, as a result.
pub(crate) fn definition(
    alloc: Global,
    document: &Document<'_>,
    byte: usize,
) -> Result<Vec<u8>, AllocError> {
    let tokens = marked_of(alloc, document.text)?;
    let token = declared_at(document, tokens.as_slice(), byte);
    location(alloc, document, token)
}

fn put_locations(
    writer: &mut Writer,
    document: &Document<'_>,
    tokens: &[Token],
) -> Result<(), AllocError> {
    writer.begin_array()?;
    for token in tokens {
        put_token(writer, document, *token)?;
    }
    writer.end_array()
}

fn locations(
    alloc: Global,
    document: &Document<'_>,
    tokens: &[Token],
) -> Result<Vec<u8>, AllocError> {
    let mut writer = Writer::new(Vec::new(alloc));
    put_locations(&mut writer, document, tokens)?;
    Ok(writer.into_inner())
}

/// The places where the name at a byte is used, as a result.
pub(crate) fn references(
    alloc: Global,
    document: &Document<'_>,
    byte: usize,
    with_declaration: bool,
) -> Result<Vec<u8>, AllocError> {
    let tokens = marked_of(alloc, document.text)?;
    let Some(mention) = mention_at(tokens.as_slice(), byte) else {
        return null(alloc);
    };
    let found = uses_of(
        alloc,
        document.text,
        tokens.as_slice(),
        mention,
        with_declaration,
    )?;
    locations(alloc, document, found.as_slice())
}
