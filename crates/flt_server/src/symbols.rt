//! The symbols of a document.

use crate::members::{put_number, put_text};
use crate::places::Document;
use flt_explain_texts::tokens_of;
use flt_server_outline::{Symbol, SymbolKind, mark_tokens, symbols_of};
use json::Writer;
use std::alloc::{AllocError, Global};

/// The number by which the protocol knows a kind of symbol: a constant or a function.
fn number_of(kind: SymbolKind) -> usize {
    match kind {
        SymbolKind::Lock => 14,
        SymbolKind::Callback => 12,
    }
}

fn put_symbol(
    alloc: Global,
    writer: &mut Writer,
    document: &Document<'_>,
    symbol: Symbol,
) -> Result<(), AllocError> {
    let name = document.text.get(symbol.name.start..symbol.name.end);
    writer.begin_object()?;
    put_text(alloc, writer, "name", name.unwrap_or(b""))?;
    put_number(writer, "kind", number_of(symbol.kind))?;
    document.put_part(writer, "range", symbol.whole)?;
    document.put_part(writer, "selectionRange", symbol.name)?;
    writer.end_object()
}

fn put_symbols(
    alloc: Global,
    writer: &mut Writer,
    document: &Document<'_>,
    symbols: &[Symbol],
) -> Result<(), AllocError> {
    writer.begin_array()?;
    for symbol in symbols {
        put_symbol(alloc, writer, document, *symbol)?;
    }
    writer.end_array()
}

/// The symbols of a document, as a result.
pub(crate) fn symbols(alloc: Global, document: &Document<'_>) -> Result<Vec<u8>, AllocError> {
    let tokens = tokens_of(alloc, document.text)?;
    let tokens = mark_tokens(alloc, tokens.as_slice())?;
    let symbols = symbols_of(alloc, tokens.as_slice())?;
    let mut writer = Writer::new(Vec::new(alloc));
    put_symbols(alloc, &mut writer, document, symbols.as_slice())?;
    Ok(writer.into_inner())
}
