//! The part of a text on which a place depends: its callback, and the heads of the others. Words are tried and edits are judged on it,
//! which takes a fraction of what the whole text takes.

use flt_explain_texts::tokens_of;
use flt_server_outline::{Symbol, SymbolKind, mark_tokens, symbols_of};
use sqlite_items::Items;
use std::alloc::{AllocError, Global};

/// A text without the bodies of all callbacks but the one at a place. Each token that is left has its line and its column.
#[derive(Drop)]
pub(crate) struct Focus {
    pub(crate) text: Vec<u8>,
    /// How many bytes are left out before the place.
    pub(crate) left_out: usize,
}

fn add_blanks(out: &mut Vec<u8>, count: usize) -> Result<(), AllocError> {
    for _ in 0..count {
        out.push(b' ')?;
    }
    Ok(())
}

/// Adds the line feeds of some bytes, and a blank for each byte after the last of them.
pub(crate) fn add_hollow(out: &mut Vec<u8>, bytes: &[u8]) -> Result<(), AllocError> {
    let mut blanks: usize = 0;
    for byte in bytes {
        if *byte == b'\n' {
            out.push(b'\n')?;
            blanks = 0;
        } else {
            blanks = blanks.saturating_add(1);
        }
    }
    add_blanks(out, blanks)
}

/// Adds an empty body in place of one: a line feed may be its first byte, and its brace is its last.
fn add_emptied(out: &mut Vec<u8>, body: &[u8]) -> Result<(), AllocError> {
    let inner = body.split_last().map_or(b"".as_slice(), |(_, inner)| inner);
    out.push(b'{')?;
    match inner {
        [b'\n', ..] => add_hollow(out, inner)?,
        [_, others @ ..] => add_hollow(out, others)?,
        [] => {}
    }
    out.push(b'}')?;
    Ok(())
}

/// Whether a symbol is a callback with a body, and a byte isn't in it.
fn is_elsewhere(symbol: Symbol, byte: usize) -> bool {
    let is_callback = matches!(symbol.kind, SymbolKind::Callback);
    is_callback
        && symbol.name.end < symbol.whole.end
        && (byte < symbol.whole.start || symbol.whole.end < byte)
}

/// A text that is copied part by part.
#[derive(Drop)]
struct Copying<'a> {
    text: &'a [u8],
    /// The byte up to which it is copied.
    at: usize,
    byte: usize,
    focus: Focus,
}

impl Copying<'_> {
    /// Copies the bytes up to one.
    fn keep(&mut self, end: usize) -> Result<(), AllocError> {
        let part = self.text.get(self.at..end).unwrap_or(b"");
        self.focus.text.extend_from_slice(part)?;
        self.at = end;
        Ok(())
    }

    /// Leaves out the body that ends before a byte.
    fn leave_out(&mut self, end: usize) -> Result<(), AllocError> {
        let part = self.text.get(self.at..end).unwrap_or(b"");
        let before = self.focus.text.len();
        add_emptied(&mut self.focus.text, part)?;
        let added = self.focus.text.len().saturating_sub(before);
        if end <= self.byte {
            let left_out = part.len().saturating_sub(added);
            self.focus.left_out = self.focus.left_out.saturating_add(left_out);
        }
        self.at = end;
        Ok(())
    }

    /// Copies a symbol and the bytes before it.
    fn add(&mut self, symbol: Symbol) -> Result<(), AllocError> {
        if self.at <= symbol.name.end && is_elsewhere(symbol, self.byte) {
            self.keep(symbol.name.end)?;
            self.leave_out(symbol.whole.end)?;
        }
        Ok(())
    }

    fn add_all(&mut self, symbols: &[Symbol]) -> Result<(), AllocError> {
        for symbol in symbols {
            self.add(*symbol)?;
        }
        self.keep(self.text.len())
    }
}

/// The symbols of a text.
pub(crate) fn symbols_in(alloc: Global, text: &[u8]) -> Result<Items<Symbol>, AllocError> {
    let tokens = tokens_of(alloc, text)?;
    let tokens = mark_tokens(alloc, tokens.as_slice())?;
    symbols_of(alloc, tokens.as_slice())
}

/// A text without the bodies of all callbacks but the one at a byte. These are its symbols.
pub(crate) fn focus_by(
    alloc: Global,
    text: &[u8],
    symbols: &[Symbol],
    byte: usize,
) -> Result<Focus, AllocError> {
    let focus = Focus {
        text: Vec::new(alloc),
        left_out: 0,
    };
    let mut copy = Copying {
        text,
        at: 0,
        byte,
        focus,
    };
    copy.add_all(symbols)?;
    Ok(copy.focus)
}

/// The same of a text whose symbols aren't known.
pub(crate) fn focus_on(alloc: Global, text: &[u8], byte: usize) -> Result<Focus, AllocError> {
    let symbols = symbols_in(alloc, text)?;
    focus_by(alloc, text, symbols.as_slice(), byte)
}
