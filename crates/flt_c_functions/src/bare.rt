//! Tables that are declared without rows.

ghost use Rattle.std.specs.Prelude.{◌≡◌, ◌++◌, OnOk};
ghost use Rattle.flt_c_functions.specs.Bare as spec;

use crate::line::{put, put_place};
use crate::place::file_name;
use crate::table::kind_words;
use crate::text::put_token;
use flt_c_headers::Headers;
use flt_c_items::{TableKind, Words};
use flt_c_tokens::{Kind, Spellings, Token};
use std::alloc::AllocError;

/// A table whose rows are elsewhere.
#[derive(Clone, Copy)]
pub(crate) struct Bare {
    pub kind: TableKind,
    pub name: Token,
}

/// The kind of table that a word names.
fn table_kind(words: &Words, word: u32) -> Option<TableKind>
    ensures { result ≡ spec.table_kind words.now word }
{
    if word == words.operations {
        Some(TableKind::Operations)
    } else if word == words.contexts {
        Some(TableKind::Contexts)
    } else if word == words.registration {
        Some(TableKind::Registration)
    } else {
        None
    }
}

fn is_name(kind: Kind) -> bool
    ensures { result ≡ spec.is_name kind }
{
    matches!(kind, Kind::Name)
}

fn is_bound(kind: Kind) -> bool
    ensures { result ≡ spec.is_bound kind }
{
    matches!(kind, Kind::OpenParen | Kind::OpenBrace | Kind::Typedef)
}

/// Whether no table is after a token.
fn stops(words: &Words, token: Token) -> bool
    ensures { result ≡ spec.stops words.now token }
{
    is_bound(token.kind) || token.word == words.linkage
}

/// The table that a word and the tokens after it declare.
fn named(words: &Words, word: u32, after: &[Token]) -> Option<Bare>
    ensures { result ≡ spec.named words.now word after.now }
{
    match (table_kind(words, word), after) {
        (Some(kind), [name, ..]) if is_name(name.kind) => Some(Bare { kind, name: *name }),
        _ => None,
    }
}

/// The table that a declaration has, if its rows are elsewhere.
pub(crate) fn bare_table(words: &Words, tokens: &[Token]) -> Option<Bare>
    ensures { result ≡ spec.bare_table words.now tokens.now }
{
    let mut rest = tokens;
    while let [token, after @ ..] = rest {
        if stops(words, *token) {
            return None;
        }
        if let Some(found) = named(words, token.word, after) {
            return Some(found);
        }
        rest = after;
    }
    None
}

/// Adds the line of a table.
#[tactic(auto, unfolding(crate::specs::Bare::bare_line))]
fn put_line(
    out: &mut Vec<u8>,
    spellings: &Spellings,
    name: &[u8],
    table: Bare,
) -> Result<(), AllocError>
    ensures { OnOk result (out.new.items ≡ out.old.items ++ spec.bare_line spellings.now name.now table) }
{
    put_place(out, name, table.name)?;
    put(out, b"table ")?;
    put_token(out, spellings, table.name)?;
    put(out, b": ")?;
    put(out, kind_words(table.kind))?;
    put(out, b", whose rows are not here\n")
}

/// Adds it, if there is one.
pub(crate) fn put_bare(
    out: &mut Vec<u8>,
    spellings: &Spellings,
    headers: &Headers,
    name: &str,
    table: Option<Bare>,
) -> Result<(), AllocError>
    ensures { OnOk result (out.new.items ≡ out.old.items ++ spec.bare_text spellings.now headers.now.files name.now table) }
{
    match table {
        None => Ok(()),
        Some(table) => { put_line(out, spellings, file_name(headers, name, table.name), table) }
    }
}
