//! The items of a file.

ghost use Rattle.std.specs.Prelude.{◌≡◌, IfOk, map};
ghost use Rattle.std.specs.List.{list_any};
ghost use Rattle.flt_c_items.specs.Items as spec;
ghost use Rattle.flt_c_items.specs.Items.{ItemsFollow, NoTokenIsLeftOut};
ghost use Rattle.flt_c_items.specs.Rows.{stretch};

use crate::chunk::{Chunk, Ending};
use crate::cut::chunks;
use crate::item::{Function, Item, Part, Table};
use crate::kind::same_kind;
use crate::parameters::{names, parameters};
use crate::rows::{elements, rows, stretch};
use crate::table::{TableStart, start, typedef};
use crate::words::Words;
use flt_c_tokens::{Kind, Token};
use std::alloc::{AllocError, Global};

/// Whether one of the tokens is `static`.
fn has_static(words: &Words, tokens: &[Token]) -> bool
    ensures { result ≡ list_any (spec.is_internal words.now) tokens.now }
{
    tokens.iter().any(|t| same_kind(t.kind, Kind::Qualifier) && t.word == words.internal)
}

/// The function that a chunk is.
#[tactic(auto, unfolding(crate::specs::Items::function))]
fn function(
    alloc: Global,
    words: &Words,
    tokens: &[Token],
    chunk: &Chunk,
    name: Token,
    bracket: usize,
    body: usize,
) -> Result<Part, AllocError>
    ensures { IfOk result (λ found. found ≡ spec.function words.now tokens.now chunk.now name bracket body) }
{
    Ok(Part::Function(Function {
        name,
        is_static: has_static(words, stretch(tokens, chunk.from, bracket)),
        parameters: parameters(alloc, words, stretch(tokens, bracket, body))?,
        body,
    }))
}

/// The names of a `typedef`, if a chunk has one; else another declaration.
#[tactic(auto, unfolding(crate::specs::Items::types))]
fn types(alloc: Global, tokens: &[Token], chunk: &Chunk) -> Result<Part, AllocError>
    ensures { IfOk result (λ found. found ≡ spec.types tokens.now chunk.now) }
{
    match typedef(tokens, chunk.from, chunk.to) {
        None => Ok(Part::Other),
        Some(from) => Ok(Part::Types(names(alloc, stretch(tokens, from, chunk.to))?)),
    }
}

/// The table that begins at a brace.
fn table(alloc: Global, tokens: &[Token], start: TableStart, to: usize) -> Result<Table, AllocError>
    ensures { IfOk result (λ found. found ≡ spec.table tokens.now start to) }
{
    let elements = elements(alloc, tokens, start.brace, to)?;
    Ok(Table {
        kind: start.kind,
        name: start.name,
        rows: rows(alloc, start.kind, tokens, elements)?,
    })
}

/// The kind of a chunk that ends with a `;`: a table, the names of a `typedef`, or another declaration.
#[tactic(auto, unfolding(crate::specs::Items::sentence))]
fn sentence(
    alloc: Global,
    words: &Words,
    tokens: &[Token],
    chunk: &Chunk,
) -> Result<Part, AllocError>
    ensures { IfOk result (λ found. found ≡ spec.sentence words.now tokens.now chunk.now) }
{
    match start(words, tokens, chunk.from, chunk.to) {
        None => types(alloc, tokens, chunk),
        Some(start) => Ok(Part::Table(table(alloc, tokens, start, chunk.to)?)),
    }
}

/// The kind of a chunk, with all that is read of it.
fn part(alloc: Global, words: &Words, tokens: &[Token], chunk: &Chunk) -> Result<Part, AllocError>
    ensures { IfOk result (λ found. found ≡ spec.part_by chunk.now.ending words.now tokens.now chunk.now) }
{
    match chunk.ending {
        Ending::Body {
            name,
            bracket,
            body,
        } => function(alloc, words, tokens, chunk, name, bracket, body),
        Ending::Sentence => sentence(alloc, words, tokens, chunk),
        Ending::Passed => Ok(Part::Other),
        Ending::Unread(reason) => Ok(Part::Unread(reason)),
    }
}

/// The item that a chunk is.
#[tactic(auto, unfolding(crate::specs::Items::item))]
fn item(alloc: Global, words: &Words, tokens: &[Token], chunk: &Chunk) -> Result<Item, AllocError>
    ensures { IfOk result (λ found. found ≡ spec.item words.now tokens.now chunk.now) }
{
    Ok(Item {
        from: chunk.from,
        to: chunk.to,
        part: part(alloc, words, tokens, chunk)?,
    })
}

/// The items of these chunks.
fn items_of(
    alloc: Global,
    words: &Words,
    tokens: &[Token],
    chunks: &[Chunk],
) -> Result<Vec<Item>, AllocError>
    ensures { IfOk result (λ found. found.items ≡ map (spec.item words.now tokens.now) chunks.now) }
{
    let mut found = Vec::new(alloc);
    let mut rest = chunks;
    while let [chunk, after @ ..] = rest {
        found.push(item(alloc, words, tokens, chunk)?)?;
        rest = after;
    }
    Ok(found)
}

/// The items of a file, from its tokens.
///
/// # Errors
///
/// `AllocError` if a growth is refused.
#[tactic(auto, unfolding(crate::specs::Items::items))]
pub fn items(alloc: Global, words: &Words, tokens: &[Token]) -> Result<Vec<Item>, AllocError>
    ensures { IfOk result (λ found. found.items ≡ spec.items words.now tokens.now) }
{
    let chunks = chunks(alloc, words, tokens)?;
    items_of(alloc, words, tokens, chunks.as_slice())
}

/// The items of a file have all of its tokens. It does nothing at run time: its clause is a law.
pub fn no_token_is_left_out()
    ensures ranges { ItemsFollow }
    ensures tokens { NoTokenIsLeftOut }
{}
