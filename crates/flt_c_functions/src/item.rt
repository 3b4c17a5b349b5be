//! The lines of the items of a file.

ghost use Rattle.std.specs.Prelude.{◌≡◌, ◌&&◌, IfOk};
ghost use Rattle.flt_c_functions.specs.Listing as spec;

use crate::bare::{bare_table, put_bare};
use crate::body::{is_cut, outcome, stretch, token_at};
use crate::line::{put_function, put_unread};
use crate::note::put_notes;
use crate::place::{file_name, is_told};
use crate::source::Source;
use crate::stray::{put_stray, stray_in};
use crate::table::put_table;
use flt_c_headers::Headers;
use flt_c_items::{Function, Item, Part};
use flt_c_syntax::Class;
use flt_c_tokens::{Spellings, Token};
use std::alloc::{AllocError, Global};

/// Adds the line of a function, and says whether it is read.
fn put_read(
    alloc: Global,
    out: &mut Vec<u8>,
    spellings: &Spellings,
    headers: &Headers,
    known: &[Class],
    source: &Source<'_>,
    item: &Item,
    function: &Function,
) -> Result<bool, AllocError>
    ensures { IfOk result (λ whole. spec.Puts
        (λ z. spec.IsFunction spellings.now headers.now.files known.now source.now item.now function.now z whole)
        out.old.items out.new.items) }
{
    let tokens = source.tokens.as_slice();
    let outcome = outcome(alloc, known, tokens, function.body, item.to)?;
    let is_cut = is_cut(stretch(tokens, function.body, item.to), outcome);
    let name = file_name(headers, source.name, function.name);
    put_function(out, spellings, name, function.name, outcome, is_cut)?;
    Ok(outcome.is_none())
}

/// Adds the line of a table whose rows are elsewhere, if a declaration has one, and says whether it has none.
fn put_other(
    out: &mut Vec<u8>,
    spellings: &Spellings,
    headers: &Headers,
    source: &Source<'_>,
    item: &Item,
) -> Result<bool, AllocError>
    ensures { IfOk result (λ whole. spec.Puts (λ z. spec.IsOther spellings.now headers.now.files source.now item.now z whole)
        out.old.items out.new.items) }
{
    let tokens = stretch(source.tokens.as_slice(), item.from, item.to);
    let table = bare_table(&source.words, tokens);
    put_bare(out, spellings, headers, source.name, table)?;
    Ok(table.is_none())
}

/// The first token of an item.
fn front_of(source: &Source<'_>, item: &Item) -> Token
    ensures { result ≡ spec.front_of source.now item.now }
{
    token_at(source.tokens.as_slice(), item.from)
}

/// Adds the lines of what an item is, and says whether all of it is read.
fn put_part(
    alloc: Global,
    out: &mut Vec<u8>,
    spellings: &Spellings,
    headers: &Headers,
    known: &[Class],
    source: &Source<'_>,
    item: &Item,
) -> Result<bool, AllocError>
    ensures { IfOk result (λ whole. spec.Puts
        (λ z. spec.IsPart spellings.now headers.now.files known.now source.now item.now item.now.part z whole)
        out.old.items out.new.items) }
{
    match &item.part {
        Part::Function(function) => {
            put_read(
                alloc, out, spellings, headers, known, source, item, function,
            )
        }
        Part::Table(table) => {
            let name = file_name(headers, source.name, table.name);
            put_table(out, spellings, name, source.tokens.as_slice(), table)?;
            Ok(true)
        }
        Part::Unread(reason) => {
            let token = front_of(source, item);
            let name = file_name(headers, source.name, token);
            put_unread(out, name, token, *reason)?;
            Ok(false)
        }
        Part::Types(_) => Ok(true),
        Part::Other => put_other(out, spellings, headers, source, item),
    }
}

/// Adds the lines of an item, the first of which is about a place that is no token of C.
fn put_item(
    alloc: Global,
    out: &mut Vec<u8>,
    spellings: &Spellings,
    headers: &Headers,
    known: &[Class],
    source: &Source<'_>,
    item: &Item,
) -> Result<bool, AllocError>
    ensures { IfOk result (λ whole.
        spec.Puts (λ z. spec.IsItem spellings.now headers.now.files known.now source.now item.now z whole) out.old.items out.new.items) }
{
    let stray = stray_in(source.tokens.as_slice(), item);
    put_stray(out, headers, source.name, stray)?;
    let is_read = put_part(alloc, out, spellings, headers, known, source, item)?;
    Ok(are_both(stray.is_none(), is_read))
}

/// Whether both are true. It is a function of its own, so that a loop over parts has one case.
pub(crate) fn are_both(first: bool, second: bool) -> bool
    ensures { result ≡ (first && second) }
{
    first && second
}

/// Adds the lines of an item, unless it is in a header that is listed already.
fn put_item_once(
    alloc: Global,
    out: &mut Vec<u8>,
    spellings: &Spellings,
    headers: &Headers,
    known: &[Class],
    told: &[u32],
    source: &Source<'_>,
    item: &Item,
) -> Result<bool, AllocError>
    ensures { IfOk result (λ whole. spec.Puts
        (λ z. spec.IsItemOnce spellings.now headers.now.files known.now told.now source.now item.now z whole) out.old.items out.new.items) }
{
    if is_told(headers, told, front_of(source, item)) {
        return Ok(true);
    }
    put_item(alloc, out, spellings, headers, known, source, item)
}

/// Adds the lines of items of a file, and says whether all of them is read.
fn put_items(
    alloc: Global,
    out: &mut Vec<u8>,
    spellings: &Spellings,
    headers: &Headers,
    known: &[Class],
    told: &[u32],
    source: &Source<'_>,
    items: &[Item],
) -> Result<bool, AllocError>
    ensures { IfOk result (λ whole. spec.Puts
        (λ z. spec.Each (spec.IsItemOnce spellings.now headers.now.files known.now told.now source.now) items.now z whole)
        out.old.items out.new.items) }
{
    let mut is_whole = true;
    for item in items {
        let is_read = put_item_once(alloc, out, spellings, headers, known, told, source, item)?;
        is_whole = are_both(is_whole, is_read);
    }
    Ok(is_whole)
}

/// Adds the lines of a file, after files in which these headers were read, and says whether all of it is read.
pub(crate) fn put_source(
    alloc: Global,
    out: &mut Vec<u8>,
    spellings: &Spellings,
    headers: &Headers,
    known: &[Class],
    told: &[u32],
    source: &Source<'_>,
) -> Result<bool, AllocError>
    ensures { IfOk result (λ whole. spec.Puts
        (λ z. spec.IsSourceText spellings.now headers.now.files known.now told.now source.now z whole) out.old.items out.new.items) }
{
    let notes = source.notes.as_slice();
    put_notes(out, spellings, headers, told, source.name, notes)?;
    let items = source.items.as_slice();
    let is_read = put_items(alloc, out, spellings, headers, known, told, source, items)?;
    Ok(are_both(notes.is_empty(), is_read))
}
