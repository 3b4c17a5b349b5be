//! The lines of a table of registrations.

ghost use Rattle.std.specs.Prelude.{◌≡◌, ◌++◌, flat_map, OnOk};
ghost use Rattle.flt_c_functions.specs.Lines as spec;

use crate::body::stretch;
use crate::line::{put, put_place};
use crate::text::{put_token, put_tokens, text_at};
use flt_c_items::{Element, Row, Table, TableKind};
use flt_c_tokens::{Spellings, Token};
use flt_shown::put_shown;
use std::alloc::AllocError;

pub(crate) fn kind_words(kind: TableKind) -> &'static [u8]
    ensures { result.now ≡ spec.kind_words kind }
{
    match kind {
        TableKind::Operations => b"operations",
        TableKind::Contexts => b"contexts",
        TableKind::Registration => b"registration",
    }
}

/// Adds a designator's name, if an element has one.
fn put_designator(out: &mut Vec<u8>, spellings: &Spellings, name: u32) -> Result<(), AllocError>
    ensures { OnOk result (out.new.items ≡ out.old.items ++ spec.designator spellings.now name) }
{
    if name == 0 {
        return Ok(());
    }
    put(out, b".")?;
    put_shown(out, text_at(spellings, name))?;
    put(out, b" = ")
}

/// Adds an element.
#[tactic(auto, unfolding(crate::specs::Lines::element_text))]
fn put_element(
    out: &mut Vec<u8>,
    spellings: &Spellings,
    tokens: &[Token],
    element: Element,
) -> Result<(), AllocError>
    ensures { OnOk result (out.new.items ≡ out.old.items ++ spec.element_text spellings.now tokens.now element) }
{
    put_designator(out, spellings, element.name)?;
    put_tokens(out, spellings, stretch(tokens, element.from, element.to))
}

/// Adds the elements after the first one, each after a comma.
fn put_more_elements(
    out: &mut Vec<u8>,
    spellings: &Spellings,
    tokens: &[Token],
    elements: &[Element],
) -> Result<(), AllocError>
    ensures { OnOk result (out.new.items ≡ out.old.items ++ spec.more_elements spellings.now tokens.now elements.now) }
{
    for element in elements {
        put(out, b", ")?;
        put_element(out, spellings, tokens, *element)?;
    }
    Ok(())
}

/// Adds elements, with a comma between two.
fn put_elements(
    out: &mut Vec<u8>,
    spellings: &Spellings,
    tokens: &[Token],
    elements: &[Element],
) -> Result<(), AllocError>
    ensures { OnOk result (out.new.items ≡ out.old.items ++ spec.elements_text spellings.now tokens.now elements.now) }
{
    match elements {
        [] => Ok(()),
        [first, rest @ ..] => {
            put_element(out, spellings, tokens, *first)?;
            put_more_elements(out, spellings, tokens, rest)
        }
    }
}

/// Adds the line of a row.
#[tactic(auto, unfolding(crate::specs::Lines::row_line))]
fn put_row(
    out: &mut Vec<u8>,
    spellings: &Spellings,
    tokens: &[Token],
    row: &Row,
) -> Result<(), AllocError>
    ensures { OnOk result (out.new.items ≡ out.old.items ++ spec.row_line spellings.now tokens.now row.now) }
{
    put(out, b"  { ")?;
    put_elements(out, spellings, tokens, row.elements.as_slice())?;
    put(out, b" }\n")
}

/// Adds the lines of rows.
fn put_rows(
    out: &mut Vec<u8>,
    spellings: &Spellings,
    tokens: &[Token],
    rows: &[Row],
) -> Result<(), AllocError>
    ensures { OnOk result (out.new.items ≡ out.old.items ++ flat_map (spec.row_line spellings.now tokens.now) rows.now) }
{
    let mut rest = rows;
    while let [row, after @ ..] = rest {
        put_row(out, spellings, tokens, row)?;
        rest = after;
    }
    Ok(())
}

/// Adds the line of a table itself.
#[tactic(auto, unfolding(crate::specs::Lines::table_line))]
fn put_table_line(
    out: &mut Vec<u8>,
    spellings: &Spellings,
    name: &[u8],
    table: &Table,
) -> Result<(), AllocError>
    ensures { OnOk result (out.new.items ≡ out.old.items ++ spec.table_line spellings.now name.now table.now) }
{
    put_place(out, name, table.name)?;
    put(out, b"table ")?;
    put_token(out, spellings, table.name)?;
    put(out, b": ")?;
    put(out, kind_words(table.kind))?;
    put(out, b"\n")
}

/// Adds the lines of a table, which is of the file of a name with these tokens.
pub(crate) fn put_table(
    out: &mut Vec<u8>,
    spellings: &Spellings,
    name: &[u8],
    tokens: &[Token],
    table: &Table,
) -> Result<(), AllocError>
    ensures { OnOk result (out.new.items ≡ out.old.items ++ spec.table_lines spellings.now name.now tokens.now table.now) }
{
    put_table_line(out, spellings, name, table)?;
    put_rows(out, spellings, tokens, table.rows.as_slice())
}
