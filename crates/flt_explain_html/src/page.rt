//! The page.

ghost use Rattle.std.specs.Prelude.{◌≡◌, ◌++◌, IfOk, OnOk, map};
ghost use Rattle.flt_explain_html.specs.Page as spec;

use crate::escaping::{put, put_escaped};
use crate::places::{Place, heads, places};
use crate::reports::put_rows;
use crate::style::style;
use crate::texts::{ShownText, put_links, put_texts};
use flt_places::lines_of;
use sqlite_items::Items;
use std::alloc::{AllocError, Global};

/// The last row but one: after the last line feed is an empty row. No bytes if there are fewer rows.
fn last_row<'a>(rows: &[&'a [u8]]) -> &'a [u8]
    ensures { result.now ≡ spec.last_row (map (λ row. row.now) rows.now) }
{
    let mut last: &[u8] = b"";
    let mut next: &[u8] = b"";
    for row in rows {
        last = next;
        next = row;
    }
    last
}

/// Everything before the links to the texts.
fn put_opening(out: &mut Vec<u8>, style: &str, summary: &[u8]) -> Result<(), AllocError>
    ensures { OnOk result (out.new.items ≡ out.old.items ++ spec.opening style.now summary.now) }
{
    put(
        out,
        "<!DOCTYPE html>\n<html lang=\"en\"><head><meta charset=\"utf-8\"><title>",
    )?;
    put_escaped(out, summary)?;
    put(
        out,
        " - fltstack explain</title><meta name=\"viewport\" content=\"width=device-width\"><style>",
    )?;
    put(out, style)?;
    put(
        out,
        "</style></head><body><header><h1>fltstack explain</h1><p><a href=\"#reports\">",
    )?;
    put_escaped(out, summary)?;
    put(out, "</a></p><nav>")?;
    Ok(())
}

/// The page with a style sheet, given the beginnings of rows that name lines and the rows that do.
fn put_parts(
    alloc: Global,
    out: &mut Vec<u8>,
    style: &str,
    texts: &[ShownText],
    rows: &[&[u8]],
    pictures: &[Items<u8>],
    heads: &[Items<u8>],
    places: &[Place],
) -> Result<(), AllocError>
    ensures { OnOk result (out.new.items ≡ out.old.items
        ++ spec.parts style.now texts.now (map (λ row. row.now) rows.now) pictures.now heads.now places.now) }
{
    put_opening(out, style, last_row(rows))?;
    put_links(alloc, out, texts)?;
    put(out, "</nav></header><main><div class=\"texts\">")?;
    put_texts(alloc, out, places, texts)?;
    put(out, "</div><div class=\"reports\" id=\"reports\">")?;
    put_rows(alloc, out, heads, pictures, rows)?;
    put(out, "</pre></div></article></div></main></body></html>\n")?;
    Ok(())
}

/// The page with a style sheet.
fn put_page(
    alloc: Global,
    out: &mut Vec<u8>,
    style: &str,
    texts: &[ShownText],
    rows: &[&[u8]],
    pictures: &[Items<u8>],
) -> Result<(), AllocError>
    ensures { OnOk result (out.new.items ≡ out.old.items
        ++ spec.page style.now texts.now (map (λ row. row.now) rows.now) pictures.now) }
{
    let heads = heads(alloc, texts)?;
    let places = places(alloc, heads.as_slice(), rows)?;
    put_parts(
        alloc,
        out,
        style,
        texts,
        rows,
        pictures,
        heads.as_slice(),
        places.as_slice(),
    )?;
    Ok(())
}

/// The page on texts and on the print about them for people: the texts with their lines, the print as it is, row by row, with links between
/// a row that names a line and that line, and before the rows of each run its picture, the pictures in the order of the runs.
///
/// # Errors
///
/// If memory is refused.
pub fn html_page(
    alloc: Global,
    texts: &[ShownText],
    printed: &[u8],
    pictures: &[Items<u8>],
) -> Result<Vec<u8>, AllocError>
    ensures { IfOk result (λ page. spec.IsPage texts.now printed.now pictures.now page.items) }
{
    let rows = lines_of(alloc, printed)?;
    let mut out = Vec::new(alloc);
    put_page(alloc, &mut out, style(), texts, rows.as_slice(), pictures)?;
    Ok(out)
}
