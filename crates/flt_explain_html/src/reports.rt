//! The reports, row by row, with links to the lines that they name and with pictures of the runs in them.

ghost use Rattle.std.specs.Prelude.{◌≡◌, ◌++◌, OnOk, drop, map};
ghost use Rattle.flt_explain_html.specs.Reports as spec;

use crate::escaping::{put, put_escaped, put_number};
use crate::places::anchor_in;
use crate::rows::{begins, is_run, kind_word};
use sqlite_items::Items;
use std::alloc::{AllocError, Global};

/// The beginning of a report that begins with a row.
#[tactic(auto, unfolding(crate::specs::Reports::beginning))]
fn put_beginning(out: &mut Vec<u8>, row: &[u8]) -> Result<(), AllocError>
    ensures { OnOk result (out.new.items ≡ out.old.items ++ spec.beginning row.now) }
{
    put(out, "<article class=\"")?;
    out.extend_from_slice(kind_word(row).as_bytes())?;
    put(out, "\"><div><pre>")
}

/// The beginning of the rows of a run, after its picture.
fn put_picture(out: &mut Vec<u8>, picture: &[u8]) -> Result<(), AllocError>
    ensures { OnOk result (out.new.items ≡ out.old.items ++ spec.picture_before picture.now) }
{
    put(out, "</pre></div><div class=\"run\"><figure>")?;
    out.extend_from_slice(picture)?;
    put(out, "</figure><pre>")?;
    Ok(())
}

/// The end of a report, and the beginning of the next one.
fn put_next(out: &mut Vec<u8>, row: &[u8]) -> Result<(), AllocError>
    ensures { OnOk result (out.new.items ≡ out.old.items ++ spec.next_report row.now) }
{
    put(out, "</pre></div></article>")?;
    put_beginning(out, row)?;
    Ok(())
}

/// The bytes between a row and the row before it.
fn put_between(out: &mut Vec<u8>, row: &[u8], picture: &[u8]) -> Result<(), AllocError>
    ensures { OnOk result (out.new.items ≡ out.old.items ++ spec.between row.now picture.now) }
{
    put(out, "\n")?;
    if begins(row) {
        put_next(out, row)
    } else if is_run(row) {
        put_picture(out, picture)
    } else {
        Ok(())
    }
}

/// The bytes before a row of some number, from 0.
fn put_before(
    out: &mut Vec<u8>,
    number: usize,
    row: &[u8],
    picture: &[u8],
) -> Result<(), AllocError>
    ensures { OnOk result (out.new.items ≡ out.old.items ++ spec.before number row.now picture.now) }
{
    match number {
        0 => put_beginning(out, row),
        _ => put_between(out, row, picture),
    }
}

/// A row that names a line, as a link to it.
#[tactic(auto, unfolding(crate::specs::Reports::link))]
fn put_link(
    alloc: Global,
    out: &mut Vec<u8>,
    anchor: &[u8],
    number: usize,
    row: &[u8],
) -> Result<(), AllocError>
    ensures { OnOk result (out.new.items ≡ out.old.items ++ spec.link anchor.now number row.now) }
{
    put(out, "<a id=\"r")?;
    put_number(alloc, out, number)?;
    put(out, "\" href=\"#")?;
    out.extend_from_slice(anchor)?;
    put(out, "\">")?;
    put_escaped(out, row)?;
    put(out, "</a>")
}

/// A row that names no line.
fn put_plain(out: &mut Vec<u8>, row: &[u8]) -> Result<(), AllocError>
    ensures { OnOk result (out.new.items ≡ out.old.items ++ spec.plain row.now) }
{
    if !begins(row) {
        return put_escaped(out, row);
    }
    put(out, "<b>")?;
    put_escaped(out, row)?;
    put(out, "</b>")
}

/// The words of a row.
fn put_words(
    alloc: Global,
    out: &mut Vec<u8>,
    heads: &[Items<u8>],
    number: usize,
    row: &[u8],
) -> Result<(), AllocError>
    ensures { OnOk result (out.new.items ≡ out.old.items ++ spec.words heads.now number row.now) }
{
    match anchor_in(alloc, heads, row)? {
        Some(anchor) => put_link(alloc, out, anchor.as_slice(), number, row),
        None => put_plain(out, row),
    }
}

/// The first of some pictures; no bytes if there is none.
fn first_of(pictures: &[Items<u8>]) -> &[u8]
    ensures { result.now ≡ spec.first_of pictures.now }
{
    match pictures {
        [] => b"",
        [first, ..] => first.as_slice(),
    }
}

/// The pictures that are left after a row: if it says what a run breaks, all but the first.
fn left_after<'a>(pictures: &'a [Items<u8>], row: &[u8]) -> &'a [Items<u8>]
    ensures { result.now ≡ spec.left_after pictures.now row.now }
{
    match pictures {
        [_, others @ ..] if is_run(row) => others,
        _ => pictures,
    }
}

/// The rows of the reports.
pub(crate) fn put_rows(
    alloc: Global,
    out: &mut Vec<u8>,
    heads: &[Items<u8>],
    pictures: &[Items<u8>],
    rows: &[&[u8]],
) -> Result<(), AllocError>
    ensures { OnOk result (out.new.items ≡ out.old.items ++ spec.rows_from heads.now pictures.now 0 (map (λ row. row.now) rows.now)) }
{
    let mut left = pictures;
    for (number, row) in rows.iter().enumerate() {
        put_before(out, number, row, first_of(left))?;
        put_words(alloc, out, heads, number, row)?;
        left = left_after(left, row);
    }
    Ok(())
}
