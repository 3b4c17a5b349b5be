//! Texts, with links to the reports on their lines.

ghost use Rattle.std.specs.Prelude.{◌≡◌, ◌++◌, OnOk};
ghost use Rattle.flt_explain_html.specs.Texts as spec;

use crate::escaping::{digits, put, put_escaped, put_number};
use crate::places::{Place, anchor, row_on};
use sqlite_items::Items;
use std::alloc::{AllocError, Global};

/// A text, as it is shown: its name, and its lines without their ends.
#[derive(Drop)]
pub struct ShownText {
    pub name: Items<u8>,
    pub lines: Items<Items<u8>>,
}

/// The target of a line's number: the first row that names the line, or the line itself.
fn put_target(
    alloc: Global,
    out: &mut Vec<u8>,
    row: Option<usize>,
    anchor: &[u8],
) -> Result<(), AllocError>
    ensures { OnOk result (out.new.items ≡ out.old.items ++ spec.target row anchor.now) }
{
    match row {
        Some(row) => {
            put(out, "\" class=\"place\"><a href=\"#r")?;
            put_number(alloc, out, row)
        }
        None => {
            put(out, "\"><a href=\"#")?;
            out.extend_from_slice(anchor)
        }
    }
}

/// A line of a text, after its number.
#[tactic(auto, unfolding(crate::specs::Texts::line_at))]
fn put_line(
    alloc: Global,
    out: &mut Vec<u8>,
    places: &[Place],
    text: usize,
    number: usize,
    line: &[u8],
) -> Result<(), AllocError>
    ensures { OnOk result (out.new.items ≡ out.old.items ++ spec.line places.now text number line.now) }
{
    let digits = digits(alloc, number)?;
    let anchor = anchor(alloc, text, digits.as_bytes())?;
    put(out, "<span id=\"")?;
    out.extend_from_slice(anchor.as_slice())?;
    let row = row_on(places, anchor.as_slice());
    put_target(alloc, out, row, anchor.as_slice())?;
    put(out, "\">")?;
    out.extend_from_slice(digits.as_bytes())?;
    put(out, "</a>")?;
    put_escaped(out, line)?;
    put(out, "\n</span>")
}

/// The lines of a text.
fn put_lines(
    alloc: Global,
    out: &mut Vec<u8>,
    places: &[Place],
    text: usize,
    lines: &[Items<u8>],
) -> Result<(), AllocError>
    ensures { OnOk result (out.new.items ≡ out.old.items ++ spec.lines_from places.now text 0 lines.now) }
{
    for (number, line) in lines.iter().enumerate() {
        put_line(alloc, out, places, text, number + 1, line.as_slice())?;
    }
    Ok(())
}

/// A text under its name.
fn put_text(
    alloc: Global,
    out: &mut Vec<u8>,
    places: &[Place],
    number: usize,
    text: &ShownText,
) -> Result<(), AllocError>
    ensures { OnOk result (out.new.items ≡ out.old.items ++ spec.text places.now number text.now) }
{
    put(out, "<section id=\"f")?;
    put_number(alloc, out, number)?;
    put(out, "\"><h2>")?;
    put_escaped(out, text.name.as_slice())?;
    put(out, "</h2><pre>")?;
    put_lines(alloc, out, places, number, text.lines.as_slice())?;
    put(out, "</pre></section>")?;
    Ok(())
}

/// Texts, each under its name.
pub(crate) fn put_texts(
    alloc: Global,
    out: &mut Vec<u8>,
    places: &[Place],
    texts: &[ShownText],
) -> Result<(), AllocError>
    ensures { OnOk result (out.new.items ≡ out.old.items ++ spec.texts_from places.now 0 texts.now) }
{
    for (number, text) in texts.iter().enumerate() {
        put_text(alloc, out, places, number, text)?;
    }
    Ok(())
}

/// A link to a text.
#[tactic(auto, unfolding(crate::specs::Texts::link))]
fn put_link(
    alloc: Global,
    out: &mut Vec<u8>,
    number: usize,
    text: &ShownText,
) -> Result<(), AllocError>
    ensures { OnOk result (out.new.items ≡ out.old.items ++ spec.link number text.now) }
{
    put(out, "<a href=\"#f")?;
    put_number(alloc, out, number)?;
    put(out, "\">")?;
    put_escaped(out, text.name.as_slice())?;
    put(out, "</a> ")
}

/// Links to texts.
pub(crate) fn put_links(
    alloc: Global,
    out: &mut Vec<u8>,
    texts: &[ShownText],
) -> Result<(), AllocError>
    ensures { OnOk result (out.new.items ≡ out.old.items ++ spec.links_from 0 texts.now) }
{
    for (number, text) in texts.iter().enumerate() {
        put_link(alloc, out, number, text)?;
    }
    Ok(())
}
