//! Lines of texts that rows of the reports name.

ghost use Rattle.std.specs.Prelude.{◌≡◌, ◌++◌, IfOk, OnOk, map};
ghost use Rattle.flt_explain_html.specs.Places as spec;

use crate::escaping::{put, put_number};
use crate::texts::ShownText;
use sqlite_items::Items;
use std::alloc::{AllocError, Global};

/// A row that names a line of a text.
#[derive(Drop)]
pub(crate) struct Place {
    /// The number of the row, from 0.
    pub(crate) row: usize,
    /// The anchor of the line.
    pub(crate) anchor: Items<u8>,
}

/// The anchor of a line of a text, by the digits of its number.
#[tactic(auto, unfolding(crate::specs::Places::anchor))]
pub(crate) fn anchor(alloc: Global, text: usize, line: &[u8]) -> Result<Items<u8>, AllocError>
    ensures { IfOk result (λ anchor. anchor ≡ spec.anchor text line.now) }
{
    let mut anchor = Vec::new(alloc);
    put(&mut anchor, "f")?;
    put_number(alloc, &mut anchor, text)?;
    put(&mut anchor, "-l")?;
    anchor.extend_from_slice(line)?;
    Ok(Items::from_vec(anchor))
}

/// The beginning of rows that name a line of a text of this name.
#[tactic(auto, unfolding(crate::specs::Places::head))]
fn head(alloc: Global, name: &[u8]) -> Result<Items<u8>, AllocError>
    ensures { IfOk result (λ head. head ≡ spec.head name.now) }
{
    let mut head = Vec::new(alloc);
    put(&mut head, "  --> ")?;
    head.extend_from_slice(name)?;
    put(&mut head, ":")?;
    Ok(Items::from_vec(head))
}

/// The same of some texts.
pub(crate) fn heads(alloc: Global, texts: &[ShownText]) -> Result<Items<Items<u8>>, AllocError>
    ensures { IfOk result (λ heads. heads ≡ spec.heads texts.now) }
{
    let mut heads = Items::new(alloc);
    for text in texts {
        let head = head(alloc, text.name.as_slice())?;
        heads.push(head)?;
    }
    Ok(heads)
}

/// The digits with which bytes begin.
fn digits_at(bytes: &[u8]) -> &[u8]
    ensures { result.now ≡ spec.digits_at bytes.now }
{
    for (at, byte) in bytes.iter().enumerate() {
        if !byte.is_ascii_digit() {
            return &bytes[..at];
        }
    }
    bytes
}

/// The anchor of the line that a row names, if it names one.
pub(crate) fn anchor_in(
    alloc: Global,
    heads: &[Items<u8>],
    row: &[u8],
) -> Result<Option<Items<u8>>, AllocError>
    ensures { IfOk result (λ anchor. anchor ≡ spec.anchor_in heads.now row.now) }
{
    for (text, head) in heads.iter().enumerate() {
        if row.starts_with(head.as_slice()) {
            let line = digits_at(&row[head.len()..]);
            return Ok(Some(anchor(alloc, text, line)?));
        }
    }
    Ok(None)
}

/// The rows that name a line.
pub(crate) fn places(
    alloc: Global,
    heads: &[Items<u8>],
    rows: &[&[u8]],
) -> Result<Items<Place>, AllocError>
    ensures { IfOk result (λ places. places ≡ spec.places heads.now (map (λ row. row.now) rows.now)) }
{
    let mut places = Items::new(alloc);
    for (number, row) in rows.iter().enumerate() {
        if let Some(anchor) = anchor_in(alloc, heads, row)? {
            let row = number;
            places.push(Place { row, anchor })?;
        }
    }
    Ok(places)
}

/// The first row that names the line of an anchor.
pub(crate) fn row_on(places: &[Place], anchor: &[u8]) -> Option<usize>
    ensures { result ≡ spec.row_on places.now anchor.now }
{
    for place in places {
        if place.anchor.as_slice() == anchor {
            return Some(place.row);
        }
    }
    None
}
