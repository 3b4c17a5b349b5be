//! The diagnostic of a C file whose annotations make no text.

use crate::members::{put_number, put_string};
use crate::places::Document;
use flt_c::{Place, PlaceFlaw, flaw_place, flaw_words};
use flt_places::Region;
use flt_tree::Position;
use json::Writer;
use std::alloc::AllocError;

/// The byte at a place; the first one if no place is known.
fn region_at(place: Option<Place>) -> Region {
    let (line, column) = place.map_or((1, 1), |place| (place.line, place.column));
    Region {
        first: Position { line, column },
        end: Position {
            line,
            column: column.saturating_add(1),
        },
    }
}

/// The diagnostic of a flaw, at its place.
pub(crate) fn put_flaw(
    writer: &mut Writer,
    document: &Document<'_>,
    flaw: PlaceFlaw,
) -> Result<(), AllocError> {
    writer.begin_object()?;
    document.put_region(writer, "range", region_at(flaw_place(flaw)))?;
    put_number(writer, "severity", 1)?;
    put_string(writer, "source", "fltstack")?;
    put_string(writer, "message", flaw_words(flaw))?;
    writer.end_object()
}
