//! Documents, and places in them as members of JSON objects.

use crate::annotated::{CFile, Pair};
use flt_explain_texts::Source;
use flt_places::{Files, Lines, Region};
use flt_server_outline::{Part, byte_of, spot_of};
use flt_server_session::{Encoding, OpenText, Spot};
use flt_tree::Position;
use json::Writer;
use std::alloc::{AllocError, Global};

/// The document that a question is about.
#[derive(Drop)]
pub(crate) struct Document<'a> {
    pub(crate) uri: &'a str,
    /// The text that is read: of a C file its annotations, each in its line and at its column.
    pub(crate) text: &'a [u8],
    /// The lines of this text.
    pub(crate) lines: Lines<'a>,
    /// The C file in which the text is, if it is one.
    pub(crate) c_file: Option<CFile<'a>>,
    pub(crate) encoding: Encoding,
}

/// The files of a document: its text is a file by itself, so that its lines have their own numbers.
pub(crate) fn own_files() -> Files<'static> {
    Files {
        all: &[],
        stands: &[],
    }
}

impl<'a> Document<'a> {
    /// Its text, as words about it are made.
    pub(crate) fn source(&self) -> Source<'a> {
        Source {
            text: self.text,
            files: own_files(),
        }
    }
}

/// A document that is open.
pub(crate) fn document_of<'a>(
    alloc: Global,
    open: OpenText<'a>,
) -> Result<Document<'a>, AllocError> {
    let lines = Lines::of(alloc, open.text)?;
    Ok(Document {
        uri: open.uri,
        text: open.text,
        lines,
        c_file: None,
        encoding: open.encoding,
    })
}

/// A C file that is open, with this text of annotations.
pub(crate) fn document_in_c<'a>(
    alloc: Global,
    open: OpenText<'a>,
    text: &'a [u8],
) -> Result<Document<'a>, AllocError> {
    let lines = Lines::of(alloc, text)?;
    let c_file = CFile::of(alloc, open.text)?;
    Ok(Document {
        uri: open.uri,
        text,
        lines,
        c_file: Some(c_file),
        encoding: open.encoding,
    })
}

/// The region of a part of a text.
pub(crate) fn region_of(lines: &Lines<'_>, part: Part) -> Region {
    Region {
        first: lines.place(part.start),
        end: lines.place(part.end),
    }
}

fn put_spot(writer: &mut Writer, spot: Spot) -> Result<(), AllocError> {
    writer.begin_object()?;
    writer.key("line")?;
    writer.u64(spot.line as u64)?;
    writer.key("character")?;
    writer.u64(spot.character as u64)?;
    writer.end_object()
}

impl Document<'_> {
    /// The byte of the text at a place of the C file, from 0: the end of its line if the place is after that.
    fn byte_in(&self, place: Position) -> usize {
        let spot = Spot {
            line: place.line.saturating_sub(1),
            character: place.column.saturating_sub(1),
        };
        byte_of(self.text, Encoding::Utf8, spot)
    }

    /// Whether the line of a byte ends before a place of the C file.
    fn ends_before(&self, byte: usize, place: Position) -> bool {
        let end = self.lines.place(byte);
        end.line != place.line || end.column < place.column
    }

    /// The byte of a place of the client, from 0; none if the place is in C code, or in the expression of a lock.
    fn byte_annotated(&self, c_file: &CFile<'_>, spot: Spot) -> Option<usize> {
        let own = c_file.byte_of(self.encoding, spot);
        let place = c_file.lines.place(own);
        let read = self.byte_in(place);
        let column = place.column.saturating_sub(1);
        if !self.ends_before(read, place)
            && c_file.is_annotated(self.text, Pair { own, read }, column)
        {
            Some(read)
        } else {
            None
        }
    }

    /// The byte of a place, from 0; none if nothing is read there.
    pub(crate) fn byte_at(&self, spot: Spot) -> Option<usize> {
        match &self.c_file {
            Some(c_file) => self.byte_annotated(c_file, spot),
            None => Some(byte_of(self.text, self.encoding, spot)),
        }
    }

    /// The first byte that isn't before a place, from 0.
    fn byte_from(&self, spot: Spot) -> usize {
        let Some(c_file) = &self.c_file else {
            return byte_of(self.text, self.encoding, spot);
        };
        let place = c_file.place_of(self.encoding, spot);
        let byte = self.byte_in(place);
        if self.ends_before(byte, place) {
            byte.saturating_add(1)
        } else {
            byte
        }
    }

    /// The byte of a place, from 0: the end of its line if the place is after that.
    fn byte_up_to(&self, spot: Spot) -> usize {
        match &self.c_file {
            Some(c_file) => self.byte_in(c_file.place_of(self.encoding, spot)),
            None => byte_of(self.text, self.encoding, spot),
        }
    }

    /// The part of the text from one place up to another.
    pub(crate) fn part_between(&self, start: Spot, end: Spot) -> Part {
        Part {
            start: self.byte_from(start),
            end: self.byte_up_to(end),
        }
    }

    /// The lines as the client has them, which count for columns.
    fn shown_lines(&self) -> &Lines<'_> {
        match &self.c_file {
            Some(c_file) => &c_file.lines,
            None => &self.lines,
        }
    }

    fn put_place(&self, writer: &mut Writer, place: Position) -> Result<(), AllocError> {
        put_spot(writer, spot_of(self.shown_lines(), self.encoding, place))
    }

    fn put_range(&self, writer: &mut Writer, region: Region) -> Result<(), AllocError> {
        writer.begin_object()?;
        writer.key("start")?;
        self.put_place(writer, region.first)?;
        writer.key("end")?;
        self.put_place(writer, region.end)?;
        writer.end_object()
    }

    /// A member of this name with a region.
    pub(crate) fn put_region(
        &self,
        writer: &mut Writer,
        name: &str,
        region: Region,
    ) -> Result<(), AllocError> {
        writer.key(name)?;
        self.put_range(writer, region)
    }

    /// A member of this name with the region of a part of the text.
    pub(crate) fn put_part(
        &self,
        writer: &mut Writer,
        name: &str,
        part: Part,
    ) -> Result<(), AllocError> {
        self.put_region(writer, name, region_of(&self.lines, part))
    }

    /// A region of this document, by its name.
    pub(crate) fn put_location(
        &self,
        writer: &mut Writer,
        region: Region,
    ) -> Result<(), AllocError> {
        writer.begin_object()?;
        writer.key("uri")?;
        writer.string(self.uri)?;
        self.put_region(writer, "range", region)?;
        writer.end_object()
    }
}
