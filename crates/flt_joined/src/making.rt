//! The text of files that continue one another.

ghost use Rattle.std.specs.Prelude.{◌≡◌, ◌<◌, Err, IfOk, MatchResult, flat_map, length, map};
ghost use Rattle.flt_c.specs.Files.{extracted};
ghost use Rattle.flt_joined.specs.Made as made;
ghost use Rattle.flt_joined.specs.Texts as spec;

use crate::given::GivenFile;
use flt_c::{FileFlaw, Line, extract};
use flt_places::Stand;
use std::alloc::{AllocError, Global};

/// A text, and where its lines are; nothing of the lines of a file that isn't C.
#[derive(Drop)]
pub(crate) struct MadeText {
    pub(crate) bytes: Vec<u8>,
    pub(crate) stands: Vec<Stand>,
}

/// Where a line of annotations is.
fn stand_of(line: Line) -> Stand
    ensures { result ≡ spec.stand_of line }
{
    Stand {
        file: line.file,
        line: line.place.line,
        before: line.place.column.saturating_sub(1),
    }
}

/// Where the lines of annotations are.
fn stands_of(alloc: Global, lines: &[Line]) -> Result<Vec<Stand>, AllocError>
    ensures { IfOk result (λ stands. stands.items ≡ map spec.stand_of lines.now) }
{
    let mut stands = Vec::new(alloc);
    for line in lines {
        stands.push(stand_of(*line))?;
    }
    Ok(stands)
}

/// The text that a file gives by itself.
fn own_text(alloc: Global, file: &GivenFile<'_>) -> Result<MadeText, AllocError>
    ensures bytes { IfOk result (λ text. text.bytes.items ≡ file.now.text.items) }
    ensures stands { IfOk result (λ text. text.stands.items ≡ file.now.stands.items) }
{
    let bytes = Vec::from_slice(alloc, file.text.as_slice())?;
    let stands = Vec::from_slice(alloc, file.stands.as_slice())?;
    Ok(MadeText { bytes, stands })
}

/// Copies of the C files among some files.
fn codes_of(alloc: Global, files: &[GivenFile<'_>]) -> Result<Vec<Vec<u8>>, AllocError>
    ensures { IfOk result (λ all. map (λ code. code.items) all.items ≡ flat_map spec.own_code (spec.givens files.now)) }
{
    let mut all = Vec::new(alloc);
    for file in files {
        if let Some(code) = &file.code {
            let code = Vec::from_slice(alloc, code.as_slice())?;
            all.push(code)?;
        }
    }
    Ok(all)
}

/// The annotations of some C files, or why they make no text.
pub(crate) fn annotations_of(
    alloc: Global,
    files: &[Vec<u8>],
) -> Result<Result<MadeText, FileFlaw>, AllocError>
    ensures { IfOk result (λ done. MatchResult done
        (made.IsMade (extracted (map (λ file. file.items) files.now)))
        (λ flaw. extracted (map (λ file. file.items) files.now) ≡ Err flaw)) }
{
    match extract(alloc, files)? {
        Ok(found) => {
            let stands = stands_of(alloc, found.lines.as_slice())?;
            Ok(Ok(MadeText {
                bytes: found.bytes,
                stands,
            }))
        }
        Err(flaw) => Ok(Err(flaw)),
    }
}

/// The text of files that continue one another, or why they make none.
pub(crate) fn text_of(
    alloc: Global,
    files: &[GivenFile<'_>],
) -> Result<Result<MadeText, FileFlaw>, AllocError>
    requires own { made.AreOwn files.now }
    requires group { spec.IsGroup (spec.givens files.now) }
    ensures { IfOk result (λ done. MatchResult done
        (made.IsMade (spec.text_of (spec.givens files.now)))
        (λ flaw. (spec.text_of (spec.givens files.now) ≡ Err flaw) × (flaw.file < length files.now))) }
{
    match files {
        [only] => {
            let text = own_text(alloc, only)?;
            Ok(Ok(text))
        }
        [_, _, ..] => {
            let codes = codes_of(alloc, files)?;
            annotations_of(alloc, codes.as_slice())
        }
        [] => Ok(Ok(MadeText {
            bytes: Vec::new(alloc),
            stands: Vec::new(alloc),
        })),
    }
}
