//! The answer of `extract` to the names that it is given.

ghost use Rattle.std.specs.Prelude.{◌≡◌, IfOk, string_bytes, slice_index_or, []};
ghost use Rattle.std.specs.Prelude;
ghost use Rattle.flt_c.specs.Texts.{text_in};
ghost use Rattle.flt_files.specs.Inputs.{Says};
ghost use Rattle.flt_files.specs.Names.{names_of};
ghost use Rattle.flt_commands_texts.specs.Extract as spec;
ghost use Rattle.flt_words.specs.Request.{Extract};
ghost use Rattle.flt_words.specs.Shown;

use crate::answer::TextAnswer;
use flt_c::{Annotations, FileFlaw, Line, extract};
use flt_files::{Contents, Failure, FilePlace, Inputs, read_all};
use flt_words::visible;
use std::alloc::{AllocError, Global};

// ---- where the lines of the text begin

/// The name of the file of a number.
pub(crate) fn name_of<'a>(names: &[&'a str], file: usize) -> &'a str
    ensures { result.now ≡ slice_index_or (Prelude.map (λ name. name.now) names.now) file [] }
{
    match names.get(file) {
        Some(name) => name,
        None => "",
    }
}

/// The place where a line of the text begins, as a line.
fn map_line(alloc: Global, name: &str, line: Line, number: usize) -> Result<String, AllocError>
    ensures { IfOk result (λ text. string_bytes text ≡ spec.map_line (Shown.visible name.now) line number) }
{
    let name = visible(alloc, name)?;
    let place = FilePlace(line.place);
    format!(in alloc; "{name}:{place}: line {number}\n")
}

/// The places where the lines of the text begin, as lines.
fn map_of(alloc: Global, names: &[&str], lines: &[Line]) -> Result<Vec<u8>, AllocError>
    ensures { IfOk result (λ bytes. bytes.items ≡ spec.map_from (Prelude.map (λ name. name.now) names.now) 1 lines.now) }
{
    let mut bytes = Vec::new(alloc);
    for (before, line) in lines.iter().enumerate() {
        let text = map_line(alloc, name_of(names, line.file), *line, before + 1)?;
        bytes.extend_from_slice(text.as_bytes())?;
    }
    Ok(bytes)
}

// ---- what is said

/// The output for a text.
fn printed(
    alloc: Global,
    map: bool,
    names: &[&str],
    found: Annotations,
) -> Result<Vec<u8>, AllocError>
    ensures { IfOk result (λ bytes. bytes.items ≡ spec.printed map (Prelude.map (λ name. name.now) names.now) (text_in found)) }
{
    if map {
        map_of(alloc, names, found.lines.as_slice())
    } else {
        Ok(found.bytes)
    }
}

/// The answer of `extract` to the files of some names.
fn extract_texts<'a>(
    alloc: Global,
    map: bool,
    names: &[&'a str],
    texts: &[Vec<u8>],
) -> Result<TextAnswer, Failure<'a>>
    ensures { spec.IsExtracted map (Prelude.map (λ name. name.now) names.now) (Prelude.map (λ text. text.items) texts.now) result }
{
    match extract(alloc, texts)? {
        Ok(found) => Ok(TextAnswer::Extracted(printed(alloc, map, names, found)?)),
        Err(FileFlaw { file, flaw }) => Err(Failure::Flawed(name_of(names, file), flaw)),
    }
}

/// The answer of `extract` to the names that it is given; `contents` becomes the bytes that these give.
pub fn extract_files<'a, I: Inputs>(
    alloc: Global,
    inputs: &I,
    map: bool,
    files: &[&'a str],
    contents: &mut Contents,
) -> Result<TextAnswer, Failure<'a>>
    ensures { Says (I.gives inputs.now) (names_of (Extract map (Prelude.map (λ name. name.now) files.now)))
        (spec.IsExtracted map (Prelude.map (λ name. name.now) files.now))
        (Prelude.map (λ text. text.items) contents.new.texts.items) result }
{
    contents.texts = read_all(alloc, inputs, files)?;
    extract_texts(alloc, map, files, contents.texts.as_slice())
}
