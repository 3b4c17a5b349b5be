//! The outcomes of `format` for the names that it is given, and the files that it writes.

ghost use Rattle.std.specs.List.{All};
ghost use Rattle.std.specs.Prelude.{◌≡◌, ◌≢◌, ◌++◌, ℕ, List, IfOk, length, map, string_bytes, false};
ghost use Rattle.flt_files.specs.Attempts.{Does};
ghost use Rattle.flt_commands_texts.specs.Format as spec;
ghost use Rattle.flt_commands_texts.specs.declared.answer.TextAnswer.TheVariants.{Formatted};

use crate::outcomes::{FileOutcome, Outcome, Outcomes};
use flt_files::{Contents, Inputs, Pictures, certificate_start, read_each, unwritten_lines};
use flt_layout::{FormatError, format};
use flt_words::FormatMode;
use std::alloc::{AllocError, Global};

/// The outcome of a layout of an input: whether it is the input.
fn compared(input: &[u8], layout: Vec<u8>) -> Outcome
    ensures comes { spec.IsLayout input.now layout.items → spec.ComesTo input.now result }
    ensures read { spec.is_unwritten result ≡ false }
{
    if layout.as_slice() == input {
        Outcome::Same(layout)
    } else {
        Outcome::Other(layout)
    }
}

/// The outcome of an input whose text has a layout, with this certificate after it.
fn joined(input: &[u8], layout: Vec<u8>, certificate: &[u8]) -> Result<Outcome, AllocError>
    ensures comes { IfOk result (λ outcome. spec.IsLayout input.now (layout.items ++ certificate.now) → spec.ComesTo input.now outcome) }
    ensures read { IfOk result (λ outcome. spec.is_unwritten outcome ≡ false) }
{
    let mut whole = layout;
    whole.extend_from_slice(certificate)?;
    Ok(compared(input, whole))
}

/// The outcome of an input that holds a text and maybe its certificate.
fn outcome_of(alloc: Global, input: &[u8]) -> Result<Outcome, AllocError>
    ensures comes { IfOk result (spec.ComesTo input.now) }
    ensures read { IfOk result (λ outcome. spec.is_unwritten outcome ≡ false) }
{
    let (text, certificate) = input.split_at(certificate_start(input));
    match format(alloc, text) {
        Ok(layout) => joined(input, layout, certificate),
        Err(FormatError::Syntax(fault)) => Ok(Outcome::Fault(fault)),
        Err(FormatError::Long) => Ok(Outcome::Long),
        Err(FormatError::OutOfMemory) => Err(AllocError),
    }
}

/// Writes a layout into the file of a name, if that still has the bytes that were read. Returns the file's outcome.
fn put_layout<P: Pictures>(
    alloc: Global,
    name: &str,
    read: &[u8],
    layout: Vec<u8>,
    pictures: &mut P,
) -> Result<Outcome, AllocError>
    ensures comes { (input : List ℕ) → spec.IsLayout input layout.items → layout.items ≢ input → IfOk result (spec.ComesTo input) }
    ensures done { IfOk result (spec.IsDone (P.written pictures.new) FormatMode.Write name.now) }
    ensures did { IfOk result (λ outcome. Does (pictures.new ≡ pictures.old) (P.done pictures.old) (P.done pictures.new)
        (spec.attempts_by FormatMode.Write name.now outcome)) }
    ensures kept { (other bytes : List ℕ) → P.written pictures.old other bytes → P.written pictures.new other bytes }
{
    match pictures.rewrite(alloc, name, read, layout.as_slice())? {
        Ok(()) => Ok(Outcome::Other(layout)),
        Err(why) => {
            let lines = unwritten_lines(alloc, name, why)?;
            Ok(Outcome::Unwritten(layout, lines))
        }
    }
}

/// The outcome of the file of a name, once its layout is written if the file differs from it.
fn put_other<P: Pictures>(
    alloc: Global,
    name: &str,
    read: &[u8],
    outcome: Outcome,
    pictures: &mut P,
) -> Result<Outcome, AllocError>
    ensures comes { (input : List ℕ) → spec.ComesTo input outcome → IfOk result (spec.ComesTo input) }
    ensures done { IfOk result (spec.IsDone (P.written pictures.new) FormatMode.Write name.now) }
    ensures did { spec.is_unwritten outcome ≡ false → IfOk result (λ outcome. Does (pictures.new ≡ pictures.old)
        (P.done pictures.old) (P.done pictures.new) (spec.attempts_by FormatMode.Write name.now outcome)) }
    ensures kept { (other bytes : List ℕ) → P.written pictures.old other bytes → P.written pictures.new other bytes }
{
    match outcome {
        Outcome::Other(layout) => put_layout(alloc, name, read, layout, pictures),
        Outcome::Same(layout) => Ok(Outcome::Same(layout)),
        Outcome::Unwritten(layout, why) => Ok(Outcome::Unwritten(layout, why)),
        Outcome::Fault(fault) => Ok(Outcome::Fault(fault)),
        Outcome::Long => Ok(Outcome::Long),
    }
}

/// The same if files are written, and else the outcome as it is.
fn written<P: Pictures>(
    alloc: Global,
    mode: FormatMode,
    name: &str,
    read: &[u8],
    outcome: Outcome,
    pictures: &mut P,
) -> Result<Outcome, AllocError>
    requires read { spec.is_unwritten outcome ≡ false }
    ensures comes { (input : List ℕ) → spec.ComesTo input outcome → IfOk result (spec.ComesTo input) }
    ensures fits { IfOk result (spec.MayBe mode) }
    ensures done { IfOk result (spec.IsDone (P.written pictures.new) mode name.now) }
    ensures did { IfOk result (λ outcome. Does (pictures.new ≡ pictures.old) (P.done pictures.old) (P.done pictures.new)
        (spec.attempts_by mode name.now outcome)) }
    ensures kept { (other bytes : List ℕ) → P.written pictures.old other bytes → P.written pictures.new other bytes }
    ensures untouched { mode ≢ FormatMode.Write → pictures.new ≡ pictures.old }
{
    match mode {
        FormatMode::Print => Ok(outcome),
        FormatMode::Check => Ok(outcome),
        FormatMode::Write => put_other(alloc, name, read, outcome, pictures),
    }
}

/// The outcome of the file of a name, which gives this input.
fn file_outcome<P: Pictures>(
    alloc: Global,
    mode: FormatMode,
    name: &str,
    input: &[u8],
    pictures: &mut P,
) -> Result<FileOutcome, AllocError>
    ensures named { IfOk result (λ file. string_bytes file.name ≡ name.now) }
    ensures is { IfOk result (spec.IsOutcome mode input.now) }
    ensures done { IfOk result (spec.IsFileDone (P.written pictures.new) mode) }
    ensures did { IfOk result (λ file. Does (pictures.new ≡ pictures.old) (P.done pictures.old) (P.done pictures.new)
        (spec.attempts_for mode file)) }
    ensures kept { (other bytes : List ℕ) → P.written pictures.old other bytes → P.written pictures.new other bytes }
    ensures untouched { mode ≢ FormatMode.Write → pictures.new ≡ pictures.old }
{
    let outcome = outcome_of(alloc, input)?;
    let outcome = written(alloc, mode, name, input, outcome, pictures)?;
    let name = String::from_str(alloc, name)?;
    Ok(FileOutcome { name, outcome })
}

/// The outcomes of some files, one after the other. A layout is written before the next file is looked at.
fn file_outcomes<P: Pictures>(
    alloc: Global,
    mode: FormatMode,
    names: &[&str],
    texts: &[Vec<u8>],
    pictures: &mut P,
) -> Result<Vec<FileOutcome>, AllocError>
    requires { length texts.now ≡ length names.now }
    ensures are { IfOk result (λ files. spec.AreOutcomes mode (map (λ name. name.now) names.now) (map (λ text. text.items) texts.now)
        files.items) }
    ensures done { IfOk result (λ files. All (spec.IsFileDone (P.written pictures.new) mode) files.items) }
    ensures did { IfOk result (λ files. Does (pictures.new ≡ pictures.old) (P.done pictures.old) (P.done pictures.new)
        (spec.attempts_in mode files.items)) }
    ensures untouched { mode ≢ FormatMode.Write → pictures.new ≡ pictures.old }
{
    let mut files = Vec::new(alloc);
    for (number, text) in texts.iter().enumerate() {
        let file = file_outcome(alloc, mode, names[number], text.as_slice(), pictures)?;
        files.push(file)?;
    }
    Ok(files)
}

/// The outcomes of `format` for those of its names that can be read; `contents` becomes the bytes that these give.
pub fn format_files<I: Inputs, P: Pictures>(
    alloc: Global,
    mode: FormatMode,
    inputs: &I,
    files: &[&str],
    pictures: &mut P,
    contents: &mut Contents,
) -> Result<Outcomes, AllocError>
    ensures said { IfOk result (spec.AreFormatted (I.gives inputs.now) mode (map (λ name. name.now) files.now)
        (map (λ text. text.items) contents.new.texts.items)) }
    ensures kept { IfOk result (λ found. spec.IsFormatKept (P.written pictures.new)
        (Does (pictures.new ≡ pictures.old) (P.done pictures.old) (P.done pictures.new)) mode (Formatted mode found)) }
    ensures untouched { mode ≢ FormatMode.Write → pictures.new ≡ pictures.old }
{
    let read = read_each(alloc, inputs, files)?;
    let names = read.names;
    let unread = read.unread;
    contents.texts = read.texts;
    let files = file_outcomes(
        alloc,
        mode,
        names.as_slice(),
        contents.texts.as_slice(),
        pictures,
    )?;
    Ok(Outcomes { files, unread })
}
