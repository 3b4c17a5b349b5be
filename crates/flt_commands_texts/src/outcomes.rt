//! The outcomes of files that are laid out, and how they are printed.

ghost use Rattle.std.specs.List.{list_any};
ghost use Rattle.std.specs.Prelude.{◌≡◌, IfOk, flat_map};
ghost use Rattle.flt_commands_texts.specs.Outcomes as spec;

use flt_files::UnreadFile;
use flt_syntax::SyntaxFault;
use flt_words::{FormatMode, visible};
use std::alloc::{AllocError, Global};

/// The outcome of a file whose text is laid out, with the certificate after it.
#[derive(Drop)]
pub enum Outcome {
    /// The file is as its layout, which has these bytes.
    Same(Vec<u8>),
    /// It differs from its layout, which has these bytes.
    Other(Vec<u8>),
    /// The same, and the layout isn't written into the file: whole lines that say why.
    Unwritten(Vec<u8>, Vec<u8>),
    /// The first fault of the text.
    Fault(SyntaxFault),
    /// The layout of the text has more bytes than a text may have.
    Long,
}

/// A file, and the outcome of its text.
#[derive(Drop)]
pub struct FileOutcome {
    pub name: String,
    pub outcome: Outcome,
}

/// The outcomes of some files, and the others, which aren't read.
#[derive(Drop)]
pub struct Outcomes {
    pub files: Vec<FileOutcome>,
    pub unread: Vec<UnreadFile>,
}

// ---- the exit status

/// Whether there is no layout, or it isn't written.
fn is_failed(outcome: &Outcome) -> bool
    ensures { result ≡ spec.is_failed outcome.now }
{
    match outcome {
        Outcome::Same(_) | Outcome::Other(_) => false,
        Outcome::Unwritten(_, _) | Outcome::Fault(_) | Outcome::Long => true,
    }
}

/// Whether the file differs from its layout.
fn is_other(outcome: &Outcome) -> bool
    ensures { result ≡ spec.is_other outcome.now }
{
    match outcome {
        Outcome::Other(_) => true,
        Outcome::Same(_) | Outcome::Unwritten(_, _) | Outcome::Fault(_) | Outcome::Long => false,
    }
}

fn is_check(mode: FormatMode) -> bool
    ensures { result ≡ spec.is_check mode }
{
    match mode {
        FormatMode::Check => true,
        FormatMode::Print | FormatMode::Write => false,
    }
}

fn has_failed(files: &[FileOutcome]) -> bool
    ensures { result ≡ list_any (λ file. spec.is_failed file.outcome) files.now }
{
    files.iter().any(|file| is_failed(&file.outcome))
}

fn has_other(files: &[FileOutcome]) -> bool
    ensures { result ≡ list_any (λ file. spec.is_other file.outcome) files.now }
{
    files.iter().any(|file| is_other(&file.outcome))
}

/// The exit status of the outcomes of some files.
pub(crate) fn files_status(mode: FormatMode, files: &[FileOutcome]) -> u8
    ensures { result ≡ spec.files_status mode files.now }
{
    if has_failed(files) {
        return 2;
    }
    if is_check(mode) && has_other(files) {
        return 1;
    }
    0
}

// ---- the standard output

/// The layout of a file, if it has one.
fn layout_in(outcome: &Outcome) -> &[u8]
    ensures { result.now ≡ spec.layout_in outcome.now }
{
    match outcome {
        Outcome::Same(layout) | Outcome::Other(layout) => layout.as_slice(),
        Outcome::Unwritten(_, _) | Outcome::Fault(_) | Outcome::Long => &[],
    }
}

/// The line that says that the file of a name differs from its layout, if it does.
fn unformatted_line(alloc: Global, name: &str, outcome: &Outcome) -> Result<Vec<u8>, AllocError>
    ensures { IfOk result (λ line. line.items ≡ spec.unformatted_line name.now outcome.now) }
{
    if !is_other(outcome) {
        return Ok(Vec::new(alloc));
    }
    let name = visible(alloc, name)?;
    let line = format!(in alloc; "not formatted {name}\n")?;
    Ok(line.into_bytes())
}

/// The output for a file.
fn printed(alloc: Global, mode: FormatMode, file: &FileOutcome) -> Result<Vec<u8>, AllocError>
    ensures { IfOk result (λ bytes. bytes.items ≡ spec.printed mode file.now) }
{
    match mode {
        FormatMode::Print => Vec::from_slice(alloc, layout_in(&file.outcome)),
        FormatMode::Check => unformatted_line(alloc, file.name.as_str(), &file.outcome),
        FormatMode::Write => Ok(Vec::new(alloc)),
    }
}

/// The output for some files.
pub(crate) fn printed_files(
    alloc: Global,
    mode: FormatMode,
    files: &[FileOutcome],
) -> Result<Vec<u8>, AllocError>
    ensures { IfOk result (λ bytes. bytes.items ≡ flat_map (spec.printed mode) files.now) }
{
    let mut bytes = Vec::new(alloc);
    for file in files {
        bytes.extend_from_slice(printed(alloc, mode, file)?.as_slice())?;
    }
    Ok(bytes)
}
