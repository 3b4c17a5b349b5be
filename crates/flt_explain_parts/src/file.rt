//! The files of a document.

ghost use Rattle.std.specs.Prelude.{◌≡◌, IfOk, OnOk, flat_map, map, position};
ghost use Rattle.flt_explain_parts.specs.Files as spec;

use crate::drifted::DriftedFile;
use crate::uri::{Reference, reference_to};
use flt_explain_texts::Source;
use flt_places::{Files, Lines, SourceFile};
use sqlite_items::Items;
use std::alloc::{AllocError, Global};

/// A file of a document.
#[derive(Drop)]
pub struct Artifact {
    pub reference: Reference,
    /// Its number among the files of the document, from 0.
    pub number: usize,
}

/// A text of a document.
#[derive(Drop)]
pub struct File<'a> {
    /// Each of its files.
    pub artifacts: Items<Artifact>,
    pub files: Files<'a>,
    pub lines: Lines<'a>,
}

fn is_same(name: &str, other: &str) -> bool
    ensures { result ≡ spec.is_same name.now other.now }
{
    name == other
}

/// The first place of a name among others, if it is there.
fn position_of(names: &[&str], name: &str) -> Option<usize>
    ensures { result ≡ position (λ n. spec.is_same name.now n.now) names.now }
{
    names.iter().position(|other| is_same(name, other))
}

/// The number of a name among others; their number if it isn't there.
fn number_of(names: &[&str], name: &str) -> usize
    ensures { result ≡ spec.number_of names.now name.now }
{
    position_of(names, name).unwrap_or(names.len())
}

/// Adds a name, if it isn't there.
fn add_name<'a>(names: &mut Vec<&'a str>, name: &'a str) -> Result<(), AllocError>
    ensures { OnOk result (names.new.items ≡ spec.with_name names.old.items name.entry) }
{
    if number_of(names.as_slice(), name) == names.len() {
        names.push(name)?;
    }
    Ok(())
}

/// Adds the names of the files of a text that aren't there.
fn add_names<'a>(names: &mut Vec<&'a str>, files: &'a [SourceFile<'a>]) -> Result<(), AllocError>
    ensures { OnOk result (names.new.items ≡ spec.with_names names.old.items (map (λ f. f.name) files.now)) }
{
    for file in files {
        add_name(names, file.name)?;
    }
    Ok(())
}

/// Adds the names of the files of texts that aren't there.
fn add_texts<'a>(names: &mut Vec<&'a str>, sources: &[Source<'a>]) -> Result<(), AllocError>
    ensures { OnOk result (names.new.items ≡ spec.with_names names.old.items (flat_map spec.own_names sources.now)) }
{
    for source in sources {
        add_names(names, source.files.all)?;
    }
    Ok(())
}

/// Adds the names of C files that aren't there.
fn add_drifted<'a>(names: &mut Vec<&'a str>, drifted: &[DriftedFile<'a>]) -> Result<(), AllocError>
    ensures { OnOk result (names.new.items ≡ spec.with_names names.old.items (map (λ f. f.name) drifted.now)) }
{
    for file in drifted {
        add_name(names, file.name)?;
    }
    Ok(())
}

/// The names of the files of texts, and of C files, each once, in their order.
///
/// # Errors
///
/// `AllocError` if a growth is refused.
pub fn names_of<'a>(
    alloc: Global,
    sources: &[Source<'a>],
    drifted: &[DriftedFile<'a>],
) -> Result<Vec<&'a str>, AllocError>
    ensures { IfOk result (λ names. names.items ≡ spec.names_of sources.now drifted.now) }
{
    let mut names = Vec::new(alloc);
    add_texts(&mut names, sources)?;
    add_drifted(&mut names, drifted)?;
    Ok(names)
}

/// A file of this name, in a document of files of these names.
///
/// # Errors
///
/// `AllocError` if a growth is refused.
pub fn artifact_of(alloc: Global, names: &[&str], name: &str) -> Result<Artifact, AllocError>
    ensures { IfOk result (λ artifact. artifact ≡ spec.artifact_of names.now name.now) }
{
    Ok(Artifact {
        reference: reference_to(alloc, name)?,
        number: number_of(names, name),
    })
}

/// The files of a text, in a document of files of these names.
fn artifacts_of(
    alloc: Global,
    names: &[&str],
    files: &[SourceFile<'_>],
) -> Result<Items<Artifact>, AllocError>
    ensures { IfOk result (λ artifacts. artifacts ≡ spec.artifacts_of names.now files.now) }
{
    let mut artifacts = Items::new(alloc);
    for file in files {
        let artifact = artifact_of(alloc, names, file.name)?;
        artifacts.push(artifact)?;
    }
    Ok(artifacts)
}

/// A text with its files, in a document of files of these names.
///
/// # Errors
///
/// `AllocError` if a growth is refused.
pub fn file_of<'a>(
    alloc: Global,
    names: &[&str],
    source: Source<'a>,
) -> Result<File<'a>, AllocError>
    ensures { IfOk result (λ file. file ≡ spec.file_of names.now source.entry) }
{
    Ok(File {
        artifacts: artifacts_of(alloc, names, source.files.all)?,
        files: source.files,
        lines: Lines::of(alloc, source.text)?,
    })
}

/// The same for several texts.
///
/// # Errors
///
/// `AllocError` if a growth is refused.
pub fn files_of<'s>(
    alloc: Global,
    names: &[&str],
    sources: &[Source<'s>],
) -> Result<Vec<File<'s>>, AllocError>
    ensures { IfOk result (λ files. files.items ≡ spec.files_of names.now sources.now) }
{
    let mut files = Vec::new(alloc);
    for source in sources {
        let file = file_of(alloc, names, *source)?;
        files.push(file)?;
    }
    Ok(files)
}
