//! The sources that files make, and the files with which there is none.

ghost use Rattle.std.specs.Prelude.{◌≡◌, ◌≤◌, [], ◌++◌, All, IfOk, OnOk, length, map, slice_get};
ghost use Rattle.std.specs.List.{AllZip};
ghost use Rattle.std.specs.Vec.{vec_capacity};
ghost use Rattle.flt_files.specs.Inputs.{unread_names};
ghost use Rattle.flt_commands_explain.specs.Sources as spec;
ghost use Rattle.flt_joined.specs.Texts.{givens, name_by};

use flt_c::FileFlaw;
use flt_explain_texts::Source;
use flt_files::{InputFault, UnreadFile};
use flt_joined::{GivenFile, JoinedText};
use flt_places::SourceFile;
use std::alloc::{AllocError, Global};

/// The source of a text, which is in some of these files.
fn source_of<'s>(joined: &'s JoinedText, files: &'s [SourceFile<'s>]) -> Source<'s>
    requires { spec.IsWithin (length files.now) joined.now }
    ensures { spec.IsSourceIn files.now joined.now result }
{
    Source {
        text: joined.bytes.as_slice(),
        files: joined.files(files),
    }
}

/// The sources of some texts, which are in these files.
pub(crate) fn sources_of<'s>(
    alloc: Global,
    texts: &'s [JoinedText],
    files: &'s [SourceFile<'s>],
) -> Result<Vec<Source<'s>>, AllocError>
    requires { All (spec.IsWithin (length files.now)) texts.now }
    ensures { IfOk result (λ sources. AllZip (spec.IsSourceIn files.now) texts.now sources.items) }
{
    let mut sources = Vec::new(alloc);
    for joined in texts {
        sources.push(source_of(joined, files))?;
    }
    Ok(sources)
}

/// Texts by themselves, in a list that has room for them.
pub(crate) fn bytes_in(mut all: Vec<Vec<u8>>, texts: Vec<JoinedText>) -> Vec<Vec<u8>>
    requires empty { all.items ≡ [] }
    requires room { length texts.items ≤ vec_capacity all }
    ensures { map (λ bytes. bytes.items) result.items ≡ spec.bytes_in texts.items }
{
    for joined in texts {
        all.push_reserved(joined.bytes);
    }
    all
}

/// The C files among some files, each in the place of its file, in a list that has room for them.
pub(crate) fn codes_in(
    mut all: Vec<Option<Vec<u8>>>,
    files: Vec<GivenFile<'_>>,
) -> Vec<Option<Vec<u8>>>
    requires empty { all.items ≡ [] }
    requires room { length files.items ≤ vec_capacity all }
    ensures { result.items ≡ map (λ file. file.code) files.entry.items }
{
    for file in files {
        all.push_reserved(file.code);
    }
    all
}

/// The name of the file of a number; empty if there is none.
fn name_of<'a>(files: &[GivenFile<'a>], number: usize) -> &'a str
    ensures { result.now ≡ name_by (slice_get (givens files.now) number) }
{
    match files.get(number) {
        Some(file) => file.name,
        None => "",
    }
}

/// Adds the files with which a text would be too long to those that aren't read.
pub(crate) fn add_refused(
    alloc: Global,
    unread: &mut Vec<UnreadFile>,
    files: &[GivenFile<'_>],
    refused: &[FileFlaw],
) -> Result<(), AllocError>
    ensures { OnOk result (unread_names unread.new.items ≡ unread_names unread.old.items ++ spec.refused_names files.now refused.now) }
{
    for flaw in refused {
        let name = name_of(files, flaw.file);
        let file = InputFault::Flawed(flaw.flaw).file(alloc, name)?;
        unread.push(file)?;
    }
    Ok(())
}
