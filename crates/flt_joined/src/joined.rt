//! The texts that files make, and where their lines are.

ghost use Rattle.std.specs.Prelude.{◌≡◌, ◌<◌, ◌≤◌, [], IfOk, OnOk, get_or, length, map, slice_range, string_bytes};
ghost use Rattle.flt_joined.specs.Made as made;
ghost use Rattle.flt_joined.specs.Texts as spec;

use crate::beginning::end_of;
use crate::given::GivenFile;
use crate::making::{MadeText, text_of};
use flt_c::FileFlaw;
use flt_places::{Files, Lines, SourceFile, Stand};
use std::alloc::{AllocError, Global};

/// A text that some files make.
#[derive(Drop)]
pub struct JoinedText {
    /// The number of the first of them, from 0.
    pub first: usize,
    /// The number after that of the last one.
    pub end: usize,
    pub bytes: Vec<u8>,
    /// Where its lines are; nothing for a file that isn't C.
    pub stands: Vec<Stand>,
}

impl JoinedText {
    /// The files of the text, which is in some of these.
    pub fn files<'s>(&'s self, all: &'s [SourceFile<'s>]) -> Files<'s>
        requires some { self.now.first ≤ self.now.end }
        requires within { self.now.end ≤ length all.now }
        ensures all { result.all.now ≡ slice_range all.now self.now.first self.now.end }
        ensures stands { result.stands.now ≡ self.now.stands.items }
    {
        Files {
            all: &all[self.first..self.end],
            stands: self.stands.as_slice(),
        }
    }
}

/// The texts that files make.
#[derive(Drop)]
pub struct JoinedTexts {
    pub texts: Vec<JoinedText>,
    /// The files with which a text would be too long: the files that would make it make none.
    pub refused: Vec<FileFlaw>,
}

impl JoinedTexts {
    /// Adds the text of the files from one number up to another, or the file by which there is none.
    fn add(
        &mut self,
        alloc: Global,
        files: &[GivenFile<'_>],
        first: usize,
        end: usize,
    ) -> Result<(), AllocError>
        requires own { made.AreOwn files.now }
        requires some { first < end }
        requires within { end ≤ length files.now }
        requires group { spec.IsGroup (spec.givens (slice_range files.now first end)) }
        ensures { OnOk result (made.IsAdded files.now (spec.givens (slice_range files.now first end)) self.old self.new) }
    {
        match text_of(alloc, &files[first..end])? {
            Ok(MadeText { bytes, stands }) => self.texts.push(JoinedText {
                first,
                end,
                bytes,
                stands,
            })?,
            Err(FileFlaw { file, flaw }) => self.refused.push(FileFlaw {
                file: first + file,
                flaw,
            })?,
        }
        Ok(())
    }
}

/// The texts that files make.
///
/// # Errors
///
/// `AllocError` if a growth is refused.
pub fn join(alloc: Global, files: &[GivenFile<'_>]) -> Result<JoinedTexts, AllocError>
    requires { made.AreOwn files.now }
    ensures { IfOk result (made.AreJoined files.now) }
{
    let mut joined = JoinedTexts {
        texts: Vec::new(alloc),
        refused: Vec::new(alloc),
    };
    let mut first = 0;
    while first < files.len() {
        let end = end_of(files, first);
        joined.add(alloc, files, first, end)?;
        first = end;
    }
    Ok(joined)
}

// ---- their files

/// The bytes of a file.
fn bytes_of<'s>(file: &'s GivenFile<'_>) -> &'s [u8]
    ensures { result.now ≡ spec.bytes_by (spec.given_of file.now).code (spec.given_of file.now).text }
{
    match &file.code {
        Some(code) => code.as_slice(),
        None => file.text.as_slice(),
    }
}

/// The name of a number; empty if there is none.
fn name_of(names: &[String], number: usize) -> &str
    ensures { result.now ≡ get_or (map string_bytes names.now) number [] }
{
    match names.get(number) {
        Some(name) => name.as_str(),
        None => "",
    }
}

/// A file under a name.
///
/// # Errors
///
/// `AllocError` if a growth is refused.
pub fn source_file<'s>(
    alloc: Global,
    file: &'s GivenFile<'_>,
    name: &'s str,
) -> Result<SourceFile<'s>, AllocError>
    ensures { IfOk result (λ f. (told : spec.Text → spec.Text) → name.now ≡ told file.now.name.now →
        spec.file_in f ≡ spec.file_of told (spec.given_of file.now)) }
{
    let lines = Lines::of(alloc, bytes_of(file))?;
    Ok(SourceFile { name, lines })
}

/// Files under these names.
///
/// # Errors
///
/// `AllocError` if a growth is refused.
pub fn source_files<'s>(
    alloc: Global,
    files: &'s [GivenFile<'_>],
    names: &'s [String],
) -> Result<Vec<SourceFile<'s>>, AllocError>
    ensures { IfOk result (λ all. (told : spec.Text → spec.Text) →
        map string_bytes names.now ≡ map (λ f. told f.name.now) files.now → spec.AreNamed told (spec.givens files.now) all.items) }
{
    let mut all = Vec::new(alloc);
    for (number, file) in files.iter().enumerate() {
        let own = source_file(alloc, file, name_of(names, number))?;
        all.push(own)?;
    }
    Ok(all)
}
