//! The listing of some files.

ghost use Rattle.std.specs.Prelude.{◌≡◌, [], ◌++◌, IfOk, MatchResult, map};
ghost use Rattle.flt_c_functions.specs.Listing as spec;
ghost use Rattle.flt_c_functions.specs.Options.{folders_by, lines_by};

use crate::class::{classes, type_names};
use crate::item::{are_both, put_source};
use crate::option::{Options, lines_of};
use crate::place::tell;
use crate::source::{Source, read_sources};
use flt_c_headers::{HeaderFiles, Headers};
use flt_c_syntax::Class;
use flt_c_tokens::{Excess, Spellings};
use sqlite_items::Items;
use std::alloc::{AllocError, Global};

/// The functions and tables that were found, in whole lines, and whether all that was found is read.
#[derive(Drop)]
pub struct Listing {
    pub text: Vec<u8>,
    pub is_whole: bool,
}

/// Adds the lines of files, and says whether all of them is read.
fn put_sources(
    alloc: Global,
    out: &mut Vec<u8>,
    spellings: &Spellings,
    headers: &Headers,
    known: &[Class],
    sources: &[Source<'_>],
) -> Result<bool, AllocError>
    ensures { IfOk result (λ whole. spec.Puts
        (λ z. spec.AreTexts spellings.now headers.now.files known.now [] sources.now z whole) out.old.items out.new.items) }
{
    let mut told = Items::new(alloc);
    let mut is_whole = true;
    let mut rest = sources;
    while let [source, after @ ..] = rest {
        let is_read = put_source(
            alloc,
            out,
            spellings,
            headers,
            known,
            told.as_slice(),
            source,
        )?;
        is_whole = are_both(is_whole, is_read);
        tell(&mut told, source.headers.as_slice())?;
        rest = after;
    }
    Ok(is_whole)
}

/// The listing of files that are read.
fn listing_of(
    alloc: Global,
    spellings: &Spellings,
    headers: &Headers,
    sources: &[Source<'_>],
) -> Result<Listing, AllocError>
    ensures { IfOk result (λ l. spec.AreSources spellings.now headers.now.files sources.now l.text.items l.is_whole) }
{
    let types = type_names(alloc, sources)?;
    let known = classes(alloc, spellings, types.as_slice())?;
    let mut text = Vec::new(alloc);
    let is_whole = put_sources(
        alloc,
        &mut text,
        spellings,
        headers,
        known.as_slice(),
        sources,
    )?;
    Ok(Listing { text, is_whole })
}

/// The functions and tables of C files, in the order of the files, each of which is read after the lines of directives that the options
/// are. `names` has the names of the files, by which the listing calls them; a name that ends with `.cc` or `.cpp` is that of a C++ file, and
/// in all others words of C++ are names. `inputs` give the headers that files include, which are read in place of the lines that include
/// them, once a file; their items are listed with the first file that reads them, under the header's name. The first lines of a file are
/// about directives and macros that aren't read. A line for each function says whether it is read, or where and why reading stops; a table
/// has a line for each of its rows; and an item that isn't read has a line, too. Names and texts are shown, so that each line is one. Types
/// that one file names are types in all.
///
/// # Errors
///
/// `AllocError` if a growth is refused. The number from 0 of the first file that is too large, or whose words, or those of its headers, are
/// too many together with those of the files before it, and why.
#[tactic(auto, unfolding(crate::specs::Sources::nothing_known))]
pub fn functions<I: HeaderFiles>(
    alloc: Global,
    inputs: &I,
    options: Options<'_>,
    names: &[&str],
    files: &[Vec<u8>],
) -> Result<Result<Listing, (usize, Excess)>, AllocError>
    ensures { IfOk result (λ found. MatchResult found
        (λ listing. spec.IsListing (I.gives inputs.now) (folders_by options.entry) (lines_by options.entry)
        (map (λ name. name.now) names.now) (map (λ file. file.items) files.now) listing)
        (λ refused. spec.IsRefused (I.gives inputs.now) (folders_by options.entry) (lines_by options.entry)
        (map (λ name. name.now) names.now) (map (λ file. file.items) files.now) refused.0 refused.1)) }
{
    let lines = lines_of(alloc, options)?;
    let mut spellings = Spellings::new(alloc)?;
    let mut headers = Headers::new(alloc);
    let folders = options.folders;
    match read_sources(
        alloc,
        inputs,
        folders,
        &mut spellings,
        &mut headers,
        lines.as_slice(),
        names,
        files,
    )? {
        Err(refused) => Ok(Err(refused)),
        Ok(found) => Ok(Ok(listing_of(alloc, &spellings, &headers, found.as_slice())?)),
    }
}
