//! The names under which a header is looked for.

ghost use Rattle.std.specs.Prelude.{◌≡◌, ◌++◌, IfOk, OnOk, map};
ghost use Rattle.flt_c_headers.specs.Candidates as spec;

use std::alloc::{AllocError, Global};

fn slashed_byte(b: u8) -> u8
    ensures { result ≡ spec.slashed_byte b }
{
    if b == b'\\' { b'/' } else { b }
}

/// A name with slashes for backslashes.
fn slashed(alloc: Global, name: &[u8]) -> Result<Vec<u8>, AllocError>
    ensures { IfOk result (λ found. found.items ≡ spec.slashed name.now) }
{
    let mut found = Vec::new(alloc);
    for b in name {
        found.push(slashed_byte(*b))?;
    }
    Ok(found)
}

/// A name up to its last slash.
fn folder_of(name: &[u8]) -> &[u8]
    ensures { result.now ≡ spec.folder_of name.now }
{
    let mut length = name.len();
    while length > 0 {
        if name[length - 1] == b'/' {
            return &name[..length];
        }
        length -= 1;
    }
    &[]
}

/// A name after another text.
fn joined(alloc: Global, before: &[u8], name: &[u8]) -> Result<Vec<u8>, AllocError>
    ensures { IfOk result (λ found. found.items ≡ before.now ++ name.now) }
{
    let mut found = Vec::from_slice(alloc, before)?;
    found.extend_from_slice(name)?;
    Ok(found)
}

/// A name in a folder.
#[tactic(auto, unfolding(crate::specs::Candidates::in_folder))]
fn in_folder(alloc: Global, folder: &[u8], name: &[u8]) -> Result<Vec<u8>, AllocError>
    ensures { IfOk result (λ found. found.items ≡ spec.in_folder folder.now name.now) }
{
    if folder.is_empty() || folder.ends_with(b"/") {
        return joined(alloc, folder, name);
    }
    let mut found = Vec::from_slice(alloc, folder)?;
    found.push(b'/')?;
    found.extend_from_slice(name)?;
    Ok(found)
}

/// Adds a name in each of some folders.
fn add_in_folders(
    alloc: Global,
    folders: &[&str],
    name: &[u8],
    found: &mut Vec<Vec<u8>>,
) -> Result<(), AllocError>
    ensures { OnOk result (map (λ c. c.items) found.new.items
        ≡ map (λ c. c.items) found.old.items ++ map (λ dir. spec.in_folder dir name.now) (map (λ dir. dir.now) folders.now)) }
{
    for folder in folders {
        found.push(in_folder(alloc, folder.as_bytes(), name)?)?;
    }
    Ok(())
}

/// Adds a name in the folder of the including file, if it is in quotes.
fn add_beside(
    alloc: Global,
    includer: &[u8],
    in_quotes: bool,
    name: &[u8],
    found: &mut Vec<Vec<u8>>,
) -> Result<(), AllocError>
    ensures { OnOk result (map (λ c. c.items) found.new.items
        ≡ map (λ c. c.items) found.old.items ++ spec.beside in_quotes includer.now name.now) }
{
    if in_quotes {
        found.push(joined(alloc, folder_of(includer), name)?)?;
    }
    Ok(())
}

/// The same of a name with slashes.
#[tactic(auto, unfolding(crate::specs::Candidates::candidates_of))]
fn candidates_of(
    alloc: Global,
    folders: &[&str],
    includer: &[u8],
    in_quotes: bool,
    name: &[u8],
) -> Result<Vec<Vec<u8>>, AllocError>
    ensures { IfOk result (λ found. map (λ c. c.items) found.items
        ≡ spec.candidates_of (map (λ dir. dir.now) folders.now) includer.now in_quotes name.now) }
{
    let mut found = Vec::new(alloc);
    if name.starts_with(b"/") {
        found.push(Vec::from_slice(alloc, name)?)?;
        return Ok(found);
    }
    add_beside(alloc, includer, in_quotes, name, &mut found)?;
    add_in_folders(alloc, folders, name, &mut found)?;
    Ok(found)
}

/// The names for one that a file includes, in the order in which they are requested.
pub(crate) fn candidates(
    alloc: Global,
    folders: &[&str],
    includer: &[u8],
    in_quotes: bool,
    name: &[u8],
) -> Result<Vec<Vec<u8>>, AllocError>
    ensures { IfOk result (λ found. map (λ c. c.items) found.items
        ≡ spec.candidates (map (λ dir. dir.now) folders.now) includer.now (in_quotes, name.now)) }
{
    let name = slashed(alloc, name)?;
    candidates_of(alloc, folders, includer, in_quotes, name.as_slice())
}
