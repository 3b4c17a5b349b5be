//! Names are requested, each once.

ghost use Rattle.std.specs.Prelude.{◌≡◌, ℕ, List, Option, IfOk, false, map, option_map};
ghost use Rattle.flt_c_headers.specs.Reading as spec;
ghost use Rattle.flt_c_headers.specs.World as world;

use crate::headers::Headers;
use std::alloc::{AllocError, Global};
use std::str;

/// The files that may be headers.
pub trait HeaderFiles {
    // What it may give for a name: its bytes, or none.
    ghost gives: { Self → List ℕ → Option (List ℕ) → Type 0 };

    /// The bytes of a file, or none if it isn't there, can't be read or has too many.
    fn read(&self, alloc: Global, name: &str) -> Result<Option<Vec<u8>>, AllocError>
        ensures { IfOk result (λ found. gives self.now name.now (option_map (λ v. v.items) found)) };
}

/// Whether a name is that of the standard input.
fn is_standard(name: &[u8]) -> bool
    ensures { result ≡ world.is_standard name.now }
{
    name == b"-".as_slice()
}

/// A name as text, if it can be requested.
fn asked_name(name: &[u8]) -> Option<&str>
    ensures { world.IsName name.now (option_map (λ text. text.now) result) }
{
    if is_standard(name) {
        return None;
    }
    match str::from_utf8(name) {
        Ok(text) => Some(text),
        Err(_) => None,
    }
}

/// Requests a name for the first time.
fn ask<I: HeaderFiles>(
    alloc: Global,
    inputs: &I,
    headers: &mut Headers,
    name: &[u8],
) -> Result<Option<u32>, AllocError>
    requires { world.is_asked headers.old name.now ≡ false }
    ensures { IfOk result (λ found. spec.IsAnswered (I.gives inputs.now) name.now headers.old found headers.new) }
{
    match asked_name(name) {
        None => Ok(None),
        Some(text) => match inputs.read(alloc, text)? {
            None => headers.add_missing(alloc, name),
            Some(bytes) => headers.add_found(alloc, name, bytes),
        },
    }
}

/// The number of the header of a name.
fn answer<I: HeaderFiles>(
    alloc: Global,
    inputs: &I,
    headers: &mut Headers,
    name: &[u8],
) -> Result<Option<u32>, AllocError>
    ensures { IfOk result (λ found. spec.IsAnswered (I.gives inputs.now) name.now headers.old found headers.new) }
{
    match headers.answer(name) {
        Some(known) => Ok(known),
        None => ask(alloc, inputs, headers, name),
    }
}

/// The number of the header of the first name that has one.
pub(crate) fn first_answer<I: HeaderFiles>(
    alloc: Global,
    inputs: &I,
    headers: &mut Headers,
    names: &[Vec<u8>],
) -> Result<Option<u32>, AllocError>
    ensures { IfOk result (λ found. spec.IsFound (I.gives inputs.now) (map (λ name. name.items) names.now) headers.old found headers.new) }
{
    let mut rest = names;
    while let [name, after @ ..] = rest {
        match answer(alloc, inputs, headers, name.as_slice())? {
            Some(number) => return Ok(Some(number)),
            None => rest = after,
        }
    }
    Ok(None)
}
