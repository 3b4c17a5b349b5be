//! Headers are read, each once.

ghost use Rattle.std.specs.List.{All};
ghost use Rattle.std.specs.Prelude.{◌≡◌, ◌+◌, ◌<◌, ◌^◌, IfOk, MatchResult, OnOk, length, map};
ghost use Rattle.flt_c_headers.specs.Reading as spec;
ghost use Rattle.flt_c_headers.specs.World.{IsNext};
ghost use Rattle.flt_c_tokens.specs.Tokens.{IsExcess};

use crate::answer::HeaderFiles;
use crate::files::add_tokens;
use crate::headers::{HeaderFile, Headers};
use crate::linked::linked;
use flt_c_tokens::{Excess, Spellings, Token};
use std::alloc::{AllocError, Global};

/// Tokens at their places among those of all headers.
fn rebased(alloc: Global, base: u32, tokens: &[Token]) -> Result<Vec<Token>, AllocError>
    requires { All (λ t. t.start + base < 2 ^ 32) tokens.now }
    ensures { IfOk result (λ found. found.items ≡ map (spec.rebased base) tokens.now) }
{
    let mut found = Vec::new(alloc);
    for token in tokens {
        let start = token.start + base;
        found.push(Token { start, ..*token })?;
    }
    Ok(found)
}

/// Reads the next header, or says why its words have no room.
fn read_header<I: HeaderFiles>(
    alloc: Global,
    inputs: &I,
    folders: &[&str],
    spellings: &mut Spellings,
    headers: &mut Headers,
    file: &HeaderFile,
) -> Result<Result<(), Excess>, AllocError>
    requires { IsNext headers.old file.now }
    ensures { IfOk result (λ done. MatchResult done
        (λ _. spec.IsRead (I.gives inputs.now) (map (λ dir. dir.now) folders.now) spellings.old headers.old spellings.new headers.new)
        (λ excess. IsExcess spellings.old file.now.bytes.items excess)) }
{
    let name = file.name.as_slice();
    let bytes = file.bytes.as_slice();
    let mut tokens = Vec::new(alloc);
    if let Err(excess) = add_tokens(alloc, spellings, bytes, &mut tokens)? {
        return Ok(Err(excess));
    }
    let linked = linked(
        alloc,
        inputs,
        folders,
        spellings,
        headers,
        name,
        bytes,
        tokens.as_slice(),
    )?;
    let placed = rebased(alloc, file.base, linked.as_slice())?;
    headers.add_tokens(placed)?;
    Ok(Ok(()))
}

/// Reads headers until each has its tokens, or says why one has none.
pub(crate) fn read_headers<I: HeaderFiles>(
    alloc: Global,
    inputs: &I,
    folders: &[&str],
    spellings: &mut Spellings,
    headers: &mut Headers,
) -> Result<Result<(), Excess>, AllocError>
    ensures read { IfOk result (λ done. MatchResult done
        (λ _. spec.AreClosed (I.gives inputs.now) (map (λ dir. dir.now) folders.now) spellings.old headers.old spellings.new headers.new)
        (λ excess. spec.AreUnclosed (I.gives inputs.now) (map (λ dir. dir.now) folders.now) spellings.old headers.old excess)) }
    ensures whole { IfOk result (λ done. OnOk done (length headers.new.tokens ≡ length headers.new.files)) }
{
    while let Some(file) = headers.next_file(alloc)? {
        if let Err(excess) = read_header(alloc, inputs, folders, spellings, headers, &file)? {
            return Ok(Err(excess));
        }
    }
    Ok(Ok(()))
}
