//! The tokens of a file with its headers.

ghost use Rattle.std.specs.Prelude.{◌≡◌, IfOk, MatchResult, OnOk, length, map};
ghost use Rattle.flt_c_headers.specs.Reading as spec;

use crate::answer::HeaderFiles;
use crate::headers::Headers;
use crate::linked::linked;
use crate::reading::read_headers;
use flt_c_tokens::{Excess, Spellings, Token};
use std::alloc::{AllocError, Global};

/// The tokens of a file of this name and these bytes, by these spellings, with each header that was found in the place of its name: the
/// line is `#`, `include`, a token of kind `Header`, and its end. Headers that are new are read then, and those that they include. They are
/// looked for in these folders. An excess is that of a header; it doesn't say which one.
///
/// # Errors
///
/// `AllocError` if a growth is refused. Then, and after an excess, there may be more spellings and headers than before, and headers that
/// have no tokens yet: the next call reads these.
pub fn link<I: HeaderFiles>(
    alloc: Global,
    inputs: &I,
    folders: &[&str],
    spellings: &mut Spellings,
    headers: &mut Headers,
    name: &str,
    file: &[u8],
    tokens: &[Token],
) -> Result<Result<Vec<Token>, Excess>, AllocError>
    ensures included { IfOk result (λ done. MatchResult done
        (λ found. spec.AreIncluded (I.gives inputs.now) (map (λ dir. dir.now) folders.now) name.now file.now tokens.now
        spellings.old headers.old found.items spellings.new headers.new)
        (λ excess. spec.IsUnincluded (I.gives inputs.now) (map (λ dir. dir.now) folders.now) name.now file.now tokens.now
        spellings.old headers.old excess)) }
    ensures whole { IfOk result (λ done. OnOk done (length headers.new.tokens ≡ length headers.new.files)) }
{
    let found = linked(
        alloc,
        inputs,
        folders,
        spellings,
        headers,
        name.as_bytes(),
        file,
        tokens,
    )?;
    match read_headers(alloc, inputs, folders, spellings, headers)? {
        Ok(()) => Ok(Ok(found)),
        Err(excess) => Ok(Err(excess)),
    }
}
