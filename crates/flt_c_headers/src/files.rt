//! The tokens of a file without its end.

ghost use Rattle.std.specs.Prelude.{◌≡◌, IfOk, MatchResult};
ghost use Rattle.flt_c_headers.specs.Files as spec;
ghost use Rattle.flt_c_tokens.specs.Tokens.{IsExcess};

use flt_c_tokens::{Excess, Spellings, Token, tokens};
use std::alloc::{AllocError, Global};

/// All tokens but the last one.
fn but_last(tokens: &[Token]) -> &[Token]
    ensures { result.now ≡ spec.but_last tokens.now }
{
    &tokens[..tokens.len().saturating_sub(1)]
}

/// Adds the tokens of a text but for its end, or says why it has none.
///
/// # Errors
///
/// `AllocError` if a growth is refused. There may be more texts than before then.
pub fn add_tokens(
    alloc: Global,
    spellings: &mut Spellings,
    text: &[u8],
    found: &mut Vec<Token>,
) -> Result<Result<(), Excess>, AllocError>
    ensures { IfOk result (λ done. MatchResult done
        (λ _. spec.Adds spellings.old text.now found.old.items spellings.new found.new.items)
        (λ excess. IsExcess spellings.old text.now excess)) }
{
    match tokens(alloc, spellings, text)? {
        Err(excess) => Ok(Err(excess)),
        Ok(tokens) => {
            let _count = spellings.len();
            found.extend_from_slice(but_last(tokens.as_slice()))?;
            Ok(Ok(()))
        }
    }
}
