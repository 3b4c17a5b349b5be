//! The chunks of a file.

ghost use Rattle.std.specs.Prelude.{◌≡◌, ◌++◌, IfOk, OnOk};
ghost use Rattle.flt_c_items.specs.Cutting as spec;

use crate::chunk::Chunk;
use crate::state::{State, fresh, left, step};
use crate::words::Words;
use flt_c_tokens::Token;
use std::alloc::{AllocError, Global};

/// Adds the chunk that is left after the last token, if it has tokens.
fn finish(state: &State, at: usize, found: &mut Vec<Chunk>) -> Result<(), AllocError>
    ensures { OnOk result (found.new.items ≡ found.old.items ++ spec.rest_of state.now at) }
{
    if state.front.from < at {
        found.push(Chunk {
            from: state.front.from,
            to: at,
            ending: left(state.front),
        })?;
    }
    Ok(())
}

/// Cuts the tokens of a file into chunks.
#[tactic(auto, unfolding(crate::specs::Cutting::chunks))]
pub(crate) fn chunks(
    alloc: Global,
    words: &Words,
    tokens: &[Token],
) -> Result<Vec<Chunk>, AllocError>
    ensures { IfOk result (λ found. found.items ≡ spec.chunks words.now tokens.now) }
{
    let mut found = Vec::new(alloc);
    let mut state = fresh(alloc, 0, 0);
    let mut at = 0;
    let mut rest = tokens;
    while let [token, after @ ..] = rest {
        step(alloc, words, &mut state, at, *token, &mut found)?;
        at += 1;
        rest = after;
    }
    finish(&state, at, &mut found)?;
    Ok(found)
}
