//! Reads the body of a function.

ghost use Rattle.flt_c_syntax.specs.Body as spec;
ghost use Rattle.flt_c_syntax.specs.Cursor.{Reads};
ghost use Rattle.flt_c_syntax.specs.Statement as reading;
ghost use Rattle.std.specs.Prelude.{◌≡◌, List, IfOk, IfErr, MatchResult};

use crate::class::{Class, Nest};
use crate::cursor::Tokens;
use crate::fault::{ReadError, Reason};
use crate::statement::nested;
use crate::tree::Statement;
use flt_c_tokens::{Kind, Token};
use sqlite_items::Items;
use std::alloc::Global;

/// How deep blocks and brackets may nest.
const MAX_DEPTH: usize = 128;

/// How many tokens a body may have, with the end after it.
const MAX_TOKENS: usize = 65537;

/// The end, which stays.
#[tactic(auto, unfolding(crate::specs::Statement::end))]
fn end(tokens: &mut Tokens<'_>) -> Result<(), ReadError>
    ensures { Reads (reading.end tokens.old.rest.now) result tokens.new.rest.now }
{
    if tokens.sees(Kind::End) {
        Ok(())
    } else {
        Err(tokens.refuse())
    }
}

/// A block, and the end.
#[tactic(auto, unfolding(crate::specs::Statement::function_body))]
fn function_body(
    alloc: Global,
    known: &[Class],
    tokens: &mut Tokens<'_>,
) -> Result<Items<Statement>, ReadError>
    ensures { Reads (reading.function_body known.now tokens.old.rest.now) result tokens.new.rest.now }
{
    if !tokens.sees(Kind::OpenBrace) {
        return Err(tokens.refuse());
    }
    let found = nested(alloc, known, tokens, MAX_DEPTH, Nest::Body)?;
    end(tokens)?;
    Ok(found)
}

#[tactic(auto, unfolding(crate::specs::Body::bounded_body))]
fn bounded_body(
    alloc: Global,
    known: &[Class],
    tokens: &mut Tokens<'_>,
    limit: usize,
) -> Result<Items<Statement>, ReadError>
    ensures { Reads (spec.bounded_body known.now limit tokens.old.rest.now) result tokens.new.rest.now }
{
    if limit < tokens.rest.len() {
        let beyond = Tokens {
            rest: &tokens.rest[limit..],
        };
        return Err(beyond.fault(Reason::TooLong));
    }
    function_body(alloc, known, tokens)
}

/// The statements that the tokens of a function's body spell: `{`, statements, `}` and the end. `known` has the class of each word by its
/// number. Other tokens have a fault: the first one at which reading stops.
#[tactic(auto, using(crate::proofs::Laws::is_spelled, crate::proofs::Laws::is_found, crate::proofs::Laws::is_fault))]
pub fn read_body(
    alloc: Global,
    known: &[Class],
    tokens: &[Token],
) -> Result<Items<Statement>, ReadError>
    ensures spelled { IfOk result (λ ss. spec.Spells known.now tokens.now ss) }
    ensures read { (ss : List Statement) → spec.Spells known.now tokens.now ss →
        MatchResult result (λ found. found ≡ ss) (λ e. e ≡ ReadError.OutOfMemory) }
    ensures fault { IfErr result (spec.IsFaultOf (spec.body_of known.now tokens.now)) }
{
    let mut tokens = Tokens { rest: tokens };
    bounded_body(alloc, known, &mut tokens, MAX_TOKENS)
}

/// No tokens spell two trees.
#[tactic(auto, using(crate::proofs::Laws::only_one))]
pub fn spells_at_most_one()
    ensures { spec.SpellsAtMostOne }
{}
