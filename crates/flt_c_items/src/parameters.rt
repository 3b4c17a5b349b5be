//! The parameters of a function, and the names of a `typedef`.

ghost use Rattle.std.specs.Prelude.{◌≡◌, ◌++◌, IfOk, OnOk};
ghost use Rattle.flt_c_items.specs.Declarators as spec;

use crate::declarator::{Declarator, declared, name_of, no_declarator, stands_outside, type_of};
use crate::item::Parameter;
use crate::kind::closes;
use crate::words::Words;
use flt_c_tokens::{Kind, Token};
use sqlite_items::Items;
use std::alloc::{AllocError, Global};

/// The parameter that a declarator says.
fn parameter(d: Declarator) -> Parameter
    ensures { result ≡ spec.parameter d }
{
    Parameter {
        name: name_of(d),
        type_word: type_of(d),
        stars: d.stars,
    }
}

/// Whether there is no parameter: nothing, or `void`, or `VOID`.
fn is_nothing(words: &Words, d: Declarator) -> bool
    ensures { result ≡ spec.is_nothing words.now d }
{
    d.is_empty
        || name_of(d) == 0 && d.type_word == words.nothing && d.stars == 0
        || d.type_word == 0 && d.last == words.no_value && d.stars == 0
}

/// Adds the last parameter, if there is one.
fn add_last(words: &Words, d: Declarator, found: &mut Items<Parameter>) -> Result<(), AllocError>
    ensures { OnOk result (found.new ≡ found.old ++ spec.last_parameter words.now d) }
{
    if !is_nothing(words, d) {
        found.push(parameter(d))?;
    }
    Ok(())
}

/// The parameters of the tokens after their `(`.
fn parameters_behind(
    alloc: Global,
    words: &Words,
    tokens: &[Token],
) -> Result<Items<Parameter>, AllocError>
    ensures { IfOk result (λ found. found ≡ spec.parameters_from words.now spec.no_declarator tokens.now) }
{
    let mut found = Items::new(alloc);
    let mut d = no_declarator();
    let mut rest = tokens;
    while let [token, after @ ..] = rest {
        if d.depth == 0 && closes(token.kind) {
            add_last(words, d, &mut found)?;
            return Ok(found);
        }
        if stands_outside(Kind::Comma, d, *token) {
            found.push(parameter(d))?;
            d = no_declarator();
        } else {
            d = declared(d, *token);
        }
        rest = after;
    }
    add_last(words, d, &mut found)?;
    Ok(found)
}

/// The parameters of the tokens from their `(` on.
#[tactic(auto, unfolding(crate::specs::Declarators::parameters))]
pub(crate) fn parameters(
    alloc: Global,
    words: &Words,
    tokens: &[Token],
) -> Result<Items<Parameter>, AllocError>
    ensures { IfOk result (λ found. found ≡ spec.parameters words.now tokens.now) }
{
    match tokens {
        [] => Ok(Items::new(alloc)),
        [_, rest @ ..] => parameters_behind(alloc, words, rest),
    }
}

/// Adds a name, if there is one.
fn add_name(word: u32, found: &mut Items<u32>) -> Result<(), AllocError>
    ensures { OnOk result (found.new ≡ found.old ++ spec.some_name word) }
{
    if word != 0 {
        found.push(word)?;
    }
    Ok(())
}

/// The names that the tokens after `typedef` give.
#[tactic(auto, unfolding(crate::specs::Declarators::names))]
pub(crate) fn names(alloc: Global, tokens: &[Token]) -> Result<Items<u32>, AllocError>
    ensures { IfOk result (λ found. found ≡ spec.names tokens.now) }
{
    let mut found = Items::new(alloc);
    let mut d = no_declarator();
    let mut rest = tokens;
    while let [token, after @ ..] = rest {
        if stands_outside(Kind::Comma, d, *token) {
            add_name(name_of(d), &mut found)?;
            d = no_declarator();
        } else {
            d = declared(d, *token);
        }
        rest = after;
    }
    add_name(name_of(d), &mut found)?;
    Ok(found)
}
