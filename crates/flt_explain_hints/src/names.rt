//! The names that a text declares, and names that it hasn't.

ghost use Rattle.std.specs.Prelude.{◌≡◌, [], map, IfOk};
ghost use Rattle.flt_explain_hints.specs.Names as spec;
ghost use Rattle.flt_explain_hints.specs.Spot.{tokens_of};
ghost use Rattle.flt_syntax.specs.Cursor as cursor;
ghost use Rattle.flt_tree.specs.Names as names;

use flt_syntax::{Kind, Token, bytes_of};
use sqlite_items::Items;
use std::alloc::{AllocError, Global};

/// The number of names that are considered at most: a text that parses declares fewer.
const MAX_NAMES: usize = 32;

/// Whether the name of a lock or a routine follows.
fn declares(kind: Kind) -> bool
    ensures { result ≡ spec.declares kind }
{
    matches!(
        kind,
        Kind::Spin
            | Kind::Fast
            | Kind::Push
            | Kind::DeferredPre
            | Kind::DeferredPost
            | Kind::Generic
    )
}

fn is_symbol(kind: Kind) -> bool
    ensures { result ≡ cursor.is_symbol kind }
{
    matches!(
        kind,
        Kind::OpenBrace
            | Kind::CloseBrace
            | Kind::Assign
            | Kind::Equal
            | Kind::NotEqual
            | Kind::Less
            | Kind::Plus
            | Kind::Minus
    )
}

fn is_other(kind: Kind) -> bool
    ensures { result ≡ cursor.is_other kind }
{
    matches!(
        kind,
        Kind::Number | Kind::Stray | Kind::Malformed | Kind::End
    )
}

/// Whether a token may be a name, as any word may.
fn is_word(kind: Kind) -> bool
    ensures { result ≡ cursor.is_word kind }
{
    !is_symbol(kind) && !is_other(kind)
}

/// The words directly after one that a name follows.
fn names_behind<'a>(
    alloc: Global,
    text: &'a [u8],
    tokens: &[Token],
) -> Result<Items<&'a [u8]>, AllocError>
    ensures { IfOk result (λ ns. map (λ n. n.now) ns ≡ spec.names_behind text.now Kind.End tokens.now) }
{
    let mut found = Items::new(alloc);
    let mut before = Kind::End;
    for token in tokens {
        let kind = token.word.kind;
        if declares(before) && is_word(kind) {
            found.push(bytes_of(text, *token))?;
        }
        before = kind;
    }
    Ok(found)
}

/// Whether a name is among others.
pub(crate) fn has_name(others: &[&[u8]], name: &[u8]) -> bool
    ensures { result ≡ names.has_name name.now (map (λ n. n.now) others.now) }
{
    for other in others {
        if name == *other {
            return true;
        }
    }
    false
}

/// Whether a name is considered after others.
fn is_looked_at(others: &[&[u8]], name: &[u8]) -> bool
    ensures { result ≡ spec.is_looked_at (map (λ n. n.now) others.now) name.now }
{
    others.len() < MAX_NAMES && !has_name(others, name)
}

/// Some names, each once, as many as are considered.
fn each_once<'a>(alloc: Global, names: &[&'a [u8]]) -> Result<Items<&'a [u8]>, AllocError>
    ensures { IfOk result (λ ns. map (λ n. n.now) ns ≡ spec.each_once [] (map (λ n. n.now) names.now)) }
{
    let mut found = Items::new(alloc);
    for name in names {
        if is_looked_at(found.as_slice(), name) {
            found.push(*name)?;
        }
    }
    Ok(found)
}

/// The names of locks and routines that a text declares, each once.
#[tactic(auto, unfolding(crate::specs::Names::declared_names))]
pub(crate) fn declared_names<'a>(
    alloc: Global,
    text: &'a [u8],
    tokens: &[Token],
) -> Result<Items<&'a [u8]>, AllocError>
    requires { tokens.now ≡ tokens_of text.now }
    ensures { IfOk result (λ ns. map (λ n. n.now) ns ≡ spec.declared_names text.now) }
{
    let names = names_behind(alloc, text, tokens)?;
    each_once(alloc, names.as_slice())
}

/// Whether a text declares a lock or a routine of a name.
#[tactic(auto, unfolding(crate::specs::Names::declares_name))]
pub(crate) fn declares_name(text: &[u8], tokens: &[Token], name: &[u8]) -> bool
    ensures { result ≡ spec.declares_name text.now tokens.now name.now }
{
    let mut before = Kind::End;
    for token in tokens {
        if declares(before) && bytes_of(text, *token) == name {
            return true;
        }
        before = token.word.kind;
    }
    false
}
